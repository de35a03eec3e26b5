//! All pages of a world.

use index_model::Entry;
use page_codec::{Items, Page, PageState};
use std::alloc::{AllocError, Global};
use tests_reference::is_among;
use tests_support::plain::page_in;
use tests_support::plain_world::PlainWorld;

/// Copies of all pages; of fewer, if a page is refused.
pub fn copies<W: PlainWorld>(alloc: Global, world: &mut W) -> Result<Vec<Page>, AllocError> {
    let mut pages = Vec::new(alloc);
    for block in 0..world.used() {
        if let Ok(page) = page_in(world, block) {
            pages.push(page)?;
        }
    }
    Ok(pages)
}

fn are_same_items(a: &Items, b: &Items) -> bool {
    match (a, b) {
        (Items::Meta, Items::Meta) => true,
        (Items::Entries(a), Items::Entries(b)) => a.as_slice() == b.as_slice(),
        (Items::Downlinks(a), Items::Downlinks(b)) => a.as_slice() == b.as_slice(),
        _ => false,
    }
}

/// Whether they are the same.
pub fn is_same(a: &Page, b: &Page) -> bool {
    a.block == b.block
        && a.level == b.level
        && a.state == b.state
        && a.split == b.split
        && a.left == b.left
        && a.right == b.right
        && a.high == b.high
        && a.cycle == b.cycle
        && a.deletion == b.deletion
        && are_same_items(&a.items, &b.items)
}

/// Whether the world's pages are these.
pub fn are_kept<W: PlainWorld>(world: &mut W, pages: &[Page]) -> bool {
    if world.used() as usize != pages.len() {
        return false;
    }
    for page in pages {
        match page_in(world, page.block) {
            Ok(now) => {
                if !is_same(&now, page) {
                    return false;
                }
            }
            Err(_) => return false,
        }
    }
    true
}

/// The entries of a live leaf.
fn entries_of(page: &Page) -> &[Entry] {
    match page {
        Page {
            state: PageState::Live,
            items: Items::Entries(entries),
            ..
        } => entries.as_slice(),
        _ => &[],
    }
}

/// Whether a live leaf has the entry.
pub fn is_on(pages: &[Page], entry: &Entry) -> bool {
    pages.iter().any(|page| is_among(entries_of(page), entry))
}

/// The entries of the live leaves.
pub fn contents(alloc: Global, pages: &[Page]) -> Result<Vec<Entry>, AllocError> {
    let mut found = Vec::new(alloc);
    for page in pages {
        found.extend_from_slice(entries_of(page))?;
    }
    Ok(found)
}

/// The entries that stood on the live leaves of the first pages and don't stand on those of the second.
pub fn lost(alloc: Global, old: &[Page], new: &[Page]) -> Result<Vec<Entry>, AllocError> {
    let mut found = Vec::new(alloc);
    for page in old {
        for entry in entries_of(page) {
            if !is_on(new, entry) {
                found.push(*entry)?;
            }
        }
    }
    Ok(found)
}

/// The level of the root.
pub fn root_level(pages: &[Page]) -> u8 {
    match pages {
        [meta, ..] => meta.level,
        [] => 0,
    }
}

/// How many splits are half done.
pub fn incomplete(pages: &[Page]) -> usize {
    pages.iter().filter(|page| page.split).count()
}

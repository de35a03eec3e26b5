//! Whether pages are a B-link tree, and whether they are of a unique index, by the definition and as plainly
//! as it is said: no mark is kept, and each chain is looked through again for each of its pages.

use index_model::{Bound, Entry, Key};
use page_codec::{Downlink, Items, Page, PageState};
use std::alloc::{AllocError, Global};

/// A place of a chain: its block, and what is known before its page is read.
#[derive(Clone, Copy)]
struct Here {
    block: u32,
    /// The high key of the nearest page to the left that isn't half-dead.
    low: Option<Bound>,
    /// The page to the left.
    left: Option<u32>,
    /// Whether that has an incomplete split.
    left_is_split: bool,
}

fn number_of(place: usize) -> u32 {
    u32::try_from(place).unwrap_or(0)
}

fn entries_on(page: &Page) -> &[Entry] {
    match &page.items {
        Items::Entries(entries) => entries.as_slice(),
        Items::Meta | Items::Downlinks(_) => &[],
    }
}

fn links_on(page: &Page) -> &[Downlink] {
    match &page.items {
        Items::Downlinks(links) => links.as_slice(),
        Items::Meta | Items::Entries(_) => &[],
    }
}

/// Whether the low is less, none being below all.
fn is_beyond(low: &Option<Bound>, bound: &Bound) -> bool {
    match low {
        Some(low) => low < bound,
        None => true,
    }
}

/// Whether the low is less than the high, if there is one.
fn rises(low: &Option<Bound>, high: &Option<Bound>) -> bool {
    match high {
        Some(high) => is_beyond(low, high),
        None => true,
    }
}

fn is_at_most(bound: &Bound, high: &Option<Bound>) -> bool {
    match high {
        Some(high) => bound <= high,
        None => true,
    }
}

/// Whether entries ascend, beyond the low and within the high.
fn entries_ascend(low: Option<Bound>, entries: &[Entry], high: &Option<Bound>) -> bool {
    let mut low = low;
    for entry in entries {
        if !is_beyond(&low, &entry.bound()) || !is_at_most(&entry.bound(), high) {
            return false;
        }
        low = Some(entry.bound());
    }
    true
}

/// Whether there are downlinks, whose first bound is none and whose others ascend between the low and the
/// high.
fn bounds_ascend(low: Option<Bound>, links: &[Downlink], high: &Option<Bound>) -> bool {
    let Some(first) = links.first() else {
        return false;
    };
    let mut low = low;
    for link in links.iter().skip(1) {
        let Some(bound) = &link.bound else {
            return false;
        };
        if !is_beyond(&low, bound) || !rises(&link.bound, high) {
            return false;
        }
        low = link.bound;
    }
    first.bound.is_none()
}

/// Whether its state lets the page stand there. A live one has what its level has. A half-dead one is an
/// empty leaf, and not the rightmost. Neither it nor the page before it has an incomplete split. A deleted
/// one stands nowhere.
fn fits_state(page: &Page, level: u32, here: &Here) -> bool {
    match page.state {
        PageState::Live => {
            let ascends = if level == 0 {
                entries_ascend(here.low, entries_on(page), &page.high)
            } else {
                bounds_ascend(here.low, links_on(page), &page.high)
            };
            ascends && rises(&here.low, &page.high)
        }
        PageState::HalfDead => {
            let is_empty = level == 0 && entries_on(page).is_empty();
            is_empty && !page.split && !here.left_is_split && page.high.is_some()
        }
        PageState::Deleted => false,
    }
}

/// Whether the page stands rightly on this level, at this place.
fn is_placed(page: &Page, level: u32, here: &Here) -> bool {
    u32::from(page.level) == level
        && page.left == here.left
        && page.high.is_some() == page.right.is_some()
        && fits_state(page, level, here)
}

/// What is known before the page after this one.
fn past(page: &Page, here: &Here, block: u32) -> Here {
    let low = match page.state {
        PageState::Live => page.high,
        PageState::HalfDead | PageState::Deleted => here.low,
    };
    Here {
        block,
        low,
        left: Some(here.block),
        left_is_split: page.split,
    }
}

/// Whether a page in use, neither deleted nor the metapage, is of this level.
fn is_of(page: &Page, block: u32, level: u32) -> bool {
    0 < block && page.state != PageState::Deleted && u32::from(page.level) == level
}

/// The first page of a level without a left link. If there are two, one of them is on no chain.
fn leftmost(pages: &[Page], level: u32) -> Option<Here> {
    for (place, page) in pages.iter().enumerate() {
        let block = number_of(place);
        if is_of(page, block, level) && page.left.is_none() {
            return Some(Here {
                block,
                low: None,
                left: None,
                left_is_split: false,
            });
        }
    }
    None
}

fn has(chain: &[Here], block: u32) -> bool {
    chain.iter().any(|here| here.block == block)
}

/// Puts the places of a level's chain after each other. Whether each page stands rightly, none is met twice,
/// and the chain ends.
fn walk(pages: &[Page], level: u32, chain: &mut Vec<Here>) -> Result<bool, AllocError> {
    let mut next = leftmost(pages, level);
    for _ in 0..pages.len() {
        let Some(here) = next else {
            return Ok(true);
        };
        let Some(page) = pages.get(here.block as usize) else {
            return Ok(false);
        };
        if here.block == 0 || has(chain.as_slice(), here.block) || !is_placed(page, level, &here) {
            return Ok(false);
        }
        chain.push(here)?;
        next = match page.right {
            Some(block) => Some(past(page, &here, block)),
            None => None,
        };
    }
    Ok(next.is_none())
}

/// Whether each page of the level is on its chain.
fn are_all_on(pages: &[Page], level: u32, chain: &[Here]) -> bool {
    for (place, page) in pages.iter().enumerate() {
        let block = number_of(place);
        if is_of(page, block, level) && !has(chain, block) {
            return false;
        }
    }
    true
}

/// The downlinks that the pages of a chain are to have, in order: each with its low, but those that are
/// half-dead or after a page with an incomplete split.
fn put_due(pages: &[Page], chain: &[Here], due: &mut Vec<Downlink>) -> Result<(), AllocError> {
    for here in chain {
        if let Some(page) = pages.get(here.block as usize) {
            if page.state == PageState::Live && !here.left_is_split {
                due.push(Downlink {
                    bound: here.low,
                    child: here.block,
                })?;
            }
        }
    }
    Ok(())
}

/// The downlinks on a page, with its low for the first bound.
fn put_links(page: &Page, here: &Here, found: &mut Vec<Downlink>) -> Result<(), AllocError> {
    for (item, link) in links_on(page).iter().enumerate() {
        let bound = if item == 0 { here.low } else { link.bound };
        found.push(Downlink {
            bound,
            child: link.child,
        })?;
    }
    Ok(())
}

/// Whether the downlinks of a chain are those that the chain below is to have.
fn are_parents(
    alloc: Global,
    pages: &[Page],
    above: &[Here],
    below: &[Here],
) -> Result<bool, AllocError> {
    let mut due = Vec::new(alloc);
    put_due(pages, below, &mut due)?;
    let mut found = Vec::new(alloc);
    for here in above {
        if let Some(page) = pages.get(here.block as usize) {
            put_links(page, here, &mut found)?;
        }
    }
    Ok(due.as_slice() == found.as_slice())
}

/// Whether the root's level is the root alone, or the root with an incomplete split and one page.
fn is_root_level(root: u32, chain: &[Here]) -> bool {
    match chain {
        [only] => only.block == root,
        [first, second] => first.block == root && second.left_is_split,
        _ => false,
    }
}

/// Whether the levels from this one down are chains, each with the downlinks for the one below. The chain
/// above is that of the level above.
fn are_levels(
    alloc: Global,
    pages: &[Page],
    top: u32,
    above: Vec<Here>,
) -> Result<bool, AllocError> {
    let mut above = above;
    for depth in 1..top.saturating_add(1) {
        let level = top.saturating_sub(depth);
        let mut chain = Vec::new(alloc);
        if !walk(pages, level, &mut chain)? || !are_all_on(pages, level, chain.as_slice()) {
            return Ok(false);
        }
        if !are_parents(alloc, pages, above.as_slice(), chain.as_slice())? {
            return Ok(false);
        }
        above = chain;
    }
    Ok(true)
}

/// Whether no page but a deleted one is of a level above the root's.
fn are_low(pages: &[Page], top: u32) -> bool {
    pages.iter().all(|page| page.state == PageState::Deleted || u32::from(page.level) <= top)
}

/// Whether the bound names a row.
fn is_whole(bound: &Option<Bound>) -> bool {
    match bound {
        Some(bound) => bound.row.is_some(),
        None => false,
    }
}

/// Whether no entry has the key of the one before it.
fn do_keys_differ(entries: &[Entry]) -> bool {
    let mut before: Option<Key> = None;
    for entry in entries {
        if before == Some(entry.key) {
            return false;
        }
        before = Some(entry.key);
    }
    true
}

/// Whether no bound of these pages names a row, and no two entries of one page have one key.
pub fn are_unique(pages: &[Page]) -> bool {
    pages.iter().all(|page| {
        !is_whole(&page.high)
            && !links_on(page).iter().any(|link| is_whole(&link.bound))
            && do_keys_differ(entries_on(page))
    })
}

/// Whether the pages are a B-link tree.
pub fn is_tree(alloc: Global, pages: &[Page]) -> Result<bool, AllocError> {
    let Some(meta) = pages.first() else {
        return Ok(false);
    };
    let (Items::Meta, Some(root)) = (&meta.items, meta.right) else {
        return Ok(false);
    };
    let top = u32::from(meta.level);
    let mut chain = Vec::new(alloc);
    let is_chain = walk(pages, top, &mut chain)? && are_all_on(pages, top, chain.as_slice());
    if !is_chain || !is_root_level(root, chain.as_slice()) || !are_low(pages, top) {
        return Ok(false);
    }
    are_levels(alloc, pages, top, chain)
}

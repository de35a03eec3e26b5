//! Copies and edits of pages.

ghost use Rattle.std.specs.Prelude.{◌≡◌, ◌<◌, ◌≤◌, ◌+◌, [], length, insert, take, drop};
ghost use Rattle.page_codec.specs.Edits.{entries_of, HasEntries, with_entries};

use crate::page::{Downlink, Items, Page, PageState};
use arrayvec::ArrayVec;
use index_model::{Bound, Entry, Key, RowAddr};

// Makes the list in place that of another page.
fn copy_list<T: Copy + Default + Drop>(list: &ArrayVec<T, 50>, target: &mut ArrayVec<T, 50>)
    ensures { target.new ≡ list.now }
{
    let source = list.as_slice();
    target.truncate(source.len());
    let kept = target.len();
    target.as_mut_slice().copy_from_slice(&source[..kept]);
    let _ = target.try_extend_from_slice(&source[kept..]);
}

/// Takes all entries out of a page's items, or makes room for some if there were none.
#[inline(never)]
pub fn clear_entries(items: &mut Items)
    ensures { items.new ≡ Items.Entries (record { items = [] }) }
{
    match items {
        Items::Entries(list) => list.clear(),
        _ => *items = Items::Entries(ArrayVec::new()),
    }
}

// Makes room for downlinks if there were none.
#[inline(never)]
fn clear_links(items: &mut Items)
    ensures { items.new ≡ Items.Downlinks (record { items = [] }) }
{
    *items = Items::Downlinks(ArrayVec::new());
}

// Makes the items those of a page of another kind.
fn replace_items(items: &Items, target: &mut Items)
    ensures { target.new ≡ items.now }
{
    match items {
        Items::Meta => *target = Items::Meta,
        Items::Entries(entries) => {
            clear_entries(target);
            if let Items::Entries(list) = target {
                copy_list(entries, list);
            }
        }
        Items::Downlinks(links) => {
            clear_links(target);
            if let Items::Downlinks(list) = target {
                copy_list(links, list);
            }
        }
    }
}

// Makes the items those of another page, in place if both are of one kind.
fn copy_items(items: &Items, target: &mut Items)
    ensures { target.new ≡ items.now }
{
    match (items, &mut *target) {
        (Items::Entries(entries), Items::Entries(kept)) => copy_list(entries, kept),
        (Items::Downlinks(links), Items::Downlinks(kept)) => copy_list(links, kept),
        _ => replace_items(items, target),
    }
}

impl Page {
    /// The same page again. It takes no memory, and about as long as a decode of an empty leaf.
    pub fn copy(&self) -> Page
        ensures { result ≡ self.now }
    {
        let mut page = Page::blank();
        self.copy_to(&mut page);
        page
    }

    /// Makes another page the same as this one, in its place: quicker than a copy if both are of one kind.
    pub fn copy_to(&self, target: &mut Page)
        ensures { target.new ≡ self.now }
    {
        target.layout = self.layout;
        target.block = self.block;
        target.level = self.level;
        target.state = self.state;
        target.split = self.split;
        target.left = self.left;
        target.right = self.right;
        target.high = self.high;
        target.cycle = self.cycle;
        target.deletion = self.deletion;
        copy_items(&self.items, &mut target.items);
    }
}

/// Puts an entry at a place of a leaf, 0 to the number of its entries; those from there on move up
/// by one.
pub fn add_entry(page: &mut Page, at: usize, entry: Entry)
    requires leaf { HasEntries page.old.items }
    requires room { length (entries_of page.old.items) < 50 }
    requires place { at ≤ length (entries_of page.old.items) }
    ensures { page.new ≡ with_entries page.old (insert (entries_of page.old.items) at entry) }
{
    if let Items::Entries(entries) = &mut page.items {
        entries.insert(at, entry);
    }
}

/// Keeps the first `at` entries of a leaf, and gives those after them.
pub fn cut_entries(page: &mut Page, at: usize) -> ArrayVec<Entry, 50>
    requires leaf { HasEntries page.old.items }
    requires place { at ≤ length (entries_of page.old.items) }
    ensures kept { page.new ≡ with_entries page.old (take at (entries_of page.old.items)) }
    ensures right_part { result.items ≡ drop at (entries_of page.old.items) }
{
    let mut right_part = ArrayVec::new();
    if let Items::Entries(entries) = &mut page.items {
        let _ = right_part.try_extend_from_slice(&entries.as_slice()[at..]);
        entries.truncate(at);
    }
    right_part
}

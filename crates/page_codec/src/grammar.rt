//! Judges whether the format admits a page.

ghost use Rattle.std.specs.Prelude.{◌≡◌, ◌↔◌, ◌≤◌, IsTrue, IfSome, List, length};
ghost use Rattle.std.specs.List.{AllByRecursion};
ghost use Rattle.index_model.specs.Order.{IsEntry, IsUpTo};
ghost use Rattle.page_codec.specs.Grammar.{IsBlock, IsBoundIn, IsDownlink, EntryInPlace, LinkInPlace, Below, AreEntries, AreLinks, StartsLow, IsMeta, IsLiveLeaf, IsHalfDeadLeaf, IsDeletedLeaf, IsLeaf, IsInternal, IsOfKind, IsPage};

use crate::page::{Downlink, Items, Page, PageState};
use index_model::{Bound, Entry, Key, Layout, RowAddr};

fn is_block(n: u32) -> bool
    ensures { IsTrue result ↔ IsBlock n }
{
    0 < n && n < 65536
}

fn is_link(link: Option<u32>) -> bool
    ensures { IsTrue result ↔ IfSome link IsBlock }
{
    match link {
        None => true,
        Some(n) => is_block(n),
    }
}

fn is_bound_in(layout: Layout, bound: &Bound) -> bool
    ensures { IsTrue result ↔ IsBoundIn layout bound.now }
{
    let len = bound.key.len();
    match &bound.row {
        None => match layout {
            Layout::One => false,
            Layout::Two => len > 0,
        },
        Some(row) => {
            let _row = row.block();
            true
        }
    }
}

fn is_slot(layout: Layout, bound: &Option<Bound>) -> bool
    ensures { IsTrue result ↔ IfSome bound.now (IsBoundIn layout) }
{
    match bound {
        None => true,
        Some(bound) => is_bound_in(layout, bound),
    }
}

fn is_up_to(high: &Option<Bound>, entry: &Entry) -> bool
    ensures { IsTrue result ↔ IsUpTo high.now entry.now }
{
    match high {
        None => true,
        Some(high) => !high.is_below(entry),
    }
}

// Whether it is less than the first of those after it, or, if it is the last, at most the high key.
fn is_entry_in_place(entry: &Entry, tail: &[Entry], high: &Option<Bound>) -> bool
    ensures { IsTrue result ↔ EntryInPlace high.now entry.now tail.now }
{
    match tail {
        [] => is_up_to(high, entry),
        [next, ..] => entry < next,
    }
}

fn are_entries(entries: &[Entry], high: &Option<Bound>) -> bool
    ensures { IsTrue result ↔ AreEntries high.now entries.now }
{
    let mut rest = entries;
    while let [first, tail @ ..] = rest {
        first.seen();
        if !is_entry_in_place(first, tail, high) {
            return false;
        }
        rest = tail;
    }
    true
}

fn is_downlink(layout: Layout, link: &Downlink) -> bool
    ensures { IsTrue result ↔ IsDownlink layout link.now }
{
    is_slot(layout, &link.bound) && is_block(link.child)
}

fn is_below(high: &Option<Bound>, link: &Downlink) -> bool
    ensures { IsTrue result ↔ Below high.now link.now }
{
    match high {
        None => true,
        Some(_) => link.bound < *high,
    }
}

// Whether its bound is less than that of the first of those after it, or, if it is the last, than the high
// key.
fn is_link_in_place(link: &Downlink, tail: &[Downlink], high: &Option<Bound>) -> bool
    ensures { IsTrue result ↔ LinkInPlace high.now link.now tail.now }
{
    match tail {
        [] => is_below(high, link),
        [next, ..] => link.bound < next.bound,
    }
}

fn are_links(layout: Layout, links: &[Downlink], high: &Option<Bound>) -> bool
    ensures { IsTrue result ↔ AreLinks layout high.now links.now }
{
    let mut rest = links;
    while let [first, tail @ ..] = rest {
        if !is_downlink(layout, first) || !is_link_in_place(first, tail, high) {
            return false;
        }
        rest = tail;
    }
    true
}

fn starts_low(links: &[Downlink]) -> bool
    ensures { IsTrue result ↔ StartsLow links.now }
{
    match links {
        [] => false,
        [first, ..] => first.bound.is_none(),
    }
}

fn is_live(page: &Page) -> bool
    ensures { IsTrue result ↔ (page.now.state ≡ PageState.Live) }
{
    matches!(page.state, PageState::Live)
}

fn is_meta(page: &Page) -> bool
    ensures { IsTrue result ↔ IsMeta page.now }
{
    page.block == 0
        && page.level <= 31
        && is_live(page)
        && !page.split
        && page.cycle == 0
        && page.deletion == 0
        && page.left.is_none()
        && page.right.is_some()
        && page.high.is_none()
}

fn is_live_leaf(page: &Page, entries: &[Entry]) -> bool
    ensures { IsTrue result ↔ IsLiveLeaf page.now entries.now }
{
    page.deletion == 0
        && page.high.is_some() == page.right.is_some()
        && (!page.split || page.right.is_some())
        && are_entries(entries, &page.high)
}

fn is_half_dead_leaf(page: &Page, entries: &[Entry]) -> bool
    ensures { IsTrue result ↔ IsHalfDeadLeaf page.now entries.now }
{
    page.deletion == 0
        && page.high.is_some()
        && page.right.is_some()
        && !page.split
        && entries.is_empty()
}

fn is_deleted_leaf(page: &Page, entries: &[Entry]) -> bool
    ensures { IsTrue result ↔ IsDeletedLeaf page.now entries.now }
{
    page.left.is_none()
        && page.right.is_some()
        && page.high.is_none()
        && !page.split
        && page.cycle == 0
        && entries.is_empty()
}

fn is_leaf(page: &Page, entries: &[Entry]) -> bool
    requires { length entries.now ≤ 50 }
    ensures { IsTrue result ↔ IsLeaf page.now entries.now }
{
    is_block(page.block)
        && page.level == 0
        && match page.state {
            PageState::Live => is_live_leaf(page, entries),
            PageState::HalfDead => is_half_dead_leaf(page, entries),
            PageState::Deleted => is_deleted_leaf(page, entries),
        }
}

fn is_internal(page: &Page, links: &[Downlink]) -> bool
    requires { length links.now ≤ 50 }
    ensures { IsTrue result ↔ IsInternal page.now links.now }
{
    is_block(page.block)
        && 0 < page.level
        && page.level <= 31
        && is_live(page)
        && page.high.is_some() == page.right.is_some()
        && (!page.split || page.right.is_some())
        && page.cycle == 0
        && page.deletion == 0
        && starts_low(links)
        && are_links(page.layout, links, &page.high)
}

fn is_of_kind(page: &Page) -> bool
    ensures { IsTrue result ↔ IsOfKind page.now page.now.items }
{
    match &page.items {
        Items::Meta => is_meta(page),
        Items::Entries(entries) => is_leaf(page, entries.as_slice()),
        Items::Downlinks(links) => is_internal(page, links.as_slice()),
    }
}

/// Whether the format admits the page: exactly such pages are read from bytes.
pub fn is_page(page: &Page) -> bool
    ensures { IsTrue result ↔ IsPage page.now }
{
    let _cycle = page.cycle;
    let _deletion = page.deletion;
    if !is_link(page.left) {
        return false;
    }
    if !is_link(page.right) {
        return false;
    }
    if !is_slot(page.layout, &page.high) {
        return false;
    }
    is_of_kind(page)
}

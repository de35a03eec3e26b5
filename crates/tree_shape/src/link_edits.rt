//! Downlinks on an internal page, which may have to be split. A page that is changed is one of the second
//! layout then.

ghost use Rattle.std.specs.Prelude.{◌≡◌, ◌≢◌, ◌<◌, ◌≤◌, ◌+◌, ◌↔◌, IsTrue, true, false, Some, None, IfSome, IfNone, All, length, insert, take, drop, unwrap_or};
ghost use Rattle.page_codec.specs.Grammar.{IsBlock, IsPage, IsBoundIn};
ghost use Rattle.page_codec.specs.Edits.{renewed};
ghost use Rattle.tree_shape.specs.Nodes.{node_of, links_of};
ghost use Rattle.tree_shape.specs.Chains.{from_low, IsBeyond, Rises};
ghost use Rattle.tree_shape.specs.Deletion.{handed_on};
ghost use Rattle.tree_shape.specs.Edits.{IsLinkAdded, IsLinkHandedOn, with_links};
ghost use Rattle.tree_shape.specs.Halves.{left_count};
ghost use Rattle.tree_shape.specs.LinkPlaces.{child_at, bound_at, with_downlinks, HasLinks, IsBelowFirst, FitsAfter, LinkSplit};

use crate::parting::{end_at, put_and_part, right_half};
use arrayvec::ArrayVec;
use index_model::{Bound, Layout};
use page_codec::{Downlink, Items, Page};

/// The place of the first downlink that leads to the child. None: none does.
pub fn find_child(links: &[Downlink], child: u32) -> Option<usize>
    ensures inside { IfSome result (λ at. at < length links.now) }
    ensures leads { IfSome result (λ at. child_at links.now at ≡ child) }
    ensures first { IfSome result (λ at. All (λ d. d.child ≢ child) (take at links.now)) }
    ensures none { IfNone result (All (λ d. d.child ≢ child) links.now) }
{
    links.iter().position(|d| d.child == child)
}

fn is_beyond(low: &Option<Bound>, separator: &Bound) -> bool
    ensures { IsTrue result ↔ IsBeyond low.now separator.now }
{
    match low {
        None => true,
        Some(low) => low < separator,
    }
}

fn is_below_first(separator: &Bound, links: &[Downlink]) -> bool
    ensures { IsTrue result ↔ IsBelowFirst separator.now links.now }
{
    match links {
        [] => true,
        [next, ..] => match &next.bound {
            None => false,
            Some(bound) => separator < bound,
        },
    }
}

fn is_below(separator: &Bound, high: &Option<Bound>) -> bool
    ensures { IsTrue result ↔ Rises (Some separator.now) high.now }
{
    match high {
        None => true,
        Some(high) => separator < high,
    }
}

fn tail(links: &[Downlink], at: usize) -> &[Downlink]
    requires { at ≤ length links.now }
    ensures { result.now ≡ drop at links.now }
{
    &links[at..]
}

/// Whether a downlink with the separator for its bound may stand right after the one at `at`, on a
/// page with this high key.
pub fn fits_after(links: &[Downlink], at: usize, separator: &Bound, high: &Option<Bound>) -> bool
    requires { at < length links.now }
    ensures { IsTrue result ↔ FitsAfter links.now at separator.now high.now }
{
    if !is_beyond(&links[at].bound, separator) {
        return false;
    }
    if !is_below_first(separator, tail(links, at + 1)) {
        return false;
    }
    is_below(separator, high)
}

/// Puts a downlink to the page `new`, 1 to 65,535, with the separator for its bound, right after
/// the one at `at`.
pub fn add_link(page: &mut Page, at: usize, separator: Bound, new: u32)
    requires internal { HasLinks page.old.items }
    requires room { length (links_of page.old.items) < 50 }
    requires place { at < length (links_of page.old.items) }
    ensures added { IsLinkAdded (child_at (links_of page.old.items) at) new separator
        (links_of page.old.items) (links_of page.new.items) }
    ensures node { node_of page.new ≡ with_links (node_of page.old) (links_of page.new.items) }
    ensures only { page.new ≡ with_downlinks (renewed page.old) (links_of page.new.items) }
    ensures block { page.new.block ≡ page.old.block }
    ensures count { length (links_of page.new.items) ≡ length (links_of page.old.items) + 1 }
    ensures still_internal { HasLinks page.new.items }
    ensures page { IsPage page.old → IsBlock new → IsBoundIn Layout.Two separator
        → FitsAfter (links_of page.old.items) at separator page.old.high → IsPage page.new }
{
    page.layout = Layout::Two;
    if let Items::Downlinks(links) = &mut page.items {
        let link = Downlink {
            bound: Some(separator),
            child: new,
        };
        links.insert(at + 1, link);
    }
}

fn part_links(page: &mut Page, at: usize, link: Downlink) -> ArrayVec<Downlink, 50>
    requires internal { HasLinks page.old.items }
    requires place { at ≤ length (links_of page.old.items) }
    requires some { 2 ≤ length (links_of page.old.items) }
    ensures kept { page.new ≡ with_downlinks page.old
        (take (left_count (length (links_of page.old.items)))
        (insert (links_of page.old.items) at link)) }
    ensures right_part { result.items
        ≡ drop (left_count (length (links_of page.old.items)))
        (insert (links_of page.old.items) at link) }
{
    let mut right_part = ArrayVec::new();
    if let Items::Downlinks(links) = &mut page.items {
        let keep = (links.len() + 2) / 2;
        put_and_part(links, at, link, keep, &mut right_part);
    }
    right_part
}

fn begin_low(links: &mut ArrayVec<Downlink, 50>, otherwise: &Bound) -> Bound
    ensures low { links.new.items ≡ from_low None links.old.items }
    ensures cut { result ≡ unwrap_or (bound_at links.old.items 0) otherwise.now }
{
    match links.as_mut_slice() {
        [] => *otherwise,
        [first, ..] => {
            let cut = first.bound;
            first.bound = None;
            cut.unwrap_or(*otherwise)
        }
    }
}

/// Splits an internal page of M downlinks, 2 to 50, with one to `child` put right after the one at
/// `at`, the separator for its bound: the page keeps the first (M + 2) / 2 of them, and the answer
/// is its right half, on the block `new`, 1 to 65,535. The bound of the right half's first downlink
/// becomes the left half's high key. The left link of the old right neighbour is left to the caller.
pub fn split_links(page: &mut Page, at: usize, separator: Bound, child: u32, new: u32) -> Page
    requires page { IsPage page.old }
    requires internal { HasLinks page.old.items }
    requires some { 2 ≤ length (links_of page.old.items) }
    requires place { at < length (links_of page.old.items) }
    requires fits { FitsAfter (links_of page.old.items) at separator page.old.high }
    requires bound { IsBoundIn Layout.Two separator }
    requires child { IsBlock child }
    requires block { IsBlock new }

    ensures split { LinkSplit (node_of page.old) page.old.block new
        (child_at (links_of page.old.items) at) child separator (node_of page.new) (node_of result) }
    ensures kept { length (links_of page.new.items)
        ≡ left_count (length (links_of page.old.items)) }
    ensures moved { length (links_of page.new.items) + length (links_of result.items)
        ≡ length (links_of page.old.items) + 1 }

    // The fields that a tree doesn't see.
    ensures left_layout { page.new.layout ≡ Layout.Two }
    ensures right_layout { result.layout ≡ Layout.Two }
    ensures left_block { page.new.block ≡ page.old.block }
    ensures right_block { result.block ≡ new }
    ensures left_cycle { page.new.cycle ≡ 0 }
    ensures right_cycle { result.cycle ≡ 0 }
    ensures left_deletion { page.new.deletion ≡ 0 }
    ensures right_deletion { result.deletion ≡ 0 }

    ensures left_internal { HasLinks page.new.items }
    ensures right_internal { HasLinks result.items }
    ensures left_page { IsPage page.new }
    ensures right_page { IsPage result }
{
    page.layout = Layout::Two;
    let link = Downlink {
        bound: Some(separator),
        child,
    };
    let mut right_part = part_links(page, at + 1, link);
    let cut = begin_low(&mut right_part, &separator);
    let right = right_half(page, Items::Downlinks(right_part), new);
    end_at(page, cut, new);
    right
}

// The downlink at a place leads where the next one does, and that goes.
fn hand_on(links: &mut ArrayVec<Downlink, 50>, at: usize)
    requires next { at + 1 < length links.old.items }
    ensures { links.new.items ≡ handed_on links.old.items at }
{
    let link = Downlink {
        bound: links.as_slice()[at].bound,
        child: links.as_slice()[at + 1].child,
    };
    let _ = links.remove(at + 1);
    let _ = links.remove(at);
    links.insert(at, link);
}

/// Hands the downlink at `at` on to the page to which the next one leads, and takes that next one away.
pub fn hand_on_link(page: &mut Page, at: usize)
    requires internal { HasLinks page.old.items }
    requires next { at + 1 < length (links_of page.old.items) }
    ensures handed { IsLinkHandedOn (child_at (links_of page.old.items) at)
        (child_at (links_of page.old.items) (at + 1)) (links_of page.old.items) (links_of page.new.items) }
    ensures node { node_of page.new ≡ with_links (node_of page.old) (links_of page.new.items) }
    ensures only { page.new ≡ with_downlinks (renewed page.old) (links_of page.new.items) }
    ensures block { page.new.block ≡ page.old.block }
    ensures count { length (links_of page.new.items) + 1 ≡ length (links_of page.old.items) }
    ensures page { IsPage page.old → IsPage page.new }
{
    page.layout = Layout::Two;
    if let Items::Downlinks(links) = &mut page.items {
        hand_on(links, at);
    }
}

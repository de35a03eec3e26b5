//! What is judged of the downlinks of a page of a chain, if all chains are right.

ghost use Rattle.std.specs.Prelude.{◌≡◌, ◌+◌, ◌<◌, ◌≤◌, ◌↔◌, ℕ, suc, true, false, Some, IsTrue, IfNone, IfSome, length, slice_get};
ghost use Rattle.page_codec.specs.declared.page.Downlink.{Downlink};
ghost use Rattle.tree_shape.specs.Chains.{from_low};
ghost use Rattle.tree_shape.specs.Nodes.{nodes_of};
ghost use Rattle.damages.specs.Damages.{index_of, IsOnLevel};
ghost use Rattle.amcheck.specs.AllStops.{PlacesAreOfStops, HaveBlocksOnce};
ghost use Rattle.amcheck.specs.Downlinks.{IsOff, AreBelow, HasOtherLow, HasWrongBound, IsSkipped, LacksLink, IsExtra, HasExtra, DownlinksAreNoted, IsWrongAmong};
ghost use Rattle.amcheck.specs.Stops.{IsLeastNumber};

use crate::chain_places::find_stop;
use crate::pages::Pages;
use crate::places::is_on_level;
use crate::stops::{Stop, low};
use index_model::Bound;
use page_codec::{Downlink, PageState};

/// The downlink at this place, with the low for its bound if it is the first.
fn link_at(low: &Option<Bound>, links: &[Downlink], item: usize) -> Downlink
    requires { item < length links.now }
    ensures { slice_get (from_low low.now links.now) item ≡ Some result }
{
    let link = links[item];
    if item == 0 {
        return Downlink {
            bound: *low,
            child: link.child,
        };
    }
    link
}

/// Whether a child of a page on this level is in use, and on the level below.
fn is_below(pages: &Pages, depth: u8, level: u8, child: u32) -> bool
    requires { level + depth ≡ (index_of pages.now).top }
    ensures { IsTrue result ↔ IsOnLevel (index_of pages.now) (suc depth) child }
{
    if level == 0 {
        return false;
    }
    is_on_level(pages, level - 1, child)
}

/// The first child that isn't on the level below.
pub(crate) fn find_off(
    pages: &Pages,
    depth: u8,
    level: u8,
    low: &Option<Bound>,
    links: &[Downlink],
) -> Option<u32>
    requires { level + depth ≡ (index_of pages.now).top }
    ensures none { IfNone result
        (AreBelow (index_of pages.now) depth (from_low low.now links.now)) }
    ensures some { IfSome result
        (IsOff (index_of pages.now) depth (from_low low.now links.now)) }
{
    for item in 0..links.len() {
        let link = link_at(low, links, item);
        if !is_below(pages, depth, level, link.child) {
            return Some(link.child);
        }
    }
    None
}

/// Whether the two are one bound, minus infinity included.
fn is_same(one: &Option<Bound>, other: &Option<Bound>) -> bool
    ensures { IsTrue result ↔ (one.now ≡ other.now) }
{
    one == other
}

/// Whether the bound of a downlink isn't the low of its child, which is on a chain.
fn has_other_low(pages: &Pages, stops: &[Stop], places: &[Option<u32>], link: &Downlink) -> bool
    requires few { length stops.now ≤ 65536 }
    requires places { PlacesAreOfStops stops.now places.now }
    requires once { HaveBlocksOnce stops.now }
    ensures { IsTrue result ↔ HasOtherLow (nodes_of pages.now) stops.now link.now }
{
    match find_stop(stops, places, link.child) {
        None => false,
        Some(stop) => !is_same(&link.bound, &low(pages, stop.low_at)),
    }
}

/// Whether one of the bounds isn't the low of its child.
fn has_wrong_bound(
    pages: &Pages,
    stops: &[Stop],
    places: &[Option<u32>],
    low: &Option<Bound>,
    links: &[Downlink],
) -> bool
    requires few { length stops.now ≤ 65536 }
    requires places { PlacesAreOfStops stops.now places.now }
    requires once { HaveBlocksOnce stops.now }
    ensures { IsTrue result
        ↔ HasWrongBound (nodes_of pages.now) stops.now (from_low low.now links.now) }
{
    for item in 0..links.len() {
        let link = link_at(low, links, item);
        if has_other_low(pages, stops, places, &link) {
            return true;
        }
    }
    false
}

/// Whether the page of a block in use is to have no downlink: it is half-dead, or right after a page with an
/// incomplete split.
fn is_skipped(pages: &Pages, block: u32, left_is_split: bool) -> bool
    requires { block < length pages.now }
    ensures { IsTrue result ↔ IsSkipped (nodes_of pages.now block) left_is_split }
{
    match pages.sketch(block).state {
        PageState::HalfDead => true,
        PageState::Live | PageState::Deleted => left_is_split,
    }
}

/// Whether a page below the root's level may have a downlink, and none leads to it.
fn lacks_link(pages: &Pages, block: u32, top: u8, left_is_split: bool, is_linked: bool) -> bool
    requires { block < length pages.now }
    ensures { IsTrue result ↔ LacksLink top (nodes_of pages.now block) left_is_split is_linked }
{
    if pages.sketch(block).level >= top {
        return false;
    }
    if is_skipped(pages, block, left_is_split) {
        return false;
    }
    !is_linked
}

/// Whether a downlink to this block, which is in use, is one too many.
fn is_extra(
    pages: &Pages,
    stops: &[Stop],
    places: &[Option<u32>],
    linked: &[bool],
    child: u32,
) -> bool
    requires few { length stops.now ≤ 65536 }
    requires places { PlacesAreOfStops stops.now places.now }
    requires once { HaveBlocksOnce stops.now }
    requires size { length linked.now ≡ length pages.now }
    requires child { child < length pages.now }
    ensures { IsTrue result ↔ IsExtra (nodes_of pages.now) stops.now linked.now child }
{
    let stop = match find_stop(stops, places, child) {
        None => return true,
        Some(stop) => stop,
    };
    if is_skipped(pages, child, stop.left_is_split) {
        return true;
    }
    linked[child as usize]
}

/// Whether one of the downlinks of a page is one too many. If none is, their children are marked.
fn has_extra(
    pages: &Pages,
    stops: &[Stop],
    places: &[Option<u32>],
    linked: &mut [bool],
    low: &Option<Bound>,
    links: &[Downlink],
) -> bool
    requires few { length stops.now ≤ 65536 }
    requires places { PlacesAreOfStops stops.now places.now }
    requires once { HaveBlocksOnce stops.now }
    requires size { length linked.old ≡ length pages.now }
    requires in_use { (item : ℕ) (link : Downlink)
        → slice_get (from_low low.now links.now) item ≡ Some link
        → link.child < length pages.now }
    ensures size { length linked.new ≡ length linked.old }
    ensures extra { IsTrue result
        ↔ HasExtra (nodes_of pages.now) stops.now linked.old (from_low low.now links.now) }
    ensures noted { result ≡ false
        → DownlinksAreNoted (from_low low.now links.now) (length links.now) linked.old linked.new }
{
    for item in 0..links.len() {
        let link = link_at(low, links, item);
        if is_extra(pages, stops, places, linked, link.child) {
            return true;
        }
        linked[link.child as usize] = true;
    }
    false
}

/// The least number of what is wrong with a page among its parents and children, which are on the level
/// below. If nothing is, its children are marked beside those to which earlier pages led.
pub(crate) fn find_parent_number(
    pages: &Pages,
    stops: &[Stop],
    places: &[Option<u32>],
    linked: &mut [bool],
    top: u8,
    low: &Option<Bound>,
    stop: &Stop,
) -> Option<u8>
    requires few { length stops.now ≤ 65536 }
    requires places { PlacesAreOfStops stops.now places.now }
    requires once { HaveBlocksOnce stops.now }
    requires size { length linked.old ≡ length pages.now }
    requires stop { stop.now.block < length pages.now }
    requires in_use { (item : ℕ) (link : Downlink)
        → slice_get (from_low low.now (nodes_of pages.now stop.now.block).links) item ≡ Some link
        → link.child < length pages.now }
    ensures size { length linked.new ≡ length linked.old }
    ensures least { IsLeastNumber (IsWrongAmong (nodes_of pages.now) stops.now linked.old
        (from_low low.now (nodes_of pages.now stop.now.block).links) top
        (nodes_of pages.now stop.now.block) stop.now) result }
    ensures noted { IfNone result
        (DownlinksAreNoted (from_low low.now (nodes_of pages.now stop.now.block).links)
        (length (nodes_of pages.now stop.now.block).links) linked.old linked.new) }
{
    let links = pages.links(stop.block);
    if has_wrong_bound(pages, stops, places, low, links) {
        return Some(7);
    }
    let is_linked = linked[stop.block as usize];
    if lacks_link(pages, stop.block, top, stop.left_is_split, is_linked) {
        return Some(8);
    }
    if has_extra(pages, stops, places, linked, low, links) {
        return Some(9);
    }
    None
}

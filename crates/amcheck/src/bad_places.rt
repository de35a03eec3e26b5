//! The first damage of a level's chain, as a walk found it. Its stops are judged in one thread or in many.

ghost use Rattle.std.specs.Prelude.{◌≡◌, ◌≢◌, ◌⊎◌, ◌<◌, ◌≤◌, ◌↔◌, None, length, IsTrue, IfNone, IfSome};
ghost use Rattle.tree_shape.specs.Nodes.{nodes_of};
ghost use Rattle.damages.specs.Damages.{index_of};
ghost use Rattle.amcheck.specs.Chains.{IsClearChain, IsFirstOfChain};
ghost use Rattle.amcheck.specs.Ends.{IsChainEnd};
ghost use Rattle.amcheck.specs.Places.{StandAtTheirBlocks};
ghost use Rattle.amcheck.specs.Searching.{AreSearchable, MaySearch, FindsFirst};
ghost use Rattle.amcheck.specs.Stops.{AreStops, IsRootAt, IsLeastNumber, IsWrongAt, IsBad, IsFirstPlace};

use crate::pages::Pages;
use crate::report::Damage;
use crate::stops::{Stop, find_number, low};
use crate::walks::WalkEnd;
use rayon::prelude::*;
use std::thread::Threads;

/// Stops that one thread judges in a row at least.
const LEAST_PIECE: usize = 256;

/// The least number of what is wrong at the stop at this place.
fn number_at(
    pages: &Pages,
    keys: bool,
    root: Option<u32>,
    stops: &[Stop],
    place: usize,
) -> Option<u8>
    requires searchable { AreSearchable pages.now stops.now }
    requires inside { place < length stops.now }
    ensures least { IsLeastNumber (IsWrongAt (nodes_of pages.now) keys root stops.now place) result }
{
    let stop = &stops[place];
    let low = low(pages, stop.low_at);
    find_number(pages.sketch(stop.block), keys, root, &low, stop)
}

/// Whether something is wrong at the stop at this place.
fn is_bad(pages: &Pages, keys: bool, root: Option<u32>, stops: &[Stop], place: usize) -> bool
    requires searchable { AreSearchable pages.now stops.now }
    requires inside { place < length stops.now }
    ensures { IsTrue result ↔ IsBad (nodes_of pages.now) keys root stops.now place }
{
    number_at(pages, keys, root, stops, place).is_some()
}

/// The first bad stop of a chain, stop by stop in this thread.
pub(crate) fn find_bad_one(
    pages: &Pages,
    keys: bool,
    root: Option<u32>,
    stops: &[Stop],
) -> Option<usize>
    requires searchable { AreSearchable pages.now stops.now }
    ensures first { IsFirstPlace (IsBad (nodes_of pages.now) keys root stops.now) result }
{
    for place in 0..stops.len() {
        if is_bad(pages, keys, root, stops, place) {
            return Some(place);
        }
    }
    None
}

/// The first bad stop of a chain, which is cut into pieces for threads.
pub(crate) fn find_bad(
    rt: &(impl Threads + Sync),
    pages: &Pages,
    keys: bool,
    root: Option<u32>,
    stops: &[Stop],
) -> Option<usize>
    requires searchable { AreSearchable pages.now stops.now }
    ensures first { IsFirstPlace (IsBad (nodes_of pages.now) keys root stops.now) result }
{
    (0..stops.len())
        .into_par_iter()
        .with_min_len(LEAST_PIECE)
        .position_first(
            rt,
            |place: usize| -> bool
                requires { (place < length stops.now) × AreSearchable pages.now stops.now }
                ensures { IsTrue result ↔ IsBad (nodes_of pages.entry.now) keys root stops.entry.now place }
            { is_bad(pages, keys, root, stops, place) },
        )
}

/// The number of a page that was met before: 2 if its left link isn't the page before, and else 3.
fn met_number(pages: &Pages, stop: &Stop) -> u8
    requires in_use { stop.now.block < length pages.now }
    ensures two { result ≡ 2 → (nodes_of pages.now stop.now.block).left ≢ stop.now.left }
    ensures three { (result ≡ 3 → (nodes_of pages.now stop.now.block).left ≡ stop.now.left)
        × ((result ≡ 2) ⊎ (result ≡ 3)) }
{
    if pages.sketch(stop.block).left != stop.left {
        return 2;
    }
    3
}

/// The damage where the walk ended, if it didn't end at the rightmost page. Nothing is wrong at its stops.
fn damage_at_end(
    pages: &Pages,
    keys: bool,
    root: Option<u32>,
    depth: u8,
    stops: &[Stop],
    end: WalkEnd,
) -> Option<Damage>
    requires deep { depth ≤ (index_of pages.now).top }
    requires root { IsRootAt (index_of pages.now) depth root }
    requires stops { AreStops (index_of pages.now) depth stops.now }
    requires end { IsChainEnd (index_of pages.now) depth (length stops.now) end }
    requires right { IsFirstPlace (IsBad (nodes_of pages.now) keys root stops.now) None }
    ensures none { IfNone result (IsClearChain (index_of pages.now) keys depth) }
    ensures some { IfSome result
        (λ d. IsFirstOfChain (index_of pages.now) keys depth d.number d.block) }
{
    match end {
        WalkEnd::Whole => None,
        WalkEnd::Off(block) => Some(Damage { number: 1, block }),
        WalkEnd::Met(stop) => Some(Damage {
            number: met_number(pages, &stop),
            block: stop.block,
        }),
    }
}

/// The first damage of the chain of a level, along which these stops were made. `find` finds the first bad
/// stop.
pub(crate) fn first_in_chain<F: Fn(&Pages, bool, Option<u32>, &[Stop]) -> Option<usize>>(
    find: &F,
    pages: &Pages,
    keys: bool,
    root: Option<u32>,
    depth: u8,
    stops: &[Stop],
    end: WalkEnd,
) -> Option<Damage>
    requires may { MaySearch (F.pre find.now) }
    requires finds { FindsFirst (F.post find.now) }
    requires stand { StandAtTheirBlocks pages.now }
    requires few { length stops.now ≤ 65536 }
    requires deep { depth ≤ (index_of pages.now).top }
    requires root { IsRootAt (index_of pages.now) depth root }
    requires stops { AreStops (index_of pages.now) depth stops.now }
    requires end { IsChainEnd (index_of pages.now) depth (length stops.now) end }
    ensures none { IfNone result (IsClearChain (index_of pages.now) keys depth) }
    ensures some { IfSome result
        (λ d. IsFirstOfChain (index_of pages.now) keys depth d.number d.block) }
{
    let place = match find(pages, keys, root, stops) {
        None => return damage_at_end(pages, keys, root, depth, stops, end),
        Some(place) => place,
    };
    match number_at(pages, keys, root, stops, place) {
        None => None,
        Some(number) => Some(Damage {
            number,
            block: stops[place].block,
        }),
    }
}

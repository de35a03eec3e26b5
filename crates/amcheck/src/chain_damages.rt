//! The first damage of the chains of all levels.

ghost use Rattle.std.specs.Prelude.{◌≡◌, ◌+◌, ◌++◌, ◌<◌, ◌≤◌, [], suc, false, IfNone, IfSome, IfOk, OnOk, IfErr, length, replicate, vec_capacity};
ghost use Rattle.tree_shape.specs.Nodes.{nodes_of};
ghost use Rattle.damages.specs.Damages.{index_of, head, start, first_child, IsSound, IsFirstDamage};
ghost use Rattle.amcheck.specs.AllStops.{StopsAreAll, AreAllStops};
ghost use Rattle.amcheck.specs.LevelDamages.{IsClearLevel, IsFirstOfLevel, AreOfUpper};
ghost use Rattle.amcheck.specs.Marks.{IsMet};
ghost use Rattle.amcheck.specs.Places.{StandAtTheirBlocks};
ghost use Rattle.amcheck.specs.Searching.{MaySearch, FindsFirst};
ghost use Rattle.amcheck.specs.Stops.{stop_blocks, IsRootAt};

use crate::bad_places::first_in_chain;
use crate::pages::Pages;
use crate::reading::WalkRoom;
use crate::report::Damage;
use crate::stops::Stop;
use crate::walks::walk;
use crate::ways::find_leftmost;

/// The root's block, and its level.
#[derive(Clone, Copy)]
pub(crate) struct Root {
    pub(crate) block: u32,
    pub(crate) level: u8,
}

/// Where the way to the leftmost page of the next level begins: the child of the first downlink of this
/// one's, or 0.
fn next_begin(pages: &Pages, head: u32) -> u32
    ensures { result ≡ first_child (nodes_of pages.now head).links }
{
    match pages.links(head).first() {
        None => 0,
        Some(link) => link.child,
    }
}

/// The root, on its own level.
fn root_at(root: u32, depth: u8) -> Option<u32>
    ensures { (pages : _) → root ≡ (index_of pages).root
        → IsRootAt (index_of pages) depth result }
{
    if depth == 0 { Some(root) } else { None }
}

/// Judges the chain of a level, so many below the root's: the leftmost page, or the first damage.
fn judge_level<F: Fn(&Pages, bool, Option<u32>, &[Stop]) -> Option<usize>>(
    find: &F,
    pages: &Pages,
    keys: bool,
    room: &mut WalkRoom,
    root: Root,
    depth: u8,
    begin: u32,
) -> Result<u32, Damage>
    requires may { MaySearch (F.pre find.now) }
    requires finds { FindsFirst (F.post find.now) }
    requires stand { StandAtTheirBlocks pages.now }
    requires some { 0 < length pages.now }
    requires few { length pages.now ≤ 65536 }
    requires size { length room.old.seen.items ≡ length pages.now }
    requires met { IsMet room.old.met (length pages.now) }
    requires room { length pages.now ≤ vec_capacity room.old.stops }
    requires root { root.block ≡ (index_of pages.now).root }
    requires top { root.level ≡ (index_of pages.now).top }
    requires level { depth ≤ root.level }
    requires begin { begin ≡ start (index_of pages.now) depth }
    requires upper { AreOfUpper (index_of pages.now) depth room.old.seen.items room.old.met }
    ensures size { length room.new.seen.items ≡ length pages.now }
    ensures met { IsMet room.new.met (length pages.now) }
    ensures room { vec_capacity room.new.stops ≡ vec_capacity room.old.stops }
    ensures upper { AreOfUpper (index_of pages.now) (suc depth) room.new.seen.items room.new.met }
    ensures head { IfOk result (λ found. found ≡ head (index_of pages.now) depth) }
    ensures clear { OnOk result (IsClearLevel (index_of pages.now) keys depth) }
    ensures whole { OnOk result (StopsAreAll (index_of pages.now) depth room.new.stops.items) }
    ensures added { OnOk result (room.new.met.blocks.items
        ≡ room.old.met.blocks.items ++ stop_blocks room.new.stops.items) }
    ensures first { IfErr result
        (λ d. IsFirstOfLevel (index_of pages.now) keys depth d.number d.block) }
{
    let level = root.level - depth;
    let head = match find_leftmost(pages, &mut room.seen, depth, level, begin) {
        Ok(head) => head,
        Err(damage) => return Err(damage),
    };
    let end = walk(pages, &mut room.met, &mut room.stops, depth, level, head);
    match first_in_chain(
        find,
        pages,
        keys,
        root_at(root.block, depth),
        depth,
        &room.stops,
        end,
    ) {
        None => Ok(head),
        Some(damage) => Err(damage),
    }
}

/// Puts the stops of a level after those of the levels above.
fn keep(chains: &mut Vec<Stop>, stops: &[Stop])
    requires { length chains.old.items + length stops.now ≤ vec_capacity chains.old }
    ensures kept { chains.new.items ≡ chains.old.items ++ stops.now }
    ensures room { vec_capacity chains.new ≡ vec_capacity chains.old }
{
    for stop in stops {
        chains.push_reserved(*stop);
    }
}

/// The first damage of the chains of all levels, from the root's to the leaves. No block was seen or met
/// before; `room` and `chains` have room for a stop at each page in use. If there is no damage `chains` has
/// the stops of all levels. What a unique index asks of bounds and keys is judged if `keys` is true.
pub(crate) fn find_chain_damage<F: Fn(&Pages, bool, Option<u32>, &[Stop]) -> Option<usize>>(
    find: &F,
    pages: &Pages,
    keys: bool,
    room: &mut WalkRoom,
    chains: &mut Vec<Stop>,
    root: Root,
) -> Option<Damage>
    requires may { MaySearch (F.pre find.now) }
    requires finds { FindsFirst (F.post find.now) }
    requires stand { StandAtTheirBlocks pages.now }
    requires some { 0 < length pages.now }
    requires few { length pages.now ≤ 65536 }
    requires seen { room.old.seen.items ≡ replicate (length pages.now) false }
    requires met { IsMet room.old.met (length pages.now) }
    requires none { room.old.met.blocks.items ≡ [] }
    requires no_stops { chains.old.items ≡ [] }
    requires room { length pages.now ≤ vec_capacity room.old.stops }
    requires more_room { length pages.now ≤ vec_capacity chains.old }
    requires root { root.block ≡ (index_of pages.now).root }
    requires top { root.level ≡ (index_of pages.now).top }
    requires low { root.level ≤ 31 }
    ensures met { IsMet room.new.met (length pages.now) }
    ensures none { IfNone result (IsSound false keys pages.now) }
    ensures chains { IfNone result
        (AreAllStops (index_of pages.now) (suc (index_of pages.now).top) chains.new.items) }
    ensures added { IfNone result (room.new.met.blocks.items ≡ stop_blocks chains.new.items) }
    ensures some { IfSome result (λ d. IsFirstDamage false keys pages.now d.number d.block) }
{
    let mut begin = root.block;
    for depth in 0..root.level + 1 {
        match judge_level(find, pages, keys, room, root, depth, begin) {
            Ok(head) => {
                keep(chains, &room.stops);
                begin = next_begin(pages, head);
            }
            Err(damage) => return Some(damage),
        }
    }
    None
}

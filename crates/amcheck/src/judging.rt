//! All pages of an index are judged: the chains of its levels, with its parents and children or without.

ghost use Rattle.std.specs.Prelude.{◌≡◌, ◌≢◌, ◌≤◌, ◌<◌, suc, true, false, None, IfNone, IfSome, IfOk, IfErr, OnOk, OnErr, length, replicate};
ghost use Rattle.damages.specs.Damages.{index_of, IsSound, IsFirstDamage};
ghost use Rattle.tree_shape.specs.KeyPages.{AreUnique};
ghost use Rattle.damages.specs.Levels.{HasLevels, HasUniqueLevels};
ghost use Rattle.tree_acts.specs.TheoremTree.{IsTree};
ghost use Rattle.amcheck.specs.AllStops.{AreAllStops};
ghost use Rattle.amcheck.specs.Levels.{NamesRoot};
ghost use Rattle.amcheck.specs.Marks.{IsMet};
ghost use Rattle.amcheck.specs.Places.{StandAtTheirBlocks};
ghost use Rattle.amcheck.specs.Reading.{RoomIsReady};
ghost use Rattle.amcheck.specs.Reports.{IsReport};
ghost use Rattle.amcheck.specs.Sound.{IsSoundTree};
ghost use Rattle.amcheck.specs.Searching.{MaySearch, FindsFirst};
ghost use Rattle.amcheck.specs.Stops.{stop_blocks};

use crate::chain_damages::{Root, find_chain_damage};
use crate::chain_places::note_places;
use crate::counts::count_up;
use crate::marks::Met;
use crate::pages::Pages;
use crate::parent_damages::find_parent_damage;
use crate::reading::CheckRoom;
use crate::report::{Damage, Report};
use crate::stops::Stop;
use crate::strays::find_stray;
use damages::{first_damage_is_one, sound_pages_are_a_tree, trees_are_sound};

/// The root that the metapage, the page of block 0, names. Damage 1 of block 0, if there is no page.
fn find_root(pages: &Pages) -> Result<Root, Damage>
    requires stand { StandAtTheirBlocks pages.now }
    ensures named { IfOk result (λ root. NamesRoot pages.now root.block root.level) }
    ensures none { OnErr result (length pages.now ≡ 0) }
    ensures damage { IfErr result (λ d. (d.number ≡ 1) × (d.block ≡ 0)) }
    ensures damaged { OnErr result (IsTree pages.now → ⊥) }
{
    let damage = Damage {
        number: 1,
        block: 0,
    };
    if pages.len() == 0 {
        return Err(damage);
    }
    let meta = pages.sketch(0);
    match meta.right {
        None => Err(damage),
        Some(block) => Ok(Root {
            block,
            level: meta.level,
        }),
    }
}

/// Judges parents and children, if the chains of all levels are right, and at last the pages on no chain:
/// the first damage, if there is one. No block was noted or marked before. Nothing here depends on keys.
fn judge_parents(
    pages: &Pages,
    met: &Met,
    chains: &[Stop],
    places: &mut [Option<u32>],
    linked: &mut [bool],
    top: u8,
) -> Option<Damage>
    requires some { 0 < length pages.now }
    requires few { length pages.now ≤ 65536 }
    requires top { top ≡ (index_of pages.now).top }
    requires met { IsMet met.now (length pages.now) }
    requires chains { AreAllStops (index_of pages.now) (suc (index_of pages.now).top) chains.now }
    requires added { met.now.blocks.items ≡ stop_blocks chains.now }
    requires sound { IsSound false false pages.now }
    requires places { places.old ≡ replicate (length pages.now) None }
    requires linked { linked.old ≡ replicate (length pages.now) false }
    ensures none { IfNone result (IsSound true false pages.now) }
    ensures some { IfSome result (λ d. IsFirstDamage true false pages.now d.number d.block) }
{
    note_places(chains, places);
    if let Some(damage) = find_parent_damage(pages, chains, places, linked, top) {
        return Some(damage);
    }
    match find_stray(pages, met) {
        None => None,
        Some(block) => Some(Damage { number: 11, block }),
    }
}

/// Judges the chains of all levels: a report, or the first damage. Nothing was judged in this room before.
pub(crate) fn judge_chains<F: Fn(&Pages, bool, Option<u32>, &[Stop]) -> Option<usize>>(
    find: &F,
    pages: &Pages,
    keys: bool,
    room: &mut CheckRoom,
) -> Result<Report, Damage>
    requires may { MaySearch (F.pre find.now) }
    requires finds { FindsFirst (F.post find.now) }
    requires stand { StandAtTheirBlocks pages.now }
    requires few { length pages.now ≤ 65536 }
    requires ready { RoomIsReady room.old (length pages.now) }
    ensures sound { OnOk result (IsSound false keys pages.now) }
    ensures levels { OnOk result (HasLevels pages.now) }
    ensures unique { keys ≡ true → OnOk result (HasUniqueLevels pages.now) }
    ensures report { IfOk result (IsReport pages.now) }
    ensures first { IfErr result (λ d. IsFirstDamage false keys pages.now d.number d.block) }
    ensures damaged { OnErr result (IsSoundTree keys pages.now → ⊥) }
{
    first_damage_is_one();
    sound_pages_are_a_tree();
    trees_are_sound();
    let root = match find_root(pages) {
        Ok(root) => root,
        Err(damage) => return Err(damage),
    };
    match find_chain_damage(find, pages, keys, &mut room.walks, &mut room.chains, root) {
        Some(damage) => Err(damage),
        None => Ok(count_up(pages, root.level as u32 + 1)),
    }
}

/// Judges all pages, with parents and children: a report, or the first damage. Nothing was judged in this
/// room before.
pub(crate) fn judge<F: Fn(&Pages, bool, Option<u32>, &[Stop]) -> Option<usize>>(
    find: &F,
    pages: &Pages,
    keys: bool,
    room: &mut CheckRoom,
) -> Result<Report, Damage>
    requires may { MaySearch (F.pre find.now) }
    requires finds { FindsFirst (F.post find.now) }
    requires stand { StandAtTheirBlocks pages.now }
    requires few { length pages.now ≤ 65536 }
    requires ready { RoomIsReady room.old (length pages.now) }
    ensures sound { OnOk result (IsSound true keys pages.now) }
    ensures tree { OnOk result (IsTree pages.now) }
    ensures unique { keys ≡ true → OnOk result (AreUnique pages.now) }
    ensures report { IfOk result (IsReport pages.now) }
    ensures first { IfErr result (λ d. IsFirstDamage true keys pages.now d.number d.block) }
    ensures damaged { OnErr result (IsSoundTree keys pages.now → ⊥) }
{
    first_damage_is_one();
    sound_pages_are_a_tree();
    trees_are_sound();
    let root = match find_root(pages) {
        Ok(root) => root,
        Err(damage) => return Err(damage),
    };
    if let Some(damage) = find_chain_damage(
        find,
        pages,
        keys,
        &mut room.walks,
        &mut room.chains,
        root,
    ) {
        return Err(damage);
    }
    if let Some(damage) = judge_parents(
        pages,
        &room.walks.met,
        &room.chains,
        &mut room.places,
        &mut room.linked,
        root.level,
    ) {
        return Err(damage);
    }
    let report = count_up(pages, root.level as u32 + 1);
    Ok(report)
}

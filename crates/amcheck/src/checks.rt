//! The checks of a store's pages, in one thread and in many.

ghost use Rattle.std.specs.Prelude.{◌≡◌, true, false, OnOk};
ghost use Rattle.tree_shape.specs.Nodes.{nodes_of};
ghost use Rattle.tree_acts.specs.TheoremKeys.{IsTreeFor};
ghost use Rattle.amcheck.specs.JudgedPages.{JudgesPages};
ghost use Rattle.amcheck.specs.Laws.{AnswersAreOne, ParentsSeeMore};
ghost use Rattle.amcheck.specs.Searching.{AreSearchable};
ghost use Rattle.amcheck.specs.Sound.{HasLevelsFor};
ghost use Rattle.amcheck.specs.Stops.{IsBad, IsFirstPlace};
ghost use denote.Param.Send.{IsSync};

use crate::bad_places::{find_bad, find_bad_one};
use crate::checking::{check_by, check_parents_by};
use crate::pages::Pages;
use crate::report::{CheckFault, Report};
use crate::stops::Stop;
use damages::first_damage_is_one;
use index_model::Progress;
use page_action::PageStore;
use std::alloc::Global;
use std::thread::Threads;

/// Judges the levels of an index and their links: a report, or the first damage. It makes its room, brings
/// each page in use into memory once, of which `progress` is told, and changes none. The pages of a level are
/// judged in as many threads as serve. Parents and children are not judged. Whether the index is unique is
/// known from its format.
///
/// Over a device that kept its model, a report means that each level, from the root's to the leaves, is one
/// chain of pages. The chain is linked both ways, and its bounds and entries ascend. The numbers of the
/// report are those of the pages. On a unique index it also means that no page of a chain has a whole entry
/// as a bound, or two entries of one key. On pages that are a B-link tree no damage is found, if, on a unique
/// index, no bound is a whole entry and no two entries share a key.
///
/// Refused with `NoMemory` (1), and then nothing was read; with `Io` (2), `Stopped` (3); with `NoFrame` (10)
/// if all frames are pinned; with `PageDamaged` (17) only if the device did not keep its model.
pub fn check<R: Threads + Sync, S: PageStore, P: Progress>(
    rt: &R,
    alloc: Global,
    store: &mut S,
    progress: &P,
) -> Result<Report, CheckFault>
    ensures judged { JudgesPages S.PageStore false result store.old store.new }
    ensures levels { (S.backing store.new).honest ≡ true
        → OnOk result (HasLevelsFor (S.state store.old).format (S.state store.old).pages) }
{
    check_by(
        |pages: &Pages, keys: bool, root: Option<u32>, stops: &[Stop]| -> Option<usize>
            requires { IsSync R.row × AreSearchable pages.now stops.now }
            ensures { IsFirstPlace (IsBad (nodes_of pages.now) keys root stops.now) result }
        { find_bad(rt, pages, keys, root, stops) },
        alloc,
        store,
        progress,
    )
}

/// Judges as [`check`] does, in this thread alone, and answers and is refused alike.
pub fn check_one<S: PageStore, P: Progress>(
    alloc: Global,
    store: &mut S,
    progress: &P,
) -> Result<Report, CheckFault>
    ensures judged { JudgesPages S.PageStore false result store.old store.new }
    ensures levels { (S.backing store.new).honest ≡ true
        → OnOk result (HasLevelsFor (S.state store.old).format (S.state store.old).pages) }
{
    check_by(
        |pages: &Pages, keys: bool, root: Option<u32>, stops: &[Stop]| -> Option<usize>
            requires { AreSearchable pages.now stops.now }
            ensures { IsFirstPlace (IsBad (nodes_of pages.now) keys root stops.now) result }
        { find_bad_one(pages, keys, root, stops) },
        alloc,
        store,
        progress,
    )
}

/// Judges the levels of an index, their links, and its parents and children: a report, or the first damage.
/// It makes its room, brings each page in use into memory once, of which `progress` is told, and changes
/// none. The pages of a level are judged in as many threads as serve.
///
/// Over a device that kept its model, a report means that the pages are a B-link tree, and its numbers are
/// those of the pages; on a unique index also that no bound is a whole entry, and that no two entries share a
/// key. On such pages no damage is found. Refused as [`check`].
pub fn check_parents<R: Threads + Sync, S: PageStore, P: Progress>(
    rt: &R,
    alloc: Global,
    store: &mut S,
    progress: &P,
) -> Result<Report, CheckFault>
    ensures judged { JudgesPages S.PageStore true result store.old store.new }
    ensures tree { (S.backing store.new).honest ≡ true
        → OnOk result (IsTreeFor (S.state store.old).format (S.state store.old).pages) }
{
    check_parents_by(
        |pages: &Pages, keys: bool, root: Option<u32>, stops: &[Stop]| -> Option<usize>
            requires { IsSync R.row × AreSearchable pages.now stops.now }
            ensures { IsFirstPlace (IsBad (nodes_of pages.now) keys root stops.now) result }
        { find_bad(rt, pages, keys, root, stops) },
        alloc,
        store,
        progress,
    )
}

/// Judges as [`check_parents`] does, in this thread alone, and answers and is refused alike.
pub fn check_parents_one<S: PageStore, P: Progress>(
    alloc: Global,
    store: &mut S,
    progress: &P,
) -> Result<Report, CheckFault>
    ensures judged { JudgesPages S.PageStore true result store.old store.new }
    ensures tree { (S.backing store.new).honest ≡ true
        → OnOk result (IsTreeFor (S.state store.old).format (S.state store.old).pages) }
{
    check_parents_by(
        |pages: &Pages, keys: bool, root: Option<u32>, stops: &[Stop]| -> Option<usize>
            requires { AreSearchable pages.now stops.now }
            ensures { IsFirstPlace (IsBad (nodes_of pages.now) keys root stops.now) result }
        { find_bad_one(pages, keys, root, stops) },
        alloc,
        store,
        progress,
    )
}

/// Does nothing: its clauses say that two answers on the same pages, neither refused, are equal, be they of
/// one thread or of many; and what parents and children add.
pub fn checks_answer_alike()
    ensures one { AnswersAreOne }
    ensures parents { ParentsSeeMore }
{
    first_damage_is_one();
}

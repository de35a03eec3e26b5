//! The checks of a store's pages, over any search for the first bad stop of a chain.

ghost use Rattle.std.specs.Prelude.{◌≡◌, true, false, Ok, Err, IfOk, IfErr, OnOk};
ghost use Rattle.tree_acts.specs.TheoremKeys.{IsTreeFor};
ghost use Rattle.amcheck.specs.JudgedPages.{JudgesPages};
ghost use Rattle.amcheck.specs.Searching.{MaySearch, FindsFirst};
ghost use Rattle.amcheck.specs.Sound.{HasLevelsFor};

use crate::judging::{judge, judge_chains};
use crate::page_room::PageRoom;
use crate::pages::Pages;
use crate::reading::{CheckRoom, read_pages};
use crate::report::{CheckFault, Damage, Report};
use crate::stops::Stop;
use index_model::Progress;
use page_action::PageStore;
use std::alloc::Global;

// What is answered of a report or a damage.
fn told(judged: Result<Report, Damage>) -> Result<Report, CheckFault>
    ensures ok { IfOk judged (λ report. result ≡ Ok report) }
    ensures err { IfErr judged (λ d. result ≡ Err (CheckFault.Damage d.number d.block)) }
{
    match judged {
        Ok(report) => Ok(report),
        Err(damage) => Err(CheckFault::Damage {
            number: damage.number,
            block: damage.block,
        }),
    }
}

/// Judges the levels of an index and their links, as `check` and `check_one` do. `find` finds the first bad
/// stop.
pub(crate) fn check_by<
    F: Fn(&Pages, bool, Option<u32>, &[Stop]) -> Option<usize>,
    S: PageStore,
    P: Progress,
>(find: F, alloc: Global, store: &mut S, progress: &P) -> Result<Report, CheckFault>
    requires may { MaySearch (F.pre find) }
    requires finds { FindsFirst (F.post find) }
    ensures judged { JudgesPages S.PageStore false result store.old store.new }
    ensures levels { (S.backing store.new).honest ≡ true
        → OnOk result (HasLevelsFor (S.state store.old).format (S.state store.old).pages) }
{
    let used = store.used();
    let keys = store.format().unique;
    let mut room = match CheckRoom::new(alloc, used) {
        Ok(room) => room,
        Err(fault) => return Err(CheckFault::Refused(fault)),
    };
    let page_room = match PageRoom::new(alloc, used) {
        Ok(room) => room,
        Err(fault) => return Err(CheckFault::Refused(fault)),
    };
    let pages = match read_pages(store, page_room, progress) {
        Ok(pages) => pages,
        Err(fault) => return Err(CheckFault::Refused(fault)),
    };
    told(judge_chains(&find, &pages, keys, &mut room))
}

/// Judges parents and children too, as `check_parents` and `check_parents_one` do. `find` finds the first bad
/// stop.
pub(crate) fn check_parents_by<
    F: Fn(&Pages, bool, Option<u32>, &[Stop]) -> Option<usize>,
    S: PageStore,
    P: Progress,
>(find: F, alloc: Global, store: &mut S, progress: &P) -> Result<Report, CheckFault>
    requires may { MaySearch (F.pre find) }
    requires finds { FindsFirst (F.post find) }
    ensures judged { JudgesPages S.PageStore true result store.old store.new }
    ensures tree { (S.backing store.new).honest ≡ true
        → OnOk result (IsTreeFor (S.state store.old).format (S.state store.old).pages) }
{
    let used = store.used();
    let keys = store.format().unique;
    let mut room = match CheckRoom::new(alloc, used) {
        Ok(room) => room,
        Err(fault) => return Err(CheckFault::Refused(fault)),
    };
    let page_room = match PageRoom::new(alloc, used) {
        Ok(room) => room,
        Err(fault) => return Err(CheckFault::Refused(fault)),
    };
    let pages = match read_pages(store, page_room, progress) {
        Ok(pages) => pages,
        Err(fault) => return Err(CheckFault::Refused(fault)),
    };
    told(judge(&find, &pages, keys, &mut room))
}

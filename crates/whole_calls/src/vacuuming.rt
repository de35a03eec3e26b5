//! Bulk deletes and cleanups that run to their end.

ghost use Rattle.std.specs.Prelude.{◌≡◌, ◌≤◌, false, length, map, IfOk, IfErr, None};
ghost use Rattle.index_model.specs.Faults.{HasCause};
ghost use Rattle.page_action.specs.States.{Continues};
ghost use Rattle.page_delete.specs.Counts.{deleted_in};
ghost use Rattle.session_calls.specs.declared.request.Request.TheVariants.{Bulk as ToBulk, Cleanup as ToCleanup};
ghost use Rattle.schedule.specs.Sessions.{here, op_of, SameOthers};
ghost use Rattle.schedule.specs.Events.{OthersStay};
ghost use Rattle.schedule.specs.TheoremRuns.{ForEachHistory};
ghost use Rattle.whole_calls.specs.Going.{CallIsRun};
ghost use Rattle.whole_calls.specs.Made.{IsMadeOf, ComesTo};
ghost use Rattle.whole_calls.specs.Refusing.{causes_of_called, causes_of_gone};
ghost use Rattle.whole_calls.specs.Vacuuming.{VacuumMeans, vacuum_result, vacuum_outcome, StatsCountEntries, StatsCountCleaned, StatsCountDeleted, StatsCountPages, ResultLeavesNeeded, IsUndisturbed};

use crate::running::run_call;
use index_model::{DeadRows, Fault, VacuumStats};
use page_action::PageStore;
use session_calls::{Answer, Calls, Request};

// What a bulk delete or a cleanup answers that came to this.
fn as_stats(came: Answer) -> Result<VacuumStats, Fault>
    ensures { result ≡ vacuum_result came }
{
    match came {
        Answer::Finished(stats) => Ok(stats),
        Answer::Refused(fault) => Err(fault),
        _ => Err(Fault::NoSession),
    }
}

/// A bulk delete of the set at this place among the sets, run to its end in a session. Refused as
/// the beginning of a call is: with `Stopped` (3), `NoSession` (12), also if the set isn't
/// there, `SessionBusy` (13), `VacuumRunning` (11), in this order; nothing is changed then. If a
/// step of it is refused, or a checkpoint before one, it is given up and refused too: with
/// `Blocked` (4) if another session's scan stands on a leaf, with `Io` (2), `Stopped` (3),
/// `LogFull` (9), `NoFrame` (10), and on pages that are no tree with `PageDamaged` (17); what it
/// has removed stays removed.
pub fn bulk_delete<S: PageStore, T: DeadRows>(
    store: &mut S,
    calls: &mut Calls,
    sets: &[T],
    session: u32,
    set: u32,
    least_room: u32,
) -> Result<VacuumStats, Fault>
    ensures steps { Continues S.follows store.old store.new }
    ensures others { SameOthers session calls.old calls.new }
    ensures over { op_of calls.old session ≡ None → op_of calls.new session ≡ None }
    ensures goes { CallIsRun S.PageStore session (VacuumMeans session (ToBulk set) result)
        (vacuum_outcome result)
        (here T.DeadRows store.old calls.old sets.now)
        (here T.DeadRows store.new calls.new sets.now) }
    // Whatever the pages are.
    ensures made { IsMadeOf S.PageStore session least_room (ComesTo (vacuum_outcome result))
        (here T.DeadRows store.old calls.old sets.now)
        (here T.DeadRows store.new calls.new sets.now) }
    ensures entries { ForEachHistory S.PageStore (here T.DeadRows store.old calls.old sets.now)
        (here T.DeadRows store.new calls.new sets.now) (λ start history calls.
        StatsCountEntries (S.state store.new) result) }
    // It has deleted no page.
    ensures stats { ForEachHistory S.PageStore (here T.DeadRows store.old calls.old sets.now)
        (here T.DeadRows store.new calls.new sets.now) (λ start history calls. IfOk result
        (λ stats. StatsCountPages (S.state store.new) stats × (stats.pages_newly_deleted ≡ 0))) }
    // With `least_room` 5 or more it never answers `LogFull`; and it is never refused because it
    // had no room to count.
    ensures cause { let old = here T.DeadRows store.old calls.old sets.now in
        ForEachHistory S.PageStore old (here T.DeadRows store.new calls.new sets.now)
        (λ start history calls. IfErr result
        (HasCause (causes_of_called S.PageStore session (ToBulk set) old
        (causes_of_gone S.PageStore session least_room false old store.new)))) }
{
    let request = Request::Bulk(set);
    as_stats(run_call(store, calls, sets, session, request, least_room).answer)
}

/// A cleanup run to its end in a session: empty leaves leave the tree, and the contents stay.
/// Refused as the beginning of a call is: with `Stopped` (3), `NoSession` (12), `SessionBusy` (13),
/// `VacuumRunning` (11), in this order; nothing is changed then. If a step of it is refused, or
/// a checkpoint before one, it is given up and refused too: with `Blocked` (4) if another
/// session holds a page, with `Io` (2), `Stopped` (3), `LogFull` (9), `NoFrame` (10), and on pages
/// that are no tree with `PageDamaged` (17); the contents stay then too.
pub fn clean_up<S: PageStore, T: DeadRows>(
    store: &mut S,
    calls: &mut Calls,
    sets: &[T],
    session: u32,
    least_room: u32,
) -> Result<VacuumStats, Fault>
    ensures steps { Continues S.follows store.old store.new }
    ensures others { SameOthers session calls.old calls.new }
    ensures over { op_of calls.old session ≡ None → op_of calls.new session ≡ None }
    ensures goes { CallIsRun S.PageStore session (VacuumMeans session ToCleanup result)
        (vacuum_outcome result)
        (here T.DeadRows store.old calls.old sets.now)
        (here T.DeadRows store.new calls.new sets.now) }
    // Whatever the pages are.
    ensures made { IsMadeOf S.PageStore session least_room (ComesTo (vacuum_outcome result))
        (here T.DeadRows store.old calls.old sets.now)
        (here T.DeadRows store.new calls.new sets.now) }
    ensures entries { ForEachHistory S.PageStore (here T.DeadRows store.old calls.old sets.now)
        (here T.DeadRows store.new calls.new sets.now) (λ start history calls.
        StatsCountCleaned (S.state store.new) result) }
    // As many more pages are deleted as it tells: it reuses none.
    ensures deleted { ForEachHistory S.PageStore (here T.DeadRows store.old calls.old sets.now)
        (here T.DeadRows store.new calls.new sets.now) (λ start history calls.
        StatsCountDeleted (deleted_in (S.state store.old)) (S.state store.new) result) }
    // It has removed no entry.
    ensures stats { ForEachHistory S.PageStore (here T.DeadRows store.old calls.old sets.now)
        (here T.DeadRows store.new calls.new sets.now) (λ start history calls. IfOk result
        (λ stats. StatsCountPages (S.state store.new) stats × (stats.tuples_removed ≡ 0))) }
    ensures spares { ForEachHistory S.PageStore (here T.DeadRows store.old calls.old sets.now)
        (here T.DeadRows store.new calls.new sets.now) (λ start history calls.
        IsUndisturbed (S.state store.old) session → ResultLeavesNeeded (S.state store.new) result) }
    // With `least_room` 5 or more it never answers `LogFull`; and it is never refused because it
    // had no room to count.
    ensures cause { let old = here T.DeadRows store.old calls.old sets.now in
        ForEachHistory S.PageStore old (here T.DeadRows store.new calls.new sets.now)
        (λ start history calls. IfErr result
        (HasCause (causes_of_called S.PageStore session ToCleanup old
        (causes_of_gone S.PageStore session least_room false old store.new)))) }
{
    let request = Request::Cleanup;
    as_stats(run_call(store, calls, sets, session, request, least_room).answer)
}

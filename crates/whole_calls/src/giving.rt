//! Scans that give one entry after the other.

ghost use Rattle.std.specs.Prelude.{◌≡◌, ◌≤◌, ℕ, true, length, map, slice_get, Some, OnOk, OnErr, IfErr, None};
ghost use Rattle.index_model.specs.Faults.{HasCause};
ghost use Rattle.page_action.specs.States.{Continues};
ghost use Rattle.session_calls.specs.Ops.{op_before, RunsOn};
ghost use Rattle.session_calls.specs.declared.request.Request.TheVariants.{Scan as ToScan};
ghost use Rattle.schedule.specs.Sessions.{here, op_of, SameOthers};
ghost use Rattle.session_calls.specs.Slots.{one_vacuums};
ghost use Rattle.schedule.specs.Events.{IsSameStore, causes_of_begun_at};
ghost use Rattle.schedule.specs.TheoremRuns.{ForEachHistory};
ghost use Rattle.whole_calls.specs.Meanings.{BeginMeans, begin_outcome};
ghost use Rattle.whole_calls.specs.Giving.{LessIsLeft, AnswersAdvance, AnswersSeek, EndsUnlessGiven, GiveHasLessLeft, RunsIfGiven, SessionGivenMeans, given_of, given_outcome};
ghost use Rattle.whole_calls.specs.Going.{IsAmong, CallIsRun};
ghost use Rattle.whole_calls.specs.Made.{IsMadeOf, Answered, ComesTo};
ghost use Rattle.whole_calls.specs.Parts.{RunsUnlessLast};
ghost use Rattle.whole_calls.specs.Refusing.{GiveIsCaused};
ghost use Rattle.whole_calls.specs.Stepping.{ScanIsRun};

use crate::running::{begin, give_up, step};
use index_model::{DeadRows, Entry, Fault, Range};
use page_action::PageStore;
use schedule::next;
use session_calls::{Answer, Calls, Request};

// The next entry that the session's scan has ready; if none is, one step of it.
fn advance<S: PageStore, T: DeadRows>(
    store: &mut S,
    calls: &mut Calls,
    sets: &[T],
    session: u32,
    least_room: u32,
) -> Answer
    ensures steps { Continues S.follows store.old store.new }
    ensures others { SameOthers session calls.old calls.new }
    ensures goes { CallIsRun S.PageStore session (ScanIsRun S.PageStore session least_room result)
        (Some result) (here T.DeadRows store.old calls.old sets.now)
        (here T.DeadRows store.new calls.new sets.now) }
    ensures made { IsMadeOf S.PageStore session least_room (λ answers. IsAmong answers result)
        (here T.DeadRows store.old calls.old sets.now)
        (here T.DeadRows store.new calls.new sets.now) }
    ensures less { (S.backing store.new).honest ≡ true
        → LessIsLeft (S.state store.old) (S.state store.new) (op_of calls.old session)
        (op_of calls.new session) result }
    ensures kind { AnswersAdvance result }
    ensures runs_on { RunsOn (op_of calls.old session) (op_of calls.new session) }
    ensures lasts { RunsUnlessLast (op_of calls.old session) (op_of calls.new session) result }
{
    let answer = next(store, calls, sets, session);
    if let Answer::Gave(None) = answer {
        return step(store, calls, sets, session, least_room);
    }
    answer
}

// Goes on until the session's scan gives an entry or is over.
fn seek<S: PageStore, T: DeadRows>(
    store: &mut S,
    calls: &mut Calls,
    sets: &[T],
    session: u32,
    least_room: u32,
) -> Answer
    ensures steps { Continues S.follows store.old store.new }
    ensures others { SameOthers session calls.old calls.new }
    ensures goes { CallIsRun S.PageStore session (ScanIsRun S.PageStore session least_room result)
        (Some result) (here T.DeadRows store.old calls.old sets.now)
        (here T.DeadRows store.new calls.new sets.now) }
    ensures made { IsMadeOf S.PageStore session least_room (Answered result)
        (here T.DeadRows store.old calls.old sets.now)
        (here T.DeadRows store.new calls.new sets.now) }
    ensures kind { AnswersSeek result }
    ensures runs_on { RunsOn (op_of calls.old session) (op_of calls.new session) }
    ensures lasts { RunsUnlessLast (op_of calls.old session) (op_of calls.new session) result }
    ensures less { (S.backing store.new).honest ≡ true
        → LessIsLeft (S.state store.old) (S.state store.new) (op_of calls.old session)
        (op_of calls.new session) result }
{
    let _limits = store.limits();
    // As many steps as `finish` makes, at most.
    let mut left = u64::MAX;
    while left > 0 {
        match advance(store, calls, sets, session, least_room) {
            Answer::Going | Answer::Ready(_) => {}
            answer => return answer,
        }
        left -= 1;
    }
    Answer::Refused(Fault::PageDamaged(0))
}

// What a scan gives that came to this.
fn given(came: Answer) -> Result<Option<Entry>, Fault>
    ensures { result ≡ given_of came }
{
    match came {
        Answer::Gave(Some(entry)) => Ok(Some(entry)),
        Answer::Done => Ok(None),
        Answer::Refused(fault) => Err(fault),
        _ => Err(Fault::NoSession),
    }
}

/// The next entry of the session's scan, or None if it has given all: the scan is over then. A refusal ends
/// it too. It is refused as a step of it is, and with `Io` (2) or `Stopped` (3) if a checkpoint before a step
/// is refused so. Over a device that breaks its model it is also refused with `PageDamaged(0)` (17), after
/// 2^64 - 1 steps.
pub fn give<S: PageStore, T: DeadRows>(
    store: &mut S,
    calls: &mut Calls,
    sets: &[T],
    session: u32,
    least_room: u32,
) -> Result<Option<Entry>, Fault>
    ensures steps { Continues S.follows store.old store.new }
    ensures others { SameOthers session calls.old calls.new }
    ensures over { EndsUnlessGiven result (op_of calls.new session) }
    ensures lasts { RunsIfGiven result (op_of calls.old session) (op_of calls.new session) }
    ensures runs_on { RunsOn (op_of calls.old session) (op_of calls.new session) }
    ensures less { (S.backing store.new).honest ≡ true
        → GiveHasLessLeft (S.state store.old) (S.state store.new)
        (op_of calls.old session) (op_of calls.new session) result }
    ensures goes { CallIsRun S.PageStore session (SessionGivenMeans session result) (given_outcome result)
        (here T.DeadRows store.old calls.old sets.now)
        (here T.DeadRows store.new calls.new sets.now) }
    // Whatever the pages are: so it answers None only after a step that answered `Done`.
    ensures made { IsMadeOf S.PageStore session least_room (ComesTo (given_outcome result))
        (here T.DeadRows store.old calls.old sets.now)
        (here T.DeadRows store.new calls.new sets.now) }
    // With `least_room` 5 or more it never answers `LogFull`.
    ensures cause { let old = here T.DeadRows store.old calls.old sets.now in
        ForEachHistory S.PageStore old (here T.DeadRows store.new calls.new sets.now)
        (λ start history calls.
        GiveIsCaused S.PageStore session least_room old store.new result calls) }
{
    let came = seek(store, calls, sets, session, least_room);
    match given(came) {
        Ok(Some(entry)) => Ok(Some(entry)),
        Ok(None) => {
            give_up(store, calls, sets, session);
            Ok(None)
        }
        Err(fault) => {
            give_up(store, calls, sets, session);
            Err(fault)
        }
    }
}

/// Begins a scan. Refused as the beginning of a call is: with `Stopped` (3), `NoSession` (12),
/// `SessionBusy` (13), in this order; nothing is changed then.
pub fn open<S: PageStore, T: DeadRows>(
    store: &mut S,
    calls: &mut Calls,
    sets: &[T],
    session: u32,
    range: Range,
) -> Result<(), Fault>
    ensures steps { Continues S.follows store.old store.new }
    ensures others { SameOthers session calls.old calls.new }
    ensures goes { CallIsRun S.PageStore session (BeginMeans session (ToScan range) result)
        (begin_outcome result)
        (here T.DeadRows store.old calls.old sets.now)
        (here T.DeadRows store.new calls.new sets.now) }
    ensures made { (least_room : ℕ) → IsMadeOf S.PageStore session least_room
        (ComesTo (begin_outcome result)) (here T.DeadRows store.old calls.old sets.now)
        (here T.DeadRows store.new calls.new sets.now) }
    ensures begins { OnOk result (op_of calls.new session
        ≡ Some (op_before session (ToScan range))) }
    ensures refused { OnErr result (IsSameStore S.PageStore
        (here T.DeadRows store.old calls.old sets.now)
        (here T.DeadRows store.new calls.new sets.now)) }
    ensures cause { IfErr result
        (HasCause (causes_of_begun_at S.PageStore store.old (one_vacuums calls.old.slots.items)
        (map T.is_in sets.now) (ToScan range) (slice_get calls.old.slots.items session))) }
{
    begin(store, calls, sets, session, Request::Scan(range))
}

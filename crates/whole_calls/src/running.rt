//! Calls that run to their end. Before each step for which the log has room for fewer than
//! `least_room` images a checkpoint is made; one that is refused counts as the refusal of the step.
//! If `least_room` is 0, no checkpoint is made. Each step is given the sets of dead rows that calls name by
//! their places.

ghost use Rattle.std.specs.Prelude.{◌≡◌, ◌≢◌, ◌≤◌, ℕ, true, List, Option, Some, None, OnOk, OnErr, IfErr, map, slice_get};
ghost use Rattle.index_model.specs.Faults.{HasCause};
ghost use Rattle.page_action.specs.Causes.{causes_of_forced};
ghost use Rattle.page_action.specs.States.{Continues};
ghost use Rattle.session_calls.specs.TheoremCalls.{DeadSets, asked_by};
ghost use Rattle.session_calls.specs.Ops.{op_before, RunsOn};
ghost use Rattle.session_calls.specs.Sessions.{AnswersStep, StepHasLessLeft, OnlyWritersAct, after_slot};
ghost use Rattle.session_calls.specs.declared.op.Op.{Op};
ghost use Rattle.schedule.specs.Sessions.{here, op_of, SameOthers};
ghost use Rattle.session_calls.specs.Slots.{one_vacuums};
ghost use Rattle.schedule.specs.MomentInvariants.{here_with};
ghost use Rattle.schedule.specs.Events.{IsSameStore, causes_of_begun_at};
ghost use Rattle.schedule.specs.Making.{EventEffect};
ghost use Rattle.schedule.specs.TheoremKinds.{BeginsCall, GivesUp, MovesCall, kind_of};
ghost use Rattle.schedule.specs.TheoremRuns.{ForEachHistory};
ghost use Rattle.whole_calls.specs.Going.{IsOutcomeOf, CallIsRun, CallIsRunFrom};
ghost use Rattle.whole_calls.specs.Inserting.{InsertIsRun};
ghost use Rattle.whole_calls.specs.Made.{IsMadeOf, Answered, ComesTo, InsertComesTo, StepComesTo};
ghost use Rattle.whole_calls.specs.OneStep.{MakesRoom};
ghost use Rattle.whole_calls.specs.Parts.{RunsUnlessLast};
ghost use Rattle.whole_calls.specs.Refusing.{InsertCallIsCaused};
ghost use Rattle.whole_calls.specs.Stepping.{RoomMeans, BeginIsRun, StepIsRun, FinishIsRun, RequestIsRun};
ghost use Rattle.whole_calls.specs.Meanings.{RoomIsMade, MayAnswer, MayComeTo, EndMeans, outcome_at_fault, outcome_of, begun_of, begin_outcome, room_outcome};

use crate::inserted::Inserted;
use index_model::{DeadRows, Entry, Fault};
use page_action::PageStore;
use schedule::{Event, checkpoint, one};
use session_calls::{Answer, Calls, Request};
use vacuum::nothing_is_counted;

// Room for one more act: if there is less, a checkpoint is made.
pub(crate) fn make_room<S: PageStore>(store: &mut S, least_room: u32) -> Result<(), Fault>
    ensures steps { Continues S.follows store.old store.new }
    ensures goes { (session : ℕ) (slots : List (Option Op)) (sets : DeadSets)
        → CallIsRun S.PageStore session (RoomMeans S.PageStore) (room_outcome result)
        (here_with store.old slots sets) (here_with store.new slots sets) }
    // If the log has the room, none is made.
    ensures made { (session : ℕ) (slots : List (Option Op)) (sets : DeadSets)
        → IsMadeOf S.PageStore session least_room (λ answers. IsOutcomeOf answers (room_outcome result))
        (here_with store.old slots sets) (here_with store.new slots sets) }
    ensures tried { (slots : List (Option Op)) (sets : DeadSets)
        → MakesRoom S.PageStore least_room result
        (here_with store.old slots sets) (here_with store.new slots sets) }
    ensures room { OnOk result
        (RoomIsMade least_room (S.state store.old).format (S.backing store.new)) }
    // An act of four images, the most that one has, is not refused with `LogFull` then.
    ensures promise { OnOk result (5 ≤ least_room → 5 ≤ (S.backing store.new).promised) }
    ensures state { S.state store.new ≡ S.state store.old }
    ensures cause { IfErr result
        (HasCause (causes_of_forced (S.backing store.old) (S.backing store.new))) }
{
    let _limits = store.limits();
    if store.room() >= least_room {
        return Ok(());
    }
    match checkpoint(store) {
        Answer::Refused(fault) => Err(fault),
        _ => Ok(()),
    }
}

// One step of the session's call, for which there is room in the log. Refused, with no step made,
// if the room can't be made.
pub(crate) fn step<S: PageStore, T: DeadRows>(
    store: &mut S,
    calls: &mut Calls,
    sets: &[T],
    session: u32,
    least_room: u32,
) -> Answer
    ensures steps { Continues S.follows store.old store.new }
    ensures others { SameOthers session calls.old calls.new }
    ensures goes { CallIsRun S.PageStore session (StepIsRun S.PageStore session least_room result)
        (Some result) (here T.DeadRows store.old calls.old sets.now)
        (here T.DeadRows store.new calls.new sets.now) }
    ensures made { IsMadeOf S.PageStore session least_room (StepComesTo result)
        (here T.DeadRows store.old calls.old sets.now)
        (here T.DeadRows store.new calls.new sets.now) }
    ensures format { (S.state store.new).format ≡ (S.state store.old).format }
    ensures calm { OnlyWritersAct (op_of calls.old session) (S.state store.old)
        (S.state store.new) }
    ensures less { (S.backing store.new).honest ≡ true
        → StepHasLessLeft (S.state store.old) (S.state store.new)
        (op_of calls.old session) (op_of calls.new session) result }
    ensures kind { AnswersStep (op_of calls.old session) (op_of calls.new session) result }
    // What the session runs then, if anything, is of the kind that it ran before.
    ensures runs_on { RunsOn (op_of calls.old session) (op_of calls.new session) }
    ensures lasts { RunsUnlessLast (op_of calls.old session) (op_of calls.new session) result }
{
    match make_room(store, least_room) {
        Ok(()) => schedule::step(store, calls, sets, session),
        Err(fault) => Answer::Refused(fault),
    }
}

// Makes steps of the session's call until one doesn't answer `Going`, and gives that answer. Over a device
// that breaks its model it is also refused with `PageDamaged(0)` (17), after 2^64 - 1 steps.
fn finish<S: PageStore, T: DeadRows>(
    store: &mut S,
    calls: &mut Calls,
    sets: &[T],
    session: u32,
    least_room: u32,
) -> Answer
    ensures steps { Continues S.follows store.old store.new }
    ensures others { SameOthers session calls.old calls.new }
    ensures goes { CallIsRunFrom S.PageStore session (FinishIsRun S.PageStore session least_room result)
        (Some result) (here T.DeadRows store.old calls.old sets.now)
        (here T.DeadRows store.new calls.new sets.now) }
    ensures made { IsMadeOf S.PageStore session least_room (Answered result)
        (here T.DeadRows store.old calls.old sets.now)
        (here T.DeadRows store.new calls.new sets.now) }
    ensures over { result ≢ Answer.Going }
    ensures kind { MayComeTo (map T.is_in sets.now) (op_of calls.old session) result }
{
    let _limits = store.limits();
    // Over a device that breaks its model nothing else bounds the steps; over one that keeps it
    // this many are never made.
    let mut left = u64::MAX;
    while left > 0 {
        match step(store, calls, sets, session, least_room) {
            Answer::Going => {}
            answer => return answer,
        }
        left -= 1;
    }
    Answer::Refused(Fault::PageDamaged(0))
}

// Whether a call has begun.
fn begun(answer: Answer) -> Result<(), Fault>
    ensures { result ≡ begun_of answer }
{
    match answer {
        Answer::Begun => Ok(()),
        Answer::Refused(fault) => Err(fault),
        _ => Err(Fault::NoSession),
    }
}

/// Begins a call, which is run in parts. Refused with `Stopped` (3), `NoSession` (12), also if a
/// bulk delete's set isn't there, `SessionBusy` (13), and of a bulk delete or a cleanup
/// `VacuumRunning` (11), in this order; nothing is changed then.
pub fn begin<S: PageStore, T: DeadRows>(
    store: &mut S,
    calls: &mut Calls,
    sets: &[T],
    session: u32,
    request: Request,
) -> Result<(), Fault>
    ensures steps { Continues S.follows store.old store.new }
    ensures others { SameOthers session calls.old calls.new }
    ensures goes { CallIsRun S.PageStore session (BeginIsRun S.PageStore session request result)
        (begin_outcome result)
        (here T.DeadRows store.old calls.old sets.now)
        (here T.DeadRows store.new calls.new sets.now) }
    ensures made { (least_room : ℕ) → IsMadeOf S.PageStore session least_room
        (λ answers. IsOutcomeOf answers (begin_outcome result))
        (here T.DeadRows store.old calls.old sets.now)
        (here T.DeadRows store.new calls.new sets.now) }
    ensures begins { OnOk result (op_of calls.new session ≡ Some (op_before session request)) }
    ensures refused { OnErr result (IsSameStore S.PageStore
        (here T.DeadRows store.old calls.old sets.now)
        (here T.DeadRows store.new calls.new sets.now)) }
    ensures cause { IfErr result
        (HasCause (causes_of_begun_at S.PageStore store.old (one_vacuums calls.old.slots.items)
        (map T.is_in sets.now) request (slice_get calls.old.slots.items session))) }
    ensures format { (S.state store.new).format ≡ (S.state store.old).format }
{
    nothing_is_counted();
    begun(schedule::begin(store, calls, sets, session, request))
}

// What a call came to that is over.
#[derive(Clone, Copy)]
pub(crate) struct CallOutcome {
    // Its last answer, or the refusal of its beginning.
    pub(crate) answer: Answer,
    // The number of the action that added an insert's entry, if it still ran then.
    pub(crate) added: Option<u64>,
}

// A call that is begun, run to its last answer and given up, if it still runs then. Refused, and
// nothing is changed, if it can't be begun.
pub(crate) fn run_call<S: PageStore, T: DeadRows>(
    store: &mut S,
    calls: &mut Calls,
    sets: &[T],
    session: u32,
    request: Request,
    least_room: u32,
) -> CallOutcome
    ensures steps { Continues S.follows store.old store.new }
    ensures others { SameOthers session calls.old calls.new }
    ensures over { op_of calls.old session ≡ None → op_of calls.new session ≡ None }
    ensures ended { result.answer ≢ Answer.Going }
    ensures kind { MayAnswer (asked_by (map T.is_in sets.now) request) result.answer }
    ensures goes { CallIsRunFrom S.PageStore session
        (RequestIsRun S.PageStore session least_room request result.answer result.added)
        (Some result.answer) (here T.DeadRows store.old calls.old sets.now)
        (here T.DeadRows store.new calls.new sets.now) }
    ensures made { IsMadeOf S.PageStore session least_room (Answered result.answer)
        (here T.DeadRows store.old calls.old sets.now)
        (here T.DeadRows store.new calls.new sets.now) }
{
    let _limits = store.limits();
    match begin(store, calls, sets, session, request) {
        Ok(()) => {}
        Err(fault) => {
            return CallOutcome {
                answer: Answer::Refused(fault),
                added: None,
            };
        }
    }
    let answer = finish(store, calls, sets, session, least_room);
    let added = calls.added(session);
    give_up(store, calls, sets, session);
    CallOutcome { answer, added }
}

// What an insert answers to this fault. If its entry is added, the fault stands in `unfinished`. Else the
// insert is refused.
fn refused(added: Option<u64>, fault: Fault) -> Result<Inserted, Fault>
    ensures { result ≡ outcome_at_fault added fault }
{
    match added {
        Some(action) => Ok(Inserted {
            action,
            unfinished: Some(fault),
        }),
        None => Err(fault),
    }
}

// What an insert answers that came to this.
fn outcome(came: CallOutcome) -> Result<Inserted, Fault>
    ensures { result ≡ outcome_of came.answer came.added }
{
    let CallOutcome { answer, added } = came;
    match answer {
        Answer::Added { action, unfinished } => Ok(Inserted { action, unfinished }),
        Answer::Refused(fault) => refused(added, fault),
        _ => Err(Fault::NoSession),
    }
}

/// Gives the session's call up, if it has one.
pub fn give_up<S: PageStore, T: DeadRows>(
    store: &mut S,
    calls: &mut Calls,
    sets: &[T],
    session: u32,
)
    ensures steps { Continues S.follows store.old store.new }
    ensures others { SameOthers session calls.old calls.new }
    ensures over { op_of calls.new session ≡ None }
    ensures backing { S.backing store.new ≡ S.backing store.old }
    ensures pages { (S.state store.new).pages ≡ (S.state store.old).pages }
    ensures begun { (S.state store.new).begun ≡ (S.state store.old).begun }
    ensures acts { (S.state store.new).acts ≡ (S.state store.old).acts }
    ensures format { (S.state store.new).format ≡ (S.state store.old).format }
    ensures frames { (S.state store.new).frames ≡ (S.state store.old).frames }
    // What the call held is let go, if it has one.
    ensures state { S.state store.new
        ≡ after_slot (op_of calls.old session) (S.state store.old) }
    ensures goes { CallIsRun S.PageStore session (EndMeans session) None
        (here T.DeadRows store.old calls.old sets.now)
        (here T.DeadRows store.new calls.new sets.now) }
    ensures made { (least_room : ℕ) → IsMadeOf S.PageStore session least_room (ComesTo None)
        (here T.DeadRows store.old calls.old sets.now)
        (here T.DeadRows store.new calls.new sets.now) }
    // It is the event `End`, with some answer.
    ensures ends { (answer : Answer) × EventEffect S.PageStore (MovesCall session GivesUp) answer
        (here T.DeadRows store.old calls.old sets.now)
        (here T.DeadRows store.new calls.new sets.now) }
{
    let _answer = one(store, calls, sets, Event::End(session));
}

/// An insert, run to its end in a session. Refused as the beginning of a call is: with `Stopped` (3),
/// `NoSession` (12), `SessionBusy` (13), in this order; nothing is changed then. If a step of it is refused,
/// it is given up. The insert is refused then too, unless its entry is added: then the fault stands in
/// `unfinished`.
pub fn insert<S: PageStore, T: DeadRows>(
    store: &mut S,
    calls: &mut Calls,
    sets: &[T],
    session: u32,
    entry: Entry,
    least_room: u32,
) -> Result<Inserted, Fault>
    ensures steps { Continues S.follows store.old store.new }
    ensures others { SameOthers session calls.old calls.new }
    ensures over { op_of calls.old session ≡ None → op_of calls.new session ≡ None }
    ensures goes { InsertIsRun S.PageStore session entry result
        (here T.DeadRows store.old calls.old sets.now)
        (here T.DeadRows store.new calls.new sets.now) }
    // Whatever the pages are.
    ensures made { IsMadeOf S.PageStore session least_room (InsertComesTo result)
        (here T.DeadRows store.old calls.old sets.now)
        (here T.DeadRows store.new calls.new sets.now) }
    // With `least_room` 5 or more it never answers `LogFull`.
    ensures cause { let old = here T.DeadRows store.old calls.old sets.now in
        ForEachHistory S.PageStore old (here T.DeadRows store.new calls.new sets.now)
        (λ start history calls.
        InsertCallIsCaused S.PageStore session least_room entry old store.new result) }
{
    let request = Request::Insert(entry);
    outcome(run_call(store, calls, sets, session, request, least_room))
}

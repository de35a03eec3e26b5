//! One event of a store with its sessions, and lists of them.

ghost use Rattle.std.specs.Prelude.{◌≡◌, ◌≤◌, ◌+◌, ℕ, List, Option, IfErr, IsOk, OnOk, OnErr, false, length, take, vec_len, vec_capacity};
ghost use Rattle.page_action.specs.Room.{LogIsClosed};
ghost use Rattle.page_action.specs.States.{Continues};
ghost use Rattle.session_calls.specs.TheoremCalls.{DeadSets};
ghost use Rattle.session_calls.specs.declared.op.Op.{Op};
ghost use Rattle.schedule.specs.Sessions.{here};
ghost use Rattle.schedule.specs.MomentInvariants.{here_with};
ghost use Rattle.schedule.specs.TheoremKinds.{BeginsCall, MaintainsStore, Forces, Flushes, Checkpoints, kind_of};
ghost use Rattle.schedule.specs.Events.{AnswersUpkeep, StoreIsKept};
ghost use Rattle.schedule.specs.Making.{EventEffect, EachAlways, answers_after};
ghost use Rattle.schedule.specs.TheoremRuns.{ForEachHistory, Runs};

use crate::event::Event;
use index_model::{DeadRows, Fault};
use page_action::PageStore;
use session_calls::{Answer, Calls, Request};

/// Does one event on a store with the calls of its sessions, and answers what the event gave, a refusal among
/// the answers. If several refusals apply, the first of `Stopped` (3), `NoSession` (12), `SessionBusy`
/// (13) and `VacuumRunning` (11) is answered; a count of calls at its end is refused with `Stopped` too. The
/// sets of dead rows are those that calls name by their places, the same at each event.
pub fn one<S: PageStore, T: DeadRows>(
    store: &mut S,
    calls: &mut Calls,
    sets: &[T],
    event: Event,
) -> Answer
    ensures steps { Continues S.follows store.old store.new }
    ensures makes { EventEffect S.PageStore (kind_of event) result
        (here T.DeadRows store.old calls.old sets.now)
        (here T.DeadRows store.new calls.new sets.now) }
{
    match event {
        Event::Insert(session, entry) => {
            begin(store, calls, sets, session, Request::Insert(entry))
        }
        Event::Scan(session, range) => begin(store, calls, sets, session, Request::Scan(range)),
        Event::Bulk(session, set) => begin(store, calls, sets, session, Request::Bulk(set)),
        Event::Cleanup(session) => begin(store, calls, sets, session, Request::Cleanup),
        Event::Step(session) => step(store, calls, sets, session),
        Event::Next(session) => next(store, calls, sets, session),
        Event::End(session) => calls.end(store, session),
        Event::Force => force(store),
        Event::Flush => flush(store),
        Event::Checkpoint => checkpoint(store),
    }
}

/// Begins a call of a session, as `one` does for the event that asks for it, and as quickly as can be.
/// Refused with the first of these that applies: `Stopped` (3), `NoSession` (12), `SessionBusy` (13) and
/// `VacuumRunning` (11). Nothing is changed then.
pub fn begin<S: PageStore, T: DeadRows>(
    store: &mut S,
    calls: &mut Calls,
    sets: &[T],
    session: u32,
    request: Request,
) -> Answer
    ensures steps { Continues S.follows store.old store.new }
    ensures makes { EventEffect S.PageStore (BeginsCall session request) result
        (here T.DeadRows store.old calls.old sets.now)
        (here T.DeadRows store.new calls.new sets.now) }
{
    calls.begin(store, sets, session, request)
}

/// Makes one step of a session's call, as `one` does for the event `Step`, and as quickly as can be. Refused
/// with `NoSession` (12), or `Stopped` (3), if it has none; else as the step of an insert, a scan, a bulk
/// delete or a cleanup is. A refused step ends the call, unless it was refused with `Blocked` (4) or
/// `NoSession`. It changes nothing else.
pub fn step<S: PageStore, T: DeadRows>(
    store: &mut S,
    calls: &mut Calls,
    sets: &[T],
    session: u32,
) -> Answer
    ensures steps { Continues S.follows store.old store.new }
    ensures makes { EventEffect S.PageStore (kind_of (Event.Step session)) result
        (here T.DeadRows store.old calls.old sets.now)
        (here T.DeadRows store.new calls.new sets.now) }
{
    calls.step(store, sets, session)
}

/// Takes the next entry that a session's scan has ready, as `one` does for the event `Next`, and as quickly
/// as can be. Refused with `NoSession` (12) if it runs none: nothing is changed then.
pub fn next<S: PageStore, T: DeadRows>(
    store: &mut S,
    calls: &mut Calls,
    sets: &[T],
    session: u32,
) -> Answer
    ensures steps { Continues S.follows store.old store.new }
    ensures makes { EventEffect S.PageStore (kind_of (Event.Next session)) result
        (here T.DeadRows store.old calls.old sets.now)
        (here T.DeadRows store.new calls.new sets.now) }
{
    calls.next(session)
}

/// Does these events one after the other, each as `one` does, and puts an answer for each after the answers
/// that are there. Refused with `NoMemory` (1) if there is no room for the answers: nothing is done then.
pub fn run<S: PageStore, T: DeadRows>(
    store: &mut S,
    calls: &mut Calls,
    sets: &[T],
    events: &[Event],
    answers: &mut Vec<Answer>,
) -> Result<(), Fault>
    ensures steps { Continues S.follows store.old store.new }
    ensures sessions { length calls.new.slots.items ≡ length calls.old.slots.items }
    ensures runs { OnOk result
        (let old = here T.DeadRows store.old calls.old sets.now in
        let new = here T.DeadRows store.new calls.new sets.now in
        ForEachHistory S.PageStore old new (Runs S.PageStore old new events.now
        (answers_after answers.old.items answers.new.items))) }
    // Of each event holds what always holds, whatever the pages are.
    ensures always { OnOk result
        (EachAlways S.PageStore events.now
        (answers_after answers.old.items answers.new.items)
        (here T.DeadRows store.old calls.old sets.now)
        (here T.DeadRows store.new calls.new sets.now)) }
    ensures each { OnOk result (length answers.new.items
        ≡ length answers.old.items + length events.now) }
    ensures kept { take (length answers.old.items) answers.new.items ≡ answers.old.items }
    ensures refused { OnErr result ((store.new ≡ store.old) × (calls.new ≡ calls.old)
        × (answers.new.items ≡ answers.old.items)) }
    ensures fault { IfErr result (λ fault. fault ≡ Fault.NoMemory) }
    ensures room { vec_len answers.old + length events.now ≤ vec_capacity answers.old
        → IsOk result }
{
    let Ok(()) = answers.reserve(events.len()) else {
        return Err(Fault::NoMemory);
    };
    for event in events {
        let answer = one(store, calls, sets, *event);
        answers.push_reserved(answer);
    }
    Ok(())
}

/// Makes all actions durable, as the event `Force` does, and answers `Forced` with their number. Refused with
/// `Stopped` (3) and `Io` (2).
pub fn force<S: PageStore>(store: &mut S) -> Answer
    ensures steps { Continues S.follows store.old store.new }
    ensures makes { (slots : List (Option Op)) (sets : DeadSets)
        → EventEffect S.PageStore (MaintainsStore Forces) result
        (here_with store.old slots sets) (here_with store.new slots sets) }
    ensures answers { AnswersUpkeep Forces result }
    ensures kept { StoreIsKept S.PageStore Forces result store.old store.new }
{
    match store.force() {
        Ok(count) => Answer::Forced(count),
        Err(fault) => Answer::Refused(fault),
    }
}

/// Makes all actions durable, writes each changed page to its place and closes the log, as the event
/// `Checkpoint` does, and answers `Checkpointed` with the number of actions. Refused with `Stopped` (3) and
/// `Io` (2).
pub fn checkpoint<S: PageStore>(store: &mut S) -> Answer
    ensures steps { Continues S.follows store.old store.new }
    ensures makes { (slots : List (Option Op)) (sets : DeadSets)
        → EventEffect S.PageStore (MaintainsStore Checkpoints) result
        (here_with store.old slots sets) (here_with store.new slots sets) }
    ensures answers { AnswersUpkeep Checkpoints result }
    ensures kept { StoreIsKept S.PageStore Checkpoints result store.old store.new }
    ensures room { (count : ℕ) → result ≡ Answer.Checkpointed count
        → LogIsClosed (S.state store.old).format (S.backing store.new) }
    ensures alive { (count : ℕ) → result ≡ Answer.Checkpointed count
        → (S.backing store.new).stopped ≡ false }
{
    match store.checkpoint() {
        Ok(count) => Answer::Checkpointed(count),
        Err(fault) => Answer::Refused(fault),
    }
}

fn flush<S: PageStore>(store: &mut S) -> Answer
    ensures steps { Continues S.follows store.old store.new }
    ensures makes { (slots : List (Option Op)) (sets : DeadSets)
        → EventEffect S.PageStore (MaintainsStore Flushes) result
        (here_with store.old slots sets) (here_with store.new slots sets) }
{
    match store.flush() {
        Ok(block) => Answer::Flushed(block),
        Err(fault) => Answer::Refused(fault),
    }
}

//! Events of a running call.

ghost use Rattle.std.specs.Prelude.{◌≡◌, true, false, Bool, List, ℕ, None, Some, map};
ghost use Rattle.index_model.specs.Actions.{Action};
ghost use Rattle.index_model.specs.Calls.{Call};
ghost use Rattle.index_model.specs.declared.entry.Entry.{Entry};
ghost use Rattle.page_action.specs.Causes.{nothing_wrong};
ghost use Rattle.page_action.specs.States.{State, Continues};
ghost use Rattle.session_calls.specs.Due.{IsDueIn};
ghost use Rattle.session_calls.specs.Following.{StepAlways, StepFollows};
ghost use Rattle.session_calls.specs.TheoremCalls.{DeadSets};
ghost use Rattle.session_calls.specs.Ops.{causes_of_slot_stepped, causes_of_asked_next, is_last, RunsOn};
ghost use Rattle.session_calls.specs.Sessions.{SlotFits, SessionEvent, GivesLess, AnswersNext, AnswersEnd, RunsUntilLast, leaf_of, no_call, op_after_call};
ghost use Rattle.session_calls.specs.declared.op.Op.{Op};

use crate::answer::Answer;
use crate::op::{Op, idle};
use crate::slot::Slot;
use index_model::{DeadRows, Fault};
use page_action::PageStore;
use page_codec::Page;

/// Makes one step of a session's call. If the answer ends the call, the slot is empty afterwards, and what
/// the session held is let go. A slot with no call is refused with `NoSession` (12), or `Stopped` (3). A
/// refused step ends the call, unless it was refused with `Blocked` (4) or `NoSession`. It changes nothing
/// else.
///
/// A call that was asked for the rows of a set knows it by its place among the sets. These are the same at
/// each of its steps. What the draft and the pages hold has no meaning.
pub(crate) fn step<S: PageStore, T: DeadRows>(
    store: &mut S,
    slot: &mut Slot,
    sets: &[T],
    draft: &mut Page,
    pages: &mut [Page; 3],
) -> Answer
    ensures steps { Continues S.follows store.old store.new }
    // Whatever the pages are: what it may answer, what a refusal leaves, that less is left to do.
    ensures always { StepAlways S.PageStore store.old store.new slot.old slot.new result }
    // Of each history that fits: the call goes on, by one action at most.
    ensures goes { (S.backing store.new).honest ≡ true
        → (start : Entry → Bool) (history : List Action) (number : ℕ) (call : Call)
        → SlotFits (S.state store.old) (map T.is_in sets.now) start history number call slot.old
        → SessionEvent (causes_of_slot_stepped (map T.is_in sets.now) slot.old (S.state store.old)
        (S.backing store.old) (S.backing store.new))
        (S.state store.old) (S.state store.new) (map T.is_in sets.now) start history number call
        slot.new result }
    // What is followed of the call it follows still, or tells at its end.
    ensures follows { (S.backing store.new).honest ≡ true
        → StepFollows (map T.is_in sets.now) (S.state store.old) (S.state store.new) slot.old
        slot.new result }
{
    if !slot.is_running {
        return idle(store.is_stopped());
    }
    let Some(op) = &mut slot.op else {
        return idle(store.is_stopped());
    };
    let answer = op.step(store, sets, draft, pages);
    if is_last(&answer) {
        let_go(store, op);
        slot.is_running = false;
    }
    answer
}

// Lets go what the session of a call holds that ends; and if it is a bulk delete, none runs now.
fn let_go<S: PageStore>(store: &mut S, op: &Op)
    ensures steps { Continues S.follows store.old store.new }
    ensures backing { S.backing store.new ≡ S.backing store.old }
    ensures state { S.state store.new ≡ op_after_call op.now (S.state store.old) }
{
    store.end(op.session());
    if op.is_bulk_delete() {
        store.stop_cycle();
    }
}

// Whether the answer to a step ends the call.
fn is_last(answer: &Answer) -> bool
    ensures { result ≡ is_last answer.now }
{
    match answer {
        Answer::Added { .. } | Answer::Done | Answer::Finished(_) | Answer::Ended => true,
        Answer::Refused(fault) => !matches!(fault, Fault::Blocked(_) | Fault::NoSession),
        _ => false,
    }
}

/// The next entry that a session's scan has ready, or none. A call that is no scan, and a slot with no call,
/// are refused with `NoSession` (12). Nothing else is changed.
pub(crate) fn next(slot: &mut Slot) -> Answer
    ensures idle { slot.old ≡ None → (slot.new ≡ None) × (result ≡ no_call false) }
    ensures kind { AnswersNext slot.old result }
    ensures runs_on { RunsOn slot.old slot.new }
    ensures until_last { RunsUntilLast slot.old slot.new result }
    ensures less { GivesLess slot.old slot.new result }
    ensures goes { (st : State) (sets : DeadSets) (start : Entry → Bool) (history : List Action)
        (number : ℕ) (call : Call)
        → SlotFits st sets start history number call slot.old
        → SessionEvent (causes_of_asked_next call.ask) st st sets start history number call slot.new
        result }
    ensures due { (st : State) (steps : ℕ) → IsDueIn st slot.old steps
        → IsDueIn st slot.new steps }
    ensures stands { leaf_of slot.new ≡ leaf_of slot.old }
{
    if !slot.is_running {
        return Answer::Refused(Fault::NoSession);
    }
    // Each arm returns on its own, so that it is proved on its own.
    match &mut slot.op {
        Some(Op::Scan(op)) => return Answer::Gave(op.next()),
        _ => return Answer::Refused(Fault::NoSession),
    }
}

/// Gives a session's call up: nothing is logged, and what the session held is let go. A slot with no call is
/// refused with `NoSession` (12).
pub(crate) fn end<S: PageStore>(store: &mut S, slot: &mut Slot) -> Answer
    ensures steps { Continues S.follows store.old store.new }
    ensures idle { slot.old ≡ None → store.new ≡ store.old }
    ensures kind { AnswersEnd slot.old result }
    ensures over { slot.new ≡ None }
    ensures backing { S.backing store.new ≡ S.backing store.old }
    ensures given_up { (op : Op) → slot.old ≡ Some op
        → S.state store.new ≡ op_after_call op (S.state store.old) }
    ensures goes { (sets : DeadSets) (start : Entry → Bool) (history : List Action) (number : ℕ)
        (call : Call)
        → SlotFits (S.state store.old) sets start history number call slot.old
        → SessionEvent nothing_wrong (S.state store.old)
        (S.state store.new) sets start history number call slot.new result }
{
    if !slot.is_running {
        return Answer::Refused(Fault::NoSession);
    }
    let Some(op) = &slot.op else {
        return Answer::Refused(Fault::NoSession);
    };
    let_go(store, op);
    slot.is_running = false;
    Answer::Ended
}

//! Running calls.

ghost use Rattle.std.specs.Prelude.{◌≡◌, true, false, Bool, List, ℕ, Some, length, suc, map};
ghost use Rattle.index_model.specs.Actions.{Action};
ghost use Rattle.index_model.specs.Calls.{Call};
ghost use Rattle.index_model.specs.declared.entry.Entry.{Entry};
ghost use Rattle.tree_acts.specs.Deletions.{StartsAreBelow};
ghost use Rattle.tree_acts.specs.StepEffects.{IsInOrder};
ghost use Rattle.session_calls.specs.Sessions.{no_call};

use crate::answer::Answer;
use crate::request::Request;
use index_model::{DeadRows, Fault, Session};
use insert_split::{InsertOp, InsertStep};
use page_action::PageStore;
use page_codec::Page;
use page_delete::{CleanupOp, CleanupStep};
use scan::{ScanOp, ScanStep};
use vacuum::{BulkDeleteOp, BulkDeleteStep};

/// A running call of a session.
#[derive(Drop)]
pub enum Op {
    Insert(InsertOp),
    Scan(ScanOp),
    /// A bulk delete, with the place of its set among the sets.
    Bulk { set: u32, op: BulkDeleteOp },
    Cleanup(CleanupOp),
}

impl Op {
    ghost use Rattle.session_calls.specs.Due.{IsDueIn, DueCountsDown};
    ghost use Rattle.session_calls.specs.Ops.{op_before, session_of, is_vacuum, is_bulk_delete, add_of, ready_of, OpInvariant, causes_of_stepped};
    ghost use Rattle.session_calls.specs.Sessions.{CallFits, OpSteps, OpEvent, OnlyOwnAreIncomplete, LeavesOwnIncomplete, StandsByAnswer, KeepsBeforePins, CountsEntries, CountsPages, SparesLeaves, slot_after};

    /// The call that a session asks for, before its first step.
    pub fn new(session: Session, request: Request) -> Op
        ensures { result ≡ op_before session request }
    {
        match request {
            Request::Insert(entry) => Op::Insert(InsertOp::new(session, entry)),
            Request::Scan(range) => Op::Scan(ScanOp::new(session, range)),
            Request::Bulk(set) => Op::Bulk {
                set,
                op: BulkDeleteOp::new(session),
            },
            Request::Cleanup => Op::Cleanup(CleanupOp::new(session)),
        }
    }

    /// The session whose call it is.
    pub fn session(&self) -> Session
        ensures { result ≡ session_of self.now }
    {
        match self {
            Op::Insert(op) => op.session,
            Op::Scan(op) => op.session,
            Op::Bulk { op, .. } => op.session,
            Op::Cleanup(op) => op.session,
        }
    }

    /// Whether it is a bulk delete or a cleanup: one runs at a time.
    pub fn is_vacuum(&self) -> bool
        ensures { result ≡ is_vacuum self.now }
    {
        matches!(self, Op::Bulk { .. } | Op::Cleanup(_))
    }

    // Whether it is a bulk delete, for which the store has a cycle number.
    pub(crate) fn is_bulk_delete(&self) -> bool
        ensures { result ≡ is_bulk_delete self.now }
    {
        matches!(self, Op::Bulk { .. })
    }

    /// The number of the action that added its entry, if it is an insert whose entry is added.
    pub fn added(&self) -> Option<u64>
        ensures { result ≡ add_of self.now }
    {
        match self {
            Op::Insert(op) => op.added,
            Op::Scan(_) | Op::Bulk { .. } | Op::Cleanup(_) => None,
        }
    }

    /// How many entries it has ready to be given: a call that is no scan has none.
    pub fn ready(&self) -> u32
        ensures { result ≡ length (ready_of self.now) }
    {
        match self {
            Op::Scan(op) => op.ready(),
            Op::Insert(_) | Op::Bulk { .. } | Op::Cleanup(_) => 0,
        }
    }

    // One step. After an answer that is its last, what the session holds is still held. What the draft and
    // the pages hold has no meaning.
    pub(crate) fn step<S: PageStore, T: DeadRows>(
        &mut self,
        store: &mut S,
        sets: &[T],
        draft: &mut Page,
        pages: &mut [Page; 3],
    ) -> Answer
        ensures all { OpSteps S.PageStore self.old self.new store.old store.new result }
        ensures goes { (S.backing store.new).honest ≡ true
            → (start : Entry → Bool) (history : List Action) (number : ℕ) (call : Call)
            → CallFits (S.state store.old) (map T.is_in sets.now) start history number call self.old
            → OpEvent (causes_of_stepped (map T.is_in sets.now) self.old (S.state store.old)
            (S.backing store.old) (S.backing store.new))
            (S.state store.old) (S.state store.new) (map T.is_in sets.now) start history number
            call self.new result }
        ensures incomplete { (S.backing store.new).honest ≡ true → IsInOrder (S.state store.old)
            → StartsAreBelow (S.state store.old) → OpInvariant (S.state store.old) self.old
            → OnlyOwnAreIncomplete (S.state store.old) (Some self.old)
            → LeavesOwnIncomplete (S.state store.new) (Some self.old) (slot_after result self.new)
            result }
        ensures stands { (S.backing store.new).honest ≡ true → IsInOrder (S.state store.old)
            → OpInvariant (S.state store.old) self.old
            → StandsByAnswer (S.state store.new) (Some self.old) (slot_after result self.new)
            result }
        ensures pins { (S.backing store.new).honest ≡ true
            → KeepsBeforePins (S.state store.old) (Some self.old) (slot_after result self.new)
            result }
        ensures entries { (S.backing store.new).honest ≡ true
            → CountsEntries (map T.is_in sets.now) (S.state store.old) (S.state store.new)
            (Some self.old) (slot_after result self.new) result }
        ensures deletes { (S.backing store.new).honest ≡ true
            → CountsPages (S.state store.old) (S.state store.new) (Some self.old)
            (slot_after result self.new) result }
        ensures spares { (S.backing store.new).honest ≡ true
            → SparesLeaves (S.state store.old) (S.state store.new) (Some self.old)
            (slot_after result self.new) result }
        ensures due { (S.backing store.new).honest ≡ true → IsInOrder (S.state store.old)
            → OpInvariant (S.state store.old) self.old
            → (left : ℕ) → IsDueIn (S.state store.old) (Some self.old) (suc left)
            → DueCountsDown (S.state store.old) (S.state store.new) (Some self.old)
            (slot_after result self.new) left result }
    {
        match self {
            Op::Insert(op) => match op.step(store, draft, pages) {
                Ok(InsertStep::Going) => Answer::Going,
                Ok(InsertStep::Added { action, unfinished }) => Answer::Added {
                    action,
                    unfinished,
                },
                Err(fault) => Answer::Refused(fault),
            },
            Op::Scan(op) => match op.step(store) {
                Ok(ScanStep::Going) => Answer::Going,
                Ok(ScanStep::Ready(count)) => Answer::Ready(count),
                Ok(ScanStep::Done) => Answer::Done,
                Err(fault) => Answer::Refused(fault),
            },
            Op::Bulk { set, op } => match sets.get(*set as usize) {
                None => idle(store.is_stopped()),
                Some(dead) => match op.step(store, dead) {
                    Ok(BulkDeleteStep::Going) => Answer::Going,
                    Ok(BulkDeleteStep::Finished(stats)) => Answer::Finished(stats),
                    Err(fault) => Answer::Refused(fault),
                },
            },
            Op::Cleanup(op) => match op.step(store) {
                Ok(CleanupStep::Going) => Answer::Going,
                Ok(CleanupStep::Finished(stats)) => Answer::Finished(stats),
                Err(fault) => Answer::Refused(fault),
            },
        }
    }
}

// A session with no call, or with no set for it, has no step.
pub(crate) fn idle(is_stopped: bool) -> Answer
    ensures { result ≡ no_call is_stopped }
{
    if is_stopped {
        Answer::Refused(Fault::Stopped)
    } else {
        Answer::Refused(Fault::NoSession)
    }
}

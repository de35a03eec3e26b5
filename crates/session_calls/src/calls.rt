//! The running calls of a store's sessions.

ghost use Rattle.std.specs.Prelude.{◌≡◌, ◌<◌, ◌≤◌, ◌&&◌, length, map, slice_get};
ghost use Rattle.session_calls.specs.Ops.{asks_vacuum};
ghost use Rattle.session_calls.specs.Slots.{one_vacuums, is_of_sets, session_to_begin};

use crate::answer::Answer;
use crate::op::idle;
use crate::request::Request;
use crate::slot::Slot;
use crate::{begins, moves};
use index_model::{DeadRows, Fault, Session};
use page_action::PageStore;
use page_codec::Page;
use std::alloc::Global;

/// The running call of each of 1 to 64 sessions, which has one at most. After it is made, nothing takes
/// memory.
///
/// What its calls promise has one form. A session that runs nothing is refused, and nothing is changed
/// (`idle`, `not_begun`). Else the session's slot alone is changed, and the clause's word speaks of the slot
/// before and after (`changes`).
#[derive(Drop)]
pub struct Calls {
    slots: Vec<Slot>,
    // Where an insert changes a copy of its leaf, and where it splits one. Between steps they have no
    // meaning.
    draft: Box<Page>,
    pages: Box<[Page; 3]>,
    ghost few: { length slots.items ≤ 64 },
}

impl Calls {
    ghost use Rattle.std.specs.Prelude.{◌≡◌, ◌⊎◌, ◌<◌, ◌≤◌, ◌&&◌, true, false, Ok, Err, None, IfOk, IfErr, OnOk, length, map, replicate, slice_get};
    ghost use Rattle.index_model.specs.declared.fault.Fault.{Fault as Refusal};
    ghost use Rattle.page_action.specs.States.{Continues};
    ghost use Rattle.session_calls.specs.Ops.{asks_vacuum, no_call_begins};
    ghost use Rattle.session_calls.specs.Sessions.{ready_count, slot_add, no_call};
    ghost use Rattle.session_calls.specs.Slots.{slot_of, has_call, one_vacuums, is_of_sets, session_to_begin, ChangesSlot, SlotBegins, SlotSteps, SlotGives, SlotEnds};

    /// `sessions` sessions, of which none runs a call. Refused with `BadLimits` (18) unless their number is 1
    /// to 64, and with `NoMemory` (1).
    pub fn new(alloc: Global, sessions: u32) -> Result<Calls, Fault>
        ensures slots { IfOk result (λ calls. calls.slots.items ≡ replicate sessions None) }
        ensures few { OnOk result ((1 ≤ sessions) × (sessions ≤ 64)) }
        ensures first { IfErr result (λ fault.
            (sessions ≡ 0) ⊎ (64 < sessions) → fault ≡ Fault.BadLimits) }
        ensures limits { IfErr result (λ fault.
            fault ≡ Fault.BadLimits → (sessions ≡ 0) ⊎ (64 < sessions)) }
        ensures memory { IfErr result (λ fault.
            (fault ≡ Fault.BadLimits) ⊎ (fault ≡ Fault.NoMemory)) }
    {
        if sessions == 0 || sessions > 64 {
            return Err(Fault::BadLimits);
        }
        let Ok(mut slots) = Vec::with_capacity(alloc, sessions as usize) else {
            return Err(Fault::NoMemory);
        };
        let Ok(draft) = Box::new(alloc, Page::blank()) else {
            return Err(Fault::NoMemory);
        };
        let blank = [Page::blank(), Page::blank(), Page::blank()];
        let Ok(pages) = Box::new(alloc, blank) else {
            return Err(Fault::NoMemory);
        };
        for _at in 0..sessions {
            slots.push_reserved(Slot::new());
        }
        Ok(Calls {
            slots,
            draft,
            pages,
        })
    }

    /// How many sessions there are: 64 at most.
    pub fn sessions(&self) -> u32
        ensures { result ≡ length self.now.slots.items }
    {
        self.slots.len() as u32
    }

    /// Whether the session has a call. One that does not exist has none.
    pub fn is_running(&self, session: u32) -> bool
        ensures value { result ≡ has_call self.now.slots.items session }
        ensures within { result ≡ true → session < length self.now.slots.items }
    {
        let at = session as usize;
        at < self.slots.len() && self.slots[at].is_busy()
    }

    /// The number of the action that added the entry of the session's insert, if it runs one whose entry
    /// is added.
    pub fn added(&self, session: u32) -> Option<u64>
        ensures { result ≡ slot_add (slot_of self.now.slots.items session) }
    {
        let at = session as usize;
        if at >= self.slots.len() {
            return None;
        }
        self.slots[at].added()
    }

    /// How many entries the session's scan has ready to be given. If it runs none, there are none.
    pub fn ready(&self, session: u32) -> u32
        ensures { result ≡ ready_count (slot_of self.now.slots.items session) }
    {
        let at = session as usize;
        if at >= self.slots.len() {
            return 0;
        }
        self.slots[at].ready()
    }

    /// Begins a call of the session. Refused with the first of these that applies: `Stopped` (3), if the
    /// log failed before or the count of calls begun is at its end; `NoSession` (12), if there is no such
    /// session, or not the set of dead rows that is named; `SessionBusy` (13); `VacuumRunning` (11), for a
    /// bulk delete or a cleanup while a session runs either. Nothing is changed then.
    pub fn begin<S: PageStore, T: DeadRows>(
        &mut self,
        store: &mut S,
        sets: &[T],
        session: u32,
        request: Request,
    ) -> Answer
        ensures steps { Continues S.follows store.old store.new }
        ensures not_begun { (fault : Refusal)
            → session_to_begin (no_call_begins (S.state store.old) (S.backing store.old))
            (is_of_sets (map T.is_in sets.now) request)
            (slice_get self.old.slots.items session) session ≡ Err fault
            → (result ≡ Answer.Refused fault) × (self.new ≡ self.old) × (store.new ≡ store.old) }
        ensures changes { session_to_begin
            (no_call_begins (S.state store.old) (S.backing store.old))
            (is_of_sets (map T.is_in sets.now) request)
            (slice_get self.old.slots.items session) session ≡ Ok session
            → ChangesSlot session self.old.slots.items self.new.slots.items
            (SlotBegins S.PageStore store.old store.new session request
            (asks_vacuum request && one_vacuums self.old.slots.items) result) }
    {
        match find(
            begins::no_call_begins(store),
            is_of_sets(sets, &request),
            &self.slots,
            session,
        ) {
            Ok(known) => {
                let excluded = is_excluded(&self.slots, &request);
                begins::begin(
                    store,
                    known,
                    request,
                    excluded,
                    &mut self.slots[session as usize],
                )
            }
            Err(fault) => Answer::Refused(fault),
        }
    }

    /// Makes one step of the session's call. If the answer ends the call it has none afterwards, and what the
    /// session held is let go. Refused with `NoSession` (12), or `Stopped` (3), if it has none. A refused
    /// step ends the call, unless it was refused with `Blocked` (4) or `NoSession`. It changes nothing else.
    ///
    /// A call that was asked for the rows of a set knows it by its place among the sets. These are the same
    /// at each step.
    pub fn step<S: PageStore, T: DeadRows>(
        &mut self,
        store: &mut S,
        sets: &[T],
        session: u32,
    ) -> Answer
        ensures steps { Continues S.follows store.old store.new }
        ensures idle { has_call self.old.slots.items session ≡ false
            → (result ≡ no_call (S.backing store.old).stopped)
            × (self.new ≡ self.old) × (store.new ≡ store.old) }
        ensures changes { has_call self.old.slots.items session ≡ true
            → ChangesSlot session self.old.slots.items self.new.slots.items
            (SlotSteps S.PageStore (map T.is_in sets.now) store.old store.new result) }
    {
        if !self.is_running(session) {
            return idle(store.is_stopped());
        }
        moves::step(
            store,
            &mut self.slots[session as usize],
            sets,
            &mut self.draft,
            &mut self.pages,
        )
    }

    /// Takes the next entry that the session's scan has ready, if there is one. Refused with `NoSession` (12)
    /// if it runs none. Nothing else is changed.
    pub fn next(&mut self, session: u32) -> Answer
        ensures idle { has_call self.old.slots.items session ≡ false
            → (result ≡ no_call false) × (self.new ≡ self.old) }
        ensures changes { has_call self.old.slots.items session ≡ true
            → ChangesSlot session self.old.slots.items self.new.slots.items (SlotGives result) }
    {
        if !self.is_running(session) {
            return idle(false);
        }
        moves::next(&mut self.slots[session as usize])
    }

    /// Gives the session's call up: nothing is logged, and what it held is let go. Refused with `NoSession`
    /// (12) if it has none.
    pub fn end<S: PageStore>(&mut self, store: &mut S, session: u32) -> Answer
        ensures steps { Continues S.follows store.old store.new }
        ensures idle { has_call self.old.slots.items session ≡ false
            → (result ≡ no_call false) × (self.new ≡ self.old) × (store.new ≡ store.old) }
        ensures changes { has_call self.old.slots.items session ≡ true
            → ChangesSlot session self.old.slots.items self.new.slots.items
            (SlotEnds S.PageStore store.old store.new result) }
    {
        if !self.is_running(session) {
            return idle(false);
        }
        moves::end(store, &mut self.slots[session as usize])
    }
}

// Whether the request asks for a bulk delete or a cleanup, and a session runs one.
fn is_excluded(slots: &[Slot], request: &Request) -> bool
    ensures { result ≡ (asks_vacuum request.now && one_vacuums slots.now) }
{
    match request {
        Request::Bulk(_) | Request::Cleanup => one_vacuums(slots),
        _ => false,
    }
}

// Whether a session runs a bulk delete or a cleanup: one at most does.
fn one_vacuums(slots: &[Slot]) -> bool
    ensures { result ≡ one_vacuums slots.now }
{
    slots.iter().any(|slot| slot.vacuums())
}

// Whether the set that a request names is there.
fn is_of_sets<T: DeadRows>(sets: &[T], request: &Request) -> bool
    ensures { result ≡ is_of_sets (map T.is_in sets.now) request.now }
{
    match request {
        Request::Bulk(set) => (*set as usize) < sets.len(),
        _ => true,
    }
}

// The session that may begin a call: refused if no call begins, then if there is none of this number or
// the set that is named isn't there, then if it has a call.
fn find(is_stopped: bool, has_set: bool, slots: &[Slot], session: u32) -> Result<Session, Fault>
    requires few { length slots.now ≤ 64 }
    ensures { result ≡ session_to_begin is_stopped has_set (slice_get slots.now session) session }
{
    if is_stopped {
        return Err(Fault::Stopped);
    }
    let at = session as usize;
    if at >= slots.len() || !has_set {
        return Err(Fault::NoSession);
    }
    if slots[at].is_busy() {
        return Err(Fault::SessionBusy);
    }
    Session::new(session)
}

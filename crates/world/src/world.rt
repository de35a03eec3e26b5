//! A store of pages with its sessions.

use index_model::{DeadRows, Fault};
use page_action::PageStore;
use page_codec::Page;
use schedule::Event;
use session_calls::{Answer, Calls};
use std::alloc::Global;

/// A store of pages with 1 to 64 sessions, of which each runs one call at most. After it is made, nothing
/// takes memory.
///
/// A world stores no history. Its promise is one of each run: whatever history and calls fitted it before,
/// there is a continuation that fits it afterwards, by events with exactly these answers. If nobody else
/// writes to the store's device, a crash at any moment leaves the contents after some prefix of that history,
/// with all that was durable.
///
/// Its clauses have these names:
///
/// - `steps`: its store follows still what it followed before.
/// - `same`: the sessions and the sets stay.
/// - `always`: what holds of each event, whatever the pages are. It answers what it may. A refusal changes
///   nothing, and a stopped log refuses first. A beginning that is refused has its cause. One act at most is
///   done, and only by a step. A step that goes on without one leaves less to do, over a device that keeps
///   its model. No other session is touched. It is told what an end leaves, and which pages wait to be
///   written after a force, a flush and a checkpoint.
/// - `goes` of one event, `runs` of a list: the continuation. There each event also tells how many steps its
///   call takes, which pages it leaves with incomplete splits, that no low of a page rises, and what it
///   leaves as it was.
#[derive(Drop)]
pub struct World<S, T> {
    pub(crate) store: S,
    calls: Calls,
    /// The sets of dead rows that events name by their places.
    pub(crate) sets: Vec<T>,
}

/// Why a world was not made, with the store and the sets as they were.
#[derive(Drop)]
pub struct WorldNotMade<S, T> {
    pub fault: Fault,
    pub store: S,
    pub sets: Vec<T>,
}

impl<S: PageStore, T: DeadRows + Drop> World<S, T> {
    ghost use Rattle.std.specs.Prelude.{◌≡◌, ◌⊎◌, ◌<◌, ◌≤◌, ◌∷◌, [], ℕ, Bool, true, false, List, IfOk, IfErr, OnOk, OnErr, length, slice_get, Some, None, ◌+◌, drop, take, IsOk, vec_len, vec_capacity};
    ghost use Rattle.index_model.specs.Actions.{Action};
    ghost use Rattle.index_model.specs.Calls.{Call};
    ghost use Rattle.index_model.specs.Faults.{HasCause};
    ghost use Rattle.index_model.specs.declared.entry.Entry.{Entry as IndexEntry};
    ghost use Rattle.page_action.specs.Causes.{causes_of_read};
    ghost use Rattle.page_action.specs.Contents.{entry_on_live_leaf};
    ghost use Rattle.page_action.specs.States.{Continues};
    ghost use Rattle.schedule.specs.TheoremKinds.{MovesCall, GivesUp, kind_of};
    ghost use Rattle.schedule.specs.Events.{EventAlways, IsSameStore, OthersStay};
    ghost use Rattle.schedule.specs.Making.{EachAlways};
    ghost use Rattle.schedule.specs.TheoremRuns.{ForEachHistory, Runs};
    ghost use Rattle.session_calls.specs.Sessions.{IsIdle, ready_count, slot_add};
    ghost use Rattle.session_calls.specs.Slots.{has_call, slot_of};
    ghost use Rattle.schedule.specs.MomentInvariants.{IsUnused};
    ghost use Rattle.whole_calls.specs.Going.{CallIsRun};
    ghost use Rattle.whole_calls.specs.Made.{IsMadeOf};
    ghost use Rattle.whole_calls.specs.OneStep.{IsMadeAsStep, OneStepAlways, OneStepComesTo, OneStepIsRun};
    ghost use Rattle.world.specs.Worlds.{WorldFits, WorldStillFits, WorldKeeps, WorldIsSafe, WorldIsRun, ForEachWorldHistory, OnlyLetsGo, SameSessions, inside};

    /// A world over the store. None of its sessions has a call, and its events may name these sets of dead
    /// rows. Refused with `BadLimits` unless it is 1 to 64 sessions, and with `NoMemory`; the store and the
    /// sets are given back.
    ///
    /// If the store's pages are in order and it has made no act, the world is fitted by the contents of its
    /// pages, no actions and no calls. If nobody else wrote to its device, it keeps this history over
    /// crashes.
    pub fn new(
        alloc: Global,
        store: S,
        sessions: u32,
        sets: Vec<T>,
    ) -> Result<World<S, T>, WorldNotMade<S, T>>
        ensures store { IfOk result (λ world. world.store ≡ store) }
        ensures sessions { IfOk result (λ world. length world.calls.slots.items ≡ sessions) }
        ensures sets { IfOk result (λ world. world.sets ≡ sets) }
        ensures few { OnOk result ((1 ≤ sessions) × (sessions ≤ 64)) }
        ensures fits { IsUnused (S.state store) → IfOk result (λ world.
            WorldFits S.PageStore T.DeadRows world
            (entry_on_live_leaf (S.state store).pages) [] []) }
        ensures keeps { IsUnused (S.state store) → S.own store → IfOk result (λ world.
            WorldKeeps S.PageStore T.DeadRows world
            (entry_on_live_leaf (S.state store).pages) [] []) }
        ensures given_back { IfErr result (λ not_made. not_made.store ≡ store) }
        ensures sets_back { IfErr result (λ not_made. not_made.sets ≡ sets) }
        ensures first { IfErr result (λ not_made.
            (sessions ≡ 0) ⊎ (64 < sessions) → not_made.fault ≡ Fault.BadLimits) }
        ensures limits { IfErr result (λ not_made.
            not_made.fault ≡ Fault.BadLimits → (sessions ≡ 0) ⊎ (64 < sessions)) }
        ensures memory { IfErr result (λ not_made.
            (not_made.fault ≡ Fault.BadLimits) ⊎ (not_made.fault ≡ Fault.NoMemory)) }
    {
        match Calls::new(alloc, sessions) {
            Ok(calls) => Ok(World { store, calls, sets }),
            Err(fault) => Err(WorldNotMade { fault, store, sets }),
        }
    }

    /// Does one event and answers what it gave, a refusal among the answers. If several refusals apply, the
    /// first of `Stopped`, `NoSession`, `SessionBusy`, `VacuumRunning` is answered; a count of calls at its
    /// end is refused with `Stopped` too.
    pub fn one(&mut self, event: Event) -> Answer
        ensures steps { Continues S.follows self.old.store self.new.store }
        ensures same { SameSessions self.old self.new }
        ensures goes { ForEachWorldHistory S.PageStore T.DeadRows self.old self.new
            (WorldIsRun S.PageStore T.DeadRows self.old self.new event result) }
        ensures always { EventAlways S.PageStore (kind_of event) result
            (inside T.DeadRows self.old) (inside T.DeadRows self.new) }
    {
        schedule::one(&mut self.store, &mut self.calls, &self.sets, event)
    }

    /// Makes one step of the session's call, as the event `Step` does, and answers what it gave. If the log
    /// has room for fewer than `least_room` images, a checkpoint is made before. If that is refused, with
    /// `Io` or `Stopped`, the call is given up and answers this fault: an insert whose entry is added leaves
    /// it unfinished, any other call is refused with it. With 5 it never answers `LogFull`.
    pub fn take_step(&mut self, session: u32, least_room: u32) -> Answer
        ensures steps { Continues S.follows self.old.store self.new.store }
        ensures same { SameSessions self.old self.new }
        ensures goes { CallIsRun S.PageStore session
            (OneStepIsRun S.PageStore session least_room result) None
            (inside T.DeadRows self.old) (inside T.DeadRows self.new) }
        ensures made { IsMadeOf S.PageStore session least_room (OneStepComesTo result)
            (inside T.DeadRows self.old) (inside T.DeadRows self.new) }
        ensures events { IsMadeAsStep S.PageStore session least_room result
            (inside T.DeadRows self.old) (inside T.DeadRows self.new) }
        ensures always { OneStepAlways S.PageStore session result
            (inside T.DeadRows self.old) (inside T.DeadRows self.new) }
    {
        whole_calls::take_step(
            &mut self.store,
            &mut self.calls,
            &self.sets,
            session,
            least_room,
        )
    }

    /// Does these events one after the other, and puts an answer for each after the answers that are there.
    /// Refused with `NoMemory` if there is no room for the answers: nothing is done then.
    pub fn run(&mut self, events: &[Event], answers: &mut Vec<Answer>) -> Result<(), Fault>
        ensures steps { Continues S.follows self.old.store self.new.store }
        ensures same { SameSessions self.old self.new }
        ensures runs { OnOk result (let old = inside T.DeadRows self.old in
            let new = inside T.DeadRows self.new in
            ForEachHistory S.PageStore old new (Runs S.PageStore old new events.now
            (drop (length answers.old.items) answers.new.items))) }
        ensures always { OnOk result (EachAlways S.PageStore events.now
            (drop (length answers.old.items) answers.new.items)
            (inside T.DeadRows self.old) (inside T.DeadRows self.new)) }
        ensures each { OnOk result
            (length answers.new.items ≡ length answers.old.items + length events.now) }
        ensures kept { take (length answers.old.items) answers.new.items ≡ answers.old.items }
        ensures refused { OnErr result
            ((self.new ≡ self.old) × (answers.new.items ≡ answers.old.items)) }
        ensures fault { IfErr result (λ fault. fault ≡ Fault.NoMemory) }
        ensures room { vec_len answers.old + length events.now ≤ vec_capacity answers.old
            → IsOk result }
    {
        schedule::run(
            &mut self.store,
            &mut self.calls,
            &self.sets,
            events,
            answers,
        )
    }

    /// A copy of the page of this block, as it was acted last. Refused with `Io`, `Stopped`, `NoFrame`, and
    /// with `PageDamaged` for a block that is not in use. Nothing of the pages, the calls and the sessions is
    /// changed, whatever it answers; what fits is kept.
    pub fn page(&mut self, block: u32) -> Result<Page, Fault>
        ensures steps { Continues S.follows self.old.store self.new.store }
        ensures sets { self.new.sets ≡ self.old.sets }
        ensures unchanged { IsSameStore S.PageStore
            (inside T.DeadRows self.old) (inside T.DeadRows self.new) }
        ensures fits { ForEachWorldHistory S.PageStore T.DeadRows self.old self.new
            (WorldFits S.PageStore T.DeadRows self.new) }
        ensures crash { ForEachWorldHistory S.PageStore T.DeadRows self.old self.new
            (WorldIsSafe S.PageStore T.DeadRows self.old self.new) }
        ensures page { (S.backing self.new.store).honest ≡ true
            → IfOk result (λ page. slice_get (S.state self.old.store).pages block ≡ Some page) }
        ensures cause { IfErr result (HasCause (causes_of_read (S.state self.old.store)
            (S.backing self.old.store) (S.backing self.new.store) block)) }
    {
        self.store.page(block)
    }

    /// Gives the session's call up, as an `End` of it does: nothing is logged, and what the session held is
    /// let go.
    pub fn abandon(&mut self, session: u32) -> Answer
        ensures steps { Continues S.follows self.old.store self.new.store }
        ensures same { SameSessions self.old self.new }
        ensures goes { ForEachWorldHistory S.PageStore T.DeadRows self.old self.new
            (WorldIsRun S.PageStore T.DeadRows self.old self.new (Event.End session) result) }
        ensures always { EventAlways S.PageStore (MovesCall session GivesUp) result
            (inside T.DeadRows self.old) (inside T.DeadRows self.new) }
    {
        self.one(Event::End(session))
    }

    /// The store. Each call that a session runs is given up before, as [`World::abandon`] does it: nothing is
    /// logged, and what the session held is let go. So a world that is made over the store isn't blocked by
    /// calls that are gone.
    pub fn into_store(self) -> S
        ensures steps { Continues S.follows self.store result }
        // If no session has a call, it is the very store.
        ensures same { ((session : ℕ) → has_call self.calls.slots.items session ≡ false)
            → result ≡ self.store }
        ensures backing { S.backing result ≡ S.backing self.store }
        ensures kept { OnlyLetsGo (S.state self.store) (S.state result) }
        // If something fits the world, no session holds anything of the store.
        ensures idle { (S.backing self.store).honest ≡ true
            → (start : IndexEntry → Bool) (history : List Action) (calls : List Call)
            → WorldFits S.PageStore T.DeadRows self start history calls
            → (session : ℕ) → IsIdle (S.state result) session }
    {
        let mut world = self;
        world.end_calls();
        let World { store, .. } = world;
        store
    }

    // Gives up the call of each session.
    fn end_calls(&mut self)
        ensures steps { Continues S.follows self.old.store self.new.store }
        ensures over { (session : ℕ) → has_call self.new.calls.slots.items session ≡ false }
        ensures same { ((session : ℕ) → has_call self.old.calls.slots.items session ≡ false)
            → self.new ≡ self.old }
        ensures backing { S.backing self.new.store ≡ S.backing self.old.store }
        ensures kept { OnlyLetsGo (S.state self.old.store) (S.state self.new.store) }
        ensures fits { ForEachWorldHistory S.PageStore T.DeadRows self.old self.new
            (WorldStillFits S.PageStore T.DeadRows self.new) }
    {
        for session in 0..self.sessions() {
            self.end_call(session);
        }
    }

    // Gives up the session's call, if it has one.
    fn end_call(&mut self, session: u32)
        ensures steps { Continues S.follows self.old.store self.new.store }
        ensures sessions { length self.new.calls.slots.items ≡ length self.old.calls.slots.items }
        ensures over { has_call self.new.calls.slots.items session ≡ false }
        ensures others { OthersStay session self.old.calls.slots.items self.new.calls.slots.items }
        ensures same { has_call self.old.calls.slots.items session ≡ false → self.new ≡ self.old }
        ensures backing { S.backing self.new.store ≡ S.backing self.old.store }
        ensures kept { OnlyLetsGo (S.state self.old.store) (S.state self.new.store) }
        ensures fits { ForEachWorldHistory S.PageStore T.DeadRows self.old self.new
            (WorldStillFits S.PageStore T.DeadRows self.new) }
    {
        if !self.is_running(session) {
            return;
        }
        let _ended = self.abandon(session);
    }

    /// How many images one more act could hold now: no more than are promised to it.
    pub fn room(&self) -> u32
        ensures value { result ≡ (S.backing self.now.store).room }
        ensures promised { result ≤ (S.backing self.now.store).promised }
    {
        self.store.room()
    }

    /// How many acts the store has made since opening: of a world that is fitted, how many actions its
    /// history has.
    pub fn actions(&self) -> u64
        ensures { result ≡ (S.state self.now.store).acts }
    {
        self.store.acts()
    }

    /// The next unused block.
    pub fn used(&self) -> u32
        ensures { result ≡ length (S.state self.now.store).pages }
    {
        self.store.used()
    }

    /// How many sessions there are: 1 to 64.
    pub fn sessions(&self) -> u32
        ensures { result ≡ length self.now.calls.slots.items }
    {
        self.calls.sessions()
    }

    /// How many entries the session's scan has ready to be given. If it runs none, there are none.
    pub fn ready(&self, session: u32) -> u32
        ensures { result ≡ ready_count (slot_of self.now.calls.slots.items session) }
    {
        self.calls.ready(session)
    }

    /// The number of the action that added the entry of the session's insert, if it runs one whose entry is
    /// added.
    pub fn added(&self, session: u32) -> Option<u64>
        ensures { result ≡ slot_add (slot_of self.now.calls.slots.items session) }
    {
        self.calls.added(session)
    }

    /// Whether the session has a call. One that does not exist has none.
    pub fn is_running(&self, session: u32) -> bool
        ensures value { result ≡ has_call self.now.calls.slots.items session }
        ensures within { result ≡ true → session < length self.now.calls.slots.items }
    {
        self.calls.is_running(session)
    }
}

//! A world under a lock, with sessions that come with calls one at a time: each event in one hold.

ghost use Rattle.std.specs.Prelude.{◌≡◌, ◌≤◌, [], ℕ, true, false, not, length, None, Some, IfOk, IfErr, OnOk, OnErr, slice_get, slice_set};
ghost use Rattle.session_calls.specs.Sessions.{ready_count, slot_add};
ghost use Rattle.session_calls.specs.Slots.{slot_of};
ghost use Rattle.whole_calls.specs.Going.{CallIsRun};
ghost use Rattle.whole_calls.specs.Made.{IsMadeOf};
ghost use Rattle.whole_calls.specs.OneStep.{IsMadeAsStep, OneStepAlways, OneStepComesTo, OneStepIsRun};
ghost use Rattle.world.specs.Sets.{IsNotPutFor};
ghost use Rattle.world.specs.Worlds.{inside};
ghost use Rattle.session_seats.specs.Calls.{begun_by, given_more};
ghost use Rattle.session_seats.specs.Seats.{registry_with, view_of};
ghost use Rattle.shared_world.specs.Acted.{HasActed, MayBeLeft};
ghost use Rattle.shared_world.specs.Doing.{IsEventDone};
ghost use Rattle.shared_world.specs.Handed.{ComesOf, IsAsHanded, StillFollows};
ghost use Rattle.shared_world.specs.Jobs.{event_of};
ghost use Rattle.shared_world.specs.Kept.{KeepsAll, MatchesPending};
ghost use Rattle.shared_world.specs.Rows.{rows_in, set_asked};
ghost use Rattle.shared_world.specs.Standing.{AreIdle, Stands};
ghost use Rattle.session_seats.specs.declared.call.PendingCall.{PendingCall as RunningCall};
ghost use Rattle.shared_world.specs.Leaving.{HasRoomLeft, LeavesCall, RunsItsCall, call_begun, call_in, is_begun, notice_of};

use crate::origin::OriginOn;
use index_model::DeadRows;
use page_action::PageStore;
use schedule::{Event, one_call_runs, ready_entries_may_come_next, refused_calls_fit};
use session_calls::Answer;
use session_seats::{
    AskedRows, Job, Notice, SessionDesk, SessionGroup, SessionSeat, begin, check, end, gave,
};
use std::marker::Brand;
use world::{NotPut, World};

/// A world whose sessions threads share. It lies under their lock, and its facts hold at each release. It
/// keeps no record of what was done: the log of all calls stands in the registry's view, for clauses alone.
#[derive(Drop)]
pub struct Live<S: PageStore, T: DeadRows + Drop, J: OriginOn<S>> {
    pub world: World<S, T>,
    /// How many actions there were as the world was handed in.
    pub start: u64,
    /// How many events were done since, modulo 2^64: by this a thread that waits sees that another moved.
    pub moves: u64,
    pub desk: SessionDesk<J>,
    pub ghost kept: { ∥ KeepsAll S.PageStore J.handed J.stood J.kept_then (inside T.DeadRows world) start
        (view_of desk.registry).pending (view_of desk.registry).log ∥₁ },
    pub ghost acted: { ∥ HasActed S.PageStore J.handed (inside T.DeadRows world)
        (view_of desk.registry).pending (view_of desk.registry).log ∥₁ },
    pub ghost matches: { ∥ MatchesPending world.calls.slots.items (view_of desk.registry).pending ∥₁ },
    pub ghost seats: { length (view_of desk.registry).pending ≤ length world.calls.slots.items },
    pub ghost comes: { ∥ ComesOf S.PageStore J.handed start (inside T.DeadRows world) ∥₁ },
    pub ghost steps: { ∥ StillFollows S.PageStore J.followed world.store ∥₁ },
}

/// What an event under the lock leaves its session: its seat, the answer, and whether the call is over. If it
/// is, the log has it.
#[derive(Drop)]
pub struct SessionTurn<J: SessionGroup> {
    pub seat: SessionSeat<J>,
    pub answer: Answer,
    pub over: bool,
}

// Whether a call has begun.
fn is_begun(answer: &Answer) -> bool
    ensures { result ≡ is_begun answer.now }
{
    match answer {
        Answer::Begun => true,
        _ => false,
    }
}

// What an event leaves its session.
fn turn<J: SessionGroup>(seat: SessionSeat<J>, answer: Answer, over: bool) -> SessionTurn<J>
    ensures seat { result.seat ≡ seat }
    ensures answer { result.answer ≡ answer }
    ensures over { result.over ≡ over }
{
    SessionTurn { seat, answer, over }
}

// The notice of a call that is asked this and answers that, at this number of actions.
fn notice(asked: &Job, answer: &Answer, at: u64) -> Notice
    ensures { result ≡ notice_of asked.now answer.now at }
{
    Notice {
        asked: *asked,
        answer: *answer,
        at,
    }
}

// The event that begins a job: of a commit or a checkpoint the whole of it.
fn beginning(session: u32, job: &Job) -> Event
    ensures { result ≡ event_of session job.now }
{
    match job {
        Job::Insert(entry) => Event::Insert(session, *entry),
        Job::Scan { range, .. } => Event::Scan(session, *range),
        Job::Bulk(set) => Event::Bulk(session, *set),
        Job::Cleanup => Event::Cleanup(session),
        Job::Commit => Event::Force,
        Job::Checkpoint => Event::Checkpoint,
    }
}

// The call of the seat's session begins, which is asked what the notice tells, and is to remove the rows that
// it names among the sets of this world.
fn begin_naming<S: PageStore, T: DeadRows, J: SessionGroup, B: AskedRows>(
    world: &World<S, T>,
    desk: &mut SessionDesk<J>,
    seat: SessionSeat<J>,
    notice: &Notice,
) -> SessionSeat<J>
    requires rows { B.rows ≡ rows_in (set_asked (inside T.DeadRows world.now).sets notice.now.asked) }
    ensures registry { view_of desk.new.registry ≡ registry_with (view_of desk.old.registry).log
        (slice_set (view_of desk.old.registry).pending seat.session (Some (begun_by
        (rows_in (set_asked (inside T.DeadRows world.now).sets notice.now.asked)) notice.now
        (length (view_of desk.old.registry).log)))) }
    ensures session { result.session ≡ seat.session }
    ensures call { (view_of result.pass).call ≡ Some (begun_by
        (rows_in (set_asked (inside T.DeadRows world.now).sets notice.now.asked)) notice.now
        (length (view_of desk.old.registry).log)) }
    ensures calls { (view_of result.pass).calls ≡ (view_of seat.pass).calls }
{
    begin::<J, B>(desk, seat, notice)
}

impl<S: PageStore, T: DeadRows + Drop, J: OriginOn<S>> Live<S, T, J> {
    /// What lies under the lock at first: the world, with seats that have had no call.
    pub fn new(world: World<S, T>, desk: SessionDesk<J>) -> Live<S, T, J>
        requires stood { Stands S.PageStore J.stood J.kept_then J.followed (inside T.DeadRows world) }
        requires handed { IsAsHanded S.PageStore J.handed (inside T.DeadRows world) }
        requires rests { AreIdle world.calls.slots.items }
        requires first { (view_of desk.registry).log ≡ [] }
        requires none { (session : ℕ) (p : RunningCall)
            → slice_get (view_of desk.registry).pending session ≡ Some (Some p) → ⊥ }
        requires seats { length (view_of desk.registry).pending ≤ length world.calls.slots.items }
        ensures world { result.world ≡ world }
        ensures start { result.start ≡ (S.state world.store).acts }
        ensures desk { result.desk ≡ desk }
    {
        let start = world.actions();
        Live {
            world,
            start,
            moves: 0,
            desk,
        }
    }

    /// Puts a set of dead rows at this place among the world's, and hands out the one that was there. No call
    /// is touched: each that began is to remove what it was. Refused as `World::put_set` is, with the set
    /// given back and nothing changed.
    pub fn put_set(&mut self, at: u32, set: T) -> Result<T, NotPut<T>>
        requires may { J.handed.spare ≡ Some at }
        ensures was { IfOk result (λ was. slice_get self.old.world.sets.items at ≡ Some was) }
        ensures put { OnOk result
            (self.new.world.sets.items ≡ slice_set self.old.world.sets.items at set) }
        ensures store { self.new.world.store ≡ self.old.world.store }
        ensures calls { self.new.world.calls ≡ self.old.world.calls }
        ensures desk { self.new.desk ≡ self.old.desk }
        ensures start { self.new.start ≡ self.old.start }
        ensures moves { self.new.moves ≡ self.old.moves }
        ensures refused { OnErr result (self.new.world ≡ self.old.world) }
        ensures given_back { IfErr result (λ not_put. not_put.set ≡ set) }
        ensures cause { IfErr result (λ not_put.
            IsNotPutFor S.PageStore not_put.fault at self.old.world) }
    {
        self.world.put_set(at, set)
    }

    /// Begins a call of the session, or does a commit or a checkpoint, which is done whole. A call that is
    /// refused is over, and so is a commit or a checkpoint.
    pub fn begin(&mut self, seat: SessionSeat<J>, asked: Job) -> SessionTurn<J>
        requires idle { (view_of seat.pass).call ≡ None }
        ensures session { result.seat.session ≡ seat.session }
        ensures start { self.new.start ≡ self.old.start }
        ensures event { IsEventDone S.PageStore (event_of seat.session asked) result.answer
            (inside T.DeadRows self.old.world) (inside T.DeadRows self.new.world) }
        ensures over { result.over ≡ not (is_begun result.answer) }
        ensures told { LeavesCall seat.session result.over
            (call_begun asked (rows_in (set_asked (inside T.DeadRows self.old.world).sets asked)) (S.state self.old.world.store).acts (length (view_of self.old.desk.registry).log))
            result.answer (S.state self.old.world.store).acts
            (view_of self.old.desk.registry) (view_of self.new.desk.registry)
            (view_of seat.pass) (view_of result.seat.pass) }
    {
        let session = seat.session;
        let from = self.world.actions();
        let Live {
            world,
            start: _,
            moves,
            desk,
        } = self;
        refused_calls_fit::<S>();
        let seat = check(desk, seat);
        let answer = world.one(beginning(session, &asked));
        *moves = moves.wrapping_add(1);
        let said = notice(&asked, &answer, from);
        let seat = begin_naming::<S, T, J, Brand>(world, desk, seat, &said);
        if is_begun(&answer) {
            return turn(seat, answer, false);
        }
        let seat = end(desk, seat, &said);
        turn(seat, answer, true)
    }

    /// A step of the session's call, with the checkpoint before it for which the log has too little room. If
    /// its answer is the last, the call is over. If it is blocked, it goes on.
    pub fn step(&mut self, seat: SessionSeat<J>) -> SessionTurn<J>
        requires runs { RunsItsCall (view_of seat.pass) }
        ensures session { result.seat.session ≡ seat.session }
        ensures start { self.new.start ≡ self.old.start }
        ensures goes { CallIsRun S.PageStore seat.session
            (OneStepIsRun S.PageStore seat.session 5 result.answer) None
            (inside T.DeadRows self.old.world) (inside T.DeadRows self.new.world) }
        ensures made { IsMadeOf S.PageStore seat.session 5 (OneStepComesTo result.answer)
            (inside T.DeadRows self.old.world) (inside T.DeadRows self.new.world) }
        ensures events { IsMadeAsStep S.PageStore seat.session 5 result.answer
            (inside T.DeadRows self.old.world) (inside T.DeadRows self.new.world) }
        ensures always { OneStepAlways S.PageStore seat.session result.answer
            (inside T.DeadRows self.old.world) (inside T.DeadRows self.new.world) }
        ensures told { LeavesCall seat.session result.over (call_in (view_of seat.pass)) result.answer
            (S.state self.new.world.store).acts
            (view_of self.old.desk.registry) (view_of self.new.desk.registry)
            (view_of seat.pass) (view_of result.seat.pass) }
    {
        let session = seat.session;
        let Live {
            world,
            start: _,
            moves,
            desk,
        } = self;
        one_call_runs::<S>();
        let seat = check(desk, seat);
        let answer = world.take_step(session, 5);
        *moves = moves.wrapping_add(1);
        // It runs on exactly if the answer isn't the last.
        if world.is_running(session) {
            return turn(seat, answer, false);
        }
        let said = notice(&Job::Commit, &answer, world.actions());
        let seat = end(desk, seat, &said);
        turn(seat, answer, true)
    }

    /// Asks the session's call for its next entry.
    pub fn next(&mut self, seat: SessionSeat<J>) -> (SessionSeat<J>, Answer)
        requires runs { RunsItsCall (view_of seat.pass) }
        requires room { HasRoomLeft (call_in (view_of seat.pass)) }
        ensures session { result.0.session ≡ seat.session }
        ensures start { self.new.start ≡ self.old.start }
        ensures event { IsEventDone S.PageStore (Event.Next seat.session) result.1
            (inside T.DeadRows self.old.world) (inside T.DeadRows self.new.world) }
        ensures told { LeavesCall seat.session false (given_more (call_in (view_of seat.pass)) result.1)
            result.1 0 (view_of self.old.desk.registry) (view_of self.new.desk.registry)
            (view_of seat.pass) (view_of result.0.pass) }
    {
        let session = seat.session;
        let Live {
            world,
            start: _,
            moves,
            desk,
        } = self;
        one_call_runs::<S>();
        let seat = check(desk, seat);
        let answer = world.one(Event::Next(session));
        *moves = moves.wrapping_add(1);
        let said = notice(&Job::Commit, &answer, 0);
        let seat = gave(desk, seat, &said);
        (seat, answer)
    }

    /// Gives the session's call up, before its end: it is over, with what it did. If the room of a scan is
    /// full, it must have an entry more ready (else a step tells whether it has). An insert must not have
    /// added its entry.
    pub fn end(&mut self, seat: SessionSeat<J>) -> SessionSeat<J>
        requires runs { RunsItsCall (view_of seat.pass) }
        requires may { MayBeLeft (call_in (view_of seat.pass)).asked (call_in (view_of seat.pass)).given
            (ready_count (slot_of self.old.world.calls.slots.items seat.session))
            (slot_add (slot_of self.old.world.calls.slots.items seat.session)) }
        ensures session { result.session ≡ seat.session }
        ensures start { self.new.start ≡ self.old.start }
        ensures event { IsEventDone S.PageStore (Event.End seat.session) Answer.Ended
            (inside T.DeadRows self.old.world) (inside T.DeadRows self.new.world) }
        ensures told { LeavesCall seat.session true (call_in (view_of seat.pass)) Answer.Ended
            (S.state self.new.world.store).acts
            (view_of self.old.desk.registry) (view_of self.new.desk.registry)
            (view_of seat.pass) (view_of result.pass) }
    {
        let session = seat.session;
        let Live {
            world,
            start: _,
            moves,
            desk,
        } = self;
        one_call_runs::<S>();
        ready_entries_may_come_next::<S>();
        let seat = check(desk, seat);
        let answer = world.one(Event::End(session));
        *moves = moves.wrapping_add(1);
        let said = notice(&Job::Commit, &answer, world.actions());
        end(desk, seat, &said)
    }
}

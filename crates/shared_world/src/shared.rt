//! What lies under the lock, and each event that is done there.

ghost use Rattle.std.specs.Prelude.{◌≡◌, ◌≢◌, ◌<◌, ◌≤◌, ◌↔◌, ◌++◌, ◌∷◌, [], ℕ, true, false, length, Some, None, IsSome, slice_get, slice_set, vec_len, vec_capacity};
ghost use Rattle.whole_calls.specs.Going.{CallIsRun};
ghost use Rattle.whole_calls.specs.Made.{IsMadeOf};
ghost use Rattle.whole_calls.specs.OneStep.{IsMadeAsStep, OneStepAlways, OneStepComesTo, OneStepIsRun};
ghost use Rattle.worker_seats.specs.Seats.{registry_of, known_by};
ghost use Rattle.world.specs.Worlds.{inside};
ghost use Rattle.session_seats.specs.Seats.{view_of};
ghost use Rattle.shared_world.specs.Booked.{AreBooked};
ghost use Rattle.shared_world.specs.Doing.{IsEventDone, IsFullScan, IsToBeCut, MayBeDone, ended_at, given_after};
ghost use Rattle.shared_world.specs.Jobs.{IsRoomOf, event_of};
ghost use Rattle.shared_world.specs.Notes.{completed_calls, jobs_of, notes_of, pending_calls, record_of};
ghost use Rattle.shared_world.specs.Props.{AreBooked-prop, AreSeated-prop};
ghost use Rattle.shared_world.specs.Seated.{AreSeated, HoldsSeat};
ghost use Rattle.shared_world.specs.Turns.{JobBeginMeans, SeatMeans, SitsOn, TakeMeans, TurnMeans};

use crate::jobs::{Jobs, JobsOn};
use crate::live::{Live, SessionTurn};
use crate::record::{Pending, Record};
use index_model::{DeadRows, Entry};
use page_action::PageStore;
use schedule::Event;
use session_calls::Answer;
use session_seats::{Job, SessionGroup, SessionSeat};
use std::sync::ledger::Book;
use worker_seats::{Desk, Seat, check, end, start};

/// What lies under the lock of a run of jobs. Its facts hold at each release.
#[derive(Drop)]
pub struct Shared<S: PageStore, T: DeadRows + Drop, J: JobsOn<S>> {
    pub live: Live<S, T, J>,
    pub history: Vec<Record>,
    pub pending: Vec<Option<Pending>>,
    /// The seats of the workers' sessions: of worker w, that of session w.
    pub seats: Vec<Option<SessionSeat<J>>>,
    pub book: Book<J>,
    pub desk: Desk<J>,
    pub ghost stays: { J.handed.spare ≡ None },
    pub ghost told: { (view_of live.desk.registry).log ≡ completed_calls J.handed.sets history.items },
    pub ghost runs: { (view_of live.desk.registry).pending ≡ pending_calls J.handed.sets pending.items },
    pub ghost booked: { AreBooked J.jobs pending.items history.items } by { AreBooked-prop J.jobs pending.items history.items },
    pub ghost seated: { AreSeated J.handed.sets J.workers pending.items seats.items } by { AreSeated-prop J.handed.sets J.workers pending.items seats.items },
    pub ghost workers: { vec_len pending ≡ J.workers },
    pub ghost enough: { length J.jobs ≤ vec_capacity history },
    pub ghost counted: { book.total ≡ vec_len history },
    pub ghost knows: { known_by desk.registry ≡ registry_of (notes_of history.items) (jobs_of pending.items) },
}

/// What an event under the lock leaves its worker: its seat, the answer, and the place of the record, if it
/// made one.
#[derive(Drop)]
pub struct Turn<J: Jobs> {
    pub seat: Seat<J>,
    pub answer: Answer,
    pub place: Option<u64>,
}

// What an event leaves its worker.
fn told<J: Jobs>(seat: Seat<J>, answer: Answer, place: Option<u64>) -> Turn<J>
    ensures seat { result.seat ≡ seat }
    ensures answer { result.answer ≡ answer }
    ensures place { result.place ≡ place }
{
    Turn {
        seat,
        answer,
        place,
    }
}

// A job that is to run.
fn running(job: u32, asked: &Job, given: Vec<Entry>, from: u64, seen: u64) -> Pending
    ensures { result ≡ (record {
      job = job;
      asked = asked.now;
      given = given;
      from = from;
      seen = seen;
    }) }
{
    Pending {
        job,
        asked: *asked,
        given,
        from,
        seen,
    }
}

// The record of a job that is done.
fn record(worker: u32, done: Pending, answer: &Answer, to: u64) -> Record
    ensures { result ≡ record_of worker done answer.now to }
{
    let Pending {
        job,
        asked,
        given,
        from,
        seen,
    } = done;
    Record {
        worker,
        job,
        asked,
        answer: *answer,
        given,
        from,
        to,
        seen,
    }
}

// Puts the entry that an answer gives after those that were given, if there is room.
fn keep_gift(given: &mut Vec<Entry>, answer: &Answer)
    requires room { vec_len given.old < vec_capacity given.old }
    ensures items { given.new.items ≡ given_after answer.now given.old.items }
    ensures capacity { vec_capacity given.new ≡ vec_capacity given.old }
{
    match answer {
        Answer::Gave(Some(entry)) => given.push_reserved(*entry),
        _ => {}
    }
}

// Takes the seat at this place out.
fn take_seat<J: SessionGroup>(seats: &mut Vec<Option<SessionSeat<J>>>, place: u32) -> SessionSeat<J>
    requires there { HoldsSeat (slice_get seats.old.items place) }
    ensures seat { slice_get seats.old.items place ≡ Some (Some result) }
    ensures taken { seats.new.items ≡ slice_set seats.old.items place None }
{
    let Some(seat) = seats[place as usize].take() else {
        unreachable!()
    };
    seat
}

// Puts a seat back at its place.
fn put_seat<J: SessionGroup>(
    seats: &mut Vec<Option<SessionSeat<J>>>,
    place: u32,
    seat: SessionSeat<J>,
)
    requires inside { place < length seats.old.items }
    ensures put { seats.new.items ≡ slice_set seats.old.items place (Some seat) }
{
    seats[place as usize] = Some(seat);
}

// Whether the job is a scan whose room is full, and which has an entry ready.
fn is_full(asked: Job, running: &Option<Pending>, ready: u32) -> bool
    ensures yes { result ≡ true → IsFullScan asked running.now ready }
    ensures no { result ≡ false → IsFullScan asked running.now ready → ⊥ }
{
    if ready == 0 {
        return false;
    }
    match asked {
        Job::Scan { .. } => match running {
            Some(running) => running.given.len() >= running.given.capacity(),
            None => false,
        },
        _ => false,
    }
}

impl<S: PageStore, T: DeadRows + Drop, J: JobsOn<S>> Shared<S, T, J> {
    /// Begins a job: a call of the worker's session, or a commit or a checkpoint, which is done whole. Where
    /// that is refused, and after a commit and a checkpoint, it is recorded, and has its place.
    pub fn begin(&mut self, seat: Seat<J>, job: u32, asked: Job, given: Vec<Entry>) -> Turn<J>
        requires idle { (known_by seat.pass).job ≡ None }
        requires job { slice_get J.jobs job ≡ Some asked }
        requires given { given.items ≡ [] }
        requires holds { IsRoomOf asked (vec_capacity given) }
        requires room { vec_len self.old.history < vec_capacity self.old.history }
        ensures worker { result.seat.worker ≡ seat.worker }
        ensures start { self.new.live.start ≡ self.old.live.start }
        ensures capacity { vec_capacity self.new.history ≡ vec_capacity self.old.history }
        ensures event { IsEventDone S.PageStore (event_of seat.worker asked) result.answer
            (inside T.DeadRows self.old.live.world) (inside T.DeadRows self.new.live.world) }
        ensures told { JobBeginMeans seat.worker
            (record {
              job = job;
              asked = asked;
              given = given;
              from = (S.state self.old.live.world.store).acts;
              seen = length self.old.history.items;
            }) result.answer result.place
            self.old.history.items self.new.history.items
            self.old.pending.items self.new.pending.items }
        ensures seat { SeatMeans job result.place (known_by seat.pass) (known_by result.seat.pass) }
    {
        let worker = seat.worker;
        let from = self.live.world.actions();
        let seen = self.history.len() as u64;
        let Shared {
            live,
            history,
            pending,
            seats,
            book,
            desk,
        } = self;
        let running = running(job, &asked, given, from, seen);
        let seat = check(desk, seat);
        let turn = live.begin(take_seat(seats, worker), asked);
        let SessionTurn {
            seat: session,
            answer,
            over,
        } = turn;
        put_seat(seats, worker, session);
        if over {
            history.push_reserved(record(worker, running, &answer, from));
            let seat = end(desk, book, seat, job);
            return told(seat, answer, Some(seen));
        }
        pending[worker as usize] = Some(running);
        let seat = start(desk, seat, job);
        told(seat, answer, None)
    }

    /// A step of the session's call, with the checkpoint before it for which the log has too little room. If
    /// its answer is the last, it is recorded, and has its place; if it is blocked, it goes on.
    pub fn step(&mut self, seat: Seat<J>, job: u32) -> Turn<J>
        requires runs { (known_by seat.pass).job ≡ Some job }
        requires room { vec_len self.old.history < vec_capacity self.old.history }
        ensures worker { result.seat.worker ≡ seat.worker }
        ensures start { self.new.live.start ≡ self.old.live.start }
        ensures capacity { vec_capacity self.new.history ≡ vec_capacity self.old.history }
        ensures goes { CallIsRun S.PageStore seat.worker
            (OneStepIsRun S.PageStore seat.worker 5 result.answer) None
            (inside T.DeadRows self.old.live.world) (inside T.DeadRows self.new.live.world) }
        ensures made { IsMadeOf S.PageStore seat.worker 5 (OneStepComesTo result.answer)
            (inside T.DeadRows self.old.live.world) (inside T.DeadRows self.new.live.world) }
        ensures events { IsMadeAsStep S.PageStore seat.worker 5 result.answer
            (inside T.DeadRows self.old.live.world) (inside T.DeadRows self.new.live.world) }
        ensures always { OneStepAlways S.PageStore seat.worker result.answer
            (inside T.DeadRows self.old.live.world) (inside T.DeadRows self.new.live.world) }
        ensures told { TurnMeans seat.worker job result.answer
            (S.state self.new.live.world.store).acts result.place self.old.history.items
            self.new.history.items self.old.pending.items self.new.pending.items }
        ensures seat { SeatMeans job result.place (known_by seat.pass) (known_by result.seat.pass) }
    {
        let worker = seat.worker;
        let Shared {
            live,
            history,
            pending,
            seats,
            book,
            desk,
        } = self;
        let seat = check(desk, seat);
        let turn = live.step(take_seat(seats, worker));
        let SessionTurn {
            seat: session,
            answer,
            over,
        } = turn;
        put_seat(seats, worker, session);
        if over {
            let to = live.world.actions();
            let place = history.len() as u64;
            let Some(done) = pending[worker as usize].take() else {
                unreachable!()
            };
            let own = done.job;
            history.push_reserved(record(worker, done, &answer, to));
            let seat = end(desk, book, seat, own);
            return told(seat, answer, Some(place));
        }
        told(seat, answer, None)
    }

    /// Asks the session's call for its next entry, which is put after those that it has given. If their room
    /// is full, nothing is done, and there is no answer.
    pub fn next(&mut self, seat: Seat<J>, job: u32) -> (Seat<J>, Option<Answer>)
        requires runs { (known_by seat.pass).job ≡ Some job }
        ensures worker { result.0.worker ≡ seat.worker }
        ensures start { self.new.live.start ≡ self.old.live.start }
        ensures history { self.new.history ≡ self.old.history }
        ensures event { MayBeDone S.PageStore (Event.Next seat.worker) result.1
            (inside T.DeadRows self.old.live.world) (inside T.DeadRows self.new.live.world) }
        ensures told { TakeMeans seat.worker job result.1
            self.old.pending.items self.new.pending.items }
        ensures seat { SitsOn job (known_by seat.pass) (known_by result.0.pass) }
    {
        let worker = seat.worker;
        let Shared {
            live,
            history: _,
            pending,
            seats,
            book: _,
            desk,
        } = self;
        let seat = check(desk, seat);
        let Some(mut running) = pending[worker as usize].take() else {
            unreachable!()
        };
        if running.given.len() >= running.given.capacity() {
            pending[worker as usize] = Some(running);
            return (seat, None);
        }
        let (session, answer) = live.next(take_seat(seats, worker));
        put_seat(seats, worker, session);
        keep_gift(&mut running.given, &answer);
        pending[worker as usize] = Some(running);
        (seat, Some(answer))
    }

    /// Gives the call of the session's scan up, if its room is full and it has an entry more ready: it is
    /// recorded with what it gave, and has its place. Else nothing is done.
    pub fn end(&mut self, seat: Seat<J>, job: u32, asked: Job) -> (Seat<J>, Option<u64>)
        requires runs { (known_by seat.pass).job ≡ Some job }
        requires job { slice_get J.jobs job ≡ Some asked }
        requires room { vec_len self.old.history < vec_capacity self.old.history }
        ensures worker { result.0.worker ≡ seat.worker }
        ensures start { self.new.live.start ≡ self.old.live.start }
        ensures capacity { vec_capacity self.new.history ≡ vec_capacity self.old.history }
        ensures event { MayBeDone S.PageStore (Event.End seat.worker) (ended_at result.1)
            (inside T.DeadRows self.old.live.world) (inside T.DeadRows self.new.live.world) }
        ensures exactly { IsSome result.1 ↔ IsToBeCut asked seat.worker
            self.old.pending.items self.old.live.world.calls.slots.items }
        ensures told { TurnMeans seat.worker job Answer.Ended
            (S.state self.new.live.world.store).acts result.1 self.old.history.items
            self.new.history.items self.old.pending.items self.new.pending.items }
        ensures seat { SeatMeans job result.1 (known_by seat.pass) (known_by result.0.pass) }
    {
        let worker = seat.worker;
        let Shared {
            live,
            history,
            pending,
            seats,
            book,
            desk,
        } = self;
        let seat = check(desk, seat);
        let ready = live.world.ready(worker);
        if is_full(asked, &pending[worker as usize], ready) {
            let session = live.end(take_seat(seats, worker));
            put_seat(seats, worker, session);
            let until = live.world.actions();
            let place = history.len() as u64;
            let Some(done) = pending[worker as usize].take() else {
                unreachable!()
            };
            let own = done.job;
            history.push_reserved(record(worker, done, &Answer::Ended, until));
            let seat = end(desk, book, seat, own);
            return (seat, Some(place));
        }
        (seat, None)
    }
}

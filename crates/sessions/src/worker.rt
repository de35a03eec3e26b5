//! A worker: it takes a job after the other from the queue, and does each under the lock, event by event.

ghost use Rattle.std.specs.Prelude.{◌≡◌, ◌<◌, ◌++◌, ◌∷◌, [], ℕ, List, None, Some, slice_get, vec_capacity};
ghost use Rattle.crossbeam_queue.specs.Passes.{view, IsPassOf};
ghost use Rattle.worker_seats.specs.Queue.{KnowsAll, jobs_in};
ghost use Rattle.worker_seats.specs.Seats.{known_by};
ghost use Rattle.shared_world.specs.Jobs.{IsRoomOf};
ghost use Rattle.shared_world.specs.Turns.{SeatMeans, SitsOn};

use crate::context::RunContext;
use crate::gate::Gate;
use crate::ready::is_ready;
use crate::slot::RunSlot;
use crate::started::Started;
use crate::ticket::{JobList, JobTicket};
use crate::turn_lock::WorkerTurn;
use index_model::{DeadRows, Entry};
use page_action::PageStore;
use session_calls::Answer;
use shared_world::{Job, JobsOn, Turn};
use std::sync::Wait;
use std::thread;
use worker_seats::{Pops, QueuePass, Seat, Telling};

// Begins a job, in a hold of the lock. The gate was told of it, and of each before it.
fn begin_in<
    S: PageStore,
    T: DeadRows + Drop,
    J: JobsOn<S>,
    K: JobList,
    H: Telling + Send + Drop,
    G: Gate<Hand = H>,
    R: Wait,
>(
    run: &RunContext<S, T, J, K, G, R>,
    seat: Seat<J>,
    job: u32,
    asked: &Job,
    room: Vec<Entry>,
    _hand: &H,
) -> Turn<J>
    requires told { H.told _hand.now ≡ jobs_in (known_by seat.pass).notes ++ job ∷ [] }
    requires idle { (known_by seat.pass).job ≡ None }
    requires job { slice_get J.jobs job ≡ Some asked.now }
    requires empty { room.items ≡ [] }
    requires holds { IsRoomOf asked.now (vec_capacity room) }
    ensures worker { result.seat.worker ≡ seat.worker }
    ensures seat { SeatMeans job result.place (known_by seat.pass) (known_by result.seat.pass) }
{
    let mut guard = run
        .signals
        .opened
        .wait_while(run.rt, run.slot.lock(run.rt), |slot| !is_ready(slot));
    let RunSlot::Open(shared, _) = &mut *guard else {
        unreachable!()
    };
    shared.begin(seat, job, *asked, room)
}

// Makes a step of the session's call, in a hold of the lock.
fn step_in<S: PageStore, T: DeadRows + Drop, J: JobsOn<S>, K: JobList, G: Gate, R: Wait>(
    run: &RunContext<S, T, J, K, G, R>,
    seat: Seat<J>,
    job: u32,
) -> Turn<J>
    requires runs { (known_by seat.pass).job ≡ Some job }
    ensures worker { result.seat.worker ≡ seat.worker }
    ensures seat { SeatMeans job result.place (known_by seat.pass) (known_by result.seat.pass) }
{
    let mut guard = run
        .signals
        .opened
        .wait_while(run.rt, run.slot.lock(run.rt), |slot| !is_ready(slot));
    let RunSlot::Open(shared, _) = &mut *guard else {
        unreachable!()
    };
    shared.step(seat, job)
}

// Asks the session's call for its next entry, in a hold of the lock.
fn next_in<S: PageStore, T: DeadRows + Drop, J: JobsOn<S>, K: JobList, G: Gate, R: Wait>(
    run: &RunContext<S, T, J, K, G, R>,
    seat: Seat<J>,
    job: u32,
) -> Seat<J>
    requires runs { (known_by seat.pass).job ≡ Some job }
    ensures worker { result.worker ≡ seat.worker }
    ensures seat { SitsOn job (known_by seat.pass) (known_by result.pass) }
{
    let mut guard = run
        .signals
        .opened
        .wait_while(run.rt, run.slot.lock(run.rt), |slot| !is_ready(slot));
    let RunSlot::Open(shared, _) = &mut *guard else {
        unreachable!()
    };
    let (seat, _) = shared.next(seat, job);
    seat
}

// Gives the session's scan up if its room is full, in a hold of the lock.
fn end_in<S: PageStore, T: DeadRows + Drop, J: JobsOn<S>, K: JobList, G: Gate, R: Wait>(
    run: &RunContext<S, T, J, K, G, R>,
    seat: Seat<J>,
    job: u32,
    asked: &Job,
) -> (Seat<J>, Option<u64>)
    requires runs { (known_by seat.pass).job ≡ Some job }
    requires job { slice_get J.jobs job ≡ Some asked.now }
    ensures worker { result.0.worker ≡ seat.worker }
    ensures seat { SeatMeans job result.1 (known_by seat.pass) (known_by result.0.pass) }
{
    let mut guard = run
        .signals
        .opened
        .wait_while(run.rt, run.slot.lock(run.rt), |slot| !is_ready(slot));
    let RunSlot::Open(shared, _) = &mut *guard else {
        unreachable!()
    };
    shared.end(seat, job, *asked)
}

// Takes this number of entries, which are ready.
fn take_ready<S: PageStore, T: DeadRows + Drop, J: JobsOn<S>, K: JobList, G: Gate, R: Wait>(
    run: &RunContext<S, T, J, K, G, R>,
    my_turn: &mut WorkerTurn,
    seat: Seat<J>,
    job: u32,
    count: u32,
) -> Seat<J>
    requires runs { (known_by seat.pass).job ≡ Some job }
    ensures worker { result.worker ≡ seat.worker }
    ensures seat { SitsOn job (known_by seat.pass) (known_by result.pass) }
{
    let mut mine = seat;
    for _ in 0..count {
        mine = next_in(run, mine, job);
        my_turn.go_on(run.rt, &run.signals.turn_lock);
    }
    mine
}

// A step, and what is to be done after it: of a scan that has entries ready these are taken; if its room was
// full before, it is given up.
fn turn<S: PageStore, T: DeadRows + Drop, J: JobsOn<S>, K: JobList, G: Gate, R: Wait>(
    run: &RunContext<S, T, J, K, G, R>,
    my_turn: &mut WorkerTurn,
    seat: Seat<J>,
    job: u32,
    asked: &Job,
) -> (Seat<J>, Option<u64>)
    requires runs { (known_by seat.pass).job ≡ Some job }
    requires job { slice_get J.jobs job ≡ Some asked.now }
    ensures worker { result.0.worker ≡ seat.worker }
    ensures seat { SeatMeans job result.1 (known_by seat.pass) (known_by result.0.pass) }
{
    let Turn {
        seat,
        answer,
        place,
    } = step_in(run, seat, job);
    if place.is_some() {
        return (seat, place);
    }
    let Answer::Ready(count) = answer else {
        if matches!(answer, Answer::Refused(_)) {
            // Another worker holds what it needs.
            my_turn.end(run.rt, &run.signals.turn_lock);
            thread::yield_now();
            my_turn.begin(run.rt, &run.signals.turn_lock);
        }
        return (seat, None);
    };
    if count == 0 {
        return (seat, None);
    }
    let (seat, place) = end_in(run, seat, job, asked);
    if place.is_some() {
        return (seat, place);
    }
    let seat = take_ready(run, my_turn, seat, job, count);
    (seat, None)
}

// Does a job from its beginning to its record.
fn one_job<
    S: PageStore,
    T: DeadRows + Drop,
    J: JobsOn<S>,
    K: JobList,
    H: Telling + Send + Drop,
    G: Gate<Hand = H>,
    R: Wait,
>(
    run: &RunContext<S, T, J, K, G, R>,
    my_turn: &mut WorkerTurn,
    seat: Seat<J>,
    hand: &H,
    ticket: JobTicket<K>,
) -> Seat<J>
    requires told { H.told hand.now
        ≡ jobs_in (known_by seat.pass).notes ++ ticket.job ∷ [] }
    requires idle { (known_by seat.pass).job ≡ None }
    ensures worker { result.worker ≡ seat.worker }
    ensures idle { (known_by result.pass).job ≡ None }
    ensures note { (place : ℕ) × ((known_by result.pass).notes
        ≡ (known_by seat.pass).notes ++ (place, ticket.job) ∷ []) }
{
    let JobTicket {
        job,
        asked,
        room,
        of: _,
    } = ticket;
    let Turn {
        seat,
        answer: _,
        place,
    } = begin_in(run, seat, job, &asked, room, hand);
    let mut mine = seat;
    let mut at = place;
    for _ in run.rt.forever() {
        my_turn.go_on(run.rt, &run.signals.turn_lock);
        if at.is_some() {
            return mine;
        }
        let (next, then) = turn(run, my_turn, mine, job, &asked);
        mine = next;
        at = then;
    }
    unreachable!()
}

// Tells the gate of a job. If that may wait for others, nobody waits for this worker meanwhile.
fn tell<
    S: PageStore,
    T: DeadRows + Drop,
    J: JobsOn<S>,
    K: JobList,
    H: Telling + Send + Drop,
    G: Gate<Hand = H>,
    R: Wait,
>(run: &RunContext<S, T, J, K, G, R>, my_turn: &mut WorkerTurn, hand: &mut H, worker: u32, job: u32)
    ensures { H.told hand.new ≡ H.told hand.old ++ job ∷ [] }
{
    if !run.gate.may_wait() {
        run.gate.taken(hand, worker, job);
        return;
    }
    my_turn.end(run.rt, &run.signals.turn_lock);
    run.signals.rounds.end_work(run.rt);
    run.gate.taken(hand, worker, job);
    run.signals.rounds.begin_work(run.rt);
}

// Waits until the worker may do this job: a commit with those of its round, each other one with the turn
// lock.
fn wait_for<S: PageStore, T: DeadRows + Drop, J: JobsOn<S>, K: JobList, G: Gate, R: Wait>(
    run: &RunContext<S, T, J, K, G, R>,
    my_turn: &mut WorkerTurn,
    asked: &Job,
) {
    let rounds = &run.signals.rounds;
    match asked {
        Job::Commit => {
            let round = rounds.ask_commit(run.rt);
            my_turn.end(run.rt, &run.signals.turn_lock);
            if let Some(round) = round {
                rounds.begin_commit(run.rt, round);
            }
            return;
        }
        Job::Insert(_) => rounds.begin_insert(run.rt),
        _ => rounds.end_work(run.rt),
    }
    my_turn.begin(run.rt, &run.signals.turn_lock);
}

/// Does jobs until the queue was empty, once all workers have started. The gate is told of each, once, after
/// it is taken and before it begins.
pub fn work<
    S: PageStore,
    T: DeadRows + Drop,
    J: JobsOn<S>,
    K: JobList,
    H: Telling + Send + Drop,
    G: Gate<Hand = H>,
    R: Wait,
>(
    run: &RunContext<S, T, J, K, G, R>,
    started: &Started<J>,
    seat: Seat<J>,
    pass: QueuePass<JobTicket<K>>,
    hand: &mut H,
) -> (Seat<J>, QueuePass<JobTicket<K>>)
    requires idle { (known_by seat.pass).job ≡ None }
    requires told { H.told hand.old ≡ jobs_in (known_by seat.pass).notes }
    requires queue { IsPassOf run.now.queue.now pass }
    requires part { 0 < (view pass).parts }
    ensures worker { result.0.worker ≡ seat.worker }
    ensures idle { (known_by result.0.pass).job ≡ None }
    ensures queue { IsPassOf run.now.queue.now result.1 }
    ensures parts { (view result.1).parts ≡ (view pass).parts }
    ensures pushed { (view result.1).pushed ≡ (view pass).pushed }
    ensures did { (more : List (ℕ × ℕ))
        × ((known_by result.0.pass).notes ≡ (known_by seat.pass).notes ++ more)
        × ((view result.1).popped ≡ (view pass).popped ++ jobs_in more) }
    ensures told { H.told hand.new ≡ jobs_in (known_by result.0.pass).notes }
    ensures empty { KnowsAll (view result.1) [] }
{
    run.signals.rounds.begin_work(run.rt);
    let mut my_turn = WorkerTurn::new();
    let mut mine = seat;
    let mut own = pass;
    for _ in run.rt.forever() {
        match run.jobs(started).pop_as::<Pops, R>(run.rt, &mut own) {
            Some(ticket) => {
                tell(run, &mut my_turn, hand, mine.worker, ticket.job);
                let asked = ticket.asked;
                wait_for(run, &mut my_turn, &asked);
                mine = one_job(run, &mut my_turn, mine, hand, ticket);
                run.signals.rounds.after(run.rt, &asked);
            }
            None => {
                my_turn.end(run.rt, &run.signals.turn_lock);
                run.signals.rounds.end_work(run.rt);
                return (mine, own);
            }
        }
    }
    unreachable!()
}

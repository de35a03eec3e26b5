//! A run's threads: started, let go, and joined.

ghost use Rattle.std.specs.Prelude.{◌≡◌, ◌≤◌, ◌<◌, ◌+◌, [], ℕ, true, false, None, Some, IfOk, IfErr, IfSome, length, slice_get, vec_len, vec_capacity};
ghost use Rattle.crossbeam_queue.specs.Passes.{view, IsPassOf};
ghost use Rattle.session_calls.specs.Slots.{has_call};
ghost use Rattle.worker_seats.specs.Queue.{KnowsAll, jobs_in, sum_over, weigh};
ghost use Rattle.worker_seats.specs.Seats.{registry_of, known_by};
ghost use Rattle.world.specs.Worlds.{inside};
ghost use Rattle.shared_world.specs.Ended.{HasRun};
ghost use Rattle.shared_world.specs.Handed.{IsAsHanded};
ghost use Rattle.shared_world.specs.Notes.{jobs_of};
ghost use Rattle.sessions.specs.Finishing.{HaveTold};
ghost use Rattle.shared_world.specs.Standing.{AreIdle, Stands};
ghost use Rattle.shared_world.specs.declared.record.Pending.{Pending as WaitingJob};

use crate::context::RunContext;
use crate::gate::Gate;
use crate::ready::is_open;
use crate::run_room::RunRoom;
use crate::slot::RunSlot;
use crate::started::{Started, all_started};
use crate::ticket::{JobList, JobTicket};
use crate::worker::work;
use crate::worker_thread::{Number, worker_thread};
use index_model::DeadRows;
use page_action::PageStore;
use shared_world::{Jobs, JobsOn, Pending, Record, Shared, ended, first};
use std::mem;
use std::sync::Wait;
use std::sync::ledger::Share;
use std::thread::{PromisedHandle, Scope, Threads};
use worker_seats::{Desk, QueuePass, Seat, Telling, Worker, gather, open};
use world::World;

// Puts a value under the lock, and wakes all.
fn put<S: PageStore + Drop, T: DeadRows + Drop, J: JobsOn<S>, K: JobList, G: Gate, R: Wait>(
    run: &RunContext<S, T, J, K, G, R>,
    value: RunSlot<S, T, J>,
) {
    *run.slot.lock(run.rt) = value;
    run.signals.opened.notify_all();
}

// Takes what lies under the lock out of it.
fn take_out<S: PageStore + Drop, T: DeadRows + Drop, J: JobsOn<S>, K: JobList, G: Gate, R: Wait>(
    run: &RunContext<S, T, J, K, G, R>,
) -> Shared<S, T, J> {
    let mut guard = run
        .signals
        .opened
        .wait_while(run.rt, run.slot.lock(run.rt), |slot| !is_open(slot));
    let RunSlot::Open(shared, _) = mem::replace(&mut *guard, RunSlot::Closed) else {
        unreachable!()
    };
    shared
}

// Starts a thread for each worker but the last. False if one can't be started.
fn start_all<
    's,
    E,
    S: PageStore + Drop + Send + 's,
    T: DeadRows + Drop + Send + 's,
    J: JobsOn<S> + Send + Sync + 's,
    K: JobList + Send + Sync + 's,
    H: Telling + Send + Drop + 's,
    G: Gate<Hand = H> + Sync + 's,
    R: Threads + Wait + Sync + 's,
>(
    scope: &'s Scope<'s, E>,
    run: &'s RunContext<'s, S, T, J, K, G, R>,
    desk: &mut Desk<J>,
    pass: &mut QueuePass<JobTicket<K>>,
    all: &mut Share<J>,
    pending: &mut Vec<Option<Pending>>,
    handles: &mut Vec<PromisedHandle<Worker<J, JobTicket<K>, H>, Number>>,
    last: u32,
) -> bool
    requires few { last < 64 }
    requires registry { known_by desk.old.registry ≡ registry_of [] [] }
    requires pass { IsPassOf run.now.queue.now pass.old }
    requires whole { (view pass.old).parts ≡ 1024 }
    requires popped { (view pass.old).popped ≡ [] }
    requires all { (all.old.parts ≡ 65) × (all.old.amount ≡ 0) }
    requires pending { (pending.old.items ≡ []) × (last < vec_capacity pending.old) }
    requires handles { (handles.old.items ≡ []) × (last < vec_capacity handles.old) }
    ensures registry { result ≡ true
        → known_by desk.new.registry ≡ registry_of [] (jobs_of pending.new.items) }
    ensures pass { result ≡ true → IsPassOf run.now.queue.now pass.new }
    ensures whole { result ≡ true → (view pass.new).parts + last ≡ 1024 }
    ensures pushed { result ≡ true → (view pass.new).pushed ≡ (view pass.old).pushed }
    ensures popped { result ≡ true → (view pass.new).popped ≡ [] }
    ensures all { result ≡ true → (all.new.parts + last ≡ 65) × (all.new.amount ≡ 0) }
    ensures pending { result ≡ true → vec_len pending.new ≡ last }
    ensures room { vec_capacity pending.new ≡ vec_capacity pending.old }
    ensures none { result ≡ true → (session : ℕ) (p : WaitingJob)
        → slice_get pending.new.items session ≡ Some (Some p) → ⊥ }
    ensures handles { result ≡ true → vec_len handles.new ≡ last }
    ensures ranked { result ≡ true
        → (k : ℕ) → IfSome (slice_get handles.new.items k) (λ h. h.promise.0 ≡ k) }
{
    for w in 0..last {
        let share = all.split_off(1, 0);
        let seat = open(desk, share, w);
        let mine = run.another(pass);
        let hand = run.gate.hand(w);
        pending.push_reserved(None);
        let job = move || -> Worker<J, JobTicket<K>, H>
            requires rests { (known_by seat.pass).job ≡ None }
            requires fresh { (known_by seat.pass).notes ≡ [] }
            requires pass { IsPassOf run.now.queue.now mine }
            requires part { (view mine).parts ≡ 1 }
            requires popped { (view mine).popped ≡ [] }
            requires told { H.told hand ≡ [] }
            ensures { result.seat.worker ≡ seat.worker }
        { worker_thread(run, seat, mine, hand) };
        match scope.spawn_with(Number(w), job) {
            Ok(handle) => handles.push_reserved(handle),
            Err(_) => return false,
        }
    }
    true
}

// Joins the threads, in order.
fn joined<J: Jobs, K: JobList, H: Telling + Drop, R: Threads>(
    rt: &R,
    handles: Vec<PromisedHandle<Worker<J, JobTicket<K>, H>, Number>>,
    mut returned: Vec<Worker<J, JobTicket<K>, H>>,
) -> Vec<Worker<J, JobTicket<K>, H>>
    requires ranked { (k : ℕ) → IfSome (slice_get handles.items k) (λ h. h.promise.0 ≡ k) }
    requires returned { (returned.items ≡ []) × (vec_len handles < vec_capacity returned) }
    ensures len { vec_len result ≡ vec_len handles }
    ensures ranked { (k : ℕ) → IfSome (slice_get result.items k) (λ w. w.seat.worker ≡ k) }
{
    for handle in handles {
        returned.push_reserved(handle.join(rt));
    }
    returned
}

// Works as the last worker, joins the others, and works until no job is left: then the pass has every part.
fn work_out<
    S: PageStore,
    T: DeadRows + Drop,
    J: JobsOn<S>,
    K: JobList,
    H: Telling + Send + Drop,
    G: Gate<Hand = H>,
    R: Threads + Wait,
>(
    run: &RunContext<S, T, J, K, G, R>,
    started: Started<J>,
    own: Seat<J>,
    pass: QueuePass<JobTicket<K>>,
    mut hand: H,
    handles: Vec<PromisedHandle<Worker<J, JobTicket<K>, H>, Number>>,
    returned: Vec<Worker<J, JobTicket<K>, H>>,
    mut seats: Vec<Seat<J>>,
    mut hands: Vec<H>,
) -> (Vec<Seat<J>>, QueuePass<JobTicket<K>>, Vec<H>)
    requires own { own.worker ≡ vec_len handles }
    requires rests { (known_by own.pass).job ≡ None }
    requires fresh { (known_by own.pass).notes ≡ [] }
    requires pass { IsPassOf run.now.queue.now pass }
    requires part { 0 < (view pass).parts }
    requires parts { (view pass).parts + vec_len handles ≡ 1024 }
    requires popped { (view pass).popped ≡ [] }
    requires ranked { (k : ℕ) → IfSome (slice_get handles.items k) (λ h. h.promise.0 ≡ k) }
    requires returned { (returned.items ≡ []) × (vec_len handles < vec_capacity returned) }
    requires seats { (seats.items ≡ []) × (vec_len handles < vec_capacity seats) }
    requires hands { (hands.items ≡ []) × (vec_len handles < vec_capacity hands) }
    requires told { H.told hand ≡ [] }
    ensures len { vec_len result.0 ≡ vec_len handles + 1 }
    ensures held { vec_len result.2 ≡ vec_len handles + 1 }
    ensures told { (k : ℕ) → IfSome (slice_get result.0.items k)
        (λ s. IfSome (slice_get result.2.items k)
        (λ h. H.told h ≡ jobs_in (known_by s.pass).notes)) }
    ensures ranked { (k : ℕ) → IfSome (slice_get result.0.items k) (λ s. s.worker ≡ k) }
    ensures rest { (k : ℕ) → IfSome (slice_get result.0.items k)
        (λ s. (known_by s.pass).job ≡ None) }
    ensures whole { (view result.1).parts ≡ 1024 }
    ensures pushed { (view result.1).pushed ≡ (view pass).pushed }
    ensures empty { KnowsAll (view result.1) [] }
    ensures popped { (h : ℕ → ℕ) → weigh h (view result.1).popped
        ≡ sum_over (λ s. weigh h (jobs_in (known_by s.pass).notes)) result.0.items }
{
    let (own, mut pass) = work(run, &started, own, pass, &mut hand);
    let returned = joined(run.rt, handles, returned);
    gather(
        run.jobs(&started),
        &mut pass,
        returned,
        &mut seats,
        &mut hands,
    );
    let (own, pass) = work(run, &started, own, pass, &mut hand);
    seats.push_reserved(own);
    hands.push_reserved(hand);
    (seats, pass, hands)
}

/// Starts a thread for each worker but the last, opens the lock when all have started, and works itself as
/// the last worker, joins the others, and works on until no job is left. If a thread can't be started, the
/// world is given back and nothing was run.
pub fn run_threads<
    's,
    E,
    S: PageStore + Drop + Send + 's,
    T: DeadRows + Drop + Send + 's,
    J: JobsOn<S> + Send + Sync + 's,
    K: JobList + Send + Sync + 's,
    H: Telling + Send + Drop + 's,
    G: Gate<Hand = H> + Sync + 's,
    R: Threads + Wait + Sync + 's,
>(
    scope: &'s Scope<'s, E>,
    run: &'s RunContext<'s, S, T, J, K, G, R>,
    world: World<S, T>,
    room: RunRoom<J, K, H>,
    mut handles: Vec<PromisedHandle<Worker<J, JobTicket<K>, H>, Number>>,
    last: u32,
) -> Result<(World<S, T>, u64, Vec<Record>, Vec<H>), World<S, T>>
    requires parts { J.parts ≡ 65 }
    requires handles { (handles.items ≡ []) × (last < vec_capacity handles) }
    requires workers { last + 1 ≡ J.workers }
    requires few { J.workers ≤ 64 }
    requires sessions { J.workers ≤ length world.calls.slots.items }
    requires stood { Stands S.PageStore J.stood J.kept_then J.followed (inside T.DeadRows world) }
    requires handed { IsAsHanded S.PageStore J.handed (inside T.DeadRows world) }
    requires stays { J.handed.spare ≡ None }
    requires rests { AreIdle world.calls.slots.items }
    ensures err { IfErr result (λ w. w ≡ world) }
    ensures done { IfOk result (λ r. HasRun S.PageStore T.DeadRows J.stood J.kept_then J.followed J.handed
        J.jobs J.workers r.0 r.1 r.2.items) }
    ensures told { IfOk result (λ r. HaveTold H.told J.workers r.3.items r.2.items) }
{
    let RunRoom {
        mut desk,
        mut pass,
        book,
        mut all,
        history,
        mut pending,
        returned,
        hands,
        seats,
        sessions,
        session_seats,
    } = room;
    let started = start_all(
        scope,
        run,
        &mut desk,
        &mut pass,
        &mut all,
        &mut pending,
        &mut handles,
        last,
    );
    if !started {
        put(run, RunSlot::Closed);
        return Err(world);
    }
    let own = open(&mut desk, all.split_off(1, 0), last);
    pending.push_reserved(None);
    let shared = first(world, history, pending, session_seats, book, desk, sessions);
    let threads = all_started::<J, K, H>(&handles);
    put(run, RunSlot::Open(shared, threads.again()));
    let hand = run.gate.hand(last);
    let (seats, pass, hands) = work_out(
        run, threads, own, pass, hand, handles, returned, seats, hands,
    );
    let shared = take_out(run);
    let (world, start, history) = ended(shared, seats, all, &pass);
    Ok((world, start, history, hands))
}

//! A run of jobs.

ghost use Rattle.std.specs.Prelude.{◌≡◌, ◌<◌, ◌^◌, ◌↔◌, ℕ, Bool, List, [], None, Some, IfOk, IfErr, IfSome, OnOk, length, map, replicate, slice_get, vec_len};
ghost use Rattle.std.specs.List.{sum};
ghost use Rattle.crossbeam_queue.specs.Passes.{view, IsPassOf};
ghost use Rattle.index_model.specs.Actions.{Action};
ghost use Rattle.index_model.specs.Calls.{Call};
ghost use Rattle.index_model.specs.declared.entry.Entry.{Entry as OneEntry};
ghost use Rattle.page_action.specs.States.{Continues, IsLater};
ghost use Rattle.worker_seats.specs.Queue.{below, queue_view, times, weigh};
ghost use Rattle.session_seats.specs.Seats.{IsSessionCell, registry_with, view_of};
ghost use Rattle.worker_seats.specs.Seats.{IsCellOf, registry_of, known_by};
ghost use Rattle.world.specs.Worlds.{WorldFits, WorldKeeps, inside};
ghost use Rattle.shared_world.specs.Acted.{HasActed};
ghost use Rattle.shared_world.specs.Booked.{AreBooked};
ghost use Rattle.shared_world.specs.Ended.{jobs_of_records};
ghost use Rattle.shared_world.specs.Notes.{completed_calls};
ghost use Rattle.shared_world.specs.Standing.{AreIdle};
ghost use Rattle.sessions.specs.Finishing.{HaveTold, IsFinished, IsReceiptFor, RunIsRefusedFor, IsWithinLimits, receipt_of, records_of};
ghost use Rattle.shared_world.specs.Handed.{handed_of};
ghost use Rattle.shared_world.specs.Kept.{KeepsAll};
ghost use Rattle.shared_world.specs.declared.record.Record.{Record as DoneJob};

use crate::gate::Gate;
use crate::in_scope::run_all;
use crate::limits::refusal;
use crate::outcome::{Finished, NotRun, Receipt};
use crate::receipts::{make_tables, write_receipts};
use crate::run_room::make_room;
use crate::ticket::{JobList, JobTicket, all_tickets};
use index_model::{DeadRows, Fault};
use page_action::PageStore;
use session_seats::{SessionCell, SessionDesk, SessionPass};
use shared_world::{Job, JobsOn, Record};
use std::alloc::Global;
use std::marker::Brand;
use std::sync::Wait;
use std::sync::ledger::Blank;
use std::thread::Threads;
use worker_seats::{
    Desk, JobQueue, QueuePass, SeatCell, SeatPass, Telling, fill, make_cell, make_queue,
};
use world::World;

// The world given back, since there is no memory for a run on it.
fn no_memory<S, T>(world: World<S, T>) -> NotRun<S, T>
    ensures world { result.world ≡ world }
    ensures fault { result.fault ≡ Fault.NoMemory }
{
    NotRun {
        fault: Fault::NoMemory,
        world,
    }
}

// What a run answers whose jobs are done: with the receipts, and how many jobs each worker did.
fn finish<S, T>(
    world: World<S, T>,
    start: u64,
    history: Vec<Record>,
    mut receipts: Vec<Receipt>,
    mut calls: Vec<u64>,
) -> Finished<S, T>
    requires jobs { (place : ℕ) (r : DoneJob) → slice_get history.items place ≡ Some r
        → r.job < vec_len receipts }
    requires workers { (place : ℕ) (r : DoneJob) → slice_get history.items place ≡ Some r
        → r.worker < vec_len calls }
    requires once { (p q : ℕ) (r t : DoneJob) → slice_get history.items p ≡ Some r
        → slice_get history.items q ≡ Some t → r.job ≡ t.job → p ≡ q }
    requires zero { calls.items ≡ replicate (vec_len calls) 0 }
    ensures world { result.world ≡ world }
    ensures start { result.start ≡ start }
    ensures history { result.history ≡ history }
    ensures length { vec_len result.receipts ≡ vec_len receipts }
    ensures workers { vec_len result.calls ≡ vec_len calls }
    ensures written { (place : ℕ) (r : DoneJob) → slice_get history.items place ≡ Some r
        → slice_get result.receipts.items r.job ≡ Some (receipt_of place r) }
    ensures counted { (worker : ℕ) → worker < vec_len calls
        → slice_get result.calls.items worker ≡ Some (records_of worker history.items) }
    ensures sum { sum result.calls.items ≡ length history.items }
{
    write_receipts(history.as_slice(), &mut receipts, &mut calls);
    Finished {
        world,
        start,
        history,
        receipts,
        calls,
    }
}

// The queue of the jobs' tickets, with the pass that has every part. None if there is no memory for it.
fn queue_of<K: JobList, R: Wait>(
    rt: &R,
    alloc: Global,
    jobs: &[Job],
) -> Option<(JobQueue<JobTicket<K>>, QueuePass<JobTicket<K>>)>
    requires list { K.list ≡ jobs.now }
    requires few { length jobs.now < 2 ^ 32 }
    ensures pass { IfSome result (λ q. IsPassOf q.0 q.1) }
    ensures whole { IfSome result (λ q. view q.1 ≡ queue_view 1024 (length jobs.now) []) }
{
    let tickets = all_tickets::<K>(alloc, jobs)?;
    let (queue, pass) = make_queue::<JobTicket<K>>(alloc, jobs.len().max(1))?;
    let pass = fill(rt, &queue, pass, tickets);
    Some((queue, pass))
}

// Runs the jobs, of which the type of what lies under the lock tells.
fn run_named<
    S: PageStore + Drop + Send,
    T: DeadRows + Drop + Send,
    J: JobsOn<S> + Send + Sync,
    K: JobList + Send + Sync,
    H: Telling + Send + Drop,
    G: Gate<Hand = H> + Sync,
    R: Threads + Wait + Sync,
>(
    rt: &R,
    alloc: Global,
    queue: &JobQueue<JobTicket<K>>,
    cell: SeatCell,
    registry: SeatPass,
    session_cell: SessionCell,
    session_registry: SessionPass,
    pass: QueuePass<JobTicket<K>>,
    blank: Blank,
    world: World<S, T>,
    jobs: &[Job],
    workers: u32,
    gate: &G,
) -> Result<(Finished<S, T>, Vec<H>), NotRun<S, T>>
    requires name { blank.name ≡ J.name }
    requires parts { blank.parts ≡ J.parts }
    requires all { blank.parts ≡ 65 }
    requires seats { IsCellOf J.seats cell.shared.table_id }
    requires sessions { IsSessionCell J.sessions session_cell.shared.table_id }
    requires queue { queue.now.table.shared.table_id ≡ J.queue }
    requires jobs { J.jobs ≡ jobs.now }
    requires list { K.list ≡ jobs.now }
    requires workers { J.workers ≡ workers }
    requires handed { J.handed ≡ handed_of S.PageStore T.DeadRows None world }
    requires stood { (contents : OneEntry → Bool) (history : List Action) (calls : List Call)
        → J.stood contents history calls
        ↔ WorldFits S.PageStore T.DeadRows world contents history calls }
    requires kept_then { (contents : OneEntry → Bool) (history : List Action) (calls : List Call)
        → J.kept_then contents history calls
        ↔ WorldKeeps S.PageStore T.DeadRows world contents history calls }
    requires followed { (first : S) → J.followed first ↔ S.follows first world.store }
    requires registry { registry.table_id ≡ cell.shared.table_id }
    requires knows { known_by registry ≡ registry_of [] [] }
    requires session_registry { session_registry.table_id ≡ session_cell.shared.table_id }
    requires session_knows { view_of session_registry ≡ registry_with [] [] }
    requires pass { IsPassOf queue.now pass }
    requires whole { view pass ≡ queue_view 1024 (length jobs.now) [] }
    requires limits { IsWithinLimits (length world.calls.slots.items) jobs.now workers }
    requires rests { AreIdle world.calls.slots.items }
    ensures given_back { IfErr result (λ not_run. not_run.world ≡ world) }
    ensures memory { IfErr result (λ not_run. not_run.fault ≡ Fault.NoMemory) }
    ensures done { IfOk result (λ r.
        IsFinished S.PageStore T.DeadRows jobs.now workers world r.0) }
    ensures told { IfOk result (λ r.
        HaveTold H.told workers r.1.items r.0.history.items) }
{
    let desk = Desk::new(cell, registry);
    let sessions = SessionDesk::new(session_cell, session_registry);
    let Some(room) = make_room::<J, K, H>(
        alloc,
        desk,
        sessions,
        pass,
        blank.open::<J>(),
        jobs.len(),
        workers,
    ) else {
        return Err(no_memory(world));
    };
    let Some((receipts, calls)) = make_tables(alloc, jobs.len(), workers) else {
        return Err(no_memory(world));
    };
    let Ok(handles) = Vec::with_capacity(alloc, workers as usize) else {
        return Err(no_memory(world));
    };
    match run_all(rt, queue, gate, world, room, handles, workers - 1) {
        Ok((world, start, history, hands)) => {
            Ok((finish(world, start, history, receipts, calls), hands))
        }
        Err(world) => Err(no_memory(world)),
    }
}

// Runs the jobs, of which the type of their tickets tells.
fn run_listed<
    S: PageStore + Drop + Send,
    T: DeadRows + Drop + Send,
    K: JobList + Send + Sync,
    H: Telling + Send + Drop,
    G: Gate<Hand = H> + Sync,
    R: Threads + Wait + Sync,
>(
    rt: &R,
    alloc: Global,
    world: World<S, T>,
    jobs: &[Job],
    workers: u32,
    gate: &G,
) -> Result<(Finished<S, T>, Vec<H>), NotRun<S, T>>
    requires list { K.list ≡ jobs.now }
    requires limits { IsWithinLimits (length world.calls.slots.items) jobs.now workers }
    requires rests { AreIdle world.calls.slots.items }
    ensures given_back { IfErr result (λ not_run. not_run.world ≡ world) }
    ensures memory { IfErr result (λ not_run. not_run.fault ≡ Fault.NoMemory) }
    ensures done { IfOk result (λ r.
        IsFinished S.PageStore T.DeadRows jobs.now workers world r.0) }
    ensures told { IfOk result (λ r.
        HaveTold H.told workers r.1.items r.0.history.items) }
{
    let Some((queue, pass)) = queue_of::<K, R>(rt, alloc, jobs) else {
        return Err(no_memory(world));
    };
    let Some((cell, registry)) = make_cell(alloc) else {
        return Err(no_memory(world));
    };
    let Some((session_cell, session_registry)) = session_seats::make_cell(alloc) else {
        return Err(no_memory(world));
    };
    let blank = Blank::new(65);
    run_named::<S, T, Brand, K, H, G, R>(
        rt,
        alloc,
        &queue,
        cell,
        registry,
        session_cell,
        session_registry,
        pass,
        blank,
        world,
        jobs,
        workers,
        gate,
    )
}

/// Runs these jobs as `run_jobs` does, and also gives back with what each worker told the gate. That was told
/// of the jobs of its records, of each once, in order, after it took the job and before the job began
/// (`told`).
pub fn run_told<
    S: PageStore + Drop + Send,
    T: DeadRows + Drop + Send,
    G: Gate + Sync,
    R: Threads + Wait + Sync,
>(
    rt: &R,
    alloc: Global,
    world: World<S, T>,
    jobs: &[Job],
    workers: u32,
    gate: &G,
) -> Result<(Finished<S, T>, Vec<G::Hand>), NotRun<S, T>>
    ensures given_back { IfErr result (λ not_run. not_run.world ≡ world) }
    ensures refused { IfErr result (λ not_run.
        RunIsRefusedFor not_run.fault world.calls.slots.items jobs.now workers) }
    ensures limits { OnOk result
        (IsWithinLimits (length world.calls.slots.items) jobs.now workers) }
    ensures free { OnOk result (AreIdle world.calls.slots.items) }
    ensures finished { IfOk result (λ r.
        IsFinished S.PageStore T.DeadRows jobs.now workers world r.0) }
    ensures told { IfOk result (λ r.
        HaveTold G.Hand.told workers r.1.items r.0.history.items) }
{
    if let Some(fault) = refusal(&world, jobs, workers) {
        return Err(NotRun { fault, world });
    }
    run_listed::<S, T, Brand, G::Hand, G, R>(rt, alloc, world, jobs, workers, gate)
}

/// Runs these jobs on the world, each by one of the workers, and gives it back with their records. The
/// calling thread is one of the workers; worker w uses session w. All room is made, and all threads are
/// started, before the first job is taken; each event is done under one lock. Waits for the workers.
///
/// A refusal leaves the world as it was, with nothing run. The first of these that applies is answered:
///
/// - `BadLimits`: no worker, more than 64 or than there are sessions; more than 65,536 jobs; scans that may
///   give more than 1,048,576 entries in all;
/// - `SessionBusy`: a session has a call;
/// - `NoMemory`: there is no memory, or no thread, for it.
///
/// If the device has kept its model up to now, it had kept it before. Whatever contents, actions and calls
/// fitted the world before, there are more actions and more calls that fit it now. Each record lists one of
/// these calls, whole, or is a commit or a checkpoint (`kept`).
pub fn run_jobs<
    S: PageStore + Drop + Send,
    T: DeadRows + Drop + Send,
    G: Gate + Sync,
    R: Threads + Wait + Sync,
>(
    rt: &R,
    alloc: Global,
    world: World<S, T>,
    jobs: &[Job],
    workers: u32,
    gate: &G,
) -> Result<Finished<S, T>, NotRun<S, T>>
    ensures given_back { IfErr result (λ not_run. not_run.world ≡ world) }
    ensures refused { IfErr result (λ not_run.
        RunIsRefusedFor not_run.fault world.calls.slots.items jobs.now workers) }
    ensures limits { OnOk result
        (IsWithinLimits (length world.calls.slots.items) jobs.now workers) }
    ensures free { OnOk result (AreIdle world.calls.slots.items) }
    ensures kept { IfOk result (λ done. ∥ KeepsAll S.PageStore
        (handed_of S.PageStore T.DeadRows None world)
        (WorldFits S.PageStore T.DeadRows world) (WorldKeeps S.PageStore T.DeadRows world)
        (inside T.DeadRows done.world) done.start []
        (completed_calls (inside T.DeadRows world).sets done.history.items) ∥₁) }
    // What was done for each record, whatever the pages are.
    ensures acted { IfOk result (λ done. ∥ HasActed S.PageStore
        (handed_of S.PageStore T.DeadRows None world) (inside T.DeadRows done.world) []
        (completed_calls (inside T.DeadRows world).sets done.history.items) ∥₁) }
    // Each record asks what the job of its number does. A scan was cut only if its room was full.
    ensures booked { IfOk result (λ done. AreBooked jobs.now [] done.history.items) }
    // What its store followed it follows still, so that the law of crashes holds over the run.
    ensures steps { IfOk result (λ done.
        ∥ Continues S.follows world.store done.world.store ∥₁) }
    ensures later { IfOk result (λ done.
        ∥ IsLater (S.backing world.store) (S.backing done.world.store) ∥₁) }
    ensures start { IfOk result (λ done. done.start ≡ (S.state world.store).acts) }
    ensures sessions { IfOk result (λ done.
        length done.world.calls.slots.items ≡ length world.calls.slots.items) }
    ensures sets { IfOk result (λ done.
        ∥ map T.is_in done.world.sets.items ≡ map T.is_in world.sets.items ∥₁) }
    ensures idle { IfOk result (λ done. AreIdle done.world.calls.slots.items) }
    ensures all { IfOk result (λ done. length done.history.items ≡ length jobs.now) }
    ensures once { IfOk result (λ done. (job : ℕ) → job < length jobs.now
        → times job (jobs_of_records done.history.items) ≡ 1) }
    ensures receipts { IfOk result (λ done. length done.receipts.items ≡ length jobs.now) }
    ensures each { IfOk result (λ done. (job : ℕ)
        → IfSome (slice_get done.receipts.items job) (IsReceiptFor done.history.items job)) }
    ensures workers { IfOk result (λ done. length done.calls.items ≡ workers) }
    ensures calls { IfOk result (λ done. (worker : ℕ)
        → IfSome (slice_get done.calls.items worker)
        (λ count. count ≡ records_of worker done.history.items)) }
    ensures sum { IfOk result (λ done. sum done.calls.items ≡ length done.history.items) }
{
    match run_told(rt, alloc, world, jobs, workers, gate) {
        Ok((finished, _)) => Ok(finished),
        Err(not_run) => Err(not_run),
    }
}

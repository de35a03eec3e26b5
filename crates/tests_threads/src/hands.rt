//! Workers whose events are done one by one, in an order that is picked: what `run_jobs` does with threads,
//! done by hand.

ghost use Rattle.std.specs.Prelude.{◌≡◌, ◌≤◌, ◌<◌, ◌+◌, ◌↔◌, [], ℕ, Bool, List, None, Some, true, length, slice_get, vec_len, vec_capacity};
ghost use Rattle.index_model.specs.Actions.{Action};
ghost use Rattle.index_model.specs.Calls.{Call};
ghost use Rattle.index_model.specs.declared.entry.Entry.{Entry as OneEntry};
ghost use Rattle.session_seats.specs.Seats.{IsSessionCell, registry_with, view_of};
ghost use Rattle.worker_seats.specs.Seats.{IsCellOf, registry_of, known_by};
ghost use Rattle.world.specs.Worlds.{WorldFits, WorldKeeps, inside};
ghost use Rattle.shared_world.specs.Standing.{AreIdle};
ghost use Rattle.shared_world.specs.Handed.{handed_of, IsAsHanded};
ghost use Rattle.shared_world.specs.Jobs.{room_of};
ghost use Rattle.shared_world.specs.Standing.{Stands};

use index_model::{DeadRows, Fault};
use page_action::PageStore;
use session_calls::Answer;
use session_seats::{SessionCell, SessionDesk, SessionPass, SessionSeat};
use shared_world::{Job, Jobs, JobsOn, Pending, Record, Shared, Turn, first};
use std::alloc::Global;
use std::marker::Brand;
use std::process::Abort;
use std::sync::ledger::Blank;
use std::test::{Fail, *};
use worker_seats::{Desk, Seat, SeatCell, SeatPass, make_cell, open};
use world::World;

/// What a worker does.
#[derive(Clone, Copy, Debug)]
pub enum Act {
    /// It begins the job of this number.
    Begin(u32),
    Step,
    Next,
    End,
}

/// What it is told.
#[derive(Clone, Copy, Debug, PartialEq, Eq)]
pub enum Told {
    Begun,
    Going,
    /// By the action of this number.
    Added(u64),
    /// At this block.
    Blocked(u32),
    Ready(u32),
    Gave,
    /// So many entries were removed.
    Finished(u64),
    Forced(u64),
    Done,
    Ended,
    /// There was nothing to do.
    Nothing,
    Other,
}

/// A worker, what it does, what it is told then, and the place of the record, if that is made.
pub type Line = (usize, Act, Told, Option<u64>);

// A worker whose session runs nothing.
#[derive(Drop)]
struct Resting<J: Jobs> {
    seat: Seat<J>,
    ghost rests: { (known_by seat.pass).job ≡ None },
}

// A worker whose session runs a job.
#[derive(Drop)]
struct Running<J: Jobs> {
    seat: Seat<J>,
    job: u32,
    ghost runs: { (known_by seat.pass).job ≡ Some job },
}

#[derive(Drop)]
enum Hand<J: Jobs> {
    Rests(Resting<J>),
    Runs(Running<J>),
}

// A worker after an event, what it was told, and the place of the record, if one was made.
#[derive(Drop)]
struct Done<J: Jobs> {
    hand: Hand<J>,
    told: Told,
    place: Option<u64>,
}

fn told_by(answer: &Answer) -> Told {
    match answer {
        Answer::Begun => Told::Begun,
        Answer::Going => Told::Going,
        Answer::Added { action, .. } => Told::Added(*action),
        Answer::Refused(Fault::Blocked(block)) => Told::Blocked(*block),
        Answer::Ready(count) => Told::Ready(*count),
        Answer::Gave(Some(_)) => Told::Gave,
        Answer::Finished(stats) => Told::Finished(stats.tuples_removed),
        Answer::Forced(action) => Told::Forced(*action),
        Answer::Done => Told::Done,
        Answer::Ended => Told::Ended,
        _ => Told::Other,
    }
}

fn room(job: &Job) -> u32
    ensures { result ≡ room_of job.now }
{
    match job {
        Job::Scan { room, .. } => *room,
        _ => 0,
    }
}

fn rests<J: Jobs>(seat: Seat<J>, told: Told, place: u64) -> Done<J>
    requires rests { (known_by seat.pass).job ≡ None }
{
    Done {
        hand: Hand::Rests(Resting { seat }),
        told,
        place: Some(place),
    }
}

fn runs<J: Jobs>(seat: Seat<J>, job: u32, told: Told) -> Done<J>
    requires runs { (known_by seat.pass).job ≡ Some job }
{
    Done {
        hand: Hand::Runs(Running { seat, job }),
        told,
        place: None,
    }
}

fn begin<S: PageStore, T: DeadRows + Drop, J: JobsOn<S>>(
    alloc: Global,
    shared: &mut Shared<S, T, J>,
    jobs: &[Job],
    resting: Resting<J>,
    job: u32,
) -> Result<Done<J>, Fault>
    requires jobs { J.jobs ≡ jobs.now }
{
    let Resting { seat } = resting;
    if shared.history.len() >= shared.history.capacity() {
        return Err(Fault::NoMemory);
    }
    let Some(asked) = jobs.get(job as usize) else {
        return Err(Fault::NoSession);
    };
    let Ok(given) = Vec::with_capacity(alloc, room(asked) as usize) else {
        return Err(Fault::NoMemory);
    };
    let Turn {
        seat,
        answer,
        place,
    } = shared.begin(seat, job, *asked, given);
    match place {
        None => Ok(runs(seat, job, told_by(&answer))),
        Some(place) => Ok(rests(seat, told_by(&answer), place)),
    }
}

fn step<S: PageStore, T: DeadRows + Drop, J: JobsOn<S>>(
    shared: &mut Shared<S, T, J>,
    running: Running<J>,
) -> Result<Done<J>, Fault> {
    let Running { seat, job } = running;
    if shared.history.len() >= shared.history.capacity() {
        return Err(Fault::NoMemory);
    }
    let Turn {
        seat,
        answer,
        place,
    } = shared.step(seat, job);
    match place {
        None => Ok(runs(seat, job, told_by(&answer))),
        Some(place) => Ok(rests(seat, told_by(&answer), place)),
    }
}

fn next<S: PageStore, T: DeadRows + Drop, J: JobsOn<S>>(
    shared: &mut Shared<S, T, J>,
    running: Running<J>,
) -> Done<J> {
    let Running { seat, job } = running;
    let (seat, answer) = shared.next(seat, job);
    let told = match answer {
        None => Told::Nothing,
        Some(answer) => told_by(&answer),
    };
    runs(seat, job, told)
}

fn end<S: PageStore, T: DeadRows + Drop, J: JobsOn<S>>(
    shared: &mut Shared<S, T, J>,
    jobs: &[Job],
    running: Running<J>,
) -> Result<Done<J>, Fault>
    requires jobs { J.jobs ≡ jobs.now }
{
    let Running { seat, job } = running;
    if shared.history.len() >= shared.history.capacity() {
        return Err(Fault::NoMemory);
    }
    let Some(asked) = jobs.get(job as usize) else {
        return Err(Fault::NoSession);
    };
    let (seat, place) = shared.end(seat, job, *asked);
    match place {
        None => Ok(runs(seat, job, Told::Nothing)),
        Some(place) => Ok(rests(seat, Told::Ended, place)),
    }
}

// One event of a worker. Refused with `NoSession` for one that its session isn't ready for.
fn act_one<S: PageStore, T: DeadRows + Drop, J: JobsOn<S>>(
    alloc: Global,
    shared: &mut Shared<S, T, J>,
    jobs: &[Job],
    hand: Hand<J>,
    what: Act,
) -> Result<Done<J>, Fault>
    requires jobs { J.jobs ≡ jobs.now }
{
    match hand {
        Hand::Rests(resting) => match what {
            Act::Begin(job) => begin(alloc, shared, jobs, resting, job),
            _ => Err(Fault::NoSession),
        },
        Hand::Runs(running) => match what {
            Act::Step => step(shared, running),
            Act::Next => Ok(next(shared, running)),
            Act::End => end(shared, jobs, running),
            Act::Begin(_) => Err(Fault::NoSession),
        },
    }
}

// Does each event, and compares what the worker is told. No event without a place makes a record.
fn act_all<S: PageStore, T: DeadRows + Drop, J: JobsOn<S>>(
    rt: &(impl Abort + Print + Eprint),
    alloc: Global,
    shared: &mut Shared<S, T, J>,
    jobs: &[Job],
    hands: &mut Vec<Option<Hand<J>>>,
    lines: &[Line],
) -> Result<(), Fail>
    requires jobs { J.jobs ≡ jobs.now }
{
    let mut records = 0usize;
    for (number, line) in lines.iter().enumerate() {
        let (worker, what, wanted, place) = *line;
        let Some(mine) = hands.as_mut_slice().get_mut(worker) else {
            return Err(Fail::from(Fault::NoSession));
        };
        let Some(hand) = mine.take() else {
            return Err(Fail::from(Fault::NoSession));
        };
        let Done {
            hand,
            told,
            place: at,
        } = act_one(alloc, shared, jobs, hand, what)?;
        assert_eq!(rt; told, wanted, "line {number}");
        assert_eq!(rt; at, place, "line {number}");
        if at.is_some() {
            records = records.saturating_add(1);
        }
        assert_eq!(rt; shared.history.len(), records, "line {number}");
        *mine = Some(hand);
    }
    Ok(())
}

// Whether no session has a call.
fn is_idle<S: PageStore, T: DeadRows + Drop>(world: &World<S, T>) -> bool
    ensures { result ≡ true → AreIdle world.now.calls.slots.items }
{
    for session in 0..world.sessions() {
        if world.is_running(session) {
            return false;
        }
    }
    true
}

// What lies under the lock as so many workers begin, and the workers, whose sessions run nothing.
fn seated<S: PageStore, T: DeadRows + Drop, J: JobsOn<S>>(
    mut desk: Desk<J>,
    sessions: SessionDesk<J>,
    blank: Blank,
    world: World<S, T>,
    history: Vec<Record>,
    mut pending: Vec<Option<Pending>>,
    session_seats: Vec<Option<SessionSeat<J>>>,
    mut hands: Vec<Option<Hand<J>>>,
    workers: u32,
) -> (Shared<S, T, J>, Vec<Option<Hand<J>>>)
    requires name { blank.name ≡ J.name }
    requires parts { blank.parts ≡ J.parts }
    requires all { blank.parts ≡ 65 }
    requires workers { J.workers ≡ workers }
    requires handed { IsAsHanded S.PageStore J.handed (inside T.DeadRows world) }
    requires stays { J.handed.spare ≡ None }
    requires stood { Stands S.PageStore J.stood J.kept_then J.followed (inside T.DeadRows world) }
    requires knows { known_by desk.registry ≡ registry_of [] [] }
    requires none_known { view_of sessions.registry ≡ registry_with [] [] }
    requires few { workers ≤ 64 }
    requires sessions { workers ≤ length world.calls.slots.items }
    requires rests { AreIdle world.calls.slots.items }
    requires history { history.items ≡ [] }
    requires enough { length J.jobs ≤ vec_capacity history }
    requires pending { (pending.items ≡ []) × (workers ≤ vec_capacity pending) }
    requires seats { (session_seats.items ≡ []) × (workers ≤ vec_capacity session_seats) }
    requires hands { (hands.items ≡ []) × (workers ≤ vec_capacity hands) }
{
    let (book, mut all) = blank.open::<J>();
    for w in 0..workers {
        let share = all.split_off(1, 0);
        let seat = open(&mut desk, share, w);
        pending.push_reserved(None);
        hands.push_reserved(Some(Hand::Rests(Resting { seat })));
    }
    let shared = first(world, history, pending, session_seats, book, desk, sessions);
    (shared, hands)
}

// So many workers, and what they do, event by event.
#[derive(Clone, Copy)]
struct ByHand<'a> {
    workers: u32,
    lines: &'a [Line],
}

// Does the events, if the type of what lies under the lock tells of the jobs. Answers the records.
fn act_named<
    S: PageStore + Drop,
    T: DeadRows + Drop,
    J: JobsOn<S>,
    R: Abort + AllocGlobal + Print + Eprint,
>(
    rt: &R,
    cell: SeatCell,
    registry: SeatPass,
    session_cell: SessionCell,
    session_registry: SessionPass,
    blank: Blank,
    world: World<S, T>,
    jobs: &[Job],
    by: ByHand<'_>,
) -> Result<Vec<Record>, Fail>
    requires name { blank.name ≡ J.name }
    requires parts { blank.parts ≡ J.parts }
    requires all { blank.parts ≡ 65 }
    requires seats { IsCellOf J.seats cell.shared.table_id }
    requires session_cell { IsSessionCell J.sessions session_cell.shared.table_id }
    requires session_registry { session_registry.table_id ≡ session_cell.shared.table_id }
    requires none_known { view_of session_registry ≡ registry_with [] [] }
    requires jobs { J.jobs ≡ jobs.now }
    requires workers { J.workers ≡ by.workers }
    requires handed { J.handed ≡ handed_of S.PageStore T.DeadRows None world }
    requires stood { (contents : OneEntry → Bool) (history : List Action) (calls : List Call)
        → J.stood contents history calls
        ↔ WorldFits S.PageStore T.DeadRows world contents history calls }
    requires kept_then { (contents : OneEntry → Bool) (history : List Action) (calls : List Call)
        → J.kept_then contents history calls
        ↔ WorldKeeps S.PageStore T.DeadRows world contents history calls }
    requires followed { (first : S) → J.followed first ↔ S.follows first world.store }
    requires registry { registry.table_id ≡ cell.shared.table_id }
    requires knows { known_by registry ≡ registry_of [] [] }
    requires few { by.workers ≤ 64 }
    requires sessions { by.workers ≤ length world.calls.slots.items }
    requires rests { AreIdle world.calls.slots.items }
{
    let history = Vec::with_capacity(rt.alloc(), jobs.len().max(by.lines.len()))?;
    let pending = Vec::with_capacity(rt.alloc(), by.workers as usize)?;
    let session_seats = Vec::with_capacity(rt.alloc(), by.workers as usize)?;
    let hands = Vec::with_capacity(rt.alloc(), by.workers as usize)?;
    let desk = Desk::new(cell, registry);
    let sessions = SessionDesk::new(session_cell, session_registry);
    let (mut shared, mut hands) = seated::<S, T, J>(
        desk,
        sessions,
        blank,
        world,
        history,
        pending,
        session_seats,
        hands,
        by.workers,
    );
    act_all(rt, rt.alloc(), &mut shared, jobs, &mut hands, by.lines)?;
    let Shared {
        live: _,
        history,
        pending: _,
        seats: _,
        book: _,
        desk: _,
    } = shared;
    Ok(history)
}

/// Does the events of so many workers on the world, each under no lock, as there is one thread; compares what
/// each is told, and answers the records.
pub fn act_by_hand<
    S: PageStore + Drop,
    T: DeadRows + Drop,
    R: Abort + AllocGlobal + Print + Eprint,
>(
    rt: &R,
    world: World<S, T>,
    jobs: &[Job],
    workers: u32,
    lines: &[Line],
) -> Result<Vec<Record>, Fail> {
    if workers > 64 || workers > world.sessions() || !is_idle(&world) {
        return Err(Fail::from(Fault::BadLimits));
    }
    let Some((cell, registry)) = make_cell(rt.alloc()) else {
        return Err(Fail::from(Fault::NoMemory));
    };
    let Some((session_cell, session_registry)) = session_seats::make_cell(rt.alloc()) else {
        return Err(Fail::from(Fault::NoMemory));
    };
    let blank = Blank::new(65);
    let by = ByHand { workers, lines };
    act_named::<S, T, Brand, R>(
        rt,
        cell,
        registry,
        session_cell,
        session_registry,
        blank,
        world,
        jobs,
        by,
    )
}

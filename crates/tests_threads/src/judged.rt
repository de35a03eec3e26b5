//! Runs over devices in memory, of which a plain judge hears all.

use crate::indexes::{all_entries, device_calls, made};
use crate::judge::{Addition, Run, additions, are_those_left, count, first_wrong, has_each_once};
use crate::lists::{Dice, ascending, entry, inserts_and_scans, mixed, range, shuffled};
use crate::plain::{abandon, actions, is_left_sound, run};
use device::MemDevice;
use index_model::{DeadRows, Fault, Limits};
use page_action::PageStore;
use page_store::Store;
use schedule::Event;
use session_calls::Answer;
use sessions::{Finished, Gate, NoGate};
use shared_world::{Job, Record};
use std::alloc::Global;
use std::process::Abort;
use std::sync::Wait;
use std::test::{Fail, *};
use std::thread::Threads;
use tests_support::dead::Blocks;
use tests_support::plain::one;
use world::World;

/// The keys of all jobs here have numbers below this.
const KEYS: usize = 4_096;

/// What a run leaves of an index in memory.
pub type Done = Finished<Store<MemDevice>, Blocks>;

/// What a plain judge says of a run of these jobs, and what was added. Pages of the index are full if so many
/// are used.
fn judged<S: PageStore, T: DeadRows + Drop>(
    rt: &(impl Abort + AllocGlobal + Print + Eprint),
    done: &Finished<S, T>,
    start: u64,
    jobs: &[Job],
    workers: u32,
    pages: u32,
    may_fail: bool,
) -> Result<Vec<Option<Addition>>, Fail> {
    assert_eq!(rt; done.start, start);
    let (history, receipts) = (done.history.as_slice(), done.receipts.as_slice());
    let calls = done.calls.as_slice();
    assert!(rt; has_each_once(rt.alloc(), jobs.len(), history, receipts, calls)?);
    assert_eq!(rt; calls.len(), workers as usize);
    let added = additions(rt.alloc(), jobs, history, KEYS)?;
    let run = Run {
        jobs,
        history,
        added: added.as_slice(),
        start: done.start,
        may_fail,
        is_full: done.world.used() >= pages,
    };
    assert_eq!(rt; first_wrong(&run), None);
    for session in 0..workers {
        assert!(rt; !done.world.is_running(session));
    }
    Ok(added)
}

/// Runs these jobs.
fn finished<
    R: AllocGlobal + Threads + Wait + Sync,
    S: PageStore + Drop + Send,
    T: DeadRows + Drop + Send,
    G: Gate + Sync,
>(
    rt: &R,
    world: World<S, T>,
    jobs: &[Job],
    workers: u32,
    gate: &G,
) -> Result<Finished<S, T>, Fail> {
    match run(rt, rt.alloc(), world, jobs, workers, gate) {
        Ok(done) => Ok(done),
        Err(not_run) => Err(Fail::from(not_run.fault)),
    }
}

/// Runs these jobs on an index of so many pages at most, and looks at all that they told. Answers what was
/// added, too.
pub fn ran<
    R: Abort + AllocGlobal + Print + Eprint + Threads + Wait + Sync,
    S: PageStore + Drop + Send,
    T: DeadRows + Drop + Send,
>(
    rt: &R,
    world: World<S, T>,
    jobs: &[Job],
    workers: u32,
    pages: u32,
    may_fail: bool,
) -> Result<(Finished<S, T>, Vec<Option<Addition>>), Fail> {
    let start = actions(&world);
    let done = finished(rt, world, jobs, workers, &NoGate)?;
    let added = judged(rt, &done, start, jobs, workers, pages, may_fail)?;
    Ok((done, added))
}

/// The records of a run. The rest is let go.
fn records_in(done: Done) -> Vec<Record> {
    done.history
}

/// How many calls of the device there were up to the end of a run.
pub fn calls_in(done: Done) -> u64 {
    device_calls(done.world)
}

/// Whether the verifier finds no damage in the index that a run left.
fn is_sound_after(alloc: Global, done: Done) -> bool {
    is_left_sound(alloc, done.world)
}

/// The records of a run of these jobs on a new index.
pub fn records_of<R: Abort + AllocGlobal + Print + Eprint + Threads + Wait + Sync>(
    rt: &R,
    limits: &Limits,
    jobs: &[Job],
    workers: u32,
) -> Result<Vec<Record>, Fail> {
    let world = made(rt.alloc(), limits, workers)?;
    let (done, _) = ran(rt, world, jobs, workers, limits.pages, false)?;
    Ok(records_in(done))
}

/// The records of a run of these jobs by two workers on a new index, with this gate.
pub fn gated<R: AllocGlobal + Threads + Wait + Sync, G: Gate + Sync>(
    rt: &R,
    limits: &Limits,
    jobs: &[Job],
    gate: &G,
) -> Result<Vec<Record>, Fail> {
    let world = made(rt.alloc(), limits, 2)?;
    Ok(records_in(finished(rt, world, jobs, 2, gate)?))
}

/// What there is to say of a run and of the index that it left.
#[derive(Clone, Copy)]
struct Outcome {
    /// How many actions there were before it.
    start: u64,
    /// How many there are after it.
    actions: u64,
    /// How many entries were added.
    added: usize,
    /// How many inserts were refused because another entry of the key was there.
    refused: usize,
    /// Whether a scan gives what was added, except for what the bulk deletes removed.
    are_left: bool,
}

/// How many records tell that another entry of the key was there.
fn refused_keys(records: &[Record]) -> usize {
    let mut count = 0usize;
    for record in records {
        if matches!(&record.answer, Answer::Refused(Fault::KeyExists(_))) {
            count = count.saturating_add(1);
        }
    }
    count
}

/// What there is to say of a run that is over, with what it added.
fn outcome_of<S: PageStore>(
    alloc: Global,
    done: &mut Finished<S, Blocks>,
    jobs: &[Job],
    added: &[Option<Addition>],
) -> Result<Outcome, Fail> {
    let entries = all_entries(alloc, &mut done.world)?;
    let history = done.history.as_slice();
    Ok(Outcome {
        start: done.start,
        actions: actions(&done.world),
        added: count(added),
        refused: refused_keys(history),
        are_left: are_those_left(entries.as_slice(), jobs, history, added),
    })
}

/// Runs these jobs on a new index, in which the verifier then finds no damage. Answers what there is to say.
fn run_on_new<R: Abort + AllocGlobal + Print + Eprint + Threads + Wait + Sync>(
    rt: &R,
    limits: &Limits,
    jobs: &[Job],
    workers: u32,
) -> Result<Outcome, Fail> {
    let world = made(rt.alloc(), limits, workers)?;
    let (mut done, added) = ran(rt, world, jobs, workers, limits.pages, false)?;
    let outcome = outcome_of(rt.alloc(), &mut done, jobs, added.as_slice());
    let is_sound = is_sound_after(rt.alloc(), done);
    assert!(rt; is_sound);
    outcome
}

pub const LIMITS: Limits = Limits {
    items: 4,
    pages: 4_096,
    log_bytes: 1_048_576,
    unique: false,
};

/// Four thousand jobs of eight workers: inserts, scans, two bulk deletes and a cleanup.
#[test]
fn four_thousand_jobs(rt: HostRuntime) -> Result<(), Fail> {
    let jobs = mixed(rt.alloc(), 3_598, &mut Dice::new(1))?;
    assert_eq!(rt; jobs.len(), 4_000);
    let outcome = run_on_new(&rt, &LIMITS, jobs.as_slice(), 8)?;
    assert_eq!(rt; outcome.start, 0);
    assert_eq!(rt; outcome.added, 3_598);
    assert!(rt; outcome.are_left);
    Ok(())
}

/// Eight workers that insert into one leaf wait for each other's latches. Each entry is inserted twice, and
/// one of the two is refused.
#[test]
fn one_leaf(rt: HostRuntime) -> Result<(), Fail> {
    let limits = Limits {
        items: 50,
        pages: 8,
        log_bytes: 65_536,
        unique: false,
    };
    for seed in 0..8u32 {
        let numbers = shuffled(rt.alloc(), 48, seed)?;
        let jobs = inserts_and_scans(rt.alloc(), numbers.as_slice(), 2, 0, &[])?;
        let outcome = run_on_new(&rt, &limits, jobs.as_slice(), 8)?;
        assert_eq!(rt; outcome.added, 48);
        assert_eq!(rt; outcome.actions, 48);
    }
    Ok(())
}

/// Eight workers insert four rows of each of 500 keys into a unique index: one of each four is added, and the
/// others are refused with its row.
#[test]
fn one_entry_a_key(rt: HostRuntime) -> Result<(), Fail> {
    let limits = Limits {
        items: 50,
        pages: 64,
        log_bytes: 1_048_576,
        unique: true,
    };
    let numbers = shuffled(rt.alloc(), 500, 7)?;
    let jobs = inserts_and_scans(rt.alloc(), numbers.as_slice(), 4, 3, &[])?;
    let outcome = run_on_new(&rt, &limits, jobs.as_slice(), 8)?;
    assert_eq!(rt; outcome.added, 500);
    assert_eq!(rt; outcome.refused, 1_500);
    Ok(())
}

/// Four workers fill an index of eight pages: inserts are refused once it is full, and the verifier finds no
/// damage.
#[test]
fn full_index(rt: HostRuntime) -> Result<(), Fail> {
    let limits = Limits {
        items: 4,
        pages: 8,
        log_bytes: 65_536,
        unique: false,
    };
    let numbers = ascending(rt.alloc(), 60)?;
    let jobs = inserts_and_scans(rt.alloc(), numbers.as_slice(), 1, 0, &[])?;
    let outcome = run_on_new(&rt, &limits, jobs.as_slice(), 4)?;
    // Seven pages beside the metapage, one of them the root, hold 24 entries at most.
    assert!(rt; outcome.added <= 24);
    Ok(())
}

/// A scan with room for exactly what there is has finished; one with room for less is cut.
#[test]
fn rooms_of_scans(rt: HostRuntime) -> Result<(), Fail> {
    let numbers = ascending(rt.alloc(), 9)?;
    let jobs = inserts_and_scans(rt.alloc(), numbers.as_slice(), 1, 0, &[9, 8, 1, 10])?;
    let records = records_of(&rt, &LIMITS, jobs.as_slice(), 1)?;
    for (place, (is_cut, count)) in [(false, 9), (true, 8), (true, 1), (false, 9)]
        .iter()
        .enumerate()
    {
        let Some(record) = records.get(place.saturating_add(9)) else {
            return Err(Fail::from(Fault::PageDamaged(0)));
        };
        assert!(rt; record.given.len() == *count);
        assert!(rt; matches!(&record.answer, Answer::Ended) == *is_cut);
        assert!(rt; matches!(&record.answer, Answer::Done) != *is_cut);
    }
    Ok(())
}

/// Whether runs of these jobs by so many workers are each refused so, and the world, which comes back.
fn are_refused<
    R: Abort + AllocGlobal + Threads + Wait + Sync,
    S: PageStore + Drop + Send,
    T: DeadRows + Drop + Send,
>(rt: &R, world: World<S, T>, rows: &[(&[Job], u32, Fault)]) -> Result<(bool, World<S, T>), Fault> {
    let (mut are, mut world) = (true, world);
    for (jobs, workers, fault) in rows {
        match run(rt, rt.alloc(), world, jobs, *workers, &NoGate) {
            Ok(_) => return Err(Fault::Exists),
            Err(not_run) => {
                are = are && not_run.fault == *fault;
                world = not_run.world;
            }
        }
    }
    Ok((are, world))
}

/// What isn't run beside a call that runs: whether that begins, each is refused as is right, and the call
/// ends.
fn refuses_beside<
    R: Abort + AllocGlobal + Threads + Wait + Sync,
    S: PageStore + Drop + Send,
    T: DeadRows + Drop + Send,
>(
    rt: &R,
    mut world: World<S, T>,
    jobs: &[Job],
    wide: &[Job],
) -> Result<([bool; 3], World<S, T>), Fault> {
    let busy = [
        (jobs, 5, Fault::BadLimits),
        (wide, 1, Fault::BadLimits),
        (jobs, 1, Fault::SessionBusy),
    ];
    let answer = one(&mut world, Event::Insert(3, entry(2, 0)));
    let has_begun = matches!(answer, Answer::Begun);
    let (are, mut world) = are_refused(rt, world, &busy)?;
    let has_ended = matches!(abandon(&mut world, 3), Answer::Ended);
    Ok(([has_begun, are, has_ended], world))
}

/// What isn't run without a call that runs: whether each is refused as is right.
fn refuses<
    R: Abort + AllocGlobal + Threads + Wait + Sync,
    S: PageStore + Drop + Send,
    T: DeadRows + Drop + Send,
>(rt: &R, world: World<S, T>, jobs: &[Job]) -> Result<(bool, World<S, T>), Fault> {
    let idle = [
        (jobs, 0, Fault::BadLimits),
        (jobs, 5, Fault::BadLimits),
        (jobs, 65, Fault::BadLimits),
    ];
    are_refused(rt, world, &idle)
}

/// Runs no job, and then these: how many records there are.
fn records_after<
    R: Abort + AllocGlobal + Print + Eprint + Threads + Wait + Sync,
    S: PageStore + Drop + Send,
    T: DeadRows + Drop + Send,
>(rt: &R, world: World<S, T>, jobs: &[Job]) -> Result<usize, Fail> {
    let (done, _) = ran(rt, world, &[], 2, LIMITS.pages, false)?;
    let (done, _) = ran(rt, done.world, jobs, 4, LIMITS.pages, false)?;
    Ok(done.history.len())
}

/// Whether what isn't run is refused as is right, before a call that runs and beside it, and how many records
/// these jobs make after that.
fn refuses_and_runs<
    R: Abort + AllocGlobal + Print + Eprint + Threads + Wait + Sync,
    S: PageStore + Drop + Send,
    T: DeadRows + Drop + Send,
>(
    rt: &R,
    world: World<S, T>,
    jobs: &[Job],
    wide: &[Job],
) -> Result<(bool, [bool; 3], usize), Fail> {
    let (first, world) = refuses(rt, world, jobs)?;
    let (others, world) = refuses_beside(rt, world, jobs, wide)?;
    Ok((first, others, records_after(rt, world, jobs)?))
}

/// What isn't run: too many workers and too wide a scan before a call that runs; the world comes back as it
/// was. Without a job nothing is recorded.
#[test]
fn not_run(rt: HostRuntime) -> Result<(), Fail> {
    let jobs = [Job::Insert(entry(1, 0))];
    let wide = [Job::Scan {
        range: range(0, 1),
        room: 1_048_577,
    }];
    let world = made(rt.alloc(), &LIMITS, 4)?;
    let (first, others, records) = refuses_and_runs(&rt, world, &jobs, &wide)?;
    assert!(rt; first);
    assert_eq!(rt; others, [true; 3]);
    assert_eq!(rt; records, 1);
    Ok(())
}

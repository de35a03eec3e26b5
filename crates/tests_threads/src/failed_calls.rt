//! Runs of jobs during which calls of the device fail: one once, or one and all after it.

use crate::indexes::{InMemory, all_entries, fresh_calls, made, opened};
use crate::judge::{Addition, are_those_by, count, tells_of_failure};
use crate::judged::{calls_in, ran};
use crate::lists::{entry, range};
use crate::plain::{actions, is_left_sound_to_all};
use device::{CrashImage, MemDevice};
use index_model::Limits;
use session_calls::Answer;
use shared_world::{Job, Record};
use std::alloc::{AllocError, Global};
use std::process::Abort;
use std::sync::Wait;
use std::test::{Fail, *};
use std::thread::Threads;
use tests_support::plain::{fail_at, left_by, stop_at};
use tests_support::plain_world::{DeviceWorld, PlainWorld};

const LIMITS: Limits = Limits {
    items: 4,
    pages: 128,
    log_bytes: 65_536,
    unique: false,
};

/// A scan, and so many inserts, with a commit after each third, and a checkpoint after half of them.
fn committed_inserts(alloc: Global, inserts: u16) -> Result<Vec<Job>, AllocError> {
    let mut jobs = Vec::new(alloc);
    jobs.push(Job::Scan {
        range: range(0, 100),
        room: 100,
    })?;
    for number in 0..inserts {
        jobs.push(Job::Insert(entry(number, 0)))?;
        if number % 3 == 2 {
            jobs.push(Job::Commit)?;
        }
        if number == inserts / 2 {
            jobs.push(Job::Checkpoint)?;
        }
    }
    Ok(jobs)
}

/// How a call fails.
#[derive(Clone, Copy, Debug)]
pub enum Failing {
    Once,
    /// With all after it.
    ForGood,
}

/// The nth call of the device from now on fails.
fn will_fail<W: DeviceWorld>(world: &mut W, how: Failing, n: u64) {
    match how {
        Failing::Once => fail_at(world, n),
        Failing::ForGood => stop_at(world, n),
    }
}

/// A new index, the nth call of whose device will fail.
pub fn made_failing(alloc: Global, workers: u32, how: Failing, n: u64) -> Result<InMemory, Fail> {
    let mut world = made(alloc, &LIMITS, workers)?;
    will_fail(&mut world, how, n);
    Ok(world)
}

/// What is counted of the runs.
#[derive(Clone, Copy, Debug, Default)]
pub struct Counted {
    /// Runs in which a call failed.
    pub failed: u32,
    /// Images of a crash that were opened.
    pub opened: u32,
    /// Those of them that lack an entry.
    pub losing: u32,
}

/// The number of the last action that a commit or a checkpoint acknowledged.
fn last_forced(history: &[Record]) -> u64 {
    let mut durable = 0u64;
    for record in history {
        if let Answer::Forced(action) | Answer::Checkpointed(action) = &record.answer {
            durable = durable.max(*action);
        }
    }
    durable
}

/// The entries of an index are those that some prefix of the actions added, which holds the durable ones.
/// Answers whether one is lacking.
fn has_prefix<W: PlainWorld>(
    rt: &(impl Abort + AllocGlobal + Print + Eprint),
    world: &mut W,
    added: &[Option<Addition>],
    durable: u64,
    last: u64,
) -> Result<bool, Fail> {
    let entries = all_entries(rt.alloc(), world)?;
    let entries = entries.as_slice();
    assert!(rt; (durable..last.saturating_add(1)).any(|k| are_those_by(entries, added, k)));
    Ok(entries.len() < count(added))
}

/// Opens what a crash left: its entries are those that some prefix of the actions added, which holds the
/// durable ones, and the verifier finds no damage.
pub fn opens_right(
    rt: &(impl Abort + AllocGlobal + Print + Eprint + Threads + Wait + Sync),
    found: MemDevice,
    added: &[Option<Addition>],
    durable: u64,
    last: u64,
    counted: &mut Counted,
) -> Result<(), Fail> {
    let mut world = opened(rt.alloc(), found, 1)?;
    let is_losing = has_prefix(rt, &mut world, added, durable, last);
    let is_sound = is_left_sound_to_all(rt, rt.alloc(), world);
    assert!(rt; is_sound);
    counted.opened = counted.opened.saturating_add(1);
    if is_losing? {
        counted.losing = counted.losing.saturating_add(1);
    }
    Ok(())
}

/// Opens each image of a crash.
fn open_right<W: DeviceWorld>(
    rt: &(impl Abort + AllocGlobal + Print + Eprint + Threads + Wait + Sync),
    world: &W,
    durable: u64,
    added: &[Option<Addition>],
    counted: &mut Counted,
) -> Result<(), Fail> {
    let last = actions(world);
    for image in [CrashImage::Keep, CrashImage::Drop, CrashImage::Tear] {
        let found = left_by(rt.alloc(), world, image)?;
        opens_right(rt, found, added, durable, last, counted)?;
    }
    Ok(())
}

/// Whether a record tells that a call of the device failed.
fn do_tell(history: &[Record]) -> bool {
    for record in history {
        if tells_of_failure(record) {
            return true;
        }
    }
    false
}

/// Runs the jobs on this index, and opens each image of a crash. Answers whether a record tells that a call
/// of the device failed, and how many calls there are.
fn told_and_calls(
    rt: &(impl Abort + AllocGlobal + Print + Eprint + Threads + Wait + Sync),
    world: InMemory,
    jobs: &[Job],
    workers: u32,
    counted: &mut Counted,
) -> Result<(bool, u64), Fail> {
    let (done, added) = ran(rt, world, jobs, workers, LIMITS.pages, true)?;
    let durable = last_forced(done.history.as_slice());
    let is_right = open_right(rt, &done.world, durable, added.as_slice(), counted);
    let has_told = do_tell(done.history.as_slice());
    let calls = calls_in(done);
    is_right?;
    Ok((has_told, calls))
}

/// Runs the jobs on a new index while the nth call of the device fails, if so many are made: exactly then a
/// record tells of it. Then each image of a crash is opened. Answers whether it failed.
fn fails_right(
    rt: &(impl Abort + AllocGlobal + Print + Eprint + Threads + Wait + Sync),
    jobs: &[Job],
    workers: u32,
    how: Failing,
    n: u64,
    counted: &mut Counted,
) -> Result<bool, Fail> {
    let fresh = fresh_calls(rt.alloc(), &LIMITS, workers)?;
    let world = made_failing(rt.alloc(), workers, how, n)?;
    let (has_told, calls) = told_and_calls(rt, world, jobs, workers, counted)?;
    let has_failed = calls.saturating_sub(fresh) >= n;
    assert_eq!(rt; has_told, has_failed, "{how:?} {n}");
    if has_failed {
        counted.failed = counted.failed.saturating_add(1);
    }
    Ok(has_failed)
}

/// Each call of the device fails under two workers, so or so, in a run of its own.
fn each_call_fails(
    rt: &(impl Abort + AllocGlobal + Print + Eprint + Threads + Wait + Sync),
    how: Failing,
) -> Result<(), Fail> {
    let jobs = committed_inserts(rt.alloc(), 15)?;
    let mut counted = Counted::default();
    for n in 1..200u64 {
        if !fails_right(rt, jobs.as_slice(), 2, how, n, &mut counted)? {
            break;
        }
    }
    assert!(rt; counted.failed >= 10 && counted.losing >= 3, "{counted:?}");
    Ok(())
}

#[test]
fn each_call_fails_once(rt: HostRuntime) -> Result<(), Fail> {
    each_call_fails(&rt, Failing::Once)
}

#[test]
fn each_call_fails_for_good(rt: HostRuntime) -> Result<(), Fail> {
    each_call_fails(&rt, Failing::ForGood)
}

/// Under four workers: each of the first eleven calls, and then each sixth.
#[test]
fn some_calls_fail_under_four(rt: HostRuntime) -> Result<(), Fail> {
    let jobs = committed_inserts(rt.alloc(), 60)?;
    let mut counted = Counted::default();
    for n in (1..12u64).chain((12..80).step_by(6)) {
        fails_right(&rt, jobs.as_slice(), 4, Failing::Once, n, &mut counted)?;
        fails_right(&rt, jobs.as_slice(), 4, Failing::ForGood, n, &mut counted)?;
    }
    assert!(rt; counted.failed >= 20 && counted.losing >= 6, "{counted:?}");
    Ok(())
}

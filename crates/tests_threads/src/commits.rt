//! Commits of many workers, which share a force.

use crate::indexes::{fresh_calls, made};
use crate::judged::{calls_in, gated, ran, records_of};
use crate::lists::{entry, range, spread_commits};
use index_model::{Limits, Noted, reckon};
use session_calls::Answer;
use sessions::{Gate, Told};
use shared_world::{Job, Record};
use std::alloc::{AllocError, Global};
use std::process::Abort;
use std::sync::Wait;
use std::sync::atomic::{AtomicBool, Ordering};
use std::test::{Fail, *};
use std::thread::Threads;

/// All pages of the index are in memory.
const LIMITS: Limits = Limits {
    items: 50,
    pages: 64,
    log_bytes: 1_048_576,
    unique: false,
};

/// A scan, and four hundred inserts in no order, with a commit after each.
fn committed(alloc: Global) -> Result<Vec<Job>, AllocError> {
    let mut jobs = Vec::new(alloc);
    jobs.push(Job::Scan {
        range: range(0, 100),
        room: 100,
    })?;
    for place in 0..400_u16 {
        jobs.push(Job::Insert(entry(place.wrapping_mul(149) % 400, 0)))?;
        jobs.push(Job::Commit)?;
    }
    Ok(jobs)
}

/// How many calls of the device so many workers make for these jobs.
fn calls_of(
    rt: &(impl Abort + AllocGlobal + Print + Eprint + Threads + Wait + Sync),
    jobs: &[Job],
    workers: u32,
) -> Result<u64, Fail> {
    let fresh = fresh_calls(rt.alloc(), &LIMITS, workers)?;
    let world = made(rt.alloc(), &LIMITS, workers)?;
    let (done, _) = ran(rt, world, jobs, workers, LIMITS.pages, false)?;
    Ok(calls_in(done).saturating_sub(fresh))
}

/// Eight workers force the log less than half as often as one does. A run in which one worker has done all
/// jobs before the others wake says nothing, so one of twenty runs is enough.
#[test]
fn eight_workers_share_forces(rt: HostRuntime) -> Result<(), Fail> {
    let jobs = committed(rt.alloc())?;
    let alone = calls_of(&rt, jobs.as_slice(), 1)?;
    let mut shared = alone;
    for _ in 0..20 {
        if shared.saturating_mul(2) < alone {
            break;
        }
        shared = calls_of(&rt, jobs.as_slice(), 8)?;
    }
    assert!(rt; shared.saturating_mul(2) < alone, "{shared} {alone}");
    Ok(())
}

/// More workers than jobs, commits after nothing, and commits beside a scan, a bulk delete, a cleanup and a
/// checkpoint.
#[test]
fn no_commit_is_left_waiting(rt: HostRuntime) -> Result<(), Fail> {
    let lone = [Job::Insert(entry(1, 0)), Job::Commit];
    let idle = [Job::Commit; 9];
    let mixed = [
        Job::Insert(entry(1, 1)),
        Job::Commit,
        Job::Bulk(0),
        Job::Commit,
        Job::Cleanup,
        Job::Insert(entry(2, 0)),
        Job::Commit,
        Job::Checkpoint,
        Job::Commit,
        Job::Insert(entry(2, 0)),
        Job::Commit,
    ];
    for workers in [1, 2, 3, 8] {
        for jobs in [&lone[..], &idle[..], &mixed[..]] {
            assert_eq!(rt; records_of(&rt, &LIMITS, jobs, workers)?.len(), jobs.len());
        }
    }
    Ok(())
}

// The second job's worker waits until the third job is taken.
#[derive(Drop)]
struct Waiting {
    third: AtomicBool,
    was_seen: AtomicBool,
}

impl Gate for Waiting {
    type Hand = Noted<Told>;

    fn hand(&self, _worker: u32) -> Noted<Told> {
        reckon(&())
    }

    fn taken(&self, hand: &mut Noted<Told>, _worker: u32, job: u32) {
        *hand = reckon(&(&*hand, job));
        if job == 2 {
            self.third.store(true, Ordering::SeqCst);
        }
        if job != 1 {
            return;
        }
        for _ in 0..100_000_000 {
            if self.third.load(Ordering::SeqCst) {
                self.was_seen.store(true, Ordering::SeqCst);
                return;
            }
        }
    }
}

/// Whether a record tells that an entry was added.
fn tell_of_one(records: &[Record]) -> bool {
    for record in records {
        if matches!(&record.answer, Answer::Added { .. }) {
            return true;
        }
    }
    false
}

/// Of two workers the one that commits doesn't wait for the other, whose gate waits until the first one takes
/// its next job.
#[test]
fn commit_waits_for_no_gate(rt: HostRuntime) -> Result<(), Fail> {
    let jobs = [Job::Commit, Job::Insert(entry(1, 0)), Job::Commit];
    let gate = Waiting {
        third: AtomicBool::new(false),
        was_seen: AtomicBool::new(false),
    };
    let records = gated(&rt, &LIMITS, &jobs, &gate)?;
    assert!(rt; gate.was_seen.load(Ordering::SeqCst));
    assert!(rt; tell_of_one(records.as_slice()));
    Ok(())
}

/// Room for two thousand entries.
const WIDE: Limits = Limits {
    items: 50,
    pages: 256,
    log_bytes: 1_048_576,
    unique: false,
};

/// How many commits were done, when the last of them was, and how many jobs ended before one though they were
/// taken after it, at most. Jobs are taken in order.
fn commits_in(records: &[Record]) -> (usize, u64, usize) {
    let (mut count, mut last, mut most) = (0usize, 0u64, 0usize);
    for (place, record) in records.iter().enumerate() {
        if let Answer::Forced(_) = &record.answer {
            count = count.saturating_add(1);
            last = last.max(record.to);
            most = most.max(place.saturating_sub(record.job as usize));
        }
    }
    (count, last, most)
}

/// Eight workers have done a commit behind the first ten of two thousand inserts before 200 actions.
#[test]
fn lone_commit_comes_soon(rt: HostRuntime) -> Result<(), Fail> {
    let jobs = spread_commits(rt.alloc(), 9, 2_000)?;
    let records = records_of(&rt, &WIDE, jobs.as_slice(), 8)?;
    let (count, last, _) = commits_in(records.as_slice());
    assert_eq!(rt; count, 1);
    assert!(rt; last < 200, "{last}");
    Ok(())
}

/// Of twenty commits, one behind each hundred inserts, each waits for few other jobs.
#[test]
fn each_commit_comes_soon(rt: HostRuntime) -> Result<(), Fail> {
    let jobs = spread_commits(rt.alloc(), 99, 100)?;
    let records = records_of(&rt, &WIDE, jobs.as_slice(), 8)?;
    let (count, _, most) = commits_in(records.as_slice());
    assert_eq!(rt; count, 20);
    assert!(rt; most < 256, "{most}");
    Ok(())
}

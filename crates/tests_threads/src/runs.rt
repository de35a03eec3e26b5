//! Runs of jobs by threads.

use crate::indexes::made;
use crate::judged::{LIMITS, gated};
use crate::plain::{entry, hands_of};
use index_model::{Noted, reckon};
use session_calls::Answer;
use sessions::{Gate, NoGate, Told};
use shared_world::Job;
use std::sync::atomic::{AtomicBool, Ordering};
use std::test::{Fail, *};

// Each of two jobs sets its flag when it is taken, and then looks at the other's until that is set.
#[derive(Drop)]
struct Meeting {
    here: AtomicBool,
    there: AtomicBool,
    met_here: AtomicBool,
    met_there: AtomicBool,
}

// Sets one flag, and looks at the other.
fn meet(mine: &AtomicBool, other: &AtomicBool, met: &AtomicBool) {
    mine.store(true, Ordering::SeqCst);
    for _ in 0..100_000_000 {
        if other.load(Ordering::SeqCst) {
            met.store(true, Ordering::SeqCst);
            return;
        }
    }
}

impl Gate for Meeting {
    type Hand = Noted<Told>;

    fn hand(&self, _worker: u32) -> Noted<Told> {
        reckon(&())
    }

    fn taken(&self, hand: &mut Noted<Told>, _worker: u32, job: u32) {
        *hand = reckon(&(&*hand, job));
        if job == 0 {
            meet(&self.here, &self.there, &self.met_here);
        } else {
            meet(&self.there, &self.here, &self.met_there);
        }
    }
}

#[test]
fn two_workers_are_seen_beside_each_other(rt: HostRuntime) -> Result<(), Fail> {
    let jobs = [Job::Insert(entry(1)), Job::Insert(entry(2))];
    let gate = Meeting {
        here: AtomicBool::new(false),
        there: AtomicBool::new(false),
        met_here: AtomicBool::new(false),
        met_there: AtomicBool::new(false),
    };
    let records = gated(&rt, &LIMITS, &jobs, &gate)?;
    assert!(rt; gate.met_here.load(Ordering::SeqCst));
    assert!(rt; gate.met_there.load(Ordering::SeqCst));
    assert_eq!(rt; records.len(), 2);
    for record in &records {
        assert!(rt; matches!(&record.answer, Answer::Added { .. }));
    }
    Ok(())
}

/// Each worker has a hand, and a run that is refused has none.
#[test]
fn each_worker_has_a_hand(rt: HostRuntime) -> Result<(), Fail> {
    let jobs = [Job::Insert(entry(1)), Job::Commit];
    let world = made(rt.alloc(), &LIMITS, 3)?;
    assert_eq!(rt; hands_of(&rt, rt.alloc(), world, &jobs, 3, &NoGate), 3);
    let world = made(rt.alloc(), &LIMITS, 3)?;
    assert_eq!(rt; hands_of(&rt, rt.alloc(), world, &jobs, 4, &NoGate), 0);
    Ok(())
}

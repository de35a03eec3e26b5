//! Which commits share a force, among threads that nobody has counted.

use std::sync::{Condvar, CondvarTimeouts, Mutex, Wait};
use std::time::{Clock, Duration, Instant};

// How far the rounds are.
#[derive(Drop)]
struct RoundCounts {
    // Those of the last round that haven't come back.
    expected: u32,
    // Those that wait for a round.
    ready: u32,
    // Commits of the round that aren't done.
    left: u32,
    begun: u64,
    done: u64,
    since: Option<Instant>,
    // How long the last round took. So long at most a commit waits for those that are expected.
    took: Duration,
}

/// The rounds of commits.
#[derive(Drop)]
pub struct CommitRounds {
    counts: Mutex<RoundCounts>,
    bell: Condvar,
}

// Begins a round if all that are expected are there, or it is late.
fn begin_round<R: Clock>(rt: &R, counts: &mut RoundCounts, is_late: bool) -> bool {
    if counts.ready == 0 || counts.left > 0 || (counts.expected > 0 && !is_late) {
        return false;
    }
    counts.begun = counts.begun.wrapping_add(1);
    counts.left = counts.ready;
    counts.expected = 0;
    counts.ready = 0;
    counts.since = Instant::now(rt).ok();
    true
}

// How long it is since the round began; nothing where the clock can't be read.
fn taken<R: Clock>(rt: &R, since: Option<Instant>) -> Duration {
    match since {
        None => Duration::ZERO,
        Some(since) => match since.elapsed(rt) {
            Ok(took) => took.min(Duration::from_millis(20)),
            Err(_) => Duration::ZERO,
        },
    }
}

impl CommitRounds {
    pub fn new() -> CommitRounds {
        CommitRounds {
            counts: Mutex::new(RoundCounts {
                expected: 0,
                ready: 0,
                left: 0,
                begun: 0,
                done: 0,
                since: None,
                took: Duration::ZERO,
            }),
            bell: Condvar::new(),
        }
    }

    /// Waits until the commit may be done.
    pub fn before<R: Wait + Clock>(&self, rt: &R) {
        let mut counts = self.counts.lock(rt);
        counts.expected = counts.expected.saturating_sub(1);
        counts.ready = counts.ready.saturating_add(1);
        let round = counts.begun;
        if begin_round(rt, &mut counts, false) {
            drop(counts);
            self.bell.notify_all();
            return;
        }
        for _ in rt.forever() {
            // Behind a round that goes on there is no limit: it ends, and a limit that is short would make
            // this spin.
            let mut is_late = false;
            if counts.left > 0 {
                counts = self
                    .bell
                    .wait_while(rt, counts, |c| c.begun == round && c.left > 0);
            } else {
                let dur = counts.took;
                let (held, timed) = self.bell.wait_timeout_while(rt, counts, dur, |c| {
                    c.begun == round && c.left == 0 && c.expected > 0
                });
                counts = held;
                is_late = timed.timed_out();
            }
            if counts.begun != round {
                return;
            }
            if begin_round(rt, &mut counts, is_late) {
                drop(counts);
                self.bell.notify_all();
                return;
            }
        }
    }

    /// Waits until all commits of the round are done.
    pub fn after<R: Wait + Clock>(&self, rt: &R) {
        let mut counts = self.counts.lock(rt);
        counts.expected = counts.expected.saturating_add(1);
        counts.left = counts.left.saturating_sub(1);
        if counts.left == 0 {
            counts.done = counts.done.wrapping_add(1);
            counts.took = taken(rt, counts.since);
            drop(counts);
            self.bell.notify_all();
            return;
        }
        let round = counts.done;
        let counts = self.bell.wait_while(rt, counts, |c| c.done == round);
        drop(counts);
    }
}

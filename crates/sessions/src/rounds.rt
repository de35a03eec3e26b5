//! Which commits share a force: those of a round.

use shared_world::Job;
use std::sync::{Condvar, Mutex, Wait};

/// How many inserts of other workers begin while one waits to commit.
const MOST: u32 = 64;

// How many workers are at work, and how far the rounds are.
#[derive(Drop)]
struct Counts {
    // Workers that insert, or are between two jobs.
    working: u32,
    // Workers that are about to commit, in the next round.
    ready: u32,
    // Inserts that have begun since one of those is there.
    passed: u32,
    // Rounds that have begun, and rounds that were opened: all of their workers may commit. In one that has
    // begun and wasn't opened its leader commits.
    begun: u64,
    opened: u64,
    // Commits of the last round that aren't done.
    left: u32,
}

// Begins a round if somebody is about to commit, the commits of the last one are done, and nobody is at work
// or many inserts have begun meanwhile.
fn begin_round(counts: &mut Counts) -> bool {
    if counts.ready == 0 || counts.left > 0 {
        return false;
    }
    if counts.working > 0 && counts.passed < MOST {
        return false;
    }
    counts.begun = counts.begun.saturating_add(1);
    counts.left = counts.ready;
    counts.ready = 0;
    counts.passed = 0;
    true
}

// Opens the round that has begun. All of its workers are at work again.
fn open_round(counts: &mut Counts) {
    counts.opened = counts.begun;
    counts.working = counts.working.saturating_add(counts.left);
}

// Begins a round that has no leader, if one is due.
fn begin_open_round(counts: &mut Counts) -> bool {
    let begins = begin_round(counts);
    if begins {
        open_round(counts);
    }
    begins
}

/// The rounds of the workers' commits. A commit waits until no worker is at work: until each one inserts no
/// more, and is about to commit too, does a longer job, or has left. It waits no longer than until others
/// have begun 64 inserts.
///
/// The worker for which the others waited leads the round: it commits first, and forces what all have logged,
/// while they sleep. Then they commit, and find all of it durable. No insert begins before the last of them
/// has, so that none has to force what is logged after the first. If nobody commits for whom the others
/// waited, all commit at once, and one forces. The insert that begins such a round goes on beside it.
///
/// A worker that waits here has no call, no latch and no pin, and one that is at work waits for no commit but
/// those of a round that has begun. A commit doesn't wait for a scan, a bulk delete, a cleanup or a
/// checkpoint.
#[derive(Drop)]
pub struct Rounds {
    counts: Mutex<Counts>,
    // Rung as a round of an even number is opened, and one of an odd number. So who waits for the next round
    // sleeps on.
    even: Condvar,
    odd: Condvar,
    // Rung as all commits of a round are done.
    over: Condvar,
}

impl Rounds {
    /// Nobody is at work.
    pub fn new() -> Rounds {
        Rounds {
            counts: Mutex::new(Counts {
                working: 0,
                ready: 0,
                passed: 0,
                begun: 0,
                opened: 0,
                left: 0,
            }),
            even: Condvar::new(),
            odd: Condvar::new(),
            over: Condvar::new(),
        }
    }

    // The bell of this round.
    fn bell(&self, round: u64) -> &Condvar {
        if round % 2 == 0 {
            &self.even
        } else {
            &self.odd
        }
    }

    // Wakes the workers of this round, if it was opened.
    fn wake(&self, round: u64, is_opened: bool) {
        if is_opened {
            self.bell(round).notify_all();
        }
    }

    /// A worker more is at work.
    pub fn begin_work<R: Wait>(&self, rt: &R) {
        let mut counts = self.counts.lock(rt);
        counts.working = counts.working.saturating_add(1);
    }

    /// A worker fewer is at work. After the last one those that are about to commit go on.
    pub fn end_work<R: Wait>(&self, rt: &R) {
        let mut counts = self.counts.lock(rt);
        counts.working = counts.working.saturating_sub(1);
        let is_opened = begin_open_round(&mut counts);
        let round = counts.begun;
        drop(counts);
        self.wake(round, is_opened);
    }

    /// A worker is about to commit, and at work no more. Answers the number of the round that it is to wait
    /// for; none if it leads one.
    pub fn ask_commit<R: Wait>(&self, rt: &R) -> Option<u64> {
        let mut counts = self.counts.lock(rt);
        if counts.ready == 0 {
            counts.passed = 0;
        }
        counts.working = counts.working.saturating_sub(1);
        counts.ready = counts.ready.saturating_add(1);
        let round = counts.begun.saturating_add(1);
        if begin_round(&mut counts) {
            None
        } else {
            Some(round)
        }
    }

    /// Waits until this round is opened.
    pub fn begin_commit<R: Wait>(&self, rt: &R, round: u64) {
        let counts = self
            .bell(round)
            .wait_while(rt, self.counts.lock(rt), |counts| counts.opened < round);
        drop(counts);
    }

    // A commit of the round is done. After the leader's the others go on, and after the last one inserts.
    fn end_commit<R: Wait>(&self, rt: &R) {
        let mut counts = self.counts.lock(rt);
        let round = counts.begun;
        let leads = counts.opened < round;
        if leads {
            open_round(&mut counts);
        }
        counts.left = counts.left.saturating_sub(1);
        let is_over = counts.left == 0;
        let is_opened = begin_open_round(&mut counts);
        let next = counts.begun;
        drop(counts);
        self.wake(round, leads);
        self.wake(next, is_opened);
        if is_over {
            self.over.notify_all();
        }
    }

    /// An insert is about to begin. Waits until the commits of the round are done.
    pub fn begin_insert<R: Wait>(&self, rt: &R) {
        let mut counts = self
            .over
            .wait_while(rt, self.counts.lock(rt), |counts| counts.left > 0);
        if counts.ready > 0 {
            counts.passed = counts.passed.saturating_add(1);
        }
        let is_opened = begin_open_round(&mut counts);
        let round = counts.begun;
        drop(counts);
        self.wake(round, is_opened);
    }

    /// After this job of a worker, whatever it answered.
    pub fn after<R: Wait>(&self, rt: &R, job: &Job) {
        match job {
            Job::Insert(_) => {}
            Job::Commit => self.end_commit(rt),
            _ => self.begin_work(rt),
        }
    }
}

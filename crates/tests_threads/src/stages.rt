//! Threads of a test that wait for each other.

use index_model::Fault;
use std::sync::{Condvar, CondvarTimeouts, Mutex, Wait};
use std::time::{Clock, Duration};

/// How far the threads are.
#[derive(Drop)]
struct Stage {
    at: u32,
}

/// The stage that threads have reached, for which others wait.
#[derive(Drop)]
pub struct Stages {
    stage: Mutex<Stage>,
    moved: Condvar,
}

impl Stages {
    /// No stage is reached yet.
    pub fn new() -> Stages {
        Stages {
            stage: Mutex::new(Stage { at: 0 }),
            moved: Condvar::new(),
        }
    }

    /// From now on threads are at this stage.
    pub fn reach<R: Wait>(&self, rt: &R, at: u32) {
        {
            let mut stage = self.stage.lock(rt);
            stage.at = at;
        }
        self.moved.notify_all();
    }

    /// Waits for this stage; `Stopped` if it isn't reached in 20 seconds.
    pub fn wait_for<R: Wait + Clock>(&self, rt: &R, at: u32) -> Result<(), Fault> {
        let stage = self.stage.lock(rt);
        let limit = Duration::from_secs(20);
        let (_stage, timed) = self
            .moved
            .wait_timeout_while(rt, stage, limit, |stage| stage.at < at);
        if timed.timed_out() {
            return Err(Fault::Stopped);
        }
        Ok(())
    }
}

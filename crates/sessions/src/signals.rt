//! What the workers share beside the lock.

use crate::rounds::Rounds;
use crate::turn_lock::TurnLock;
use std::sync::Condvar;

/// The signal that is given when the lock is opened, the turn lock, and the rounds of the workers' commits.
#[derive(Drop)]
pub struct Signals {
    pub opened: Condvar,
    pub turn_lock: TurnLock,
    pub rounds: Rounds,
}

impl Signals {
    pub fn new() -> Signals {
        Signals {
            opened: Condvar::new(),
            turn_lock: TurnLock::new(),
            rounds: Rounds::new(),
        }
    }
}

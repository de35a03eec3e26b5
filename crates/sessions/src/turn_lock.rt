//! Which worker goes on: one at a time, for some events in a row.

use std::sync::{Condvar, Mutex, Wait};

/// The events that a worker does in a row while others wait to go on.
const EVENTS: u32 = 1_024;

// Workers that wait together.
#[derive(Drop)]
struct Group {
    waiting: u32,
    // Whether the turn lock was handed to one of them who hasn't taken it yet.
    given: bool,
}

// Who has the turn lock, and who waits for it. Those of one group get it first, and who comes meanwhile joins
// the other.
#[derive(Drop)]
struct WaitingLine {
    held: bool,
    odd_is_next: bool,
    even: Group,
    odd: Group,
}

fn nobody() -> Group {
    Group {
        waiting: 0,
        given: false,
    }
}

// Hands the turn lock to one of the group, if one waits.
fn give(group: &mut Group) -> bool {
    if group.waiting == 0 {
        return false;
    }
    group.waiting = group.waiting.saturating_sub(1);
    group.given = true;
    true
}

/// The turn lock of a run's workers. Each event is done under the one lock, so one worker at a time can go on
/// anyway. If eight strive for that lock at each event, most of their time goes to handing it on. So a worker
/// makes its events while it has the turn lock. It hands it on when it has made some in a row, is blocked, or
/// is to wait for others. Who has waited longest gets it, except for those that came in the same while. A
/// commit needs none.
#[derive(Drop)]
pub struct TurnLock {
    line: Mutex<WaitingLine>,
    even: Condvar,
    odd: Condvar,
}

impl TurnLock {
    /// Nobody has it.
    pub fn new() -> TurnLock {
        TurnLock {
            line: Mutex::new(WaitingLine {
                held: false,
                odd_is_next: false,
                even: nobody(),
                odd: nobody(),
            }),
            even: Condvar::new(),
            odd: Condvar::new(),
        }
    }

    // Waits until the worker has it.
    fn take<R: Wait>(&self, rt: &R) {
        let mut line = self.line.lock(rt);
        if !line.held {
            line.held = true;
            return;
        }
        if line.odd_is_next {
            line.even.waiting = line.even.waiting.saturating_add(1);
            let mut line = self.even.wait_while(rt, line, |line| !line.even.given);
            line.even.given = false;
        } else {
            line.odd.waiting = line.odd.waiting.saturating_add(1);
            let mut line = self.odd.wait_while(rt, line, |line| !line.odd.given);
            line.odd.given = false;
        }
    }

    // Hands it on, if somebody waits.
    fn hand_on<R: Wait>(&self, rt: &R) {
        let mut line = self.line.lock(rt);
        let next = if line.odd_is_next {
            &line.odd
        } else {
            &line.even
        };
        if next.waiting == 0 {
            line.odd_is_next = !line.odd_is_next;
        }
        let to_odd = line.odd_is_next;
        let given = if to_odd {
            give(&mut line.odd)
        } else {
            give(&mut line.even)
        };
        line.held = given;
        drop(line);
        if given && to_odd {
            self.odd.notify_one();
        } else if given {
            self.even.notify_one();
        }
    }

    // Whether somebody waits for it.
    fn is_wanted<R: Wait>(&self, rt: &R) -> bool {
        let line = self.line.lock(rt);
        line.even.waiting > 0 || line.odd.waiting > 0
    }
}

/// What a worker knows of the turn lock.
#[derive(Drop)]
pub struct WorkerTurn {
    held: bool,
    // How many events it makes before it hands the turn lock on.
    left: u32,
}

impl WorkerTurn {
    /// The worker doesn't have it.
    pub fn new() -> WorkerTurn {
        WorkerTurn {
            held: false,
            left: 0,
        }
    }

    /// Waits until the worker has the turn lock, if it hasn't.
    pub fn begin<R: Wait>(&mut self, rt: &R, turn_lock: &TurnLock) {
        if !self.held {
            turn_lock.take(rt);
            self.held = true;
            self.left = EVENTS;
        }
    }

    /// Hands the turn lock on, if the worker has it.
    pub fn end<R: Wait>(&mut self, rt: &R, turn_lock: &TurnLock) {
        if self.held {
            turn_lock.hand_on(rt);
            self.held = false;
        }
    }

    /// After an event: the turn lock is handed on if the worker has made its share, and waits for it again.
    pub fn go_on<R: Wait>(&mut self, rt: &R, turn_lock: &TurnLock) {
        self.left = self.left.saturating_sub(1);
        if self.left > 0 || !self.held {
            return;
        }
        if turn_lock.is_wanted(rt) {
            self.end(rt, turn_lock);
            self.begin(rt, turn_lock);
        }
        self.left = EVENTS;
    }
}

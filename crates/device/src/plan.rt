//! Which calls are made to fail.

ghost use Rattle.std.specs.Prelude.{◌≡◌};

/// The calls of a device in memory that are made to fail, counted from the next one. 0: none.
#[derive(Clone, Copy, Debug, PartialEq, Eq)]
pub struct Plan {
    /// This call fails.
    pub fail_in: u64,
    /// This call and each later one fail.
    pub stop_in: u64,
    pub stopped: bool,
}

/// What becomes of a call: it runs, or fails and a write is kept all the same, or it does nothing.
#[derive(Clone, Copy, Debug, PartialEq, Eq)]
pub enum Fate {
    Runs,
    Fails,
    Dead,
}

impl Plan {
    ghost use Rattle.device.specs.Plans.{fate_of, after_call};

    /// No call fails.
    pub const NONE: Plan = Plan {
        fail_in: 0,
        stop_in: 0,
        stopped: false,
    };

    /// What becomes of this call.
    pub fn next(&mut self) -> Fate
        ensures fate { result ≡ fate_of self.old }
        ensures later { self.new ≡ after_call self.old }
    {
        let was_stopped = self.stopped;
        let fails = self.fail_in == 1;
        let stops = self.stop_in == 1;
        self.fail_in = self.fail_in.saturating_sub(1);
        self.stop_in = self.stop_in.saturating_sub(1);
        self.stopped = was_stopped || stops;
        if was_stopped {
            Fate::Dead
        } else if fails || stops {
            Fate::Fails
        } else {
            Fate::Runs
        }
    }
}

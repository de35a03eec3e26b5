//! How long a call that is blocked waits.

use std::time::{Clock, Duration, Instant};

/// How long a call may wait for others, from when it is blocked first.
#[derive(Drop)]
pub struct Patience {
    limit: Option<Duration>,
    since: Option<Instant>,
}

impl Patience {
    /// So long; without a limit, for ever.
    pub fn new(limit: Option<Duration>) -> Patience {
        Patience { limit, since: None }
    }

    /// How long it may wait still; none if there is no limit. The first time is now.
    pub fn left<R: Clock>(&mut self, rt: &R) -> Option<Duration> {
        let limit = self.limit?;
        match self.since {
            None => {
                self.since = Instant::now(rt).ok();
                Some(limit)
            }
            Some(since) => match since.elapsed(rt) {
                Ok(waited) => Some(limit.saturating_sub(waited)),
                Err(_) => Some(Duration::ZERO),
            },
        }
    }
}

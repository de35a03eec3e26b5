//! How far long work is.

/// Is told how far long work is, by whoever does it, in any thread. Nothing is promised of when, or how
/// often.
pub trait Progress {
    /// This many of all pages, or jobs, are done.
    fn done(&self, count: u64, all: u64);

    /// The work is over, done or refused.
    fn end(&self);
}

/// Does nothing.
pub struct NoProgress;

impl Progress for NoProgress {
    fn done(&self, _count: u64, _all: u64) {}

    fn end(&self) {}
}

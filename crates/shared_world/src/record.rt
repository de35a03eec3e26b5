//! What is under the lock of a call.

use index_model::Entry;
use session_calls::Answer;
use session_seats::Job;

/// A job that is done.
#[derive(Drop)]
pub struct Record {
    pub worker: u32,
    /// Its number among the jobs of the run, and what it asks.
    pub job: u32,
    pub asked: Job,
    /// The answer of its last event; if its call was given up for a refused checkpoint, that refusal. A scan
    /// that was ended since its room was full has `Ended`.
    pub answer: Answer,
    /// What a scan gave.
    pub given: Vec<Entry>,
    /// How many actions there were as it began, and as it ended.
    pub from: u64,
    pub to: u64,
    /// How many records there were as it began.
    pub seen: u64,
}

/// A job whose call runs.
#[derive(Drop)]
pub struct Pending {
    pub job: u32,
    pub asked: Job,
    pub given: Vec<Entry>,
    pub from: u64,
    pub seen: u64,
}

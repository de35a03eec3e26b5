//! Calls of sessions, as they are known in proofs.

use crate::job::Job;
use index_model::{Entry, RowAddr};
use session_calls::Answer;
use std::collections::LinkedList;

/// What a step of the cell is told of a session's call, for the proof alone. As a call begins: what it is
/// asked. Later: what it answers. Each time: how many actions there are.
#[derive(Clone, Copy)]
pub struct Notice {
    pub asked: Job,
    pub answer: Answer,
    pub at: u64,
}

/// A call that runs. No value of it is made.
pub struct PendingCall {
    pub asked: Job,
    /// Which rows it is to remove.
    pub rows: LinkedList<RowAddr>,
    /// What a scan has given, in order.
    pub given: LinkedList<Entry>,
    /// How many actions there were as it began.
    pub from: u64,
    /// How many calls were over as it began.
    pub seen: u64,
}

/// A call that is over. No value of it is made.
pub struct CompletedCall {
    pub session: u64,
    pub asked: Job,
    /// Which rows it was to remove.
    pub rows: LinkedList<RowAddr>,
    /// The answer of its last event; if it was given up for a refused checkpoint, that refusal.
    pub answer: Answer,
    /// What a scan gave, in order.
    pub given: LinkedList<Entry>,
    /// How many actions there were as it began, and as it ended.
    pub from: u64,
    pub to: u64,
    /// How many calls were over as it began.
    pub seen: u64,
}

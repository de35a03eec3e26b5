//! Calls as plain values.

use index_model::{Entry, Fault, Range, RowAddr, VacuumStats};

/// What a call was asked.
#[derive(Drop)]
pub enum PlainAsk {
    /// To insert an entry.
    Inserts(Entry),
    /// To give the matches of a range.
    Scans(Range),
    /// To remove the entries of these rows.
    Deletes(Vec<RowAddr>),
    /// To delete empty pages.
    Cleans,
}

/// How a call ended.
#[derive(Drop)]
pub enum PlainEnding {
    /// It still runs.
    Runs,
    /// An insert: its entry is added by the action of this number; the fault is that of a split
    /// left unfinished.
    HasAdded(usize, Option<Fault>),
    /// A scan: it gave all.
    HasFinished,
    /// A bulk delete or a cleanup, with its statistics.
    HasVacuumed(VacuumStats),
    /// Its user gave it up.
    IsGivenUp,
    /// A fault ended it.
    HasFailed(Fault),
}

/// A call. Its number is its place in the list of calls.
#[derive(Drop)]
pub struct PlainCall {
    pub session: u8,
    pub ask: PlainAsk,
    /// The length of the history when it began.
    pub began: usize,
    /// The entries that a scan has given.
    pub given: Vec<Entry>,
    /// The number of an insert's Add, if it has one.
    pub added: Option<usize>,
    pub ending: PlainEnding,
    /// The length of the history when it ended; without meaning while it runs.
    pub until: usize,
}

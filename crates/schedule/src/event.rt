//! Events.

use index_model::{Entry, Range};

/// One event of a world. The number is that of a session.
#[derive(Clone, Copy)]
pub enum Event {
    /// Begins an insert of the entry.
    Insert(u32, Entry),
    /// Begins a scan of the range.
    Scan(u32, Range),
    /// Begins a bulk delete of the entries whose rows are in the set at this place among the sets.
    Bulk(u32, u32),
    /// Begins a cleanup.
    Cleanup(u32),
    /// Makes one step of the session's call.
    Step(u32),
    /// Takes the next entry that the session's scan has ready.
    Next(u32),
    /// Gives the session's call up.
    End(u32),
    /// Makes all actions durable.
    Force,
    /// Writes the changed page that waits longest to its place, and makes its actions durable before.
    Flush,
    /// Makes all actions durable, writes each changed page to its place and closes the log.
    Checkpoint,
}

//! What a call is asked.

use index_model::{Entry, Range};

/// What a session is to do.
#[derive(Clone, Copy)]
pub enum Job {
    /// To insert the entry.
    Insert(Entry),
    /// To give the entries of the range, `room` at most.
    Scan { range: Range, room: u32 },
    /// To remove the entries whose rows are in the set at this place among the world's sets.
    Bulk(u32),
    /// To delete empty leaves.
    Cleanup,
    /// To make all actions durable.
    Commit,
    /// To make all actions durable and write each changed page to its place.
    Checkpoint,
}

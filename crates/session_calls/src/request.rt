//! What a call is asked.

use index_model::{Entry, Range};

/// What a session asks of a call that it begins.
#[derive(Clone, Copy)]
pub enum Request {
    /// To insert the entry.
    Insert(Entry),
    /// To give the entries of the range, in ascending order.
    Scan(Range),
    /// To remove the entries whose rows are in the set at this place among the sets.
    Bulk(u32),
    /// To delete empty leaves.
    Cleanup,
}

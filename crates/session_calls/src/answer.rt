//! What events of a session answer.

use index_model::{Entry, Fault, VacuumStats};

/// What an event of a session answers.
#[derive(Clone, Copy)]
pub enum Answer {
    /// The call runs.
    Begun,
    /// There are more steps to make.
    Going,
    /// The entry is added, by the action of this number; a split that could not be finished has this fault.
    Added {
        action: u64,
        unfinished: Option<Fault>,
    },
    /// Entries are ready to be given: their number.
    Ready(u32),
    /// A scan has given all.
    Done,
    /// A bulk delete or a cleanup has finished.
    Finished(VacuumStats),
    /// The next entry that is ready, if there is one.
    Gave(Option<Entry>),
    /// The call is given up.
    Ended,
    /// All actions are durable: their number.
    Forced(u64),
    /// This page was written, or none was changed.
    Flushed(Option<u32>),
    /// All actions are durable and every changed page is written: the number of actions.
    Checkpointed(u64),
    /// Refused.
    Refused(Fault),
}

//! What an insert answers.

use index_model::Fault;

/// An insert's entry is added.
#[derive(Clone, Copy, Debug, PartialEq, Eq)]
pub struct Inserted {
    /// The number of the action that added it, counted from 1 since opening.
    pub action: u64,
    /// The fault that kept a split from being finished; None if none was left unfinished.
    pub unfinished: Option<Fault>,
}

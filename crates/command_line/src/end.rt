//! How commands end.

use index_model::Fault;

/// How a command ended.
#[derive(Clone, Copy, Debug, PartialEq, Eq)]
pub enum End {
    /// All was done.
    Done,
    /// A check found damage, which is printed.
    Damaged,
    /// What was wrong is said.
    AlreadyPrinted,
    /// It is to be said why.
    Refused(Fault),
}

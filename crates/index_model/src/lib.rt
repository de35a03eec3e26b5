//! What an index means: keys, rows and entries in their order, ranges, sets of dead rows, faults,
//! and the words of every promise: histories of actions, and which answers are right over them.
#![tactic(auto)]

mod bound;
mod dead_rows;
mod entry;
mod fault;
mod format;
mod key;
mod layout;
mod limits;
mod noted;
mod progress;
mod range;
mod row;
mod session;
mod stats;

pub use bound::Bound;
pub use dead_rows::DeadRows;
pub use entry::Entry;
pub use fault::Fault;
pub use format::Format;
pub use key::Key;
pub use layout::Layout;
pub use limits::Limits;
pub use noted::{Noted, Reckons, reckon};
pub use progress::{NoProgress, Progress};
pub use range::Range;
pub use row::RowAddr;
pub use session::Session;
pub use stats::VacuumStats;

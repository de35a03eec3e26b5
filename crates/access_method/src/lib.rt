//! The index of one user: its calls, each run to its end, or a bulk delete and a cleanup in parts; and one in
//! a file, made, opened and closed.
#![tactic(auto)]

mod draft;
pub mod in_file;
mod index;
mod info;
mod parts;
mod rows;
mod token;
mod watched;

// What a caller names beside them.
pub use device::{FileDevice, Start, Unknown, Zeros};
pub use index::{Index, IndexNotMade};
pub use index_model::{
    DeadRows, Entry, Fault, Key, Limits, NoProgress, Progress, Range, RowAddr, VacuumStats,
};
pub use info::IndexInfo;
pub use page_action::PageStore;
pub use rows::RowSet;
pub use token::ScanToken;
pub use whole_calls::Inserted;

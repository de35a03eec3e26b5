//! Copying an index into another one.
#![tactic(auto)]

mod asking;
mod batch;
mod copying;
mod in_file;
mod onto;
mod putting;

pub use copying::{NotCopied, copy};
pub use in_file::{CopiedInFile, HalfCopy, NotInFile, copy_to_file};
pub use onto::{CopiedOnto, NoCopy, copy_onto};

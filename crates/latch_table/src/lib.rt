//! Who holds which page: latches and pins of sessions.
#![tactic(auto)]

mod held;
mod mode;
mod table;

pub use mode::{Latch, Mode};
pub use table::LatchTable;

//! Calls of one session that are run to their ends, and one step of one, as runs of events.
#![tactic(auto)]

mod giving;
mod inserted;
mod one_step;
mod parts;
mod running;
mod vacuuming;

pub use giving::{give, open};
pub use inserted::Inserted;
pub use one_step::take_step;
pub use parts::take_steps;
pub use running::{begin, give_up, insert};
pub use vacuuming::{bulk_delete, clean_up};

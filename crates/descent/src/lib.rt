//! How every operation comes to a page: it reads one page after the other, from the metapage on, and each
//! leads it to the next. Here are also the words that the steps of all operations share.
#![tactic(auto)]

mod position;
mod reading;
mod splitting;

pub use position::{NextPage, Position, lead, way_down};
pub use reading::{check_latch, read_both, read_exclusive, read_shared};
pub use splitting::{act_on, read_right, take_block};

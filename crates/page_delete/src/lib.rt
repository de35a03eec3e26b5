//! Page deletion: empty leaves leave the tree, in two acts each, while others insert and scan. One page a
//! step is looked at, in block order.
#![tactic(auto)]

mod judging;
mod laws;
mod looking;
mod steps;
mod turns;
mod unlinking;

pub use laws::{cleanups_are_bounded, cleanups_are_undisturbed, nothing_is_cleaned};
pub use steps::{CleanupAt, CleanupOp, CleanupStep};

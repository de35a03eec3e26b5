//! Splits are finished: the downlink of the right half is put on the parent, one page a step.
#![tactic(auto)]

mod finish;
mod link;
mod parent;
mod root;
mod turns;

pub use finish::{FinishAt, FinishOp, FinishStep, Target};
pub use parent::half_to_finish;

//! An insert, one page a step.
#![tactic(auto)]

mod insert;
mod laws;
mod leaf_act;

pub use insert::{InsertAt, InsertOp, InsertStep, Stage};
pub use laws::{fresh_inserts_are_bounded, inserts_are_bounded, inserts_are_undisturbed};

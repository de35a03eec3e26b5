//! What several crates of tests use: sets of dead rows, small indexes, and calls without their contracts. No
//! product stands on it.
#![tactic(auto)]

pub mod dead;
pub mod medium;
pub mod plain;
pub mod plain_index;
pub mod plain_store;
pub mod plain_world;
pub mod small;

//! An index on a device: made, and opened after any crash.
#![tactic(auto)]

mod creation;
mod homing;
mod opening;
mod reading;
mod superblock;

pub use creation::create;
pub use opening::{Refused, open};

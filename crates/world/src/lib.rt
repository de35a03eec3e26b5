//! A store of pages with its sessions and sets of dead rows; and one on a device, which is opened again after
//! a crash.
#![tactic(auto)]

mod laws;
mod memory;
mod opening;
mod over_device;
mod sets;
mod world;

pub use laws::new_indexes_are_trees;
pub use opening::WorldNotOpened;
pub use sets::NotPut;
pub use world::{World, WorldNotMade};

//! A device by its bytes: what a read gives, what a crash may leave, how often it failed; and one in
//! memory that can be made to fail and to crash, and one over a file.
#![tactic(auto)]

mod count;
mod device;
mod events;
mod file;
mod memory;
mod past;
mod plan;
mod record;
mod syncer;

pub use device::Device;
pub use file::{FileDevice, Start, Unknown, Zeros, sync_folder};
pub use memory::{CrashImage, MemDevice};
pub use syncer::Syncer;

//! Which of an index's blocks are free to be used again, and since when, with the lowest of them at hand.
#![tactic(auto)]

mod blocks;
mod tree;

pub use blocks::FreeBlocks;
pub use tree::lesser;

//! The free blocks of an index.

ghost use Rattle.std.specs.Prelude.{◌≡◌, ◌<◌, ◌≤◌, length, replicate, slice_set, None, IfOk, IfSome, IfNone};

use crate::tree::{self, Shape};
use std::alloc::{AllocError, Global};
use std::marker::Model;

/// For each block a number since when it is free, or none. It has a fixed size and never allocates after
/// `new`. Contracts see a list of the numbers by block.
#[derive(Drop)]
pub struct FreeBlocks {
    // The winner tree.
    tree: Vec<Option<u64>>,
    shape: Shape,
}

impl Model for FreeBlocks {
    ghost use Rattle.std.specs.Prelude.{List, Option, ℕ, drop};
    ghost use Rattle.free_blocks.specs.Tree.{IsWinnerTree};

    ghost Value = { List (Option ℕ) };

    ghost view = { λ b. drop b.shape.size b.tree.items };

    ghost invariant = { λ b. IsWinnerTree b.shape.size b.tree.items };
}

impl FreeBlocks {
    ghost use Rattle.free_blocks.specs.Numbers.{number_at, IsLowest, AreBeyond};

    /// `places` blocks, at most 65,536, none of them free. Refused if the memory for them is.
    pub fn new(alloc: Global, places: u32) -> Result<FreeBlocks, AllocError>
        requires few { places ≤ 65536 }
        ensures made { IfOk result (λ free. free ≡ replicate places None) }
    {
        let shape = Shape::new(places);
        let mut tree = Vec::new(alloc);
        tree.resize((shape.size + places) as usize, None)?;
        Ok(FreeBlocks { tree, shape })
    }

    /// Says since when a block is free, or, with none, that it isn't: in at most 17 writes, and in one look
    /// if none is to be and none is.
    pub fn set(&mut self, block: u32, number: Option<u64>)
        requires place { block < length self.old }
        ensures { self.new ≡ slice_set self.old block number }
    {
        if number.is_none() && self.get(block).is_none() {
            return;
        }
        tree::put(&mut self.tree, self.shape, block, number);
    }

    /// Since when a block is free, in one look. None if it isn't, or there is no such block.
    pub fn get(&self, block: u32) -> Option<u64>
        ensures { result ≡ number_at self.now block }
    {
        tree::number_at(&self.tree, self.shape.size as usize + block as usize)
    }

    /// The lowest block whose number is at most this, in at most 17 looks. If `most` is none, each number
    /// is.
    pub fn lowest(&self, most: Option<u64>) -> Option<u32>
        ensures found { IfSome result (IsLowest most self.now) }
        ensures none { IfNone result (AreBeyond most self.now) }
    {
        tree::lowest(&self.tree, self.shape, most)
    }
}

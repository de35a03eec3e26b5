//! The order in which blocks wait.

ghost use Rattle.std.specs.Prelude.{◌≡◌, ◌+◌, ◌<◌, ◌≤◌, ◌^◌, nat_lt, nat_eq, ℕ, length};
ghost use Rattle.indexmap.specs.IndexSet.{contains, index_set_len};

use index_model::Fault;
use indexmap::IndexSet;
use std::alloc::Global;

/// Some of the blocks below a number, in an order. It takes no memory once it is made, because its set never
/// loses a key: those that wait stand side by side somewhere in it.
#[derive(Drop)]
pub(crate) struct Order {
    // Each block, once.
    blocks: IndexSet<u32>,
    // From here on `count` blocks wait.
    first: usize,
    count: usize,
    ghost within: { first + count ≤ index_set_len blocks },
    ghost few: { index_set_len blocks < 2 ^ 32 },
    ghost whole: { (block : ℕ) → contains nat_eq blocks block ≡ nat_lt block (index_set_len blocks) },
}

impl Order {
    ghost use Rattle.std.specs.Prelude.{[], ◌∷◌, ◌++◌, false, Some, drop, remove, slice_get, IfOk, IfErr};
    ghost use Rattle.buffer_pool.specs.Frames.{has_block};
    ghost use Rattle.buffer_pool.specs.Orders.{waiting_in, width_of};

    /// Room for the blocks below this number, of which none waits. Refused with `NoMemory` (1) if it cannot
    /// be had.
    pub fn new(alloc: Global, width: u32) -> Result<Order, Fault>
        ensures none { IfOk result (λ order. waiting_in order ≡ []) }
        ensures width { IfOk result (λ order. width_of order ≡ width) }
        ensures cause { IfErr result (λ fault. fault ≡ Fault.NoMemory) }
    {
        let Ok(mut blocks) = IndexSet::with_capacity(alloc, width as usize) else {
            return Err(Fault::NoMemory);
        };
        for block in 0..width {
            if blocks.insert(block).is_err() {
                return Err(Fault::NoMemory);
            }
        }
        Ok(Order {
            blocks,
            first: 0,
            count: 0,
        })
    }

    /// The blocks that wait, in order.
    pub fn as_slice(&self) -> &[u32]
        ensures { result.now ≡ waiting_in self.now }
    {
        &self.blocks.as_slice()[self.first..self.first + self.count]
    }

    /// The block at this place of the order, from 0 on.
    pub fn block_at(&self, place: usize) -> u32
        requires { place < length (waiting_in self.now) }
        ensures { slice_get (waiting_in self.now) place ≡ Some result }
    {
        self.as_slice()[place]
    }

    /// How many wait.
    pub fn len(&self) -> usize
        ensures { result ≡ length (waiting_in self.now) }
    {
        self.count
    }

    /// Puts a block that doesn't wait after those that do.
    pub fn push(&mut self, block: u32)
        requires below { block < width_of self.old }
        requires fresh { has_block (waiting_in self.old) block ≡ false }
        ensures waiting { waiting_in self.new ≡ waiting_in self.old ++ block ∷ [] }
        ensures width { width_of self.new ≡ width_of self.old }
    {
        self.make_room();
        if let Some(at) = self.blocks.get_index_of(&block) {
            self.blocks.swap_indices(at, self.first + self.count);
            self.count += 1;
        }
    }

    // If those that wait stand at the end of the set, moves them to its beginning.
    fn make_room(&mut self)
        requires few { length (waiting_in self.old) < width_of self.old }
        ensures waiting { waiting_in self.new ≡ waiting_in self.old }
        ensures width { width_of self.new ≡ width_of self.old }
        ensures room { self.new.first + self.new.count < width_of self.new }
    {
        if self.first + self.count == self.blocks.len() {
            self.move_to_front();
        }
    }

    // Moves those that wait to the beginning of the set.
    fn move_to_front(&mut self)
        ensures waiting { waiting_in self.new ≡ waiting_in self.old }
        ensures width { width_of self.new ≡ width_of self.old }
        ensures first { self.new.first ≡ 0 }
        ensures count { self.new.count ≡ length (waiting_in self.old) }
    {
        for at in 0..self.count {
            self.blocks.swap_indices(at, self.first + at);
        }
        self.first = 0;
    }

    /// Takes the block at this place of the order out of it.
    pub fn remove(&mut self, place: usize)
        requires { place < length (waiting_in self.old) }
        ensures waiting { waiting_in self.new ≡ remove (waiting_in self.old) place }
        ensures width { width_of self.new ≡ width_of self.old }
    {
        self.blocks.move_index(self.first + place, self.first);
        self.first += 1;
        self.count -= 1;
    }

    /// Takes the first `count` blocks out of it.
    pub fn drop_first(&mut self, count: usize)
        requires { count ≤ length (waiting_in self.old) }
        ensures waiting { waiting_in self.new ≡ drop count (waiting_in self.old) }
        ensures width { width_of self.new ≡ width_of self.old }
    {
        self.first += count;
        self.count -= count;
    }
}

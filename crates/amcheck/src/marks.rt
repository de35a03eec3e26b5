//! Which blocks were met on the chains.

ghost use Rattle.std.specs.Prelude.{◌≡◌, ◌↔◌, ◌<◌, ◌≤◌, ◌∷◌, ◌++◌, [], IsTrue, IfOk, IfErr, length};
ghost use Rattle.tree_shape.specs.Chains.{IsIn};
ghost use Rattle.amcheck.specs.Marks.{IsMet};

use index_model::Fault;
use std::alloc::Global;

/// The blocks of the chains that were walked along, in order.
#[derive(Drop)]
pub(crate) struct Met {
    /// For each block in use whether it is one of these.
    marks: Vec<bool>,
    pub(crate) blocks: Vec<u32>,
}

impl Met {
    /// None so far, and the room for all blocks in use. Refused with `NoMemory` (1).
    pub(crate) fn new(alloc: Global, used: u32) -> Result<Met, Fault>
        ensures made { IfOk result (λ met. IsMet met used) }
        ensures none { IfOk result (λ met. met.blocks.items ≡ []) }
        ensures fault { IfErr result (λ f. f ≡ Fault.NoMemory) }
    {
        let Ok(marks) = vec![in alloc; false; used as usize] else {
            return Err(Fault::NoMemory);
        };
        let Ok(blocks) = Vec::with_capacity(alloc, used as usize) else {
            return Err(Fault::NoMemory);
        };
        Ok(Met { marks, blocks })
    }

    /// Whether the block, which is in use, was met.
    pub(crate) fn has(&self, used: u32, block: u32) -> bool
        requires met { IsMet self.now used }
        requires in_use { block < used }
        ensures { IsTrue result ↔ IsIn block self.now.blocks.items }
    {
        self.marks[block as usize]
    }

    /// Meets a block in use that wasn't met.
    pub(crate) fn add(&mut self, used: u32, block: u32)
        requires met { IsMet self.old used }
        requires after_meta { 0 < block }
        requires in_use { block < used }
        requires unmet { IsIn block self.old.blocks.items → ⊥ }
        ensures met { IsMet self.new used }
        ensures added { self.new.blocks.items ≡ self.old.blocks.items ++ block ∷ [] }
    {
        self.marks[block as usize] = true;
        self.blocks.push_reserved(block);
    }
}

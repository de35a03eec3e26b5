//! The pages that wait to be written, kept plainly.

use crate::pages::is_same;
use page_codec::Page;
use std::alloc::{AllocError, Global};

/// A block, and the action after which it has waited.
#[derive(Clone, Copy)]
struct Waiter {
    block: u32,
    since: usize,
}

/// The blocks that were changed and aren't written since, in the order of their first change.
#[derive(Drop)]
pub struct Waiting {
    blocks: Vec<Waiter>,
}

impl Waiting {
    /// Nothing waits.
    pub fn new(alloc: Global) -> Waiting {
        Waiting {
            blocks: Vec::new(alloc),
        }
    }

    fn has(&self, block: u32) -> bool {
        self.blocks.iter().any(|waiter| waiter.block == block)
    }

    /// The action of this number left the new pages where the old ones were.
    pub fn changes(&mut self, old: &[Page], new: &[Page], since: usize) -> Result<(), AllocError> {
        for page in new {
            let is_changed = match old.get(page.block as usize) {
                Some(before) => !is_same(before, page),
                None => true,
            };
            if is_changed && !self.has(page.block) {
                self.blocks.push(Waiter {
                    block: page.block,
                    since,
                })?;
            }
        }
        Ok(())
    }

    /// Takes the block that was written: whether it waited, and longest; None if nothing waits. If others may
    /// have been written unseen, it isn't known which waits longest, nor whether one does.
    pub fn writes(&mut self, written: Option<u32>, are_others: bool) -> bool {
        let Some(block) = written else {
            return are_others || self.blocks.is_empty();
        };
        let Some(at) = self.blocks.iter().position(|waiter| waiter.block == block) else {
            return false;
        };
        let waiter = self.blocks.remove(at);
        are_others || self.blocks.iter().all(|other| waiter.since <= other.since)
    }

    /// All were written.
    pub fn clear(&mut self) {
        self.blocks.clear();
    }
}

//! The table of all sessions.

ghost use Rattle.std.specs.Prelude.{◌≡◌, ◌+◌, ◌≤◌, ℕ, true, false, length, replicate, OnOk, OnErr, IfErr, IsOk};

use crate::held::Held;
use crate::mode::{Latch, Mode};
use arrayvec::ArrayVec;
use index_model::{Fault, Session};
use std::array;
use std::marker::Model;

/// The latches and pins of sessions 0 to 63: at most 8 latches and 2 pins for each. It has a fixed size and
/// never allocates. Contracts see a list of 64 holdings.
#[derive(Drop)]
pub struct LatchTable {
    holdings: [Held; 64],
    /// How many sessions hold something. If only the asking one does, none has to be asked.
    holders: usize,
}

impl Model for LatchTable {
    ghost use Rattle.std.specs.Prelude.{◌≡◌, List, length};
    ghost use Rattle.latch_table.specs.Holdings.{Holding};
    ghost use Rattle.latch_table.specs.Holders.{holder_count};

    ghost Value = { List Holding };

    ghost view = { λ t. t.holdings };

    ghost invariant = { λ t. (length t.holdings ≡ 64) × (t.holders ≡ holder_count t.holdings) };
}

impl LatchTable {
    ghost use Rattle.latch_table.specs.Holdings.{nothing_held, is_held_by_another, latched, released, pinned, unpinned, pinned_blocks, with_holding, HasRoom};
    ghost use Rattle.latch_table.specs.declared.mode.Mode.{Mode};

    /// A table in which nobody holds anything.
    pub fn new() -> LatchTable
        ensures { result ≡ replicate 64 nothing_held }
    {
        LatchTable {
            holdings: array::from_fn(|_| Held::nothing()),
            holders: 0,
        }
    }

    // Whether no other session holds anything.
    fn is_alone(&self, session: Session) -> bool
        ensures alone { result ≡ true
            → (block : ℕ) (mode : Mode) → is_held_by_another self.now session block mode ≡ false }
        ensures sessions { length self.now ≡ 64 }
    {
        let number = session.number() as usize;
        self.holders == count(self.holdings[number].holds_any())
    }

    // Whether another session holds what excludes that latch of the block, by asking each.
    fn others_conflict(&self, session: Session, block: u32, mode: Mode) -> bool
        ensures { result ≡ is_held_by_another self.now session block mode }
    {
        one_conflicts(&self.holdings, session.number() as usize, block, mode)
    }

    /// Whether another session holds what excludes that latch of the block. What the session itself holds
    /// never does.
    pub fn conflicts(&self, session: Session, block: u32, mode: Mode) -> bool
        ensures value { result ≡ is_held_by_another self.now session block mode }
        ensures sessions { length self.now ≡ 64 }
    {
        !self.is_alone(session) && self.others_conflict(session, block, mode)
    }

    // Whether the session has its 8 latches.
    fn is_full(&self, session: Session) -> bool
        ensures full { result ≡ true → HasRoom self.now session → ⊥ }
        ensures room { result ≡ false → HasRoom self.now session }
    {
        self.holdings[session.number() as usize].is_full()
    }

    // Takes a latch that the session has room for.
    fn take(&mut self, session: Session, latch: Latch)
        requires { HasRoom self.old session }
        ensures { self.new ≡ latched self.old session latch.block latch.mode }
    {
        let number = session.number() as usize;
        let before = self.holdings[number].holds_any();
        self.holdings[number].latch(latch);
        let after = self.holdings[number].holds_any();
        self.holders = recounted(self.holders, before, after);
    }

    /// Whether the session may take that latch of the block: no other one holds what excludes it, and it has
    /// fewer than 8 latches.
    pub fn may_latch(&self, session: Session, block: u32, mode: Mode) -> bool
        ensures free { result ≡ true → is_held_by_another self.now session block mode ≡ false }
        ensures room { result ≡ true → HasRoom self.now session }
        ensures only { result ≡ false
            → HasRoom self.now session → is_held_by_another self.now session block mode ≡ true }
        ensures may { HasRoom self.now session
            → is_held_by_another self.now session block mode ≡ false → result ≡ true }
    {
        !self.conflicts(session, block, mode) && !self.is_full(session)
    }

    /// Takes a latch, or answers `Blocked` with the block and takes nothing: if another session holds what
    /// excludes it, or the session has 8 latches.
    pub fn latch(&mut self, session: Session, block: u32, mode: Mode) -> Result<(), Fault>
        ensures ok { OnOk result (self.new ≡ latched self.old session block mode) }
        ensures free { OnOk result (is_held_by_another self.old session block mode ≡ false) }

        ensures fault { IfErr result (λ fault. fault ≡ Fault.Blocked block) }
        ensures err { OnErr result (self.new ≡ self.old) }
        ensures only { OnErr result
            (HasRoom self.old session → is_held_by_another self.old session block mode ≡ true) }
        ensures taken { HasRoom self.old session
            → is_held_by_another self.old session block mode ≡ false → IsOk result }
    {
        if !self.may_latch(session, block, mode) {
            return Err(Fault::Blocked(block));
        }
        self.take(session, Latch { block, mode });
        Ok(())
    }

    /// Lets go the session's newest latch of the block, if it has one.
    pub fn release(&mut self, session: Session, block: u32)
        ensures { self.new ≡ released self.old session block }
    {
        let number = session.number() as usize;
        let before = self.holdings[number].holds_any();
        self.holdings[number].release(block);
        let after = self.holdings[number].holds_any();
        self.holders = recounted(self.holders, before, after);
    }

    /// Pins the block too, if the session has fewer than two pins.
    pub fn pin(&mut self, session: Session, block: u32)
        ensures { self.new ≡ pinned self.old session block }
    {
        let number = session.number() as usize;
        let before = self.holdings[number].holds_any();
        self.holdings[number].pin(block);
        let after = self.holdings[number].holds_any();
        self.holders = recounted(self.holders, before, after);
    }

    /// Lets go the session's newest pin of the block, if it has one.
    pub fn unpin(&mut self, session: Session, block: u32)
        ensures { self.new ≡ unpinned self.old session block }
    {
        let number = session.number() as usize;
        let before = self.holdings[number].holds_any();
        self.holdings[number].unpin(block);
        let after = self.holdings[number].holds_any();
        self.holders = recounted(self.holders, before, after);
    }

    /// The blocks that are pinned, by all sessions together: each as often as it is, 128 pins at most.
    pub fn pinned(&self) -> ArrayVec<u32, 128>
        ensures { result.items ≡ pinned_blocks self.now }
    {
        let mut blocks = ArrayVec::new();
        // How many of the rest hold something.
        let mut left = self.holders;
        for held in &self.holdings {
            if left == 0 {
                return blocks;
            }
            held.add_pins(&mut blocks);
            left -= count(held.holds_any());
        }
        blocks
    }

    /// Lets go all that the session holds.
    pub fn let_go(&mut self, session: Session)
        ensures { self.new ≡ with_holding self.old session nothing_held }
    {
        let number = session.number() as usize;
        let before = self.holdings[number].holds_any();
        self.holdings[number] = Held::nothing();
        let after = self.holdings[number].holds_any();
        self.holders = recounted(self.holders, before, after);
    }
}

ghost use Rattle.latch_table.specs.Holders.{one_if};
ghost use Rattle.latch_table.specs.Holdings.{is_held_by_another};

// How many sessions that is.
fn count(holds_any: bool) -> usize
    ensures { result ≡ one_if holds_any }
{
    if holds_any { 1 } else { 0 }
}

// How many sessions hold something once one of them does or doesn't, which did or didn't before.
fn recounted(holders: usize, before: bool, after: bool) -> usize
    requires counted { one_if before ≤ holders }
    requires few { holders ≤ 64 }
    ensures { result + one_if before ≡ holders + one_if after }
{
    holders + count(after) - count(before)
}

// Whether one of these sessions, other than this one, holds what excludes that latch of the block.
fn one_conflicts(holdings: &[Held], session: usize, block: u32, mode: Mode) -> bool
    ensures { result ≡ is_held_by_another holdings.now session block mode }
{
    for number in 0..holdings.len() {
        if number != session && holdings[number].excludes(block, mode) {
            return true;
        }
    }
    false
}

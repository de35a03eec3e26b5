//! What one session holds.

ghost use Rattle.std.specs.Prelude.{◌≡◌, ◌∷◌, ◌++◌, ◌+◌, ◌<◌, ◌≤◌, ◌↔◌, ◌==◌, ◌&&◌, IsTrue, length, nat_lt, if◌then◌else◌};
ghost use Rattle.std.specs.List.{list_any, position};

use crate::mode::{Latch, Mode};
use arrayvec::ArrayVec;
use std::marker::Model;

/// At most 8 latches and 2 pins, the newest first.
#[derive(Drop)]
pub struct Held {
    latches: ArrayVec<Latch, 8>,
    pins: ArrayVec<u32, 2>,
}

impl Model for Held {
    ghost use Rattle.latch_table.specs.Holdings.{Holding};

    ghost Value = { Holding };

    ghost view = { λ h. record { latches = h.latches.items; pins = h.pins.items } };
}

impl Held {
    ghost use Rattle.arrayvec.specs.ArrayVec.{array_vec_len};
    ghost use Rattle.latch_table.specs.Holders.{holds_any};
    ghost use Rattle.latch_table.specs.Holdings.{nothing_held, holding_excludes, without_latch, without_pin};

    /// Nothing.
    pub fn nothing() -> Held
        ensures { result ≡ nothing_held }
    {
        Held {
            latches: ArrayVec::new(),
            pins: ArrayVec::new(),
        }
    }

    /// Whether there is a latch or a pin.
    pub fn holds_any(&self) -> bool
        ensures { result ≡ holds_any self.now }
    {
        !self.latches.is_empty() || !self.pins.is_empty()
    }

    /// Whether one of its latches or pins excludes that latch of the block.
    pub fn excludes(&self, block: u32, asked: Mode) -> bool
        ensures { result ≡ holding_excludes self.now block asked }
    {
        if latch_excludes(self.latches.as_slice(), block, asked) {
            return true;
        }
        match asked {
            Mode::Cleanup => has_pin(self.pins.as_slice(), block),
            _ => false,
        }
    }

    /// Whether it has its 8 latches.
    pub fn is_full(&self) -> bool
        ensures full { IsTrue result ↔ (8 ≡ length self.now.latches) }
        ensures fits { length self.now.latches ≤ 8 }
    {
        self.latches.is_full()
    }

    /// Takes one more latch.
    pub fn latch(&mut self, latch: Latch)
        requires { length self.old.latches < 8 }
        ensures { self.new ≡ record self.old { latches = latch ∷ self.old.latches } }
    {
        self.latches.insert(0, latch);
    }

    /// Lets go the newest latch of the block, if there is one.
    pub fn release(&mut self, block: u32)
        ensures { self.new ≡ record self.old { latches = without_latch self.old.latches block } }
    {
        if let Some(at) = latch_of(self.latches.as_slice(), block) {
            self.latches.remove(at);
        }
    }

    /// Takes one more pin, if there are fewer than two.
    pub fn pin(&mut self, block: u32)
        ensures { self.new ≡ record self.old {
          pins = if nat_lt
              (length self.old.pins) 2 then block ∷ self.old.pins else self.old.pins;
        } }
    {
        if !self.pins.is_full() {
            self.pins.insert(0, block);
        }
    }

    /// Lets go the newest pin of the block, if there is one.
    pub fn unpin(&mut self, block: u32)
        ensures { self.new ≡ record self.old { pins = without_pin self.old.pins block } }
    {
        if let Some(at) = self.pins.iter().position(|pinned| *pinned == block) {
            self.pins.remove(at);
        }
    }

    /// Puts its pins, the newest first, after these blocks, which have room for two more.
    pub fn add_pins(&self, blocks: &mut ArrayVec<u32, 128>)
        requires room { array_vec_len blocks.old ≤ 126 }
        ensures added { blocks.new.items ≡ blocks.old.items ++ self.now.pins }
        ensures few { array_vec_len blocks.new ≤ array_vec_len blocks.old + 2 }
    {
        let _ = blocks.try_extend_from_slice(self.pins.as_slice());
    }
}

ghost use Rattle.latch_table.specs.Holdings.{excludes};

fn latch_excludes(latches: &[Latch], block: u32, asked: Mode) -> bool
    ensures { result ≡ list_any (λ held. (held.block == block) && excludes held.mode asked)
        latches.now }
{
    latches
        .iter()
        .any(|held| held.block == block && held.mode.excludes(asked))
}

fn has_pin(pins: &[u32], block: u32) -> bool
    ensures { result ≡ list_any (λ pinned. pinned == block) pins.now }
{
    pins.iter().any(|pinned| *pinned == block)
}

fn latch_of(latches: &[Latch], block: u32) -> Option<usize>
    ensures { result ≡ position (λ held. held.block == block) latches.now }
{
    latches.iter().position(|held| held.block == block)
}

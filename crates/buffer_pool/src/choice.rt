//! Which frame is taken for another page.

ghost use Rattle.std.specs.Prelude.{◌≡◌, ◌≤◌, ◌<◌, ℕ, true, false, not, length, slice_index, position, IfSome, IfNone};
ghost use Rattle.buffer_pool.specs.Frames.{blocks_in, has_block};

use crate::pool::Pool;
use page_codec::Page;

/// What is to be done for the frame of another page.
#[derive(Clone, Copy, Debug, PartialEq, Eq)]
pub enum Choice {
    /// This frame may be taken: the next unused one, or one with a clean page that isn't pinned.
    Free(usize),
    /// Each clean page is pinned. The page that was changed first of those that aren't is to be written: its
    /// place in the order of the changed ones, from 0 on, its block, and the act that changed it last.
    Oldest(usize, u32, u64),
    /// Each page is pinned, and no frame is unused.
    AllPinned,
}

// Whether the page in this frame is clean and isn't pinned.
fn is_free(acts: &[u64], pages: &[Page], pinned: &[u32], at: usize) -> bool
    requires acts { at < length acts.now }
    requires pages { at < length pages.now }
    ensures clean { result ≡ true → slice_index acts.now at ≡ 0 }
    ensures unpinned { result ≡ true
        → has_block pinned.now (slice_index (blocks_in pages.now) at) ≡ false }
    ensures pinned { result ≡ false → slice_index acts.now at ≡ 0
        → has_block pinned.now (slice_index (blocks_in pages.now) at) ≡ true }
{
    acts[at] == 0 && !pinned.contains(&pages[at].block)
}

// The first of these frames whose page is clean, isn't pinned, and wasn't looked at since the hand passed it.
// The hand passes those before it.
fn unused_between(
    acts: &[u64],
    pages: &[Page],
    pinned: &[u32],
    looked: &mut [bool],
    from: usize,
    to: usize,
) -> Option<usize>
    requires acts { to ≤ length acts.now }
    requires pages { to ≤ length pages.now }
    requires looked { to ≤ length looked.old }
    ensures many { length looked.new ≡ length looked.old }
    ensures within { IfSome result (λ at. at < length acts.now) }
    ensures clean { IfSome result (λ at. slice_index acts.now at ≡ 0) }
    ensures unpinned { IfSome result
        (λ at. has_block pinned.now (slice_index (blocks_in pages.now) at) ≡ false) }
{
    for at in from..to {
        if is_free(acts, pages, pinned, at) {
            if !looked[at] {
                return Some(at);
            }
            looked[at] = false;
        }
    }
    None
}

// The first of these frames whose page is clean and isn't pinned.
fn clean_between(
    acts: &[u64],
    pages: &[Page],
    pinned: &[u32],
    from: usize,
    to: usize,
) -> Option<usize>
    requires acts { to ≤ length acts.now }
    requires pages { to ≤ length pages.now }
    ensures within { IfSome result (λ at. at < to) }
    ensures clean { IfSome result (λ at. slice_index acts.now at ≡ 0) }
    ensures unpinned { IfSome result
        (λ at. has_block pinned.now (slice_index (blocks_in pages.now) at) ≡ false) }
    ensures none { IfNone result ((at : ℕ) → from ≤ at → at < to → slice_index acts.now at ≡ 0
        → has_block pinned.now (slice_index (blocks_in pages.now) at) ≡ true) }
{
    for at in from..to {
        if is_free(acts, pages, pinned, at) {
            return Some(at);
        }
    }
    None
}

// The same of all frames, first from that one on, then below it.
fn clean_from(acts: &[u64], pages: &[Page], pinned: &[u32], from: usize) -> Option<usize>
    requires from { from ≤ length acts.now }
    requires many { length acts.now ≡ length pages.now }
    ensures within { IfSome result (λ at. at < length acts.now) }
    ensures clean { IfSome result (λ at. slice_index acts.now at ≡ 0) }
    ensures unpinned { IfSome result
        (λ at. has_block pinned.now (slice_index (blocks_in pages.now) at) ≡ false) }
    ensures none { IfNone result ((at : ℕ) → at < length acts.now → slice_index acts.now at ≡ 0
        → has_block pinned.now (slice_index (blocks_in pages.now) at) ≡ true) }
{
    match clean_between(acts, pages, pinned, from, acts.len()) {
        Some(at) => Some(at),
        None => clean_between(acts, pages, pinned, 0, from),
    }
}

// The place of the first of these blocks that isn't pinned.
fn unpinned_place(changed: &[u32], pinned: &[u32]) -> Option<usize>
    ensures { result ≡ position (λ b. not (has_block pinned.now b)) changed.now }
{
    changed.iter().position(|block| !pinned.contains(block))
}

impl Pool {
    ghost use Rattle.buffer_pool.specs.Pools.{HasSamePages, HasSameChanges};
    ghost use Rattle.buffer_pool.specs.Choices.{AreCleanPinned, IsFreeFrame, IsChoice};

    /// Which frame may be taken for another page while the pages of these blocks are pinned, or which page is
    /// to be written first. No page is taken from its frame yet: only the hand moves, which goes round over
    /// the frames.
    pub fn choose(&mut self, pinned: &[u32]) -> Choice
        ensures choice { IsChoice self.new pinned.now result }
        ensures pages { HasSamePages self.old self.new }
        ensures changes { HasSameChanges self.old self.new }
    {
        let held = self.pages.len();
        if held < self.most as usize {
            return Choice::Free(held);
        }
        if let Some(at) = self.free_frame(pinned) {
            self.hand = at + 1;
            return Choice::Free(at);
        }
        match unpinned_place(self.changed.as_slice(), pinned) {
            Some(place) => {
                let block = self.changed.block_at(place);
                Choice::Oldest(place, block, self.act(block))
            }
            None => Choice::AllPinned,
        }
    }

    // A frame whose page is clean and isn't pinned: the first from the hand on that nobody looked at since
    // the hand passed it, if there is one.
    fn free_frame(&mut self, pinned: &[u32]) -> Option<usize>
        ensures found { IfSome result (IsFreeFrame self.new pinned.now) }
        ensures none { IfNone result (AreCleanPinned self.new pinned.now) }
        ensures pages { HasSamePages self.old self.new }
        ensures changes { HasSameChanges self.old self.new }
    {
        if self.changed.len() == self.pages.len() {
            return None;
        }
        match self.unused_frame(pinned) {
            Some(at) => Some(at),
            None => self.clean_frame(pinned),
        }
    }

    // The first frame from the hand on whose page is clean, isn't pinned, and wasn't looked at since the hand
    // passed it.
    fn unused_frame(&mut self, pinned: &[u32]) -> Option<usize>
        ensures found { IfSome result (IsFreeFrame self.new pinned.now) }
        ensures pages { HasSamePages self.old self.new }
        ensures changes { HasSameChanges self.old self.new }
    {
        let held = self.pages.len();
        let hand = self.hand.min(held);
        let looked = &mut self.looked;
        match unused_between(&self.acts, &self.pages, pinned, looked, hand, held) {
            Some(at) => Some(at),
            None => unused_between(&self.acts, &self.pages, pinned, looked, 0, hand),
        }
    }

    // A frame whose page is clean and isn't pinned, the first from the hand on.
    fn clean_frame(&self, pinned: &[u32]) -> Option<usize>
        ensures found { IfSome result (IsFreeFrame self.now pinned.now) }
        ensures none { IfNone result (AreCleanPinned self.now pinned.now) }
    {
        clean_from(
            &self.acts,
            &self.pages,
            pinned,
            self.hand.min(self.pages.len()),
        )
    }
}

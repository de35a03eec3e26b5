//! Pages are changed by acts, and written.

ghost use Rattle.std.specs.Prelude.{false, ◌≡◌, ◌<◌, ◌≤◌, [], ◌∷◌, ◌++◌, List, ℕ, All, true, suc, nat_lt, if◌then◌else◌, Some, IsSome, IfSome, IfNone, length, drop, slice_get, slice_index, vec_len, vec_capacity};
ghost use Rattle.std.specs.Option.{option_map};
ghost use Rattle.buffer_pool.specs.Frames.{has_block, ArePlaces, AreChanged};
ghost use Rattle.buffer_pool.specs.Orders.{waiting_in, width_of};
ghost use Rattle.buffer_pool.specs.Pools.{frame_of, act_of, changed_of, IsChanged, IsWritten, AreWritten};

use crate::order::Order;
use crate::pool::Pool;
use page_codec::Page;

// The frame of a block that has a place.
fn frame_at(places: &[u32], block: u32) -> usize
    requires placed { 0 < slice_index places.now block }
    ensures { slice_index places.now block ≡ suc result }
{
    places[block as usize] as usize - 1
}

// Cleans the frames of these blocks.
fn clean_frames(acts: &mut [u64], places: &[u32], written: &[u32])
    requires placed { All (λ b. 0 < slice_index places.now b) written.now }
    requires within { All (λ b. slice_index places.now b ≤ length acts.old) written.now }
    ensures many { length acts.new ≡ length acts.old }
    ensures kept { (at : ℕ) → 0 < slice_index acts.new at
        → slice_index acts.new at ≡ slice_index acts.old at }
    // Whatever blocks the frames hold: if these and others were changed, the others are left.
    ensures left { (blocks others : List ℕ) → ArePlaces places.now blocks
        → AreChanged (written.now ++ others) blocks acts.old → AreChanged others blocks acts.new }
{
    for block in written {
        acts[frame_at(places, *block)] = 0;
    }
}

// Puts the block after the changed ones, unless an act had changed its page before; 0 says that none had.
fn add_changed(changed: &mut Order, block: u32, before: u64)
    requires below { before ≡ 0 → block < width_of changed.old }
    requires fresh { before ≡ 0 → has_block (waiting_in changed.old) block ≡ false }
    ensures order { waiting_in changed.new ≡ (if nat_lt 0 before then waiting_in changed.old
        else waiting_in changed.old ++ block ∷ []) }
    ensures width { width_of changed.new ≡ width_of changed.old }
{
    if before == 0 {
        changed.push(block);
    }
}

impl Pool {
    /// How many pages are changed.
    #[tactic(auto, unfolding(crate::specs::Pools::changed_of))]
    pub fn changed(&self) -> usize
        ensures { result ≡ length (changed_of self.now) }
    {
        self.changed.len()
    }

    /// The block at this place, from 0 on, of the order in which the changed pages were first changed, and
    /// the act that changed it last.
    pub fn changed_at(&self, place: usize) -> Option<(u32, u64)>
        ensures block { option_map (λ c. c.0) result ≡ slice_get (changed_of self.now) place }
        ensures act { IfSome result (λ c. c.1 ≡ act_of self.now c.0) }
        ensures changed { IfSome result (λ c. 0 < c.1) }
    {
        if place >= self.changed.len() {
            return None;
        }
        let block = self.changed.block_at(place);
        Some((block, self.act(block)))
    }

    /// The block of the page that was changed first, and the act that changed it last; none if no page is
    /// changed.
    pub fn oldest(&self) -> Option<(u32, u64)>
        ensures block { option_map (λ c. c.0) result ≡ slice_get (changed_of self.now) 0 }
        ensures act { IfSome result (λ c. c.1 ≡ act_of self.now c.0) }
        ensures changed { IfSome result (λ c. 0 < c.1) }
        ensures none { IfNone result (changed_of self.now ≡ []) }
    {
        self.changed_at(0)
    }

    // The frame of a block that is held.
    fn frame(&self, block: u32) -> usize
        requires held { IsSome (frame_of self.now block) }
        ensures { frame_of self.now block ≡ Some result }
    {
        frame_at(&self.places, block)
    }

    // The act that changed the page of a changed block last.
    pub(crate) fn act(&self, block: u32) -> u64
        requires changed { has_block (changed_of self.now) block ≡ true }
        ensures act { result ≡ act_of self.now block }
        ensures changed { 0 < result }
    {
        self.acts[self.frame(block)]
    }

    /// Takes a copy of the page for the one of its block that is held, as this act, counted from 1, has
    /// changed it. Its block comes last in the order of the changed ones, unless it stands there.
    pub fn change(&mut self, page: &Page, act: u64)
        requires held { IsSome (frame_of self.old page.now.block) }
        requires act { 0 < act }
        ensures { IsChanged self.old self.new page.now act }
    {
        let at = self.frame(page.block);
        add_changed(&mut self.changed, page.block, self.acts[at]);
        self.acts[at] = act;
        page.copy_to(&mut self.pages[at]);
    }

    /// The changed page at this place of the order was written: it is clean, and the others keep their order.
    #[tactic(auto, unfolding(crate::specs::Pools::changed_of))]
    pub fn note_written(&mut self, place: usize)
        requires place { place < length (changed_of self.old) }
        ensures { IsWritten self.old self.new place }
    {
        let at = self.frame(self.changed.block_at(place));
        self.changed.remove(place);
        self.acts[at] = 0;
    }

    /// The first `count` changed pages of the order were written: they are clean, and the others keep their
    /// order.
    #[tactic(auto, unfolding(crate::specs::Pools::changed_of))]
    pub fn note_first_written(&mut self, count: usize)
        requires count { count ≤ length (changed_of self.old) }
        ensures { AreWritten self.old self.new count }
    {
        clean_frames(
            &mut self.acts,
            &self.places,
            &self.changed.as_slice()[..count],
        );
        self.changed.drop_first(count);
    }
}

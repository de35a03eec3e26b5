//! The blocks whose images wait, and where each of these images lies.

ghost use Rattle.std.specs.Prelude.{◌≡◌, ℕ, ◌<◌, ◌≤◌, false, [], ◌∷◌, ◌++◌, length, slice_index, vec_capacity, IfOk, IfSome, IfNone};
ghost use Rattle.redo_log.specs.Blocks.{image_blocks, is_among_blocks, with_block, with_blocks, new_count, AreInside};

use page_codec::Page;
use std::alloc::{AllocError, Global};

/// The blocks whose images wait, each once. Its room was made with it.
#[derive(Drop)]
pub(crate) struct Waiting {
    /// For each block a place. It waits if the list has it at that place; any other place says
    /// nothing, so that nothing is cleared but the list.
    places: Vec<u32>,
    /// The blocks that wait, in the order of their images.
    blocks: Vec<u32>,
    ghost few: { vec_capacity blocks ≤ 4096 },
    ghost inside: { (k : ℕ) → k < length blocks.items
        → slice_index blocks.items k < length places.items },
    ghost placed: { (k : ℕ) → k < length blocks.items
        → slice_index places.items (slice_index blocks.items k) ≡ k },
}

impl Waiting {
    /// None of the `pages` pages wait, and there is room for `room` of them, 4,096 at most.
    pub(crate) fn new(alloc: Global, pages: u32, room: u32) -> Result<Waiting, AllocError>
        requires { room ≤ 4096 }
        ensures blocks { IfOk result (λ w. w.blocks.items ≡ []) }
        ensures places { IfOk result (λ w. length w.places.items ≡ pages) }
        ensures room { IfOk result (λ w. vec_capacity w.blocks ≡ room) }
    {
        let places = vec![in alloc; 0u32; pages as usize]?;
        let blocks = Vec::with_capacity(alloc, room as usize)?;
        Ok(Waiting { places, blocks })
    }

    /// How many wait.
    pub(crate) fn count(&self) -> u32
        ensures { result ≡ length self.now.blocks.items }
    {
        self.blocks.len() as u32
    }

    /// The place of the block's image, if one waits.
    fn place_of(&self, block: u32) -> Option<usize>
        requires { block < length self.now.places.items }
        ensures found { IfSome result (λ k. (k < length self.now.blocks.items)
            × (slice_index self.now.blocks.items k ≡ block)) }
        ensures none { IfNone result (is_among_blocks self.now.blocks.items block ≡ false) }
    {
        let place = self.places[block as usize] as usize;
        if place < self.blocks.len() && self.blocks[place] == block {
            Some(place)
        } else {
            None
        }
    }

    /// Whether the block waits.
    fn is_waiting(&self, block: u32) -> bool
        requires { block < length self.now.places.items }
        ensures { result ≡ is_among_blocks self.now.blocks.items block }
    {
        self.place_of(block).is_some()
    }

    /// How many blocks of these images don't wait, each counted once.
    pub(crate) fn count_new(&self, images: &[Page]) -> usize
        requires { AreInside (length self.now.places.items) images.now }
        ensures { result ≡ new_count self.now.blocks.items images.now }
    {
        let mut count = 0;
        let mut rest = images;
        while let [image, later @ ..] = rest {
            if !self.is_waiting(image.block) && !has_block(later, image.block) {
                count += 1;
            }
            rest = later;
        }
        count
    }

    // The place of the block's image: if none waits, a new one after the others, and then the
    // block waits too.
    fn take(&mut self, block: u32) -> usize
        requires inside { block < length self.old.places.items }
        requires room { length (with_block self.old.blocks.items block)
            ≤ vec_capacity self.old.blocks }
        ensures place { (result < length self.new.blocks.items)
            × (slice_index self.new.blocks.items result ≡ block) }
        ensures blocks { self.new.blocks.items ≡ with_block self.old.blocks.items block }
        ensures places { length self.new.places.items ≡ length self.old.places.items }
        ensures capacity { vec_capacity self.new.blocks ≡ vec_capacity self.old.blocks }
    {
        if let Some(place) = self.place_of(block) {
            return place;
        }
        let place = self.blocks.len();
        self.places[block as usize] = place as u32;
        self.blocks.push_reserved(block);
        place
    }

    /// The blocks of these images wait too, after those that wait, each once.
    pub(crate) fn take_all(&mut self, images: &[Page])
        requires inside { AreInside (length self.old.places.items) images.now }
        requires room { length (with_blocks self.old.blocks.items images.now)
            ≤ vec_capacity self.old.blocks }
        ensures blocks { self.new.blocks.items ≡ with_blocks self.old.blocks.items images.now }
        ensures places { length self.new.places.items ≡ length self.old.places.items }
        ensures capacity { vec_capacity self.new.blocks ≡ vec_capacity self.old.blocks }
    {
        let mut rest = images;
        while let [image, later @ ..] = rest {
            self.take(image.block);
            rest = later;
        }
    }

    /// The block at this place of those that wait.
    pub(crate) fn block_at(&self, place: usize) -> Option<u32>
        ensures some { IfSome result (λ block. (place < length self.now.blocks.items)
            × (slice_index self.now.blocks.items place ≡ block)) }
        ensures none { IfNone result (length self.now.blocks.items ≤ place) }
    {
        if place < self.blocks.len() {
            Some(self.blocks[place])
        } else {
            None
        }
    }

    /// None wait any more.
    pub(crate) fn clear(&mut self)
        ensures blocks { self.new.blocks.items ≡ [] }
        ensures places { self.new.places ≡ self.old.places }
        ensures capacity { vec_capacity self.new.blocks ≡ vec_capacity self.old.blocks }
    {
        self.blocks.clear();
    }
}

/// Whether one of these images is of the block.
fn has_block(images: &[Page], block: u32) -> bool
    ensures { result ≡ is_among_blocks (image_blocks images.now) block }
{
    let mut rest = images;
    while let [image, later @ ..] = rest {
        if image.block == block {
            return true;
        }
        rest = later;
    }
    false
}

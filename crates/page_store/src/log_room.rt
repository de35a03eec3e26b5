//! The pages of a store, as they are read, with the room for all that an index may have.

ghost use Rattle.std.specs.Prelude.{◌≡◌, ◌≤◌, ◌<◌, length};
ghost use Rattle.buffer_pool.specs.Pools.{reach_of, pool_count};
ghost use Rattle.index_model.specs.Limits.{AreLimits};
ghost use Rattle.page_action.specs.Stored.{AreStored};
ghost use Rattle.page_action.specs.Waiting.{AreWaiting};
ghost use Rattle.page_action.specs.Props.{AreStored-prop};

use crate::history::History;
use buffer_pool::Pool;
use index_model::{Fault, Format, Noted, reckon};
use page_action::{CallRoom, DeletionNumbers, is_storable};
use page_codec::Page;
use std::alloc::Global;

/// The pages of an index as they were read, in order, and the room for its frames. None of them is held yet.
#[derive(Drop)]
pub struct StoreRoom {
    pub(crate) format: Format,
    pub(crate) pool: Pool,
    pub(crate) used: u32,
    pub(crate) numbers: DeletionNumbers,
    pub(crate) calls: CallRoom,
    pub(crate) history: Noted<History>,
    /// Where a page is decoded before a frame gets it.
    pub(crate) decoded: Box<Page>,
    ghost allowed: { AreLimits format },
    ghost stored: { AreStored format 0 history.value.start } by { AreStored-prop format 0 history.value.start },
    ghost used_is: { used ≡ length history.value.start },
    ghost few: { used ≤ format.pages },
    ghost begun: { length history.value.acts ≡ 0 },
    ghost reach: { reach_of pool ≡ format.pages },
    ghost empty: { pool_count pool ≡ 0 },
    ghost many_counts: { length numbers.counted ≡ length history.value.start },
    ghost waiting: { AreWaiting numbers.waiting history.value.start numbers.counted },
    ghost count_room: { format.pages ≤ length numbers.waiting },
}

impl StoreRoom {
    ghost use Rattle.std.specs.Prelude.{◌⊎◌, ◌∷◌, ◌++◌, [], IfOk, OnOk, OnErr, IfErr};
    ghost use Rattle.page_action.specs.Stored.{IsStored};
    ghost use Rattle.page_store.specs.Rooms.{format_of_room, frames_of_room, pages_of_room, counts_of_room};

    /// The room for an index of these limits, of which `frames` pages are held at once, with no page in use.
    /// Refused with `BadLimits` (18), and with `NoMemory` (1) if the room cannot be had.
    pub fn new(alloc: Global, format: Format, frames: u32) -> Result<StoreRoom, Fault>
        ensures format { IfOk result (λ room. format_of_room room ≡ format) }
        ensures frames { IfOk result (λ room. frames_of_room room ≡ frames) }
        ensures empty { IfOk result (λ room. pages_of_room room ≡ []) }
        ensures counts { IfOk result (λ room. counts_of_room room ≡ []) }
        ensures allowed { OnOk result (AreLimits format) }
        ensures cause { IfErr result
            (λ e. (e ≡ Fault.NoMemory) ⊎ ((e ≡ Fault.BadLimits) × (AreLimits format → ⊥))) }
    {
        if !format.are_valid() {
            return Err(Fault::BadLimits);
        }
        let pool = Pool::new(alloc, frames, format.pages)?;
        let numbers = DeletionNumbers::new(alloc, format.pages)?;
        let calls = CallRoom::new(alloc)?;
        let Ok(decoded) = Box::new(alloc, Page::blank()) else {
            return Err(Fault::NoMemory);
        };
        Ok(StoreRoom {
            format,
            pool,
            used: 0,
            numbers,
            calls,
            history: reckon(&()),
            decoded,
        })
    }

    /// Brings the next unused block into use, with this page. Refused, with nothing changed: with `IndexFull`
    /// (8) if no block is unused; with `PageDamaged` (17) for that block if the page is not one of the
    /// format, is not that block's, or has more items than the limits allow.
    pub fn add(&mut self, page: &Page) -> Result<(), Fault>
        ensures format { format_of_room self.new ≡ format_of_room self.old }
        ensures frames { frames_of_room self.new ≡ frames_of_room self.old }
        ensures done { OnOk result
            (pages_of_room self.new ≡ pages_of_room self.old ++ page.now ∷ []) }
        ensures stored { OnOk result
            (IsStored (format_of_room self.old) (length (pages_of_room self.old)) page.now) }
        // No deletion number counts of a page that was read.
        ensures counts { OnOk result (counts_of_room self.new ≡ counts_of_room self.old ++ 0 ∷ []) }
        ensures refused { OnErr result (pages_of_room self.new ≡ pages_of_room self.old) }
        ensures cause { IfErr result (λ e.
            ((e ≡ Fault.IndexFull)
            × ((format_of_room self.old).pages ≤ length (pages_of_room self.old)))
            ⊎ ((e ≡ Fault.PageDamaged (length (pages_of_room self.old)))
            × (IsStored (format_of_room self.old) (length (pages_of_room self.old)) page.now → ⊥))) }
    {
        let block = self.used;
        if block >= self.format.pages {
            return Err(Fault::IndexFull);
        }
        if page.block != block || !is_storable(page, self.format) {
            return Err(Fault::PageDamaged(block));
        }
        self.numbers.add(page.state);
        self.history = reckon(&(&self.history, page));
        self.used += 1;
        Ok(())
    }
}

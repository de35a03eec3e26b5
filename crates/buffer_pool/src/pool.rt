//! The pages that are held, each in a frame.

ghost use Rattle.std.specs.Prelude.{◌≡◌, ◌≤◌, length, vec_capacity};
ghost use Rattle.buffer_pool.specs.Frames.{blocks_in, ArePlaces, AreChanged};
ghost use Rattle.buffer_pool.specs.Orders.{waiting_in, width_of};

use crate::order::Order;
use index_model::Fault;
use page_codec::Page;
use std::alloc::Global;

/// A bounded number of pages, each of another block, and of each whether it was changed since it was last
/// read or written.
#[derive(Drop)]
pub struct Pool {
    // The page in each frame that is in use.
    pub(crate) pages: Vec<Page>,
    // Of each of these the act that changed it last, or 0.
    pub(crate) acts: Vec<u64>,
    // Of each block 0, or one more than the frame that holds its page.
    pub(crate) places: Vec<u32>,
    // The blocks of the changed pages, in order of first change since they were last written.
    pub(crate) changed: Order,
    // Of each of these whether somebody looked at it since the hand passed it.
    pub(crate) looked: Vec<bool>,
    // How many frames there are.
    pub(crate) most: u32,
    // The frame from which on a clean one is looked for.
    pub(crate) hand: usize,
    ghost few: { length pages.items ≤ most },
    ghost many_acts: { length acts.items ≡ length pages.items },
    ghost many_looked: { length looked.items ≡ length pages.items },
    ghost placed: { ArePlaces places.items (blocks_in pages.items) },
    ghost ordered: { AreChanged (waiting_in changed) (blocks_in pages.items) acts.items },
    ghost wide: { width_of changed ≡ length places.items },
    ghost page_room: { most ≤ vec_capacity pages },
    ghost act_room: { most ≤ vec_capacity acts },
    ghost look_room: { most ≤ vec_capacity looked },
}

impl Pool {
    ghost use Rattle.std.specs.Prelude.{[], ℕ, ◌<◌, None, Some, IfSome, IfNone, IfOk, IfErr, is_some};
    ghost use Rattle.buffer_pool.specs.Pools.{most_of, reach_of, pool_count, page_at, frame_of, held_page, changed_of, CanBeTaken, HasSamePages, HasSameChanges, IsPut, IsPool};

    /// A pool of `frames` frames, for pages of the blocks below `pages`, that holds none. Refused with
    /// `NoMemory` (1) if the room cannot be had.
    #[tactic(auto, unfolding(crate::specs::Pools::most_of, crate::specs::Pools::reach_of, crate::specs::Pools::pool_count, crate::specs::Pools::held_page, crate::specs::Pools::changed_of))]
    pub fn new(alloc: Global, frames: u32, pages: u32) -> Result<Pool, Fault>
        ensures most { IfOk result (λ pool. most_of pool ≡ frames) }
        ensures reach { IfOk result (λ pool. reach_of pool ≡ pages) }
        ensures empty { IfOk result (λ pool. pool_count pool ≡ 0) }
        ensures held { IfOk result (λ pool. (block : ℕ) → held_page pool block ≡ None) }
        ensures clean { IfOk result (λ pool. changed_of pool ≡ []) }
        ensures cause { IfErr result (λ fault. fault ≡ Fault.NoMemory) }
    {
        let Ok(held) = Vec::with_capacity(alloc, frames as usize) else {
            return Err(Fault::NoMemory);
        };
        let Ok(acts) = Vec::with_capacity(alloc, frames as usize) else {
            return Err(Fault::NoMemory);
        };
        let Ok(looked) = Vec::with_capacity(alloc, frames as usize) else {
            return Err(Fault::NoMemory);
        };
        let mut places = Vec::new(alloc);
        if places.resize(pages as usize, 0).is_err() {
            return Err(Fault::NoMemory);
        }
        let changed = Order::new(alloc, pages)?;
        Ok(Pool {
            pages: held,
            acts,
            places,
            changed,
            looked,
            most: frames,
            hand: 0,
        })
    }

    /// What is true of every pool. It does nothing.
    pub fn law(&self)
        ensures { IsPool self.now }
    {}

    /// How many pages are held.
    #[tactic(auto, unfolding(crate::specs::Pools::pool_count))]
    pub fn held(&self) -> usize
        ensures { result ≡ pool_count self.now }
    {
        self.pages.len()
    }

    /// How many pages are held at most.
    #[tactic(auto, unfolding(crate::specs::Pools::most_of))]
    pub fn frames(&self) -> u32
        ensures { result ≡ most_of self.now }
    {
        self.most
    }

    /// Pages of the blocks below this number may be held.
    #[tactic(auto, unfolding(crate::specs::Pools::reach_of))]
    pub fn reach(&self) -> usize
        ensures { result ≡ reach_of self.now }
    {
        self.places.len()
    }

    /// The frame that holds the page of the block, by one look; none if that isn't held. Any number may be
    /// asked for.
    pub fn find(&self, block: u32) -> Option<usize>
        ensures frame { result ≡ frame_of self.now block }
        ensures within { IfSome result (λ at. at < pool_count self.now) }
        ensures held { IfSome result (λ at. page_at self.now at ≡ held_page self.now block) }
        ensures none { IfNone result (held_page self.now block ≡ None) }
    {
        let block = block as usize;
        if block >= self.places.len() {
            return None;
        }
        let place = self.places[block] as usize;
        if place == 0 { None } else { Some(place - 1) }
    }

    /// Whether the page of the block is held, by one look. If so, it's noted that somebody looked at it, so
    /// that its frame isn't among the next to be taken. Any number may be asked for.
    pub fn note_use(&mut self, block: u32) -> bool
        ensures held { result ≡ is_some (frame_of self.old block) }
        ensures pages { HasSamePages self.old self.new }
        ensures changes { HasSameChanges self.old self.new }
    {
        match self.find(block) {
            Some(at) => {
                self.looked[at] = true;
                true
            }
            None => false,
        }
    }

    /// The page in a frame that is in use.
    #[tactic(auto, unfolding(crate::specs::Pools::pool_count, crate::specs::Pools::page_at))]
    pub fn page(&self, at: usize) -> &Page
        requires { at < pool_count self.now }
        ensures { page_at self.now at ≡ Some result.now }
    {
        &self.pages[at]
    }

    /// Takes a frame, the next unused one or one whose page is clean, for a copy of a page whose block isn't
    /// held, which is clean then. What the frame held is held no more; all else is held as before.
    #[tactic(auto, unfolding(crate::specs::Pools::pool_count, crate::specs::Pools::most_of))]
    pub fn put(&mut self, at: usize, page: &Page)
        requires taken { CanBeTaken self.old at }
        requires reach { page.now.block < reach_of self.old }
        requires absent { frame_of self.old page.now.block ≡ None }
        ensures { IsPut self.old self.new at page.now }
    {
        if at < self.pages.len() {
            self.replace(at, page);
        } else {
            self.add(page);
        }
    }

    // Copies the page into a frame in use.
    #[tactic(auto, unfolding(crate::specs::Pools::pool_count, crate::specs::Pools::reach_of, crate::specs::Pools::most_of))]
    fn replace(&mut self, at: usize, page: &Page)
        requires taken { CanBeTaken self.old at }
        requires used { at < pool_count self.old }
        requires reach { page.now.block < reach_of self.old }
        requires absent { frame_of self.old page.now.block ≡ None }
        ensures { IsPut self.old self.new at page.now }
    {
        let block = page.block as usize;
        let old = self.pages[at].block as usize;
        self.places[old] = 0;
        self.places[block] = at as u32 + 1;
        self.looked[at] = false;
        page.copy_to(&mut self.pages[at]);
    }

    // Copies the page into the next unused frame.
    #[tactic(auto, unfolding(crate::specs::Pools::pool_count, crate::specs::Pools::reach_of, crate::specs::Pools::most_of))]
    fn add(&mut self, page: &Page)
        requires room { pool_count self.old < most_of self.old }
        requires reach { page.now.block < reach_of self.old }
        requires absent { frame_of self.old page.now.block ≡ None }
        ensures { IsPut self.old self.new (pool_count self.old) page.now }
    {
        self.places[page.block as usize] = self.pages.len() as u32 + 1;
        self.pages.push_reserved(page.copy());
        self.acts.push_reserved(0);
        self.looked.push_reserved(false);
    }
}

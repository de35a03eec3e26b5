//! A world of which a test sees the answers alone.

use device::{CrashImage, MemDevice};
use index_model::{DeadRows, Fault};
use page_action::PageStore;
use page_codec::Page;
use page_store::Store;
use schedule::Event;
use session_calls::Answer;
use std::alloc::Global;
use world::World;

/// A world of which a test sees the answers alone, as of a [`PlainStore`](crate::plain_store::PlainStore).
pub trait PlainWorld {
    fn one(&mut self, event: Event) -> Answer;

    fn run(&mut self, events: &[Event], answers: &mut Vec<Answer>) -> Result<(), Fault>;

    /// A step of a session's call, with the checkpoint that may go before it.
    fn take_step(&mut self, session: u32, least_room: u32) -> Answer;

    fn abandon(&mut self, session: u32) -> Answer;

    fn page(&mut self, block: u32) -> Result<Page, Fault>;

    fn room(&self) -> u32;

    fn used(&self) -> u32;

    fn actions(&self) -> u64;

    fn sessions(&self) -> u32;

    fn is_running(&self, session: u32) -> bool;
}

impl<S: PageStore, T: DeadRows + Drop> PlainWorld for World<S, T> {
    fn one(&mut self, event: Event) -> Answer {
        World::one(self, event)
    }

    fn run(&mut self, events: &[Event], answers: &mut Vec<Answer>) -> Result<(), Fault> {
        World::run(self, events, answers)
    }

    fn take_step(&mut self, session: u32, least_room: u32) -> Answer {
        World::take_step(self, session, least_room)
    }

    fn abandon(&mut self, session: u32) -> Answer {
        World::abandon(self, session)
    }

    fn page(&mut self, block: u32) -> Result<Page, Fault> {
        World::page(self, block)
    }

    fn room(&self) -> u32 {
        World::room(self)
    }

    fn used(&self) -> u32 {
        World::used(self)
    }

    fn actions(&self) -> u64 {
        World::actions(self)
    }

    fn sessions(&self) -> u32 {
        World::sessions(self)
    }

    fn is_running(&self, session: u32) -> bool {
        World::is_running(self, session)
    }
}

/// A world over a device in memory, of which a test sees the answers alone.
pub trait DeviceWorld: PlainWorld {
    /// What a crash leaves.
    fn left_by(&self, alloc: Global, image: CrashImage) -> Result<MemDevice, Fault>;

    /// The `n`th device call from now on fails; none for 0.
    fn fail_at(&mut self, n: u64);

    /// From the `n`th device call from now on each fails; none for 0.
    fn stop_at(&mut self, n: u64);
}

impl<T: DeadRows + Drop> DeviceWorld for World<Store<MemDevice>, T> {
    fn left_by(&self, alloc: Global, image: CrashImage) -> Result<MemDevice, Fault> {
        self.crash(alloc, image)
    }

    fn fail_at(&mut self, n: u64) {
        World::fail_at(self, n);
    }

    fn stop_at(&mut self, n: u64) {
        World::stop_at(self, n);
    }
}

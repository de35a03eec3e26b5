//! Indexes that a client's threads share. What that promises ends here: a test looks at the answers alone.

use crate::indexes::{InMemory, all_entries};
use device::MemDevice;
use index_model::{Entry, Fault};
use page_store::Store;
use shared_index::{Client, ServedIndex, serve};
use std::alloc::Global;
use std::sync::Wait;
use std::test::Fail;
use std::thread::Threads;
use tests_support::dead::Blocks;

/// What the threads of a client answered, the world that they shared, and whether no session had a call at
/// the end.
pub type Served<O> = (Vec<O>, InMemory, bool);

/// So many sessions of a client share a world.
pub fn served<C: Client<Store<MemDevice>, Blocks> + Sync, R: Threads + Wait + Sync + AllocGlobal>(
    rt: &R,
    world: InMemory,
    sessions: u32,
    client: &C,
) -> Result<Served<C::Out>, Fault> {
    match serve(rt, rt.alloc(), world, sessions, client) {
        Ok(done) => {
            let ServedIndex {
                world,
                start: _,
                idle,
                outs,
            } = done;
            Ok((outs, world, idle))
        }
        Err(not_served) => Err(not_served.fault),
    }
}

/// All entries of a world, which is left then.
pub fn entries_left(alloc: Global, world: InMemory) -> Result<Vec<Entry>, Fail> {
    let mut world = world;
    all_entries(alloc, &mut world)
}

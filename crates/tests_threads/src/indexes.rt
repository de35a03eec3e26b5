//! Indexes on devices in memory, with their sets of dead rows.

use crate::plain::ALL;
use device::MemDevice;
use index_model::{Entry, Fault, Limits};
use page_action::PageStore;
use page_codec::needed_len;
use page_store::Store;
use schedule::Event;
use session_calls::Answer;
use std::alloc::{AllocError, Global};
use std::test::Fail;
use tests_support::dead::Blocks;
use tests_support::plain::{create, device, one, open_world};
use tests_support::plain_world::PlainWorld;
use world::World;

/// An index on a device in memory.
pub type InMemory = World<Store<MemDevice>, Blocks>;

/// How many sets of dead rows there are: the first has those of block 1, the next those of block 2, and the
/// last those of block 1 again.
pub const SETS: u32 = 3;

fn sets(alloc: Global) -> Result<Vec<Blocks>, AllocError> {
    let mut sets = Vec::new(alloc);
    for place in 0..SETS {
        let block = if place == 1 { 2 } else { 1 };
        sets.push(Blocks {
            from: block,
            to: block,
        })?;
    }
    Ok(sets)
}

/// The world of the index on a device, with so many sessions.
pub fn opened(alloc: Global, device: MemDevice, sessions: u32) -> Result<InMemory, Fail> {
    let sets = sets(alloc)?;
    match open_world(alloc, device, 64, sessions, sets) {
        Ok(world) => Ok(world),
        Err(not_opened) => Err(Fail::from(not_opened.fault)),
    }
}

/// A new index whose world has no sets.
pub fn without_sets(alloc: Global, limits: &Limits, sessions: u32) -> Result<InMemory, Fail> {
    match open_world(alloc, fresh(alloc, limits)?, 64, sessions, Vec::new(alloc)) {
        Ok(world) => Ok(world),
        Err(not_opened) => Err(Fail::from(not_opened.fault)),
    }
}

/// A device with an empty index.
fn fresh(alloc: Global, limits: &Limits) -> Result<MemDevice, Fault> {
    let mut zeros = device(alloc, needed_len(limits))?;
    create(&mut zeros, limits)?;
    Ok(zeros)
}

/// A new one.
pub fn made(alloc: Global, limits: &Limits, sessions: u32) -> Result<InMemory, Fail> {
    opened(alloc, fresh(alloc, limits)?, sessions)
}

/// How many calls of its device a world has made.
pub fn device_calls(world: InMemory) -> u64 {
    world.into_store().into_device().calls()
}

/// How many calls of its device a new one has made.
pub fn fresh_calls(alloc: Global, limits: &Limits, sessions: u32) -> Result<u64, Fail> {
    Ok(device_calls(made(alloc, limits, sessions)?))
}

/// All entries, by a scan of session 0.
pub fn all_entries<W: PlainWorld>(alloc: Global, world: &mut W) -> Result<Vec<Entry>, Fail> {
    let mut entries = Vec::new(alloc);
    if let Answer::Refused(fault) = one(world, Event::Scan(0, ALL)) {
        return Err(Fail::from(fault));
    }
    for _ in 0..1_000_000 {
        match one(world, Event::Next(0)) {
            Answer::Gave(Some(entry)) => entries.push(entry)?,
            Answer::Gave(None) => match one(world, Event::Step(0)) {
                Answer::Done => return Ok(entries),
                Answer::Refused(fault) => return Err(Fail::from(fault)),
                _ => {}
            },
            Answer::Refused(fault) => return Err(Fail::from(fault)),
            _ => {}
        }
    }
    Ok(entries)
}

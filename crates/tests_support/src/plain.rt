//! Calls without their contracts. A test looks at the answers alone, and what a call promises would be
//! carried, call by call, to the end of the test that makes it.

use crate::plain_index::PlainIndex;
use crate::plain_store::PlainStore;
use crate::plain_world::{DeviceWorld, PlainWorld};
use access_method::{Index, Inserted, ScanToken};
use device::{CrashImage, Device, MemDevice};
use index_model::{DeadRows, Entry, Fault, Limits, Range, VacuumStats};
use page_action::PageStore;
use page_codec::Page;
use page_store::Store;
use recovery::Refused;
use schedule::Event;
use session_calls::Answer;
use std::alloc::Global;
use world::{World, WorldNotOpened};

/// More steps than any call of a test makes.
const LIMIT: u32 = 1_000_000;

/// A device of so many zeros.
pub fn device(alloc: Global, len: u64) -> Result<MemDevice, Fault> {
    MemDevice::new(alloc, len)
}

/// What a crash leaves of a device.
pub fn left(alloc: Global, device: &MemDevice, image: CrashImage) -> Result<MemDevice, Fault> {
    device.crash(alloc, image)
}

/// Reads from there on; nothing if that is after the end.
pub fn read(device: &mut MemDevice, at: u64, bytes: &mut [u8]) -> Result<(), Fault> {
    let len = bytes.len() as u64;
    if device.len() < len || at > device.len() - len {
        return Err(Fault::DeviceTooSmall);
    }
    device.read_at(at, bytes)
}

/// Writes there; nothing if that is after the end.
pub fn write(device: &mut MemDevice, at: u64, bytes: &[u8]) -> Result<(), Fault> {
    let len = bytes.len() as u64;
    if device.len() < len || at > device.len() - len {
        return Err(Fault::DeviceTooSmall);
    }
    device.write_at(at, bytes)
}

pub fn create(device: &mut MemDevice, limits: &Limits) -> Result<(), Fault> {
    recovery::create(device, limits)
}

pub fn open<D: Device>(alloc: Global, device: D, frames: u32) -> Result<Store<D>, Refused<D>> {
    recovery::open(alloc, device, frames)
}

/// What a crash leaves of a store.
pub fn left_of(
    alloc: Global,
    store: &Store<MemDevice>,
    image: CrashImage,
) -> Result<MemDevice, Fault> {
    store.crash(alloc, image)
}

/// Changes these pages at once; `PageDamaged` if a store would not take them.
pub fn act<S: PlainStore>(store: &mut S, pages: &[Page]) -> Result<u64, Fault> {
    store.act(pages)
}

pub fn page<S: PlainStore>(store: &mut S, block: u32) -> Result<Page, Fault> {
    store.page(block)
}

pub fn force<S: PlainStore>(store: &mut S) -> Result<u64, Fault> {
    store.force()
}

pub fn flush<S: PlainStore>(store: &mut S) -> Result<Option<u32>, Fault> {
    store.flush()
}

pub fn checkpoint<S: PlainStore>(store: &mut S) -> Result<u64, Fault> {
    store.checkpoint()
}

/// A world of so many sessions over a store.
pub fn world<S: PageStore + Drop, T: DeadRows + Drop>(
    alloc: Global,
    store: S,
    sessions: u32,
    sets: Vec<T>,
) -> Result<World<S, T>, Fault> {
    match World::new(alloc, store, sessions, sets) {
        Ok(world) => Ok(world),
        Err(not_made) => Err(not_made.fault),
    }
}

/// The world of the index that a device holds.
pub fn open_world<D: Device, T: DeadRows + Drop>(
    alloc: Global,
    device: D,
    frames: u32,
    sessions: u32,
    sets: Vec<T>,
) -> Result<World<Store<D>, T>, WorldNotOpened<D, T>> {
    World::open(alloc, device, frames, sessions, sets)
}

pub fn one<W: PlainWorld>(world: &mut W, event: Event) -> Answer {
    world.one(event)
}

/// Room for so many images: if there is less, a checkpoint.
fn make_room<W: PlainWorld>(world: &mut W, least_room: u32) -> Result<(), Fault> {
    if world.room() >= least_room {
        return Ok(());
    }
    match world.one(Event::Checkpoint) {
        Answer::Refused(fault) => Err(fault),
        _ => Ok(()),
    }
}

/// A step of a session's call, for which there is room.
fn step<W: PlainWorld>(world: &mut W, session: u32, least_room: u32) -> Result<Answer, Fault> {
    make_room(world, least_room)?;
    Ok(world.one(Event::Step(session)))
}

/// A step of a session's call, with the checkpoint that may go before it.
pub fn take_step<W: PlainWorld>(world: &mut W, session: u32, least_room: u32) -> Answer {
    world.take_step(session, least_room)
}

/// Steps of a session's call until one doesn't answer `Going`, and that answer.
pub fn finish<W: PlainWorld>(
    world: &mut W,
    session: u32,
    least_room: u32,
) -> Result<Answer, Fault> {
    for _ in 0..LIMIT {
        match step(world, session, least_room)? {
            Answer::Going => {}
            answer => return Ok(answer),
        }
    }
    Err(Fault::PageDamaged(0))
}

/// An insert, stepped until a step doesn't answer `Going`, and that answer.
pub fn put<W: PlainWorld>(
    world: &mut W,
    session: u32,
    entry: Entry,
    least_room: u32,
) -> Result<Answer, Fault> {
    match world.one(Event::Insert(session, entry)) {
        Answer::Refused(fault) => Err(fault),
        _ => finish(world, session, least_room),
    }
}

/// The page of a block of a world.
pub fn page_in<W: PlainWorld>(world: &mut W, block: u32) -> Result<Page, Fault> {
    world.page(block)
}

/// What a crash leaves of a world.
pub fn left_by<W: DeviceWorld>(
    alloc: Global,
    world: &W,
    image: CrashImage,
) -> Result<MemDevice, Fault> {
    world.left_by(alloc, image)
}

/// The `n`th device call from now on fails; none for 0.
pub fn fail_at<W: DeviceWorld>(world: &mut W, n: u64) {
    world.fail_at(n);
}

/// From the `n`th device call from now on each fails; none for 0.
pub fn stop_at<W: DeviceWorld>(world: &mut W, n: u64) {
    world.stop_at(n);
}

/// The index of one user that a device holds.
pub fn open_index<D: Device + Drop>(
    alloc: Global,
    device: D,
    frames: u32,
) -> Result<Index<Store<D>>, Fault> {
    match Index::open(alloc, device, frames) {
        Ok(index) => Ok(index),
        Err(refused) => Err(refused.fault),
    }
}

/// An index over a store.
pub fn index_over<S: PageStore + Drop>(alloc: Global, store: S) -> Result<Index<S>, Fault> {
    match Index::new(alloc, store) {
        Ok(index) => Ok(index),
        Err(not_made) => Err(not_made.fault),
    }
}

pub fn insert<I: PlainIndex>(index: &mut I, entry: Entry) -> Result<Inserted, Fault> {
    index.insert(entry)
}

pub fn commit<I: PlainIndex>(index: &mut I) -> Result<u64, Fault> {
    index.commit()
}

/// A checkpoint of an index.
pub fn checkpoint_of<I: PlainIndex>(index: &mut I) -> Result<u64, Fault> {
    index.checkpoint()
}

pub fn begin_scan<I: PlainIndex>(index: &mut I, range: Range) -> Result<ScanToken, Fault> {
    index.begin_scan(range)
}

pub fn rescan<I: PlainIndex>(index: &mut I, token: ScanToken, range: Range) -> Result<(), Fault> {
    index.rescan(token, range)
}

pub fn next<I: PlainIndex>(index: &mut I, token: ScanToken) -> Result<Option<Entry>, Fault> {
    index.next(token)
}

pub fn end_scan<I: PlainIndex>(index: &mut I, token: ScanToken) -> Result<(), Fault> {
    index.end_scan(token)
}

pub fn bulk_delete<I: PlainIndex, T: DeadRows>(
    index: &mut I,
    dead: &T,
) -> Result<VacuumStats, Fault> {
    index.bulk_delete(dead)
}

pub fn clean_up<I: PlainIndex>(index: &mut I) -> Result<VacuumStats, Fault> {
    index.clean_up()
}

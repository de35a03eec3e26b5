//! Crashes of a world over a device in memory.

use crate::dead::sets_of;
use crate::dice::Dice;
use crate::judge::Judge;
use crate::runs::{Outcome, Run, are_right, ends_right, judge_of};
use crate::tally::Tally;
use amcheck::check_parents_one;
use device::{CrashImage, MemDevice};
use index_model::{Fault, NoProgress};
use page_store::Store;
use std::alloc::{AllocError, Global};
use std::test::Fail;
use tests_support::dead::Blocks;
use tests_support::plain::{fail_at, left, left_by, open_world, stop_at, world};
use tests_support::plain_world::DeviceWorld;
use tests_support::small::made_with;
use world::{World, WorldNotOpened};

/// Pages in memory at once: all, so that who looks at a page makes no device call, and none of those that
/// fail.
pub const FOR_ALL: u32 = 1_024;

/// A world over a device in memory.
pub type OverDevice = World<Store<MemDevice>, Blocks>;

/// How worlds over devices in memory are opened. What is done with one is generic over this: a function that
/// holds one whose type it names takes the prover ten times as long.
pub trait Opens {
    type World: DeviceWorld + Drop;

    type Store: Drop;

    /// Opens the index that the device holds, with so many frames.
    fn opened(run: Run, frames: u32, device: MemDevice) -> Result<Self::World, Fault>;

    /// An opening of which this device call and all later ones fail, or none for 0; the device if it is
    /// refused with `Io`.
    fn opening(
        run: Run,
        frames: u32,
        found: (MemDevice, u64),
    ) -> Result<Result<Self::World, MemDevice>, Fault>;

    /// The store of a world.
    fn store_of(world: Self::World) -> Self::Store;

    /// Whether the verifier finds no damage in a store.
    fn is_sound(alloc: Global, store: &mut Self::Store) -> bool;

    /// A world over a store.
    fn world_on(run: Run, store: Self::Store) -> Result<Self::World, Fault>;

    fn device_of(world: Self::World) -> MemDevice;
}

/// Of worlds as they are.
pub struct OverDevices;

impl Opens for OverDevices {
    type World = OverDevice;

    type Store = Store<MemDevice>;

    fn opened(run: Run, frames: u32, device: MemDevice) -> Result<OverDevice, Fault> {
        opened(run, frames, device)
    }

    fn opening(
        run: Run,
        frames: u32,
        found: (MemDevice, u64),
    ) -> Result<Result<OverDevice, MemDevice>, Fault> {
        opening(run, frames, found)
    }

    fn store_of(world: OverDevice) -> Store<MemDevice> {
        world.into_store()
    }

    fn is_sound(alloc: Global, store: &mut Store<MemDevice>) -> bool {
        check_parents_one(alloc, store, &NoProgress).is_ok()
    }

    fn world_on(run: Run, store: Store<MemDevice>) -> Result<OverDevice, Fault> {
        let sets = sets_of(run.alloc, run.space)?;
        world(run.alloc, store, run.space.sessions, sets)
    }

    fn device_of(world: OverDevice) -> MemDevice {
        world.into_store().into_device()
    }
}

/// Opens the index that the device holds, with so many frames.
pub fn opened(run: Run, frames: u32, device: MemDevice) -> Result<OverDevice, Fault> {
    let sets = sets_of(run.alloc, run.space)?;
    match open_world(run.alloc, device, frames, run.space.sessions, sets) {
        Ok(world) => Ok(world),
        Err(not_opened) => Err(not_opened.fault),
    }
}

/// An empty index on a device in memory, with so many frames.
pub fn on_a_device<O: Opens>(run: Run, frames: u32) -> Result<O::World, Fault> {
    O::opened(run, frames, made_with(run.alloc, &run.limits)?)
}

/// What a crash leaves.
fn image(dice: &mut Dice) -> CrashImage {
    match dice.roll(3) {
        0 => CrashImage::Keep,
        1 => CrashImage::Drop,
        _ => CrashImage::Tear,
    }
}

/// Opens the index after a crash, with so many frames. Half of the times the device stops inside of the first
/// open, which may be refused with `Io`, and crashes again.
pub fn opened_again<O: Opens>(
    run: Run,
    frames: u32,
    world: &O::World,
    dice: &mut Dice,
    tally: &mut Tally,
) -> Result<O::World, Fault> {
    let found = left_by(run.alloc, world, image(dice))?;
    let stops = if dice.roll(2) == 0 {
        u64::from(dice.roll(20)) + 1
    } else {
        0
    };
    let left = left_by_opening::<O>(run, frames, (found, stops), dice, tally)?;
    O::opened(run, frames, left)
}

/// What a crash leaves after an opening of which this device call and all later ones fail, or none for 0.
fn left_by_opening<O: Opens>(
    run: Run,
    frames: u32,
    found: (MemDevice, u64),
    dice: &mut Dice,
    tally: &mut Tally,
) -> Result<MemDevice, Fault> {
    match O::opening(run, frames, found)? {
        Ok(world) => left_by(run.alloc, &world, image(dice)),
        Err(device) => {
            tally.crash_opening();
            left(run.alloc, &device, image(dice))
        }
    }
}

/// An opening of which this device call and all later ones fail, or none for 0; the device if it is refused
/// with `Io`.
fn opening(
    run: Run,
    frames: u32,
    found: (MemDevice, u64),
) -> Result<Result<OverDevice, MemDevice>, Fault> {
    let sets = sets_of(run.alloc, run.space)?;
    let (mut device, stops) = found;
    device.stop_at(stops);
    match open_world(run.alloc, device, frames, run.space.sessions, sets) {
        Ok(world) => Ok(Ok(world)),
        Err(
            WorldNotOpened {
                fault: Fault::Io,
                device,
                ..
            },
        ) => Ok(Err(device)),
        Err(not_opened) => Err(not_opened.fault),
    }
}

/// Makes a later call of the device fail, once or for good.
fn will_fail<W: DeviceWorld>(world: &mut W, judge: &mut Judge, dice: &mut Dice) {
    let calls = u64::from(dice.roll(40)) + 1;
    judge.expects_failures();
    if dice.roll(2) == 0 {
        stop_at(world, calls);
    } else {
        fail_at(world, calls);
    }
}

/// Random events over a device whose calls fail at last: whether all are right.
fn fails_right<W: DeviceWorld>(
    run: Run,
    world: &mut W,
    judge: &mut Judge,
    dice: &mut Dice,
    events: u32,
) -> Result<bool, AllocError> {
    if !are_right(run, world, judge, dice, events)? {
        return Ok(false);
    }
    will_fail(world, judge, dice);
    are_right(run, world, judge, dice, 100)
}

/// Random events, a crash, and what is opened after it, of which the judge hears from then on: whether all is
/// right.
fn crashes_right<O: Opens>(
    run: Run,
    world: &mut O::World,
    judge: &mut Judge,
    dice: &mut Dice,
    tally: &mut Tally,
    events: u32,
) -> Result<bool, Fail> {
    if !fails_right(run, world, judge, dice, events)? {
        return Ok(false);
    }
    *world = opened_again::<O>(run, FOR_ALL, world, dice, tally)?;
    let next = judge_of(run, world)?;
    let is_right = judge.crashes(&next);
    tally.join(judge.tally());
    *judge = next;
    Ok(is_right)
}

/// So many crashes, each after so many events, and the end of the run: whether all is right.
fn runs_right<O: Opens>(
    run: Run,
    world: &mut O::World,
    dice: &mut Dice,
    tally: &mut Tally,
    crashes: u32,
    events: u32,
) -> Result<bool, Fail> {
    let mut judge = judge_of(run, world)?;
    for _ in 0..crashes {
        if !crashes_right::<O>(run, world, &mut judge, dice, tally, events)? {
            return Ok(false);
        }
    }
    let is_right = ends_right(run, world, &mut judge, dice)?;
    tally.join(judge.tally());
    Ok(is_right)
}

// A run over a device with so many crashes, each after so many events.
fn crashed_in<O: Opens>(run: Run, seed: u64, crashes: u32, events: u32) -> Result<Outcome, Fail> {
    let mut dice = Dice::new(seed);
    let mut tally = Tally::default();
    let mut world = on_a_device::<O>(run, FOR_ALL)?;
    let is_right = runs_right::<O>(run, &mut world, &mut dice, &mut tally, crashes, events)?;
    Ok(Outcome { is_right, tally })
}

/// A run over a device with so many crashes, each after so many events.
pub fn crashed(run: Run, seed: u64, crashes: u32, events: u32) -> Result<Outcome, Fail> {
    crashed_in::<OverDevices>(run, seed, crashes, events)
}

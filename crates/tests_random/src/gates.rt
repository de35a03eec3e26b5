//! A force whose last sync fails has written its gate: whether what it forced stands isn't known, and each
//! opening after it is stopped at each of its calls.

use crate::crashes::{FOR_ALL, Opens, on_a_device};
use crate::pages::{contents, copies};
use crate::reopening::{Counted, IMAGES, stopped_at};
use crate::runs::Run;
use device::MemDevice;
use index_model::{Entry, Fault, Key, RowAddr};
use schedule::Event;
use session_calls::Answer;
use std::alloc::AllocError;
use std::test::Fail;
use tests_support::plain::{fail_at, left, one as did, put};
use tests_support::plain_world::PlainWorld;

/// The entries 61 (0,1) to 65 (0,5), from 0 on.
fn entry(place: u8) -> Entry {
    let next = place.saturating_add(1);
    Entry {
        key: Key::new(&[0x60u8.saturating_add(next)]).unwrap_or(Key::EMPTY),
        row: RowAddr::new(0, u16::from(next)).unwrap_or_default(),
    }
}

/// The device on which four inserts were forced, and a fifth one not: the sync of the gate of its force
/// failed, its fourth call.
fn left_open<O: Opens>(run: Run) -> Result<MemDevice, Fail> {
    let mut world = on_a_device::<O>(run, FOR_ALL)?;
    let is_forced = forces_four(&mut world);
    fail_at(&mut world, 4);
    let is_refused = is_refused(&mut world);
    let device = O::device_of(world);
    if is_forced && is_refused {
        Ok(device)
    } else {
        Err(Fail::from(Fault::NoSession))
    }
}

/// Whether four inserts are forced, and a fifth one is made.
fn forces_four<W: PlainWorld>(world: &mut W) -> bool {
    for place in 0..4u8 {
        if put(world, 0, entry(place), 4).is_err() {
            return false;
        }
    }
    matches!(did(world, Event::Force), Answer::Forced(4)) && put(world, 0, entry(4), 4).is_ok()
}

/// Whether a force is refused with `Io`.
fn is_refused<W: PlainWorld>(world: &mut W) -> bool {
    matches!(did(world, Event::Force), Answer::Refused(Fault::Io))
}

/// Whether these are the first four entries, or all five.
fn are_four_or_five(entries: &[Entry]) -> bool {
    let count = entries.len();
    if count != 4 && count != 5 {
        return false;
    }
    let firsts = [entry(0), entry(1), entry(2), entry(3), entry(4)];
    entries.iter().all(|entry| firsts[..count].contains(entry))
}

/// Whether a world has the first four entries or all five.
fn has_four_or_five<W: PlainWorld>(run: Run, world: &mut W) -> Result<bool, AllocError> {
    let pages = copies(run.alloc, world)?;
    Ok(are_four_or_five(&contents(run.alloc, &pages)?))
}

/// Whether what a crash has left has the first four entries or all five, and the verifier finds no damage.
/// Without memory for the pages it isn't right.
fn is_right<O: Opens>(run: Run, found: MemDevice) -> Result<bool, Fail> {
    let mut world = O::opened(run, FOR_ALL, found)?;
    let has_entries = has_four_or_five(run, &mut world).unwrap_or(false);
    let mut store = O::store_of(world);
    Ok(has_entries && O::is_sound(run.alloc, &mut store))
}

/// Whether each image of a crash of this device is right.
fn are_right<O: Opens>(run: Run, device: &MemDevice, counted: &mut Counted) -> Result<bool, Fail> {
    for image in IMAGES {
        counted.opened = counted.opened.saturating_add(1);
        if !is_right::<O>(run, left(run.alloc, device, image)?)? {
            return Ok(false);
        }
    }
    Ok(true)
}

/// Whether all is right if the opening is stopped at this call: it is refused, and each image of the device
/// that it gives back is right. None if it makes fewer calls.
pub fn stops_right<O: Opens>(
    run: Run,
    call: u64,
    counted: &mut Counted,
) -> Result<Option<bool>, Fail> {
    let Some(device) = stopped_at::<O>(run, left_open::<O>(run)?, call)? else {
        return Ok(None);
    };
    counted.stopped = counted.stopped.saturating_add(1);
    Ok(Some(are_right::<O>(run, &device, counted)?))
}

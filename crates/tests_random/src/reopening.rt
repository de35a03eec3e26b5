//! What is opened after a script whose device calls failed.

use crate::crashes::{FOR_ALL, Opens};
use crate::dice::Dice;
use crate::judge::Judge;
use crate::runs::{Run, is_right, judge_of, runs_alone};
use device::{CrashImage, MemDevice};
use index_model::Range;
use schedule::Event;
use std::alloc::AllocError;
use std::test::Fail;
use tests_support::plain::{left, left_by};
use tests_support::plain_world::PlainWorld;

/// What is counted of the runs of a script.
#[derive(Clone, Copy, Debug, Default)]
pub struct Counted {
    /// Runs in which a call failed.
    pub failed: u32,
    /// Images of a crash that were opened.
    pub opened: u32,
    /// Openings that were stopped inside.
    pub stopped: u32,
}

pub const IMAGES: [CrashImage; 3] = [CrashImage::Keep, CrashImage::Drop, CrashImage::Tear];

/// Each image in turn.
fn image_at(number: u64) -> CrashImage {
    match number % 3 {
        0 => CrashImage::Keep,
        1 => CrashImage::Drop,
        _ => CrashImage::Tear,
    }
}

/// Opens each image of a crash. The index of one works on, another one after each n.
pub fn opens_right<O: Opens>(
    run: Run,
    world: &O::World,
    judge: &mut Judge,
    n: u64,
    counted: &mut Counted,
) -> Result<bool, Fail> {
    for place in 0..3u64 {
        let found = left_by(run.alloc, world, image_at(place))?;
        if !is_right_after::<O>(run, found, judge, place == n % 3, counted)? {
            return Ok(false);
        }
    }
    Ok(true)
}

/// Whether an insert, a bulk delete, a cleanup and a scan go right, each alone, the scan gives exactly the
/// contents, and a force goes right.
fn works_on<W: PlainWorld>(
    run: Run,
    world: &mut W,
    judge: &mut Judge,
    dice: &mut Dice,
) -> Result<bool, AllocError> {
    let all = Range {
        from: None,
        below: None,
    };
    let insert = Event::Insert(0, dice.entry(run.space));
    for event in [
        insert,
        Event::Bulk(0, 1),
        Event::Cleanup(0),
        Event::Scan(0, all),
    ] {
        if !runs_alone(run, world, judge, event)? {
            return Ok(false);
        }
    }
    if !judge.has_given_all() {
        return Ok(false);
    }
    is_right(run, world, judge, Event::Force)
}

/// The same with random entries of this seed; the device call that fails next is none of them.
fn works_on_from<W: PlainWorld>(run: Run, world: &mut W, judge: &mut Judge, seed: u32) -> bool {
    let mut dice = Dice::new(seed.into());
    works_on(run, world, judge, &mut dice).unwrap_or(false)
}

/// What a crash leaves of all that was done by an index in a store that works on; None if an answer isn't
/// right.
fn worked_on<O: Opens>(
    run: Run,
    store: O::Store,
    judge: &mut Judge,
    counted: &Counted,
) -> Result<Option<MemDevice>, Fail> {
    let mut world = O::world_on(run, store)?;
    let works = works_on_from(run, &mut world, judge, counted.opened);
    let left = left_by(run.alloc, &world, CrashImage::Drop)?;
    Ok(if works { Some(left) } else { None })
}

/// Whether the entries of what was opened are those after some prefix of the actions that holds every forced
/// one, and the verifier finds no damage.
fn ends_sound<O: Opens>(
    run: Run,
    mut world: O::World,
    judge: &mut Judge,
) -> Result<bool, AllocError> {
    let last = judge_of(run, &mut world)?;
    let mut store = O::store_of(world);
    Ok(judge.crashes(&last) && O::is_sound(run.alloc, &mut store))
}

/// Whether the index in a store works on, up to another crash, which leaves all that was done.
fn goes_on<O: Opens>(
    run: Run,
    store: O::Store,
    judge: &mut Judge,
    counted: &Counted,
) -> Result<bool, Fail> {
    let Some(device) = worked_on::<O>(run, store, judge, counted)? else {
        return Ok(false);
    };
    Ok(ends_sound::<O>(run, O::opened(run, FOR_ALL, device)?, judge)?)
}

/// Opens what a crash left: whether its entries are those after some prefix of the actions that holds every
/// forced one, the verifier finds no damage, and, if that is asked, the index works on.
fn is_right_after<O: Opens>(
    run: Run,
    found: MemDevice,
    judge: &mut Judge,
    works: bool,
    counted: &mut Counted,
) -> Result<bool, Fail> {
    counted.opened = counted.opened.saturating_add(1);
    let mut world = O::opened(run, FOR_ALL, found)?;
    let mut next = judge_of(run, &mut world)?;
    opens_as_judged::<O>(run, O::store_of(world), judge, &mut next, works, counted)
}

/// The same of the store that was opened, whose entries the second judge has begun with.
fn opens_as_judged<O: Opens>(
    run: Run,
    mut store: O::Store,
    judge: &mut Judge,
    next: &mut Judge,
    works: bool,
    counted: &Counted,
) -> Result<bool, Fail> {
    let is_right = judge.crashes(next) && O::is_sound(run.alloc, &mut store);
    if !is_right || !works {
        return Ok(is_right);
    }
    goes_on::<O>(run, store, next, counted)
}

/// The device that an opening gives back of which this call and each later one fails; None if it makes fewer
/// calls.
pub fn stopped_at<O: Opens>(
    run: Run,
    found: MemDevice,
    call: u64,
) -> Result<Option<MemDevice>, Fail> {
    match O::opening(run, FOR_ALL, (found, call))? {
        Ok(_) => Ok(None),
        Err(device) => Ok(Some(device)),
    }
}

/// Stops an opening at each of its calls, and opens what a crash leaves then. After n it is the opening of
/// image n mod 3, and after each stop another image.
pub fn stops_opening<O: Opens>(
    run: Run,
    world: &O::World,
    judge: &mut Judge,
    n: u64,
    counted: &mut Counted,
) -> Result<bool, Fail> {
    for call in 1..1_000u64 {
        let found = left_by(run.alloc, world, image_at(n))?;
        let Some(device) = stopped_at::<O>(run, found, call)? else {
            break;
        };
        counted.stopped = counted.stopped.saturating_add(1);
        let again = left(run.alloc, &device, image_at(n.wrapping_add(call)))?;
        if !is_right_after::<O>(run, again, judge, true, counted)? {
            return Ok(false);
        }
    }
    Ok(true)
}

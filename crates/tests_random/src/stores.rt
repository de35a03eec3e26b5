//! A store of more pages than frames, whose device fails and crashes.

use crate::dice::Dice;
use crate::pages::is_same;
use crate::past::Past;
use device::{CrashImage, MemDevice};
use index_model::{Fault, Limits};
use page_action::{PageStore, find_misplaced};
use page_codec::Page;
use page_store::Store;
use recovery::Refused;
use std::alloc::{AllocError, Global};
use std::test::Fail;
use tests_support::plain::{act, checkpoint, flush, force, left, left_of, open, page};
use tests_support::small::{made_with, marked};

/// As few as a store may have, and four times as many pages.
const FRAMES: u32 = 16;

const LIMITS: Limits = Limits {
    items: 4,
    pages: 64,
    log_bytes: 131_072,
    unique: false,
};

const IMAGES: [CrashImage; 3] = [CrashImage::Drop, CrashImage::Keep, CrashImage::Tear];

/// How often the runs of a store came to what they are made for.
#[derive(Clone, Copy, Debug, Default)]
pub struct StoreTally {
    /// Acts.
    pub acts: u32,
    /// Calls that ask for no force and make acts durable: they write a changed page, to make room in memory.
    pub evicting: u32,
    /// Pages written by a flush.
    pub flushed: u32,
    /// Checkpoints.
    pub checkpoints: u32,
    /// Calls refused with `Io`, each since a device call failed inside of it.
    pub io: u32,
    /// Of these, those that leave the log able to go on.
    pub outlived: u32,
    /// Calls refused with `Stopped`.
    pub stopped: u32,
    /// Calls refused with `LogFull`.
    pub log_full: u32,
    /// Images of crashes.
    pub images: u32,
    /// Of these, those that lack acts which were not durable.
    pub losing: u32,
    /// Of these, those that have acts which were not known to be durable.
    pub more: u32,
    /// Of these, those whose device stops and crashes again inside of the open.
    pub opening: u32,
}

fn count(number: &mut u32) {
    *number = number.saturating_add(1);
}

/// A store, and what its pages have been since it was opened.
#[derive(Drop)]
struct Watched {
    alloc: Global,
    store: Store<MemDevice>,
    past: Past,
    /// Whether a device call may fail now.
    may_fail: bool,
    /// Whether the log had failed before the call.
    was_stopped: bool,
    /// Whether an act was refused for want of room in the log, and no checkpoint was made since.
    is_full: bool,
}

/// One to four leaves of this number at blocks in use, or the first at the next unused one.
fn leaves(alloc: Global, dice: &mut Dice, used: u32, number: u32) -> Result<Vec<Page>, AllocError> {
    let mut pages = Vec::new(alloc);
    if dice.roll(2) == 0 && used < LIMITS.pages {
        pages.push(marked(used, number))?;
    }
    for _ in 0..dice.roll(3) + 1 {
        pages.push(marked(dice.pick(used).max(1), number))?;
    }
    Ok(pages)
}

/// All pages of a store.
fn pages_of(alloc: Global, store: &mut Store<MemDevice>) -> Result<Vec<Page>, Fault> {
    let mut pages = Vec::new(alloc);
    for block in 0..store.used() {
        let page = page(store, block)?;
        if pages.push(page).is_err() {
            return Err(Fault::NoMemory);
        }
    }
    Ok(pages)
}

/// What another crash leaves after an opening. Half of the times the device stops inside of it.
fn left_by_opening(
    alloc: Global,
    found: MemDevice,
    dice: &mut Dice,
    tally: &mut StoreTally,
) -> Result<MemDevice, Fault> {
    let mut device = found;
    if dice.roll(2) == 0 {
        device.stop_at(u64::from(dice.roll(12)) + 1);
    }
    match open(alloc, device, FRAMES) {
        Ok(store) => left_of(alloc, &store, image(dice)),
        Err(
            Refused {
                fault: Fault::Io,
                device,
            },
        ) => {
            count(&mut tally.opening);
            left(alloc, &device, image(dice))
        }
        Err(refused) => Err(refused.fault),
    }
}

/// Opens what a crash has left, after an opening and another crash.
fn opened(
    alloc: Global,
    found: MemDevice,
    dice: &mut Dice,
    tally: &mut StoreTally,
) -> Result<Store<MemDevice>, Fault> {
    let again = left_by_opening(alloc, found, dice, tally)?;
    match open(alloc, again, FRAMES) {
        Ok(store) => Ok(store),
        Err(refused) => Err(refused.fault),
    }
}

/// What a crash leaves.
fn image(dice: &mut Dice) -> CrashImage {
    match dice.roll(3) {
        0 => CrashImage::Keep,
        1 => CrashImage::Drop,
        _ => CrashImage::Tear,
    }
}

impl Watched {
    fn new(alloc: Global, store: Store<MemDevice>) -> Result<Watched, Fault> {
        let mut store = store;
        let start = pages_of(alloc, &mut store)?;
        let Ok(past) = Past::new(alloc, start) else {
            return Err(Fault::NoMemory);
        };
        Ok(Watched {
            alloc,
            store,
            past,
            may_fail: false,
            was_stopped: false,
            is_full: false,
        })
    }

    /// Whether a call of the store may be refused so; LogFull, which an act alone is, where the log has no
    /// room for it.
    fn may_refuse(&self, fault: Fault) -> bool {
        match fault {
            Fault::Io => self.may_fail && !self.was_stopped,
            Fault::Stopped => self.was_stopped,
            _ => false,
        }
    }

    /// An act of some pages: whether it is right.
    fn acts(&mut self, pages: Vec<Page>, tally: &mut StoreTally) -> Result<bool, AllocError> {
        let used = self.store.used();
        let format = self.store.format();
        if pages.is_empty() || pages.len() > 4 || find_misplaced(&pages, used, format).is_some() {
            return Ok(true);
        }
        match act(&mut self.store, &pages) {
            Ok(number) => {
                count(&mut tally.acts);
                self.past.adds(pages)?;
                Ok(number == self.past.acts() as u64)
            }
            Err(Fault::LogFull) => {
                count(&mut tally.log_full);
                self.is_full = true;
                Ok((self.store.room() as usize) < pages.len())
            }
            Err(fault) => Ok(self.hears(fault, tally)),
        }
    }

    /// Counts a refusal: whether it is right.
    fn hears(&mut self, fault: Fault, tally: &mut StoreTally) -> bool {
        match fault {
            Fault::Io => {
                count(&mut tally.io);
                if !self.store.is_stopped() {
                    count(&mut tally.outlived);
                }
            }
            Fault::Stopped => count(&mut tally.stopped),
            _ => {}
        }
        self.may_refuse(fault)
    }

    /// Whether the page of a block is as it was acted last.
    fn reads(&mut self, block: u32, tally: &mut StoreTally) -> bool {
        match page(&mut self.store, block) {
            Ok(page) => match self.past.page(block) {
                Some(there) => is_same(&page, there),
                None => false,
            },
            Err(Fault::PageDamaged(_)) => block >= self.store.used(),
            Err(fault) => self.hears(fault, tally),
        }
    }

    fn forces(&mut self, tally: &mut StoreTally) -> bool {
        match force(&mut self.store) {
            Ok(acts) => acts == self.past.acts() as u64 && self.store.durable() == acts,
            Err(fault) => self.hears(fault, tally) && self.store.is_stopped(),
        }
    }

    fn flushes(&mut self, tally: &mut StoreTally) -> bool {
        match flush(&mut self.store) {
            Ok(Some(block)) => {
                count(&mut tally.flushed);
                block < self.store.used()
            }
            Ok(None) => true,
            Err(fault) => self.hears(fault, tally),
        }
    }

    fn checkpoints(&mut self, tally: &mut StoreTally) -> bool {
        match checkpoint(&mut self.store) {
            Ok(acts) => {
                count(&mut tally.checkpoints);
                self.is_full = false;
                acts == self.past.acts() as u64
                    && self.store.durable() == acts
                    && self.store.room() == 31
            }
            Err(fault) => self.hears(fault, tally),
        }
    }

    /// A random call of the store: whether it is right.
    fn calls(
        &mut self,
        dice: &mut Dice,
        number: u32,
        tally: &mut StoreTally,
    ) -> Result<bool, AllocError> {
        let used = self.store.used();
        if self.is_full && dice.roll(2) == 0 {
            return Ok(self.checkpoints(tally));
        }
        match dice.roll(60) {
            0..36 => {
                let before = self.store.durable();
                let pages = leaves(self.alloc, dice, used, number)?;
                let is_right = self.acts(pages, tally)?;
                self.counts(before, tally);
                Ok(is_right)
            }
            36..52 => {
                let before = self.store.durable();
                let is_right = self.reads(dice.pick(used.saturating_add(1)), tally);
                self.counts(before, tally);
                Ok(is_right)
            }
            52..54 => Ok(self.forces(tally)),
            54..57 => Ok(self.flushes(tally)),
            _ => Ok(self.checkpoints(tally)),
        }
    }

    /// Counts a call before which so many acts were durable, if it has made some durable.
    fn counts(&self, before: u64, tally: &mut StoreTally) {
        if before < self.store.durable() {
            count(&mut tally.evicting);
        }
    }

    /// A random call, inside of which a device call may fail, once or with all after it: whether it is right.
    fn calls_and_fails(
        &mut self,
        dice: &mut Dice,
        number: u32,
        tally: &mut StoreTally,
    ) -> Result<bool, AllocError> {
        let nth = u64::from(dice.roll(8)) + 1;
        let fate = dice.roll(24);
        self.was_stopped = self.store.is_stopped();
        self.may_fail = fate < 3;
        match fate {
            0 => self.store.stop_at(nth),
            1 | 2 => self.store.fail_at(nth),
            _ => {}
        }
        let is_right = self.calls(dice, number, tally)?;
        self.store.fail_at(0);
        self.store.stop_at(0);
        Ok(is_right)
    }

    /// Random calls, of which few are made once the log has failed: whether all are right.
    fn runs(
        &mut self,
        dice: &mut Dice,
        calls: u32,
        tally: &mut StoreTally,
    ) -> Result<bool, AllocError> {
        for number in 0..calls {
            if !self.calls_and_fails(dice, number, tally)? {
                return Ok(false);
            }
            if self.store.is_stopped() && dice.roll(4) == 0 {
                break;
            }
        }
        Ok(true)
    }

    /// What is opened again on what a crash leaves; None where it hasn't the pages after some prefix of the
    /// acts that holds every durable one.
    fn crashes(
        &self,
        image: CrashImage,
        dice: &mut Dice,
        tally: &mut StoreTally,
    ) -> Result<Option<Watched>, Fail> {
        let device = left_of(self.alloc, &self.store, image)?;
        let again = Watched::new(self.alloc, opened(self.alloc, device, dice, tally)?)?;
        count(&mut tally.images);
        let is_right = self.leads_to(&again, tally)?;
        Ok(if is_right { Some(again) } else { None })
    }

    /// Whether a crash with each image but the one at this place leaves what is right.
    fn crash_right(
        &self,
        next: usize,
        dice: &mut Dice,
        tally: &mut StoreTally,
    ) -> Result<bool, Fail> {
        for (at, image) in IMAGES.iter().enumerate() {
            if at != next && self.crashes(*image, dice, tally)?.is_none() {
                return Ok(false);
            }
        }
        Ok(true)
    }

    /// Whether the other began with the pages after some prefix of the acts that holds every durable one.
    fn leads_to(&self, again: &Watched, tally: &mut StoreTally) -> Result<bool, AllocError> {
        let durable = self.store.durable() as usize;
        let Some(part) = self.past.part_of(again.past.start(), durable)? else {
            return Ok(false);
        };
        if part < self.past.acts() {
            count(&mut tally.losing);
        }
        if part > durable {
            count(&mut tally.more);
        }
        Ok(true)
    }
}

/// Random calls and three crashes: what is opened again after one of them, or None where something isn't
/// right.
fn next_of(
    watched: &mut Watched,
    dice: &mut Dice,
    calls: u32,
    tally: &mut StoreTally,
) -> Result<Option<Watched>, Fail> {
    if !watched.runs(dice, calls, tally)? {
        return Ok(None);
    }
    let next = dice.roll(3) as usize;
    if !watched.crash_right(next, dice, tally)? {
        return Ok(None);
    }
    watched.crashes(IMAGES[next], dice, tally)
}

/// A store over a new index of 64 pages.
fn fresh(alloc: Global, dice: &mut Dice, tally: &mut StoreTally) -> Result<Watched, Fault> {
    let device = made_with(alloc, &LIMITS)?;
    Watched::new(alloc, opened(alloc, device, dice, tally)?)
}

/// A store of 16 frames over a new index of 64 pages, with so many crashes, each after at most so many calls:
/// whether all is right.
pub fn store_crashed(
    alloc: Global,
    seed: u64,
    crashes: u32,
    calls: u32,
    tally: &mut StoreTally,
) -> Result<bool, Fail> {
    let mut dice = Dice::new(seed);
    let mut watched = fresh(alloc, &mut dice, tally)?;
    for _ in 0..crashes {
        match next_of(&mut watched, &mut dice, calls, tally)? {
            Some(again) => watched = again,
            None => return Ok(false),
        }
    }
    Ok(true)
}

//! What is done with each altered index.

use crate::base::{FRAMES, entry, keyed};
use crate::dead::UpTo;
use crate::plain::{levels, parents};
use crate::plain_tree::{are_unique, is_tree};
use access_method::{Inserted, ScanToken};
use amcheck::{CheckFault, Report};
use device::Device;
use index_model::{Entry, Fault, Range, VacuumStats};
use std::alloc::Global;
use std::cmp::Ordering;
use tests_support::medium::{Medium, Opened};
use tests_support::plain::{
    begin_scan, bulk_delete, checkpoint_of as checkpoint, clean_up, end_scan, insert, next, page,
};
use tests_support::plain_index::PlainIndex;
use tests_support::plain_store::{CheckedStore, PlainStore};

/// The rows of these blocks: about half of the entries, so that leaves are left empty.
const DEAD: UpTo = UpTo { block: 15 };

/// Each entry.
const ALL: Range = Range {
    from: None,
    below: None,
};

/// No index of 32 pages of four items has as many entries.
const MANY: u32 = 1_000;

/// How the calls of an altered index went.
#[derive(Clone, Copy, Debug, PartialEq, Eq)]
pub enum Outcome {
    /// An open was refused as it may be.
    NotOpened,
    /// The verifier found a damage, of this number; each other call answered, or was refused as it may be.
    Damaged(u8),
    /// It found none, and all calls went as over a sound index.
    Sound,
    /// This went wrong.
    Wrong(&'static str),
}

/// What a scan of all gave: how many entries, and whether they ascend.
#[derive(Clone, Copy)]
struct Given {
    count: u64,
    ascend: bool,
}

/// An index that was opened, and how many entries it has, if the verifier found no damage.
#[derive(Drop)]
struct Trial<I> {
    index: I,
    entries: Option<u64>,
}

impl<I: PlainIndex> Trial<I> {
    /// What the scan of this token gives.
    fn all_given(&mut self, token: ScanToken) -> Result<Given, Fault> {
        let mut given = Given {
            count: 0,
            ascend: true,
        };
        let mut last: Option<Entry> = None;
        for _ in 0..MANY {
            let Some(entry) = next(&mut self.index, token)? else {
                break;
            };
            if let Some(before) = last {
                given.ascend = given.ascend && before.compare(&entry) == Ordering::Less;
            }
            given.count = given.count.saturating_add(1);
            last = Some(entry);
        }
        Ok(given)
    }

    fn scan(&mut self) -> Result<Given, Fault> {
        let token = begin_scan(&mut self.index, ALL)?;
        let given = self.all_given(token)?;
        end_scan(&mut self.index, token)?;
        Ok(given)
    }

    /// Whether a scan goes right: its entries ascend, and those of a sound index are so many.
    fn scans_right(&mut self) -> bool {
        match self.scan() {
            Ok(given) => {
                given.ascend
                    && match self.entries {
                        Some(count) => given.count == count,
                        None => given.count < u64::from(MANY),
                    }
            }
            Err(Fault::PageDamaged(_)) => self.entries.is_none(),
            Err(_) => false,
        }
    }

    /// Whether an insert goes right: into a sound index the entry is added, or there is no block for a split,
    /// or the altered byte has made another entry of it.
    fn inserts_right(&mut self, new: Entry) -> bool {
        match insert(&mut self.index, new) {
            Ok(Inserted { unfinished, .. }) => {
                if let Some(count) = self.entries {
                    self.entries = Some(count.saturating_add(1));
                }
                match unfinished {
                    None => true,
                    Some(fault) => self.may_refuse(fault),
                }
            }
            Err(fault) => self.may_refuse(fault),
        }
    }

    /// Whether an insert may be refused with this.
    fn may_refuse(&self, fault: Fault) -> bool {
        match fault {
            Fault::IndexFull | Fault::Exists | Fault::KeyExists(_) => true,
            Fault::PageDamaged(_) | Fault::TooTall => self.entries.is_none(),
            _ => false,
        }
    }

    /// Whether inserts of five entries between others go right, each with this offset of its row.
    fn fills_right(&mut self, offset: u16) -> bool {
        for i in [2, 9, 15, 22, 29] {
            let new = keyed(entry(i).key.bytes(), i, offset);
            if !self.inserts_right(new) {
                return false;
            }
        }
        true
    }

    /// Whether a bulk delete or a cleanup went right that answered this: of a sound index it tells how many
    /// entries it removed and left.
    fn is_vacuum_right(&mut self, answer: Result<VacuumStats, Fault>) -> bool {
        match answer {
            Ok(stats) => match self.entries {
                Some(count) => {
                    self.entries = Some(stats.num_index_tuples);
                    count == stats.num_index_tuples.saturating_add(stats.tuples_removed)
                }
                None => true,
            },
            Err(Fault::PageDamaged(_)) => self.entries.is_none(),
            Err(_) => false,
        }
    }

    fn deletes_right(&mut self) -> bool {
        let before = self.entries;
        let answer = bulk_delete(&mut self.index, &DEAD);
        self.is_vacuum_right(answer) && (before.is_none() || self.entries < before)
    }

    fn cleans_up_right(&mut self) -> bool {
        let answer = clean_up(&mut self.index);
        self.is_vacuum_right(answer)
    }

    /// Scans, inserts, deletes, cleans up, inserts again and writes home: the first that goes wrong.
    fn find_wrong(&mut self) -> Option<&'static str> {
        if !self.scans_right() {
            return Some("the first scan");
        }
        if !self.fills_right(2) || !self.scans_right() {
            return Some("inserts");
        }
        if !self.deletes_right() || !self.scans_right() {
            return Some("a bulk delete");
        }
        if !self.cleans_up_right() || !self.scans_right() {
            return Some("a cleanup");
        }
        if !self.fills_right(3) || !self.scans_right() {
            return Some("inserts behind a cleanup");
        }
        if checkpoint(&mut self.index).is_err() {
            return Some("a checkpoint");
        }
        None
    }
}

/// Whether an open was refused as it may be if the device answers and there is memory.
fn is_open_fault(fault: Fault) -> bool {
    matches!(
        fault,
        Fault::BadSuper
            | Fault::BadVersion
            | Fault::BadLimits
            | Fault::LogDamaged
            | Fault::PageDamaged(_)
    )
}

/// Whether the pages of a store are a B-link tree by the definition, and, if the index is unique, of such an
/// index.
fn is_sound_in<S: CheckedStore>(alloc: Global, store: &mut S) -> Result<bool, Fault> {
    let mut pages = Vec::new(alloc);
    for block in 0..store.used() {
        let found = page(store, block)?;
        if pages.push(found).is_err() {
            return Err(Fault::NoMemory);
        }
    }
    let fits = !store.format().unique || are_unique(pages.as_slice());
    match is_tree(alloc, pages.as_slice()) {
        Ok(is_tree) => Ok(is_tree && fits),
        Err(_) => Err(Fault::NoMemory),
    }
}

/// The report that a check answered.
fn report_of(checked: &Result<Report, CheckFault>) -> Option<Report> {
    match checked {
        Ok(report) => Some(*report),
        Err(_) => None,
    }
}

/// The number and the block of the damage that a check answered.
fn damage_of(checked: &Result<Report, CheckFault>) -> Option<(u8, u32)> {
    match checked {
        Err(CheckFault::Damage { number, block }) => Some((*number, *block)),
        _ => None,
    }
}

/// What both checks answer: a report of the pages, or the number of a damage; None if one was refused, or if
/// the check of levels alone answers another damage.
fn checked<S: CheckedStore>(alloc: Global, store: &mut S) -> Option<Result<Report, u8>> {
    let first = levels(alloc, store);
    let second = parents(alloc, store);
    if let Some(report) = report_of(&second) {
        return if report_of(&first) == Some(report) {
            Some(Ok(report))
        } else {
            None
        };
    }
    let damage = damage_of(&second)?;
    if report_of(&first).is_some() || damage_of(&first) == Some(damage) {
        Some(Err(damage.0))
    } else {
        None
    }
}

/// What both checks answer, if the definition says the same of the pages: None if something went wrong.
fn verified<S: CheckedStore>(alloc: Global, store: &mut S) -> Option<Result<Report, u8>> {
    let found = checked(alloc, store)?;
    match is_sound_in(alloc, store) {
        Ok(is_sound) if is_sound == found.is_ok() => Some(found),
        _ => None,
    }
}

/// What the verifier finds, as an outcome, and how many entries there are, if it finds no damage.
fn begun<S: CheckedStore>(alloc: Global, store: &mut S) -> (Outcome, Option<u64>) {
    match verified(alloc, store) {
        Some(Ok(report)) => (Outcome::Sound, Some(u64::from(report.entries))),
        Some(Err(number)) => (Outcome::Damaged(number), None),
        None => (Outcome::Wrong("a check"), None),
    }
}

/// Whether the verifier finds so many entries, or damage where the index wasn't sound.
fn is_found_again<S: CheckedStore>(alloc: Global, store: &mut S, entries: Option<u64>) -> bool {
    match verified(alloc, store) {
        Some(Ok(report)) => entries.is_none_or(|count| count == u64::from(report.entries)),
        Some(Err(_)) => entries.is_none(),
        None => false,
    }
}

/// Whether an index opens again from its device, sound if it was. It may have grown up to a block that wasn't
/// in use and is altered.
fn opens_again<D: Drop, M: Medium<D>>(
    alloc: Global,
    device: D,
    entries: Option<u64>,
    used: u32,
) -> bool {
    match M::store(alloc, device, FRAMES) {
        Ok(store) => {
            let mut store = store;
            is_found_again(alloc, &mut store, entries)
        }
        Err((fault, _device)) => matches!(fault, Fault::PageDamaged(block) if block > used),
    }
}

/// Makes each call of an index, and opens it again: the first that goes wrong.
fn wrong_in<D: Drop, M: Medium<D>>(
    alloc: Global,
    index: M::Index,
    entries: Option<u64>,
    used: u32,
) -> Option<&'static str> {
    let mut trial = Trial { index, entries };
    let wrong = trial.find_wrong();
    let Trial { index, entries } = trial;
    let opens = opens_again::<D, M>(alloc, M::device_under(index), entries, used);
    if wrong.is_none() && !opens {
        return Some("an open behind all calls");
    }
    wrong
}

/// Makes each call of the index in a store, and opens it again: the first that goes wrong.
fn wrong_over<D: Drop, M: Medium<D>>(
    alloc: Global,
    store: M::Store,
    entries: Option<u64>,
    used: u32,
) -> Option<&'static str> {
    match M::index_over(alloc, store) {
        Ok(index) => wrong_in::<D, M>(alloc, index, entries, used),
        Err(_) => Some("an index"),
    }
}

/// Verifies the index, makes each call, and opens it again.
fn tried_in<D: Drop, M: Medium<D>>(alloc: Global, store: M::Store) -> Outcome {
    let mut store = store;
    let (outcome, entries) = begun(alloc, &mut store);
    let used = store.used();
    if let Outcome::Wrong(_) = outcome {
        return outcome;
    }
    match wrong_over::<D, M>(alloc, store, entries, used) {
        Some(wrong) => Outcome::Wrong(wrong),
        None => outcome,
    }
}

/// Opens the index, verifies it, makes each call, and opens it again.
fn tried_by<D: Drop, M: Medium<D>>(alloc: Global, device: D) -> Outcome {
    match M::store(alloc, device, FRAMES) {
        Ok(store) => tried_in::<D, M>(alloc, store),
        Err((fault, _device)) => {
            if is_open_fault(fault) {
                Outcome::NotOpened
            } else {
                Outcome::Wrong("an open")
            }
        }
    }
}

/// Opens the index on a device, verifies it, makes each call, and opens it again.
pub fn tried<D: Device + Drop>(alloc: Global, device: D) -> Outcome {
    tried_by::<D, Opened>(alloc, device)
}

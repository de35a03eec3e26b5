//! Many threads that share an index: each inserts entries of its own, scans, deletes, cleans up and commits,
//! at random.

ghost use Rattle.std.specs.Prelude.{◌≡◌};

use crate::indexes::{InMemory, SETS, all_entries, made};
use crate::lists::{Dice, entry, range};
use crate::plain::{ALL, is_left_sound};
use crate::serving::served;
use crate::session::PlainSession;
use index_model::{DeadRows, Entry, Fault, Limits, Range};
use page_action::PageStore;
use schedule::Event;
use session_calls::Answer;
use shared_index::{Client, SharedIndex, SharedSession};
use shared_world::OriginOn;
use std::alloc::Global;
use std::process::Abort;
use std::sync::Wait;
use std::test::{Fail, *};
use std::thread::Threads;
use std::time::{Clock, Duration};
use tests_support::plain::{one, take_step};
use tests_support::plain_world::PlainWorld;

const LIMITS: Limits = Limits {
    items: 16,
    pages: 512,
    log_bytes: 262_144,
    unique: false,
};

/// How many threads there are, and how many entries each inserts.
const THREADS: u16 = 32;

const EACH: u16 = 60;

/// How many entries are of no set: 30 of each thread.
const KEPT: usize = 32 * 30;

/// The entry of a thread's own at this place. Of four, one is of the first set, one of the second, and two
/// are of none. Threads have their keys in turns.
fn entry_of(number: u16, place: u16) -> Entry {
    let block = match place % 4 {
        0 => 1,
        1 => 2,
        _ => 9,
    };
    entry(place.wrapping_mul(THREADS).wrapping_add(number), block)
}

/// The thread and the place of an entry, if it is of a thread.
fn owner(given: &Entry) -> Option<(u16, u16)> {
    let [high, low] = given.key.bytes() else {
        return None;
    };
    let key = u16::from_be_bytes([*high, *low]);
    let number = key % THREADS;
    let place = key / THREADS;
    if place < EACH && entry_of(number, place) == *given {
        Some((number, place))
    } else {
        None
    }
}

/// The place of the entry that a thread inserts as this one: each place once, in no order.
fn place_at(turn: u16) -> u16 {
    turn.wrapping_mul(37) % EACH
}

/// At which turn it inserts that of this place: 37 times 13 is 1, modulo 60.
fn turn_of(place: u16) -> u16 {
    place.wrapping_mul(13) % EACH
}

/// What a thread was told: how many entries it inserted, how many of them when each set was last deleted,
/// how many entries its bulk deletes removed, how many of its scans gave all, how many were left, how many
/// calls were blocked, and whether all was right.
#[derive(Clone, Copy)]
struct Told {
    inserted: u16,
    deleted: [u16; 2],
    removed: u64,
    finished: u32,
    left: u32,
    blocked: u32,
    is_right: bool,
}

impl Told {
    /// Whether the thread's own entry of this place may be given now.
    fn may_be_there(&self, place: u16) -> bool {
        let turn = turn_of(place);
        let is_deleted = match place % 4 {
            0 => turn < self.deleted[0],
            1 => turn < self.deleted[1],
            _ => false,
        };
        turn < self.inserted && !is_deleted
    }

    /// How many of the thread's own entries of this range must be there now.
    fn count_kept(&self, number: u16, range: &Range) -> u32 {
        let mut count = 0u32;
        for place in 0..EACH {
            let is_there = place % 4 > 1 && turn_of(place) < self.inserted;
            if is_there && range.contains(&entry_of(number, place)) {
                count = count.saturating_add(1);
            }
        }
        count
    }
}

/// What a scan has given so far.
#[derive(Clone, Copy)]
struct Given {
    last: Option<Entry>,
    own: u32,
    is_right: bool,
}

impl Given {
    /// An entry more: it must be behind the last, of the range, and of a thread; if it is the scan's own,
    /// one that may be there.
    fn note(&mut self, range: &Range, number: u16, told: &Told, given: &Entry) {
        let is_next = match &self.last {
            None => true,
            Some(last) => *last < *given,
        };
        let is_possible = match owner(given) {
            None => false,
            Some((of, place)) => of != number || told.may_be_there(place),
        };
        if let Some((of, place)) = owner(given)
            && of == number
            && place % 4 > 1
        {
            self.own = self.own.saturating_add(1);
        }
        self.is_right = self.is_right && is_next && is_possible && range.contains(given);
        self.last = Some(*given);
    }
}

/// Threads that insert, scan by small batches, delete, clean up and commit, at random.
#[derive(Drop)]
struct Mixers<'a, R: Wait> {
    rt: &'a R,
}

impl<'a, R: Wait + Clock + AllocGlobal> Mixers<'a, R> {
    /// A scan by batches of so many entries. One by five is left after two of them.
    fn scan<X, K: PlainSession<X>>(
        &self,
        index: &X,
        session: &mut K,
        number: u16,
        range: &Range,
        size: usize,
        told: &mut Told,
    ) -> Result<(), Fault>
        ensures { K.number session.new ≡ K.number session.old }
    {
        let mut given = Given {
            last: None,
            own: 0,
            is_right: true,
        };
        let Ok(mut batch) = Vec::with_capacity(self.rt.alloc(), size) else {
            return Err(Fault::NoMemory);
        };
        session.scan(self.rt, index, *range)?;
        for batches in 0..10_000_u32 {
            if size == 5 && batches == 2 {
                session.leave_scan(self.rt, index)?;
                told.left = told.left.saturating_add(1);
                break;
            }
            batch.clear();
            let is_over = self.batch(index, session, &mut batch, told)?;
            for one in batch.as_slice() {
                given.note(range, number, told, one);
            }
            if is_over {
                told.finished = told.finished.saturating_add(1);
                given.is_right = given.is_right && given.own == told.count_kept(number, range);
                break;
            }
        }
        told.is_right = told.is_right && given.is_right;
        Ok(())
    }

    /// A batch. One that is blocked is over for now.
    fn batch<X, K: PlainSession<X>>(
        &self,
        index: &X,
        session: &mut K,
        batch: &mut Vec<Entry>,
        told: &mut Told,
    ) -> Result<bool, Fault>
        ensures { K.number session.new ≡ K.number session.old }
    {
        match session.batch(self.rt, index, batch) {
            Err(Fault::Blocked(_)) => {
                told.blocked = told.blocked.saturating_add(1);
                Ok(false)
            }
            given => given,
        }
    }

    /// An insert. If it is blocked, its entry isn't added: it is inserted again, as long as it takes.
    fn insert<X, K: PlainSession<X>>(
        &self,
        index: &X,
        session: &mut K,
        number: u16,
        place: u16,
        told: &mut Told,
    ) -> Result<(), Fault>
        ensures { K.number session.new ≡ K.number session.old }
    {
        let mut inserted = session.insert(self.rt, index, entry_of(number, place));
        if matches!(&inserted, Err(Fault::Blocked(_))) {
            told.blocked = told.blocked.saturating_add(1);
            session.set_patience(None);
            inserted = session.insert(self.rt, index, entry_of(number, place));
        }
        let _inserted = inserted?;
        told.inserted = told.inserted.saturating_add(1);
        Ok(())
    }

    /// A bulk delete by one of the sets: the rows of block 1, or those of block 2.
    fn delete<X, K: PlainSession<X>>(
        &self,
        index: &X,
        session: &mut K,
        set: u32,
        told: &mut Told,
    ) -> Result<(), Fault>
        ensures { K.number session.new ≡ K.number session.old }
    {
        let place = if set == 0 { 2 } else { 1 };
        match session.bulk_delete(self.rt, index, place) {
            Ok(removed) => {
                told.removed = told.removed.saturating_add(removed);
                if let Some(deleted) = told.deleted.get_mut(set as usize) {
                    *deleted = told.inserted;
                }
                Ok(())
            }
            Err(Fault::VacuumRunning) => Ok(()),
            Err(fault) => Err(fault),
        }
    }

    /// A cleanup.
    fn clean_up<X, K: PlainSession<X>>(
        &self,
        index: &X,
        session: &mut K,
        told: &mut Told,
    ) -> Result<(), Fault>
        ensures { K.number session.new ≡ K.number session.old }
    {
        match session.clean_up(self.rt, index) {
            Ok(()) => Ok(()),
            Err(Fault::Blocked(_)) | Err(Fault::VacuumRunning) => {
                told.blocked = told.blocked.saturating_add(1);
                Ok(())
            }
            Err(fault) => Err(fault),
        }
    }

    /// A call at random, or none.
    fn some_call<X, K: PlainSession<X>>(
        &self,
        index: &X,
        session: &mut K,
        number: u16,
        dice: &mut Dice,
        told: &mut Told,
    ) -> Result<(), Fault>
        ensures { K.number session.new ≡ K.number session.old }
    {
        let patience = Duration::from_millis(u64::from(dice.roll(3)));
        match dice.roll(60) {
            0..=5 => {
                let from = u16::try_from(dice.roll(1_920)).unwrap_or(0);
                let part = range(from, from.saturating_add(300));
                session.set_patience(Some(patience));
                let size = if dice.roll(4) == 0 { 5 } else { 6 };
                self.scan(index, session, number, &part, size, told)
            }
            6 => {
                session.set_patience(None);
                self.delete(index, session, u32::from(number % 2), told)
            }
            7 => {
                session.set_patience(Some(patience));
                self.clean_up(index, session, told)
            }
            8..=11 => {
                let _durable = session.commit(self.rt, index)?;
                Ok(())
            }
            12 => {
                let _durable = session.checkpoint(self.rt, index)?;
                Ok(())
            }
            _ => Ok(()),
        }
    }

    fn told<X, K: PlainSession<X>>(
        &self,
        index: &X,
        session: &mut K,
        number: u16,
    ) -> Result<Told, Fault>
        ensures { K.number session.new ≡ K.number session.old }
    {
        let mut told = Told {
            inserted: 0,
            deleted: [0, 0],
            removed: 0,
            finished: 0,
            left: 0,
            blocked: 0,
            is_right: true,
        };
        let mut dice = Dice::new(u64::from(number).wrapping_add(7));
        for turn in 0..EACH {
            session.set_patience(Some(Duration::from_millis(u64::from(dice.roll(2)))));
            self.insert(index, session, number, place_at(turn), &mut told)?;
            self.some_call(index, session, number, &mut dice, &mut told)?;
        }
        session.set_patience(None);
        self.scan(index, session, number, &ALL, 64, &mut told)?;
        Ok(told)
    }
}

impl<'a, S: PageStore, T: DeadRows + Drop, R: Wait + Clock + AllocGlobal> Client<S, T>
    for Mixers<'a, R> {
    type Out = Result<Told, Fault>;

    ghost learnt = { λ out calls. Unit {0} };

    fn work<J: OriginOn<S>>(
        &self,
        index: &SharedIndex<S, T, J>,
        session: &mut SharedSession<J>,
        number: u32,
    ) -> Result<Told, Fault> {
        self.told(index, session, u16::try_from(number).unwrap_or(0))
    }
}

/// What threads were told in all.
#[derive(Clone, Copy, Debug, Default)]
struct Sums {
    inserted: u64,
    removed: u64,
    finished: u32,
    left: u32,
    blocked: u32,
}

impl Sums {
    fn add(&mut self, told: &Told) {
        self.inserted = self.inserted.saturating_add(u64::from(told.inserted));
        self.removed = self.removed.saturating_add(told.removed);
        self.finished = self.finished.saturating_add(told.finished);
        self.left = self.left.saturating_add(told.left);
        self.blocked = self.blocked.saturating_add(told.blocked);
    }
}

/// Deletes by a set, with nothing beside it. Answers how many entries that removed.
fn delete_alone<W: PlainWorld>(world: &mut W, set: u32) -> Result<u64, Fail> {
    if let Answer::Refused(fault) = one(world, Event::Bulk(0, set)) {
        return Err(Fail::from(fault));
    }
    for _ in 0..1_000_000 {
        match take_step(world, 0, 5) {
            Answer::Finished(stats) => return Ok(stats.tuples_removed),
            Answer::Refused(fault) => return Err(Fail::from(fault)),
            _ => {}
        }
    }
    Ok(0)
}

/// How many entries are of no set. None if they aren't strictly ascending entries of threads.
fn count_kept(entries: &[Entry]) -> Option<usize> {
    let mut last: Option<Entry> = None;
    let mut count = 0usize;
    for one in entries {
        if let Some(last) = &last
            && *last >= *one
        {
            return None;
        }
        let (_, place) = owner(one)?;
        if place % 4 > 1 {
            count = count.saturating_add(1);
        }
        last = Some(*one);
    }
    Some(count)
}

/// What an index has: its entries, how many more both sets delete, and its entries then.
#[derive(Drop)]
struct Found {
    before: Vec<Entry>,
    removed: u64,
    after: Vec<Entry>,
}

fn found_in<W: PlainWorld>(alloc: Global, world: &mut W) -> Result<Found, Fail> {
    let before = all_entries(alloc, world)?;
    let mut removed = 0u64;
    for set in 0..SETS {
        removed = removed.saturating_add(delete_alone(world, set)?);
    }
    let after = all_entries(alloc, world)?;
    Ok(Found {
        before,
        removed,
        after,
    })
}

/// The same of a world that is left then, and whether that is sound.
fn found_and_left(alloc: Global, world: InMemory) -> (Result<Found, Fail>, bool) {
    let mut world = world;
    let found = found_in(alloc, &mut world);
    (found, is_left_sound(alloc, world))
}

/// What the threads were told in all. None if something wasn't right.
fn sums_of(outs: Vec<Result<Told, Fault>>) -> Result<Option<Sums>, Fault> {
    let mut sums = Sums::default();
    let mut is_right = true;
    for told in outs {
        let told = told?;
        is_right = is_right && told.is_right;
        sums.add(&told);
    }
    Ok(is_right.then_some(sums))
}

/// Each entry that was inserted is there at the end, unless a bulk delete removed it, and nothing else is.
/// Each scan gave what was there throughout, ascending, and none gave what never was.
#[test]
fn threads_mix_all_calls(rt: HostRuntime) -> Result<(), Fail> {
    let sessions = u32::from(THREADS);
    let world = made(rt.alloc(), &LIMITS, sessions)?;
    let (outs, world, idle) = served(&rt, world, sessions, &Mixers { rt: &rt })?;
    let (found, is_sound) = found_and_left(rt.alloc(), world);
    let found = found?;
    assert!(rt; idle && is_sound);
    assert_eq!(rt; outs.len(), usize::from(THREADS));
    let Some(sums) = sums_of(outs)? else {
        return Err(Fail::from(Fault::NoSession));
    };
    assert_eq!(rt; sums.inserted, 1_920);
    assert!(rt;
        sums.finished > 0 && sums.left > 0 && sums.removed > 0,
        "{sums:?}"
    );
    assert_eq!(rt; count_kept(found.before.as_slice()), Some(KEPT));
    assert_eq!(rt;
        found.before.len() as u64,
        sums.inserted.saturating_sub(sums.removed)
    );
    assert_eq!(rt; count_kept(found.after.as_slice()), Some(KEPT));
    let removed = sums.removed.saturating_add(found.removed);
    assert_eq!(rt; (found.after.len(), removed), (KEPT, 1_920 - KEPT as u64));
    Ok(())
}

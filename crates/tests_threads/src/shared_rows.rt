//! Threads that share an index, each of which deletes rows by sets of its own.

ghost use Rattle.std.specs.Prelude.{◌≡◌};

use crate::indexes::{InMemory, SETS, all_entries, made, without_sets};
use crate::lists::entry;
use crate::plain::{ALL, is_left_sound};
use crate::serving::{entries_left, served};
use crate::session::{Deleted, PlainSession};
use crate::stages::Stages;
use index_model::{Entry, Fault, Limits};
use page_action::PageStore;
use shared_index::{Client, SharedIndex, SharedSession};
use shared_world::OriginOn;
use std::alloc::Global;
use std::process::Abort;
use std::sync::Wait;
use std::test::{Fail, *};
use std::thread::Threads;
use std::time::{Clock, Duration};
use tests_support::dead::Blocks;

const LIMITS: Limits = Limits {
    items: 16,
    pages: 512,
    log_bytes: 262_144,
    unique: false,
};

/// How many threads there are, and how many entries each inserts. Of three, two are of its own block.
const THREADS: u16 = 8;

const EACH: u16 = 60;

/// After so many inserts a thread deletes those of its own block: 14, then 13, then 13.
const PART: u16 = 20;

/// The rows of this block.
fn rows_of(block: u32) -> Blocks {
    Blocks {
        from: block,
        to: block,
    }
}

/// The entry of a thread's own at this place, of its own block or of one that no set has.
fn entry_of(number: u16, place: u16) -> Entry {
    let block = if place % 3 < 2 {
        u32::from(number).saturating_add(100)
    } else {
        9
    };
    entry(place.wrapping_mul(THREADS).wrapping_add(number), block)
}

/// Whether the set was refused with this fault, and is the one of this block.
fn is_refused(
    deleted: &Result<Deleted<Blocks>, (Fault, Blocks)>,
    fault: Fault,
    block: u32,
) -> bool {
    match deleted {
        Ok(_) => false,
        Err((refused, set)) => *refused == fault && set.from == block && set.to == block,
    }
}

/// Threads that insert, and delete rows of their own.
#[derive(Drop)]
struct Deleters<'a, R: Wait> {
    rt: &'a R,
}

impl<'a, R: Wait + Clock> Deleters<'a, R> {
    /// Deletes the rows of the thread's own block. Answers how many that removed, and whose set stood at the
    /// spare place before.
    fn delete<X, K: PlainSession<X, Rows = Blocks>>(
        &self,
        index: &X,
        session: &mut K,
        number: u16,
    ) -> Result<(u64, u32), Fault>
        ensures { K.number session.new ≡ K.number session.old }
    {
        let set = rows_of(u32::from(number).saturating_add(100));
        match session.delete_rows(self.rt, index, set) {
            Ok((removed, was)) => Ok((removed?, was.from)),
            Err((fault, _)) => Err(fault),
        }
    }

    /// Whether a set is refused while a scan is open, and a bulk delete by the spare place.
    fn refuses<X, K: PlainSession<X, Rows = Blocks>>(
        &self,
        index: &X,
        session: &mut K,
    ) -> Result<bool, Fault>
        ensures { K.number session.new ≡ K.number session.old }
    {
        let spare = session.bulk_delete(self.rt, index, 0);
        let beyond = session.bulk_delete(self.rt, index, SETS);
        session.scan(self.rt, index, ALL)?;
        let busy = session.delete_rows(self.rt, index, rows_of(8));
        session.leave_scan(self.rt, index)?;
        let none = matches!(spare, Err(Fault::NoSession))
            && matches!(beyond, Err(Fault::NoSession));
        Ok(none && is_refused(&busy, Fault::SessionBusy, 8))
    }

    /// How many entries its deletes removed, and whether all was right.
    fn told<X, K: PlainSession<X, Rows = Blocks>>(
        &self,
        index: &X,
        session: &mut K,
        number: u16,
    ) -> Result<(u64, bool), Fault>
        ensures { K.number session.new ≡ K.number session.old }
    {
        let mut removed = 0u64;
        let mut is_right = self.refuses(index, session)?;
        for place in 0..EACH {
            session.insert(self.rt, index, entry_of(number, place))?;
            if place % PART == PART.wrapping_sub(1) {
                let (count, was) = self.delete(index, session, number)?;
                removed = removed.saturating_add(count);
                let expected = if place < PART { 14 } else { 13 };
                let was_known = was == 1 || (100..108).contains(&was);
                is_right = is_right && count == expected && was_known;
            }
        }
        let _durable = session.commit(self.rt, index)?;
        Ok((removed, is_right))
    }
}

impl<'a, S: PageStore, R: Wait + Clock> Client<S, Blocks> for Deleters<'a, R> {
    type Out = Result<(u64, bool), Fault>;

    ghost learnt = { λ out calls. Unit {0} };

    fn work<J: OriginOn<S>>(
        &self,
        index: &SharedIndex<S, Blocks, J>,
        session: &mut SharedSession<J>,
        number: u32,
    ) -> Result<(u64, bool), Fault> {
        self.told(index, session, u16::try_from(number).unwrap_or(0))
    }
}

/// All entries of a world that is left then, and whether it is sound.
fn found_and_left(alloc: Global, world: InMemory) -> (Result<Vec<Entry>, Fail>, bool) {
    let mut world = world;
    let entries = all_entries(alloc, &mut world);
    (entries, is_left_sound(alloc, world))
}

/// Each bulk delete removes just the rows of the set that came with it, whatever sets others put meanwhile.
#[test]
fn each_deletes_rows_of_its_own(rt: HostRuntime) -> Result<(), Fail> {
    let sessions = u32::from(THREADS);
    let world = made(rt.alloc(), &LIMITS, sessions)?;
    let (outs, world, idle) = served(&rt, world, sessions, &Deleters { rt: &rt })?;
    let (entries, is_sound) = found_and_left(rt.alloc(), world);
    let entries = entries?;
    assert!(rt; idle && is_sound);
    assert_eq!(rt; outs.len(), usize::from(THREADS));
    for told in outs {
        assert_eq!(rt; told?, (40, true));
    }
    assert_eq!(rt; entries.len(), 160);
    assert!(rt; entries.as_slice().iter().all(|one| one.row.block() == 9));
    Ok(())
}

/// Threads of which the first rests in the middle of a scan, the next deletes rows beside it, and the third
/// brings a set while that runs.
#[derive(Drop)]
struct Waiters<'a, R: Wait> {
    rt: &'a R,
    stages: Stages,
}

impl<'a, R: Wait + Clock + AllocGlobal> Waiters<'a, R> {
    /// Inserts three entries, of which block 100 has two, and scans them: one, then the others after the
    /// third stage. The last batch gives none: it only ends the scan, for which the bulk delete waits.
    fn read<X, K: PlainSession<X, Rows = Blocks>>(
        &self,
        index: &X,
        session: &mut K,
    ) -> Result<bool, Fault>
        ensures { K.number session.new ≡ K.number session.old }
    {
        for number in 0..3_u16 {
            let block = if number == 1 { 9 } else { 100 };
            session.insert(self.rt, index, entry(number, block))?;
        }
        session.scan(self.rt, index, ALL)?;
        let Ok(mut first) = Vec::with_capacity(self.rt.alloc(), 1) else {
            return Err(Fault::NoMemory);
        };
        let Ok(mut rest) = Vec::with_capacity(self.rt.alloc(), 2) else {
            return Err(Fault::NoMemory);
        };
        let is_over = session.batch(self.rt, index, &mut first)?;
        self.stages.reach(self.rt, 1);
        let waited = self.stages.wait_for(self.rt, 3);
        let is_over_then = session.batch(self.rt, index, &mut rest)?;
        let count = rest.len();
        rest.clear();
        let is_over_last = session.batch(self.rt, index, &mut rest)?;
        waited?;
        Ok(!is_over && !is_over_then && count == 2 && is_over_last && rest.is_empty())
    }

    /// Deletes the rows of block 100 beside the scan: it is blocked at once, with its set put. Then it waits
    /// until the scan has gone on.
    fn delete<X, K: PlainSession<X, Rows = Blocks>>(
        &self,
        index: &X,
        session: &mut K,
    ) -> Result<bool, Fault>
        ensures { K.number session.new ≡ K.number session.old }
    {
        self.stages.wait_for(self.rt, 1)?;
        session.set_patience(Some(Duration::ZERO));
        let is_blocked = match session.delete_rows(self.rt, index, rows_of(100)) {
            Ok((removed, was)) => removed == Err(Fault::Blocked(1)) && was.from == 1,
            Err(_) => false,
        };
        self.stages.reach(self.rt, 2);
        session.set_patience(None);
        match session.delete_rows(self.rt, index, rows_of(100)) {
            Ok((removed, _)) => Ok(is_blocked && removed? == 2),
            Err((fault, _)) => Err(fault),
        }
    }

    /// Brings a set while the bulk delete runs: it is refused at last, and given back. It may be sooner than
    /// that.
    fn bring<X, K: PlainSession<X, Rows = Blocks>>(
        &self,
        index: &X,
        session: &mut K,
    ) -> Result<bool, Fault>
        ensures { K.number session.new ≡ K.number session.old }
    {
        self.stages.wait_for(self.rt, 2)?;
        session.set_patience(Some(Duration::ZERO));
        let mut is_excluded = false;
        for _ in 0..10_000_000_u32 {
            let brought = session.delete_rows(self.rt, index, rows_of(5));
            if is_refused(&brought, Fault::VacuumRunning, 5) {
                is_excluded = true;
                break;
            }
        }
        self.stages.reach(self.rt, 3);
        Ok(is_excluded)
    }
}

impl<'a, S: PageStore, R: Wait + Clock + AllocGlobal> Client<S, Blocks> for Waiters<'a, R> {
    type Out = Result<bool, Fault>;

    ghost learnt = { λ out calls. Unit {0} };

    fn work<J: OriginOn<S>>(
        &self,
        index: &SharedIndex<S, Blocks, J>,
        session: &mut SharedSession<J>,
        number: u32,
    ) -> Result<bool, Fault> {
        match number {
            0 => self.read(index, session),
            1 => self.delete(index, session),
            _ => self.bring(index, session),
        }
    }
}

/// No set is put while a bulk delete runs: one that comes then is refused at the end of its patience, and is
/// given back.
#[test]
fn sets_wait_with_patience(rt: HostRuntime) -> Result<(), Fail> {
    let limits = Limits {
        items: 50,
        pages: 64,
        log_bytes: 65_536,
        unique: false,
    };
    let world = made(rt.alloc(), &limits, 3)?;
    let waiters = Waiters {
        rt: &rt,
        stages: Stages::new(),
    };
    let (outs, world, idle) = served(&rt, world, 3, &waiters)?;
    let entries = entries_left(rt.alloc(), world)?;
    assert!(rt; idle);
    assert_eq!(rt; outs.len(), 3);
    for out in outs {
        assert!(rt; out?);
    }
    assert!(rt; entries.as_slice() == [entry(1, 9)].as_slice());
    Ok(())
}

/// A thread that brings a set to a world without any.
#[derive(Drop)]
struct Bringer<'a, R: Wait> {
    rt: &'a R,
}

impl<'a, R: Wait + Clock> Bringer<'a, R> {
    fn is_refused<X, K: PlainSession<X, Rows = Blocks>>(&self, index: &X, session: &mut K) -> bool
        ensures { K.number session.new ≡ K.number session.old }
    {
        let brought = session.delete_rows(self.rt, index, rows_of(7));
        is_refused(&brought, Fault::NoSession, 7)
    }
}

impl<'a, S: PageStore, R: Wait + Clock> Client<S, Blocks> for Bringer<'a, R> {
    type Out = bool;

    ghost learnt = { λ out calls. Unit {0} };

    fn work<J: OriginOn<S>>(
        &self,
        index: &SharedIndex<S, Blocks, J>,
        session: &mut SharedSession<J>,
        _number: u32,
    ) -> bool {
        self.is_refused(index, session)
    }
}

/// A world without sets has no spare place: the set that is brought is given back.
#[test]
fn a_world_without_sets_takes_none(rt: HostRuntime) -> Result<(), Fail> {
    let world = without_sets(rt.alloc(), &LIMITS, 1)?;
    let (outs, _, idle) = served(&rt, world, 1, &Bringer { rt: &rt })?;
    assert!(rt; idle);
    assert!(rt; outs.as_slice() == [true].as_slice());
    Ok(())
}

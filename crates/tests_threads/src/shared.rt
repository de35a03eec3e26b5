//! Threads that share an index by sessions, each with calls at its own times.

ghost use Rattle.std.specs.Prelude.{◌≡◌};

use crate::indexes::made;
use crate::lists::entry;
use crate::serving::{entries_left, served};
use crate::session::PlainSession;
use index_model::{DeadRows, Entry, Fault, Limits};
use page_action::PageStore;
use shared_index::{Client, SharedIndex, SharedSession};
use shared_world::OriginOn;
use std::process::Abort;
use std::sync::Wait;
use std::test::{Fail, *};
use std::thread::Threads;
use std::time::Clock;

/// All pages of the index are in memory.
const LIMITS: Limits = Limits {
    items: 50,
    pages: 256,
    log_bytes: 1_048_576,
    unique: false,
};

/// How many threads there are, and how many entries each inserts.
const THREADS: u32 = 8;

const EACH: u16 = 100;

/// The entry that a thread inserts at this place of its own: each third one has a row of block 1, which the
/// first set names.
fn entry_of(number: u32, place: u16) -> Entry {
    let block = if place % 3 == 0 { 1 } else { 9 };
    let first = u16::try_from(number).unwrap_or(0).wrapping_mul(EACH);
    entry(first.wrapping_add(place), block)
}

/// Threads that insert, and commit after each tenth entry. The one in the middle deletes by the first set in
/// between.
#[derive(Drop)]
struct Writers<'a, R: Wait> {
    rt: &'a R,
}

/// What a thread was told: how many entries it inserted, how many actions its last commit told durable, and
/// how many entries its bulk delete removed.
#[derive(Clone, Copy)]
struct Told {
    inserted: u32,
    durable: u64,
    removed: u64,
}

impl<'a, R: Wait + Clock> Writers<'a, R> {
    fn told<X, K: PlainSession<X>>(
        &self,
        index: &X,
        session: &mut K,
        number: u32,
    ) -> Result<Told, Fault>
        ensures { K.number session.new ≡ K.number session.old }
    {
        let mut told = Told {
            inserted: 0,
            durable: 0,
            removed: 0,
        };
        for place in 0..EACH {
            session.insert(self.rt, index, entry_of(number, place))?;
            told.inserted = told.inserted.saturating_add(1);
            if place % 10 == 9 {
                told.durable = session.commit(self.rt, index)?;
            }
            if place == 50 && number == 4 {
                told.removed = session.bulk_delete(self.rt, index, 2)?;
            }
        }
        Ok(told)
    }
}

impl<'a, S: PageStore, T: DeadRows + Drop, R: Wait + Clock> Client<S, T> for Writers<'a, R> {
    type Out = Result<Told, Fault>;

    ghost learnt = { λ out calls. Unit {0} };

    fn work<J: OriginOn<S>>(
        &self,
        index: &SharedIndex<S, T, J>,
        session: &mut SharedSession<J>,
        number: u32,
    ) -> Result<Told, Fault> {
        self.told(index, session, number)
    }
}

/// How many entries the threads inserted in all, and how many they removed.
fn sums(outs: Vec<Result<Told, Fault>>) -> Result<(u64, u64), Fault> {
    let mut inserted: u64 = 0;
    let mut removed: u64 = 0;
    for told in outs {
        let told = told?;
        inserted = inserted.saturating_add(u64::from(told.inserted));
        removed = removed.saturating_add(told.removed);
    }
    Ok((inserted, removed))
}

/// What eight threads were told is what the index has: each entry that was inserted, but for those that the
/// bulk delete removed.
#[test]
fn eight_threads_share_an_index(rt: HostRuntime) -> Result<(), Fail> {
    let world = made(rt.alloc(), &LIMITS, THREADS)?;
    let (outs, world, idle) = served(&rt, world, THREADS, &Writers { rt: &rt })?;
    let entries = entries_left(rt.alloc(), world)?;
    assert!(rt; idle);
    assert_eq!(rt; outs.len(), THREADS as usize);
    let (inserted, removed) = sums(outs)?;
    assert_eq!(rt; inserted, 800);
    assert_eq!(rt; entries.len() as u64, inserted.saturating_sub(removed));
    Ok(())
}

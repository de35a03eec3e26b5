//! Sessions of threads that share an index, and wait for each other: with patience, and without a limit.

ghost use Rattle.std.specs.Prelude.{◌≡◌};

use crate::indexes::{InMemory, all_entries, made};
use crate::lists::entry;
use crate::plain::{ALL, abandon};
use crate::serving::{entries_left, served};
use crate::session::PlainSession;
use crate::stages::Stages;
use index_model::{DeadRows, Fault, Limits};
use page_action::PageStore;
use session_calls::Answer;
use shared_index::{Client, SharedIndex, SharedSession};
use shared_world::OriginOn;
use std::alloc::Global;
use std::process::Abort;
use std::sync::Wait;
use std::test::{Fail, *};
use std::thread::Threads;
use std::time::{Clock, Duration, Instant};
use tests_support::plain_world::PlainWorld;

/// All entries are in one leaf, which is block 1.
const LIMITS: Limits = Limits {
    items: 50,
    pages: 64,
    log_bytes: 65_536,
    unique: false,
};

/// The patience of those that have some.
fn patience() -> Duration {
    Duration::from_millis(20)
}

/// Threads of which the first rests in the middle of a scan, the next deletes beside it, and the third
/// cleans up beside that.
#[derive(Drop)]
struct Waiters<'a, R: Wait> {
    rt: &'a R,
    stages: Stages,
}

impl<'a, R: Wait + Clock + AllocGlobal> Waiters<'a, R> {
    /// Whether it is longer ago than the patience.
    fn has_waited(&self, since: Instant) -> bool {
        match since.elapsed(self.rt) {
            Ok(waited) => waited >= patience(),
            Err(_) => false,
        }
    }

    fn now(&self) -> Result<Instant, Fault> {
        match Instant::now(self.rt) {
            Ok(now) => Ok(now),
            Err(_) => Err(Fault::Io),
        }
    }

    /// Inserts three entries, of which the set has two, and scans them: one, then the others after the third
    /// stage.
    fn read<X, K: PlainSession<X>>(&self, index: &X, session: &mut K) -> Result<bool, Fault>
        ensures { K.number session.new ≡ K.number session.old }
    {
        for number in 0..3_u16 {
            let block = if number == 1 { 9 } else { 1 };
            session.insert(self.rt, index, entry(number, block))?;
        }
        session.scan(self.rt, index, ALL)?;
        let Ok(mut first) = Vec::with_capacity(self.rt.alloc(), 1) else {
            return Err(Fault::NoMemory);
        };
        let Ok(mut rest) = Vec::with_capacity(self.rt.alloc(), 10) else {
            return Err(Fault::NoMemory);
        };
        let is_over = session.batch(self.rt, index, &mut first)?;
        self.stages.reach(self.rt, 1);
        let waited = self.stages.wait_for(self.rt, 3);
        let is_over_then = session.batch(self.rt, index, &mut rest)?;
        waited?;
        Ok(
            !is_over
                && is_over_then
                && first.as_slice() == [entry(0, 1)].as_slice()
                && rest.as_slice() == [entry(1, 9), entry(2, 1)].as_slice(),
        )
    }

    /// A bulk delete with this patience, in the middle of the scan: whether it was blocked.
    fn is_blocked<X, K: PlainSession<X>>(
        &self,
        index: &X,
        session: &mut K,
        patience: Duration,
    ) -> bool
        ensures { K.number session.new ≡ K.number session.old }
    {
        session.set_patience(Some(patience));
        session.bulk_delete(self.rt, index, 2) == Err(Fault::Blocked(1))
    }

    /// Deletes by the set beside the scan: it is blocked at once, then after a while, and at last it waits
    /// until the scan has gone on.
    fn delete<X, K: PlainSession<X>>(&self, index: &X, session: &mut K) -> Result<bool, Fault>
        ensures { K.number session.new ≡ K.number session.old }
    {
        self.stages.wait_for(self.rt, 1)?;
        let is_blocked = self.is_blocked(index, session, Duration::ZERO);
        let since = self.now()?;
        let is_blocked_later = self.is_blocked(index, session, patience());
        let has_waited = self.has_waited(since);
        self.stages.reach(self.rt, 2);
        session.set_patience(None);
        let removed = session.bulk_delete(self.rt, index, 2)?;
        Ok(is_blocked && is_blocked_later && has_waited && removed == 2)
    }

    /// Whether a cleanup is refused since the bulk delete runs. It may be sooner than that.
    fn is_excluded<X, K: PlainSession<X>>(&self, index: &X, session: &mut K) -> bool
        ensures { K.number session.new ≡ K.number session.old }
    {
        session.set_patience(Some(Duration::ZERO));
        for _ in 0..10_000_000_u32 {
            if session.clean_up(self.rt, index) == Err(Fault::VacuumRunning) {
                return true;
            }
        }
        false
    }

    /// Cleans up beside the bulk delete: it is refused at once, then after a while, and at last it waits
    /// until that is over.
    fn clean_up<X, K: PlainSession<X>>(&self, index: &X, session: &mut K) -> Result<bool, Fault>
        ensures { K.number session.new ≡ K.number session.old }
    {
        self.stages.wait_for(self.rt, 2)?;
        let is_excluded = self.is_excluded(index, session);
        let since = self.now()?;
        session.set_patience(Some(patience()));
        let cleaned = session.clean_up(self.rt, index);
        let is_excluded_later = cleaned == Err(Fault::VacuumRunning);
        let has_waited = self.has_waited(since);
        self.stages.reach(self.rt, 3);
        session.set_patience(None);
        session.clean_up(self.rt, index)?;
        Ok(is_excluded && is_excluded_later && has_waited)
    }
}

impl<'a, S: PageStore, T: DeadRows + Drop, R: Wait + Clock + AllocGlobal> Client<S, T>
    for Waiters<'a, R> {
    type Out = Result<bool, Fault>;

    ghost learnt = { λ out calls. Unit {0} };

    fn work<J: OriginOn<S>>(
        &self,
        index: &SharedIndex<S, T, J>,
        session: &mut SharedSession<J>,
        number: u32,
    ) -> Result<bool, Fault> {
        match number {
            0 => self.read(index, session),
            1 => self.delete(index, session),
            _ => self.clean_up(index, session),
        }
    }
}

/// A bulk delete whose patience is at its end is told as blocked, and nothing is deleted. One that waits as
/// long as it takes goes on when the scan does. Another one waits for it in the same way.
#[test]
fn calls_wait_with_patience(rt: HostRuntime) -> Result<(), Fail> {
    let world = made(rt.alloc(), &LIMITS, 3)?;
    let waiters = Waiters {
        rt: &rt,
        stages: Stages::new(),
    };
    let (outs, world, idle) = served(&rt, world, 3, &waiters)?;
    let entries = entries_left(rt.alloc(), world)?;
    assert!(rt; idle);
    assert_eq!(rt; outs.len(), 3);
    for out in outs {
        assert!(rt; out?);
    }
    assert!(rt; entries.as_slice() == [entry(1, 9)].as_slice());
    Ok(())
}

/// Threads of which the first leaves its scan open.
#[derive(Drop)]
struct Loser<'a, R: Wait> {
    rt: &'a R,
}

impl<'a, R: Wait + Clock + AllocGlobal> Loser<'a, R> {
    fn given<X, K: PlainSession<X>>(
        &self,
        index: &X,
        session: &mut K,
        number: u32,
    ) -> Result<usize, Fault>
        ensures { K.number session.new ≡ K.number session.old }
    {
        let first = u16::try_from(number).unwrap_or(0).wrapping_mul(60);
        for place in 0..60_u16 {
            session.insert(self.rt, index, entry(first.wrapping_add(place), 9))?;
        }
        if number > 0 {
            return Ok(0);
        }
        session.scan(self.rt, index, ALL)?;
        let Ok(mut given) = Vec::with_capacity(self.rt.alloc(), 5) else {
            return Err(Fault::NoMemory);
        };
        let _is_over = session.batch(self.rt, index, &mut given)?;
        Ok(given.len())
    }
}

impl<'a, S: PageStore, T: DeadRows + Drop, R: Wait + Clock + AllocGlobal> Client<S, T>
    for Loser<'a, R> {
    type Out = Result<usize, Fault>;

    ghost learnt = { λ out calls. Unit {0} };

    fn work<J: OriginOn<S>>(
        &self,
        index: &SharedIndex<S, T, J>,
        session: &mut SharedSession<J>,
        number: u32,
    ) -> Result<usize, Fault> {
        self.given(index, session, number)
    }
}

/// How many entries a world has, once the scan of session 0 was given up.
fn count_without_scan<W: PlainWorld>(alloc: Global, world: &mut W) -> Result<usize, Fail> {
    if world.is_running(1) || world.is_running(2) || !world.is_running(0) {
        return Err(Fail::from(Fault::SessionBusy));
    }
    if !matches!(abandon(world, 0), Answer::Ended) || world.is_running(0) {
        return Err(Fail::from(Fault::NoSession));
    }
    Ok(all_entries(alloc, world)?.len())
}

/// The same of a world that is left then.
fn count_left(alloc: Global, world: InMemory) -> Result<usize, Fail> {
    let mut world = world;
    count_without_scan(alloc, &mut world)
}

/// A session whose scan is open at the end: the world has it, until it is given up, and all that was
/// inserted.
#[test]
fn lost_scan_is_in_the_world(rt: HostRuntime) -> Result<(), Fail> {
    let world = made(rt.alloc(), &LIMITS, 3)?;
    let (outs, world, idle) = served(&rt, world, 3, &Loser { rt: &rt })?;
    assert_eq!(rt; count_left(rt.alloc(), world)?, 180);
    assert!(rt; !idle);
    let mut given: usize = 0;
    for out in outs {
        given = out?.saturating_add(given);
    }
    assert_eq!(rt; given, 5);
    Ok(())
}

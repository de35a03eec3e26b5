//! Threads that share an index whose device stops at one of its calls.

ghost use Rattle.std.specs.Prelude.{◌≡◌};

use crate::failed_calls::{Counted, Failing, made_failing, opens_right};
use crate::indexes::InMemory;
use crate::judge::Addition;
use crate::lists::entry;
use crate::plain::{ALL, actions};
use crate::serving::served;
use crate::session::PlainSession;
use device::CrashImage;
use index_model::{DeadRows, Fault};
use page_action::PageStore;
use shared_index::{Client, SharedIndex, SharedSession};
use shared_world::OriginOn;
use std::process::Abort;
use std::sync::Wait;
use std::test::{Fail, *};
use std::thread::Threads;
use std::time::Clock;
use tests_support::plain::left_by;
use tests_support::plain_world::DeviceWorld;

/// How many threads there are, and how many entries each inserts.
const THREADS: u32 = 3;

const EACH: usize = 6;

/// What a thread was told: which action added each of its entries, and the one that it inserted after a
/// refusal, how many actions are durable, whether a call was refused, and whether all was right.
#[derive(Clone, Copy)]
struct Told {
    added: [Option<u64>; EACH],
    last: Option<u64>,
    durable: u64,
    has_failed: bool,
    is_right: bool,
}

/// The number of the key that a thread inserts at this place.
fn key_of(number: u32, place: usize) -> u16 {
    let each = u16::try_from(EACH).unwrap_or(0);
    let first = u16::try_from(number).unwrap_or(0).wrapping_mul(each);
    first.wrapping_add(u16::try_from(place).unwrap_or(0))
}

/// The number of the key that it inserts after a refusal.
fn last_key(number: u32) -> u16 {
    u16::try_from(number).unwrap_or(0).wrapping_add(40)
}

/// A refusal of a call of a device that has stopped.
fn is_of_device(fault: &Fault) -> bool {
    matches!(fault, Fault::Io | Fault::Stopped)
}

/// Whether a call was told what it may be: a refusal if it must be one, and of the device.
fn is_right<A>(told: &Result<A, Fault>, is_stopped: bool) -> bool {
    match told {
        Ok(_) => !is_stopped,
        Err(fault) => is_of_device(fault),
    }
}

/// Threads that insert, commit and make a checkpoint, until a call is refused.
#[derive(Drop)]
struct Committers<'a, R: Wait> {
    rt: &'a R,
}

impl<'a, R: Wait + Clock + AllocGlobal> Committers<'a, R> {
    /// Inserts an entry, and commits behind each third, or makes a checkpoint.
    fn add<X, K: PlainSession<X>>(
        &self,
        index: &X,
        session: &mut K,
        number: u32,
        place: usize,
        told: &mut Told,
    ) -> Result<(), Fault>
        ensures { K.number session.new ≡ K.number session.old }
    {
        let action = session.insert(self.rt, index, entry(key_of(number, place), 0))?;
        if let Some(added) = told.added.get_mut(place) {
            *added = Some(action);
        }
        if place == 3 && number == 0 {
            told.durable = session.checkpoint(self.rt, index)?;
        } else if place % 3 == 2 {
            told.durable = session.commit(self.rt, index)?;
        }
        Ok(())
    }

    /// A scan of all.
    fn scan_all<X, K: PlainSession<X>>(&self, index: &X, session: &mut K) -> Result<(), Fault>
        ensures { K.number session.new ≡ K.number session.old }
    {
        let Ok(mut given) = Vec::with_capacity(self.rt.alloc(), 64) else {
            return Err(Fault::NoMemory);
        };
        session.scan(self.rt, index, ALL)?;
        if session.batch(self.rt, index, &mut given)? {
            return Ok(());
        }
        session.leave_scan(self.rt, index)
    }

    /// Calls of a session whose device has stopped: an insert, and a commit of it, which is refused. When a
    /// commit was, all that come are.
    fn are_refused<X, K: PlainSession<X>>(
        &self,
        index: &X,
        session: &mut K,
        number: u32,
        told: &mut Told,
    ) -> bool
        ensures { K.number session.new ≡ K.number session.old }
    {
        let inserted = session.insert(self.rt, index, entry(last_key(number), 0));
        if let Ok(action) = &inserted {
            told.last = Some(*action);
        }
        let committed = session.commit(self.rt, index);
        if let Ok(count) = &committed {
            told.durable = *count;
        }
        let has_stopped = committed.is_err();
        let scanned = self.scan_all(index, session);
        let deleted = session.bulk_delete(self.rt, index, 2);
        let cleaned = session.clean_up(self.rt, index);
        let kept = session.checkpoint(self.rt, index);
        is_right(&inserted, false)
            && is_right(&committed, inserted.is_ok())
            && is_right(&scanned, has_stopped)
            && is_right(&deleted, has_stopped)
            && is_right(&cleaned, has_stopped)
            && is_right(&kept, has_stopped)
    }

    fn told<X, K: PlainSession<X>>(&self, index: &X, session: &mut K, number: u32) -> Told
        ensures { K.number session.new ≡ K.number session.old }
    {
        let mut told = Told {
            added: [None; EACH],
            last: None,
            durable: 0,
            has_failed: false,
            is_right: true,
        };
        for place in 0..EACH {
            if let Err(fault) = self.add(index, session, number, place, &mut told) {
                told.has_failed = true;
                told.is_right = is_of_device(&fault)
                    && self.are_refused(index, session, number, &mut told);
                break;
            }
        }
        told
    }
}

impl<'a, S: PageStore, T: DeadRows + Drop, R: Wait + Clock + AllocGlobal> Client<S, T>
    for Committers<'a, R> {
    type Out = Told;

    ghost learnt = { λ out calls. Unit {0} };

    fn work<J: OriginOn<S>>(
        &self,
        index: &SharedIndex<S, T, J>,
        session: &mut SharedSession<J>,
        number: u32,
    ) -> Told {
        self.told(index, session, number)
    }
}

/// Notes that an action added the entry of this key, if one did.
fn note(added: &mut [Option<Addition>], key: u16, action: &Option<u64>) {
    if let Some(action) = action
        && let Some(addition) = added.get_mut(usize::from(key))
    {
        *addition = Some(Addition {
            entry: entry(key, 0),
            action: *action,
        });
    }
}

/// Notes what a thread added, by the numbers of the keys.
fn note_all(added: &mut [Option<Addition>], number: u32, told: &Told) {
    for (place, action) in told.added.iter().enumerate() {
        note(added, key_of(number, place), action);
    }
    note(added, last_key(number), &told.last);
}

/// What the threads were told together.
#[derive(Drop)]
struct AllTold {
    added: Vec<Option<Addition>>,
    durable: u64,
    has_failed: bool,
}

/// What the threads were told, each by its number.
fn all_told(
    rt: &(impl Abort + AllocGlobal + Print + Eprint),
    outs: Vec<Told>,
) -> Result<AllTold, Fail> {
    let mut all = AllTold {
        added: vec![in rt.alloc(); None; 64]?,
        durable: 0,
        has_failed: false,
    };
    let mut number = 0u32;
    for told in outs {
        assert!(rt; told.is_right);
        note_all(all.added.as_mut_slice(), number, &told);
        all.durable = all.durable.max(told.durable);
        all.has_failed = all.has_failed || told.has_failed;
        number = number.saturating_add(1);
    }
    assert_eq!(rt; number, THREADS);
    Ok(all)
}

/// What each crash leaves of a world whose threads were told this: the entries after a prefix of the actions
/// with all that was committed.
fn leaves_prefix<W: DeviceWorld>(
    rt: &(impl Abort + AllocGlobal + Print + Eprint + Threads + Wait + Sync),
    world: &W,
    told: &AllTold,
    counted: &mut Counted,
) -> Result<(), Fail> {
    let last = actions(world);
    for image in [CrashImage::Keep, CrashImage::Drop, CrashImage::Tear] {
        let found = left_by(rt.alloc(), world, image)?;
        opens_right(
            rt,
            found,
            told.added.as_slice(),
            told.durable,
            last,
            counted,
        )?;
    }
    Ok(())
}

/// The same of a world that is left then, and of what its threads answered. Whether a call was refused.
fn stops_right(
    rt: &(impl Abort + AllocGlobal + Print + Eprint + Threads + Wait + Sync),
    world: InMemory,
    outs: Vec<Told>,
    counted: &mut Counted,
) -> Result<bool, Fail> {
    match all_told(rt, outs) {
        Ok(told) => match leaves_prefix(rt, &world, &told, counted) {
            Ok(()) => Ok(told.has_failed),
            Err(fail) => Err(fail),
        },
        Err(fail) => Err(fail),
    }
}

/// The device stops at each of its calls in turn. Each call of a session then is refused by its number, and
/// none waits for ever. A crash leaves the entries after a prefix of the actions with all that was
/// committed.
#[test]
fn device_stops_at_each_call(rt: HostRuntime) -> Result<(), Fail> {
    let mut counted = Counted::default();
    let mut failed = 0u32;
    for n in 1..200u64 {
        let world = made_failing(rt.alloc(), THREADS, Failing::ForGood, n)?;
        let (outs, world, idle) = served(&rt, world, THREADS, &Committers { rt: &rt })?;
        let has_failed = stops_right(&rt, world, outs, &mut counted)?;
        assert!(rt; idle, "{n}");
        if !has_failed {
            break;
        }
        failed = failed.saturating_add(1);
    }
    assert!(rt; failed >= 10 && counted.losing >= 3, "{failed} {counted:?}");
    Ok(())
}

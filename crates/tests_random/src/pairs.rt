//! A world with fewer frames than pages, beside another that does the same with frames for all.

use crate::crashes::{FOR_ALL, OverDevice, OverDevices, on_a_device, opened, opened_again};
use crate::dice::Dice;
use crate::judge::Judge;
use crate::pages::{are_kept, copies};
use crate::past::Past;
use crate::runs::{
    Outcome, Run, acts, are_running, ends_right, fault_of, is_full, judge_of, session_of,
};
use crate::tally::Tally;
use device::{CrashImage, MemDevice};
use index_model::{Entry, Fault};
use page_action::PageStore;
use page_store::Store;
use schedule::Event;
use session_calls::Answer;
use std::alloc::AllocError;
use std::test::Fail;
use tests_support::dead::Blocks;
use tests_support::plain::{fail_at, left_by, one, put, stop_at};
use world::World;

/// As few as a store may have.
const FEW: u32 = 16;

/// A world with few frames, whose device calls fail, and one with frames for all, whose don't. Each does the
/// same events, so their pages are the same; whoever looks at those of the second moves none of the first to
/// or from memory.
#[derive(Drop)]
struct Pair<S: PageStore + Drop> {
    few: World<S, Blocks>,
    all: World<S, Blocks>,
    past: Past,
    judge: Judge,
}

/// What the second does where the first has answered an event so: what only a device or a log refuses, ends
/// the call.
fn event_after(event: Event, answer: &Answer) -> Option<Event> {
    match (event, fault_of(answer)) {
        (Event::Force | Event::Flush | Event::Checkpoint, _) => None,
        (
            Event::Step(session),
            Some(Fault::Io | Fault::Stopped | Fault::LogFull | Fault::NoFrame),
        ) => Some(Event::End(session)),
        (_, Some(Fault::Stopped)) => None,
        _ => Some(event),
    }
}

/// Puts an entry, whatever that answers.
fn puts<S: PageStore>(few: &mut World<S, Blocks>, entry: Entry) -> Result<(), Fault> {
    match put(few, 0, entry, 8) {
        Ok(_answer) => Ok(()),
        Err(fault) => Err(fault),
    }
}

/// Puts some entries.
fn puts_all<S: PageStore>(
    run: Run,
    few: &mut World<S, Blocks>,
    dice: &mut Dice,
    entries: u32,
) -> Result<(), Fault> {
    for _ in 0..entries {
        let entry = dice.entry(run.space);
        puts(few, entry)?;
    }
    Ok(())
}

/// Puts some entries and makes a checkpoint: what a crash leaves then.
fn fill(run: Run, few: &mut OverDevice, dice: &mut Dice, entries: u32) -> Result<MemDevice, Fault> {
    puts_all(run, few, dice, entries)?;
    one(few, Event::Checkpoint);
    left_by(run.alloc, few, CrashImage::Drop)
}

/// A world with frames for all, over what the device of this one holds.
fn beside(run: Run, few: &OverDevice) -> Result<OverDevice, Fault> {
    opened(run, FOR_ALL, left_by(run.alloc, few, CrashImage::Keep)?)
}

/// What is kept of a world with few frames from now on.
fn watched<S: PageStore>(
    run: Run,
    few: &mut World<S, Blocks>,
) -> Result<(Past, Judge), AllocError> {
    let mut judge = judge_of(run, few)?;
    judge.expects_failures();
    judge.expects_frames(FEW);
    let past = Past::new(run.alloc, copies(run.alloc, few)?)?;
    Ok((past, judge))
}

impl<S: PageStore + Drop> Pair<S> {
    /// Of two worlds whose pages are the same, and which have no calls.
    fn new(run: Run, few: World<S, Blocks>, all: World<S, Blocks>) -> Result<Pair<S>, AllocError> {
        let mut few = few;
        let (past, judge) = watched(run, &mut few)?;
        Ok(Pair {
            few,
            all,
            past,
            judge,
        })
    }

    /// Has the second do what the first has answered so: whether it has made an action.
    fn does(&mut self, event: Event, answer: &Answer) -> bool {
        if self.all.room() < 8 {
            let _ = one(&mut self.all, Event::Checkpoint);
        }
        let before = self.all.actions();
        if let Some(same) = event_after(event, answer) {
            let _ = one(&mut self.all, same);
        }
        self.all.actions() != before
    }

    /// Has the second do what the first has answered so: whether that has changed the pages as is right.
    fn follows(&mut self, run: Run, event: Event, answer: &Answer) -> Result<bool, AllocError> {
        if !self.does(event, answer) {
            return Ok(are_kept(&mut self.all, self.judge.pages()));
        }
        let is_right = acts(
            run.alloc,
            &mut self.all,
            &mut self.judge,
            session_of(&event),
        )?;
        self.past.leads_to(self.judge.pages())?;
        Ok(is_right)
    }

    /// An event: whether it is right.
    fn one(&mut self, run: Run, event: Event) -> Result<bool, AllocError> {
        let answer = one(&mut self.few, event);
        let is_right = self.follows(run, event, &answer)? && self.judge.hears(&event, &answer)?;
        Ok(is_right && self.agree(run) && is_full(&self.few, run.limits, &answer))
    }

    /// A random event: whether it is right.
    fn makes(&mut self, run: Run, dice: &mut Dice) -> Result<bool, AllocError> {
        let event = dice.event(run.space);
        self.one(run, event)
    }

    /// Forty random events: whether they are right.
    fn makes_some(&mut self, run: Run, dice: &mut Dice) -> Result<bool, AllocError> {
        for _ in 0..40 {
            if !self.makes(run, dice)? {
                return Ok(false);
            }
        }
        Ok(true)
    }

    /// A force, which tells whether the log has failed: whether it is right, and whether all pages of the
    /// first are as they should be, if its log has not failed.
    fn is_kept(&mut self, run: Run) -> Result<bool, AllocError> {
        Ok(
            self.one(run, Event::Force)?
                && (self.judge.is_stopped() || are_kept(&mut self.few, self.judge.pages())),
        )
    }

    /// Whether the first, opened after a crash, has the entries and the pages after some prefix of the
    /// actions that holds every forced one.
    fn leads_on(&mut self, run: Run, tally: &mut Tally) -> Result<bool, AllocError> {
        let next = judge_of(run, &mut self.few)?;
        let part = self.past.part_of(next.pages(), self.judge.forced())?;
        let is_right = self.judge.crashes(&next) && part.is_some();
        tally.join(self.judge.tally());
        Ok(is_right)
    }

    /// Watches both from now on.
    fn is_watched(&mut self, run: Run) -> Result<(), AllocError> {
        let (past, judge) = watched(run, &mut self.few)?;
        self.past = past;
        self.judge = judge;
        Ok(())
    }

    /// Whether both worlds have made the actions and run the calls that the judge knows.
    fn agree(&self, run: Run) -> bool {
        let actions = self.judge.actions() as u64;
        self.few.actions() == actions
            && self.all.actions() == actions
            && are_running(&self.few, &self.judge, run.space.sessions)
            && are_running(&self.all, &self.judge, run.space.sessions)
    }
}

impl Pair<Store<MemDevice>> {
    /// What [`Pair::is_kept`] says while no call is made to fail.
    fn looks(&mut self, run: Run) -> Result<bool, AllocError> {
        fail_at(&mut self.few, 0);
        self.is_kept(run)
    }

    /// Now and then a later device call is made to fail.
    fn may_fail(&mut self, dice: &mut Dice) {
        if dice.roll(48) == 0 {
            fail_at(&mut self.few, u64::from(dice.roll(20)) + 1);
        }
    }

    /// At most so many random events, few once the log has failed: whether all are right. Now and then a
    /// later device call is made to fail, and now and then all pages are looked at.
    fn runs(&mut self, run: Run, dice: &mut Dice, events: u32) -> Result<bool, AllocError> {
        for _ in 0..events {
            self.may_fail(dice);
            if !self.makes(run, dice)? || dice.roll(64) == 0 && !self.looks(run)? {
                return Ok(false);
            }
            if self.judge.is_stopped() && dice.roll(16) == 0 {
                return Ok(true);
            }
        }
        Ok(true)
    }

    /// Half of the times the device stops after some calls more, and some events are made: whether all are
    /// right.
    fn stops(&mut self, run: Run, dice: &mut Dice) -> Result<bool, AllocError> {
        if dice.roll(2) == 0 {
            return Ok(true);
        }
        stop_at(&mut self.few, u64::from(dice.roll(40)) + 1);
        self.makes_some(run, dice)
    }

    /// Random events and a crash, after which the first is opened: whether all is right.
    fn crashes(
        &mut self,
        run: Run,
        dice: &mut Dice,
        tally: &mut Tally,
        events: u32,
    ) -> Result<bool, Fail> {
        if !self.runs(run, dice, events)? || !self.stops(run, dice)? {
            return Ok(false);
        }
        self.few = opened_again::<OverDevices>(run, FEW, &self.few, dice, tally)?;
        Ok(self.leads_on(run, tally)?)
    }

    /// The first gets some entries more, and is opened again; the second stands beside it.
    fn goes_on(&mut self, run: Run, dice: &mut Dice) -> Result<(), Fail> {
        let left = fill(run, &mut self.few, dice, 60)?;
        self.few = opened(run, FEW, left)?;
        self.all = beside(run, &self.few)?;
        self.is_watched(run)?;
        Ok(())
    }

    /// So many crashes, each after at most so many events: whether all is right.
    fn crashes_on(
        &mut self,
        run: Run,
        dice: &mut Dice,
        tally: &mut Tally,
        [crashes, events]: [u32; 2],
    ) -> Result<bool, Fail> {
        for _ in 0..crashes {
            if !self.crashes(run, dice, tally, events)? {
                return Ok(false);
            }
            self.goes_on(run, dice)?;
        }
        Ok(true)
    }
}

/// What a crash leaves of a new index that got some entries.
fn left_by_filling(run: Run, dice: &mut Dice) -> Result<MemDevice, Fault> {
    let mut few = on_a_device::<OverDevices>(run, FEW)?;
    fill(run, &mut few, dice, 200)
}

/// A world with few frames over a new index with some entries, and one with frames for all beside it.
fn pair_of(run: Run, dice: &mut Dice) -> Result<Pair<Store<MemDevice>>, Fail> {
    let few = opened(run, FEW, left_by_filling(run, dice)?)?;
    let all = beside(run, &few)?;
    Ok(Pair::new(run, few, all)?)
}

/// The end of a run: whether it is right.
fn ends<S: PageStore>(
    run: Run,
    few: &mut World<S, Blocks>,
    dice: &mut Dice,
    tally: &mut Tally,
) -> Result<bool, AllocError> {
    let mut judge = judge_of(run, few)?;
    let is_right = ends_right(run, few, &mut judge, dice)?;
    tally.join(judge.tally());
    Ok(is_right)
}

/// So many crashes, each after at most so many events, and the end of the run: whether all is right.
fn runs_right(
    run: Run,
    dice: &mut Dice,
    tally: &mut Tally,
    counts: [u32; 2],
) -> Result<bool, Fail> {
    let mut pair = pair_of(run, dice)?;
    let is_right = pair.crashes_on(run, dice, tally, counts)?;
    let ends = ends(run, &mut pair.few, dice, tally).unwrap_or(false);
    Ok(is_right && ends)
}

/// A run with few frames over a device with so many crashes, each after at most so many events. Before them,
/// and after each crash, it gets some entries.
pub fn crashed_with_few(run: Run, seed: u64, crashes: u32, events: u32) -> Result<Outcome, Fail> {
    let mut dice = Dice::new(seed);
    let mut tally = Tally::default();
    let is_right = runs_right(run, &mut dice, &mut tally, [crashes, events])?;
    Ok(Outcome { is_right, tally })
}

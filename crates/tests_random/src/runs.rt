//! Runs of a world that a judge hears.

use crate::dice::{Dice, Space};
use crate::judge::Judge;
use crate::pages::{are_kept, contents, copies};
use crate::tally::Tally;
use index_model::{Fault, Limits, Range};
use schedule::Event;
use session_calls::Answer;
use std::alloc::{AllocError, Global};
use tests_support::plain;
use tests_support::plain_world::PlainWorld;

/// What stays the same in a run.
#[derive(Clone, Copy)]
pub struct Run {
    pub alloc: Global,
    pub limits: Limits,
    pub space: Space,
}

/// Whether all of a run was right, and what it came to.
#[derive(Clone, Copy, Debug)]
pub struct Outcome {
    pub is_right: bool,
    pub tally: Tally,
}

/// A judge of a world without calls that has made no action.
pub fn judge_of<W: PlainWorld>(run: Run, world: &mut W) -> Result<Judge, AllocError> {
    let pages = copies(run.alloc, world)?;
    let start = contents(run.alloc, &pages)?;
    Judge::new(run.alloc, run.limits.unique, run.space, pages, start)
}

/// The session that an event names.
pub fn session_of(event: &Event) -> u32 {
    match event {
        Event::Insert(session, _)
        | Event::Scan(session, _)
        | Event::Bulk(session, _)
        | Event::Cleanup(session)
        | Event::Step(session)
        | Event::Next(session)
        | Event::End(session) => *session,
        Event::Force | Event::Flush | Event::Checkpoint => u32::MAX,
    }
}

/// Keeps the action that the session's call just made: whether it is right.
pub fn acts<W: PlainWorld>(
    alloc: Global,
    world: &mut W,
    judge: &mut Judge,
    session: u32,
) -> Result<bool, AllocError> {
    let pages = copies(alloc, world)?;
    let entries = contents(alloc, &pages)?;
    judge.acts(session, pages, &entries)
}

/// What an answer says that kept it from more.
pub fn fault_of(answer: &Answer) -> Option<Fault> {
    match answer {
        Answer::Refused(fault) => Some(*fault),
        Answer::Added { unfinished, .. } => *unfinished,
        _ => None,
    }
}

/// Whether what the answer calls full is full: each block is used, or the log has no room for the images of
/// an act, which are four at most.
pub fn is_full<W: PlainWorld>(world: &W, limits: Limits, answer: &Answer) -> bool {
    match fault_of(answer) {
        Some(Fault::IndexFull) => world.used() == limits.pages,
        Some(Fault::LogFull) => world.room() < 4,
        _ => true,
    }
}

/// Whether the same sessions run calls.
pub fn are_running<W: PlainWorld>(world: &W, judge: &Judge, sessions: u32) -> bool {
    (0..sessions).all(|session| world.is_running(session) == judge.is_running(session))
}

/// Whether the world has made the actions and runs the calls that the judge knows, and what the answer calls
/// full is full.
fn agree<W: PlainWorld>(run: Run, world: &W, judge: &Judge, answer: &Answer) -> bool {
    world.actions() == judge.actions() as u64
        && are_running(world, judge, run.space.sessions)
        && is_full(world, run.limits, answer)
}

/// Does one event: its answer, or None if that is wrong, or what it has done.
pub fn one<W: PlainWorld>(
    run: Run,
    world: &mut W,
    judge: &mut Judge,
    event: Event,
) -> Result<Option<Answer>, AllocError> {
    let before = world.actions();
    let answer = plain::one(world, event);
    let is_kept = if world.actions() == before {
        are_kept(world, judge.pages())
    } else {
        acts(run.alloc, world, judge, session_of(&event))?
    };
    let is_right = is_kept && judge.hears(&event, &answer)? && agree(run, world, judge, &answer);
    Ok(if is_right { Some(answer) } else { None })
}

/// Does one event: whether its answer is right, and what it has done.
pub fn is_right<W: PlainWorld>(
    run: Run,
    world: &mut W,
    judge: &mut Judge,
    event: Event,
) -> Result<bool, AllocError> {
    Ok(one(run, world, judge, event)?.is_some())
}

/// So many random events: whether all are right.
pub fn are_right<W: PlainWorld>(
    run: Run,
    world: &mut W,
    judge: &mut Judge,
    dice: &mut Dice,
    events: u32,
) -> Result<bool, AllocError> {
    for _ in 0..events {
        let event = dice.event(run.space);
        if one(run, world, judge, event)?.is_none() {
            return Ok(false);
        }
    }
    Ok(true)
}

/// Takes what the call of session 0 has ready, and makes a step of it: whether both are right, and nothing
/// blocks it.
fn goes_on<W: PlainWorld>(run: Run, world: &mut W, judge: &mut Judge) -> Result<bool, AllocError> {
    for _ in 0..50 {
        match one(run, world, judge, Event::Next(0))? {
            Some(Answer::Gave(Some(_))) => {}
            Some(_) => break,
            None => return Ok(false),
        }
    }
    Ok(match one(run, world, judge, Event::Step(0))? {
        Some(Answer::Refused(Fault::Blocked(_))) | None => false,
        Some(_) => true,
    })
}

/// Begins a call of session 0, which alone has one, and runs it to its end: whether all of it is right, and
/// nothing blocks it.
pub fn runs_alone<W: PlainWorld>(
    run: Run,
    world: &mut W,
    judge: &mut Judge,
    event: Event,
) -> Result<bool, AllocError> {
    if one(run, world, judge, event)?.is_none() {
        return Ok(false);
    }
    for _ in 0..1_000 {
        if !world.is_running(0) {
            return Ok(true);
        }
        if !goes_on(run, world, judge)? {
            return Ok(false);
        }
    }
    Ok(false)
}

/// Gives each call up: whether that is right.
fn gives_all_up<W: PlainWorld>(
    run: Run,
    world: &mut W,
    judge: &mut Judge,
) -> Result<bool, AllocError> {
    for session in 0..run.space.sessions {
        if one(run, world, judge, Event::End(session))?.is_none() {
            return Ok(false);
        }
    }
    Ok(true)
}

/// Gives each call up, and then inserts some entries, deletes those of one row and scans all, alone. Whether
/// that is right: nothing blocks it, the delete tells how many entries are left, and the scan gives exactly
/// the contents.
pub fn ends_right<W: PlainWorld>(
    run: Run,
    world: &mut W,
    judge: &mut Judge,
    dice: &mut Dice,
) -> Result<bool, AllocError> {
    if !gives_all_up(run, world, judge)? {
        return Ok(false);
    }
    for _ in 0..10 {
        let entry = dice.entry(run.space);
        if !runs_alone(run, world, judge, Event::Insert(0, entry))? {
            return Ok(false);
        }
    }
    let all = Range {
        from: None,
        below: None,
    };
    Ok(
        runs_alone(run, world, judge, Event::Bulk(0, 0))?
            && judge.tells_all()
            && runs_alone(run, world, judge, Event::Scan(0, all))?
            && judge.has_given_all(),
    )
}

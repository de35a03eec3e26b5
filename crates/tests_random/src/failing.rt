//! Scripts during which calls of the device fail: each once in turn, and each with all after it.

use crate::crashes::{FOR_ALL, Opens, on_a_device};
use crate::judge::Judge;
use crate::pages::copies;
use crate::reopening::{Counted, opens_right, stops_opening};
use crate::runs::{Run, fault_of, judge_of, one};
use crate::scripts::{Line, Script};
use index_model::Fault;
use session_calls::Answer;
use std::alloc::AllocError;
use std::test::Fail;
use tests_support::plain::{fail_at, one as did, stop_at};
use tests_support::plain_world::{DeviceWorld, PlainWorld};

/// A script whose lines are made once each, each with its answer if no call fails.
#[derive(Drop)]
pub struct Played {
    pub lines: Vec<Line>,
    pub answers: Vec<Answer>,
    /// How many calls of the device these lines made, after those of making and opening the index and of
    /// looking at its pages.
    pub calls: u64,
}

/// An empty index at whose pages a judge has looked, so that they are in memory.
fn looked_at<O: Opens>(run: Run) -> Result<O::World, Fail> {
    let mut world = on_a_device::<O>(run, FOR_ALL)?;
    copies(run.alloc, &mut world)?;
    Ok(world)
}

/// How many calls of its device a world has made.
fn calls_of<O: Opens>(world: O::World) -> u64 {
    O::device_of(world).calls()
}

/// Makes what a line says, once or to the end of its call, and notes it each time with its answer.
fn play_line<W: PlainWorld>(
    world: &mut W,
    line: Line,
    played: &mut Played,
) -> Result<(), AllocError> {
    for _ in 0..1_000 {
        played.lines.push(line)?;
        played.answers.push(did(world, line.event()))?;
        let goes_on = matches!(played.answers.last(), Some(Answer::Going));
        if !goes_on || !matches!(line, Line::Run(_)) {
            break;
        }
    }
    Ok(())
}

/// Runs a script over a new index, in which no call fails. A force, a flush and a checkpoint stand after it.
/// Their calls aren't counted yet.
fn play_lines<W: PlainWorld>(
    run: Run,
    world: &mut W,
    script: &Script,
) -> Result<Played, AllocError> {
    let mut played = Played {
        lines: Vec::new(run.alloc),
        answers: Vec::new(run.alloc),
        calls: 0,
    };
    for line in script.lines.as_slice() {
        play_line(world, *line, &mut played)?;
    }
    for line in [Line::Force, Line::Flush, Line::Checkpoint] {
        play_line(world, line, &mut played)?;
    }
    Ok(played)
}

/// So, and counts the calls of the device.
pub fn play<O: Opens>(run: Run, script: &Script) -> Result<Played, Fail> {
    let fresh = calls_of::<O>(looked_at::<O>(run)?);
    let mut world = looked_at::<O>(run)?;
    let played = play_lines(run, &mut world, script);
    let calls = calls_of::<O>(world).saturating_sub(fresh);
    let mut played = played?;
    played.calls = calls;
    Ok(played)
}

fn are_alike(a: &Answer, b: &Answer) -> bool {
    match (a, b) {
        (Answer::Begun, Answer::Begun) => true,
        (Answer::Going, Answer::Going) => true,
        (Answer::Done, Answer::Done) => true,
        (Answer::Ended, Answer::Ended) => true,
        (
            Answer::Added {
                action: a,
                unfinished: x,
            },
            Answer::Added {
                action: b,
                unfinished: y,
            },
        ) => a == b && x == y,
        (Answer::Ready(a), Answer::Ready(b)) => a == b,
        (Answer::Finished(a), Answer::Finished(b)) => a == b,
        (Answer::Gave(a), Answer::Gave(b)) => a == b,
        (Answer::Forced(a), Answer::Forced(b)) => a == b,
        (Answer::Flushed(a), Answer::Flushed(b)) => a == b,
        (Answer::Checkpointed(a), Answer::Checkpointed(b)) => a == b,
        (Answer::Refused(a), Answer::Refused(b)) => a == b,
        _ => false,
    }
}

/// Runs the events of a script, of which the judge hears, while a call fails: whether all is right, each
/// answer before is that of the undisturbed run, and the first other one tells of the failure.
fn replays<W: PlainWorld>(
    run: Run,
    world: &mut W,
    judge: &mut Judge,
    script: &Played,
) -> Result<bool, AllocError> {
    judge.expects_failures();
    let mut has_failed = false;
    for (line, undisturbed) in script.lines.iter().zip(script.answers.iter()) {
        let Some(answer) = one(run, world, judge, line.event())? else {
            return Ok(false);
        };
        if !has_failed && !are_alike(&answer, undisturbed) {
            if fault_of(&answer) != Some(Fault::Io) {
                return Ok(false);
            }
            has_failed = true;
        }
    }
    Ok(has_failed)
}

/// From the nth device call on one fails, or all.
fn will_fail<W: DeviceWorld>(world: &mut W, n: u64, for_good: bool) {
    if for_good {
        stop_at(world, n);
    } else {
        fail_at(world, n);
    }
}

/// Whether the run in which the nth call fails, once or with all after it, is right, and then what is opened
/// after a crash of each kind. If all fail, an opening is stopped at some of its calls too, and what is
/// opened after that is right.
pub fn fails<O: Opens>(
    run: Run,
    script: &Played,
    n: u64,
    for_good: bool,
    counted: &mut Counted,
) -> Result<bool, Fail> {
    let mut world = looked_at::<O>(run)?;
    will_fail(&mut world, n, for_good);
    counted.failed = counted.failed.saturating_add(1);
    is_right_then::<O>(run, &mut world, script, n, for_good, counted)
}

/// The run of a world whose nth call fails, and what is opened after it.
fn is_right_then<O: Opens>(
    run: Run,
    world: &mut O::World,
    script: &Played,
    n: u64,
    for_good: bool,
    counted: &mut Counted,
) -> Result<bool, Fail> {
    let mut judge = judge_of(run, world)?;
    let is_right = replays(run, world, &mut judge, script).unwrap_or(false)
        && opens_right::<O>(run, world, &mut judge, n, counted)?;
    if !is_right || !for_good {
        return Ok(is_right);
    }
    stops_opening::<O>(run, world, &mut judge, n, counted)
}

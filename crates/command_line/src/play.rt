//! Scripts.

ghost use Rattle.std.specs.Prelude.{◌≡◌, Ok, IsSome, IfErr, IfOk, IfSome, IfNone};
ghost use Rattle.command_line.specs.Events.{line_event};
ghost use Rattle.command_line.specs.Settings.{IsNotMade};

use crate::dead::{DeadList, dead_of};
use crate::end::End;
use crate::engine::{Engine, Setting, Sink};
use crate::line::{Crash, Line, LineError, parse};
use crate::refusal::print_no_event;
use device::CrashImage;
use index_model::{Entry, Fault, Range};
use page_codec::Page;
use schedule::Event;
use std::alloc::{AllocError, Global};
use std::io::{self, Read, Write};
use text_forms::{first_line, print_answer, print_entry, print_page, print_refused};

/// Prints what an engine gives.
#[derive(Drop)]
struct Printer<'a, W> {
    out: &'a mut W,
}

impl<W: Write> Sink for Printer<'_, W> {
    fn entry(&mut self, entry: &Entry) -> io::Result<()> {
        print_entry(self.out, entry)
    }

    fn page(&mut self, page: &Page) -> io::Result<()> {
        print_page(self.out, page)
    }
}

/// What a script leaves: the index that it was run over, if one was made, and how it ends.
#[derive(Drop)]
pub struct RanScript {
    pub engine: Option<Engine>,
    pub end: io::Result<End>,
}

/// Reads a script to its end and runs it, printing an answer for each line. The first line that is no event
/// ends it. If there is no index, nothing is printed: it is refused as `Engine::new` is then.
pub fn play<R: Read, W: Write, E: Write>(
    alloc: Global,
    setting: &Setting,
    input: &mut R,
    out: &mut W,
    err: &mut E,
) -> RanScript
    ensures run { result.end ≡ Ok End.Done → IsSome result.engine }
    // It was run over an index with the pages in memory and the sessions that were asked for.
    ensures asked { IfSome result.engine (λ engine. engine.setting ≡ setting.now) }
    ensures silent { IfNone result.engine (W.contents out.new ≡ W.contents out.old) }
    ensures refused { (fault : Fault) → result.end ≡ Ok (End.Refused fault)
        → IfNone result.engine (IsNotMade setting.now fault) }
{
    let mut text = Vec::new(alloc);
    match input.read_to_end(&mut text) {
        Ok(_) => play_text(alloc, setting, text.as_slice(), out, err),
        Err(error) => RanScript {
            engine: None,
            end: Err(error),
        },
    }
}

/// The same for a script that was read.
fn play_text<W: Write, E: Write>(
    alloc: Global,
    setting: &Setting,
    text: &[u8],
    out: &mut W,
    err: &mut E,
) -> RanScript
    ensures run { result.end ≡ Ok End.Done → IsSome result.engine }
    ensures asked { IfSome result.engine (λ engine. engine.setting ≡ setting.now) }
    ensures silent { IfNone result.engine (W.contents out.new ≡ W.contents out.old) }
    ensures refused { (fault : Fault) → result.end ≡ Ok (End.Refused fault)
        → IfNone result.engine (IsNotMade setting.now fault) }
{
    match begin(alloc, setting, text) {
        Ok(mut engine) => {
            let end = run(alloc, &mut engine, text, out, err);
            RanScript {
                engine: Some(engine),
                end,
            }
        }
        Err(fault) => RanScript {
            engine: None,
            end: Ok(End::Refused(fault)),
        },
    }
}

/// An empty index, with the sets of the `bulk` lines up to the first crash. Refused as `Engine::new` is.
fn begin(alloc: Global, setting: &Setting, text: &[u8]) -> Result<Engine, Fault>
    ensures setting { IfOk result (λ engine. engine.setting ≡ setting.now) }
    ensures cause { IfErr result (IsNotMade setting.now) }
{
    match sets_of(alloc, text) {
        Ok(sets) => Engine::new(alloc, setting, sets),
        Err(_) => Err(Fault::NoMemory),
    }
}

fn run<W: Write, E: Write>(
    alloc: Global,
    engine: &mut Engine,
    text: &[u8],
    out: &mut W,
    err: &mut E,
) -> io::Result<End>
    ensures { engine.new.setting ≡ engine.old.setting }
{
    let mut number = 0u64;
    // The place of the next `bulk` line among those of its index.
    let mut set = 0u32;
    let mut rest = text;
    while !rest.is_empty() {
        number = number.saturating_add(1);
        let (line, later) = first_line(rest);
        rest = later;
        match play_line(alloc, engine, line, rest, &mut set, out)? {
            Played::Answered => {}
            Played::NoEvent => {
                out.flush()?;
                print_no_event(err, number)?;
                return Ok(End::AlreadyPrinted);
            }
            Played::NotOpened(fault) => return Ok(End::Refused(fault)),
        }
    }
    Ok(End::Done)
}

/// The sets of the `bulk` lines up to the first crash.
fn sets_of(alloc: Global, script: &[u8]) -> Result<Vec<DeadList>, AllocError> {
    let mut sets = Vec::new(alloc);
    let mut rest = script;
    while !rest.is_empty() {
        let (line, later) = first_line(rest);
        rest = later;
        match parse(line) {
            Ok(Line::Crash(_)) => return Ok(sets),
            Ok(line) => {
                if let Some(dead) = dead_of(alloc, line)? {
                    sets.push(dead)?;
                }
            }
            Err(_) => {}
        }
    }
    Ok(sets)
}

/// What a line did.
#[derive(Clone, Copy, Debug, PartialEq, Eq)]
enum Played {
    /// Its answer is printed, if it has one.
    Answered,
    /// Nothing: it is no event.
    NoEvent,
    /// The index couldn't be opened again after a crash. The refusal is printed.
    NotOpened(Fault),
}

/// Does what a line says, which has this rest after it, and prints the answer.
fn play_line<W: Write>(
    alloc: Global,
    engine: &mut Engine,
    text: &[u8],
    rest: &[u8],
    set: &mut u32,
    out: &mut W,
) -> io::Result<Played>
    ensures { engine.new.setting ≡ engine.old.setting }
{
    match parse(text) {
        Ok(line) => play_event(alloc, engine, &line, rest, set, out),
        Err(LineError::NotAnEvent) => Ok(Played::NoEvent),
        Err(LineError::Refused(fault)) => {
            print_refused(out, fault)?;
            Ok(Played::Answered)
        }
    }
}

/// The same for a line that was read.
fn play_event<W: Write>(
    alloc: Global,
    engine: &mut Engine,
    line: &Line<'_>,
    rest: &[u8],
    set: &mut u32,
    out: &mut W,
) -> io::Result<Played>
    ensures { engine.new.setting ≡ engine.old.setting }
{
    if let Some(event) = event_of(line, *set) {
        if let Event::Bulk(_, _) = event {
            *set = set.saturating_add(1);
        }
        print_answer(out, &engine.one(event))?;
        return Ok(Played::Answered);
    }
    match line {
        Line::Nothing => {}
        Line::Run(session) => print_answer(out, &engine.run(*session))?,
        Line::Put(session, entry) => print_answer(out, &engine.put(*session, entry))?,
        Line::List(session, range) => play_list(engine, *session, range, out)?,
        Line::Dump => play_dump(engine, out)?,
        Line::Fail(n) => {
            engine.fail_at(*n);
            writeln!(out, "set")?;
        }
        Line::Stop(n) => {
            engine.stop_at(*n);
            writeln!(out, "set")?;
        }
        Line::Crash(crash) => return play_crash(alloc, engine, *crash, rest, set, out),
        _ => unreachable!(),
    }
    Ok(Played::Answered)
}

/// The event that a line is, if it is one; a bulk delete's set has this place among the sets.
fn event_of(line: &Line<'_>, set: u32) -> Option<Event>
    ensures { result ≡ line_event set line.now }
{
    match line {
        Line::Insert(session, entry) => Some(Event::Insert(*session, *entry)),
        Line::Scan(session, range) => Some(Event::Scan(*session, *range)),
        Line::Bulk(session, _) => Some(Event::Bulk(*session, set)),
        Line::Cleanup(session) => Some(Event::Cleanup(*session)),
        Line::Step(session) => Some(Event::Step(*session)),
        Line::Next(session) => Some(Event::Next(*session)),
        Line::End(session) => Some(Event::End(*session)),
        Line::Force => Some(Event::Force),
        Line::Flush => Some(Event::Flush),
        Line::Checkpoint => Some(Event::Checkpoint),
        _ => None,
    }
}

/// A crash, and the index opened again, with the sets of the lines that follow.
fn play_crash<W: Write>(
    alloc: Global,
    engine: &mut Engine,
    crash: Crash,
    rest: &[u8],
    set: &mut u32,
    out: &mut W,
) -> io::Result<Played>
    ensures { engine.new.setting ≡ engine.old.setting }
{
    let image = match crash {
        Crash::Keep => CrashImage::Keep,
        Crash::Drop => CrashImage::Drop,
        Crash::Tear => CrashImage::Tear,
    };
    let reopened = match sets_of(alloc, rest) {
        Ok(sets) => engine.crash(image, sets),
        Err(_) => Err(Fault::NoMemory),
    };
    match &reopened {
        Ok(()) => {
            *set = 0;
            writeln!(out, "opened")?;
            Ok(Played::Answered)
        }
        Err(fault) => {
            print_refused(out, *fault)?;
            Ok(Played::NotOpened(*fault))
        }
    }
}

fn play_list<W: Write>(
    engine: &mut Engine,
    session: u32,
    range: &Range,
    out: &mut W,
) -> io::Result<()>
    ensures { engine.new.setting ≡ engine.old.setting }
{
    match engine.list(session, range, &mut Printer { out })? {
        Ok(count) => writeln!(out, "done {count}"),
        Err(fault) => print_refused(out, fault),
    }
}

fn play_dump<W: Write>(engine: &mut Engine, out: &mut W) -> io::Result<()>
    ensures { engine.new.setting ≡ engine.old.setting }
{
    match engine.dump(&mut Printer { out })? {
        Ok(()) => Ok(()),
        Err(fault) => print_refused(out, fault),
    }
}

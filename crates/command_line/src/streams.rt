//! The program over any streams.

ghost use Rattle.std.specs.Prelude.{◌≡◌, ◌≤◌, Ok, codes, map, IfOk, OnOk, OnErr};
ghost use Rattle.std.specs.Io.KnownBytes.{Keeps};
ghost use Rattle.clap.specs.Words.{found_of, kind_of, one_text, subcommand_rows_of};
ghost use Rattle.command_line.specs.Commands.{PrintsCommand, ChecksAs, NamesNone};
ghost use Rattle.command_line.specs.Ends.{status_of};
ghost use Rattle.command_line.specs.Left.{end_of, IsRun, IfNotRun};
ghost use Rattle.command_line.specs.Program.{KeepsLine, named_by};

use crate::command::{
    copy_setting, has_one_thread, has_parents, has_progress, limits, path, program, run_setting,
    setting,
};
use crate::copying::copy;
use crate::dead::DeadList;
use crate::end::End;
use crate::file_commands::{Looked, check, check_one, create, dump};
use crate::left::Left;
use crate::play::play;
use crate::progress_line::ProgressLine;
use crate::refusal::print_refusal;
use crate::running;
use crate::said::{Said, print_said};
use clap::error::ErrorKind;
use clap::{ArgMatches, Error};
use device::{Device, FileDevice, Start, Zeros};
use index_model::{DeadRows, Fault, Progress};
use page_action::PageStore;
use page_store::Store;
use std::alloc::Global;
use std::convert::AsStr;
use std::fs::File;
use std::io::{self, Read, Write};
use std::rt::Files;
use std::sync::Wait;
use std::thread::Threads;

/// What the program leaves.
#[derive(Drop)]
pub struct Executed<'a, D, N, S> {
    /// 0 if all was done, 1 if a check found damage, 2 if the program was refused.
    pub status: u8,
    /// What the command left.
    pub left: Left<'a, D, N, S>,
    /// Whether the output took all at the end.
    pub flushed: io::Result<()>,
}

/// Runs the command of these words, the program's own name first. `input` is read by `play`. What the command
/// prints goes to `out` in many small pieces, so `out` is best a buffer; it is flushed at the end. A refusal
/// is printed on `err`.
///
/// The file of an index held what `B` says when it was opened: that is proved for all bytes, and `main` names
/// some.
pub fn execute<
    'a,
    F: Files<File = File> + Threads + Wait + Sync,
    B: Start + Send,
    S: AsStr,
    R: Read,
    W: Write,
    E: Write + Send,
>(
    rt: &F,
    alloc: Global,
    words: &'a [S],
    input: &mut R,
    out: &mut W,
    err: &mut E,
) -> Executed<'a, FileDevice<B>, FileDevice<Zeros>, Store<FileDevice<B>>>
    // The command that the words name was run, with what they say, and printed what it tells.
    ensures printed { PrintsCommand ⟦<FileDevice<B> as Device>⟧ ⟦<FileDevice<Zeros> as Device>⟧
        ⟦<Store<FileDevice<B>> as PageStore>⟧ ⟦<DeadList as DeadRows>⟧ B.Start.bytes
        (named_by (map S.text words.entry.now))
        (W.contents out.old) (W.contents out.new) result.left }
    // No command is run on words that break the command line.
    ensures fit { IsRun result.left → KeepsLine (map S.text words.entry.now) }
    // If the words keep it and no command is run, there was no memory.
    ensures no_memory { KeepsLine (map S.text words.entry.now)
        → IfNotRun result.left (end_of result.left ≡ Ok (End.Refused Fault.NoMemory)) }
    ensures silent { KeepsLine (map S.text words.entry.now)
        → IfNotRun result.left (Keeps (W.contents out.old) (W.contents out.new)) }
    ensures status { OnOk result.flushed
        (IfOk (end_of result.left) (λ end. result.status ≡ status_of end)) }
    ensures broken { OnErr (end_of result.left) (result.status ≡ 2) }
    ensures not_flushed { OnErr result.flushed (result.status ≡ 2) }
    ensures low { result.status ≤ 2 }
{
    let left = command::<F, B, S, R, W, E>(rt, alloc, words, input, out, err);
    let flushed = out.flush();
    Executed {
        status: status(left.end(), &left.said(), &flushed, err),
        left,
        flushed,
    }
}

/// Runs the command of these words as [`execute`] does, and answers its status alone: 0, 1 or 2. What that
/// promises isn't told again, since a caller that holds it costs minutes to prove. `main` needs the status.
pub fn execute_for_status<
    F: Files<File = File> + Threads + Wait + Sync,
    B: Start + Send,
    S: AsStr,
    R: Read,
    W: Write,
    E: Write + Send,
>(rt: &F, alloc: Global, words: &[S], input: &mut R, out: &mut W, err: &mut E) -> u8
    ensures low { result ≤ 2 }
{
    status_of_done(execute::<F, B, S, R, W, E>(rt, alloc, words, input, out, err))
}

// What was executed is let go, whatever it left.
fn status_of_done<D: Drop, N: Drop, T: Drop>(done: Executed<'_, D, N, T>) -> u8
    ensures status { result ≡ done.entry.status }
{
    done.status
}

/// The status of a command that ended so, and whose output was flushed so. A refusal is printed.
fn status<E: Write>(
    end: &io::Result<End>,
    said: &Option<Said<'_>>,
    flushed: &io::Result<()>,
    err: &mut E,
) -> u8
    ensures ended { OnOk flushed.now (IfOk end.now (λ end. result ≡ status_of end)) }
    ensures broken { OnErr end.now (result ≡ 2) }
    ensures not_flushed { OnErr flushed.now (result ≡ 2) }
    ensures low { result ≤ 2 }
{
    if let Err(error) = flushed {
        return refuse_stream(err, error);
    }
    match end {
        Ok(End::Done) => {
            tell(err, said);
            0
        }
        Ok(End::Damaged) => 1,
        Ok(End::AlreadyPrinted) => 2,
        Ok(End::Refused(fault)) => refuse_for(err, *fault, said),
        Err(error) => match said {
            Some(_) => refuse_for(err, fault_of(error), said),
            None => refuse_stream(err, error),
        },
    }
}

// Says what the system said, if it said something.
fn tell<E: Write>(err: &mut E, said: &Option<Said<'_>>) {
    if let Some(said) = said {
        let _ = print_said(err, said.path, &said.error);
    }
}

// Says what refused the program, and what the system said, if that is why.
fn refuse_for<E: Write>(err: &mut E, fault: Fault, said: &Option<Said<'_>>) -> u8
    ensures { result ≡ 2 }
{
    let _ = print_refusal(err, fault);
    tell(err, said);
    2
}

// ... if a stream failed.
fn refuse_stream<E: Write>(err: &mut E, error: &io::Error) -> u8
    ensures { result ≡ 2 }
{
    let fault = fault_of(error);
    let is_io = fault == Fault::Io;
    let _ = print_refusal(err, fault);
    if is_io {
        let _ = print_said(err, "standard input or output", error);
    }
    2
}

/// Says on `err` why the words of the command line can't be read, and answers the program's status.
pub fn refuse_words<E: Write>(err: &mut E, error: &io::Error) -> u8
    ensures { result ≡ 2 }
{
    let fault = fault_of(error);
    let is_io = fault == Fault::Io;
    let status = refuse(err, fault);
    if is_io {
        let _ = err.write_all(b"btidx: a word of the command line isn't UTF-8\n");
    }
    status
}

/// Says on `err` what refused the program, and answers its status.
pub fn refuse<E: Write>(err: &mut E, fault: Fault) -> u8
    ensures { result ≡ 2 }
{
    let _ = print_refusal(err, fault);
    2
}

/// What a stream that failed is refused with.
fn fault_of(error: &io::Error) -> Fault {
    match error.kind() {
        io::ErrorKind::OutOfMemory => Fault::NoMemory,
        _ => Fault::Io,
    }
}

/// Reads the words, and runs the command that they name.
fn command<
    'a,
    F: Files<File = File> + Threads + Wait + Sync,
    B: Start + Send,
    S: AsStr,
    R: Read,
    W: Write,
    E: Write + Send,
>(
    rt: &F,
    alloc: Global,
    words: &'a [S],
    input: &mut R,
    out: &mut W,
    err: &mut E,
) -> Left<'a, FileDevice<B>, FileDevice<Zeros>, Store<FileDevice<B>>>
    ensures printed { PrintsCommand ⟦<FileDevice<B> as Device>⟧ ⟦<FileDevice<Zeros> as Device>⟧
        ⟦<Store<FileDevice<B>> as PageStore>⟧ ⟦<DeadList as DeadRows>⟧ B.Start.bytes
        (named_by (map S.text words.entry.now))
        (W.contents out.old) (W.contents out.new) result }
    ensures fit { IsRun result → KeepsLine (map S.text words.entry.now) }
    ensures no_memory { KeepsLine (map S.text words.entry.now)
        → IfNotRun result (end_of result ≡ Ok (End.Refused Fault.NoMemory)) }
    ensures silent { KeepsLine (map S.text words.entry.now)
        → IfNotRun result (W.contents out.new ≡ W.contents out.old) }
{
    let Ok(program) = program(alloc) else {
        return Left::Nothing(Ok(End::Refused(Fault::NoMemory)));
    };
    match program.try_get_matches_from(words) {
        Ok(matches) => run::<F, B, R, W, E>(rt, alloc, &matches, input, out, err),
        Err(error) => Left::Nothing(say(&error, out, err)),
    }
}

/// How words end that clap doesn't take. What it has to say is printed, unless it ran out of memory.
fn say<W: Write, E: Write>(error: &Error, out: &mut W, err: &mut E) -> io::Result<End>
    ensures no_memory { kind_of error.now ≡ ErrorKind.OutOfMemory
        → result ≡ Ok (End.Refused Fault.NoMemory) }
    ensures silent { kind_of error.now ≡ ErrorKind.OutOfMemory
        → W.contents out.new ≡ W.contents out.old }
{
    match error.kind() {
        ErrorKind::OutOfMemory => Ok(End::Refused(Fault::NoMemory)),
        _ => print_usage(error, out, err),
    }
}

/// Prints what clap has to say: what was asked for, or what is wrong.
fn print_usage<W: Write, E: Write>(error: &Error, out: &mut W, err: &mut E) -> io::Result<End> {
    if error.use_stderr() {
        write!(err, "{error}")?;
        return Ok(End::AlreadyPrinted);
    }
    write!(out, "{error}")?;
    Ok(End::Done)
}

/// Runs the command that was named. One of another name is none: nothing is printed.
fn run<
    'a,
    F: Files<File = File> + Threads + Wait + Sync,
    B: Start + Send,
    R: Read,
    W: Write,
    E: Write + Send,
>(
    rt: &F,
    alloc: Global,
    matches: &ArgMatches<'a>,
    input: &mut R,
    out: &mut W,
    err: &mut E,
) -> Left<'a, FileDevice<B>, FileDevice<Zeros>, Store<FileDevice<B>>>
    ensures printed { PrintsCommand ⟦<FileDevice<B> as Device>⟧ ⟦<FileDevice<Zeros> as Device>⟧
        ⟦<Store<FileDevice<B>> as PageStore>⟧ ⟦<DeadList as DeadRows>⟧ B.Start.bytes
        (subcommand_rows_of matches.now)
        (W.contents out.old) (W.contents out.new) result }
    ensures none { IfNotRun result (NamesNone (subcommand_rows_of matches.now)) }
{
    match matches.subcommand() {
        Some(("play", matches)) => Left::Played(play(alloc, &setting(matches), input, out, err)),
        Some(("run", matches)) => Left::Ran(running::run::<F, B, W, E>(
            rt,
            alloc,
            &run_setting(matches),
            out,
            err,
        )),
        Some(("create", matches)) => {
            let line = ProgressLine::new(err, "pages", has_progress(matches));
            Left::Created(create(rt, path(matches), &limits(matches), &line, out))
        }
        Some(("copy", matches)) => {
            let line = ProgressLine::new(err, "pages", has_progress(matches));
            let asked = copy_setting(matches);
            Left::Copied(copy::<F, B, _, W>(rt, alloc, &asked, &line, out))
        }
        Some(("check", matches)) => {
            let line = ProgressLine::new(err, "pages", has_progress(matches));
            Left::Checked(run_check::<F, B, _, W>(rt, alloc, matches, &line, out))
        }
        Some(("dump", matches)) => Left::Dumped(dump::<F, B, W>(rt, alloc, path(matches), out)),
        _ => Left::Nothing(Ok(End::AlreadyPrinted)),
    }
}

/// A check, in one thread if that is asked for: what is printed is the same.
fn run_check<'a, F: Files<File = File> + Threads + Sync, B: Start, P: Progress, W: Write>(
    rt: &F,
    alloc: Global,
    matches: &ArgMatches<'a>,
    progress: &P,
    out: &mut W,
) -> Looked<'a, FileDevice<B>, Store<FileDevice<B>>>
    ensures { ChecksAs ⟦<FileDevice<B> as Device>⟧ ⟦<Store<FileDevice<B>> as PageStore>⟧
        B.Start.bytes (one_text (found_of matches.now) (codes "parents"))
        (W.contents out.old) (W.contents out.new) result }
{
    let path = path(matches);
    let parents = has_parents(matches);
    if has_one_thread(matches) {
        check_one::<F, B, P, W>(rt, alloc, path, parents, progress, out)
    } else {
        check::<F, B, P, W>(rt, alloc, path, parents, progress, out)
    }
}

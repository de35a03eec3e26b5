//! The ledger for many requests at once: `shared_ledger PATH SESSIONS`. Threads share the index in a file.
//! Each draws a line of standard input, makes its call, and prints the answer behind the line's number, so
//! answers come as calls end.
#![tactic(auto)]

mod line_server;
mod opening;
mod requests;

ghost use Rattle.std.specs.Prelude.{◌≡◌};

use crate::line_server::LineServer;
use crate::opening::{Shared, closed, opened};
use crate::requests::Pause;
use index_model::Fault;
use ledger_lines::print_refused;
use shared_index::serve;
use std::alloc::Global;
use std::fs::File;
use std::io::{BufRead, BufReader, BufWriter, Write};
use std::process::ExitCode;
use std::rt::Files;
use std::sync::Wait;
use std::thread::Threads;
use std::time::Clock;
use std::{env, io};
use text_forms::{is_version, print_version};

const USAGE: &str = "usage: shared_ledger PATH SESSIONS
       shared_ledger --version

Opens the index in this file, or makes one where there is no file. So many threads (1 to 64) draw lines of
standard input, those of `ledger`, and answer each as it is done, behind the line's number.
";

// Serves the world until the input ends.
fn serve_all<R: Wait + Clock + Threads + Sync, I: BufRead + Send + Drop, O: Write + Send + Drop>(
    rt: &R,
    alloc: Global,
    world: Shared,
    sessions: u32,
    server: &LineServer<'_, R, I, O>,
) -> (Shared, Result<(), Fault>) {
    let world = match serve(rt, alloc, world, sessions, server) {
        Ok(served) => served.world,
        Err(not_served) => return (not_served.world, Err(not_served.fault)),
    };
    match server.end() {
        Pause::Failed(error) => (world, Err(fault_of(&error))),
        Pause::None | Pause::Ended => (world, Ok(())),
    }
}

// Opens the index, serves it, and closes it.
fn run<
    R: Files<File = File> + Wait + Clock + Threads + Sync,
    I: BufRead + Send + Drop,
    O: Write + Send + Drop,
>(rt: &R, alloc: Global, path: &str, sessions: u32, input: I, out: O) -> Result<(), Fault> {
    let world = opened(rt, alloc, path, sessions)?;
    let server = LineServer::new(rt, alloc, input, out);
    let (world, served) = serve_all(rt, alloc, world, sessions, &server);
    let written = closed(world);
    served?;
    written
}

// Says what refused the program, and answers its status.
fn refuse<E: Write>(err: &mut E, fault: Fault) -> u8
    ensures { result ≡ 2 }
{
    let _ = err.write_all(b"shared_ledger: ");
    let _ = print_refused(err, fault);
    2
}

// What a stream that failed is refused with.
fn fault_of(error: &io::Error) -> Fault {
    match error.kind() {
        io::ErrorKind::OutOfMemory => Fault::NoMemory,
        _ => Fault::Io,
    }
}

// The path and the number of sessions.
fn asked(words: &[String]) -> Option<(&str, u32)> {
    let [_, path, sessions] = words else {
        return None;
    };
    if path.as_str().starts_with("-") {
        return None;
    }
    Some((path.as_str(), sessions.as_str().parse().ok()?))
}

fn main(rt: HostRuntime) -> ExitCode {
    let mut err = rt.stderr();
    let words = match words(&rt) {
        Ok(words) => words,
        Err(error) => return ExitCode::from(refuse(&mut err, fault_of(&error))),
    };
    if is_version(words.as_slice()) {
        return ExitCode::from(tell_version(&rt, &mut err));
    }
    let Some((path, sessions)) = asked(words.as_slice()) else {
        let _ = err.write_all(USAGE.as_bytes());
        return ExitCode::from(2);
    };
    let Ok(input) = BufReader::new(rt.alloc(), rt.stdin()) else {
        return ExitCode::from(refuse(&mut err, Fault::NoMemory));
    };
    let Ok(out) = BufWriter::new(rt.alloc(), rt.stdout()) else {
        return ExitCode::from(refuse(&mut err, Fault::NoMemory));
    };
    match run(&rt, rt.alloc(), path, sessions, input, out) {
        Ok(()) => ExitCode::from(0),
        Err(fault) => ExitCode::from(refuse(&mut err, fault)),
    }
}

// Prints the version, and answers the status.
fn tell_version<E: Write>(rt: &HostRuntime, err: &mut E) -> u8 {
    match print_version(&mut rt.stdout(), "shared_ledger") {
        Ok(()) => 0,
        Err(error) => refuse(err, fault_of(&error)),
    }
}

// The words of the command line.
fn words(rt: &HostRuntime) -> io::Result<Vec<String>> {
    Ok(env::args(rt)?.collect(rt.alloc())?)
}

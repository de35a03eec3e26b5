//! The program of the ledger, over the real streams.
#![tactic(auto)]

use device::Unknown;
use index_model::Fault;
use ledger_lines::{ledger, refuse, refuse_words};
use std::io::{BufReader, BufWriter, Write};
use std::process::ExitCode;
use std::{env, io};
use text_forms::{is_version, print_version};

fn main(rt: HostRuntime) -> ExitCode {
    let mut err = rt.stderr();
    let words = match words(&rt) {
        Ok(words) => words,
        Err(error) => return ExitCode::from(refuse_words(&mut err, &error)),
    };
    if is_version(words.as_slice()) {
        return ExitCode::from(tell_version(&rt, &mut err));
    }
    let Ok(mut input) = BufReader::new(rt.alloc(), rt.stdin()) else {
        return ExitCode::from(refuse(&mut err, Fault::NoMemory));
    };
    let Ok(mut out) = BufWriter::new(rt.alloc(), rt.stdout()) else {
        return ExitCode::from(refuse(&mut err, Fault::NoMemory));
    };
    let ended = ledger::<_, Unknown, _, _, _, _>(
        &rt,
        rt.alloc(),
        words.as_slice(),
        &mut input,
        &mut out,
        &mut err,
    );
    ExitCode::from(ended.status)
}

// Prints the version, and answers the status.
fn tell_version<E: Write>(rt: &HostRuntime, err: &mut E) -> u8 {
    match print_version(&mut rt.stdout(), "ledger") {
        Ok(()) => 0,
        Err(_) => refuse(err, Fault::Io),
    }
}

// The words of the command line.
fn words(rt: &HostRuntime) -> io::Result<Vec<String>> {
    Ok(env::args(rt)?.collect(rt.alloc())?)
}

//! The program of the index.
#![tactic(auto)]

use command_line::{execute_for_status, refuse, refuse_words};
use device::Unknown;
use index_model::Fault;
use std::io::BufWriter;
use std::process::ExitCode;
use std::{env, io};

fn main(rt: HostRuntime) -> ExitCode {
    let mut err = rt.stderr();
    let words = match words(&rt) {
        Ok(words) => words,
        Err(error) => return ExitCode::from(refuse_words(&mut err, &error)),
    };
    let mut input = rt.stdin();
    // What is printed comes in small pieces.
    let Ok(mut out) = BufWriter::new(rt.alloc(), rt.stdout()) else {
        return ExitCode::from(refuse(&mut err, Fault::NoMemory));
    };
    ExitCode::from(execute_for_status::<_, Unknown, _, _, _, _>(
        &rt,
        rt.alloc(),
        words.as_slice(),
        &mut input,
        &mut out,
        &mut err,
    ))
}

// The words of the command line.
fn words(rt: &HostRuntime) -> io::Result<Vec<String>> {
    Ok(env::args(rt)?.collect(rt.alloc())?)
}

//! What the system said, for whoever mends it.

use std::io::{self, Error, ErrorKind, Write};

/// What the system said of a path, if a call of it failed.
#[derive(Clone, Copy)]
pub struct Said<'a> {
    pub path: &'a str,
    pub error: Error,
}

/// What the system said of the path of an index, if it said something. That no file is there the refusal
/// tells alone.
pub fn said_of<'a>(path: &'a str, error: Option<Error>) -> Option<Said<'a>> {
    match error {
        Some(error) if error.kind() != ErrorKind::NotFound => Some(Said { path, error }),
        _ => None,
    }
}

/// The same of a path where an index was to be made. That something is there already the refusal tells alone.
pub fn said_of_making<'a>(path: &'a str, error: Option<Error>) -> Option<Said<'a>> {
    match error {
        Some(error) if error.kind() != ErrorKind::AlreadyExists => Some(Said { path, error }),
        _ => None,
    }
}

/// Prints `btidx: PATH: ` and what the system said.
pub fn print_said<W: Write>(err: &mut W, path: &str, error: &Error) -> io::Result<()> {
    writeln!(err, "btidx: {path}: {error}")
}

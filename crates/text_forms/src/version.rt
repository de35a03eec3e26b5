//! The version, as the programs print it.

use std::io::{self, Write};

/// The version of the programs and of the library for C: three numbers. The file VERSION has it too, and a
/// check compares the two.
pub const VERSION: &str = "1.3.0";

/// Whether these are the words of a program that is asked for its version: its own name and `--version`.
pub fn is_version(words: &[String]) -> bool {
    match words {
        [_, word] => word.as_str() == "--version",
        _ => false,
    }
}

/// Prints the program's name and the version, as one line. Fails as the stream does.
pub fn print_version<W: Write>(out: &mut W, name: &str) -> io::Result<()> {
    writeln!(out, "{name} {VERSION}")?;
    out.flush()
}

//! What a command that fails prints.

ghost use Rattle.text_forms.specs.Printing.{PrintsLine};
ghost use Rattle.command_line.specs.Refusals.{no_event_text, no_job_text};

use index_model::Fault;
use std::io::{self, Write};
use text_forms::ShownNamed;

/// Prints `btidx: refused N NAME`, with the block or the row that the fault names after it.
pub fn print_refusal<W: Write>(err: &mut W, fault: Fault) -> io::Result<()> {
    let named = ShownNamed { fault };
    let number = named.fault.number();
    let name = named.fault;
    writeln!(err, "btidx: refused {number} {name}{named}")
}

/// Prints that this line of a script, counted from 1, is no event.
pub fn print_no_event<W: Write>(err: &mut W, line: u64) -> io::Result<()>
    ensures { PrintsLine (W.contents err.old) (W.contents err.new) result (no_event_text line) }
{
    writeln!(err, "btidx: line {line}: not an event")
}

/// Prints that this line of a job file, counted from 1, is no job.
pub fn print_no_job<W: Write>(err: &mut W, line: u64) -> io::Result<()>
    ensures { PrintsLine (W.contents err.old) (W.contents err.new) result (no_job_text line) }
{
    writeln!(err, "btidx: line {line}: not a job")
}

//! How an answer is printed.

ghost use Rattle.std.specs.Prelude.{Some};
ghost use Rattle.text_forms.specs.Printing.{PrintsLine, answer_text, given_text, refused_text, stats_text};

use crate::show::{ShownEntry, ShownNamed};
use index_model::{Entry, Fault, VacuumStats};
use session_calls::Answer;
use std::io::{self, Write};

/// Prints the line of an answer.
pub fn print_answer<W: Write>(out: &mut W, answer: &Answer) -> io::Result<()>
    ensures { PrintsLine (W.contents out.old) (W.contents out.new) result (answer_text answer.now) }
{
    match answer {
        Answer::Begun => writeln!(out, "begun"),
        Answer::Going => writeln!(out, "going"),
        Answer::Added { action, unfinished } => print_added(out, *action, *unfinished),
        Answer::Ready(count) => writeln!(out, "ready {count}"),
        Answer::Done => writeln!(out, "done"),
        Answer::Finished(stats) => print_stats(out, stats),
        Answer::Gave(None) => writeln!(out, "none"),
        Answer::Gave(Some(entry)) => print_entry(out, entry),
        Answer::Ended => writeln!(out, "ended"),
        Answer::Forced(action) => writeln!(out, "forced {action}"),
        Answer::Flushed(None) => writeln!(out, "clean"),
        Answer::Flushed(Some(block)) => writeln!(out, "flushed {block}"),
        Answer::Checkpointed(action) => writeln!(out, "checkpointed {action}"),
        Answer::Refused(fault) => print_refused(out, *fault),
    }
}

/// Prints `entry KEY ROW`.
pub fn print_entry<W: Write>(out: &mut W, entry: &Entry) -> io::Result<()>
    ensures { PrintsLine (W.contents out.old) (W.contents out.new) result
        (given_text (Some entry.now)) }
{
    let entry = ShownEntry { entry: *entry };
    writeln!(out, "entry {entry}")
}

/// Prints `refused N`, with the block or the row that the fault names after it.
pub fn print_refused<W: Write>(out: &mut W, fault: Fault) -> io::Result<()>
    ensures { PrintsLine (W.contents out.old) (W.contents out.new) result (refused_text fault) }
{
    let named = ShownNamed { fault };
    let number = named.fault.number();
    writeln!(out, "refused {number}{named}")
}

fn print_added<W: Write>(out: &mut W, action: u64, unfinished: Option<Fault>) -> io::Result<()>
    ensures { PrintsLine (W.contents out.old) (W.contents out.new) result
        (answer_text (Answer.Added action unfinished)) }
{
    match unfinished {
        None => writeln!(out, "added {action}"),
        Some(fault) => {
            let number = fault.number();
            writeln!(out, "added {action} unfinished {number}")
        }
    }
}

fn print_stats<W: Write>(out: &mut W, stats: &VacuumStats) -> io::Result<()>
    ensures { PrintsLine (W.contents out.old) (W.contents out.new) result (stats_text stats.now) }
{
    let pages = stats.num_pages;
    let tuples = stats.num_index_tuples;
    let removed = stats.tuples_removed;
    let new = stats.pages_newly_deleted;
    let deleted = stats.pages_deleted;
    let free = stats.pages_free;
    writeln!(
        out,
        "finished pages={pages} tuples={tuples} removed={removed} new={new} deleted={deleted} free={free}"
    )
}

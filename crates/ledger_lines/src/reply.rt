//! What a line is answered with.

ghost use Rattle.std.specs.Prelude.{◌≡◌};
ghost use Rattle.text_forms.specs.Printing.{PrintsLine};
ghost use Rattle.ledger_lines.specs.Replies.{fault_name, refusal_text, reply_text};

use access_method::Inserted;
use index_model::{Fault, VacuumStats};
use session_calls::Answer;
use std::io::{self, Write};
use text_forms::{ShownNamed, print_answer};

/// The reply to a line; a list's entries stand before it.
#[derive(Clone, Copy)]
pub enum Reply {
    Added(Inserted),
    /// So many entries are deleted.
    Deleted(u64),
    /// So many entries were given.
    Listed(u64),
    CleanedUp(VacuumStats),
    /// So many actions are durable, and all pages are written to their places.
    Checkpointed(u64),
    /// So many actions are durable.
    Committed(u64),
    Refused(Fault),
    NotALine,
}

/// Prints the line of a reply.
pub fn print_reply<W: Write>(out: &mut W, reply: &Reply) -> io::Result<()>
    ensures { PrintsLine (W.contents out.old) (W.contents out.new) result (reply_text reply.now) }
{
    match reply {
        Reply::Added(inserted) => print_answer(out, &added(inserted)),
        Reply::Deleted(removed) => writeln!(out, "deleted {removed}"),
        Reply::Listed(count) => writeln!(out, "done {count}"),
        Reply::CleanedUp(stats) => print_answer(out, &Answer::Finished(*stats)),
        Reply::Checkpointed(actions) => print_answer(out, &Answer::Checkpointed(*actions)),
        Reply::Committed(actions) => writeln!(out, "committed {actions}"),
        Reply::Refused(fault) => print_refused(out, *fault),
        Reply::NotALine => writeln!(out, "not a line"),
    }
}

// What an insert that is run to its end answers as a step of it does.
fn added(inserted: &Inserted) -> Answer
    ensures { result ≡ Answer.Added inserted.now.action inserted.now.unfinished }
{
    Answer::Added {
        action: inserted.action,
        unfinished: inserted.unfinished,
    }
}

/// Prints `refused N NAME`, with the block or the row that the fault names after it.
pub fn print_refused<W: Write>(out: &mut W, fault: Fault) -> io::Result<()>
    ensures { PrintsLine (W.contents out.old) (W.contents out.new) result (refusal_text fault) }
{
    let named = ShownNamed { fault };
    let number = named.fault.number();
    let name = name_of(named.fault);
    writeln!(out, "refused {number} {name}{named}")
}

// The name of a fault.
fn name_of(fault: Fault) -> &'static str
    ensures { result.now ≡ fault_name fault }
{
    match fault {
        Fault::NoMemory => "NoMemory",
        Fault::Io => "Io",
        Fault::Stopped => "Stopped",
        Fault::Blocked(_) => "Blocked",
        Fault::Exists => "Exists",
        Fault::KeyTooLong => "KeyTooLong",
        Fault::BadRow => "BadRow",
        Fault::IndexFull => "IndexFull",
        Fault::LogFull => "LogFull",
        Fault::NoFrame => "NoFrame",
        Fault::VacuumRunning => "VacuumRunning",
        Fault::NoSession => "NoSession",
        Fault::SessionBusy => "SessionBusy",
        Fault::BadSuper => "BadSuper",
        Fault::BadVersion => "BadVersion",
        Fault::LogDamaged => "LogDamaged",
        Fault::PageDamaged(_) => "PageDamaged",
        Fault::BadLimits => "BadLimits",
        Fault::TooTall => "TooTall",
        Fault::DeviceTooSmall => "DeviceTooSmall",
        Fault::KeyExists(_) => "KeyExists",
    }
}

//! What a run of jobs did, printed.

ghost use Rattle.std.specs.Prelude.{◌≡◌, length, OnOk};
ghost use Rattle.std.specs.Io.KnownBytes.{Appends};
ghost use Rattle.command_line.specs.Receipts.{scanned_text, outcome_text, record_text, receipt_text, records_text, calls_text, run_text};

use index_model::Entry;
use session_calls::Answer;
use sessions::Receipt;
use shared_world::Record;
use std::io::{self, Write};
use text_forms::{print_answer, print_entries};

/// Prints the record of each job, by the jobs' numbers, how many calls each worker recorded, and how many
/// records there are.
pub fn print_run<W: Write>(
    out: &mut W,
    history: &[Record],
    receipts: &[Receipt],
    calls: &[u64],
) -> io::Result<()>
    ensures { OnOk result (Appends (W.contents out.old) (W.contents out.new)
        (run_text history.now receipts.now calls.now)) }
{
    print_records(out, history, receipts)?;
    print_calls(out, calls)?;
    let count = history.len();
    writeln!(out, "history {count}")
}

// The record at the place of each receipt.
fn print_records<W: Write>(out: &mut W, history: &[Record], receipts: &[Receipt]) -> io::Result<()>
    ensures { OnOk result (Appends (W.contents out.old) (W.contents out.new)
        (records_text history.now receipts.now)) }
{
    for receipt in receipts {
        print_receipt(out, history, receipt)?;
    }
    Ok(())
}

// The record at the place of this one.
fn print_receipt<W: Write>(out: &mut W, history: &[Record], receipt: &Receipt) -> io::Result<()>
    ensures { OnOk result (Appends (W.contents out.old) (W.contents out.new)
        (receipt_text history.now receipt.now)) }
{
    match history.get(receipt.place as usize) {
        None => Ok(()),
        Some(done) => print_record(out, done),
    }
}

// Each worker's line.
fn print_calls<W: Write>(out: &mut W, calls: &[u64]) -> io::Result<()>
    ensures { OnOk result (Appends (W.contents out.old) (W.contents out.new)
        (calls_text 0 calls.now)) }
{
    for worker in 0..calls.len() {
        let count = calls[worker];
        writeln!(out, "worker {worker} calls {count}")?;
    }
    Ok(())
}

// `job J worker W from I to K`, and how it ended.
fn print_record<W: Write>(out: &mut W, done: &Record) -> io::Result<()>
    ensures { OnOk result (Appends (W.contents out.old) (W.contents out.new)
        (record_text done.now)) }
{
    let job = done.job;
    let worker = done.worker;
    let from = done.from;
    let to = done.to;
    write!(out, "job {job} worker {worker} from {from} to {to} ")?;
    print_outcome(out, &done.answer, done.given.as_slice())
}

// How a job ended; after a scan's line the entries that it gave.
fn print_outcome<W: Write>(out: &mut W, answer: &Answer, given: &[Entry]) -> io::Result<()>
    ensures { OnOk result (Appends (W.contents out.old) (W.contents out.new)
        (outcome_text answer.now given.now)) }
{
    match answer {
        Answer::Done => print_scan(out, "finished", given),
        Answer::Ended => print_scan(out, "cut", given),
        Answer::Forced(action) => writeln!(out, "committed {action}"),
        _ => print_answer(out, answer),
    }
}

fn print_scan<W: Write>(out: &mut W, end: &str, given: &[Entry]) -> io::Result<()>
    ensures { OnOk result (Appends (W.contents out.old) (W.contents out.new)
        (scanned_text end.now given.now)) }
{
    let count = given.len();
    writeln!(out, "scanned {count} {end}")?;
    print_entries(out, given)
}

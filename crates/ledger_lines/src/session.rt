//! Lines, each answered before the next is read.

ghost use Rattle.std.specs.Prelude.{IfOk, OnErr, OnOk};
ghost use Rattle.text_forms.specs.Spelling.{words_of};
ghost use Rattle.ledger_lines.specs.Breaking.{IsBrokenOff};
ghost use Rattle.ledger_lines.specs.Files.{IsOnDisk};
ghost use Rattle.ledger_lines.specs.Replies.{ReplyIsDurable};
ghost use Rattle.ledger_lines.specs.Sessions.{Answers, AnswersAll, AnswersFirst, BeginsAnswer, RepliesTo};

use crate::calls::call;
use crate::dead::Dead;
use crate::line::parse;
use crate::put::put_reply;
use crate::reply::Reply;
use crate::said::say_error;
use access_method::Index;
use device::Device;
use index_model::{DeadRows, Fault};
use page_action::PageStore;
use page_store::Store;
use std::alloc::Global;
use std::io::{self, BufRead, Write};
use text_forms::first_line;

/// Reads lines to the end of the input, and answers each at once: its answer is handed on before the next
/// line is read. A last line without a newline is a line like others. No input has 2^64 lines: it would fail.
/// If a call of the file failed, what the system said of this path is said on `err`.
pub fn answer_lines<D: Device, R: BufRead, W: Write, E: Write>(
    alloc: Global,
    index: &mut Index<Store<D>>,
    path: &str,
    input: &mut R,
    out: &mut W,
    err: &mut E,
) -> io::Result<()>
    ensures all { OnOk result (AnswersAll D.Device ⟦<Store<D> as PageStore>⟧ ⟦<Dead as DeadRows>⟧.is_in
        (R.remaining input.old) index.old index.new (W.contents out.old) (W.contents out.new)) }
    // If a stream fails, the lines before were each answered.
    ensures first { OnErr result (AnswersFirst D.Device ⟦<Store<D> as PageStore>⟧
        ⟦<Dead as DeadRows>⟧.is_in (R.remaining input.old) index.old index.new
        (W.contents out.old) (W.contents out.new)) }
{
    let mut line = Vec::new(alloc);
    for _ in 0..u64::MAX {
        line.clear();
        if input.read_until(b'\n', &mut line)? == 0 {
            return Ok(());
        }
        let (text, _) = first_line(line.as_slice());
        answer(alloc, index, path, text, out, err)?;
        out.flush()?;
    }
    Err(io::Error::from(io::ErrorKind::Other))
}

/// Does what a line says, and prints its answer. If the writer fails, it has the first bytes of the answer.
fn answer<D: Device, W: Write, E: Write>(
    alloc: Global,
    index: &mut Index<Store<D>>,
    path: &str,
    text: &[u8],
    out: &mut W,
    err: &mut E,
) -> io::Result<()>
    ensures all { OnOk result (Answers D.Device ⟦<Store<D> as PageStore>⟧ ⟦<Dead as DeadRows>⟧.is_in
        text.now index.old index.new (W.contents out.old) (W.contents out.new)) }
    ensures first { OnErr result (BeginsAnswer D.Device ⟦<Store<D> as PageStore>⟧
        ⟦<Dead as DeadRows>⟧.is_in text.now index.old index.new
        (W.contents out.old) (W.contents out.new)) }
{
    let reply = reply_to(alloc, index, text, out)?;
    let printed = put_reply(out, &reply);
    if has_io(&reply) {
        say_error(err, path, &index.error());
    }
    printed
}

// Whether a reply tells that a call of the file failed.
fn has_io(reply: &Reply) -> bool {
    match reply {
        Reply::Added(inserted) => inserted.unfinished == Some(Fault::Io),
        Reply::Refused(fault) => *fault == Fault::Io,
        _ => false,
    }
}

/// Does what a line says. What is no line changes nothing.
fn reply_to<D: Device, W: Write>(
    alloc: Global,
    index: &mut Index<Store<D>>,
    text: &[u8],
    out: &mut W,
) -> io::Result<Reply>
    ensures replies { IfOk result (RepliesTo ⟦<Store<D> as PageStore>⟧ ⟦<Dead as DeadRows>⟧.is_in
        text.now index.old index.new (W.contents out.old) (W.contents out.new)) }
    ensures stands { IfOk result
        (IsOnDisk D.Device ⟦<Store<D> as PageStore>⟧ index.old index.new) }
    ensures durable { IfOk result (ReplyIsDurable ⟦<Store<D> as PageStore>⟧ index.new) }
    ensures broken { OnErr result (IsBrokenOff ⟦<Store<D> as PageStore>⟧ (words_of text.now)
        index.old index.new (W.contents out.old) (W.contents out.new)) }
{
    match parse(text) {
        Some(Ok(line)) => call(alloc, index, line, out),
        Some(Err(fault)) => Ok(Reply::Refused(fault)),
        None => Ok(Reply::NotALine),
    }
}

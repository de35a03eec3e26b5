//! The calls of the index, each with its reply.

ghost use Rattle.std.specs.Prelude.{◌≡◌, false, IfOk, OnErr};
ghost use Rattle.access_method.specs.Indexes.{seat_with};
ghost use Rattle.access_method.specs.Tokens.{seat_of};
ghost use Rattle.text_forms.specs.Values.{AreRows};
ghost use Rattle.ledger_lines.specs.Breaking.{BreaksList, BreaksScan, IsBrokenOff};
ghost use Rattle.ledger_lines.specs.Calls.{CheckpointReplies, CommitReplies, DeleteReplies, InsertReplies, ListReplies, PrintsScan, Replies, VacuumReplies};
ghost use Rattle.ledger_lines.specs.Files.{IsOnDisk};
ghost use Rattle.ledger_lines.specs.Lines.{HasLedgerValues, ledger_words};
ghost use Rattle.ledger_lines.specs.Replies.{ReplyIsDurable};

use crate::dead::{Dead, listed};
use crate::line::LedgerLine;
use crate::put::put_entry;
use crate::reply::Reply;
use access_method::{Index, ScanToken};
use device::Device;
use index_model::{DeadRows, Entry, Fault, Range};
use page_action::PageStore;
use page_store::Store;
use std::alloc::Global;
use std::io::{self, Write};
use text_forms::Rows;

/// Does what a line says. `Committed` and `Checkpointed` are replied only if that number of actions is
/// durable: whatever a crash leaves of the device, a file or memory, has them.
pub fn call<D: Device, W: Write>(
    alloc: Global,
    index: &mut Index<Store<D>>,
    line: LedgerLine<'_>,
    out: &mut W,
) -> io::Result<Reply>
    ensures stands { IfOk result
        (IsOnDisk D.Device ⟦<Store<D> as PageStore>⟧ index.old index.new) }
    ensures durable { IfOk result (ReplyIsDurable ⟦<Store<D> as PageStore>⟧ index.new) }
    // What it is replied with is what the index's calls answered, and what a list prints is what its scan
    // gave.
    ensures replies { HasLedgerValues line.entry → IfOk result
        (Replies ⟦<Store<D> as PageStore>⟧ ⟦<Dead as DeadRows>⟧.is_in line.entry
        index.old index.new (W.contents out.old) (W.contents out.new)) }
    // If the writer fails, a list was broken off.
    ensures broken { HasLedgerValues line.entry → OnErr result
        (IsBrokenOff ⟦<Store<D> as PageStore>⟧ (ledger_words line.entry) index.old index.new
        (W.contents out.old) (W.contents out.new)) }
{
    match line {
        LedgerLine::Insert(entry) => Ok(insert(index, entry)),
        LedgerLine::Delete(rows) => Ok(delete(alloc, index, rows)),
        LedgerLine::List(range) => list(index, range, out),
        LedgerLine::Vacuum => Ok(vacuum(index)),
        LedgerLine::Checkpoint => Ok(checkpoint(index)),
        LedgerLine::Commit => Ok(commit(index)),
    }
}

// Adds an entry.
fn insert<D: Device>(index: &mut Index<Store<D>>, entry: Entry) -> Reply
    ensures stands { IsOnDisk D.Device ⟦<Store<D> as PageStore>⟧ index.old index.new result }
    ensures durable { ReplyIsDurable ⟦<Store<D> as PageStore>⟧ index.new result }
    ensures replies { InsertReplies ⟦<Store<D> as PageStore>⟧ entry index.old index.new result }
{
    match index.aminsert(entry) {
        Ok(inserted) => Reply::Added(inserted),
        Err(fault) => Reply::Refused(fault),
    }
}

// Deletes all entries with one of these rows. Refused with `NoMemory` (1) if there is no memory for them:
// nothing is changed.
fn delete<D: Device>(alloc: Global, index: &mut Index<Store<D>>, rows: Rows<'_>) -> Reply
    ensures stands { IsOnDisk D.Device ⟦<Store<D> as PageStore>⟧ index.old index.new result }
    ensures durable { ReplyIsDurable ⟦<Store<D> as PageStore>⟧ index.new result }
    ensures replies { AreRows rows.entry → DeleteReplies ⟦<Store<D> as PageStore>⟧
        ⟦<Dead as DeadRows>⟧.is_in rows.entry index.old index.new result }
{
    let Ok(dead) = listed(alloc, rows) else {
        return Reply::Refused(Fault::NoMemory);
    };
    match index.ambulkdelete(&dead) {
        Ok(stats) => Reply::Deleted(stats.tuples_removed),
        Err(fault) => Reply::Refused(fault),
    }
}

// Deletes empty leaves, and counts what is there.
fn vacuum<D: Device>(index: &mut Index<Store<D>>) -> Reply
    ensures stands { IsOnDisk D.Device ⟦<Store<D> as PageStore>⟧ index.old index.new result }
    ensures durable { ReplyIsDurable ⟦<Store<D> as PageStore>⟧ index.new result }
    ensures replies { VacuumReplies ⟦<Store<D> as PageStore>⟧ index.old index.new result }
{
    match index.amvacuumcleanup() {
        Ok(stats) => Reply::CleanedUp(stats),
        Err(fault) => Reply::Refused(fault),
    }
}

// Makes all that was done durable, and writes all pages to their places.
fn checkpoint<D: Device>(index: &mut Index<Store<D>>) -> Reply
    ensures stands { IsOnDisk D.Device ⟦<Store<D> as PageStore>⟧ index.old index.new result }
    ensures durable { ReplyIsDurable ⟦<Store<D> as PageStore>⟧ index.new result }
    ensures replies { CheckpointReplies ⟦<Store<D> as PageStore>⟧ index.old index.new result }
{
    match index.checkpoint() {
        Ok(actions) => Reply::Checkpointed(actions),
        Err(fault) => Reply::Refused(fault),
    }
}

// Makes all that was done durable.
fn commit<D: Device>(index: &mut Index<Store<D>>) -> Reply
    ensures stands { IsOnDisk D.Device ⟦<Store<D> as PageStore>⟧ index.old index.new result }
    ensures durable { ReplyIsDurable ⟦<Store<D> as PageStore>⟧ index.new result }
    ensures replies { CommitReplies ⟦<Store<D> as PageStore>⟧ index.old index.new result }
{
    match index.commit() {
        Ok(actions) => Reply::Committed(actions),
        Err(fault) => Reply::Refused(fault),
    }
}

// Prints the entries of a range in order, `entry KEY ROW` for each. If it is refused after some of them,
// these are printed.
fn list<D: Device, W: Write>(
    index: &mut Index<Store<D>>,
    range: Range,
    out: &mut W,
) -> io::Result<Reply>
    ensures stands { IfOk result
        (IsOnDisk D.Device ⟦<Store<D> as PageStore>⟧ index.old index.new) }
    ensures durable { IfOk result (ReplyIsDurable ⟦<Store<D> as PageStore>⟧ index.new) }
    ensures replies { IfOk result (ListReplies ⟦<Store<D> as PageStore>⟧ range index.old
        (W.contents out.old) (W.contents out.new)) }
    ensures broken { OnErr result (BreaksList ⟦<Store<D> as PageStore>⟧ range index.old index.new
        (W.contents out.old) (W.contents out.new)) }
{
    let token = match index.ambeginscan(range) {
        Ok(token) => token,
        Err(fault) => return Ok(Reply::Refused(fault)),
    };
    let listed = list_scan(index, token, out)?;
    // The scan's page and its session are let go, whatever it answered.
    let _ended = index.amendscan(token);
    match listed {
        Ok(count) => Ok(Reply::Listed(count)),
        Err(fault) => Ok(Reply::Refused(fault)),
    }
}

// Prints what an open scan gives, and answers how many entries these are.
fn list_scan<S: PageStore, W: Write>(
    index: &mut Index<S>,
    token: ScanToken,
    out: &mut W,
) -> io::Result<Result<u64, Fault>>
    requires is_open { seat_of index.old.seats token ≡ seat_with token false }
    ensures prints { IfOk result (λ end. PrintsScan S.PageStore token end index.old index.new
        (W.contents out.old) (W.contents out.new)) }
    ensures broken { OnErr result (BreaksScan S.PageStore token index.old index.new
        (W.contents out.old) (W.contents out.new)) }
{
    for count in 0..u64::MAX {
        match index.amgettuple(token) {
            Ok(None) => return Ok(Ok(count)),
            Ok(Some(entry)) => put_entry(out, &entry)?,
            Err(fault) => return Ok(Err(fault)),
        }
    }
    Ok(Err(Fault::Stopped))
}

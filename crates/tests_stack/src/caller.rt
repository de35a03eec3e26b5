//! An index in a file, from the making of the file to its closing.

ghost use Rattle.std.specs.Prelude.{◌≡◌, IfOk};

use access_method::in_file::{self, InFile};
use access_method::{Entry, Fault, Index, Limits, NoProgress, PageStore, Range, ScanToken, Start};
use std::alloc::Global;
use std::fs::File;
use std::rt::Files;

const LIMITS: Limits = Limits {
    items: 50,
    pages: 1_024,
    log_bytes: 1_048_576,
    unique: false,
};

/// Makes an empty index in a new file, and closes it. Refused with `Io` where the path is there, or a call of
/// the file fails: nothing is left then. A crash inside of it leaves the whole index at the path, or nothing.
///
/// `NotMade` has what the system said, and the device is the file's: `Index::open` goes on with it, over an
/// index that the laws know to be empty.
pub fn make<F: Files<File = File>>(rt: &F, path: &str) -> Result<(), Fault> {
    match in_file::create(rt, path, &LIMITS, &NoProgress) {
        Ok(_device) => Ok(()),
        Err(not_made) => Err(not_made.fault),
    }
}

/// Opens the index in a file, after any crash, with 64 pages in memory. `NotOpened` has what the system said.
///
/// What the file held is `S`, as no code can read it: so what is promised of an index in a file is promised
/// for all bytes. `main` names some, by `access_method::Unknown`.
pub fn open<F: Files<File = File>, S: Start>(
    rt: &F,
    alloc: Global,
    path: &str,
) -> Result<InFile<S>, Fault> {
    match in_file::open(rt, alloc, path, 64) {
        Ok(index) => Ok(index),
        Err(not_opened) => Err(not_opened.fault),
    }
}

/// Adds an entry, unless it is there, and makes all that was done durable. Answers how many actions are,
/// since the opening. Refused with `Io` or `Stopped` it may have been added, but need not be there after a
/// crash: the index is to be opened again.
pub fn add<S: PageStore>(index: &mut Index<S>, entry: Entry) -> Result<u64, Fault>
    ensures { IfOk result (λ count. (S.backing index.new.store).durable ≡ count) }
{
    match index.aminsert(entry) {
        // The entry is added. A later insert finishes the split that a fault in `unfinished` tells of: after
        // `Io` or `Stopped` there do as after such an answer.
        Ok(_inserted) => {}
        Err(Fault::Exists) => {}
        Err(fault) => return Err(fault),
    }
    index.commit()
}

/// Puts the first entries of a range after those that are there, in order, and as many as this at most.
/// Refused also with `NoMemory`.
pub fn list<S: PageStore>(
    index: &mut Index<S>,
    range: Range,
    most: u32,
    entries: &mut Vec<Entry>,
) -> Result<(), Fault> {
    let token = index.ambeginscan(range)?;
    let listed = list_scan(index, token, most, entries);
    // The scan's page and its session are let go, whatever it answered.
    index.amendscan(token)?;
    listed
}

fn list_scan<S: PageStore>(
    index: &mut Index<S>,
    token: ScanToken,
    most: u32,
    entries: &mut Vec<Entry>,
) -> Result<(), Fault> {
    for _ in 0..most {
        let Some(entry) = index.amgettuple(token)? else {
            return Ok(());
        };
        if entries.push(entry).is_err() {
            return Err(Fault::NoMemory);
        }
    }
    Ok(())
}

/// Makes all that was done durable, writes the pages to their places, and closes the file. Where that is
/// refused, what was made durable before is so still: the next open finds it in the log.
pub fn close<S: Start>(index: InFile<S>) -> Result<u64, Fault> {
    // The file is closed where the device, which comes back, is let go.
    in_file::close(index).written
}

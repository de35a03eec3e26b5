//! The program over any streams.

ghost use Rattle.std.specs.Prelude.{◌≡◌, ◌≤◌, length, map, slice_get, IfSome, OnOk, OnErr, OnSome};
ghost use Rattle.ledger_lines.specs.Sessions.{IfNotServed, IsServedWhole, IsWhole, Serves, ServesFile};

use crate::dead::Dead;
use crate::index_file::{Opened, Refusal, open};
use crate::reply::print_refused;
use crate::said::say_error;
use crate::session::answer_lines;
use access_method::{Index, in_file};
use device::{Device, FileDevice, Start, Zeros};
use index_model::{DeadRows, Fault};
use page_action::PageStore;
use page_store::Store;
use std::alloc::Global;
use std::convert::AsStr;
use std::fs::File;
use std::io::{self, BufRead, Write};
use std::rt::Files;

const USAGE: &str = "usage: ledger PATH
       ledger --version

Opens the index in this file, or makes one where there is no file, and answers each line of
standard input at once: insert KEY ROW, delete ROW .., list FROM BELOW, vacuum, checkpoint, commit.
Behind the last it makes all durable and closes the file. docs/SCRIPTS.md tells the forms.
";

/// An index that was opened and closed: its device, how the lines of the input ended, and what the closing
/// answered, which is how many actions there were. The file is closed when the device is let go.
#[derive(Drop)]
pub struct Served<D> {
    pub device: D,
    /// Ok if each line was answered; else what a stream failed with.
    pub answered: io::Result<()>,
    pub closed: Result<u64, Fault>,
}

/// What became of the index. `D` is the device of one that was in its file, and `N` that of a new one.
#[derive(Drop)]
pub enum Kept<D, N> {
    /// The words name no file.
    NoPath,
    /// None was opened.
    Refused(Refusal<D, N>),
    Found(Served<D>),
    Made(Served<N>),
}

/// How the program ends.
#[derive(Drop)]
pub struct Ended<D, N> {
    /// 0 if each line was answered and the index was closed, else 2.
    pub status: u8,
    pub kept: Kept<D, N>,
}

/// Runs the program of these words, its own name first. Its status is 0 after the last line, 2 if the words,
/// the file or a stream wasn't as it must be, which is said on `err`. `out` is flushed after each answer. If
/// the system refused something, what it said is said on `err` too, at once.
///
/// The file held what `S` says when it was opened: that is proved for all bytes, and `main` names some.
pub fn ledger<F: Files<File = File>, S: Start, T: AsStr, R: BufRead, W: Write, E: Write>(
    rt: &F,
    alloc: Global,
    words: &[T],
    input: &mut R,
    out: &mut W,
    err: &mut E,
) -> Ended<FileDevice<S>, FileDevice<Zeros>>
    ensures status { result.status ≤ 2 }
    // With status 0 each line was answered, and after the last all is on the disk.
    ensures whole { result.status ≡ 0 → IsWhole result.kept }
    // What is told of the answers holds whatever the status is.
    ensures serves { ServesFile
        ⟦<FileDevice<S> as Device>⟧ ⟦<Store<FileDevice<S>> as PageStore>⟧
        ⟦<FileDevice<Zeros> as Device>⟧ ⟦<Store<FileDevice<Zeros>> as PageStore>⟧
        ⟦<Dead as DeadRows>⟧.is_in S.Start.bytes
        (R.remaining input.old) (W.contents out.old) (W.contents out.new) result.kept }
    // If no index was opened, nothing is read or printed.
    ensures unread { IfNotServed result.kept (R.remaining input.new ≡ R.remaining input.old) }
    ensures silent { IfNotServed result.kept (W.contents out.new ≡ W.contents out.old) }
{
    let Some(path) = path_of(words) else {
        let _ = err.write_all(USAGE.as_bytes());
        return Ended {
            status: 2,
            kept: Kept::NoPath,
        };
    };
    let kept = run::<F, S, R, W, E>(rt, alloc, path, input, out, err);
    Ended {
        status: status(path, &kept, err),
        kept,
    }
}

// The path, which is the only word after the program's name; a word with a dash in front is none.
fn path_of<T: AsStr>(words: &[T]) -> Option<&str>
    ensures word { IfSome result (λ path. slice_get (map T.text words.now) 1 ≡ Some path.now) }
    ensures alone { OnSome result (length words.now ≡ 2) }
{
    match words {
        [_, path] if !path.as_str().starts_with("-") => Some(path.as_str()),
        _ => None,
    }
}

// Opens the index, answers the lines, and closes it.
fn run<F: Files<File = File>, S: Start, R: BufRead, W: Write, E: Write>(
    rt: &F,
    alloc: Global,
    path: &str,
    input: &mut R,
    out: &mut W,
    err: &mut E,
) -> Kept<FileDevice<S>, FileDevice<Zeros>>
    ensures serves { ServesFile
        ⟦<FileDevice<S> as Device>⟧ ⟦<Store<FileDevice<S>> as PageStore>⟧
        ⟦<FileDevice<Zeros> as Device>⟧ ⟦<Store<FileDevice<Zeros>> as PageStore>⟧
        ⟦<Dead as DeadRows>⟧.is_in S.Start.bytes
        (R.remaining input.old) (W.contents out.old) (W.contents out.new) result }
    ensures unread { IfNotServed result (R.remaining input.new ≡ R.remaining input.old) }
    ensures silent { IfNotServed result (W.contents out.new ≡ W.contents out.old) }
{
    match open::<F, S>(rt, alloc, path) {
        Ok(Opened::Found(index)) => Kept::Found(serve(alloc, index, path, input, out, err)),
        Ok(Opened::Made(index)) => Kept::Made(serve(alloc, index, path, input, out, err)),
        Err(refusal) => Kept::Refused(refusal),
    }
}

// Answers the lines, and closes the index, whatever became of the streams.
fn serve<D: Device, R: BufRead, W: Write, E: Write>(
    alloc: Global,
    index: Index<Store<D>>,
    path: &str,
    input: &mut R,
    out: &mut W,
    err: &mut E,
) -> Served<D>
    ensures { Serves D.Device ⟦<Store<D> as PageStore>⟧ ⟦<Dead as DeadRows>⟧.is_in index
        (R.remaining input.old) (W.contents out.old) (W.contents out.new) result }
{
    let mut index = index;
    let answered = answer_lines(alloc, &mut index, path, input, out, err);
    let closed = in_file::close(index);
    Served {
        device: closed.device,
        answered,
        closed: closed.written,
    }
}

// The status of what ended so. What refused it is said.
fn status<D: Device, N: Device, E: Write>(path: &str, kept: &Kept<D, N>, err: &mut E) -> u8
    ensures whole { result ≡ 0 → IsWhole kept.now }
    ensures low { result ≤ 2 }
{
    match kept {
        Kept::NoPath => 2,
        Kept::Refused(refusal) => refuse_for(err, refusal.fault, path, &refusal.error),
        Kept::Found(served) => status_of(path, served, err),
        Kept::Made(served) => status_of(path, served, err),
    }
}

// The status of an index that was served so: what refused its last checkpoint is said, else what a stream
// failed with.
fn status_of<D: Device, E: Write>(path: &str, served: &Served<D>, err: &mut E) -> u8
    ensures whole { result ≡ 0 → IsServedWhole served.now }
    ensures low { result ≤ 2 }
{
    if let Err(fault) = &served.closed {
        return refuse_for(err, *fault, path, &served.device.error());
    }
    match &served.answered {
        Ok(()) => 0,
        Err(error) => refuse_for(
            err,
            fault_of(error),
            "standard input or output",
            &Some(*error),
        ),
    }
}

// What a stream that failed is refused with.
fn fault_of(error: &io::Error) -> Fault {
    match error.kind() {
        io::ErrorKind::OutOfMemory => Fault::NoMemory,
        _ => Fault::Io,
    }
}

/// Says on `err` what refused the program, and answers its status.
pub fn refuse<E: Write>(err: &mut E, fault: Fault) -> u8
    ensures { result ≡ 2 }
{
    let _ = print_failure(err, fault);
    2
}

fn print_failure<E: Write>(err: &mut E, fault: Fault) -> io::Result<()> {
    err.write_all(b"ledger: ")?;
    print_refused(err, fault)
}

/// Says on `err` why the words of the command line can't be read, and answers the program's status.
pub fn refuse_words<E: Write>(err: &mut E, error: &io::Error) -> u8
    ensures { result ≡ 2 }
{
    let fault = fault_of(error);
    let status = refuse(err, fault);
    if fault == Fault::Io {
        let _ = err.write_all(b"ledger: a word of the command line isn't UTF-8\n");
    }
    status
}

// Says on `err` what refused the program, and, if that is a call of the system, what the system said of this.
fn refuse_for<E: Write>(err: &mut E, fault: Fault, what: &str, error: &Option<io::Error>) -> u8
    ensures { result ≡ 2 }
{
    let is_io = fault == Fault::Io;
    let _ = print_failure(err, fault);
    if is_io {
        say_error(err, what, error);
    }
    2
}

//! A copy in a new file.

ghost use Rattle.std.specs.Prelude.{◌≡◌, IsTrue, IfOk, IfErr, OnOk};
ghost use Rattle.access_method.specs.Indexes.{ForEachIndexHistory, has_entry};
ghost use Rattle.access_method.specs.Scans.{Rests};
ghost use Rattle.access_method.specs.Tokens.{seat_of};
ghost use Rattle.access_method.specs.declared.token.ScanToken.{ScanToken as TheToken};
ghost use Rattle.index_model.specs.Formats.{made};
ghost use Rattle.index_model.specs.Limits.{AreLimits};
ghost use Rattle.page_action.specs.States.{Continues};
ghost use Rattle.index_copy.specs.InFile.{IsNotInFileFor};
ghost use Rattle.index_copy.specs.Onto.{IsCopyOf};

use crate::onto::{CopiedOnto, NoCopy, copy_onto};
use access_method::Index;
use access_method::in_file::{NotMade, begin, discard, place};
use device::{Device, FileDevice, Zeros};
use index_model::{Fault, Limits, Progress};
use page_action::PageStore;
use std::alloc::Global;
use std::fs::File;
use std::io::Error;
use std::rt::Files;

/// Pages of the copy that are held in memory while it is made.
const FRAMES: u32 = 64;

/// A copy in a file: how many entries it has, and its device, whose file is closed when it is let go.
#[derive(Drop)]
pub struct CopiedInFile<D> {
    pub count: u64,
    pub device: D,
}

/// A copy that isn't whole: why, and its device, whose file was removed.
#[derive(Drop)]
pub struct HalfCopy<D> {
    pub why: NoCopy,
    pub device: D,
}

/// Why there is no copy in a file.
#[derive(Drop)]
pub enum NotInFile<D> {
    /// No file was made, or it wasn't given its name: as `access_method::in_file::create` is refused.
    NotMade(NotMade),
    /// Not all entries came, or they weren't all written.
    NotWhole(HalfCopy<D>),
}

impl<D> NotInFile<D> {
    ghost use Rattle.std.specs.Prelude.{◌≡◌};
    ghost use Rattle.index_copy.specs.InFile.{fault_in_file};

    /// What refused it.
    pub fn fault(&self) -> Fault
        ensures { result ≡ fault_in_file self.now }
    {
        match self {
            NotInFile::NotMade(not_made) => not_made.fault,
            NotInFile::NotWhole(half) => half.why.fault(),
        }
    }
}

/// Makes a new index of these limits in a new file, with each entry of another index, and closes it. Answers
/// how many entries these are. The file is at the path only once the copy is whole: a crash at any moment
/// leaves the whole copy there, or nothing. Until then it stands beside the path, as with
/// `access_method::in_file::create`. `progress` is told of each page that is written, and then of the entries
/// that are put, of `all`.
///
/// Refused as `access_method::in_file::create` and `copy_onto` are, with 64 pages in memory: what was made is
/// removed then. The index that is read stays as `copy` leaves it.
pub fn copy_to_file<R: Files<File = File>, S: PageStore, P: Progress>(
    rt: &R,
    alloc: Global,
    from: &mut Index<S>,
    path: &str,
    limits: &Limits,
    progress: &P,
    all: u64,
) -> Result<CopiedInFile<FileDevice<Zeros>>, NotInFile<FileDevice<Zeros>>>
    ensures from_steps { Continues S.follows from.old.store from.new.store }
    ensures rests { ForEachIndexHistory S.PageStore from.old from.new
        (Rests S.PageStore from.old from.new) }
    ensures from_tokens { (t : TheToken) → seat_of from.new.seats t ≡ seat_of from.old.seats t }
    ensures allowed { OnOk result (AreLimits (made limits.now)) }
    ensures holds { IfOk result (λ copied. let d = ⟦<FileDevice<Zeros> as Device>⟧ in
        IsTrue (d.is_honest copied.device)
        → ForEachIndexHistory S.PageStore from.old from.new (λ start history calls.
        IsCopyOf d (made limits.now) (has_entry S.PageStore from.old.store) copied.count copied.device)) }
    ensures refused { IfErr result (λ not_copied. ForEachIndexHistory S.PageStore from.old from.new
        (λ start history calls. IsNotInFileFor ⟦<FileDevice<Zeros> as Device>⟧
        (has_entry S.PageStore from.old.store) not_copied)) }
{
    let device = match begin(rt, path, limits, progress) {
        Ok(device) => device,
        Err(not_made) => return Err(NotInFile::NotMade(not_made)),
    };
    let CopiedOnto { copied, device } = copy_onto(alloc, from, device, FRAMES, progress, all);
    match copied {
        Ok(count) => match place(rt, path) {
            Ok(()) => Ok(CopiedInFile { count, device }),
            Err(error) => Err(NotInFile::NotMade(NotMade {
                fault: Fault::Io,
                error: Some(error),
            })),
        },
        Err(why) => {
            discard(rt, path);
            Err(NotInFile::NotWhole(HalfCopy { why, device }))
        }
    }
}

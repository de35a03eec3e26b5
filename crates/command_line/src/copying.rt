//! The copy of an index in a new file.

ghost use Rattle.std.specs.Prelude.{◌≡◌, ◌∷◌, ◌++◌, [], Ok, IsSome, IfOk, IfSome, IfNone, IsSomeAnd};
ghost use Rattle.tree_acts.specs.TheoremKeys.{IsTreeFor};
ghost use Rattle.text_forms.specs.Printing.{PrintsLine};
ghost use Rattle.command_line.specs.Copying.{IsCopyFromFile, IsToldCopy, PrintsCount, copied_text, limits_of_copy};
ghost use Rattle.command_line.specs.Files.{IsOpeningRefused};
ghost use Rattle.command_line.specs.Listing.{IsDoneOrRefused};

use crate::end::End;
use crate::said::{Said, said_of, said_of_making};
use access_method::Index;
use access_method::in_file::{InFile, NotOpened, open};
use device::{Device, FileDevice, Start, Zeros};
use index_copy::{CopiedInFile, NotInFile, copy_to_file};
use index_model::{Fault, Limits, Progress};
use page_action::PageStore;
use page_store::Store;
use std::alloc::Global;
use std::fs::File;
use std::io::{self, Write};
use std::rt::Files;

/// Pages of the index that are held in memory while it is copied.
const FRAMES: u32 = 64;

/// The sizes that are said of a copy. Those that aren't are those of the index that is copied.
#[derive(Clone, Copy)]
pub struct CopySizes {
    pub items: Option<u32>,
    pub pages: Option<u32>,
    pub log_bytes: Option<u32>,
    /// Whether the copy is said to be unique. That of a unique index is so too.
    pub unique: bool,
}

impl CopySizes {
    // The limits of the copy of an index of these.
    fn limits(&self, old: &Limits) -> Limits
        ensures { result ≡ limits_of_copy self.now old.now }
    {
        Limits {
            items: self.items.unwrap_or(old.items),
            pages: self.pages.unwrap_or(old.pages),
            log_bytes: self.log_bytes.unwrap_or(old.log_bytes),
            unique: old.unique || self.unique,
        }
    }
}

/// What is copied: the index at a path, into a new file at another one, with these sizes.
#[derive(Clone, Copy)]
pub struct CopySetting<'a> {
    pub path: &'a str,
    pub new: &'a str,
    pub sizes: CopySizes,
}

/// What a copy leaves: the index that was read, if it was opened; else its device as the opening left it, if
/// the file was taken. What became of the copy, if it was begun. What the system said, and how the command
/// ends.
#[derive(Drop)]
pub struct Copied<'a, D, N, S> {
    pub from: Option<Index<S>>,
    pub device: Option<D>,
    pub copied: Option<Result<CopiedInFile<N>, NotInFile<N>>>,
    pub said: Option<Said<'a>>,
    pub end: io::Result<End>,
}

/// Makes an index in a new file with the entries of the index in another, and prints how many these are.
/// Refused as `in_file::open` and `copy_to_file` are: nothing is printed then.
pub fn copy<'a, R: Files<File = File>, S: Start, P: Progress, W: Write>(
    rt: &R,
    alloc: Global,
    asked: &CopySetting<'a>,
    progress: &P,
    out: &mut W,
) -> Copied<'a, FileDevice<S>, FileDevice<Zeros>, Store<FileDevice<S>>>
    ensures ends { IfOk result.end IsDoneOrRefused }
    // If the file held an index whose pages are a B-link tree, the copy has its entries.
    ensures copied { IfSome result.copied (λ copied. IsSomeAnd result.from
        (IsCopyFromFile ⟦<FileDevice<S> as Device>⟧ ⟦<FileDevice<Zeros> as Device>⟧
        ⟦<Store<FileDevice<S>> as PageStore>⟧ S.Start.bytes asked.now.sizes copied)) }
    ensures done { result.end ≡ Ok End.Done → IsSomeAnd result.copied
        (PrintsCount (W.contents out.old) (W.contents out.new)) }
    ensures refused { (fault : Fault) → result.end ≡ Ok (End.Refused fault)
        → IfNone result.from (IsOpeningRefused ⟦<FileDevice<S> as Device>⟧ IsTreeFor
        S.Start.bytes 64 fault result.device) }
    ensures cause { (fault : Fault) → result.end ≡ Ok (End.Refused fault)
        → IfSome result.copied (IsToldCopy fault) }
    ensures silent { (fault : Fault) → result.end ≡ Ok (End.Refused fault)
        → W.contents out.new ≡ W.contents out.old }
{
    match open::<R, S>(rt, alloc, asked.path, FRAMES) {
        Ok(mut index) => {
            let limits = asked.sizes.limits(&index.info().limits);
            let copied = copy_to_file(rt, alloc, &mut index, asked.new, &limits, progress, 0);
            progress.end();
            let end = told(&copied, out);
            let said = said_of_copy(asked, &index, &copied);
            Copied {
                from: Some(index),
                device: None,
                copied: Some(copied),
                said,
                end,
            }
        }
        Err(
            NotOpened {
                fault,
                error,
                device,
            },
        ) => Copied {
            from: None,
            device,
            copied: None,
            said: said_of(asked.path, error),
            end: Ok(End::Refused(fault)),
        },
    }
}

// Prints how many entries were copied, or tells what refused it.
fn told<N, W: Write>(copied: &Result<CopiedInFile<N>, NotInFile<N>>, out: &mut W) -> io::Result<End>
    ensures ends { IfOk result IsDoneOrRefused }
    ensures done { result ≡ Ok End.Done
        → PrintsCount (W.contents out.old) (W.contents out.new) copied.now }
    ensures cause { (fault : Fault) → result ≡ Ok (End.Refused fault) → IsToldCopy fault copied.now }
    ensures silent { (fault : Fault) → result ≡ Ok (End.Refused fault)
        → W.contents out.new ≡ W.contents out.old }
{
    match copied {
        Ok(copy) => {
            print_count(out, copy.count)?;
            Ok(End::Done)
        }
        Err(not_copied) => Ok(End::Refused(not_copied.fault())),
    }
}

fn print_count<W: Write>(out: &mut W, count: u64) -> io::Result<()>
    ensures { PrintsLine (W.contents out.old) (W.contents out.new) result (copied_text count) }
{
    writeln!(out, "copied {count}")
}

// What the system said of the file that refused it.
fn said_of_copy<'a, S: Start>(
    asked: &CopySetting<'a>,
    index: &InFile<S>,
    copied: &Result<CopiedInFile<FileDevice<Zeros>>, NotInFile<FileDevice<Zeros>>>,
) -> Option<Said<'a>> {
    match copied {
        Ok(_) => None,
        Err(NotInFile::NotMade(not_made)) => said_of_making(asked.new, not_made.error),
        Err(NotInFile::NotWhole(half)) => match half.device.error() {
            Some(error) => said_of(asked.new, Some(error)),
            None => said_of(asked.path, index.error()),
        },
    }
}

//! The commands over a file. Each hands back what it worked on, so that its clauses name it: the index that
//! was opened, or the file that was made. What a check and a dump print is of the pages of that index, which
//! stood in the file.

ghost use Rattle.std.specs.Prelude.{◌≡◌, ◌⊎◌, ◌∷◌, ◌++◌, [], true, length, Ok, IsSome, IfOk, IfSome, IfNone, IsSomeAnd, MatchOption, codes};
ghost use Rattle.std.specs.Io.KnownBytes.{Appends};
ghost use Rattle.page_codec.specs.Places.{needed_length};
ghost use Rattle.index_model.specs.Formats.{made};
ghost use Rattle.index_model.specs.Limits.{AreLimits};
ghost use Rattle.recovery.specs.Fresh.{IsEmptyIndex, CrashesToEmpty};
ghost use Rattle.access_method.specs.Files.{IsAnyIndex};
ghost use Rattle.command_line.specs.Files.{IsLookedAt, IsCheckRefused, IsDumpRefused, IsOpeningRefused};
ghost use Rattle.command_line.specs.Listing.{PrintsPages, ListsFirst, IsDoneOrRefused};
ghost use Rattle.command_line.specs.Reporting.{PrintsReport, PrintsDamage, AreSound, IsCheckEnd};

use crate::checking::{check_pages, check_pages_one};
use crate::end::End;
use crate::listing::list_pages;
use crate::said::{Said, said_of, said_of_making};
use access_method::in_file::{self, NotOpened, open_store};
use device::{Device, FileDevice, Start, Zeros};
use index_model::{Fault, Limits, Progress};
use page_action::PageStore;
use page_store::Store;
use std::alloc::Global;
use std::fs::File;
use std::io::{self, Write};
use std::rt::Files;
use std::thread::Threads;

/// Pages of an index in a file that are held in memory.
const FRAMES: u32 = 64;

/// What a creation leaves: the file, if it was made, what the system said, if that is why it wasn't, and how
/// the command ends.
#[derive(Drop)]
pub struct Created<'a, D> {
    pub device: Option<D>,
    pub said: Option<Said<'a>>,
    pub end: io::Result<End>,
}

/// Makes a new file with an empty index, and says so. Refused as `in_file::create` is: nothing is printed
/// then.
pub fn create<'a, R: Files<File = File>, P: Progress, W: Write>(
    rt: &R,
    path: &'a str,
    limits: &Limits,
    progress: &P,
    out: &mut W,
) -> Created<'a, FileDevice<Zeros>>
    ensures ends { IfOk result.end IsDoneOrRefused }
    ensures allowed { result.end ≡ Ok End.Done → AreLimits (made limits.now) }
    // An empty index was made, which can be opened, also after a crash.
    ensures made { result.end ≡ Ok End.Done → IsSome result.device }
    ensures empty { IfSome result.device (λ device.
        IsEmptyIndex (made limits.now) (⟦<FileDevice<Zeros> as Device>⟧.trace device).now) }
    ensures own { IfSome result.device (λ device.
        CrashesToEmpty (made limits.now) (⟦<FileDevice<Zeros> as Device>⟧.trace device).now) }
    ensures exact { IfSome result.device (λ device.
        length (⟦<FileDevice<Zeros> as Device>⟧.trace device).now.seen
        ≡ needed_length (made limits.now)) }
    ensures created { result.end ≡ Ok End.Done
        → Appends (W.contents out.old) (W.contents out.new) (codes "created" ++ 10 ∷ []) }
    ensures refused { (fault : Fault) → result.end ≡ Ok (End.Refused fault)
        → ((fault ≡ Fault.BadLimits) × (AreLimits (made limits.now) → ⊥)) ⊎ (fault ≡ Fault.Io) }
    ensures silent { (fault : Fault) → result.end ≡ Ok (End.Refused fault)
        → W.contents out.new ≡ W.contents out.old }
{
    match in_file::create(rt, path, limits, progress) {
        Ok(device) => {
            progress.end();
            Created {
                device: Some(device),
                said: None,
                end: say_created(out),
            }
        }
        Err(not_made) => {
            progress.end();
            Created {
                device: None,
                said: said_of_making(path, not_made.error),
                end: Ok(End::Refused(not_made.fault)),
            }
        }
    }
}

fn say_created<W: Write>(out: &mut W) -> io::Result<End>
    ensures end { IfOk result (λ end. end ≡ End.Done) }
    ensures printed { result ≡ Ok End.Done
        → Appends (W.contents out.old) (W.contents out.new) (codes "created" ++ 10 ∷ []) }
{
    writeln!(out, "created")?;
    Ok(End::Done)
}

/// What a check or a dump leaves: the index in the file, if it was opened. Else the device as the opening
/// left it, if the file was taken. What the system said of the last call that failed. And how the command
/// ends.
#[derive(Drop)]
pub struct Looked<'a, D, S> {
    pub store: Option<S>,
    pub device: Option<D>,
    pub said: Option<Said<'a>>,
    pub end: io::Result<End>,
}

/// Prints what a check of the index in a file answers, as `check_pages` does: with parents and children if
/// that is asked for. Refused as `open_store` and `check_pages` are: nothing is printed then.
pub fn check<'a, R: Files<File = File> + Threads + Sync, S: Start, P: Progress, W: Write>(
    rt: &R,
    alloc: Global,
    path: &'a str,
    parents: bool,
    progress: &P,
    out: &mut W,
) -> Looked<'a, FileDevice<S>, Store<FileDevice<S>>>
    ensures ends { IfOk result.end IsCheckEnd }
    ensures opened { IfSome result.store
        (IsLookedAt ⟦<FileDevice<S> as Device>⟧ ⟦<Store<FileDevice<S>> as PageStore>⟧
        S.Start.bytes) }
    ensures report { result.end ≡ Ok End.Done → IsSomeAnd result.store (λ store.
        let g = ⟦<Store<FileDevice<S>> as PageStore>⟧ in
        PrintsReport (g.backing store).honest (g.state store).pages
        (W.contents out.old) (W.contents out.new)) }
    ensures sound { result.end ≡ Ok End.Done → IsSomeAnd result.store (λ store.
        let g = ⟦<Store<FileDevice<S>> as PageStore>⟧ in
        (g.backing store).honest ≡ true → AreSound parents (g.state store)) }
    ensures damage { result.end ≡ Ok End.Damaged → IsSomeAnd result.store (λ store.
        let g = ⟦<Store<FileDevice<S>> as PageStore>⟧ in
        PrintsDamage (g.backing store).honest parents (g.state store)
        (W.contents out.old) (W.contents out.new)) }
    ensures refused { (fault : Fault) → result.end ≡ Ok (End.Refused fault)
        → MatchOption result.store (IsOpeningRefused ⟦<FileDevice<S> as Device>⟧ IsAnyIndex
        S.Start.bytes 64 fault result.device)
        (IsCheckRefused ⟦<FileDevice<S> as Device>⟧ ⟦<Store<FileDevice<S>> as PageStore>⟧
        S.Start.bytes fault) }
    ensures silent { (fault : Fault) → result.end ≡ Ok (End.Refused fault)
        → W.contents out.new ≡ W.contents out.old }
{
    match open_store::<R, S>(rt, alloc, path, FRAMES) {
        Ok(mut store) => {
            let end = check_pages(rt, alloc, &mut store, parents, progress, out);
            progress.end();
            let said = said_of(path, store.error());
            Looked {
                store: Some(store),
                device: None,
                said,
                end,
            }
        }
        Err(
            NotOpened {
                fault,
                error,
                device,
            },
        ) => Looked {
            store: None,
            device,
            said: said_of(path, error),
            end: Ok(End::Refused(fault)),
        },
    }
}

/// Prints the same as [`check`], in this thread alone, as `check_pages_one` does.
pub fn check_one<'a, R: Files<File = File>, S: Start, P: Progress, W: Write>(
    rt: &R,
    alloc: Global,
    path: &'a str,
    parents: bool,
    progress: &P,
    out: &mut W,
) -> Looked<'a, FileDevice<S>, Store<FileDevice<S>>>
    ensures ends { IfOk result.end IsCheckEnd }
    ensures opened { IfSome result.store
        (IsLookedAt ⟦<FileDevice<S> as Device>⟧ ⟦<Store<FileDevice<S>> as PageStore>⟧
        S.Start.bytes) }
    ensures report { result.end ≡ Ok End.Done → IsSomeAnd result.store (λ store.
        let g = ⟦<Store<FileDevice<S>> as PageStore>⟧ in
        PrintsReport (g.backing store).honest (g.state store).pages
        (W.contents out.old) (W.contents out.new)) }
    ensures sound { result.end ≡ Ok End.Done → IsSomeAnd result.store (λ store.
        let g = ⟦<Store<FileDevice<S>> as PageStore>⟧ in
        (g.backing store).honest ≡ true → AreSound parents (g.state store)) }
    ensures damage { result.end ≡ Ok End.Damaged → IsSomeAnd result.store (λ store.
        let g = ⟦<Store<FileDevice<S>> as PageStore>⟧ in
        PrintsDamage (g.backing store).honest parents (g.state store)
        (W.contents out.old) (W.contents out.new)) }
    ensures refused { (fault : Fault) → result.end ≡ Ok (End.Refused fault)
        → MatchOption result.store (IsOpeningRefused ⟦<FileDevice<S> as Device>⟧ IsAnyIndex
        S.Start.bytes 64 fault result.device)
        (IsCheckRefused ⟦<FileDevice<S> as Device>⟧ ⟦<Store<FileDevice<S>> as PageStore>⟧
        S.Start.bytes fault) }
    ensures silent { (fault : Fault) → result.end ≡ Ok (End.Refused fault)
        → W.contents out.new ≡ W.contents out.old }
{
    match open_store::<R, S>(rt, alloc, path, FRAMES) {
        Ok(mut store) => {
            let end = check_pages_one(alloc, &mut store, parents, progress, out);
            progress.end();
            let said = said_of(path, store.error());
            Looked {
                store: Some(store),
                device: None,
                said,
                end,
            }
        }
        Err(
            NotOpened {
                fault,
                error,
                device,
            },
        ) => Looked {
            store: None,
            device,
            said: said_of(path, error),
            end: Ok(End::Refused(fault)),
        },
    }
}

/// Prints each page in use of the index in a file, as `list_pages` does. Refused as `open_store` and
/// `list_pages` are: nothing is printed of an index that wasn't opened.
pub fn dump<'a, R: Files<File = File>, S: Start, W: Write>(
    rt: &R,
    alloc: Global,
    path: &'a str,
    out: &mut W,
) -> Looked<'a, FileDevice<S>, Store<FileDevice<S>>>
    ensures ends { IfOk result.end IsDoneOrRefused }
    ensures opened { IfSome result.store
        (IsLookedAt ⟦<FileDevice<S> as Device>⟧ ⟦<Store<FileDevice<S>> as PageStore>⟧
        S.Start.bytes) }
    ensures listed { result.end ≡ Ok End.Done → IsSomeAnd result.store (λ store.
        let g = ⟦<Store<FileDevice<S>> as PageStore>⟧ in
        PrintsPages (g.backing store).honest (g.state store).pages
        (W.contents out.old) (W.contents out.new)) }
    ensures refused { (fault : Fault) → result.end ≡ Ok (End.Refused fault)
        → MatchOption result.store (IsOpeningRefused ⟦<FileDevice<S> as Device>⟧ IsAnyIndex
        S.Start.bytes 64 fault result.device) (λ store.
        let g = ⟦<Store<FileDevice<S>> as PageStore>⟧ in
        ListsFirst (g.backing store).honest (g.state store).pages
        (W.contents out.old) (W.contents out.new)) }
    ensures cause { (fault : Fault) → result.end ≡ Ok (End.Refused fault)
        → IfSome result.store
        (IsDumpRefused ⟦<FileDevice<S> as Device>⟧ ⟦<Store<FileDevice<S>> as PageStore>⟧
        S.Start.bytes fault) }
    ensures silent { IfNone result.store (W.contents out.new ≡ W.contents out.old) }
{
    match open_store::<R, S>(rt, alloc, path, FRAMES) {
        Ok(mut store) => {
            let end = list_pages(&mut store, out);
            let said = said_of(path, store.error());
            Looked {
                store: Some(store),
                device: None,
                said,
                end,
            }
        }
        Err(
            NotOpened {
                fault,
                error,
                device,
            },
        ) => Looked {
            store: None,
            device,
            said: said_of(path, error),
            end: Ok(End::Refused(fault)),
        },
    }
}

//! An index in a file: made, opened and closed.

ghost use Rattle.std.specs.Prelude.{◌≡◌, ◌⊎◌, IsTrue, List, length, IfOk, IfErr, IfSome, IfNone, OnOk};
ghost use Rattle.access_method.specs.Files.{bytes_before, IsAnyIndex, IsAtRest, IsLastOver, IsNotOpened, IsOpenFault, StaysOnDevice};
ghost use Rattle.access_method.specs.Indexes.{IndexBegins};
ghost use Rattle.page_codec.specs.Places.{needed_length};
ghost use Rattle.index_model.specs.Faults.{HasCause};
ghost use Rattle.index_model.specs.Formats.{made};
ghost use Rattle.index_model.specs.Limits.{AreLimits};
ghost use Rattle.index_model.specs.declared.format.Format.{Format};
ghost use Rattle.page_action.specs.Causes.{causes_of_forced};
ghost use Rattle.page_codec.specs.declared.page.Page.{Page};
ghost use Rattle.page_store.specs.Stores.{state_of, device_of};
ghost use Rattle.page_store.specs.declared.store.Store.{Store as StoreOver};
ghost use Rattle.recovery.specs.Fresh.{IsEmptyIndex, CrashesToEmpty};
ghost use Rattle.recovery.specs.Index.{HasIndex};
ghost use Rattle.recovery.specs.Opening.{AreFrames, IsFreshlyOpened, IsSameIndex, StandsOnDevice};
ghost use Rattle.tree_acts.specs.TheoremKeys.{IsTreeFor};

use crate::draft::{draft_of, make_draft, place_draft, want_free};
use crate::index::Index;
use crate::watched::Watched;
use device::{Device, FileDevice, Start, Zeros};
use index_model::{Fault, Format, Limits, Progress};
use page_action::PageStore;
use page_codec::{needed_len, page_place};
use page_store::Store;
use recovery::Refused;
use std::alloc::Global;
use std::fs::{self, File};
use std::io::{self, Error, ErrorKind};
use std::rt::Files;

/// An index in a file, which held what `S` says when it was opened.
pub type InFile<S> = Index<Store<FileDevice<S>>>;

/// Why no index was made in a file.
#[derive(Clone, Copy)]
pub struct NotMade {
    pub fault: Fault,
    /// What the system said, if that is why.
    pub error: Option<Error>,
}

/// Why an index in a file was not opened.
#[derive(Drop)]
pub struct NotOpened<S: Start> {
    pub fault: Fault,
    /// What the system said of the last call that failed, if one did.
    pub error: Option<Error>,
    /// The device over the file, as the opening left it, if the file was taken.
    pub device: Option<FileDevice<S>>,
}

// No index was made, for what the system said.
fn not_made(error: Error) -> NotMade
    ensures { result.fault ≡ Fault.Io }
{
    NotMade {
        fault: Fault::Io,
        error: Some(error),
    }
}

// The file was not taken, for what the system said.
fn not_taken<S: Start>(error: Error) -> NotOpened<S>
    ensures fault { result.fault ≡ Fault.Io }
    ensures none { result.device ≡ None }
{
    NotOpened {
        fault: Fault::Io,
        error: Some(error),
        device: None,
    }
}

// The index on the device was not opened.
fn not_opened<S: Start>(refused: Refused<FileDevice<S>>) -> NotOpened<S>
    ensures fault { result.fault ≡ refused.fault }
    ensures device { result.device ≡ Some refused.device }
{
    let Refused { fault, device } = refused;
    NotOpened {
        fault,
        error: device.error(),
        device: Some(device),
    }
}

/// Makes an empty index of these limits in a new file of exactly its length, all of it written and synced.
/// The file is at the path only once it is whole: a crash at any moment leaves it there, or nothing at this
/// path. Until then it stands beside it, under the same name with `.nardsill-draft` after, where nothing else
/// is to stand: what a stopped making left there is written over. `progress` is told of each page that is
/// written.
///
/// Refused with `BadLimits` (18) for limits out of their ranges, and with `Io` (2) if the path is there,
/// before anything is done. Refused with `Io` too, and with what the system said, if a name has more bytes
/// than the system allows, with those 15; if another makes an index at this path; or if a call of the file
/// fails, for instance since the disk is full. What was made is removed then.
pub fn create<R: Files<File = File>, P: Progress>(
    rt: &R,
    path: &str,
    limits: &Limits,
    progress: &P,
) -> Result<FileDevice<Zeros>, NotMade>
    ensures allowed { OnOk result (AreLimits (made limits.now)) }
    ensures made { IfOk result (λ device.
        IsEmptyIndex (made limits.now) (⟦<FileDevice<Zeros> as Device>⟧.trace device).now) }
    // So it can be opened, also after a crash.
    ensures own { IfOk result (λ device.
        CrashesToEmpty (made limits.now) (⟦<FileDevice<Zeros> as Device>⟧.trace device).now) }
    ensures exact { IfOk result (λ device.
        length (⟦<FileDevice<Zeros> as Device>⟧.trace device).now.seen ≡ needed_length (made limits.now)) }
    ensures cause { IfErr result (λ not_made.
        ((not_made.fault ≡ Fault.BadLimits) × (AreLimits (made limits.now) → ⊥))
        ⊎ ((not_made.fault ≡ Fault.Io) × AreLimits (made limits.now))) }
{
    match begin(rt, path, limits, progress) {
        Ok(device) => match place(rt, path) {
            Ok(()) => Ok(device),
            Err(error) => Err(not_made(error)),
        },
        Err(refused) => Err(refused),
    }
}

/// Begins what [`create`] does: the index is made in a file that stands beside the path, until [`place`]
/// gives it its own name, or [`discard`] removes it. Entries may be put into it before. Refused as `create`
/// is: what was made is removed then.
pub fn begin<R: Files<File = File>, P: Progress>(
    rt: &R,
    path: &str,
    limits: &Limits,
    progress: &P,
) -> Result<FileDevice<Zeros>, NotMade>
    ensures allowed { OnOk result (AreLimits (made limits.now)) }
    ensures made { IfOk result (λ device.
        IsEmptyIndex (made limits.now) (⟦<FileDevice<Zeros> as Device>⟧.trace device).now) }
    // So it can be opened, also after a crash.
    ensures own { IfOk result (λ device.
        CrashesToEmpty (made limits.now) (⟦<FileDevice<Zeros> as Device>⟧.trace device).now) }
    ensures exact { IfOk result (λ device.
        length (⟦<FileDevice<Zeros> as Device>⟧.trace device).now.seen ≡ needed_length (made limits.now)) }
    ensures cause { IfErr result (λ not_made.
        ((not_made.fault ≡ Fault.BadLimits) × (AreLimits (made limits.now) → ⊥))
        ⊎ ((not_made.fault ≡ Fault.Io) × AreLimits (made limits.now))) }
{
    if !limits.are_valid() {
        return Err(NotMade {
            fault: Fault::BadLimits,
            error: None,
        });
    }
    match begin_valid(rt, path, limits, progress) {
        Ok(device) => Ok(device),
        Err(error) => Err(not_made(error)),
    }
}

// Makes an empty index in a new file beside the path. Refused with what the system said.
fn begin_valid<R: Files<File = File>, P: Progress>(
    rt: &R,
    path: &str,
    limits: &Limits,
    progress: &P,
) -> io::Result<FileDevice<Zeros>>
    requires allowed { AreLimits (made limits.now) }
    ensures made { IfOk result (λ device.
        IsEmptyIndex (made limits.now) (⟦<FileDevice<Zeros> as Device>⟧.trace device).now) }
    ensures own { IfOk result (λ device.
        CrashesToEmpty (made limits.now) (⟦<FileDevice<Zeros> as Device>⟧.trace device).now) }
    ensures exact { IfOk result (λ device.
        length (⟦<FileDevice<Zeros> as Device>⟧.trace device).now.seen ≡ needed_length (made limits.now)) }
{
    let draft = draft_of(path)?;
    want_free(rt, path)?;
    // All but the log is written by what makes the index.
    let filled = page_place(&Format::new(limits), 0);
    let device = make_draft(rt, draft.as_str(), needed_len(limits), filled)?;
    // Each page is written once, and the superblock twice.
    let mut watched = Watched::new(device, progress, u64::from(limits.pages) + 2);
    if recovery::create(&mut watched, limits).is_err() {
        let _ = fs::remove_file(rt, draft.as_str());
        return Err(said(&watched.device));
    }
    Ok(watched.device)
}

/// Gives the file that [`begin`] made for this path its own name, which it has after a crash too. Its device
/// is to be held meanwhile, and what was done with the index to be durable. Refused with what the system
/// said if something has that name by now, the file system has no links, or a call fails: the file has no
/// name then.
pub fn place<R: Files<File = File>>(rt: &R, path: &str) -> io::Result<()> {
    let draft = draft_of(path)?;
    place_draft(rt, draft.as_str(), path)
}

/// Removes the file that [`begin`] made for this path, while its device is held. If the system doesn't let it
/// be removed, the next making at this path writes over it.
pub fn discard<R: Files<File = File>>(rt: &R, path: &str) {
    if let Ok(draft) = draft_of(path) {
        let _ = fs::remove_file(rt, draft.as_str());
    }
}

// What the system said of the last call of a device that failed.
fn said<D: Device>(device: &D) -> Error {
    match device.error() {
        Some(error) => error,
        None => Error::from(ErrorKind::Other),
    }
}

/// Opens the pages of the index in a file, after any crash. `frames` is how many pages are in memory at once,
/// 16 to 1,024. Refused with `Io` (2), and with what the system said, if the path isn't there, can't be
/// opened for writing, or another has it open. Else refused as `recovery::open` is, with the device.
pub fn open_store<R: Files<File = File>, S: Start>(
    rt: &R,
    alloc: Global,
    path: &str,
    frames: u32,
) -> Result<Store<FileDevice<S>>, NotOpened<S>>
    ensures opened { IfOk result (λ store.
        IsFreshlyOpened frames (state_of ⟦<FileDevice<S> as Device>⟧ store)) }
    ensures range { OnOk result (AreFrames frames) }
    // What it has is what stood in the file.
    ensures read { IfOk result (λ store.
        let g = ⟦<FileDevice<S> as Device>⟧ in
        IsTrue (g.is_honest (device_of g store))
        → StandsOnDevice (state_of g store)
        (bytes_before S.Start.bytes (g.trace (device_of g store)))
        (g.trace (device_of g store)).now.seen) }
    // An index is opened with its pages.
    ensures same { IfOk result (λ store.
        let g = ⟦<FileDevice<S> as Device>⟧ in
        IsTrue (g.is_honest (device_of g store))
        → (format : Format) (pages : List Page)
        → HasIndex format pages (bytes_before S.Start.bytes (g.trace (device_of g store)))
        → IsSameIndex g format pages store) }
    // An index in the file is refused for want of memory or of the device alone.
    ensures cause { IfErr result (λ not_opened. IfSome not_opened.device
        (IsNotOpened ⟦<FileDevice<S> as Device>⟧ IsAnyIndex S.Start.bytes frames not_opened.fault)) }
    ensures untaken { IfErr result (λ not_opened.
        IfNone not_opened.device (not_opened.fault ≡ Fault.Io)) }
    ensures fault { IfErr result (λ not_opened. IsOpenFault not_opened.fault) }
{
    let device = match FileDevice::<S>::open(rt, path) {
        Ok(device) => device,
        Err(error) => return Err(not_taken(error)),
    };
    match recovery::open(alloc, device, frames) {
        Ok(store) => Ok(store),
        Err(refused) => Err(not_opened(refused)),
    }
}

/// Opens the index in a file, after any crash. `frames` is how many pages are in memory at once, 16 to 1,024.
/// Refused with `Io` (2), and with what the system said, if the path isn't there, can't be opened for
/// writing, or another has it open. Else refused as `Index::open` is, with the device.
pub fn open<R: Files<File = File>, S: Start>(
    rt: &R,
    alloc: Global,
    path: &str,
    frames: u32,
) -> Result<InFile<S>, NotOpened<S>>
    // If the file held an index whose pages are a B-link tree, it is opened with them.
    ensures begins { IfOk result (λ index.
        let d = ⟦<FileDevice<S> as Device>⟧ in
        IsTrue (d.is_honest (device_of d index.store))
        → (format : Format) (pages : List Page)
        → HasIndex format pages (bytes_before S.Start.bytes (d.trace (device_of d index.store)))
        → IsTreeFor format pages
        → IndexBegins d ⟦<Store<FileDevice<S>> as PageStore>⟧ format pages index) }
    // It has as many frames as were asked for, 16 or more.
    ensures frames { IfOk result (λ index.
        (state_of ⟦<FileDevice<S> as Device>⟧ index.store).frames ≡ frames) }
    ensures range { OnOk result (AreFrames frames) }
    // Such an index is refused for want of memory or of the device alone.
    ensures cause { IfErr result (λ not_opened. IfSome not_opened.device
        (IsNotOpened ⟦<FileDevice<S> as Device>⟧ IsTreeFor S.Start.bytes frames not_opened.fault)) }
    ensures untaken { IfErr result (λ not_opened.
        IfNone not_opened.device (not_opened.fault ≡ Fault.Io)) }
    ensures fault { IfErr result (λ not_opened. IsOpenFault not_opened.fault) }
{
    let device = match FileDevice::<S>::open(rt, path) {
        Ok(device) => device,
        Err(error) => return Err(not_taken(error)),
    };
    match Index::open(alloc, device, frames) {
        Ok(index) => Ok(index),
        Err(refused) => Err(not_opened(refused)),
    }
}

/// An index that was closed: what its last checkpoint answered, and the device, whose file is closed when it
/// is let go.
#[derive(Drop)]
pub struct Closed<D> {
    pub written: Result<u64, Fault>,
    pub device: D,
}

/// Closes an index: makes all that was done durable, writes the pages to their places, closes the log, and
/// gives the device back. `written` is how many actions there were since the opening. It is refused with `Io`
/// (2) and `Stopped` (3): what was made durable before is so still, and the next open finds it in the log.
pub fn close<D: Device>(index: Index<Store<D>>) -> Closed<D>
    ensures number { IfOk result.written (λ n. n ≡ (state_of D.Device index.store).acts) }
    // All of them are on the disk: whatever a crash leaves has them.
    ensures stands { IfOk result.written (λ n.
        StaysOnDevice D.Device ⟦<Store<D> as PageStore>⟧ n index result.device) }
    // None of them waits in the log.
    ensures empties { OnOk result.written (IsLastOver D.Device ⟦<Store<D> as PageStore>⟧ index result.device
        (IsAtRest ⟦<Store<D> as PageStore>⟧ (state_of D.Device index.store).format)) }
    ensures cause { IfErr result.written (λ fault. IsLastOver D.Device ⟦<Store<D> as PageStore>⟧ index
        result.device (λ last.
        HasCause (causes_of_forced (⟦<Store<D> as PageStore>⟧.backing index.store)
        (⟦<Store<D> as PageStore>⟧.backing last)) fault)) }
{
    let mut index = index;
    let written = index.checkpoint();
    Closed {
        written,
        device: index.into_device(),
    }
}

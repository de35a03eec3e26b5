//! A device over a file. Each method makes one call of the file, and notes it with its answer: what the
//! clauses say of a file rests on these notes. The first write behind a sync asks for the file's lock before.

ghost use Rattle.std.specs.Prelude.{◌≡◌, ◌↔◌, ◌+◌, ◌<◌, ◌≤◌, ◌^◌, ◌∷◌, [], ℕ, List, true, false, IsTrue, Err, length, replicate, OnOk, OnErr, IfOk};
ghost use Rattle.std.proofs.lemmas.List.{length-replicate};
ghost use Rattle.device.specs.Disk.{first, next, wrote, Reads, Writes, Syncs, CountsFailures};
ghost use Rattle.device.specs.Event.{after_calls, failed_in, are_right};
ghost use Rattle.device.specs.Unknown.{some_bytes, length-some_bytes};

use crate::device::Device;
use crate::events::Events;
use crate::syncer::{SyncNotes, Syncer, is_beside};
use index_model::{Fault, Noted, reckon};
use std::alloc::{AllocError, Global};
use std::fs::{self, File, OpenFile, OpenOptions, TryLockError};
use std::io::{self, Error, ErrorKind, Seek, SeekFrom};
use std::marker::PhantomData;
use std::os::fd::AsRawFd;
use std::os::unix::fs::{FileExt, FileTypeExt};
use std::path::Path;
use std::rt::Files;
use std::sync::Arc;

const NO_BYTES: &[u8] = &[];

static ZEROS_TO_WRITE: [u8; 65_536] = [0; 65_536];

/// The number of the system's answer that another has a file's lock: `EWOULDBLOCK`.
const WOULD_BLOCK: i32 = 11;

/// The number of the system's answer that a file would be too long: `EFBIG`.
const TOO_LONG: i32 = 27;

/// What a file of so many bytes held when it was opened, which no code can read: what is proved for all such
/// types holds of each file. So a function over a file is generic over it, one parameter for each opening of
/// which its clauses speak.
pub trait Start {
    ghost bytes: { ℕ → List ℕ };

    ghost sized: { (len : ℕ) → length (bytes len) ≡ len };
}

/// What a new file holds: zeros.
#[derive(Drop)]
pub struct Zeros;

impl Start for Zeros {
    ghost bytes = { λ len. replicate len 0 };

    ghost sized = { λ len. length-replicate len 0 };
}

/// For `main` to name: some bytes, of which no proof can learn more than how many they are. So what is proved
/// of them holds of whatever the file held.
#[derive(Drop)]
pub struct Unknown;

impl Start for Unknown {
    ghost bytes = { some_bytes };

    ghost sized = { length-some_bytes };
}

/// An open file that is locked. One that owns its open file lets go of the lock by a call before it closes
/// the file: a file system that learns of a closing late would keep the lock a while. Where others have
/// duplicates of the descriptor, the lock is theirs too: the last of them lets it go.
struct Locked {
    file: File,
    /// What it shares with those who sync the file beside it, if there are any.
    notes: Option<Arc<SyncNotes, Global>>,
    is_owner: bool,
    /// Whether the lock was asked for since the last sync.
    is_asked: bool,
}

impl Locked {
    /// Takes the file's lock, by a descriptor after those of the standard streams. Refused with what the
    /// system says where another has the lock, or a call fails: the file is closed then.
    fn take(file: File, is_owner: bool) -> io::Result<Locked> {
        let file = apart(file)?;
        lock(&file)?;
        Ok(Locked {
            file,
            notes: None,
            is_owner,
            is_asked: true,
        })
    }

    /// Writes at a place. The first write behind a sync asks for the lock before: a file system that lost its
    /// servers for a while may have lost the lock, and then another may have it. Refused with what the system
    /// says, and so if another has the lock: nothing is written then.
    fn write(&mut self, at: u64, bytes: &[u8]) -> io::Result<()> {
        if !self.is_asked {
            lock(&self.file)?;
            self.is_asked = true;
        }
        self.file.write_all_at(bytes, at)?;
        if let Some(notes) = &self.notes {
            notes.note_write();
        }
        Ok(())
    }

    /// Syncs what was written, unless a syncer has done so. Refused with what the system says, or has said to
    /// a syncer.
    fn sync(&mut self) -> io::Result<()> {
        self.is_asked = false;
        if let Some(notes) = &self.notes {
            if notes.are_enough()? {
                return Ok(());
            }
        }
        self.file.sync_data()
    }

    /// A syncer of this file, by another open file of it. None if that isn't one. Refused where memory is
    /// refused.
    fn syncer(&mut self, alloc: Global, beside: File) -> Result<Option<Syncer>, AllocError> {
        let Ok(beside) = apart(beside) else {
            return Ok(None);
        };
        if !is_beside(&beside) {
            return Ok(None);
        }
        let notes = Arc::new(alloc, SyncNotes::new(beside))?;
        self.notes = Some(Arc::try_clone(&notes)?);
        Ok(Some(Syncer::of(notes)))
    }
}

impl Drop for Locked {
    fn drop(self) {
        let Locked {
            file,
            notes: _,
            is_owner,
            is_asked: _,
        } = self;
        if is_owner {
            // If it fails, the closing lets the lock go.
            let _ = file.unlock();
        }
    }
}

/// A file, which held what `S` says when it was opened. The file's lock is held as long as this value stands,
/// so that no other one is opened at the same file, in this process or another. A duplicate of the descriptor
/// shares the lock: see [`FileDevice::held`]. A device that opened its file itself lets go of the lock by a
/// call before it closes the file.
///
/// A write that fails leaves any bytes in its range. After a failed write or sync each call answers `Io`, as
/// what the file holds then is not known: a later sync must not make it look firm. A write fails too if
/// another has the lock by then.
///
/// Its descriptor is none of the three of the standard streams, whatever of these is closed: what is printed
/// there never goes into the file.
#[derive(Drop)]
pub struct FileDevice<S: Start> {
    locked: Locked,
    len: u64,
    start: PhantomData<S>,
    events: Noted<Events>,
    stopped: bool,
    error: Option<Error>,
    ghost sized: { length (after_calls (S.Start.bytes len) events.value).now.seen ≡ len },
    ghost small: { length (after_calls (S.Start.bytes len) events.value).now.seen < 2 ^ 63 },
}

impl<S: Start> FileDevice<S> {
    /// A file of so many bytes, before any call.
    fn of_file(locked: Locked, len: u64) -> FileDevice<S>
        requires { len < 2 ^ 63 }
        ensures held { after_calls (S.Start.bytes result.len) result.events.value
            ≡ first (S.Start.bytes len) }
        ensures honest { are_right (S.Start.bytes result.len) result.events.value ≡ true }
        ensures failures { failed_in result.events.value ≡ 0 }
        ensures runs { result.stopped ≡ false }
    {
        FileDevice {
            locked,
            len,
            start: PhantomData,
            events: reckon(&()),
            stopped: false,
            error: None,
        }
    }
}

impl FileDevice<Zeros> {
    /// A new file of so many bytes, all zero and written, so that each has its place on the disk; it and its
    /// folder are synced. Refused with what the system says where the path is there, another has taken the
    /// file's lock by now, or a call fails, as where the disk has no room for it: the file that was made is
    /// removed then, if the system lets it be.
    pub fn create<R: Files<File = File>>(
        rt: &R,
        path: &str,
        len: u64,
    ) -> io::Result<FileDevice<Zeros>>
        // It holds zeros, all synced, and no call of it was made.
        ensures held { IfOk result (λ d. after_calls (replicate d.len 0) d.events.value
            ≡ first (replicate len 0)) }
        ensures honest { IfOk result
            (λ d. are_right (replicate d.len 0) d.events.value ≡ true) }
        ensures failures { IfOk result (λ d. failed_in d.events.value ≡ 0) }
        ensures runs { IfOk result (λ d. d.stopped ≡ false) }
    {
        want_len(len)?;
        let locked = match Locked::take(File::create_new(rt, path)?, true) {
            Ok(locked) => locked,
            Err(error) => return Err(unmade(rt, path, error)),
        };
        match place_zeros(rt, &locked.file, path, len) {
            Ok(()) => Ok(FileDevice::of_file(locked, len)),
            Err(error) => Err(unmade(rt, path, error)),
        }
    }

    /// A file that is open for reading and writing, made anew: so many bytes, all zero, and synced; what it
    /// held is gone. The first `filled` of them are written, so that each has its place on the disk. The
    /// others have none before they are written, which a full disk may refuse then. Its folder isn't synced:
    /// [`sync_folder`].
    ///
    /// Refused with what the system says where another has the file's lock, and then nothing is changed; for
    /// 2^63 bytes or more; and where a call fails, as where the disk has no room. What the file holds then
    /// isn't known. It is closed where it is refused.
    pub fn made(file: File, len: u64, filled: u64) -> io::Result<FileDevice<Zeros>>
        // It holds zeros, all synced, and no call of it was made.
        ensures held { IfOk result (λ d. after_calls (replicate d.len 0) d.events.value
            ≡ first (replicate len 0)) }
        ensures honest { IfOk result
            (λ d. are_right (replicate d.len 0) d.events.value ≡ true) }
        ensures failures { IfOk result (λ d. failed_in d.events.value ≡ 0) }
        ensures runs { IfOk result (λ d. d.stopped ≡ false) }
    {
        want_len(len)?;
        let locked = Locked::take(file, false)?;
        write_zeros(&locked.file, len, filled)?;
        Ok(FileDevice::of_file(locked, len))
    }
}

impl<S: Start> FileDevice<S> {
    /// A file that is there, for reading and writing, with all its bytes; or a block device. It is synced
    /// first, so that what it holds stands through a crash. Refused with what the system says, and so where
    /// another has the file's lock; nothing is changed then.
    pub fn open<R: Files<File = File>>(rt: &R, path: &str) -> io::Result<FileDevice<S>>
        ensures held { IfOk result (λ d. after_calls (S.Start.bytes d.len) d.events.value
            ≡ first (S.Start.bytes d.len)) }
        ensures honest { IfOk result
            (λ d. are_right (S.Start.bytes d.len) d.events.value ≡ true) }
        ensures failures { IfOk result (λ d. failed_in d.events.value ≡ 0) }
        ensures runs { IfOk result (λ d. d.stopped ≡ false) }
    {
        let file = OpenOptions::new().read(true).write(true).open(rt, path)?;
        FileDevice::over(Locked::take(file, true)?)
    }

    /// A file that is open already, for reading and writing, with all its bytes; or a block device. It is
    /// synced first, so that what it holds stands through a crash. Refused with what the system says where
    /// another has the file's lock, where it is neither a file nor a block device, or a call fails: nothing
    /// is changed then, and it is closed.
    ///
    /// A lock is one open file's. Duplicates of a descriptor, also a forked child's, are of one open file and
    /// share its lock: each of them is taken here. So the caller hands in an open file of which nobody has a
    /// duplicate that is used, that nobody unlocks, and that doesn't append. The device closes it without a
    /// call that unlocks it, as the caller may keep the lock by a duplicate: see [`FileDevice::into_owner`].
    pub fn held(file: File) -> io::Result<FileDevice<S>>
        ensures held { IfOk result (λ d. after_calls (S.Start.bytes d.len) d.events.value
            ≡ first (S.Start.bytes d.len)) }
        ensures honest { IfOk result
            (λ d. are_right (S.Start.bytes d.len) d.events.value ≡ true) }
        ensures failures { IfOk result (λ d. failed_in d.events.value ≡ 0) }
        ensures runs { IfOk result (λ d. d.stopped ≡ false) }
    {
        FileDevice::over(Locked::take(file, false)?)
    }

    /// A locked file, synced first, with all its bytes. Refused as [`FileDevice::held`] is.
    fn over(locked: Locked) -> io::Result<FileDevice<S>>
        ensures held { IfOk result (λ d. after_calls (S.Start.bytes d.len) d.events.value
            ≡ first (S.Start.bytes d.len)) }
        ensures honest { IfOk result
            (λ d. are_right (S.Start.bytes d.len) d.events.value ≡ true) }
        ensures failures { IfOk result (λ d. failed_in d.events.value ≡ 0) }
        ensures runs { IfOk result (λ d. d.stopped ≡ false) }
    {
        locked.file.sync_all()?;
        let len = len_of(&locked.file)?;
        want_len(len)?;
        Ok(FileDevice::of_file(locked, len))
    }

    /// This device, as the owner of its open file: it lets go of the lock by a call before it closes the
    /// file. For a caller that handed an open file in, and uses no duplicate of its descriptor any more.
    pub fn into_owner(self) -> FileDevice<S>
        ensures len { result.len ≡ self.len }
        ensures calls { result.events.value ≡ self.events.value }
        ensures stopped { result.stopped ≡ self.stopped }
    {
        let mut device = self;
        device.locked.is_owner = true;
        device
    }

    /// This device, with a syncer of its file. `beside` is another open file of the same file, for reading
    /// and writing; if it is one of another file, or a duplicate of the device's descriptor, it is closed,
    /// and there is no syncer. What an earlier syncer syncs isn't counted any more. Refused where memory is
    /// refused: the device's file is closed then.
    pub fn with_syncer(
        self,
        alloc: Global,
        beside: File,
    ) -> Result<(FileDevice<S>, Option<Syncer>), AllocError>
        ensures len { IfOk result (λ both. both.0.len ≡ self.len) }
        ensures calls { IfOk result (λ both. both.0.events.value ≡ self.events.value) }
        ensures stopped { IfOk result (λ both. both.0.stopped ≡ self.stopped) }
    {
        let mut device = self;
        let syncer = device.locked.syncer(alloc, beside)?;
        Ok((device, syncer))
    }

    /// Notes a call that is not made, since the file has stopped.
    fn refuse(&mut self) -> Fault
        ensures noted { self.new.events.value ≡ (3, 0, 0, false, []) ∷ self.old.events.value }
        ensures len { self.new.len ≡ self.old.len }
        ensures stays { self.new.stopped ≡ self.old.stopped }
        ensures io { result ≡ Fault.Io }
    {
        self.events = reckon(&(3, 0, 0, false, NO_BYTES, &self.events));
        Fault::Io
    }

    /// Notes a write or a sync that failed, and what the system said: from now on each call answers `Io`.
    fn stop(&mut self, error: Error, kind: u64, at: u64, bytes: &[u8]) -> Fault
        requires range { kind ≡ 1 → at + length bytes.now ≤ length (after_calls
            (S.Start.bytes self.old.len) self.old.events.value).now.seen }
        ensures noted { self.new.events.value
            ≡ (kind, at, 0, false, bytes.now) ∷ self.old.events.value }
        ensures len { self.new.len ≡ self.old.len }
        ensures stopped { self.new.stopped ≡ true }
        ensures io { result ≡ Fault.Io }
    {
        self.stopped = true;
        self.error = Some(error);
        self.events = reckon(&(kind, at, 0, false, bytes, &self.events));
        Fault::Io
    }
}

/// Takes the file's lock, or asks for it again. Refused with what the system says where another has it, or
/// the call fails.
fn lock(file: &File) -> io::Result<()> {
    match file.try_lock() {
        Ok(()) => Ok(()),
        Err(TryLockError::WouldBlock) => Err(Error::from_raw_os_error(WOULD_BLOCK)),
        Err(TryLockError::Error(error)) => Err(error),
    }
}

/// The file by a descriptor after those of the standard streams: where one of these is closed, a file that is
/// opened takes its number, and what is printed would be written into it. Refused with what the system says.
fn apart(file: File) -> io::Result<File> {
    if file.as_raw_fd() > 2 {
        return Ok(file);
    }
    file.try_clone()
}

/// Refused for 2^63 bytes or more.
fn want_len(len: u64) -> io::Result<()>
    ensures { OnOk result (len < 2 ^ 63) }
{
    if len < 1 << 63 {
        Ok(())
    } else {
        Err(Error::from_raw_os_error(TOO_LONG))
    }
}

/// How many bytes a file has, or a block device, whose metadata doesn't tell it. Refused for what is neither,
/// and with what the system says.
fn len_of(file: &File) -> io::Result<u64> {
    let metadata = file.metadata()?;
    if metadata.is_file() {
        return Ok(metadata.len());
    }
    if !metadata.file_type().is_block_device() {
        let words = "neither a file nor a block device";
        return Err(Error::new(ErrorKind::InvalidInput, words));
    }
    // Reads and writes name their place: nothing else uses the file's position.
    let mut file = file;
    file.seek(SeekFrom::End(0))
}

/// Removes the file that was made at a path, if the system lets it be, and hands back why.
fn unmade<R: Files<File = File>>(rt: &R, path: &str, error: Error) -> Error {
    let _ = fs::remove_file(rt, path);
    error
}

/// Makes a locked file this long, all of it written with zeros, and syncs it and its folder. Refused with
/// what the system says.
fn place_zeros<R: Files<File = File>>(rt: &R, file: &File, path: &str, len: u64) -> io::Result<()> {
    write_zeros(file, len, len)?;
    sync_folder(rt, path)
}

/// Makes a locked file this long, all zero, with so many bytes written, and syncs it. Refused with what the
/// system says.
fn write_zeros(file: &File, len: u64, filled: u64) -> io::Result<()> {
    // What it held goes with its old length.
    file.set_len(0)?;
    file.set_len(len)?;
    fill(file, filled.min(len))?;
    file.sync_all()
}

/// Writes zeros over the first bytes of a file. So a later write there finds no full disk, and a later sync
/// has only what was written to bring there, and not where it lies. Refused with what the system says.
fn fill(file: &File, len: u64) -> io::Result<()> {
    let pieces = len / 65_536;
    for piece in 0..pieces {
        file.write_all_at(&ZEROS_TO_WRITE, 65_536 * piece)?;
    }
    file.write_all_at(&ZEROS_TO_WRITE[..(len % 65_536) as usize], 65_536 * pieces)
}

/// Syncs the folder of a path: so a name that was given or taken there, by a link, a removal or a new file,
/// is so after a crash too. Refused with what the system says, as where the folder isn't there or may not be
/// read.
pub fn sync_folder<R: Files<File = File>>(rt: &R, path: &str) -> io::Result<()> {
    let folder = match Path::new(path).parent() {
        Some(folder) => folder,
        None => Path::new("/"),
    };
    let folder = if folder.as_str().is_empty() {
        Path::new(".")
    } else {
        folder
    };
    File::open(rt, folder)?.sync_all()
}

impl<S: Start> Device for FileDevice<S> {
    ghost trace = { λ d. after_calls (S.Start.bytes d.len) d.events.value };

    ghost failures = { λ d. failed_in d.events.value };

    ghost is_honest = { λ d. are_right (S.Start.bytes d.len) d.events.value };

    ghost small = { λ d. d.small };

    fn len(&self) -> u64 {
        self.len
    }

    fn error(&self) -> Option<Error> {
        self.error
    }

    fn read_at(&mut self, at: u64, buf: &mut [u8]) -> Result<(), Fault>
        requires range { at + length buf.old ≤ length (after_calls
            (S.Start.bytes self.old.len) self.old.events.value).now.seen }
        ensures read { IsTrue (are_right (S.Start.bytes self.new.len) self.new.events.value)
            → OnOk result (Reads (after_calls (S.Start.bytes self.old.len) self.old.events.value)
            at buf.old buf.new) }
        ensures honest { IsTrue (are_right (S.Start.bytes self.new.len) self.new.events.value)
            ↔ (IsTrue (are_right (S.Start.bytes self.old.len) self.old.events.value)
            × OnOk result (Reads (after_calls (S.Start.bytes self.old.len) self.old.events.value)
            at buf.old buf.new)) }
        ensures trace { after_calls (S.Start.bytes self.new.len) self.new.events.value
            ≡ after_calls (S.Start.bytes self.old.len) self.old.events.value }
        ensures failures { CountsFailures result (failed_in self.old.events.value)
            (failed_in self.new.events.value) }
        ensures stopped { self.old.stopped ≡ true → result ≡ Err Fault.Io }
        ensures stays { self.new.stopped ≡ self.old.stopped }
    {
        if self.stopped {
            return Err(self.refuse());
        }
        match self.locked.file.read_exact_at(buf, at) {
            Ok(()) => {
                self.events = reckon(&(0, at, buf.len() as u64, true, &*buf, &self.events));
                Ok(())
            }
            Err(error) => {
                self.error = Some(error);
                self.events = reckon(&(0, at, 0, false, NO_BYTES, &self.events));
                Err(Fault::Io)
            }
        }
    }

    fn write_at(&mut self, at: u64, bytes: &[u8]) -> Result<(), Fault>
        requires range { at + length bytes.now ≤ length (after_calls
            (S.Start.bytes self.old.len) self.old.events.value).now.seen }
        ensures trace { Writes at bytes.now result
            (after_calls (S.Start.bytes self.old.len) self.old.events.value)
            (after_calls (S.Start.bytes self.new.len) self.new.events.value) }
        ensures len { length (after_calls (S.Start.bytes self.new.len) self.new.events.value).now.seen
            ≡ length (after_calls (S.Start.bytes self.old.len) self.old.events.value).now.seen }
        ensures honest { are_right (S.Start.bytes self.new.len) self.new.events.value
            ≡ are_right (S.Start.bytes self.old.len) self.old.events.value }
        ensures failures { CountsFailures result (failed_in self.old.events.value)
            (failed_in self.new.events.value) }
        ensures stopped { self.old.stopped ≡ true → result ≡ Err Fault.Io }
        ensures stops { OnErr result (self.new.stopped ≡ true) }
        // One that was made and failed leaves any bytes in its range; one that was not made leaves all as it
        // was.
        ensures loose { self.old.stopped ≡ false → OnErr result
            (after_calls (S.Start.bytes self.new.len) self.new.events.value
            ≡ next (wrote at bytes.now
            (after_calls (S.Start.bytes self.old.len) self.old.events.value).now)
            (after_calls (S.Start.bytes self.old.len) self.old.events.value)) }
        ensures not_made { self.old.stopped ≡ true
            → after_calls (S.Start.bytes self.new.len) self.new.events.value
            ≡ after_calls (S.Start.bytes self.old.len) self.old.events.value }
    {
        if self.stopped {
            return Err(self.refuse());
        }
        match self.locked.write(at, bytes) {
            Ok(()) => {
                self.events = reckon(&(1, at, bytes.len() as u64, true, bytes, &self.events));
                Ok(())
            }
            Err(error) => Err(self.stop(error, 1, at, bytes)),
        }
    }

    fn sync(&mut self) -> Result<(), Fault>
        ensures trace { Syncs result
            (after_calls (S.Start.bytes self.old.len) self.old.events.value)
            (after_calls (S.Start.bytes self.new.len) self.new.events.value) }
        ensures len { length (after_calls (S.Start.bytes self.new.len) self.new.events.value).now.seen
            ≡ length (after_calls (S.Start.bytes self.old.len) self.old.events.value).now.seen }
        ensures honest { are_right (S.Start.bytes self.new.len) self.new.events.value
            ≡ are_right (S.Start.bytes self.old.len) self.old.events.value }
        ensures failures { CountsFailures result (failed_in self.old.events.value)
            (failed_in self.new.events.value) }
        ensures stopped { self.old.stopped ≡ true → result ≡ Err Fault.Io }
        ensures stops { OnErr result (self.new.stopped ≡ true) }
    {
        if self.stopped {
            return Err(self.refuse());
        }
        match self.locked.sync() {
            Ok(()) => {
                self.events = reckon(&(2, 0, 0, true, NO_BYTES, &self.events));
                Ok(())
            }
            Err(error) => Err(self.stop(error, 2, 0, &[])),
        }
    }
}

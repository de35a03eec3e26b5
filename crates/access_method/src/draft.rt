//! A file that is made under the name of a draft, and is given its own name only once it is whole.

ghost use Rattle.std.specs.Prelude.{◌≡◌, ◌++◌, codes, replicate, true, IfOk};
ghost use Rattle.device.specs.Disk.{first};
ghost use Rattle.device.specs.Event.{after_calls, failed_in, are_right};

use arrayvec::ArrayString;
use device::{FileDevice, Zeros, sync_folder};
use std::fs::{self, File, Metadata, OpenFile, OpenOptions, TryLockError};
use std::io::{self, Error, ErrorKind};
use std::os::unix::fs::MetadataExt;
use std::rt::Files;

/// The numbers of the system's answers that a name is there, that a name is too long, and that another has a
/// file's lock: `EEXIST`, `ENAMETOOLONG`, `EWOULDBLOCK`.
const IS_THERE: i32 = 17;

const NAME_TOO_LONG: i32 = 36;

const WOULD_BLOCK: i32 = 11;

/// A path with `.nardsill-draft` after it: the name that a file has there before it is whole. Refused if that
/// has more than 4,096 bytes.
pub(crate) fn draft_of(path: &str) -> io::Result<ArrayString<4_096>>
    ensures name { IfOk result (λ draft. draft.bytes ≡ path.now ++ codes ".nardsill-draft") }
{
    let mut draft = ArrayString::new();
    if draft.try_push_str(path).is_err() || draft.try_push_str(".nardsill-draft").is_err() {
        return Err(Error::from_raw_os_error(NAME_TOO_LONG));
    }
    Ok(draft)
}

/// Whether nothing has this name, no link that leads nowhere either. Refused if the system doesn't tell.
fn is_free<R: Files<File = File>>(rt: &R, path: &str) -> io::Result<bool> {
    match fs::symlink_metadata(rt, path) {
        Ok(_) => Ok(false),
        Err(error) if error.kind() == ErrorKind::NotFound => Ok(true),
        Err(error) => Err(error),
    }
}

/// Refused if something has this name.
pub(crate) fn want_free<R: Files<File = File>>(rt: &R, path: &str) -> io::Result<()> {
    if is_free(rt, path)? {
        Ok(())
    } else {
        Err(Error::from_raw_os_error(IS_THERE))
    }
}

/// Takes the draft's name from a file that has another one too: a whole one, whose making was stopped before
/// its end. It is left as it is under its own name. Refused for what is no file.
fn let_whole_go<R: Files<File = File>>(rt: &R, draft: &str) -> io::Result<()> {
    if is_free(rt, draft)? {
        return Ok(());
    }
    let named = fs::symlink_metadata(rt, draft)?;
    if !named.is_file() {
        return Err(Error::from_raw_os_error(IS_THERE));
    }
    if named.nlink() == 1 {
        return Ok(());
    }
    fs::remove_file(rt, draft)
}

/// Whether the draft's name leads to this very file, and no other name does.
fn is_draft(file: &Metadata, named: &Metadata) -> bool {
    file.is_file() && file.nlink() == 1 && file.dev() == named.dev() && file.ino() == named.ino()
}

/// Takes the lock of the draft's file. Refused if another has it, and if the file system has no locks: nobody
/// else has it then, and the draft is removed.
fn lock_draft<R: Files<File = File>>(rt: &R, draft: &str, file: &File) -> io::Result<()> {
    match file.try_lock() {
        Ok(()) => Ok(()),
        Err(TryLockError::WouldBlock) => Err(Error::from_raw_os_error(WOULD_BLOCK)),
        Err(TryLockError::Error(error)) => {
            let _ = fs::remove_file(rt, draft);
            Err(error)
        }
    }
}

/// Refused unless the draft's name leads to this very file, and no other name does.
fn want_draft<R: Files<File = File>>(rt: &R, draft: &str, file: &File) -> io::Result<()> {
    let held = file.metadata()?;
    let named = fs::symlink_metadata(rt, draft)?;
    if is_draft(&held, &named) {
        Ok(())
    } else {
        Err(Error::from_raw_os_error(WOULD_BLOCK))
    }
}

/// Lets go of a file's lock by a call, closes the file, and hands back why.
fn unlocked(file: File, error: Error) -> Error {
    // If it fails, the closing lets the lock go.
    let _ = file.unlock();
    error
}

/// The file of a draft with its lock, a new one or what a stopped making left there. Refused if another has
/// its lock, or the name leads elsewhere by now: nothing is changed then.
fn take_draft<R: Files<File = File>>(rt: &R, draft: &str) -> io::Result<File> {
    let_whole_go(rt, draft)?;
    let file = OpenOptions::new()
        .read(true)
        .write(true)
        .create(true)
        .open(rt, draft)?;
    lock_draft(rt, draft, &file)?;
    match want_draft(rt, draft, &file) {
        Ok(()) => Ok(file),
        Err(error) => Err(unlocked(file, error)),
    }
}

/// Removes the draft while its file has the lock, lets the lock go by a call, closes the file, and hands back
/// why.
fn removed<R: Files<File = File>>(rt: &R, draft: &str, file: File, error: Error) -> Error {
    let _ = fs::remove_file(rt, draft);
    unlocked(file, error)
}

/// A device over the draft, of `len` zeros, of which the first `filled` are written. Refused with what the
/// system said. If it took the draft by then, that is removed.
pub(crate) fn make_draft<R: Files<File = File>>(
    rt: &R,
    draft: &str,
    len: u64,
    filled: u64,
) -> io::Result<FileDevice<Zeros>>
    ensures held { IfOk result (λ d. after_calls (replicate d.len 0) d.events.value
        ≡ first (replicate len 0)) }
    ensures honest { IfOk result (λ d. are_right (replicate d.len 0) d.events.value ≡ true) }
{
    let file = take_draft(rt, draft)?;
    // It keeps the lock until the name is gone, if the making is refused.
    let locked = match file.try_clone() {
        Ok(locked) => locked,
        Err(error) => return Err(removed(rt, draft, file, error)),
    };
    match FileDevice::made(file, len, filled) {
        Ok(device) => Ok(device.into_owner()),
        Err(error) => Err(removed(rt, draft, locked, error)),
    }
}

/// Gives a draft that is whole its own name, which it has after a crash too, and takes the draft's from it.
/// Refused with what the system said if that name is there, the file system has no links, or a call fails:
/// the file has neither name then, if the system lets them be removed.
///
/// A crash may leave the file both names: also one soon after this, as the folder isn't synced again. A crash
/// before its own name is synced may leave one of them. The next making at this path takes the draft's name
/// away, and one that leads to a file with another name too is left alone.
pub(crate) fn place_draft<R: Files<File = File>>(
    rt: &R,
    draft: &str,
    path: &str,
) -> io::Result<()> {
    if let Err(error) = fs::hard_link(rt, draft, path) {
        let _ = fs::remove_file(rt, draft);
        return Err(error);
    }
    // The new name is on the disk before the old one goes.
    let synced = sync_folder(rt, path);
    let _ = fs::remove_file(rt, draft);
    if let Err(error) = synced {
        let _ = fs::remove_file(rt, path);
        return Err(error);
    }
    Ok(())
}

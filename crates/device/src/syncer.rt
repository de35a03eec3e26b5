//! Syncing a device's file while another thread has the device.

use std::alloc::{AllocError, Global};
use std::fs::{File, TryLockError};
use std::io::{self, Error};
use std::os::fd::AsRawFd;
use std::sync::Arc;
use std::sync::atomic::{AtomicBool, AtomicI32, AtomicU64, Ordering};

/// The number of the system's answer to a call that failed without a number: `EIO`.
const FAILED: i32 = 5;

/// The number of the system's answer that another syncer syncs: `EBUSY`.
const BUSY: i32 = 16;

/// What a device and the syncers of its file share. The syncers have an open file of their own. The system
/// tells each open file once of a write that came to nothing. So a sync of the device never succeeds for the
/// reason that a syncer was told.
#[derive(Drop)]
pub(crate) struct SyncNotes {
    file: File,
    /// A syncer syncs: another one isn't let in, as both have one open file.
    is_syncing: AtomicBool,
    /// How many writes have ended.
    written: AtomicU64,
    /// A sync that has ended began after this many of them.
    synced: AtomicU64,
    /// The number of the system's answer to a sync that failed, or 0.
    failed: AtomicI32,
}

/// SyncNotes a device's file, by another open file than the device's. It has no part in the file's lock: a
/// device that lets go of the lock by a call does so whatever syncers there are.
#[derive(Drop)]
pub struct Syncer {
    notes: Arc<SyncNotes, Global>,
}

impl SyncNotes {
    /// Those of a device's file, for another open file of it. The device may have written before.
    pub(crate) fn new(file: File) -> SyncNotes {
        SyncNotes {
            file,
            is_syncing: AtomicBool::new(false),
            // So the device's first sync isn't left out.
            written: AtomicU64::new(1),
            synced: AtomicU64::new(0),
            failed: AtomicI32::new(0),
        }
    }

    /// Notes that a write of the device has ended.
    pub(crate) fn note_write(&self) {
        self.written.fetch_add(1, Ordering::SeqCst);
    }

    /// Whether all that the device has written is synced. Refused with what the system has said to a syncer.
    pub(crate) fn are_enough(&self) -> io::Result<bool> {
        let failed = self.failed.load(Ordering::SeqCst);
        if failed != 0 {
            return Err(Error::from_raw_os_error(failed));
        }
        Ok(self.synced.load(Ordering::SeqCst) == self.written.load(Ordering::SeqCst))
    }

    /// Syncs the file, and notes what came of it. Refused with what the system says.
    fn sync(&self) -> io::Result<()> {
        let written = self.written.load(Ordering::SeqCst);
        match self.file.sync_data() {
            Ok(()) => {
                self.synced.fetch_max(written, Ordering::SeqCst);
                Ok(())
            }
            Err(error) => {
                let number = match error.raw_os_error() {
                    Some(number) => number,
                    None => FAILED,
                };
                self.failed.store(number, Ordering::SeqCst);
                Err(error)
            }
        }
    }
}

impl Syncer {
    /// One of them.
    pub(crate) fn of(notes: Arc<SyncNotes, Global>) -> Syncer {
        Syncer { notes }
    }

    /// The descriptor of its open file. Whoever closes it takes the file from the syncer.
    pub fn descriptor(&self) -> i32 {
        self.notes.file.as_raw_fd()
    }

    /// Another syncer of the same file. Refused where memory is refused.
    pub fn try_clone(&self) -> Result<Syncer, AllocError> {
        let notes = Arc::try_clone(&self.notes)?;
        Ok(Syncer { notes })
    }

    /// SyncNotes all that the device has written before. If the device writes nothing meanwhile, its next
    /// sync makes no call of the file. Refused with what the system says: then the device's next sync fails,
    /// whatever was synced since. Refused with `EBUSY` (16) while another syncer syncs: then nothing is
    /// synced, and the device goes on.
    pub fn sync(&self) -> io::Result<()> {
        if self.notes.is_syncing.swap(true, Ordering::SeqCst) {
            return Err(Error::from_raw_os_error(BUSY));
        }
        let result = self.notes.sync();
        self.notes.is_syncing.store(false, Ordering::SeqCst);
        result
    }
}

/// Whether a file is another open file of one whose lock is held: such a one doesn't get the lock. Where it
/// isn't, it may have the lock now, which it loses as it is closed.
pub(crate) fn is_beside(file: &File) -> bool {
    match file.try_lock() {
        Err(TryLockError::WouldBlock) => true,
        _ => false,
    }
}

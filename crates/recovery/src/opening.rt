//! An index is opened, after any crash.

ghost use Rattle.std.specs.Prelude.{◌≡◌, ◌⊎◌, ◌≤◌, ◌<◌, ℕ, suc, IsTrue, IsErrOf, List, false, length, IfOk, IfErr, OnOk, MatchResult};
ghost use Rattle.device.specs.Moments.{AtEachMoment};
ghost use Rattle.index_model.specs.Limits.{AreLimits};
ghost use Rattle.page_codec.specs.declared.page.Page.{Page};
ghost use Rattle.page_action.specs.Room.{LogIsClosed};
ghost use Rattle.page_store.specs.Logged.{StandsOpened, backing_of};
ghost use Rattle.page_store.specs.Rooms.{format_of_room, frames_of_room};
ghost use Rattle.page_store.specs.Stores.{state_of, held_by};
ghost use Rattle.index_model.specs.declared.format.Format.{Format};
ghost use Rattle.page_codec.specs.Places.{needed_length};
ghost use Rattle.page_store.specs.Restart.{RestartsTo, CrashesToPages};
ghost use Rattle.redo_log.specs.Kept.{groups_end};
ghost use Rattle.redo_log.specs.Reading.{IsOpened, IsDamaged, ReplayFails};
ghost use Rattle.recovery.specs.Calls.{OnlyReads, ReadsAndWrites, IsIoOr, FailsWithIoOr};
ghost use Rattle.recovery.specs.Index.{HasIndex};
ghost use Rattle.recovery.specs.Opening.{AreFrames, HasGroups, IsFront, IsFrontRefusal, IsRestoreRefusal, IsSynced, IsRestored, IsFound, IsRefusal, AreSamePages, IsNoMemoryOrIo, IsFreshlyOpened, StandsOnDevice, IsSameIndex, device_left};
ghost use Rattle.recovery.specs.Outside.{ChangesAfterFront, StaysInside};

use crate::homing::bring_home;
use crate::reading::{Found, read_pages};
use crate::superblock::read_superblock;
use device::Device;
use index_model::{Fault, Format};
use page_codec::page_place;
use page_store::Store;
use redo_log::Log;
use std::alloc::Global;

/// Why an index was not opened, and the device as the open left it.
#[derive(Drop)]
pub struct Refused<D> {
    pub fault: Fault,
    pub device: D,
}

/// An index as it was found: its log, closed, and its pages.
#[derive(Drop)]
pub(crate) struct Parts {
    pub(crate) log: Log,
    pub(crate) found: Found,
}

/// The sizes of the index on the device. Refused, in this order: a number of frames out of 16 to 1,024
/// (`BadLimits`, 18); fewer than 4,096 bytes (`BadSuper`, 14); a failed read (`Io`, 2); what the superblock
/// is refused with; a device shorter than it says (`BadSuper`).
fn find_format<D: Device>(device: &mut D, frames: u32) -> Result<Format, Fault>
    ensures front { IfOk result (λ format. IsTrue (D.is_honest device.new)
        → IsFront format (D.trace device.old).now.seen) }
    ensures allowed { IfOk result AreLimits }
    ensures long { IfOk result (λ format.
        needed_length format ≤ length (D.trace device.old).now.seen) }
    ensures frames { OnOk result (AreFrames frames) }
    ensures only { AreFrames frames → IsTrue (D.is_honest device.new) → (format : Format)
        → IsFront format (D.trace device.old).now.seen
        → MatchResult result (λ found. found ≡ format) (λ e. e ≡ Fault.Io) }
    ensures calls { OnlyReads D.Device device.old device.new }
    ensures cause { FailsWithIoOr
        (IsFrontRefusal (D.is_honest device.new) frames (D.trace device.old).now.seen)
        result (D.failures device.old) (D.failures device.new) }
{
    if frames < 16 || frames > 1024 {
        return Err(Fault::BadLimits);
    }
    if device.len() < 4096 {
        return Err(Fault::BadSuper);
    }
    let mut bytes = [0; 4096];
    device.read_at(0, &mut bytes)?;
    let format = read_superblock(&bytes)?;
    if device.len() < page_place(&format, format.pages) {
        return Err(Fault::BadSuper);
    }
    Ok(format)
}

/// Brings what the log holds to the places of its blocks, and closes the log. Refused with `NoMemory` (1),
/// `Io` (2) and `LogDamaged` (16).
fn restore_log<D: Device>(alloc: Global, device: &mut D, format: Format) -> Result<Log, Fault>
    requires allowed { AreLimits format }
    requires inside { needed_length format ≤ length (D.trace device.old).now.seen }
    ensures opened { IfOk result (IsOpened format) }
    ensures closed { IfOk result (λ log. groups_end log ≡ 0) }
    ensures undamaged { OnOk result (IsTrue (D.is_honest device.new)
        → HasGroups format (D.trace device.old).now.seen) }
    ensures same { IsTrue (D.is_honest device.new) → IsSynced (D.trace device.old).now
        → (pages : List Page) → RestartsTo format (D.trace device.old).now.seen pages
        → MatchResult result (λ log. StandsOpened log (D.trace device.new).now pages)
        IsNoMemoryOrIo }
    ensures moments { IsTrue (D.is_honest device.new) → IsSynced (D.trace device.old).now
        → (pages : List Page) → RestartsTo format (D.trace device.old).now.seen pages
        → AtEachMoment (CrashesToPages format pages) (D.trace device.old) (D.trace device.new) }
    ensures outside { ChangesAfterFront format (D.trace device.old) (D.trace device.new) }
    ensures damaged { IfErr result (λ e. e ≡ Fault.LogDamaged
        → (D.trace device.new ≡ D.trace device.old)
        × (IsTrue (D.is_honest device.new) → IsDamaged format (D.trace device.old).now)) }
    ensures calls { ReadsAndWrites D.Device device.old device.new }
    ensures cause { ReplayFails result (D.failures device.old) (D.failures device.new) }
{
    let found = match Log::replay(alloc, device, format) {
        Ok(found) => found,
        Err(fault) => return Err(fault),
    };
    found.log.keeping_law();
    bring_home(device, format, &found)?;
    let mut log = found.log;
    log.reset(device)?;
    Ok(log)
}

/// Makes what a read gives stand through a crash, restores the log and reads the pages. Refused with
/// `NoMemory` (1), `Io` (2), `LogDamaged` (16) and `PageDamaged` (17).
fn restore<D: Device>(
    alloc: Global,
    device: &mut D,
    format: Format,
    frames: u32,
) -> Result<Parts, Fault>
    requires allowed { AreLimits format }
    requires inside { needed_length format ≤ length (D.trace device.old).now.seen }
    ensures frames { IfOk result (λ parts. frames_of_room parts.found.room ≡ frames) }
    ensures restored { IfOk result
        (IsRestored format (D.is_honest device.new) (D.trace device.new).now.seen) }
    ensures undamaged { OnOk result (IsTrue (D.is_honest device.new)
        → HasGroups format (D.trace device.old).now.seen) }
    ensures same { IsTrue (D.is_honest device.new) → (pages : List Page) → 0 < length pages
        → RestartsTo format (D.trace device.old).now.seen pages
        → MatchResult result (AreSamePages pages (D.trace device.new).now) IsNoMemoryOrIo }
    ensures moments { IsTrue (D.is_honest device.new) → (pages : List Page)
        → RestartsTo format (D.trace device.old).now.seen pages
        → AtEachMoment (CrashesToPages format pages) (D.trace device.old) (D.trace device.new) }
    ensures outside { ChangesAfterFront format (D.trace device.old) (D.trace device.new) }
    ensures calls { ReadsAndWrites D.Device device.old device.new }
    ensures cause { FailsWithIoOr
        (IsRestoreRefusal format (D.is_honest device.new) (D.trace device.old) (D.trace device.new))
        result (D.failures device.old) (D.failures device.new) }
{
    device.sync()?;
    let log = restore_log(alloc, device, format)?;
    let found = read_pages(alloc, device, format, frames)?;
    Ok(Parts { log, found })
}

/// Finds the index on the device, restores its log and reads its pages.
fn read_index<D: Device>(alloc: Global, device: &mut D, frames: u32) -> Result<Parts, Fault>
    ensures frames { OnOk result (AreFrames frames) }
    ensures room { IfOk result (λ parts. frames_of_room parts.found.room ≡ frames) }
    ensures found { IfOk result
        (IsFound (D.is_honest device.new)
        (D.trace device.old).now.seen (D.trace device.new).now.seen) }
    ensures same { IsTrue (D.is_honest device.new) → AreFrames frames
        → (format : Format) (pages : List Page)
        → HasIndex format pages (D.trace device.old).now.seen
        → MatchResult result (λ parts. (format_of_room parts.found.room ≡ format)
        × AreSamePages pages (D.trace device.new).now parts) IsNoMemoryOrIo }
    ensures moments { IsTrue (D.is_honest device.new) → (format : Format) (pages : List Page)
        → HasIndex format pages (D.trace device.old).now.seen
        → AtEachMoment (CrashesToPages format pages) (D.trace device.old) (D.trace device.new) }
    ensures outside { StaysInside (D.is_honest device.new)
        (D.trace device.old) (D.trace device.new) }
    ensures calls { ReadsAndWrites D.Device device.old device.new }
    ensures cause { FailsWithIoOr
        (IsRefusal (D.is_honest device.new) frames (D.trace device.old) (D.trace device.new))
        result (D.failures device.old) (D.failures device.new) }
{
    let format = find_format(device, frames)?;
    restore(alloc, device, format, frames)
}

/// Opens the index on the device, after any crash, for `frames` pages in memory at once (16 to 1,024). It
/// reads the superblock, syncs the device and reads the log. It writes the last image of each block in the
/// log's open groups to its place, syncs these, and closes the log. Then it reads the pages of the blocks in
/// use. Its room is then that of an empty log, (`log_bytes` - 6) / 4,096 images. After it, nothing takes
/// memory.
///
/// Refused, tested in this order, with the device given back: with `BadLimits` (18) for other numbers of
/// frames; with `BadSuper` (14) for a device of less than 4,096 bytes; with `BadSuper`, `BadVersion` (15) or
/// `BadLimits` for what stands in place of a superblock; with `BadSuper` for a device shorter than the
/// superblock says: up to here nothing is written. Then with `LogDamaged` (16) if an open group of the log
/// isn't one of the format; with `PageDamaged` (17) for the first block in use whose page may not stand
/// there, or for block 0 if no block is in use. A failed call of the device answers `Io` (2), a growth that
/// was refused `NoMemory` (1).
///
/// It never changes which pages the bytes stand for: after a refusal, or a crash at any moment, it may be
/// called again.
pub fn open<D: Device>(alloc: Global, device: D, frames: u32) -> Result<Store<D>, Refused<D>>
    ensures frames { OnOk result (AreFrames frames) }
    ensures opened { IfOk result (λ store. IsFreshlyOpened frames (state_of D.Device store)) }
    ensures alive { IfOk result (λ store. (backing_of (held_by D.Device store)).stopped ≡ false) }
    ensures durable { IfOk result (λ store. (backing_of (held_by D.Device store)).durable ≡ 0) }
    ensures room { IfOk result (λ store.
        LogIsClosed (state_of D.Device store).format (backing_of (held_by D.Device store))) }
    // What it has is what stands on the device.
    ensures read { IsTrue (D.is_honest (device_left D.Device result)) → IfOk result (λ store.
        StandsOnDevice (state_of D.Device store) (D.trace device).now.seen
        (D.trace (device_left D.Device result)).now.seen) }
    // An index is opened with its pages, and refused only for want of memory or of the device.
    ensures same { IsTrue (D.is_honest (device_left D.Device result)) → AreFrames frames
        → (format : Format) (pages : List Page) → HasIndex format pages (D.trace device).now.seen
        → MatchResult result (IsSameIndex D.Device format pages)
        (λ refused. IsNoMemoryOrIo refused.fault) }
    // A crash at each moment since leaves the same index, whatever was answered.
    ensures moments { IsTrue (D.is_honest (device_left D.Device result))
        → (format : Format) (pages : List Page) → HasIndex format pages (D.trace device).now.seen
        → AtEachMoment (CrashesToPages format pages) (D.trace device) (D.trace (device_left D.Device result)) }
    // Nothing but the log and the pages of the index is written.
    ensures outside { StaysInside (D.is_honest (device_left D.Device result))
        (D.trace device) (D.trace (device_left D.Device result)) }
    ensures cause { IfErr result (λ refused.
        IsIoOr
        (IsRefusal (D.is_honest refused.device) frames (D.trace device) (D.trace refused.device))
        (D.failures device) (D.failures refused.device) refused.fault) }
    ensures done { OnOk result (D.failures (device_left D.Device result) ≡ D.failures device) }
    ensures len { length (D.trace (device_left D.Device result)).now.seen
        ≡ length (D.trace device).now.seen }
    ensures honest { IsTrue (D.is_honest (device_left D.Device result))
        → IsTrue (D.is_honest device) }
{
    let mut device = device;
    let read = read_index(alloc, &mut device, frames);
    match read {
        Ok(Parts { log, found }) => {
            let Found { room, last_cycle } = found;
            Ok(Store::new(device, log, room, last_cycle))
        }
        Err(fault) => Err(Refused { fault, device }),
    }
}

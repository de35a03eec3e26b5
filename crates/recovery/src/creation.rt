//! An index is made.

ghost use Rattle.std.specs.Prelude.{◌≡◌, ◌+◌, ◌-◌, ◌*◌, ◌≤◌, ◌<◌, [], ◌∷◌, length, OnOk};
ghost use Rattle.device.specs.Moments.{AtEachMoment};
ghost use Rattle.device.specs.Places.{Has, OnDisk, ChangesOnly};
ghost use Rattle.index_model.specs.Formats.{made};
ghost use Rattle.index_model.specs.Limits.{AreLimits};
ghost use Rattle.page_codec.specs.Spelling.{page_bytes};
ghost use Rattle.page_codec.specs.Places.{log_start, place, needed_length};
ghost use Rattle.recovery.specs.Calls.{OnlyWrites};
ghost use Rattle.recovery.specs.Fresh.{IsFirstMeta, IsFirstLeaf, AreZero, HasPages, HasBody, WritesFront, IsMaking, IsEmptyIndex, CrashesToEmpty, CreateEnds};
ghost use Rattle.recovery.specs.Outside.{ChangesItsBytes, ChangesAfterFront, SameLogBytes};

use crate::superblock::spell_superblock;
use arrayvec::ArrayVec;
use device::Device;
use index_model::{Fault, Format, Layout, Limits};
use page_codec::{Items, LOG_START, Page, PageState, encode, needed_len, page_place};

/// The metapage of an empty index, whose root is the leaf at block 1.
fn first_meta() -> Page
    ensures { IsFirstMeta result }
{
    Page {
        layout: Layout::Two,
        block: 0,
        level: 0,
        state: PageState::Live,
        split: false,
        left: None,
        right: Some(1),
        high: None,
        cycle: 0,
        deletion: 0,
        items: Items::Meta,
    }
}

/// The leaf of an empty index.
fn first_leaf() -> Page
    ensures { IsFirstLeaf result }
{
    Page {
        layout: Layout::Two,
        block: 1,
        level: 0,
        state: PageState::Live,
        split: false,
        left: None,
        right: None,
        high: None,
        cycle: 0,
        deletion: 0,
        items: Items::Entries(ArrayVec::new()),
    }
}

/// Writes bytes at a place of the device. Nothing else changes, even at `Io`.
pub(crate) fn place<D: Device>(device: &mut D, at: u64, bytes: &[u8]) -> Result<(), Fault>
    requires inside { at + length bytes.now ≤ length (D.trace device.old).now.seen }
    ensures there { OnOk result (Has at bytes.now (D.trace device.new).now.seen) }
    ensures moments { AtEachMoment (ChangesOnly at (length bytes.now) (D.trace device.old).now)
        (D.trace device.old) (D.trace device.new) }
    ensures calls { OnlyWrites D.Device result device.old device.new }
{
    device.write_at(at, bytes)
}

/// Zeros are written over so many blocks at once.
const BATCH: u32 = 16;

/// Writes zeros over each block from the third on, 16 blocks at a time.
fn place_zeros<D: Device>(device: &mut D, format: &Format) -> Result<(), Fault>
    requires allowed { AreLimits format.now }
    requires inside { needed_length format.now ≤ length (D.trace device.old).now.seen }
    ensures there { OnOk result
        (AreZero format.now 2 format.now.pages (D.trace device.new).now.seen) }
    ensures moments { AtEachMoment
        (ChangesOnly (place format.now 2) (4096 * (format.now.pages - 2)) (D.trace device.old).now)
        (D.trace device.old) (D.trace device.new) }
    ensures calls { OnlyWrites D.Device result device.old device.new }
{
    let zeros = [0; 65_536];
    let mut block = 2;
    while block < format.pages {
        let end = format.pages.min(block + BATCH);
        let len = 4096 * (end - block) as usize;
        place(device, page_place(format, block), &zeros[..len])?;
        block = end;
    }
    Ok(())
}

/// Writes the page at its block.
fn place_page<D: Device>(device: &mut D, format: &Format, page: &Page) -> Result<(), Fault>
    requires allowed { AreLimits format.now }
    requires below { page.now.block < format.now.pages }
    requires inside { needed_length format.now ≤ length (D.trace device.old).now.seen }
    ensures there { OnOk result
        (Has (place format.now page.now.block) (page_bytes page.now)
        (D.trace device.new).now.seen) }
    ensures long { length (page_bytes page.now) ≡ 4096 }
    ensures moments { AtEachMoment
        (ChangesOnly (place format.now page.now.block) 4096 (D.trace device.old).now)
        (D.trace device.old) (D.trace device.new) }
    ensures calls { OnlyWrites D.Device result device.old device.new }
{
    let mut bytes = [0; 4096];
    encode(page, &mut bytes);
    place(device, page_place(format, page.block), &bytes)
}

/// Writes the pages of an empty index, and zeros after them.
fn place_pages<D: Device>(device: &mut D, format: &Format) -> Result<(), Fault>
    requires allowed { AreLimits format.now }
    requires inside { needed_length format.now ≤ length (D.trace device.old).now.seen }
    ensures there { OnOk result (HasPages format.now (D.trace device.new).now.seen) }
    ensures moments { AtEachMoment
        (ChangesOnly (place format.now 0) (4096 * format.now.pages) (D.trace device.old).now)
        (D.trace device.old) (D.trace device.new) }
    ensures calls { OnlyWrites D.Device result device.old device.new }
{
    place_zeros(device, format)?;
    place_page(device, format, &first_meta())?;
    place_page(device, format, &first_leaf())
}

/// Writes all but the superblock, a closed gate at the beginning of the log, and syncs it.
fn place_body<D: Device>(device: &mut D, format: &Format) -> Result<(), Fault>
    requires allowed { AreLimits format.now }
    requires inside { needed_length format.now ≤ length (D.trace device.old).now.seen }
    ensures there { OnOk result (HasBody format.now (D.trace device.new).now) }
    ensures moments { ChangesAfterFront format.now (D.trace device.old) (D.trace device.new) }
    ensures log { SameLogBytes format.now (D.trace device.old) (D.trace device.new) }
    ensures calls { OnlyWrites D.Device result device.old device.new }
{
    place(device, LOG_START, &[0])?;
    place_pages(device, format)?;
    device.sync()
}

/// Writes the superblock's bytes and syncs them. Nothing else changes.
fn place_front<D: Device>(device: &mut D, bytes: &[u8; 4096]) -> Result<(), Fault>
    requires inside { 4096 ≤ length (D.trace device.old).now.seen }
    ensures there { OnOk result (OnDisk 0 bytes.now (D.trace device.new).now) }
    ensures moments { AtEachMoment (WritesFront bytes.now (D.trace device.old).now)
        (D.trace device.old) (D.trace device.new) }
    ensures calls { OnlyWrites D.Device result device.old device.new }
{
    device.write_at(0, bytes)?;
    device.sync()
}

/// Writes and syncs an empty index over whatever the device holds, in this order: zeros over the superblock;
/// then the pages and a closed log; then the superblock. If it is stopped in between, it may be called again.
fn write_index<D: Device>(device: &mut D, format: &Format) -> Result<(), Fault>
    requires allowed { AreLimits format.now }
    requires inside { needed_length format.now ≤ length (D.trace device.old).now.seen }
    ensures made { OnOk result (IsEmptyIndex format.now (D.trace device.new).now) }
    ensures moments { AtEachMoment (IsMaking format.now (D.trace device.old).now)
        (D.trace device.old) (D.trace device.new) }
    ensures outside { ChangesItsBytes format.now (D.trace device.old) (D.trace device.new) }
    ensures log { SameLogBytes format.now (D.trace device.old) (D.trace device.new) }
    ensures calls { OnlyWrites D.Device result device.old device.new }
{
    let mut front = [0; 4096];
    place_front(device, &front)?;
    place_body(device, format)?;
    spell_superblock(format, &mut front);
    place_front(device, &front)
}

/// Makes an empty index of these limits on the device, over whatever it holds: the superblock, a closed log,
/// the metapage, one empty leaf, and zeros in all other blocks, all of it synced. Of the log it writes the
/// first gate alone: what stands after that stays, and so do bytes after the last block.
///
/// Refused, with the device as it was: with `BadLimits` (18) for limits out of their ranges; with
/// `DeviceTooSmall` (20) for a device of fewer than 4,096 + `log_bytes` + 4,096 * `pages` bytes. Refused with
/// `Io` (2) if a device call fails. After that, and after a crash during the call, the index is to be made
/// anew: this call takes a device with any bytes. It takes no memory.
pub fn create<D: Device>(device: &mut D, limits: &Limits) -> Result<(), Fault>
    ensures made { OnOk result (IsEmptyIndex (made limits.now) (D.trace device.new).now) }
    // So it can be opened, also after a crash.
    ensures own { OnOk result (CrashesToEmpty (made limits.now) (D.trace device.new).now) }
    // A crash at each moment since leaves what was there except for its superblock, no index, or the
    // new one.
    ensures moments { AtEachMoment (IsMaking (made limits.now) (D.trace device.old).now)
        (D.trace device.old) (D.trace device.new) }
    // Bytes after the index stay as they are, and those of its log after the first gate.
    ensures outside { ChangesItsBytes (made limits.now) (D.trace device.old) (D.trace device.new) }
    ensures log { SameLogBytes (made limits.now) (D.trace device.old) (D.trace device.new) }
    ensures ends { CreateEnds (made limits.now) result (D.trace device.old) (D.trace device.new)
        (D.failures device.old) (D.failures device.new) }
    ensures len { length (D.trace device.new).now.seen ≡ length (D.trace device.old).now.seen }
    ensures honest { D.is_honest device.new ≡ D.is_honest device.old }
{
    let format = Format::new(limits);
    if !format.are_valid() {
        return Err(Fault::BadLimits);
    }
    if device.len() < needed_len(limits) {
        return Err(Fault::DeviceTooSmall);
    }
    write_index(device, &format)
}

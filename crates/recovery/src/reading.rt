//! The pages of the blocks in use are read.

ghost use Rattle.std.specs.Prelude.{◌≡◌, ◌⊎◌, ◌+◌, ◌-◌, ◌*◌, ◌≤◌, ◌<◌, ℕ, suc, Bool, IsTrue, List, [], length, replicate, slice_range, IfOk, IfErr, OnOk};
ghost use Rattle.index_model.specs.Limits.{AreLimits};
ghost use Rattle.page_codec.specs.Places.{needed_length};
ghost use Rattle.page_store.specs.Rooms.{format_of_room, frames_of_room, pages_of_room, counts_of_room};
ghost use Rattle.recovery.specs.Calls.{OnlyReads, FailsWithIoOr};
ghost use Rattle.recovery.specs.Reading.{block_bytes, AreBlocks, AreBytesOf, IsEnd, IsDamagedBlock, HasReadPages, IsAllRead};
ghost use Rattle.page_action.specs.Stored.{IsStored};
ghost use Rattle.page_codec.specs.declared.page.Page.{Page};
ghost use Rattle.page_codec.specs.Grammar.{IsPage};
ghost use Rattle.page_codec.specs.Spelling.{page_bytes};

use device::Device;
use index_model::{Fault, Format};
use page_codec::{Page, decode, is_unused, page_place};
use page_store::StoreRoom;
use std::alloc::Global;

/// What was read of an index: its blocks in use with the room for more and for the frames, and the greatest
/// cycle number.
#[derive(Drop)]
pub(crate) struct Found {
    pub(crate) room: StoreRoom,
    pub(crate) last_cycle: u32,
}

/// The bytes of so many blocks are read at once.
const BATCH: u32 = 16;

/// Room for the bytes of a batch. Refused with `NoMemory` (1).
fn batch_room(alloc: Global) -> Result<Vec<u8>, Fault>
    ensures len { IfOk result (λ room. length room.items ≡ 65536) }
    ensures fault { IfErr result (λ e. e ≡ Fault.NoMemory) }
{
    let mut room = Vec::new(alloc);
    if room.resize(4096 * BATCH as usize, 0).is_err() {
        return Err(Fault::NoMemory);
    }
    Ok(room)
}

/// The page of these bytes; none if they are zeros. Other bytes are refused with `PageDamaged` (17) for this
/// block.
fn page_of(block: u32, bytes: &[u8]) -> Result<Option<Page>, Fault>
    requires { length bytes.now ≡ 4096 }
    ensures found { IfOk result (λ found. AreBytesOf found bytes.now) }
    ensures fault { IfErr result (λ e. e ≡ Fault.PageDamaged block) }
    ensures no_page { IfErr result (λ e.
        (page : Page) → IsPage page → bytes.now ≡ page_bytes page → ⊥) }
    ensures in_use { IfErr result (λ e. bytes.now ≡ replicate 4096 0 → ⊥) }
{
    let Some(bytes) = bytes.as_array() else {
        return Ok(None);
    };
    if is_unused(bytes) {
        return Ok(None);
    }
    match decode(bytes) {
        Some(page) => Ok(Some(page)),
        None => Err(Fault::PageDamaged(block)),
    }
}

/// The 4,096 bytes that stand there.
fn piece(bytes: &[u8], at: usize) -> &[u8]
    requires { at + 4096 ≤ length bytes.now }
    ensures value { result.now ≡ slice_range bytes.now at (at + 4096) }
    ensures len { length result.now ≡ 4096 }
{
    &bytes[at..at + 4096]
}

/// Adds the pages of the blocks from `from` up to `end`, whose bytes these are. It answers the first of them
/// that is unused, or `end`. Refused with `PageDamaged` (17) for the first one that is damaged.
fn add_blocks(from: u32, end: u32, bytes: &[u8], found: &mut Found) -> Result<u32, Fault>
    requires order { from ≤ end }
    requires within { end ≤ (format_of_room found.old.room).pages }
    requires whole { length bytes.now ≡ 4096 * (end - from) }
    requires number { length (pages_of_room found.old.room) ≡ from }
    ensures read { (honest : Bool) (file : List ℕ)
        → HasReadPages (format_of_room found.old.room) honest file found.old
        → (IsTrue honest → AreBlocks (format_of_room found.old.room) from end bytes.now file)
        → OnOk result (HasReadPages (format_of_room found.old.room) honest file found.new) }
    ensures number { IfOk result (λ next. next ≡ length (pages_of_room found.new.room)) }
    ensures few { IfOk result (λ next. next ≤ end) }
    ensures unused { (file : List ℕ)
        → AreBlocks (format_of_room found.old.room) from end bytes.now file
        → IfOk result (λ next. next < end
        → block_bytes (format_of_room found.old.room) next file ≡ replicate 4096 0) }
    ensures format { format_of_room found.new.room ≡ format_of_room found.old.room }
    ensures frames { frames_of_room found.new.room ≡ frames_of_room found.old.room }
    ensures cause { (honest : Bool) (file : List ℕ)
        → HasReadPages (format_of_room found.old.room) honest file found.old
        → (IsTrue honest → AreBlocks (format_of_room found.old.room) from end bytes.now file)
        → IfErr result (IsDamagedBlock (format_of_room found.old.room) honest file) }
{
    for block in from..end {
        let at = 4096 * (block - from) as usize;
        let Some(page) = page_of(block, piece(bytes, at))? else {
            return Ok(block);
        };
        found.last_cycle = found.last_cycle.max(page.cycle);
        found.room.add(&page)?;
    }
    Ok(end)
}

/// Adds the pages of the blocks in use, in order, and answers how many they are. Into `batch` the bytes of 16
/// blocks are read at once, or of those that are left. Refused with `Io` (2), and with `PageDamaged` (17) for
/// the first block that is damaged.
fn add_pages<D: Device>(
    device: &mut D,
    format: Format,
    batch: &mut [u8],
    found: &mut Found,
) -> Result<u32, Fault>
    requires allowed { AreLimits format }
    requires inside { needed_length format ≤ length (D.trace device.old).now.seen }
    requires batch { length batch.old ≡ 65536 }
    requires format { format_of_room found.old.room ≡ format }
    requires empty { pages_of_room found.old.room ≡ [] }
    requires uncounted { counts_of_room found.old.room ≡ [] }
    requires last_cycle { found.old.last_cycle ≡ 0 }
    ensures read { OnOk result
        (HasReadPages format (D.is_honest device.new) (D.trace device.old).now.seen found.new) }
    ensures frames { frames_of_room found.new.room ≡ frames_of_room found.old.room }
    ensures number { IfOk result (λ used. used ≡ length (pages_of_room found.new.room)) }
    ensures few { IfOk result (λ used. used ≤ format.pages) }
    ensures end { IfOk result (λ used. IsTrue (D.is_honest device.new)
        → IsEnd format used (D.trace device.old).now.seen) }
    ensures calls { OnlyReads D.Device device.old device.new }
    ensures cause { FailsWithIoOr
        (IsDamagedBlock format (D.is_honest device.new) (D.trace device.old).now.seen)
        result (D.failures device.old) (D.failures device.new) }
{
    let mut used = 0;
    while used < format.pages {
        let end = format.pages.min(used + BATCH);
        let bytes = &mut batch[..4096 * (end - used) as usize];
        device.read_at(page_place(&format, used), bytes)?;
        used = add_blocks(used, end, bytes, found)?;
        if used < end {
            return Ok(used);
        }
    }
    Ok(used)
}

/// Reads the pages of the blocks in use, up to the first unused one, each once and 16 blocks at a time; none
/// stays in memory. Refused with `NoMemory` (1), `Io` (2), and with `PageDamaged` (17) for the first block
/// whose bytes are no page that may be stored there; also for block 0 if it is unused.
pub(crate) fn read_pages<D: Device>(
    alloc: Global,
    device: &mut D,
    format: Format,
    frames: u32,
) -> Result<Found, Fault>
    requires allowed { AreLimits format }
    requires inside { needed_length format ≤ length (D.trace device.old).now.seen }
    ensures frames { IfOk result (λ found. frames_of_room found.room ≡ frames) }
    ensures read { IfOk result
        (IsAllRead format (D.is_honest device.new) (D.trace device.old).now.seen) }
    ensures calls { OnlyReads D.Device device.old device.new }
    ensures cause { FailsWithIoOr
        (λ e. (e ≡ Fault.NoMemory)
        ⊎ IsDamagedBlock format (D.is_honest device.new) (D.trace device.old).now.seen e)
        result (D.failures device.old) (D.failures device.new) }
{
    let mut found = Found {
        room: StoreRoom::new(alloc, format, frames)?,
        last_cycle: 0,
    };
    let mut batch = batch_room(alloc)?;
    let used = add_pages(device, format, &mut batch, &mut found)?;
    if used == 0 {
        return Err(Fault::PageDamaged(0));
    }
    Ok(found)
}

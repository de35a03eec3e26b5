//! A page is written to its place, and read from there.

ghost use Rattle.std.specs.Prelude.{◌≡◌, ◌⊎◌, ◌+◌, ◌<◌, ◌≤◌, IsTrue, true, length, OnOk};
ghost use Rattle.device.specs.Disk.{CountsFailures, Writes};
ghost use Rattle.device.specs.Moments.{AtEachMoment};
ghost use Rattle.device.specs.Places.{Has, ChangesOnly};
ghost use Rattle.page_action.specs.Stored.{IsStored};
ghost use Rattle.page_codec.specs.Spelling.{page_bytes};
ghost use Rattle.page_codec.specs.Places.{place};
ghost use Rattle.page_store.specs.Writing.{ReadingFails, GivesPage};

use device::Device;
use index_model::{Fault, Format};
use page_codec::{Page, decode_into, encode, page_place};

/// Writes the bytes of the page.
fn put_page<D: Device>(device: &mut D, at: u64, page: &Page) -> Result<(), Fault>
    requires inside { at + 4096 ≤ length (D.trace device.old).now.seen }
    ensures trace { Writes at (page_bytes page.now) result
        (D.trace device.old) (D.trace device.new) }
    ensures whole { length (page_bytes page.now) ≡ 4096 }
    ensures len { length (D.trace device.new).now.seen ≡ length (D.trace device.old).now.seen }
    ensures honest { D.is_honest device.new ≡ D.is_honest device.old }
    ensures failures { CountsFailures result (D.failures device.old) (D.failures device.new) }
{
    let mut bytes = [0; 4096];
    encode(page, &mut bytes);
    device.write_at(at, &bytes)
}

/// Writes the page to the place of this block, its own. At each moment only that place changes.
pub(crate) fn write_page<D: Device>(
    device: &mut D,
    format: Format,
    block: u32,
    page: &Page,
) -> Result<(), Fault>
    requires block { block < format.pages }
    requires inside { place format format.pages ≤ length (D.trace device.old).now.seen }
    ensures moments { AtEachMoment (ChangesOnly (place format block) 4096 (D.trace device.old).now)
        (D.trace device.old) (D.trace device.new) }
    ensures written { OnOk result
        (Has (place format block) (page_bytes page.now) (D.trace device.new).now.seen) }
    ensures len { length (D.trace device.new).now.seen ≡ length (D.trace device.old).now.seen }
    ensures honest { D.is_honest device.new ≡ D.is_honest device.old }
    ensures failures { CountsFailures result (D.failures device.old) (D.failures device.new) }
{
    put_page(device, page_place(&format, block), page)
}

/// Reads the page of these bytes into the place of another, and answers whether it is one that may be stored
/// at this block.
fn decode_stored(bytes: &[u8; 4096], format: Format, block: u32, page: &mut Page) -> bool
    ensures stored { IsTrue result → IsStored format block page.new }
    ensures found { IsTrue result → bytes.now ≡ page_bytes page.new }
    ensures only { (p : Page) → IsStored format block p → bytes.now ≡ page_bytes p
        → IsTrue result }
{
    decode_into(bytes, page)
        && page.block == block
        && page.items.len() <= format.items as usize
        && format.admits(page.layout)
}

/// Reads the page of this block into the place of another. Refused with `Io` (2), and with `PageDamaged` (17)
/// if no page stands there that may be stored at this block; what `page` holds has no meaning then.
pub(crate) fn read_page<D: Device>(
    device: &mut D,
    format: Format,
    block: u32,
    page: &mut Page,
) -> Result<(), Fault>
    requires block { block < format.pages }
    requires inside { place format format.pages ≤ length (D.trace device.old).now.seen }
    ensures stored { OnOk result (IsStored format block page.new) }
    ensures read { D.is_honest device.new ≡ true → (p : Page) → IsStored format block p
        → Has (place format block) (page_bytes p) (D.trace device.old).now.seen
        → GivesPage p page.new result }
    ensures trace { D.trace device.new ≡ D.trace device.old }
    ensures honest { D.is_honest device.new ≡ true → D.is_honest device.old ≡ true }
    ensures cause { ReadingFails block result (D.failures device.old) (D.failures device.new) }
{
    let mut bytes = [0; 4096];
    device.read_at(page_place(&format, block), &mut bytes)?;
    if decode_stored(&bytes, format, block, page) {
        Ok(())
    } else {
        Err(Fault::PageDamaged(block))
    }
}

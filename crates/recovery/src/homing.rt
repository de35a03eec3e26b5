//! The images of a log are written to the places of their blocks.

ghost use Rattle.std.specs.Prelude.{◌≡◌, ◌≤◌, length, OnOk};
ghost use Rattle.device.specs.Moments.{AtEachMoment};
ghost use Rattle.index_model.specs.Limits.{AreLimits};
ghost use Rattle.page_codec.specs.Places.{needed_length};
ghost use Rattle.recovery.specs.Calls.{OnlyWrites};
ghost use Rattle.recovery.specs.Homing.{ChangesNamed, HasImages, AreHomed};

use crate::creation::place;
use device::Device;
use index_model::{Fault, Format};
use page_codec::page_place;
use redo_log::Replayed;

/// Writes the last image of each block to its place, once, from the bytes that were read.
fn write_images<D: Device>(device: &mut D, format: Format, found: &Replayed) -> Result<(), Fault>
    requires allowed { AreLimits format }
    requires inside { needed_length format ≤ length (D.trace device.old).now.seen }
    ensures moments { AtEachMoment (ChangesNamed format found.now (D.trace device.old).now)
        (D.trace device.old) (D.trace device.new) }
    ensures written { OnOk result (HasImages format found.now (D.trace device.new).now.seen) }
    ensures calls { OnlyWrites D.Device result device.old device.new }
{
    for block in 0..format.pages {
        if let Some(bytes) = found.image(block) {
            place(device, page_place(&format, block), bytes)?;
        }
    }
    Ok(())
}

/// Writes the last image of each block to its place, and syncs them. At each moment only places of blocks
/// that have an image change. Refused with `Io` (2).
pub(crate) fn bring_home<D: Device>(
    device: &mut D,
    format: Format,
    found: &Replayed,
) -> Result<(), Fault>
    requires allowed { AreLimits format }
    requires inside { needed_length format ≤ length (D.trace device.old).now.seen }
    ensures moments { AtEachMoment (ChangesNamed format found.now (D.trace device.old).now)
        (D.trace device.old) (D.trace device.new) }
    ensures home { OnOk result (AreHomed format found.now (D.trace device.new).now) }
    ensures calls { OnlyWrites D.Device result device.old device.new }
{
    write_images(device, format, found)?;
    device.sync()
}

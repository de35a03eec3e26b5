//! Where the parts of an index lie on a device: the superblock, the log, and after it the pages.

ghost use Rattle.std.specs.Prelude.{◌≡◌};
ghost use Rattle.index_model.specs.Formats.{made};
ghost use Rattle.page_codec.specs.Places.{place, needed_length};

use index_model::{Format, Limits};

/// Where the log begins: after the superblock.
pub const LOG_START: u64 = 4_096;

/// Where the page of a block lies: 4,096 bytes for each block, after the log.
pub fn page_place(format: &Format, block: u32) -> u64
    ensures { result ≡ place format.now block }
{
    LOG_START + format.log_bytes as u64 + 4_096 * block as u64
}

/// How many bytes an index of these sizes takes, up to the end of its last page.
pub fn needed_len(limits: &Limits) -> u64
    ensures { result ≡ needed_length (made limits.now) }
{
    page_place(&Format::new(limits), limits.pages)
}

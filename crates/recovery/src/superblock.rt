//! The superblock of an index.

ghost use Rattle.std.specs.Prelude.{◌≡◌, ◌+◌, ◌-◌, ◌≤◌, ◌++◌, length, take, replicate, Ok, IfSome, IfNone, IfOk, IfErr};
ghost use Rattle.std.specs.Int.{w32, to_le_bytes};
ghost use Rattle.index_model.specs.Limits.{AreLimits};
ghost use Rattle.index_model.specs.declared.format.Format.{Format};
ghost use Rattle.recovery.specs.Superblock.{spelled_number, layout_of, is_unique, IsLayout, IsNoSuperblock};
ghost use Rattle.page_codec.specs.Places.{layout_number, unique_number, superblock};

use index_model::{Fault, Format, Layout};

/// The bytes that an index begins with.
const MAGIC: [u8; 8] = *b"BLINKIDX";

/// Writes bytes at a place, and answers the place after them.
fn put(out: &mut [u8], at: usize, bytes: &[u8]) -> usize
    requires { at + length bytes.now ≤ length out.old }
    ensures next { result ≡ at + length bytes.now }
    ensures front { take result out.new ≡ take at out.old ++ bytes.now }
{
    let end = at + bytes.len();
    out[at..end].copy_from_slice(bytes);
    end
}

/// Writes a number at a place, lowest byte first, and answers the place after it.
fn put_number(out: &mut [u8], at: usize, n: u32) -> usize
    requires { at + 4 ≤ length out.old }
    ensures next { result ≡ at + 4 }
    ensures front { take result out.new ≡ take at out.old ++ to_le_bytes w32 n }
{
    put(out, at, &n.to_le_bytes())
}

/// Fills with zeros from there on.
fn clear_from(out: &mut [u8], at: usize)
    requires { at ≤ length out.old }
    ensures { out.new ≡ take at out.old ++ replicate (length out.old - at) 0 }
{
    out[at..].fill(0);
}

/// The number of a layout.
fn number_of(layout: Layout) -> u32
    ensures { result ≡ layout_number layout }
{
    match layout {
        Layout::One => 1,
        Layout::Two => 2,
    }
}

/// The number of an index that is unique, or of one that isn't.
fn number_if(unique: bool) -> u32
    ensures { result ≡ unique_number unique }
{
    if unique { 1 } else { 0 }
}

/// The layout with this number, if there is one.
fn layout_of(number: u32) -> Option<Layout>
    ensures found { IfSome result (λ layout. IsLayout number × (layout ≡ layout_of number)) }
    ensures none { IfNone result (IsLayout number → ⊥) }
{
    match number {
        1 => Some(Layout::One),
        2 => Some(Layout::Two),
        _ => None,
    }
}

/// Whether an index of this layout is unique by this number: one of the first layout never is.
fn is_unique(layout: Layout, number: u32) -> bool
    ensures { result ≡ is_unique layout number }
{
    matches!(layout, Layout::Two) && number == 1
}

/// Writes the bytes of the superblock over all 4,096 bytes.
pub(crate) fn spell_superblock(format: &Format, out: &mut [u8; 4096])
    ensures { out.new ≡ superblock format.now }
{
    let at = put(out, 0, &MAGIC);
    let at = put_number(out, at, number_of(format.layout));
    let at = put_number(out, at, format.items);
    let at = put_number(out, at, format.pages);
    let at = put_number(out, at, format.log_bytes);
    let at = put_number(out, at, number_if(format.unique));
    clear_from(out, at);
}

/// The number that stands there.
fn number_at(bytes: &[u8; 4096], at: usize) -> u32
    requires { at + 4 ≤ 4096 }
    ensures { result ≡ spelled_number at bytes.now }
{
    let mut number = [0; 4];
    number.copy_from_slice(&bytes[at..at + 4]);
    u32::from_le_bytes(number)
}

/// The layout and the sizes of the index whose superblock these bytes are, and whether it is unique. Other
/// bytes are refused, tested in this order. With `BadSuper` (14) if they don't begin with `BLINKIDX`; with
/// `BadVersion` (15) for a layout other than 1 or 2; with `BadLimits` (18) for sizes out of their ranges.
/// Then with `BadSuper` if the next number is neither 0 nor, in the second layout, 1, or if other bytes than
/// zeros stand after it.
pub(crate) fn read_superblock(bytes: &[u8; 4096]) -> Result<Format, Fault>
    ensures allowed { IfOk result AreLimits }
    ensures found { IfOk result (λ format. bytes.now ≡ superblock format) }
    ensures only { (format : Format) → AreLimits format → bytes.now ≡ superblock format
        → result ≡ Ok format }
    ensures fault { IfErr result (IsNoSuperblock bytes.now) }
{
    if bytes[..8] != MAGIC[..] {
        return Err(Fault::BadSuper);
    }
    let Some(layout) = layout_of(number_at(bytes, 8)) else {
        return Err(Fault::BadVersion);
    };
    let format = Format {
        layout,
        unique: is_unique(layout, number_at(bytes, 24)),
        items: number_at(bytes, 12),
        pages: number_at(bytes, 16),
        log_bytes: number_at(bytes, 20),
    };
    if !format.are_valid() {
        return Err(Fault::BadLimits);
    }
    let mut again = [0; 4096];
    spell_superblock(&format, &mut again);
    if again != *bytes {
        return Err(Fault::BadSuper);
    }
    Ok(format)
}

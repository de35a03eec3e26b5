//! Images and their number in a buffer.

ghost use Rattle.std.specs.Prelude.{◌≡◌, suc, ◌+◌, ◌*◌, ◌≤◌, [], ◌∷◌, ◌++◌, length, take, drop, vec_capacity};
ghost use Rattle.std.specs.Int.{w32, to_le_bytes};
ghost use Rattle.page_codec.specs.Spelling.{page_bytes};
ghost use Rattle.redo_log.specs.Blocks.{ReachesPast};

use page_codec::{Page, encode};

/// Lays an image out in the buffer, behind the `count` images that are laid there. The buffer gets longer
/// with them, inside of its capacity.
pub(crate) fn lay_image(buffer: &mut Vec<u8>, count: usize, image: &Page)
    requires reserved { 5 + 4096 * suc count ≤ vec_capacity buffer.old }
    requires reaches { ReachesPast count buffer.old.items }
    ensures laid { take (4096 * suc count) (drop 4 buffer.new.items)
        ≡ take (4096 * count) (drop 4 buffer.old.items) ++ page_bytes image.now }
    ensures reached { ReachesPast (suc count) buffer.new.items }
    ensures capacity { vec_capacity buffer.old ≤ vec_capacity buffer.new }
{
    let at = 4 + 4096 * count;
    lengthen(buffer, at + 4097);
    put_image(&mut buffer[at..at + 4096], image);
}

/// Makes the buffer so long, if it is shorter, with zeros at its end. It has room for them, so that nothing
/// is asked of the allocator.
fn lengthen(buffer: &mut Vec<u8>, len: usize)
    requires reserved { len ≤ vec_capacity buffer.old }
    ensures kept { take (length buffer.old.items) buffer.new.items ≡ buffer.old.items }
    ensures len { len ≤ length buffer.new.items }
    ensures longer { length buffer.old.items ≤ length buffer.new.items }
    ensures capacity { vec_capacity buffer.old ≤ vec_capacity buffer.new }
{
    if buffer.len() < len {
        let _ = buffer.resize(len, 0);
    }
}

/// Writes one image, of which this is the place.
fn put_image(place: &mut [u8], image: &Page)
    requires { length place.old ≡ 4096 }
    ensures { place.new ≡ page_bytes image.now }
{
    if let Some(place) = place.as_mut_array() {
        encode(image, place);
    }
}

/// Puts the number in front of the images, and a closed gate after them.
pub(crate) fn seal(buffer: &mut [u8], count: u32)
    requires { 5 + 4096 * count ≤ length buffer.old }
    ensures sealed { take (5 + 4096 * count) buffer.new
        ≡ to_le_bytes w32 count ++ take (4096 * count) (drop 4 buffer.old) ++ 0 ∷ [] }
    ensures images { take (4096 * count) (drop 4 buffer.new) ≡ take (4096 * count) (drop 4 buffer.old) }
{
    buffer[..4].copy_from_slice(&count.to_le_bytes());
    buffer[4 + 4096 * count as usize] = 0;
}

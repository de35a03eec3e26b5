//! Groups are read from bytes.

ghost use Rattle.std.specs.Prelude.{◌≡◌, ℕ, ◌+◌, ◌*◌, ◌<◌, ◌≤◌, List, ◌∷◌, ◌++◌, length, take, drop, replicate, slice_range, Some, IfSome, IsNone};
ghost use Rattle.std.specs.Bool.{OnTrue, OnFalse};
ghost use Rattle.page_codec.specs.declared.page.Page.{Page};
ghost use Rattle.page_codec.specs.Spelling.{page_bytes};
ghost use Rattle.page_codec.specs.Grammar.{IsPage};
ghost use Rattle.redo_log.specs.Images.{images_bytes};
ghost use Rattle.redo_log.specs.Groups.{IsImage, AreImages, IsGroup, body, SpellsGroups};
ghost use Rattle.redo_log.specs.Reading.{NotesImages, NotesGroup, AreAllNoted};

use crate::image::is_within;
use index_model::Format;
use page_codec::{Page, decode};

/// The page of these bytes, if they are those of a page.
fn page_of(bytes: &[u8]) -> Option<Page>
    requires { length bytes.now ≡ 4096 }
    ensures found { IfSome result (λ p. IsPage p × (bytes.now ≡ page_bytes p)) }
    ensures only { (p : Page) → IsPage p → bytes.now ≡ page_bytes p → result ≡ Some p }
{
    decode(bytes.as_array()?)
}

/// The block of the image of these bytes, if an index of these limits may have it.
fn block_of(format: &Format, bytes: &[u8]) -> Option<u32>
    requires { length bytes.now ≡ 4096 }
    ensures found { IfSome result (λ b.
        (p : Page) × IsImage format.now p × (bytes.now ≡ page_bytes p) × (p.block ≡ b)) }
    ensures only { (p : Page) → IsImage format.now p → bytes.now ≡ page_bytes p
        → result ≡ Some p.block }
{
    let page = page_of(bytes)?;
    if !is_within(format, &page) {
        return None;
    }
    Some(page.block)
}

/// The 4,096 bytes that stand there.
fn piece(log: &[u8], at: usize) -> &[u8]
    requires { at + 4096 ≤ length log.now }
    ensures value { result.now ≡ slice_range log.now at (at + 4096) }
    ensures len { length result.now ≡ 4096 }
{
    &log[at..at + 4096]
}

/// The bytes from there on.
fn tail(log: &[u8], at: usize) -> &[u8]
    requires { at ≤ length log.now }
    ensures value { result.now ≡ drop at log.now }
    ensures len { length result.now + at ≡ length log.now }
{
    &log[at..]
}

/// Whether `count` images stand there. Each is judged once, and its place is noted as that of the last one of
/// its block.
fn note_images(format: &Format, lasts: &mut [u32], log: &[u8], at: usize, count: usize) -> bool
    requires small { length log.now ≤ 16777216 }
    requires many { length lasts.old ≡ format.now.pages }
    requires after { 0 < at }
    requires inside { at + 4096 * count ≤ length log.now }
    ensures noted { OnTrue result
        (NotesImages format.now log.now at count lasts.old lasts.new) }
    ensures wrong { OnFalse result ((ps : List Page) → AreImages format.now ps
        → take (4096 * count) (drop at log.now) ≡ images_bytes ps → ⊥) }
    ensures len { length lasts.new ≡ length lasts.old }
{
    for k in 0..count {
        let place = at + 4096 * k;
        let Some(block) = block_of(format, piece(log, place)) else {
            return false;
        };
        lasts[block as usize] = place as u32;
    }
    true
}

/// Notes the images of the group that stands there, after its gate, and answers how many they are.
/// None: the bytes are no group, or nothing stands after it.
fn note_group(format: &Format, lasts: &mut [u32], log: &[u8], at: usize) -> Option<usize>
    requires small { length log.now ≤ 16777216 }
    requires many { length lasts.old ≡ format.now.pages }
    requires inside { at ≤ length log.now }
    ensures noted { IfSome result (λ count.
        NotesGroup format.now log.now at count lasts.old lasts.new) }
    ensures wrong { IsNone result → (group : List Page) (rest : List ℕ)
        → IsGroup format.now group → 0 < length rest → drop at log.now ≡ body group ++ rest → ⊥ }
    ensures len { length lasts.new ≡ length lasts.old }
{
    let (number, bodies) = tail(log, at).split_first_chunk()?;
    let count = u32::from_le_bytes(*number) as usize;
    if count == 0 || bodies.len() <= 4096 * count {
        return None;
    }
    if !note_images(format, lasts, log, at + 4, count) {
        return None;
    }
    Some(count)
}

/// Notes the images of the groups up to the first gate that isn't open, and answers where that gate
/// stands. None: an open group is none.
pub(crate) fn note_groups(format: &Format, lasts: &mut [u32], log: &[u8]) -> Option<usize>
    requires small { length log.now ≤ 16777216 }
    requires some { 4096 ≤ length log.now }
    requires fresh { lasts.old ≡ replicate format.now.pages 0 }
    ensures noted { IfSome result (λ end. AreAllNoted format.now log.now lasts.new end) }
    ensures damaged { IsNone result
        → (groups : List (List Page)) → SpellsGroups format.now log.now groups → ⊥ }
{
    let mut at = 0;
    while log[at] == 1 {
        at += 5 + 4096 * note_group(format, lasts, log, at + 1)?;
    }
    Some(at)
}

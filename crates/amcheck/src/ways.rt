//! The way along left links to the leftmost page of a level.

ghost use Rattle.std.specs.Prelude.{◌≡◌, ◌+◌, ◌<◌, ◌≤◌, ◌⊎◌, ℕ, true, false, IfOk, OnOk, IfErr, length, slice_index_or};
ghost use Rattle.damages.specs.Damages.{index_of, head, start, IsOnLevel};
ghost use Rattle.amcheck.specs.Ways.{IsClearPath, IsFirstOfPath};

use crate::pages::Pages;
use crate::places::is_on_level;
use crate::report::Damage;

/// The leftmost page of a level, from where the way to it begins. Damage 1 if it comes to a block that is not
/// in use or to a page of another level, and 3 if it comes back to a page. No block of this level was seen
/// before.
pub(crate) fn find_leftmost(
    pages: &Pages,
    seen: &mut [bool],
    depth: u8,
    level: u8,
    begin: u32,
) -> Result<u32, Damage>
    requires some { 0 < length pages.now }
    requires few { length pages.now ≤ 65536 }
    requires size { length seen.old ≡ length pages.now }
    requires level { level + depth ≡ (index_of pages.now).top }
    requires begin { begin ≡ start (index_of pages.now) depth }
    requires apart { (b : ℕ) → slice_index_or seen.old b false ≡ true
        → IsOnLevel (index_of pages.now) depth b → ⊥ }
    ensures size { length seen.new ≡ length pages.now }
    ensures kept { (b : ℕ) → slice_index_or seen.new b false ≡ true
        → (slice_index_or seen.old b false ≡ true) ⊎ IsOnLevel (index_of pages.now) depth b }
    ensures found { IfOk result (λ found. found ≡ head (index_of pages.now) depth) }
    ensures clear { OnOk result (IsClearPath (index_of pages.now) depth) }
    ensures first { IfErr result
        (λ damage. IsFirstOfPath (index_of pages.now) depth damage.number damage.block) }
{
    let mut block = begin;
    for _ in 0..pages.len() {
        if !is_on_level(pages, level, block) {
            return Err(Damage { number: 1, block });
        }
        if seen[block as usize] {
            return Err(Damage { number: 3, block });
        }
        seen[block as usize] = true;
        match pages.sketch(block).left {
            None => return Ok(block),
            Some(left) => block = left,
        }
    }
    Err(Damage { number: 3, block })
}

//! Pages on no chain.

ghost use Rattle.std.specs.Prelude.{◌≡◌, ◌↔◌, ◌<◌, ◌≤◌, ℕ, IsTrue, IfNone, IfSome, length};
ghost use Rattle.amcheck.specs.Levels.{IsNotMet};
ghost use Rattle.amcheck.specs.Marks.{IsMet};

use crate::marks::Met;
use crate::pages::Pages;
use page_codec::PageState;

/// Whether the page of this block, neither deleted nor the metapage, is on no chain.
fn is_stray(pages: &Pages, met: &Met, block: u32) -> bool
    requires few { length pages.now ≤ 65536 }
    requires met { IsMet met.now (length pages.now) }
    requires after_meta { 0 < block }
    requires in_use { block < length pages.now }
    ensures { IsTrue result ↔ IsNotMet pages.now met.now.blocks.items block }
{
    if matches!(pages.sketch(block).state, PageState::Deleted) {
        return false;
    }
    !met.has(pages.len() as u32, block)
}

/// The first page in use, neither deleted nor the metapage, that is on no chain.
pub(crate) fn find_stray(pages: &Pages, met: &Met) -> Option<u32>
    requires few { length pages.now ≤ 65536 }
    requires met { IsMet met.now (length pages.now) }
    ensures none { IfNone result ((block : ℕ)
        → IsNotMet pages.now met.now.blocks.items block → ⊥) }
    ensures some { IfSome result (IsNotMet pages.now met.now.blocks.items) }
    ensures least { IfSome result (λ found. (block : ℕ) → block < found
        → IsNotMet pages.now met.now.blocks.items block → ⊥) }
{
    for block in 1..pages.len() as u32 {
        if is_stray(pages, met, block) {
            return Some(block);
        }
    }
    None
}

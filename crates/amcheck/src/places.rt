//! One page at its place in a level's chain.

ghost use Rattle.std.specs.Prelude.{◌≡◌, ◌↔◌, IsTrue};
ghost use Rattle.tree_shape.specs.Chains.{IsBeyond, Rises};
ghost use Rattle.amcheck.specs.Places.{PageIsOnLevel, IsNoneOrBeyond};

use crate::pages::Pages;
use index_model::Bound;

/// Whether the block is in use, and its page is of this level. Block 0 is on no level.
pub(crate) fn is_on_level(pages: &Pages, level: u8, block: u32) -> bool
    ensures { IsTrue result ↔ PageIsOnLevel pages.now level block }
{
    block != 0 && (block as usize) < pages.len() && pages.sketch(block).level == level
}

/// Whether the bound lies beyond the low, an absent low being below all.
fn is_beyond(low: &Option<Bound>, bound: &Bound) -> bool
    ensures { IsTrue result ↔ IsBeyond low.now bound.now }
{
    match low {
        None => true,
        Some(low) => low < bound,
    }
}

/// Whether the high key lies beyond the low, an absent low being below all and an absent high key above.
pub(crate) fn rises(low: &Option<Bound>, high: &Option<Bound>) -> bool
    ensures { IsTrue result ↔ Rises low.now high.now }
{
    match high {
        None => true,
        Some(high) => is_beyond(low, high),
    }
}

/// Whether the bound, if there is one, lies beyond the low.
pub(crate) fn is_none_or_beyond(low: &Option<Bound>, bound: &Option<Bound>) -> bool
    ensures { IsTrue result ↔ IsNoneOrBeyond low.now bound.now }
{
    match bound {
        None => true,
        Some(bound) => is_beyond(low, bound),
    }
}

//! A place of a chain as a walk comes to it, and what is judged of the page there.

ghost use Rattle.std.specs.Prelude.{◌≡◌, ◌≢◌, ◌↔◌, ◌<◌, ◌≤◌, true, false, IsTrue, length, slice_get, Some};
ghost use Rattle.page_codec.specs.declared.page.PageState.TheVariants.{Live, HalfDead, Deleted};
ghost use Rattle.tree_shape.specs.Nodes.{nodes_of};
ghost use Rattle.tree_shape.specs.Chains.{past, Rises};
ghost use Rattle.amcheck.specs.Places.{IsNoneOrBeyond};
ghost use Rattle.amcheck.specs.Sketches.{IsSketch};
ghost use Rattle.amcheck.specs.Stops.{high_at, context_at, IsTooMuch, IsLeastNumber};
ghost use Rattle.amcheck.specs.WrongSketches.{IsWrongSketch};

use crate::pages::Pages;
use crate::places::{is_none_or_beyond, rises};
use crate::sketches::Sketch;
use index_model::Bound;
use page_codec::PageState;

/// A place of a chain, and what a walk along it knew before it.
#[derive(Clone, Copy)]
pub(crate) struct Stop {
    pub(crate) block: u32,
    /// The nearest page to the left that isn't half-dead: its high key is the low.
    pub(crate) low_at: Option<u32>,
    pub(crate) left: Option<u32>,
    /// Whether the page to the left has an incomplete split.
    pub(crate) left_is_split: bool,
}

/// The low of a stop.
pub(crate) fn low(pages: &Pages, low_at: Option<u32>) -> Option<Bound>
    ensures { result ≡ high_at (nodes_of pages.now) low_at }
{
    match low_at {
        None => None,
        Some(block) => pages.high(block),
    }
}

/// The stop right of this one, of whose page this is the sketch.
pub(crate) fn next_stop(stop: &Stop, sketch: &Sketch, right: u32) -> Stop
    ensures block { result.block ≡ right }
    ensures context { (at : _) → IsSketch (at stop.now.block) sketch.now
        → context_at at result ≡ past stop.now.block (at stop.now.block) (context_at at stop.now) }
{
    let low_at = match sketch.state {
        PageState::Live => Some(stop.block),
        PageState::HalfDead | PageState::Deleted => stop.low_at,
    };
    Stop {
        block: right,
        low_at,
        left: Some(stop.block),
        left_is_split: sketch.split,
    }
}

/// Whether the left link isn't the page before.
fn is_linked_wrongly(sketch: &Sketch, left: Option<u32>) -> bool
    ensures { IsTrue result ↔ (sketch.now.left ≢ left) }
{
    sketch.left != left
}

fn is_deleted(sketch: &Sketch) -> bool
    ensures { IsTrue result ↔ (sketch.now.state ≡ Deleted) }
{
    matches!(sketch.state, PageState::Deleted)
}

/// Whether the page is live, and its high key isn't greater than the low.
fn is_too_low(sketch: &Sketch, low: &Option<Bound>) -> bool
    ensures { IsTrue result ↔ (sketch.now.state ≡ Live) × (Rises low.now sketch.now.high → ⊥) }
{
    match sketch.state {
        PageState::Live => !rises(low, &sketch.high),
        PageState::HalfDead | PageState::Deleted => false,
    }
}

/// Whether an entry of the page, or a bound after the first, isn't greater than the low. The first entry and
/// the second bound tell, as the others are greater.
fn has_wrong_item(sketch: &Sketch, low: &Option<Bound>) -> bool
    ensures { IsTrue result ↔ (IsNoneOrBeyond low.now sketch.now.least → ⊥) }
{
    !is_none_or_beyond(low, &sketch.least)
}

/// Whether this is a page too many on the root's level.
fn is_too_much(
    root: Option<u32>,
    left: Option<u32>,
    left_is_split: bool,
    low: &Option<Bound>,
    block: u32,
) -> bool
    ensures { IsTrue result
        ↔ IsTooMuch root
        (record { low = low.now; left = left; left_is_split = left_is_split }) block }
{
    match root {
        None => false,
        Some(root) => block != root && !(left == Some(root) && left_is_split),
    }
}

/// Whether a half-dead page follows one with an incomplete split.
fn is_half_dead_after(sketch: &Sketch, left_is_split: bool) -> bool
    ensures { IsTrue result ↔ (sketch.now.state ≡ HalfDead) × (left_is_split ≡ true) }
{
    match sketch.state {
        PageState::HalfDead => left_is_split,
        PageState::Live | PageState::Deleted => false,
    }
}

/// Whether keys are seen, and the page isn't one of a unique index.
fn has_wrong_keys(sketch: &Sketch, keys: bool) -> bool
    ensures { IsTrue result ↔ (keys ≡ true) × (sketch.now.unique ≡ false) }
{
    keys && !sketch.unique
}

/// The least number of what is wrong with a page at a stop, as its sketch tells.
pub(crate) fn find_number(
    sketch: &Sketch,
    keys: bool,
    root: Option<u32>,
    low: &Option<Bound>,
    stop: &Stop,
) -> Option<u8>
    ensures least { IsLeastNumber (IsWrongSketch keys sketch.now root
        (record { low = low.now; left = stop.now.left; left_is_split = stop.now.left_is_split })
        stop.now.block) result }
{
    if is_linked_wrongly(sketch, stop.left) {
        return Some(2);
    }
    if is_deleted(sketch) {
        return Some(4);
    }
    if is_too_low(sketch, low) {
        return Some(5);
    }
    if has_wrong_item(sketch, low) {
        return Some(6);
    }
    if is_too_much(root, stop.left, stop.left_is_split, low, stop.block) {
        return Some(10);
    }
    if is_half_dead_after(sketch, stop.left_is_split) {
        return Some(12);
    }
    if has_wrong_keys(sketch, keys) {
        return Some(13);
    }
    None
}

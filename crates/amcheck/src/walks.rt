//! A walk along the chain of a level by right links.

ghost use Rattle.std.specs.Prelude.{◌≡◌, ◌+◌, ◌++◌, ◌<◌, ◌≤◌, ℕ, length, vec_capacity};
ghost use Rattle.tree_shape.specs.Chains.{IsIn};
ghost use Rattle.damages.specs.Damages.{index_of, head, IsOnLevel};
ghost use Rattle.amcheck.specs.Marks.{IsMet};
ghost use Rattle.amcheck.specs.Stops.{stop_blocks, AreStops};
ghost use Rattle.amcheck.specs.Ends.{IsChainEnd};

use crate::marks::Met;
use crate::pages::Pages;
use crate::places::is_on_level;
use crate::stops::{Stop, next_stop};

/// How a walk ended.
#[derive(Clone, Copy)]
pub(crate) enum WalkEnd {
    /// At the rightmost page.
    Whole,
    /// At a block that isn't in use, or whose page is of another level.
    Off(u32),
    /// At a page that was met before, at this stop.
    Met(Stop),
}

/// Walks along the chain of a level, as long as its pages are of this level and weren't met yet. Answers the
/// stops, and how the walk ended. No block of this level was met before.
pub(crate) fn walk(
    pages: &Pages,
    met: &mut Met,
    stops: &mut Vec<Stop>,
    depth: u8,
    level: u8,
    begin: u32,
) -> WalkEnd
    requires some { 0 < length pages.now }
    requires few { length pages.now ≤ 65536 }
    requires met { IsMet met.old (length pages.now) }
    requires room { length pages.now ≤ vec_capacity stops.old }
    requires level { level + depth ≡ (index_of pages.now).top }
    requires begin { begin ≡ head (index_of pages.now) depth }
    requires apart { (b : ℕ) → IsIn b met.old.blocks.items
        → IsOnLevel (index_of pages.now) depth b → ⊥ }
    ensures met { IsMet met.new (length pages.now) }
    ensures added { met.new.blocks.items
        ≡ met.old.blocks.items ++ stop_blocks stops.new.items }
    ensures stops { AreStops (index_of pages.now) depth stops.new.items }
    ensures end { IsChainEnd (index_of pages.now) depth (length stops.new.items) result }
    ensures room { vec_capacity stops.new ≡ vec_capacity stops.old }
{
    stops.clear();
    let mut stop = Stop {
        block: begin,
        low_at: None,
        left: None,
        left_is_split: false,
    };
    for _ in 0..pages.len() {
        if !is_on_level(pages, level, stop.block) {
            return WalkEnd::Off(stop.block);
        }
        if met.has(pages.len() as u32, stop.block) {
            return WalkEnd::Met(stop);
        }
        met.add(pages.len() as u32, stop.block);
        stops.push_reserved(stop);
        let sketch = pages.sketch(stop.block);
        match sketch.right {
            None => return WalkEnd::Whole,
            Some(right) => stop = next_stop(&stop, sketch, right),
        }
    }
    WalkEnd::Met(stop)
}

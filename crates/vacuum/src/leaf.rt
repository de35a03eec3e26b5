//! What a bulk delete leaves of a leaf.

ghost use Rattle.std.specs.Prelude.{◌≡◌, ◌≤◌, ◌↔◌, IsTrue, length};
ghost use Rattle.std.specs.List.{filter};
ghost use Rattle.page_codec.specs.Edits.{entries_of, HasEntries};
ghost use Rattle.vacuum.specs.Ops.{lives, without_dead};
ghost use Rattle.vacuum.specs.Turns.{IsPruned};

use arrayvec::ArrayVec;
use index_model::{DeadRows, Entry, Layout};
use page_codec::{Items, Page, PageState};
use tree_shape::entries_on;

/// What a bulk delete leaves of a leaf.
#[derive(Drop)]
pub struct PrunedLeaf {
    /// The leaf without its dead entries, in the second layout.
    pub after: Page,
    /// How many entries it keeps, at most 50.
    pub kept: u64,
    /// How many it loses.
    pub gone: u64,
}

/// Whether the page is a live leaf.
pub fn is_live_leaf(page: &Page) -> bool
    ensures { IsTrue result ↔ ((page.now.state ≡ PageState.Live) × HasEntries page.now.items) }
{
    matches!(page.state, PageState::Live) && matches!(page.items, Items::Entries(_))
}

// The entries whose rows are not in the set, in their order.
fn live_ones<T: DeadRows>(entries: &[Entry], dead: &T) -> ArrayVec<Entry, 50>
    requires { length entries.now ≤ 50 }
    ensures { result.items ≡ filter (lives (T.is_in dead.now)) entries.now }
{
    let mut kept = ArrayVec::new();
    for entry in entries {
        if !dead.is_dead(entry.row) {
            kept.push(*entry);
        }
    }
    kept
}

// A copy of a leaf without its dead entries, in the second layout.
fn without_dead<T: DeadRows>(page: &Page, dead: &T) -> Page
    requires { length (entries_of page.now.items) ≤ 50 }
    ensures { result ≡ without_dead (T.is_in dead.now) page.now }
{
    Page {
        layout: Layout::Two,
        block: page.block,
        level: page.level,
        state: page.state,
        split: page.split,
        left: page.left,
        right: page.right,
        high: page.high,
        cycle: page.cycle,
        deletion: page.deletion,
        items: Items::Entries(live_ones(entries_on(page), dead)),
    }
}

/// A leaf of at most 50 entries without its dead ones, in one pass over them.
pub fn prune<T: DeadRows>(page: &Page, dead: &T) -> PrunedLeaf
    requires { length (entries_of page.now.items) ≤ 50 }
    ensures pruned { IsPruned (T.is_in dead.now) page.now result }
    ensures few { length (entries_of page.now.items) ≤ 50 }
{
    let after = without_dead(page, dead);
    let kept = entries_on(&after).len() as u64;
    let gone = entries_on(page).len() as u64 - kept;
    PrunedLeaf { after, kept, gone }
}

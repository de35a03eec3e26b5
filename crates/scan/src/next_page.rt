//! Where a leaf that was read leaves a scan.

ghost use Rattle.std.specs.Prelude.{◌≡◌};
ghost use Rattle.index_model.specs.Range.{below_admits};
ghost use Rattle.scan.specs.Scans.{frontier_past, after_leaf};

use crate::steps::ScanAt;
use descent::Position;
use index_model::{Bound, Key};
use page_codec::Page;

/// The greater of the frontier and the high key, if there is one.
pub fn frontier_past(frontier: Bound, high: &Option<Bound>) -> Bound
    ensures { result ≡ frontier_past frontier high.now }
{
    match high {
        Some(high) if frontier < *high => *high,
        _ => frontier,
    }
}

/// Where a scan goes after a leaf: to the right, unless there is nothing, or nothing below that key.
pub fn after_leaf(page: &Page, below: &Option<Key>) -> ScanAt
    ensures { result ≡ after_leaf page.now.high page.now.right below.now }
{
    match (&page.high, page.right) {
        (Some(high), Some(block)) if is_below(&high.key, below) => ScanAt::At(Position {
            block,
            level: 0,
            moves: 1,
        }),
        _ => ScanAt::Last,
    }
}

fn is_below(key: &Key, below: &Option<Key>) -> bool
    ensures { result ≡ below_admits below.now key.now }
{
    match below {
        None => true,
        Some(below) => key < below,
    }
}

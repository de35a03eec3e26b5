//! The bound that parts two halves of a leaf.

ghost use Rattle.std.specs.Prelude.{◌≡◌, ◌<◌, ◌≤◌, true, length, take};
ghost use Rattle.index_model.specs.Order.{bound_of, IsBefore};
ghost use Rattle.page_codec.specs.Grammar.{IsBoundIn};
ghost use Rattle.tree_shape.specs.Chains.{IsNoGreater};
ghost use Rattle.tree_shape.specs.Separators.{IsKeyBefore, IsShortestPast, IsSeparator, shared};

use index_model::{Bound, Entry, Fault, Key, Layout};

// With how many bytes the two begin alike.
fn count_shared(a: &[u8], b: &[u8]) -> usize
    ensures { result ≡ shared a.now b.now }
{
    let mut rest = a;
    let mut other = b;
    let mut count: usize = 0;
    while let [x, xs @ ..] = rest {
        let [y, ys @ ..] = other else {
            return count;
        };
        if *x != *y {
            return count;
        }
        count += 1;
        rest = xs;
        other = ys;
    }
    count
}

// The shortest beginning of `next` that is greater than `last`, if `next` itself is.
fn shortest_past(last: &Key, next: &Key) -> Key
    requires { IsKeyBefore last.now next.now }
    ensures { IsShortestPast last.now next.now result }
{
    let bytes = next.bytes();
    let count = count_shared(last.bytes(), bytes) + 1;
    match Key::new(&bytes[..count]) {
        Ok(key) => key,
        Err(_) => *next,
    }
}

/// The bound between two entries: if their keys differ, the place before all rows of the shortest
/// beginning of the second key that is greater than the first; else the first entry.
pub fn part(last: &Entry, next: &Entry) -> Bound
    requires { IsBefore (bound_of last.now) (bound_of next.now) }
    ensures is { IsSeparator last.now next.now result }
    ensures up_to { IsNoGreater (bound_of last.now) result }
    ensures beyond { IsBefore result (bound_of next.now) }
    ensures bound { IsBoundIn Layout.Two result }
{
    last.seen();
    next.seen();
    if last.key < next.key {
        Bound {
            key: shortest_past(&last.key, &next.key),
            row: None,
        }
    } else {
        last.bound()
    }
}

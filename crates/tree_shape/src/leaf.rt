//! Entries on a leaf.

ghost use Rattle.std.specs.Prelude.{◌≡◌, ◌≢◌, ℕ, suc, ◌<◌, ◌≤◌, ◌+◌, ◌||◌, ◌↔◌, IsTrue, length, true, false, IfOk, IfErr, OnOk, OnErr, Some, IfSome, IfNone, insert, drop, not, slice_get};
ghost use Rattle.index_model.specs.Order.{is_among, same_entry, is_past, bound_of, IsAscending};
ghost use Rattle.index_model.specs.Range.{below_admits};
ghost use Rattle.index_model.specs.declared.entry.Entry.{Entry};
ghost use Rattle.page_codec.specs.Grammar.{IsPage};
ghost use Rattle.page_codec.specs.Edits.{entries_of, HasEntries, with_entries, renewed};
ghost use Rattle.tree_shape.specs.Edits.{IsPutIn, with_leaf};
ghost use Rattle.tree_shape.specs.Nodes.{node_of};
ghost use Rattle.tree_shape.specs.KeyPages.{IsKeyFree};
ghost use Rattle.tree_shape.specs.Leaf.{IsPlaceOf, IsCopiedFrom, AreParts, MayHold};

use arrayvec::ArrayVec;
use index_model::{Bound, Entry, Key, Layout, RowAddr};
use page_codec::{Items, Page, PageState};

/// How many of the entries stand before the entry.
fn count_before(entries: &[Entry], entry: &Entry) -> usize
    ensures within { result ≤ length entries.now }
    ensures parts { IsAscending entries.now → AreParts
        (λ x. is_past (bound_of x) entry.now) entries.now result }
{
    entries.partition_point(|x| x.compare(entry).is_lt())
}

/// How many of the entries do not lie beyond the bound.
fn count_up_to(entries: &[Entry], bound: &Bound) -> usize
    ensures within { result ≤ length entries.now }
    ensures parts { IsAscending entries.now → AreParts
        (λ x. not (is_past bound.now x)) entries.now result }
{
    entries.partition_point(|x| !bound.is_below(x))
}

/// How many of the entries have a key below this one.
fn count_below(entries: &[Entry], below: &Option<Key>) -> usize
    ensures within { result ≤ length entries.now }
    ensures parts { IsAscending entries.now → AreParts
        (λ x. below_admits below.now x.key) entries.now result }
{
    match below {
        None => entries.len(),
        Some(below) => entries.partition_point(|x| x.key < *below),
    }
}

/// Where the entry stands among ascending entries (`Ok`), or the place that it would take (`Err`).
pub fn find(entries: &[Entry], entry: &Entry) -> Result<usize, usize>
    ensures there { OnOk result (is_among entries.now entry.now ≡ true) }
    ensures stands { IfOk result (λ at. IfSome (slice_get entries.now at)
        (λ x. same_entry x entry.now ≡ true)) }
    ensures inside { IfOk result (λ at. at < length entries.now) }
    ensures absent { IsAscending entries.now → OnErr result
        (is_among entries.now entry.now ≡ false) }
    ensures place { IsAscending entries.now → IfErr result (IsPlaceOf entry.now entries.now) }
    ensures within { IfErr result (λ at. at ≤ length entries.now) }
{
    let at = count_before(entries, entry);
    if at < entries.len() && entries[at].is_same(entry) {
        Ok(at)
    } else {
        Err(at)
    }
}

// The row of the entry at the place, if one stands there and has the key.
fn row_at(entries: &[Entry], at: usize, key: &Key) -> Option<RowAddr>
    ensures there { IfSome result (λ row.
        is_among entries.now (record { key = key.now; row = row }) ≡ true) }
    ensures other { IfNone result ((x : Entry) → slice_get entries.now at ≡ Some x
        → x.key ≢ key.now) }
{
    let Some(found) = entries.get(at) else {
        return None;
    };
    if found.key == *key {
        Some(found.row)
    } else {
        None
    }
}

// The row of the entry before the place, if one stands there and has the key.
fn row_before(entries: &[Entry], at: usize, key: &Key) -> Option<RowAddr>
    ensures there { IfSome result (λ row.
        is_among entries.now (record { key = key.now; row = row }) ≡ true) }
    ensures other { IfNone result ((x : Entry) → (last : ℕ) → at ≡ suc last
        → slice_get entries.now last ≡ Some x → x.key ≢ key.now) }
{
    if at == 0 {
        None
    } else {
        row_at(entries, at - 1, key)
    }
}

/// The row of an entry that has this one's key, if `at` is the place that this one would take: of the
/// entry before the place, or else of the one at it. None: no entry has the key.
pub fn find_key(entries: &[Entry], at: usize, entry: &Entry) -> Option<RowAddr>
    ensures there { IfSome result (λ row.
        is_among entries.now (record { key = entry.now.key; row = row }) ≡ true) }
    ensures free { IsAscending entries.now → IsPlaceOf entry.now entries.now at
        → IfNone result (IsKeyFree entry.now.key entries.now) }
{
    match row_before(entries, at, &entry.key) {
        Some(row) => Some(row),
        None => row_at(entries, at, &entry.key),
    }
}

/// Whether the page is a live leaf, without an incomplete split, whose high key the entry does not pass.
pub fn may_hold(page: &Page, entry: &Entry) -> bool
    ensures { IsTrue result ↔ MayHold page.now entry.now }
{
    if !is_live(page.state) || page.split || !is_leaf(&page.items) {
        return false;
    }
    match &page.high {
        None => true,
        Some(high) => !high.is_below(entry),
    }
}

fn is_live(state: PageState) -> bool
    ensures { IsTrue result ↔ (state ≡ PageState.Live) }
{
    matches!(state, PageState::Live)
}

fn is_leaf(items: &Items) -> bool
    ensures { IsTrue result ↔ HasEntries items.now }
{
    matches!(items, Items::Entries(_))
}

/// Puts an entry into a leaf, at the place that [`find`] gave. It is a page of the second layout then.
pub fn put(page: &mut Page, at: usize, entry: Entry)
    requires leaf { HasEntries page.old.items }
    requires room { length (entries_of page.old.items) < 50 }
    requires place { at ≤ length (entries_of page.old.items) }
    ensures put { page.new ≡ with_entries (renewed page.old)
        (insert (entries_of page.old.items) at entry) }
    ensures among { (y : Entry) → is_among (entries_of page.new.items) y
        ≡ (same_entry entry y || is_among (entries_of page.old.items) y) }
    ensures page { IsPage page.old → MayHold page.old entry
        → IsPlaceOf entry (entries_of page.old.items) at → IsPage page.new }
    ensures count { length (entries_of page.new.items) ≡ length (entries_of page.old.items) + 1 }
    ensures put_in { IsPlaceOf entry (entries_of page.old.items) at
        → IsPutIn entry (entries_of page.old.items) (entries_of page.new.items) }
    ensures node { node_of page.new ≡ with_leaf (node_of page.old) (entries_of page.new.items) }
{
    entry.seen();
    page.layout = Layout::Two;
    if let Items::Entries(entries) = &mut page.items {
        entries.insert(at, entry);
    }
}

fn tail(entries: &[Entry], at: usize) -> &[Entry]
    requires { at ≤ length entries.now }
    ensures value { result.now ≡ drop at entries.now }
    ensures len { length result.now ≤ length entries.now }
{
    &entries[at..]
}

// Makes the list a copy of these entries, in the place where it is.
fn copy_over(entries: &[Entry], into: &mut ArrayVec<Entry, 50>)
    requires { length entries.now ≤ 50 }
    ensures copied { into.new.items ≡ entries.now }
    ensures few { length into.new.items ≤ 50 }
{
    into.truncate(entries.len());
    let kept = into.len();
    into.as_mut_slice().copy_from_slice(&entries[..kept]);
    let _ = into.try_extend_from_slice(&entries[kept..]);
}

/// Makes the list those of the entries that lie beyond the frontier and have a key below `below`, in their
/// order. What was in it is gone.
pub fn take_matches(
    entries: &[Entry],
    frontier: &Bound,
    below: &Option<Key>,
    into: &mut ArrayVec<Entry, 50>,
)
    requires { length entries.now ≤ 50 }
    ensures copied { IsAscending entries.now → IsCopiedFrom entries.now frontier.now below.now
        into.new.items }
    ensures few { length into.new.items ≤ 50 }
{
    let beyond = tail(entries, count_up_to(entries, frontier));
    let count = count_below(beyond, below);
    copy_over(&beyond[..count], into);
}

//! Entries in the order in which they are put.

ghost use Rattle.std.specs.Prelude.{◌≡◌, ◌<◌, ◌≤◌, ◌+◌, ◌*◌, length};

use arrayvec::ArrayVec;
use index_model::Entry;

/// How many entries a batch may have.
pub(crate) const BATCH: usize = 4_900;

/// Entries that stand one after the other, 4,900 at most. Those of the first list are put before the others.
/// A leaf of 50 that overflows is split into 26 and 25, and entries in order never come back to the 26. So of
/// 49 entries 26 are put first, and the 23 between them, evenly spread, fill the halves then. One place of a
/// leaf stays free, because an entry between two leaves may come to either.
#[derive(Drop)]
pub(crate) struct Batch {
    pub(crate) first: ArrayVec<Entry, 2_600>,
    pub(crate) others: ArrayVec<Entry, 2_300>,
    ghost not_more: { 23 * length first.items ≤ 26 * length others.items + 23 },
    ghost not_fewer: { 26 * length others.items < 23 * length first.items + 26 },
}

impl Batch {
    ghost use Rattle.std.specs.Prelude.{◌≡◌, ◌<◌, ◌≤◌, ◌+◌, ◌||◌, false};
    ghost use Rattle.index_model.specs.Order.{same_entry};
    ghost use Rattle.index_model.specs.declared.entry.Entry.{Entry as TheEntry};
    ghost use Rattle.index_copy.specs.Batches.{batch_len, is_in_batch};

    /// A batch of none.
    pub(crate) fn new() -> Batch
        ensures len { batch_len result ≡ 0 }
        ensures none { (e : TheEntry) → is_in_batch result e ≡ false }
    {
        Batch {
            first: ArrayVec::new(),
            others: ArrayVec::new(),
        }
    }

    /// How many entries it has.
    pub(crate) fn len(&self) -> usize
        ensures len { result ≡ batch_len self.now }
        ensures few { result ≤ 4900 }
    {
        self.first.len() + self.others.len()
    }

    /// Takes one more, which stands after the others.
    pub(crate) fn push(&mut self, entry: Entry)
        requires { batch_len self.old < 4900 }
        ensures len { batch_len self.new ≡ batch_len self.old + 1 }
        ensures each { (e : TheEntry) → is_in_batch self.new e
            ≡ (is_in_batch self.old e || same_entry entry e) }
    {
        if 23 * self.first.len() <= 26 * self.others.len() {
            self.first.push(entry);
        } else {
            self.others.push(entry);
        }
    }
}

//! Leaves that are split.

ghost use Rattle.std.specs.Prelude.{◌≡◌, ◌<◌, ◌≤◌, ◌+◌, ◌++◌, true, false, Some, IfSome, length, insert, take, drop};
ghost use Rattle.index_model.specs.Order.{IsAscending};
ghost use Rattle.page_codec.specs.Grammar.{IsBlock, IsPage, IsBoundIn};
ghost use Rattle.page_codec.specs.Edits.{entries_of, HasEntries, with_entries};
ghost use Rattle.tree_shape.specs.Leaf.{IsPlaceOf, MayHold};
ghost use Rattle.tree_shape.specs.Nodes.{node_of};
ghost use Rattle.tree_shape.specs.Edits.{AreUpTo, LeafHalves};
ghost use Rattle.tree_shape.specs.Halves.{left_count, LiesBefore};
ghost use Rattle.tree_shape.specs.Separators.{IsCutOf};

use crate::items::entries_on;
use crate::parting::{end_at, put_and_part, stand_right};
use crate::separators::part;
use index_model::{Bound, Entry, Layout};
use page_codec::{Items, Page, clear_entries};

/// The bound between the two halves of a leaf's entries, each of which has one or more.
pub fn separator(left: &[Entry], right: &[Entry]) -> Bound
    requires some { 0 < length left.now }
    requires next { 0 < length right.now }
    requires ascending { IsAscending (left.now ++ right.now) }
    ensures is { IsCutOf left.now right.now result }
    ensures up_to { AreUpTo result left.now }
    ensures beyond { LiesBefore result right.now }
    ensures bound { IsBoundIn Layout.Two result }
{
    part(&left[left.len() - 1], &right[0])
}

// Puts the entry on the page, and what is after the cut on the other one, instead of its items.
fn part_entries(page: &mut Page, at: usize, entry: Entry, half: &mut Page)
    requires leaf { HasEntries page.old.items }
    requires place { at ≤ length (entries_of page.old.items) }
    requires some { 2 ≤ length (entries_of page.old.items) }
    ensures kept { page.new ≡ with_entries page.old
        (take (left_count (length (entries_of page.old.items)))
        (insert (entries_of page.old.items) at entry)) }
    ensures right_part { half.new ≡ with_entries half.old
        (drop (left_count (length (entries_of page.old.items)))
        (insert (entries_of page.old.items) at entry)) }
{
    clear_entries(&mut half.items);
    if let Items::Entries(entries) = &mut page.items {
        let keep = (entries.len() + 2) / 2;
        if let Items::Entries(right_part) = &mut half.items {
            put_and_part(entries, at, entry, keep, right_part);
        }
    }
}

/// Splits a live leaf of M entries, 2 to 50, with one entry put at the place that `find` gave: the page keeps
/// the first (M + 2) / 2 of them, and the other page becomes its right half, on the block `new`, 1 to 65,535,
/// whatever it was. Both halves carry `cycle`. The left link of the old right neighbour is left to the
/// caller. Both halves are of the second layout.
pub fn split_leaf(page: &mut Page, at: usize, entry: Entry, new: u32, cycle: u32, half: &mut Page)
    requires page { IsPage page.old }
    requires may { MayHold page.old entry }
    requires place { IsPlaceOf entry (entries_of page.old.items) at }
    requires some { 2 ≤ length (entries_of page.old.items) }
    requires block { IsBlock new }

    ensures halves { LeafHalves (node_of page.old) page.old.block new entry
        (node_of page.new) (node_of half.new) }
    ensures kept { length (entries_of page.new.items)
        ≡ left_count (length (entries_of page.old.items)) }
    ensures moved { length (entries_of page.new.items) + length (entries_of half.new.items)
        ≡ length (entries_of page.old.items) + 1 }
    ensures cut { IfSome page.new.high
        (IsCutOf (entries_of page.new.items) (entries_of half.new.items)) }

    // The fields that a tree doesn't see.
    ensures left_layout { page.new.layout ≡ Layout.Two }
    ensures right_layout { half.new.layout ≡ Layout.Two }
    ensures left_block { page.new.block ≡ page.old.block }
    ensures right_block { half.new.block ≡ new }
    ensures left_cycle { page.new.cycle ≡ cycle }
    ensures right_cycle { half.new.cycle ≡ cycle }
    ensures left_deletion { page.new.deletion ≡ 0 }
    ensures right_deletion { half.new.deletion ≡ 0 }

    ensures left_leaf { HasEntries page.new.items }
    ensures right_leaf { HasEntries half.new.items }
    ensures left_page { IsPage page.new }
    ensures right_page { IsPage half.new }
{
    entry.seen();
    page.layout = Layout::Two;
    part_entries(page, at, entry, half);
    let cut = separator(entries_on(page), entries_on(half));
    page.cycle = cycle;
    stand_right(page, half, new);
    end_at(page, cut, new);
}

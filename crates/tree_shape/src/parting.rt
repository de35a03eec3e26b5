//! Items, and pages, in two parts.

ghost use Rattle.std.specs.Prelude.{◌≡◌, ◌<◌, ◌≤◌, true, false, Some, length, insert, take, drop};

use arrayvec::ArrayVec;
use index_model::Bound;
use page_codec::{Items, Page};

// Makes the list in place that of these items.
fn copy_into<T: Copy + Default + Drop>(items: &[T], list: &mut ArrayVec<T, 50>)
    requires { length items.now ≤ 50 }
    ensures { list.new.items ≡ items.now }
{
    list.clear();
    let _ = list.try_extend_from_slice(items);
}

/// Puts an item at a place, 0 to the number of the items; the first `keep` of them all stay, and the rest are
/// put into `right_part`, instead of what is there. `keep` is 1 to the number of the items before. At no time
/// does one list have more than 50.
pub fn put_and_part<T: Copy + Default + Drop>(
    items: &mut ArrayVec<T, 50>,
    at: usize,
    item: T,
    keep: usize,
    right_part: &mut ArrayVec<T, 50>,
)
    requires place { at ≤ length items.old.items }
    requires some_stay { 0 < keep }
    requires some_go { keep ≤ length items.old.items }
    ensures kept { items.new.items ≡ take keep (insert items.old.items at item) }
    ensures right_part { right_part.new.items ≡ drop keep (insert items.old.items at item) }
{
    if at < keep {
        copy_into(&items.as_slice()[keep - 1..], right_part);
        items.truncate(keep - 1);
        items.insert(at, item);
    } else {
        copy_into(&items.as_slice()[keep..], right_part);
        items.truncate(keep);
        right_part.insert(at - keep, item);
    }
}

/// The right half of a page: what stands on it, on a new block.
pub fn right_half(page: &Page, items: Items, new: u32) -> Page
    ensures { result ≡ record page.now {
      block = new;
      split = false;
      left = Some page.now.block;
      items = items;
    } }
{
    Page {
        layout: page.layout,
        block: new,
        level: page.level,
        state: page.state,
        split: false,
        left: Some(page.block),
        right: page.right,
        high: page.high,
        cycle: page.cycle,
        deletion: page.deletion,
        items,
    }
}

/// Makes a page the right half of another one, on a new block: what stands on it stays.
pub fn stand_right(page: &Page, half: &mut Page, new: u32)
    ensures { half.new ≡ record page.now {
      block = new;
      split = false;
      left = Some page.now.block;
      items = half.old.items;
    } }
{
    half.layout = page.layout;
    half.block = new;
    half.level = page.level;
    half.state = page.state;
    half.split = false;
    half.left = Some(page.block);
    half.right = page.right;
    half.high = page.high;
    half.cycle = page.cycle;
    half.deletion = page.deletion;
}

/// Makes a page the left half of what it was: it ends at the cut, and its split is incomplete.
pub fn end_at(page: &mut Page, cut: Bound, new: u32)
    ensures { page.new ≡ record page.old { split = true; right = Some new; high = Some cut } }
{
    page.split = true;
    page.right = Some(new);
    page.high = Some(cut);
}

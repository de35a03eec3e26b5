//! Pages that may be stored, and where they are put.

ghost use Rattle.std.specs.Prelude.{◌≡◌, ◌≤◌, ◌<◌, [], ◌∷◌, ◌++◌, vec_len, vec_capacity, IsTrue, ◌↔◌, IfNone, IfSome};
ghost use Rattle.page_action.specs.Stored.{AreStored, IsStorable, IsWritable, IsApartFrom, IsPlaceable, AreActable, IsFirstMisplaced};
ghost use Rattle.page_action.specs.States.{with_page, with_pages};

use index_model::{Format, Layout};
use page_codec::{Page, is_page};

/// Whether the page may be stored in an index of this format.
pub fn is_storable(page: &Page, format: Format) -> bool
    ensures { IsTrue result ↔ IsStorable format page.now }
{
    is_page(page) && page.items.len() <= format.items as usize && format.admits(page.layout)
}

// Whether an act may write the page in an index of this format.
fn is_writable(page: &Page, format: Format) -> bool
    ensures { IsTrue result ↔ IsWritable format page.now }
{
    is_storable(page, format) && matches!(page.layout, Layout::Two)
}

// Whether none of these pages is of this block.
fn is_apart(block: u32, pages: &[Page]) -> bool
    ensures { IsTrue result ↔ IsApartFrom block pages.now }
{
    for page in pages {
        if page.block == block {
            return false;
        }
    }
    true
}

// Whether the block is in use, or the next unused one, within the format.
fn is_placeable(block: u32, used: u32, format: Format) -> bool
    ensures { IsTrue result ↔ IsPlaceable format used block }
{
    block <= used && block < format.pages
}

/// The block of the first of these pages that an act may not change beside those after it: the page may not
/// be written, its block is neither in use nor the next unused one, or a later page is of the same block.
/// None: the act may be done.
pub fn find_misplaced(pages: &[Page], used: u32, format: Format) -> Option<u32>
    ensures none { IfNone result (AreActable format used pages.now) }
    ensures some { IfSome result (λ block. AreActable format used pages.now → ⊥) }
    ensures first { IfSome result (IsFirstMisplaced format used pages.now) }
{
    for at in 0..pages.len() {
        let page = &pages[at];
        if !is_writable(page, format)
            || !is_placeable(page.block, used, format)
            || !is_apart(page.block, &pages[at + 1..])
        {
            return Some(page.block);
        }
    }
    None
}

// Puts a copy of the page at the next unused block. Few pages are new: the others are spared the room for a
// copy.
#[inline(never)]
fn add_page(pages: &mut Vec<Page>, page: &Page)
    requires { vec_len pages.old < vec_capacity pages.old }
    ensures items { pages.new.items ≡ pages.old.items ++ page.now ∷ [] }
    ensures capacity { vec_capacity pages.new ≡ vec_capacity pages.old }
{
    pages.push_reserved(page.copy());
}

// Puts a copy of the page at its block, which is in use or the next unused one.
fn place_page(pages: &mut Vec<Page>, page: &Page)
    requires place { page.now.block ≤ vec_len pages.old }
    requires room { page.now.block < vec_capacity pages.old }
    ensures items { pages.new.items ≡ with_page pages.old.items page.now }
    ensures capacity { vec_capacity pages.new ≡ vec_capacity pages.old }
{
    let block = page.block as usize;
    if block < pages.len() {
        page.copy_to(&mut pages[block]);
    } else {
        add_page(pages, page);
    }
}

/// Puts copies of these pages at their blocks, each in use or the next unused one. It takes no memory.
pub fn place_pages(format: Format, pages: &mut Vec<Page>, changed: &[Page])
    requires actable { AreActable format (vec_len pages.old) changed.now }
    requires few { vec_len pages.old ≤ format.pages }
    requires stored { AreStored format 0 pages.old.items }
    requires room { format.pages ≤ vec_capacity pages.old }
    ensures pages { pages.new.items ≡ with_pages pages.old.items changed.now }
    ensures few { vec_len pages.new ≤ format.pages }
    ensures stored { AreStored format 0 pages.new.items }
    ensures room { vec_capacity pages.new ≡ vec_capacity pages.old }
{
    for page in changed {
        place_page(pages, page);
    }
}

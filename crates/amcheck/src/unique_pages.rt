//! Whether a page is one of a unique index.

ghost use Rattle.std.specs.Prelude.{◌↔◌, IsTrue, IfSome};
ghost use Rattle.std.specs.List.{AllByRecursion};
ghost use Rattle.page_codec.specs.Grammar.{IsPage, Ascends};
ghost use Rattle.tree_shape.specs.KeyBounds.{IsKeyBound};
ghost use Rattle.tree_shape.specs.KeyPages.{KeyBefore, IsKeyLink, IsUniquePage};
ghost use Rattle.amcheck.specs.Sketches.{EntryIsBelowFirst};

use index_model::{Bound, Entry};
use page_codec::{Downlink, Page};
use tree_shape::{entries_on, links_on};

/// Whether the bound, if there is one, is the place before all rows of a key.
fn is_key_bound(bound: &Option<Bound>) -> bool
    ensures { IsTrue result ↔ IfSome bound.now IsKeyBound }
{
    match bound {
        None => true,
        Some(bound) => bound.row.is_none(),
    }
}

/// Whether the same holds of the bounds of all these downlinks.
fn are_key_links(links: &[Downlink]) -> bool
    ensures { IsTrue result ↔ AllByRecursion IsKeyLink links.now }
{
    let mut rest = links;
    while let [link, more @ ..] = rest {
        if !is_key_bound(&link.bound) {
            return false;
        }
        rest = more;
    }
    true
}

/// Whether the entry's key is less than that of the first of these, if there is one.
fn is_below_first(entry: &Entry, more: &[Entry]) -> bool
    ensures { IsTrue result ↔ EntryIsBelowFirst entry.now more.now }
{
    match more.first() {
        None => true,
        Some(next) => entry.key < next.key,
    }
}

/// Whether each entry's key is greater than that of the one before it.
fn do_keys_ascend(entries: &[Entry]) -> bool
    ensures { IsTrue result ↔ Ascends KeyBefore entries.now }
{
    let mut rest = entries;
    while let [entry, more @ ..] = rest {
        if !is_below_first(entry, more) {
            return false;
        }
        rest = more;
    }
    true
}

/// Whether the page is one of a unique index: its high key and its bounds are places before all rows of a
/// key, and no entry has the key of the one before it.
pub(crate) fn is_unique(page: &Page) -> bool
    requires { IsPage page.now }
    ensures { IsTrue result ↔ IsUniquePage page.now }
{
    is_key_bound(&page.high) && are_key_links(links_on(page)) && do_keys_ascend(entries_on(page))
}

//! What is kept of a page, except for its downlinks.

ghost use Rattle.std.specs.Prelude.{◌≡◌, ◌≤◌};
ghost use Rattle.page_codec.specs.Grammar.{IsPage};
ghost use Rattle.tree_shape.specs.Nodes.{node_of};
ghost use Rattle.amcheck.specs.Reports.{count_entries_on};
ghost use Rattle.amcheck.specs.Sketches.{IsSketch, second_bound, least_bound};

use crate::unique_pages::is_unique;
use index_model::{Bound, Entry};
use page_codec::{Downlink, Page, PageState};
use tree_shape::{entries_on, links_on};

/// What is judged of a page, except for its downlinks: some 200 bytes in place of 4,500.
#[derive(Clone, Copy)]
pub(crate) struct Sketch {
    pub(crate) level: u8,
    pub(crate) state: PageState,
    pub(crate) split: bool,
    pub(crate) left: Option<u32>,
    pub(crate) right: Option<u32>,
    pub(crate) high: Option<Bound>,
    /// What is to lie beyond the page's low before all others: its first entry, or the bound of its second
    /// downlink.
    pub(crate) least: Option<Bound>,
    /// Whether its bounds are places before all rows of a key, and no entry has the key of the one before it.
    pub(crate) unique: bool,
    /// How many entries it has, if it is a live leaf: 50 at most.
    pub(crate) entries: u32,
    /// Where the page itself is kept, if it has downlinks.
    pub(crate) place: Option<u32>,
}

/// How many entries stand on the page, if it is a live leaf: 50 at most.
fn count_entries(page: &Page) -> u32
    requires { IsPage page.now }
    ensures count { result ≡ count_entries_on page.now }
    ensures few { result ≤ 50 }
{
    match page.state {
        PageState::Live => entries_on(page).len() as u32,
        PageState::HalfDead | PageState::Deleted => 0,
    }
}

/// The bound of the second downlink, if there is one that has a bound.
fn second_bound(links: &[Downlink]) -> Option<Bound>
    ensures { result ≡ second_bound links.now }
{
    if links.len() < 2 {
        return None;
    }
    links[1].bound
}

/// What is to lie beyond the low before all others.
fn least_bound(entries: &[Entry], links: &[Downlink]) -> Option<Bound>
    ensures { result ≡ least_bound entries.now links.now }
{
    match entries.first() {
        None => second_bound(links),
        Some(entry) => Some(entry.bound()),
    }
}

/// The sketch of a page that is kept at this place, if it is kept.
pub(crate) fn sketch_of(page: &Page, place: Option<u32>) -> Sketch
    requires { IsPage page.now }
    ensures is { IsSketch (node_of page.now) result }
    ensures entries { result.entries ≡ count_entries_on page.now }
    ensures few { result.entries ≤ 50 }
    ensures place { result.place ≡ place }
{
    Sketch {
        level: page.level,
        state: page.state,
        split: page.split,
        left: page.left,
        right: page.right,
        high: page.high,
        least: least_bound(entries_on(page), links_on(page)),
        unique: is_unique(page),
        entries: count_entries(page),
        place,
    }
}

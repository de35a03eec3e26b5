//! What a page holds, as a value.

ghost use Rattle.std.specs.Prelude.{◌≡◌};

use arrayvec::ArrayVec;
use index_model::{Bound, Entry, Layout};

/// Where a page stands in its life. Only leaves are ever half-dead or deleted.
#[derive(Clone, Copy, Debug, PartialEq, Eq)]
pub enum PageState {
    /// In use.
    Live,
    /// Its downlink is gone, and it waits to be unlinked from its siblings.
    HalfDead,
    /// Unlinked: its block is reused when no scan can come to it any more.
    Deleted,
}

/// An item of an internal page: a bound, and the child whose entries are greater than it.
#[derive(Clone, Copy, Default, PartialEq, Eq)]
pub struct Downlink {
    /// None: minus infinity, which only the first item of a page has.
    pub bound: Option<Bound>,
    /// The block of the child, 1 to 65,535.
    pub child: u32,
}

/// What kind of page it is, and its items.
#[derive(Drop)]
pub enum Items {
    /// The metapage, which has no items.
    Meta,
    /// A leaf, and its entries in ascending order.
    Entries(ArrayVec<Entry, 50>),
    /// An internal page, and its items in ascending order.
    Downlinks(ArrayVec<Downlink, 50>),
}

impl Items {
    ghost use Rattle.std.specs.Prelude.{◌≤◌};
    ghost use Rattle.page_codec.specs.Spelling.{count_of};

    /// How many items there are, 0 to 50.
    pub fn len(&self) -> usize
        ensures value { result ≡ count_of self.now }
        ensures fits { result ≤ 50 }
    {
        match self {
            Items::Meta => 0,
            Items::Entries(entries) => entries.len(),
            Items::Downlinks(links) => links.len(),
        }
    }
}

/// A page. Not every value is one that the format admits: [`is_page`](crate::is_page) tells.
#[derive(Drop)]
pub struct Page {
    /// Which bounds it may have, and how its bytes begin.
    pub layout: Layout,
    /// Its own block: 0 for the metapage, 1 to 65,535 for every other page.
    pub block: u32,
    /// 0 for a leaf, 1 to 31 for an internal page; in the metapage the level of the root, 0 to 31.
    pub level: u8,
    /// Whether it is live, half-dead or deleted.
    pub state: PageState,
    /// Whether its split is incomplete: its right sibling still lacks a downlink.
    pub split: bool,
    /// The block of its left sibling, 1 to 65,535, if it has one.
    pub left: Option<u32>,
    /// The block of its right sibling, 1 to 65,535, if it has one; in the metapage the root.
    pub right: Option<u32>,
    /// No entry on it is greater than this; none on the rightmost page of a level.
    pub high: Option<Bound>,
    /// The number of the bulk delete that ran when the leaf was last split, or 0.
    pub cycle: u32,
    /// The number that a deleted leaf got when it was deleted; 0 on every other page.
    pub deletion: u64,
    /// Its kind and its items, at most 50.
    pub items: Items,
}

impl Page {
    /// A page to decode another into. What it holds has no meaning.
    pub fn blank() -> Page {
        Page {
            layout: Layout::Two,
            block: 0,
            level: 0,
            state: PageState::Live,
            split: false,
            left: None,
            right: None,
            high: None,
            cycle: 0,
            deletion: 0,
            items: Items::Meta,
        }
    }
}

//! The pages of a store, as a check sees them.

ghost use Rattle.std.specs.Prelude.{◌≡◌, ◌<◌, ◌≤◌, Some, length, slice_get};
ghost use Rattle.page_codec.specs.declared.page.Page.{Page as PageValue};
ghost use Rattle.tree_shape.specs.Nodes.{nodes_of};
ghost use Rattle.amcheck.specs.Reports.{count_entries_on};
ghost use Rattle.amcheck.specs.Sketches.{IsSketch};

use crate::page_list::PageList;
use crate::page_room::PageRoom;
use crate::sketches::Sketch;
use index_model::{Bound, Noted};
use page_codec::{Downlink, Page};
use std::marker::Model;
use tree_shape::links_on;

/// All pages of a store, of which a sketch is kept, and of those with downlinks the page itself. Contracts
/// see the list of the pages.
#[derive(Drop)]
pub(crate) struct Pages {
    sketches: Vec<Sketch>,
    whole: Vec<Page>,
    list: Noted<PageList>,
}

impl Model for Pages {
    ghost use Rattle.std.specs.Prelude.{List};
    ghost use Rattle.page_codec.specs.declared.page.Page.{Page as PageValue};

    ghost Value = { List PageValue };

    ghost use Rattle.amcheck.specs.Sketches.{HoldSketches};

    ghost view = { λ p. p.list.value };

    ghost invariant = { λ p. HoldSketches p.list.value p.whole.items p.sketches.items };
}

impl Pages {
    ghost use Rattle.amcheck.specs.Sketches.{HoldSketches};

    /// Those that were read.
    pub(crate) fn new(room: PageRoom) -> Pages
        requires { HoldSketches room.list.value room.whole.items room.sketches.items }
        ensures { result ≡ room.list.value }
    {
        Pages {
            sketches: room.sketches,
            whole: room.whole,
            list: room.list,
        }
    }

    /// How many there are.
    pub(crate) fn len(&self) -> usize
        ensures { result ≡ length self.now }
    {
        self.sketches.len()
    }

    /// The sketch of the page of a block in use.
    pub(crate) fn sketch(&self, block: u32) -> &Sketch
        requires { block < length self.now }
        ensures is { IsSketch (nodes_of self.now block) result.now }
        ensures entries { (page : PageValue) → slice_get self.now block ≡ Some page
            → result.now.entries ≡ count_entries_on page }
        ensures few { result.now.entries ≤ 50 }
    {
        &self.sketches[block as usize]
    }

    /// The high key of the page of a block; of one that isn't in use none.
    pub(crate) fn high(&self, block: u32) -> Option<Bound>
        ensures { result ≡ (nodes_of self.now block).high }
    {
        if block as usize >= self.sketches.len() {
            return None;
        }
        self.sketches[block as usize].high
    }

    /// The downlinks of the page of a block; of one that isn't in use none.
    pub(crate) fn links(&self, block: u32) -> &[Downlink]
        ensures { result.now ≡ (nodes_of self.now block).links }
    {
        if block as usize >= self.sketches.len() {
            return &[];
        }
        match self.sketches[block as usize].place {
            None => &[],
            Some(place) => links_on(&self.whole[place as usize]),
        }
    }
}

//! Pages are kept as they are read, in room that was made before.

ghost use Rattle.std.specs.Prelude.{◌≡◌, ◌++◌, ◌∷◌, ◌<◌, ◌^◌, [], IfOk, IfErr, IfSome, length, vec_capacity};
ghost use Rattle.page_codec.specs.Grammar.{IsPage};
ghost use Rattle.tree_shape.specs.Nodes.{node_of};
ghost use Rattle.amcheck.specs.PageRooms.{HasPageRoom};
ghost use Rattle.amcheck.specs.Sketches.{HasGrown, links_at};

use crate::page_list::PageList;
use crate::sketches::{Sketch, sketch_of};
use index_model::{Fault, Noted, reckon};
use page_codec::Page;
use std::alloc::Global;
use std::slice;
use tree_shape::has_links;

/// The pages that were read so far, and room for all in use.
#[derive(Drop)]
pub(crate) struct PageRoom {
    /// Of each page its sketch.
    pub(crate) sketches: Vec<Sketch>,
    /// The pages that have downlinks. Their room isn't touched before.
    pub(crate) whole: Vec<Page>,
    pub(crate) list: Noted<PageList>,
}

/// Keeps a page after these, if it has downlinks, and answers where it is kept.
fn keep_links(whole: &mut Vec<Page>, page: &Page) -> Option<u32>
    requires room { length whole.old.items < vec_capacity whole.old }
    requires few { length whole.old.items < 2 ^ 32 }
    ensures links { links_at whole.new.items result ≡ (node_of page.now).links }
    ensures inside { IfSome result (λ place. place < length whole.new.items) }
    ensures grown { HasGrown whole.old.items whole.new.items }
    ensures room { vec_capacity whole.new ≡ vec_capacity whole.old }
{
    if !has_links(page) {
        return None;
    }
    let place = whole.len() as u32;
    whole.push_reserved(page.copy());
    Some(place)
}

impl PageRoom {
    /// The room for `used` pages. Refused with `NoMemory` (1).
    pub(crate) fn new(alloc: Global, used: u32) -> Result<PageRoom, Fault>
        ensures made { IfOk result (λ room. HasPageRoom room used) }
        ensures none { IfOk result (λ room. room.list.value ≡ []) }
        ensures fault { IfErr result (λ f. f ≡ Fault.NoMemory) }
    {
        let Ok(sketches) = Vec::with_capacity(alloc, used as usize) else {
            return Err(Fault::NoMemory);
        };
        let Ok(whole) = Vec::with_capacity(alloc, used as usize) else {
            return Err(Fault::NoMemory);
        };
        Ok(PageRoom {
            sketches,
            whole,
            list: reckon(&()),
        })
    }

    /// Keeps one page more, if there is room for `used` pages.
    pub(crate) fn add(&mut self, used: u32, page: &Page)
        requires room { HasPageRoom self.old used }
        requires more { length self.old.list.value < used }
        requires page { IsPage page.now }
        ensures room { HasPageRoom self.new used }
        ensures list { self.new.list.value ≡ self.old.list.value ++ page.now ∷ [] }
    {
        let place = keep_links(&mut self.whole, page);
        self.sketches.push_reserved(sketch_of(page, place));
        self.list = reckon(&(&self.list, slice::from_ref(page)));
    }
}

//! The downlink of a right half is put on the parent.

ghost use Rattle.std.specs.Prelude.{◌≡◌, ◌≤◌, ◌<◌, IfSome, IfNone, IfErr, length};
ghost use Rattle.index_model.specs.Faults.{HasCause};
ghost use Rattle.tree_acts.specs.StepEffects.{causes_of_splitting_any};
ghost use Rattle.split_finish.specs.Finishes.{FinishSteps};
ghost use Rattle.split_finish.specs.Acting.{IsLinkPlace, NoLinkPlace, AreRead, AreReady, HaveRoom, FinishActs};

use crate::finish::{FinishAt, FinishOp, FinishStep};
use descent::{Position, act_on, read_both};
use index_model::{Bound, Fault};
use page_action::PageStore;
use page_codec::Page;
use tree_shape::{add_link, clear_split, find_child, fits_after, links_on};

// The place of the downlink to the child, after which one with this separator may stand.
pub fn place_behind(parent: &Page, child: u32, separator: &Bound) -> Option<usize>
    ensures place { IfSome result (IsLinkPlace parent.now child separator.now) }
    ensures none { IfNone result (NoLinkPlace parent.now child separator.now) }
{
    let links = links_on(parent);
    let at = find_child(links, child)?;
    if fits_after(links, at, separator, &parent.high) {
        Some(at)
    } else {
        None
    }
}

impl FinishOp {
    // Puts the downlink of the right half on the parent, this page, if it is one still. The parent is read
    // into the first of `pages`, and the left half into the second: what is read there is changed there.
    pub fn link<S: PageStore>(
        &mut self,
        store: &mut S,
        position: Position,
        pages: &mut [Page; 3],
    ) -> Result<FinishStep, Fault>
        requires { self.old.at ≡ FinishAt.Link position }
        ensures all { FinishSteps S.PageStore self.old self.new store.old store.new result }
        ensures faults { IfErr result (HasCause causes_of_splitting_any) }
    {
        let block = self.target.block;
        let (front, back) = pages.split_at_mut(1);
        match read_both(
            store,
            self.session,
            block,
            position.block,
            &mut back[0],
            &mut front[0],
        ) {
            Ok(()) => self.link_to(store, position, pages),
            Err(fault) => Err(fault),
        }
    }

    // ... after its readings.
    fn link_to<S: PageStore>(
        &mut self,
        store: &mut S,
        position: Position,
        pages: &mut [Page; 3],
    ) -> Result<FinishStep, Fault>
        requires at { self.old.at ≡ FinishAt.Link position }
        requires read { AreRead (S.state store.old) (S.backing store.old).honest self.old.session
            self.old.target.block position.block pages.old }
        requires some { 0 < length (S.state store.old).pages }
        ensures all { FinishActs S.PageStore self.old self.new store.old store.new result }
        ensures faults { IfErr result (HasCause causes_of_splitting_any) }
    {
        let [parent, page, _] = &*pages;
        match self.turn_at_parent(page, parent, position) {
            Ok(Some(step)) => Ok(step),
            Ok(None) => self.put_link(store, pages),
            Err(fault) => Err(fault),
        }
    }

    // ... if the page is the target as it was read, and the parent is ready.
    fn put_link<S: PageStore>(
        &mut self,
        store: &mut S,
        pages: &mut [Page; 3],
    ) -> Result<FinishStep, Fault>
        requires ready { AreReady (S.state store.old) (S.backing store.old).honest self.old
            pages.old }
        requires some { 0 < length (S.state store.old).pages }
        ensures all { FinishActs S.PageStore self.old self.new store.old store.new result }
        ensures faults { IfErr result (HasCause causes_of_splitting_any) }
    {
        let [parent, page, _] = &*pages;
        let Some(new) = page.right else {
            return Err(Fault::PageDamaged(page.block));
        };
        let Some(at) = place_behind(parent, page.block, &self.target.separator) else {
            return Err(Fault::PageDamaged(parent.block));
        };
        if links_on(parent).len() < store.limits().items as usize {
            self.add(store, at, new, pages)
        } else {
            self.split_parent(store, page, parent, at, new)
        }
    }

    // The parent has room.
    fn add<S: PageStore>(
        &mut self,
        store: &mut S,
        at: usize,
        new: u32,
        pages: &mut [Page; 3],
    ) -> Result<FinishStep, Fault>
        requires room { HaveRoom (S.state store.old) (S.backing store.old).honest self.old at new
            pages.old }
        requires few { (S.state store.old).format.items ≤ 50 }
        ensures all { FinishActs S.PageStore self.old self.new store.old store.new result }
        ensures faults { IfErr result (HasCause causes_of_splitting_any) }
    {
        add_link(&mut pages[0], at, self.target.separator, new);
        clear_split(&mut pages[1]);
        match act_on(store, &pages[..2]) {
            Ok(_) => Ok(self.pop()),
            Err(fault) => Err(fault),
        }
    }
}

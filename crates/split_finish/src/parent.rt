//! A full parent is split for the downlink of a right half.

ghost use Rattle.std.specs.Prelude.{◌≡◌, ◌≤◌, ◌<◌, true, Some, None, suc, ℕ, IfSome, IfNone, IfOk, IfErr, OnOk, OnErr, length};
ghost use Rattle.index_model.specs.Faults.{HasCause};
ghost use Rattle.page_action.specs.States.{Continues, after_act};
ghost use Rattle.page_action.specs.Stored.{AreActable};
ghost use Rattle.tree_shape.specs.Nodes.{links_of};
ghost use Rattle.tree_acts.specs.StepEffects.{causes_of_acting, causes_of_splitting_any};
ghost use Rattle.descent.specs.Splitting.{RightIsStored, RightIsFound};
ghost use Rattle.split_finish.specs.Acting.{IsLinkPlace, MeetsParent, FinishActs};
ghost use Rattle.split_finish.specs.Parting.{halves_and};

use crate::finish::{FinishAt, FinishOp, FinishStep, Target};
use descent::{act_on, read_right, take_block};
use index_model::Fault;
use page_action::PageStore;
use page_codec::Page;
use tree_shape::{clear_split, mend_left, split_links};

/// The left half of a page, whose split is to be finished; None if it has no high key.
pub fn half_to_finish(left: &Page) -> Option<Target>
    ensures target { IfSome result (λ t. (t.block ≡ left.now.block) × (t.level ≡ left.now.level)
        × (left.now.high ≡ Some t.separator)) }
    ensures none { IfNone result (left.now.high ≡ None) }
{
    match left.high {
        Some(separator) => Some(Target {
            block: left.block,
            level: left.level,
            separator,
        }),
        None => None,
    }
}

// Acts on the halves of the parent, the page to the right of them, whose left link is mended, and the page
// whose split is finished.
fn act_on_halves<S: PageStore>(
    store: &mut S,
    left: Page,
    half: Page,
    right: Option<Page>,
    page: Page,
) -> Result<u64, Fault>
    ensures steps { Continues S.follows store.old store.new }
    ensures may { OnOk result
        (AreActable (S.state store.old).format (length (S.state store.old).pages)
        (halves_and left half right page)) }
    ensures done { OnOk result (S.state store.new
        ≡ after_act (halves_and left half right page) (S.state store.old)) }
    ensures refused { OnErr result (S.state store.new ≡ S.state store.old) }
    ensures faults { IfErr result (HasCause causes_of_splitting_any) }
    ensures cause { AreActable (S.state store.old).format (length (S.state store.old).pages)
        (halves_and left half right page)
        → IfErr result (HasCause (causes_of_acting (S.state store.old) (S.backing store.old)
        (S.backing store.new) (halves_and left half right page))) }
{
    match right {
        None => act_on(store, &[left, half, page]),
        Some(neighbour) => {
            let mut neighbour = neighbour;
            mend_left(&mut neighbour, half.block);
            act_on(store, &[left, half, neighbour, page])
        }
    }
}

impl FinishOp {
    // The parent is full. Few steps split one: those that don't are spared the room for its pages.
    #[inline(never)]
    pub fn split_parent<S: PageStore>(
        &mut self,
        store: &mut S,
        page: &Page,
        parent: &Page,
        at: usize,
        new: u32,
    ) -> Result<FinishStep, Fault>
        requires meets { MeetsParent (S.state store.old) (S.backing store.old).honest self.old
            page.now parent.now }
        requires right { page.now.right ≡ Some new }
        requires place { IsLinkPlace parent.now page.now.block self.old.target.separator at }
        requires full { 4 ≤ length (links_of parent.now.items) }
        requires no_room { (S.state store.old).format.items ≤ length (links_of parent.now.items) }
        requires some { 0 < length (S.state store.old).pages }
        ensures all { FinishActs S.PageStore self.old self.new store.old store.new result }
        ensures faults { IfErr result (HasCause causes_of_splitting_any) }
    {
        let mut neighbour = Page::blank();
        match read_right(store, self.session, parent.right, &mut neighbour) {
            Ok(is_there) => {
                let right = if is_there { Some(neighbour) } else { None };
                self.split_beside(store, page.copy(), parent.copy(), right, at, new)
            }
            Err(fault) => Err(fault),
        }
    }

    // ... and the page to the right of it has been read.
    fn split_beside<S: PageStore>(
        &mut self,
        store: &mut S,
        page: Page,
        parent: Page,
        right: Option<Page>,
        at: usize,
        new: u32,
    ) -> Result<FinishStep, Fault>
        requires meets { MeetsParent (S.state store.old) (S.backing store.old).honest self.old
            page parent }
        requires right { page.right ≡ Some new }
        requires place { IsLinkPlace parent page.block self.old.target.separator at }
        requires full { 4 ≤ length (links_of parent.items) }
        requires no_room { (S.state store.old).format.items ≤ length (links_of parent.items) }
        requires some { 0 < length (S.state store.old).pages }
        requires beside { RightIsStored (S.state store.old) self.old.session parent.right right }
        requires beside_found { (S.backing store.old).honest ≡ true
            → RightIsFound (S.state store.old) parent.right right }
        ensures all { FinishActs S.PageStore self.old self.new store.old store.new result }
        ensures faults { IfErr result (HasCause causes_of_splitting_any) }
    {
        let fresh = match take_block(store, self.session) {
            Ok(fresh) => fresh,
            Err(fault) => return Err(fault),
        };
        let mut left = parent;
        let half = split_links(&mut left, at, self.target.separator, new, fresh);
        let target = match half_to_finish(&left) {
            Some(target) => target,
            None => return Err(Fault::PageDamaged(left.block)),
        };
        let mut page = page;
        clear_split(&mut page);
        match act_on_halves(store, left, half, right, page) {
            Ok(_) => {
                self.target = target;
                self.at = FinishAt::Start;
                Ok(FinishStep::Going)
            }
            Err(fault) => Err(fault),
        }
    }
}

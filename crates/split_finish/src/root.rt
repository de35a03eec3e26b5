//! A root over the halves of the one before it.

ghost use Rattle.std.specs.Prelude.{◌≡◌, ◌<◌, false, Some, IfErr, length};
ghost use Rattle.index_model.specs.Faults.{HasCause};
ghost use Rattle.page_codec.specs.Grammar.{IsBlock};
ghost use Rattle.latch_table.specs.Holdings.{is_held_by_another};
ghost use Rattle.page_action.specs.Reuse.{IsFresh};
ghost use Rattle.tree_acts.specs.StepEffects.{causes_of_splitting_any};
ghost use Rattle.split_finish.specs.Acting.{IsReadToChange, MeetsRoot, FinishActs, AreGrown};
ghost use Rattle.split_finish.specs.Finishes.{FinishSteps};

use crate::finish::{FinishAt, FinishOp, FinishStep};
use descent::{act_on, read_both, take_block};
use index_model::{Bound, Fault};
use latch_table::Mode;
use page_action::PageStore;
use page_codec::Page;
use tree_shape::{clear_split, point_to_root, root_over};

// The new root, the metapage that names it, and the old root, its split finished.
fn grown(meta: Page, page: Page, separator: Bound, new: u32, fresh: u32) -> [Page; 3]
    requires { meta.level < 31 }
    ensures { AreGrown meta page separator new fresh result }
{
    let mut meta = meta;
    let mut page = page;
    let level = meta.level + 1;
    let root = root_over(fresh, level, page.block, separator, new);
    point_to_root(&mut meta, fresh, level);
    clear_split(&mut page);
    [root, meta, page]
}

impl FinishOp {
    // Makes a new root over the newest target, if that is the root still. Few steps do: those that don't are
    // spared the room for its pages.
    #[inline(never)]
    pub fn grow<S: PageStore>(&mut self, store: &mut S) -> Result<FinishStep, Fault>
        requires { self.old.at ≡ FinishAt.Root }
        ensures all { FinishSteps S.PageStore self.old self.new store.old store.new result }
        ensures faults { IfErr result (HasCause causes_of_splitting_any) }
    {
        let mut meta = Page::blank();
        let mut page = Page::blank();
        match read_both(
            store,
            self.session,
            0,
            self.target.block,
            &mut meta,
            &mut page,
        ) {
            Ok(()) => self.grow_over(store, meta, page),
            Err(fault) => Err(fault),
        }
    }

    // ... after its readings.
    fn grow_over<S: PageStore>(
        &mut self,
        store: &mut S,
        meta: Page,
        page: Page,
    ) -> Result<FinishStep, Fault>
        requires at { self.old.at ≡ FinishAt.Root }
        requires read_meta { IsReadToChange (S.state store.old) (S.backing store.old).honest
            self.old.session 0 meta }
        requires read { IsReadToChange (S.state store.old) (S.backing store.old).honest self.old.session
            self.old.target.block page }
        requires some { 0 < length (S.state store.old).pages }
        ensures all { FinishActs S.PageStore self.old self.new store.old store.new result }
        ensures faults { IfErr result (HasCause causes_of_splitting_any) }
    {
        match self.turn_at_root(&meta, &page) {
            Ok(Some(step)) => Ok(step),
            Ok(None) => self.put_root(store, meta, page),
            Err(fault) => Err(fault),
        }
    }

    // ... if the page is the target as it was read, and the root.
    fn put_root<S: PageStore>(
        &mut self,
        store: &mut S,
        meta: Page,
        page: Page,
    ) -> Result<FinishStep, Fault>
        requires meets { MeetsRoot (S.state store.old) (S.backing store.old).honest self.old
            meta page }
        requires some { 0 < length (S.state store.old).pages }
        ensures all { FinishActs S.PageStore self.old self.new store.old store.new result }
        ensures faults { IfErr result (HasCause causes_of_splitting_any) }
    {
        let Some(new) = page.right else {
            return Err(Fault::PageDamaged(page.block));
        };
        match take_block(store, self.session) {
            Ok(fresh) => self.act_on_root(store, meta, page, new, fresh),
            Err(fault) => Err(fault),
        }
    }

    // ... on this fresh block.
    fn act_on_root<S: PageStore>(
        &mut self,
        store: &mut S,
        meta: Page,
        page: Page,
        new: u32,
        fresh: u32,
    ) -> Result<FinishStep, Fault>
        requires meets { MeetsRoot (S.state store.old) (S.backing store.old).honest self.old
            meta page }
        requires right { page.right ≡ Some new }
        requires fresh { IsFresh (S.state store.old) fresh }
        requires block { IsBlock fresh }
        requires free { is_held_by_another (S.state store.old).table self.old.session fresh
            Mode.Exclusive ≡ false }
        ensures all { FinishActs S.PageStore self.old self.new store.old store.new result }
        ensures faults { IfErr result (HasCause causes_of_splitting_any) }
    {
        let least = store.limits().items;
        prove!(2 <= least);
        let separator = self.target.separator;
        let pages = grown(meta, page, separator, new, fresh);
        match act_on(store, &pages) {
            Ok(_) => Ok(self.pop()),
            Err(fault) => Err(fault),
        }
    }
}

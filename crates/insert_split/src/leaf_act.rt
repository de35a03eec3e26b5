//! The act by which an insert puts its entry on its leaf. If the leaf has room, the entry gets its place
//! there. Else the leaf is split, and the entry stands on one of the halves.

ghost use Rattle.std.specs.Prelude.{◌≡◌, ◌≤◌, ◌<◌, ◌+◌, [], ◌∷◌, true, false, suc, ℕ, Some, None, IfSome, IfNone, IfOk, IfErr, OnOk, OnErr, length, slice_get};
ghost use Rattle.index_model.specs.Faults.{HasCause};
ghost use Rattle.index_model.specs.Order.{is_among};
ghost use Rattle.latch_table.specs.Holdings.{HasRoom, has_pin};
ghost use Rattle.page_codec.specs.Edits.{entries_of};
ghost use Rattle.page_codec.specs.Grammar.{IsPage};
ghost use Rattle.page_codec.specs.Spelling.{count_of};
ghost use Rattle.page_action.specs.Causes.{pinned_blocks};
ghost use Rattle.page_action.specs.States.{Continues, after_act};
ghost use Rattle.page_action.specs.Stored.{AreActable, IsStored};
ghost use Rattle.tree_shape.specs.KeyPages.{IsKeyFree};
ghost use Rattle.tree_shape.specs.Leaf.{IsPlaceOf, MayHold};
ghost use Rattle.tree_acts.specs.StepEffects.{causes_of_acting, causes_of_working, causes_of_splitting_any};
ghost use Rattle.descent.specs.Splitting.{if_read, mended_to};
ghost use Rattle.insert_split.specs.Inserts.{causes_of_inserting_any, blocks_halved};
ghost use Rattle.page_codec.specs.Grammar.{IsBlock};
ghost use Rattle.page_codec.specs.declared.page.Page.{Page as P};
ghost use Rattle.insert_split.specs.Turns.{AreParted, PlaceRefused, PutsEntry, SplitsLeaf, IsSplittable};

use crate::insert::{InsertAt, InsertOp, InsertStep};
use descent::{act_on, read_right, take_block};
use index_model::{Entry, Fault};
use page_action::PageStore;
use page_codec::Page;
use split_finish::{FinishOp, half_to_finish};
use std::slice;
use tree_shape::{entries_on, find, find_key, may_hold, mend_left, put, split_leaf};

// The place of the entry on the page, which is to be its leaf. On a unique index no entry there may have its
// key.
pub fn place_in(page: &Page, entry: &Entry, unique: bool) -> Result<usize, Fault>
    ensures may { OnOk result (MayHold page.now entry.now) }
    ensures absent { IsPage page.now → OnOk result
        (is_among (entries_of page.now.items) entry.now ≡ false) }
    ensures place { IsPage page.now → IfOk result
        (IsPlaceOf entry.now (entries_of page.now.items)) }
    ensures within { IfOk result (λ at. at ≤ length (entries_of page.now.items)) }
    ensures alone { unique ≡ true → IsPage page.now → OnOk result
        (IsKeyFree entry.now.key (entries_of page.now.items)) }
    ensures faults { IsPage page.now → IfErr result (HasCause (causes_of_inserting_any unique entry.now)) }
    ensures cause { IfErr result (PlaceRefused page.now entry.now unique) }
{
    if !may_hold(page, entry) {
        return Err(Fault::PageDamaged(page.block));
    }
    let entries = entries_on(page);
    let at = match find(entries, entry) {
        Ok(_) => return Err(Fault::Exists),
        Err(at) => at,
    };
    if !unique {
        return Ok(at);
    }
    match find_key(entries, at, entry) {
        Some(row) => Err(Fault::KeyExists(row)),
        None => Ok(at),
    }
}

// Makes the first two pages the halves of the leaf, with the entry put at this place. The third one stays.
fn part(page: &Page, at: usize, entry: Entry, new: u32, cycle: u32, pages: &mut [Page; 3])
    requires page { IsPage page.now }
    requires may { MayHold page.now entry }
    requires place { IsPlaceOf entry (entries_of page.now.items) at }
    requires some { 2 ≤ length (entries_of page.now.items) }
    requires block { IsBlock new }
    ensures { (one two rest : P) → pages.old ≡ one ∷ two ∷ rest ∷ []
        → AreParted page.now entry new cycle rest pages.new }
{
    let (front, back) = pages.split_at_mut(1);
    page.copy_to(&mut front[0]);
    split_leaf(&mut front[0], at, entry, new, cycle, &mut back[0]);
}

// Acts on the halves of a leaf, the first two pages, and on the third, if it is the page to the right of
// them: its left link is mended.
fn act_on_halves<S: PageStore>(
    store: &mut S,
    pages: &mut [Page; 3],
    is_beside: bool,
) -> Result<u64, Fault>
    ensures steps { Continues S.follows store.old store.new }
    ensures may { (left half rest : P) → pages.old ≡ left ∷ half ∷ rest ∷ [] → OnOk result
        (AreActable (S.state store.old).format (length (S.state store.old).pages)
        (left ∷ half ∷ mended_to half.block (if_read is_beside rest))) }
    ensures done { (left half rest : P) → pages.old ≡ left ∷ half ∷ rest ∷ [] → OnOk result
        (S.state store.new ≡ after_act
        (left ∷ half ∷ mended_to half.block (if_read is_beside rest)) (S.state store.old)) }
    ensures number { IfOk result (λ n. n ≡ suc (S.state store.old).acts) }
    ensures refused { OnErr result (S.state store.new ≡ S.state store.old) }
    ensures faults { IfErr result (HasCause causes_of_splitting_any) }
    ensures cause { (left half rest : P) → pages.old ≡ left ∷ half ∷ rest ∷ []
        → AreActable (S.state store.old).format (length (S.state store.old).pages)
        (left ∷ half ∷ mended_to half.block (if_read is_beside rest))
        → IfErr result (HasCause (causes_of_acting (S.state store.old) (S.backing store.old)
        (S.backing store.new) (left ∷ half ∷ mended_to half.block (if_read is_beside rest)))) }
{
    if !is_beside {
        return act_on(store, &pages[..2]);
    }
    let half = pages[1].block;
    mend_left(&mut pages[2], half);
    act_on(store, &pages[..3])
}

impl InsertOp {
    // Puts the entry on this copy of the leaf that it holds, at this place, and then on the leaf.
    pub fn put<S: PageStore>(
        &self,
        store: &mut S,
        page: &mut Page,
        at: usize,
    ) -> Result<InsertStep, Fault>
        requires stored { IsStored (S.state store.old).format page.old.block page.old }
        requires used { page.old.block < length (S.state store.old).pages }
        requires inside { length (S.state store.old).pages ≤ (S.state store.old).format.pages }
        requires may { MayHold page.old self.now.entry }
        requires place { IsPlaceOf self.now.entry (entries_of page.old.items) at }
        requires room { length (entries_of page.old.items) < (S.state store.old).format.items }
        requires few { (S.state store.old).format.items ≤ 50 }
        ensures steps { Continues S.follows store.old store.new }
        ensures puts { IfOk result (PutsEntry page.old self.now.entry
            (S.state store.old) (S.state store.new)) }
        ensures refused { OnErr result (S.state store.new ≡ S.state store.old) }
        ensures faults { IfErr result (HasCause causes_of_splitting_any) }
        ensures cause { has_pin (pinned_blocks (S.state store.old).table) page.old.block ≡ true
            → IfErr result (HasCause (causes_of_working (S.state store.old) (S.backing store.old)
            (S.backing store.new) self.now.session (page.old.block ∷ []) 0 false false)) }
    {
        put(page, at, self.entry);
        match store.act(slice::from_ref(page)) {
            Ok(action) => Ok(InsertStep::Added {
                action,
                unfinished: None,
            }),
            Err(fault) => Err(fault),
        }
    }

    // Splits the leaf that it holds, with the entry put at this place, and lets it go. Few inserts do: those
    // that don't are spared the room for its pages.
    #[inline(never)]
    pub fn split<S: PageStore>(
        &mut self,
        store: &mut S,
        page: &Page,
        at: usize,
        pages: &mut [Page; 3],
    ) -> Result<InsertStep, Fault>
        requires admitted { IsPage page.now }
        requires may { MayHold page.now self.old.entry }
        requires place { IsPlaceOf self.old.entry (entries_of page.now.items) at }
        requires some { 2 ≤ length (entries_of page.now.items) }
        requires used { page.now.block < length (S.state store.old).pages }
        ensures steps { Continues S.follows store.old store.new }
        ensures going { IfOk result (λ step. step ≡ InsertStep.Going) }
        ensures splits { OnOk result (SplitsLeaf (S.backing store.new).honest page.now
            self.old self.new (S.state store.old) (S.state store.new)) }
        ensures state { OnErr result (S.state store.new ≡ S.state store.old) }
        ensures op { OnErr result (self.new ≡ self.old) }
        ensures faults { IfErr result (HasCause causes_of_splitting_any) }
        ensures cause { (S.backing store.new).honest ≡ true
            → HasRoom (S.state store.old).table self.old.session
            → IsSplittable (S.state store.old) page.now
            → has_pin (pinned_blocks (S.state store.old).table) page.now.block ≡ true
            → IfErr result (HasCause (causes_of_working (S.state store.old) (S.backing store.old)
            (S.backing store.new) self.old.session
            (page.now.block ∷ blocks_halved (S.state store.old) page.now.right)
            (length (blocks_halved (S.state store.old) page.now.right)) true false)) }
    {
        let is_beside = match read_right(store, self.session, page.right, &mut pages[2]) {
            Ok(is_beside) => is_beside,
            Err(fault) => return Err(fault),
        };
        let new = match take_block(store, self.session) {
            Ok(new) => new,
            Err(fault) => return Err(fault),
        };
        part(page, at, self.entry, new, store.cycle(), pages);
        let target = match half_to_finish(&pages[0]) {
            Some(target) => target,
            None => return Err(Fault::PageDamaged(page.block)),
        };
        match act_on_halves(store, pages, is_beside) {
            Ok(action) => {
                store.release(self.session, target.block);
                store.unpin(self.session, target.block);
                self.added = Some(action);
                self.at = InsertAt::Finishing(FinishOp::new(self.session, target));
                Ok(InsertStep::Going)
            }
            Err(fault) => Err(fault),
        }
    }
}

//! Where pages lead a call that changes nothing in the store.

ghost use Rattle.std.specs.Prelude.{◌≡◌, ◌≤◌, ◌<◌, ◌↔◌, IsTrue, ℕ, suc, true, false, Some, None, IfErr, OnErr, length, slice_get};
ghost use Rattle.std.specs.Ordering.{is_eq};
ghost use Rattle.index_model.specs.Faults.{HasCause};
ghost use Rattle.index_model.specs.Order.{bound_cmp};
ghost use Rattle.page_action.specs.States.{State};
ghost use Rattle.tree_acts.specs.StepEffects.{causes_of_splitting_any};
ghost use Rattle.tree_shape.specs.Nodes.{node_of};
ghost use Rattle.split_finish.specs.Targets.{is_ready, ends_at};
ghost use Rattle.split_finish.specs.Turns.{Popped, Pushed, Retaken, Turned, TurnedOrReady, IsReadyToLink, IsReadyToGrow};

use crate::finish::{FinishAt, FinishOp, FinishStep, Target};
use descent::{NextPage, Position, lead, way_down};
use index_model::{Bound, Fault};
use page_codec::{Items, Page, PageState};
use std::cmp::Ordering;
use tree_shape::SearchKey;

// Whether a downlink for the separator may be put on the page: it is live, without an incomplete split, one
// level above this one, and the separator lies within its high key.
fn is_ready(page: &Page, below: u8, separator: Bound) -> bool
    ensures { result ≡ is_ready (node_of page.now) (suc below) separator }
{
    matches!(page.state, PageState::Live)
        && !page.split
        && u32::from(page.level) == u32::from(below) + 1
        && SearchKey::Below(separator).is_within(&page.high)
}

// Whether the two bounds are one.
fn are_same(a: &Bound, b: &Bound) -> bool
    ensures value { result ≡ is_eq (bound_cmp a.now b.now) }
    ensures same { result ≡ true → a.now ≡ b.now }
{
    a.compare(b) == Ordering::Equal
}

// Whether it is a live page whose split is to be finished.
fn has_incomplete_split(page: &Page) -> bool
    ensures live { result ≡ true → page.now.state ≡ PageState.Live }
    ensures incomplete { result ≡ true → page.now.split ≡ true }
    ensures whole { result ≡ false → page.now.state ≡ PageState.Live → page.now.split ≡ false }
{
    matches!(page.state, PageState::Live) && page.split
}

impl FinishOp {
    // The newest target is done.
    pub fn pop(&mut self) -> FinishStep
        ensures { Popped self.old self.new result }
    {
        let count = self.below.len();
        prove!(count <= 31);
        match self.below.pop() {
            Some(target) => {
                self.target = target;
                self.at = FinishAt::Start;
                FinishStep::Going
            }
            None => FinishStep::Done,
        }
    }

    // There is a newer target. The check has to be told of the types that the older one is made of.
    fn push(&mut self, newer: Target)
        requires { length self.old.below.items < 31 }
        ensures { Pushed newer self.old self.new }
    {
        let older = self.target;
        let Bound { key, row } = older.separator;
        self.below.push(Target {
            block: older.block,
            level: older.level,
            separator: Bound { key, row },
        });
        self.target = newer;
        self.at = FinishAt::Start;
    }

    // The newest target's page has another high key.
    fn retake(&mut self, separator: Bound, at: FinishAt)
        ensures { Retaken separator at self.old self.new }
    {
        self.target.separator = separator;
        self.at = at;
    }

    // From the metapage to the root.
    pub fn leave_metapage(&mut self, meta: &Page) -> Result<FinishStep, Fault>
        requires { self.old.at ≡ FinishAt.Start }
        ensures session { self.new.session ≡ self.old.session }
        ensures refused { OnErr result (self.new ≡ self.old) }
        ensures faults { IfErr result (HasCause causes_of_splitting_any) }
        ensures turn { (st : State) → slice_get st.pages 0 ≡ Some meta.now
            → Turned st self.old self.new result }
    {
        let Some(position) = way_down(meta) else {
            return Err(Fault::PageDamaged(0));
        };
        if meta.level < self.target.level {
            return Err(Fault::PageDamaged(0));
        }
        self.at = if meta.level == self.target.level {
            FinishAt::Root
        } else {
            FinishAt::Down(position)
        };
        Ok(FinishStep::Going)
    }

    // From a page on the way to the parent.
    pub fn leave_page(
        &mut self,
        page: &Page,
        position: Position,
        most: u32,
    ) -> Result<FinishStep, Fault>
        requires { self.old.at ≡ FinishAt.Down position }
        ensures session { self.new.session ≡ self.old.session }
        ensures refused { OnErr result (self.new ≡ self.old) }
        ensures faults { IfErr result (HasCause causes_of_splitting_any) }
        ensures turn { (st : State) → slice_get st.pages position.block ≡ Some page.now
            → st.format.pages ≡ most → length st.pages ≤ most
            → Turned st self.old self.new result }
    {
        if position.level <= self.target.level {
            return Err(Fault::PageDamaged(position.block));
        }
        if has_incomplete_split(page) {
            return self.rise_to(page, position);
        }
        let aim = SearchKey::Below(self.target.separator);
        match lead(page, &position, &aim, self.target.level + 1, most) {
            Some(NextPage::Going(on)) => {
                self.at = FinishAt::Down(on);
                Ok(FinishStep::Going)
            }
            Some(NextPage::Here) => {
                self.at = FinishAt::Link(position);
                Ok(FinishStep::Going)
            }
            None => Err(Fault::PageDamaged(position.block)),
        }
    }

    // A page with an incomplete split on the way becomes a target.
    fn rise_to(&mut self, page: &Page, position: Position) -> Result<FinishStep, Fault>
        requires down { self.old.at ≡ FinishAt.Down position }
        requires above { self.old.target.level < position.level }
        requires live { page.now.state ≡ PageState.Live }
        requires incomplete { page.now.split ≡ true }
        ensures session { self.new.session ≡ self.old.session }
        ensures refused { OnErr result (self.new ≡ self.old) }
        ensures faults { IfErr result (HasCause causes_of_splitting_any) }
        ensures turn { (st : State) → slice_get st.pages position.block ≡ Some page.now
            → Turned st self.old self.new result }
    {
        if page.level != position.level || self.below.is_full() {
            return Err(Fault::PageDamaged(position.block));
        }
        let Some(separator) = page.high else {
            return Err(Fault::PageDamaged(position.block));
        };
        self.push(Target {
            block: position.block,
            level: position.level,
            separator,
        });
        Ok(FinishStep::Going)
    }

    // Before a downlink is put on the parent: None if all is as it is to be for that.
    pub fn turn_at_parent(
        &mut self,
        page: &Page,
        parent: &Page,
        position: Position,
    ) -> Result<Option<FinishStep>, Fault>
        requires { self.old.at ≡ FinishAt.Link position }
        ensures session { self.new.session ≡ self.old.session }
        ensures refused { OnErr result (self.new ≡ self.old) }
        ensures faults { IfErr result (HasCause causes_of_splitting_any) }
        ensures turn { (st : State) → slice_get st.pages self.old.target.block ≡ Some page.now
            → slice_get st.pages position.block ≡ Some parent.now
            → TurnedOrReady st self.old self.new result }
        ensures ready { result ≡ Ok None → IsReadyToLink page.now parent.now self.old self.new }
    {
        let count = self.below.len();
        prove!(count <= 31);
        if !page.split {
            return Ok(Some(self.pop()));
        }
        let Some(high) = page.high else {
            return Err(Fault::PageDamaged(self.target.block));
        };
        if !are_same(&high, &self.target.separator) {
            self.retake(high, FinishAt::Start);
            return Ok(Some(FinishStep::Going));
        }
        if page.level != self.target.level {
            return Err(Fault::PageDamaged(self.target.block));
        }
        if is_ready(parent, self.target.level, high) {
            return Ok(None);
        }
        self.at = FinishAt::Down(position);
        Ok(Some(FinishStep::Going))
    }

    // Before a new root is made: None if all is as it is to be for that.
    pub fn turn_at_root(&mut self, meta: &Page, page: &Page) -> Result<Option<FinishStep>, Fault>
        requires { self.old.at ≡ FinishAt.Root }
        ensures session { self.new.session ≡ self.old.session }
        ensures refused { OnErr result (self.new ≡ self.old) }
        ensures faults { IfErr result (HasCause causes_of_splitting_any) }
        ensures turn { (st : State) → slice_get st.pages 0 ≡ Some meta.now
            → slice_get st.pages self.old.target.block ≡ Some page.now
            → TurnedOrReady st self.old self.new result }
        ensures ready { result ≡ Ok None → IsReadyToGrow meta.now page.now self.old self.new }
    {
        let count = self.below.len();
        prove!(count <= 31);
        if !page.split {
            return Ok(Some(self.pop()));
        }
        if !matches!(meta.items, Items::Meta) {
            return Err(Fault::PageDamaged(0));
        }
        if meta.level != self.target.level {
            self.at = FinishAt::Start;
            return Ok(Some(FinishStep::Going));
        }
        if meta.right != Some(self.target.block) || page.level != self.target.level {
            return Err(Fault::PageDamaged(self.target.block));
        }
        if self.target.level >= 31 {
            return Err(Fault::TooTall);
        }
        let Some(high) = page.high else {
            return Err(Fault::PageDamaged(self.target.block));
        };
        if are_same(&high, &self.target.separator) {
            return Ok(None);
        }
        self.retake(high, FinishAt::Root);
        Ok(Some(FinishStep::Going))
    }
}

//! An insert, and which step it makes next.

ghost use Rattle.std.specs.Prelude.{◌≡◌, Err, Ok, Some, None, IfSome, IfNone, IfOk, IfErr, OnOk, OnErr, true, false};
ghost use Rattle.index_model.specs.Faults.{HasCause};
ghost use Rattle.latch_table.specs.Holdings.{HasRoom, latched, pinned};
ghost use Rattle.page_action.specs.States.{Continues, with_table};
ghost use Rattle.tree_acts.specs.StepEffects.{causes_of_splitting_any};
ghost use Rattle.insert_split.specs.Inserts.{InsertSteps, IfLeftIncomplete, AnswersStopped, causes_of_inserting_any, causes_of_left_any};
ghost use Rattle.insert_split.specs.Turns.{MeetsPage, Takes, FinishesSplits, ContinuesAs, Leaves, IsRefusedRightly};

use crate::leaf_act::place_in;
use descent::{NextPage, Position, lead, read_shared, way_down};
use index_model::{Entry, Fault, Session};
use latch_table::Mode;
use page_action::PageStore;
use page_codec::{Page, PageState};
use split_finish::{FinishOp, FinishStep, Target};
use tree_shape::{SearchKey, entries_on, may_hold};

/// Where an insert is between its steps.
#[derive(Drop)]
pub enum InsertAt {
    /// Its entry isn't on its leaf yet.
    Coming(Stage),
    /// It finishes splits: its own, after which it is over, or one that it met, after which it starts again.
    Finishing(FinishOp),
}

/// How far an insert is whose entry isn't on its leaf yet.
#[derive(Clone, Copy)]
pub enum Stage {
    /// Before its first step.
    Start,
    /// On its way to the leaf of its entry.
    At(Position),
    /// It holds this leaf latched, and pinned.
    Holding(u32),
}

/// An insert of one session.
#[derive(Drop)]
pub struct InsertOp {
    pub session: Session,
    pub entry: Entry,
    pub at: InsertAt,
    /// The number of the action that added the entry.
    pub added: Option<u64>,
}

/// What a step of an insert answers.
#[derive(Clone, Copy)]
pub enum InsertStep {
    /// There are more steps to make.
    Going,
    /// The entry is added, by the action of this number; a split that could not be finished has this fault.
    Added {
        action: u64,
        unfinished: Option<Fault>,
    },
}

impl InsertOp {
    /// An insert of the entry before its first step.
    pub fn new(session: Session, entry: Entry) -> InsertOp
        ensures { result ≡ record {
          session = session;
          entry = entry;
          at = InsertAt.Coming Stage.Start;
          added = None;
        } }
    {
        InsertOp {
            session,
            entry,
            at: InsertAt::Coming(Stage::Start),
            added: None,
        }
    }

    /// Makes it an insert of this entry before its first step, whatever it was: as `new`, and in its place.
    pub fn begin_again(&mut self, session: Session, entry: Entry)
        ensures { self.new ≡ record {
          session = session;
          entry = entry;
          at = InsertAt.Coming Stage.Start;
          added = None;
        } }
    {
        self.session = session;
        self.entry = entry;
        come_to(&mut self.at, Stage::Start);
        self.added = None;
    }

    /// Makes one step. After `Added` and after each fault but `Blocked` the call is over, and its store's
    /// `end` is due.
    ///
    /// Refused with `Blocked` (4), and the same step may be made again; with `Exists` (5) if the entry is
    /// there; with `KeyExists` (21) on a unique index if an entry of its key is there, whose row the fault
    /// names; with `IndexFull` (8) if a page would be split and no block is free; with `Io` (2), `Stopped`
    /// (3), `LogFull` (9), `NoFrame` (10); with `TooTall` (19) if a split that it meets would be one of a
    /// root on level 31; with `PageDamaged` (17) on pages that are no tree. A refused step changes nothing.
    /// Once the entry is logged, each of these but `Blocked` stands in `unfinished` of `Added`.
    ///
    /// `draft` is room for a leaf, and `pages` for the pages of a split: what they hold has no meaning,
    /// neither before nor after.
    pub fn step<S: PageStore>(
        &mut self,
        store: &mut S,
        draft: &mut Page,
        pages: &mut [Page; 3],
    ) -> Result<InsertStep, Fault>
        ensures all { InsertSteps S.PageStore self.old self.new store.old store.new result }
        ensures faults { IfErr result (HasCause
            (causes_of_inserting_any (S.state store.old).format.unique self.old.entry)) }
        ensures quiet { IfLeftIncomplete result (λ fault. S.state store.new ≡ S.state store.old) }
        ensures left { IfLeftIncomplete result (HasCause causes_of_left_any) }
        ensures logged { IsRefusedRightly self.old.added result }
    {
        if store.is_stopped() {
            return self.stop();
        }
        match self.at {
            InsertAt::Finishing(_) => self.finish(store, pages),
            _ if self.added.is_some() => Ok(self.go_on()),
            InsertAt::Coming(Stage::Start) => self.find_root(store),
            InsertAt::Coming(Stage::At(position)) => self.walk(store, position),
            InsertAt::Coming(Stage::Holding(block)) => self.add(store, block, draft, pages),
        }
    }

    // What is answered on a stopped log.
    fn stop(&self) -> Result<InsertStep, Fault>
        ensures { AnswersStopped self.now.added result }
    {
        match self.added {
            Some(action) => Ok(InsertStep::Added {
                action,
                unfinished: Some(Fault::Stopped),
            }),
            None => Err(Fault::Stopped),
        }
    }

    // The first step: reads the metapage.
    fn find_root<S: PageStore>(&mut self, store: &mut S) -> Result<InsertStep, Fault>
        requires at { self.old.at ≡ InsertAt.Coming Stage.Start }
        requires alive { (S.backing store.old).stopped ≡ false }
        ensures all { InsertSteps S.PageStore self.old self.new store.old store.new result }
        ensures faults { IfErr result (HasCause causes_of_splitting_any) }
        ensures quiet { IfLeftIncomplete result (λ fault. S.state store.new ≡ S.state store.old) }
        ensures left { IfLeftIncomplete result (HasCause causes_of_left_any) }
    {
        match read_shared(store, self.session, 0) {
            Ok(()) => {}
            Err(fault) => return Err(fault),
        }
        let Some(position) = way_down(store.view(0)) else {
            return Err(Fault::PageDamaged(0));
        };
        come_to(&mut self.at, Stage::At(position));
        Ok(InsertStep::Going)
    }

    // Reads a page on its way.
    fn walk<S: PageStore>(&mut self, store: &mut S, position: Position) -> Result<InsertStep, Fault>
        requires at { self.old.at ≡ InsertAt.Coming (Stage.At position) }
        requires alive { (S.backing store.old).stopped ≡ false }
        ensures all { InsertSteps S.PageStore self.old self.new store.old store.new result }
        ensures faults { IfErr result (HasCause
            (causes_of_inserting_any (S.state store.old).format.unique self.old.entry)) }
        ensures quiet { IfLeftIncomplete result (λ fault. S.state store.new ≡ S.state store.old) }
        ensures left { IfLeftIncomplete result (HasCause causes_of_left_any) }
    {
        match read_shared(store, self.session, position.block) {
            Ok(()) => {}
            Err(fault) => return Err(fault),
        }
        let page = store.view(position.block);
        if has_incomplete_split(page) {
            return self.meet(page, position);
        }
        let aim = SearchKey::Below(self.entry.bound());
        match lead(page, &position, &aim, 0, store.limits().pages) {
            Some(NextPage::Going(on)) => {
                come_to(&mut self.at, Stage::At(on));
                Ok(InsertStep::Going)
            }
            Some(NextPage::Here) => {
                if !may_hold(page, &self.entry) {
                    return Err(Fault::PageDamaged(position.block));
                }
                self.take(store, position.block)
            }
            None => Err(Fault::PageDamaged(position.block)),
        }
    }

    // Finishes the split of a page that it met on its way.
    fn meet(&mut self, page: &Page, position: Position) -> Result<InsertStep, Fault>
        ensures meets { MeetsPage page.now position self.old self.new result }
        ensures faults { IfErr result (HasCause causes_of_splitting_any) }
    {
        match target_of(page, position) {
            Some(target) => {
                self.at = InsertAt::Finishing(FinishOp::new(self.session, target));
                Ok(InsertStep::Going)
            }
            None => Err(Fault::PageDamaged(position.block)),
        }
    }

    // Latches its leaf exclusively, and pins it.
    fn take<S: PageStore>(&mut self, store: &mut S, block: u32) -> Result<InsertStep, Fault>
        ensures steps { Continues S.follows store.old store.new }
        ensures backing { S.backing store.new ≡ S.backing store.old }
        ensures takes { HasRoom (S.state store.old).table self.old.session
            → Takes block self.old self.new (S.state store.old) (S.state store.new) result }
        ensures going { IfOk result (λ step. step ≡ InsertStep.Going) }
        ensures faults { IfErr result (HasCause causes_of_splitting_any) }
        ensures taken { OnOk result ((S.state store.new ≡ with_table (S.state store.old)
            (pinned (latched (S.state store.old).table self.old.session block Mode.Exclusive)
            self.old.session block))
            × (self.new ≡ record self.old { at = InsertAt.Coming (Stage.Holding block) })) }
        ensures state { OnErr result (S.state store.new ≡ S.state store.old) }
        ensures op { OnErr result (self.new ≡ self.old) }
    {
        match store.latch(self.session, block, Mode::Exclusive) {
            Ok(()) => {
                store.pin(self.session, block);
                come_to(&mut self.at, Stage::Holding(block));
                Ok(InsertStep::Going)
            }
            Err(fault) => Err(fault),
        }
    }

    // Puts the entry into the leaf that it holds, by a copy in the draft: a page of its own here would be
    // filled with zeros first.
    fn add<S: PageStore>(
        &mut self,
        store: &mut S,
        block: u32,
        draft: &mut Page,
        pages: &mut [Page; 3],
    ) -> Result<InsertStep, Fault>
        requires at { self.old.at ≡ InsertAt.Coming (Stage.Holding block) }
        requires alive { (S.backing store.old).stopped ≡ false }
        ensures all { InsertSteps S.PageStore self.old self.new store.old store.new result }
        ensures faults { IfErr result (HasCause
            (causes_of_inserting_any (S.state store.old).format.unique self.old.entry)) }
        ensures quiet { IfLeftIncomplete result (λ fault. S.state store.new ≡ S.state store.old) }
        ensures left { IfLeftIncomplete result (HasCause causes_of_left_any) }
    {
        match store.fetch(block) {
            Ok(()) => {}
            Err(fault) => return Err(fault),
        }
        let unique = store.format().unique;
        let found = store.view(block);
        let at = match place_in(found, &self.entry, unique) {
            Ok(at) => at,
            Err(fault) => return Err(fault),
        };
        found.copy_to(draft);
        if entries_on(draft).len() < store.limits().items as usize {
            self.put(store, draft, at)
        } else {
            self.split(store, draft, at, pages)
        }
    }

    // Makes a step by which splits are finished. Few steps do: those that don't are spared the room for its
    // pages.
    #[inline(never)]
    fn finish<S: PageStore>(
        &mut self,
        store: &mut S,
        pages: &mut [Page; 3],
    ) -> Result<InsertStep, Fault>
        requires at { FinishesSplits self.old.at }
        requires alive { (S.backing store.old).stopped ≡ false }
        ensures all { InsertSteps S.PageStore self.old self.new store.old store.new result }
        ensures faults { IfErr result (HasCause
            (causes_of_inserting_any (S.state store.old).format.unique self.old.entry)) }
        ensures quiet { IfLeftIncomplete result (λ fault. S.state store.new ≡ S.state store.old) }
        ensures left { IfLeftIncomplete result (HasCause causes_of_left_any) }
        ensures logged { IsRefusedRightly self.old.added result }
    {
        let InsertAt::Finishing(op) = &mut self.at else {
            return Err(Fault::PageDamaged(0));
        };
        match op.step(store, pages) {
            Ok(FinishStep::Going) => Ok(InsertStep::Going),
            Ok(FinishStep::Done) => Ok(self.go_on()),
            Err(fault) => self.leave(fault),
        }
    }

    // Nothing is left to finish: the insert is over, or starts again.
    fn go_on(&mut self) -> InsertStep
        ensures { ContinuesAs self.old self.new result }
    {
        match self.added {
            Some(action) => InsertStep::Added {
                action,
                unfinished: None,
            },
            None => {
                come_to(&mut self.at, Stage::Start);
                InsertStep::Going
            }
        }
    }

    // A split can't be finished: if the entry is logged, the insert is over all the same, except for a
    // page that is blocked.
    fn leave(&self, fault: Fault) -> Result<InsertStep, Fault>
        ensures { Leaves self.now.added fault result }
    {
        match self.added {
            Some(action) if !matches!(fault, Fault::Blocked(_)) => Ok(InsertStep::Added {
                action,
                unfinished: Some(fault),
            }),
            _ => Err(fault),
        }
    }
}

// The insert is at this stage. One whose entry isn't on its leaf keeps the room of the splits to finish as it
// is.
fn come_to(at: &mut InsertAt, stage: Stage)
    ensures { at.new ≡ InsertAt.Coming stage }
{
    match at {
        InsertAt::Coming(was) => *was = stage,
        InsertAt::Finishing(_) => start_at(at, stage),
    }
}

#[inline(never)]
fn start_at(at: &mut InsertAt, stage: Stage)
    ensures { at.new ≡ InsertAt.Coming stage }
{
    *at = InsertAt::Coming(stage);
}

// Whether it is a live page whose split is to be finished.
fn has_incomplete_split(page: &Page) -> bool
    ensures live { result ≡ true → page.now.state ≡ PageState.Live }
    ensures incomplete { result ≡ true → page.now.split ≡ true }
    ensures whole { result ≡ false → page.now.state ≡ PageState.Live → page.now.split ≡ false }
{
    matches!(page.state, PageState::Live) && page.split
}

// What is to be finished of a page, met on this way; None if it is on another level, or has no high key.
fn target_of(page: &Page, position: Position) -> Option<Target>
    ensures target { IfSome result (λ t. (t.block ≡ position.block) × (t.level ≡ position.level)
        × (page.now.level ≡ position.level) × (page.now.high ≡ Some t.separator)) }
    ensures none { page.now.level ≡ position.level → IfNone result (page.now.high ≡ None) }
{
    if page.level != position.level {
        return None;
    }
    match page.high {
        Some(separator) => Some(Target {
            block: position.block,
            level: position.level,
            separator,
        }),
        None => None,
    }
}

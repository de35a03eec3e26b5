//! The steps of a scan.

ghost use Rattle.std.specs.Prelude.{◌≡◌, ◌≤◌, [], Some, None, IfErr, length};
ghost use Rattle.index_model.specs.Faults.{HasCause};
ghost use Rattle.index_model.specs.Order.{IsAscending};
ghost use Rattle.latch_table.specs.Holdings.{pinned};
ghost use Rattle.page_action.specs.States.{Continues, with_table};
ghost use Rattle.tree_shape.specs.Leaf.{IsCopiedFrom};
ghost use Rattle.tree_acts.specs.StepEffects.{causes_of_reading_any};
ghost use Rattle.scan.specs.Scans.{without_leaf};

use crate::next_page::{after_leaf, frontier_past};
use arrayvec::ArrayVec;
use descent::{NextPage, Position, lead, read_shared, way_down};
use index_model::{Bound, Entry, Fault, Range, Session};
use page_action::PageStore;
use page_codec::{Items, Page};
use tree_shape::{SearchKey, take_matches};

/// Where a scan is between its steps.
#[derive(Clone, Copy)]
pub enum ScanAt {
    /// Before its first step.
    Start,
    /// The next step reads this page.
    At(Position),
    /// It has read the last leaf.
    Last,
}

/// A scan of one session.
#[derive(Drop)]
pub struct ScanOp {
    pub session: Session,
    pub range: Range,
    pub at: ScanAt,
    /// The greatest bound read so far: what is given lies beyond what was the frontier before its leaf was
    /// read.
    pub frontier: Bound,
    /// The matches of the leaf that was read last.
    pub copied: ArrayVec<Entry, 50>,
    /// How many of them were given.
    pub given: usize,
    /// The leaf that it stands on and has pinned, until it has read another page.
    pub leaf: Option<u32>,
}

/// What a step of a scan answers.
#[derive(Clone, Copy)]
pub enum ScanStep {
    /// There are more steps to make.
    Going,
    /// Entries are ready to be given: their number.
    Ready(u32),
    /// All is given.
    Done,
}

impl ScanOp {
    ghost use Rattle.scan.specs.Scans.{fresh_scan, waiting, moved_to, after_reading, ScanSteps, IsNext};

    /// A scan of the range before its first step.
    pub fn new(session: Session, range: Range) -> ScanOp
        ensures { result ≡ fresh_scan session range }
    {
        ScanOp {
            session,
            range,
            at: ScanAt::Start,
            frontier: range.start(),
            copied: ArrayVec::new(),
            given: 0,
            leaf: None,
        }
    }

    /// How many entries are ready to be given.
    pub fn ready(&self) -> u32
        ensures { result ≡ length (waiting self.now) }
    {
        self.copied.len().saturating_sub(self.given) as u32
    }

    /// The next of the entries that are ready, or none.
    pub fn next(&mut self) -> Option<Entry>
        ensures { IsNext self.old result self.new }
    {
        if self.given >= self.copied.len() {
            return None;
        }
        let entry = self.copied[self.given];
        self.given += 1;
        Some(entry)
    }

    /// Makes one step. While entries are ready it answers their number and changes nothing. After `Done` and
    /// after each fault but `Blocked` the call is over, and its store's `end` is due.
    ///
    /// Refused with `Blocked` (4), and the same step may be made again; with `Io` (2), `Stopped` (3),
    /// `NoFrame` (10); with `PageDamaged` (17) on pages that are no tree. A refused step changes nothing.
    pub fn step<S: PageStore>(&mut self, store: &mut S) -> Result<ScanStep, Fault>
        ensures all { ScanSteps S.PageStore self.old self.new store.old store.new result }
        ensures faults { IfErr result (HasCause causes_of_reading_any) }
    {
        if store.is_stopped() {
            return Err(Fault::Stopped);
        }
        let ready = self.ready();
        if ready > 0 {
            return Ok(ScanStep::Ready(ready));
        }
        match self.at {
            ScanAt::Start => self.find_root(store),
            ScanAt::At(position) => self.read(store, position),
            ScanAt::Last => Ok(ScanStep::Done),
        }
    }

    // The first step: reads the metapage.
    fn find_root<S: PageStore>(&mut self, store: &mut S) -> Result<ScanStep, Fault>
        requires at { self.old.at ≡ ScanAt.Start }
        requires none { waiting self.old ≡ [] }
        ensures all { ScanSteps S.PageStore self.old self.new store.old store.new result }
        ensures faults { IfErr result (HasCause causes_of_reading_any) }
    {
        read_shared(store, self.session, 0)?;
        let Some(position) = way_down(store.view(0)) else {
            return Err(Fault::PageDamaged(0));
        };
        self.go_on(store, position);
        Ok(ScanStep::Going)
    }

    // Reads a page: it leads on, or it is the leaf after the frontier, whose matches are copied.
    fn read<S: PageStore>(&mut self, store: &mut S, position: Position) -> Result<ScanStep, Fault>
        requires at { self.old.at ≡ ScanAt.At position }
        requires none { waiting self.old ≡ [] }
        ensures all { ScanSteps S.PageStore self.old self.new store.old store.new result }
        ensures faults { IfErr result (HasCause causes_of_reading_any) }
    {
        read_shared(store, self.session, position.block)?;
        let page = store.view(position.block);
        let most = store.limits().pages;
        match lead(page, &position, &SearchKey::UpTo(self.frontier), 0, most) {
            None => Err(Fault::PageDamaged(position.block)),
            Some(NextPage::Going(on)) => {
                self.go_on(store, on);
                Ok(ScanStep::Going)
            }
            Some(NextPage::Here) => {
                let Items::Entries(entries) = &page.items else {
                    return Err(Fault::PageDamaged(position.block));
                };
                self.take(page, entries.as_slice());
                self.stand_on(store, position.block);
                Ok(ScanStep::Ready(self.ready()))
            }
        }
    }

    // Goes on to another page, and stands on no leaf.
    fn go_on<S: PageStore>(&mut self, store: &mut S, position: Position)
        ensures steps { Continues S.follows store.old store.new }
        ensures backing { S.backing store.new ≡ S.backing store.old }
        ensures state { S.state store.new ≡ with_table (S.state store.old)
            (without_leaf (S.state store.old).table self.old.session self.old.leaf) }
        ensures op { self.new ≡ moved_to self.old position }
    {
        self.let_go(store);
        self.at = ScanAt::At(position);
    }

    // Stands on this leaf, and on no other.
    fn stand_on<S: PageStore>(&mut self, store: &mut S, block: u32)
        ensures steps { Continues S.follows store.old store.new }
        ensures backing { S.backing store.new ≡ S.backing store.old }
        ensures state { S.state store.new ≡ with_table (S.state store.old)
            (pinned (without_leaf (S.state store.old).table self.old.session self.old.leaf)
            self.old.session block) }
        ensures op { self.new ≡ record self.old { leaf = Some block } }
    {
        self.let_go(store);
        store.pin(self.session, block);
        self.leaf = Some(block);
    }

    // Lets go the leaf that it stands on, if there is one.
    fn let_go<S: PageStore>(&mut self, store: &mut S)
        ensures steps { Continues S.follows store.old store.new }
        ensures backing { S.backing store.new ≡ S.backing store.old }
        ensures state { S.state store.new ≡ with_table (S.state store.old)
            (without_leaf (S.state store.old).table self.old.session self.old.leaf) }
        ensures op { self.new ≡ record self.old { leaf = None } }
    {
        if let Some(block) = self.leaf {
            store.unpin(self.session, block);
        }
        self.leaf = None;
    }

    // The matches of a leaf become ready, and the frontier goes on after it.
    fn take(&mut self, page: &Page, entries: &[Entry])
        requires few { length entries.now ≤ 50 }
        ensures copied { IsAscending entries.now → IsCopiedFrom entries.now self.old.frontier
            self.old.range.below self.new.copied.items }
        ensures many { length self.new.copied.items ≤ 50 }
        ensures op { self.new
            ≡ after_reading self.old page.now.high page.now.right self.new.copied.items }
    {
        take_matches(entries, &self.frontier, &self.range.below, &mut self.copied);
        self.given = 0;
        self.at = after_leaf(page, &self.range.below);
        self.frontier = frontier_past(self.frontier, &page.high);
    }
}

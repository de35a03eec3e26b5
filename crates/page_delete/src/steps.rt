//! The steps of a cleanup.

ghost use Rattle.std.specs.Prelude.{◌≡◌, ◌<◌, ◌||◌, false, IfErr, length};
ghost use Rattle.index_model.specs.Faults.{HasCause};
ghost use Rattle.tree_acts.specs.StepEffects.{causes_of_writing_any};

use crate::turns::stats;
use descent::{Position, lead, read_shared, way_down};
use index_model::{Bound, Fault, Session, VacuumStats};
use page_action::PageStore;
use tree_shape::SearchKey;

/// What the next step of a cleanup does.
#[derive(Clone, Copy)]
pub enum CleanupAt {
    /// It looks at the page at the cursor.
    Look,
    /// It reads the metapage, on the way to the parent of the empty leaf at the cursor, whose high key this
    /// is.
    Start(Bound),
    /// It reads a page on that way.
    Down(Bound, Position),
    /// It tests the leaf at the cursor, its siblings and this page, which may be its parent, and makes the
    /// leaf half-dead if it may. The page was found on the way to this high key.
    Judge(Bound, u32),
    /// It unlinks the half-dead page at the cursor.
    Unlink,
}

/// A cleanup of one session.
#[derive(Drop)]
pub struct CleanupOp {
    pub session: Session,
    /// The block that it is at, in block order.
    pub cursor: u32,
    /// What the next step does.
    pub at: CleanupAt,
    /// The entries on each live leaf when it was looked at, summed.
    pub left: u64,
    /// The pages unlinked.
    pub deleted: u32,
}

/// What a step of a cleanup answers.
#[derive(Clone, Copy)]
pub enum CleanupStep {
    /// There are more steps to make.
    Going,
    /// Each block in use was looked at.
    Finished(VacuumStats),
}

impl CleanupOp {
    ghost use Rattle.page_delete.specs.Ops.{fresh_cleanup, cleanup_counted_out};
    ghost use Rattle.page_delete.specs.Cleanups.{CleanupSteps, IsJudging};

    /// A cleanup before its first step.
    pub fn new(session: Session) -> CleanupOp
        ensures { result ≡ fresh_cleanup session }
    {
        CleanupOp {
            session,
            cursor: 1,
            at: CleanupAt::Look,
            left: 0,
            deleted: 0,
        }
    }

    /// Makes one step. An empty leaf leaves the tree in two acts, of which each is one step: it is made
    /// half-dead, then unlinked and deleted. A half-dead page that is found is unlinked too. A leaf on which
    /// another session holds a latch or a pin is passed. After `Finished` and after each fault but `Blocked`
    /// the call is over, and its store's `end` is due.
    ///
    /// Refused with `Blocked` (4) if another session holds a latch of a page that conflicts, and the same
    /// step may be made again; with `Io` (2), `Stopped` (3), `LogFull` (9), `NoFrame` (10); with
    /// `PageDamaged` (17) on pages that are no tree: for a sibling that does not link back, among others. A
    /// refused step changes nothing.
    pub fn step<S: PageStore>(&mut self, store: &mut S) -> Result<CleanupStep, Fault>
        ensures all { CleanupSteps S.PageStore self.old self.new store.old store.new result }
        ensures faults { IfErr result (HasCause causes_of_writing_any) }
    {
        if store.is_stopped() || self.is_counted_out() {
            return Err(Fault::Stopped);
        }
        match self.at {
            CleanupAt::Look if self.cursor < store.used() => self.read_at_cursor(store),
            CleanupAt::Look => Ok(CleanupStep::Finished(stats(self, store))),
            CleanupAt::Start(high) => self.read_metapage(store, high),
            CleanupAt::Down(high, position) => self.read_page(store, high, position),
            CleanupAt::Judge(_, parent) => self.judge(store, parent),
            CleanupAt::Unlink => self.unlink(store),
        }
    }

    // Whether a counter is at its end, or has no room for the entries of one more leaf.
    fn is_counted_out(&self) -> bool
        ensures { result ≡ cleanup_counted_out self.now }
    {
        self.left > u64::MAX - 50 || self.cursor == u32::MAX || self.deleted == u32::MAX
    }

    // Looks at the page at the cursor.
    fn read_at_cursor<S: PageStore>(&mut self, store: &mut S) -> Result<CleanupStep, Fault>
        requires at { self.old.at ≡ CleanupAt.Look }
        requires alive { (S.backing store.old).stopped ≡ false }
        requires room { cleanup_counted_out self.old ≡ false }
        requires inside { self.old.cursor < length (S.state store.old).pages }
        ensures all { CleanupSteps S.PageStore self.old self.new store.old store.new result }
        ensures faults { IfErr result (HasCause causes_of_writing_any) }
    {
        match read_shared(store, self.session, self.cursor) {
            Ok(()) => {}
            Err(fault) => return Err(fault),
        }
        self.turn_at(store.view(self.cursor));
        Ok(CleanupStep::Going)
    }

    // Reads the metapage: if there is a level above the leaves it goes to the root.
    fn read_metapage<S: PageStore>(
        &mut self,
        store: &mut S,
        high: Bound,
    ) -> Result<CleanupStep, Fault>
        requires at { self.old.at ≡ CleanupAt.Start high }
        requires alive { (S.backing store.old).stopped ≡ false }
        requires room { cleanup_counted_out self.old ≡ false }
        ensures all { CleanupSteps S.PageStore self.old self.new store.old store.new result }
        ensures faults { IfErr result (HasCause causes_of_writing_any) }
    {
        match read_shared(store, self.session, 0) {
            Ok(()) => {}
            Err(fault) => return Err(fault),
        }
        let Some(position) = way_down(store.view(0)) else {
            return Err(Fault::PageDamaged(0));
        };
        self.turn_from_root(position, high);
        Ok(CleanupStep::Going)
    }

    // Reads a page on the way to the parent.
    fn read_page<S: PageStore>(
        &mut self,
        store: &mut S,
        high: Bound,
        position: Position,
    ) -> Result<CleanupStep, Fault>
        requires at { self.old.at ≡ CleanupAt.Down high position }
        requires alive { (S.backing store.old).stopped ≡ false }
        requires room { cleanup_counted_out self.old ≡ false }
        ensures all { CleanupSteps S.PageStore self.old self.new store.old store.new result }
        ensures faults { IfErr result (HasCause causes_of_writing_any) }
    {
        if position.level == 0 {
            return Err(Fault::PageDamaged(position.block));
        }
        match read_shared(store, self.session, position.block) {
            Ok(()) => {}
            Err(fault) => return Err(fault),
        }
        let most = store.limits().pages;
        let aim = SearchKey::Below(high);
        let next_page = lead(store.view(position.block), &position, &aim, 1, most);
        self.turn_from_page(next_page, position.block, &high)
    }

    // Makes the leaf at the cursor half-dead, or passes it.
    fn judge<S: PageStore>(&mut self, store: &mut S, parent: u32) -> Result<CleanupStep, Fault>
        requires at { IsJudging self.old.at parent }
        requires alive { (S.backing store.old).stopped ≡ false }
        requires room { cleanup_counted_out self.old ≡ false }
        ensures all { CleanupSteps S.PageStore self.old self.new store.old store.new result }
        ensures faults { IfErr result (HasCause causes_of_writing_any) }
    {
        match self.try_leaf(store, parent) {
            Ok(true) => {
                self.at = CleanupAt::Unlink;
                Ok(CleanupStep::Going)
            }
            Ok(false) => {
                self.pass(0);
                Ok(CleanupStep::Going)
            }
            Err(fault) => Err(fault),
        }
    }

    // Unlinks the page at the cursor, or passes it.
    fn unlink<S: PageStore>(&mut self, store: &mut S) -> Result<CleanupStep, Fault>
        requires at { self.old.at ≡ CleanupAt.Unlink }
        requires alive { (S.backing store.old).stopped ≡ false }
        requires room { cleanup_counted_out self.old ≡ false }
        ensures all { CleanupSteps S.PageStore self.old self.new store.old store.new result }
        ensures faults { IfErr result (HasCause causes_of_writing_any) }
    {
        match self.try_unlink(store) {
            Ok(true) => {
                self.pass_deleted();
                Ok(CleanupStep::Going)
            }
            Ok(false) => {
                self.pass(0);
                Ok(CleanupStep::Going)
            }
            Err(fault) => Err(fault),
        }
    }
}

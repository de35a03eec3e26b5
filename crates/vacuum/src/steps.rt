//! The steps of a bulk delete.

ghost use Rattle.std.specs.Prelude.{◌≡◌, ◌≤◌, ◌<◌, ◌+◌, [], ◌∷◌, true, false, None, IfOk, IfErr, OnOk, OnErr, length};
ghost use Rattle.index_model.specs.Faults.{HasCause};
ghost use Rattle.latch_table.specs.Holdings.{HasRoom, is_held_by_another};
ghost use Rattle.page_action.specs.Room.{KeepsRoom};
ghost use Rattle.page_action.specs.States.{Continues};
ghost use Rattle.page_action.specs.Stored.{AreActable};
ghost use Rattle.tree_acts.specs.StepEffects.{causes_of_writing_any};

use crate::counts::stats;
use crate::leaf::{is_live_leaf, prune};
use descent::{check_latch, read_shared};
use index_model::{DeadRows, Fault, Session, VacuumStats};
use latch_table::Mode;
use page_action::PageStore;
use page_codec::Page;
use std::slice;

/// Where a bulk delete stands while it goes back. It reads the pages in block order, and a split during it
/// may put the right half of a leaf on a block that it has passed. From such a leaf it follows the right
/// links to these halves. After them it goes on in block order.
#[derive(Clone, Copy)]
pub struct Backtrack {
    /// The last leaf that was read in block order.
    pub from: u32,
    /// The right sibling that is read next, below that leaf.
    pub block: u32,
    /// How many right links were followed since that leaf was read.
    pub moves: u32,
}

/// A bulk delete of one session. Its set of rows is given to each step, and has to be the same at each.
#[derive(Drop)]
pub struct BulkDeleteOp {
    pub session: Session,
    /// The block that comes next in block order: each before it was read.
    pub cursor: u32,
    /// The siblings that it reads before it goes on at the cursor, if it goes back.
    pub backtrack: Option<Backtrack>,
    /// The entries that were left on each live leaf when it was read in block order, summed.
    pub left: u64,
    /// The entries removed.
    pub removed: u64,
}

/// What a step of a bulk delete answers.
#[derive(Clone, Copy)]
pub enum BulkDeleteStep {
    /// There are more steps to make.
    Going,
    /// Each block in use was read.
    Finished(VacuumStats),
}

impl BulkDeleteOp {
    ghost use Rattle.vacuum.specs.Ops.{fresh_bulk_delete, next_block, last_read, moves_of};
    ghost use Rattle.vacuum.specs.BulkDeletes.{BulkDeleteSteps, is_counted_out, block_if, causes_of_taking};
    ghost use Rattle.vacuum.specs.Turns.{TurnsTo, TurnsNoMore, moved_beyond, written};

    /// A bulk delete before its first step.
    pub fn new(session: Session) -> BulkDeleteOp
        ensures { result ≡ fresh_bulk_delete session }
    {
        BulkDeleteOp {
            session,
            cursor: 1,
            backtrack: None,
            left: 0,
            removed: 0,
        }
    }

    /// Makes one step, which reads one page; the dead entries of a live leaf go in one act. After `Finished`
    /// and after each fault but `Blocked` the call is over, and its store's `end` is due. The store's cycle
    /// number is to be that of this call from its beginning to its end.
    ///
    /// Refused with `Blocked` (4) if another session holds any latch or pin of the leaf, and the same step
    /// may be made again; with `Io` (2), `Stopped` (3), `LogFull` (9), `NoFrame` (10); with `PageDamaged`
    /// (17) on pages that are no tree: if it would go back more often than there may be pages. A refused
    /// step changes nothing.
    pub fn step<S: PageStore, T: DeadRows>(
        &mut self,
        store: &mut S,
        dead: &T,
    ) -> Result<BulkDeleteStep, Fault>
        ensures all { BulkDeleteSteps S.PageStore (T.is_in dead.now) self.old self.new
            store.old store.new result }
        ensures faults { IfErr result (HasCause causes_of_writing_any) }
    {
        if store.is_stopped() || self.is_counted_out() {
            return Err(Fault::Stopped);
        }
        match self.backtrack {
            Some(backtrack) => self.read(store, dead, backtrack.block),
            None if self.cursor < store.used() => self.read(store, dead, self.cursor),
            None => Ok(BulkDeleteStep::Finished(stats(self, store))),
        }
    }

    // Whether a counter has no room for the entries of one more leaf.
    fn is_counted_out(&self) -> bool
        ensures { result ≡ is_counted_out self.now }
    {
        self.left > u64::MAX - 50 || self.removed > u64::MAX - 50
    }

    // Reads a page: a live leaf loses its dead entries, and may lead back to a sibling.
    fn read<S: PageStore, T: DeadRows>(
        &mut self,
        store: &mut S,
        dead: &T,
        block: u32,
    ) -> Result<BulkDeleteStep, Fault>
        requires at { next_block self.old.cursor self.old.backtrack ≡ block }
        requires alive { (S.backing store.old).stopped ≡ false }
        requires room { is_counted_out self.old ≡ false }
        requires inside { self.old.backtrack ≡ None
            → self.old.cursor < length (S.state store.old).pages }
        requires narrow { self.old.backtrack ≡ None → self.old.cursor < 4294967295 }
        ensures all { BulkDeleteSteps S.PageStore (T.is_in dead.now) self.old self.new
            store.old store.new result }
        ensures faults { IfErr result (HasCause causes_of_writing_any) }
    {
        match read_shared(store, self.session, block) {
            Ok(()) => {}
            Err(fault) => return Err(fault),
        }
        let page = store.view(block);
        if !is_live_leaf(page) {
            self.go_on(None, 0, 0);
            return Ok(BulkDeleteStep::Going);
        }
        let backtrack = match self.turn(page, store.cycle(), store.limits().pages) {
            Ok(backtrack) => backtrack,
            Err(fault) => return Err(fault),
        };
        let pruned = prune(page, dead);
        match self.take(store, &pruned.after, pruned.gone > 0) {
            Ok(()) => {}
            Err(fault) => return Err(fault),
        }
        self.go_on(backtrack, pruned.kept, pruned.gone);
        Ok(BulkDeleteStep::Going)
    }

    // The way back after a leaf, if there is one: to the right sibling of a leaf that carries the running
    // cycle number, if its block is lower than that of the last leaf read in block order.
    fn turn(&self, page: &Page, cycle: u32, most: u32) -> Result<Option<Backtrack>, Fault>
        ensures turns { IfOk result (TurnsTo cycle most (last_read self.now.cursor self.now.backtrack)
            (moves_of self.now.backtrack) page.now) }
        ensures fault { IfErr result (λ f. f ≡ Fault.PageDamaged page.now.block) }
        ensures refused { OnErr result (TurnsNoMore cycle most
            (last_read self.now.cursor self.now.backtrack) (moves_of self.now.backtrack) page.now) }
    {
        let (from, moves) = match self.backtrack {
            Some(backtrack) => (backtrack.from, backtrack.moves),
            None => (self.cursor, 0),
        };
        match page.right {
            Some(block) if page.cycle == cycle && block < from => {
                if moves >= most {
                    return Err(Fault::PageDamaged(page.block));
                }
                Ok(Some(Backtrack {
                    from,
                    block,
                    moves: moves + 1,
                }))
            }
            _ => Ok(None),
        }
    }

    // Latches a leaf for cleanup, and writes it, if it is changed. The latch is let go again: the step is one
    // moment.
    fn take<S: PageStore>(&self, store: &mut S, page: &Page, changed: bool) -> Result<(), Fault>
        requires may { AreActable (S.state store.old).format (length (S.state store.old).pages)
            (page.now ∷ []) }
        ensures steps { Continues S.follows store.old store.new }
        ensures free { OnOk result (is_held_by_another (S.state store.old).table
            self.now.session page.now.block Mode.Cleanup ≡ false) }
        ensures done { OnOk result (S.state store.new
            ≡ written changed page.now (S.state store.old)) }
        ensures refused { OnErr result (S.state store.new ≡ S.state store.old) }
        ensures faults { IfErr result (HasCause causes_of_writing_any) }
        ensures cause { HasRoom (S.state store.old).table self.now.session
            → IfErr result (HasCause (causes_of_taking (block_if changed page.now.block)
            (S.state store.old) (S.backing store.old) (S.backing store.new) self.now)) }
    {
        match check_latch(store, self.session, page.block, Mode::Cleanup) {
            Ok(()) => {}
            Err(fault) => return Err(fault),
        }
        if !changed {
            return Ok(());
        }
        match store.act(slice::from_ref(page)) {
            Ok(_) => Ok(()),
            Err(fault) => Err(fault),
        }
    }

    // Goes on after a page: back to a sibling, or at the cursor.
    fn go_on(&mut self, backtrack: Option<Backtrack>, kept: u64, gone: u64)
        requires room { is_counted_out self.old ≡ false }
        requires narrow { self.old.backtrack ≡ None → self.old.cursor < 4294967295 }
        requires kept { kept ≤ 50 }
        requires gone { gone ≤ 50 }
        ensures { self.new ≡ moved_beyond self.old backtrack kept gone }
    {
        if self.backtrack.is_none() {
            self.cursor += 1;
            self.left += kept;
        }
        self.backtrack = backtrack;
        self.removed += gone;
    }
}

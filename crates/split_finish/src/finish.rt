//! The call that finishes splits, and which step it makes next.

ghost use Rattle.std.specs.Prelude.{◌≡◌, [], IfErr};
ghost use Rattle.index_model.specs.Faults.{HasCause};
ghost use Rattle.tree_acts.specs.StepEffects.{causes_of_splitting_any};
ghost use Rattle.split_finish.specs.Finishes.{FinishSteps};

use arrayvec::ArrayVec;
use descent::{Position, read_shared};
use index_model::{Bound, Fault, Key, Session};
use page_action::PageStore;
use page_codec::Page;

/// A page whose split is to be finished.
#[derive(Clone, Copy)]
pub struct Target {
    /// Its block, 1 to 65,535.
    pub block: u32,
    /// Its level, 0 to 31.
    pub level: u8,
    /// Its high key, which parts it from its right half.
    pub separator: Bound,
}

impl Default for Target {
    fn default() -> Target {
        Target {
            block: 0,
            level: 0,
            separator: Bound {
                key: Key::EMPTY,
                row: None,
            },
        }
    }
}

/// What the next step does.
#[derive(Clone, Copy)]
pub enum FinishAt {
    /// It reads the metapage.
    Start,
    /// It reads a page on the way to the parent of the newest target.
    Down(Position),
    /// It puts the downlink of the right half on this page, the parent.
    Link(Position),
    /// It makes a new root over the newest target and its right half.
    Root,
}

/// The splits that a call finishes, each after those above it.
#[derive(Drop)]
pub struct FinishOp {
    /// The session of the call.
    pub session: Session,
    /// The newest target, which is finished first.
    pub target: Target,
    /// The older ones, oldest first, 31 at most.
    pub below: ArrayVec<Target, 31>,
    /// What the next step does.
    pub at: FinishAt,
}

/// What a step answers.
#[derive(Clone, Copy)]
pub enum FinishStep {
    /// There are more steps to make.
    Going,
    /// No target is left.
    Done,
}

impl FinishOp {
    /// Finishes the split of this page, and of those that are met on the way.
    pub fn new(session: Session, target: Target) -> FinishOp
        ensures session { result.session ≡ session }
        ensures target { result.target ≡ target }
        ensures below { result.below.items ≡ [] }
        ensures at { result.at ≡ FinishAt.Start }
    {
        FinishOp {
            session,
            target,
            below: ArrayVec::new(),
            at: FinishAt::Start,
        }
    }

    /// Makes one step. Refused with `Blocked` (4), and the same step may be made again; with `IndexFull` (8),
    /// `Io` (2), `Stopped` (3), `LogFull` (9), `NoFrame` (10); with `TooTall` (19) if the root is split on
    /// level 31; with `PageDamaged` (17) on pages that are no tree. A refused step changes nothing. `pages`
    /// is room for the pages of an act: what they hold has no meaning, neither before nor after.
    pub fn step<S: PageStore>(
        &mut self,
        store: &mut S,
        pages: &mut [Page; 3],
    ) -> Result<FinishStep, Fault>
        ensures all { FinishSteps S.PageStore self.old self.new store.old store.new result }
        ensures faults { IfErr result (HasCause causes_of_splitting_any) }
    {
        match self.at {
            FinishAt::Start => self.read_metapage(store),
            FinishAt::Down(position) => self.read_page(store, position),
            FinishAt::Link(position) => self.link(store, position, pages),
            FinishAt::Root => self.grow(store),
        }
    }

    fn read_metapage<S: PageStore>(&mut self, store: &mut S) -> Result<FinishStep, Fault>
        requires { self.old.at ≡ FinishAt.Start }
        ensures all { FinishSteps S.PageStore self.old self.new store.old store.new result }
        ensures faults { IfErr result (HasCause causes_of_splitting_any) }
    {
        read_shared(store, self.session, 0)?;
        self.leave_metapage(store.view(0))
    }

    fn read_page<S: PageStore>(
        &mut self,
        store: &mut S,
        position: Position,
    ) -> Result<FinishStep, Fault>
        requires { self.old.at ≡ FinishAt.Down position }
        ensures all { FinishSteps S.PageStore self.old self.new store.old store.new result }
        ensures faults { IfErr result (HasCause causes_of_splitting_any) }
    {
        match read_shared(store, self.session, position.block) {
            Ok(()) => {
                let most = store.limits().pages;
                self.leave_page(store.view(position.block), position, most)
            }
            Err(fault) => Err(fault),
        }
    }
}

//! A half-dead page is unlinked and deleted.

ghost use Rattle.std.specs.Prelude.{◌≡◌, ◌≤◌, ◌<◌, ℕ, List, true, false, Some, IfOk, IfErr, OnOk, OnErr, length};
ghost use Rattle.index_model.specs.Faults.{HasCause};
ghost use Rattle.latch_table.specs.Holdings.{HasRoom};
ghost use Rattle.page_action.specs.States.{Continues, after_act};
ghost use Rattle.page_action.specs.Stored.{AreActable};
ghost use Rattle.page_codec.specs.declared.page.PageState.TheVariants.{HalfDead};
ghost use Rattle.tree_shape.specs.Deletion.{as_deleted};
ghost use Rattle.tree_acts.specs.StepEffects.{causes_of_acting, causes_of_writing_any};
ghost use Rattle.page_delete.specs.Needs.{causes_of_trying, blocks_unlinked_at};
ghost use Rattle.page_delete.specs.Parts.{HalfDeadAnswers, IsTakenToChange, IsTakenLeft, IsTakenRight, IsTried, IsInUse, PageIsDeleted, IsNotDead, LinksRight, LinksLeft, unlinked};

use crate::steps::CleanupOp;
use crate::turns::is_half_dead;
use descent::{act_on, read_exclusive};
use index_model::{Fault, Session};
use page_action::PageStore;
use page_codec::Page;
use tree_shape::{deleted_page, mend_right, set_left};

// The right link of a half-dead page.
fn right_of_dead(page: &Page) -> Option<u32>
    ensures { HalfDeadAnswers page.now result }
{
    if is_half_dead(page) { page.right } else { None }
}

// Reads the page to the left of one that is unlinked, if there is one, to change it. Refused with
// `PageDamaged` for one that does not link to it.
fn take_left<S: PageStore>(
    store: &mut S,
    session: Session,
    page: &Page,
) -> Result<Option<Page>, Fault>
    ensures steps { Continues S.follows store.old store.new }
    ensures state { S.state store.new ≡ S.state store.old }
    ensures taken { IfOk result (IsTakenLeft (S.state store.old) (S.backing store.new).honest
        session page.now page.now.left) }
    ensures alive { OnOk result
        ((S.backing store.new).stopped ≡ true → (S.backing store.old).stopped ≡ true) }
    ensures promised { (S.backing store.new).promised ≡ (S.backing store.old).promised }
    ensures faults { IfErr result (HasCause causes_of_writing_any) }
    ensures cause { (S.backing store.new).honest ≡ true
        → HasRoom (S.state store.old).table session
        → ((l : ℕ) → page.now.left ≡ Some l
        → LinksRight (S.state store.old).pages l page.now.block)
        → (written : List ℕ) → IfErr result (HasCause (causes_of_trying (S.state store.old)
        (S.backing store.old) (S.backing store.new) session written)) }
{
    let Some(block) = page.left else {
        return Ok(None);
    };
    match read_exclusive(store, session, block) {
        Ok(left) if left.right == Some(page.block) => Ok(Some(left)),
        Ok(_) => Err(Fault::PageDamaged(block)),
        Err(fault) => Err(fault),
    }
}

// ... and the page to the right.
fn take_right<S: PageStore>(
    store: &mut S,
    session: Session,
    page: &Page,
    block: u32,
) -> Result<Page, Fault>
    ensures steps { Continues S.follows store.old store.new }
    ensures state { S.state store.new ≡ S.state store.old }
    ensures taken { IfOk result (IsTakenRight (S.state store.old) (S.backing store.new).honest
        session page.now block) }
    ensures inside { OnOk result (length (S.state store.old).pages
        ≤ (S.state store.old).format.pages) }
    ensures alive { OnOk result
        ((S.backing store.new).stopped ≡ true → (S.backing store.old).stopped ≡ true) }
    ensures promised { (S.backing store.new).promised ≡ (S.backing store.old).promised }
    ensures faults { IfErr result (HasCause causes_of_writing_any) }
    ensures cause { (S.backing store.new).honest ≡ true
        → HasRoom (S.state store.old).table session
        → LinksLeft (S.state store.old).pages block page.now.block
        → (written : List ℕ) → IfErr result (HasCause (causes_of_trying (S.state store.old)
        (S.backing store.old) (S.backing store.new) session written)) }
{
    match read_exclusive(store, session, block) {
        Ok(right) if right.left == Some(page.block) => Ok(right),
        Ok(_) => Err(Fault::PageDamaged(block)),
        Err(fault) => Err(fault),
    }
}

// Links the siblings of a page to each other, and deletes it with this deletion number, in one act.
fn act_between<S: PageStore>(
    store: &mut S,
    left: Option<Page>,
    page: &Page,
    right: Page,
    number: u64,
) -> Result<u64, Fault>
    ensures steps { Continues S.follows store.old store.new }
    ensures may { OnOk result
        (AreActable (S.state store.old).format (length (S.state store.old).pages)
        (unlinked left page.now right number)) }
    ensures done { OnOk result (S.state store.new
        ≡ after_act (unlinked left page.now right number) (S.state store.old)) }
    ensures refused { OnErr result (S.state store.new ≡ S.state store.old) }
    ensures faults { IfErr result (HasCause causes_of_writing_any) }
    ensures cause { AreActable (S.state store.old).format (length (S.state store.old).pages)
        (unlinked left page.now right number)
        → IfErr result (HasCause (causes_of_acting (S.state store.old) (S.backing store.old)
        (S.backing store.new) (unlinked left page.now right number))) }
{
    let gone = deleted_page(page, number);
    let mut right = right;
    set_left(&mut right, page.left);
    match left {
        None => act_on(store, &[gone, right]),
        Some(left) => {
            let mut left = left;
            mend_right(&mut left, right.block);
            act_on(store, &[left, gone, right])
        }
    }
}

// Unlinks a half-dead page from its siblings.
fn unlink_between<S: PageStore>(
    store: &mut S,
    session: Session,
    left: Option<Page>,
    page: Page,
    right: Page,
) -> Result<bool, Fault>
    requires page { IsTakenToChange (S.state store.old) (S.backing store.old).honest session
        page.block page }
    requires dead { page.state ≡ HalfDead }
    requires right_is { page.right ≡ Some right.block }
    requires left { IsTakenLeft (S.state store.old) (S.backing store.old).honest session page
        page.left left }
    requires right { IsTakenRight (S.state store.old) (S.backing store.old).honest session page
        right.block right }
    requires inside { length (S.state store.old).pages ≤ (S.state store.old).format.pages }
    ensures all { IsTried S.PageStore session (blocks_unlinked_at page.block) (IsInUse page.block)
        (PageIsDeleted page.block) (IsNotDead page.block) store.old store.new result }
    ensures faults { IfErr result (HasCause causes_of_writing_any) }
{
    let number = store.begun();
    match act_between(store, left, &page, right, number) {
        Ok(_) => Ok(true),
        Err(fault) => Err(fault),
    }
}

// ... after the reading of its left sibling.
fn unlink_right<S: PageStore>(
    store: &mut S,
    session: Session,
    left: Option<Page>,
    page: Page,
    right: u32,
) -> Result<bool, Fault>
    requires page { IsTakenToChange (S.state store.old) (S.backing store.old).honest session
        page.block page }
    requires dead { page.state ≡ HalfDead }
    requires right_is { page.right ≡ Some right }
    requires left { IsTakenLeft (S.state store.old) (S.backing store.old).honest session page
        page.left left }
    ensures all { IsTried S.PageStore session (blocks_unlinked_at page.block) (IsInUse page.block)
        (PageIsDeleted page.block) (IsNotDead page.block) store.old store.new result }
    ensures faults { IfErr result (HasCause causes_of_writing_any) }
{
    match take_right(store, session, &page, right) {
        Ok(right) => unlink_between(store, session, left, page, right),
        Err(fault) => Err(fault),
    }
}

// ... after its own reading.
fn unlink_dead<S: PageStore>(
    store: &mut S,
    session: Session,
    page: Page,
    right: u32,
) -> Result<bool, Fault>
    requires page { IsTakenToChange (S.state store.old) (S.backing store.old).honest session
        page.block page }
    requires dead { page.state ≡ HalfDead }
    requires right_is { page.right ≡ Some right }
    ensures all { IsTried S.PageStore session (blocks_unlinked_at page.block) (IsInUse page.block)
        (PageIsDeleted page.block) (IsNotDead page.block) store.old store.new result }
    ensures faults { IfErr result (HasCause causes_of_writing_any) }
{
    match take_left(store, session, &page) {
        Ok(left) => unlink_right(store, session, left, page, right),
        Err(fault) => Err(fault),
    }
}

impl CleanupOp {
    // Unlinks the page at the cursor, if it is half-dead. Answers whether it did.
    pub fn try_unlink<S: PageStore>(&self, store: &mut S) -> Result<bool, Fault>
        ensures all { IsTried S.PageStore self.now.session (blocks_unlinked_at self.now.cursor)
            (IsInUse self.now.cursor) (PageIsDeleted self.now.cursor) (IsNotDead self.now.cursor)
            store.old store.new result }
        ensures faults { IfErr result (HasCause causes_of_writing_any) }
    {
        let page = match read_exclusive(store, self.session, self.cursor) {
            Ok(page) => page,
            Err(fault) => return Err(fault),
        };
        match right_of_dead(&page) {
            Some(right) => unlink_dead(store, self.session, page, right),
            None => Ok(false),
        }
    }
}

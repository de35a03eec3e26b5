//! An empty leaf is tested, and made half-dead.

ghost use Rattle.std.specs.Prelude.{◌≡◌, ◌<◌, ◌≤◌, ◌↔◌, IsTrue, ℕ, [], ◌∷◌, suc, true, false, Some, None, IfOk, IfErr, IfSome, IfNone, OnOk, length, slice_get};
ghost use Rattle.index_model.specs.Faults.{HasCause};
ghost use Rattle.latch_table.specs.Holdings.{HasRoom};
ghost use Rattle.page_action.specs.States.{Continues};
ghost use Rattle.tree_shape.specs.LinkPlaces.{child_at};
ghost use Rattle.tree_acts.specs.Deletions.{IsCompleteAt};
ghost use Rattle.tree_acts.specs.StepEffects.{causes_of_working, causes_of_writing_any};
ghost use Rattle.page_delete.specs.Judging.{IsHandingOn};
ghost use Rattle.page_delete.specs.Needs.{blocks_judged};
ghost use Rattle.page_delete.specs.Parts.{SiblingsLink, SiblingsAllow, SiblingsAnswer, CandidateAnswers, IsCandidate, IsTakenToChange, IsTried, BlocksAreInUse, LeafDies, IsSpared, LinksRight, LinksLeft, IsLiveAt};

use crate::looking::read_state;
use crate::steps::CleanupOp;
use descent::{act_on, check_latch, read_exclusive};
use index_model::{Fault, Session};
use latch_table::Mode;
use page_action::PageStore;
use page_codec::{Downlink, Page, PageState};
use tree_shape::{find_child, hand_on_link, has_links, links_on, mark_half_dead, may_die};

// The leaf of the block, if it may be made half-dead and no other session holds a latch or a pin of it.
fn candidate<S: PageStore>(
    store: &mut S,
    session: Session,
    block: u32,
) -> Result<Option<Page>, Fault>
    ensures steps { Continues S.follows store.old store.new }
    ensures state { S.state store.new ≡ S.state store.old }
    ensures answer { IfOk result
        (CandidateAnswers (S.state store.old) (S.backing store.new).honest session block) }
    ensures alive { OnOk result
        ((S.backing store.new).stopped ≡ true → (S.backing store.old).stopped ≡ true) }
    ensures promised { (S.backing store.new).promised ≡ (S.backing store.old).promised }
    ensures faults { IfErr result (HasCause causes_of_writing_any) }
    ensures cause { (S.backing store.new).honest ≡ true
        → block < length (S.state store.old).pages
        → (first second : ℕ) → IfErr result (HasCause (causes_of_working (S.state store.old)
        (S.backing store.old) (S.backing store.new) session (first ∷ second ∷ [])
        2 false false)) }
{
    match check_latch(store, session, block, Mode::Cleanup) {
        Ok(()) => {}
        Err(_) => return Ok(None),
    }
    match store.page(block) {
        Ok(page) if may_die(&page) => Ok(Some(page)),
        Ok(_) => Ok(None),
        Err(fault) => Err(fault),
    }
}

// Whether the page to the left of a leaf, if there is one, has no incomplete split. Refused with
// `PageDamaged` for one that does not link to the leaf.
fn left_is_whole<S: PageStore>(store: &mut S, session: Session, leaf: &Page) -> Result<bool, Fault>
    ensures steps { Continues S.follows store.old store.new }
    ensures state { S.state store.new ≡ S.state store.old }
    ensures whole { (S.backing store.new).honest ≡ true
        → IfOk result (λ yes. IsTrue yes ↔ IsCompleteAt (S.state store.old).pages leaf.now.left) }
    ensures alive { OnOk result
        ((S.backing store.new).stopped ≡ true → (S.backing store.old).stopped ≡ true) }
    ensures promised { (S.backing store.new).promised ≡ (S.backing store.old).promised }
    ensures faults { IfErr result (HasCause causes_of_writing_any) }
    ensures cause { (S.backing store.new).honest ≡ true
        → HasRoom (S.state store.old).table session
        → ((l : ℕ) → leaf.now.left ≡ Some l
        → LinksRight (S.state store.old).pages l leaf.now.block)
        → (first second : ℕ) → IfErr result (HasCause (causes_of_working (S.state store.old)
        (S.backing store.old) (S.backing store.new) session (first ∷ second ∷ [])
        2 false false)) }
{
    let Some(left) = leaf.left else {
        return Ok(true);
    };
    match read_state(store, session, left) {
        Ok(seen) if seen.right == Some(leaf.block) => Ok(!seen.split),
        Ok(_) => Err(Fault::PageDamaged(left)),
        Err(fault) => Err(fault),
    }
}

fn is_live(state: PageState) -> bool
    ensures { IsTrue result ↔ (state ≡ PageState.Live) }
{
    matches!(state, PageState::Live)
}

// Whether the page to the right of a leaf is live. Refused with `PageDamaged` for one that does not link to
// the leaf.
fn right_is_live<S: PageStore>(
    store: &mut S,
    session: Session,
    leaf: &Page,
    right: u32,
) -> Result<bool, Fault>
    ensures steps { Continues S.follows store.old store.new }
    ensures state { S.state store.new ≡ S.state store.old }
    ensures live { (S.backing store.new).honest ≡ true
        → IfOk result (λ yes. IsTrue yes ↔ IsLiveAt (S.state store.old).pages right) }
    ensures alive { OnOk result
        ((S.backing store.new).stopped ≡ true → (S.backing store.old).stopped ≡ true) }
    ensures promised { (S.backing store.new).promised ≡ (S.backing store.old).promised }
    ensures faults { IfErr result (HasCause causes_of_writing_any) }
    ensures cause { (S.backing store.new).honest ≡ true
        → HasRoom (S.state store.old).table session
        → LinksLeft (S.state store.old).pages right leaf.now.block
        → (first second : ℕ) → IfErr result (HasCause (causes_of_working (S.state store.old)
        (S.backing store.old) (S.backing store.new) session (first ∷ second ∷ [])
        2 false false)) }
{
    match read_state(store, session, right) {
        Ok(seen) if seen.left == Some(leaf.block) => Ok(is_live(seen.state)),
        Ok(_) => Err(Fault::PageDamaged(right)),
        Err(fault) => Err(fault),
    }
}

// The right sibling of a leaf, if its siblings allow that it is made half-dead.
fn siblings_allow<S: PageStore>(
    store: &mut S,
    session: Session,
    leaf: &Page,
) -> Result<Option<u32>, Fault>
    ensures steps { Continues S.follows store.old store.new }
    ensures state { S.state store.new ≡ S.state store.old }
    ensures answer { (S.backing store.new).honest ≡ true
        → IfOk result (SiblingsAnswer (S.state store.old).pages leaf.now) }
    ensures right { IfOk result (λ answer. IfSome answer (λ r. leaf.now.right ≡ Some r)) }
    ensures alive { OnOk result
        ((S.backing store.new).stopped ≡ true → (S.backing store.old).stopped ≡ true) }
    ensures promised { (S.backing store.new).promised ≡ (S.backing store.old).promised }
    ensures faults { IfErr result (HasCause causes_of_writing_any) }
    ensures cause { (S.backing store.new).honest ≡ true
        → HasRoom (S.state store.old).table session
        → SiblingsLink (S.state store.old).pages leaf.now
        → (first second : ℕ) → IfErr result (HasCause (causes_of_working (S.state store.old)
        (S.backing store.old) (S.backing store.new) session (first ∷ second ∷ [])
        2 false false)) }
{
    let Some(right) = leaf.right else {
        return Ok(None);
    };
    let is_whole = match left_is_whole(store, session, leaf) {
        Ok(is_whole) => is_whole,
        Err(fault) => return Err(fault),
    };
    let is_live = match right_is_live(store, session, leaf, right) {
        Ok(is_live) => is_live,
        Err(fault) => return Err(fault),
    };
    if !is_whole {
        return Ok(None);
    }
    if is_live { Ok(Some(right)) } else { Ok(None) }
}

// Whether the downlink after this place leads to the page.
fn next_leads(links: &[Downlink], at: usize, right: u32) -> bool
    requires { at < length links.now }
    ensures { IsTrue result
        ↔ ((suc at < length links.now) × (child_at links.now (suc at) ≡ right)) }
{
    match links.get(at + 1) {
        Some(next) => next.child == right,
        None => false,
    }
}

// The place of the downlink to the leaf, if it is to lead to the right sibling instead.
fn handing_place(parent: &Page, leaf: u32, right: u32) -> Option<usize>
    ensures some { IfSome result (IsHandingOn parent.now leaf right) }
    ensures none { IfNone result ((at : ℕ) → IsHandingOn parent.now leaf right at → ⊥) }
{
    if !has_links(parent) || parent.level != 1 {
        return None;
    }
    let links = links_on(parent);
    match find_child(links, leaf) {
        Some(at) if next_leads(links, at, right) => Some(at),
        _ => None,
    }
}

// Makes the leaf half-dead in one act, and hands its downlink on.
fn make_half_dead<S: PageStore>(
    store: &mut S,
    session: Session,
    leaf: Page,
    right: u32,
    parent: Page,
    at: usize,
) -> Result<bool, Fault>
    requires leaf { IsCandidate (S.state store.old) (S.backing store.old).honest session
        leaf.block leaf }
    requires right { (S.backing store.old).honest ≡ true
        → SiblingsAllow (S.state store.old).pages leaf right }
    requires parent { IsTakenToChange (S.state store.old) (S.backing store.old).honest session
        parent.block parent }
    requires place { IsHandingOn parent leaf.block right at }
    requires inside { length (S.state store.old).pages ≤ (S.state store.old).format.pages }
    ensures all { IsTried S.PageStore session (blocks_judged leaf.block parent.block)
        (BlocksAreInUse leaf.block parent.block) (LeafDies leaf.block) (IsSpared session leaf.block parent.block)
        store.old store.new result }
    ensures faults { IfErr result (HasCause causes_of_writing_any) }
{
    let mut leaf = leaf;
    let mut parent = parent;
    mark_half_dead(&mut leaf);
    hand_on_link(&mut parent, at);
    match act_on(store, &[leaf, parent]) {
        Ok(_) => Ok(true),
        Err(fault) => Err(fault),
    }
}

// ... if the page is the parent and hands it on.
fn try_parent<S: PageStore>(
    store: &mut S,
    session: Session,
    leaf: Page,
    right: u32,
    parent: u32,
) -> Result<bool, Fault>
    requires leaf { IsCandidate (S.state store.old) (S.backing store.old).honest session
        leaf.block leaf }
    requires right { (S.backing store.old).honest ≡ true
        → SiblingsAllow (S.state store.old).pages leaf right }
    ensures all { IsTried S.PageStore session (blocks_judged leaf.block parent)
        (BlocksAreInUse leaf.block parent) (LeafDies leaf.block) (IsSpared session leaf.block parent) store.old store.new result }
    ensures faults { IfErr result (HasCause causes_of_writing_any) }
{
    let page = match read_exclusive(store, session, parent) {
        Ok(page) => page,
        Err(fault) => return Err(fault),
    };
    match handing_place(&page, leaf.block, right) {
        Some(at) => make_half_dead(store, session, leaf, right, page, at),
        None => Ok(false),
    }
}

// ... if its siblings allow it.
fn try_beside<S: PageStore>(
    store: &mut S,
    session: Session,
    leaf: Page,
    parent: u32,
) -> Result<bool, Fault>
    requires leaf { IsCandidate (S.state store.old) (S.backing store.old).honest session
        leaf.block leaf }
    ensures all { IsTried S.PageStore session (blocks_judged leaf.block parent)
        (BlocksAreInUse leaf.block parent) (LeafDies leaf.block) (IsSpared session leaf.block parent) store.old store.new result }
    ensures faults { IfErr result (HasCause causes_of_writing_any) }
{
    match siblings_allow(store, session, &leaf) {
        Ok(Some(right)) => try_parent(store, session, leaf, right, parent),
        Ok(None) => Ok(false),
        Err(fault) => Err(fault),
    }
}

impl CleanupOp {
    // Makes the leaf at the cursor half-dead, if it is to be. Answers whether it did.
    pub fn try_leaf<S: PageStore>(&self, store: &mut S, parent: u32) -> Result<bool, Fault>
        ensures all { IsTried S.PageStore self.now.session (blocks_judged self.now.cursor parent)
            (BlocksAreInUse self.now.cursor parent) (LeafDies self.now.cursor)
            (IsSpared self.now.session self.now.cursor parent) store.old store.new result }
        ensures faults { IfErr result (HasCause causes_of_writing_any) }
    {
        match candidate(store, self.session, self.cursor) {
            Ok(Some(leaf)) => try_beside(store, self.session, leaf, parent),
            Ok(None) => Ok(false),
            Err(fault) => Err(fault),
        }
    }
}

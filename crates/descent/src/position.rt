//! The way from the root down to a page of a level, one page a step.

ghost use Rattle.std.specs.Prelude.{◌≡◌, ◌≢◌, ◌⊎◌, ◌≤◌, ◌<◌, ◌↔◌, IsTrue, ℕ, Bool, true, false, Some, IfSome, length, slice_get};
ghost use Rattle.page_action.specs.States.{State};
ghost use Rattle.tree_shape.specs.Aims.{aim_of};
ghost use Rattle.tree_shape.specs.Tree.{IsMetaOf};
ghost use Rattle.tree_shape.specs.Walks.{is_within};
ghost use Rattle.tree_acts.specs.Trees.{HasTree, HasCover};
ghost use Rattle.tree_acts.specs.Ways.{NoneIsIncomplete};
ghost use Rattle.descent.specs.NextPage.{IsOnDescent, LeadsToNext, DescentIsShorter, LeadsStraight, IsArrived, position_from, right_of, going, DownTo};

use page_codec::{Items, Page, PageState};
use tree_shape::{SearchKey, child_toward};

/// The page that a call reads next.
#[derive(Clone, Copy)]
pub struct Position {
    /// Its block.
    pub block: u32,
    /// The level that it is to be on, 0 to 31.
    pub level: u8,
    /// How many moves right on this level were made since the count began.
    pub moves: u32,
}

/// Where a page leads a call that has read it.
#[derive(Clone, Copy)]
pub enum NextPage {
    /// To this page.
    Going(Position),
    /// Nowhere: it is the page of the level that covers what is looked for.
    Here,
}

/// The way from the metapage to the root; None if the page names none.
pub fn way_down(meta: &Page) -> Option<Position>
    ensures named { (root : ℕ) → IsMetaOf meta.now root meta.now.level
        → result ≡ Some (position_from root meta.now.level) }
    ensures level { IfSome result (λ position. position.level ≡ meta.now.level) }
{
    if !matches!(meta.items, Items::Meta) {
        return None;
    }
    match meta.right {
        Some(block) => Some(Position {
            block,
            level: meta.level,
            moves: 0,
        }),
        None => None,
    }
}

fn is_live(state: PageState) -> bool
    ensures { IsTrue result ↔ (state ≡ PageState.Live) }
{
    matches!(state, PageState::Live)
}

// Whether it is a live page of another level than it is to be.
fn is_astray(page: &Page, position: &Position) -> bool
    ensures live { result ≡ true → page.now.state ≡ PageState.Live }
    ensures level { result ≡ true → page.now.level ≢ position.now.level }
    ensures in_place { result ≡ false → page.now.state ≡ PageState.Live
        → page.now.level ≡ position.now.level }
{
    is_live(page.state) && page.level != position.level
}

// Whether the page is not live, or what is looked for lies beyond its high key.
fn is_passed(page: &Page, aim: &SearchKey) -> bool
    ensures passed { result ≡ true → (page.now.state ≢ PageState.Live)
        ⊎ (is_within (aim_of aim.now) page.now.high ≡ false) }
    ensures live { result ≡ false → page.now.state ≡ PageState.Live }
    ensures within { result ≡ false → is_within (aim_of aim.now) page.now.high ≡ true }
{
    !is_live(page.state) || !aim.is_within(&page.high)
}

// The page to the right, unless `most` moves were made.
fn go_right(page: &Page, position: &Position, most: u32) -> Option<Position>
    ensures { result ≡ right_of page.now position.now most }
{
    match page.right {
        Some(block) if position.moves < most => Some(Position {
            block,
            level: position.level,
            moves: position.moves + 1,
        }),
        _ => None,
    }
}

// The child that leads to what is looked for.
fn go_down(page: &Page, position: &Position, aim: &SearchKey) -> Option<Position>
    requires { 0 < position.now.level }
    ensures { DownTo page.now position.now aim.now result }
{
    let Items::Downlinks(links) = &page.items else {
        return None;
    };
    match child_toward(links.as_slice(), aim) {
        Some(block) => Some(Position {
            block,
            level: position.level - 1,
            moves: 0,
        }),
        None => None,
    }
}

/// Where the page of this way leads a call on its way to the level `to`: right, if it is not live or what
/// is looked for lies beyond its high key; else down, to a page that is one level lower; or it is the page
/// sought. None if the page is on another level than it is to be, if a link or a child is missing, or
/// if `most` moves right were made.
pub fn lead(
    page: &Page,
    position: &Position,
    aim: &SearchKey,
    to: u8,
    most: u32,
) -> Option<NextPage>
    requires { to ≤ position.now.level }
    ensures goes { (st : State) (start : ℕ) (clear : Bool) → HasTree st
        → slice_get st.pages position.now.block ≡ Some page.now
        → IsOnDescent st start (aim_of aim.now) clear to position.now
        → (clear ≡ true → page.now.split ≡ false) → length st.pages ≤ most
        → LeadsToNext st start (aim_of aim.now) clear to position.now result }
    ensures less { DescentIsShorter to most position.now result }
    ensures straight { (st : State) → HasTree st → NoneIsIncomplete st.pages
        → slice_get st.pages position.now.block ≡ Some page.now
        → HasCover st position.now.level (aim_of aim.now) position.now.block
        → LeadsStraight st (aim_of aim.now) to position.now result }
    ensures here { result ≡ Some NextPage.Here → IsArrived page.now (aim_of aim.now) }
    ensures level { result ≡ Some NextPage.Here → page.now.level ≡ to }
{
    if is_astray(page, position) {
        return None;
    }
    if is_passed(page, aim) {
        return going(go_right(page, position, most));
    }
    if position.level == to {
        return Some(NextPage::Here);
    }
    going(go_down(page, position, aim))
}

fn going(position: Option<Position>) -> Option<NextPage>
    ensures { result ≡ going position }
{
    match position {
        Some(position) => Some(NextPage::Going(position)),
        None => None,
    }
}

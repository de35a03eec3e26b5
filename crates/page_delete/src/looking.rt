//! Looks at the siblings of a page.

ghost use Rattle.std.specs.Prelude.{◌≡◌, ◌<◌, ℕ, [], ◌∷◌, true, false, IfOk, IfErr, OnOk, length};
ghost use Rattle.index_model.specs.Faults.{HasCause};
ghost use Rattle.latch_table.specs.Holdings.{HasRoom};
ghost use Rattle.page_action.specs.States.{Continues};
ghost use Rattle.tree_acts.specs.StepEffects.{causes_of_working, causes_of_writing_any};
ghost use Rattle.page_delete.specs.Parts.{IsSeen};

use descent::read_shared;
use index_model::{Fault, Session};
use page_action::PageStore;
use page_codec::PageState;

/// What a sibling shows.
#[derive(Clone, Copy)]
pub struct Seen {
    /// Its left link.
    pub left: Option<u32>,
    /// Its right link.
    pub right: Option<u32>,
    /// Whether its split is incomplete.
    pub split: bool,
    /// Its state.
    pub state: PageState,
}

/// Looks at a page. Refused as [`read_shared`].
pub fn read_state<S: PageStore>(store: &mut S, session: Session, block: u32) -> Result<Seen, Fault>
    ensures steps { Continues S.follows store.old store.new }
    ensures state { S.state store.new ≡ S.state store.old }
    ensures seen { (S.backing store.new).honest ≡ true
        → IfOk result (IsSeen (S.state store.old).pages block) }
    ensures alive { OnOk result
        ((S.backing store.new).stopped ≡ true → (S.backing store.old).stopped ≡ true) }
    ensures promised { (S.backing store.new).promised ≡ (S.backing store.old).promised }
    ensures faults { IfErr result (HasCause causes_of_writing_any) }
    ensures cause { (S.backing store.new).honest ≡ true
        → HasRoom (S.state store.old).table session → block < length (S.state store.old).pages
        → (first second : ℕ) → IfErr result (HasCause (causes_of_working (S.state store.old)
        (S.backing store.old) (S.backing store.new) session (first ∷ second ∷ [])
        2 false false)) }
{
    match read_shared(store, session, block) {
        Ok(()) => {}
        Err(fault) => return Err(fault),
    }
    let page = store.view(block);
    Ok(Seen {
        left: page.left,
        right: page.right,
        split: page.split,
        state: page.state,
    })
}

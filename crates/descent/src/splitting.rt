//! What a split needs beside the page.

ghost use Rattle.std.specs.Prelude.{◌≡◌, ◌<◌, ◌≤◌, ◌+◌, true, false, Err, IfOk, IfErr, OnOk, OnErr, Bool, ℕ, List, suc, length};
ghost use Rattle.index_model.specs.Faults.{HasCause};
ghost use Rattle.latch_table.specs.Holdings.{HasRoom, is_held_by_another};
ghost use Rattle.page_codec.specs.Grammar.{IsBlock};
ghost use Rattle.page_action.specs.Reuse.{IsFresh};
ghost use Rattle.page_action.specs.Room.{KeepsRoom};
ghost use Rattle.page_action.specs.States.{Continues, after_act};
ghost use Rattle.page_action.specs.Stored.{AreActable};
ghost use Rattle.tree_acts.specs.StepEffects.{causes_of_working, causes_of_acting, causes_of_reading_any, causes_of_writing_any, causes_of_splitting_any};
ghost use Rattle.descent.specs.Splitting.{RightIsMendable, RightIsStored, RightIsFound, if_read};

use crate::reading::check_latch;
use index_model::{Fault, Session};
use latch_table::Mode;
use page_action::{PageStore, find_misplaced};
use page_codec::Page;
use tree_shape::may_be_mended;

/// Reads the right sibling of a page that is split, if there is one, into a page that stands ready. The
/// sibling's left link is to be mended. Answers whether there is one. Refused as
/// [`read_exclusive`](crate::read_exclusive), and with `PageDamaged` (17) for a page that has no left link to
/// mend: the metapage, or a deleted page. If none was read, what stands in the page has no meaning.
pub fn read_right<S: PageStore>(
    store: &mut S,
    session: Session,
    right: Option<u32>,
    page: &mut Page,
) -> Result<bool, Fault>
    ensures steps { Continues S.follows store.old store.new }
    ensures state { S.state store.new ≡ S.state store.old }
    ensures found { (S.backing store.new).honest ≡ true
        → IfOk result (λ is. RightIsFound (S.state store.old) right (if_read is page.new)) }
    ensures stored { IfOk result
        (λ is. RightIsStored (S.state store.old) session right (if_read is page.new)) }
    ensures alive { OnOk result
        ((S.backing store.new).stopped ≡ true → (S.backing store.old).stopped ≡ true) }
    ensures room { KeepsRoom (S.state store.old) (S.backing store.old) (S.backing store.new) }
    ensures faults { IfErr result (HasCause causes_of_reading_any) }
    ensures cause { (S.backing store.new).honest ≡ true
        → HasRoom (S.state store.old).table session → RightIsMendable (S.state store.old) right
        → (images : List ℕ) (frames : ℕ) (takes splits : Bool) → 1 ≤ frames
        → IfErr result (HasCause (causes_of_working (S.state store.old) (S.backing store.old)
        (S.backing store.new) session images frames takes splits)) }
{
    let Some(block) = right else {
        return Ok(false);
    };
    if store.is_stopped() {
        return Err(Fault::Stopped);
    }
    check_latch(store, session, block, Mode::Exclusive)?;
    store.fetch(block)?;
    let seen = store.view(block);
    if !may_be_mended(seen) {
        return Err(Fault::PageDamaged(block));
    }
    seen.copy_to(page);
    Ok(true)
}

/// The block of a new page, which no other session holds. Refused with `IndexFull` (8) if there is none, and
/// with `Blocked` (4).
pub fn take_block<S: PageStore>(store: &mut S, session: Session) -> Result<u32, Fault>
    ensures steps { Continues S.follows store.old store.new }
    ensures state { S.state store.new ≡ S.state store.old }
    ensures backing { S.backing store.new ≡ S.backing store.old }
    ensures fresh { IfOk result (IsFresh (S.state store.old)) }
    ensures free { IfOk result (λ block.
        is_held_by_another (S.state store.old).table session block Mode.Exclusive ≡ false) }
    ensures block { 0 < length (S.state store.old).pages → IfOk result IsBlock }
    ensures faults { IfErr result (HasCause causes_of_splitting_any) }
    ensures cause { HasRoom (S.state store.old).table session
        → (images : List ℕ) (frames : ℕ) (splits : Bool)
        → IfErr result (HasCause (causes_of_working (S.state store.old) (S.backing store.old)
        (S.backing store.new) session images frames true splits)) }
{
    let _limits = store.limits();
    match store.fresh() {
        Ok(block) => match check_latch(store, session, block, Mode::Exclusive) {
            Ok(()) => Ok(block),
            Err(fault) => Err(fault),
        },
        Err(fault) => Err(fault),
    }
}

/// Changes one to four pages at once, which may be any, and answers the number of the act. Refused with
/// `PageDamaged` (17) for a page that may not be changed beside those after it, and with the faults of
/// [`PageStore::act`].
pub fn act_on<S: PageStore>(store: &mut S, pages: &[Page]) -> Result<u64, Fault>
    requires some { 1 ≤ length pages.now }
    requires few { length pages.now ≤ 4 }
    ensures steps { Continues S.follows store.old store.new }
    ensures may { OnOk result
        (AreActable (S.state store.old).format (length (S.state store.old).pages) pages.now) }
    ensures done { OnOk result (S.state store.new ≡ after_act pages.now (S.state store.old)) }
    ensures number { IfOk result (λ n. n ≡ suc (S.state store.old).acts) }
    ensures refused { OnErr result (S.state store.new ≡ S.state store.old) }
    ensures faults { IfErr result (HasCause causes_of_writing_any) }
    ensures cause { AreActable (S.state store.old).format
        (length (S.state store.old).pages) pages.now
        → IfErr result (HasCause (causes_of_acting (S.state store.old) (S.backing store.old)
        (S.backing store.new) pages.now)) }
{
    if let Some(block) = find_misplaced(pages, store.used(), store.format()) {
        return Err(Fault::PageDamaged(block));
    }
    store.act(pages)
}

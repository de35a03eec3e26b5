//! Reading a page for a session.

ghost use Rattle.std.specs.Prelude.{◌≡◌, ◌<◌, ◌≤◌, true, false, Err, IfOk, IfErr, OnOk, OnErr, Some, Bool, ℕ, List, length, slice_get};
ghost use Rattle.index_model.specs.Faults.{HasCause};
ghost use Rattle.latch_table.specs.Holdings.{HasRoom, is_held_by_another};
ghost use Rattle.page_action.specs.States.{State, Continues};
ghost use Rattle.page_action.specs.Room.{KeepsRoom};
ghost use Rattle.page_action.specs.Stored.{IsStored};
ghost use Rattle.descent.specs.Causes.{causes_of_looked};
ghost use Rattle.tree_acts.specs.StepEffects.{causes_of_working, causes_of_reading_any};

use index_model::{Fault, Session};
use latch_table::Mode;
use page_action::PageStore;
use page_codec::Page;

/// Brings a page into memory that the session may latch shared, and latches nothing: [`PageStore::view`]
/// shows it. Refused with `Stopped` (3), `Blocked` (4), and with the faults of [`PageStore::fetch`].
pub fn read_shared<S: PageStore>(store: &mut S, session: Session, block: u32) -> Result<(), Fault>
    ensures steps { Continues S.follows store.old store.new }
    ensures state { S.state store.new ≡ S.state store.old }
    ensures has { OnOk result (S.has store.new block) }
    ensures used { OnOk result (block < length (S.state store.old).pages) }
    ensures inside { OnOk result (length (S.state store.old).pages ≤
        (S.state store.old).format.pages) }
    ensures alive { OnOk result
        ((S.backing store.new).stopped ≡ true → (S.backing store.old).stopped ≡ true) }
    ensures room { KeepsRoom (S.state store.old) (S.backing store.old) (S.backing store.new) }
    ensures stopped { (S.backing store.old).stopped ≡ true → result ≡ Err Fault.Stopped }
    ensures cause { HasRoom (S.state store.old).table session
        → IfErr result
        (HasCause (causes_of_looked (S.state store.old) (S.backing store.old)
        (S.backing store.new) session block)) }
    ensures faults { IfErr result (HasCause causes_of_reading_any) }
    ensures works { (S.backing store.new).honest ≡ true
        → HasRoom (S.state store.old).table session → block < length (S.state store.old).pages
        → (images : List ℕ) (frames : ℕ) (takes splits : Bool) → 1 ≤ frames
        → IfErr result (HasCause (causes_of_working (S.state store.old) (S.backing store.old)
        (S.backing store.new) session images frames takes splits)) }
{
    if store.is_stopped() {
        return Err(Fault::Stopped);
    }
    check_latch(store, session, block, Mode::Shared)?;
    store.fetch(block)
}

/// Asks whether another session's hold on the page conflicts, and takes no latch. A step is one moment: what
/// it latched for itself alone, it would let go at once. Refused with `Blocked` (4).
pub fn check_latch<S: PageStore>(
    store: &mut S,
    session: Session,
    block: u32,
    mode: Mode,
) -> Result<(), Fault>
    ensures steps { Continues S.follows store.old store.new }
    ensures state { S.state store.new ≡ S.state store.old }
    ensures backing { S.backing store.new ≡ S.backing store.old }
    ensures free { OnOk result
        (is_held_by_another (S.state store.old).table session block mode ≡ false) }
    ensures fault { IfErr result (λ f. f ≡ Fault.Blocked block) }
    ensures cause { HasRoom (S.state store.old).table session
        → OnErr result (is_held_by_another (S.state store.old).table session block mode ≡ true) }
{
    store.ask(session, block, mode)
}

/// Reads a page that the step may change: no other session holds it. Refused with `Stopped` (3), `Blocked`
/// (4), and with the faults of [`PageStore::page`].
pub fn read_exclusive<S: PageStore>(
    store: &mut S,
    session: Session,
    block: u32,
) -> Result<Page, Fault>
    ensures steps { Continues S.follows store.old store.new }
    ensures state { S.state store.new ≡ S.state store.old }
    ensures page { (S.backing store.new).honest ≡ true
        → IfOk result (λ p. slice_get (S.state store.old).pages block ≡ Some p) }
    ensures stored { IfOk result (IsStored (S.state store.old).format block) }
    ensures used { OnOk result (block < length (S.state store.old).pages) }
    ensures inside { OnOk result (length (S.state store.old).pages ≤
        (S.state store.old).format.pages) }
    ensures free { OnOk result
        (is_held_by_another (S.state store.old).table session block Mode.Exclusive ≡ false) }
    ensures alive { OnOk result
        ((S.backing store.new).stopped ≡ true → (S.backing store.old).stopped ≡ true) }
    ensures room { KeepsRoom (S.state store.old) (S.backing store.old) (S.backing store.new) }
    ensures stopped { (S.backing store.old).stopped ≡ true → result ≡ Err Fault.Stopped }
    ensures faults { IfErr result (HasCause causes_of_reading_any) }
    ensures cause { (S.backing store.new).honest ≡ true
        → HasRoom (S.state store.old).table session → block < length (S.state store.old).pages
        → (images : List ℕ) (frames : ℕ) (takes splits : Bool) → 1 ≤ frames
        → IfErr result (HasCause (causes_of_working (S.state store.old) (S.backing store.old)
        (S.backing store.new) session images frames takes splits)) }
{
    if store.is_stopped() {
        return Err(Fault::Stopped);
    }
    check_latch(store, session, block, Mode::Exclusive)?;
    store.page(block)
}

/// Reads two pages that no other session holds, and that the step may change, into two that stand ready.
/// Refused with `Stopped` (3), then with `Blocked` (4) for the first page before the second, then with the
/// faults of [`PageStore::fetch`] likewise: what stands in the two has no meaning then.
pub fn read_both<S: PageStore>(
    store: &mut S,
    session: Session,
    first: u32,
    second: u32,
    page: &mut Page,
    other: &mut Page,
) -> Result<(), Fault>
    ensures steps { Continues S.follows store.old store.new }
    ensures state { S.state store.new ≡ S.state store.old }
    ensures pages { (S.backing store.new).honest ≡ true
        → OnOk result ((slice_get (S.state store.old).pages first ≡ Some page.new)
        × (slice_get (S.state store.old).pages second ≡ Some other.new)) }
    ensures stored { OnOk result ((IsStored (S.state store.old).format first page.new)
        × (IsStored (S.state store.old).format second other.new)) }
    ensures used { OnOk result ((first < length (S.state store.old).pages)
        × (second < length (S.state store.old).pages)) }
    ensures inside { OnOk result (length (S.state store.old).pages ≤
        (S.state store.old).format.pages) }
    ensures free { OnOk result
        ((is_held_by_another (S.state store.old).table session first Mode.Exclusive ≡ false)
        × (is_held_by_another (S.state store.old).table session second Mode.Exclusive ≡ false)) }
    ensures alive { OnOk result
        ((S.backing store.new).stopped ≡ true → (S.backing store.old).stopped ≡ true) }
    ensures room { KeepsRoom (S.state store.old) (S.backing store.old) (S.backing store.new) }
    ensures stopped { (S.backing store.old).stopped ≡ true → result ≡ Err Fault.Stopped }
    ensures faults { IfErr result (HasCause causes_of_reading_any) }
    ensures cause { (S.backing store.new).honest ≡ true
        → HasRoom (S.state store.old).table session → first < length (S.state store.old).pages
        → second < length (S.state store.old).pages
        → (images : List ℕ) (frames : ℕ) (takes splits : Bool) → 1 ≤ frames
        → IfErr result (HasCause (causes_of_working (S.state store.old) (S.backing store.old)
        (S.backing store.new) session images frames takes splits)) }
{
    if store.is_stopped() {
        return Err(Fault::Stopped);
    }
    check_latch(store, session, first, Mode::Exclusive)?;
    check_latch(store, session, second, Mode::Exclusive)?;
    store.fetch(first)?;
    store.view(first).copy_to(page);
    match store.fetch(second) {
        Ok(()) => {
            store.view(second).copy_to(other);
            Ok(())
        }
        Err(fault) => Err(fault),
    }
}

//! Whether every action is owned by the call that asked for it.

ghost use Rattle.std.specs.Prelude.{◌≡◌, ◌↔◌, ◌+◌, ◌<◌, ◌≤◌, ◌^◌, IsTrue, suc, ℕ, Bool, Option};
ghost use Rattle.std.specs.List.{AllByRecursion};
ghost use Rattle.index_model.specs.Order.{is_among};
ghost use Rattle.index_model.specs.Actions.{Add, Remove, Shape, is_there_after as spec_is_there_after};
ghost use Rattle.index_model.specs.Calls.{end_of as spec_end_of, AreRemovable, MayAct, IsOwned, ActionsAreOwned};
ghost use Rattle.tests_reference.specs.Plain.{effect_of, action_of, history_of, ask_of, ending_of, call_of, meant_calls, has_row};
ghost use Rattle.tests_reference.specs.Named.{IsRemovable, HasRight, IsOwnedAt};

use crate::action::{PlainAction, PlainEffect};
use crate::bulk_delete::is_dead;
use crate::call::{PlainAsk, PlainCall, PlainEnding};
use crate::contents::{is_same, is_there_after};
use crate::scan::is_ascending;
use index_model::{Entry, RowAddr};

#[tactic(auto, using(crate::proofs::Moments::length_history_of))]
fn end_of(history: &[PlainAction], call: &PlainCall) -> usize
    ensures { result
        ≡ spec_end_of (history_of history.now) (ending_of call.now.ending) call.now.until }
{
    match &call.ending {
        PlainEnding::Runs => history.len(),
        _ => call.until,
    }
}

fn all_removable(
    start: &[Entry],
    history: &[PlainAction],
    before: usize,
    dead: &[RowAddr],
    entries: &[Entry],
) -> bool
    ensures { IsTrue result ↔
        AllByRecursion (IsRemovable (spec_is_there_after (is_among start.now) (history_of
        history.now) before) (has_row dead.now)) entries.now }
{
    match entries {
        [] => true,
        [first, rest @ ..] => {
            is_dead(dead, &first.row)
                && is_there_after(start, history, before, first)
                && all_removable(start, history, before, dead, rest)
        }
    }
}

#[tactic(auto, using(crate::proofs::Candidates::are_removable, crate::proofs::Candidates::each_removable))]
fn are_removable(
    start: &[Entry],
    history: &[PlainAction],
    before: usize,
    dead: &[RowAddr],
    entries: &[Entry],
) -> bool
    ensures { IsTrue result ↔
        AreRemovable (spec_is_there_after (is_among start.now) (history_of history.now)
        before) (has_row dead.now) entries.now }
{
    all_removable(start, history, before, dead, entries)
}

fn may_add(
    start: &[Entry],
    history: &[PlainAction],
    before: usize,
    entry: &Entry,
    ask: &PlainAsk,
    added: Option<usize>,
) -> bool
    requires { before + 1 < 2 ^ 64 }
    ensures { IsTrue result ↔
        MayAct (spec_is_there_after (is_among start.now) (history_of history.now) before) (suc
        before) (Add entry.now) (ask_of ask.now) added }
{
    match ask {
        PlainAsk::Inserts(asked) => {
            is_same(asked, entry)
                && added == Some(before + 1)
                && !is_there_after(start, history, before, entry)
        }
        PlainAsk::Scans(_) => false,
        PlainAsk::Deletes(_) => false,
        PlainAsk::Cleans => false,
    }
}

fn may_remove(
    start: &[Entry],
    history: &[PlainAction],
    before: usize,
    entries: &Vec<Entry>,
    ask: &PlainAsk,
    added: Option<usize>,
) -> bool
    ensures { IsTrue result ↔
        MayAct (spec_is_there_after (is_among start.now) (history_of history.now) before) (suc
        before) (Remove entries.now.items) (ask_of ask.now) added }
{
    match ask {
        PlainAsk::Inserts(_) => false,
        PlainAsk::Scans(_) => false,
        PlainAsk::Deletes(dead) => {
            !entries.is_empty()
                && is_ascending(entries)
                && are_removable(start, history, before, dead, entries)
        }
        PlainAsk::Cleans => false,
    }
}

fn may_reshape(ask: &PlainAsk) -> bool
    ensures { (was_there : Entry → Bool) (action : ℕ) (added : Option ℕ) → IsTrue result ↔
        MayAct was_there action Shape (ask_of ask.now) added }
{
    match ask {
        PlainAsk::Inserts(_) => true,
        PlainAsk::Scans(_) => false,
        PlainAsk::Deletes(_) => false,
        PlainAsk::Cleans => true,
    }
}

fn may_act(
    start: &[Entry],
    history: &[PlainAction],
    before: usize,
    effect: &PlainEffect,
    ask: &PlainAsk,
    added: Option<usize>,
) -> bool
    requires { before + 1 < 2 ^ 64 }
    ensures { IsTrue result ↔
        MayAct (spec_is_there_after (is_among start.now) (history_of history.now) before) (suc
        before) (effect_of effect.now) (ask_of ask.now) added }
{
    match effect {
        PlainEffect::Adds(entry) => may_add(start, history, before, entry, ask, added),
        PlainEffect::Removes(entries) => may_remove(start, history, before, entries, ask, added),
        PlainEffect::Reshapes => may_reshape(ask),
    }
}

fn has_right(
    start: &[Entry],
    history: &[PlainAction],
    before: usize,
    action: &PlainAction,
    call: &PlainCall,
) -> bool
    requires { before + 1 < 2 ^ 64 }
    ensures { IsTrue result ↔
        HasRight (is_among start.now) (history_of history.now) before (action_of action.now)
        (call_of call.now) }
{
    if before < call.began {
        return false;
    }
    if end_of(history, call) < before + 1 {
        return false;
    }
    may_act(
        start,
        history,
        before,
        &action.effect,
        &call.ask,
        call.added,
    )
}

fn is_owned(
    start: &[Entry],
    history: &[PlainAction],
    calls: &[PlainCall],
    before: usize,
    action: &PlainAction,
) -> bool
    requires { before + 1 < 2 ^ 64 }
    ensures { IsTrue result ↔
        IsOwned (is_among start.now) (history_of history.now) (meant_calls calls.now) before
        (action_of action.now) }
{
    match calls.get(action.by) {
        None => false,
        Some(call) => has_right(start, history, before, action, call),
    }
}

fn is_owned_at(start: &[Entry], history: &[PlainAction], calls: &[PlainCall], before: usize) -> bool
    requires { before + 1 < 2 ^ 64 }
    ensures { IsTrue result ↔
        IsOwnedAt (is_among start.now) (history_of history.now) (meant_calls calls.now) before }
{
    match history.get(before) {
        None => true,
        Some(action) => is_owned(start, history, calls, before, action),
    }
}

/// Whether every action is owned by the call that asked for it, the number of a call being its
/// place.
pub fn actions_are_owned(start: &[Entry], history: &[PlainAction], calls: &[PlainCall]) -> bool
    ensures { IsTrue result ↔
        ActionsAreOwned (is_among start.now) (history_of history.now) (meant_calls calls.now) }
{
    for before in 0..history.len() {
        if !is_owned_at(start, history, calls, before) {
            return false;
        }
    }
    true
}

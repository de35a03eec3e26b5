//! Which answers of a bulk delete are right.

ghost use Rattle.std.specs.Prelude.{◌≡◌, ◌↔◌, ◌<◌, ◌≤◌, ◌^◌, IsTrue, drop};
ghost use Rattle.std.specs.List.{AllByRecursion};
ghost use Rattle.index_model.specs.Order.{is_among};
ghost use Rattle.index_model.specs.Actions.{Add, is_there_after as spec_is_there_after};
ghost use Rattle.index_model.specs.Calls.{IsAddedIn, removed_count, removed_by, actions_between, IsBulkDeleteAnswer};
ghost use Rattle.tests_reference.specs.Plain.{effect_of, history_of, has_row};
ghost use Rattle.tests_reference.specs.Named.{added_by, IsRemoved, AreRemoved};

use crate::action::{PlainAction, PlainEffect};
use crate::contents::{first_actions, is_same, is_there_after};
use index_model::{Entry, RowAddr, VacuumStats};

/// Whether the row is one of the list.
pub fn is_dead(rows: &[RowAddr], row: &RowAddr) -> bool
    ensures { result ≡ has_row rows.now row.now }
{
    match rows {
        [] => false,
        [first, rest @ ..] => first.cmp(row).is_eq() || is_dead(rest, row),
    }
}

fn adds(effect: &PlainEffect, entry: &Entry) -> bool
    ensures { IsTrue result ↔ (effect_of effect.now ≡ Add entry.now) }
{
    match effect {
        PlainEffect::Adds(added) => is_same(added, entry),
        PlainEffect::Removes(_) => false,
        PlainEffect::Reshapes => false,
    }
}

fn is_added_in(actions: &[PlainAction], entry: &Entry) -> bool
    ensures { IsTrue result ↔ IsAddedIn (history_of actions.now) entry.now }
{
    match actions {
        [] => false,
        [first, rest @ ..] => adds(&first.effect, entry) || is_added_in(rest, entry),
    }
}

#[tactic(auto, using(crate::proofs::Moments::drop_history_of, crate::proofs::Moments::nothing_after))]
fn actions_after(history: &[PlainAction], k: usize) -> &[PlainAction]
    ensures { history_of result.now ≡ drop k (history_of history.now) }
{
    if k < history.len() {
        &history[k..]
    } else {
        &[]
    }
}

fn between(history: &[PlainAction], began: usize, ended: usize) -> &[PlainAction]
    ensures { history_of result.now ≡ actions_between began ended (history_of history.now) }
{
    actions_after(first_actions(history, ended), began)
}

fn is_gone(
    start: &[Entry],
    history: &[PlainAction],
    began: usize,
    ended: usize,
    dead: &[RowAddr],
    entry: &Entry,
) -> bool
    ensures { IsTrue result ↔
        IsRemoved (is_among start.now) (history_of history.now) began ended (has_row dead.now)
        entry.now }
{
    if !is_dead(dead, &entry.row) {
        return true;
    }
    if !is_there_after(start, history, began, entry) {
        return true;
    }
    if !is_there_after(start, history, ended, entry) {
        return true;
    }
    is_added_in(between(history, began, ended), entry)
}

fn all_gone(
    start: &[Entry],
    history: &[PlainAction],
    began: usize,
    ended: usize,
    dead: &[RowAddr],
    candidates: &[Entry],
) -> bool
    ensures { IsTrue result ↔
        AllByRecursion (IsRemoved (is_among start.now) (history_of history.now) began ended
        (has_row dead.now)) candidates.now }
{
    match candidates {
        [] => true,
        [first, rest @ ..] => {
            is_gone(start, history, began, ended, dead, first)
                && all_gone(start, history, began, ended, dead, rest)
        }
    }
}

fn all_added_gone(
    start: &[Entry],
    history: &[PlainAction],
    began: usize,
    ended: usize,
    dead: &[RowAddr],
    actions: &[PlainAction],
) -> bool
    ensures { IsTrue result ↔
        AllByRecursion (IsRemoved (is_among start.now) (history_of history.now) began ended
        (has_row dead.now)) (added_by (history_of actions.now)) }
{
    match actions {
        [] => true,
        [first, rest @ ..] => {
            let is_fine = match &first.effect {
                PlainEffect::Adds(entry) => is_gone(start, history, began, ended, dead, entry),
                _ => true,
            };
            is_fine && all_added_gone(start, history, began, ended, dead, rest)
        }
    }
}

#[tactic(auto, using(crate::proofs::Candidates::are_gone, crate::proofs::Candidates::each_gone))]
fn are_gone(
    start: &[Entry],
    history: &[PlainAction],
    began: usize,
    ended: usize,
    dead: &[RowAddr],
) -> bool
    ensures { IsTrue result ↔
        AreRemoved (is_among start.now) (history_of history.now) began ended (has_row dead.now) }
{
    all_gone(start, history, began, ended, dead, start)
        && all_added_gone(start, history, began, ended, dead, history)
}

fn removed(effect: &PlainEffect) -> u64
    ensures { result ≡ removed_count (effect_of effect.now) }
{
    match effect {
        PlainEffect::Adds(_) => 0,
        PlainEffect::Removes(entries) => entries.len() as u64,
        PlainEffect::Reshapes => 0,
    }
}

fn removes_so_many(number: usize, actions: &[PlainAction], count: u64) -> bool
    ensures { IsTrue result ↔ (count ≡ removed_by number (history_of actions.now)) }
{
    match actions {
        [] => count == 0,
        [first, rest @ ..] => {
            let here = if first.by == number {
                removed(&first.effect)
            } else {
                0
            };
            here <= count && removes_so_many(number, rest, count - here)
        }
    }
}

/// Whether this is the right answer of the bulk delete of this number over the rows of `dead`, when
/// it has finished: `began` and `ended` are the lengths of the history when it began and when it
/// ended.
pub fn is_bulk_delete_answer(
    start: &[Entry],
    history: &[PlainAction],
    number: usize,
    began: usize,
    ended: usize,
    dead: &[RowAddr],
    stats: &VacuumStats,
) -> bool
    ensures { IsTrue result ↔
        IsBulkDeleteAnswer (is_among start.now) (history_of history.now) number began ended
        (has_row dead.now) stats.now }
{
    are_gone(start, history, began, ended, dead)
        && removes_so_many(number, between(history, began, ended), stats.tuples_removed)
}

//! Which answers of an insert are right.

ghost use Rattle.std.specs.Prelude.{◌≡◌, ◌↔◌, ◌<◌, ◌≤◌, ◌^◌, IsTrue, Some, slice_get};
ghost use Rattle.index_model.specs.Order.{is_among};
ghost use Rattle.index_model.specs.Actions.{Add};
ghost use Rattle.index_model.specs.Calls.{IsAdded, AddIsRight, InsertMayFail, InsertEndsRight, IsInsertAnswer};
ghost use Rattle.tests_reference.specs.Plain.{action_of, history_of, ending_of};

use crate::action::{PlainAction, PlainEffect};
use crate::call::PlainEnding;
use crate::contents::{is_same, is_there_after, is_there_at_some_moment};
use index_model::{Entry, Fault};

fn is_add_of(action: &PlainAction, number: usize, entry: &Entry) -> bool
    ensures { IsTrue result ↔
        (action_of action.now ≡ record { by = number; effect = Add entry.now }) }
{
    match &action.effect {
        PlainEffect::Adds(added) => action.by == number && is_same(added, entry),
        PlainEffect::Removes(_) => false,
        PlainEffect::Reshapes => false,
    }
}

fn is_add_at(history: &[PlainAction], before: usize, number: usize, entry: &Entry) -> bool
    ensures { IsTrue result ↔
        (slice_get (history_of history.now) before ≡ Some (record {
          by = number;
          effect = Add
              entry.now;
        })) }
{
    match history.get(before) {
        None => false,
        Some(action) => is_add_of(action, number, entry),
    }
}

/// Whether the action of this number, from 1, is the Add of this call and entry, which wasn't there
/// just before.
pub fn is_added(
    start: &[Entry],
    history: &[PlainAction],
    number: usize,
    began: usize,
    ended: usize,
    entry: &Entry,
    action: usize,
) -> bool
    ensures { IsTrue result ↔
        IsAdded (is_among start.now) (history_of history.now) number began ended entry.now
        action }
{
    if action == 0 {
        return false;
    }
    let before = action - 1;
    if before < began || ended < action {
        return false;
    }
    if !is_add_at(history, before, number, entry) {
        return false;
    }
    !is_there_after(start, history, before, entry)
}

fn add_is_right(
    start: &[Entry],
    history: &[PlainAction],
    number: usize,
    began: usize,
    ended: usize,
    entry: &Entry,
    added: Option<usize>,
) -> bool
    ensures { IsTrue result ↔
        AddIsRight (is_among start.now) (history_of history.now) number began ended entry.now
        added }
{
    match added {
        None => true,
        Some(action) => is_added(start, history, number, began, ended, entry, action),
    }
}

fn insert_may_fail(
    start: &[Entry],
    history: &[PlainAction],
    began: usize,
    ended: usize,
    entry: &Entry,
    fault: Fault,
) -> bool
    requires { ended < 2 ^ 63 }
    ensures { IsTrue result ↔
        InsertMayFail (is_among start.now) (history_of history.now) began ended entry.now
        fault }
{
    match fault {
        Fault::Exists => is_there_at_some_moment(start, history, began, ended, entry),
        Fault::KeyExists(row) => {
            let other = Entry {
                key: entry.key,
                row,
            };
            row != entry.row && is_there_at_some_moment(start, history, began, ended, &other)
        }
        _ => true,
    }
}

fn insert_ends_right(
    start: &[Entry],
    history: &[PlainAction],
    began: usize,
    ended: usize,
    entry: &Entry,
    added: Option<usize>,
    ending: &PlainEnding,
) -> bool
    requires { ended < 2 ^ 63 }
    ensures { IsTrue result ↔
        InsertEndsRight (is_among start.now) (history_of history.now) began ended entry.now
        added (ending_of ending.now) }
{
    match ending {
        PlainEnding::Runs => true,
        PlainEnding::HasAdded(action, _) => added == Some(*action),
        PlainEnding::HasFinished => false,
        PlainEnding::HasVacuumed(_) => false,
        PlainEnding::IsGivenUp => true,
        PlainEnding::HasFailed(fault) => {
            added.is_none() && insert_may_fail(start, history, began, ended, entry, *fault)
        }
    }
}

/// The lengths of a history when a call began, and when it ended, or now.
#[derive(Clone, Copy)]
pub struct Interval {
    pub began: usize,
    pub ended: usize,
}

/// Whether this is the right answer of the insert of this number: `added` is the number of its Add, if it has
/// one.
pub fn is_insert_answer(
    start: &[Entry],
    history: &[PlainAction],
    number: usize,
    interval: Interval,
    entry: &Entry,
    added: Option<usize>,
    ending: &PlainEnding,
) -> bool
    requires { interval.ended < 2 ^ 63 }
    ensures { IsTrue result ↔
        IsInsertAnswer (is_among start.now) (history_of history.now) number interval.began
        interval.ended entry.now added (ending_of ending.now) }
{
    let Interval { began, ended } = interval;
    add_is_right(start, history, number, began, ended, entry, added)
        && insert_ends_right(start, history, began, ended, entry, added, ending)
}

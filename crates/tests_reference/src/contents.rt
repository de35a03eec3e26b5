//! What is there after a history of actions.

ghost use Rattle.std.specs.Prelude.{◌≡◌, ◌↔◌, ◌<◌, ◌≤◌, IsTrue, length, take, ◌^◌};
ghost use Rattle.index_model.specs.Order.{is_among as spec_is_among};
ghost use Rattle.index_model.specs.Actions.{said_of, last_said, contents_after, is_there_after as spec_is_there_after, ThereAtSomeMoment, ThereThroughout};
ghost use Rattle.tests_reference.specs.Plain.{effect_of, history_of};

use crate::action::{PlainAction, PlainEffect};
use index_model::Entry;

/// Whether the two are one entry.
#[tactic(auto, using(crate::proofs::Candidates::same_is, crate::proofs::Candidates::same_decides))]
pub fn is_same(a: &Entry, b: &Entry) -> bool
    ensures { IsTrue result ↔ (a.now ≡ b.now) }
{
    a.compare(b).is_eq()
}

/// Whether the entry is one of the list.
pub fn is_among(list: &[Entry], entry: &Entry) -> bool
    ensures { result ≡ spec_is_among list.now entry.now }
{
    match list {
        [] => false,
        [first, rest @ ..] => first.compare(entry).is_eq() || is_among(rest, entry),
    }
}

fn said(effect: &PlainEffect, entry: &Entry) -> Option<bool>
    ensures { result ≡ said_of (effect_of effect.now) entry.now }
{
    match effect {
        PlainEffect::Adds(added) => {
            if added.compare(entry).is_eq() {
                Some(true)
            } else {
                None
            }
        }
        PlainEffect::Removes(removed) => {
            if is_among(removed, entry) {
                Some(false)
            } else {
                None
            }
        }
        PlainEffect::Reshapes => None,
    }
}

fn last(history: &[PlainAction], entry: &Entry) -> Option<bool>
    ensures { result ≡ last_said (history_of history.now) entry.now }
{
    match history {
        [] => None,
        [first, later @ ..] => last(later, entry).or(said(&first.effect, entry)),
    }
}

/// Whether the entry is in the contents after the whole history, which began with the entries of
/// `start`.
pub fn contents_has(start: &[Entry], history: &[PlainAction], entry: &Entry) -> bool
    ensures { result ≡ contents_after (spec_is_among start.now) (history_of history.now) entry.now }
{
    match last(history, entry) {
        Some(said) => said,
        None => is_among(start, entry),
    }
}

#[tactic(auto, using(crate::proofs::Moments::take_history_of, crate::proofs::Moments::whole_history))]
pub fn first_actions(history: &[PlainAction], k: usize) -> &[PlainAction]
    ensures { history_of result.now ≡ take k (history_of history.now) }
{
    if k < history.len() {
        &history[..k]
    } else {
        history
    }
}

/// Whether the entry is there after the first `k` actions, or after all if there are fewer.
pub fn is_there_after(start: &[Entry], history: &[PlainAction], k: usize, entry: &Entry) -> bool
    ensures { result ≡ spec_is_there_after (spec_is_among start.now) (history_of history.now) k
        entry.now }
{
    contents_has(start, first_actions(history, k), entry)
}

/// Whether the entry is there after k actions, for some k of `began` to `ended`.
#[tactic(auto, using(crate::proofs::Moments::none_so_far, crate::proofs::Moments::one_more))]
pub fn is_there_at_some_moment(
    start: &[Entry],
    history: &[PlainAction],
    began: usize,
    ended: usize,
    entry: &Entry,
) -> bool
    requires { ended < 2 ^ 63 }
    ensures { IsTrue result ↔
        ThereAtSomeMoment (spec_is_among start.now) (history_of history.now) began ended
        entry.now }
{
    for k in began..ended + 1 {
        if is_there_after(start, history, k, entry) {
            return true;
        }
    }
    false
}

/// Whether the entry is there after k actions, for each k of `began` to `ended`.
#[tactic(auto, using(crate::proofs::Moments::none_so_far, crate::proofs::Moments::one_more))]
pub fn is_there_throughout(
    start: &[Entry],
    history: &[PlainAction],
    began: usize,
    ended: usize,
    entry: &Entry,
) -> bool
    requires { ended < 2 ^ 63 }
    ensures { IsTrue result ↔
        ThereThroughout (spec_is_among start.now) (history_of history.now) began ended
        entry.now }
{
    for k in began..ended + 1 {
        if !is_there_after(start, history, k, entry) {
            return false;
        }
    }
    true
}

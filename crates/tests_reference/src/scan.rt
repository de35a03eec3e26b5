//! Which answers of a scan are right.

ghost use Rattle.std.specs.Prelude.{◌≡◌, ◌↔◌, ◌<◌, ◌≤◌, ◌^◌, IsTrue};
ghost use Rattle.std.specs.List.{AllByRecursion};
ghost use Rattle.index_model.specs.Order.{is_among as spec_is_among, last_or, IsAscending, AscendsPast, bound_of, IsPast};
ghost use Rattle.index_model.specs.Calls.{IsReached, IsUpToLast, GivesOnly, GivesAll, IsScanAnswer, IsScanAnswerSoFar};
ghost use Rattle.tests_reference.specs.Plain.{history_of};
ghost use Rattle.tests_reference.specs.Named.{added_by, MayBeGiven, Reach, IsGivenIfOwed};

use crate::action::{PlainAction, PlainEffect};
use crate::contents::{is_among, is_there_at_some_moment, is_there_throughout};
use index_model::{Bound, Entry, Range};

fn ascends_past(low: &Option<Bound>, list: &[Entry]) -> bool
    ensures { IsTrue result ↔ AscendsPast low.now list.now }
{
    match list {
        [] => true,
        [first, rest @ ..] => {
            let low_is_below = match low {
                None => true,
                Some(low) => low.is_below(first),
            };
            low_is_below && ascends_past(&Some(first.bound()), rest)
        }
    }
}

/// Whether the list is strictly ascending.
pub fn is_ascending(list: &[Entry]) -> bool
    ensures { IsTrue result ↔ IsAscending list.now }
{
    ascends_past(&None, list)
}

fn is_up_to_last_or(last: &Option<Bound>, list: &[Entry], entry: &Entry) -> bool
    ensures { IsTrue result ↔ IsReached (last_or last.now list.now) entry.now }
{
    match list {
        [] => match last {
            None => false,
            Some(last) => !last.is_below(entry),
        },
        [first, rest @ ..] => is_up_to_last_or(&Some(first.bound()), rest, entry),
    }
}

/// Whether the entry isn't greater than the last of the list, which has one.
pub fn is_up_to_last(list: &[Entry], entry: &Entry) -> bool
    ensures { IsTrue result ↔ IsUpToLast list.now entry.now }
{
    is_up_to_last_or(&None, list, entry)
}

fn may_be_given(
    start: &[Entry],
    history: &[PlainAction],
    range: &Range,
    began: usize,
    now: usize,
    entry: &Entry,
) -> bool
    requires { now < 2 ^ 63 }
    ensures { IsTrue result ↔
        MayBeGiven (spec_is_among start.now) (history_of history.now) range.now began now
        entry.now }
{
    range.contains(entry) && is_there_at_some_moment(start, history, began, now, entry)
}

fn all_may_be_given(
    start: &[Entry],
    history: &[PlainAction],
    range: &Range,
    began: usize,
    now: usize,
    given: &[Entry],
) -> bool
    requires { now < 2 ^ 63 }
    ensures { IsTrue result ↔
        AllByRecursion (MayBeGiven (spec_is_among start.now) (history_of history.now)
        range.now began now) given.now }
{
    match given {
        [] => true,
        [first, rest @ ..] => {
            may_be_given(start, history, range, began, now, first)
                && all_may_be_given(start, history, range, began, now, rest)
        }
    }
}

/// A scan over a history: the entries at the start, the actions, what was asked, and the lengths of the
/// history when it began and when it ended, or now.
#[derive(Clone, Copy)]
struct ScanCase<'a> {
    start: &'a [Entry],
    history: &'a [PlainAction],
    range: &'a Range,
    began: usize,
    ended: usize,
}

fn is_given_if_owed(case: &ScanCase<'_>, whole: bool, given: &[Entry], entry: &Entry) -> bool
    requires { case.now.ended < 2 ^ 63 }
    ensures { IsTrue result ↔
        IsGivenIfOwed (spec_is_among case.now.start.now) (history_of case.now.history.now) case.now.range.now
        case.now.began case.now.ended given.now (Reach whole given.now) entry.now }
{
    if !whole && !is_up_to_last(given, entry) {
        return true;
    }
    if !case.range.contains(entry) {
        return true;
    }
    if !is_there_throughout(case.start, case.history, case.began, case.ended, entry) {
        return true;
    }
    is_among(given, entry)
}

fn all_given_if_owed(
    case: &ScanCase<'_>,
    whole: bool,
    given: &[Entry],
    candidates: &[Entry],
) -> bool
    requires { case.now.ended < 2 ^ 63 }
    ensures { IsTrue result ↔
        AllByRecursion (IsGivenIfOwed (spec_is_among case.now.start.now) (history_of case.now.history.now)
        case.now.range.now case.now.began case.now.ended given.now (Reach whole given.now)) candidates.now }
{
    match candidates {
        [] => true,
        [first, rest @ ..] => {
            is_given_if_owed(case, whole, given, first)
                && all_given_if_owed(case, whole, given, rest)
        }
    }
}

fn all_added_given_if_owed(
    case: &ScanCase<'_>,
    whole: bool,
    given: &[Entry],
    actions: &[PlainAction],
) -> bool
    requires { case.now.ended < 2 ^ 63 }
    ensures { IsTrue result ↔
        AllByRecursion (IsGivenIfOwed (spec_is_among case.now.start.now) (history_of case.now.history.now)
        case.now.range.now case.now.began case.now.ended given.now (Reach whole given.now)) (added_by (history_of
        actions.now)) }
{
    match actions {
        [] => true,
        [first, rest @ ..] => {
            let is_fine = match &first.effect {
                PlainEffect::Adds(entry) => { is_given_if_owed(case, whole, given, entry) }
                _ => true,
            };
            is_fine && all_added_given_if_owed(case, whole, given, rest)
        }
    }
}

#[tactic(auto, using(crate::proofs::Candidates::gives_only, crate::proofs::Candidates::all_may))]
fn gives_only(
    start: &[Entry],
    history: &[PlainAction],
    range: &Range,
    began: usize,
    now: usize,
    given: &[Entry],
) -> bool
    requires { now < 2 ^ 63 }
    ensures { IsTrue result ↔
        GivesOnly (spec_is_among start.now) (history_of history.now) range.now began now
        given.now }
{
    is_ascending(given) && all_may_be_given(start, history, range, began, now, given)
}

#[tactic(auto, using(crate::proofs::Candidates::gives_all, crate::proofs::Candidates::owed_of_all))]
fn gives_all(case: &ScanCase<'_>, whole: bool, given: &[Entry]) -> bool
    requires interval { case.now.began ≤ case.now.ended }
    requires short { case.now.ended < 2 ^ 63 }
    ensures { IsTrue result ↔
        GivesAll (spec_is_among case.now.start.now) (history_of case.now.history.now) case.now.range.now
        case.now.began case.now.ended given.now (Reach whole given.now) }
{
    all_given_if_owed(case, whole, given, case.start)
        && all_added_given_if_owed(case, whole, given, case.history)
}

/// Whether these are the right answer of a scan that has finished: `began` and `ended` are the
/// lengths of the history when it began and when it ended.
pub fn is_scan_answer(
    start: &[Entry],
    history: &[PlainAction],
    range: &Range,
    began: usize,
    ended: usize,
    given: &[Entry],
) -> bool
    requires interval { began ≤ ended }
    requires short { ended < 2 ^ 63 }
    ensures { IsTrue result ↔
        IsScanAnswer (spec_is_among start.now) (history_of history.now) range.now began ended
        given.now }
{
    gives_only(start, history, range, began, ended, given)
        && gives_all(
            &ScanCase {
                start,
                history,
                range,
                began,
                ended,
            },
            true,
            given,
        )
}

/// Whether these are a right answer of a scan so far: `now` is the present length of the history.
pub fn is_scan_answer_so_far(
    start: &[Entry],
    history: &[PlainAction],
    range: &Range,
    began: usize,
    now: usize,
    given: &[Entry],
) -> bool
    requires interval { began ≤ now }
    requires short { now < 2 ^ 63 }
    ensures { IsTrue result ↔
        IsScanAnswerSoFar (spec_is_among start.now) (history_of history.now) range.now began
        now given.now }
{
    gives_only(start, history, range, began, now, given)
        && gives_all(
            &ScanCase {
                start,
                history,
                range,
                began,
                ended: now,
            },
            false,
            given,
        )
}

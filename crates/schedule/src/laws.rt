//! The laws.

ghost use Rattle.schedule.specs.Bounds.{WorkIsBounded};
ghost use Rattle.schedule.specs.CallLists.{OneCallRuns, RefusedCallsFit};
ghost use Rattle.schedule.specs.Keys.{AddedKeysAreNew};
ghost use Rattle.schedule.specs.Numbers.{NumbersLeadOn};
ghost use Rattle.schedule.specs.Ready.{ReadyMayComeNext};
ghost use Rattle.schedule.specs.Spans.{LowsStay, CallsComeInTime, SplitsAreFinished, WorkIsSpent};
ghost use Rattle.schedule.specs.Staying.{SameStateFits};
ghost use Rattle.schedule.specs.Stands.{ScansStandOnLeaves, BulkDeletesWait, BegunBulkDeletesWait};

use page_action::PageStore;

/// Does nothing: its clause says that at each moment what is left to do for a session's call has a bound,
/// while the pages stay as they are.
pub fn work_is_bounded<S: PageStore>()
    ensures { WorkIsBounded S.PageStore }
{}

/// Does nothing: its clause says that the page that a scan stands on is a live leaf, at each moment that
/// fits.
pub fn scans_stand_on_leaves<S: PageStore>()
    ensures { ScansStandOnLeaves S.PageStore }
{}

/// Does nothing: its clauses say what a scan that stands on a leaf keeps other sessions' bulk deletes from.
/// One that began meanwhile doesn't finish while the scan stands there. One that hasn't come to the leaf
/// doesn't come past it.
pub fn bulk_deletes_wait_for_scans<S: PageStore>()
    ensures begun { BegunBulkDeletesWait S.PageStore }
    ensures running { BulkDeletesWait S.PageStore }
{}

/// Does nothing: its clause says that a session has one running call at most among the calls that tell of a
/// moment.
pub fn one_call_runs<S: PageStore>()
    ensures { OneCallRuns S.PageStore }
{}

/// Does nothing: its clause says that what fits a moment fits with a call more that was refused as it began.
pub fn refused_calls_fit<S: PageStore>()
    ensures { RefusedCallsFit S.PageStore }
{}

/// Does nothing: its clause says that if a running scan has an entry ready, there is a match beyond all
/// that it gave, which was there at some moment since it began.
pub fn ready_entries_may_come_next<S: PageStore>()
    ensures { ReadyMayComeNext S.PageStore }
{}

/// Does nothing: its clause says where the page numbers lead that a running call keeps, at each moment that
/// fits. Each leads by right links to the page that it is kept for, past none that `fresh` may name.
pub fn numbers_lead_on<S: PageStore>()
    ensures { NumbersLeadOn S.PageStore }
{}

/// Does nothing: its clause says that the low of a page doesn't rise over a run in which the page isn't
/// deleted.
pub fn lows_stay<S: PageStore>()
    ensures { LowsStay S.PageStore }
{}

/// Does nothing: its clause says how soon a call answers, if no page has an incomplete split and no action is
/// logged meanwhile. Let L be the root's level. The first entries of a scan are ready at its step L + 2, and
/// an insert whose leaf has room is added at its step L + 3.
pub fn calls_come_in_time<S: PageStore>()
    ensures { CallsComeInTime S.PageStore }
{}

/// Does nothing: its clause says that an insert leaves no split unfinished that it began. It says so over a
/// run in which no other session's event appends an action, unless a fault ends the insert or stands in its
/// answer, or the insert is given up.
pub fn splits_are_finished<S: PageStore>()
    ensures { SplitsAreFinished S.PageStore }
{}

/// Does nothing: its clause says that over a run in which no action is logged a session's call makes no more
/// steps than were left to do for it.
pub fn work_is_spent<S: PageStore>()
    ensures { WorkIsSpent S.PageStore }
{}

/// Does nothing: its clause says that if an insert added its entry to a unique index, no entry of its key
/// was there just before. That two entries never share a key is said of each moment that fits.
pub fn added_keys_are_new<S: PageStore>()
    ensures { AddedKeysAreNew S.PageStore }
{}

/// Does nothing: its clause says that what fits a moment fits it with a store that follows, with the same
/// pages and calls. A history that was kept is kept then, over crashes in between too.
pub fn same_state_fits<S: PageStore>()
    ensures { SameStateFits S.PageStore }
{}

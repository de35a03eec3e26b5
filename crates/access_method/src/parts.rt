//! Bulk deletes and cleanups that go on in parts, between other calls.

ghost use Rattle.std.specs.Prelude.{◌≡◌};
ghost use Rattle.access_method.specs.Parts.{IsPartAnswer, part_answer};

use crate::index::{Index, LEAST_ROOM, LentRows, free_seat, vacuum_seat};
use crate::rows::RowSet;
use crate::token::Sitter;
use index_model::{Fault, VacuumStats};
use page_action::PageStore;
use session_calls::{Answer, Request};
use std::mem;
use whole_calls::{begin, give_up, take_steps};

// What a part answers whose last step answered this.
fn told(answer: Answer) -> Result<Option<VacuumStats>, Fault>
    ensures { IsPartAnswer answer → part_answer result ≡ answer }
{
    match answer {
        Answer::Going => Ok(None),
        Answer::Finished(stats) => Ok(Some(stats)),
        Answer::Refused(fault) => Err(fault),
        _ => Err(Fault::NoSession),
    }
}

impl<S: PageStore> Index<S> {
    ghost use Rattle.std.specs.Prelude.{◌≡◌, ◌≢◌, ◌<◌, ℕ, false, None, Some, Ok, IfErr, IfOk, OnOk, OnErr, length};
    ghost use Rattle.page_action.specs.States.{Continues};
    ghost use Rattle.schedule.specs.Sessions.{op_of};
    ghost use Rattle.whole_calls.specs.Parts.{PartComesTo, PartMeans, RunsUnlessLast, part_outcome};
    ghost use Rattle.whole_calls.specs.Vacuuming.{Followed};
    ghost use Rattle.access_method.specs.Indexes.{ForEachIndexHistory, IndexStillFits, IndexIsRun, IndexMakes, SameTokens, cannot_begin};
    ghost use Rattle.access_method.specs.Tokens.{NoVacuumIsOpen, IsFreeSeat, IsVacuumSeat};
    ghost use Rattle.access_method.specs.Parts.{BulkDeleteIsOpened, CleanupIsOpened, FindsNoVacuum, NotBegunFor, PartCounts, PartCountsOn, PartIsCaused, PartKeeps, VacuumIsEnded, part_answer};

    // A session for a bulk delete or a cleanup that goes on in parts. Refused with `Stopped` (3), `NoSession`
    // (12) and `VacuumRunning` (11), in this order.
    fn place_for_vacuum(&self) -> Result<usize, Fault>
        ensures low { IfOk result (λ at. at < length self.now.seats) }
        ensures free { IfOk result (λ at. IsFreeSeat self.now.seats (Some at)) }
        ensures none { OnOk result (NoVacuumIsOpen self.now.seats) }
        ensures may { OnOk result (cannot_begin S.PageStore self.now ≡ false) }
        ensures cause { IfErr result (NotBegunFor S.PageStore self.now) }
    {
        if self.is_at_end() {
            return Err(Fault::Stopped);
        }
        let Some(at) = free_seat(&self.seats) else {
            return Err(Fault::NoSession);
        };
        match vacuum_seat(&self.seats) {
            Some(_) => Err(Fault::VacuumRunning),
            None => Ok(at),
        }
    }

    /// Begins a bulk delete of these rows, which goes on in parts: by [`Index::vacuum`], between other calls,
    /// until [`Index::end_vacuum`]. It has one of the sessions of open scans meanwhile. It takes the entries
    /// that are there now, and of those that are inserted meanwhile any. Refused with `Stopped` (3) where the
    /// log has failed or a counter is at its end, then with `NoSession` (12) where all 63 sessions are taken,
    /// then with `VacuumRunning` (11) where one goes on already: nothing is changed, and the rows are
    /// dropped.
    pub fn begin_bulk_delete(&mut self, rows: RowSet) -> Result<(), Fault>
        ensures steps { Continues S.follows self.old.store self.new.store }
        // Whatever fitted before, something fits after.
        ensures fits { ForEachIndexHistory S.PageStore self.old self.new
            (IndexStillFits S.PageStore self.new) }
        ensures opened { OnOk result (BulkDeleteIsOpened S.PageStore rows self.old self.new) }
        ensures refused { OnErr result (self.new ≡ self.old) }
        ensures cause { IfErr result (NotBegunFor S.PageStore self.old) }
    {
        let at = self.place_for_vacuum()?;
        let request = Request::Bulk(0);
        begin(
            &mut self.store,
            &mut self.calls,
            &[LentRows { rows: &rows }],
            at as u32,
            request,
        )?;
        self.rows = rows;
        self.seats[at] = Some(Sitter::Vacuum);
        Ok(())
    }

    /// Begins a cleanup that goes on in parts, as [`Index::begin_bulk_delete`] begins a bulk delete, and
    /// refused as that is.
    pub fn begin_cleanup(&mut self) -> Result<(), Fault>
        ensures steps { Continues S.follows self.old.store self.new.store }
        // Whatever fitted before, something fits after.
        ensures fits { ForEachIndexHistory S.PageStore self.old self.new
            (IndexStillFits S.PageStore self.new) }
        ensures opened { OnOk result (CleanupIsOpened S.PageStore self.old self.new) }
        ensures refused { OnErr result (self.new ≡ self.old) }
        ensures cause { IfErr result (NotBegunFor S.PageStore self.old) }
    {
        let at = self.place_for_vacuum()?;
        begin(
            &mut self.store,
            &mut self.calls,
            &[LentRows { rows: &self.rows }],
            at as u32,
            Request::Cleanup,
        )?;
        self.seats[at] = Some(Sitter::Vacuum);
        Ok(())
    }

    /// So many steps more of the bulk delete or cleanup that goes on in parts: each does one act at most, so
    /// a few pages. Answers None where it goes on after all of them, and its statistics once it has finished.
    /// Refused with `NoSession` (12) where none is open, or its call is over. Refused with `Blocked` (4)
    /// where an open scan stands on a leaf that it needs: its next part tries that step again, and so where a
    /// checkpoint before a step is refused. A step that is refused with `Io` (2), `Stopped` (3), `NoFrame`
    /// (10), or with `PageDamaged` (17) on pages that are no tree, ends its call. It stays open, with what it
    /// has done.
    pub fn vacuum(&mut self, steps: u32) -> Result<Option<VacuumStats>, Fault>
        ensures steps { Continues S.follows self.old.store self.new.store }
        // Whatever fitted before, something fits after.
        ensures fits { ForEachIndexHistory S.PageStore self.old self.new
            (IndexStillFits S.PageStore self.new) }
        ensures none { NoVacuumIsOpen self.old.seats → FindsNoVacuum result self.old self.new }
        ensures over { (session : ℕ) → IsVacuumSeat self.old.seats session
            → op_of self.old.calls session ≡ None → FindsNoVacuum result self.old self.new }
        ensures idle { steps ≡ 0
            → (self.new.store ≡ self.old.store) × (self.new.calls ≡ self.old.calls) }
        ensures runs { (session : ℕ) → IsVacuumSeat self.old.seats session
            → op_of self.old.calls session ≢ None
            → IndexIsRun S.PageStore session (PartMeans session (part_answer result))
            (part_outcome (part_answer result)) self.old self.new }
        // Whatever the pages are; and where it goes on, exactly so many steps were made.
        ensures made { (session : ℕ) → IsVacuumSeat self.old.seats session
            → op_of self.old.calls session ≢ None
            → IndexMakes S.PageStore session (PartComesTo steps (part_answer result)) self.old self.new }
        ensures keeps { (session : ℕ) → IsVacuumSeat self.old.seats session
            → ForEachIndexHistory S.PageStore self.old self.new (λ start history calls.
            PartKeeps S.PageStore session self.old self.new.store calls) }
        ensures counts { (session : ℕ) → IsVacuumSeat self.old.seats session
            → ForEachIndexHistory S.PageStore self.old self.new (λ start history calls.
            PartCounts S.PageStore session result self.new.store calls) }
        // So one beside which nobody changes pages tells how many entries are left.
        ensures entries { (session : ℕ) → IsVacuumSeat self.old.seats session
            → (what : Followed) → ForEachIndexHistory S.PageStore self.old self.new
            (λ start history calls. PartCountsOn S.PageStore what session result self.old self.new) }
        // It never answers `LogFull`, `SessionBusy` nor `VacuumRunning`.
        ensures cause { (session : ℕ) → IsVacuumSeat self.old.seats session
            → ForEachIndexHistory S.PageStore self.old self.new (λ start history calls.
            PartIsCaused S.PageStore session result self.old self.new.store calls) }
        // So where it is blocked the next part tries again.
        ensures lasts { (session : ℕ) → IsVacuumSeat self.old.seats session
            → RunsUnlessLast (op_of self.old.calls session) (op_of self.new.calls session)
            (part_answer result) }
        ensures tokens { SameTokens self.old self.new }
        ensures rows { self.new.rows ≡ self.old.rows }
    {
        let Some(at) = vacuum_seat(&self.seats) else {
            return Err(Fault::NoSession);
        };
        if !self.calls.is_running(at as u32) {
            return Err(Fault::NoSession);
        }
        told(take_steps(
            &mut self.store,
            &mut self.calls,
            &[LentRows { rows: &self.rows }],
            at as u32,
            steps,
            LEAST_ROOM,
        ))
    }

    /// Ends the bulk delete or cleanup that goes on in parts: one that hasn't finished is given up, and what
    /// it has removed stays removed. Its session is free then. Hands out its rows, for the caller to free; a
    /// cleanup has none. Refused with `NoSession` (12) if none is open.
    pub fn end_vacuum(&mut self) -> Result<RowSet, Fault>
        ensures steps { Continues S.follows self.old.store self.new.store }
        // Whatever fitted before, something fits after.
        ensures fits { ForEachIndexHistory S.PageStore self.old self.new
            (IndexStillFits S.PageStore self.new) }
        ensures none { NoVacuumIsOpen self.old.seats → FindsNoVacuum result self.old self.new }
        ensures ended { (session : ℕ) → IsVacuumSeat self.old.seats session
            → (result ≡ Ok self.old.rows) × VacuumIsEnded S.PageStore session self.old self.new }
    {
        let Some(at) = vacuum_seat(&self.seats) else {
            return Err(Fault::NoSession);
        };
        give_up(
            &mut self.store,
            &mut self.calls,
            &[LentRows { rows: &self.rows }],
            at as u32,
        );
        self.seats[at] = None;
        Ok(mem::replace(&mut self.rows, RowSet::new()))
    }
}

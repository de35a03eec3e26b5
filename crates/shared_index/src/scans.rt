//! Scans of a session, which give their entries by batches.

ghost use Rattle.std.specs.Prelude.{◌≡◌, [], false, Some, None, Ok, Err, IsSome, vec_len, vec_capacity};
ghost use Rattle.shared_index.specs.Scanning.{HasGivenBatch, StartsScan, ScanIsOver};
ghost use Rattle.shared_index.specs.Sessions.{number_of_seat, open_scan, session_view};

use crate::index::SharedIndex;
use crate::results::{told_of_beginning, told_of_scan};
use crate::scan_hold::ScanTurn;
use crate::session::SharedSession;
use index_model::{DeadRows, Entry, Fault, Range};
use page_action::PageStore;
use session_calls::Answer;
use session_seats::SessionGroup;
use shared_world::{OriginOn, SessionTurn};
use std::sync::Wait;
use std::time::Clock;

impl<J: SessionGroup> SharedSession<J> {
    /// Begins a scan of this range. It is open until a batch answers that it is over, or it is left. If one
    /// is open already, refused with `SessionBusy` (13), and that one stays as it was. Else refused as
    /// `access_method::Index::ambeginscan` is.
    pub fn scan<S: PageStore, T: DeadRows + Drop, R: Wait>(
        &mut self,
        rt: &R,
        index: &SharedIndex<S, T, J>,
        range: Range,
    ) -> Result<(), Fault>
    where
        J: OriginOn<S>,
        ensures session { number_of_seat self.new.seat ≡ number_of_seat self.old.seat }
        ensures busy { IsSome (open_scan self.old.seat)
            → (result ≡ Err Fault.SessionBusy) × (self.new ≡ self.old) }
        ensures begun { open_scan self.old.seat ≡ None
            → StartsScan range result (session_view self.old.seat) (session_view self.new.seat) }
    {
        if self.is_scanning() {
            return Err(Fault::SessionBusy);
        }
        let SharedSession {
            seat,
            scan,
            patience: _,
        } = self;
        let Some(mine) = seat.take() else {
            unreachable!()
        };
        let SessionTurn {
            seat: mine,
            answer,
            over,
        } = index.begin_scan(rt, mine, range);
        *seat = Some(mine);
        if over {
            *scan = None;
            return told_of_beginning(answer);
        }
        *scan = Some(0);
        Ok(())
    }

    /// Puts the next entries of the open scan behind those of `given`, as many as it has room for, and
    /// answers whether the scan is over, with all given. A page that another session holds is waited for.
    ///
    /// Each refusal but these ends the scan; what it gave before stands in `given`:
    ///
    /// - `NoSession` (12): no scan is open;
    /// - `Blocked` (4): it was blocked for as long as the session's patience. It stays open, and the next
    ///   batch goes on;
    /// - `BadLimits` (18): the scan has given 4,294,967,294 entries, which is the most. It stays open.
    pub fn batch<S: PageStore, T: DeadRows + Drop, R: Wait + Clock>(
        &mut self,
        rt: &R,
        index: &SharedIndex<S, T, J>,
        given: &mut Vec<Entry>,
    ) -> Result<bool, Fault>
    where
        J: OriginOn<S>,
        ensures session { number_of_seat self.new.seat ≡ number_of_seat self.old.seat }
        ensures none { open_scan self.old.seat ≡ None → (result ≡ Err Fault.NoSession)
            × (self.new ≡ self.old) × (given.new ≡ given.old) }
        ensures gave { IsSome (open_scan self.old.seat) → HasGivenBatch result given.old.items
            given.new.items (session_view self.old.seat) (session_view self.new.seat) }
        ensures room { vec_capacity given.new ≡ vec_capacity given.old }
        ensures full { result ≡ Ok false → vec_len given.new ≡ vec_capacity given.new }
    {
        let Some(count) = self.scan else {
            return Err(Fault::NoSession);
        };
        let SharedSession {
            seat,
            scan,
            patience,
        } = self;
        let Some(mine) = seat.take() else {
            unreachable!()
        };
        let ScanTurn {
            seat: mine,
            count,
            over,
            blocked,
        } = index.batch(rt, mine, count, given, *patience);
        *seat = Some(mine);
        if let Some(answer) = over {
            *scan = None;
            return told_of_scan(answer);
        }
        *scan = Some(count);
        if let Some(page) = blocked {
            return Err(Fault::Blocked(page));
        }
        if given.len() < given.capacity() {
            return Err(Fault::BadLimits);
        }
        Ok(false)
    }

    /// Gives the open scan up. If none is open, refused with `NoSession` (12).
    pub fn leave_scan<S: PageStore, T: DeadRows + Drop, R: Wait>(
        &mut self,
        rt: &R,
        index: &SharedIndex<S, T, J>,
    ) -> Result<(), Fault>
    where
        J: OriginOn<S>,
        ensures session { number_of_seat self.new.seat ≡ number_of_seat self.old.seat }
        ensures none { open_scan self.old.seat ≡ None
            → (result ≡ Err Fault.NoSession) × (self.new ≡ self.old) }
        ensures left { IsSome (open_scan self.old.seat) → ScanIsOver Answer.Ended []
            (session_view self.old.seat) (session_view self.new.seat) }
    {
        let Some(count) = self.scan else {
            return Err(Fault::NoSession);
        };
        let SharedSession {
            seat,
            scan,
            patience: _,
        } = self;
        let Some(mine) = seat.take() else {
            unreachable!()
        };
        let mine = index.end_scan(rt, mine, count);
        *seat = Some(mine);
        *scan = None;
        Ok(())
    }
}

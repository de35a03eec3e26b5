//! A session of a shared index.

ghost use Rattle.std.specs.Prelude.{◌≡◌, ◌<◌, true, false, Some, None, Err, IsSome, IfOk, IfErr, OnErr};
ghost use Rattle.std.specs.Option.{ForSome};
ghost use Rattle.session_seats.specs.Seats.{view_of};
ghost use Rattle.session_seats.specs.declared.job.Job.{Job as Asked};
ghost use Rattle.shared_world.specs.Rows.{rows_in};
ghost use Rattle.shared_index.specs.Results.{told_of_insert, told_of_upkeep, told_of_vacuum};
ghost use Rattle.shared_index.specs.Scanning.{SeatScans};
ghost use Rattle.shared_index.specs.Sessions.{HasDeletedRows, HasHadCall, HasTold, HasToldOrBlocked, IsNoScan, IsNotPut, SeatRests, calls_had, number_of_seat, open_scan};

use crate::index::{CallEnd, SharedIndex};
use crate::results::{told_of_insert, told_of_upkeep, told_of_vacuum};
use index_model::{DeadRows, Entry, Fault, VacuumStats};
use page_action::PageStore;
use session_calls::Answer;
use session_seats::{SessionGroup, SessionSeat};
use shared_world::{Job, OriginOn};
use std::sync::Wait;
use std::time::{Clock, Duration};
use whole_calls::Inserted;
use world::NotPut;

/// A session of a shared index. Who has it makes its calls, one at a time, and knows which it has had. While
/// a scan is open in it, each other call is refused with `SessionBusy` (13), and nothing is changed.
#[derive(Drop)]
pub struct SharedSession<J: SessionGroup> {
    pub(crate) seat: Option<SessionSeat<J>>,
    /// How many entries the scan that is open has given.
    pub(crate) scan: Option<u32>,
    /// How long a call that is blocked waits for others; if this is none, without a limit.
    pub(crate) patience: Option<Duration>,
    pub ghost there: { IsSome seat },
    pub ghost rests: { scan ≡ None → SeatRests seat },
    pub ghost scans: { ForSome scan (λ count. SeatScans count seat) },
}

/// What a bulk delete leaves whose rows its session handed in.
#[derive(Drop)]
pub struct RowsDeleted<T> {
    /// Its statistics, or a refusal.
    pub told: Result<VacuumStats, Fault>,
    /// The set that was at its place before.
    pub was: T,
}

/// The session of this seat.
pub fn seated<J: SessionGroup>(seat: SessionSeat<J>) -> SharedSession<J>
    requires idle { (view_of seat.pass).call ≡ None }
    ensures { result.seat ≡ Some seat }
{
    SharedSession {
        seat: Some(seat),
        scan: None,
        patience: None,
    }
}

impl<J: SessionGroup> SharedSession<J> {
    /// Its number.
    pub fn number(&self) -> u32
        ensures { result ≡ number_of_seat self.now.seat }
    {
        match &self.seat {
            Some(seat) => seat.session,
            None => 0,
        }
    }

    /// Whether a scan is open.
    pub fn is_scanning(&self) -> bool
        ensures open { result ≡ true → IsSome (open_scan self.now.seat) }
        ensures rests { result ≡ false → open_scan self.now.seat ≡ None }
    {
        self.scan.is_some()
    }

    /// From now on a call that is blocked waits so long for others at most, from when it is blocked first;
    /// if this is none, as long as it takes. At first it is none. A bulk delete or a cleanup waits so for
    /// another one, too. Commits and checkpoints are never blocked.
    pub fn set_patience(&mut self, patience: Option<Duration>)
        ensures seat { self.new.seat ≡ self.old.seat }
    {
        self.patience = patience;
    }

    // A whole call: it begins, goes on until it is over or given up, and answers. If it was given up, there
    // is the page by which it was blocked.
    fn call<S: PageStore, T: DeadRows + Drop, R: Wait + Clock>(
        &mut self,
        rt: &R,
        index: &SharedIndex<S, T, J>,
        asked: Job,
    ) -> (u32, Answer)
    where
        J: OriginOn<S>,
        requires rests { open_scan self.old.seat ≡ None }
        requires writes { IsNoScan asked }
        ensures session { number_of_seat self.new.seat ≡ number_of_seat self.old.seat }
        ensures rests { open_scan self.new.seat ≡ None }
        ensures told { HasHadCall asked result.1 (calls_had self.old.seat) (calls_had self.new.seat) }
    {
        let SharedSession {
            seat,
            scan,
            patience,
        } = self;
        *scan = None;
        let Some(mine) = seat.take() else {
            unreachable!()
        };
        let CallEnd {
            seat: mine,
            answer,
            page,
        } = index.call(rt, mine, asked, *patience);
        *seat = Some(mine);
        (page, answer)
    }

    /// Inserts the entry, and answers by which action. A page that another session holds is waited for, as
    /// long as the session's patience. Then it is given up, and refused with `Blocked` (4); but once the
    /// entry is added, it waits as long as it takes. Else refused as `access_method::Index::aminsert` is.
    pub fn insert<S: PageStore, T: DeadRows + Drop, R: Wait + Clock>(
        &mut self,
        rt: &R,
        index: &SharedIndex<S, T, J>,
        entry: Entry,
    ) -> Result<Inserted, Fault>
    where
        J: OriginOn<S>,
        ensures session { number_of_seat self.new.seat ≡ number_of_seat self.old.seat }
        ensures busy { IsSome (open_scan self.old.seat)
            → (result ≡ Err Fault.SessionBusy) × (self.new ≡ self.old) }
        ensures told { open_scan self.old.seat ≡ None
            → HasToldOrBlocked (Asked.Insert entry) told_of_insert result
            (calls_had self.old.seat) (calls_had self.new.seat) }
        ensures scan { open_scan self.new.seat ≡ open_scan self.old.seat }
    {
        if self.is_scanning() {
            return Err(Fault::SessionBusy);
        }
        let (page, answer) = self.call(rt, index, Job::Insert(entry));
        told_of_insert(page, answer)
    }

    /// Deletes every entry whose row is in the set at this place among the world's sets, and answers
    /// statistics. Inserts and scans of others go on beside it. Another bulk delete or cleanup is waited
    /// for, as long as the session's patience; then refused with `VacuumRunning` (11). Refused with
    /// `NoSession` (12) if there is no such set, and for place 0, at which `delete_rows` puts. Refused with
    /// `Blocked` (4) if it was given up, blocked for as long as the session's patience: what it has deleted
    /// stays deleted.
    pub fn bulk_delete<S: PageStore, T: DeadRows + Drop, R: Wait + Clock>(
        &mut self,
        rt: &R,
        index: &SharedIndex<S, T, J>,
        set: u32,
    ) -> Result<VacuumStats, Fault>
    where
        J: OriginOn<S>,
        ensures session { number_of_seat self.new.seat ≡ number_of_seat self.old.seat }
        ensures busy { IsSome (open_scan self.old.seat)
            → (result ≡ Err Fault.SessionBusy) × (self.new ≡ self.old) }
        ensures spare { open_scan self.old.seat ≡ None → set ≡ 0
            → (result ≡ Err Fault.NoSession) × (self.new ≡ self.old) }
        ensures told { open_scan self.old.seat ≡ None → 0 < set
            → HasToldOrBlocked (Asked.Bulk set) told_of_vacuum result
            (calls_had self.old.seat) (calls_had self.new.seat) }
        ensures scan { open_scan self.new.seat ≡ open_scan self.old.seat }
    {
        if self.is_scanning() {
            return Err(Fault::SessionBusy);
        }
        if set == 0 {
            return Err(Fault::NoSession);
        }
        let (page, answer) = self.call(rt, index, Job::Bulk(set));
        told_of_vacuum(page, answer)
    }

    // A bulk delete of the rows of this set.
    fn delete<S: PageStore, T: DeadRows + Drop, R: Wait + Clock>(
        &mut self,
        rt: &R,
        index: &SharedIndex<S, T, J>,
        set: T,
    ) -> Result<RowsDeleted<T>, NotPut<T>>
    where
        J: OriginOn<S>,
        requires rests { open_scan self.old.seat ≡ None }
        ensures session { number_of_seat self.new.seat ≡ number_of_seat self.old.seat }
        ensures rests { open_scan self.new.seat ≡ None }
        ensures told { IfOk result (λ done. HasDeletedRows (rows_in (T.is_in set)) done.told
            (calls_had self.old.seat) (calls_had self.new.seat)) }
        ensures refused { OnErr result (calls_had self.new.seat ≡ calls_had self.old.seat) }
        ensures given_back { IfErr result (λ not_put. not_put.set ≡ set) }
        ensures cause { IfErr result (λ not_put. IsNotPut J.handed not_put.fault) }
    {
        let SharedSession {
            seat,
            scan,
            patience,
        } = self;
        *scan = None;
        let Some(mine) = seat.take() else {
            unreachable!()
        };
        match index.delete_rows(rt, mine, set, *patience) {
            Ok((end, was)) => {
                let CallEnd {
                    seat: mine,
                    answer,
                    page,
                } = end;
                *seat = Some(mine);
                let told = told_of_vacuum(page, answer);
                Ok(RowsDeleted { told, was })
            }
            Err((mine, not_put)) => {
                *seat = Some(mine);
                Err(not_put)
            }
        }
    }

    /// Deletes every entry whose row is in this set, as `bulk_delete` does. The set takes the first place
    /// among the world's sets, which is spare, until another is put there; the one that was there is handed
    /// out.
    ///
    /// Refused with the set given back, and no call made: with `SessionBusy` (13) while a scan is open; with
    /// `NoSession` (12), if the world has no sets; with `VacuumRunning` (11), if another bulk delete or a
    /// cleanup ran for as long as the session's patience. What the bulk delete itself is refused with, once
    /// its set is put, is told beside the set that was there.
    pub fn delete_rows<S: PageStore, T: DeadRows + Drop, R: Wait + Clock>(
        &mut self,
        rt: &R,
        index: &SharedIndex<S, T, J>,
        set: T,
    ) -> Result<RowsDeleted<T>, NotPut<T>>
    where
        J: OriginOn<S>,
        ensures session { number_of_seat self.new.seat ≡ number_of_seat self.old.seat }
        ensures busy { IsSome (open_scan self.old.seat)
            → (result ≡ Err (record { fault = Fault.SessionBusy; set = set })) × (self.new ≡ self.old) }
        ensures told { IfOk result (λ done. HasDeletedRows (rows_in (T.is_in set)) done.told
            (calls_had self.old.seat) (calls_had self.new.seat)) }
        ensures refused { OnErr result (calls_had self.new.seat ≡ calls_had self.old.seat) }
        ensures given_back { IfErr result (λ not_put. not_put.set ≡ set) }
        ensures cause { open_scan self.old.seat ≡ None
            → IfErr result (λ not_put. IsNotPut J.handed not_put.fault) }
        ensures scan { open_scan self.new.seat ≡ open_scan self.old.seat }
    {
        if self.is_scanning() {
            return Err(NotPut {
                fault: Fault::SessionBusy,
                set,
            });
        }
        self.delete(rt, index, set)
    }

    /// Deletes empty leaves, and answers statistics. Inserts and scans of others go on beside it. Another
    /// bulk delete or cleanup is waited for, as long as the session's patience; then refused with
    /// `VacuumRunning` (11). Refused with `Blocked` (4) if it was given up, blocked for as long as the
    /// session's patience: what it has deleted stays deleted.
    pub fn clean_up<S: PageStore, T: DeadRows + Drop, R: Wait + Clock>(
        &mut self,
        rt: &R,
        index: &SharedIndex<S, T, J>,
    ) -> Result<VacuumStats, Fault>
    where
        J: OriginOn<S>,
        ensures session { number_of_seat self.new.seat ≡ number_of_seat self.old.seat }
        ensures busy { IsSome (open_scan self.old.seat)
            → (result ≡ Err Fault.SessionBusy) × (self.new ≡ self.old) }
        ensures told { open_scan self.old.seat ≡ None
            → HasToldOrBlocked Asked.Cleanup told_of_vacuum result
            (calls_had self.old.seat) (calls_had self.new.seat) }
        ensures scan { open_scan self.new.seat ≡ open_scan self.old.seat }
    {
        if self.is_scanning() {
            return Err(Fault::SessionBusy);
        }
        let (page, answer) = self.call(rt, index, Job::Cleanup);
        told_of_vacuum(page, answer)
    }

    /// Makes all actions durable, and answers how many there were. Waits before for those that committed
    /// with it last, as long as that took, and after for those that commit with it: so commits share a
    /// force. Refused with `Io` (2) and `Stopped` (3).
    pub fn commit<S: PageStore, T: DeadRows + Drop, R: Wait + Clock>(
        &mut self,
        rt: &R,
        index: &SharedIndex<S, T, J>,
    ) -> Result<u64, Fault>
    where
        J: OriginOn<S>,
        ensures session { number_of_seat self.new.seat ≡ number_of_seat self.old.seat }
        ensures busy { IsSome (open_scan self.old.seat)
            → (result ≡ Err Fault.SessionBusy) × (self.new ≡ self.old) }
        ensures told { open_scan self.old.seat ≡ None → HasTold Asked.Commit told_of_upkeep result
            (calls_had self.old.seat) (calls_had self.new.seat) }
        ensures scan { open_scan self.new.seat ≡ open_scan self.old.seat }
    {
        if self.is_scanning() {
            return Err(Fault::SessionBusy);
        }
        index.rounds.before(rt);
        let (_, answer) = self.call(rt, index, Job::Commit);
        index.rounds.after(rt);
        told_of_upkeep(answer)
    }

    /// Makes all actions durable, writes every changed page to its place, and answers how many actions there
    /// were. Refused with `Io` (2) and `Stopped` (3).
    pub fn checkpoint<S: PageStore, T: DeadRows + Drop, R: Wait + Clock>(
        &mut self,
        rt: &R,
        index: &SharedIndex<S, T, J>,
    ) -> Result<u64, Fault>
    where
        J: OriginOn<S>,
        ensures session { number_of_seat self.new.seat ≡ number_of_seat self.old.seat }
        ensures busy { IsSome (open_scan self.old.seat)
            → (result ≡ Err Fault.SessionBusy) × (self.new ≡ self.old) }
        ensures told { open_scan self.old.seat ≡ None → HasTold Asked.Checkpoint told_of_upkeep result
            (calls_had self.old.seat) (calls_had self.new.seat) }
        ensures scan { open_scan self.new.seat ≡ open_scan self.old.seat }
    {
        if self.is_scanning() {
            return Err(Fault::SessionBusy);
        }
        let (_, answer) = self.call(rt, index, Job::Checkpoint);
        told_of_upkeep(answer)
    }
}

//! What lies under the lock of a shared index.

ghost use Rattle.std.specs.Prelude.{◌≡◌, None, Some, IfOk, IfErr};
ghost use Rattle.session_seats.specs.Seats.{view_of};
ghost use Rattle.session_seats.specs.declared.job.Job.{Job as Asked};
ghost use Rattle.world.specs.Worlds.{inside};
ghost use Rattle.shared_world.specs.Leaving.{RunsItsCall, call_in};
ghost use Rattle.shared_world.specs.Rows.{rows_in, set_asked};
ghost use Rattle.shared_index.specs.Sessions.{HoldBegins, HoldLeaves, IsNoScan, IsNotPut};

use crate::hold::{HoldEnd, begin_and_go_on, go_on};
use index_model::{DeadRows, Fault};
use page_action::PageStore;
use session_seats::SessionSeat;
use shared_world::{Job, Live, OriginOn};
use world::NotPut;

/// The world with its sessions, and the session whose bulk delete or cleanup runs.
#[derive(Drop)]
pub struct LockedIndex<S: PageStore, T: DeadRows + Drop, J: OriginOn<S>> {
    pub live: Live<S, T, J>,
    pub vacuums: Option<u32>,
    pub ghost spare: { J.handed.spare ≡ Some 0 },
}

/// Whether a call is a bulk delete or a cleanup, of which one runs at a time.
pub fn is_vacuum(asked: &Job) -> bool {
    matches!(asked, Job::Bulk(_) | Job::Cleanup)
}

impl<S: PageStore, T: DeadRows + Drop, J: OriginOn<S>> LockedIndex<S, T, J> {
    /// A hold that begins a call of the session.
    pub fn begin(&mut self, seat: SessionSeat<J>, asked: Job) -> HoldEnd<J>
        requires idle { (view_of seat.pass).call ≡ None }
        requires writes { IsNoScan asked }
        ensures session { result.seat.session ≡ seat.session }
        ensures told { HoldBegins asked
            (rows_in (set_asked (inside T.DeadRows self.old.live.world).sets asked)) result.answer
            (view_of seat.pass) (view_of result.seat.pass) }
    {
        let session = seat.session;
        let vacuums = is_vacuum(&asked);
        let end = begin_and_go_on(&mut self.live, seat, asked);
        if vacuums && end.answer.is_none() {
            self.vacuums = Some(session);
        }
        end
    }

    /// A hold that puts a set at the spare place, which is the first, and begins a bulk delete of its rows.
    /// Hands out the set that was there. If it can't be put, nothing is begun, and it is given back with the
    /// seat.
    pub fn put_and_begin(
        &mut self,
        seat: SessionSeat<J>,
        set: T,
    ) -> Result<(HoldEnd<J>, T), (SessionSeat<J>, NotPut<T>)>
        requires idle { (view_of seat.pass).call ≡ None }
        ensures session { IfOk result (λ begun. begun.0.seat.session ≡ seat.session) }
        ensures told { IfOk result (λ begun. HoldBegins (Asked.Bulk 0) (rows_in (T.is_in set))
            begun.0.answer (view_of seat.pass) (view_of begun.0.seat.pass)) }
        ensures seat { IfErr result (λ refused. refused.0 ≡ seat) }
        ensures given_back { IfErr result (λ refused. refused.1.set ≡ set) }
        ensures cause { IfErr result (λ refused. IsNotPut J.handed refused.1.fault) }
    {
        if self.vacuums.is_some() {
            let fault = Fault::VacuumRunning;
            return Err((seat, NotPut { fault, set }));
        }
        match self.live.put_set(0, set) {
            Ok(was) => Ok((self.begin(seat, Job::Bulk(0)), was)),
            Err(not_put) => Err((seat, not_put)),
        }
    }

    /// A hold that goes on with the session's call. If it is to be given up, it is when it is blocked, unless
    /// its entry is added.
    pub fn go_on(&mut self, seat: SessionSeat<J>, gives_up: bool) -> HoldEnd<J>
        requires runs { RunsItsCall (view_of seat.pass) }
        requires writes { IsNoScan (call_in (view_of seat.pass)).asked }
        ensures session { result.seat.session ≡ seat.session }
        ensures told { HoldLeaves (call_in (view_of seat.pass)) result.answer
            (view_of seat.pass) (view_of result.seat.pass) }
    {
        let session = seat.session;
        let end = go_on(&mut self.live, seat, gives_up);
        if end.answer.is_some() && self.vacuums == Some(session) {
            self.vacuums = None;
        }
        end
    }
}

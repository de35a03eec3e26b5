//! The handle that threads share.

ghost use Rattle.std.specs.Prelude.{◌≡◌, ◌<◌, ◌≤◌, [], true, false, None, Some, IfOk, IfErr, vec_len, vec_capacity};
ghost use Rattle.session_seats.specs.Seats.{view_of};
ghost use Rattle.session_seats.specs.declared.job.Job.{Job as Asked};
ghost use Rattle.shared_world.specs.Leaving.{RunsItsCall, call_in};
ghost use Rattle.session_seats.specs.declared.call.PendingCall.{PendingCall as RunningCall};
ghost use Rattle.session_seats.specs.declared.seating.SessionView.{SessionView};
ghost use Rattle.shared_world.specs.Rows.{rows_in};
ghost use Rattle.shared_index.specs.Results.{told_of_vacuum};
ghost use Rattle.shared_index.specs.Scanning.{HasBegunScan, HasGivenMost, HasTakenMore, RunsScan, ScanIsOver, scan_room};
ghost use Rattle.shared_index.specs.Sessions.{HasDeletedRows, HasHadCall, HoldLeaves, HoldMayGoOn, IsNoScan, IsNotPut};

use crate::hold::HoldEnd;
use crate::locked::{LockedIndex, is_vacuum};
use crate::patience::Patience;
use crate::rounds::CommitRounds;
use crate::scan_hold::{ScanHold, ScanTurn, take};
use index_model::{DeadRows, Entry, Range};
use page_action::PageStore;
use session_calls::Answer;
use session_seats::{SessionGroup, SessionSeat};
use shared_world::{Job, Live, OriginOn, SessionTurn};
use std::sync::{Condvar, CondvarTimeouts, Mutex, MutexGuard, Wait};
use std::time::{Clock, Duration};
use world::NotPut;

/// An index that many threads use at once, each with a session of its own.
pub struct SharedIndex<S: PageStore, T: DeadRows + Drop, J: OriginOn<S>> {
    slot: Mutex<LockedIndex<S, T, J>>,
    // Rung by each hold that has moved.
    freed: Condvar,
    pub(crate) rounds: CommitRounds,
}

/// What a whole call leaves a session.
#[derive(Drop)]
pub struct CallEnd<J: SessionGroup> {
    pub seat: SessionSeat<J>,
    pub answer: Answer,
    /// If it was given up, the page by which it was blocked.
    pub page: u32,
}

impl<S: PageStore, T: DeadRows + Drop, J: OriginOn<S>> SharedIndex<S, T, J> {
    /// What threads share, with this under its lock, whose first set is a spare one.
    pub(crate) fn new(live: Live<S, T, J>) -> SharedIndex<S, T, J>
        requires spare { J.handed.spare ≡ Some 0 }
    {
        SharedIndex {
            slot: Mutex::new(LockedIndex {
                live,
                vacuums: None,
            }),
            freed: Condvar::new(),
            rounds: CommitRounds::new(),
        }
    }

    /// What lay under the lock.
    pub fn into_inner(self) -> Live<S, T, J> {
        let SharedIndex {
            slot,
            freed: _,
            rounds: _,
        } = self;
        let LockedIndex { live, vacuums: _ } = slot.into_inner();
        live
    }

    // Lets the lock go.
    fn let_go(&self, guard: MutexGuard<'_, LockedIndex<S, T, J>>, moved: bool) {
        drop(guard);
        if moved {
            self.freed.notify_all();
        }
    }

    // Lets the lock go, and waits until another hold has moved, but not longer than this. Answers whether
    // that is over.
    fn wait<R: Wait + Clock>(
        &self,
        rt: &R,
        guard: MutexGuard<'_, LockedIndex<S, T, J>>,
        moved: bool,
        left: Option<Duration>,
    ) -> bool {
        let seen = guard.live.moves;
        if moved {
            self.freed.notify_all();
        }
        let Some(left) = left else {
            let _guard = self
                .freed
                .wait_while(rt, guard, |held| held.live.moves == seen);
            return false;
        };
        let (_guard, timed) = self
            .freed
            .wait_timeout_while(rt, guard, left, |held| held.live.moves == seen);
        timed.timed_out()
    }

    // Waits until no bulk delete and no cleanup runs, but not beyond this patience.
    fn wait_for_vacuum<'b, R: Wait + Clock>(
        &'b self,
        rt: &R,
        guard: MutexGuard<'b, LockedIndex<S, T, J>>,
        patience: &mut Patience,
    ) -> MutexGuard<'b, LockedIndex<S, T, J>> {
        if guard.vacuums.is_none() {
            return guard;
        }
        let Some(left) = patience.left(rt) else {
            return self
                .freed
                .wait_while(rt, guard, |held| held.vacuums.is_some());
        };
        let (guard, _) = self
            .freed
            .wait_timeout_while(rt, guard, left, |held| held.vacuums.is_some());
        guard
    }

    // What follows a hold of a call that runs on: if it is blocked, it waits. Answers whether it is to be
    // given up.
    fn after<R: Wait + Clock>(
        &self,
        rt: &R,
        guard: MutexGuard<'_, LockedIndex<S, T, J>>,
        end: &HoldEnd<J>,
        patience: &mut Patience,
    ) -> bool {
        if end.blocked.is_none() || end.answer.is_some() {
            self.let_go(guard, end.moved);
            return false;
        }
        let left = if end.is_bound {
            None
        } else {
            patience.left(rt)
        };
        self.wait(rt, guard, end.moved, left)
    }

    // Goes on with a call that has begun, by holds, until it is over.
    fn finish<R: Wait + Clock>(
        &self,
        rt: &R,
        begun: HoldEnd<J>,
        is_late: bool,
        mut patience: Patience,
    ) -> CallEnd<J>
        requires runs { HoldMayGoOn begun.answer (view_of begun.seat.pass) }
        ensures session { result.seat.session ≡ begun.seat.session }
        ensures told { (p : RunningCall) (old : SessionView)
            → HoldLeaves p begun.answer old (view_of begun.seat.pass)
            → HoldLeaves p (Some result.answer) old (view_of result.seat.pass) }
    {
        let mut end = begun;
        let mut gives_up = is_late;
        for _ in rt.forever() {
            let HoldEnd {
                seat,
                answer,
                moved: _,
                blocked,
                is_bound: _,
            } = end;
            if let Some(answer) = answer {
                let page = blocked.unwrap_or(0);
                return CallEnd { seat, answer, page };
            }
            let mut guard = self.slot.lock(rt);
            end = guard.go_on(seat, gives_up);
            gives_up = self.after(rt, guard, &end, &mut patience);
        }
        unreachable!()
    }

    /// A bulk delete of the rows of this set, as `call` makes it: when no other bulk delete or cleanup runs,
    /// or at the end of the patience, the set is put at the spare place. The call begins in the same hold.
    /// Hands out the set that was there. If it can't be put, there is no call, and it is given back with the
    /// seat.
    pub(crate) fn delete_rows<R: Wait + Clock>(
        &self,
        rt: &R,
        seat: SessionSeat<J>,
        set: T,
        patience: Option<Duration>,
    ) -> Result<(CallEnd<J>, T), (SessionSeat<J>, NotPut<T>)>
        requires idle { (view_of seat.pass).call ≡ None }
        ensures session { IfOk result (λ done. done.0.seat.session ≡ seat.session) }
        ensures idle { IfOk result (λ done. (view_of done.0.seat.pass).call ≡ None) }
        ensures told { IfOk result (λ done. HasDeletedRows (rows_in (T.is_in set))
            (told_of_vacuum done.0.page done.0.answer)
            (view_of seat.pass).calls (view_of done.0.seat.pass).calls) }
        ensures seat { IfErr result (λ refused. refused.0 ≡ seat) }
        ensures given_back { IfErr result (λ refused. refused.1.set ≡ set) }
        ensures cause { IfErr result (λ refused. IsNotPut J.handed refused.1.fault) }
    {
        let mut patience = Patience::new(patience);
        let guard = self.slot.lock(rt);
        let mut guard = self.wait_for_vacuum(rt, guard, &mut patience);
        match guard.put_and_begin(seat, set) {
            Ok((begun, was)) => {
                let is_late = self.after(rt, guard, &begun, &mut patience);
                Ok((self.finish(rt, begun, is_late, patience), was))
            }
            Err(refused) => Err(refused),
        }
    }

    /// A whole call of the session, by holds of at most 1,024 steps, with the lock let go between them. If
    /// it is blocked for as long as this patience, it is given up, unless its entry is added. A bulk delete
    /// or a cleanup begins when no other runs, or at the end of the patience.
    pub(crate) fn call<R: Wait + Clock>(
        &self,
        rt: &R,
        seat: SessionSeat<J>,
        asked: Job,
        patience: Option<Duration>,
    ) -> CallEnd<J>
        requires idle { (view_of seat.pass).call ≡ None }
        requires writes { IsNoScan asked }
        ensures session { result.seat.session ≡ seat.session }
        ensures idle { (view_of result.seat.pass).call ≡ None }
        ensures told { HasHadCall asked result.answer
            (view_of seat.pass).calls (view_of result.seat.pass).calls }
    {
        let mut patience = Patience::new(patience);
        let mut guard = self.slot.lock(rt);
        if is_vacuum(&asked) {
            guard = self.wait_for_vacuum(rt, guard, &mut patience);
        }
        let begun = guard.begin(seat, asked);
        let is_late = self.after(rt, guard, &begun, &mut patience);
        self.finish(rt, begun, is_late, patience)
    }

    /// Begins a scan of the session. If that is refused, it is over.
    pub(crate) fn begin_scan<R: Wait>(
        &self,
        rt: &R,
        seat: SessionSeat<J>,
        range: Range,
    ) -> SessionTurn<J>
        requires idle { (view_of seat.pass).call ≡ None }
        ensures session { result.seat.session ≡ seat.session }
        ensures begun { result.over ≡ false
            → HasBegunScan range (view_of seat.pass) (view_of result.seat.pass) }
        ensures rests { result.over ≡ true → (view_of result.seat.pass).call ≡ None }
        ensures told { result.over ≡ true → HasHadCall (Asked.Scan range scan_room) result.answer
            (view_of seat.pass).calls (view_of result.seat.pass).calls }
    {
        let mut guard = self.slot.lock(rt);
        let room = u32::MAX;
        let turn = guard.live.begin(seat, Job::Scan { range, room });
        self.let_go(guard, true);
        turn
    }

    /// Entries of the session's scan, which has given so many, as many as there is room for, by holds of at
    /// most 1,024 events. Ends before if the scan is over or may give no more, or is blocked for as long as
    /// this patience.
    pub(crate) fn batch<R: Wait + Clock>(
        &self,
        rt: &R,
        seat: SessionSeat<J>,
        count: u32,
        given: &mut Vec<Entry>,
        patience: Option<Duration>,
    ) -> ScanTurn<J>
        requires runs { RunsScan count (view_of seat.pass) }
        ensures session { result.seat.session ≡ seat.session }
        ensures room { vec_capacity given.new ≡ vec_capacity given.old }
        ensures count { result.over ≡ None → RunsScan result.count (view_of result.seat.pass) }
        ensures most { result.over ≡ None → result.blocked ≡ None
            → vec_len given.new < vec_capacity given.new → HasGivenMost (view_of result.seat.pass) }
        ensures taken { HasTakenMore result.over given.old.items given.new.items
            (view_of seat.pass) (view_of result.seat.pass) }
    {
        let mut patience = Patience::new(patience);
        let mut mine = seat;
        let mut taken = count;
        for _ in rt.forever() {
            let mut guard = self.slot.lock(rt);
            let ScanHold {
                turn,
                goes_on,
                moved,
            } = take(&mut guard.live, mine, taken, given);
            let mut is_late = false;
            if goes_on && turn.blocked.is_some() {
                let left = patience.left(rt);
                is_late = self.wait(rt, guard, moved, left);
            } else {
                self.let_go(guard, moved);
            }
            if !goes_on || is_late {
                return turn;
            }
            let ScanTurn { seat, count, .. } = turn;
            mine = seat;
            taken = count;
        }
        unreachable!()
    }

    /// Gives the session's scan up, which has given so many entries.
    pub(crate) fn end_scan<R: Wait>(
        &self,
        rt: &R,
        seat: SessionSeat<J>,
        count: u32,
    ) -> SessionSeat<J>
        requires runs { RunsScan count (view_of seat.pass) }
        ensures session { result.session ≡ seat.session }
        ensures left { ScanIsOver Answer.Ended [] (view_of seat.pass) (view_of result.pass) }
    {
        let mut guard = self.slot.lock(rt);
        let seat = guard.live.end(seat);
        self.let_go(guard, true);
        seat
    }
}

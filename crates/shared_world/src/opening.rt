//! What lies under the lock as a run begins, and what is taken out at its end.

ghost use Rattle.std.specs.Prelude.{◌≡◌, ◌≤◌, ◌<◌, ◌+◌, [], ℕ, IfSome, None, length, replicate, Some, slice_get, vec_len, vec_capacity};
ghost use Rattle.crossbeam_queue.specs.Passes.{view};
ghost use Rattle.worker_seats.specs.Queue.{KnowsAll, jobs_in, sum_over, weigh};
ghost use Rattle.worker_seats.specs.Seats.{registry_of, known_by, notes_by};
ghost use Rattle.session_calls.specs.TheoremCalls.{DeadSets};
ghost use Rattle.world.specs.Worlds.{inside};
ghost use Rattle.shared_world.specs.Ended.{HasRun};
ghost use Rattle.shared_world.specs.Handed.{IsAsHanded};
ghost use Rattle.session_seats.specs.Seats.{registry_with, view_of};
ghost use Rattle.shared_world.specs.Notes.{jobs_of, notes_of};
ghost use Rattle.shared_world.specs.Seated.{IsSeatAt};
ghost use Rattle.shared_world.specs.Standing.{AreIdle, Stands};
ghost use Rattle.shared_world.specs.declared.record.Pending.{Pending as WaitingJob};

use crate::jobs::JobsOn;
use crate::live::Live;
use crate::record::{Pending, Record};
use crate::shared::Shared;
use index_model::DeadRows;
use page_action::PageStore;
use session_seats::{SessionDesk, SessionGroup, SessionSeat, open};
use std::sync::ledger::{Book, Share};
use worker_seats::{Desk, QueuePass, Seat, tally_up};
use world::World;

// Opens a seat for each of these sessions, in order.
fn open_seats<J: SessionGroup>(
    sessions: &mut SessionDesk<J>,
    seats: &mut Vec<Option<SessionSeat<J>>>,
    count: u32,
)
    requires first { view_of sessions.old.registry ≡ registry_with [] [] }
    requires empty { seats.old.items ≡ [] }
    requires room { count ≤ vec_capacity seats.old }
    ensures registry { view_of sessions.new.registry ≡ registry_with [] (replicate count None) }
    ensures seats { (sets : DeadSets) (session : ℕ) → session < count
        → IsSeatAt sets session (Some None) (slice_get seats.new.items session) }
{
    for session in 0..count {
        let seat = open(sessions, session);
        seats.push_reserved(Some(seat));
    }
}

/// What lies under the lock as a run begins: no job is recorded, and none runs.
pub fn first<S: PageStore, T: DeadRows + Drop, J: JobsOn<S>>(
    world: World<S, T>,
    history: Vec<Record>,
    pending: Vec<Option<Pending>>,
    mut seats: Vec<Option<SessionSeat<J>>>,
    book: Book<J>,
    desk: Desk<J>,
    mut sessions: SessionDesk<J>,
) -> Shared<S, T, J>
    requires stood { Stands S.PageStore J.stood J.kept_then J.followed (inside T.DeadRows world) }
    requires handed { IsAsHanded S.PageStore J.handed (inside T.DeadRows world) }
    requires stays { J.handed.spare ≡ None }
    requires rests { AreIdle world.calls.slots.items }
    requires history { history.items ≡ [] }
    requires enough { length J.jobs ≤ vec_capacity history }
    requires pending { (session : ℕ) (p : WaitingJob)
        → slice_get pending.items session ≡ Some (Some p) → ⊥ }
    requires enough_sessions { vec_len pending ≤ length world.calls.slots.items }
    requires seats { seats.items ≡ [] }
    requires for_seats { J.workers ≤ vec_capacity seats }
    requires few { J.workers ≤ 64 }
    requires workers { vec_len pending ≡ J.workers }
    requires book { book.total ≡ 0 }
    requires registry { known_by desk.registry ≡ registry_of [] (jobs_of pending.items) }
    requires sessions { view_of sessions.registry ≡ registry_with [] [] }
    ensures world { result.live.world ≡ world }
    ensures start { result.live.start ≡ (S.state world.store).acts }
    ensures history { result.history ≡ history }
{
    let workers = pending.len() as u32;
    open_seats(&mut sessions, &mut seats, workers);
    let live = Live::new(world, sessions);
    Shared {
        live,
        history,
        pending,
        seats,
        book,
        desk,
    }
}

/// What a run has left, told with all seats, and every part of the ledger and of the queue: the world, how
/// many actions there were as it began, and the records of the jobs.
pub fn ended<S: PageStore, T: DeadRows + Drop, J: JobsOn<S>, X>(
    shared: Shared<S, T, J>,
    seats: Vec<Seat<J>>,
    all: Share<J>,
    pass: &QueuePass<X>,
) -> (World<S, T>, u64, Vec<Record>)
    requires workers { vec_len seats ≡ J.workers }
    requires ranked { (k : ℕ) → IfSome (slice_get seats.items k) (λ s. s.worker ≡ k) }
    requires rests { (k : ℕ) → IfSome (slice_get seats.items k)
        (λ s. (known_by s.pass).job ≡ None) }
    requires parts { all.parts + vec_len seats ≡ J.parts }
    requires amount { all.amount ≡ 0 }
    requires whole { (view pass.now).parts ≡ 1024 }
    requires pushed { (view pass.now).pushed ≡ length J.jobs }
    requires empty { KnowsAll (view pass.now) [] }
    requires popped { (h : ℕ → ℕ) → weigh h (view pass.now).popped
        ≡ sum_over (λ s. weigh h (jobs_in (known_by s.pass).notes)) seats.items }
    ensures world { result.0 ≡ shared.live.world }
    ensures start { result.1 ≡ shared.live.start }
    ensures history { result.2 ≡ shared.history }
    ensures notes { (k : ℕ) → IfSome (slice_get seats.items k)
        (λ s. (known_by s.pass).notes ≡ notes_by k (notes_of result.2.items)) }
    ensures done { HasRun S.PageStore T.DeadRows J.stood J.kept_then J.followed J.handed J.jobs J.workers
        result.0 result.1 result.2.items }
{
    let Shared {
        live,
        history,
        pending: _,
        seats: _,
        mut book,
        mut desk,
    } = shared;
    tally_up(&mut desk, &mut book, seats, all, pass);
    let Live {
        world,
        start,
        moves: _,
        desk: _,
    } = live;
    (world, start, history)
}

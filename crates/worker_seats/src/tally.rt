//! What all workers have noted together.

ghost use Rattle.std.specs.Prelude.{◌≡◌, ◌<◌, ◌+◌, ℕ, [], length, Some, None, IfSome, slice_get, vec_len};
ghost use Rattle.crossbeam_queue.specs.Passes.{view};
ghost use Rattle.worker_seats.specs.Queue.{below, jobs_in, sum_below, sum_over, times, weigh, KnowsAll};
ghost use Rattle.worker_seats.specs.Seats.{known_by, notes_by};

use crate::desk::Desk;
use crate::job_queue::QueuePass;
use crate::run::Run;
use crate::seat::{Seat, check};
use std::sync::ledger::{Book, Share};

/// With all seats, and every part of the ledger and of the queue: the workers' notes are all that there are,
/// no session runs a call, and the log has the jobs that were handed out, each once.
pub fn tally_up<J: Run, T>(
    desk: &mut Desk<J>,
    book: &mut Book<J>,
    seats: Vec<Seat<J>>,
    mut all: Share<J>,
    pass: &QueuePass<T>,
)
    requires counted { book.old.total ≡ length (known_by desk.old.registry).log }
    requires ranked { (k : ℕ) → IfSome (slice_get seats.items k) (λ s. s.worker ≡ k) }
    requires rests { (k : ℕ) → IfSome (slice_get seats.items k)
        (λ s. (known_by s.pass).job ≡ None) }
    requires parts { all.parts + vec_len seats ≡ J.parts }
    requires amount { all.amount ≡ 0 }
    requires whole { (view pass.now).parts ≡ 1024 }
    requires empty { KnowsAll (view pass.now) [] }
    requires popped { (h : ℕ → ℕ) → weigh h (view pass.now).popped
        ≡ sum_over (λ s. weigh h (jobs_in (known_by s.pass).notes)) seats.items }
    ensures registry { known_by desk.new.registry ≡ known_by desk.old.registry }
    ensures notes { (k : ℕ) → IfSome (slice_get seats.items k)
        (λ s. (known_by s.pass).notes ≡ notes_by k (known_by desk.old.registry).log) }
    ensures sum { sum_below (vec_len seats)
        (λ w. length (notes_by w (known_by desk.old.registry).log))
        ≡ length (known_by desk.old.registry).log }
    ensures idle { (k : ℕ) → k < vec_len seats
        → slice_get (known_by desk.old.registry).running k ≡ Some None }
    ensures all { (h : ℕ → ℕ) → weigh h (below (view pass.now).pushed)
        ≡ weigh h (jobs_in (known_by desk.old.registry).log) }
    ensures once { (job : ℕ) → job < (view pass.now).pushed
        → times job (jobs_in (known_by desk.old.registry).log) ≡ 1 }
{
    for seat in seats {
        let seat = check(desk, seat);
        let Seat {
            worker: _,
            share,
            pass: _,
            of: _,
        } = seat;
        all.merge(share);
    }
    book.audit(&mut all);
}

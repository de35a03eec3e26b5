//! The queue of the jobs that are to be done.

ghost use Rattle.std.specs.Prelude.{◌≡◌, ◌<◌, ◌≤◌, [], ℕ, IfSome, slice_get, vec_len};
ghost use Rattle.crossbeam_queue.specs.Passes.{view, IsPassOf, ruled_capacity};
ghost use Rattle.worker_seats.specs.Queue.{queue_view};

use crossbeam_queue::protocol::{Join, Lesson, Outcome, Protocol, Split};
use crossbeam_queue::{Pass, RuledArrayQueue};
use std::alloc::Global;
use std::collections::LinkedList;
use std::sync::Wait;

/// What the queue holds for a job.
pub trait Ticket {
    ghost use Rattle.std.specs.Prelude.{ℕ};

    /// The number of the job.
    ghost job: { Self → ℕ };
}

/// What a pass of the queue knows: its parts of the right to know all, how many numbers were pushed, and
/// which it has popped. No value of it is made.
pub struct QueueView {
    pub parts: u64,
    pub pushed: u64,
    pub popped: LinkedList<u32>,
}

/// The rule of the queue: the numbers that were pushed are those that were popped and those that it holds.
pub struct QueueRule;

impl<T: Ticket> Protocol<T, QueueView> for QueueRule {
    ghost use Rattle.std.specs.Prelude.{[], map};
    ghost use Rattle.worker_seats.specs.Queue.{EachOnce, queue_view};

    ghost holds = { λ tickets views. EachOnce (map T.job tickets) views };

    ghost first = { queue_view 1024 0 [] };
}

/// The next job is pushed, by a pass with every part; one that finds no room knows all.
pub struct Pushes;

impl<T: Ticket> Outcome<T, QueueView> for Pushes {
    ghost use Rattle.worker_seats.specs.Queue.{HasPushed};

    ghost then = { λ v ticket w. HasPushed v w };
}

impl<T: Ticket> Lesson<T, QueueView> for Pushes {
    ghost use Rattle.std.specs.Prelude.{map};
    ghost use Rattle.worker_seats.specs.Queue.{KnowsAll};

    ghost fact = { λ v tickets. KnowsAll v (map T.job tickets) };
}

/// A job is popped, which is one that was pushed; a pass with every part that finds none knows all.
pub struct Pops;

impl<T: Ticket> Outcome<T, QueueView> for Pops {
    ghost use Rattle.worker_seats.specs.Queue.{HasPopped};

    ghost then = { λ v ticket w. HasPopped v (T.job ticket) w };
}

impl<T: Ticket> Lesson<T, QueueView> for Pops {
    ghost use Rattle.std.specs.Prelude.{map};
    ghost use Rattle.worker_seats.specs.Queue.{KnowsAll};

    ghost fact = { λ v tickets. KnowsAll v (map T.job tickets) };
}

/// One part is cut off for a worker's pass, and comes back with what it has popped.
pub struct QueueParts;

impl Split<QueueView> for QueueParts {
    ghost use Rattle.std.specs.Prelude.{[], ◌-◌};
    ghost use Rattle.worker_seats.specs.Queue.{queue_view};

    ghost left = { λ v. queue_view (v.parts - 1) v.pushed v.popped };

    ghost right = { λ v. queue_view 1 v.pushed [] };
}

impl Join<QueueView> for QueueParts {
    ghost use Rattle.std.specs.Prelude.{[], ◌+◌, ◌++◌};
    ghost use Rattle.worker_seats.specs.Queue.{queue_view};

    ghost both = { λ v w. queue_view (v.parts + w.parts) v.pushed (v.popped ++ w.popped) };

    ghost spent = { queue_view 0 0 [] };
}

/// The queue of the tickets of a run's jobs.
pub type JobQueue<T> = RuledArrayQueue<T, QueueView, QueueRule>;

/// A pass of the queue.
pub type QueuePass<T> = Pass<T, QueueView>;

/// An empty queue for so many tickets, with the pass that has every part. None if there is no memory for it.
pub fn make_queue<T: Ticket>(alloc: Global, room: usize) -> Option<(JobQueue<T>, QueuePass<T>)>
    requires some { 0 < room }
    ensures room { IfSome result (λ q. ruled_capacity q.0 ≡ room) }
    ensures pass { IfSome result (λ q. IsPassOf q.0 q.1) }
    ensures first { IfSome result (λ q. view q.1 ≡ queue_view 1024 0 []) }
{
    JobQueue::<T>::ruled(alloc, room).ok()
}

/// Pushes the tickets of the jobs from 0 on, in order, into a queue that has room for them.
pub fn fill<T: Ticket + Drop, R: Wait>(
    rt: &R,
    queue: &JobQueue<T>,
    mut pass: QueuePass<T>,
    tickets: Vec<T>,
) -> QueuePass<T>
    requires pass { IsPassOf queue.now pass }
    requires first { view pass ≡ queue_view 1024 0 [] }
    requires numbered { (job : ℕ) → IfSome (slice_get tickets.items job) (λ t. T.job t ≡ job) }
    requires room { vec_len tickets ≤ ruled_capacity queue.now }
    ensures pass { IsPassOf queue.now result }
    ensures filled { view result ≡ queue_view 1024 (vec_len tickets) [] }
{
    for ticket in tickets {
        let Ok(()) = queue.push_as::<Pushes, R>(rt, &mut pass, ticket) else {
            unreachable!()
        };
    }
    pass
}

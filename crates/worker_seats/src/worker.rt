//! Workers that rest.

ghost use Rattle.std.specs.Prelude.{◌≡◌, ◌≤◌, ◌<◌, ◌+◌, ◌++◌, [], None, ℕ, map, vec_len, vec_capacity};
ghost use Rattle.crossbeam_queue.specs.Passes.{view, IsPassOf};
ghost use Rattle.worker_seats.specs.Seats.{known_by};
ghost use Rattle.worker_seats.specs.Queue.{jobs_in, sum_over, weigh};

use crate::hand::Telling;
use crate::job_queue::{JobQueue, QueueParts, QueuePass, Ticket};
use crate::run::Run;
use crate::seat::Seat;

/// A worker that rests: its seat, its pass of the queue, which has popped the jobs of its notes, and its
/// hand, which has told of them.
#[derive(Drop)]
pub struct Worker<J: Run, T, H: Telling> {
    pub seat: Seat<J>,
    pub pass: QueuePass<T>,
    pub hand: H,
    pub ghost rests: { (known_by seat.pass).job ≡ None },
    pub ghost queue: { pass.table_id ≡ J.queue },
    pub ghost idle: { pass.me.1 ≡ [] },
    pub ghost part: { (view pass).parts ≡ 1 },
    pub ghost popped: { (view pass).popped ≡ jobs_in (known_by seat.pass).notes },
    pub ghost told: { H.told hand ≡ jobs_in (known_by seat.pass).notes },
}

/// Takes the passes of these workers into one, and puts their seats and their hands after those that are
/// there.
pub fn gather<J: Run, T: Ticket, H: Telling + Drop>(
    queue: &JobQueue<T>,
    pass: &mut QueuePass<T>,
    workers: Vec<Worker<J, T, H>>,
    seats: &mut Vec<Seat<J>>,
    hands: &mut Vec<H>,
)
    requires queue { queue.now.table.shared.table_id ≡ J.queue }
    requires pass { IsPassOf queue.now pass.old }
    requires part { 0 < (view pass.old).parts }
    requires room { vec_len seats.old + vec_len workers ≤ vec_capacity seats.old }
    requires places { vec_len hands.old + vec_len workers ≤ vec_capacity hands.old }
    ensures pass { IsPassOf queue.now pass.new }
    ensures parts { (view pass.new).parts ≡ (view pass.old).parts + vec_len workers }
    ensures pushed { (view pass.new).pushed ≡ (view pass.old).pushed }
    ensures popped { (h : ℕ → ℕ) → weigh h (view pass.new).popped
        ≡ weigh h (view pass.old).popped
        + sum_over (λ w. weigh h (jobs_in (known_by w.seat.pass).notes)) workers.items }
    ensures capacity { vec_capacity seats.new ≡ vec_capacity seats.old }
    ensures seats { seats.new.items ≡ seats.old.items ++ map (λ w. w.seat) workers.items }
    ensures held { vec_capacity hands.new ≡ vec_capacity hands.old }
    ensures hands { hands.new.items ≡ hands.old.items ++ map (λ w. w.hand) workers.items }
{
    for worker in workers {
        let Worker {
            seat,
            pass: other,
            hand,
        } = worker;
        queue.absorb::<QueueParts>(pass, other);
        seats.push_reserved(seat);
        hands.push_reserved(hand);
    }
}

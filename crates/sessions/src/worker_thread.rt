//! A worker's thread.

ghost use Rattle.std.specs.Prelude.{◌≡◌, [], None};
ghost use Rattle.crossbeam_queue.specs.Passes.{view, IsPassOf};
ghost use Rattle.worker_seats.specs.Seats.{known_by};

use crate::context::RunContext;
use crate::gate::Gate;
use crate::ready::{is_waiting, started_in};
use crate::ticket::{JobList, JobTicket};
use crate::worker::work;
use index_model::DeadRows;
use page_action::PageStore;
use shared_world::{Jobs, JobsOn};
use std::sync::Wait;
use std::thread::Promise;
use worker_seats::{QueuePass, Seat, Telling, Worker};

/// Which worker it is.
#[derive(Drop)]
pub struct Number(pub u32);

impl<J: Jobs, K: JobList, H: Telling> Promise<Worker<J, JobTicket<K>, H>> for Number {
    ghost use Rattle.std.specs.Prelude.{◌≡◌};

    ghost kept_by = { λ p r. r.seat.worker ≡ p.0 };
}

/// A worker's thread: it waits until all have started, and works if the lock was opened.
pub fn worker_thread<
    S: PageStore,
    T: DeadRows + Drop,
    J: JobsOn<S>,
    K: JobList,
    H: Telling + Send + Drop,
    G: Gate<Hand = H>,
    R: Wait,
>(
    run: &RunContext<S, T, J, K, G, R>,
    seat: Seat<J>,
    pass: QueuePass<JobTicket<K>>,
    mut hand: H,
) -> Worker<J, JobTicket<K>, H>
    requires rests { (known_by seat.pass).job ≡ None }
    requires fresh { (known_by seat.pass).notes ≡ [] }
    requires pass { IsPassOf run.now.queue.now pass }
    requires part { (view pass).parts ≡ 1 }
    requires popped { (view pass).popped ≡ [] }
    requires told { H.told hand ≡ [] }
    ensures { result.seat.worker ≡ seat.worker }
{
    let started = {
        let guard = run
            .signals
            .opened
            .wait_while(run.rt, run.slot.lock(run.rt), |slot| is_waiting(slot));
        started_in(&*guard)
    };
    if let Some(started) = started {
        let (seat, pass) = work(run, &started, seat, pass, &mut hand);
        return Worker { seat, pass, hand };
    }
    Worker { seat, pass, hand }
}

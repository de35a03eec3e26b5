//! What a run is given before it begins.

ghost use Rattle.std.specs.Prelude.{◌≡◌, ◌≤◌, IfSome, [], length, vec_capacity};
ghost use Rattle.crossbeam_queue.specs.Passes.{view};
ghost use Rattle.worker_seats.specs.Queue.{queue_view};
ghost use Rattle.session_seats.specs.Seats.{registry_with, view_of};
ghost use Rattle.worker_seats.specs.Seats.{registry_of, known_by};

use crate::ticket::{JobList, JobTicket};
use session_seats::{SessionDesk, SessionGroup, SessionSeat};
use shared_world::{Jobs, Pending, Record};
use std::alloc::Global;
use std::sync::ledger::{Book, Share};
use worker_seats::{Desk, QueuePass, Seat, Telling, Worker};

/// What a run is given before it begins: the desks of the seats, the pass of the whole queue, the ledger, and
/// room for the records, the jobs whose calls run, the workers, their hands and the seats of their sessions.
#[derive(Drop)]
pub struct RunRoom<J: Jobs + SessionGroup, K: JobList, H: Telling> {
    pub desk: Desk<J>,
    pub pass: QueuePass<JobTicket<K>>,
    pub book: Book<J>,
    pub all: Share<J>,
    pub history: Vec<Record>,
    pub pending: Vec<Option<Pending>>,
    pub returned: Vec<Worker<J, JobTicket<K>, H>>,
    pub hands: Vec<H>,
    pub seats: Vec<Seat<J>>,
    pub sessions: SessionDesk<J>,
    pub session_seats: Vec<Option<SessionSeat<J>>>,
    pub ghost registry_is: { known_by desk.registry ≡ registry_of [] [] },
    pub ghost of_queue: { pass.table_id ≡ J.queue },
    pub ghost pass_rests: { pass.me.1 ≡ [] },
    pub ghost pass_is: { view pass ≡ queue_view 1024 (length J.jobs) [] },
    pub ghost book_is: { book.total ≡ 0 },
    pub ghost parts: { all.parts ≡ 65 },
    pub ghost amount: { all.amount ≡ 0 },
    pub ghost no_record: { history.items ≡ [] },
    pub ghost none_pending: { pending.items ≡ [] },
    pub ghost no_worker: { returned.items ≡ [] },
    pub ghost no_hand: { hands.items ≡ [] },
    pub ghost no_seat: { seats.items ≡ [] },
    pub ghost sessions_are: { view_of sessions.registry ≡ registry_with [] [] },
    pub ghost no_session: { session_seats.items ≡ [] },
    pub ghost for_records: { length J.jobs ≤ vec_capacity history },
    pub ghost for_pending: { J.workers ≤ vec_capacity pending },
    pub ghost for_workers: { J.workers ≤ vec_capacity returned },
    pub ghost for_hands: { J.workers ≤ vec_capacity hands },
    pub ghost for_seats: { J.workers ≤ vec_capacity seats },
    pub ghost for_sessions: { J.workers ≤ vec_capacity session_seats },
}

/// The room of a run of these numbers of jobs and workers. None if there is no memory for it.
pub fn make_room<J: Jobs + SessionGroup, K: JobList, H: Telling + Drop>(
    alloc: Global,
    desk: Desk<J>,
    sessions: SessionDesk<J>,
    pass: QueuePass<JobTicket<K>>,
    ledger: (Book<J>, Share<J>),
    jobs: usize,
    workers: u32,
) -> Option<RunRoom<J, K, H>>
    requires registry { known_by desk.registry ≡ registry_of [] [] }
    requires sessions { view_of sessions.registry ≡ registry_with [] [] }
    requires queue { pass.table_id ≡ J.queue }
    requires pass { pass.me.1 ≡ [] }
    requires whole { view pass ≡ queue_view 1024 (length J.jobs) [] }
    requires book { ledger.0.total ≡ 0 }
    requires parts { ledger.1.parts ≡ 65 }
    requires amount { ledger.1.amount ≡ 0 }
    requires jobs { jobs ≡ length J.jobs }
    requires workers { workers ≡ J.workers }
{
    let (book, all) = ledger;
    let history = Vec::with_capacity(alloc, jobs).ok()?;
    let pending = Vec::with_capacity(alloc, workers as usize).ok()?;
    let returned = Vec::with_capacity(alloc, workers as usize).ok()?;
    let hands = Vec::with_capacity(alloc, workers as usize).ok()?;
    let seats = Vec::with_capacity(alloc, workers as usize).ok()?;
    let session_seats = Vec::with_capacity(alloc, workers as usize).ok()?;
    Some(RunRoom {
        desk,
        pass,
        book,
        all,
        history,
        pending,
        returned,
        hands,
        seats,
        sessions,
        session_seats,
    })
}

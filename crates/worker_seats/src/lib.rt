//! What the workers of a run of jobs know outside of the lock: which jobs were handed out to them, and which
//! calls each has recorded. It knows no index and no lock.
//!
//! Each job number is handed out by a queue, whose rule says that what was pushed is what was popped and what
//! it holds. Each worker has a seat, which says what its session runs and which notes of the log are its own;
//! the registry, which lies beside the log, says the whole. With the workers' shares of a ledger, these give
//! that each job stands in the log once.
#![tactic(auto)]

mod desk;
mod hand;
mod job_queue;
mod run;
mod seat;
mod seating;
mod tally;
mod worker;

pub use desk::Desk;
pub use hand::{Telling, Told};
pub use job_queue::{
    JobQueue, Pops, Pushes, QueueParts, QueuePass, QueueRule, QueueView, Ticket, fill, make_queue,
};
pub use run::Run;
pub use seat::{Seat, check, end, open, start};
pub use seating::{SeatCell, SeatPass, SeatRule, SeatView, make_cell};
pub use tally::tally_up;
pub use worker::{Worker, gather};

//! Workers that run a list of jobs on one world, whose events are done under one lock.
#![tactic(auto)]

mod context;
mod gate;
mod in_scope;
mod limits;
mod outcome;
mod ready;
mod receipts;
mod rounds;
mod run;
mod run_room;
mod run_threads;
mod signals;
mod slot;
mod started;
mod ticket;
mod turn_lock;
mod worker;
mod worker_thread;

pub use gate::{Gate, NoGate};
pub use outcome::{Finished, NotRun, Receipt};
pub use ready::is_ready;
pub use run::{run_jobs, run_told};
pub use slot::RunSlot;
pub use ticket::{JobList, JobTicket, all_tickets};
pub use worker_seats::{Telling, Told};

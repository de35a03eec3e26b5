//! What the threads that have sessions of one index know outside of its lock. It knows no index and no lock.
//!
//! Each session has a seat, which says which call it runs, and which calls it has had, each with what it was
//! asked, answered and gave. The registry, which lies beside the index, says the whole: the log of all calls
//! that are over, and which ones run. All of it is for proofs alone: it takes no memory, however long the log
//! is. No function waits.
#![tactic(auto)]

mod call;
mod desk;
mod group;
mod job;
mod seat;
mod seating;

pub use call::{CompletedCall, Notice, PendingCall};
pub use desk::SessionDesk;
pub use group::SessionGroup;
pub use job::Job;
pub use seat::{SessionSeat, begin, check, end, gave, open};
pub use seating::{
    AskedRows, Begins, Ends, Gives, Looks, Opens, SessionCell, SessionPass, SessionRule,
    SessionView, Sits, make_cell,
};

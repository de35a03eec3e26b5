//! The running calls of sessions, and one event of one of them, over the history of all actions.
#![tactic(auto)]

mod answer;
mod begins;
mod bounded;
mod calls;
mod moves;
mod op;
mod request;
mod slot;
mod stable;

pub use answer::Answer;
pub use bounded::calls_are_bounded;
pub use calls::Calls;
pub use op::Op;
pub use request::Request;
pub use stable::{calls_are_undisturbed, deletions_are_undisturbed};

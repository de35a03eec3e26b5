//! A world under one lock, with sessions of threads that share it: each event in one hold. Or with the jobs
//! of a run, and a record of each.
#![tactic(auto)]

mod jobs;
mod laws;
mod live;
mod opening;
mod origin;
mod record;
mod shared;

pub use jobs::{Jobs, JobsOn};
pub use laws::rows_tell_sets;
pub use live::{Live, SessionTurn};
pub use opening::{ended, first};
pub use origin::{Origin, OriginOn};
pub use record::{Pending, Record};
pub use session_seats::Job;
pub use shared::{Shared, Turn};

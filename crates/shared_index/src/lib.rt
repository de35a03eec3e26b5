//! An index that threads of a program share for days: sessions that make calls, each at any time.
#![tactic(auto)]

mod begun;
mod client;
mod close;
mod crew;
mod hold;
mod index;
mod locked;
mod patience;
mod results;
mod rounds;
mod scan_hold;
mod scans;
mod seats;
mod serving;
mod session;

pub use client::Client;
pub use close::ServedIndex;
pub use index::SharedIndex;
pub use rounds::CommitRounds;
pub use serving::{NotServed, serve};
pub use session::{RowsDeleted, SharedSession};
pub use world::NotPut;

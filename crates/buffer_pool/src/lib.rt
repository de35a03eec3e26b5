//! The frames of a buffer pool: which pages are held in memory, which of them were changed, in order, and
//! which frame is taken for another page. It knows neither device nor log, and takes no memory once it is
//! made.
#![tactic(auto)]

mod changes;
mod choice;
mod order;
mod pool;

pub use choice::Choice;
pub use pool::Pool;

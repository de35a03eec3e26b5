//! Pages that whole acts change, over a device: a log makes the acts durable, and a crash leaves the pages
//! after some prefix of them. Of the pages in use a bounded number is held in memory.
#![tactic(auto)]

mod changing;
mod fetching;
mod forcing;
mod history;
mod laying;
mod log_room;
mod logged_pages;
mod memory;
mod store;
mod writing;

pub use log_room::StoreRoom;
pub use store::Store;

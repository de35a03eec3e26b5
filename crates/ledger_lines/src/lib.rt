//! All that the program `ledger` does, over any streams: entries in a file, kept by lines.
#![tactic(auto)]

mod calls;
mod dead;
mod index_file;
mod line;
mod program;
mod put;
mod reply;
mod said;
mod session;

pub use dead::{Dead, listed};
pub use index_file::{LeftDevice, Refusal};
pub use line::{LedgerLine, parse};
pub use program::{Ended, Kept, Served, ledger, refuse, refuse_words};
pub use put::{put_entry, put_reply};
pub use reply::{Reply, print_refused};
pub use session::answer_lines;

//! The program `btidx` as a library: its command line, the lines of a script, and what is printed. The
//! program itself hands [`execute`] the streams of its process, by [`execute_for_status`]. `execute` gives
//! the status and what the command left: [`Executed`] and [`Left`]. All else that is public here is for
//! tests.
#![tactic(auto)]

mod checking;
mod command;
mod copying;
mod dead;
mod end;
mod engine;
mod file_commands;
mod help;
mod job_file;
mod job_line;
mod left;
mod line;
mod listing;
mod play;
mod progress_line;
mod receipts;
mod refusal;
mod running;
mod said;
mod stepping;
mod streams;

pub use checking::{check_pages, check_pages_one};
pub use dead::DeadList;
pub use end::End;
pub use job_file::{JobFile, JobFileError, read_jobs};
pub use job_line::{JobLine, parse_job};
pub use left::Left;
pub use line::{Crash, Line, LineError, parse};
pub use running::{Ran, run_world};
pub use streams::{Executed, execute, execute_for_status, refuse, refuse_words};

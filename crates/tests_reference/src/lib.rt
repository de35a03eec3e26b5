//! The words of histories and calls, computed: a plain, slow program over a few actions and calls,
//! for tests to compare an index with. Nothing here is meant for use outside tests.
#![tactic(auto)]

mod action;
mod bulk_delete;
mod call;
mod contents;
mod insert;
mod owned;
mod scan;

pub use action::{PlainAction, PlainEffect};
pub use bulk_delete::{is_bulk_delete_answer, is_dead};
pub use call::{PlainAsk, PlainCall, PlainEnding};
pub use contents::{
    contents_has, is_among, is_there_after, is_there_at_some_moment, is_there_throughout,
};
pub use insert::{Interval, is_added, is_insert_answer};
pub use owned::actions_are_owned;
pub use scan::{is_ascending, is_scan_answer, is_scan_answer_so_far, is_up_to_last};

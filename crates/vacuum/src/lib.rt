//! Bulk delete in block order over a tree of any size, one page a step: the entries of dead rows go, while
//! others insert and scan.
#![tactic(auto)]

mod counts;
mod laws;
mod leaf;
mod steps;

pub use counts::count_deleted;
pub use laws::{
    all_is_to_come, bulk_deletes_are_bounded, bulk_deletes_are_undisturbed, due_is_undisturbed,
    nothing_is_counted,
};
pub use steps::{Backtrack, BulkDeleteOp, BulkDeleteStep};

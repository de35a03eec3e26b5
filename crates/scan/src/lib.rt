//! A forward scan of a range over a tree of any size, one page a step.
#![tactic(auto)]

mod laws;
mod next_page;
mod steps;

pub use laws::{fresh_scans_are_bounded, scans_are_bounded, scans_are_undisturbed};
pub use steps::{ScanAt, ScanOp, ScanStep};

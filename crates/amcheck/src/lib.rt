//! The verifier: it reads every page of a store and answers what stands there, or the first damage.
#![tactic(auto)]

mod bad_places;
mod chain_damages;
mod chain_places;
mod checking;
mod checks;
mod counts;
mod downlinks;
mod judging;
mod marks;
mod page_list;
mod page_room;
mod pages;
mod parent_damages;
mod places;
mod reading;
mod report;
mod sketches;
mod stops;
mod strays;
mod unique_pages;
mod walks;
mod ways;

pub use checks::{check, check_one, check_parents, check_parents_one, checks_answer_alike};
pub use report::{CheckFault, Report};

//! The events of many sessions over one store of pages, in any order, and what they promise.
#![tactic(auto)]

mod event;
mod laws;
mod one_event;

pub use event::Event;
pub use laws::{
    added_keys_are_new, bulk_deletes_wait_for_scans, calls_come_in_time, lows_stay,
    numbers_lead_on, one_call_runs, ready_entries_may_come_next, refused_calls_fit,
    same_state_fits, scans_stand_on_leaves, splits_are_finished, work_is_bounded, work_is_spent,
};
pub use one_event::{begin, checkpoint, force, next, one, run, step};

//! What the lock holds.

use crate::started::Started;
use index_model::DeadRows;
use page_action::PageStore;
use shared_world::{JobsOn, Shared};

/// What the lock holds: nothing until all workers have started, and nothing if one can't be. It is opened
/// with what tells that they have.
#[derive(Drop)]
pub enum RunSlot<S: PageStore, T: DeadRows + Drop, J: JobsOn<S>> {
    Waiting,
    Open(Shared<S, T, J>, Started<J>),
    Closed,
}

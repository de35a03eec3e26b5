//! What a run answers.

use index_model::Fault;
use shared_world::Record;
use world::World;

/// Which worker did a job, and the place of its record.
#[derive(Clone, Copy)]
pub struct Receipt {
    pub worker: u32,
    pub job: u32,
    /// The place in the history, from 0 on.
    pub place: u64,
}

/// A run that is done.
#[derive(Drop)]
pub struct Finished<S, T> {
    pub world: World<S, T>,
    /// How many actions there were as the run began.
    pub start: u64,
    /// The records of the jobs, in the order in which they ended.
    pub history: Vec<Record>,
    /// A receipt for each job, by its number.
    pub receipts: Vec<Receipt>,
    /// How many jobs each worker did.
    pub calls: Vec<u64>,
}

/// Why nothing was run, with the world as it was.
#[derive(Drop)]
pub struct NotRun<S, T> {
    pub fault: Fault,
    pub world: World<S, T>,
}

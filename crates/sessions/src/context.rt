//! What the workers of a run share.

ghost use Rattle.std.specs.Prelude.{◌≡◌, ◌<◌, ◌-◌, []};
ghost use Rattle.crossbeam_queue.specs.Passes.{view, IsPassOf};
ghost use Rattle.worker_seats.specs.Queue.{queue_view};

use crate::gate::Gate;
use crate::signals::Signals;
use crate::slot::RunSlot;
use crate::started::Started;
use crate::ticket::{JobList, JobTicket};
use index_model::DeadRows;
use page_action::PageStore;
use shared_world::JobsOn;
use std::sync::{Mutex, Wait};
use worker_seats::{JobQueue, QueueParts, QueuePass};

/// What the workers of a run share: the queue of its jobs, what lies under the lock, what lies beside it, and
/// who is told of each job. The types tell of the same jobs and queue. Only who knows that all workers have
/// started gets the queue, since the field is private.
#[derive(Drop)]
pub struct RunContext<
    'a,
    S: PageStore,
    T: DeadRows + Drop,
    J: JobsOn<S>,
    K: JobList,
    G: Gate,
    R: Wait,
> {
    pub rt: &'a R,
    queue: &'a JobQueue<JobTicket<K>>,
    pub slot: &'a Mutex<RunSlot<S, T, J>>,
    pub signals: &'a Signals,
    pub gate: &'a G,
    pub ghost list: { J.jobs ≡ K.list },
    pub ghost tickets: { queue.now.table.shared.table_id ≡ J.queue },
}

impl<'a, S: PageStore, T: DeadRows + Drop, J: JobsOn<S>, K: JobList, G: Gate, R: Wait> RunContext<
    'a,
    S,
    T,
    J,
    K,
    G,
    R,
> {
    /// What the workers of a run share.
    pub fn new(
        rt: &'a R,
        queue: &'a JobQueue<JobTicket<K>>,
        slot: &'a Mutex<RunSlot<S, T, J>>,
        signals: &'a Signals,
        gate: &'a G,
    ) -> RunContext<'a, S, T, J, K, G, R>
        requires list { J.jobs ≡ K.list }
        requires tickets { queue.now.table.shared.table_id ≡ J.queue }
    {
        RunContext {
            rt,
            queue,
            slot,
            signals,
            gate,
        }
    }

    /// The queue of the jobs, once all workers have started.
    pub fn jobs(&self, _started: &Started<J>) -> &'a JobQueue<JobTicket<K>>
        ensures { result.now ≡ self.now.queue.now }
    {
        self.queue
    }

    /// A pass of the queue for another worker, with one of the parts.
    pub fn another(&self, pass: &mut QueuePass<JobTicket<K>>) -> QueuePass<JobTicket<K>>
        requires queue { IsPassOf self.now.queue.now pass.old }
        requires two { 1 < (view pass.old).parts }
        ensures queue { IsPassOf self.now.queue.now pass.new }
        ensures mine { IsPassOf self.now.queue.now result }
        ensures left { view pass.new ≡ queue_view ((view pass.old).parts - 1)
            (view pass.old).pushed (view pass.old).popped }
        ensures part { view result ≡ queue_view 1 (view pass.old).pushed [] }
    {
        self.queue.another::<QueueParts>(pass)
    }
}

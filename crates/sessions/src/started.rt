//! That all threads of a run have started.

ghost use Rattle.std.specs.Prelude.{◌≡◌, ◌+◌, length};

use crate::ticket::{JobList, JobTicket};
use crate::worker_thread::Number;
use shared_world::Jobs;
use std::marker::PhantomData;
use std::thread::PromisedHandle;
use worker_seats::{Telling, Worker};

/// That each worker of the run has its thread. Only `all_started` makes the first one, since the field is
/// private.
#[derive(Drop)]
pub struct Started<J: Jobs> {
    of: PhantomData<J>,
}

impl<J: Jobs> Started<J> {
    /// The same for another worker.
    pub fn again(&self) -> Started<J> {
        Started { of: PhantomData }
    }
}

/// Each worker has its thread: these, and the calling one.
pub fn all_started<J: Jobs, K: JobList, H: Telling>(
    _handles: &[PromisedHandle<Worker<J, JobTicket<K>, H>, Number>],
) -> Started<J>
    requires all { length _handles.now + 1 ≡ J.workers }
{
    Started { of: PhantomData }
}

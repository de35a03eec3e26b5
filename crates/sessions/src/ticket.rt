//! What the queue hands out for a job.

ghost use Rattle.std.specs.Prelude.{◌≡◌, ◌<◌, ◌^◌, [], ℕ, Some, IfSome, length, slice_get, vec_len, vec_capacity};
ghost use Rattle.shared_world.specs.Jobs.{IsRoomOf, room_of};

use index_model::Entry;
use shared_world::Job;
use std::alloc::Global;
use std::marker::{Brand, PhantomData};
use worker_seats::Ticket;

/// A list of jobs. A run picks its own before it makes its queue, whose tickets name it.
pub trait JobList {
    ghost use Rattle.std.specs.Prelude.{List};
    ghost use Rattle.session_seats.specs.declared.job.Job.{Job};

    /// The jobs, by their numbers.
    ghost list: { List Job };
}

impl JobList for Brand {
    ghost use Rattle.std.specs.Prelude.{[]};

    ghost list = { [] };
}

/// A job that is to be done, with the room for what its scan gives.
#[derive(Drop)]
pub struct JobTicket<K: JobList> {
    pub job: u32,
    pub asked: Job,
    pub room: Vec<Entry>,
    pub of: PhantomData<K>,
    pub ghost is: { slice_get K.list job ≡ Some asked },
    pub ghost empty: { room.items ≡ [] },
    pub ghost holds: { IsRoomOf asked (vec_capacity room) },
}

impl<K: JobList> Ticket for JobTicket<K> {
    ghost job = { λ ticket. ticket.job };
}

/// How many entries a job's room holds.
pub fn room_of(job: &Job) -> u32
    ensures { result ≡ room_of job.now }
{
    match job {
        Job::Scan { room, .. } => *room,
        _ => 0,
    }
}

// The ticket of a job.
fn one_ticket<K: JobList>(job: u32, asked: &Job, room: Vec<Entry>) -> JobTicket<K>
    requires is { slice_get K.list job ≡ Some asked.now }
    requires empty { room.items ≡ [] }
    requires holds { IsRoomOf asked.now (vec_capacity room) }
    ensures { result.job ≡ job }
{
    JobTicket {
        job,
        asked: *asked,
        room,
        of: PhantomData,
    }
}

/// A ticket for each of the jobs, in order. None if there is no memory for the rooms.
pub fn all_tickets<K: JobList>(alloc: Global, jobs: &[Job]) -> Option<Vec<JobTicket<K>>>
    requires jobs { K.list ≡ jobs.now }
    requires few { length jobs.now < 2 ^ 32 }
    ensures len { IfSome result (λ tickets. vec_len tickets ≡ length jobs.now) }
    ensures numbered { IfSome result (λ tickets. (job : ℕ)
        → IfSome (slice_get tickets.items job) (λ t. t.job ≡ job)) }
{
    let mut tickets = Vec::with_capacity(alloc, jobs.len()).ok()?;
    for job in 0..jobs.len() {
        let room = Vec::with_capacity(alloc, room_of(&jobs[job]) as usize).ok()?;
        tickets.push_reserved(one_ticket(job as u32, &jobs[job], room));
    }
    Some(tickets)
}

//! A run in a scope of its own.

ghost use Rattle.std.specs.Prelude.{◌≡◌, ◌≤◌, ◌<◌, ◌+◌, [], None, IfOk, IfErr, length, vec_capacity};
ghost use Rattle.world.specs.Worlds.{inside};
ghost use Rattle.shared_world.specs.Ended.{HasRun};
ghost use Rattle.shared_world.specs.Handed.{IsAsHanded};
ghost use Rattle.sessions.specs.Finishing.{HaveTold};
ghost use Rattle.shared_world.specs.Standing.{AreIdle, Stands};

use crate::context::RunContext;
use crate::gate::Gate;
use crate::run_room::RunRoom;
use crate::run_threads::run_threads;
use crate::signals::Signals;
use crate::slot::RunSlot;
use crate::ticket::{JobList, JobTicket};
use crate::worker_thread::Number;
use index_model::DeadRows;
use page_action::PageStore;
use shared_world::{JobsOn, Record};
use std::sync::{Mutex, Wait};
use std::thread;
use std::thread::{PromisedHandle, Threads};
use worker_seats::{JobQueue, Worker};
use world::World;

/// Runs all jobs, by threads in a scope. If a thread can't be started, the world is given back and nothing
/// was run.
pub fn run_all<
    'x,
    S: PageStore + Drop + Send + 'x,
    T: DeadRows + Drop + Send + 'x,
    J: JobsOn<S> + Send + Sync + 'x,
    K: JobList + Send + Sync + 'x,
    G: Gate + Sync + 'x,
    R: Threads + Wait + Sync + 'x,
>(
    rt: &'x R,
    queue: &'x JobQueue<JobTicket<K>>,
    gate: &'x G,
    world: World<S, T>,
    room: RunRoom<J, K, G::Hand>,
    handles: Vec<PromisedHandle<Worker<J, JobTicket<K>, G::Hand>, Number>>,
    last: u32,
) -> Result<(World<S, T>, u64, Vec<Record>, Vec<G::Hand>), World<S, T>>
    requires list { J.jobs ≡ K.list }
    requires queue { queue.now.table.shared.table_id ≡ J.queue }
    requires parts { J.parts ≡ 65 }
    requires handles { (handles.items ≡ []) × (last < vec_capacity handles) }
    requires workers { last + 1 ≡ J.workers }
    requires few { J.workers ≤ 64 }
    requires sessions { J.workers ≤ length world.calls.slots.items }
    requires stood { Stands S.PageStore J.stood J.kept_then J.followed (inside T.DeadRows world) }
    requires handed { IsAsHanded S.PageStore J.handed (inside T.DeadRows world) }
    requires stays { J.handed.spare ≡ None }
    requires rests { AreIdle world.calls.slots.items }
    ensures err { IfErr result (λ w. w ≡ world) }
    ensures done { IfOk result (λ r. HasRun S.PageStore T.DeadRows J.stood J.kept_then J.followed J.handed
        J.jobs J.workers r.0 r.1 r.2.items) }
    ensures told { IfOk result (λ r. HaveTold G.Hand.told J.workers r.3.items r.2.items) }
{
    let slot: Mutex<RunSlot<S, T, J>> = Mutex::new(RunSlot::Waiting);
    let shares = Signals::new();
    let context = RunContext::new(rt, queue, &slot, &shares, gate);
    let run = &context;
    thread::scope(
        thread::scope_env(),
        rt,
        move |scope| -> Result<(World<S, T>, u64, Vec<Record>, Vec<G::Hand>), World<S, T>>
            requires parts { J.parts ≡ 65 }
            requires handles { (handles.items ≡ []) × (last < vec_capacity handles) }
            requires workers { last + 1 ≡ J.workers }
            requires few { J.workers ≤ 64 }
            requires sessions { J.workers ≤ length world.calls.slots.items }
            requires stood { Stands S.PageStore J.stood J.kept_then J.followed (inside T.DeadRows world) }
            requires handed { IsAsHanded S.PageStore J.handed (inside T.DeadRows world) }
            requires stays { J.handed.spare ≡ None }
            requires rests { AreIdle world.calls.slots.items }
            ensures err { IfErr result (λ w. w ≡ world) }
            ensures done { IfOk result (λ r. HasRun S.PageStore T.DeadRows J.stood J.kept_then
                J.followed J.handed J.jobs J.workers r.0 r.1 r.2.items) }
            ensures told { IfOk result
                (λ r. HaveTold G.Hand.told J.workers r.3.items r.2.items) }
        { run_threads(scope, run, world, room, handles, last) },
    )
}

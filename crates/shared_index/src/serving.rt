//! An index that a client's threads share, from its opening to its end.

ghost use Rattle.std.specs.Prelude.{◌≡◌, ◌≤◌, ◌<◌, ◌↔◌, [], ℕ, suc, Bool, List, Some, None, IfOk, IfErr, OnOk, IfSome, length, slice_get, vec_len, vec_capacity};
ghost use Rattle.index_model.specs.Actions.{Action};
ghost use Rattle.index_model.specs.Calls.{Call};
ghost use Rattle.index_model.specs.declared.entry.Entry.{Entry as OneEntry};
ghost use Rattle.session_seats.specs.Seats.{IsSessionCell, registry_with, view_of};
ghost use Rattle.world.specs.Worlds.{WorldFits, WorldKeeps, inside};
ghost use Rattle.shared_world.specs.Handed.{handed_of};
ghost use Rattle.shared_world.specs.Standing.{AreIdle};
ghost use Rattle.shared_index.specs.Serving.{IsNotServedFor, IsServedWorld, MayServe};
ghost use Rattle.shared_index.specs.Told.{HaveLearnt};

use crate::begun::run_all;
use crate::client::Client;
use crate::close::{ServedIndex, closed, is_idle};
use crate::seats::seat_all;
use index_model::{DeadRows, Fault};
use page_action::PageStore;
use session_seats::{SessionCell, SessionDesk, SessionPass, make_cell};
use shared_world::{Live, OriginOn};
use std::alloc::Global;
use std::marker::Brand;
use std::sync::Wait;
use std::thread::Threads;
use world::World;

/// Why nothing was served, with the world as it was.
#[derive(Drop)]
pub struct NotServed<S, T> {
    pub fault: Fault,
    pub world: World<S, T>,
}

// The world given back, since there is no memory for sessions on it.
fn no_memory<S, T>(world: World<S, T>) -> NotServed<S, T>
    ensures world { result.world ≡ world }
    ensures fault { result.fault ≡ Fault.NoMemory }
{
    NotServed {
        fault: Fault::NoMemory,
        world,
    }
}

// Serves a world of which the type of its sessions tells.
fn serve_named<
    S: PageStore + Drop + Send,
    T: DeadRows + Drop + Send,
    J: OriginOn<S> + Send + Sync,
    C: Client<S, T> + Sync,
    R: Threads + Wait + Sync,
>(
    rt: &R,
    alloc: Global,
    cell: SessionCell,
    registry: SessionPass,
    world: World<S, T>,
    sessions: u32,
    client: &C,
) -> Result<ServedIndex<S, T, C::Out>, NotServed<S, T>>
    requires cell { IsSessionCell J.sessions cell.shared.table_id }
    requires registry { registry.table_id ≡ cell.shared.table_id }
    requires knows { view_of registry ≡ registry_with [] [] }
    requires handed { J.handed ≡ handed_of S.PageStore T.DeadRows (Some 0) world }
    requires stood { (contents : OneEntry → Bool) (history : List Action) (calls : List Call)
        → J.stood contents history calls
        ↔ WorldFits S.PageStore T.DeadRows world contents history calls }
    requires kept_then { (contents : OneEntry → Bool) (history : List Action) (calls : List Call)
        → J.kept_then contents history calls
        ↔ WorldKeeps S.PageStore T.DeadRows world contents history calls }
    requires followed { (first : S) → J.followed first ↔ S.follows first world.store }
    requires limits { MayServe (length world.calls.slots.items) sessions }
    requires rests { AreIdle world.calls.slots.items }
    ensures given_back { IfErr result (λ not_served. not_served.world ≡ world) }
    ensures memory { IfErr result (λ not_served. not_served.fault ≡ Fault.NoMemory) }
    ensures served { IfOk result (λ r. IsServedWorld S.PageStore T.DeadRows
        (WorldFits S.PageStore T.DeadRows world) (WorldKeeps S.PageStore T.DeadRows world)
        (λ first. S.follows first world.store) (handed_of S.PageStore T.DeadRows (Some 0) world)
        (HaveLearnt C.learnt r.outs.items) r.world r.start r.idle) }
    ensures answers { IfOk result
        (λ r. (0 < length r.outs.items) × (length r.outs.items ≤ sessions)) }
{
    let Ok(room) = Vec::with_capacity(alloc, sessions as usize) else {
        return Err(no_memory(world));
    };
    let Ok(handles) = Vec::with_capacity(alloc, sessions as usize) else {
        return Err(no_memory(world));
    };
    let Ok(seats) = Vec::with_capacity(alloc, sessions as usize) else {
        return Err(no_memory(world));
    };
    let Ok(outs) = Vec::with_capacity(alloc, sessions as usize) else {
        return Err(no_memory(world));
    };
    let mut desk = SessionDesk::new(cell, registry);
    let (first, rest) = seat_all(&mut desk, room, sessions);
    let live = Live::new(world, desk);
    let (live, seats, outs) = run_all::<S, T, J, C, R>(
        rt, client, live, first, rest, handles, seats, outs,
    );
    Ok(closed(live, seats, outs))
}

// Why nothing is served, before anything is made for it: `BadLimits` if a limit is passed, else `SessionBusy`
// if a session has a call.
fn refusal<S: PageStore, T: DeadRows + Drop>(world: &World<S, T>, sessions: u32) -> Option<Fault>
    ensures refused { IfSome result
        (λ fault. IsNotServedFor fault world.now.calls.slots.items sessions) }
    ensures limits { result ≡ None → MayServe (length world.now.calls.slots.items) sessions }
    ensures free { result ≡ None → AreIdle world.now.calls.slots.items }
{
    if sessions == 0 || sessions > 64 || sessions > world.sessions() {
        return Some(Fault::BadLimits);
    }
    if !is_idle(world) {
        return Some(Fault::SessionBusy);
    }
    None
}

/// Serves the world to a client: so many sessions share it, and the client works by each in a thread of its
/// own, by the first one in the calling thread. After all have done their work, the world is given back.
///
/// If a thread can't be started, its session and those behind it have no answer, and the client works by
/// those before it. So a client should wait for no other session's thread.
///
/// A refusal leaves the world as it was. The first of these that applies is answered:
///
/// - `BadLimits`: no session, more than 64, or more than the world has;
/// - `SessionBusy`: a session of the world has a call;
/// - `NoMemory`: there is no memory for it.
///
/// If the device has kept its model up to now, it had kept it before. Whatever contents, actions and calls
/// fitted the world before, there are more actions and more calls that fit it now. There is one log of all
/// calls that the sessions have had. Each session that has an answer has had just those that the log has of
/// it, and of these its answer tells what the client says (`learnt`).
pub fn serve<
    S: PageStore + Drop + Send,
    T: DeadRows + Drop + Send,
    C: Client<S, T> + Sync,
    R: Threads + Wait + Sync,
>(
    rt: &R,
    alloc: Global,
    world: World<S, T>,
    sessions: u32,
    client: &C,
) -> Result<ServedIndex<S, T, C::Out>, NotServed<S, T>>
    ensures given_back { IfErr result (λ not_served. not_served.world ≡ world) }
    ensures refused { IfErr result
        (λ not_served. IsNotServedFor not_served.fault world.calls.slots.items sessions) }
    ensures limits { OnOk result (MayServe (length world.calls.slots.items) sessions) }
    ensures free { OnOk result (AreIdle world.calls.slots.items) }
    ensures served { IfOk result (λ r. IsServedWorld S.PageStore T.DeadRows
        (WorldFits S.PageStore T.DeadRows world) (WorldKeeps S.PageStore T.DeadRows world)
        (λ first. S.follows first world.store) (handed_of S.PageStore T.DeadRows (Some 0) world)
        (HaveLearnt C.learnt r.outs.items) r.world r.start r.idle) }
    ensures answers { IfOk result
        (λ r. (0 < length r.outs.items) × (length r.outs.items ≤ sessions)) }
{
    if let Some(fault) = refusal(&world, sessions) {
        return Err(NotServed { fault, world });
    }
    let Some((cell, registry)) = make_cell(alloc) else {
        return Err(no_memory(world));
    };
    serve_named::<S, T, Brand, C, R>(rt, alloc, cell, registry, world, sessions, client)
}

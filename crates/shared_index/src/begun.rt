//! The threads of an index, in a scope of their own.

ghost use Rattle.std.specs.Prelude.{◌≡◌, ◌≤◌, ◌<◌, [], suc, None, Some, length, vec_len, vec_capacity};
ghost use Rattle.shared_index.specs.Told.{AreFresh, HaveLearnt, all_told, standing_of};

use crate::client::{Client, Worked};
use crate::crew::{SeatNumber, work_all};
use crate::index::SharedIndex;
use crate::session::SharedSession;
use index_model::DeadRows;
use page_action::PageStore;
use shared_world::{Live, OriginOn};
use std::sync::Wait;
use std::thread;
use std::thread::{PromisedHandle, Threads};

/// Shares this under a lock, lets the client work by all sessions, and takes it out when all have left.
pub fn run_all<
    'x,
    S: PageStore + Drop + Send + 'x,
    T: DeadRows + Drop + Send + 'x,
    J: OriginOn<S> + Send + Sync + 'x,
    C: Client<S, T> + Sync + 'x,
    R: Threads + Wait + Sync + 'x,
>(
    rt: &'x R,
    client: &'x C,
    live: Live<S, T, J>,
    first: SharedSession<J>,
    rest: Vec<SharedSession<J>>,
    handles: Vec<PromisedHandle<Worked<S, T, J, C>, SeatNumber>>,
    sessions: Vec<SharedSession<J>>,
    outs: Vec<C::Out>,
) -> (Live<S, T, J>, Vec<SharedSession<J>>, Vec<C::Out>)
    requires spare { J.handed.spare ≡ Some 0 }
    requires first { standing_of first ≡ ((0, []), None) }
    requires fresh { AreFresh 1 rest.items }
    requires handles { (handles.items ≡ []) × (vec_len rest ≤ vec_capacity handles) }
    requires sessions { (sessions.items ≡ []) × (vec_len rest < vec_capacity sessions) }
    requires outs { (outs.items ≡ []) × (vec_len rest < vec_capacity outs) }
    ensures some { 0 < length result.2.items }
    ensures few { length result.2.items ≤ suc (vec_len rest) }
    ensures learnt { HaveLearnt C.learnt result.2.items (all_told result.1.items) }
{
    let shared = SharedIndex::<S, T, J>::new(live);
    let index = &shared;
    let (sessions, outs) = thread::scope(
        thread::scope_env(),
        rt,
        move |scope| -> (Vec<SharedSession<J>>, Vec<C::Out>)
            requires first { standing_of first ≡ ((0, []), None) }
            requires fresh { AreFresh 1 rest.items }
            requires handles { (handles.items ≡ []) × (vec_len rest ≤ vec_capacity handles) }
            requires sessions { (sessions.items ≡ [])
                × (vec_len rest < vec_capacity sessions) }
            requires outs { (outs.items ≡ []) × (vec_len rest < vec_capacity outs) }
            ensures some { 0 < length result.1.items }
            ensures few { length result.1.items ≤ suc (vec_len rest) }
            ensures learnt { HaveLearnt C.learnt result.1.items (all_told result.0.items) }
        {
            work_all(
                scope, rt, index, client, first, rest, handles, sessions, outs,
            )
        },
    );
    (shared.into_inner(), sessions, outs)
}

//! The threads of an index: one for each session but the first, which is the calling thread's.

ghost use Rattle.std.specs.Prelude.{◌≡◌, ◌≤◌, ◌<◌, ◌+◌, [], ℕ, suc, None, IfSome, length, slice_get, vec_len, vec_capacity};
ghost use Rattle.shared_index.specs.Sessions.{calls_had, number_of_seat, open_scan};
ghost use Rattle.shared_index.specs.Told.{AreFresh, HaveLearnt, all_told, standing_of};

use crate::client::{Client, Worked, do_work};
use crate::index::SharedIndex;
use crate::session::SharedSession;
use index_model::DeadRows;
use page_action::PageStore;
use shared_world::OriginOn;
use std::marker::PhantomData;
use std::thread::{Promise, PromisedHandle, Scope, Threads};

/// Which session a thread has.
#[derive(Drop)]
pub struct SeatNumber(pub u32);

impl<S: PageStore, T: DeadRows + Drop, J: OriginOn<S>, C: Client<S, T>> Promise<Worked<S, T, J, C>>
    for SeatNumber {
    ghost use Rattle.std.specs.Prelude.{◌≡◌};
    ghost use Rattle.shared_index.specs.Sessions.{calls_had, number_of_seat};

    ghost kept_by = { λ p r. (number_of_seat r.session.seat ≡ p.0)
        × C.learnt r.out (calls_had r.session.seat) };
}

// Starts a thread for each of these sessions, which are those from 1 on, until one can't be started.
fn start_all<
    's,
    E,
    S: PageStore + Drop + Send + 's,
    T: DeadRows + Drop + Send + 's,
    J: OriginOn<S> + Send + Sync + 's,
    O: Send + Drop + 's,
    C: Client<S, T, Out = O> + Sync + 's,
>(
    scope: &'s Scope<'s, E>,
    index: &'s SharedIndex<S, T, J>,
    client: &'s C,
    rest: Vec<SharedSession<J>>,
    mut handles: Vec<PromisedHandle<Worked<S, T, J, C>, SeatNumber>>,
) -> Vec<PromisedHandle<Worked<S, T, J, C>, SeatNumber>>
    requires fresh { AreFresh 1 rest.items }
    requires handles { (handles.items ≡ []) × (vec_len rest ≤ vec_capacity handles) }
    ensures few { vec_len result ≤ vec_len rest }
    ensures numbers { (k : ℕ) → IfSome (slice_get result.items k) (λ h. h.promise.0 ≡ suc k) }
{
    for session in rest {
        let number = session.number();
        let kind: PhantomData<O> = PhantomData;
        let job = move || -> Worked<S, T, J, C>
            requires fresh { calls_had session.seat ≡ [] }
            requires rests { open_scan session.seat ≡ None }
            requires number { number_of_seat session.seat ≡ number }
            ensures number { number_of_seat result.session.seat ≡ number }
            ensures learnt { C.learnt result.out (calls_had result.session.seat) }
        { do_work(index, client, session, number, kind) };
        match scope.spawn_with(SeatNumber(number), job) {
            Ok(handle) => handles.push_reserved(handle),
            Err(_) => return handles,
        }
    }
    handles
}

// Joins the threads, in order: behind the first session and its answer stand theirs.
fn joined<
    S: PageStore,
    T: DeadRows + Drop,
    J: OriginOn<S>,
    O: Send + Drop,
    C: Client<S, T, Out = O>,
    R: Threads,
>(
    rt: &R,
    handles: Vec<PromisedHandle<Worked<S, T, J, C>, SeatNumber>>,
    mut sessions: Vec<SharedSession<J>>,
    mut outs: Vec<O>,
) -> (Vec<SharedSession<J>>, Vec<O>)
    requires numbers { (k : ℕ) → IfSome (slice_get handles.items k) (λ h. h.promise.0 ≡ suc k) }
    requires first { vec_len sessions ≡ 1 }
    requires sessions { vec_len handles < vec_capacity sessions }
    requires outs { vec_len handles < vec_capacity outs }
    requires learnt { HaveLearnt C.learnt outs.items (all_told sessions.items) }
    ensures count { length result.1.items ≡ suc (vec_len handles) }
    ensures learnt { HaveLearnt C.learnt result.1.items (all_told result.0.items) }
{
    for handle in handles {
        let Worked {
            session,
            out,
            of: _,
            kind: _,
        } = handle.join(rt);
        sessions.push_reserved(session);
        outs.push_reserved(out);
    }
    (sessions, outs)
}

/// Starts a thread for each session but the first, works by that one, and joins the threads. The session
/// whose thread can't be started, and each after it, has no answer.
pub fn work_all<
    's,
    E,
    S: PageStore + Drop + Send + 's,
    T: DeadRows + Drop + Send + 's,
    J: OriginOn<S> + Send + Sync + 's,
    O: Send + Drop + 's,
    C: Client<S, T, Out = O> + Sync + 's,
    R: Threads,
>(
    scope: &'s Scope<'s, E>,
    rt: &R,
    index: &'s SharedIndex<S, T, J>,
    client: &'s C,
    first: SharedSession<J>,
    rest: Vec<SharedSession<J>>,
    handles: Vec<PromisedHandle<Worked<S, T, J, C>, SeatNumber>>,
    mut sessions: Vec<SharedSession<J>>,
    mut outs: Vec<O>,
) -> (Vec<SharedSession<J>>, Vec<O>)
    requires first { standing_of first ≡ ((0, []), None) }
    requires fresh { AreFresh 1 rest.items }
    requires handles { (handles.items ≡ []) × (vec_len rest ≤ vec_capacity handles) }
    requires sessions { (sessions.items ≡ []) × (vec_len rest < vec_capacity sessions) }
    requires outs { (outs.items ≡ []) × (vec_len rest < vec_capacity outs) }
    ensures some { 0 < length result.1.items }
    ensures few { length result.1.items ≤ suc (vec_len rest) }
    ensures learnt { HaveLearnt C.learnt result.1.items (all_told result.0.items) }
{
    let handles = start_all(scope, index, client, rest, handles);
    let Worked {
        session,
        out,
        of: _,
        kind: _,
    } = do_work(index, client, first, 0, PhantomData);
    sessions.push_reserved(session);
    outs.push_reserved(out);
    joined(rt, handles, sessions, outs)
}

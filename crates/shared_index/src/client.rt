//! Who uses an index that threads share.

ghost use Rattle.std.specs.Prelude.{◌≡◌, [], None};
ghost use Rattle.shared_index.specs.Sessions.{calls_had, number_of_seat, open_scan};

use crate::index::SharedIndex;
use crate::session::SharedSession;
use index_model::DeadRows;
use page_action::PageStore;
use shared_world::OriginOn;
use std::marker::PhantomData;

/// What threads do with an index while it is open: each by a session of its own. What it needs for that, a
/// handle of the runtime or a queue of requests, stands in its own value.
pub trait Client<S: PageStore, T: DeadRows + Drop> {
    ghost use Rattle.std.specs.Prelude.{◌≡◌, [], ℕ, List, None};
    ghost use Rattle.session_seats.specs.declared.call.CompletedCall.{CompletedCall};
    ghost use Rattle.shared_index.specs.Sessions.{calls_had, number_of_seat, open_scan};

    /// What a thread answers.
    type Out: Send + Drop;

    /// What an answer says of the calls that its session has had, each with its place in the one log.
    ghost learnt: { Self.Out → List (ℕ × CompletedCall) → Type 0 };

    /// The work of one thread, by the session of this number, which has had no call. A scan that is open at
    /// the end stays so, and the world that is left has its call.
    fn work<J: OriginOn<S>>(
        &self,
        index: &SharedIndex<S, T, J>,
        session: &mut SharedSession<J>,
        number: u32,
    ) -> Self::Out
        requires fresh { calls_had session.old.seat ≡ [] }
        requires rests { open_scan session.old.seat ≡ None }
        requires number { number_of_seat session.old.seat ≡ number }
        ensures number { number_of_seat session.new.seat ≡ number }
        ensures learnt { learnt result (calls_had session.new.seat) };
}

/// A session whose thread has done its work, with what that answered.
#[derive(Drop)]
pub struct Worked<S: PageStore, T: DeadRows + Drop, J: OriginOn<S>, C: Client<S, T>> {
    pub session: SharedSession<J>,
    pub out: C::Out,
    pub of: PhantomData<(S, T)>,
    pub kind: PhantomData<C::Out>,
}

/// The work of the client by this session.
pub fn do_work<
    S: PageStore,
    T: DeadRows + Drop,
    J: OriginOn<S>,
    O: Send + Drop,
    C: Client<S, T, Out = O>,
>(
    index: &SharedIndex<S, T, J>,
    client: &C,
    mut session: SharedSession<J>,
    number: u32,
    kind: PhantomData<O>,
) -> Worked<S, T, J, C>
    requires fresh { calls_had session.seat ≡ [] }
    requires rests { open_scan session.seat ≡ None }
    requires number { number_of_seat session.seat ≡ number }
    ensures number { number_of_seat result.session.seat ≡ number }
    ensures learnt { C.learnt result.out (calls_had result.session.seat) }
{
    let out = client.work::<J>(index, &mut session, number);
    Worked {
        session,
        out,
        of: PhantomData,
        kind,
    }
}

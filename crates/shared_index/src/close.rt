//! The end of an index that threads have shared.

ghost use Rattle.std.specs.Prelude.{◌≡◌, true, false, ℕ};
ghost use Rattle.session_calls.specs.Slots.{has_call};
ghost use Rattle.session_seats.specs.Seats.{view_of};
ghost use Rattle.shared_world.specs.Standing.{AreIdle};
ghost use Rattle.shared_index.specs.Serving.{IsServedWorld};
ghost use Rattle.shared_index.specs.Told.{AreOfLog, all_told};

use crate::session::SharedSession;
use index_model::DeadRows;
use page_action::PageStore;
use session_seats::{SessionDesk, SessionGroup, check};
use shared_world::{Live, OriginOn};
use world::World;

/// A world that was served, with what was made of it.
#[derive(Drop)]
pub struct ServedIndex<S, T, O> {
    pub world: World<S, T>,
    /// How many actions there were as the world was handed in.
    pub start: u64,
    /// Whether no session runs a call.
    pub idle: bool,
    /// What the threads answered, one by each session from 0 on. They are as many as there are sessions,
    /// unless a thread couldn't be started.
    pub outs: Vec<O>,
}

// Each of these sessions has had just the calls that the log has of it.
fn check_all<J: SessionGroup>(desk: &mut SessionDesk<J>, sessions: Vec<SharedSession<J>>)
    ensures registry { view_of desk.new.registry ≡ view_of desk.old.registry }
    ensures own { AreOfLog (view_of desk.old.registry).log (all_told sessions.items) }
{
    for session in sessions {
        let SharedSession { seat, .. } = session;
        let Some(seat) = seat else { unreachable!() };
        let _seat = check(desk, seat);
    }
}

/// Whether no session has a call.
pub fn is_idle<S: PageStore, T: DeadRows + Drop>(world: &World<S, T>) -> bool
    ensures yes { result ≡ true → AreIdle world.now.calls.slots.items }
    ensures no { result ≡ false
        → (session : ℕ) × (has_call world.now.calls.slots.items session ≡ true) }
{
    for session in 0..world.sessions() {
        if world.is_running(session) {
            return false;
        }
    }
    true
}

/// What is left, after all threads have left, of what lay under the lock.
pub fn closed<S: PageStore, T: DeadRows + Drop, J: OriginOn<S>, O>(
    live: Live<S, T, J>,
    sessions: Vec<SharedSession<J>>,
    outs: Vec<O>,
) -> ServedIndex<S, T, O>
    ensures outs { result.outs ≡ outs }
    ensures done { IsServedWorld S.PageStore T.DeadRows J.stood J.kept_then J.followed J.handed
        (λ told. told ≡ all_told sessions.items) result.world result.start result.idle }
{
    let Live {
        world,
        start,
        moves: _,
        mut desk,
    } = live;
    check_all(&mut desk, sessions);
    let idle = is_idle(&world);
    ServedIndex {
        world,
        start,
        idle,
        outs,
    }
}

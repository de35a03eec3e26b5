//! Sessions of an index that is about to be shared.

ghost use Rattle.std.specs.Prelude.{◌≡◌, ◌≤◌, ◌<◌, [], ℕ, suc, Some, None, length, slice_get, vec_len, vec_capacity};
ghost use Rattle.session_seats.specs.Seats.{registry_with, view_of};
ghost use Rattle.session_seats.specs.declared.call.PendingCall.{PendingCall as RunningCall};
ghost use Rattle.shared_index.specs.Told.{AreFresh, standing_of};

use crate::session::{SharedSession, seated};
use session_seats::{SessionDesk, SessionGroup, open};

/// Seats for so many sessions: the first one's, and those of the rest.
pub fn seat_all<J: SessionGroup>(
    desk: &mut SessionDesk<J>,
    mut rest: Vec<SharedSession<J>>,
    count: u32,
) -> (SharedSession<J>, Vec<SharedSession<J>>)
    requires registry { view_of desk.old.registry ≡ registry_with [] [] }
    requires rest { (rest.items ≡ []) × (count ≤ vec_capacity rest) }
    requires some { 0 < count }
    ensures log { (view_of desk.new.registry).log ≡ [] }
    ensures pending { length (view_of desk.new.registry).pending ≡ count }
    ensures none { (session : ℕ) (p : RunningCall)
        → slice_get (view_of desk.new.registry).pending session ≡ Some (Some p) → ⊥ }
    ensures first { standing_of result.0 ≡ ((0, []), None) }
    ensures fresh { AreFresh 1 result.1.items }
    ensures count { suc (vec_len result.1) ≡ count }
{
    let first = seated(open(desk, 0));
    for session in 1..count {
        let seat = open(desk, session);
        rest.push_reserved(seated(seat));
    }
    (first, rest)
}

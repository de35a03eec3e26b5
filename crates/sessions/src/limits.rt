//! What a run may be asked for.

ghost use Rattle.std.specs.Prelude.{◌≡◌, ◌≤◌, ℕ, true, false, IfSome, None, length};
ghost use Rattle.std.specs.List.{sum_by};
ghost use Rattle.session_calls.specs.Slots.{has_call};
ghost use Rattle.shared_world.specs.Standing.{AreIdle};
ghost use Rattle.sessions.specs.Finishing.{RunIsRefusedFor, IsWithinLimits};
ghost use Rattle.shared_world.specs.Jobs.{room_of};

use crate::ticket::room_of;
use index_model::{DeadRows, Fault};
use page_action::PageStore;
use shared_world::Job;
use world::World;

// How many entries these jobs may give in all.
fn all_room(jobs: &[Job]) -> u64
    requires few { length jobs.now ≤ 65536 }
    ensures { result ≡ sum_by room_of jobs.now }
{
    let mut room = 0;
    for job in jobs {
        room += u64::from(room_of(job));
    }
    room
}

// Whether the jobs and the workers keep the limits of a run.
fn is_within_limits(sessions: u32, jobs: &[Job], workers: u32) -> bool
    ensures yes { result ≡ true → IsWithinLimits sessions jobs.now workers }
    ensures no { result ≡ false → IsWithinLimits sessions jobs.now workers → ⊥ }
{
    if workers == 0 || workers > 64 || workers > sessions || jobs.len() > 65_536 {
        return false;
    }
    all_room(jobs) <= 1_048_576
}

// Whether a session has a call.
fn is_any_running<S: PageStore, T: DeadRows + Drop>(world: &World<S, T>) -> bool
    ensures yes { result ≡ true
        → (session : ℕ) × (has_call world.now.calls.slots.items session ≡ true) }
    ensures no { result ≡ false → AreIdle world.now.calls.slots.items }
{
    for session in 0..world.sessions() {
        if world.is_running(session) {
            return true;
        }
    }
    false
}

/// Why a run is refused before anything is made for it, if it is: `BadLimits` if a limit is passed, else
/// `SessionBusy` if a session has a call.
pub fn refusal<S: PageStore, T: DeadRows + Drop>(
    world: &World<S, T>,
    jobs: &[Job],
    workers: u32,
) -> Option<Fault>
    ensures refused { IfSome result (λ fault.
        RunIsRefusedFor fault world.now.calls.slots.items jobs.now workers) }
    ensures limits { result ≡ None
        → IsWithinLimits (length world.now.calls.slots.items) jobs.now workers }
    ensures free { result ≡ None → AreIdle world.now.calls.slots.items }
{
    if !is_within_limits(world.sessions(), jobs, workers) {
        return Some(Fault::BadLimits);
    }
    if is_any_running(world) {
        return Some(Fault::SessionBusy);
    }
    None
}

//! When a worker may do an event, and whether the lock was opened.

ghost use Rattle.std.specs.Prelude.{◌≡◌};
ghost use Rattle.sessions.specs.Ready.{is_open, may_record};

use crate::slot::RunSlot;
use crate::started::Started;
use index_model::DeadRows;
use page_action::PageStore;
use shared_world::JobsOn;

/// Whether a worker may do an event: the lock was opened, and there is room for one record more.
pub fn is_ready<S: PageStore, T: DeadRows + Drop, J: JobsOn<S>>(slot: &RunSlot<S, T, J>) -> bool
    ensures { result ≡ may_record slot.now }
{
    match slot {
        RunSlot::Open(shared, _) => shared.history.len() < shared.history.capacity(),
        _ => false,
    }
}

/// Whether the lock was opened.
pub fn is_open<S: PageStore, T: DeadRows + Drop, J: JobsOn<S>>(slot: &RunSlot<S, T, J>) -> bool
    ensures { result ≡ is_open slot.now }
{
    match slot {
        RunSlot::Open(_, _) => true,
        _ => false,
    }
}

/// That all workers have started. None if the lock wasn't opened.
pub fn started_in<S: PageStore, T: DeadRows + Drop, J: JobsOn<S>>(
    slot: &RunSlot<S, T, J>,
) -> Option<Started<J>> {
    match slot {
        RunSlot::Open(_, started) => Some(started.again()),
        _ => None,
    }
}

/// Whether the workers wait for the lock to be opened, or closed.
pub fn is_waiting<S: PageStore, T: DeadRows + Drop, J: JobsOn<S>>(slot: &RunSlot<S, T, J>) -> bool {
    match slot {
        RunSlot::Waiting => true,
        _ => false,
    }
}

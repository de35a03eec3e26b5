//! One step of a call that goes on beside others.

ghost use Rattle.std.specs.Prelude.{◌≡◌, None, length};
ghost use Rattle.page_action.specs.States.{Continues};
ghost use Rattle.schedule.specs.Sessions.{here};
ghost use Rattle.whole_calls.specs.Going.{CallIsRun};
ghost use Rattle.whole_calls.specs.Made.{IsMadeOf};
ghost use Rattle.whole_calls.specs.OneStep.{IsMadeAsStep, OneStepAlways, OneStepComesTo, OneStepIsRun, cut_short};

use crate::running::{give_up, make_room};
use index_model::{DeadRows, Fault};
use page_action::PageStore;
use session_calls::{Answer, Calls};

// What a call answers that is given up for this fault.
fn cut_short(added: Option<u64>, fault: Fault) -> Answer
    ensures { result ≡ cut_short added fault }
{
    match added {
        Some(action) => Answer::Added {
            action,
            unfinished: Some(fault),
        },
        None => Answer::Refused(fault),
    }
}

/// One step of the session's call, as the event `Step` makes it, and what it answers. If the log has room for
/// fewer than `least_room` images, a checkpoint is made before. If that is refused, with `Io` (2) or
/// `Stopped` (3), the call is given up because of this fault. An insert whose entry is added answers it in
/// `unfinished`; any other call is refused with it.
pub fn take_step<S: PageStore, T: DeadRows>(
    store: &mut S,
    calls: &mut Calls,
    sets: &[T],
    session: u32,
    least_room: u32,
) -> Answer
    ensures steps { Continues S.follows store.old store.new }
    ensures sessions { length calls.new.slots.items ≡ length calls.old.slots.items }
    // With `least_room` 5 or more it never answers `LogFull`.
    ensures goes { CallIsRun S.PageStore session
        (OneStepIsRun S.PageStore session least_room result) None
        (here T.DeadRows store.old calls.old sets.now)
        (here T.DeadRows store.new calls.new sets.now) }
    // Whatever the pages are.
    ensures made { IsMadeOf S.PageStore session least_room (OneStepComesTo result)
        (here T.DeadRows store.old calls.old sets.now)
        (here T.DeadRows store.new calls.new sets.now) }
    // Which events it is made of.
    ensures events { IsMadeAsStep S.PageStore session least_room result
        (here T.DeadRows store.old calls.old sets.now)
        (here T.DeadRows store.new calls.new sets.now) }
    ensures always { OneStepAlways S.PageStore session result
        (here T.DeadRows store.old calls.old sets.now)
        (here T.DeadRows store.new calls.new sets.now) }
{
    match make_room(store, least_room) {
        Ok(()) => schedule::step(store, calls, sets, session),
        Err(fault) => {
            let added = calls.added(session);
            give_up(store, calls, sets, session);
            cut_short(added, fault)
        }
    }
}

//! Calls that are run in parts, between calls of other sessions.

ghost use Rattle.std.specs.Prelude.{◌≡◌, ◌≢◌, map};
ghost use Rattle.page_action.specs.States.{Continues};
ghost use Rattle.session_calls.specs.Ops.{RunsOn};
ghost use Rattle.schedule.specs.Sessions.{here, op_of, SameOthers};
ghost use Rattle.whole_calls.specs.Going.{CallIsRunFrom};
ghost use Rattle.whole_calls.specs.Made.{IsMadeOf};
ghost use Rattle.whole_calls.specs.Meanings.{MayComeTo};
ghost use Rattle.whole_calls.specs.Parts.{PartComesTo, PartIsRun, RunsUnlessLast, part_outcome};

use crate::running::step;
use index_model::DeadRows;
use page_action::PageStore;
use session_calls::{Answer, Calls};

/// Makes `count` steps of the session's call, until one doesn't answer `Going`, and gives that answer; after
/// the last, `Going`. No steps do nothing. If a step is refused with `Blocked` (4), or a checkpoint before a
/// step is refused, the call runs on, and the next part tries that step again; any other refusal of a step
/// ends it.
pub fn take_steps<S: PageStore, T: DeadRows>(
    store: &mut S,
    calls: &mut Calls,
    sets: &[T],
    session: u32,
    count: u32,
    least_room: u32,
) -> Answer
    ensures steps { Continues S.follows store.old store.new }
    ensures others { SameOthers session calls.old calls.new }
    ensures goes { CallIsRunFrom S.PageStore session (PartIsRun S.PageStore session least_room result)
        (part_outcome result) (here T.DeadRows store.old calls.old sets.now)
        (here T.DeadRows store.new calls.new sets.now) }
    // Whatever the pages are; and if the call goes on, exactly `count` steps were made.
    ensures made { IsMadeOf S.PageStore session least_room (PartComesTo count result)
        (here T.DeadRows store.old calls.old sets.now)
        (here T.DeadRows store.new calls.new sets.now) }
    ensures kind { result ≢ Answer.Going
        → MayComeTo (map T.is_in sets.now) (op_of calls.old session) result }
    ensures idle { count ≡ 0 → (store.new ≡ store.old) × (calls.new ≡ calls.old) }
    // What the session runs then, if anything, is of the kind that it ran before.
    ensures runs_on { RunsOn (op_of calls.old session) (op_of calls.new session) }
    ensures lasts { RunsUnlessLast (op_of calls.old session) (op_of calls.new session) result }
{
    let _limits = store.limits();
    let mut left = count;
    while left > 0 {
        match step(store, calls, sets, session, least_room) {
            Answer::Going => {}
            answer => return answer,
        }
        left -= 1;
    }
    Answer::Going
}

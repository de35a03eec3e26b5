//! Calls of a world's sessions, stepped until a step doesn't go on. Each line of a script that runs steps
//! itself is a run of the world's events.

ghost use Rattle.std.specs.Prelude.{◌≡◌, ◌≢◌, ◌≤◌, ◌∷◌, []};
ghost use Rattle.page_action.specs.States.{Continues};
ghost use Rattle.world.specs.Worlds.{ForEachWorldHistory};
ghost use Rattle.command_line.specs.Stepping.{IsSteppedInsert, IsStepped, SameSizes};

use index_model::{DeadRows, Entry, Fault};
use page_action::PageStore;
use schedule::Event;
use session_calls::Answer;
use world::World;

/// Steps of a session's call until one doesn't answer `Going`, and that answer. Over a device that breaks its
/// model a call that goes on and on is refused with `PageDamaged(0)` (17), after 2^64 - 1 steps.
pub fn run_call<S: PageStore, T: DeadRows + Drop>(world: &mut World<S, T>, session: u32) -> Answer
    requires pages { (S.state world.old.store).format.pages ≤ 65536 }
    ensures steps { Continues S.follows world.old.store world.new.store }
    ensures sizes { SameSizes S.PageStore world.old world.new }
    ensures goes { ForEachWorldHistory S.PageStore T.DeadRows world.old world.new
        (IsStepped S.PageStore T.DeadRows [] [] session result world.old world.new) }
    ensures over { result ≢ Answer.Going }
{
    // Over a device that breaks its model nothing else bounds the steps; over one that keeps it this many are
    // never made.
    let mut left = u64::MAX;
    while left > 0 {
        match world.one(Event::Step(session)) {
            Answer::Going => {}
            answer => return answer,
        }
        left -= 1;
    }
    Answer::Refused(Fault::PageDamaged(0))
}

/// Begins an insert and steps it as `run_call` does. Refused as its beginning is, and as `run_call` is.
pub fn run_insert<S: PageStore, T: DeadRows + Drop>(
    world: &mut World<S, T>,
    session: u32,
    entry: Entry,
) -> Answer
    requires pages { (S.state world.old.store).format.pages ≤ 65536 }
    ensures sizes { SameSizes S.PageStore world.old world.new }
    ensures goes { ForEachWorldHistory S.PageStore T.DeadRows world.old world.new
        (IsSteppedInsert S.PageStore T.DeadRows session entry result world.old world.new) }
    ensures over { result ≢ Answer.Going }
{
    match world.one(Event::Insert(session, entry)) {
        Answer::Begun => run_call(world, session),
        answer => answer,
    }
}

/// The next entry that a session's scan has ready; if none is, one step of it.
pub fn next_or_step<S: PageStore, T: DeadRows + Drop>(
    world: &mut World<S, T>,
    session: u32,
) -> Answer
    ensures { SameSizes S.PageStore world.old world.new }
{
    match world.one(Event::Next(session)) {
        Answer::Gave(None) => world.one(Event::Step(session)),
        answer => answer,
    }
}

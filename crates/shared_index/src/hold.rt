//! One hold of the lock: events of one session's call.

ghost use Rattle.std.specs.Prelude.{◌≡◌, None, Some};
ghost use Rattle.session_seats.specs.Seats.{view_of};
ghost use Rattle.world.specs.Worlds.{inside};
ghost use Rattle.shared_world.specs.Leaving.{RunsItsCall, call_in};
ghost use Rattle.shared_world.specs.Rows.{rows_in, set_asked};
ghost use Rattle.shared_index.specs.Sessions.{HoldBegins, HoldLeaves, IsNoScan};

use index_model::{DeadRows, Fault};
use page_action::PageStore;
use session_calls::Answer;
use session_seats::{SessionGroup, SessionSeat};
use shared_world::{Job, Live, OriginOn, SessionTurn};

/// How many steps a hold makes at most.
const MOST_STEPS: u32 = 1_024;

/// What a hold of the lock leaves a session.
#[derive(Drop)]
pub struct HoldEnd<J: SessionGroup> {
    pub seat: SessionSeat<J>,
    /// The answer of the call, if it is over.
    pub answer: Option<Answer>,
    /// Whether there was an event that wasn't blocked.
    pub moved: bool,
    /// The page by which the last step was blocked.
    pub blocked: Option<u32>,
    /// Whether the call can't be given up, since its entry is added.
    pub is_bound: bool,
}

/// The page by which a step was blocked.
pub fn blocked_by(answer: &Answer) -> Option<u32> {
    match answer {
        Answer::Refused(Fault::Blocked(page)) => Some(*page),
        _ => None,
    }
}

// A hold after which the call is over, with this answer.
fn over<J: SessionGroup>(seat: SessionSeat<J>, answer: Answer) -> HoldEnd<J>
    ensures seat { result.seat ≡ seat }
    ensures answer { result.answer ≡ Some answer }
{
    HoldEnd {
        seat,
        answer: Some(answer),
        moved: true,
        blocked: None,
        is_bound: false,
    }
}

// A hold after which the call runs on.
fn running<J: SessionGroup>(seat: SessionSeat<J>) -> HoldEnd<J>
    ensures seat { result.seat ≡ seat }
    ensures answer { result.answer ≡ None }
{
    HoldEnd {
        seat,
        answer: None,
        moved: true,
        blocked: None,
        is_bound: false,
    }
}

// The end of a hold whose last step was blocked by this page, after it had moved or not. If the call is to be
// given up, it is, unless its entry is added.
fn stopped<S: PageStore, T: DeadRows + Drop, J: OriginOn<S>>(
    live: &mut Live<S, T, J>,
    seat: SessionSeat<J>,
    page: u32,
    moved: bool,
    gives_up: bool,
) -> HoldEnd<J>
    requires runs { RunsItsCall (view_of seat.pass) }
    requires writes { IsNoScan (call_in (view_of seat.pass)).asked }
    ensures session { result.seat.session ≡ seat.session }
    ensures told { HoldLeaves (call_in (view_of seat.pass)) result.answer
        (view_of seat.pass) (view_of result.seat.pass) }
{
    let is_bound = live.world.added(seat.session).is_some();
    let blocked = Some(page);
    if gives_up && !is_bound {
        let seat = live.end(seat);
        return HoldEnd {
            seat,
            answer: Some(Answer::Ended),
            moved: true,
            blocked,
            is_bound,
        };
    }
    HoldEnd {
        seat,
        answer: None,
        moved,
        blocked,
        is_bound,
    }
}

/// Steps of the session's call, until it is over, or blocked, or has had its share. If it is to be given up,
/// it is when it is blocked, unless its entry is added.
pub fn go_on<S: PageStore, T: DeadRows + Drop, J: OriginOn<S>>(
    live: &mut Live<S, T, J>,
    seat: SessionSeat<J>,
    gives_up: bool,
) -> HoldEnd<J>
    requires runs { RunsItsCall (view_of seat.pass) }
    requires writes { IsNoScan (call_in (view_of seat.pass)).asked }
    ensures session { result.seat.session ≡ seat.session }
    ensures told { HoldLeaves (call_in (view_of seat.pass)) result.answer
        (view_of seat.pass) (view_of result.seat.pass) }
{
    let mut mine = seat;
    for step in 0..MOST_STEPS {
        let SessionTurn {
            seat: next,
            answer,
            over: is_over,
        } = live.step(mine);
        mine = next;
        if is_over {
            return over(mine, answer);
        }
        if let Some(page) = blocked_by(&answer) {
            return stopped(live, mine, page, step > 0, gives_up);
        }
    }
    running(mine)
}

/// Begins a call of the session, and goes on with it.
pub fn begin_and_go_on<S: PageStore, T: DeadRows + Drop, J: OriginOn<S>>(
    live: &mut Live<S, T, J>,
    seat: SessionSeat<J>,
    asked: Job,
) -> HoldEnd<J>
    requires idle { (view_of seat.pass).call ≡ None }
    requires writes { IsNoScan asked }
    ensures session { result.seat.session ≡ seat.session }
    ensures told { HoldBegins asked (rows_in (set_asked (inside T.DeadRows live.old.world).sets asked))
        result.answer (view_of seat.pass) (view_of result.seat.pass) }
{
    let SessionTurn {
        seat,
        answer,
        over: is_over,
    } = live.begin(seat, asked);
    if is_over {
        return over(seat, answer);
    }
    go_on(live, seat, false)
}

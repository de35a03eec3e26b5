//! One hold of the lock: events of one session's scan.

ghost use Rattle.std.specs.Prelude.{◌≡◌, ◌<◌, ◌+◌, ◌∷◌, [], true, false, None, IfSome, vec_len, vec_capacity};
ghost use Rattle.session_seats.specs.Calls.{gift_of};
ghost use Rattle.session_seats.specs.Seats.{view_of};
ghost use Rattle.shared_index.specs.Scanning.{HasGivenMost, HasTakenMore, RunsScan, scan_room};

use crate::hold::blocked_by;
use index_model::{DeadRows, Entry};
use page_action::PageStore;
use session_calls::Answer;
use session_seats::{SessionGroup, SessionSeat};
use shared_world::{Live, OriginOn, SessionTurn};

/// How many entries or steps a hold takes at most.
const MOST_TURNS: u32 = 512;

/// What a part of a batch leaves a session.
#[derive(Drop)]
pub struct ScanTurn<J: SessionGroup> {
    pub seat: SessionSeat<J>,
    /// How many entries the scan has given.
    pub count: u32,
    /// The answer of the scan, if it is over.
    pub over: Option<Answer>,
    /// The page by which the last step was blocked.
    pub blocked: Option<u32>,
}

/// What a hold of the lock leaves a session that gives a batch.
#[derive(Drop)]
pub struct ScanHold<J: SessionGroup> {
    pub turn: ScanTurn<J>,
    /// Whether the batch goes on.
    pub goes_on: bool,
    /// Whether there was an event that wasn't blocked.
    pub moved: bool,
    pub ghost runs: { goes_on ≡ true → turn.over ≡ None },
}

// What a part leaves a scan that runs on.
fn running<J: SessionGroup>(seat: SessionSeat<J>, count: u32, blocked: Option<u32>) -> ScanTurn<J>
    ensures seat { result.seat ≡ seat }
    ensures count { result.count ≡ count }
    ensures over { result.over ≡ None }
{
    ScanTurn {
        seat,
        count,
        over: None,
        blocked,
    }
}

// The entry that an answer gives, if it gives one.
fn gift(answer: &Answer) -> Option<Entry>
    ensures some { IfSome result (λ entry. gift_of answer.now ≡ entry ∷ []) }
    ensures none { result ≡ None → gift_of answer.now ≡ [] }
{
    match answer {
        Answer::Gave(entry) => *entry,
        _ => None,
    }
}

// The next entry that the session's scan has ready; if none is, one step of it.
fn advance<S: PageStore, T: DeadRows + Drop, J: OriginOn<S>>(
    live: &mut Live<S, T, J>,
    seat: SessionSeat<J>,
    count: u32,
    given: &mut Vec<Entry>,
) -> ScanTurn<J>
    requires runs { RunsScan count (view_of seat.pass) }
    requires few { count + 1 < scan_room }
    requires room { vec_len given.old < vec_capacity given.old }
    ensures session { result.seat.session ≡ seat.session }
    ensures room { vec_capacity given.new ≡ vec_capacity given.old }
    ensures count { result.over ≡ None → RunsScan result.count (view_of result.seat.pass) }
    ensures taken { HasTakenMore result.over given.old.items given.new.items
        (view_of seat.pass) (view_of result.seat.pass) }
{
    let (seat, answer) = live.next(seat);
    if let Some(entry) = gift(&answer) {
        given.push_reserved(entry);
        return running(seat, count + 1, None);
    }
    let SessionTurn { seat, answer, over } = live.step(seat);
    if over {
        return ScanTurn {
            seat,
            count,
            over: Some(answer),
            blocked: None,
        };
    }
    running(seat, count, blocked_by(&answer))
}

/// Entries of the session's scan and steps of it, until it is over, or blocked, or there is no room, or it
/// has had its share.
pub fn take<S: PageStore, T: DeadRows + Drop, J: OriginOn<S>>(
    live: &mut Live<S, T, J>,
    seat: SessionSeat<J>,
    count: u32,
    given: &mut Vec<Entry>,
) -> ScanHold<J>
    requires runs { RunsScan count (view_of seat.pass) }
    ensures session { result.turn.seat.session ≡ seat.session }
    ensures room { vec_capacity given.new ≡ vec_capacity given.old }
    ensures count { result.turn.over ≡ None
        → RunsScan result.turn.count (view_of result.turn.seat.pass) }
    ensures most { result.goes_on ≡ false → result.turn.over ≡ None
        → vec_len given.new < vec_capacity given.new → HasGivenMost (view_of result.turn.seat.pass) }
    ensures taken { HasTakenMore result.turn.over given.old.items given.new.items
        (view_of seat.pass) (view_of result.turn.seat.pass) }
{
    let mut mine = seat;
    let mut taken = count;
    for turns in 0..MOST_TURNS {
        let moved = turns > 0;
        if given.len() >= given.capacity() || taken >= u32::MAX - 1 {
            return ScanHold {
                turn: running(mine, taken, None),
                goes_on: false,
                moved,
            };
        }
        let turn = advance(live, mine, taken, given);
        if turn.over.is_some() || turn.blocked.is_some() {
            let goes_on = turn.over.is_none();
            return ScanHold {
                turn,
                goes_on,
                // A scan that is over has let its page go, for which others may wait.
                moved: moved || !goes_on,
            };
        }
        let ScanTurn { seat, count, .. } = turn;
        mine = seat;
        taken = count;
    }
    ScanHold {
        turn: running(mine, taken, None),
        goes_on: true,
        moved: true,
    }
}

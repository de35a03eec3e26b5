//! The cell that ties what the workers know to what lies under the lock.

ghost use Rattle.std.specs.Prelude.{◌≡◌, [], IfSome};
ghost use Rattle.worker_seats.specs.Seats.{registry_of, known_by};

use atomic_table::{Join, Play, Seat, Split, Table, TableRule};
use std::alloc::Global;
use std::collections::LinkedList;

/// What a pass of the cell knows. A registry: the log of all notes, and which job each session runs. A seat:
/// its session, which job that runs, and the places and jobs of its notes. No value of it is made.
pub struct SeatView {
    pub keeps: bool,
    pub log: LinkedList<(u64, u64)>,
    pub running: LinkedList<Option<u64>>,
    pub sits: bool,
    pub worker: u64,
    pub job: Option<u64>,
    pub notes: LinkedList<(u64, u64)>,
}

/// The rule of the seats: all views fit one log. The word of the cell is the job of the last exchange.
pub struct SeatRule;

impl TableRule<(), SeatView, ()> for SeatRule {
    ghost use Rattle.std.specs.Prelude.{[]};
    ghost use Rattle.worker_seats.specs.Seats.{registry_of, SeatsFit};

    ghost holds = { λ key s. SeatsFit s.views };

    ghost first = { λ key. registry_of [] [] };
}

/// A call begins.
pub struct Starts;

impl Play<(), SeatView> for Starts {
    ghost use Rattle.worker_seats.specs.Seats.{SeatHasStarted};

    ghost then = { SeatHasStarted };
}

/// A call ends, with its note.
pub struct Notes;

impl Play<(), SeatView> for Notes {
    ghost use Rattle.worker_seats.specs.Seats.{HasNoted};

    ghost then = { HasNoted };
}

/// The cell is looked at.
pub struct Checks;

impl Play<(), SeatView> for Checks {
    ghost use Rattle.worker_seats.specs.Seats.{HasChecked};

    ghost then = { HasChecked };
}

/// A seat comes beside the registry, and leaves it.
pub struct Sitting;

impl Split<SeatView> for Sitting {
    ghost use Rattle.worker_seats.specs.Seats.{registry_in, seat_in};

    ghost left = { registry_in };

    ghost right = { seat_in };
}

impl Join<SeatView> for Sitting {
    ghost use Rattle.worker_seats.specs.Seats.{beside, nobody};

    ghost both = { beside };

    ghost spent = { nobody };
}

/// There is a seat for one session more.
pub struct Opening;

impl Split<SeatView> for Opening {
    ghost use Rattle.worker_seats.specs.Seats.{registry_of_one_more, seat_of_one_more};

    ghost left = { registry_of_one_more };

    ghost right = { seat_of_one_more };
}

/// The cell of the seats.
pub type SeatCell = Table<(), SeatView, (), SeatRule, Global>;

/// A pass of the cell: a worker's, or the registry's.
pub type SeatPass = Seat<(), SeatView>;

/// A cell of seats, with the registry's pass, which knows of no note and no session. None if there is no
/// memory for it.
pub fn make_cell(alloc: Global) -> Option<(SeatCell, SeatPass)>
    ensures cell { IfSome result (λ c. c.1.table_id ≡ c.0.shared.table_id) }
    ensures word { IfSome result (λ c. c.0.shared.table_id.words ≡ 1) }
    ensures registry { IfSome result (λ c. known_by c.1 ≡ registry_of [] []) }
{
    SeatCell::of_words(alloc, &[0], &()).ok()
}

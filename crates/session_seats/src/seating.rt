//! The cell that ties what the sessions know to what lies under the lock.

ghost use Rattle.std.specs.Prelude.{◌≡◌, [], IfSome};
ghost use Rattle.session_seats.specs.Seats.{registry_with, view_of};

use crate::call::{CompletedCall, Notice, PendingCall};
use atomic_table::{Join, Play, Seat, Split, Table, TableRule};
use std::alloc::Global;
use std::collections::LinkedList;
use std::marker::{Brand, PhantomData};

/// What a pass of the cell knows. A registry: the log of all calls that are over, and which call each session
/// runs. A seat: its session, which call that runs, and those of the log that are its own, with their places.
/// No value of it is made.
pub struct SessionView {
    pub keeps: bool,
    pub log: LinkedList<CompletedCall>,
    pub pending: LinkedList<Option<PendingCall>>,
    pub sits: bool,
    pub session: u64,
    pub call: Option<PendingCall>,
    pub calls: LinkedList<(u64, CompletedCall)>,
}

/// The rule of the seats: all views fit one log. The word of the cell never changes.
pub struct SessionRule;

impl TableRule<Notice, SessionView, ()> for SessionRule {
    ghost use Rattle.std.specs.Prelude.{[]};
    ghost use Rattle.session_seats.specs.Seats.{registry_with, ViewsAgree};

    ghost holds = { λ key s. ViewsAgree s.views };

    ghost first = { λ key. registry_with [] [] };
}

/// Which rows a call that begins is to remove. Who begins it picks them.
pub trait AskedRows {
    ghost use Rattle.std.specs.Prelude.{List};
    ghost use Rattle.index_model.specs.Row.{Row};

    /// These, in order.
    ghost rows: { List Row };
}

impl AskedRows for Brand {
    ghost use Rattle.std.specs.Prelude.{[]};

    ghost rows = { [] };
}

/// A call begins: the notice tells what is asked, the type which rows it is to remove.
pub struct Begins<B> {
    marker: PhantomData<B>,
}

impl<B: AskedRows> Play<Notice, SessionView> for Begins<B> {
    ghost use Rattle.session_seats.specs.Seats.{HasBegunCall};

    ghost then = { HasBegunCall B.rows };
}

/// A call gives the entry of the notice's answer.
pub struct Gives;

impl Play<Notice, SessionView> for Gives {
    ghost use Rattle.session_seats.specs.Seats.{HasGivenEntry};

    ghost then = { HasGivenEntry };
}

/// A call ends with the notice's answer.
pub struct Ends;

impl Play<Notice, SessionView> for Ends {
    ghost use Rattle.session_seats.specs.Seats.{HasEndedCall};

    ghost then = { HasEndedCall };
}

/// The cell is looked at.
pub struct Looks;

impl Play<Notice, SessionView> for Looks {
    ghost use Rattle.session_seats.specs.Seats.{HasLooked};

    ghost then = { HasLooked };
}

/// A seat comes beside the registry, and leaves it.
pub struct Sits;

impl Split<SessionView> for Sits {
    ghost use Rattle.session_seats.specs.Seats.{registry_part, seat_part};

    ghost left = { registry_part };

    ghost right = { seat_part };
}

impl Join<SessionView> for Sits {
    ghost use Rattle.session_seats.specs.Seats.{seated, no_view};

    ghost both = { seated };

    ghost spent = { no_view };
}

/// There is a seat for one session more.
pub struct Opens;

impl Split<SessionView> for Opens {
    ghost use Rattle.session_seats.specs.Seats.{registry_opening, seat_opening};

    ghost left = { registry_opening };

    ghost right = { seat_opening };
}

/// The cell of the seats.
pub type SessionCell = Table<Notice, SessionView, (), SessionRule, Global>;

/// A pass of the cell: a session's, or the registry's.
pub type SessionPass = Seat<Notice, SessionView>;

/// A cell of seats, with the registry's pass, which knows of no call and no session. None if there is no
/// memory for it.
pub fn make_cell(alloc: Global) -> Option<(SessionCell, SessionPass)>
    ensures cell { IfSome result (λ c. c.1.table_id ≡ c.0.shared.table_id) }
    ensures word { IfSome result (λ c. c.0.shared.table_id.words ≡ 1) }
    ensures registry { IfSome result (λ c. view_of c.1 ≡ registry_with [] []) }
{
    SessionCell::of_words(alloc, &[0], &()).ok()
}

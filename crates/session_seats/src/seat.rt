//! A session's seat.

ghost use Rattle.std.specs.Prelude.{◌≡◌, ◌<◌, ◌++◌, ◌∷◌, [], true, length, Some, None, slice_get, slice_set};
ghost use Rattle.session_seats.specs.Calls.{begun_by, completed_by, given_by};
ghost use Rattle.session_seats.specs.Seats.{SeatAgrees, when_begun, when_ended, when_given, seated, registry_part, registry_with, view_of, calls_by, seat_part, sitting};

use crate::call::Notice;
use crate::desk::SessionDesk;
use crate::group::SessionGroup;
use crate::seating::{
    AskedRows, Begins, Ends, Gives, Looks, Opens, SessionCell, SessionPass, Sits,
};
use std::marker::PhantomData;

/// What a session knows: which call it runs, and which it has had. Whoever has it acts for the session.
#[derive(Drop)]
pub struct SessionSeat<J: SessionGroup> {
    pub session: u32,
    pub pass: SessionPass,
    pub of: PhantomData<J>,
    pub ghost cell: { pass.table_id ≡ J.sessions },
    pub ghost idle: { pass.me.1 ≡ [] },
    pub ghost sits: { view_of pass
        ≡ sitting true session (view_of pass).call (view_of pass).calls },
}

/// Tells what the seat knows at the registry's moment.
pub fn check<J: SessionGroup>(desk: &mut SessionDesk<J>, seat: SessionSeat<J>) -> SessionSeat<J>
    ensures registry { view_of desk.new.registry ≡ view_of desk.old.registry }
    ensures call { slice_get (view_of desk.old.registry).pending seat.session
        ≡ Some (view_of seat.pass).call }
    ensures calls { (view_of seat.pass).calls
        ≡ calls_by seat.session (view_of desk.old.registry).log }
    ensures session { result.session ≡ seat.session }
    ensures view { view_of result.pass ≡ view_of seat.pass }
{
    let SessionSeat { session, pass, of } = seat;
    let SessionDesk {
        cell,
        registry,
        of: _,
    } = desk;
    sit_down(cell, registry, pass);
    look(cell, registry);
    let pass = leave(cell, registry);
    SessionSeat { session, pass, of }
}

/// The call of the seat's session begins, which is asked what the notice tells, and is to remove these rows.
pub fn begin<J: SessionGroup, B: AskedRows>(
    desk: &mut SessionDesk<J>,
    seat: SessionSeat<J>,
    notice: &Notice,
) -> SessionSeat<J>
    ensures registry { view_of desk.new.registry ≡ registry_with (view_of desk.old.registry).log
        (slice_set (view_of desk.old.registry).pending seat.session
        (Some (begun_by B.rows notice.now (length (view_of desk.old.registry).log)))) }
    ensures session { result.session ≡ seat.session }
    ensures call { (view_of result.pass).call
        ≡ Some (begun_by B.rows notice.now (length (view_of desk.old.registry).log)) }
    ensures calls { (view_of result.pass).calls ≡ (view_of seat.pass).calls }
{
    let SessionSeat { session, pass, of } = seat;
    let SessionDesk {
        cell,
        registry,
        of: _,
    } = desk;
    sit_down(cell, registry, pass);
    begin_there::<B>(cell, registry, notice);
    let pass = leave(cell, registry);
    SessionSeat { session, pass, of }
}

/// The call of the seat's session gives the entry of the notice's answer.
pub fn gave<J: SessionGroup>(
    desk: &mut SessionDesk<J>,
    seat: SessionSeat<J>,
    notice: &Notice,
) -> SessionSeat<J>
    ensures registry { view_of desk.new.registry ≡ registry_with (view_of desk.old.registry).log
        (slice_set (view_of desk.old.registry).pending seat.session
        (given_by notice.now (view_of seat.pass).call)) }
    ensures session { result.session ≡ seat.session }
    ensures call { (view_of result.pass).call ≡ given_by notice.now (view_of seat.pass).call }
    ensures calls { (view_of result.pass).calls ≡ (view_of seat.pass).calls }
{
    let SessionSeat { session, pass, of } = seat;
    let SessionDesk {
        cell,
        registry,
        of: _,
    } = desk;
    sit_down(cell, registry, pass);
    give_there(cell, registry, notice);
    let pass = leave(cell, registry);
    SessionSeat { session, pass, of }
}

/// The call of the seat's session ends with the notice's answer, and stands at the end of the log.
pub fn end<J: SessionGroup>(
    desk: &mut SessionDesk<J>,
    seat: SessionSeat<J>,
    notice: &Notice,
) -> SessionSeat<J>
    ensures registry { view_of desk.new.registry ≡ registry_with ((view_of desk.old.registry).log
        ++ completed_by seat.session notice.now (view_of seat.pass).call ∷ [])
        (slice_set (view_of desk.old.registry).pending seat.session None) }
    ensures session { result.session ≡ seat.session }
    ensures call { (view_of result.pass).call ≡ None }
    ensures calls { (view_of result.pass).calls ≡ (view_of seat.pass).calls
        ++ (
          length (view_of desk.old.registry).log,
          completed_by seat.session notice.now (view_of seat.pass).call,
        ) ∷ [] }
{
    let SessionSeat { session, pass, of } = seat;
    let SessionDesk {
        cell,
        registry,
        of: _,
    } = desk;
    sit_down(cell, registry, pass);
    end_there(cell, registry, notice);
    let pass = leave(cell, registry);
    SessionSeat { session, pass, of }
}

// Brings a seat beside the registry. (Each call of the cell is in a function of its own: three in one cost
// the prover six times as much.)
fn sit_down(cell: &SessionCell, registry: &mut SessionPass, seat: SessionPass)
    requires word { 0 < cell.now.shared.table_id.words }
    requires of { registry.old.table_id ≡ cell.now.shared.table_id }
    requires seat { seat.table_id ≡ registry.old.table_id }
    requires idle { seat.me.1 ≡ [] }
    requires keeps { (view_of registry.old).keeps ≡ true }
    ensures of { registry.new.table_id ≡ registry.old.table_id }
    ensures both { view_of registry.new ≡ seated (view_of registry.old) (view_of seat) }
{
    cell.shared.join_seat::<Sits>(registry, seat);
}

// Parts the registry from the seat that is beside it.
fn leave(cell: &SessionCell, registry: &mut SessionPass) -> SessionPass
    requires word { 0 < cell.now.shared.table_id.words }
    requires of { registry.old.table_id ≡ cell.now.shared.table_id }
    requires keeps { (view_of registry.old).keeps ≡ true }
    ensures of { registry.new.table_id ≡ registry.old.table_id }
    ensures registry { view_of registry.new ≡ registry_part (view_of registry.old) }
    ensures cell { result.table_id ≡ registry.old.table_id }
    ensures seat { view_of result ≡ seat_part (view_of registry.old) }
    ensures idle { result.me.1 ≡ [] }
{
    cell.shared.split_seat::<Sits>(registry)
}

// Looks at the cell: the seat beside the registry fits.
fn look(cell: &SessionCell, registry: &mut SessionPass)
    requires word { 0 < cell.now.shared.table_id.words }
    requires of { registry.old.table_id ≡ cell.now.shared.table_id }
    requires keeps { (view_of registry.old).keeps ≡ true }
    ensures of { registry.new.table_id ≡ registry.old.table_id }
    ensures same { view_of registry.new ≡ view_of registry.old }
    ensures fits { (view_of registry.old).sits ≡ true
        → SeatAgrees (view_of registry.old).log (view_of registry.old).pending (view_of registry.old) }
{
    cell.shared.load::<Looks>(registry, 0);
}

// Begins the call of the seat that is beside the registry. The word stays what it is: only the notice counts.
fn begin_there<B: AskedRows>(cell: &SessionCell, registry: &mut SessionPass, notice: &Notice)
    requires word { 0 < cell.now.shared.table_id.words }
    requires of { registry.old.table_id ≡ cell.now.shared.table_id }
    requires keeps { (view_of registry.old).keeps ≡ true }
    requires sits { (view_of registry.old).sits ≡ true }
    ensures of { registry.new.table_id ≡ registry.old.table_id }
    ensures known { view_of registry.new ≡ when_begun B.rows (view_of registry.old) notice.now }
{
    cell.shared
        .compare_exchange_with::<Begins<B>>(registry, 0, 0, 0, notice);
}

// Gives an entry of it.
fn give_there(cell: &SessionCell, registry: &mut SessionPass, notice: &Notice)
    requires word { 0 < cell.now.shared.table_id.words }
    requires of { registry.old.table_id ≡ cell.now.shared.table_id }
    requires keeps { (view_of registry.old).keeps ≡ true }
    requires sits { (view_of registry.old).sits ≡ true }
    ensures of { registry.new.table_id ≡ registry.old.table_id }
    ensures known { view_of registry.new ≡ when_given (view_of registry.old) notice.now }
{
    cell.shared
        .compare_exchange_with::<Gives>(registry, 0, 0, 0, notice);
}

// Ends it.
fn end_there(cell: &SessionCell, registry: &mut SessionPass, notice: &Notice)
    requires word { 0 < cell.now.shared.table_id.words }
    requires of { registry.old.table_id ≡ cell.now.shared.table_id }
    requires keeps { (view_of registry.old).keeps ≡ true }
    requires sits { (view_of registry.old).sits ≡ true }
    ensures of { registry.new.table_id ≡ registry.old.table_id }
    ensures known { view_of registry.new ≡ when_ended (view_of registry.old) notice.now }
{
    cell.shared
        .compare_exchange_with::<Ends>(registry, 0, 0, 0, notice);
}

/// A seat for one session more. No call is over yet.
pub fn open<J: SessionGroup>(desk: &mut SessionDesk<J>, session: u32) -> SessionSeat<J>
    requires registry { view_of desk.old.registry ≡ registry_with [] (view_of desk.old.registry).pending }
    requires session { session ≡ length (view_of desk.old.registry).pending }
    ensures registry { view_of desk.new.registry
        ≡ registry_with [] ((view_of desk.old.registry).pending ++ None ∷ []) }
    ensures session { result.session ≡ session }
    ensures call { (view_of result.pass).call ≡ None }
    ensures calls { (view_of result.pass).calls ≡ [] }
{
    let SessionDesk {
        cell,
        registry,
        of: _,
    } = desk;
    let pass = cell.shared.split_seat::<Opens>(registry);
    SessionSeat {
        session,
        pass,
        of: PhantomData,
    }
}

//! A worker's seat.

ghost use Rattle.std.specs.Prelude.{◌≡◌, ◌<◌, ◌+◌, ◌++◌, ◌∷◌, [], true, length, Some, None, slice_get, slice_set};
ghost use Rattle.worker_seats.specs.Seats.{SeatFits, after_note, after_start, beside, registry_in, registry_of, known_by, notes_by, seat_in, seat_view};

use crate::desk::Desk;
use crate::run::Run;
use crate::seating::{Checks, Notes, Opening, SeatCell, SeatPass, Sitting, Starts};
use std::marker::PhantomData;
use std::sync::ledger::{Book, Share};

/// What a worker knows of its session, with its share of the ledger, which counts its notes.
#[derive(Drop)]
pub struct Seat<J: Run> {
    pub worker: u32,
    pub share: Share<J>,
    pub pass: SeatPass,
    pub of: PhantomData<J>,
    pub ghost part: { share.parts ≡ 1 },
    pub ghost cell: { pass.table_id ≡ J.seats },
    pub ghost idle: { pass.me.1 ≡ [] },
    pub ghost sits: { known_by pass
        ≡ seat_view true worker (known_by pass).job (known_by pass).notes },
    pub ghost counted: { share.amount ≡ length (known_by pass).notes },
}

/// Tells what the seat knows at the registry's moment.
pub fn check<J: Run>(desk: &mut Desk<J>, seat: Seat<J>) -> Seat<J>
    ensures registry { known_by desk.new.registry ≡ known_by desk.old.registry }
    ensures job { slice_get (known_by desk.old.registry).running seat.worker
        ≡ Some (known_by seat.pass).job }
    ensures notes { (known_by seat.pass).notes
        ≡ notes_by seat.worker (known_by desk.old.registry).log }
    ensures worker { result.worker ≡ seat.worker }
    ensures view { known_by result.pass ≡ known_by seat.pass }
{
    let Seat {
        worker,
        share,
        pass,
        of,
    } = seat;
    let Desk {
        cell,
        registry,
        of: _,
    } = desk;
    sit_down(cell, registry, pass);
    look(cell, registry);
    let pass = leave(cell, registry);
    Seat {
        worker,
        share,
        pass,
        of,
    }
}

/// The call of the seat's session begins, for this job.
pub fn start<J: Run>(desk: &mut Desk<J>, seat: Seat<J>, job: u32) -> Seat<J>
    ensures registry { known_by desk.new.registry ≡ registry_of (known_by desk.old.registry).log
        (slice_set (known_by desk.old.registry).running seat.worker (Some job)) }
    ensures worker { result.worker ≡ seat.worker }
    ensures job { (known_by result.pass).job ≡ Some job }
    ensures notes { (known_by result.pass).notes ≡ (known_by seat.pass).notes }
{
    let Seat {
        worker,
        share,
        pass,
        of,
    } = seat;
    let Desk {
        cell,
        registry,
        of: _,
    } = desk;
    sit_down(cell, registry, pass);
    begin(cell, registry, job);
    let pass = leave(cell, registry);
    Seat {
        worker,
        share,
        pass,
        of,
    }
}

/// The call of the seat's session ends, with its note, and its share counts one more.
pub fn end<J: Run>(desk: &mut Desk<J>, book: &mut Book<J>, seat: Seat<J>, job: u32) -> Seat<J>
    ensures registry { known_by desk.new.registry
        ≡ registry_of ((known_by desk.old.registry).log ++ (seat.worker, job) ∷ [])
        (slice_set (known_by desk.old.registry).running seat.worker None) }
    ensures worker { result.worker ≡ seat.worker }
    ensures job { (known_by result.pass).job ≡ None }
    ensures notes { (known_by result.pass).notes
        ≡ (known_by seat.pass).notes ++ (length (known_by desk.old.registry).log, job) ∷ [] }
    ensures book { book.new.total ≡ book.old.total + 1 }
{
    let Seat {
        worker,
        mut share,
        pass,
        of,
    } = seat;
    let Desk {
        cell,
        registry,
        of: _,
    } = desk;
    sit_down(cell, registry, pass);
    note(cell, registry, job);
    let pass = leave(cell, registry);
    book.add(&mut share, 1);
    Seat {
        worker,
        share,
        pass,
        of,
    }
}

// Brings a seat beside the registry. (Each call of the cell is in a function of its own: three in one cost
// the prover six times as much.)
fn sit_down(cell: &SeatCell, registry: &mut SeatPass, seat: SeatPass)
    requires word { 0 < cell.now.shared.table_id.words }
    requires of { registry.old.table_id ≡ cell.now.shared.table_id }
    requires seat { seat.table_id ≡ registry.old.table_id }
    requires idle { seat.me.1 ≡ [] }
    requires keeps { (known_by registry.old).keeps ≡ true }
    ensures of { registry.new.table_id ≡ registry.old.table_id }
    ensures both { known_by registry.new ≡ beside (known_by registry.old) (known_by seat) }
{
    cell.shared.join_seat::<Sitting>(registry, seat);
}

// Parts the registry from the seat that is beside it.
fn leave(cell: &SeatCell, registry: &mut SeatPass) -> SeatPass
    requires word { 0 < cell.now.shared.table_id.words }
    requires of { registry.old.table_id ≡ cell.now.shared.table_id }
    requires keeps { (known_by registry.old).keeps ≡ true }
    ensures of { registry.new.table_id ≡ registry.old.table_id }
    ensures registry { known_by registry.new ≡ registry_in (known_by registry.old) }
    ensures cell { result.table_id ≡ registry.old.table_id }
    ensures seat { known_by result ≡ seat_in (known_by registry.old) }
    ensures idle { result.me.1 ≡ [] }
{
    cell.shared.split_seat::<Sitting>(registry)
}

// Looks at the cell: the seat beside the registry fits.
fn look(cell: &SeatCell, registry: &mut SeatPass)
    requires word { 0 < cell.now.shared.table_id.words }
    requires of { registry.old.table_id ≡ cell.now.shared.table_id }
    requires keeps { (known_by registry.old).keeps ≡ true }
    ensures of { registry.new.table_id ≡ registry.old.table_id }
    ensures same { known_by registry.new ≡ known_by registry.old }
    ensures fits { (known_by registry.old).sits ≡ true
        → SeatFits (known_by registry.old).log (known_by registry.old).running (known_by registry.old) }
{
    cell.shared.load::<Checks>(registry, 0);
}

// Begins the call of the seat that is beside the registry.
fn begin(cell: &SeatCell, registry: &mut SeatPass, job: u32)
    requires word { 0 < cell.now.shared.table_id.words }
    requires of { registry.old.table_id ≡ cell.now.shared.table_id }
    requires keeps { (known_by registry.old).keeps ≡ true }
    requires sits { (known_by registry.old).sits ≡ true }
    ensures of { registry.new.table_id ≡ registry.old.table_id }
    ensures known { known_by registry.new ≡ after_start (known_by registry.old) job }
{
    cell.shared.swap::<Starts>(registry, 0, u64::from(job));
}

// Ends the call of the seat that is beside the registry, with its note.
fn note(cell: &SeatCell, registry: &mut SeatPass, job: u32)
    requires word { 0 < cell.now.shared.table_id.words }
    requires of { registry.old.table_id ≡ cell.now.shared.table_id }
    requires keeps { (known_by registry.old).keeps ≡ true }
    requires sits { (known_by registry.old).sits ≡ true }
    ensures of { registry.new.table_id ≡ registry.old.table_id }
    ensures known { known_by registry.new ≡ after_note (known_by registry.old) job }
{
    cell.shared.swap::<Notes>(registry, 0, u64::from(job));
}

/// A seat for one session more, with a share of its own.
pub fn open<J: Run>(desk: &mut Desk<J>, share: Share<J>, worker: u32) -> Seat<J>
    requires registry { known_by desk.old.registry ≡ registry_of [] (known_by desk.old.registry).running }
    requires worker { worker ≡ length (known_by desk.old.registry).running }
    requires part { share.parts ≡ 1 }
    requires amount { share.amount ≡ 0 }
    ensures registry { known_by desk.new.registry
        ≡ registry_of [] ((known_by desk.old.registry).running ++ None ∷ []) }
    ensures worker { result.worker ≡ worker }
    ensures job { (known_by result.pass).job ≡ None }
    ensures notes { (known_by result.pass).notes ≡ [] }
{
    let Desk {
        cell,
        registry,
        of: _,
    } = desk;
    let pass = cell.shared.split_seat::<Opening>(registry);
    Seat {
        worker,
        share,
        pass,
        of: PhantomData,
    }
}

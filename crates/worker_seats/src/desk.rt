//! What lies beside the log.

ghost use Rattle.std.specs.Prelude.{◌≡◌};
ghost use Rattle.worker_seats.specs.Seats.{IsCellOf, registry_of, known_by};

use crate::run::Run;
use crate::seating::{SeatCell, SeatPass};
use std::marker::PhantomData;

/// The cell of the seats, with the registry's pass.
#[derive(Drop)]
pub struct Desk<J: Run> {
    pub cell: SeatCell,
    pub registry: SeatPass,
    pub of: PhantomData<J>,
    pub ghost seats: { IsCellOf J.seats cell.shared.table_id },
    pub ghost own: { registry.table_id ≡ J.seats },
    pub ghost rests: { known_by registry
        ≡ registry_of (known_by registry).log (known_by registry).running },
}

impl<J: Run> Desk<J> {
    /// The desk of a run that has picked this cell.
    pub fn new(cell: SeatCell, registry: SeatPass) -> Desk<J>
        requires cell { IsCellOf J.seats cell.shared.table_id }
        requires of { registry.table_id ≡ J.seats }
        requires rests { known_by registry
            ≡ registry_of (known_by registry).log (known_by registry).running }
        ensures registry { result.registry ≡ registry }
    {
        Desk {
            cell,
            registry,
            of: PhantomData,
        }
    }
}

//! What lies beside the index, under its lock.

ghost use Rattle.std.specs.Prelude.{◌≡◌};
ghost use Rattle.session_seats.specs.Seats.{IsSessionCell, registry_with, view_of};

use crate::group::SessionGroup;
use crate::seating::{SessionCell, SessionPass};
use std::marker::PhantomData;

/// The cell of the seats, with the registry's pass.
#[derive(Drop)]
pub struct SessionDesk<J: SessionGroup> {
    pub cell: SessionCell,
    pub registry: SessionPass,
    pub of: PhantomData<J>,
    pub ghost seats: { IsSessionCell J.sessions cell.shared.table_id },
    pub ghost own: { registry.table_id ≡ J.sessions },
    pub ghost rests: { view_of registry
        ≡ registry_with (view_of registry).log (view_of registry).pending },
}

impl<J: SessionGroup> SessionDesk<J> {
    /// The desk of sessions that have picked this cell.
    pub fn new(cell: SessionCell, registry: SessionPass) -> SessionDesk<J>
        requires cell { IsSessionCell J.sessions cell.shared.table_id }
        requires of { registry.table_id ≡ J.sessions }
        requires rests { view_of registry
            ≡ registry_with (view_of registry).log (view_of registry).pending }
        ensures registry { result.registry ≡ registry }
    {
        SessionDesk {
            cell,
            registry,
            of: PhantomData,
        }
    }
}

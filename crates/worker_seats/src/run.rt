use std::marker::Brand;
use std::sync::ledger::Ledger;

/// Which ledger, queue and cell a run has. Each run picks its own.
pub trait Run: Ledger {
    ghost use Rattle.atomic_table.specs.Seated.{TableId};

    /// The cell of the seats.
    ghost seats: { TableId };

    /// The queue of the job numbers.
    ghost queue: { TableId };
}

impl Run for Brand {
    ghost use Rattle.worker_seats.specs.Seats.{no_table};

    ghost seats = { no_table };

    ghost queue = { no_table };
}

use std::marker::Brand;

/// Which cell the sessions of an index have. Each index picks its own.
pub trait SessionGroup {
    ghost use Rattle.atomic_table.specs.Seated.{TableId};

    /// The cell of the seats.
    ghost sessions: { TableId };
}

impl SessionGroup for Brand {
    ghost use Rattle.session_seats.specs.Seats.{no_cell};

    ghost sessions = { no_cell };
}

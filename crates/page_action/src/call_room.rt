//! The room for what sessions have.

ghost use Rattle.std.specs.Prelude.{◌≡◌, IfErr};

use index_model::Fault;
use latch_table::LatchTable;
use std::alloc::Global;
use std::marker::Model;

/// What sessions 0 to 63 have: the start numbers of their running calls, their latches and their pins.
#[derive(Drop)]
pub(crate) struct Sessions {
    /// The start number of each session's running call.
    pub(crate) running: [Option<u64>; 64],
    pub(crate) table: LatchTable,
}

/// The room for the calls and the holds of 64 sessions, none of which has any yet. It is some 6,500 bytes on
/// the heap, so a store that has it is moved quickly.
#[derive(Drop)]
pub struct CallRoom {
    pub(crate) sessions: Box<Sessions>,
}

impl Model for CallRoom {
    ghost use Rattle.std.specs.Prelude.{◌≡◌, None, replicate};
    ghost use Rattle.latch_table.specs.Holdings.{nothing_held};

    ghost Value = { Unit {0} };

    ghost view = { λ _. tt };

    ghost invariant = { λ room. (room.sessions.value.running ≡ replicate 64 None)
        × (room.sessions.value.table ≡ replicate 64 nothing_held) };
}

impl CallRoom {
    /// Refused with `NoMemory` (1) if it cannot be had.
    pub fn new(alloc: Global) -> Result<CallRoom, Fault>
        ensures fault { IfErr result (λ f. f ≡ Fault.NoMemory) }
    {
        let sessions = Sessions {
            running: [None; 64],
            table: LatchTable::new(),
        };
        match Box::new(alloc, sessions) {
            Ok(sessions) => Ok(CallRoom { sessions }),
            Err(_) => Err(Fault::NoMemory),
        }
    }
}

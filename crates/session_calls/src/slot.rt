//! The slot of a session.

ghost use Rattle.std.specs.Prelude.{◌≡◌, None};

use crate::op::Op;
use std::marker::Model;

/// What a session runs, if anything: contracts see an `Option`.
///
/// A call that is over stays where it was, and counts no longer: so an insert begins in the room of the last
/// one, and neither its beginning nor its end fills the room of the largest kind of call.
#[derive(Drop)]
pub struct Slot {
    pub(crate) is_running: bool,
    pub(crate) op: Option<Op>,
}

impl Model for Slot {
    ghost use Rattle.std.specs.Prelude.{Option, None, if◌then◌else◌};
    ghost use Rattle.session_calls.specs.declared.op.Op.{Op};

    ghost Value = { Option Op };

    ghost view = { λ s. if s.is_running then s.op else None };
}

impl Slot {
    ghost use Rattle.session_calls.specs.Sessions.{is_busy, ready_count, slot_add};
    ghost use Rattle.session_calls.specs.Slots.{slot_vacuums};

    /// The slot of a session that runs nothing.
    pub fn new() -> Slot
        ensures { result ≡ None }
    {
        Slot {
            is_running: false,
            op: None,
        }
    }

    /// Whether the session has a call.
    pub fn is_busy(&self) -> bool
        ensures { result ≡ is_busy self.now }
    {
        self.is_running && self.op.is_some()
    }

    /// Whether its call is a bulk delete or a cleanup.
    pub fn vacuums(&self) -> bool
        ensures { result ≡ slot_vacuums self.now }
    {
        if !self.is_running {
            return false;
        }
        match &self.op {
            Some(op) => op.is_vacuum(),
            None => false,
        }
    }

    /// The number of the action that added its call's entry, if that is an insert whose entry is added.
    pub fn added(&self) -> Option<u64>
        ensures { result ≡ slot_add self.now }
    {
        if !self.is_running {
            return None;
        }
        match &self.op {
            Some(op) => op.added(),
            None => None,
        }
    }

    /// How many entries its call has ready to be given.
    pub fn ready(&self) -> u32
        ensures { result ≡ ready_count self.now }
    {
        if !self.is_running {
            return 0;
        }
        match &self.op {
            Some(op) => op.ready(),
            None => 0,
        }
    }
}

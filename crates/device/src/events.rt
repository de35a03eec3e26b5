//! A list of calls that only clauses read.

ghost use Rattle.std.specs.Prelude.{[], ◌∷◌};

use index_model::{Noted, Reckons};
use std::marker::Model;

/// Calls with their answers, the newest first. None is made: it is the type of one that is noted.
pub struct Events {}

impl Model for Events {
    ghost use Rattle.std.specs.Prelude.{List, []};
    ghost use Rattle.device.specs.Event.{Event};

    ghost Value = { List Event };

    ghost view = { λ _. [] };
}

/// No call.
impl Reckons<()> for Events {
    ghost reckoned = { λ _. [] };
}

/// One call more: which it was, where, how many bytes went, whether it succeeded, and its bytes.
impl<'a> Reckons<(u64, u64, u64, bool, &'a [u8], &'a Noted<Events>)> for Events {
    ghost reckoned = { λ x. (x.0, x.1, x.2, x.3, x.4.now) ∷ x.5.now.value };
}

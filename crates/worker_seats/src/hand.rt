//! With what a worker tells a gate of its jobs.

ghost use Rattle.std.specs.Prelude.{◌++◌, ◌∷◌, []};

use index_model::{Noted, Reckons};
use std::marker::Model;

/// With what a worker tells a gate of the jobs that it takes.
pub trait Telling {
    ghost use Rattle.std.specs.Prelude.{List, ℕ};

    /// The jobs that were told with it, in order.
    ghost told: { Self → List ℕ };
}

/// The jobs that were told. None is made: it is the type of those that are noted, which only clauses read.
pub struct Told {}

impl Model for Told {
    ghost use Rattle.std.specs.Prelude.{List, ℕ, []};

    ghost Value = { List ℕ };

    ghost view = { λ _. [] };
}

impl Telling for Noted<Told> {
    ghost told = { λ hand. hand.value };
}

/// None was told.
impl Reckons<()> for Told {
    ghost reckoned = { λ _. [] };
}

/// A job more.
impl<'a> Reckons<(&'a Noted<Told>, u32)> for Told {
    ghost reckoned = { λ x. x.0.now.value ++ x.1 ∷ [] };
}

//! What all that is under a lock agrees on.

use session_seats::SessionGroup;
use std::marker::Brand;

/// What fitted a world as it was handed in. Each index that threads share picks it.
pub trait Origin: SessionGroup {
    ghost use Rattle.std.specs.Prelude.{Bool, List};
    ghost use Rattle.index_model.specs.Actions.{Action};
    ghost use Rattle.index_model.specs.Calls.{Call};
    ghost use Rattle.index_model.specs.declared.entry.Entry.{Entry};
    ghost use Rattle.shared_world.specs.Handed.{Handed};

    /// These contents at the start, this history and these calls fitted the world.
    ghost stood: { (Entry → Bool) → List Action → List Call → Type 0 };

    /// ... and each crash left a prefix of the history.
    ghost kept_then: { (Entry → Bool) → List Action → List Call → Type 0 };

    /// What else is known of the world as it was handed in.
    ghost handed: { Handed };
}

/// ... on a store of this type. Each index picks what its store followed as the world was handed in.
pub trait OriginOn<S>: Origin {
    /// These are stores that it followed.
    ghost followed: { S → Type 0 };
}

impl Origin for Brand {
    ghost use Rattle.std.specs.Prelude.{[]};
    ghost use Rattle.shared_world.specs.Handed.{nothing_handed};

    ghost stood = { λ contents history calls. ⊥ };

    ghost kept_then = { λ contents history calls. ⊥ };

    ghost handed = { nothing_handed };
}

impl<S> OriginOn<S> for Brand {
    ghost followed = { λ first. ⊥ };
}

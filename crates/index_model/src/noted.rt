//! A value that only clauses read.

ghost use Rattle.std.specs.Prelude.{◌≡◌};
ghost use Rattle.std.specs.Borrow.{ftrue};

use std::marker::{Model, PhantomData};

/// How a value is reckoned from what there is. A type has a rule for each kind of note.
pub trait Reckons<X> {
    ghost reckoned: { X → Self };
}

/// A value that only clauses read. It takes no bytes.
#[derive(Drop)]
pub struct Noted<V> {
    marker: PhantomData<V>,
    pub ghost value: { V },
}

impl<V> Model for Noted<V> {
    ghost also_owns = { λ _. ftrue };
}

// It owns nothing.
unsafe impl<V> Send for Noted<V> {}

unsafe impl<V> Sync for Noted<V> {}

/// The value that is reckoned from this.
pub fn reckon<X, V: Reckons<X>>(_from: &X) -> Noted<V>
    ensures { result.value ≡ V.reckoned _from.now }
{
    Noted {
        marker: PhantomData,
    }
}

//! What was done with a device in memory, as lists that only clauses read.

ghost use Rattle.std.specs.Prelude.{ℕ, List};
ghost use Rattle.std.specs.Borrow.{ftrue};
ghost use Rattle.device.specs.Record.{DeviceCall, Write, Sync};

use index_model::{Noted, Reckons};
use std::marker::Model;

/// The bytes that a device began with, and its writes and syncs since, the oldest first. None is made: it is
/// the type of one that is noted.
pub struct Past {
    pub ghost start: { List ℕ },
    pub ghost calls: { List DeviceCall },
}

impl Model for Past {
    ghost also_owns = { λ _. ftrue };
}

/// That a device was synced.
#[derive(Clone, Copy)]
pub struct Synced {}

/// It began with these bytes, and no call was made.
impl Reckons<Vec<u8>> for Past {
    ghost use Rattle.device.specs.Past.{begun_with};

    ghost reckoned = { λ bytes. begun_with bytes.items };
}

/// These bytes were written there.
impl<'a> Reckons<(&'a Noted<Past>, u64, &'a [u8])> for Past {
    ghost use Rattle.device.specs.Past.{with_call};

    ghost reckoned = { λ x. with_call (Write x.1 x.2.now) x.0.now.value };
}

/// It was synced.
impl<'a> Reckons<(&'a Noted<Past>, Synced)> for Past {
    ghost use Rattle.device.specs.Past.{with_call};

    ghost reckoned = { λ x. with_call Sync x.0.now.value };
}

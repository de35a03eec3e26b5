//! A set of dead rows.

use index_model::{DeadRows, RowAddr};

/// The rows of the blocks up to this one.
#[derive(Clone, Copy, Drop)]
pub struct UpTo {
    pub block: u32,
}

impl DeadRows for UpTo {
    ghost use Rattle.std.specs.Prelude.{nat_le};

    ghost is_in = { λ set row. nat_le row.block set.block };

    fn is_dead(&self, row: RowAddr) -> bool {
        row.block() <= self.block
    }
}

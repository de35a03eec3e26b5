//! The set of rows that a `delete` line names.

ghost use Rattle.std.specs.Prelude.{◌≡◌, IfOk, map};
ghost use Rattle.text_forms.specs.Spelling.{row_text};
ghost use Rattle.text_forms.specs.Values.{AreRows};

use index_model::{DeadRows, RowAddr};
use std::alloc::{AllocError, Global};
use text_forms::Rows;

/// The rows of a `delete` line.
#[derive(Drop)]
pub struct Dead {
    pub rows: Vec<RowAddr>,
}

impl DeadRows for Dead {
    ghost use Rattle.std.specs.List.{list_any};

    ghost is_in = { λ dead row.
        list_any (λ one. ⟦<RowAddr as PartialEq>⟧.eq one row) dead.rows.items };

    fn is_dead(&self, row: RowAddr) -> bool {
        self.rows.contains(&row)
    }
}

/// The set of these rows.
pub fn listed(alloc: Global, mut words: Rows<'_>) -> Result<Dead, AllocError>
    ensures { AreRows words.entry → IfOk result (λ dead.
        words.entry ≡ map row_text dead.rows.items) }
{
    let mut rows = Vec::new(alloc);
    while let Some(row) = words.next() {
        rows.push(row)?;
    }
    Ok(Dead { rows })
}

//! The sets of dead rows that `bulk` lines name.

ghost use Rattle.std.specs.Prelude.{◌≡◌, IfOk};
ghost use Rattle.text_forms.specs.Values.{AreRows};
ghost use Rattle.command_line.specs.JobFiles.{set_words};

use crate::line::Line;
use index_model::{DeadRows, RowAddr};
use std::alloc::{AllocError, Global};
use text_forms::Rows;

/// The rows of a `bulk` line.
#[derive(Drop)]
pub struct DeadList {
    pub rows: Vec<RowAddr>,
}

impl DeadRows for DeadList {
    ghost use Rattle.std.specs.List.{list_any};

    ghost is_in = { λ list row.
        list_any (λ dead. ⟦<RowAddr as PartialEq>⟧.eq dead row) list.rows.items };

    fn is_dead(&self, row: RowAddr) -> bool {
        self.rows.contains(&row)
    }
}

/// The set of a line, if it is a `bulk` line.
pub fn dead_of(alloc: Global, line: Line<'_>) -> Result<Option<DeadList>, AllocError> {
    match line {
        Line::Bulk(_, rows) => Ok(Some(listed(alloc, rows)?)),
        _ => Ok(None),
    }
}

/// The set of these rows.
pub fn listed(alloc: Global, mut words: Rows<'_>) -> Result<DeadList, AllocError>
    ensures { AreRows words.entry → IfOk result (λ set. words.entry ≡ set_words set) }
{
    let mut rows = Vec::new(alloc);
    while let Some(row) = words.next() {
        rows.push(row)?;
    }
    Ok(DeadList { rows })
}

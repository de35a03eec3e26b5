//! The rows that a bulk delete in parts is to take.

ghost use Rattle.std.specs.BTreeSet.{contains};
ghost use Rattle.std.specs.Prelude.{◌≡◌, ◌-◌, ◌||◌, IsTrue, None, IfErr, IfSome, OnErr, OnOk};
ghost use Rattle.index_model.specs.Order.{row_cmp};
ghost use Rattle.index_model.specs.Row.{Row};
ghost use Rattle.access_method.specs.Rows.{is_in_set, is_row_in, row_count, same_row};

use index_model::{DeadRows, Fault, RowAddr};
use std::alloc::Global;
use std::collections::BTreeSet;

/// Rows that are named one by one. If none is, it has no memory.
#[derive(Drop)]
pub struct RowSet {
    pub rows: Option<BTreeSet<RowAddr>>,
}

impl RowSet {
    /// No row.
    pub fn new() -> RowSet
        ensures { result.rows ≡ None }
    {
        RowSet { rows: None }
    }

    /// One row more. Refused with `NoMemory` (1): no row is named then.
    pub fn name(&mut self, alloc: Global, row: RowAddr) -> Result<(), Fault>
        ensures named { OnOk result ((other : Row) → is_row_in self.new other
            ≡ (same_row row other || is_row_in self.old other)) }
        ensures none { OnErr result (self.new.rows ≡ None) }
        ensures fault { IfErr result (λ fault. fault ≡ Fault.NoMemory) }
    {
        let rows = rows_of(self.rows.take(), alloc);
        match added(rows, row) {
            Some(rows) => {
                self.rows = Some(rows);
                Ok(())
            }
            // Else the next bulk delete would take those that were named before, and not this one.
            None => Err(Fault::NoMemory),
        }
    }

    /// Forgets this many of the rows, or all if there are fewer. To free many takes a while: 100,000 about a
    /// millisecond. So a caller with a lock frees them little by little.
    pub fn forget(&mut self, count: u32)
        ensures left { row_count self.new ≡ row_count self.old - count }
        ensures fewer { (row : Row) → IsTrue (is_row_in self.new row)
            → IsTrue (is_row_in self.old row) }
    {
        let Some(rows) = &mut self.rows else {
            return;
        };
        for _ in 0..count {
            if rows.pop_first().is_none() {
                return;
            }
        }
    }
}

// The set of these rows.
fn rows_of(rows: Option<BTreeSet<RowAddr>>, alloc: Global) -> BTreeSet<RowAddr>
    ensures { (row : Row) → contains row_cmp result row ≡ is_in_set rows row }
{
    match rows {
        Some(rows) => rows,
        None => BTreeSet::new(alloc),
    }
}

// The set with a row more. None if there is no memory for it.
fn added(rows: BTreeSet<RowAddr>, row: RowAddr) -> Option<BTreeSet<RowAddr>>
    ensures { IfSome result (λ more. (other : Row) → contains row_cmp more other
        ≡ (same_row row other || contains row_cmp rows other)) }
{
    let mut more = rows;
    match more.insert(row) {
        Ok(_) => Some(more),
        Err(_) => None,
    }
}

impl DeadRows for RowSet {
    ghost use Rattle.access_method.specs.Rows.{is_row_in};

    ghost is_in = { is_row_in };

    fn is_dead(&self, row: RowAddr) -> bool {
        match &self.rows {
            Some(rows) => rows.contains(&row),
            None => false,
        }
    }
}

//! Rows, each of which is done to a copy of an index and tried.

use crate::edits::apply;
use crate::plain::copy;
use crate::table::Table;
use crate::tally::Tally;
use crate::trial::tried;
use crate::worse;
use device::MemDevice;
use index_model::Fault;
use std::alloc::Global;
use std::io::Eprint;
use std::process::Abort;
use std::test::{Fail, *};

/// Rows of each part of a table.
const ROWS: u32 = 500;

/// What a row of a table does.
#[derive(Clone, Copy)]
pub enum Kind {
    /// It alters one byte.
    OneByte,
    /// It does one to three worse edits.
    Worse,
}

/// Parts of a table, each of 500 rows.
#[derive(Clone, Copy)]
pub struct Parts {
    pub kind: Kind,
    /// How many blocks the altered pages are of.
    pub blocks: u64,
    /// The first of them.
    pub from: u64,
    /// The one after the last of them.
    pub to: u64,
}

/// A copy of the index with the next row of the table done to it.
pub fn altered(
    alloc: Global,
    base: &MemDevice,
    kind: Kind,
    table: &mut Table,
) -> Result<MemDevice, Fault> {
    let mut device = copy(alloc, base)?;
    let edits = match kind {
        Kind::OneByte => {
            apply(&mut device, table.next())?;
            0
        }
        Kind::Worse => 1 + table.number(3),
    };
    for _ in 0..edits {
        apply(&mut device, worse::edit(table))?;
    }
    Ok(device)
}

/// Runs the rows of a part on copies of this index: each call of each row goes right.
fn run_part<R: Abort>(
    rt: &R,
    alloc: Global,
    base: &MemDevice,
    parts: Parts,
    part: u64,
    tally: &mut Tally,
) -> Result<(), Fail> {
    let mut table = Table::new(part, parts.blocks);
    for row in 0..ROWS {
        let device = altered(alloc, base, parts.kind, &mut table)?;
        if let Some(what) = tally.counts(tried(alloc, device)) {
            assert!(rt; false, "{what}: row {row} of part {part}");
        }
    }
    Ok(())
}

/// Runs parts on copies of this index: each call of each row goes right, and each kind of outcome comes so
/// often.
pub fn run<R: Abort + Eprint>(
    rt: &R,
    alloc: Global,
    base: &MemDevice,
    parts: Parts,
    least: u32,
) -> Result<(), Fail> {
    let mut tally = Tally::new();
    for part in parts.from..parts.to {
        run_part(rt, alloc, base, parts, part, &mut tally)?;
    }
    eprintln!(rt; "{tally:?}")?;
    assert!(rt; tally.is_of_all_kinds(least), "{tally:?}");
    Ok(())
}

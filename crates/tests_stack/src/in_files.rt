//! Rows in files: what comes of an altered index in a file is what comes of it in memory.

use crate::base::{five, sound};
use crate::plain::{file, len};
use crate::rows::{Kind, altered};
use crate::table::Table;
use crate::tally::Tally;
use crate::trial::{Outcome, tried};
use device::MemDevice;
use index_model::Fault;
use std::alloc::Global;
use std::fs::{self, File};
use std::io::Eprint;
use std::process::Abort;
use std::rt::Files;
use std::test::{Fail, *};
use tests_support::plain::read;

/// Rows of each test.
const ROWS: u32 = 100;

/// All bytes of a device.
fn bytes_of(alloc: Global, device: &mut MemDevice) -> Result<Vec<u8>, Fault> {
    let Ok(mut bytes) = vec![in alloc; 0u8; len(device) as usize] else {
        return Err(Fault::NoMemory);
    };
    read(device, 0, bytes.as_mut_slice())?;
    Ok(bytes)
}

/// What comes of an index in the file of this path, and what in memory.
fn outcomes(
    rt: &impl Files<File = File>,
    alloc: Global,
    path: &str,
    device: MemDevice,
) -> Result<(Outcome, Outcome), Fail> {
    let mut device = device;
    let bytes = bytes_of(alloc, &mut device);
    let in_memory = tried(alloc, device);
    fs::write(rt, path, bytes?.as_slice())?;
    Ok((tried(alloc, file(rt, path)?), in_memory))
}

/// Runs rows on copies of this index, each in the file of this path and in memory: each call of each row goes
/// right, in both as in the other, and each kind of outcome comes.
fn run<R: Abort + Eprint + Files<File = File>>(
    rt: &R,
    alloc: Global,
    path: &str,
    base: &MemDevice,
    kind: Kind,
    table: Table,
) -> Result<(), Fail> {
    let mut table = table;
    let mut tally = Tally::new();
    for row in 0..ROWS {
        let device = altered(alloc, base, kind, &mut table)?;
        let (outcome, in_memory) = outcomes(rt, alloc, path, device)?;
        assert!(rt; outcome == in_memory, "row {row}");
        if let Some(what) = tally.counts(outcome) {
            assert!(rt; false, "{what}: row {row}");
        }
    }
    fs::remove_file(rt, path)?;
    eprintln!(rt; "{tally:?}")?;
    assert!(rt; tally.is_of_all_kinds(1), "{tally:?}");
    Ok(())
}

#[test]
fn three_levels(rt: HostRuntime) -> Result<(), Fail> {
    let base = sound(rt.alloc(), false)?;
    let table = Table::new(61, 18);
    run(
        &rt,
        rt.alloc(),
        "altered_three.idx",
        &base,
        Kind::OneByte,
        table,
    )
}

#[test]
fn five_entries(rt: HostRuntime) -> Result<(), Fail> {
    let base = five(rt.alloc())?;
    let table = Table::new(62, 6);
    run(
        &rt,
        rt.alloc(),
        "altered_five.idx",
        &base,
        Kind::OneByte,
        table,
    )
}

#[test]
fn worse_edits(rt: HostRuntime) -> Result<(), Fail> {
    let base = sound(rt.alloc(), false)?;
    let table = Table::new(63, 18);
    run(
        &rt,
        rt.alloc(),
        "altered_worse.idx",
        &base,
        Kind::Worse,
        table,
    )
}

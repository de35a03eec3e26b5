//! The sound indexes.

use crate::plain::copy;
use device::MemDevice;
use index_model::{Entry, Fault, Key, Limits, RowAddr};
use std::alloc::Global;
use tests_support::medium::{Medium, Opened};
use tests_support::plain::{checkpoint_of as checkpoint, commit, create, device, insert};
use tests_support::plain_index::PlainIndex;

/// The bytes of a device of 32 pages: a superblock, the log, the pages.
pub const LEN: u64 = 4_096 + 65_536 + 4_096 * 32;

/// Pages in memory at once.
pub const FRAMES: u32 = 16;

/// How many entries the index of three levels has.
pub const ENTRIES: u32 = 30;

/// The entry of this key and this row.
pub fn keyed(key: &[u8], block: u32, offset: u16) -> Entry {
    Entry {
        key: Key::new(key).unwrap_or(Key::EMPTY),
        row: RowAddr::new(block, offset).unwrap_or_default(),
    }
}

/// Entry i of the index of three levels, for i from 1; each has a key of its own.
pub fn entry(i: u32) -> Entry {
    keyed(&i.wrapping_mul(8).to_be_bytes(), i, 1)
}

/// A device with an empty index of so many pages of four items, with the smallest log.
fn made(alloc: Global, pages: u32, unique: bool) -> Result<MemDevice, Fault> {
    let mut device = device(alloc, 69_632 + 4_096 * u64::from(pages))?;
    create(
        &mut device,
        &Limits {
            items: 4,
            pages,
            log_bytes: 65_536,
            unique,
        },
    )?;
    Ok(device)
}

/// Inserts the entries from there to there, in shuffled order.
fn fill<I: PlainIndex>(index: &mut I, from: u32, to: u32) -> Result<(), Fault> {
    for i in from..to {
        insert(index, entry(1 + i.wrapping_mul(7) % ENTRIES))?;
    }
    Ok(())
}

/// Inserts all, with a checkpoint before the last ones and a commit after them.
fn fill_all<I: PlainIndex>(index: &mut I) -> Result<(), Fault> {
    fill(index, 0, 27)?;
    checkpoint(index)?;
    fill(index, 27, ENTRIES)?;
    commit(index)?;
    Ok(())
}

/// Inserts five entries, with a checkpoint after them.
fn fill_five<I: PlainIndex>(index: &mut I) -> Result<(), Fault> {
    for number in 1..6u8 {
        insert(
            index,
            keyed(&[0x60u8.saturating_add(number)], 0, u16::from(number)),
        )?;
    }
    checkpoint(index)?;
    Ok(())
}

/// What is in a sound index.
#[derive(Clone, Copy)]
enum Content {
    All,
    Five,
}

fn put<I: PlainIndex>(index: &mut I, content: Content) -> Result<(), Fault> {
    match content {
        Content::All => fill_all(index),
        Content::Five => fill_five(index),
    }
}

// What a crash keeps of an index of so many pages, with this in it.
fn filled_in<M: Medium<MemDevice>>(
    alloc: Global,
    pages: u32,
    unique: bool,
    content: Content,
) -> Result<MemDevice, Fault> {
    let mut index = M::index(alloc, made(alloc, pages, unique)?, FRAMES)?;
    let done = put(&mut index, content);
    let device = copy(alloc, &M::device_under(index))?;
    match done {
        Ok(()) => Ok(device),
        Err(fault) => Err(fault),
    }
}

fn filled(alloc: Global, pages: u32, unique: bool, content: Content) -> Result<MemDevice, Fault> {
    filled_in::<Opened>(alloc, pages, unique, content)
}

/// What a crash keeps of an index of three levels, unique or not, after a checkpoint and a commit: the last
/// inserts stand in the log alone.
pub fn sound(alloc: Global, unique: bool) -> Result<MemDevice, Fault> {
    filled(alloc, 32, unique, Content::All)
}

/// An index of five entries, after a checkpoint: the leaves 1 and 2 under the root 3.
pub fn five(alloc: Global) -> Result<MemDevice, Fault> {
    filled(alloc, 16, false, Content::Five)
}

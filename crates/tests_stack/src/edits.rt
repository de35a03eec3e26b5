//! What is done to the bytes of a device.

use device::MemDevice;
use index_model::Fault;
use tests_support::plain::{read, write};

/// An edit.
#[derive(Clone, Copy)]
pub enum Edit {
    /// One byte is set; if it is that already, to one beside it.
    Alters(u64, u8),
    /// Four bytes are set.
    Sets(u64, [u8; 4]),
    /// So many bytes, 4,096 at most, from the first place on are written over those from the second on.
    Copies(u64, u64, u64),
    /// So many bytes, 4,096 at most, from the one place on change places with those from the other on.
    Swaps(u64, u64, u64),
}

fn alter(device: &mut MemDevice, at: u64, value: u8) -> Result<(), Fault> {
    let mut old = [0];
    read(device, at, &mut old)?;
    let value = if old[0] == value { value ^ 1 } else { value };
    write(device, at, &[value])
}

/// Copies bytes to another place.
fn copy(device: &mut MemDevice, from: u64, to: u64, len: usize) -> Result<(), Fault> {
    let mut bytes = [0; 4_096];
    let len = len.min(4_096);
    read(device, from, &mut bytes[..len])?;
    write(device, to, &bytes[..len])
}

fn swap(device: &mut MemDevice, one: u64, other: u64, len: usize) -> Result<(), Fault> {
    let mut bytes = [0; 4_096];
    let len = len.min(4_096);
    read(device, one, &mut bytes[..len])?;
    copy(device, other, one, len)?;
    write(device, other, &bytes[..len])
}

/// Does an edit to a device.
pub fn apply(device: &mut MemDevice, edit: Edit) -> Result<(), Fault> {
    match edit {
        Edit::Alters(at, value) => alter(device, at, value),
        Edit::Sets(at, bytes) => write(device, at, &bytes),
        Edit::Copies(from, to, len) => copy(device, from, to, len as usize),
        Edit::Swaps(one, other, len) => swap(device, one, other, len as usize),
    }
}

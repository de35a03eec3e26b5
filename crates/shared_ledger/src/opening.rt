//! The index in a file, as it is opened or made, and closed.

use access_method::in_file::{self, NotMade};
use device::{FileDevice, Unknown};
use index_model::{Fault, Limits, NoProgress};
use ledger_lines::Dead;
use page_store::Store;
use schedule::Event;
use session_calls::Answer;
use std::alloc::Global;
use std::fs::{self, File};
use std::rt::Files;
use world::World;

/// The sizes of a new index: some 17 megabytes.
const LIMITS: Limits = Limits {
    items: 50,
    pages: 4_096,
    log_bytes: 1_048_576,
    unique: false,
};

/// Pages that are held in memory.
const FRAMES: u32 = 64;

/// An index in a file, with a place for a set of dead rows.
pub type Shared = World<Store<FileDevice<Unknown>>, Dead>;

// Makes an empty index.
fn make<R: Files<File = File>>(rt: &R, path: &str) -> Result<(), Fault> {
    let _device = match in_file::create(rt, path, &LIMITS, &NoProgress) {
        Ok(device) => device,
        Err(NotMade { fault, error: _ }) => return Err(fault),
    };
    Ok(())
}

// Makes an empty index, if no file is there.
fn make_if_none<R: Files<File = File>>(rt: &R, path: &str) -> Result<(), Fault> {
    match fs::exists(rt, path) {
        Ok(true) => Ok(()),
        Ok(false) => make(rt, path),
        Err(_) => Err(Fault::Io),
    }
}

/// Opens the index in a file, after any crash, with this many sessions; if there is no file, makes an empty
/// one. Refused with `Io` (2) if the file can't be made or opened, or another has it open, with `BadLimits`
/// (18) for other numbers of sessions than 1 to 64, and else as `in_file::open_store` is.
pub fn opened<R: Files<File = File>>(
    rt: &R,
    alloc: Global,
    path: &str,
    sessions: u32,
) -> Result<Shared, Fault> {
    make_if_none(rt, path)?;
    let store = match in_file::open_store::<R, Unknown>(rt, alloc, path, FRAMES) {
        Ok(store) => store,
        Err(not_opened) => return Err(not_opened.fault),
    };
    let mut sets = Vec::new(alloc);
    let none = Dead {
        rows: Vec::new(alloc),
    };
    if sets.push(none).is_err() {
        return Err(Fault::NoMemory);
    }
    match World::new(alloc, store, sessions, sets) {
        Ok(world) => Ok(world),
        Err(not_made) => Err(not_made.fault),
    }
}

/// Makes all durable, writes all pages to their places, and closes the file. Refused with `Io` (2) and
/// `Stopped` (3).
pub fn closed(mut world: Shared) -> Result<(), Fault> {
    let answer = world.one(Event::Checkpoint);
    let _device = world.into_store().into_device();
    match answer {
        Answer::Refused(fault) => Err(fault),
        _ => Ok(()),
    }
}

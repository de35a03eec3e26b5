//! Calls without their contracts. A test looks at the answers alone, and what a call promises would be
//! carried, call by call, to the end of the test that makes it.

use amcheck::{CheckFault, Report};
use device::{CrashImage, Device, FileDevice, MemDevice, Unknown};
use index_model::Fault;
use std::alloc::Global;
use std::fs::File;
use std::rt::Files;
use tests_support::plain_store::CheckedStore;

/// The file that is there.
pub fn file(rt: &impl Files<File = File>, path: &str) -> Result<FileDevice<Unknown>, Fault> {
    match FileDevice::open(rt, path) {
        Ok(device) => Ok(device),
        Err(_) => Err(Fault::Io),
    }
}

pub fn len(device: &MemDevice) -> u64 {
    device.len()
}

/// A copy of a device.
pub fn copy(alloc: Global, device: &MemDevice) -> Result<MemDevice, Fault> {
    device.crash(alloc, CrashImage::Keep)
}

/// What the check of the levels answers.
pub fn levels<S: CheckedStore>(alloc: Global, store: &mut S) -> Result<Report, CheckFault> {
    store.levels(alloc)
}

/// What the check of parents answers.
pub fn parents<S: CheckedStore>(alloc: Global, store: &mut S) -> Result<Report, CheckFault> {
    store.parents(alloc)
}

//! Making an index in a file that C has open.

ghost use Rattle.std.specs.Prelude.{◌≡◌, IfOk, IfErr};
ghost use Rattle.nardsill.specs.Making.{IsMade, IsMadeBy, IsMakeFault};

use crate::answer::{CallAnswer, DONE, refused};
use crate::ask::MakeAsk;
use crate::handle::Handle;
use crate::opening::own;
use device::{Device, FileDevice, Zeros};
use index_model::{Fault, Format};
use page_codec::{needed_len, page_place};
use recovery::create;
use std::fs::File;
use std::os::fd::AsRawFd;

/// Makes an empty index in a file that C has open, by another handle of the open file; what it held is gone.
/// Refused with `BadVersion` (15) where the file isn't stored as the number that C told: this library and
/// that C don't fit. Refused with `BadLimits` (18), and then nothing is changed; and with `Io` (2), and then
/// it isn't known what the file holds. What the handle has stays.
pub fn make(handle: &mut Handle, file: &mut File, ask: MakeAsk) -> CallAnswer
    ensures { (file.new ≡ file.old) × (handle.new ≡ handle.old)
        × IsMade ⟦<FileDevice<Zeros> as Device>⟧ ask result }
{
    if file.as_raw_fd() != ask.descriptor {
        return refused(Fault::BadVersion);
    }
    match own(file) {
        Ok(own) => made_in(own, &ask),
        Err(fault) => refused(fault),
    }
}

// The answer to a making in a file.
fn made_in(file: File, ask: &MakeAsk) -> CallAnswer
    ensures { IsMade ⟦<FileDevice<Zeros> as Device>⟧ ask.now result }
{
    match made(file, ask) {
        Ok(_device) => DONE,
        Err(fault) => refused(fault),
    }
}

// Makes the index that is asked for in a file.
fn made(file: File, ask: &MakeAsk) -> Result<FileDevice<Zeros>, Fault>
    ensures made { IfOk result (λ device. IsMadeBy ⟦<FileDevice<Zeros> as Device>⟧ ask.now device) }
    ensures fault { IfErr result (IsMakeFault ask.now) }
{
    let limits = ask.limits();
    if !limits.are_valid() {
        return Err(Fault::BadLimits);
    }
    // All but the log is written by what makes the index.
    let filled = page_place(&Format::new(&limits), 0);
    let Ok(mut device) = FileDevice::made(file, needed_len(&limits), filled) else {
        return Err(Fault::Io);
    };
    create(&mut device, &limits)?;
    Ok(device)
}

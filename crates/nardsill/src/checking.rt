//! Checking the index in a file that C has open.

ghost use Rattle.std.specs.Prelude.{◌≡◌, IfOk};
ghost use Rattle.nardsill.specs.Checking.{IsCheckRefusal, IsChecked, IsOpenedForCheck, AnswersCheck};

use crate::answer::page_of;
use crate::handle::Handle;
use crate::opening::own;
use amcheck::{CheckFault, Report, check_parents_one};
use device::{Device, FileDevice, Start, Unknown};
use index_model::{Fault, NoProgress};
use page_action::PageStore;
use page_store::Store;
use std::alloc::Global;
use std::fs::File;
use std::os::fd::AsRawFd;

/// A check: of which file, with how many pages in memory.
#[repr(C)]
#[derive(Drop)]
pub struct CheckAsk {
    pub descriptor: i32,
    pub frames: u32,
}

/// What a check tells: 0 and the report; 0 and a damage, by its number and block; or the number of a fault
/// with the page that it names.
#[repr(C)]
#[derive(Clone, Copy)]
pub struct Checked {
    pub status: u32,
    pub page: u32,
    /// The number of the first damage, or 0.
    pub damage: u32,
    pub block: u32,
    pub entries: u64,
    pub levels: u32,
    pub pages: u32,
    pub half_dead: u32,
    pub deleted: u32,
    pub unfinished: u32,
}

const NOTHING: Checked = Checked {
    status: 0,
    page: 0,
    damage: 0,
    block: 0,
    entries: 0,
    levels: 0,
    pages: 0,
    half_dead: 0,
    deleted: 0,
    unfinished: 0,
};

/// Judges the index in a file that C has open, by another handle of the open file: its levels and links, its
/// parents and children, in this thread. Refused with `BadVersion` (15) where the file isn't stored as the
/// number that C told; and else as the opening and `check_parents_one` are. What the handle has stays.
pub fn check(handle: &mut Handle, file: &mut File, ask: CheckAsk) -> Checked
    ensures { (file.new ≡ file.old) × (handle.new ≡ handle.old)
        × IsChecked ⟦<FileDevice<Unknown> as Device>⟧ ⟦<Store<FileDevice<Unknown>> as PageStore>⟧
        ⟦<Unknown as Start>⟧.bytes result }
{
    if file.as_raw_fd() != ask.descriptor {
        return refused(Fault::BadVersion);
    }
    match own(file) {
        Ok(own) => check_opened::<Unknown>(handle.alloc, own, ask.frames),
        Err(fault) => refused(fault),
    }
}

// Opens the index in a file, whatever it held, and judges it.
fn check_opened<S: Start>(alloc: Global, file: File, frames: u32) -> Checked
    ensures { IsChecked ⟦<FileDevice<S> as Device>⟧ ⟦<Store<FileDevice<S>> as PageStore>⟧
        S.Start.bytes result }
{
    match opened::<S>(alloc, file, frames) {
        Ok(mut store) => told(check_parents_one(alloc, &mut store, &NoProgress)),
        Err(fault) => refused(fault),
    }
}

// Opens the pages of the index in a file, whatever it held.
fn opened<S: Start>(alloc: Global, file: File, frames: u32) -> Result<Store<FileDevice<S>>, Fault>
    ensures { IfOk result (IsOpenedForCheck ⟦<FileDevice<S> as Device>⟧ S.Start.bytes) }
{
    let Ok(device) = FileDevice::held(file) else {
        return Err(Fault::Io);
    };
    match recovery::open(alloc, device, frames) {
        Ok(store) => Ok(store),
        Err(refused) => Err(refused.fault),
    }
}

fn told(outcome: Result<Report, CheckFault>) -> Checked
    ensures { AnswersCheck outcome result }
{
    match outcome {
        Ok(report) => Checked {
            entries: report.entries as u64,
            levels: report.levels,
            pages: report.pages,
            half_dead: report.half_dead,
            deleted: report.deleted,
            unfinished: report.unfinished,
            ..NOTHING
        },
        Err(CheckFault::Damage { number, block }) => Checked {
            damage: number as u32,
            block,
            ..NOTHING
        },
        Err(CheckFault::Refused(fault)) => refused(fault),
    }
}

fn refused(fault: Fault) -> Checked
    ensures { IsCheckRefusal fault result }
{
    let page = page_of(&fault);
    Checked {
        status: fault.number() as u32,
        page,
        ..NOTHING
    }
}

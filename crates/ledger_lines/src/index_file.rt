//! The index in a file, as it is opened or made.

ghost use Rattle.std.specs.Prelude.{◌≡◌, IfErr, IfOk};
ghost use Rattle.access_method.specs.Files.{IsOpenFault};
ghost use Rattle.ledger_lines.specs.Opening.{BeginsFrom, BeginsNew, IsNewNotServed, IsNotServed, OpensAs, left_of};

use access_method::Index;
use access_method::in_file::{self, InFile, NotOpened};
use device::{Device, FileDevice, Start, Zeros};
use index_model::{Fault, Limits, NoProgress};
use page_action::PageStore;
use page_store::Store;
use std::alloc::Global;
use std::fs::{self, File};
use std::io;
use std::rt::Files;
use world::new_indexes_are_trees;

/// The sizes of a new index: some 17 megabytes.
const LIMITS: Limits = Limits {
    items: 50,
    pages: 4_096,
    log_bytes: 1_048_576,
    unique: false,
};

/// Pages that are held in memory.
const FRAMES: u32 = 64;

/// What was opened: the index that was in the file, or a new one.
#[derive(Drop)]
pub enum Opened<I, N> {
    Found(I),
    Made(N),
}

/// The device over the file, as a refused opening left it: none, if the file couldn't be taken or made; that
/// of a file that was there; or that of a new one.
#[derive(Drop)]
pub enum LeftDevice<D, N> {
    Nothing,
    Found(D),
    Made(N),
}

/// Why no index was opened: the fault, what the system said, if that is why, and the device.
#[derive(Drop)]
pub struct Refusal<D, N> {
    pub fault: Fault,
    pub error: Option<io::Error>,
    pub left: LeftDevice<D, N>,
}

// No file was taken or made, for what the system said.
fn nothing<D, N>(error: Option<io::Error>) -> Refusal<D, N>
    ensures fault { result.fault ≡ Fault.Io }
    ensures left { result.left ≡ LeftDevice.Nothing }
{
    Refusal {
        fault: Fault::Io,
        error,
        left: LeftDevice::Nothing,
    }
}

// The device that an opening of a file that was there has left.
fn found_left<D, N>(device: Option<D>) -> LeftDevice<D, N>
    ensures { result ≡ left_of device }
{
    match device {
        Some(device) => LeftDevice::Found(device),
        None => LeftDevice::Nothing,
    }
}

/// Opens the index in a file, after any crash; if there is no file, makes an empty one. Refused with `Io` (2)
/// if the file can't be made or opened, or another has it open, and else as `Index::open` is.
pub fn open<F: Files<File = File>, S: Start>(
    rt: &F,
    alloc: Global,
    path: &str,
) -> Result<Opened<InFile<S>, InFile<Zeros>>, Refusal<FileDevice<S>, FileDevice<Zeros>>>
    // If the file held an index whose pages are a B-link tree, it is opened with them; a new one begins
    // without entries.
    ensures begins { IfOk result (OpensAs
        (BeginsFrom ⟦<FileDevice<S> as Device>⟧ ⟦<Store<FileDevice<S>> as PageStore>⟧ S.Start.bytes)
        (BeginsNew ⟦<FileDevice<Zeros> as Device>⟧ ⟦<Store<FileDevice<Zeros>> as PageStore>⟧)) }
    // Such an index is refused for want of memory or of the device alone.
    ensures cause { IfErr result (λ refusal. IsNotServed ⟦<FileDevice<S> as Device>⟧
        ⟦<FileDevice<Zeros> as Device>⟧ S.Start.bytes refusal.fault refusal.left) }
    ensures fault { IfErr result (λ refusal. IsOpenFault refusal.fault) }
{
    match fs::exists(rt, path) {
        Ok(true) => found::<F, S>(rt, alloc, path),
        Ok(false) => match make::<F, FileDevice<S>>(rt, alloc, path) {
            Ok(index) => Ok(Opened::Made(index)),
            Err(refusal) => Err(refusal),
        },
        Err(error) => Err(nothing(Some(error))),
    }
}

// The index in a file that is there.
fn found<F: Files<File = File>, S: Start>(
    rt: &F,
    alloc: Global,
    path: &str,
) -> Result<Opened<InFile<S>, InFile<Zeros>>, Refusal<FileDevice<S>, FileDevice<Zeros>>>
    ensures begins { IfOk result (OpensAs
        (BeginsFrom ⟦<FileDevice<S> as Device>⟧ ⟦<Store<FileDevice<S>> as PageStore>⟧ S.Start.bytes)
        (BeginsNew ⟦<FileDevice<Zeros> as Device>⟧ ⟦<Store<FileDevice<Zeros>> as PageStore>⟧)) }
    ensures cause { IfErr result (λ refusal. IsNotServed ⟦<FileDevice<S> as Device>⟧
        ⟦<FileDevice<Zeros> as Device>⟧ S.Start.bytes refusal.fault refusal.left) }
    ensures fault { IfErr result (λ refusal. IsOpenFault refusal.fault) }
{
    match in_file::open::<F, S>(rt, alloc, path, FRAMES) {
        Ok(index) => Ok(Opened::Found(index)),
        Err(
            NotOpened {
                fault,
                error,
                device,
            },
        ) => Err(Refusal {
            fault,
            error,
            left: found_left(device),
        }),
    }
}

// Makes an empty index in a new file, and opens that very one.
fn make<F: Files<File = File>, D>(
    rt: &F,
    alloc: Global,
    path: &str,
) -> Result<InFile<Zeros>, Refusal<D, FileDevice<Zeros>>>
    ensures begins { IfOk result
        (BeginsNew ⟦<FileDevice<Zeros> as Device>⟧ ⟦<Store<FileDevice<Zeros>> as PageStore>⟧) }
    ensures cause { IfErr result (λ refusal. IsNewNotServed ⟦<FileDevice<Zeros> as Device>⟧
        refusal.fault refusal.left) }
    ensures fault { IfErr result (λ refusal. IsOpenFault refusal.fault) }
{
    let device = match in_file::create(rt, path, &LIMITS, &NoProgress) {
        Ok(device) => device,
        Err(not_made) => {
            return Err(Refusal {
                fault: not_made.fault,
                error: not_made.error,
                left: LeftDevice::Nothing,
            });
        }
    };
    new_indexes_are_trees();
    match Index::open(alloc, device, FRAMES) {
        Ok(index) => Ok(index),
        Err(refused) => Err(Refusal {
            fault: refused.fault,
            error: refused.device.error(),
            left: LeftDevice::Made(refused.device),
        }),
    }
}

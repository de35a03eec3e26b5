//! Opening an index over a file that C has open.

ghost use Rattle.std.specs.Prelude.{◌≡◌, IfErr, IfOk};
ghost use Rattle.access_method.specs.Files.{IsOpenFault};
ghost use Rattle.nardsill.specs.Taking.{BeginsWithFile, IsTaken};

use crate::answer::{CallAnswer, DONE, refused};
use crate::ask::OpenAsk;
use crate::handle::Handle;
use access_method::Index;
use device::{Device, FileDevice, Start, Syncer, Unknown};
use index_model::Fault;
use page_action::PageStore;
use page_store::Store;
use std::alloc::Global;
use std::fs::File;
use std::os::fd::AsRawFd;

/// The file that an opening is given, and another open file of it, which only syncs. If there is none, C
/// gives the same one twice.
#[repr(C)]
#[derive(Drop)]
pub struct OpenFiles {
    file: File,
    beside: File,
}

/// Takes another handle of the open file, and opens the index in it. Tells the descriptor of that handle, for
/// a forked child to close. Refused with `BadVersion` (15) where the file isn't stored as the number that C
/// told: this library and that C don't fit. Refused else as the opening is; what is opened already stays
/// then.
pub fn take(handle: &mut Handle, files: &mut OpenFiles, ask: OpenAsk) -> CallAnswer
    ensures { (files.new ≡ files.old)
        × IsTaken ⟦<FileDevice<Unknown> as Device>⟧ ⟦<Store<FileDevice<Unknown>> as PageStore>⟧
        ⟦<Unknown as Start>⟧.bytes result
        handle.old.index handle.new.index handle.old.dead handle.new.dead }
{
    if files.file.as_raw_fd() != ask.descriptor {
        return refused(Fault::BadVersion);
    }
    let own = match own_files(files) {
        Ok(own) => own,
        Err(fault) => return refused(fault),
    };
    let descriptor = own.file.as_raw_fd();
    match opened::<Unknown>(handle.alloc, own, ask.frames) {
        Ok((index, syncer)) => {
            handle.index = Some(index);
            handle.syncer = syncer;
            CallAnswer { descriptor, ..DONE }
        }
        Err(fault) => refused(fault),
    }
}

// Opens the index in a file, whatever it held, with what syncs the file, if there is another open file of it.
fn opened<S: Start>(
    alloc: Global,
    files: OpenFiles,
    frames: u32,
) -> Result<(Index<Store<FileDevice<S>>>, Option<Syncer>), Fault>
    ensures begins { IfOk result (λ both. BeginsWithFile ⟦<FileDevice<S> as Device>⟧
        ⟦<Store<FileDevice<S>> as PageStore>⟧ S.Start.bytes both.0) }
    ensures fault { IfErr result IsOpenFault }
{
    let OpenFiles { file, beside } = files;
    let Ok(device) = FileDevice::held(file) else {
        return Err(Fault::Io);
    };
    let Ok((device, syncer)) = device.with_syncer(alloc, beside) else {
        return Err(Fault::NoMemory);
    };
    match Index::open(alloc, device, frames) {
        Ok(index) => Ok((index, syncer)),
        Err(refused) => Err(refused.fault),
    }
}

// Other handles of these open files. Refused with `Io`.
fn own_files(files: &OpenFiles) -> Result<OpenFiles, Fault>
    ensures { IfErr result (λ fault. fault ≡ Fault.Io) }
{
    let file = own(&files.file)?;
    let beside = own(&files.beside)?;
    Ok(OpenFiles { file, beside })
}

/// Another handle of the same open file, which shares its lock. Refused with `Io`.
pub fn own(file: &File) -> Result<File, Fault>
    ensures { IfErr result (λ fault. fault ≡ Fault.Io) }
{
    match file.try_clone() {
        Ok(own) => Ok(own),
        Err(_) => Err(Fault::Io),
    }
}

//! A copy on a device of its own.

ghost use Rattle.std.specs.Prelude.{◌≡◌, IsTrue, IfOk, IfErr};
ghost use Rattle.access_method.specs.Indexes.{ForEachIndexHistory, has_entry};
ghost use Rattle.access_method.specs.Scans.{Rests};
ghost use Rattle.access_method.specs.Tokens.{seat_of};
ghost use Rattle.access_method.specs.declared.token.ScanToken.{ScanToken as TheToken};
ghost use Rattle.index_model.specs.declared.format.Format.{Format};
ghost use Rattle.page_action.specs.States.{Continues};
ghost use Rattle.recovery.specs.Fresh.{CrashesToEmpty};
ghost use Rattle.index_copy.specs.Onto.{IsCopyOf, IsNoCopyFor};

use crate::copying::{NotCopied, copy};
use access_method::Index;
use access_method::in_file::{Closed, close};
use device::Device;
use index_model::{Fault, Progress};
use page_action::PageStore;
use std::alloc::Global;
use world::new_indexes_are_trees;

/// Why a device has no whole copy.
#[derive(Clone, Copy)]
pub enum NoCopy {
    /// The index on the device was not opened.
    NotOpened(Fault),
    /// Not all entries were copied.
    Stopped(NotCopied),
    /// The last checkpoint was refused.
    NotClosed(Fault),
}

impl NoCopy {
    ghost use Rattle.std.specs.Prelude.{◌≡◌};
    ghost use Rattle.index_copy.specs.Onto.{fault_of};

    /// What refused it: `Stopped` (3) if there are too many entries.
    pub fn fault(&self) -> Fault
        ensures { result ≡ fault_of self.now }
    {
        match self {
            NoCopy::NotOpened(fault)
            | NoCopy::Stopped(NotCopied::NotGiven(fault) | NotCopied::NotPut(fault))
            | NoCopy::NotClosed(fault) => *fault,
            NoCopy::Stopped(NotCopied::TooMany) => Fault::Stopped,
        }
    }
}

/// What a copy on a device came to: how many entries were copied, or why it isn't whole; and the device.
#[derive(Drop)]
pub struct CopiedOnto<D> {
    pub copied: Result<u64, NoCopy>,
    pub device: D,
}

/// Opens the empty index that `recovery::create` made on a device, with `frames` pages in memory at once (16
/// to 1,024); puts each entry of another index into it; closes it, and gives the device back. Answers how
/// many entries these are. Then whatever a crash leaves of the device is an index of these entries.
///
/// Refused as `Index::open`, `copy` and `in_file::close` are: with `KeyExists` (21) and its row if the new
/// index is a unique one, and a key has two rows. The index that is read stays as `copy` leaves it.
pub fn copy_onto<S: PageStore, D: Device, P: Progress>(
    alloc: Global,
    from: &mut Index<S>,
    device: D,
    frames: u32,
    progress: &P,
    all: u64,
) -> CopiedOnto<D>
    ensures from_steps { Continues S.follows from.old.store from.new.store }
    ensures rests { ForEachIndexHistory S.PageStore from.old from.new
        (Rests S.PageStore from.old from.new) }
    ensures from_tokens { (t : TheToken) → seat_of from.new.seats t ≡ seat_of from.old.seats t }
    ensures holds { IfOk result.copied (λ count. (format : Format)
        → CrashesToEmpty format (D.trace device).now → IsTrue (D.is_honest result.device)
        → ForEachIndexHistory S.PageStore from.old from.new (λ start history calls.
        IsCopyOf D.Device format (has_entry S.PageStore from.old.store) count result.device)) }
    ensures refused { IfErr result.copied (λ no_copy. (format : Format)
        → CrashesToEmpty format (D.trace device).now → IsTrue (D.is_honest result.device)
        → ForEachIndexHistory S.PageStore from.old from.new (λ start history calls.
        IsNoCopyFor (has_entry S.PageStore from.old.store) no_copy)) }
{
    new_indexes_are_trees();
    let mut into = match Index::open(alloc, device, frames) {
        Ok(index) => index,
        Err(refused) => {
            return CopiedOnto {
                copied: Err(NoCopy::NotOpened(refused.fault)),
                device: refused.device,
            };
        }
    };
    match copy(from, &mut into, progress, all) {
        Ok(count) => {
            let Closed { written, device } = close(into);
            match written {
                Ok(_actions) => CopiedOnto {
                    copied: Ok(count),
                    device,
                },
                Err(fault) => CopiedOnto {
                    copied: Err(NoCopy::NotClosed(fault)),
                    device,
                },
            }
        }
        Err(not_copied) => CopiedOnto {
            copied: Err(NoCopy::Stopped(not_copied)),
            device: into.into_device(),
        },
    }
}

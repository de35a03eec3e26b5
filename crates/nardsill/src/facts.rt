//! What C is told of an open index.

ghost use Rattle.std.specs.Prelude.{◌≡◌};
ghost use Rattle.nardsill.specs.Informing.{IsInformed, TellsIndex};

use crate::handle::Handle;
use access_method::Index;
use device::{FileDevice, Unknown};
use index_model::Fault;
use page_action::PageStore;
use page_store::Store;

/// What an index is: 0, the sizes that it was made with, and whether it is unique; pages in use, and of these
/// those that may be used again; and whether its log has failed. Or the number of a fault, where the handle
/// has no index.
#[repr(C)]
#[derive(Clone, Copy)]
pub struct Facts {
    pub status: u32,
    pub items: u32,
    pub pages: u32,
    pub log_bytes: u32,
    pub pages_used: u32,
    pub pages_free: u32,
    pub is_unique: bool,
    pub is_stopped: bool,
}

/// What the handle's index is. Refused with `NoSession` (12) where it has none. The handle stays as it is.
pub fn inform(handle: &mut Handle) -> Facts
    ensures { (handle.new ≡ handle.old)
        × IsInformed ⟦<Store<FileDevice<Unknown>> as PageStore>⟧ result handle.old.index }
{
    match &handle.index {
        None => Facts {
            status: Fault::NoSession.number() as u32,
            items: 0,
            pages: 0,
            log_bytes: 0,
            pages_used: 0,
            pages_free: 0,
            is_unique: false,
            is_stopped: false,
        },
        Some(index) => facts_of(index),
    }
}

fn facts_of<S: PageStore>(index: &Index<S>) -> Facts
    ensures { TellsIndex S.PageStore result index.now }
{
    let info = index.info();
    Facts {
        status: 0,
        items: info.limits.items,
        pages: info.limits.pages,
        log_bytes: info.limits.log_bytes,
        pages_used: info.pages_used,
        pages_free: info.pages_free,
        is_unique: info.limits.unique,
        is_stopped: info.is_stopped,
    }
}

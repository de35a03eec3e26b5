//! A handle of C's.

ghost use Rattle.std.specs.Prelude.{◌≡◌, IfSome, None};

use crate::loose::Loose;
use access_method::{Index, RowSet};
use device::{FileDevice, Syncer, Unknown};
use page_store::Store;
use std::alloc::Global;

/// An index in a file.
pub type InFile = Index<Store<FileDevice<Unknown>>>;

/// An open index, or none; the rows that a bulk delete is to take, and those of one that has ended, until
/// they are freed; and what syncs the file of that index, or of one that another handle has.
#[derive(Drop)]
pub struct Handle {
    pub alloc: Global,
    pub index: Option<InFile>,
    pub dead: RowSet,
    pub spent: RowSet,
    pub syncer: Option<Syncer>,
}

impl Handle {
    /// One with no index, and no row named: it owns no file, and no memory but its own block.
    pub fn new(alloc: Global) -> Handle
        ensures empty { result.index ≡ None }
        ensures none { result.dead.rows ≡ None }
        ensures unspent { result.spent.rows ≡ None }
    {
        Handle {
            alloc,
            index: None,
            dead: RowSet::new(),
            spent: RowSet::new(),
            syncer: None,
        }
    }
}

/// One with no index, and no row named, in a block of its own. None where there is no memory for it.
pub fn made(alloc: Global) -> Option<Loose<Handle, Global>>
    ensures empty { IfSome result (λ handle. handle.value.index ≡ None) }
    ensures none { IfSome result (λ handle. handle.value.dead.rows ≡ None) }
{
    match Box::new(alloc, Handle::new(alloc)) {
        Ok(handle) => Some(Loose::of(handle)),
        Err(_) => None,
    }
}

// A value that another thread may have.
fn is_sent<T: Send>(_value: &T) {}

/// Does nothing: that it is accepted says that C may give a handle to another thread.
pub fn may_be_sent(handle: &Handle) {
    is_sent(handle);
}

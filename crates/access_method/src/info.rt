//! What an open index is.

use index_model::Limits;

/// What an index is: the sizes that it was made with, and whether it is unique. How many blocks are in use,
/// block 0 too; how many of these are deleted, and how many of those may be used again now. And whether its
/// log has failed: then each call that reads or writes is refused with `Stopped` (3).
#[derive(Clone, Copy)]
pub struct IndexInfo {
    pub limits: Limits,
    pub pages_used: u32,
    pub pages_deleted: u32,
    pub pages_free: u32,
    pub is_stopped: bool,
}

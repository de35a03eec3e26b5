//! Deleted pages, counted at the end of a bulk delete.

ghost use Rattle.std.specs.Prelude.{◌≡◌, ◌+◌, ◌≤◌, length, if◌then◌else◌, ◌&&◌};
ghost use Rattle.page_action.specs.Reuse.{is_deleted, is_reusable_without};
ghost use Rattle.vacuum.specs.Counts.{deleted_count, free_count, stats_of};

use crate::steps::BulkDeleteOp;
use index_model::{Session, VacuumStats};
use page_action::PageStore;

/// How many pages are deleted, and how many of them would be reusable if the session's call were not running.
pub fn count_deleted<S: PageStore>(store: &S, session: Session) -> (u32, u32)
    ensures deleted { result.0 ≡ deleted_count (S.state store.now)
        (length (S.state store.now).pages) }
    ensures free { result.1 ≡ free_count (S.state store.now) session
        (length (S.state store.now).pages) }
{
    let mut deleted = 0;
    let mut free = 0;
    for block in 0..store.used() {
        if let Some(is_free) = store.free_for(session, block) {
            deleted += 1;
            if is_free {
                free += 1;
            }
        }
    }
    (deleted, free)
}

/// The statistics of a bulk delete that ends.
pub fn stats<S: PageStore>(op: &BulkDeleteOp, store: &S) -> VacuumStats
    ensures { result ≡ stats_of (S.state store.now) op.now }
{
    let (pages_deleted, pages_free) = count_deleted(store, op.session);
    VacuumStats {
        num_pages: store.used(),
        num_index_tuples: op.left,
        tuples_removed: op.removed,
        pages_newly_deleted: 0,
        pages_deleted,
        pages_free,
    }
}

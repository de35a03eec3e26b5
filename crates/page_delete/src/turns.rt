//! Where a cleanup goes after a page that it has read.

ghost use Rattle.std.specs.Prelude.{◌≡◌, ◌≤◌, ◌↔◌, IsTrue, false, Some, length};
ghost use Rattle.page_codec.specs.declared.page.PageState.TheVariants.{HalfDead};
ghost use Rattle.page_delete.specs.Ops.{cleanup_counted_out, turned_to, moved_past, moved_past_deleted, TurnsAt, cleanup_stats};
ghost use Rattle.page_delete.specs.Parts.{left_root, left_page, left_answer};
ghost use Rattle.vacuum.specs.Counts.{entry_count};
ghost use Rattle.page_action.specs.Contents.{live_entries};

use crate::steps::{CleanupAt, CleanupOp, CleanupStep};
use descent::{NextPage, Position};
use index_model::{Bound, Fault, VacuumStats};
use page_action::PageStore;
use page_codec::{Items, Page, PageState};
use tree_shape::may_die;
use vacuum::count_deleted;

/// The statistics of a cleanup that ends.
pub fn stats<S: PageStore>(op: &CleanupOp, store: &S) -> VacuumStats
    ensures { result ≡ cleanup_stats (S.state store.now) op.now }
{
    let (pages_deleted, pages_free) = count_deleted(store, op.session);
    VacuumStats {
        num_pages: store.used(),
        num_index_tuples: op.left,
        tuples_removed: 0,
        pages_newly_deleted: op.deleted,
        pages_deleted,
        pages_free,
    }
}

/// Whether the page is half-dead.
pub fn is_half_dead(page: &Page) -> bool
    ensures { IsTrue result ↔ (page.now.state ≡ HalfDead) }
{
    matches!(page.state, PageState::HalfDead)
}

// How many entries stand on it, if it is a live leaf.
fn count_entries(page: &Page) -> u64
    ensures count { result ≡ entry_count (Some page.now) }
{
    match (page.state, &page.items) {
        (PageState::Live, Items::Entries(entries)) => entries.len() as u64,
        _ => 0,
    }
}

impl CleanupOp {
    // Goes on after the page at the cursor, on which it counted `count` entries, at most 50.
    pub fn pass(&mut self, count: u64)
        requires room { cleanup_counted_out self.old ≡ false }
        requires few { count ≤ 50 }
        ensures { self.new ≡ moved_past self.old count }
    {
        self.cursor += 1;
        self.at = CleanupAt::Look;
        self.left += count;
    }

    // Goes on after the page at the cursor, which it has unlinked.
    pub fn pass_deleted(&mut self)
        requires room { cleanup_counted_out self.old ≡ false }
        ensures { self.new ≡ moved_past_deleted self.old }
    {
        self.cursor += 1;
        self.at = CleanupAt::Look;
        self.deleted += 1;
    }

    // Goes where the page at the cursor leads it.
    pub fn turn_at(&mut self, page: &Page)
        requires room { cleanup_counted_out self.old ≡ false }
        requires few { length (live_entries page.now.state page.now.items) ≤ 50 }
        ensures { TurnsAt page.now self.old self.new }
    {
        if is_half_dead(page) {
            self.at = CleanupAt::Unlink;
            return;
        }
        if may_die(page) {
            if let Some(high) = page.high {
                self.at = CleanupAt::Start(high);
                return;
            }
        }
        self.pass(count_entries(page));
    }

    // Goes to the root, unless that is a leaf.
    pub fn turn_from_root(&mut self, position: Position, high: Bound)
        requires room { cleanup_counted_out self.old ≡ false }
        ensures { self.new ≡ left_root self.old position high }
    {
        if position.level == 0 {
            self.pass(0);
        } else {
            self.at = CleanupAt::Down(high, position);
        }
    }

    // Goes on where the page of this block, on the way to the parent, leads it. Refused with `PageDamaged`
    // if it leads nowhere.
    pub fn turn_from_page(
        &mut self,
        next_page: Option<NextPage>,
        block: u32,
        high: &Bound,
    ) -> Result<CleanupStep, Fault>
        ensures op { self.new ≡ left_page self.old next_page block high.now }
        ensures answer { result ≡ left_answer next_page block }
    {
        match next_page {
            None => Err(Fault::PageDamaged(block)),
            Some(NextPage::Going(on)) => {
                self.at = CleanupAt::Down(*high, on);
                Ok(CleanupStep::Going)
            }
            Some(NextPage::Here) => {
                self.at = CleanupAt::Judge(*high, block);
                Ok(CleanupStep::Going)
            }
        }
    }
}

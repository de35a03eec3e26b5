//! Empty leaves that leave the tree. Each page that is changed is one of the second layout then.

ghost use Rattle.std.specs.Prelude.{◌≡◌, ◌↔◌, IsTrue, [], Some, IfSome, IsSome};
ghost use Rattle.page_codec.specs.Edits.{entries_of, HasEntries};
ghost use Rattle.page_codec.specs.Grammar.{IsBlock, IsPage};
ghost use Rattle.tree_shape.specs.Nodes.{node_of};
ghost use Rattle.tree_shape.specs.Edits.{half_dead, deleted, with_left, with_right};
ghost use Rattle.tree_shape.specs.Deletion.{MayDie, as_deleted};
ghost use Rattle.tree_shape.specs.Mending.{MayBeMended};

use arrayvec::ArrayVec;
use index_model::Layout;
use page_codec::{Items, Page, PageState};

/// Whether the page is a live leaf without entries, without an incomplete split, with a right link: one that
/// may be made half-dead.
pub fn may_die(page: &Page) -> bool
    ensures { IsTrue result ↔ MayDie page.now }
{
    matches!(page.state, PageState::Live)
        && !page.split
        && page.right.is_some()
        && is_empty_leaf(&page.items)
}

fn is_empty_leaf(items: &Items) -> bool
    ensures { IsTrue result ↔ (HasEntries items.now × (entries_of items.now ≡ [])) }
{
    match items {
        Items::Entries(entries) => entries.is_empty(),
        Items::Meta | Items::Downlinks(_) => false,
    }
}

/// Makes a leaf half-dead, and changes nothing else but the layout.
#[tactic(auto, using(page_codec::proofs::Renewed::renewed_is_page))]
pub fn mark_half_dead(page: &mut Page)
    ensures only { page.new ≡ record page.old { layout = Layout.Two; state = PageState.HalfDead } }
    ensures node { node_of page.new ≡ half_dead (node_of page.old) }
    ensures page { IsPage page.old → MayDie page.old → IsPage page.new }
{
    page.layout = Layout::Two;
    page.state = PageState::HalfDead;
}

/// The page as it is when it is deleted: only its block, its right link and this deletion number are left.
pub fn deleted_page(page: &Page, number: u64) -> Page
    ensures only { result ≡ as_deleted page.now number }
    ensures node { IsPage page.now → page.now.state ≡ PageState.HalfDead
        → node_of result ≡ deleted (node_of page.now) }
    ensures page { IsPage page.now → page.now.state ≡ PageState.HalfDead → IsPage result }
{
    Page {
        layout: Layout::Two,
        block: page.block,
        level: 0,
        state: PageState::Deleted,
        split: false,
        left: None,
        right: page.right,
        high: None,
        cycle: 0,
        deletion: number,
        items: Items::Entries(ArrayVec::new()),
    }
}

/// Sets the right link of a page that has one to `right`, 1 to 65,535, and changes nothing else but the
/// layout.
#[tactic(auto, using(page_codec::proofs::Renewed::renewed_is_page))]
pub fn mend_right(page: &mut Page, right: u32)
    ensures only { page.new ≡ record page.old { layout = Layout.Two; right = Some right } }
    ensures node { node_of page.new ≡ with_right (node_of page.old) (Some right) }
    ensures page { IsPage page.old → IsSome page.old.right → IsBlock right → IsPage page.new }
{
    page.layout = Layout::Two;
    page.right = Some(right);
}

/// Sets the left link of a page, 1 to 65,535 or none, and changes nothing else but the layout.
#[tactic(auto, using(page_codec::proofs::Renewed::renewed_is_page))]
pub fn set_left(page: &mut Page, left: Option<u32>)
    ensures only { page.new ≡ record page.old { layout = Layout.Two; left = left } }
    ensures node { node_of page.new ≡ with_left (node_of page.old) left }
    ensures page { IsPage page.old → MayBeMended page.old → IfSome left IsBlock
        → IsPage page.new }
{
    page.layout = Layout::Two;
    page.left = left;
}

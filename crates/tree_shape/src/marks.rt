//! Links and marks of pages that are set when a split is made or finished. Each page that is changed is one
//! of the second layout then.

ghost use Rattle.std.specs.Prelude.{◌≡◌, ◌<◌, ◌≤◌, ◌↔◌, IsTrue, true, false, Some, None};
ghost use Rattle.page_codec.specs.Grammar.{IsBlock, IsPage, IsBoundIn};
ghost use Rattle.tree_shape.specs.Nodes.{node_of};
ghost use Rattle.tree_shape.specs.Edits.{with_left, cleared, new_root};
ghost use Rattle.tree_shape.specs.LinkPlaces.{HasLinks};
ghost use Rattle.tree_shape.specs.Mending.{MayBeMended};
ghost use Rattle.tree_shape.specs.Tree.{IsMetaOf};

use arrayvec::ArrayVec;
use index_model::{Bound, Layout};
use page_codec::{Downlink, Items, Page, PageState};

/// Whether the page may have a left link: it is not the metapage, and not deleted.
pub fn may_be_mended(page: &Page) -> bool
    ensures { IsTrue result ↔ MayBeMended page.now }
{
    !matches!(page.items, Items::Meta) && !matches!(page.state, PageState::Deleted)
}

/// Sets the left link of a page to `left`, 1 to 65,535, and changes nothing else but the layout.
#[tactic(auto, using(page_codec::proofs::Renewed::renewed_is_page))]
pub fn mend_left(page: &mut Page, left: u32)
    ensures only { page.new ≡ record page.old { layout = Layout.Two; left = Some left } }
    ensures node { node_of page.new ≡ with_left (node_of page.old) (Some left) }
    ensures page { IsPage page.old → MayBeMended page.old → IsBlock left → IsPage page.new }
{
    page.layout = Layout::Two;
    page.left = Some(left);
}

/// Marks the split of a page as finished, and changes nothing else but the layout.
#[tactic(auto, using(page_codec::proofs::Renewed::renewed_is_page))]
pub fn clear_split(page: &mut Page)
    ensures only { page.new ≡ record page.old { layout = Layout.Two; split = false } }
    ensures node { node_of page.new ≡ cleared (node_of page.old) }
    ensures page { IsPage page.old → IsPage page.new }
{
    page.layout = Layout::Two;
    page.split = false;
}

/// A root over the halves `left` and `right` of the root before it, which the separator parts: its
/// level is 1 to 31, and each block 1 to 65,535.
pub fn root_over(block: u32, level: u8, left: u32, separator: Bound, right: u32) -> Page
    ensures node { node_of result ≡ new_root level left separator right }
    ensures layout { result.layout ≡ Layout.Two }
    ensures block { result.block ≡ block }
    ensures internal { HasLinks result.items }
    ensures page { IsBlock block → 0 < level → level ≤ 31 → IsBlock left
        → IsBoundIn Layout.Two separator → IsBlock right → IsPage result }
{
    let mut links = ArrayVec::new();
    links.push(Downlink {
        bound: None,
        child: left,
    });
    links.push(Downlink {
        bound: Some(separator),
        child: right,
    });
    Page {
        layout: Layout::Two,
        block,
        level,
        state: PageState::Live,
        split: false,
        left: None,
        right: None,
        high: None,
        cycle: 0,
        deletion: 0,
        items: Items::Downlinks(links),
    }
}

/// Makes the metapage name `root`, 1 to 65,535, as the root, on a level of 0 to 31.
#[tactic(auto, using(page_codec::proofs::Renewed::renewed_is_page))]
pub fn point_to_root(page: &mut Page, root: u32, level: u8)
    ensures only { page.new
        ≡ record page.old { layout = Layout.Two; level = level; right = Some root } }
    ensures names { page.old.items ≡ Items.Meta → IsMetaOf page.new root level }
    ensures page { IsPage page.old → page.old.items ≡ Items.Meta → IsBlock root → level ≤ 31
        → IsPage page.new }
{
    page.layout = Layout::Two;
    page.level = level;
    page.right = Some(root);
}

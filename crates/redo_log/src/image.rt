//! Which pages are images.

ghost use Rattle.std.specs.Prelude.{◌≡◌, ◌↔◌, ◌<◌, ◌≤◌, IsTrue};
ghost use Rattle.redo_log.specs.Groups.{IsWithin, IsImage, AreImages};

use index_model::Format;
use page_codec::{Page, is_page};

/// Whether its block and the number of its items are within these limits, and an index of this format may
/// have its layout.
pub(crate) fn is_within(format: &Format, page: &Page) -> bool
    ensures { IsTrue result ↔ IsWithin format.now page.now }
{
    page.block < format.pages
        && page.items.len() <= format.items as usize
        && format.admits(page.layout)
}

/// Whether the page is one that an index of these limits may have.
fn is_image(format: &Format, page: &Page) -> bool
    ensures { IsTrue result ↔ IsImage format.now page.now }
{
    is_page(page) && is_within(format, page)
}

/// Whether each page is one that an index of these limits may have, so that its log takes it.
pub fn are_images(format: &Format, pages: &[Page]) -> bool
    ensures { IsTrue result ↔ AreImages format.now pages.now }
{
    let mut rest = pages;
    while let [page, later @ ..] = rest {
        if !is_image(format, page) {
            return false;
        }
        rest = later;
    }
    true
}

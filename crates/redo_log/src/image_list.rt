//! The images that wait, as a list that only clauses read.

ghost use Rattle.std.specs.Prelude.{[]};

use index_model::{Noted, Reckons};
use page_codec::Page;
use std::marker::Model;

/// The images that wait, one for each block. None is made: it is the type of one that is noted.
pub(crate) struct ImageList {}

impl Model for ImageList {
    ghost use Rattle.std.specs.Prelude.{List, []};
    ghost use Rattle.page_codec.specs.declared.page.Page.{Page};

    ghost Value = { List Page };

    ghost view = { λ _. [] };
}

/// No image.
impl Reckons<()> for ImageList {
    ghost reckoned = { λ _. [] };
}

/// These too, each in the place of the image of its block.
impl<'a> Reckons<(&'a Noted<ImageList>, &'a [Page])> for ImageList {
    ghost use Rattle.redo_log.specs.Blocks.{with_images};

    ghost reckoned = { λ x. with_images x.0.now.value x.1.now };
}

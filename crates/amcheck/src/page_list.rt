//! The pages that were read, as a list that only clauses read.

ghost use Rattle.std.specs.Prelude.{◌++◌, []};

use index_model::{Noted, Reckons};
use page_codec::Page;
use std::marker::Model;

/// A list of pages. None is made: it is the type of one that is noted.
pub(crate) struct PageList {}

impl Model for PageList {
    ghost use Rattle.std.specs.Prelude.{List, []};
    ghost use Rattle.page_codec.specs.declared.page.Page.{Page};

    ghost Value = { List Page };

    ghost view = { λ _. [] };
}

/// No page.
impl Reckons<()> for PageList {
    ghost reckoned = { λ _. [] };
}

/// These pages too.
impl<'a> Reckons<(&'a Noted<PageList>, &'a [Page])> for PageList {
    ghost reckoned = { λ x. x.0.now.value ++ x.1.now };
}

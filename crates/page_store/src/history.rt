//! The acts of a store, as a list that only clauses read.

ghost use Rattle.std.specs.Prelude.{List, []};
ghost use Rattle.std.specs.Borrow.{ftrue};
ghost use Rattle.page_codec.specs.declared.page.Page.{Page};

use index_model::{Noted, Reckons};
use page_codec::Page;
use std::marker::Model;

/// The pages that a store was opened with and the acts since, the oldest first. None is made: it is the type
/// of one that is noted.
pub(crate) struct History {
    pub ghost start: { List Page },
    pub ghost acts: { List (List Page) },
}

impl Model for History {
    ghost also_owns = { λ _. ftrue };
}

/// No page, no act.
impl Reckons<()> for History {
    ghost reckoned = { λ _. record { start = []; acts = [] } };
}

/// It was opened with this page too.
impl<'a> Reckons<(&'a Noted<History>, &'a Page)> for History {
    ghost use Rattle.page_store.specs.Histories.{with_read};

    ghost reckoned = { λ x. with_read x.1.now x.0.now.value };
}

/// One act more, which changes these pages.
impl<'a> Reckons<(&'a Noted<History>, &'a [Page])> for History {
    ghost use Rattle.page_store.specs.Histories.{with_act};

    ghost reckoned = { λ x. with_act x.1.now x.0.now.value };
}

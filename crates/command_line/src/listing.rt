//! All pages of a store, printed.

ghost use Rattle.std.specs.Prelude.{◌≡◌, Ok, IfOk};
ghost use Rattle.index_model.specs.Faults.{HasCause};
ghost use Rattle.page_action.specs.States.{Continues};
ghost use Rattle.command_line.specs.Listing.{PrintsPages, ListsFirst, IsDoneOrRefused, causes_of_listed};

use crate::end::End;
use index_model::Fault;
use page_action::PageStore;
use std::io::{self, Write};
use text_forms::print_page;

/// Prints each page in use, lowest block first. Refused as `PageStore::fetch` is; the pages before that one
/// are printed then.
pub fn list_pages<S: PageStore, W: Write>(store: &mut S, out: &mut W) -> io::Result<End>
    ensures steps { Continues S.follows store.old store.new }
    ensures state { S.state store.new ≡ S.state store.old }
    ensures ends { IfOk result IsDoneOrRefused }
    ensures listed { result ≡ Ok End.Done → PrintsPages (S.backing store.new).honest
        (S.state store.old).pages (W.contents out.old) (W.contents out.new) }
    ensures refused { (fault : Fault) → result ≡ Ok (End.Refused fault)
        → ListsFirst (S.backing store.new).honest
        (S.state store.old).pages (W.contents out.old) (W.contents out.new) }
    ensures cause { (fault : Fault) → result ≡ Ok (End.Refused fault)
        → HasCause (causes_of_listed (S.state store.old) (S.backing store.old) (S.backing store.new)) fault }
{
    for block in 0..store.used() {
        match store.fetch(block) {
            Ok(()) => {}
            Err(fault) => return Ok(End::Refused(fault)),
        }
        print_page(out, store.view(block))?;
    }
    Ok(End::Done)
}

//! What an open scan gives.

ghost use Rattle.std.specs.Prelude.{◌≡◌};
ghost use Rattle.nardsill.specs.Asking.{token_of};
ghost use Rattle.nardsill.specs.Giving.{Gives, GivesNext};
ghost use Rattle.nardsill.specs.Meanings.{SpellsGiven};

use crate::answer::{Given, none_given};
use crate::ask::Token;
use crate::handle::Handle;
use access_method::{Index, ScanToken};
use device::{FileDevice, Unknown};
use index_model::{Entry, Fault};
use page_action::PageStore;
use page_store::Store;

/// The next entry of a scan.
pub fn give(handle: &mut Handle, token: Token) -> Given
    ensures { GivesNext ⟦<Store<FileDevice<Unknown>> as PageStore>⟧ (token_of token) result
        handle.old.index handle.new.index }
{
    let token = ScanToken {
        number: token.number,
        session: token.session,
    };
    match &mut handle.index {
        None => none_given(Fault::NoSession),
        Some(index) => next(index, token),
    }
}

fn next<S: PageStore>(index: &mut Index<S>, token: ScanToken) -> Given
    ensures { Gives S.PageStore token result index.old index.new }
{
    given(index.amgettuple(token))
}

fn given(outcome: Result<Option<Entry>, Fault>) -> Given
    ensures { SpellsGiven outcome result }
{
    match outcome {
        Ok(Some(entry)) => Given {
            status: 0,
            page: 0,
            block: entry.row.block(),
            offset: entry.row.offset(),
            len: entry.key.len(),
            is_given: true,
            key: *entry.key.cells(),
        },
        Ok(None) => Given {
            status: 0,
            page: 0,
            block: 0,
            offset: 0,
            len: 0,
            is_given: false,
            key: [0; 64],
        },
        Err(fault) => none_given(fault),
    }
}

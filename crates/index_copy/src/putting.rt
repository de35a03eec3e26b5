//! Putting entries into an index.

ghost use Rattle.std.specs.Prelude.{OnOk, IfErr};
ghost use Rattle.access_method.specs.Indexes.{ForEachIndexHistory, SameTokens};
ghost use Rattle.index_model.specs.Order.{is_among};
ghost use Rattle.page_action.specs.States.{Continues};
ghost use Rattle.index_copy.specs.Batches.{is_in_batch};
ghost use Rattle.index_copy.specs.Copying.{Gains, FitsOn, IsPutRefusedFor, WasRefused};

use crate::batch::Batch;
use access_method::Index;
use index_model::{Entry, Fault};
use page_action::PageStore;

// Puts each of these entries into an index. Refused as the insert of one of them is: those before it are put
// then.
fn put_each<S: PageStore>(index: &mut Index<S>, entries: &[Entry]) -> Result<(), Fault>
    ensures steps { Continues S.follows index.old.store index.new.store }
    ensures goes_on { ForEachIndexHistory S.PageStore index.old index.new
        (FitsOn S.PageStore index.old index.new) }
    ensures gains { OnOk result (ForEachIndexHistory S.PageStore index.old index.new
        (λ start history calls. Gains S.PageStore (is_among entries.now) index.old.store
        index.new.store)) }
    ensures refused { IfErr result (λ fault. ForEachIndexHistory S.PageStore index.old index.new
        (λ start history calls. IsPutRefusedFor S.PageStore (is_among entries.now) index.old.store
        fault)) }
    ensures cause { IfErr result (λ fault. WasRefused S.PageStore fault index.old index.new) }
    ensures tokens { SameTokens index.old index.new }
{
    for entry in entries {
        index.aminsert(*entry)?;
    }
    Ok(())
}

/// Puts the entries of a batch into an index. Refused as the insert of one of them is: those that are put
/// before it are put then.
pub(crate) fn put_batch<S: PageStore>(index: &mut Index<S>, batch: &Batch) -> Result<(), Fault>
    ensures steps { Continues S.follows index.old.store index.new.store }
    ensures goes_on { ForEachIndexHistory S.PageStore index.old index.new
        (FitsOn S.PageStore index.old index.new) }
    ensures gains { OnOk result (ForEachIndexHistory S.PageStore index.old index.new
        (λ start history calls. Gains S.PageStore (is_in_batch batch.now) index.old.store
        index.new.store)) }
    ensures refused { IfErr result (λ fault. ForEachIndexHistory S.PageStore index.old index.new
        (λ start history calls. IsPutRefusedFor S.PageStore (is_in_batch batch.now) index.old.store
        fault)) }
    ensures cause { IfErr result (λ fault. WasRefused S.PageStore fault index.old index.new) }
    ensures tokens { SameTokens index.old index.new }
{
    put_each(index, batch.first.as_slice())?;
    put_each(index, batch.others.as_slice())
}

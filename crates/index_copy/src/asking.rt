//! The next entries of a scan.

ghost use Rattle.std.specs.Prelude.{◌≡◌, ◌≢◌, false, true, None, OnOk, OnErr, IfOk, IfErr};
ghost use Rattle.access_method.specs.Indexes.{SameTokens, SeatBecomes, seat_with};
ghost use Rattle.access_method.specs.Tokens.{seat_of};
ghost use Rattle.page_action.specs.States.{Continues};
ghost use Rattle.schedule.specs.Sessions.{op_of};
ghost use Rattle.index_copy.specs.Batches.{batch_len, GivesBatch, BreaksOff};

use crate::batch::{BATCH, Batch};
use access_method::{Index, ScanToken};
use index_model::Fault;
use page_action::PageStore;

/// The next entries that an open scan gives, 4,900 unless they are its last. Refused as `amgettuple` is.
pub(crate) fn next_batch<S: PageStore>(
    index: &mut Index<S>,
    token: ScanToken,
) -> Result<Batch, Fault>
    requires is_open { seat_of index.old.seats token ≡ seat_with token false }
    requires runs { op_of index.old.calls token.session ≢ None }
    ensures steps { Continues S.follows index.old.store index.new.store }
    ensures gives { IfOk result (GivesBatch S.PageStore token.session index.old index.new) }
    ensures breaks { IfErr result (λ fault.
        BreaksOff S.PageStore token.session fault index.old index.new) }
    ensures tokens { OnOk result (SameTokens index.old index.new) }
    ensures refused { OnErr result (SeatBecomes token (seat_with token true) index.old index.new) }
    ensures goes_on { IfOk result (λ batch. batch_len batch ≡ 4900
        → op_of index.new.calls token.session ≢ None) }
{
    let mut batch = Batch::new();
    while batch.len() < BATCH {
        match index.amgettuple(token) {
            Ok(Some(entry)) => batch.push(entry),
            Ok(None) => return Ok(batch),
            Err(fault) => return Err(fault),
        }
    }
    Ok(batch)
}

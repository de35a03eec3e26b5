//! Copying all entries.

ghost use Rattle.std.specs.Prelude.{◌≡◌, ◌≢◌, false, None, IfOk, IfErr};
ghost use Rattle.access_method.specs.Indexes.{ForEachIndexHistory, SameTokens, has_entry, seat_with};
ghost use Rattle.access_method.specs.Scans.{Rests};
ghost use Rattle.access_method.specs.Tokens.{seat_of};
ghost use Rattle.access_method.specs.declared.token.ScanToken.{ScanToken as TheToken};
ghost use Rattle.page_action.specs.States.{Continues};
ghost use Rattle.schedule.specs.Sessions.{op_of};
ghost use Rattle.index_copy.specs.Copying.{FitsOn};
ghost use Rattle.index_copy.specs.Copies.{IsCauseOfStop, IsCopied, IsNotCopied, CopiesScan, IsStopped, WasAsked, SeatIsKept};

use crate::asking::next_batch;
use crate::batch::BATCH;
use crate::putting::put_batch;
use access_method::{Index, ScanToken};
use index_model::{Fault, Progress, Range};
use page_action::PageStore;

/// Why not all entries were copied.
#[derive(Clone, Copy)]
pub enum NotCopied {
    /// The index that is read refused to give the next one.
    NotGiven(Fault),
    /// The other index refused to take one.
    NotPut(Fault),
    /// There are 2^64 - 4,901 or more.
    TooMany,
}

// Puts what an open scan gives into another index, and answers how many entries these are.
fn copy_scan<S: PageStore, T: PageStore, P: Progress>(
    from: &mut Index<S>,
    token: ScanToken,
    into: &mut Index<T>,
    progress: &P,
    all: u64,
) -> Result<u64, NotCopied>
    requires is_open { seat_of from.old.seats token ≡ seat_with token false }
    requires runs { op_of from.old.calls token.session ≢ None }
    ensures from_steps { Continues S.follows from.old.store from.new.store }
    ensures into_steps { Continues T.follows into.old.store into.new.store }
    ensures asked { WasAsked S.PageStore token.session from.old from.new }
    ensures copies { IfOk result (λ count. CopiesScan S.PageStore T.PageStore token.session count
        from.old from.new into.old into.new) }
    ensures stopped { IfErr result (IsStopped S.PageStore T.PageStore token.session from.old from.new
        into.old into.new) }
    ensures goes_on { ForEachIndexHistory T.PageStore into.old into.new
        (FitsOn T.PageStore into.old into.new) }
    ensures seats { SeatIsKept token from.old from.new }
    ensures tokens { SameTokens into.old into.new }
{
    let mut count = 0;
    while count < u64::MAX - 4_900 {
        let batch = match next_batch(from, token) {
            Ok(batch) => batch,
            Err(fault) => return Err(NotCopied::NotGiven(fault)),
        };
        if let Err(fault) = put_batch(into, &batch) {
            return Err(NotCopied::NotPut(fault));
        }
        count += batch.len() as u64;
        progress.done(count, all);
        if batch.len() < BATCH {
            return Ok(count);
        }
    }
    Err(NotCopied::TooMany)
}

/// Puts each entry of an index into another one, and answers how many these are: 0 to 2^64 - 1. `all` is what
/// `progress` is told as the number of all entries, and nothing else depends on it. The entries of the index
/// that is read stay, and so do its open scans.
///
/// Refused with `NotGiven` as `ambeginscan` and `amgettuple` are, with `NotPut` as `aminsert` is: with
/// `Exists` (5) or `KeyExists` (21) if the other index had an entry, or on a unique one a key, that is put;
/// with `IndexFull` (8) if it has too few pages. What was put before stays put, and both indexes may be
/// called on.
pub fn copy<S: PageStore, T: PageStore, P: Progress>(
    from: &mut Index<S>,
    into: &mut Index<T>,
    progress: &P,
    all: u64,
) -> Result<u64, NotCopied>
    ensures from_steps { Continues S.follows from.old.store from.new.store }
    ensures into_steps { Continues T.follows into.old.store into.new.store }
    // Whatever is answered.
    ensures rests { ForEachIndexHistory S.PageStore from.old from.new
        (Rests S.PageStore from.old from.new) }
    ensures goes_on { ForEachIndexHistory T.PageStore into.old into.new
        (FitsOn T.PageStore into.old into.new) }
    ensures copies { IfOk result (λ count. ForEachIndexHistory S.PageStore from.old from.new
        (λ start history calls. IsCopied S.PageStore T.PageStore count from.old.store into.old
        into.new)) }
    ensures refused { IfErr result (λ not_copied. ForEachIndexHistory S.PageStore from.old from.new
        (λ start history calls. IsNotCopied S.PageStore T.PageStore from.old.store into.old into.new
        not_copied)) }
    ensures cause { IfErr result
        (IsCauseOfStop S.PageStore T.PageStore from.old from.new into.old into.new) }
    ensures from_tokens { (t : TheToken) → seat_of from.new.seats t ≡ seat_of from.old.seats t }
    ensures tokens { SameTokens into.old into.new }
{
    let range = Range {
        from: None,
        below: None,
    };
    let token = match from.ambeginscan(range) {
        Ok(token) => token,
        Err(fault) => return Err(NotCopied::NotGiven(fault)),
    };
    let copied = copy_scan(from, token, into, progress, all);
    from.scan_law();
    // The scan's page and its session are let go, whatever was answered.
    let _ended = from.amendscan(token);
    copied
}

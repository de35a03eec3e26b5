//! The receipts of a run, and how many jobs each worker did.

ghost use Rattle.std.specs.Prelude.{◌≡◌, ◌<◌, ℕ, Some, IfSome, length, replicate, slice_get, vec_len};
ghost use Rattle.std.specs.List.{sum};
ghost use Rattle.sessions.specs.Finishing.{receipt_of, records_of};
ghost use Rattle.shared_world.specs.declared.record.Record.{Record as DoneJob};

use crate::outcome::Receipt;
use shared_world::Record;
use std::alloc::Global;

/// Room for a receipt of each job, and a count of 0 for each worker. None if there is no memory for it.
pub fn make_tables(alloc: Global, jobs: usize, workers: u32) -> Option<(Vec<Receipt>, Vec<u64>)>
    ensures receipts { IfSome result (λ r. vec_len r.0 ≡ jobs) }
    ensures calls { IfSome result (λ r. r.1.items ≡ replicate workers 0) }
    ensures count { IfSome result (λ r. vec_len r.1 ≡ workers) }
{
    let nobody = Receipt {
        worker: 0,
        job: 0,
        place: 0,
    };
    let receipts = Vec::from_elem(alloc, nobody, jobs).ok()?;
    let calls = Vec::from_elem(alloc, 0u64, workers as usize).ok()?;
    Some((receipts, calls))
}

// The receipt for a record.
fn receipt(done: &Record, place: usize) -> Receipt
    ensures { result ≡ receipt_of place done.now }
{
    Receipt {
        worker: done.worker,
        job: done.job,
        place: place as u64,
    }
}

/// Writes the receipt for each record, and counts each worker's records.
pub fn write_receipts(history: &[Record], receipts: &mut Vec<Receipt>, calls: &mut Vec<u64>)
    requires jobs { (place : ℕ) (r : DoneJob) → slice_get history.now place ≡ Some r
        → r.job < vec_len receipts.old }
    requires workers { (place : ℕ) (r : DoneJob) → slice_get history.now place ≡ Some r
        → r.worker < vec_len calls.old }
    requires once { (p q : ℕ) (r t : DoneJob) → slice_get history.now p ≡ Some r
        → slice_get history.now q ≡ Some t → r.job ≡ t.job → p ≡ q }
    requires zero { calls.old.items ≡ replicate (vec_len calls.old) 0 }
    ensures length { vec_len receipts.new ≡ vec_len receipts.old }
    ensures workers { vec_len calls.new ≡ vec_len calls.old }
    ensures written { (place : ℕ) (r : DoneJob) → slice_get history.now place ≡ Some r
        → slice_get receipts.new.items r.job ≡ Some (receipt_of place r) }
    ensures counted { (worker : ℕ) → worker < vec_len calls.old
        → slice_get calls.new.items worker ≡ Some (records_of worker history.now) }
    ensures sum { sum calls.new.items ≡ length history.now }
{
    for place in 0..history.len() {
        let record = &history[place];
        receipts[record.job as usize] = receipt(record, place);
        calls[record.worker as usize] += 1;
    }
}

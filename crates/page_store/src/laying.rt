//! What waits in the log is laid out from the pages in memory, and forced.

ghost use Rattle.std.specs.Prelude.{◌≡◌, ◌≤◌, ◌<◌, ℕ, suc, [], slice_index, OnOk, OnErr, is_err, length};
ghost use Rattle.page_codec.specs.Places.{log_end};
ghost use Rattle.redo_log.specs.Kept.{format_of, is_stopped, waiting_count, waiting_blocks, waiting_images, laid_count, groups_end, end_with, IsLaid, WaitsAlike, SameLog, KeepsActions, ForcesAll, RestartsThroughout, ChangesItsRange, IoOrStopped};
ghost use Rattle.page_store.specs.Writing.{HoldsWaiting};

use buffer_pool::Pool;
use device::Device;
use index_model::Fault;
use redo_log::{Advance, Log};

/// Lays out the next image that waits in the log, which is of this block, from its page in the pool.
fn lay_next(log: &mut Log, pool: &Pool, block: u32)
    requires held { HoldsWaiting (waiting_images log.old) 0 pool.now }
    requires next { laid_count log.old < waiting_count log.old }
    requires block { slice_index (waiting_blocks log.old) (laid_count log.old) ≡ block }
    ensures laid { laid_count log.new ≡ suc (laid_count log.old) }
    ensures waits { WaitsAlike log.old log.new }
{
    pool.law();
    match pool.find(block) {
        Some(at) => log.lay(pool.page(at)),
        None => unreachable!(),
    }
}

/// Lays out each image that waits in the log, from its page in the pool.
fn lay_waiting(log: &mut Log, pool: &Pool)
    requires held { HoldsWaiting (waiting_images log.old) 0 pool.now }
    ensures laid { IsLaid log.new }
    ensures waits { WaitsAlike log.old log.new }
{
    let mut next = log.unlaid();
    while let Some(block) = next {
        lay_next(log, pool, block);
        next = log.unlaid();
    }
}

/// Forces the log, given that the pool holds what waits in it. Refused with `Io` and `Stopped`.
pub(crate) fn force<D: Device>(log: &mut Log, pool: &Pool, device: &mut D) -> Result<u64, Fault>
    requires range { log_end (format_of log.old) ≤ length (D.trace device.old).now.seen }
    requires held { HoldsWaiting (waiting_images log.old) 0 pool.now }
    ensures keeps { OnOk result
        (ForcesAll log.old (D.trace device.old).now log.new (D.trace device.new).now) }
    ensures moments { RestartsThroughout log.old (D.trace device.old) (D.trace device.new) }
    ensures written { OnOk result (waiting_count log.new ≡ 0) }
    ensures waiting { OnErr result (waiting_blocks log.new ≡ waiting_blocks log.old) }
    ensures images { OnErr result (waiting_images log.new ≡ waiting_images log.old) }
    ensures none { OnOk result (waiting_images log.new ≡ []) }
    ensures room { OnOk result ((n : ℕ) → end_with log.new n ≤ end_with log.old (suc n)) }
    ensures refused { OnErr result ((n : ℕ) → end_with log.new n ≡ end_with log.old n) }
    ensures same { SameLog log.old log.new }
    ensures stopped { is_stopped log.new ≡ is_err result }
    ensures outside { ChangesItsRange (format_of log.old)
        (D.trace device.old) (D.trace device.new) }
    ensures len { length (D.trace device.new).now.seen ≡ length (D.trace device.old).now.seen }
    ensures honest { D.is_honest device.new ≡ D.is_honest device.old }
    ensures cause { IoOrStopped result (is_stopped log.old)
        (D.failures device.old) (D.failures device.new) }
{
    lay_waiting(log, pool);
    log.force(device)
}

/// Does the next part of a force, given that the pool holds what waits in the log. Refused with `Io` and
/// `Stopped`.
pub(crate) fn advance<D: Device>(
    log: &mut Log,
    pool: &Pool,
    device: &mut D,
) -> Result<Advance, Fault>
    requires range { log_end (format_of log.old) ≤ length (D.trace device.old).now.seen }
    requires held { HoldsWaiting (waiting_images log.old) 0 pool.now }
    ensures keeps { OnOk result
        (KeepsActions log.old (D.trace device.old).now log.new (D.trace device.new).now) }
    ensures moments { RestartsThroughout log.old (D.trace device.old) (D.trace device.new) }
    ensures blocks { waiting_blocks log.new ≡ waiting_blocks log.old }
    ensures images { waiting_images log.new ≡ waiting_images log.old }
    ensures end { groups_end log.new ≡ groups_end log.old }
    ensures same { SameLog log.old log.new }
    ensures stopped { is_stopped log.new ≡ is_err result }
    ensures outside { ChangesItsRange (format_of log.old)
        (D.trace device.old) (D.trace device.new) }
    ensures len { length (D.trace device.new).now.seen ≡ length (D.trace device.old).now.seen }
    ensures honest { D.is_honest device.new ≡ D.is_honest device.old }
    ensures cause { IoOrStopped result (is_stopped log.old)
        (D.failures device.old) (D.failures device.new) }
{
    lay_waiting(log, pool);
    log.advance(device)
}

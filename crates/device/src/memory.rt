//! A device in memory.

ghost use Rattle.std.specs.Prelude.{◌≡◌, ◌⊎◌, ◌↔◌, ◌+◌, ◌<◌, ◌≤◌, ◌^◌, suc, Bool, true, IsTrue, IsOk, OnOk, OnErr, IfOk, IfErr, length, replicate, drop};
ghost use Rattle.device.specs.Disk.{MayCrashTo, first, Reads, Writes, IsKeptOrNot, Syncs, CountsFailures};
ghost use Rattle.device.specs.Record.{done, are_inside, synced_calls, synced_over};
ghost use Rattle.device.specs.Past.{writes_of};
ghost use Rattle.device.specs.Plans.{fate_of, after_call, counted_with};

use crate::count::Count;
use crate::device::Device;
use crate::past::{Past, Synced};
use crate::plan::{Fate, Plan};
use crate::record::{Piece, settle, torn_image, write_noted};
use index_model::{Fault, Noted, reckon};
use std::alloc::Global;

/// What a crash leaves of a device in memory.
#[derive(Clone, Copy, Debug, PartialEq, Eq)]
pub enum CrashImage {
    /// The bytes at the last successful sync.
    Drop,
    /// All bytes as written.
    Keep,
    /// The bytes at the last successful sync, then each later write in order, its first half as
    /// written and each other byte A5.
    Tear,
}

/// A device in memory, which keeps the model. Calls of it can be made to fail, and it can be asked
/// what a crash leaves. It notes its writes since the last sync; a write that cannot be noted does
/// nothing and answers `Io`.
#[derive(Drop)]
pub struct MemDevice {
    alloc: Global,
    firm: Vec<u8>,
    bytes: Vec<u8>,
    since: Vec<Piece>,
    failures: Noted<Count>,
    plan: Plan,
    made: u64,
    past: Noted<Past>,
    ghost replayed: { bytes.items ≡ (done (first past.value.start) past.value.calls).now.seen },
    ghost inside: { IsTrue (are_inside (length past.value.start) past.value.calls) },
    ghost sized: { length bytes.items ≡ length past.value.start },
    ghost small: { length (done (first past.value.start) past.value.calls).now.seen < 2 ^ 63 },
    ghost firm_is: { firm.items ≡ synced_over past.value.start past.value.calls },
    ghost since_is: { writes_of since.items ≡ drop (synced_calls past.value.calls) past.value.calls },
}

impl MemDevice {
    ghost use Rattle.device.specs.Memory.{trace_of, failures_of, plan_of, calls_of, left_by};
    ghost use Rattle.device.specs.Plans.{no_plan, failing_at, stopping_at};

    /// A device of so many bytes, all zero and synced, of which no call is made to fail. Without
    /// memory for them it is refused with `NoMemory`.
    pub fn new(alloc: Global, len: u64) -> Result<MemDevice, Fault>
        ensures bytes { IfOk result (λ d. trace_of d ≡ first (replicate len 0)) }
        ensures plan { IfOk result (λ d. plan_of d ≡ no_plan) }
        ensures calls { IfOk result (λ d. calls_of d ≡ 0) }
        ensures fault { IfErr result (λ e. e ≡ Fault.NoMemory) }
    {
        if len >= 1 << 63 {
            return Err(Fault::NoMemory);
        }
        let Ok(firm) = vec![in alloc; 0u8; len as usize] else {
            return Err(Fault::NoMemory);
        };
        MemDevice::of_bytes(alloc, firm)
    }

    /// The nth call from now, of reads, writes and syncs, fails once; a write is kept as written all
    /// the same. 0: none does. An earlier such plan is dropped; one of `stop_at` stands beside it.
    pub fn fail_at(&mut self, n: u64)
        ensures plan { plan_of self.new ≡ failing_at n (plan_of self.old) }
        ensures trace { trace_of self.new ≡ trace_of self.old }
        ensures failures { failures_of self.new ≡ failures_of self.old }
        ensures calls { calls_of self.new ≡ calls_of self.old }
    {
        self.plan.fail_in = n;
    }

    /// The nth call from now, of reads, writes and syncs, fails, and so does each later one. If the
    /// nth is a write it is kept as written; the later calls do nothing. 0: none does. An earlier such
    /// plan is dropped, also where it has stopped the device; one of `fail_at` stands beside it.
    pub fn stop_at(&mut self, n: u64)
        ensures plan { plan_of self.new ≡ stopping_at n (plan_of self.old) }
        ensures trace { trace_of self.new ≡ trace_of self.old }
        ensures failures { failures_of self.new ≡ failures_of self.old }
        ensures calls { calls_of self.new ≡ calls_of self.old }
    {
        self.plan.stop_in = n;
        self.plan.stopped = false;
    }

    /// How many calls, of reads, writes and syncs, were made since it was made, the failed ones among them,
    /// but none after a stop. From 2^64 - 1 on it says that number.
    pub fn calls(&self) -> u64
        ensures { result ≡ calls_of self.now }
    {
        self.made
    }

    /// What a crash now leaves, as a device of its own: its bytes are synced, and no call of it is
    /// made to fail. Without memory for it the call is refused with `NoMemory`.
    pub fn crash(&self, alloc: Global, image: CrashImage) -> Result<MemDevice, Fault>
        ensures bytes { IfOk result (λ d. trace_of d ≡ first (left_by image self.now)) }
        ensures left { MayCrashTo (trace_of self.now).now (left_by image self.now) }
        ensures plan { IfOk result (λ d. plan_of d ≡ no_plan) }
        ensures calls { IfOk result (λ d. calls_of d ≡ 0) }
        ensures fault { IfErr result (λ e. e ≡ Fault.NoMemory) }
    {
        let made = match image {
            CrashImage::Keep => self.bytes.to_vec(alloc),
            CrashImage::Drop => self.firm.to_vec(alloc),
            CrashImage::Tear => torn_image(alloc, &self.firm, &self.since),
        };
        let Ok(firm) = made else {
            return Err(Fault::NoMemory);
        };
        MemDevice::of_bytes(alloc, firm)
    }

    /// A device of these bytes, all synced, of which no call is made to fail.
    fn of_bytes(alloc: Global, firm: Vec<u8>) -> Result<MemDevice, Fault>
        requires { length firm.items < 2 ^ 63 }
        ensures bytes { IfOk result (λ d. trace_of d ≡ first firm.items) }
        ensures plan { IfOk result (λ d. plan_of d ≡ no_plan) }
        ensures calls { IfOk result (λ d. calls_of d ≡ 0) }
        ensures fault { IfErr result (λ e. e ≡ Fault.NoMemory) }
    {
        let Ok(bytes) = firm.to_vec(alloc) else {
            return Err(Fault::NoMemory);
        };
        let past = reckon(&firm);
        Ok(MemDevice {
            alloc,
            firm,
            bytes,
            since: Vec::new(alloc),
            failures: reckon(&()),
            plan: Plan::NONE,
            made: 0,
            past,
        })
    }
}

/// Counts a call, unless the device has stopped, and says what becomes of it.
fn next_call(plan: &mut Plan, made: &mut u64) -> Fate
    ensures fate { result ≡ fate_of plan.old }
    ensures plan { plan.new ≡ after_call plan.old }
    ensures made { made.new ≡ counted_with plan.old made.old }
{
    if !plan.stopped {
        *made = made.saturating_add(1);
    }
    plan.next()
}

/// Counts a failed call.
fn count_failure(failures: &mut Noted<Count>) -> Fault
    ensures counted { failures.new.value ≡ suc failures.old.value }
    ensures io { result ≡ Fault.Io }
{
    *failures = reckon(failures);
    Fault::Io
}

impl Device for MemDevice {
    ghost use Rattle.device.specs.Memory.{trace_of, failures_of, plan_of, calls_of};
    ghost use Rattle.device.specs.Plans.{fate_of, after_call, counted_with};

    ghost trace = { λ m. done (first m.past.value.start) m.past.value.calls };

    ghost failures = { λ m. m.failures.value };

    ghost is_honest = { λ _. true };

    ghost small = { λ m. m.small };

    fn len(&self) -> u64 {
        self.bytes.len() as u64
    }

    fn read_at(&mut self, at: u64, buf: &mut [u8]) -> Result<(), Fault>
        requires range { at + length buf.old ≤ length (trace_of self.old).now.seen }
        ensures read { OnOk result (Reads (trace_of self.old) at buf.old buf.new) }
        ensures trace { trace_of self.new ≡ trace_of self.old }
        ensures failures { CountsFailures result (failures_of self.old) (failures_of self.new) }
        ensures fate { IsOk result ↔ (fate_of (plan_of self.old) ≡ Fate.Runs) }
        ensures plan { plan_of self.new ≡ after_call (plan_of self.old) }
        ensures calls { calls_of self.new ≡ counted_with (plan_of self.old) (calls_of self.old) }
    {
        let Fate::Runs = next_call(&mut self.plan, &mut self.made) else {
            return Err(count_failure(&mut self.failures));
        };
        let at = at as usize;
        buf.copy_from_slice(&self.bytes[at..at + buf.len()]);
        Ok(())
    }

    fn write_at(&mut self, at: u64, bytes: &[u8]) -> Result<(), Fault>
        requires range { at + length bytes.now ≤ length (trace_of self.old).now.seen }
        ensures trace { Writes at bytes.now result (trace_of self.old) (trace_of self.new) }
        ensures len { length (trace_of self.new).now.seen ≡ length (trace_of self.old).now.seen }
        ensures failures { CountsFailures result (failures_of self.old) (failures_of self.new) }
        ensures fate { IsOk result → fate_of (plan_of self.old) ≡ Fate.Runs }
        ensures dead { fate_of (plan_of self.old) ≡ Fate.Dead
            → trace_of self.new ≡ trace_of self.old }
        // A write that fails is kept as written, unless it could not be noted.
        ensures kept { OnErr result
            (IsKeptOrNot at bytes.now (trace_of self.old) (trace_of self.new)) }
        ensures plan { plan_of self.new ≡ after_call (plan_of self.old) }
        ensures calls { calls_of self.new ≡ counted_with (plan_of self.old) (calls_of self.old) }
    {
        let fate = next_call(&mut self.plan, &mut self.made);
        if fate == Fate::Dead {
            return Err(count_failure(&mut self.failures));
        }
        let Ok(()) = write_noted(self.alloc, &mut self.since, &mut self.bytes, at, bytes) else {
            return Err(count_failure(&mut self.failures));
        };
        self.past = reckon(&(&self.past, at, bytes));
        if fate == Fate::Fails {
            return Err(count_failure(&mut self.failures));
        }
        Ok(())
    }

    fn sync(&mut self) -> Result<(), Fault>
        ensures trace { Syncs result (trace_of self.old) (trace_of self.new) }
        ensures len { length (trace_of self.new).now.seen ≡ length (trace_of self.old).now.seen }
        ensures failures { CountsFailures result (failures_of self.old) (failures_of self.new) }
        ensures fate { IsOk result ↔ (fate_of (plan_of self.old) ≡ Fate.Runs) }
        ensures plan { plan_of self.new ≡ after_call (plan_of self.old) }
        ensures calls { calls_of self.new ≡ counted_with (plan_of self.old) (calls_of self.old) }
    {
        let Fate::Runs = next_call(&mut self.plan, &mut self.made) else {
            return Err(count_failure(&mut self.failures));
        };
        settle(&mut self.firm, &mut self.since);
        self.past = reckon(&(&self.past, Synced {}));
        Ok(())
    }
}

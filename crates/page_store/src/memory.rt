//! A store over a device in memory: its calls are made to fail, and it is asked what a crash leaves.

ghost use Rattle.std.specs.Prelude.{◌≡◌, IfOk, IfErr};
ghost use Rattle.device.specs.Disk.{MayCrashTo, first};
ghost use Rattle.device.specs.Memory.{trace_of, left_by, plan_of};
ghost use Rattle.device.specs.Plans.{no_plan, failing_at, stopping_at};
ghost use Rattle.page_store.specs.Stores.{state_of, held_by, device_of};

use crate::store::Store;
use device::{CrashImage, Device, MemDevice};
use index_model::Fault;
use std::alloc::Global;

impl Store<MemDevice> {
    /// The nth device call from now, of reads, writes and syncs, fails once; 0: none does. A write that fails
    /// so is kept. An earlier such plan is dropped; one of `stop_at` stands beside it.
    pub fn fail_at(&mut self, n: u64)
        ensures plan { plan_of (device_of ⟦<MemDevice as Device>⟧ self.new)
            ≡ failing_at n (plan_of (device_of ⟦<MemDevice as Device>⟧ self.old)) }
        ensures state { state_of ⟦<MemDevice as Device>⟧ self.new
            ≡ state_of ⟦<MemDevice as Device>⟧ self.old }
        ensures held { held_by ⟦<MemDevice as Device>⟧ self.new
            ≡ held_by ⟦<MemDevice as Device>⟧ self.old }
    {
        self.held.device.fail_at(n);
    }

    /// The nth device call from now, of reads, writes and syncs, fails, and so does each later one; 0: none
    /// does. If the nth is a write it is kept; the later calls do nothing. An earlier such plan is dropped;
    /// one of `fail_at` stands beside it.
    pub fn stop_at(&mut self, n: u64)
        ensures plan { plan_of (device_of ⟦<MemDevice as Device>⟧ self.new)
            ≡ stopping_at n (plan_of (device_of ⟦<MemDevice as Device>⟧ self.old)) }
        ensures state { state_of ⟦<MemDevice as Device>⟧ self.new
            ≡ state_of ⟦<MemDevice as Device>⟧ self.old }
        ensures held { held_by ⟦<MemDevice as Device>⟧ self.new
            ≡ held_by ⟦<MemDevice as Device>⟧ self.old }
    {
        self.held.device.stop_at(n);
    }

    /// What a crash now leaves, as a device of its own: its bytes are synced, and no call of it is made to
    /// fail. Without memory for it the call is refused with `NoMemory` (1).
    pub fn crash(&self, alloc: Global, image: CrashImage) -> Result<MemDevice, Fault>
        ensures bytes { IfOk result
            (λ d. trace_of d ≡ first (left_by image (device_of ⟦<MemDevice as Device>⟧ self.now))) }
        ensures left { MayCrashTo (held_by ⟦<MemDevice as Device>⟧ self.now).trace.now
            (left_by image (device_of ⟦<MemDevice as Device>⟧ self.now)) }
        ensures plan { IfOk result (λ d. plan_of d ≡ no_plan) }
        ensures fault { IfErr result (λ e. e ≡ Fault.NoMemory) }
    {
        self.held.device.crash(alloc, image)
    }
}

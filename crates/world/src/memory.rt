//! A world over a device in memory: the device's calls are made to fail, and it is asked what a crash leaves.

ghost use Rattle.std.specs.Prelude.{◌≡◌, Bool, List, IfOk, IfErr};
ghost use Rattle.device.specs.Disk.{MayCrashTo, first};
ghost use Rattle.device.specs.Memory.{trace_of, left_by, plan_of};
ghost use Rattle.device.specs.Plans.{no_plan, failing_at, stopping_at};
ghost use Rattle.index_model.specs.Actions.{Action};
ghost use Rattle.index_model.specs.Calls.{Call};
ghost use Rattle.index_model.specs.declared.entry.Entry.{Entry};
ghost use Rattle.page_action.specs.States.{Continues};
ghost use Rattle.page_store.specs.Stores.{state_of, held_by, device_of};
ghost use Rattle.world.specs.Worlds.{WorldFits, WorldKeeps, SameSessions};

use crate::world::World;
use device::{CrashImage, Device, MemDevice};
use index_model::{DeadRows, Fault};
use page_action::PageStore;
use page_store::Store;
use std::alloc::Global;

impl<T: DeadRows + Drop> World<Store<MemDevice>, T> {
    /// The nth device call from now, of reads, writes and syncs, fails once; 0: none does. A write that fails
    /// so is kept. An earlier such plan is dropped; one of `stop_at` stands beside it. What fits is kept.
    pub fn fail_at(&mut self, n: u64)
        ensures plan { plan_of (device_of ⟦<MemDevice as Device>⟧ self.new.store)
            ≡ failing_at n (plan_of (device_of ⟦<MemDevice as Device>⟧ self.old.store)) }
        ensures state { state_of ⟦<MemDevice as Device>⟧ self.new.store
            ≡ state_of ⟦<MemDevice as Device>⟧ self.old.store }
        ensures same { SameSessions self.old self.new }
        ensures steps { Continues ⟦<Store<MemDevice> as PageStore>⟧.follows
            self.old.store self.new.store }
        ensures fits { (start : Entry → Bool) (history : List Action) (calls : List Call)
            → WorldFits ⟦<Store<MemDevice> as PageStore>⟧ T.DeadRows self.old start history calls
            → WorldFits ⟦<Store<MemDevice> as PageStore>⟧ T.DeadRows self.new start history calls }
        ensures keeps { (start : Entry → Bool) (history : List Action) (calls : List Call)
            → WorldKeeps ⟦<Store<MemDevice> as PageStore>⟧ T.DeadRows self.old start history calls
            → WorldKeeps ⟦<Store<MemDevice> as PageStore>⟧ T.DeadRows self.new start history calls }
    {
        self.store.fail_at(n);
    }

    /// The nth device call from now, of reads, writes and syncs, fails, and so does each later one; 0: none
    /// does. If the nth is a write it is kept; the later calls do nothing. An earlier such plan is dropped;
    /// one of `fail_at` stands beside it. What fits is kept.
    pub fn stop_at(&mut self, n: u64)
        ensures plan { plan_of (device_of ⟦<MemDevice as Device>⟧ self.new.store)
            ≡ stopping_at n (plan_of (device_of ⟦<MemDevice as Device>⟧ self.old.store)) }
        ensures state { state_of ⟦<MemDevice as Device>⟧ self.new.store
            ≡ state_of ⟦<MemDevice as Device>⟧ self.old.store }
        ensures same { SameSessions self.old self.new }
        ensures steps { Continues ⟦<Store<MemDevice> as PageStore>⟧.follows
            self.old.store self.new.store }
        ensures fits { (start : Entry → Bool) (history : List Action) (calls : List Call)
            → WorldFits ⟦<Store<MemDevice> as PageStore>⟧ T.DeadRows self.old start history calls
            → WorldFits ⟦<Store<MemDevice> as PageStore>⟧ T.DeadRows self.new start history calls }
        ensures keeps { (start : Entry → Bool) (history : List Action) (calls : List Call)
            → WorldKeeps ⟦<Store<MemDevice> as PageStore>⟧ T.DeadRows self.old start history calls
            → WorldKeeps ⟦<Store<MemDevice> as PageStore>⟧ T.DeadRows self.new start history calls }
    {
        self.store.stop_at(n);
    }

    /// What a crash now leaves, as a device of its own: its bytes are synced, and no call of it is made to
    /// fail. Without memory for it the call is refused with `NoMemory`.
    pub fn crash(&self, alloc: Global, image: CrashImage) -> Result<MemDevice, Fault>
        ensures bytes { IfOk result (λ d.
            trace_of d ≡ first (left_by image (device_of ⟦<MemDevice as Device>⟧ self.now.store))) }
        ensures left { MayCrashTo (held_by ⟦<MemDevice as Device>⟧ self.now.store).trace.now
            (left_by image (device_of ⟦<MemDevice as Device>⟧ self.now.store)) }
        ensures plan { IfOk result (λ d. plan_of d ≡ no_plan) }
        ensures fault { IfErr result (λ e. e ≡ Fault.NoMemory) }
    {
        self.store.crash(alloc, image)
    }
}

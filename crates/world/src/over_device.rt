//! A world over a device.

use crate::world::World;
use device::Device;
use index_model::DeadRows;
use page_action::PageStore;
use page_store::Store;
use std::io::Error;

impl<D: Device, T: DeadRows + Drop> World<Store<D>, T> {
    ghost use Rattle.std.specs.Prelude.{◌≡◌, ℕ, Bool, List};
    ghost use Rattle.device.specs.Disk.{MayCrashTo};
    ghost use Rattle.index_model.specs.Actions.{Action};
    ghost use Rattle.index_model.specs.Calls.{Call};
    ghost use Rattle.index_model.specs.declared.entry.Entry.{Entry};
    ghost use Rattle.page_store.specs.Logged.{backing_of};
    ghost use Rattle.device.specs.Moments.{MayHaveCrashedTo};
    ghost use Rattle.world.specs.Reopening.{IsIndexAfterPrefix};
    ghost use Rattle.world.specs.Worlds.{WorldFits, WorldKeeps};
    ghost use Rattle.page_codec.specs.declared.page.Page.{Page};
    ghost use Rattle.page_store.specs.Restart.{RestartsTo};
    ghost use Rattle.page_store.specs.Stores.{state_of, held_by, device_of, IsOwnStore};
    ghost use Rattle.page_store.specs.declared.store.Store.{Store};

    /// Does nothing. Its clauses say what the words of crashes are for a store over a device. A store is own
    /// if nobody else wrote to the device. A crash leaves what the device may have left at some moment from
    /// the first store to the second. Bytes restart to pages as an open reads them. And they say what every
    /// crash leaves, at any moment between an earlier store and this one.
    pub fn crash_law(&self)
        ensures own { (s : Store D D.Device)
            → IsOwnStore D.Device s → ⟦<Store<D> as PageStore>⟧.own s }
        ensures leaves { (s t : Store D D.Device) (image : List ℕ)
            → MayHaveCrashedTo (held_by D.Device s).trace (held_by D.Device t).trace image
            → ⟦<Store<D> as PageStore>⟧.leaves s t image }
        ensures restarts { (s : Store D D.Device) (image : List ℕ) (pages : List Page)
            → ⟦<Store<D> as PageStore>⟧.restarts s image pages
            → RestartsTo (state_of D.Device s).format image pages }
        // What a crash at some moment since an own store has left of a world that is fitted and keeps its
        // history is an index that can be opened again, with all that was durable in that store.
        ensures index { (first : Store D D.Device)
            → IsOwnStore D.Device first → ⟦<Store<D> as PageStore>⟧.follows first self.now.store
            → (start : Entry → Bool) (history : List Action) (calls : List Call)
            → WorldFits ⟦<Store<D> as PageStore>⟧ T.DeadRows self.now start history calls
            → WorldKeeps ⟦<Store<D> as PageStore>⟧ T.DeadRows self.now start history calls
            → (image : List ℕ)
            → MayHaveCrashedTo (held_by D.Device first).trace
            (held_by D.Device self.now.store).trace image
            → IsIndexAfterPrefix (state_of D.Device self.now.store).format start history
            (backing_of (held_by D.Device first)).durable image }
        // ... and so is what a crash now leaves.
        ensures now { (start : Entry → Bool) (history : List Action) (calls : List Call)
            → (image : List ℕ)
            → WorldFits ⟦<Store<D> as PageStore>⟧ T.DeadRows self.now start history calls
            → WorldKeeps ⟦<Store<D> as PageStore>⟧ T.DeadRows self.now start history calls
            → MayCrashTo (held_by D.Device self.now.store).trace.now image
            → IsIndexAfterPrefix (state_of D.Device self.now.store).format start history
            (backing_of (held_by D.Device self.now.store)).durable image }
    {}

    /// What the system said of the last call of the device that failed, if the device is of a system. No
    /// clause tells of it.
    pub fn error(&self) -> Option<Error> {
        self.store.error()
    }

    /// The device below.
    pub fn into_device(self) -> D
        ensures { result ≡ device_of D.Device self.store }
    {
        let World { store, .. } = self;
        store.into_device()
    }
}

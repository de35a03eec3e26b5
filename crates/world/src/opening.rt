//! A world over the index that a device holds.

ghost use Rattle.std.specs.Prelude.{◌≡◌, ◌⊎◌, ◌≤◌, ◌<◌, suc, List, IsTrue, IfOk, IfErr, OnOk, MatchResult, length};
ghost use Rattle.device.specs.Moments.{AtEachMoment};
ghost use Rattle.index_model.specs.declared.format.Format.{Format};
ghost use Rattle.page_codec.specs.declared.page.Page.{Page};
ghost use Rattle.page_store.specs.Restart.{CrashesToPages};
ghost use Rattle.page_store.specs.Stores.{state_of};
ghost use Rattle.recovery.specs.Index.{HasIndex};
ghost use Rattle.recovery.specs.Opening.{AreFrames, IsFreshlyOpened, IsNoMemoryOrIo, IsRefusal};
ghost use Rattle.tree_acts.specs.TheoremKeys.{IsTreeFor};
ghost use Rattle.world.specs.Reopening.{BeginsWith, world_device};

use crate::world::{World, WorldNotMade};
use device::Device;
use index_model::{DeadRows, Fault};
use page_action::PageStore;
use page_store::Store;
use recovery::{Refused, open};
use std::alloc::Global;

/// Why a world was not opened, with the device as the open left it and the sets as they were.
#[derive(Drop)]
pub struct WorldNotOpened<D, T> {
    pub fault: Fault,
    pub device: D,
    pub sets: Vec<T>,
}

impl<D: Device, T: DeadRows + Drop> World<Store<D>, T> {
    /// Opens the index on the device, after any crash. `frames` is how many pages are in memory at once, 16
    /// to 1,024. There are 1 to 64 sessions, none of which has a call, and these sets of dead rows. Refused
    /// with `BadLimits` (18) for another number of sessions, before the device is read; as `open` of
    /// `recovery` is; and with `NoMemory` (1). The device and the sets are given back. It may be called again
    /// after any refusal, and after a crash at any moment.
    pub fn open(
        alloc: Global,
        device: D,
        frames: u32,
        sessions: u32,
        sets: Vec<T>,
    ) -> Result<World<Store<D>, T>, WorldNotOpened<D, T>>
        ensures sessions { IfOk result (λ world. length world.calls.slots.items ≡ sessions) }
        ensures frames { IfOk result (λ world.
            IsFreshlyOpened frames (state_of D.Device world.store)) }
        ensures asked { OnOk result (AreFrames frames × (1 ≤ sessions) × (sessions ≤ 64)) }
        ensures sets { IfOk result (λ world. world.sets ≡ sets) }
        ensures sets_back { IfErr result (λ not_opened. not_opened.sets ≡ sets) }
        // An index whose pages are a B-link tree, of a unique one keyed, is opened with them, or refused for
        // want of memory or of the device.
        ensures begins { IsTrue (D.is_honest (world_device D.Device result))
            → AreFrames frames → 1 ≤ sessions → sessions ≤ 64
            → (format : Format) (pages : List Page)
            → HasIndex format pages (D.trace device).now.seen → IsTreeFor format pages
            → MatchResult result
            (BeginsWith D.Device ⟦<Store<D> as PageStore>⟧ T.DeadRows format pages)
            (λ not_opened. IsNoMemoryOrIo not_opened.fault) }
        // A crash at each moment since leaves the same index, whatever was answered.
        ensures moments { IsTrue (D.is_honest (world_device D.Device result))
            → (format : Format) (pages : List Page)
            → HasIndex format pages (D.trace device).now.seen
            → AtEachMoment (CrashesToPages format pages) (D.trace device)
            (D.trace (world_device D.Device result)) }
        ensures len { length (D.trace (world_device D.Device result)).now.seen
            ≡ length (D.trace device).now.seen }
        ensures cause { IfErr result (λ not_opened.
            ((not_opened.fault ≡ Fault.BadLimits) × ((sessions ≡ 0) ⊎ (64 < sessions)))
            ⊎ (not_opened.fault ≡ Fault.NoMemory)
            ⊎ ((not_opened.fault ≡ Fault.Io)
            × (D.failures not_opened.device ≡ suc (D.failures device)))
            ⊎ IsRefusal (D.is_honest not_opened.device) frames (D.trace device)
            (D.trace not_opened.device) not_opened.fault) }
    {
        if sessions == 0 || sessions > 64 {
            return Err(WorldNotOpened {
                fault: Fault::BadLimits,
                device,
                sets,
            });
        }
        let store = match open(alloc, device, frames) {
            Ok(store) => store,
            Err(Refused { fault, device }) => {
                return Err(WorldNotOpened {
                    fault,
                    device,
                    sets,
                });
            }
        };
        match World::new(alloc, store, sessions, sets) {
            Ok(world) => Ok(world),
            Err(WorldNotMade { fault, store, sets }) => Err(WorldNotOpened {
                fault,
                device: store.into_device(),
                sets,
            }),
        }
    }
}

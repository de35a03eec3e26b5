//! The sets of dead rows of a world are changed.

ghost use Rattle.std.specs.Prelude.{◌≡◌, ◌≤◌, ◌<◌, Bool, List, Some, IfOk, IfErr, OnOk, OnErr, length, slice_get, slice_set};
ghost use Rattle.index_model.specs.Actions.{Action};
ghost use Rattle.index_model.specs.Calls.{Call};
ghost use Rattle.index_model.specs.declared.entry.Entry.{Entry};
ghost use Rattle.world.specs.Sets.{IsNotPutFor};
ghost use Rattle.world.specs.Worlds.{WorldFits, WorldKeeps};

use crate::world::World;
use index_model::{DeadRows, Fault};
use page_action::PageStore;
use std::mem;

/// Why a set was not put into a world, with the set.
#[derive(Drop)]
pub struct NotPut<T> {
    pub fault: Fault,
    pub set: T,
}

impl<S: PageStore, T: DeadRows + Drop> World<S, T> {
    /// Puts a set of dead rows at this place, and hands out the one that was there. Nothing else changes.
    /// Whatever contents, actions and calls fitted the world fit it still, and crashes leave what they left.
    ///
    /// Refused with the set given back, and nothing changed: with `NoSession` (12), if the world has no set
    /// at this place; then with `VacuumRunning` (11), while a bulk delete runs.
    pub fn put_set(&mut self, at: u32, set: T) -> Result<T, NotPut<T>>
        ensures was { IfOk result (λ was. slice_get self.old.sets.items at ≡ Some was) }
        ensures put { OnOk result
            (self.new.sets.items ≡ slice_set self.old.sets.items at set) }
        ensures store { self.new.store ≡ self.old.store }
        ensures calls { self.new.calls ≡ self.old.calls }
        ensures fits { (start : Entry → Bool) (history : List Action) (calls : List Call)
            → WorldFits S.PageStore T.DeadRows self.old start history calls
            → WorldFits S.PageStore T.DeadRows self.new start history calls }
        ensures keeps { (start : Entry → Bool) (history : List Action) (calls : List Call)
            → WorldKeeps S.PageStore T.DeadRows self.old start history calls
            → WorldKeeps S.PageStore T.DeadRows self.new start history calls }
        ensures refused { OnErr result (self.new ≡ self.old) }
        ensures given_back { IfErr result (λ not_put. not_put.set ≡ set) }
        ensures cause { IfErr result (λ not_put.
            IsNotPutFor S.PageStore not_put.fault at self.old) }
    {
        let place = at as usize;
        if place >= self.sets.len() {
            return Err(NotPut {
                fault: Fault::NoSession,
                set,
            });
        }
        if self.store.cycle() > 0 {
            return Err(NotPut {
                fault: Fault::VacuumRunning,
                set,
            });
        }
        Ok(mem::replace(&mut self.sets[place], set))
    }
}

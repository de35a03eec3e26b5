//! All pages of a store are read, in room that was made before.

ghost use Rattle.std.specs.Prelude.{◌≡◌, ◌≢◌, [], true, IfOk, IfErr, OnOk, length};
ghost use Rattle.index_model.specs.Faults.{HasCause};
ghost use Rattle.page_action.specs.Room.{KeepsRoom};
ghost use Rattle.page_action.specs.States.{Continues};
ghost use Rattle.amcheck.specs.Checks.{causes_of_checked};
ghost use Rattle.amcheck.specs.PageRooms.{HasPageRoom};
ghost use Rattle.amcheck.specs.Reading.{RoomIsReady, PagesAreRead, AreFetched};

use crate::marks::Met;
use crate::page_room::PageRoom;
use crate::pages::Pages;
use crate::stops::Stop;
use index_model::{Fault, Progress};
use page_action::PageStore;
use std::alloc::Global;

/// What the walks along the levels take of memory.
#[derive(Drop)]
pub(crate) struct WalkRoom {
    pub(crate) met: Met,
    /// For each page in use whether it was seen on the way to the leftmost page of a level.
    pub(crate) seen: Vec<bool>,
    /// The places of the chain of one level.
    pub(crate) stops: Vec<Stop>,
}

/// All that a check takes of memory beside the room for the pages.
#[derive(Drop)]
pub(crate) struct CheckRoom {
    pub(crate) walks: WalkRoom,
    /// The places of the chains of all levels.
    pub(crate) chains: Vec<Stop>,
    /// For each page in use its place among those, if it is on a chain.
    pub(crate) places: Vec<Option<u32>>,
    /// For each page in use whether a downlink to it was found.
    pub(crate) linked: Vec<bool>,
}

impl CheckRoom {
    /// The room to check `used` pages. Refused with `NoMemory` (1).
    pub(crate) fn new(alloc: Global, used: u32) -> Result<CheckRoom, Fault>
        ensures made { IfOk result (λ room. RoomIsReady room used) }
        ensures fault { IfErr result (λ f. f ≡ Fault.NoMemory) }
    {
        let Ok(places) = vec![in alloc; None; used as usize] else {
            return Err(Fault::NoMemory);
        };
        let Ok(linked) = vec![in alloc; false; used as usize] else {
            return Err(Fault::NoMemory);
        };
        let Ok(seen) = vec![in alloc; false; used as usize] else {
            return Err(Fault::NoMemory);
        };
        let Ok(stops) = Vec::with_capacity(alloc, used as usize) else {
            return Err(Fault::NoMemory);
        };
        let Ok(chains) = Vec::with_capacity(alloc, used as usize) else {
            return Err(Fault::NoMemory);
        };
        let met = Met::new(alloc, used)?;
        Ok(CheckRoom {
            walks: WalkRoom { met, seen, stops },
            chains,
            places,
            linked,
        })
    }
}

/// Reads each page in use once, and keeps what is judged of it; `progress` is told of each. Refused as
/// [`PageStore::fetch`]: it takes no memory.
pub(crate) fn read_pages<S: PageStore, P: Progress>(
    store: &mut S,
    room: PageRoom,
    progress: &P,
) -> Result<Pages, Fault>
    requires empty { room.list.value ≡ [] }
    requires room { HasPageRoom room (length (S.state store.old).pages) }
    ensures steps { Continues S.follows store.old store.new }
    ensures state { S.state store.new ≡ S.state store.old }
    ensures read { IfOk result (PagesAreRead (S.state store.old) (S.backing store.new)) }
    ensures room { KeepsRoom (S.state store.old) (S.backing store.old) (S.backing store.new) }
    ensures frames { AreFetched (S.state store.old) (S.memory store.old) (S.memory store.new)
        (S.backing store.old) (S.backing store.new) }
    ensures alive { OnOk result
        ((S.backing store.new).stopped ≡ true → (S.backing store.old).stopped ≡ true) }
    ensures memory { IfErr result (λ fault. fault ≢ Fault.NoMemory) }
    ensures cause { IfErr result (HasCause
        (causes_of_checked (S.state store.old) (S.backing store.old) (S.backing store.new))) }
{
    let mut room = room;
    let used = store.used();
    for block in 0..used {
        match store.fetch(block) {
            Ok(()) => {}
            Err(fault) => return Err(fault),
        }
        room.add(used, store.view(block));
        progress.done(u64::from(block) + 1, u64::from(used));
    }
    Ok(Pages::new(room))
}

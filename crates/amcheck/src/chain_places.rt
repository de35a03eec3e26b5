//! Where each block stands on the chains of all levels.

ghost use Rattle.std.specs.Prelude.{◌≡◌, ◌≤◌, ℕ, None, IfNone, IfSome, length, get_or};
ghost use Rattle.amcheck.specs.AllStops.{PlacesAreOfStops, IsStopOf, HasNoStop};
ghost use Rattle.amcheck.specs.Stops.{StopsAreInUse};

use crate::stops::Stop;

/// The place of a block among the stops, if it is on a chain.
fn place_of(places: &[Option<u32>], block: u32) -> Option<u32>
    ensures { result ≡ get_or places.now block None }
{
    match places.get(block as usize) {
        None => None,
        Some(place) => *place,
    }
}

/// The stop of a block, if it is on a chain.
pub(crate) fn find_stop(stops: &[Stop], places: &[Option<u32>], block: u32) -> Option<Stop>
    requires few { length stops.now ≤ 65536 }
    requires places { PlacesAreOfStops stops.now places.now }
    ensures none { IfNone result (HasNoStop stops.now block) }
    ensures some { IfSome result (IsStopOf stops.now block) }
{
    match place_of(places, block) {
        None => None,
        Some(place) => Some(stops[place as usize]),
    }
}

/// Notes for each block on a chain the place of its stop. None was noted before.
pub(crate) fn note_places(stops: &[Stop], places: &mut [Option<u32>])
    requires few { length stops.now ≤ 65536 }
    requires in_use { StopsAreInUse (length places.old) stops.now }
    requires none { (b : ℕ) → get_or places.old b None ≡ None }
    ensures size { length places.new ≡ length places.old }
    ensures placed { PlacesAreOfStops stops.now places.new }
{
    for place in 0..stops.len() {
        places[stops[place].block as usize] = Some(place as u32);
    }
}

//! The first damage of parents and children, if all chains are right.

ghost use Rattle.std.specs.Prelude.{◌≡◌, ◌<◌, ◌≤◌, ℕ, suc, true, false, IfNone, IfSome, length};
ghost use Rattle.damages.specs.Damages.{index_of, IsSound, IsFirstDamage};
ghost use Rattle.amcheck.specs.AllStops.{AreAllStops, PlacesAreOfStops};
ghost use Rattle.amcheck.specs.ParentDamages.{IsClearAt, IsFirstAt, AreMarked};

use crate::downlinks::{find_off, find_parent_number};
use crate::pages::Pages;
use crate::report::Damage;
use crate::stops::{Stop, low};

/// The first damage at the stop at this place, with its parents and children; none at an earlier one. The
/// blocks are marked to which those lead.
fn damage_at(
    pages: &Pages,
    stops: &[Stop],
    places: &[Option<u32>],
    linked: &mut [bool],
    top: u8,
    place: usize,
) -> Option<Damage>
    requires few { length stops.now ≤ 65536 }
    requires top { top ≡ (index_of pages.now).top }
    requires stops { AreAllStops (index_of pages.now) (suc (index_of pages.now).top) stops.now }
    requires sound { IsSound false false pages.now }
    requires places { PlacesAreOfStops stops.now places.now }
    requires size { length linked.old ≡ length pages.now }
    requires inside { place < length stops.now }
    requires clear { (k : ℕ) → k < place → IsClearAt (index_of pages.now) stops.now k }
    requires marked { AreMarked (index_of pages.now) stops.now place linked.old }
    ensures size { length linked.new ≡ length linked.old }
    ensures clear { IfNone result (IsClearAt (index_of pages.now) stops.now place) }
    ensures marked { IfNone result
        (AreMarked (index_of pages.now) stops.now (suc place) linked.new) }
    ensures first { IfSome result
        (λ d. IsFirstAt (index_of pages.now) stops.now place d.number d.block) }
{
    let stop = &stops[place];
    let level = pages.sketch(stop.block).level;
    let links = pages.links(stop.block);
    let low = low(pages, stop.low_at);
    if let Some(child) = find_off(pages, top - level, level, &low, links) {
        return Some(Damage {
            number: 1,
            block: child,
        });
    }
    match find_parent_number(pages, stops, places, linked, top, &low, stop) {
        None => None,
        Some(number) => Some(Damage {
            number,
            block: stop.block,
        }),
    }
}

/// The first damage of parents and children, stop by stop. No block was marked before.
pub(crate) fn find_parent_damage(
    pages: &Pages,
    stops: &[Stop],
    places: &[Option<u32>],
    linked: &mut [bool],
    top: u8,
) -> Option<Damage>
    requires few { length stops.now ≤ 65536 }
    requires top { top ≡ (index_of pages.now).top }
    requires stops { AreAllStops (index_of pages.now) (suc (index_of pages.now).top) stops.now }
    requires sound { IsSound false false pages.now }
    requires places { PlacesAreOfStops stops.now places.now }
    requires size { length linked.old ≡ length pages.now }
    requires marked { AreMarked (index_of pages.now) stops.now 0 linked.old }
    ensures none { IfNone result
        ((k : ℕ) → k < length stops.now → IsClearAt (index_of pages.now) stops.now k) }
    ensures some { IfSome result (λ d. IsFirstDamage true false pages.now d.number d.block) }
{
    for place in 0..stops.len() {
        if let Some(damage) = damage_at(pages, stops, places, linked, top, place) {
            return Some(damage);
        }
    }
    None
}

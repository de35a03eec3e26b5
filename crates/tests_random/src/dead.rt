//! The sets of dead rows of a run.

use crate::dice::Space;
use index_model::{DeadRows, Fault, RowAddr};
use std::alloc::{AllocError, Global};
use tests_support::dead::Blocks;

/// The sets of the scripts, after the others.
const SCRIPTED: [Blocks; 3] = [
    Blocks { from: 4, to: 6 },
    Blocks { from: 1, to: 3 },
    Blocks { from: 9, to: 10 },
];

/// The blocks of the set at this place: one each, and after them all; then those of the scripts.
fn set_at(space: Space, place: u32) -> Blocks {
    if place < space.rows {
        return Blocks {
            from: place,
            to: place,
        };
    }
    let all = Blocks {
        from: 0,
        to: space.rows,
    };
    if place == space.rows {
        return all;
    }
    let beyond = place.saturating_sub(space.rows).saturating_sub(1);
    match SCRIPTED.get(beyond as usize) {
        Some(set) => *set,
        None => all,
    }
}

/// The place of the last set.
fn last(space: Space) -> u32 {
    if space.scripted {
        space.rows.saturating_add(3)
    } else {
        space.rows
    }
}

fn listed(alloc: Global, space: Space) -> Result<Vec<Blocks>, AllocError> {
    let mut sets = Vec::new(alloc);
    for place in 0..last(space) {
        sets.push(set_at(space, place))?;
    }
    sets.push(set_at(space, last(space)))?;
    Ok(sets)
}

/// The sets of a run.
pub fn sets_of(alloc: Global, space: Space) -> Result<Vec<Blocks>, Fault> {
    match listed(alloc, space) {
        Ok(sets) => Ok(sets),
        Err(_) => Err(Fault::NoMemory),
    }
}

/// The rows of the set at this place, of those that entries have; None if there is no such set.
pub fn rows_of(
    alloc: Global,
    space: Space,
    place: u32,
) -> Result<Option<Vec<RowAddr>>, AllocError> {
    if place > last(space) {
        return Ok(None);
    }
    let set = set_at(space, place);
    let mut rows = Vec::new(alloc);
    for block in 0..space.rows {
        let row = RowAddr::new(block, 1).unwrap_or_default();
        if set.is_dead(row) {
            rows.push(row)?;
        }
    }
    Ok(Some(rows))
}

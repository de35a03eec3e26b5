//! Lists of jobs.

use index_model::{Entry, Key, Range, RowAddr};
use shared_world::Job;
use std::alloc::{AllocError, Global};

/// The key of two bytes, and a row of this block.
pub fn entry(number: u16, block: u32) -> Entry {
    Entry {
        key: key(number),
        row: RowAddr::new(block, 1).unwrap_or_default(),
    }
}

pub fn key(number: u16) -> Key {
    Key::new(&number.to_be_bytes()).unwrap_or(Key::EMPTY)
}

/// The keys from this one on, up to that one, which isn't among them.
pub fn range(from: u16, below: u16) -> Range {
    Range {
        from: Some(key(from)),
        below: Some(key(below)),
    }
}

/// Numbers below a bound, each as likely as the others.
#[derive(Drop)]
pub struct Dice {
    state: u64,
}

impl Dice {
    pub fn new(seed: u64) -> Dice {
        Dice { state: seed }
    }

    pub fn roll(&mut self, sides: u32) -> u32 {
        self.state = self
            .state
            .wrapping_mul(6_364_136_223_846_793_005)
            .wrapping_add(1_442_695_040_888_963_407);
        let high = (self.state >> 33) as u32;
        if sides == 0 { 0 } else { high % sides }
    }
}

/// The numbers below this, in another order for each seed: each once, unless 1,103 divides the count.
pub fn shuffled(alloc: Global, count: u16, seed: u32) -> Result<Vec<u16>, AllocError> {
    let sides = u32::from(count.max(1));
    let mut numbers = Vec::new(alloc);
    for place in 0..count {
        let number = u32::from(place).wrapping_mul(1_103).wrapping_add(seed) % sides;
        numbers.push(number as u16)?;
    }
    Ok(numbers)
}

/// The numbers below this.
pub fn ascending(alloc: Global, count: u16) -> Result<Vec<u16>, AllocError> {
    let mut numbers = Vec::new(alloc);
    for number in 0..count {
        numbers.push(number)?;
    }
    Ok(numbers)
}

/// So many inserts of each of these keys, with rows of the blocks from 0 on up to the last; then scans of
/// them with these rooms.
pub fn inserts_and_scans(
    alloc: Global,
    numbers: &[u16],
    inserts: u32,
    last: u32,
    rooms: &[u32],
) -> Result<Vec<Job>, AllocError> {
    let mut jobs = Vec::new(alloc);
    for number in numbers {
        for place in 0..inserts {
            jobs.push(Job::Insert(entry(*number, place.min(last))))?;
        }
    }
    for room in rooms {
        jobs.push(Job::Scan {
            range: range(0, 100),
            room: *room,
        })?;
    }
    Ok(jobs)
}

/// A scan, and two thousand inserts in no order, with a commit behind each whose place has this rest by so
/// many.
pub fn spread_commits(alloc: Global, rest: u32, each: u32) -> Result<Vec<Job>, AllocError> {
    let mut jobs = Vec::new(alloc);
    jobs.push(Job::Scan {
        range: range(0, 100),
        room: 100,
    })?;
    let each = each.max(1);
    for place in 0..2_000_u32 {
        let number = place.wrapping_mul(1_103) % 2_000;
        jobs.push(Job::Insert(entry(number as u16, 0)))?;
        if place % each == rest {
            jobs.push(Job::Commit)?;
        }
    }
    Ok(jobs)
}

/// Keys below this have rows that the two sets name; scans lie above.
pub const DEAD_BELOW: u16 = 200;

/// Inserts of so many entries in random order; a scan after each nine of them; two bulk deletes and a cleanup
/// among them.
pub fn mixed(alloc: Global, inserts: u16, dice: &mut Dice) -> Result<Vec<Job>, AllocError> {
    let numbers = shuffled(alloc, inserts, dice.roll(1_000))?;
    let mut jobs = Vec::new(alloc);
    let mut done = 0u16;
    for number in numbers.as_slice() {
        let number = *number;
        let block = if number < DEAD_BELOW {
            u32::from(number % 2) + 1
        } else {
            0
        };
        jobs.push(Job::Insert(entry(number, block)))?;
        done = done.saturating_add(1);
        if done % 9 == 0 {
            let from = DEAD_BELOW.saturating_add(u16::try_from(dice.roll(u32::from(
                inserts,
            ))).unwrap_or(0));
            let room = dice.roll(40).saturating_add(1);
            jobs.push(Job::Scan {
                range: range(from, from.saturating_add(60)),
                room,
            })?;
        }
        if done == inserts / 5 {
            jobs.push(Job::Bulk(0))?;
        }
        if done == inserts / 2 {
            jobs.push(Job::Bulk(1))?;
        }
        if done == inserts / 5 * 4 {
            jobs.push(Job::Cleanup)?;
        }
    }
    Ok(jobs)
}

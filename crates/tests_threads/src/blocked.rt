//! Workers that meet the latches and pins of others, and go on.

use crate::hands::{Act, Line, Told, act_by_hand};
use crate::plain::{ALL, entry, pages};
use page_action::MapStore;
use shared_world::{Job, Record};
use std::alloc::{AllocError, Global};
use std::process::Abort;
use std::test::{Fail, *};
use tests_support::dead::{Blocks, EACH_ROW};
use tests_support::plain::world;
use world::World;

// The set of every row.
fn sets(alloc: Global) -> Result<Vec<Blocks>, AllocError> {
    let mut sets = Vec::new(alloc);
    sets.push(EACH_ROW)?;
    Ok(sets)
}

// An index in memory without entries, with a set of every row.
fn empty(alloc: Global, sessions: u32) -> Result<World<MapStore, Blocks>, Fail> {
    let sets = sets(alloc)?;
    Ok(world(alloc, pages(alloc)?, sessions, sets)?)
}

// Of a record: the worker, the job, the interval, how many records there were as it began, and how many
// entries were given.
fn columns(record: &Record) -> [u64; 6] {
    [
        u64::from(record.worker),
        u64::from(record.job),
        record.from,
        record.to,
        record.seen,
        record.given.len() as u64,
    ]
}

// Whether the records have these columns.
fn have_columns(
    rt: &(impl Abort + AllocGlobal + Print + Eprint),
    records: &[Record],
    wanted: &[[u64; 6]],
) -> Result<(), Fail> {
    assert_eq!(rt; records.len(), wanted.len());
    for (record, wanted) in records.iter().zip(wanted.iter()) {
        assert_eq!(rt; columns(record), *wanted);
    }
    Ok(())
}

// What the workers of `one_leaf` do.
const IN_ONE_LEAF: [Line; 25] = [
    (0, Act::Begin(0), Told::Begun, None),
    (1, Act::Begin(1), Told::Begun, None),
    (2, Act::Begin(2), Told::Begun, None),
    (3, Act::Begin(3), Told::Begun, None),
    // Each looks at the metapage; the first latches the leaf.
    (0, Act::Step, Told::Going, None),
    (0, Act::Step, Told::Going, None),
    (1, Act::Step, Told::Going, None),
    (1, Act::Step, Told::Blocked(1), None),
    (2, Act::Step, Told::Going, None),
    (2, Act::Step, Told::Blocked(1), None),
    (1, Act::Step, Told::Blocked(1), None),
    (3, Act::Step, Told::Going, None),
    (3, Act::Step, Told::Blocked(1), None),
    (0, Act::Step, Told::Added(1), Some(0)),
    // Now the third has it.
    (2, Act::Step, Told::Going, None),
    (1, Act::Step, Told::Blocked(1), None),
    (3, Act::Step, Told::Blocked(1), None),
    (2, Act::Step, Told::Added(2), Some(1)),
    (1, Act::Step, Told::Going, None),
    (1, Act::Step, Told::Added(3), Some(2)),
    (3, Act::Step, Told::Ready(3), None),
    (3, Act::Next, Told::Gave, None),
    (3, Act::Next, Told::Gave, None),
    (3, Act::Next, Told::Gave, None),
    (3, Act::Step, Told::Done, Some(3)),
];

/// Three inserts into one leaf and a scan of it: one has the leaf's latch between two steps, and the others
/// are blocked until it is over, as often as they come. Each that was blocked goes on, and has one record.
#[test]
fn one_leaf(rt: HostRuntime) -> Result<(), Fail> {
    let jobs = [
        Job::Insert(entry(1)),
        Job::Insert(entry(2)),
        Job::Insert(entry(3)),
        Job::Scan {
            range: ALL,
            room: 4,
        },
    ];
    let records = act_by_hand(&rt, empty(rt.alloc(), 4)?, &jobs, 4, &IN_ONE_LEAF)?;
    let wanted = [
        [0, 0, 0, 1, 0, 0],
        [2, 2, 0, 2, 0, 0],
        [1, 1, 0, 3, 0, 0],
        [3, 3, 0, 3, 0, 3],
    ];
    have_columns(&rt, records.as_slice(), &wanted)
}

// What the workers of `pinned_leaf` do.
const AT_A_PIN: [Line; 22] = [
    (0, Act::Begin(0), Told::Begun, None),
    (0, Act::Step, Told::Going, None),
    (0, Act::Step, Told::Going, None),
    (0, Act::Step, Told::Added(1), Some(0)),
    (0, Act::Begin(1), Told::Begun, None),
    (0, Act::Step, Told::Going, None),
    (0, Act::Step, Told::Going, None),
    (0, Act::Step, Told::Added(2), Some(1)),
    (0, Act::Begin(2), Told::Begun, None),
    (0, Act::Step, Told::Going, None),
    (0, Act::Step, Told::Ready(2), None),
    (1, Act::Begin(3), Told::Begun, None),
    (1, Act::Step, Told::Blocked(1), None),
    (0, Act::End, Told::Nothing, None),
    (0, Act::Next, Told::Gave, None),
    (0, Act::Next, Told::Nothing, None),
    (1, Act::Step, Told::Blocked(1), None),
    (0, Act::End, Told::Ended, Some(2)),
    // The bulk delete's action is the third.
    (1, Act::Step, Told::Going, None),
    (0, Act::Begin(4), Told::Forced(3), Some(3)),
    (1, Act::Step, Told::Finished(2), Some(4)),
    // Its session is free again.
    (1, Act::Begin(4), Told::Forced(3), Some(5)),
];

/// A bulk delete is blocked by the pin of a scan until that is cut, which it is only if its room is full; a
/// full room takes no more.
#[test]
fn pinned_leaf(rt: HostRuntime) -> Result<(), Fail> {
    let jobs = [
        Job::Insert(entry(1)),
        Job::Insert(entry(2)),
        Job::Scan {
            range: ALL,
            room: 1,
        },
        Job::Bulk(0),
        Job::Commit,
    ];
    let records = act_by_hand(&rt, empty(rt.alloc(), 2)?, &jobs, 2, &AT_A_PIN)?;
    let wanted = [
        [0, 0, 0, 1, 0, 0],
        [0, 1, 1, 2, 1, 0],
        [0, 2, 2, 2, 2, 1],
        [0, 4, 3, 3, 3, 0],
        [1, 3, 2, 3, 2, 0],
        [1, 4, 3, 3, 5, 0],
    ];
    have_columns(&rt, records.as_slice(), &wanted)
}

use crate::crashes::crashed;
use crate::dead::sets_of;
use crate::dice::{Dice, Space};
use crate::runs::{Outcome, Run, are_right, ends_right, judge_of};
use crate::tally::Tally;
use index_model::{Fault, Limits};
use page_action::MapStore;
use std::alloc::{AllocError, Global};
use std::test::{Fail, *};
use tests_support::dead::Blocks;
use tests_support::plain::world;
use tests_support::plain_world::PlainWorld;
use tests_support::small::pages;
use world::World;

/// An empty index in memory.
fn in_memory(run: Run) -> Result<World<MapStore, Blocks>, Fault> {
    let sets = sets_of(run.alloc, run.space)?;
    world(
        run.alloc,
        pages(run.alloc, run.limits)?,
        run.space.sessions,
        sets,
    )
}

/// A run over an index in memory.
fn run_over<W: PlainWorld>(
    run: Run,
    world: &mut W,
    seed: u64,
    events: u32,
) -> Result<Outcome, AllocError> {
    let mut judge = judge_of(run, world)?;
    judge.expects_no_writes();
    let mut dice = Dice::new(seed);
    let is_right = are_right(run, world, &mut judge, &mut dice, events)?
        && ends_right(run, world, &mut judge, &mut dice)?;
    Ok(Outcome {
        is_right,
        tally: judge.tally(),
    })
}

/// A run over an empty index in memory.
fn ran(run: Run, seed: u64, events: u32) -> Result<Outcome, Fail> {
    let mut world = in_memory(run)?;
    Ok(run_over(run, &mut world, seed, events)?)
}

/// Every third round is one of a unique index.
fn is_unique(round: u64) -> bool {
    round % 3 == 2
}

/// How many keys there are: in a unique index a key has one entry.
fn keys(unique: bool) -> u32 {
    if unique { 96 } else { 24 }
}

/// A run of so many sessions that has room for all its entries, on pages of so many items.
fn roomy(alloc: Global, sessions: u32, items: u32, unique: bool) -> Run {
    Run {
        alloc,
        limits: Limits {
            items,
            pages: 128,
            log_bytes: 1_048_576,
            unique,
        },
        space: Space {
            sessions,
            keys: keys(unique),
            rows: 4,
            forces: 1,
            deletes: true,
            scripted: false,
        },
    }
}

/// A run of so many sessions over many entries on small pages.
fn high(alloc: Global, sessions: u32) -> Run {
    Run {
        alloc,
        limits: Limits {
            items: 4,
            pages: 512,
            log_bytes: 1_048_576,
            unique: false,
        },
        space: Space {
            sessions,
            keys: 60,
            rows: 5,
            forces: 1,
            deletes: false,
            scripted: false,
        },
    }
}

/// A run of so many sessions over few pages and the smallest log.
fn narrow(alloc: Global, sessions: u32, pages: u32, unique: bool) -> Run {
    Run {
        alloc,
        limits: Limits {
            items: 4,
            pages,
            log_bytes: 65_536,
            unique,
        },
        space: Space {
            sessions,
            keys: keys(unique),
            rows: 4,
            forces: 9,
            deletes: true,
            scripted: false,
        },
    }
}

/// Sessions from 1 to 64 on small pages, and some on larger ones: trees of three levels and more.
#[test]
fn trees_in_memory(rt: HostRuntime) -> Result<(), Fail> {
    let alloc = rt.alloc();
    let mut total = Tally::default();
    for (seed, sessions, items, events, level) in [
        (100, 1, 4, 2_000, 2),
        (200, 3, 4, 3_000, 2),
        (300, 8, 4, 3_000, 2),
        (400, 64, 4, 5_000, 2),
        (500, 8, 5, 3_000, 2),
        (600, 3, 7, 2_000, 1),
        (700, 8, 12, 2_000, 1),
    ] {
        // Deletes keep some of the trees low.
        let mut highest = 0;
        for round in 0..12u64 {
            let outcome = ran(
                roomy(alloc, sessions, items, is_unique(round)),
                round.wrapping_add(seed),
                events,
            )?;
            assert!(rt; outcome.is_right, "{seed} + {round}: {outcome:?}");
            highest = outcome.tally.level.max(highest);
            total.join(outcome.tally);
        }
        assert!(rt; highest >= level, "{seed}: {highest}");
    }
    assert!(rt; total.index_full == 0 && total.log_full == 0, "{total:?}");
    assert!(rt;
        total.met >= 100
            && total.exists >= 300
            && total.key_exists >= 200
            && total.blocked >= 3_000
            && total.deletes >= 100
            && total.removes >= 150
            && total.cleanups >= 50
            && total.deaths >= 50,
        "{total:?}"
    );
    Ok(())
}

/// Trees of five levels.
#[test]
fn high_trees(rt: HostRuntime) -> Result<(), Fail> {
    let alloc = rt.alloc();
    for (seed, sessions) in [(800, 3), (801, 8)] {
        let outcome = ran(high(alloc, sessions), seed, 20_000)?;
        assert!(rt;
            outcome.is_right && outcome.tally.level >= 4,
            "{seed}: {outcome:?}"
        );
    }
    Ok(())
}

/// Over a device, which crashes again and again: what is opened again has the contents after some prefix of
/// the actions that holds every forced one.
#[test]
fn trees_crash(rt: HostRuntime) -> Result<(), Fail> {
    let alloc = rt.alloc();
    let mut total = Tally::default();
    for (seed, sessions, crashes) in [(1_100, 3, 6), (1_200, 8, 6), (1_300, 64, 6)] {
        for round in 0..20u64 {
            let run = roomy(alloc, sessions, 4, is_unique(round));
            let outcome = crashed(run, round.wrapping_add(seed), crashes, 400)?;
            assert!(rt; outcome.is_right, "{seed} + {round}: {outcome:?}");
            assert!(rt; outcome.tally.level >= 1, "{seed} + {round}: {outcome:?}");
            total.join(outcome.tally);
        }
    }
    assert!(rt; total.level >= 3, "{total:?}");
    assert!(rt;
        total.losing >= 60 && total.half_done >= 50 && total.opening >= 20 && total.flushed >= 300,
        "{total:?}"
    );
    Ok(())
}

/// Few pages and a small log, in memory and over a device that crashes: refusals leave nothing.
#[test]
fn narrow_trees(rt: HostRuntime) -> Result<(), Fail> {
    let alloc = rt.alloc();
    let mut total = Tally::default();
    for (seed, sessions, pages) in [
        (2_100, 3, 8),
        (2_200, 3, 16),
        (2_300, 8, 12),
        (2_400, 8, 24),
        (2_500, 64, 16),
        (2_600, 64, 24),
        (2_700, 3, 64),
        (2_800, 8, 64),
    ] {
        for round in 0..8u64 {
            let run = narrow(alloc, sessions, pages, is_unique(round));
            let outcome = ran(run, round.wrapping_add(seed), 2_000)?;
            assert!(rt; outcome.is_right, "{seed} + {round}: {outcome:?}");
            total.join(outcome.tally);
            let outcome = crashed(run, round.wrapping_add(seed), 4, 400)?;
            assert!(rt; outcome.is_right, "{seed} + {round}: {outcome:?}");
            total.join(outcome.tally);
        }
    }
    assert!(rt;
        total.index_full >= 400 && total.log_full >= 100 && total.unfinished >= 40,
        "{total:?}"
    );
    Ok(())
}

//! Stores and worlds of more pages than frames, whose device fails and crashes.

use crate::dice::Space;
use crate::pairs::crashed_with_few;
use crate::runs::Run;
use crate::stores::{StoreTally, store_crashed};
use crate::tally::Tally;
use index_model::Limits;
use std::alloc::Global;
use std::test::{Fail, *};

/// Every third round is one of a unique index.
fn is_unique(round: u64) -> bool {
    round % 3 == 2
}

/// A store of 64 pages in 16 frames, inside of whose calls the device fails and stops, and which crashes
/// again and again: what is opened again has the pages after some prefix of the acts that holds every durable
/// one.
#[test]
fn stores_crash(rt: HostRuntime) -> Result<(), Fail> {
    let mut tally = StoreTally::default();
    for seed in 0..20u64 {
        let is_right = store_crashed(rt.alloc(), seed, 10, 150, &mut tally)?;
        assert!(rt; is_right, "{seed}: {tally:?}");
    }
    assert!(rt; tally.images == 600, "{tally:?}");
    assert!(rt;
        tally.evicting >= 100
            && tally.flushed >= 100
            && tally.checkpoints >= 100
            && tally.log_full >= 50,
        "{tally:?}"
    );
    assert!(rt;
        tally.io >= 100 && tally.outlived >= 50 && tally.stopped >= 50,
        "{tally:?}"
    );
    assert!(rt;
        tally.losing >= 100 && tally.more >= 20 && tally.opening >= 100,
        "{tally:?}"
    );
    Ok(())
}

/// A run of so many sessions over more pages than frames.
fn wide(alloc: Global, sessions: u32, unique: bool) -> Run {
    Run {
        alloc,
        limits: Limits {
            items: 4,
            pages: 256,
            log_bytes: 131_072,
            unique,
        },
        space: Space {
            sessions,
            keys: 200,
            rows: 5,
            forces: 1,
            deletes: true,
            scripted: false,
        },
    }
}

/// With 16 frames for more pages each event may read pages, write others and force the log, and device calls
/// fail and stop inside of any: every answer is right, and after a crash there are the entries and the pages
/// after some prefix of the actions that holds every forced one.
#[test]
fn few_frames_crash(rt: HostRuntime) -> Result<(), Fail> {
    let alloc = rt.alloc();
    let mut total = Tally::default();
    for (seed, sessions, crashes) in [(3_100, 3, 4), (3_200, 8, 4), (3_300, 64, 4)] {
        for round in 0..3u64 {
            let run = wide(alloc, sessions, is_unique(round));
            let outcome = crashed_with_few(run, round.wrapping_add(seed), crashes, 600)?;
            assert!(rt; outcome.is_right, "{seed} + {round}: {outcome:?}");
            total.join(outcome.tally);
        }
    }
    assert!(rt; total.crashes == 36 && total.pages >= 64, "{total:?}");
    assert!(rt;
        total.adds >= 100 && total.removes >= 20 && total.flushed >= 20,
        "{total:?}"
    );
    assert!(rt;
        total.io >= 40 && total.stopped >= 100 && total.losing >= 5 && total.opening >= 5,
        "{total:?}"
    );
    Ok(())
}

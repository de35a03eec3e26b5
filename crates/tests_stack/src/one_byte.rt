//! One byte altered: 10,000 rows on the index of three levels, and 10,000 on the one of five entries.

use crate::base::{ENTRIES, FRAMES, LEN, five, sound};
use crate::plain::parents;
use crate::rows::{Kind, Parts, run};
use amcheck::Report;
use device::{Device, MemDevice};
use std::alloc::Global;
use std::io::Eprint;
use std::process::Abort;
use std::test::{Fail, *};
use tests_support::medium::{Medium, Opened};

/// Runs five parts of the table for the index of three levels, whose pages are of 17 blocks, and one after
/// them.
fn of_three_levels<R: Abort + Eprint>(rt: &R, alloc: Global, from: u64) -> Result<(), Fail> {
    let parts = Parts {
        kind: Kind::OneByte,
        blocks: 18,
        from,
        to: from.saturating_add(5),
    };
    run(rt, alloc, &sound(alloc, false)?, parts, 250)
}

/// Runs five parts of the table for the index of five entries, whose pages are of four blocks, and two after
/// them.
fn of_five_entries<R: Abort + Eprint>(rt: &R, alloc: Global, from: u64) -> Result<(), Fail> {
    let parts = Parts {
        kind: Kind::OneByte,
        blocks: 6,
        from,
        to: from.saturating_add(5),
    };
    run(rt, alloc, &five(alloc)?, parts, 50)
}

/// What the verifier finds in an index that isn't altered.
fn report_in<M: Medium<MemDevice>>(alloc: Global, base: MemDevice) -> Option<Report> {
    match M::store(alloc, base, FRAMES) {
        Ok(store) => {
            let mut store = store;
            parents(alloc, &mut store).ok()
        }
        Err(_) => None,
    }
}

fn report_of(alloc: Global, base: MemDevice) -> Option<Report> {
    report_in::<Opened>(alloc, base)
}

#[test]
fn bases_are_sound(rt: HostRuntime) -> Result<(), Fail> {
    let base = sound(rt.alloc(), false)?;
    assert!(rt; base.len() == LEN);
    assert!(rt;
        matches!(
            report_of(rt.alloc(), base),
            Some(Report {
                levels: 3,
                pages: 16,
                entries: ENTRIES,
                half_dead: 0,
                deleted: 0,
                unfinished: 0,
            },)
        )
    );
    assert!(rt;
        matches!(
            report_of(rt.alloc(), five(rt.alloc())?),
            Some(Report {
                levels: 2,
                pages: 4,
                entries: 5,
                half_dead: 0,
                deleted: 0,
                unfinished: 0,
            },)
        )
    );
    Ok(())
}

#[test]
fn three_levels_from_0(rt: HostRuntime) -> Result<(), Fail> {
    of_three_levels(&rt, rt.alloc(), 1)
}

#[test]
fn three_levels_from_2500(rt: HostRuntime) -> Result<(), Fail> {
    of_three_levels(&rt, rt.alloc(), 6)
}

#[test]
fn three_levels_from_5000(rt: HostRuntime) -> Result<(), Fail> {
    of_three_levels(&rt, rt.alloc(), 11)
}

#[test]
fn three_levels_from_7500(rt: HostRuntime) -> Result<(), Fail> {
    of_three_levels(&rt, rt.alloc(), 16)
}

#[test]
fn five_entries_from_0(rt: HostRuntime) -> Result<(), Fail> {
    of_five_entries(&rt, rt.alloc(), 21)
}

#[test]
fn five_entries_from_2500(rt: HostRuntime) -> Result<(), Fail> {
    of_five_entries(&rt, rt.alloc(), 26)
}

#[test]
fn five_entries_from_5000(rt: HostRuntime) -> Result<(), Fail> {
    of_five_entries(&rt, rt.alloc(), 31)
}

#[test]
fn five_entries_from_7500(rt: HostRuntime) -> Result<(), Fail> {
    of_five_entries(&rt, rt.alloc(), 36)
}

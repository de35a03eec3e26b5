//! Scripts during which device calls fail: each call of the device that a script makes fails once, and each
//! with all after it.

use crate::crashes::OverDevices;
use crate::dice::Space;
use crate::failing::{fails, play};
use crate::gates::stops_right;
use crate::reopening::Counted;
use crate::runs::Run;
use crate::scripts::{
    ROWS, Script, after_the_frontier, delayed_reuse, forces, full, going_back, incomplete_split,
    interlock, one_entry_a_key, saved_link,
};
use index_model::Limits;
use std::alloc::Global;
use std::process::Abort;
use std::test::{Fail, *};

/// A run of a script, with so many items a page and so many pages.
fn scripted(alloc: Global, items: u32, pages: u32) -> Run {
    scripted_on(alloc, items, pages, false)
}

/// ... on a unique index, or on one that isn't.
fn scripted_on(alloc: Global, items: u32, pages: u32, unique: bool) -> Run {
    Run {
        alloc,
        limits: Limits {
            items,
            pages,
            log_bytes: 65_536,
            unique,
        },
        space: Space {
            sessions: 3,
            keys: 256,
            rows: ROWS,
            forces: 1,
            deletes: true,
            scripted: true,
        },
    }
}

/// Of this script each call of the device fails once, and each with all after it; then each opening after the
/// second is stopped at each of its calls.
fn each_fails<R: Abort>(rt: &R, run: Run, script: &Script) -> Result<(), Fail> {
    let mut counted = Counted::default();
    let script = play::<OverDevices>(run, script)?;
    for call in 0..script.calls {
        let n = call.saturating_add(1);
        let once = fails::<OverDevices>(run, &script, n, false, &mut counted)?;
        let for_good = fails::<OverDevices>(run, &script, n, true, &mut counted)?;
        assert!(rt; once && for_good, "{n}: {once} {for_good} {counted:?}");
    }
    assert!(rt;
        counted.failed >= 20 && counted.stopped >= 100,
        "{counted:?}"
    );
    Ok(())
}

#[test]
fn splits(rt: HostRuntime) -> Result<(), Fail> {
    let alloc = rt.alloc();
    let run = scripted(alloc, 4, 16);
    each_fails(&rt, run, &incomplete_split(alloc)?)?;
    each_fails(&rt, run, &saved_link(alloc)?)
}

#[test]
fn bulk_deletes(rt: HostRuntime) -> Result<(), Fail> {
    let alloc = rt.alloc();
    let run = scripted(alloc, 4, 16);
    each_fails(&rt, run, &after_the_frontier(alloc)?)?;
    each_fails(&rt, run, &interlock(alloc)?)?;
    each_fails(&rt, run, &going_back(alloc)?)
}

#[test]
fn reuse(rt: HostRuntime) -> Result<(), Fail> {
    let alloc = rt.alloc();
    each_fails(&rt, scripted(alloc, 4, 16), &delayed_reuse(alloc)?)
}

#[test]
fn unique_keys(rt: HostRuntime) -> Result<(), Fail> {
    let alloc = rt.alloc();
    each_fails(
        &rt,
        scripted_on(alloc, 4, 16, true),
        &one_entry_a_key(alloc)?,
    )
}

#[test]
fn many_forces(rt: HostRuntime) -> Result<(), Fail> {
    let alloc = rt.alloc();
    each_fails(&rt, scripted(alloc, 50, 16), &forces(alloc)?)
}

#[test]
fn full_index(rt: HostRuntime) -> Result<(), Fail> {
    let alloc = rt.alloc();
    each_fails(&rt, scripted(alloc, 4, 8), &full(alloc)?)
}

/// After a force whose gate's sync failed the opening is stopped at each of its calls: each image of a crash
/// then has the entries that were forced before, or those of this force too.
#[test]
fn gate_sync_fails(rt: HostRuntime) -> Result<(), Fail> {
    let run = scripted(rt.alloc(), 4, 16);
    let mut counted = Counted::default();
    for call in 1..1_000u64 {
        match stops_right::<OverDevices>(run, call, &mut counted)? {
            Some(is_right) => assert!(rt; is_right, "{call}: {counted:?}"),
            None => break,
        }
    }
    assert!(rt;
        counted.stopped >= 10 && counted.opened >= 30,
        "{counted:?}"
    );
    Ok(())
}

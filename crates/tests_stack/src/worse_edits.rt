//! One to three worse edits: 10,000 rows on the index of three levels, half of them on a unique one.

use crate::base::sound;
use crate::rows::{Kind, Parts, run};
use std::alloc::Global;
use std::io::Eprint;
use std::process::Abort;
use std::test::{Fail, *};

/// Runs five parts of the table.
fn parts<R: Abort + Eprint>(rt: &R, alloc: Global, from: u64, unique: bool) -> Result<(), Fail> {
    let parts = Parts {
        kind: Kind::Worse,
        blocks: 18,
        from,
        to: from.saturating_add(5),
    };
    run(rt, alloc, &sound(alloc, unique)?, parts, 50)
}

#[test]
fn rows_from_0(rt: HostRuntime) -> Result<(), Fail> {
    parts(&rt, rt.alloc(), 41, false)
}

#[test]
fn rows_from_2500(rt: HostRuntime) -> Result<(), Fail> {
    parts(&rt, rt.alloc(), 46, true)
}

#[test]
fn rows_from_5000(rt: HostRuntime) -> Result<(), Fail> {
    parts(&rt, rt.alloc(), 51, false)
}

#[test]
fn rows_from_7500(rt: HostRuntime) -> Result<(), Fail> {
    parts(&rt, rt.alloc(), 56, true)
}

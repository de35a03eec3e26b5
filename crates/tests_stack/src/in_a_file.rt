//! The caller that crates/access_method/CALLING.md shows.

use crate::caller::{add, close, list, make, open};
use access_method::Index;
use device::Unknown;
use index_model::{Entry, Fault, Key, Range, RowAddr};
use page_action::PageStore;
use std::alloc::Global;
use std::fs::{self, File};
use std::rt::Files;
use std::test::*;

const ALL: Range = Range {
    from: None,
    below: None,
};

fn entry(key: u8) -> Entry {
    Entry {
        key: Key::new(&[key]).unwrap_or(Key::EMPTY),
        row: RowAddr::new(0, 1).unwrap_or_default(),
    }
}

/// Adds entries, one of them twice: whether each is told with the number of the actions that are durable
/// then.
fn adds<S: PageStore>(index: &mut Index<S>) -> bool {
    for (key, durable) in [(0x62, 1), (0x61, 2), (0x61, 2), (0x63, 3)] {
        if add(index, entry(key)) != Ok(durable) {
            return false;
        }
    }
    true
}

/// Whether the first two entries are listed, and then all.
fn lists<S: PageStore>(alloc: Global, index: &mut Index<S>) -> Result<bool, Fault> {
    let mut entries = Vec::new(alloc);
    list(index, ALL, 2, &mut entries)?;
    list(index, ALL, 9, &mut entries)?;
    let listed = [
        entry(0x61),
        entry(0x62),
        entry(0x61),
        entry(0x62),
        entry(0x63),
    ];
    Ok(entries.as_slice() == listed.as_slice())
}

/// What is done with the index in a file.
#[derive(Clone, Copy)]
enum Work {
    Add,
    List,
}

/// Does this, and answers whether it is done right.
fn does<S: PageStore>(alloc: Global, index: &mut Index<S>, work: Work) -> Result<bool, Fault> {
    match work {
        Work::Add => Ok(adds(index)),
        Work::List => lists(alloc, index),
    }
}

/// Opens the index in a file, has this done, and closes it. Answers whether it is done right, and what the
/// closing does.
fn opened(
    rt: &(impl AllocGlobal + Files<File = File>),
    path: &str,
    work: Work,
) -> Result<(bool, u64), Fault> {
    let mut index = open::<_, Unknown>(rt, rt.alloc(), path)?;
    let done = does(rt.alloc(), &mut index, work);
    let closed = close(index);
    Ok((done?, closed?))
}

#[test]
fn made_and_opened(rt: HostRuntime) -> Result<(), Fail> {
    let path = "btidx_caller.idx";
    let _ = fs::remove_file(&rt, path);
    make(&rt, path)?;
    assert_eq!(rt; make(&rt, path), Err(Fault::Io));
    assert!(rt; opened(&rt, path, Work::Add) == Ok((true, 3)));
    assert!(rt; opened(&rt, path, Work::List) == Ok((true, 0)));
    fs::remove_file(&rt, path)?;
    Ok(())
}

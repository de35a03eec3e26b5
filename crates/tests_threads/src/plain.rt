//! Calls without their contracts: a test looks at the answers alone.

use amcheck::{check_parents, check_parents_one};
use index_model::{DeadRows, Entry, Fault, Key, Layout, Limits, NoProgress, Range, RowAddr};
use page_action::{MapStore, PageStore};
use page_codec::{Items, Page, PageState};
use session_calls::Answer;
use sessions::{Finished, Gate, NotRun, run_jobs, run_told};
use shared_world::Job;
use std::alloc::Global;
use std::sync::Wait;
use std::thread::Threads;
use tests_support::plain_world::PlainWorld;
use world::World;

/// Each entry.
pub const ALL: Range = Range {
    from: None,
    below: None,
};

/// The entry of this number's key and row.
pub fn entry(number: u16) -> Entry {
    let [high, low] = number.to_be_bytes();
    Entry {
        key: Key::new(&[high, low]).unwrap_or(Key::EMPTY),
        row: RowAddr::new(0, number.max(1)).unwrap_or_default(),
    }
}

/// Runs these jobs with so many workers.
pub fn run<
    S: PageStore + Drop + Send,
    T: DeadRows + Drop + Send,
    G: Gate + Sync,
    R: Threads + Wait + Sync,
>(
    rt: &R,
    alloc: Global,
    world: World<S, T>,
    jobs: &[Job],
    workers: u32,
    gate: &G,
) -> Result<Finished<S, T>, NotRun<S, T>> {
    run_jobs(rt, alloc, world, jobs, workers, gate)
}

/// How many hands told a gate of these jobs. None if the run is refused.
pub fn hands_of<
    S: PageStore + Drop + Send,
    T: DeadRows + Drop + Send,
    G: Gate + Sync,
    R: Threads + Wait + Sync,
>(rt: &R, alloc: Global, world: World<S, T>, jobs: &[Job], workers: u32, gate: &G) -> usize {
    match run_told(rt, alloc, world, jobs, workers, gate) {
        Ok((_finished, hands)) => hands.len(),
        Err(_) => 0,
    }
}

/// How many actions there are.
pub fn actions<W: PlainWorld>(world: &W) -> u64 {
    world.actions()
}

/// Gives up the call of a session.
pub fn abandon<W: PlainWorld>(world: &mut W, session: u32) -> Answer {
    world.abandon(session)
}

/// Whether the verifier finds no damage in what a world leaves, in this thread alone.
pub fn is_left_sound<S: PageStore + Drop, T: DeadRows + Drop>(
    alloc: Global,
    world: World<S, T>,
) -> bool {
    let mut store = world.into_store();
    check_parents_one(alloc, &mut store, &NoProgress).is_ok()
}

/// Whether it finds none in many threads.
pub fn is_left_sound_to_all<S: PageStore + Drop, T: DeadRows + Drop, R: Threads + Sync>(
    rt: &R,
    alloc: Global,
    world: World<S, T>,
) -> bool {
    let mut store = world.into_store();
    check_parents(rt, alloc, &mut store, &NoProgress).is_ok()
}

// A live page on level 0, without links.
fn page(block: u32, right: Option<u32>, items: Items) -> Page {
    Page {
        layout: Layout::Two,
        block,
        level: 0,
        state: PageState::Live,
        split: false,
        left: None,
        right,
        high: None,
        cycle: 0,
        deletion: 0,
        items,
    }
}

// The metapage and an empty leaf.
fn add_two(store: &mut MapStore) -> Result<(), Fault> {
    store.add(page(0, Some(1), Items::Meta))?;
    store.add(page(1, None, Items::Entries(arrayvec::ArrayVec::new())))
}

/// The pages of an index without entries, four items a page.
pub fn pages(alloc: Global) -> Result<MapStore, Fault> {
    let limits = Limits {
        items: 4,
        pages: 4_096,
        log_bytes: 1_048_576,
        unique: false,
    };
    let mut store = MapStore::new(alloc, limits)?;
    add_two(&mut store)?;
    Ok(store)
}

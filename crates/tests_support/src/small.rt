//! Small indexes without entries, and what they are made of.

use crate::plain::{create, device};
use arrayvec::ArrayVec;
use device::MemDevice;
use index_model::{Entry, Fault, Key, Layout, Limits, Range, RowAddr};
use page_action::MapStore;
use page_codec::{Items, Page, PageState};
use std::alloc::Global;

/// Four items a page, the smallest log, and so many pages.
pub fn limits(pages: u32) -> Limits {
    Limits {
        items: 4,
        pages,
        log_bytes: 65_536,
        unique: false,
    }
}

pub const LIMITS: Limits = Limits {
    items: 4,
    pages: 8,
    log_bytes: 65_536,
    unique: false,
};

/// The bytes of its device: a superblock, the log, 8 pages.
pub const LEN: u64 = 4_096 + 65_536 + 4_096 * 8;

/// Each entry.
pub const ALL: Range = Range {
    from: None,
    below: None,
};

/// The entry of this key and this row of block 0.
pub fn entry(key: u8, offset: u16) -> Entry {
    keyed(&[key], 0, offset)
}

/// The entry of this key and this row.
pub fn keyed(key: &[u8], block: u32, offset: u16) -> Entry {
    Entry {
        key: Key::new(key).unwrap_or(Key::EMPTY),
        row: RowAddr::new(block, offset).unwrap_or_default(),
    }
}

/// A live page without a left link or a high key, on level 0.
fn page(block: u32, right: Option<u32>, items: Items) -> Page {
    Page {
        layout: Layout::Two,
        block,
        level: 0,
        state: PageState::Live,
        split: false,
        left: None,
        right,
        high: None,
        cycle: 0,
        deletion: 0,
        items,
    }
}

/// A leaf without entries, told from others of its block by its cycle.
pub fn marked(block: u32, cycle: u32) -> Page {
    let mut page = page(block, None, Items::Entries(ArrayVec::new()));
    page.cycle = cycle;
    page
}

/// Its pages without a device, of these limits: the metapage, and an empty leaf as the root.
pub fn pages(alloc: Global, limits: Limits) -> Result<MapStore, Fault> {
    let mut store = MapStore::new(alloc, limits)?;
    store.add(page(0, Some(1), Items::Meta))?;
    store.add(marked(1, 0))?;
    Ok(store)
}

/// A device in memory on which one of these limits is made.
pub fn made_with(alloc: Global, limits: &Limits) -> Result<MemDevice, Fault> {
    let pages = u64::from(limits.pages) * 4_096;
    let mut device = device(alloc, 4_096 + u64::from(limits.log_bytes) + pages)?;
    create(&mut device, limits)?;
    Ok(device)
}

/// A device in memory on which it is made.
pub fn made(alloc: Global) -> Result<MemDevice, Fault> {
    made_with(alloc, &LIMITS)
}

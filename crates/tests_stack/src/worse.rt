//! Edits that alter more than one byte: links that make rings, levels, keys out of order, block numbers at
//! their ends, pages that stand in the place of others, a log with more images or fewer, and limits that lie.

use crate::edits::Edit;
use crate::table::Table;

/// Where a page of the sound index begins.
fn page_at(block: u64) -> u64 {
    69_632u64.saturating_add(block.saturating_mul(4_096))
}

/// Numbers of blocks at their ends, and after the pages in use and those that there may be.
const ENDS: [u32; 8] = [0, 1, 17, 31, 32, 65_535, 65_536, u32::MAX];

/// Numbers of items, pages and bytes of a log, some of which no index has.
const ITEMS: [u32; 4] = [3, 5, 50, 51];

const PAGES: [u32; 4] = [7, 8, 16, 65_536];

const LOG_BYTES: [u32; 4] = [61_440, 65_537, 69_632, 131_072];

/// Whether an index is unique, and numbers that don't say so.
const UNIQUE: [u32; 4] = [0, 1, 2, 256];

/// One of these numbers.
fn one_of(table: &mut Table, numbers: &[u32]) -> u32 {
    let place = table.number((numbers.len() as u64).max(1));
    match numbers.get(place as usize) {
        Some(number) => *number,
        None => 0,
    }
}

/// A page in use, three times of four where it stands, else one of the first images in the log.
fn page(table: &mut Table) -> u64 {
    match table.number(4) {
        0 => 4_101 + 4_096 * table.number(4),
        _ => page_at(table.number(17)),
    }
}

/// A number below this one, at most 4,294,967,295.
fn small(table: &mut Table, below: u64) -> u32 {
    u32::try_from(table.number(below.max(1))).unwrap_or(0)
}

/// The place of a link to the left or the right, or of one of the first four children, in a page.
fn link(table: &mut Table) -> u64 {
    match table.number(3) {
        0 => 12,
        1 => 16,
        _ => 178u64.saturating_add(table.number(4).saturating_mul(75)),
    }
}

/// A link or a child leads to another page in use, or to a number of a block at its ends.
fn links(table: &mut Table) -> Edit {
    let at = page(table).saturating_add(link(table));
    let block = if table.number(3) == 0 {
        one_of(table, &ENDS)
    } else {
        small(table, 17)
    };
    Edit::Sets(at, block.to_le_bytes())
}

/// A page links to itself, or to the right where it links to the left, or to the left where it links to the
/// right.
fn rings(table: &mut Table) -> Edit {
    let page = page(table);
    let (from, to) = match table.number(4) {
        0 => (4, 12),
        1 => (4, 16),
        2 => (12, 16),
        _ => (16, 12),
    };
    Edit::Copies(page.saturating_add(from), page.saturating_add(to), 4)
}

/// A page has another level.
fn levels(table: &mut Table) -> Edit {
    let at = page(table).saturating_add(9);
    Edit::Alters(at, u8::try_from(table.number(4)).unwrap_or(0))
}

/// Two of the first four items of a leaf change places, or of an internal page; half of them with one of
/// another page.
fn reorders(table: &mut Table) -> Edit {
    let one = page(table);
    let other = match table.number(2) {
        0 => one,
        _ => page(table),
    };
    let len = if table.number(2) == 0 { 71 } else { 75 };
    let first = 107u64.saturating_add(table.number(4).saturating_mul(len));
    let second = 107u64.saturating_add(table.number(4).saturating_mul(len));
    Edit::Swaps(one.saturating_add(first), other.saturating_add(second), len)
}

/// A page stands in the place of another; or, mostly, all of it does except for the number of its block.
fn copies(table: &mut Table) -> Edit {
    let (from, to) = (page(table), page(table));
    let (inner, outer) = (from.saturating_add(8), to.saturating_add(8));
    match table.number(8) {
        0 => Edit::Copies(from, to, 4_096),
        1 => Edit::Swaps(from, to, 4_096),
        2..5 => Edit::Copies(inner, outer, 4_088),
        _ => Edit::Swaps(inner, outer, 4_088),
    }
}

/// The first group of the log has another number of images, or a gate after some images, or at the beginning,
/// is another.
fn cuts_log(table: &mut Table) -> Edit {
    match table.number(3) {
        0 => Edit::Sets(4_097, small(table, 17).to_le_bytes()),
        1 => {
            let images = table.number(16).saturating_mul(4_096);
            let gate = u8::try_from(table.number(3)).unwrap_or(0);
            Edit::Alters(4_101u64.saturating_add(images), gate)
        }
        _ => Edit::Alters(4_096, u8::try_from(table.number(3)).unwrap_or(0)),
    }
}

/// The superblock has another limit, or says otherwise whether the index is unique.
fn lies(table: &mut Table) -> Edit {
    match table.number(4) {
        0 => Edit::Sets(12, one_of(table, &ITEMS).to_le_bytes()),
        1 => Edit::Sets(16, one_of(table, &PAGES).to_le_bytes()),
        2 => Edit::Sets(20, one_of(table, &LOG_BYTES).to_le_bytes()),
        _ => Edit::Sets(24, one_of(table, &UNIQUE).to_le_bytes()),
    }
}

/// The next edit: of sixteen four of links, two of rings, three of items, two of levels, two of pages, and
/// one of the log, a byte and the limits each.
pub fn edit(table: &mut Table) -> Edit {
    match table.number(16) {
        0..4 => links(table),
        4..6 => rings(table),
        6..9 => reorders(table),
        9..11 => levels(table),
        11..13 => copies(table),
        13 => cuts_log(table),
        14 => table.next(),
        _ => lies(table),
    }
}

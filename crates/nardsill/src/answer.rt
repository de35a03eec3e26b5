//! What C is answered.

ghost use Rattle.std.specs.Prelude.{◌≡◌, false};
ghost use Rattle.nardsill.specs.Meanings.{GivesNone, AnswersFault, SpellsStats, page_of, row_named, unfinished_number};

use index_model::{Fault, VacuumStats};

/// An answer: 0, or the number of a fault with the page or the row that it names, and what the call tells.
/// `nardsill_proved.h` says which fields each call tells.
#[repr(C)]
#[derive(Clone, Copy)]
pub struct CallAnswer {
    pub status: u32,
    pub page: u32,
    /// The number of an insert's action; how many entries were removed; how many actions are durable; a
    /// token's number.
    pub number: u64,
    /// The fault that left an insert unfinished, or 0; how many entries are left.
    pub other: u64,
    /// A token's session; of a part, whether what goes on in parts has finished, 1, or goes on, 0.
    pub session: u32,
    /// So many actions as `number` tells are durable.
    pub is_durable: bool,
    /// Pages in use; of these, those that were newly deleted, that are deleted, and that may be used again.
    pub num_pages: u32,
    pub pages_newly_deleted: u32,
    pub pages_deleted: u32,
    pub pages_free: u32,
    /// The row that a fault names.
    pub block: u32,
    pub offset: u16,
    /// The descriptor that an opening, or what syncs, has of the file.
    pub descriptor: i32,
}

/// What a scan gives: an entry, or none where it has given all; or the number of a fault with the page that
/// it names.
#[repr(C)]
#[derive(Drop)]
pub struct Given {
    pub status: u32,
    pub page: u32,
    pub block: u32,
    pub offset: u16,
    pub len: u8,
    pub is_given: bool,
    pub key: [u8; 64],
}

/// An answer that tells nothing more.
pub const DONE: CallAnswer = CallAnswer {
    status: 0,
    page: 0,
    number: 0,
    other: 0,
    session: 0,
    is_durable: false,
    num_pages: 0,
    pages_newly_deleted: 0,
    pages_deleted: 0,
    pages_free: 0,
    block: 0,
    offset: 0,
    descriptor: 0,
};

/// The page that a fault names, or 0.
pub fn page_of(fault: &Fault) -> u32
    ensures { result ≡ page_of fault.now }
{
    match fault.block() {
        Some(block) => block,
        None => 0,
    }
}

// The block and the offset of the row that a fault names, or zeros.
fn row_of(fault: &Fault) -> (u32, u16)
    ensures block { result.0 ≡ (row_named fault.now).block }
    ensures offset { result.1 ≡ (row_named fault.now).offset }
{
    match fault.row() {
        Some(row) => (row.block(), row.offset()),
        None => (0, 0),
    }
}

/// The answer to a call that was refused.
pub fn refused(fault: Fault) -> CallAnswer
    ensures { AnswersFault fault result }
{
    let page = page_of(&fault);
    let (block, offset) = row_of(&fault);
    CallAnswer {
        status: fault.number() as u32,
        page,
        block,
        offset,
        ..DONE
    }
}

/// The number of the fault that left an insert unfinished, or 0.
pub fn unfinished(fault: Option<Fault>) -> u64
    ensures { result ≡ unfinished_number fault }
{
    match fault {
        None => 0,
        Some(fault) => fault.number() as u64,
    }
}

/// The answer that tells statistics.
pub fn counted(stats: &VacuumStats) -> CallAnswer
    ensures told { SpellsStats stats.now result }
    ensures status { result.status ≡ 0 }
    ensures quiet { result.is_durable ≡ false }
{
    CallAnswer {
        number: stats.tuples_removed,
        other: stats.num_index_tuples,
        num_pages: stats.num_pages,
        pages_newly_deleted: stats.pages_newly_deleted,
        pages_deleted: stats.pages_deleted,
        pages_free: stats.pages_free,
        ..DONE
    }
}

/// No entry, for this fault.
pub fn none_given(fault: Fault) -> Given
    ensures { GivesNone fault result }
{
    let page = page_of(&fault);
    Given {
        status: fault.number() as u32,
        page,
        block: 0,
        offset: 0,
        len: 0,
        is_given: false,
        key: [0; 64],
    }
}

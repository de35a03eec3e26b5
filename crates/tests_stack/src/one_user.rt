//! Each call of an index of one user.

use access_method::{Index, Inserted, ScanToken};
use device::{Device, MemDevice};
use index_model::{Entry, Fault, Key, Range, VacuumStats};
use page_store::Store;
use std::alloc::Global;
use std::test::{Fail, *};
use tests_support::dead::{Blocks, EACH_ROW};
use tests_support::medium::{Medium, Opened};
use tests_support::plain::{
    begin_scan, bulk_delete, checkpoint_of, clean_up, commit, end_scan, index_over, insert, next,
    open_index, rescan,
};
use tests_support::plain_index::PlainIndex;
use tests_support::small::{ALL, LEN, LIMITS, entry, keyed, limits, made, made_with, pages};

// The number of the row that a scan gives, or 0 if it has given all; after 100 the number of a refusal.
fn given<I: PlainIndex>(index: &mut I, token: ScanToken) -> u64 {
    match next(index, token) {
        Ok(Some(entry)) => u64::from(entry.row.offset()),
        Ok(None) => 0,
        Err(fault) => 100 + u64::from(fault.number()),
    }
}

// What the words of crashes are for it.
fn law<D: Device>(index: &Index<Store<D>>) {
    index.crash_law();
}

// The entry of this key, and of the row of that number.
fn of(key: u8) -> Entry {
    entry(key, u16::from(key))
}

// The action by which the entry was added; 0 if it was refused, or has left a split unfinished.
fn added<I: PlainIndex>(index: &mut I, new: Entry) -> u64 {
    match insert(index, new) {
        Ok(
            Inserted {
                action,
                unfinished: None,
            },
        ) => action,
        _ => 0,
    }
}

// Whether the entries of the keys from 1 to below this one are added.
fn adds_to<I: PlainIndex>(index: &mut I, end: u8) -> bool {
    for key in 1..end {
        if added(index, of(key)) == 0 {
            return false;
        }
    }
    true
}

// Whether the scan of this token gives these, one after the other.
fn gives<I: PlainIndex>(index: &mut I, token: ScanToken, wanted: &[u64]) -> bool {
    for number in wanted {
        if given(index, token) != *number {
            return false;
        }
    }
    true
}

// Whether a scan of all gives these, one after the other.
fn scans<I: PlainIndex>(index: &mut I, wanted: &[u64]) -> Result<bool, Fault> {
    let token = begin_scan(index, ALL)?;
    let is_right = gives(index, token, wanted);
    end_scan(index, token)?;
    Ok(is_right)
}

// A scan of three entries, which is begun again over the second: whether both give what is right.
fn scans_again<I: PlainIndex>(index: &mut I) -> Result<bool, Fault> {
    let token = begin_scan(index, ALL)?;
    let all = gives(index, token, &[0x61, 0x62, 0x63, 0, 0]);
    let part = Range {
        from: Key::new(&[0x62]).ok(),
        below: Key::new(&[0x63]).ok(),
    };
    rescan(index, token, part)?;
    let second = gives(index, token, &[0x62, 0, 0]);
    end_scan(index, token)?;
    Ok(all && second)
}

// Three inserts and one of an entry that is there, a commit, scans and a checkpoint: whether each answers
// what is right.
fn answer_in_turn<I: PlainIndex>(index: &mut I) -> [bool; 7] {
    [
        added(index, of(0x63)) == 1,
        added(index, of(0x61)) == 2,
        added(index, of(0x62)) == 3,
        insert(index, of(0x61)) == Err(Fault::Exists),
        commit(index) == Ok(3),
        scans_again(index) == Ok(true),
        checkpoint_of(index) == Ok(3),
    ]
}

// A leaf has room for 4 entries. The fifth splits it, and one action more finishes the split.
fn splits<I: PlainIndex>(index: &mut I) -> [bool; 3] {
    [
        adds_to(index, 8),
        commit(index) == Ok(8),
        scans(index, &[1, 2, 3, 4, 5, 6, 7, 0, 0]) == Ok(true),
    ]
}

// Whether an entry is added and forced.
fn keeps_one<I: PlainIndex>(index: &mut I) -> bool {
    added(index, entry(0x61, 1)) == 1 && commit(index) == Ok(1)
}

// Why the index on a device isn't opened.
fn refusal(alloc: Global, device: MemDevice, frames: u32) -> Option<Fault> {
    open_index(alloc, device, frames).err()
}

// The tokens of a scan that has ended, and of one begun after it.
fn tokens<I: PlainIndex>(index: &mut I) -> Result<(ScanToken, ScanToken), Fault> {
    let first = begin_scan(index, ALL)?;
    end_scan(index, first)?;
    let second = begin_scan(index, ALL)?;
    Ok((first, second))
}

// What the token of a scan that has ended is answered, and then the other.
fn answers_to_tokens<I: PlainIndex>(index: &mut I) -> Result<[bool; 5], Fault> {
    let (first, second) = tokens(index)?;
    Ok([
        first != second,
        given(index, first) == 112,
        end_scan(index, first) == Err(Fault::NoSession),
        rescan(index, first, ALL) == Err(Fault::NoSession),
        given(index, second) == 0,
    ])
}

// Begins 63 scans, one more, and that one again after the first has ended.
fn begins_63_scans<I: PlainIndex>(index: &mut I) -> Result<[bool; 3], Fault> {
    let first = begin_scan(index, ALL)?;
    for _scan in 1..63 {
        begin_scan(index, ALL)?;
    }
    Ok([
        begin_scan(index, ALL) == Err(Fault::NoSession),
        end_scan(index, first) == Ok(()),
        begin_scan(index, ALL).is_ok(),
    ])
}

// What an index answers whose log has failed: to an insert, to a scan that begins again and to one that
// begins.
fn refusals<I: PlainIndex>(index: &mut I, token: ScanToken) -> [Option<Fault>; 3] {
    [
        insert(index, of(0x63)).err(),
        rescan(index, token, ALL).err(),
        begin_scan(index, ALL).err(),
    ]
}

// Two inserts with a commit each, of which the second fails, and what is answered then.
fn stops<I: PlainIndex>(index: &mut I) -> Result<[bool; 7], Fault> {
    let token = begin_scan(index, ALL)?;
    Ok([
        insert(index, of(0x61)).is_ok(),
        commit(index) == Ok(1),
        insert(index, of(0x62)).is_ok(),
        commit(index) == Err(Fault::Io),
        commit(index) == Err(Fault::Stopped),
        refusals(index, token) == [Some(Fault::Stopped); 3],
        end_scan(index, token).is_ok(),
    ])
}

// To open makes 5 calls of the device, the first insert reads two pages, the first commit makes 4: the next
// is the first of the second commit.
fn failing(alloc: Global) -> Result<MemDevice, Fault> {
    let mut device = made(alloc)?;
    device.fail_at(12);
    Ok(device)
}

// Inserts 9 entries, and deletes them and their pages: how many there were.
fn deletes_all<I: PlainIndex>(index: &mut I) -> Result<(VacuumStats, VacuumStats), Fault> {
    if !adds_to(index, 10) {
        return Err(Fault::NoMemory);
    }
    let removed = bulk_delete(index, &EACH_ROW)?;
    let cleaned = clean_up(index)?;
    Ok((removed, cleaned))
}

// Deletes all, and inserts it again: whether what the deletes count is right, and what a cleanup counts after
// it.
fn uses_again<I: PlainIndex>(index: &mut I) -> Result<[bool; 9], Fault> {
    let (removed, cleaned) = deletes_all(index)?;
    let (is_added, is_scanned) = (
        adds_to(index, 10),
        scans(index, &[1, 2, 3, 4, 5, 6, 7, 8, 9, 0]) == Ok(true),
    );
    let again = clean_up(index)?;
    Ok([
        (removed.tuples_removed, removed.num_index_tuples) == (9, 0),
        (cleaned.tuples_removed, cleaned.num_index_tuples) == (0, 0),
        // The metapage, the root and its last child are left.
        cleaned.num_pages == removed.num_pages,
        cleaned.pages_newly_deleted.wrapping_add(3) == cleaned.num_pages,
        cleaned.pages_deleted == cleaned.pages_newly_deleted,
        is_added,
        is_scanned,
        again.num_index_tuples == 9,
        (again.num_pages, again.pages_newly_deleted) == (cleaned.num_pages, 0),
    ])
}

const MANY: u16 = 2_000;

// The entry at this place in order.
fn nth(place: u16) -> Entry {
    keyed(&place.to_be_bytes(), 0, place.saturating_add(1))
}

// Whether a scan gives each of these entries, in order, and then none.
fn gives_all<I: PlainIndex>(index: &mut I) -> Result<bool, Fault> {
    let token = begin_scan(index, ALL)?;
    for place in 0..MANY {
        if next(index, token)? != Some(nth(place)) {
            return Ok(false);
        }
    }
    Ok(next(index, token)?.is_none())
}

// Inserts so many entries, not in order, into both: whether they answer the same, and leave no split
// unfinished.
fn answer_alike<I: PlainIndex, J: PlainIndex>(few: &mut I, many: &mut J) -> Result<bool, Fault> {
    let mut place = 0u16;
    for _ in 0..MANY {
        // Each place once.
        place = (place % MANY + 7) % MANY;
        let inserted = insert(few, nth(place))?;
        if inserted.unfinished.is_some() || insert(many, nth(place))? != inserted {
            return Ok(false);
        }
    }
    Ok(gives_all(few)? && gives_all(many)?)
}

// An empty index over many pages with the smallest log, of which 1,024 are in memory at once, and one of
// which this one has few: whether they answer alike.
fn answers_as_many_do<M: Medium<MemDevice>, I: PlainIndex>(
    alloc: Global,
    few: &mut I,
) -> Result<bool, Fault> {
    let mut many = M::index(alloc, made_with(alloc, &limits(4_096))?, 1_024)?;
    answer_alike(few, &mut many)
}

// Deletes the rows of block 1, which odd keys have, while even keys have rows of block 0: whether it counts
// and leaves what is right.
fn deletes_odd<I: PlainIndex>(index: &mut I) -> Result<[bool; 2], Fault> {
    for key in 1..8u8 {
        insert(index, keyed(&[key], u32::from(key) % 2, u16::from(key)))?;
    }
    let stats = bulk_delete(index, &Blocks { from: 1, to: 1 })?;
    Ok([
        (stats.tuples_removed, stats.num_index_tuples) == (4, 3),
        scans(index, &[2, 4, 6, 0]) == Ok(true),
    ])
}

// What is done with an index.
#[derive(Clone, Copy)]
enum Deed {
    AnswersInTurn,
    Splits,
    KeepsOne,
    GivesOne,
    AnswersToTokens,
    Begins63Scans,
    Stops,
    UsesAgain,
    AnswersAsManyDo,
    DeletesOdd,
}

// Whether it is done right.
fn does<M: Medium<MemDevice>, I: PlainIndex>(alloc: Global, index: &mut I, deed: Deed) -> bool {
    match deed {
        Deed::AnswersInTurn => answer_in_turn(index) == [true; 7],
        Deed::Splits => splits(index) == [true; 3],
        Deed::KeepsOne => keeps_one(index),
        Deed::GivesOne => scans(index, &[1, 0]) == Ok(true),
        Deed::AnswersToTokens => answers_to_tokens(index) == Ok([true; 5]),
        Deed::Begins63Scans => begins_63_scans(index) == Ok([true; 3]),
        Deed::Stops => stops(index) == Ok([true; 7]),
        Deed::UsesAgain => uses_again(index) == Ok([true; 9]),
        Deed::AnswersAsManyDo => answers_as_many_do::<M, I>(alloc, index) == Ok(true),
        Deed::DeletesOdd => deletes_odd(index) == Ok([true; 2]),
    }
}

// The same of an index that is opened on a device, which comes back.
fn opened_does(alloc: Global, device: MemDevice, deed: Deed) -> Result<(bool, MemDevice), Fault> {
    let mut index = open_index(alloc, device, 16)?;
    let is_right = does::<Opened, _>(alloc, &mut index, deed);
    law(&index);
    Ok((is_right, index.into_device()))
}

// The same, and how long the device is.
fn device_does(alloc: Global, device: MemDevice, deed: Deed) -> Result<(bool, u64), Fault> {
    let (is_right, device) = opened_does(alloc, device, deed)?;
    Ok((is_right, device.len()))
}

// The same of a new index, made on a device in memory and opened.
fn new_does(alloc: Global, deed: Deed) -> Result<(bool, u64), Fault> {
    device_does(alloc, made(alloc)?, deed)
}

// The same of an empty index without a device.
fn in_memory_does(alloc: Global, deed: Deed) -> Result<bool, Fault> {
    let mut index = index_over(alloc, pages(alloc, LIMITS)?)?;
    Ok(does::<Opened, _>(alloc, &mut index, deed))
}

#[test]
fn entries_are_given_in_order(rt: HostRuntime) -> Result<(), Fail> {
    assert_eq!(rt; new_does(rt.alloc(), Deed::AnswersInTurn), Ok((true, LEN)));
    Ok(())
}

#[test]
fn a_split_leaf_is_scanned(rt: HostRuntime) -> Result<(), Fail> {
    assert_eq!(rt; new_does(rt.alloc(), Deed::Splits), Ok((true, LEN)));
    Ok(())
}

// A new index keeps one entry, and what is opened on its device has it: and why that isn't opened with a
// frame less.
fn opened_again(alloc: Global) -> Result<([bool; 2], Option<Fault>), Fault> {
    let (is_kept, device) = opened_does(alloc, made(alloc)?, Deed::KeepsOne)?;
    let (is_given, device) = opened_does(alloc, device, Deed::GivesOne)?;
    Ok(([is_kept, is_given], refusal(alloc, device, 15)))
}

#[test]
fn an_index_is_opened_again(rt: HostRuntime) -> Result<(), Fail> {
    let wanted = ([true; 2], Some(Fault::BadLimits));
    assert_eq!(rt; opened_again(rt.alloc()), Ok(wanted));
    Ok(())
}

#[test]
fn closed_tokens_are_refused(rt: HostRuntime) -> Result<(), Fail> {
    assert_eq!(rt; in_memory_does(rt.alloc(), Deed::AnswersToTokens), Ok(true));
    Ok(())
}

#[test]
fn at_most_63_scans(rt: HostRuntime) -> Result<(), Fail> {
    assert_eq!(rt; in_memory_does(rt.alloc(), Deed::Begins63Scans), Ok(true));
    Ok(())
}

#[test]
fn a_failed_device_stops_the_index(rt: HostRuntime) -> Result<(), Fail> {
    let device = failing(rt.alloc())?;
    assert_eq!(rt;
        device_does(rt.alloc(), device, Deed::Stops),
        Ok((true, LEN))
    );
    Ok(())
}

#[test]
fn deleted_pages_are_used_again(rt: HostRuntime) -> Result<(), Fail> {
    assert_eq!(rt; new_does(rt.alloc(), Deed::UsesAgain), Ok((true, LEN)));
    Ok(())
}

#[test]
fn few_frames_answer_as_many_do(rt: HostRuntime) -> Result<(), Fail> {
    let device = made_with(rt.alloc(), &limits(4_096))?;
    let done = device_does(rt.alloc(), device, Deed::AnswersAsManyDo)?;
    assert!(rt; done.0);
    Ok(())
}

#[test]
fn dead_rows_are_deleted(rt: HostRuntime) -> Result<(), Fail> {
    assert_eq!(rt; new_does(rt.alloc(), Deed::DeletesOdd), Ok((true, LEN)));
    Ok(())
}

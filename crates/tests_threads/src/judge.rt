//! Whether what a run told is right: plainly, from its records alone.

use crate::indexes::SETS;
use index_model::{Entry, Fault, Key, Range, RowAddr};
use session_calls::Answer;
use sessions::Receipt;
use shared_world::{Job, Record};
use std::alloc::{AllocError, Global};

/// An entry, and the action that added it.
#[derive(Clone, Copy)]
pub struct Addition {
    pub entry: Entry,
    pub action: u64,
}

/// The number of a key, by which it has its place in a table of additions.
fn number(key: &Key) -> Option<usize> {
    match key.bytes() {
        [high, low] => Some(usize::from(u16::from_be_bytes([*high, *low]))),
        _ => None,
    }
}

/// What was added of a key. There is one entry of it at most.
fn added_of<'a>(added: &'a [Option<Addition>], key: &Key) -> Option<&'a Addition> {
    added.get(number(key)?)?.as_ref()
}

/// What was added, by the numbers of the keys, which are below this bound.
pub fn additions(
    alloc: Global,
    jobs: &[Job],
    history: &[Record],
    bound: usize,
) -> Result<Vec<Option<Addition>>, AllocError> {
    let mut added = vec![in alloc; None; bound]?;
    for record in history {
        if let Answer::Added { action, .. } = &record.answer
            && let Some(Job::Insert(entry)) = jobs.get(record.job as usize)
            && let Some(place) = number(&entry.key)
            && let Some(addition) = added.as_mut_slice().get_mut(place)
        {
            *addition = Some(Addition {
                entry: *entry,
                action: *action,
            });
        }
    }
    Ok(added)
}

/// How many entries were added.
pub fn count(added: &[Option<Addition>]) -> usize {
    added.iter().filter(|one| one.is_some()).count()
}

/// How many records tell that an entry was added.
fn told(history: &[Record]) -> usize {
    history
        .iter()
        .filter(|record| matches!(&record.answer, Answer::Added { .. }))
        .count()
}

/// Whether each job has its one receipt and its one record, at a place of its own, and each worker's calls
/// are its records.
pub fn has_each_once(
    alloc: Global,
    count: usize,
    history: &[Record],
    receipts: &[Receipt],
    calls: &[u64],
) -> Result<bool, AllocError> {
    if history.len() != count || receipts.len() != count {
        return Ok(false);
    }
    let mut seen = vec![in alloc; false; count]?;
    for (number, receipt) in receipts.iter().enumerate() {
        let Some(record) = history.get(receipt.place as usize) else {
            return Ok(false);
        };
        if record.job as usize != number
            || receipt.job as usize != number
            || record.worker != receipt.worker
        {
            return Ok(false);
        }
        match seen.as_mut_slice().get_mut(receipt.place as usize) {
            Some(is_seen) if !*is_seen => *is_seen = true,
            _ => return Ok(false),
        }
    }
    Ok(are_calls(history, calls))
}

/// How many records a worker has.
fn records_by(history: &[Record], worker: usize) -> u64 {
    let mut count = 0u64;
    for record in history {
        if record.worker as usize == worker {
            count = count.saturating_add(1);
        }
    }
    count
}

fn are_calls(history: &[Record], calls: &[u64]) -> bool {
    let mut total = 0u64;
    for (worker, count) in calls.iter().enumerate() {
        if records_by(history, worker) != *count {
            return false;
        }
        total = total.saturating_add(*count);
    }
    total == history.len() as u64
}

/// Whether it was added by the action of this number or one before.
fn is_added(added: &[Option<Addition>], entry: &Entry, by: u64) -> bool {
    match added_of(added, &entry.key) {
        Some(one) => one.entry == *entry && one.action <= by,
        None => false,
    }
}

/// What a run told, and what its judge knows besides.
#[derive(Drop)]
pub struct Run<'a> {
    pub jobs: &'a [Job],
    pub history: &'a [Record],
    pub added: &'a [Option<Addition>],
    /// How many actions there were before.
    pub start: u64,
    /// Whether calls of the device were made to fail.
    pub may_fail: bool,
    /// Whether each block is in use after it.
    pub is_full: bool,
}

/// A record, with those that ended before it began, those that ended meanwhile, and those after it.
#[derive(Drop)]
struct Placed<'a> {
    record: &'a Record,
    earlier: &'a [Record],
    beside: &'a [Record],
    later: &'a [Record],
}

/// The record at a place; none if it says that it began after it.
fn record_at<'a>(history: &'a [Record], place: usize) -> Option<Placed<'a>> {
    let record = history.get(place)?;
    let seen = record.seen as usize;
    if seen > place || place >= history.len() {
        return None;
    }
    Some(Placed {
        record,
        earlier: &history[..seen],
        beside: &history[seen..place],
        later: &history[place + 1..],
    })
}

/// Whether its interval begins no earlier than what had ended before, and ends no earlier than what ended
/// meanwhile, which was begun by other workers.
fn is_in_time(start: u64, at: &Placed<'_>) -> bool {
    let (from, to) = (at.record.from, at.record.to);
    let ended = match at.earlier.last() {
        Some(last) => last.to,
        None => start,
    };
    ended <= from
        && from <= to
        && at.beside.iter().all(|other| {
            other.worker != at.record.worker && from <= other.to && other.to <= to
        })
}

/// The part of the table of additions where the keys of a range stand.
fn part_of<'a>(range: &Range, added: &'a [Option<Addition>]) -> &'a [Option<Addition>] {
    let from = match &range.from {
        Some(key) => number(key).unwrap_or(0),
        None => 0,
    };
    let below = match &range.below {
        Some(key) => number(key).unwrap_or(usize::MAX).min(added.len()),
        None => added.len(),
    };
    if from <= below {
        &added[from..below]
    } else {
        &added[..0]
    }
}

/// Whether these are, in their order, some of the additions of this part of the table, and none after the
/// second number. Those by the first number are all among them: up to the last of these, or to the end if
/// they are to be all. No set may name a row of the part, which might have been removed meanwhile.
fn are_of(entries: &[Entry], part: &[Option<Addition>], from: u64, to: u64, are_all: bool) -> bool {
    let mut next = 0usize;
    for one in part {
        let Some(one) = one else {
            continue;
        };
        if entries.get(next).is_some_and(|entry| *entry == one.entry) {
            next = next.saturating_add(1);
            if to < one.action || is_dead(one.entry.row) {
                return false;
            }
        } else if is_dead(one.entry.row)
            || one.action <= from && (are_all || next < entries.len())
        {
            return false;
        }
    }
    next == entries.len()
}

/// Whether a scan gave what it may. It was cut only if its room was full.
fn is_scan(run: &Run<'_>, range: &Range, room: u32, record: &Record) -> bool {
    let given = record.given.as_slice();
    let is_done = matches!(&record.answer, Answer::Done);
    let is_cut = matches!(&record.answer, Answer::Ended);
    let part = part_of(range, run.added);
    given.len() <= room as usize
        && (!is_cut || given.len() == room as usize)
        && are_of(given, part, record.from, record.to, is_done)
}

/// Whether a record tells that a call of the device failed.
pub fn tells_of_failure(record: &Record) -> bool {
    matches!(
        &record.answer,
        Answer::Refused(Fault::Io)
            | Answer::Added {
                unfinished: Some(Fault::Io),
                ..
            }
    )
}

/// Whether a bulk delete or a cleanup has its record among these, and began when there were so many records
/// or fewer.
fn has_vacuum(jobs: &[Job], records: &[Record], seen: u64) -> bool {
    records.iter().any(|record| {
        let job = jobs.get(record.job as usize);
        matches!(job, Some(Job::Bulk(_) | Job::Cleanup)) && record.seen <= seen
    })
}

/// Whether a job may be refused with this fault, or leave a split unfinished for it.
fn has_cause(run: &Run<'_>, at: &Placed<'_>, job: &Job, fault: &Fault) -> bool {
    let record = at.record;
    let is_begin = record.from == record.to && at.beside.is_empty();
    match (job, fault) {
        (_, Fault::Io) => run.may_fail,
        // The log has failed before.
        (_, Fault::Stopped) => {
            at.earlier.iter().any(tells_of_failure) || at.beside.iter().any(tells_of_failure)
        }
        (Job::Insert(_), Fault::IndexFull) => run.is_full,
        (Job::Bulk(set), Fault::NoSession) => is_begin && *set >= SETS,
        (Job::Bulk(_) | Job::Cleanup, Fault::VacuumRunning) => {
            is_begin && has_vacuum(run.jobs, at.later, record.seen)
        }
        _ => false,
    }
}

/// Whether an answer is one that such a job may end with.
fn is_answer(run: &Run<'_>, at: &Placed<'_>, job: &Job) -> bool {
    let record = at.record;
    match (job, &record.answer) {
        (Job::Insert(entry), Answer::Refused(Fault::Exists)) => {
            is_added(run.added, entry, record.to)
        }
        (Job::Insert(entry), Answer::Refused(Fault::KeyExists(row))) => {
            let other = Entry {
                key: entry.key,
                row: *row,
            };
            *row != entry.row && is_added(run.added, &other, record.to)
        }
        (_, Answer::Refused(fault)) => has_cause(run, at, job, fault),
        (Job::Insert(_), Answer::Added { action, unfinished }) => {
            record.from < *action
                && *action <= record.to
                && !unfinished.is_some_and(|fault| !has_cause(run, at, job, &fault))
        }
        (Job::Scan { .. }, Answer::Done | Answer::Ended) => true,
        (Job::Bulk(set), Answer::Finished(stats)) => {
            *set < SETS && stats.pages_newly_deleted == 0
        }
        (Job::Cleanup, Answer::Finished(stats)) => stats.tuples_removed == 0,
        (Job::Commit, Answer::Forced(action)) | (Job::Checkpoint, Answer::Checkpointed(action)) => {
            record.from == record.to && *action == record.to
        }
        _ => false,
    }
}

/// Whether the record at a place is right: its interval, its answer, and what it gave.
fn is_right(run: &Run<'_>, place: usize) -> bool {
    let Some(at) = record_at(run.history, place) else {
        return false;
    };
    let Some(job) = run.jobs.get(at.record.job as usize) else {
        return false;
    };
    let gave = match job {
        Job::Scan { range, room } => is_scan(run, range, *room, at.record),
        _ => at.record.given.is_empty(),
    };
    gave && is_in_time(run.start, &at) && is_answer(run, &at, job)
}

/// The first place whose record is wrong, if there is one. The length if each is right, but two tell of one
/// addition.
pub fn first_wrong(run: &Run<'_>) -> Option<usize> {
    for place in 0..run.history.len() {
        if !is_right(run, place) {
            return Some(place);
        }
    }
    if told(run.history) == count(run.added) {
        None
    } else {
        Some(run.history.len())
    }
}

/// Whether the sets name the row.
fn is_dead(row: RowAddr) -> bool {
    row.block() != 0
}

/// How many entries the bulk deletes that finished removed.
fn removed(history: &[Record]) -> u64 {
    let mut count = 0u64;
    for record in history {
        if let Answer::Finished(stats) = &record.answer {
            count = count.saturating_add(stats.tuples_removed);
        }
    }
    count
}

/// Whether a bulk delete that finished began when the entry was there, and had its row in its set.
fn is_removed(jobs: &[Job], history: &[Record], one: &Addition) -> bool {
    is_dead(one.entry.row)
        && history.iter().any(|record| {
            let set = match jobs.get(record.job as usize) {
                Some(Job::Bulk(set)) => set.saturating_add(1),
                _ => 0,
            };
            let has_finished = matches!(&record.answer, Answer::Finished(_));
            has_finished && one.action <= record.from && one.entry.row.block() == set
        })
}

/// Whether these are, in their order, the entries that were added, except for as many rows of the sets as the
/// bulk deletes say that they removed.
pub fn are_those_left(
    entries: &[Entry],
    jobs: &[Job],
    history: &[Record],
    added: &[Option<Addition>],
) -> bool {
    let mut next = 0usize;
    for one in added {
        let Some(one) = one else {
            continue;
        };
        if entries.get(next).is_some_and(|entry| *entry == one.entry) {
            next = next.saturating_add(1);
            if is_removed(jobs, history, one) {
                return false;
            }
        } else if !is_dead(one.entry.row) {
            return false;
        }
    }
    let all = removed(history).saturating_add(entries.len() as u64);
    next == entries.len() && all == count(added) as u64
}

/// Whether these are just the entries that the actions up to this one added. None is removed.
pub fn are_those_by(entries: &[Entry], added: &[Option<Addition>], by: u64) -> bool {
    are_of(entries, added, by, by, true)
}

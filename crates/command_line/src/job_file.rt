//! Job files.

ghost use Rattle.std.specs.Prelude.{◌≡◌, ◌+◌, ◌++◌, ◌∷◌, [], ℕ, Err, IfErr, IfOk, map, vec_len};
ghost use Rattle.command_line.specs.JobFiles.{HasJobValues, IsFirstNoJob, SpellJobs, all_bulk_words, bulk_words, job_words, line_job, set_words, sets_with, sets_after};
ghost use Rattle.text_forms.specs.Spelling.{lines_of};
ghost use Rattle.text_forms.specs.Values.{AreRows};

use crate::dead::{DeadList, listed};
use crate::job_line::{JobLine, parse_job};
use shared_world::Job;
use std::alloc::Global;
use text_forms::{Rows, first_line};

/// The jobs of a job file, in their order, and the sets of dead rows that its bulk deletes name by their
/// places.
#[derive(Drop)]
pub struct JobFile {
    pub jobs: Vec<Job>,
    pub sets: Vec<DeadList>,
}

/// Why a job file couldn't be read.
#[derive(Clone, Copy, Debug, PartialEq, Eq)]
pub enum JobFileError {
    /// The line of this number, counted from 1, is the first that is no job.
    NotAJob(u64),
    /// Memory was refused, or there are more than 2^32 - 1 bulk deletes.
    NoMemory,
}

/// Reads the lines of a job file, each of which is a job. Refused with `NotAJob` at the first that isn't,
/// with `NoMemory` if memory is refused.
pub fn read_jobs(alloc: Global, text: &[u8]) -> Result<JobFile, JobFileError>
    ensures jobs { IfOk result (λ file. SpellJobs 0 (lines_of text.now) file.jobs.items) }
    ensures sets { IfOk result (λ file. vec_len file.sets ≡ sets_after 0 file.jobs.items) }
    ensures sets_are { IfOk result (λ file.
        map set_words file.sets.items ≡ all_bulk_words (lines_of text.now)) }
    ensures not_a_job { (n : ℕ) → result ≡ Err (JobFileError.NotAJob n)
        → IsFirstNoJob n (lines_of text.now) }
{
    let mut jobs = Vec::new(alloc);
    let mut sets = Vec::new(alloc);
    let mut set = 0u32;
    let mut rest = text;
    while !rest.is_empty() {
        let (line, later) = first_line(rest);
        rest = later;
        let Some(line) = parse_job(line) else {
            return Err(JobFileError::NotAJob(jobs.len() as u64 + 1));
        };
        let job = job_of(&line, set);
        let Ok(()) = jobs.push(job) else {
            return Err(JobFileError::NoMemory);
        };
        set = add_set(alloc, &mut sets, line, set)?;
    }
    Ok(JobFile { jobs, sets })
}

// Puts the set of a bulk delete after the others, `count` of them, and answers how many there are now. Other
// lines have none.
fn add_set(
    alloc: Global,
    sets: &mut Vec<DeadList>,
    line: JobLine<'_>,
    count: u32,
) -> Result<u32, JobFileError>
    ensures count { IfOk result (λ now. now ≡ sets_with count (line_job count line.entry)) }
    ensures sets { vec_len sets.old ≡ count → IfOk result (λ now. vec_len sets.new ≡ now) }
    ensures sets_are { HasJobValues line.entry → IfOk result (λ now. map set_words sets.new.items
        ≡ map set_words sets.old.items ++ bulk_words (job_words line.entry)) }
    ensures refused { IfErr result (λ error. error ≡ JobFileError.NoMemory) }
{
    match line {
        JobLine::Bulk(rows) => push_set(alloc, sets, rows, count),
        JobLine::Insert(_) => Ok(count),
        JobLine::Scan(_, _) => Ok(count),
        JobLine::Cleanup => Ok(count),
        JobLine::Commit => Ok(count),
        JobLine::Checkpoint => Ok(count),
    }
}

fn push_set(
    alloc: Global,
    sets: &mut Vec<DeadList>,
    rows: Rows<'_>,
    count: u32,
) -> Result<u32, JobFileError>
    ensures count { IfOk result (λ now. now ≡ count + 1) }
    ensures sets { IfOk result (λ now. vec_len sets.new ≡ vec_len sets.old + 1) }
    ensures sets_are { AreRows rows.entry → IfOk result (λ now.
        map set_words sets.new.items ≡ map set_words sets.old.items ++ rows.entry ∷ []) }
    ensures refused { IfErr result (λ error. error ≡ JobFileError.NoMemory) }
{
    let Ok(set) = listed(alloc, rows) else {
        return Err(JobFileError::NoMemory);
    };
    let Some(now) = count.checked_add(1) else {
        return Err(JobFileError::NoMemory);
    };
    if sets.push(set).is_err() {
        return Err(JobFileError::NoMemory);
    }
    Ok(now)
}

// The job that a line is; a bulk delete's set has this place among the sets.
fn job_of(line: &JobLine<'_>, set: u32) -> Job
    ensures { result ≡ line_job set line.now }
{
    match line {
        JobLine::Insert(entry) => Job::Insert(*entry),
        JobLine::Scan(range, room) => Job::Scan {
            range: *range,
            room: *room,
        },
        JobLine::Bulk(_) => Job::Bulk(set),
        JobLine::Cleanup => Job::Cleanup,
        JobLine::Commit => Job::Commit,
        JobLine::Checkpoint => Job::Checkpoint,
    }
}

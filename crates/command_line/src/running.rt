//! The command that runs the jobs of a file over the index in another.

ghost use Rattle.std.specs.Prelude.{◌≡◌, ◌++◌, Ok, IfErr, IfOk, OnErr, OnOk, IsSome, IfSome, IfNone};
ghost use Rattle.std.specs.Io.KnownBytes.{Appends};
ghost use Rattle.sessions.specs.Finishing.{RunIsRefusedFor};
ghost use Rattle.command_line.specs.Listing.{IsDoneOrRefused};
ghost use Rattle.command_line.specs.Receipts.{run_text};
ghost use Rattle.command_line.specs.Running.{IsRunEnd, PrintsDone, PrintsRun, end_after, last_text};
ghost use Rattle.command_line.specs.RunRefusals.{IsRunOfJobFileRefused, IsRunOfTextRefused, IsRunOnFileRefused, IsWorldOpeningRefused};
ghost use Rattle.command_line.specs.RunningFiles.{IsWorldOfFile, PrintsRunOnFile, PrintsRunOfText, PrintsRunOfJobFile};

use crate::dead::DeadList;
use crate::end::End;
use crate::job_file::{JobFile, JobFileError, read_jobs};
use crate::progress_line::{JobGate, ProgressLine};
use crate::receipts::print_run;
use crate::refusal::print_no_job;
use crate::said::{Said, said_of};
use device::{Device, FileDevice, Start};
use index_model::{DeadRows, Fault, Progress};
use page_action::PageStore;
use page_store::Store;
use schedule::Event;
use session_calls::Answer;
use sessions::{Finished, Gate, NotRun, Receipt, run_jobs};
use shared_world::{Job, Record};
use std::alloc::Global;
use std::fs::File;
use std::io::{self, Read, Write};
use std::rt::Files;
use std::sync::Wait;
use std::thread::Threads;
use text_forms::print_answer;
use world::{World, WorldNotOpened};

/// What a run is asked for.
#[derive(Clone, Copy)]
pub struct RunSetting<'a> {
    /// The file of the index, and that of the jobs.
    pub path: &'a str,
    pub jobs: &'a str,
    /// Threads, each with a session: 1 to 64.
    pub workers: u32,
    /// Pages that are held in memory: 16 to 1,024.
    pub frames: u32,
    /// Whether to tell how far it is.
    pub progress: bool,
}

/// What a run of the jobs of a file leaves: the world after it, if it was made. Else the device, if the file
/// of the index was taken. What the system said of the last call that failed, if one did. And how the command
/// ends.
#[derive(Drop)]
pub struct RanFile<'a, D, S, T> {
    pub world: Option<World<S, T>>,
    pub device: Option<D>,
    pub said: Option<Said<'a>>,
    pub end: io::Result<End>,
}

/// Runs the jobs of a file: reads them, opens the index with a session for each worker, runs them, makes a
/// checkpoint, and prints the record of each job, what each worker did, and the checkpoint's answer.
///
/// A line that is no job is said on `err`, and nothing is run. Refused with `Io` (2) if a file isn't there or
/// a call of it fails, with `NoMemory` (1), and as `World::open` is. Refused with `BadLimits` (18) for more
/// than 65,536 jobs, or for more than 1,048,576 entries that scans may give in all. A refusal of the
/// checkpoint comes after what is printed of the jobs.
pub fn run<
    'a,
    R: Files<File = File> + Threads + Wait + Sync,
    S: Start + Send,
    W: Write,
    E: Write + Send,
>(
    rt: &R,
    alloc: Global,
    asked: &RunSetting<'a>,
    out: &mut W,
    err: &mut E,
) -> RanFile<'a, FileDevice<S>, Store<FileDevice<S>>, DeadList>
    ensures ends { IfOk result.end IsRunEnd }
    ensures run { result.end ≡ Ok End.Done → IsSome result.world }
    ensures silent { IfNone result.world (W.contents out.new ≡ W.contents out.old) }
    // What was printed is a run, on the index in the file, of the jobs that the lines of a text spell.
    ensures printed { IfSome result.world (λ after. IfOk result.end
        (PrintsRunOfJobFile ⟦<FileDevice<S> as Device>⟧ ⟦<Store<FileDevice<S>> as PageStore>⟧
        ⟦<DeadList as DeadRows>⟧ S.Start.bytes asked.now.frames asked.now.workers after
        (W.contents out.old) (W.contents out.new))) }
    // A sound index isn't refused as damaged.
    ensures refused { (fault : Fault) → result.end ≡ Ok (End.Refused fault) → IfNone result.world
        (IsRunOfJobFileRefused ⟦<FileDevice<S> as Device>⟧ ⟦<Store<FileDevice<S>> as PageStore>⟧
        ⟦<DeadList as DeadRows>⟧ S.Start.bytes asked.now.frames asked.now.workers fault
        result.device) }
{
    match read_file(rt, alloc, asked.jobs) {
        Ok(text) => run_text::<R, S, W, E>(rt, alloc, asked, text.as_slice(), out, err),
        Err(error) => {
            let said = Said {
                path: asked.jobs,
                error,
            };
            no_run(None, Some(said), Err(error))
        }
    }
}

// All bytes of a file.
fn read_file<R: Files<File = File>>(rt: &R, alloc: Global, path: &str) -> io::Result<Vec<u8>> {
    let mut file = File::open(rt, path)?;
    let mut text = Vec::new(alloc);
    file.read_to_end(&mut text)?;
    Ok(text)
}

// Runs the jobs that the lines of this text spell.
fn run_text<
    'a,
    R: Files<File = File> + Threads + Wait + Sync,
    S: Start + Send,
    W: Write,
    E: Write + Send,
>(
    rt: &R,
    alloc: Global,
    asked: &RunSetting<'a>,
    text: &[u8],
    out: &mut W,
    err: &mut E,
) -> RanFile<'a, FileDevice<S>, Store<FileDevice<S>>, DeadList>
    ensures ends { IfOk result.end IsRunEnd }
    ensures run { result.end ≡ Ok End.Done → IsSome result.world }
    ensures silent { IfNone result.world (W.contents out.new ≡ W.contents out.old) }
    ensures printed { IfSome result.world (λ after. IfOk result.end
        (PrintsRunOfText ⟦<FileDevice<S> as Device>⟧ ⟦<Store<FileDevice<S>> as PageStore>⟧
        ⟦<DeadList as DeadRows>⟧ S.Start.bytes asked.now.frames asked.now.workers text.now after
        (W.contents out.old) (W.contents out.new))) }
    ensures refused { (fault : Fault) → result.end ≡ Ok (End.Refused fault) → IfNone result.world
        (IsRunOfTextRefused ⟦<FileDevice<S> as Device>⟧ ⟦<Store<FileDevice<S>> as PageStore>⟧
        ⟦<DeadList as DeadRows>⟧ S.Start.bytes asked.now.frames asked.now.workers text.now fault
        result.device) }
{
    match read_jobs(alloc, text) {
        Ok(file) => run_file::<R, S, W, E>(rt, alloc, asked, file, out, err),
        Err(JobFileError::NotAJob(line)) => no_run(None, None, say_no_job(err, line)),
        Err(JobFileError::NoMemory) => no_run(None, None, Ok(End::Refused(Fault::NoMemory))),
    }
}

fn say_no_job<E: Write>(err: &mut E, line: u64) -> io::Result<End>
    ensures { IfOk result (λ end. end ≡ End.AlreadyPrinted) }
{
    print_no_job(err, line)?;
    Ok(End::AlreadyPrinted)
}

// No run was made.
fn no_run<'a, D, S, T>(
    device: Option<D>,
    said: Option<Said<'a>>,
    end: io::Result<End>,
) -> RanFile<'a, D, S, T>
    ensures world { result.world ≡ None }
    ensures device { result.device ≡ device }
    ensures end { result.end ≡ end }
{
    RanFile {
        world: None,
        device,
        said,
        end,
    }
}

// Runs the jobs of a file that was read, over an index in a file that held what `S` says.
fn run_file<
    'a,
    R: Files<File = File> + Threads + Wait + Sync,
    S: Start + Send,
    W: Write,
    E: Write + Send,
>(
    rt: &R,
    alloc: Global,
    asked: &RunSetting<'a>,
    file: JobFile,
    out: &mut W,
    err: &mut E,
) -> RanFile<'a, FileDevice<S>, Store<FileDevice<S>>, DeadList>
    ensures ends { IfOk result.end IsDoneOrRefused }
    ensures run { result.end ≡ Ok End.Done → IsSome result.world }
    ensures silent { IfNone result.world (W.contents out.new ≡ W.contents out.old) }
    ensures printed { IfSome result.world (λ after. IfOk result.end
        (PrintsRunOnFile ⟦<FileDevice<S> as Device>⟧ ⟦<Store<FileDevice<S>> as PageStore>⟧
        ⟦<DeadList as DeadRows>⟧ S.Start.bytes asked.now.frames asked.now.workers
        file.jobs.items file.sets.items after (W.contents out.old) (W.contents out.new))) }
    ensures refused { (fault : Fault) → result.end ≡ Ok (End.Refused fault) → IfNone result.world
        (IsRunOnFileRefused ⟦<FileDevice<S> as Device>⟧ ⟦<Store<FileDevice<S>> as PageStore>⟧
        ⟦<DeadList as DeadRows>⟧ S.Start.bytes asked.now.frames asked.now.workers
        file.jobs.items file.sets.items fault result.device) }
{
    let JobFile { jobs, sets } = file;
    let world = match open_world::<R, S>(rt, alloc, asked, sets) {
        Ok(world) => world,
        Err(
            Unopened {
                fault,
                said,
                device,
            },
        ) => return no_run(device, said, Ok(End::Refused(fault))),
    };
    let line = ProgressLine::new(err, "jobs", asked.progress);
    let gate = JobGate {
        progress: &line,
        all: jobs.len() as u64,
    };
    match run_world(rt, alloc, world, jobs.as_slice(), asked.workers, &gate, out) {
        Ok(Ran { world, end }) => {
            line.end();
            let said = said_of(asked.path, world.error());
            RanFile {
                world: Some(world),
                device: None,
                said,
                end,
            }
        }
        Err(NotRun { fault, world }) => {
            no_run(Some(world.into_device()), None, Ok(End::Refused(fault)))
        }
    }
}

// Opens the index in a file with a session for each worker, after any crash. Refused with `Io` (2) if the
// file isn't there or can't be opened for writing, and else as `World::open` is, with the device.
fn open_world<'a, R: Files<File = File>, S: Start>(
    rt: &R,
    alloc: Global,
    asked: &RunSetting<'a>,
    sets: Vec<DeadList>,
) -> Result<World<Store<FileDevice<S>>, DeadList>, Unopened<'a, FileDevice<S>>>
    ensures opened { IfOk result
        (IsWorldOfFile ⟦<FileDevice<S> as Device>⟧ ⟦<Store<FileDevice<S>> as PageStore>⟧
        ⟦<DeadList as DeadRows>⟧ S.Start.bytes asked.now.frames asked.now.workers sets.items) }
    ensures refused { IfErr result (λ unopened.
        IsWorldOpeningRefused ⟦<FileDevice<S> as Device>⟧ S.Start.bytes asked.now.frames
        asked.now.workers unopened.fault unopened.device) }
{
    let device = match FileDevice::<S>::open(rt, asked.path) {
        Ok(device) => device,
        Err(error) => return Err(Unopened {
            fault: Fault::Io,
            said: said_of(asked.path, Some(error)),
            device: None,
        }),
    };
    match World::open(alloc, device, asked.frames, asked.workers, sets) {
        Ok(world) => Ok(world),
        Err(WorldNotOpened { fault, device, .. }) => Err(Unopened {
            fault,
            said: said_of(asked.path, device.error()),
            device: Some(device),
        }),
    }
}

// Why a world wasn't opened, what the system said, and the device as the opening left it, if the file was
// taken.
#[derive(Drop)]
struct Unopened<'a, D> {
    fault: Fault,
    said: Option<Said<'a>>,
    device: Option<D>,
}

/// What a run of jobs leaves: the world, and how the command ends.
#[derive(Drop)]
pub struct Ran<S, T> {
    pub world: World<S, T>,
    pub end: io::Result<End>,
}

/// Runs these jobs on the world, as `run_jobs` does, whose gate is told of each, makes a checkpoint, and
/// prints the record of each job, what each worker did, and the checkpoint's answer. It ends with the refusal
/// of the checkpoint, if that is refused: it comes after what is printed of the jobs. Waits for the workers.
///
/// Refused as `run_jobs` is, with the world as it was: nothing is run or printed then.
pub fn run_world<
    S: PageStore + Drop + Send,
    T: DeadRows + Drop + Send,
    R: Threads + Wait + Sync,
    G: Gate + Sync,
    W: Write,
>(
    rt: &R,
    alloc: Global,
    world: World<S, T>,
    jobs: &[Job],
    workers: u32,
    gate: &G,
    out: &mut W,
) -> Result<Ran<S, T>, NotRun<S, T>>
    ensures given_back { IfErr result (λ not_run. not_run.world ≡ world) }
    ensures refused { IfErr result (λ not_run.
        RunIsRefusedFor not_run.fault world.calls.slots.items jobs.now workers) }
    ensures silent { OnErr result (W.contents out.new ≡ W.contents out.old) }
    ensures ends { IfOk result (λ ran. IfOk ran.end IsDoneOrRefused) }
    ensures printed { IfOk result (λ ran. IfOk ran.end
        (PrintsRun S.PageStore T.DeadRows jobs.now workers world ran.world
        (W.contents out.old) (W.contents out.new))) }
{
    match run_jobs(rt, alloc, world, jobs, workers, gate) {
        Ok(finished) => Ok(finish(finished, out)),
        Err(not_run) => Err(not_run),
    }
}

// Makes a checkpoint, and prints what was done.
fn finish<S: PageStore, T: DeadRows + Drop, W: Write>(
    finished: Finished<S, T>,
    out: &mut W,
) -> Ran<S, T>
    ensures ends { IfOk result.end IsDoneOrRefused }
    ensures printed { IfOk result.end (PrintsDone S.PageStore T.DeadRows finished result.world
        (W.contents out.old) (W.contents out.new)) }
{
    let Finished {
        mut world,
        start: _,
        history,
        receipts,
        calls,
    } = finished;
    let answer = world.one(Event::Checkpoint);
    let end = print_done(
        out,
        history.as_slice(),
        receipts.as_slice(),
        calls.as_slice(),
        &answer,
    );
    Ran { world, end }
}

// Prints what was done, and what the checkpoint after it answered, if it wasn't refused.
fn print_done<W: Write>(
    out: &mut W,
    history: &[Record],
    receipts: &[Receipt],
    calls: &[u64],
    answer: &Answer,
) -> io::Result<End>
    ensures ends { IfOk result IsDoneOrRefused }
    ensures end { IfOk result (λ end. end ≡ end_after answer.now) }
    ensures printed { OnOk result (Appends (W.contents out.old) (W.contents out.new)
        (run_text history.now receipts.now calls.now ++ last_text answer.now)) }
{
    print_run(out, history, receipts, calls)?;
    match answer {
        Answer::Refused(fault) => Ok(End::Refused(*fault)),
        _ => {
            print_answer(out, answer)?;
            Ok(End::Done)
        }
    }
}

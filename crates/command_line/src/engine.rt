//! The index that a script is run over: a device in memory, and the sessions of a world.

ghost use Rattle.std.specs.Prelude.{◌≡◌, ◌≢◌, ◌↔◌, ◌∷◌, [], Bool, IsTrue, List, length, IfErr, IfOk, OnOk, OnErr, MatchResult};
ghost use Rattle.device.specs.Memory.{trace_of, plan_of, left_by};
ghost use Rattle.device.specs.Plans.{failing_at, stopping_at};
ghost use Rattle.index_model.specs.Actions.{Action};
ghost use Rattle.index_model.specs.Calls.{Call};
ghost use Rattle.index_model.specs.declared.entry.Entry.{Entry as IndexEntry};
ghost use Rattle.index_model.specs.Formats.{made};
ghost use Rattle.index_model.specs.declared.format.Format.{Format};
ghost use Rattle.page_codec.specs.declared.page.Page.{Page};
ghost use Rattle.page_store.specs.Logged.{backing_of};
ghost use Rattle.page_store.specs.Stores.{state_of, held_by, device_of};
ghost use Rattle.recovery.specs.Index.{HasIndex};
ghost use Rattle.recovery.specs.Opening.{IsNoMemoryOrIo};
ghost use Rattle.tree_acts.specs.TheoremKeys.{IsTreeFor};
ghost use Rattle.world.specs.Reopening.{BeginsWith, BeginsEmpty, BeginsAfterPrefix};
ghost use Rattle.world.specs.Worlds.{WorldFits, WorldKeeps, ForEachWorldHistory, WorldIsRun};
ghost use Rattle.command_line.specs.Settings.{IsInRange, IsNotMade, IsSetting};
ghost use Rattle.command_line.specs.Stepping.{IsSteppedInsert, IsStepped};

use crate::dead::DeadList;
use crate::stepping::{next_or_step, run_call, run_insert};
use device::{CrashImage, Device, MemDevice};
use index_model::{DeadRows, Entry, Fault, Limits, Range};
use page_action::PageStore;
use page_codec::{Page, needed_len};
use page_store::Store;
use recovery::create;
use schedule::Event;
use session_calls::Answer;
use std::alloc::Global;
use std::io;
use world::{World, new_indexes_are_trees};

/// The sizes that a script is run with.
#[derive(Clone, Copy)]
pub struct Setting {
    pub limits: Limits,
    /// Pages that are held in memory: 16 to 1,024.
    pub frames: u32,
    /// 1 to 64.
    pub sessions: u32,
}

impl Setting {
    /// Whether each size is in its range.
    pub fn is_valid(&self) -> bool
        ensures { IsTrue result ↔ IsInRange self.now }
    {
        self.limits.are_valid()
            && 16 <= self.frames
            && self.frames <= 1_024
            && 1 <= self.sessions
            && self.sessions <= 64
    }
}

/// Takes what an engine gives one after the other.
pub trait Sink {
    /// The next entry of a list.
    fn entry(&mut self, entry: &Entry) -> io::Result<()>;

    /// The next page of a dump.
    fn page(&mut self, page: &Page) -> io::Result<()>;
}

/// An index on a device in memory, and its sessions: as many pages are held in memory, and there are as many
/// sessions, as was asked for.
#[derive(Drop)]
pub struct Engine {
    alloc: Global,
    setting: Setting,
    world: World<Store<MemDevice>, DeadList>,
    ghost allowed: { IsSetting setting },
    ghost frames: { (state_of ⟦<MemDevice as Device>⟧ world.store).frames ≡ setting.frames },
    ghost sessions: { length world.calls.slots.items ≡ setting.sessions },
}

impl Engine {
    /// An empty index, made on a device in memory and opened, and the sets of dead rows that its events name
    /// by their places. Refused with `BadLimits` (18) for a size out of its range, with `NoMemory` (1), and
    /// with `Io` (2) if the device had no memory for a write.
    pub fn new(alloc: Global, setting: &Setting, sets: Vec<DeadList>) -> Result<Engine, Fault>
        ensures setting { IfOk result (λ engine. engine.setting ≡ setting.now) }
        ensures sets { IfOk result (λ engine. engine.world.sets ≡ sets) }
        ensures empty { IfOk result (λ engine.
            BeginsEmpty ⟦<MemDevice as Device>⟧ ⟦<Store<MemDevice> as PageStore>⟧
            ⟦<DeadList as DeadRows>⟧ (made setting.now.limits) engine.world) }
        ensures cause { IfErr result (IsNotMade setting.now) }
    {
        if !setting.is_valid() {
            return Err(Fault::BadLimits);
        }
        let mut device = MemDevice::new(alloc, needed_len(&setting.limits))?;
        create(&mut device, &setting.limits)?;
        new_indexes_are_trees();
        Ok(Engine {
            alloc,
            setting: *setting,
            world: opened(alloc, device, setting, sets)?,
        })
    }

    /// One event.
    pub fn one(&mut self, event: Event) -> Answer
        ensures setting { self.new.setting ≡ self.old.setting }
        ensures goes { ForEachWorldHistory ⟦<Store<MemDevice> as PageStore>⟧ ⟦<DeadList as DeadRows>⟧
            self.old.world self.new.world
            (WorldIsRun ⟦<Store<MemDevice> as PageStore>⟧ ⟦<DeadList as DeadRows>⟧
            self.old.world self.new.world event result) }
    {
        self.world.one(event)
    }

    /// Steps of a session's call until one doesn't answer `Going`, and that answer. No checkpoint is made for
    /// them.
    pub fn run(&mut self, session: u32) -> Answer
        ensures setting { self.new.setting ≡ self.old.setting }
        ensures goes { ForEachWorldHistory ⟦<Store<MemDevice> as PageStore>⟧ ⟦<DeadList as DeadRows>⟧
            self.old.world self.new.world
            (IsStepped ⟦<Store<MemDevice> as PageStore>⟧ ⟦<DeadList as DeadRows>⟧
            [] [] session result self.old.world self.new.world) }
        ensures over { result ≢ Answer.Going }
    {
        run_call(&mut self.world, session)
    }

    /// An insert, run until a step doesn't answer `Going`, and that answer.
    pub fn put(&mut self, session: u32, entry: &Entry) -> Answer
        ensures setting { self.new.setting ≡ self.old.setting }
        ensures goes { ForEachWorldHistory ⟦<Store<MemDevice> as PageStore>⟧ ⟦<DeadList as DeadRows>⟧
            self.old.world self.new.world
            (IsSteppedInsert ⟦<Store<MemDevice> as PageStore>⟧ ⟦<DeadList as DeadRows>⟧
            session entry.now result self.old.world self.new.world) }
        ensures over { result ≢ Answer.Going }
    {
        run_insert(&mut self.world, session, *entry)
    }

    /// A scan, run to its end: hands over each entry of the range in order, and answers their number. A scan
    /// that is refused on its way is given up.
    pub fn list<S: Sink>(
        &mut self,
        session: u32,
        range: &Range,
        sink: &mut S,
    ) -> io::Result<Result<u64, Fault>>
        ensures { self.new.setting ≡ self.old.setting }
    {
        if let Answer::Refused(fault) = self.world.one(Event::Scan(session, *range)) {
            return Ok(Err(fault));
        }
        let count = self.give_all(session, sink);
        self.world.abandon(session);
        count
    }

    /// Runs a session's scan to its end, handing over what it gives, and answers how many entries.
    fn give_all<S: Sink>(&mut self, session: u32, sink: &mut S) -> io::Result<Result<u64, Fault>>
        ensures { self.new.setting ≡ self.old.setting }
    {
        let mut count = 0u64;
        // Over a device that keeps its model this many events are never made.
        for _ in 0..u64::MAX {
            match next_or_step(&mut self.world, session) {
                Answer::Going | Answer::Ready(_) => {}
                Answer::Gave(Some(entry)) => {
                    sink.entry(&entry)?;
                    count = count.saturating_add(1);
                }
                Answer::Refused(fault) => return Ok(Err(fault)),
                _ => return Ok(Ok(count)),
            }
        }
        Ok(Err(Fault::PageDamaged(0)))
    }

    /// Hands over each used page, lowest block first.
    pub fn dump<S: Sink>(&mut self, sink: &mut S) -> io::Result<Result<(), Fault>>
        ensures { self.new.setting ≡ self.old.setting }
    {
        for block in 0..self.world.used() {
            match self.world.page(block) {
                Ok(page) => sink.page(&page)?,
                Err(fault) => return Ok(Err(fault)),
            }
        }
        Ok(Ok(()))
    }

    /// The nth device call from now on fails, once.
    pub fn fail_at(&mut self, n: u64)
        ensures setting { self.new.setting ≡ self.old.setting }
        ensures plan { plan_of (device_of ⟦<MemDevice as Device>⟧ self.new.world.store)
            ≡ failing_at n (plan_of (device_of ⟦<MemDevice as Device>⟧ self.old.world.store)) }
    {
        self.world.fail_at(n);
    }

    /// The nth device call from now on fails, and each later one.
    pub fn stop_at(&mut self, n: u64)
        ensures setting { self.new.setting ≡ self.old.setting }
        ensures plan { plan_of (device_of ⟦<MemDevice as Device>⟧ self.new.world.store)
            ≡ stopping_at n (plan_of (device_of ⟦<MemDevice as Device>⟧ self.old.world.store)) }
    {
        self.world.stop_at(n);
    }

    /// A crash, and the index opened again, with as many sessions, and with these sets of dead rows. Refused
    /// as `open` is, and with `NoMemory`; the index is as it was then.
    pub fn crash(&mut self, image: CrashImage, sets: Vec<DeadList>) -> Result<(), Fault>
        ensures setting { self.new.setting ≡ self.old.setting }
        ensures sets { OnOk result (self.new.world.sets ≡ sets) }
        // What is opened is the index that this image of the device holds.
        ensures image { OnOk result ((format : Format) (pages : List Page)
            → HasIndex format pages
            (left_by image (device_of ⟦<MemDevice as Device>⟧ self.old.world.store)) → IsTreeFor format pages
            → BeginsWith ⟦<MemDevice as Device>⟧ ⟦<Store<MemDevice> as PageStore>⟧
            ⟦<DeadList as DeadRows>⟧ format pages self.new.world) }
        ensures reopened { OnOk result ((start : IndexEntry → Bool) (history : List Action)
            (calls : List Call)
            → WorldFits ⟦<Store<MemDevice> as PageStore>⟧ ⟦<DeadList as DeadRows>⟧ self.old.world
            start history calls
            → WorldKeeps ⟦<Store<MemDevice> as PageStore>⟧ ⟦<DeadList as DeadRows>⟧ self.old.world
            start history calls
            → BeginsAfterPrefix ⟦<MemDevice as Device>⟧ ⟦<Store<MemDevice> as PageStore>⟧
            ⟦<DeadList as DeadRows>⟧
            (state_of ⟦<MemDevice as Device>⟧ self.old.world.store).format start history
            (backing_of (held_by ⟦<MemDevice as Device>⟧ self.old.world.store)).durable
            self.new.world) }
        ensures refused { OnErr result (self.new ≡ self.old) }
    {
        self.world.crash_law();
        let device = self.world.crash(self.alloc, image)?;
        self.world = opened(self.alloc, device, &self.setting, sets)?;
        Ok(())
    }
}

/// The index on a device, with no call running. Refused as `World::open` is.
fn opened(
    alloc: Global,
    device: MemDevice,
    setting: &Setting,
    sets: Vec<DeadList>,
) -> Result<World<Store<MemDevice>, DeadList>, Fault>
    ensures frames { IfOk result (λ world.
        (state_of ⟦<MemDevice as Device>⟧ world.store).frames ≡ setting.now.frames) }
    ensures sessions { IfOk result (λ world.
        length world.calls.slots.items ≡ setting.now.sessions) }
    ensures sets { IfOk result (λ world. world.sets ≡ sets) }
    ensures begins { IsSetting setting.now → (format : Format) (pages : List Page)
        → HasIndex format pages (trace_of device).now.seen → IsTreeFor format pages
        → MatchResult result
        (BeginsWith ⟦<MemDevice as Device>⟧ ⟦<Store<MemDevice> as PageStore>⟧
        ⟦<DeadList as DeadRows>⟧ format pages) IsNoMemoryOrIo }
{
    match World::open(alloc, device, setting.frames, setting.sessions, sets) {
        Ok(world) => Ok(world),
        Err(not_opened) => Err(not_opened.fault),
    }
}

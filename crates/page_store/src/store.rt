//! The store: pages over a log and a device, and the calls that run over them.

ghost use Rattle.std.specs.Prelude.{◌≡◌, ◌≤◌, length};
ghost use Rattle.page_action.specs.Waiting.{AreWaiting};
ghost use Rattle.page_store.specs.Histories.{pages_now};

use crate::log_room::StoreRoom;
use crate::logged_pages::LoggedPages;
use arrayvec::ArrayVec;
use device::Device;
use index_model::{Fault, Format, Limits, Session};
use latch_table::Mode;
use page_action::{CallTable, PageStore};
use page_codec::Page;
use redo_log::{Advance, Log};
use std::io::Error;

/// The pages of an index over a device: a log makes acts durable, and a crash leaves the pages after some
/// prefix of the acts, with all that were durable. Memory holds at most as many of the pages in use as the
/// store has frames, and nothing allocates.
#[derive(Drop)]
pub struct Store<D: Device> {
    pub(crate) held: LoggedPages<D>,
    calls: CallTable,
    ghost counts: { length calls.counted ≡ length (pages_now held.history.value) },
    ghost waiting: { AreWaiting calls.waiting (pages_now held.history.value) calls.counted },
    ghost count_room: { held.format.pages ≤ length calls.waiting },
}

impl<D: Device> Store<D> {
    ghost use Rattle.std.specs.Prelude.{ℕ, suc, ◌<◌, ◌++◌, List, [], true, Err, All, IsSome, OnOk, OnErr, IfErr, map};
    ghost use Rattle.index_model.specs.Faults.{HasCause};
    ghost use Rattle.page_action.specs.Causes.{causes_of_forced};
    ghost use Rattle.page_action.specs.States.{Continues};
    ghost use Rattle.page_store.specs.StoreLaws.{follows_by};
    ghost use Rattle.buffer_pool.specs.Pools.{most_of, frame_of};
    ghost use Rattle.latch_table.specs.Holdings.{pinned_blocks};
    ghost use Rattle.page_action.specs.Stored.{AreActable};
    ghost use Rattle.device.specs.Disk.{MayCrashTo};
    ghost use Rattle.device.specs.Moments.{MayHaveCrashedTo};
    ghost use Rattle.redo_log.specs.Kept.{format_of, actions_of, waiting_count, groups_end, is_stopped};
    ghost use Rattle.page_action.specs.Room.{LogIsClosed};
    ghost use Rattle.page_store.specs.Logged.{Held, IsOwn, StandsOpened, backing_of};
    ghost use Rattle.page_store.specs.Histories.{pages_after};
    ghost use Rattle.page_store.specs.Following.{Follows};
    ghost use Rattle.page_codec.specs.Places.{place};
    ghost use Rattle.page_store.specs.Restart.{RestartsToPart};
    ghost use Rattle.page_store.specs.Quiet.{IsAdvanced, IsSameButWritten};
    ghost use Rattle.page_store.specs.Rooms.{format_of_room, frames_of_room, pages_of_room, counts_of_room};
    ghost use Rattle.page_store.specs.Stores.{state_of, held_by, device_of, store_history, opened_state, IsOwnStore};
    ghost use Rattle.page_store.specs.Taking.{GetFrames, TakingFails};
    ghost use Rattle.page_store.specs.Writing.{AreSeen};

    /// A store of the pages that were read from this device, whose log was just opened and closed.
    /// `last_cycle` is the last cycle number that was given.
    pub fn new(device: D, log: Log, room: StoreRoom, last_cycle: u32) -> Store<D>
        requires format { format_of log ≡ format_of_room room }
        requires fresh { actions_of log ≡ 0 }
        requires idle { waiting_count log ≡ 0 }
        requires sized { place (format_of_room room) (format_of_room room).pages
            ≤ length (D.trace device).now.seen }
        // The pages are those that stand on the device, if it kept its model.
        requires seen { D.is_honest device ≡ true
            → AreSeen (format_of_room room) (pages_of_room room) (D.trace device).now }
        ensures state { state_of D.Device result
            ≡ opened_state (format_of_room room) (frames_of_room room) (pages_of_room room)
            (counts_of_room room) last_cycle }
        ensures device { device_of D.Device result ≡ device }
        ensures durable { (backing_of (held_by D.Device result)).durable ≡ 0 }
        ensures stopped { (backing_of (held_by D.Device result)).stopped ≡ is_stopped log }
        ensures room { groups_end log ≡ 0
            → LogIsClosed (format_of_room room) (backing_of (held_by D.Device result)) }
        ensures own { StandsOpened log (D.trace device).now (pages_of_room room)
            → IsOwnStore D.Device result }
    {
        Store {
            held: LoggedPages::new(
                room.format,
                device,
                log,
                room.pool,
                room.used,
                room.history,
                room.decoded,
            ),
            calls: CallTable::new(room.numbers, room.calls, last_cycle),
        }
    }

    /// Does the next part of a force, except for its last sync: it writes what waits in the log, or it syncs
    /// that and opens its gate. A sync of the device between two parts makes the next one's fast, and that of
    /// the force at their end. If an act comes between, what waits is written again. Refused with `Io` (2)
    /// and `Stopped` (3): the log is stopped then.
    pub fn advance(&mut self) -> Result<Advance, Fault>
        ensures steps { Continues (follows_by D.Device) self.old self.new }
        ensures state { state_of D.Device self.new ≡ state_of D.Device self.old }
        ensures kept { IsAdvanced (backing_of (held_by D.Device self.old))
            (backing_of (held_by D.Device self.new)) }
        ensures stopped { is_stopped self.old.held.log ≡ true → result ≡ Err Fault.Stopped }
        ensures failed { OnErr result (is_stopped self.new.held.log ≡ true) }
        ensures cause { IfErr result (HasCause (causes_of_forced
            (backing_of (held_by D.Device self.old)) (backing_of (held_by D.Device self.new)))) }
    {
        self.held.advance()
    }

    /// What the operating system said of the last device call that failed, if the device is one of an
    /// operating system. No clause speaks of it.
    pub fn error(&self) -> Option<Error> {
        self.held.device.error()
    }

    /// The device below.
    pub fn into_device(self) -> D
        ensures { result ≡ device_of D.Device self }
    {
        self.held.device
    }

    /// Does nothing: its clause says what a crash may have left since the store was as `first`, over a device
    /// of its own, and what its pages were then.
    pub fn crash_law(&self)
        ensures restarts { (first : Held) (image : List ℕ) → IsOwn first
            → Follows first (held_by D.Device self.now)
            → MayHaveCrashedTo first.trace (held_by D.Device self.now).trace image
            → RestartsToPart (state_of D.Device self.now).format
            (store_history D.Device self.now) first.durable image }
        ensures pages { (first : Held) → IsOwn first → Follows first (held_by D.Device self.now)
            → pages_now first.history ≡ pages_after (store_history D.Device self.now) first.acts }
        ensures own { (first : Held) → IsOwn first → Follows first (held_by D.Device self.now)
            → IsOwnStore D.Device self.now }
        ensures now { (image : List ℕ) → MayCrashTo (held_by D.Device self.now).trace.now image
            → MayHaveCrashedTo (held_by D.Device self.now).trace
            (held_by D.Device self.now).trace image }
    {}

    // Takes a frame for each of the pages, if not all are in memory. Refused with `NoFrame`, `Io` and
    // `Stopped`.
    fn take_frames(&mut self, pages: &[Page]) -> Result<(), Fault>
        requires few { length pages.now ≤ 4 }
        requires actable { AreActable self.old.held.format
            (length (pages_now self.old.held.history.value)) pages.now }
        ensures quiet { IsSameButWritten D.Device self.old.held self.new.held }
        ensures frames { GetFrames D.Device
            (map (λ page. page.block) pages.now ++ pinned_blocks self.old.calls.table)
            (map (λ page. page.block) pages.now) self.old.held self.new.held }
        ensures calls { self.new.calls ≡ self.old.calls }
        ensures most { most_of self.new.held.pool ≡ most_of self.old.held.pool }
        ensures has { OnOk result
            (All (λ page. IsSome (frame_of self.new.held.pool page.block)) pages.now) }
        ensures alive { OnOk result
            (is_stopped self.new.held.log ≡ true → is_stopped self.old.held.log ≡ true) }
        ensures cause { IfErr result (TakingFails self.old.held.pool
            (map (λ page. page.block) pages.now ++ pinned_blocks self.old.calls.table)
            (is_stopped self.old.held.log)
            (D.failures self.old.held.device) (D.failures self.new.held.device)) }
    {
        if self.held.holds_all(pages) {
            return Ok(());
        }
        let pinned = with_blocks(pages, &self.calls.pinned());
        self.held.take_frames(pages, pinned.as_slice())
    }
}

ghost use Rattle.std.specs.Prelude.{◌++◌, map};

/// The blocks of these pages, and the pinned ones after them.
fn with_blocks(pages: &[Page], pinned: &ArrayVec<u32, 128>) -> ArrayVec<u32, 132>
    requires { length pages.now ≤ 4 }
    ensures { result.items ≡ map (λ page. page.block) pages.now ++ pinned.now.items }
{
    let mut blocks = ArrayVec::new();
    for page in pages {
        blocks.push(page.block);
    }
    let _ = blocks.try_extend_from_slice(pinned.as_slice());
    blocks
}

impl<D: Device> PageStore for Store<D> {
    ghost use Rattle.std.specs.Prelude.{◌<◌, true, IsSome};
    ghost use Rattle.buffer_pool.specs.Pools.{frame_of};
    ghost use Rattle.page_store.specs.Logged.{backing_of, memory_in};
    ghost use Rattle.page_store.specs.Stores.{state_of, held_by, IsOwnStore};
    ghost use Rattle.page_store.specs.StoreLaws.{follows_by, past_of, leaves_by, restarts_by, store_laws};

    ghost state = { λ s. state_of D.Device s };

    ghost backing = { λ s. backing_of (held_by D.Device s) };

    ghost memory = { λ s. memory_in s.held.pool };

    ghost follows = { follows_by D.Device };

    ghost own = { λ s. IsOwnStore D.Device s };

    ghost past = { past_of D.Device };

    ghost leaves = { leaves_by D.Device };

    ghost restarts = { restarts_by D.Device };

    ghost defers = { true };

    ghost has = { λ s block. (block < length (pages_now s.held.history.value))
        × IsSome (frame_of s.held.pool block) };

    ghost laws = { store_laws _ };

    fn fetch(&mut self, block: u32) -> Result<(), Fault> {
        if block >= self.held.used {
            return Err(Fault::PageDamaged(block));
        }
        if self.held.note_use(block) {
            return Ok(());
        }
        let pinned = self.calls.pinned();
        self.held.fetch(block, pinned.as_slice())
    }

    fn view(&self, block: u32) -> &Page {
        self.held.page(block)
    }

    fn act(&mut self, pages: &[Page]) -> Result<u64, Fault> {
        if self.is_stopped() {
            return Err(Fault::Stopped);
        }
        if let Err(fault) = self.take_frames(pages) {
            return Err(fault);
        }
        let number = self.held.act(pages)?;
        self.calls.note(self.held.format, pages);
        Ok(number)
    }

    fn fresh(&self) -> Result<u32, Fault> {
        self.calls.fresh(self.held.used, self.held.format)
    }

    fn ask(&self, session: Session, block: u32, mode: Mode) -> Result<(), Fault> {
        self.calls.ask(session, block, mode)
    }

    fn latch(&mut self, session: Session, block: u32, mode: Mode) -> Result<(), Fault> {
        self.calls.latch(session, block, mode)
    }

    fn release(&mut self, session: Session, block: u32) {
        self.calls.release(session, block);
    }

    fn pin(&mut self, session: Session, block: u32) {
        self.calls.pin(session, block);
    }

    fn unpin(&mut self, session: Session, block: u32) {
        self.calls.unpin(session, block);
    }

    fn begin(&mut self, session: Session) -> Result<u64, Fault> {
        if self.held.log.is_stopped() {
            return Err(Fault::Stopped);
        }
        self.calls.begin(session)
    }

    fn end(&mut self, session: Session) {
        self.calls.end(session);
    }

    fn begun(&self) -> u64 {
        self.calls.begun()
    }

    fn acts(&self) -> u64 {
        self.held.acts
    }

    fn durable(&self) -> u64 {
        self.held.durable
    }

    fn force(&mut self) -> Result<u64, Fault> {
        self.held.force()
    }

    fn checkpoint(&mut self) -> Result<u64, Fault> {
        self.held.checkpoint()
    }

    fn flush(&mut self) -> Result<Option<u32>, Fault> {
        self.held.flush()
    }

    fn room(&self) -> u32 {
        self.held.room
    }

    fn is_stopped(&self) -> bool {
        self.held.log.is_stopped()
    }

    fn used(&self) -> u32 {
        self.held.used
    }

    fn format(&self) -> Format {
        self.held.format
    }

    fn limits(&self) -> Limits {
        self.held.format.limits()
    }

    fn free_for(&self, session: Session, block: u32) -> Option<bool> {
        self.calls.free_for(session, block)
    }

    fn cycle(&self) -> u32 {
        self.calls.cycle()
    }

    fn start_cycle(&mut self) {
        self.calls.start_cycle();
    }

    fn stop_cycle(&mut self) {
        self.calls.stop_cycle();
    }
}

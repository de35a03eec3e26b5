//! Pages over a log and a device, of which a pool holds some in memory.

ghost use Rattle.std.specs.Prelude.{◌≡◌, ◌≤◌, ◌<◌, ◌+◌, ◌*◌, suc, false, length};
ghost use Rattle.std.specs.Coded.{Coded-set};
ghost use Rattle.buffer_pool.specs.Pools.{reach_of};
ghost use Rattle.page_codec.specs.Places.{place};
ghost use Rattle.index_model.specs.Limits.{AreLimits};
ghost use Rattle.page_action.specs.Stored.{AreStored};
ghost use Rattle.page_action.specs.Props.{AreStored-prop};
ghost use Rattle.redo_log.specs.Kept.{format_of, is_stopped, actions_of, waiting_count, waiting_images, end_with};
ghost use Rattle.page_store.specs.Histories.{pages_now};
ghost use Rattle.page_store.specs.Holding.{HoldsPages-prop, HoldsWaiting-prop};
ghost use Rattle.page_store.specs.Writing.{HoldsPages, HoldsWaiting};

use crate::changing::{change_all, used_after};
use crate::history::History;
use buffer_pool::Pool;
use device::Device;
use index_model::{Fault, Format, Noted, reckon};
use page_codec::Page;
use redo_log::Log;

/// The pages in use, of which the pool holds some in memory; the log that makes their acts durable, and the
/// device below. The room for all was made with it.
#[derive(Drop)]
pub(crate) struct LoggedPages<D: Device> {
    pub(crate) format: Format,
    pub(crate) device: D,
    pub(crate) log: Log,
    pub(crate) pool: Pool,
    /// How many blocks are in use.
    pub(crate) used: u32,
    pub(crate) acts: u64,
    pub(crate) durable: u64,
    /// How many images one more act could hold.
    pub(crate) room: u32,
    /// The greatest room since the last act or checkpoint.
    pub(crate) promised: u32,
    pub(crate) history: Noted<History>,
    /// Where a page is decoded before a frame gets it. Between calls it has no meaning.
    pub(crate) decoded: Box<Page>,
    ghost allowed: { AreLimits format },
    ghost log_format: { format_of log ≡ format } by { Coded-set format-code (format_of log) format },
    ghost sized: { place format format.pages ≤ length (D.trace device).now.seen },
    ghost stored: { AreStored format 0 (pages_now history.value) } by { AreStored-prop format 0 (pages_now history.value) },
    ghost used_is: { used ≡ length (pages_now history.value) },
    ghost few: { used ≤ format.pages },
    ghost reach: { reach_of pool ≡ format.pages },
    ghost holds: { HoldsPages format (pages_now history.value) acts pool (D.is_honest device)
        (D.trace device).now } by { HoldsPages-prop format (pages_now history.value) acts pool (D.is_honest device)
            (D.trace device).now },
    ghost waits: { HoldsWaiting (waiting_images log) durable pool } by { HoldsWaiting-prop (waiting_images log) durable pool },
    ghost counted: { acts ≡ actions_of log },
    ghost not_ahead: { durable ≤ acts },
    ghost forced: { is_stopped log ≡ false → durable ≡ acts → waiting_count log ≡ 0 },
    ghost fits: { is_stopped log ≡ false → 0 < room → end_with log room ≤ format.log_bytes },
    ghost kept_promise: { promised ≤ suc room },
    ghost new_promise: { durable < acts → promised ≡ room },
    ghost promise: { room ≤ promised },
}

impl<D: Device> LoggedPages<D> {
    ghost use Rattle.std.specs.Prelude.{◌⊎◌, ◌^◌, ◌-◌, Err, Some, IfOk, IfErr, OnOk, OnErr, IsSome, is_some, ℕ, true, All, slice_get};
    ghost use Rattle.buffer_pool.specs.Pools.{pool_count, frame_of, held_page};
    ghost use Rattle.page_action.specs.Stored.{AreActable, IsStored};
    ghost use Rattle.page_action.specs.Order.{with_changed};
    ghost use Rattle.page_action.specs.Room.{LogIsClosed, HasNoRoomFor};
    ghost use Rattle.page_action.specs.States.{with_pages};
    ghost use Rattle.page_codec.specs.declared.page.Page.{Page};
    ghost use Rattle.redo_log.specs.Kept.{groups_end, waiting_blocks};
    ghost use Rattle.page_store.specs.Changing.{AreActed};
    ghost use Rattle.page_store.specs.Following.{Follows};
    ghost use Rattle.page_store.specs.Histories.{with_act};
    ghost use Rattle.page_store.specs.Logged.{held_of, backing_of, IsOwn, SamePages, SameRoom, StandsOpened};
    ghost use Rattle.page_store.specs.Writing.{AreSeen};

    /// The pages that `history` began with, over a device and a log that was just opened and closed. The pool
    /// holds none of them yet.
    pub fn new(
        format: Format,
        device: D,
        log: Log,
        pool: Pool,
        used: u32,
        history: Noted<History>,
        decoded: Box<Page>,
    ) -> LoggedPages<D>
        requires allowed { AreLimits format }
        requires log_format { format_of log ≡ format }
        requires fresh { actions_of log ≡ 0 }
        requires idle { waiting_count log ≡ 0 }
        requires sized { place format format.pages ≤ length (D.trace device).now.seen }
        requires stored { AreStored format 0 history.value.start }
        requires begun { length history.value.acts ≡ 0 }
        requires used { used ≡ length history.value.start }
        requires few { used ≤ format.pages }
        requires reach { reach_of pool ≡ format.pages }
        requires empty { pool_count pool ≡ 0 }
        requires seen { D.is_honest device ≡ true
            → AreSeen format history.value.start (D.trace device).now }
        ensures format { result.format ≡ format }
        ensures device { result.device ≡ device }
        ensures log { result.log ≡ log }
        ensures pool { result.pool ≡ pool }
        ensures used { result.used ≡ used }
        ensures history { result.history ≡ history }
        ensures acts { result.acts ≡ 0 }
        ensures durable { result.durable ≡ 0 }
        ensures own { StandsOpened log (D.trace device).now history.value.start
            → IsOwn (held_of D.Device result) }
        ensures closed { groups_end log ≡ 0
            → LogIsClosed format (backing_of (held_of D.Device result)) }
    {
        pool.law();
        let room = log.room();
        LoggedPages {
            format,
            device,
            log,
            pool,
            used,
            acts: 0,
            durable: 0,
            room,
            promised: room,
            history,
            decoded,
        }
    }

    /// Whether the page of this block is in memory.
    pub fn holds(&self, block: u32) -> bool
        ensures { result ≡ is_some (frame_of self.now.pool block) }
    {
        self.pool.find(block).is_some()
    }

    /// Whether the pages of these blocks are all in memory.
    pub fn holds_all(&self, pages: &[Page]) -> bool
        ensures { result ≡ true
            → All (λ page. IsSome (frame_of self.now.pool page.block)) pages.now }
    {
        for page in pages {
            if !self.holds(page.block) {
                return false;
            }
        }
        true
    }

    /// The page of this block, which is in memory.
    pub fn page(&self, block: u32) -> &Page
        requires used { block < self.now.used }
        requires has { IsSome (frame_of self.now.pool block) }
        ensures page { D.is_honest self.now.device ≡ true
            → slice_get (pages_now self.now.history.value) block ≡ Some result.now }
        ensures stored { IsStored self.now.format block result.now }
    {
        self.pool.law();
        match self.pool.find(block) {
            Some(at) => self.pool.page(at),
            None => unreachable!(),
        }
    }

    /// Changes these pages, each of which is in memory or has a frame there, at once, or none, and answers
    /// the number of the act. Refused with `Stopped` (3) and `LogFull` (9).
    pub fn act(&mut self, pages: &[Page]) -> Result<u64, Fault>
        requires some { 1 ≤ length pages.now }
        requires actable { AreActable self.old.format (length (pages_now self.old.history.value)) pages.now }
        requires held { All (λ page. IsSome (frame_of self.old.pool page.block)) pages.now }
        ensures steps { Follows (held_of D.Device self.old) (held_of D.Device self.new) }
        ensures format { self.new.format ≡ self.old.format }
        ensures history { OnOk result (self.new.history.value ≡ with_act pages.now self.old.history.value) }
        ensures pages { OnOk result (pages_now self.new.history.value
            ≡ with_pages (pages_now self.old.history.value) pages.now) }
        ensures number { IfOk result (λ n. n ≡ suc self.old.acts) }
        ensures acts { OnOk result (self.new.acts ≡ suc self.old.acts) }
        ensures pool { OnOk result (AreActed self.old.pool self.new.pool pages.now (suc self.old.acts)) }
        ensures room { OnOk result (self.old.room ≤ length pages.now + self.new.room) }
        ensures promised { OnOk result (self.new.promised ≡ self.new.room) }
        ensures durable { self.new.durable ≡ self.old.durable }
        ensures stopped { is_stopped self.new.log ≡ is_stopped self.old.log }
        ensures failures { D.failures self.new.device ≡ D.failures self.old.device }
        ensures honest { D.is_honest self.new.device ≡ D.is_honest self.old.device }
        ensures refused { OnErr result (SamePages D.Device self.old self.new) }
        ensures kept { OnErr result (SameRoom D.Device self.old self.new) }
        ensures frames { OnErr result (self.new.pool ≡ self.old.pool) }
        ensures waiting { OnOk result (waiting_blocks self.new.log
            ≡ with_changed (waiting_blocks self.old.log) pages.now) }
        ensures log { OnErr result (self.new.log ≡ self.old.log) }
        ensures full { result ≡ Err Fault.LogFull
            → HasNoRoomFor (backing_of (held_of D.Device self.old)) pages.now }
        ensures cause { IfErr result (λ e.
            ((e ≡ Fault.Stopped)
            × ((is_stopped self.old.log ≡ true) ⊎ (self.old.acts ≡ 2 ^ 64 - 1)))
            ⊎ ((e ≡ Fault.LogFull) × (self.old.room < length pages.now))) }
    {
        let number = self.log.append(pages)?;
        change_all(&mut self.pool, pages, number);
        self.used = used_after(self.used, pages);
        self.acts = number;
        self.room = self.log.room();
        self.promised = self.room;
        self.history = reckon(&(&self.history, pages));
        Ok(number)
    }
}

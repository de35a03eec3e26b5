//! Acts are made durable, and pages written to their places.

ghost use Rattle.std.specs.Prelude.{◌≡◌, ◌⊎◌, ◌<◌, ◌≤◌, Err, Some, IfOk, OnOk, OnErr, IfErr, ℕ, [], ◌∷◌, true, false, is_err, length, slice_get, drop};
ghost use Rattle.buffer_pool.specs.Pools.{act_of, changed_of, held_page, IsWritten, HasSamePages};
ghost use Rattle.device.specs.Disk.{CountsFailures};
ghost use Rattle.device.specs.Places.{Has, OnDisk, ChangesOnly};
ghost use Rattle.page_codec.specs.Places.{place};
ghost use Rattle.page_action.specs.Order.{IsRestOf};
ghost use Rattle.page_action.specs.Room.{LogIsClosed, WaitsOn};
ghost use Rattle.page_codec.specs.Spelling.{page_bytes};
ghost use Rattle.page_codec.specs.declared.page.Page.{Page};
ghost use Rattle.redo_log.specs.Kept.{IoOrStopped, is_stopped, waiting_count, waiting_blocks};
ghost use Rattle.page_store.specs.Following.{Follows};
ghost use Rattle.page_store.specs.Logged.{held_of, backing_of, SamePages, SameRoom, SameButDevice};
ghost use Rattle.page_store.specs.Quiet.{IsSameButWritten, IsUnforced};
ghost use Rattle.page_store.specs.Writing.{AreWrittenUpTo, IsAllFirm, IsClean};

use crate::laying::{advance, force};
use crate::logged_pages::LoggedPages;
use crate::writing::write_page;
use device::Device;
use index_model::Fault;
use redo_log::Advance;

impl<D: Device> LoggedPages<D> {
    /// Makes all acts durable. Refused with `Io` (2) and `Stopped` (3).
    pub fn force(&mut self) -> Result<u64, Fault>
        ensures steps { Follows (held_of D.Device self.old) (held_of D.Device self.new) }
        ensures pages { SamePages D.Device self.old self.new }
        ensures pool { self.new.pool ≡ self.old.pool }
        ensures number { IfOk result (λ n. n ≡ self.old.acts) }
        ensures durable { OnOk result (self.new.durable ≡ self.old.acts) }
        ensures alive { OnOk result (is_stopped self.old.log ≡ false) }
        ensures promised { self.new.promised ≡ self.old.promised }
        ensures idle { self.old.durable ≡ self.old.acts → self.new.room ≡ self.old.room }
        ensures waits { WaitsOn self.old.acts (backing_of (held_of D.Device self.old))
            (backing_of (held_of D.Device self.new)) }
        ensures none { OnOk result (waiting_blocks self.new.log ≡ []) }
        ensures stopped { is_stopped self.old.log ≡ true → result ≡ Err Fault.Stopped }
        ensures failed { is_stopped self.new.log ≡ is_err result }
        ensures honest { D.is_honest self.new.device ≡ D.is_honest self.old.device }
        ensures cause { IoOrStopped result (is_stopped self.old.log)
            (D.failures self.old.device) (D.failures self.new.device) }
    {
        if self.log.is_stopped() {
            return Err(Fault::Stopped);
        }
        if self.durable < self.acts {
            force(&mut self.log, &self.pool, &mut self.device)?;
            self.durable = self.acts;
            // A force never gives room.
            self.room = self.room.min(self.log.room());
        }
        Ok(self.acts)
    }

    /// Does the next part of a force, except for its last sync, as the log does. Refused with `Io` (2) and
    /// `Stopped` (3).
    pub fn advance(&mut self) -> Result<Advance, Fault>
        ensures steps { Follows (held_of D.Device self.old) (held_of D.Device self.new) }
        ensures pages { SamePages D.Device self.old self.new }
        ensures pool { self.new.pool ≡ self.old.pool }
        ensures durable { self.new.durable ≡ self.old.durable }
        ensures room { SameRoom D.Device self.old self.new }
        ensures waiting { waiting_blocks self.new.log ≡ waiting_blocks self.old.log }
        ensures stopped { is_stopped self.old.log ≡ true → result ≡ Err Fault.Stopped }
        ensures failed { is_stopped self.new.log ≡ is_err result }
        ensures honest { D.is_honest self.new.device ≡ D.is_honest self.old.device }
        ensures cause { IoOrStopped result (is_stopped self.old.log)
            (D.failures self.old.device) (D.failures self.new.device) }
    {
        if self.log.is_stopped() {
            return Err(Fault::Stopped);
        }
        advance(&mut self.log, &self.pool, &mut self.device)
    }

    // Writes the page of a block whose last act is durable to its place. Refused with `Io`.
    pub(crate) fn write_home(&mut self, block: u32) -> Result<(), Fault>
        requires alive { is_stopped self.old.log ≡ false }
        requires changed { 0 < act_of self.old.pool block }
        requires durable { act_of self.old.pool block ≤ self.old.durable }
        ensures steps { Follows (held_of D.Device self.old) (held_of D.Device self.new) }
        ensures same { SameButDevice D.Device self.old self.new }
        ensures written { OnOk result ((page : Page)
            → held_page self.old.pool block ≡ Some page
            → Has (place self.old.format block) (page_bytes page)
            (D.trace self.new.device).now.seen) }
        ensures only { ChangesOnly (place self.old.format block) 4096
            (D.trace self.old.device).now (D.trace self.new.device).now }
        ensures failures { CountsFailures result
            (D.failures self.old.device) (D.failures self.new.device) }
    {
        self.pool.law();
        match self.pool.find(block) {
            Some(at) => {
                let page = self.pool.page(at);
                write_page(&mut self.device, self.format, block, page)
            }
            None => Err(Fault::Io),
        }
    }

    // Makes the acts up to this one durable. Refused with `Io` and `Stopped`.
    fn make_durable(&mut self, act: u64) -> Result<(), Fault>
        requires done { act ≤ self.old.acts }
        ensures quiet { IsSameButWritten D.Device self.old self.new }
        ensures pool { self.new.pool ≡ self.old.pool }
        ensures durable { OnOk result (act ≤ self.new.durable) }
        ensures forced { act ≤ self.old.durable → IsUnforced D.Device self.old self.new }
        ensures alive { OnOk result (is_stopped self.new.log ≡ false) }
        ensures cause { IoOrStopped result (is_stopped self.old.log)
            (D.failures self.old.device) (D.failures self.new.device) }
    {
        if self.log.is_stopped() {
            return Err(Fault::Stopped);
        }
        if act <= self.durable {
            return Ok(());
        }
        match self.force() {
            Ok(_) => Ok(()),
            Err(fault) => Err(fault),
        }
    }

    /// Writes the changed page at this place of their order to its place, and makes its acts durable before.
    /// Refused with `Io` (2) and `Stopped` (3); the page is changed then as before, at its place of the
    /// order.
    pub(crate) fn write_changed(&mut self, place: usize, block: u32, act: u64) -> Result<(), Fault>
        requires at { slice_get (changed_of self.old.pool) place ≡ Some block }
        requires act { act ≡ act_of self.old.pool block }
        requires changed { 0 < act }
        ensures quiet { IsSameButWritten D.Device self.old self.new }
        ensures written { OnOk result (IsWritten self.old.pool self.new.pool place) }
        ensures refused { OnErr result (self.new.pool ≡ self.old.pool) }
        ensures forced { act ≤ self.old.durable → IsUnforced D.Device self.old self.new }
        ensures alive { OnOk result (is_stopped self.new.log ≡ false) }
        ensures cause { IoOrStopped result (is_stopped self.old.log)
            (D.failures self.old.device) (D.failures self.new.device) }
    {
        self.make_durable(act)?;
        self.write_home(block)?;
        self.note_written(place, block);
        Ok(())
    }

    // Notes that the page of this block, at this place of the order, stands at its place.
    pub(crate) fn note_written(&mut self, place: usize, block: u32)
        requires at { slice_get (changed_of self.old.pool) place ≡ Some block }
        requires durable { act_of self.old.pool block ≤ self.old.durable }
        requires home { (page : Page) → held_page self.old.pool block ≡ Some page
            → Has (Rattle.page_codec.specs.Places.place self.old.format block) (page_bytes page)
            (D.trace self.old.device).now.seen }
        ensures quiet { IsSameButWritten D.Device self.old self.new }
        ensures written { IsWritten self.old.pool self.new.pool place }
        ensures log { self.new.log ≡ self.old.log }
        ensures device { self.new.device ≡ self.old.device }
        ensures durable { self.new.durable ≡ self.old.durable }
        ensures room { self.new.room ≡ self.old.room }
    {
        self.pool.law();
        self.pool.note_written(place);
    }

    /// Writes the page whose first change since it was last written is the earliest to its place, and makes
    /// its acts durable before. None: no page is changed. Refused with `Io` (2) and `Stopped` (3); the page
    /// is changed then as before.
    pub fn flush(&mut self) -> Result<Option<u32>, Fault>
        ensures quiet { IsSameButWritten D.Device self.old self.new }
        ensures block { IfOk result (λ b. b ≡ slice_get (changed_of self.old.pool) 0) }
        ensures order { OnOk result (changed_of self.new.pool ≡ drop 1 (changed_of self.old.pool)) }
        ensures same { HasSamePages self.old.pool self.new.pool }
        ensures refused { OnErr result (self.new.pool ≡ self.old.pool) }
        ensures stopped { is_stopped self.old.log ≡ true → result ≡ Err Fault.Stopped }
        ensures cause { IoOrStopped result (is_stopped self.old.log)
            (D.failures self.old.device) (D.failures self.new.device) }
    {
        if self.log.is_stopped() {
            return Err(Fault::Stopped);
        }
        let Some((block, act)) = self.pool.oldest() else {
            return Ok(None);
        };
        self.write_changed(0, block, act)?;
        Ok(Some(block))
    }

    // Writes the changed pages to their places, in order, until one can't be written, and counts those that
    // were.
    fn write_pages(&mut self, written: &mut usize) -> Result<(), Fault>
        requires alive { is_stopped self.old.log ≡ false }
        requires durable { self.old.durable ≡ self.old.acts }
        requires none { written.old ≡ 0 }
        ensures steps { Follows (held_of D.Device self.old) (held_of D.Device self.new) }
        ensures same { SameButDevice D.Device self.old self.new }
        ensures few { written.new ≤ length (changed_of self.old.pool) }
        ensures all { OnOk result (written.new ≡ length (changed_of self.old.pool)) }
        ensures home { AreWrittenUpTo self.old.format self.old.pool written.new
            (D.trace self.new.device).now }
        ensures failures { CountsFailures result
            (D.failures self.old.device) (D.failures self.new.device) }
    {
        self.pool.law();
        let count = self.pool.changed();
        while *written < count {
            let Some((block, _)) = self.pool.changed_at(*written) else {
                return Ok(());
            };
            self.write_home(block)?;
            *written += 1;
        }
        Ok(())
    }

    // Notes that the first `count` changed pages stand at their places.
    fn note_first_written(&mut self, count: usize)
        requires few { count ≤ length (changed_of self.old.pool) }
        requires durable { self.old.durable ≡ self.old.acts }
        requires home { AreWrittenUpTo self.old.format self.old.pool count
            (D.trace self.old.device).now }
        ensures steps { Follows (held_of D.Device self.old) (held_of D.Device self.new) }
        ensures pages { SamePages D.Device self.old self.new }
        ensures same { HasSamePages self.old.pool self.new.pool }
        ensures room { SameRoom D.Device self.old self.new }
        ensures log { self.new.log ≡ self.old.log }
        ensures device { self.new.device ≡ self.old.device }
        ensures durable { self.new.durable ≡ self.old.durable }
        ensures clean { count ≡ length (changed_of self.old.pool) → IsClean self.new.pool }
        ensures order { changed_of self.new.pool ≡ drop count (changed_of self.old.pool) }
    {
        self.pool.law();
        self.pool.note_first_written(count);
    }

    // Syncs the device: what a read gives stands there after a crash too. Refused with `Io`.
    fn sync(&mut self) -> Result<(), Fault>
        requires alive { is_stopped self.old.log ≡ false }
        ensures steps { Follows (held_of D.Device self.old) (held_of D.Device self.new) }
        ensures same { SameButDevice D.Device self.old self.new }
        ensures firm { OnOk result (IsAllFirm (D.trace self.new.device).now) }
        ensures failures { CountsFailures result
            (D.failures self.old.device) (D.failures self.new.device) }
    {
        self.device.sync()
    }

    // Writes all changed pages to their places, in order, and syncs them. Those that were written are clean,
    // also if a later one can't be. Refused with `Io`.
    fn write_all(&mut self) -> Result<(), Fault>
        requires alive { is_stopped self.old.log ≡ false }
        requires durable { self.old.durable ≡ self.old.acts }
        ensures steps { Follows (held_of D.Device self.old) (held_of D.Device self.new) }
        ensures pages { SamePages D.Device self.old self.new }
        ensures same { HasSamePages self.old.pool self.new.pool }
        ensures room { SameRoom D.Device self.old self.new }
        ensures log { self.new.log ≡ self.old.log }
        ensures durable { self.new.durable ≡ self.old.durable }
        ensures clean { OnOk result (IsClean self.new.pool) }
        ensures rest { IsRestOf (changed_of self.new.pool) (changed_of self.old.pool) }
        ensures none { OnOk result (changed_of self.new.pool ≡ []) }
        ensures firm { OnOk result (IsAllFirm (D.trace self.new.device).now) }
        ensures failures { CountsFailures result
            (D.failures self.old.device) (D.failures self.new.device) }
    {
        let mut written = 0;
        let result = self.write_pages(&mut written);
        self.note_first_written(written);
        result?;
        self.sync()
    }

    // Closes the log, given that all pages stand at their places. Refused with `Io`.
    fn close(&mut self) -> Result<(), Fault>
        requires alive { is_stopped self.old.log ≡ false }
        requires all { self.old.durable ≡ self.old.acts }
        requires clean { IsClean self.old.pool }
        requires firm { IsAllFirm (D.trace self.old.device).now }
        ensures steps { Follows (held_of D.Device self.old) (held_of D.Device self.new) }
        ensures pages { SamePages D.Device self.old self.new }
        ensures pool { self.new.pool ≡ self.old.pool }
        ensures room { OnOk result
            (LogIsClosed self.old.format (backing_of (held_of D.Device self.new))) }
        ensures refused { OnErr result (SameRoom D.Device self.old self.new) }
        ensures durable { self.new.durable ≡ self.old.durable }
        ensures waiting { waiting_blocks self.new.log ≡ waiting_blocks self.old.log }
        ensures failed { is_stopped self.new.log ≡ is_err result }
        ensures failures { CountsFailures result
            (D.failures self.old.device) (D.failures self.new.device) }
    {
        self.log.reset(&mut self.device)?;
        self.room = self.log.room();
        self.promised = self.room;
        Ok(())
    }

    /// Makes all acts durable, writes each changed page to its place and closes the log. Refused with `Io`
    /// (2) and `Stopped` (3); if a page could not be written or synced, the log stays as it was.
    pub fn checkpoint(&mut self) -> Result<u64, Fault>
        ensures steps { Follows (held_of D.Device self.old) (held_of D.Device self.new) }
        ensures pages { SamePages D.Device self.old self.new }
        ensures same { HasSamePages self.old.pool self.new.pool }
        ensures number { IfOk result (λ n. n ≡ self.old.acts) }
        ensures durable { OnOk result (self.new.durable ≡ self.old.acts) }
        ensures alive { OnOk result (is_stopped self.new.log ≡ false) }
        ensures room { OnOk result
            (LogIsClosed self.old.format (backing_of (held_of D.Device self.new))) }
        ensures rest { IsRestOf (changed_of self.new.pool) (changed_of self.old.pool) }
        ensures clean { OnOk result (changed_of self.new.pool ≡ []) }
        ensures waits { WaitsOn self.old.acts (backing_of (held_of D.Device self.old))
            (backing_of (held_of D.Device self.new)) }
        ensures none { OnOk result (waiting_blocks self.new.log ≡ []) }
        ensures stopped { is_stopped self.old.log ≡ true → result ≡ Err Fault.Stopped }
        ensures failed { OnErr result
            ((is_stopped self.new.log ≡ true) ⊎ (self.new.durable ≡ self.old.acts)) }
        ensures promised { OnErr result (self.new.promised ≡ self.old.promised) }
        ensures idle { OnErr result
            (self.old.durable ≡ self.old.acts → self.new.room ≡ self.old.room) }
        ensures cause { IoOrStopped result (is_stopped self.old.log)
            (D.failures self.old.device) (D.failures self.new.device) }
    {
        let acts = self.force()?;
        self.write_all()?;
        self.close()?;
        Ok(acts)
    }
}

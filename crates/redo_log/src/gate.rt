//! A group is written after a closed gate and synced. Then its gate is opened, and that is synced.

ghost use Rattle.std.specs.Prelude.{◌⊎◌, ◌≡◌, ◌+◌, ◌*◌, ◌<◌, ◌≤◌, ℕ, suc, [], ◌∷◌, true, false, Err, IsTrue, IfOk, OnOk, OnErr, is_err, length};
ghost use Rattle.device.specs.Disk.{CountsFailures};
ghost use Rattle.device.specs.Moments.{AtEachMoment};
ghost use Rattle.device.specs.Places.{ChangesOnly, OnDisk};
ghost use Rattle.page_codec.specs.Places.{log_end};

use crate::lay::seal;
use crate::log::Log;
use device::Device;
use index_model::{Fault, reckon};
use page_codec::LOG_START;

/// Closes the gate and syncs that. At each moment only this byte changes.
pub(crate) fn shut<D: Device>(device: &mut D, gate: u64) -> Result<(), Fault>
    requires inside { gate + 1 ≤ length (D.trace device.old).now.seen }
    ensures ok { OnOk result (OnDisk gate (0 ∷ []) (D.trace device.new).now) }
    ensures moments { AtEachMoment (ChangesOnly gate 1 (D.trace device.old).now)
        (D.trace device.old) (D.trace device.new) }
    ensures len { length (D.trace device.new).now.seen ≡ length (D.trace device.old).now.seen }
    ensures honest { D.is_honest device.new ≡ D.is_honest device.old }
    ensures failures { CountsFailures result (D.failures device.old) (D.failures device.new) }
{
    device.write_at(gate, &[0])?;
    device.sync()
}

/// What a part of a force did.
#[derive(Drop, Clone, Copy)]
pub enum Advance {
    /// Nothing waits.
    Nothing,
    /// The group that waits was written. A sync makes it firm.
    Written,
    /// The gate of that group was opened. A sync then makes all that waits durable, and `force` answers so.
    Opened,
}

impl Log {
    ghost use Rattle.redo_log.specs.Kept.{format_of, is_stopped, is_written, is_ajar, actions_of, waiting_count, waiting_blocks, waiting_images, laid_count, groups_end, end_with, IsLaid};
    ghost use Rattle.redo_log.specs.Kept.{KeepsActions, ForcesAll, RestartsThroughout, SameLog, ChangesItsRange, IoOrStopped};

    // Closes the gate if it may be open: the group after it is out of date.
    fn shut_gate<D: Device>(&mut self, device: &mut D) -> Result<(), Fault>
        requires range { log_end (format_of self.old) ≤ length (D.trace device.old).now.seen }
        requires alive { is_stopped self.old ≡ false }
        requires changed { is_written self.old ≡ false }
        ensures keeps { OnOk result
            (KeepsActions self.old (D.trace device.old).now self.new (D.trace device.new).now) }
        ensures moments { RestartsThroughout self.old (D.trace device.old) (D.trace device.new) }
        ensures shut { OnOk result (is_ajar self.new ≡ false) }
        ensures laid { laid_count self.new ≡ laid_count self.old }
        ensures written { is_written self.new ≡ is_written self.old }
        ensures blocks { waiting_blocks self.new ≡ waiting_blocks self.old }
        ensures images { waiting_images self.new ≡ waiting_images self.old }
        ensures end { groups_end self.new ≡ groups_end self.old }
        ensures same { SameLog self.old self.new }
        ensures stopped { is_stopped self.new ≡ is_err result }
        ensures outside { ChangesItsRange (format_of self.old)
            (D.trace device.old) (D.trace device.new) }
        ensures len { length (D.trace device.new).now.seen ≡ length (D.trace device.old).now.seen }
        ensures honest { D.is_honest device.new ≡ D.is_honest device.old }
        ensures failures { CountsFailures result (D.failures device.old) (D.failures device.new) }
    {
        if !self.ajar {
            return Ok(());
        }
        self.stopped = true;
        shut(device, LOG_START + self.at as u64)?;
        self.stopped = false;
        self.ajar = false;
        Ok(())
    }

    // Writes the group that waits after its gate, which is closed.
    fn write_body<D: Device>(&mut self, device: &mut D) -> Result<(), Fault>
        requires range { log_end (format_of self.old) ≤ length (D.trace device.old).now.seen }
        requires alive { is_stopped self.old ≡ false }
        requires shut { is_ajar self.old ≡ false }
        requires some { 0 < waiting_count self.old }
        requires laid { IsLaid self.old }
        ensures keeps { OnOk result
            (KeepsActions self.old (D.trace device.old).now self.new (D.trace device.new).now) }
        ensures moments { RestartsThroughout self.old (D.trace device.old) (D.trace device.new) }
        ensures written { OnOk result (is_written self.new ≡ true) }
        ensures shut { is_ajar self.new ≡ false }
        ensures blocks { waiting_blocks self.new ≡ waiting_blocks self.old }
        ensures images { waiting_images self.new ≡ waiting_images self.old }
        ensures end { groups_end self.new ≡ groups_end self.old }
        ensures same { SameLog self.old self.new }
        ensures stopped { is_stopped self.new ≡ is_err result }
        ensures outside { ChangesItsRange (format_of self.old)
            (D.trace device.old) (D.trace device.new) }
        ensures len { length (D.trace device.new).now.seen ≡ length (D.trace device.old).now.seen }
        ensures honest { D.is_honest device.new ≡ D.is_honest device.old }
        ensures failures { CountsFailures result (D.failures device.old) (D.failures device.new) }
    {
        let count = self.waiting.count();
        let len = 5 + 4096 * count as usize;
        seal(&mut self.buffer, count);
        self.stopped = true;
        device.write_at(LOG_START + self.at as u64 + 1, &self.buffer[..len])?;
        self.stopped = false;
        self.written = true;
        Ok(())
    }

    // Writes the group that waits after its gate, which stays closed, if that isn't done. Answers whether a
    // group stands there: if not, none waits.
    fn write_group<D: Device>(&mut self, device: &mut D) -> Result<bool, Fault>
        requires range { log_end (format_of self.old) ≤ length (D.trace device.old).now.seen }
        requires laid { IsLaid self.old }
        ensures keeps { OnOk result
            (KeepsActions self.old (D.trace device.old).now self.new (D.trace device.new).now) }
        ensures moments { RestartsThroughout self.old (D.trace device.old) (D.trace device.new) }
        ensures answer { IfOk result (λ is_there. is_there ≡ is_written self.new) }
        ensures written { OnOk result (0 < waiting_count self.old → is_written self.new ≡ true) }
        ensures blocks { waiting_blocks self.new ≡ waiting_blocks self.old }
        ensures images { waiting_images self.new ≡ waiting_images self.old }
        ensures end { groups_end self.new ≡ groups_end self.old }
        ensures same { SameLog self.old self.new }
        ensures stopped { is_stopped self.new ≡ is_err result }
        ensures outside { ChangesItsRange (format_of self.old)
            (D.trace device.old) (D.trace device.new) }
        ensures len { length (D.trace device.new).now.seen ≡ length (D.trace device.old).now.seen }
        ensures honest { D.is_honest device.new ≡ D.is_honest device.old }
        ensures idle { IsTrue (is_stopped self.old) ⊎ (waiting_count self.old ≡ 0)
            → device.new ≡ device.old }
        ensures stopped_first { is_stopped self.old ≡ true → result ≡ Err Fault.Stopped }
        ensures cause { IoOrStopped result (is_stopped self.old)
            (D.failures device.old) (D.failures device.new) }
    {
        if self.stopped {
            return Err(Fault::Stopped);
        }
        if self.written {
            return Ok(true);
        }
        if self.waiting.count() == 0 {
            return Ok(false);
        }
        self.shut_gate(device)?;
        self.write_body(device)?;
        Ok(true)
    }

    // Syncs the group that was written, and opens its gate, if that isn't done and nothing was appended
    // since. Answers whether that is so.
    fn open_gate<D: Device>(&mut self, device: &mut D) -> Result<bool, Fault>
        requires range { log_end (format_of self.old) ≤ length (D.trace device.old).now.seen }
        ensures keeps { OnOk result
            (KeepsActions self.old (D.trace device.old).now self.new (D.trace device.new).now) }
        ensures moments { RestartsThroughout self.old (D.trace device.old) (D.trace device.new) }
        ensures answer { IfOk result (λ is_open. is_open ≡ is_written self.old) }
        ensures written { is_written self.new ≡ is_written self.old }
        ensures ajar { OnOk result (is_written self.old ≡ true → is_ajar self.new ≡ true) }
        ensures blocks { waiting_blocks self.new ≡ waiting_blocks self.old }
        ensures images { waiting_images self.new ≡ waiting_images self.old }
        ensures end { groups_end self.new ≡ groups_end self.old }
        ensures same { SameLog self.old self.new }
        ensures stopped { is_stopped self.new ≡ is_err result }
        ensures outside { ChangesItsRange (format_of self.old)
            (D.trace device.old) (D.trace device.new) }
        ensures len { length (D.trace device.new).now.seen ≡ length (D.trace device.old).now.seen }
        ensures honest { D.is_honest device.new ≡ D.is_honest device.old }
        ensures stopped_first { is_stopped self.old ≡ true → result ≡ Err Fault.Stopped }
        ensures cause { IoOrStopped result (is_stopped self.old)
            (D.failures device.old) (D.failures device.new) }
    {
        if self.stopped {
            return Err(Fault::Stopped);
        }
        if !self.written {
            return Ok(false);
        }
        if self.ajar {
            return Ok(true);
        }
        self.stopped = true;
        device.sync()?;
        device.write_at(LOG_START + self.at as u64, &[1])?;
        self.stopped = false;
        self.ajar = true;
        Ok(true)
    }

    /// Does the next part of a force, except for its last sync, which `force` makes. A part writes the group
    /// that waits, or it syncs that group and opens its gate. A sync of the device between two parts makes
    /// the next one's fast. What is appended between two parts makes the next one write the group again. The
    /// images that wait are laid out before (`unlaid`, `lay`).
    ///
    /// Refused with `Io` (2) if a device call fails: the log is stopped then. Refused with `Stopped` (3) on a
    /// stopped log.
    pub fn advance<D: Device>(&mut self, device: &mut D) -> Result<Advance, Fault>
        requires range { log_end (format_of self.old) ≤ length (D.trace device.old).now.seen }
        requires laid { IsLaid self.old }
        ensures keeps { OnOk result
            (KeepsActions self.old (D.trace device.old).now self.new (D.trace device.new).now) }
        ensures moments { RestartsThroughout self.old (D.trace device.old) (D.trace device.new) }
        ensures nothing { IfOk result (λ advance. advance ≡ Advance.Nothing → waiting_count self.old ≡ 0) }
        ensures written { IfOk result (λ advance. advance ≡ Advance.Written → is_written self.new ≡ true) }
        ensures opened { IfOk result (λ advance. advance ≡ Advance.Opened
            → (is_written self.new ≡ true) × (is_ajar self.new ≡ true)) }
        ensures blocks { waiting_blocks self.new ≡ waiting_blocks self.old }
        ensures images { waiting_images self.new ≡ waiting_images self.old }
        ensures end { groups_end self.new ≡ groups_end self.old }
        ensures same { SameLog self.old self.new }
        ensures stopped { is_stopped self.new ≡ is_err result }
        ensures outside { ChangesItsRange (format_of self.old)
            (D.trace device.old) (D.trace device.new) }
        ensures len { length (D.trace device.new).now.seen ≡ length (D.trace device.old).now.seen }
        ensures honest { D.is_honest device.new ≡ D.is_honest device.old }
        ensures stopped_first { is_stopped self.old ≡ true → result ≡ Err Fault.Stopped }
        ensures cause { IoOrStopped result (is_stopped self.old)
            (D.failures device.old) (D.failures device.new) }
    {
        if self.written {
            self.open_gate(device)?;
            return Ok(Advance::Opened);
        }
        if self.write_group(device)? {
            Ok(Advance::Written)
        } else {
            Ok(Advance::Nothing)
        }
    }

    // Syncs the gate of the group that waits, which is open: all is durable then.
    fn settle<D: Device>(&mut self, device: &mut D) -> Result<u64, Fault>
        requires range { log_end (format_of self.old) ≤ length (D.trace device.old).now.seen }
        requires alive { is_stopped self.old ≡ false }
        requires written { is_written self.old ≡ true }
        requires ajar { is_ajar self.old ≡ true }
        ensures keeps { OnOk result
            (ForcesAll self.old (D.trace device.old).now self.new (D.trace device.new).now) }
        ensures moments { RestartsThroughout self.old (D.trace device.old) (D.trace device.new) }
        ensures number { IfOk result (λ n. n ≡ actions_of self.old) }
        ensures written { OnOk result (waiting_count self.new ≡ 0) }
        ensures shut { OnOk result (is_ajar self.new ≡ false) }
        ensures waiting { OnErr result (waiting_blocks self.new ≡ waiting_blocks self.old) }
        ensures images { OnErr result (waiting_images self.new ≡ waiting_images self.old) }
        ensures none { OnOk result (waiting_images self.new ≡ []) }
        ensures room { OnOk result ((n : ℕ) → end_with self.new n ≤ end_with self.old (suc n)) }
        ensures refused { OnErr result ((n : ℕ) → end_with self.new n ≡ end_with self.old n) }
        ensures same { SameLog self.old self.new }
        ensures stopped { is_stopped self.new ≡ is_err result }
        ensures outside { ChangesItsRange (format_of self.old)
            (D.trace device.old) (D.trace device.new) }
        ensures len { length (D.trace device.new).now.seen ≡ length (D.trace device.old).now.seen }
        ensures honest { D.is_honest device.new ≡ D.is_honest device.old }
        ensures failures { CountsFailures result (D.failures device.old) (D.failures device.new) }
    {
        let len = 5 + 4096 * self.waiting.count() as usize;
        self.stopped = true;
        device.sync()?;
        self.at += len;
        self.waiting.clear();
        self.images = reckon(&());
        self.laid = 0;
        self.written = false;
        self.ajar = false;
        self.stopped = false;
        Ok(self.actions)
    }

    /// Makes every appended action durable, and answers how many were appended since the log was opened. It
    /// writes one image of each block that waits. If none waits, the device isn't called. What `advance` has
    /// done of it isn't done again. The images that wait are laid out before (`unlaid`, `lay`).
    ///
    /// Refused with `Io` (2) if a device call fails: the log is stopped then. Refused with `Stopped` (3) on a
    /// stopped log.
    pub fn force<D: Device>(&mut self, device: &mut D) -> Result<u64, Fault>
        requires range { log_end (format_of self.old) ≤ length (D.trace device.old).now.seen }
        requires laid { IsLaid self.old }

        ensures keeps { OnOk result
            (ForcesAll self.old (D.trace device.old).now self.new (D.trace device.new).now) }
        ensures moments { RestartsThroughout self.old (D.trace device.old) (D.trace device.new) }
        ensures number { IfOk result (λ n. n ≡ actions_of self.old) }
        ensures written { OnOk result (waiting_count self.new ≡ 0) }
        ensures shut { OnOk result (is_ajar self.new ≡ false) }
        ensures waiting { OnErr result (waiting_blocks self.new ≡ waiting_blocks self.old) }
        ensures images { OnErr result (waiting_images self.new ≡ waiting_images self.old) }
        ensures none { OnOk result (waiting_images self.new ≡ []) }
        // It costs at most one image of room.
        ensures room { OnOk result ((n : ℕ) → end_with self.new n ≤ end_with self.old (suc n)) }
        ensures refused { OnErr result ((n : ℕ) → end_with self.new n ≡ end_with self.old n) }
        ensures same { SameLog self.old self.new }
        ensures stopped { is_stopped self.new ≡ is_err result }

        ensures outside { ChangesItsRange (format_of self.old)
            (D.trace device.old) (D.trace device.new) }
        ensures len { length (D.trace device.new).now.seen ≡ length (D.trace device.old).now.seen }
        ensures honest { D.is_honest device.new ≡ D.is_honest device.old }
        ensures idle { IsTrue (is_stopped self.old) ⊎ (waiting_count self.old ≡ 0)
            → device.new ≡ device.old }
        ensures stopped_first { is_stopped self.old ≡ true → result ≡ Err Fault.Stopped }
        ensures cause { IoOrStopped result (is_stopped self.old)
            (D.failures device.old) (D.failures device.new) }
    {
        if self.stopped {
            return Err(Fault::Stopped);
        }
        if self.waiting.count() == 0 {
            return Ok(self.actions);
        }
        self.write_group(device)?;
        self.open_gate(device)?;
        self.settle(device)
    }
}

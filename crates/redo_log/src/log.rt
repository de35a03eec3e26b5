//! The log: it is opened and closed, and takes the images of actions.

ghost use Rattle.std.specs.Prelude.{Bool, [], ◌⊎◌, ◌≡◌, ◌≤◌, ◌<◌, ◌+◌, ◌*◌, ◌/◌, ◌^◌, ℕ, suc, true, false, Err, IsTrue, IsErrOf, OnOk, OnErr, IfOk, IfErr, is_err, length, slice_index, vec_capacity};
ghost use Rattle.std.specs.Bool.{OnTrue, OnFalse};
ghost use Rattle.index_model.specs.Limits.{AreLimits};
ghost use Rattle.page_codec.specs.Places.{log_start, log_end};
ghost use Rattle.device.specs.Disk.{DiskMoment, CountsFailures};
ghost use Rattle.redo_log.specs.Groups.{AreImages, IsClosedAtStart};
ghost use Rattle.page_codec.specs.declared.page.Page.{Page};
ghost use Rattle.page_codec.specs.Spelling.{page_bytes};
ghost use Rattle.redo_log.specs.Blocks.{image_blocks, with_blocks, with_images, new_count, AreLaid, ReachesPast};

use crate::gate::shut;
use crate::image_list::ImageList;
use crate::lay::lay_image;
use crate::reading::note_groups;
use crate::waiting::Waiting;
use device::Device;
use index_model::{Fault, Format, Noted, reckon};
use page_codec::{LOG_START, Page};
use std::alloc::Global;

/// A log, which lies in its range of a device. The room for the group that waits was kept free when it was
/// opened, and is used as images are laid out for a force.
#[derive(Drop)]
pub struct Log {
    pub(crate) format: Format,
    /// Where the next group goes.
    pub(crate) at: usize,
    pub(crate) actions: u64,
    pub(crate) stopped: bool,
    /// The group that waits stands on the device after its gate, and nothing was appended since.
    pub(crate) written: bool,
    /// That gate may be open, and after it stands a group that no sync has let in.
    pub(crate) ajar: bool,
    /// The blocks whose images wait, one image for each.
    pub(crate) waiting: Waiting,
    /// These images.
    pub(crate) images: Noted<ImageList>,
    /// How many of them are laid out in the buffer, from the first one on.
    pub(crate) laid: usize,
    /// The group that waits: room for the number, and its images, as far as they are laid out. What it has no
    /// images for it doesn't have as yet, inside of its capacity.
    pub(crate) buffer: Vec<u8>,
    ghost least: { 65536 ≤ format.log_bytes },
    ghost most: { format.log_bytes ≤ 16777216 },
    ghost reserved: { format.log_bytes ≤ vec_capacity buffer },
    ghost named: { image_blocks images.value ≡ waiting.blocks.items },
    ghost few_laid: { laid ≤ length waiting.blocks.items },
    ghost laid_out: { AreLaid laid images.value buffer.items },
    ghost reaches: { ReachesPast laid buffer.items },
    ghost room: { at + 1 ≤ format.log_bytes },
    ghost fits: { 0 < length waiting.blocks.items
        → at + (6 + 4096 * length waiting.blocks.items) ≤ format.log_bytes },
    ghost some_written: { written ≡ true → 0 < length waiting.blocks.items },
    ghost some_ajar: { ajar ≡ true → 0 < length waiting.blocks.items },
    ghost tabled: { length waiting.places.items ≡ format.pages },
    ghost listed: { format.log_bytes / 4096 ≤ vec_capacity waiting.blocks },
}

impl Log {
    ghost use Rattle.std.specs.Prelude.{Some, IfSome, IfNone, slice_get};
    ghost use Rattle.redo_log.specs.Kept.{format_of, is_stopped, is_ajar, is_written, actions_of, waiting_count, waiting_blocks, waiting_images, laid_count, groups_end, end_with, ImagesFit, TakesNoMore};
    ghost use Rattle.redo_log.specs.Kept.{AddsAction, KeepsActions, IsLaid, WaitsAlike, ForgetsForced, RestartsOrEmptyThroughout, SameLog, ChangesItsRange, KeepsWhileUntouched, WhatItKeepsRestarts, IoOrStopped};
    ghost use Rattle.redo_log.specs.Reading.{IsReplay, IsOpened, IsDamaged, ReplayFails};

    /// The sizes that it was opened with.
    pub fn format(&self) -> Format
        ensures { result ≡ format_of self.now }
    {
        self.format
    }

    /// Whether a write or sync of it failed before.
    pub fn is_stopped(&self) -> bool
        ensures { result ≡ is_stopped self.now }
    {
        self.stopped
    }

    /// Whether the gate of the group that waits may be open: a part of a force has opened it.
    pub fn is_ajar(&self) -> bool
        ensures { result ≡ is_ajar self.now }
    {
        self.ajar
    }

    /// How many images one more action could hold now, of blocks of which none waits.
    pub fn room(&self) -> u32
        ensures fit { (n : ℕ) → 0 < n → n ≤ result → ImagesFit self.now n }
        ensures no_more { (n : ℕ) → result < n → ¬ ImagesFit self.now n }
    {
        let left = self.format.log_bytes - self.at as u32;
        left.saturating_sub(6) / 4096 - self.waiting.count()
    }

    /// Whether the images fit beside those that wait, one for each block. Those of blocks that wait
    /// take no room.
    fn fits(&self, images: &[Page]) -> bool
        requires { AreImages (format_of self.now) images.now }
        ensures fit { OnTrue result (0 < new_count (waiting_blocks self.now) images.now
            → ImagesFit self.now (new_count (waiting_blocks self.now) images.now)) }
        ensures full { OnFalse result
            (¬ ImagesFit self.now (new_count (waiting_blocks self.now) images.now)) }
        ensures some { OnFalse result (0 < new_count (waiting_blocks self.now) images.now) }
    {
        let room = self.room() as usize;
        images.len() <= room || self.waiting.count_new(images) <= room
    }

    /// Takes the images of one action, which wait for the next `force`: each in the place of the
    /// image of its block, if one waits. It copies no page: before the force each image that waits
    /// is laid out from a page with its bytes. It answers the action's number, counted from 1 since
    /// the log was opened.
    ///
    /// Refused, with nothing changed: on a stopped log, or if the greatest number was given (`Stopped`, 3);
    /// if the images of blocks that don't wait don't fit after those that wait (`LogFull`, 9), which is never
    /// so up to `room()` of them.
    pub fn append(&mut self, images: &[Page]) -> Result<u64, Fault>
        requires images { AreImages (format_of self.old) images.now }

        ensures keeps { OnOk result (AddsAction images.now self.old self.new) }
        ensures number { IfOk result (λ n. n ≡ suc (actions_of self.old)) }
        ensures actions { OnOk result (actions_of self.new ≡ suc (actions_of self.old)) }
        ensures room { OnOk result ((n : ℕ)
            → end_with self.new n ≤ end_with self.old (length images.now + n)) }
        ensures blocks { OnOk result
            (waiting_blocks self.new ≡ with_blocks (waiting_blocks self.old) images.now) }
        ensures images { OnOk result
            (waiting_images self.new ≡ with_images (waiting_images self.old) images.now) }
        // An image of a block that waits takes no room.
        ensures waiting { OnOk result (waiting_count self.new
            ≡ waiting_count self.old + new_count (waiting_blocks self.old) images.now) }
        ensures format { format_of self.new ≡ format_of self.old }
        ensures stopped { is_stopped self.new ≡ is_stopped self.old }

        ensures err { OnErr result (self.new ≡ self.old) }
        ensures stopped_first { is_stopped self.old ≡ true → result ≡ Err Fault.Stopped }
        ensures cause { IfErr result (λ e. ((e ≡ Fault.Stopped) × TakesNoMore self.old)
            ⊎ ((e ≡ Fault.LogFull) × (¬ ImagesFit self.old (length images.now)))) }
        ensures full { IsErrOf result Fault.LogFull
            → ¬ ImagesFit self.old (new_count (waiting_blocks self.old) images.now) }
        ensures some { IsErrOf result Fault.LogFull
            → 0 < new_count (waiting_blocks self.old) images.now }
    {
        if self.stopped || self.actions == u64::MAX {
            return Err(Fault::Stopped);
        }
        if !self.fits(images) {
            return Err(Fault::LogFull);
        }
        self.written = false;
        self.laid = 0;
        self.images = reckon(&(&self.images, images));
        self.waiting.take_all(images);
        self.actions += 1;
        Ok(self.actions)
    }

    /// The block of the next image that is to be laid out for a force. None: all that wait are.
    pub fn unlaid(&self) -> Option<u32>
        ensures some { IfSome result (λ block. (laid_count self.now < waiting_count self.now)
            × (slice_index (waiting_blocks self.now) (laid_count self.now) ≡ block)) }
        ensures none { IfNone result (IsLaid self.now) }
    {
        self.waiting.block_at(self.laid)
    }

    /// Lays out the next image that waits, from a page with its bytes. `unlaid` tells its block. What waits,
    /// and what the log keeps, stays as it is.
    pub fn lay(&mut self, image: &Page)
        requires next { laid_count self.old < waiting_count self.old }
        requires same { (page : Page)
            → slice_get (waiting_images self.old) (laid_count self.old) ≡ Some page
            → page_bytes image.now ≡ page_bytes page }
        ensures laid { laid_count self.new ≡ suc (laid_count self.old) }
        ensures keeps { (m : DiskMoment) → KeepsActions self.old m self.new m }
        ensures waits { WaitsAlike self.old self.new }
    {
        lay_image(&mut self.buffer, self.laid, image);
        self.laid += 1;
    }

    /// Does nothing: whatever changes outside of the log's range, the log keeps what it kept, and a
    /// crash leaves a prefix of it that has all that was forced.
    pub fn keeping_law(&self)
        ensures keeps { KeepsWhileUntouched self.now }
        ensures restarts { WhatItKeepsRestarts self.now }
    {}

    /// Closes the log, in which no gate is ajar: its groups no longer count, and what waits still waits.
    /// If no group is open the device isn't called, because a crash could leave a gate that is written as an
    /// open one, in front of old bytes.
    ///
    /// Refused with `Io` (2) if a device call fails: the log is stopped then. Refused with `Stopped` (3) on a
    /// stopped log.
    pub fn reset<D: Device>(&mut self, device: &mut D) -> Result<(), Fault>
        requires range { log_end (format_of self.old) ≤ length (D.trace device.old).now.seen }
        requires shut { is_ajar self.old ≡ false }

        ensures keeps { OnOk result
            (ForgetsForced self.old (D.trace device.old).now self.new (D.trace device.new).now) }
        ensures moments { RestartsOrEmptyThroughout self.old
            (D.trace device.old) (D.trace device.new) }
        ensures closed { OnOk result (groups_end self.new ≡ 0) }
        ensures waiting { waiting_count self.new ≡ waiting_count self.old }
        ensures blocks { waiting_blocks self.new ≡ waiting_blocks self.old }
        ensures images { waiting_images self.new ≡ waiting_images self.old }
        ensures room { OnOk result ((n : ℕ)
            → end_with self.new n ≡ 6 + 4096 * (waiting_count self.old + n)) }
        ensures refused { OnErr result ((n : ℕ) → end_with self.new n ≡ end_with self.old n) }
        ensures same { SameLog self.old self.new }
        ensures stopped { is_stopped self.new ≡ is_err result }

        ensures outside { ChangesItsRange (format_of self.old)
            (D.trace device.old) (D.trace device.new) }
        ensures len { length (D.trace device.new).now.seen ≡ length (D.trace device.old).now.seen }
        ensures honest { D.is_honest device.new ≡ D.is_honest device.old }
        ensures idle { IsTrue (is_stopped self.old) ⊎ (groups_end self.old ≡ 0)
            → device.new ≡ device.old }
        ensures stopped_first { is_stopped self.old ≡ true → result ≡ Err Fault.Stopped }
        ensures cause { IoOrStopped result (is_stopped self.old)
            (D.failures device.old) (D.failures device.new) }
    {
        if self.stopped {
            return Err(Fault::Stopped);
        }
        if self.at == 0 {
            return Ok(());
        }
        self.stopped = true;
        shut(device, LOG_START)?;
        self.at = 0;
        self.written = false;
        self.stopped = false;
        Ok(())
    }

    // A log of so many bytes, of whose groups the last one ends there. Nothing waits in it.
    fn opened(alloc: Global, format: Format, at: usize, buffer: Vec<u8>) -> Result<Log, Fault>
        requires format { AreLimits format }
        requires room { at + 1 ≤ format.log_bytes }
        requires reserved { format.log_bytes ≤ vec_capacity buffer }
        ensures opened { IfOk result (IsOpened format) }
        ensures idle { IfOk result (λ log. waiting_blocks log ≡ []) }
        ensures shut { IfOk result (λ log. (is_ajar log ≡ false) × (is_written log ≡ false)) }
        ensures end { IfOk result (λ log. groups_end log ≡ at) }
        ensures buffer { IfOk result (λ log. log.buffer ≡ buffer) }
        ensures cause { IfErr result (λ e. e ≡ Fault.NoMemory) }
    {
        let Ok(waiting) = Waiting::new(alloc, format.pages, format.log_bytes / 4096) else {
            return Err(Fault::NoMemory);
        };
        Ok(Log {
            format,
            at,
            actions: 0,
            stopped: false,
            written: false,
            ajar: false,
            waiting,
            images: reckon(&()),
            laid: 0,
            buffer,
        })
    }

    // Opens a log whose first gate isn't open. Its room is kept free, and nothing of it is touched.
    fn replay_none(alloc: Global, format: Format) -> Result<Replayed, Fault>
        requires format { AreLimits format }
        ensures ok { IfOk result (λ found. (honest : Bool) (m : DiskMoment)
            → log_end format ≤ length m.seen
            → (IsTrue honest → IsClosedAtStart m.seen) → IsReplay format honest m found) }
        ensures opened { IfOk result (λ r. IsOpened format r.log) }
        ensures cause { IfErr result (λ e. e ≡ Fault.NoMemory) }
    {
        let Ok(buffer) = Vec::with_capacity(alloc, format.log_bytes as usize) else {
            return Err(Fault::NoMemory);
        };
        Ok(Replayed {
            log: Log::opened(alloc, format, 0, buffer)?,
            lasts: Vec::new(alloc),
        })
    }

    // Reads the whole range, and opens the log that lies there.
    fn replay_range<D: Device>(
        alloc: Global,
        device: &mut D,
        format: Format,
    ) -> Result<Replayed, Fault>
        requires format { AreLimits format }
        requires range { log_end format ≤ length (D.trace device.old).now.seen }
        ensures ok { IfOk result
            (IsReplay format (D.is_honest device.new) (D.trace device.old).now) }
        ensures damaged { IsErrOf result Fault.LogDamaged → IsTrue (D.is_honest device.new)
            → IsDamaged format (D.trace device.old).now }
        ensures opened { IfOk result (λ r. IsOpened format r.log) }
        ensures trace { D.trace device.new ≡ D.trace device.old }
        ensures honest { IsTrue (D.is_honest device.new) → IsTrue (D.is_honest device.old) }
        ensures cause { ReplayFails result (D.failures device.old) (D.failures device.new) }
    {
        let Ok(mut buffer) = vec![in alloc; 0u8; format.log_bytes as usize] else {
            return Err(Fault::NoMemory);
        };
        let Ok(mut lasts) = vec![in alloc; 0u32; format.pages as usize] else {
            return Err(Fault::NoMemory);
        };
        let Ok(()) = device.read_at(LOG_START, &mut buffer) else {
            return Err(Fault::Io);
        };
        let Some(at) = note_groups(&format, &mut lasts, &buffer) else {
            return Err(Fault::LogDamaged);
        };
        Ok(Replayed {
            log: Log::opened(alloc, format, at, buffer)?,
            lasts,
        })
    }

    /// Opens the log that lies on a device, and keeps of each block the bytes of its last image in the
    /// open groups. It reads the first gate, and the log's range once if that is open, and judges each image
    /// once.
    ///
    /// Refused: if the device fails (`Io`, 2), if memory is refused (`NoMemory`, 1), and with `LogDamaged`
    /// (16) exactly if an open group is none.
    pub fn replay<D: Device>(
        alloc: Global,
        device: &mut D,
        format: Format,
    ) -> Result<Replayed, Fault>
        requires format { AreLimits format }
        requires range { log_end format ≤ length (D.trace device.old).now.seen }

        ensures ok { IfOk result
            (IsReplay format (D.is_honest device.new) (D.trace device.old).now) }
        ensures damaged { IsErrOf result Fault.LogDamaged → IsTrue (D.is_honest device.new)
            → IsDamaged format (D.trace device.old).now }
        ensures opened { IfOk result (λ r. IsOpened format r.log) }

        ensures trace { D.trace device.new ≡ D.trace device.old }
        ensures honest { IsTrue (D.is_honest device.new) → IsTrue (D.is_honest device.old) }
        ensures cause { ReplayFails result (D.failures device.old) (D.failures device.new) }
    {
        if is_gate_open(device)? {
            Log::replay_range(alloc, device, format)
        } else {
            Log::replay_none(alloc, format)
        }
    }
}

/// Whether the log's first gate is open: so a group stands behind it. Refused with `Io` (2).
fn is_gate_open<D: Device>(device: &mut D) -> Result<bool, Fault>
    requires range { log_start + 1 ≤ length (D.trace device.old).now.seen }
    ensures shut { IfOk result (λ is_open. is_open ≡ false → IsTrue (D.is_honest device.new)
        → IsClosedAtStart (D.trace device.old).now.seen) }
    ensures trace { D.trace device.new ≡ D.trace device.old }
    ensures honest { IsTrue (D.is_honest device.new) → IsTrue (D.is_honest device.old) }
    ensures failures { CountsFailures result (D.failures device.old) (D.failures device.new) }
{
    let mut gate = [0];
    device.read_at(LOG_START, &mut gate)?;
    Ok(gate[0] == 1)
}

/// A log as it was found, with the last image of each block in its open groups.
#[derive(Drop)]
pub struct Replayed {
    /// Its buffer has the bytes that were read, if the first gate was open: nothing waits in it as yet.
    pub log: Log,
    /// For each block, where its last image lies in these bytes; 0 for a block without one. If no group is
    /// open it has no places.
    lasts: Vec<u32>,
    ghost inside: { (k : ℕ) → k < length lasts.items
        → slice_index lasts.items k + 4096 ≤ length log.buffer.items },
}

impl Replayed {
    ghost use Rattle.std.specs.Prelude.{IfSome};
    ghost use Rattle.std.specs.Option.{option_map};
    ghost use Rattle.redo_log.specs.Reading.{kept_image};

    /// The 4,096 bytes of the block's last image, if an open group has one.
    pub fn image(&self, block: u32) -> Option<&[u8]>
        ensures kept { option_map (λ bytes. bytes.now) result ≡ kept_image self.now block }
        ensures len { IfSome result (λ bytes. length bytes.now ≡ 4096) }
    {
        let at = *self.lasts.get(block as usize)? as usize;
        if at == 0 {
            return None;
        }
        Some(&self.log.buffer[at..at + 4096])
    }
}

//! Pages are brought into memory, in the place of others if there is no room.

ghost use Rattle.std.specs.Prelude.{◌≡◌, ◌≢◌, ◌<◌, ◌≤◌, Some, None, Err, OnErr, IfOk, IfErr, OnOk, IsSome, is_some, ℕ, true, false, length, remove, slice_get, map, All};
ghost use Rattle.buffer_pool.specs.Choices.{IsChoice};
ghost use Rattle.buffer_pool.specs.Frames.{has_block};
ghost use Rattle.buffer_pool.specs.Pools.{most_of, pool_count, pool_blocks, act_of, changed_of, frame_of, CanBeTaken, HasSamePages, HasSameChanges, IsPut};
ghost use Rattle.device.specs.Disk.{CountsFailures};
ghost use Rattle.page_action.specs.Stored.{IsStored, AreActable};
ghost use Rattle.redo_log.specs.Kept.{IoOrStopped, is_stopped};
ghost use Rattle.page_store.specs.Histories.{pages_now};
ghost use Rattle.page_store.specs.Quiet.{IsSameButWritten, IsUnforced};
ghost use Rattle.page_store.specs.Taking.{SameFrames, CostsFrame, GetsFrame, GetFrames, IsWrittenNext, AreWrittenAhead, FrameFails, TakingFails, FetchFails};
ghost use Rattle.page_store.specs.Writing.{ReadingFails};
ghost use Rattle.page_codec.specs.declared.page.Page.{Page};

use crate::logged_pages::LoggedPages;
use crate::writing::read_page;
use buffer_pool::Choice;
use device::Device;
use index_model::Fault;
use page_codec::Page;

impl<D: Device> LoggedPages<D> {
    // Which frame is taken for another page, or which page is written first, while the pages of these blocks
    // are pinned.
    fn choose(&mut self, pinned: &[u32]) -> Choice
        ensures quiet { IsSameButWritten D.Device self.old self.new }
        ensures choice { IsChoice self.new.pool pinned.now result }
        ensures same { HasSamePages self.old.pool self.new.pool }
        ensures changes { HasSameChanges self.old.pool self.new.pool }
        ensures log { self.new.log ≡ self.old.log }
        ensures device { self.new.device ≡ self.old.device }
        ensures durable { self.new.durable ≡ self.old.durable }
        ensures room { self.new.room ≡ self.old.room }
    {
        self.pool.choose(pinned)
    }

    /// Whether the page of this block is in memory. If so, it's noted that somebody looked at it.
    pub fn note_use(&mut self, block: u32) -> bool
        ensures held { result ≡ is_some (frame_of self.old.pool block) }
        ensures there { result ≡ has_block (pool_blocks self.old.pool) block }
        ensures quiet { IsSameButWritten D.Device self.old self.new }
        ensures same { HasSamePages self.old.pool self.new.pool }
        ensures changes { HasSameChanges self.old.pool self.new.pool }
        ensures log { self.new.log ≡ self.old.log }
        ensures device { self.new.device ≡ self.old.device }
        ensures durable { self.new.durable ≡ self.old.durable }
        ensures room { self.new.room ≡ self.old.room }
    {
        self.pool.law();
        self.pool.note_use(block)
    }

    // The frame of a changed page, which is written before. Refused with `Io` and `Stopped`.
    fn write_over(&mut self, place: usize, block: u32, act: u64) -> Result<usize, Fault>
        requires at { slice_get (changed_of self.old.pool) place ≡ Some block }
        requires act { act ≡ act_of self.old.pool block }
        requires changed { 0 < act }
        ensures quiet { IsSameButWritten D.Device self.old self.new }
        ensures same { HasSamePages self.old.pool self.new.pool }
        ensures order { OnOk result
            (changed_of self.new.pool ≡ remove (changed_of self.old.pool) place) }
        ensures refused { OnErr result (self.new.pool ≡ self.old.pool) }
        ensures forced { act ≤ self.old.durable → IsUnforced D.Device self.old self.new }
        ensures acts { OnOk result ((b : ℕ) → has_block (changed_of self.new.pool) b ≡ true
            → act_of self.new.pool b ≡ act_of self.old.pool b) }
        ensures frame { IfOk result (λ at. frame_of self.old.pool block ≡ Some at) }
        ensures free { IfOk result (CanBeTaken self.new.pool) }
        ensures alive { OnOk result (is_stopped self.new.log ≡ false) }
        ensures cause { IoOrStopped result (is_stopped self.old.log)
            (D.failures self.old.device) (D.failures self.new.device) }
    {
        self.pool.law();
        self.write_changed(place, block, act)?;
        self.pool.law();
        match self.pool.find(block) {
            Some(at) => Ok(at),
            None => unreachable!(),
        }
    }

    // Writes the changed page at this place of their order, if one is there that isn't pinned and whose acts
    // are durable. Answers whether it did. Refused with `Io`; the page is changed then as before.
    fn write_next(&mut self, place: usize, pinned: &[u32]) -> Result<bool, Fault>
        requires alive { is_stopped self.old.log ≡ false }
        ensures quiet { IsSameButWritten D.Device self.old self.new }
        ensures same { HasSamePages self.old.pool self.new.pool }
        ensures written { IfOk result (λ did. did ≡ true
            → IsWrittenNext pinned.now self.old.durable place self.old.pool self.new.pool) }
        ensures not { IfOk result (λ did. did ≡ false → self.new.pool ≡ self.old.pool) }
        ensures refused { OnErr result (self.new.pool ≡ self.old.pool) }
        ensures durable { self.new.durable ≡ self.old.durable }
        ensures room { self.new.room ≡ self.old.room }
        ensures log { self.new.log ≡ self.old.log }
        ensures failures { CountsFailures result
            (D.failures self.old.device) (D.failures self.new.device) }
    {
        let Some((block, act)) = self.pool.changed_at(place) else {
            return Ok(false);
        };
        if act > self.durable || pinned.contains(&block) {
            return Ok(false);
        }
        self.write_home(block)?;
        self.note_written(place, block);
        self.pool.law();
        Ok(true)
    }

    // Writes the changed pages from this place of their order on, until one is pinned or has acts that aren't
    // durable, at most a quarter of what there are frames. So clean ones are there for the pages that are
    // read next. Refused with `Io`.
    fn write_ahead(&mut self, place: usize, pinned: &[u32]) -> Result<(), Fault>
        requires alive { is_stopped self.old.log ≡ false }
        requires place { place ≤ length (changed_of self.old.pool) }
        ensures quiet { IsSameButWritten D.Device self.old self.new }
        ensures same { HasSamePages self.old.pool self.new.pool }
        ensures ahead { AreWrittenAhead pinned.now self.old.durable place
            self.old.pool self.new.pool }
        ensures acts { (b : ℕ) → act_of self.new.pool b ≤ act_of self.old.pool b }
        ensures durable { self.new.durable ≡ self.old.durable }
        ensures room { self.new.room ≡ self.old.room }
        ensures log { self.new.log ≡ self.old.log }
        ensures failures { CountsFailures result
            (D.failures self.old.device) (D.failures self.new.device) }
    {
        let most = self.pool.frames() / 4;
        let mut count = 0;
        while count < most {
            if !self.write_next(place, pinned)? {
                return Ok(());
            }
            count += 1;
        }
        Ok(())
    }

    // A frame for another page, while the pages of these blocks are pinned: if no clean one is there, the
    // oldest changed page is written before, and some after it. Refused with `NoFrame`, `Io` and `Stopped`.
    fn free_frame(&mut self, pinned: &[u32]) -> Result<usize, Fault>
        ensures quiet { IsSameButWritten D.Device self.old self.new }
        ensures cost { CostsFrame D.Device pinned.now self.old self.new }
        ensures same { HasSamePages self.old.pool self.new.pool }
        ensures free { IfOk result (CanBeTaken self.new.pool) }
        ensures unpinned { IfOk result (λ at. (block : ℕ) → has_block pinned.now block ≡ true
            → frame_of self.old.pool block ≢ Some at) }
        // An unused frame is taken first.
        ensures unused { IfOk result (λ at. pool_count self.old.pool < most_of self.old.pool
            → at ≡ pool_count self.old.pool) }
        ensures alive { OnOk result
            (is_stopped self.new.log ≡ true → is_stopped self.old.log ≡ true) }
        ensures cause { IfErr result (FrameFails self.old.pool pinned.now (is_stopped self.old.log)
            (D.failures self.old.device) (D.failures self.new.device)) }
    {
        let choice = self.choose(pinned);
        self.pool.law();
        match choice {
            Choice::Free(at) => Ok(at),
            Choice::Oldest(place, block, act) => {
                let at = self.write_over(place, block, act)?;
                self.write_ahead(place, pinned)?;
                Ok(at)
            }
            Choice::AllPinned => Err(Fault::NoFrame),
        }
    }

    // Puts the page that was decoded into a frame that can be taken. It is one that a device that keeps its
    // model gave, or of a block that is not in use.
    fn put(&mut self, at: usize)
        requires free { CanBeTaken self.old.pool at }
        requires stored { IsStored self.old.format self.old.decoded.value.block self.old.decoded.value }
        requires below { self.old.decoded.value.block < self.old.format.pages }
        requires absent { frame_of self.old.pool self.old.decoded.value.block ≡ None }
        requires right { D.is_honest self.old.device ≡ true → (there : Page)
            → slice_get (pages_now self.old.history.value) self.old.decoded.value.block ≡ Some there
            → self.old.decoded.value ≡ there }
        ensures quiet { IsSameButWritten D.Device self.old self.new }
        ensures pool { IsPut self.old.pool self.new.pool at self.old.decoded.value }
        ensures log { self.new.log ≡ self.old.log }
        ensures device { self.new.device ≡ self.old.device }
        ensures durable { self.new.durable ≡ self.old.durable }
        ensures room { self.new.room ≡ self.old.room }
    {
        self.pool.law();
        self.pool.put(at, &self.decoded);
    }

    // Decodes the page of a block in use that is not in memory. Refused with `Io`, and with `PageDamaged`
    // if the device breaks its model.
    fn read(&mut self, block: u32) -> Result<(), Fault>
        requires used { block < self.old.used }
        requires absent { frame_of self.old.pool block ≡ None }
        ensures quiet { IsSameButWritten D.Device self.old self.new }
        ensures pool { self.new.pool ≡ self.old.pool }
        ensures log { self.new.log ≡ self.old.log }
        ensures durable { self.new.durable ≡ self.old.durable }
        ensures room { self.new.room ≡ self.old.room }
        ensures stored { OnOk result (IsStored self.old.format block self.new.decoded.value) }
        ensures right { OnOk result (D.is_honest self.new.device ≡ true
            → slice_get (pages_now self.old.history.value) block ≡ Some self.new.decoded.value) }
        ensures honest { D.is_honest self.new.device ≡ true
            → OnErr result (result ≡ Err Fault.Io) }
        ensures cause { ReadingFails block result
            (D.failures self.old.device) (D.failures self.new.device) }
    {
        self.pool.law();
        read_page(&mut self.device, self.format, block, &mut self.decoded)
    }

    /// Brings the page of a block in use into memory, while the pages of these blocks are pinned. Refused
    /// with `NoFrame` (10), `Io` (2) and `Stopped` (3), and with `PageDamaged` (17) if the device breaks its
    /// model.
    pub fn fetch(&mut self, block: u32, pinned: &[u32]) -> Result<(), Fault>
        requires used { block < self.old.used }
        ensures quiet { IsSameButWritten D.Device self.old self.new }
        ensures frame { GetsFrame D.Device pinned.now block self.old self.new }
        ensures has { OnOk result (IsSome (frame_of self.new.pool block)) }
        ensures there { OnOk result (has_block (pool_blocks self.new.pool) block ≡ true) }
        ensures kept { SameFrames pinned.now self.old.pool self.new.pool }
        ensures alive { OnOk result
            (is_stopped self.new.log ≡ true → is_stopped self.old.log ≡ true) }
        ensures damaged { (b : ℕ) → result ≡ Err (Fault.PageDamaged b)
            → is_stopped self.new.log ≡ true → is_stopped self.old.log ≡ true }
        ensures cause { IfErr result (FetchFails self.old.pool pinned.now (is_stopped self.old.log)
            (D.failures self.old.device) (D.failures self.new.device) block
            (D.is_honest self.new.device)) }
    {
        self.pool.law();
        if self.holds(block) {
            return Ok(());
        }
        let at = self.free_frame(pinned)?;
        self.read(block)?;
        self.put(at);
        self.pool.law();
        Ok(())
    }

    // Copies the page to where one is decoded.
    fn copy(&mut self, page: &Page)
        ensures quiet { IsSameButWritten D.Device self.old self.new }
        ensures pool { self.new.pool ≡ self.old.pool }
        ensures log { self.new.log ≡ self.old.log }
        ensures device { self.new.device ≡ self.old.device }
        ensures durable { self.new.durable ≡ self.old.durable }
        ensures room { self.new.room ≡ self.old.room }
        ensures copied { self.new.decoded.value ≡ page.now }
    {
        page.copy_to(&mut self.decoded);
    }

    // Decodes the page of a block that an act is to change, if the block is in use and the device gives
    // it; else copies the page itself. Nobody looks at it before the act is done. Refused with `Io`.
    fn read_or_copy(&mut self, page: &Page) -> Result<(), Fault>
        requires stored { IsStored self.old.format page.now.block page.now }
        requires absent { frame_of self.old.pool page.now.block ≡ None }
        ensures quiet { IsSameButWritten D.Device self.old self.new }
        ensures pool { self.new.pool ≡ self.old.pool }
        ensures log { self.new.log ≡ self.old.log }
        ensures durable { self.new.durable ≡ self.old.durable }
        ensures room { self.new.room ≡ self.old.room }
        ensures stored { OnOk result
            (IsStored self.old.format page.now.block self.new.decoded.value) }
        ensures right { OnOk result (D.is_honest self.new.device ≡ true → (there : Page)
            → slice_get (pages_now self.old.history.value) page.now.block ≡ Some there
            → self.new.decoded.value ≡ there) }
        ensures cause { IfErr result (λ e. (e ≡ Fault.Io)
            × (D.failures self.old.device < D.failures self.new.device)) }
    {
        if page.block >= self.used {
            self.copy(page);
            return Ok(());
        }
        match self.read(page.block) {
            Err(Fault::PageDamaged(_)) => {
                self.copy(page);
                Ok(())
            }
            other => other,
        }
    }

    // Takes a frame for a page that an act is to change. Refused with `NoFrame`, `Io` and `Stopped`.
    fn take_frame(&mut self, page: &Page, pinned: &[u32]) -> Result<(), Fault>
        requires stored { IsStored self.old.format page.now.block page.now }
        requires below { page.now.block < self.old.format.pages }
        requires pinned { has_block pinned.now page.now.block ≡ true }
        ensures quiet { IsSameButWritten D.Device self.old self.new }
        ensures frame { GetsFrame D.Device pinned.now page.now.block self.old self.new }
        ensures has { OnOk result (IsSome (frame_of self.new.pool page.now.block)) }
        ensures kept { SameFrames pinned.now self.old.pool self.new.pool }
        ensures alive { OnOk result
            (is_stopped self.new.log ≡ true → is_stopped self.old.log ≡ true) }
        ensures cause { IfErr result (TakingFails self.old.pool pinned.now (is_stopped self.old.log)
            (D.failures self.old.device) (D.failures self.new.device)) }
    {
        self.pool.law();
        if self.holds(page.block) {
            return Ok(());
        }
        let at = self.free_frame(pinned)?;
        self.read_or_copy(page)?;
        self.put(at);
        Ok(())
    }

    /// Takes a frame for each of these pages, while the pages of these blocks are pinned, their own among
    /// them. Refused with `NoFrame` (10), `Io` (2) and `Stopped` (3).
    pub fn take_frames(&mut self, pages: &[Page], pinned: &[u32]) -> Result<(), Fault>
        requires actable { AreActable self.old.format (length (pages_now self.old.history.value)) pages.now }
        requires pinned { All (λ page. has_block pinned.now page.block ≡ true) pages.now }
        ensures quiet { IsSameButWritten D.Device self.old self.new }
        ensures frames { GetFrames D.Device pinned.now (map (λ page. page.block) pages.now)
            self.old self.new }
        ensures has { OnOk result
            (All (λ page. IsSome (frame_of self.new.pool page.block)) pages.now) }
        ensures most { most_of self.new.pool ≡ most_of self.old.pool }
        ensures alive { OnOk result
            (is_stopped self.new.log ≡ true → is_stopped self.old.log ≡ true) }
        ensures cause { IfErr result (TakingFails self.old.pool pinned.now (is_stopped self.old.log)
            (D.failures self.old.device) (D.failures self.new.device)) }
    {
        for page in pages {
            self.take_frame(page, pinned)?;
        }
        Ok(())
    }
}

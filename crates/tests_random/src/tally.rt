//! What a run has come to.

use index_model::Fault;
use session_calls::Answer;

/// How often a run came to what it is made for.
#[derive(Clone, Copy, Debug, Default)]
pub struct Tally {
    /// Events.
    pub events: u32,
    /// Adds.
    pub adds: u32,
    /// Actions that change the shape alone.
    pub shapes: u32,
    /// Of these, splits of others, finished by an insert on its way.
    pub met: u32,
    /// Inserts that say that their split is left unfinished.
    pub unfinished: u32,
    /// Actions that remove entries.
    pub removes: u32,
    /// Bulk deletes that have finished.
    pub deletes: u32,
    /// Actions of cleanups: a leaf made half-dead, or deleted.
    pub deaths: u32,
    /// Cleanups that have finished.
    pub cleanups: u32,
    /// Scans that gave all.
    pub scans: u32,
    /// Pages written by a flush.
    pub flushed: u32,
    /// Calls given up.
    pub given_up: u32,
    /// Refusals with `Blocked`.
    pub blocked: u32,
    /// Refusals with `Exists`.
    pub exists: u32,
    /// Refusals with `KeyExists`.
    pub key_exists: u32,
    /// Refusals with `IndexFull`.
    pub index_full: u32,
    /// Refusals with `LogFull`.
    pub log_full: u32,
    /// Refusals with `NoFrame`.
    pub no_frame: u32,
    /// Refusals with `Io`.
    pub io: u32,
    /// Refusals with `Stopped`.
    pub stopped: u32,
    /// Crashes.
    pub crashes: u32,
    /// Crashes inside of an open.
    pub opening: u32,
    /// Crashes that lost actions.
    pub losing: u32,
    /// Crashes after which splits were half done.
    pub half_done: u32,
    /// The highest level of a root.
    pub level: u8,
    /// The most pages in use.
    pub pages: usize,
}

fn count(number: &mut u32) {
    *number = number.saturating_add(1);
}

impl Tally {
    /// Counts an event that was answered so.
    pub fn hear(&mut self, answer: &Answer) {
        count(&mut self.events);
        match answer {
            Answer::Refused(fault) => self.refuse(*fault),
            Answer::Added {
                unfinished: Some(_),
                ..
            } => count(&mut self.unfinished),
            Answer::Done => count(&mut self.scans),
            Answer::Flushed(Some(_)) => count(&mut self.flushed),
            Answer::Ended => count(&mut self.given_up),
            _ => {}
        }
    }

    fn refuse(&mut self, fault: Fault) {
        match fault {
            Fault::Blocked(_) => count(&mut self.blocked),
            Fault::Exists => count(&mut self.exists),
            Fault::KeyExists(_) => count(&mut self.key_exists),
            Fault::IndexFull => count(&mut self.index_full),
            Fault::LogFull => count(&mut self.log_full),
            Fault::NoFrame => count(&mut self.no_frame),
            Fault::Io => count(&mut self.io),
            Fault::Stopped => count(&mut self.stopped),
            _ => {}
        }
    }

    /// Counts an action that adds an entry.
    pub fn add(&mut self) {
        count(&mut self.adds);
    }

    /// Counts an action that changes the shape alone. It is of a split of others unless the call's entry is
    /// added.
    pub fn reshape(&mut self, is_of_others: bool) {
        count(&mut self.shapes);
        if is_of_others {
            count(&mut self.met);
        }
    }

    /// Counts an action that removes entries.
    pub fn remove(&mut self) {
        count(&mut self.removes);
    }

    /// Counts an action of a cleanup.
    pub fn clean(&mut self) {
        count(&mut self.deaths);
    }

    /// Counts a bulk delete or a cleanup that has finished.
    pub fn finish(&mut self, cleans: bool) {
        if cleans {
            count(&mut self.cleanups);
        } else {
            count(&mut self.deletes);
        }
    }

    /// Marks the level of a root, and how many pages are in use.
    pub fn reach(&mut self, level: u8, pages: usize) {
        self.level = self.level.max(level);
        self.pages = self.pages.max(pages);
    }

    /// Counts a crash inside of an open.
    pub fn crash_opening(&mut self) {
        count(&mut self.opening);
    }

    /// Counts a crash.
    pub fn crash(&mut self, loses: bool, leaves_half_done: bool) {
        count(&mut self.crashes);
        if loses {
            count(&mut self.losing);
        }
        if leaves_half_done {
            count(&mut self.half_done);
        }
    }

    /// Counts all of another run too.
    pub fn join(&mut self, other: Tally) {
        self.events = self.events.saturating_add(other.events);
        self.adds = self.adds.saturating_add(other.adds);
        self.shapes = self.shapes.saturating_add(other.shapes);
        self.met = self.met.saturating_add(other.met);
        self.unfinished = self.unfinished.saturating_add(other.unfinished);
        self.removes = self.removes.saturating_add(other.removes);
        self.deletes = self.deletes.saturating_add(other.deletes);
        self.deaths = self.deaths.saturating_add(other.deaths);
        self.cleanups = self.cleanups.saturating_add(other.cleanups);
        self.scans = self.scans.saturating_add(other.scans);
        self.flushed = self.flushed.saturating_add(other.flushed);
        self.given_up = self.given_up.saturating_add(other.given_up);
        self.blocked = self.blocked.saturating_add(other.blocked);
        self.exists = self.exists.saturating_add(other.exists);
        self.key_exists = self.key_exists.saturating_add(other.key_exists);
        self.index_full = self.index_full.saturating_add(other.index_full);
        self.log_full = self.log_full.saturating_add(other.log_full);
        self.no_frame = self.no_frame.saturating_add(other.no_frame);
        self.io = self.io.saturating_add(other.io);
        self.stopped = self.stopped.saturating_add(other.stopped);
        self.crashes = self.crashes.saturating_add(other.crashes);
        self.losing = self.losing.saturating_add(other.losing);
        self.opening = self.opening.saturating_add(other.opening);
        self.half_done = self.half_done.saturating_add(other.half_done);
        self.reach(other.level, other.pages);
    }
}

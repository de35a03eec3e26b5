//! What was asked of an index and what it answered, kept plainly.

ghost use Rattle.std.specs.Prelude.{◌≤◌, ◌<◌};

use crate::dead::rows_of;
use crate::dice::Space;
use crate::pages::{contents, incomplete, is_on, lost, root_level};
use crate::runs::fault_of;
use crate::tally::Tally;
use crate::waiting::Waiting;
use index_model::{Entry, Fault, Range, RowAddr};
use page_codec::Page;
use schedule::Event;
use session_calls::Answer;
use std::alloc::{AllocError, Global};
use tests_reference::{
    Interval, PlainAction, PlainAsk, PlainCall, PlainEffect, PlainEnding, actions_are_owned,
    contents_has, is_among, is_bulk_delete_answer, is_insert_answer, is_scan_answer,
    is_scan_answer_so_far, is_there_after,
};

/// Keeps the actions and the calls of a run, and says whether each answer is right.
#[derive(Drop)]
pub struct Judge {
    alloc: Global,
    /// Whether no two entries may share a key.
    unique: bool,
    space: Space,
    /// What was there when the run began.
    start: Vec<Entry>,
    history: Vec<PlainAction>,
    calls: Vec<PlainCall>,
    /// The number of the call that each session runs.
    running: Vec<Option<usize>>,
    /// How many actions were durable when it was last said.
    forced: usize,
    /// The pages as the last action left them.
    pages: Vec<Page>,
    /// Those of them that wait to be written.
    waiting: Waiting,
    /// Whether the store has no place to which it writes pages.
    is_in_memory: bool,
    /// Whether calls of the device are made to fail.
    is_failing: bool,
    /// Whether one has failed, as an answer said.
    has_failed: bool,
    /// How many pages are in memory at once; None if all are.
    frames: Option<u32>,
    /// Whether the log is known to have failed.
    is_stopped: bool,
    tally: Tally,
}

/// Whether a bulk delete or a cleanup is asked for.
fn is_vacuum(ask: &PlainAsk) -> bool {
    matches!(ask, PlainAsk::Deletes(_) | PlainAsk::Cleans)
}

impl Judge {
    /// Of a run that begins with these pages and the entries on them, and its sessions without a call.
    pub fn new(
        alloc: Global,
        unique: bool,
        space: Space,
        pages: Vec<Page>,
        start: Vec<Entry>,
    ) -> Result<Judge, AllocError> {
        let mut running = Vec::new(alloc);
        for _ in 0..space.sessions {
            running.push(None)?;
        }
        Ok(Judge {
            alloc,
            unique,
            space,
            start,
            history: Vec::new(alloc),
            calls: Vec::new(alloc),
            running,
            forced: 0,
            pages,
            waiting: Waiting::new(alloc),
            is_in_memory: false,
            is_failing: false,
            has_failed: false,
            frames: None,
            is_stopped: false,
            tally: Tally::default(),
        })
    }

    /// What the run has come to.
    pub fn tally(&self) -> Tally {
        self.tally
    }

    /// The pages as the last action left them.
    pub fn pages(&self) -> &[Page] {
        self.pages.as_slice()
    }

    /// How many splits are half done.
    fn incomplete(&self) -> usize {
        incomplete(&self.pages)
    }

    /// The store keeps its pages in memory alone.
    pub fn expects_no_writes(&mut self) {
        self.is_in_memory = true;
    }

    /// From now on calls of the device may fail.
    pub fn expects_failures(&mut self) {
        self.is_failing = true;
    }

    /// So many pages are in memory at once.
    pub fn expects_frames(&mut self, frames: u32) {
        self.frames = Some(frames);
    }

    /// Whether the log is known to have failed.
    pub fn is_stopped(&self) -> bool {
        self.is_stopped
    }

    /// How many actions were durable when it was last said.
    pub fn forced(&self) -> usize {
        self.forced
    }

    /// How many actions there were.
    pub fn actions(&self) -> usize {
        self.history.len()
    }

    /// The call that the session runs.
    fn running(&self, session: u32) -> Option<usize> {
        match self.running.get(session as usize) {
            Some(call) => *call,
            None => None,
        }
    }

    /// Whether the session runs a call.
    pub fn is_running(&self, session: u32) -> bool {
        self.running(session).is_some()
    }

    /// The entry of the insert that the session runs, as long as it isn't added.
    fn is_to_add(&self, session: u32) -> Option<Entry> {
        match &self.calls.get(self.running(session)?)? {
            PlainCall {
                ask: PlainAsk::Inserts(entry),
                added: None,
                ..
            } => Some(*entry),
            _ => None,
        }
    }

    /// Whether the session runs a bulk delete.
    fn is_deleting(&self, session: u32) -> bool {
        match self.running(session) {
            Some(call) => matches!(
                self.calls.get(call),
                Some(PlainCall {
                    ask: PlainAsk::Deletes(_),
                    ..
                })
            ),
            None => false,
        }
    }

    fn is_cleaning(&self, session: u32) -> bool {
        match self.running(session) {
            Some(call) => matches!(
                self.calls.get(call),
                Some(PlainCall {
                    ask: PlainAsk::Cleans,
                    ..
                })
            ),
            None => false,
        }
    }

    /// Whether the session runs a bulk delete or a cleanup.
    fn is_vacuuming(&self, session: u32) -> bool {
        self.is_deleting(session) || self.is_cleaning(session)
    }

    /// Whether some session runs one.
    fn one_vacuums(&self) -> bool {
        (0..self.space.sessions).any(|session| self.is_vacuuming(session))
    }

    /// What an action of the session's call, which left these pages, has done: it adds the call's entry, if
    /// that is there now and wasn't before; a bulk delete removes what is there no more.
    fn effect_of(&self, session: u32, pages: &[Page]) -> Result<PlainEffect, AllocError> {
        if self.is_deleting(session) {
            return Ok(PlainEffect::Removes(lost(self.alloc, &self.pages, pages)?));
        }
        Ok(match self.is_to_add(session) {
            Some(entry)
                if is_on(pages, &entry) && !contents_has(&self.start, &self.history, &entry) => {
                PlainEffect::Adds(entry)
            }
            _ => PlainEffect::Reshapes,
        })
    }

    /// Keeps an action of the session's call, which left these pages with these entries. It is right if there
    /// is such a call, and the entries are the contents then.
    pub fn acts(
        &mut self,
        session: u32,
        pages: Vec<Page>,
        entries: &[Entry],
    ) -> Result<bool, AllocError> {
        let Some(by) = self.running(session) else {
            return Ok(false);
        };
        let effect = self.effect_of(session, &pages)?;
        let adds = matches!(&effect, PlainEffect::Adds(_));
        let removes = matches!(&effect, PlainEffect::Removes(_));
        let cleans = self.is_cleaning(session);
        self.tally.reach(root_level(&pages), pages.len());
        self.waiting
            .changes(&self.pages, &pages, self.history.len())?;
        self.pages = pages;
        self.history.push(PlainAction { by, effect })?;
        let is_known = self.counts(by, adds, removes, cleans);
        Ok(is_known && self.are_contents(entries, self.history.len()) && self.may_be(entries))
    }

    /// Whether these may be the contents: on a unique index no two of them share a key.
    fn may_be(&self, entries: &[Entry]) -> bool {
        !self.unique || entries.iter().all(|entry| has_key_once(entries, entry))
    }

    /// Counts the last action, of the call of this number, by what it has done; false if there is no such
    /// call.
    fn counts(&mut self, by: usize, adds: bool, removes: bool, cleans: bool) -> bool {
        let Some(call) = self.calls.get_mut(by) else {
            return false;
        };
        if adds {
            self.tally.add();
            call.added = Some(self.history.len());
        } else if removes {
            self.tally.remove();
        } else if cleans {
            self.tally.clean();
        } else {
            self.tally.reshape(call.added.is_none());
        }
        true
    }

    /// Keeps the answer of an event, and says whether it is right. The event's action is kept before.
    pub fn hears(&mut self, event: &Event, answer: &Answer) -> Result<bool, AllocError> {
        self.tally.hear(answer);
        self.has_failed = self.has_failed || says(answer, Fault::Io);
        // The log is stopped by a device call alone, whose failure was answered.
        self.is_stopped = self.is_stopped || self.has_failed && says(answer, Fault::Stopped);
        match event {
            Event::Insert(_, _)
            | Event::Scan(_, _)
            | Event::Bulk(_, _)
            | Event::Cleanup(_)
            | Event::Force
            | Event::Flush
            | Event::Checkpoint
                if self.is_stopped => { Ok(matches!(answer, Answer::Refused(Fault::Stopped))) }
            Event::Step(session) if self.is_stopped => Ok(self.stops(*session, answer)),
            Event::Insert(session, entry) => self.begins(
                *session,
                PlainAsk::Inserts(*entry),
                answer,
            ),
            Event::Scan(session, range) => self.begins(*session, PlainAsk::Scans(*range), answer),
            Event::Bulk(session, set) => match rows_of(self.alloc, self.space, *set)? {
                Some(rows) => self.begins(*session, PlainAsk::Deletes(rows), answer),
                None => Ok(matches!(answer, Answer::Refused(Fault::NoSession))),
            },
            Event::Cleanup(session) => self.begins(*session, PlainAsk::Cleans, answer),
            Event::Step(session) => Ok(self.steps(*session, answer)),
            Event::Next(session) => self.gives(*session, answer),
            Event::End(session) => Ok(match answer {
                Answer::Ended => self.ends(*session, PlainEnding::IsGivenUp),
                _ => self.is_refused_idle(*session, answer),
            }),
            Event::Force => Ok(self.forces(answer)),
            Event::Flush => Ok(self.flushes(answer)),
            Event::Checkpoint => Ok(self.checkpoints(answer)),
        }
    }

    fn begins(&mut self, session: u32, ask: PlainAsk, answer: &Answer) -> Result<bool, AllocError> {
        match answer {
            Answer::Begun => {}
            Answer::Refused(Fault::SessionBusy) => return Ok(self.is_running(session)),
            Answer::Refused(Fault::NoSession) => return Ok(session as usize >= self.running.len()),
            Answer::Refused(Fault::VacuumRunning) => {
                return Ok(is_vacuum(&ask) && self.one_vacuums());
            }
            _ => return Ok(false),
        }
        if self.is_running(session) || is_vacuum(&ask) && self.one_vacuums() {
            return Ok(false);
        }
        let Some(place) = self.running.get_mut(session as usize) else {
            return Ok(false);
        };
        *place = Some(self.calls.len());
        self.calls.push(PlainCall {
            session: u8::try_from(session).unwrap_or(u8::MAX),
            ask,
            began: self.history.len(),
            given: Vec::new(self.alloc),
            added: None,
            ending: PlainEnding::Runs,
            until: 0,
        })?;
        Ok(true)
    }

    fn is_refused_idle(&self, session: u32, answer: &Answer) -> bool {
        matches!(answer, Answer::Refused(Fault::NoSession)) && !self.is_running(session)
    }

    fn steps(&mut self, session: u32, answer: &Answer) -> bool {
        match answer {
            Answer::Going | Answer::Ready(_) | Answer::Refused(Fault::Blocked(_)) => {
                self.is_running(session)
            }
            Answer::Added { action, unfinished } => {
                self.may_leave(*unfinished)
                    && self.ends(
                        session,
                        PlainEnding::HasAdded(*action as usize, *unfinished),
                    )
            }
            Answer::Done => self.ends(session, PlainEnding::HasFinished),
            Answer::Finished(stats) => {
                let cleans = self.is_cleaning(session);
                self.tally.finish(cleans);
                self.ends(session, PlainEnding::HasVacuumed(*stats))
            }
            Answer::Refused(Fault::NoSession) => !self.is_running(session),
            Answer::Refused(Fault::LogFull) if self.is_vacuuming(session) => {
                self.ends(session, PlainEnding::HasFailed(Fault::LogFull))
            }
            Answer::Refused(fault) if self.may_lack_a_page(*fault) => {
                self.ends(session, PlainEnding::HasFailed(*fault))
            }
            Answer::Refused(fault) => {
                self.is_to_add(session).is_some()
                    && self.may_refuse(*fault)
                    && self.ends(session, PlainEnding::HasFailed(*fault))
            }
            _ => false,
        }
    }

    /// Whether a page may not be had for this: a device call has failed, or the pinned pages, two of each
    /// call, and the four of an act may be more than the frames.
    fn may_lack_a_page(&self, fault: Fault) -> bool {
        match (fault, self.frames) {
            (Fault::Io, _) => self.is_failing,
            (Fault::NoFrame, Some(frames)) => {
                let calls = self.running.iter().filter(|call| call.is_some()).count();
                calls.saturating_mul(2).saturating_add(4) > frames as usize
            }
            _ => false,
        }
    }

    /// Whether an insert may be refused with this, if nothing fails.
    fn may_refuse(&self, fault: Fault) -> bool {
        match fault {
            Fault::Exists | Fault::IndexFull | Fault::LogFull => true,
            Fault::KeyExists(_) => self.unique,
            _ => false,
        }
    }

    /// Whether a split may be left unfinished for this.
    fn may_leave(&self, unfinished: Option<Fault>) -> bool {
        match unfinished {
            None | Some(Fault::IndexFull | Fault::LogFull) => true,
            Some(fault) => self.may_lack_a_page(fault),
        }
    }

    /// A step on a log that has failed.
    fn stops(&mut self, session: u32, answer: &Answer) -> bool {
        match answer {
            Answer::Added {
                action,
                unfinished: Some(Fault::Stopped),
            } => {
                self.ends(
                    session,
                    PlainEnding::HasAdded(*action as usize, Some(Fault::Stopped)),
                )
            }
            Answer::Refused(Fault::Stopped) => {
                !self.is_running(session)
                    || self.ends(session, PlainEnding::HasFailed(Fault::Stopped))
            }
            _ => false,
        }
    }

    fn gives(&mut self, session: u32, answer: &Answer) -> Result<bool, AllocError> {
        let Some(number) = self.running(session) else {
            return Ok(self.is_refused_idle(session, answer));
        };
        let Some(call) = self.calls.get_mut(number) else {
            return Ok(false);
        };
        match answer {
            Answer::Gave(Some(entry)) => call.given.push(*entry)?,
            Answer::Gave(None) => {}
            Answer::Refused(Fault::NoSession) => {
                return Ok(matches!(
                    &call.ask,
                    PlainAsk::Inserts(_) | PlainAsk::Deletes(_) | PlainAsk::Cleans
                ));
            }
            _ => return Ok(false),
        }
        Ok(self.is_right(number))
    }

    fn forces(&mut self, answer: &Answer) -> bool {
        match answer {
            Answer::Forced(count) => self.is_durable(*count),
            Answer::Refused(Fault::Io) => {
                self.is_stopped = true;
                self.is_failing
            }
            _ => false,
        }
    }

    /// A failed checkpoint may have written some pages, and a page that is brought into few frames may have:
    /// then it isn't known which page waits longest.
    fn flushes(&mut self, answer: &Answer) -> bool {
        match answer {
            Answer::Flushed(block) if self.is_in_memory => block.is_none(),
            Answer::Flushed(block) => self.waiting.writes(*block, self.is_failing),
            Answer::Refused(Fault::Io) => self.is_failing,
            _ => false,
        }
    }

    fn checkpoints(&mut self, answer: &Answer) -> bool {
        match answer {
            Answer::Checkpointed(count) => {
                self.waiting.clear();
                self.is_durable(*count)
            }
            Answer::Refused(Fault::Io) => self.is_failing,
            _ => false,
        }
    }

    fn is_durable(&mut self, count: u64) -> bool {
        self.forced = self.history.len();
        count == self.forced as u64
    }

    /// The session's call has ended so: whether it was right to, and every action so far is owned.
    fn ends(&mut self, session: u32, ending: PlainEnding) -> bool {
        let Some(number) = self.running(session) else {
            return false;
        };
        let Some(call) = self.calls.get_mut(number) else {
            return false;
        };
        call.ending = ending;
        call.until = self.history.len();
        if let Some(place) = self.running.get_mut(session as usize) {
            *place = None;
        }
        self.is_right(number) && actions_are_owned(&self.start, &self.history, &self.calls)
    }

    /// Whether the call of this number has answered what is right, so far or at its end.
    fn is_right(&self, number: usize) -> bool {
        let Some(call) = self.calls.get(number) else {
            return false;
        };
        let until = match &call.ending {
            PlainEnding::Runs => self.history.len(),
            _ => call.until,
        };
        if call.began > until || until >= 1_000_000 {
            return false;
        }
        match &call.ask {
            PlainAsk::Inserts(entry) => self.is_insert_right(number, call, entry, until),
            PlainAsk::Scans(range) => self.is_scan_right(call, range, until),
            PlainAsk::Deletes(rows) => self.is_delete_right(number, call, rows, until),
            PlainAsk::Cleans => !matches!(
                &call.ending,
                PlainEnding::HasAdded(_, _) | PlainEnding::HasFinished
            ),
        }
    }

    /// Whether an insert, up to this length of the history, has answered what is right.
    fn is_insert_right(&self, number: usize, call: &PlainCall, entry: &Entry, until: usize) -> bool
        requires short { until < 1_000_000 }
    {
        is_insert_answer(
            &self.start,
            &self.history,
            number,
            Interval {
                began: call.began,
                ended: until,
            },
            entry,
            call.added,
            &call.ending,
        )
    }

    /// Whether a scan, up to this length of the history, has given what is right.
    fn is_scan_right(&self, call: &PlainCall, range: &Range, until: usize) -> bool
        requires interval { call.now.began ≤ until }
        requires short { until < 1_000_000 }
    {
        let (start, history) = (&self.start, &self.history);
        match &call.ending {
            PlainEnding::HasFinished => {
                is_scan_answer(start, history, range, call.began, until, &call.given)
            }
            PlainEnding::HasAdded(_, _) | PlainEnding::HasVacuumed(_) => false,
            _ => is_scan_answer_so_far(start, history, range, call.began, until, &call.given),
        }
    }

    /// Whether a bulk delete, up to this length of the history, has answered what is right.
    fn is_delete_right(
        &self,
        number: usize,
        call: &PlainCall,
        rows: &[RowAddr],
        until: usize,
    ) -> bool {
        match &call.ending {
            PlainEnding::HasVacuumed(stats) => is_bulk_delete_answer(
                &self.start,
                &self.history,
                number,
                call.began,
                until,
                rows,
                stats,
            ),
            PlainEnding::HasAdded(_, _) | PlainEnding::HasFinished => false,
            _ => true,
        }
    }

    /// Whether the last call is a bulk delete that tells how many entries there are now, or that found the
    /// log full.
    pub fn tells_all(&self) -> bool {
        match self.calls.last() {
            Some(
                PlainCall {
                    ending: PlainEnding::HasVacuumed(stats),
                    ..
                },
            ) => match contents(self.alloc, &self.pages) {
                Ok(entries) => stats.num_index_tuples == entries.len() as u64,
                Err(_) => false,
            },
            Some(
                PlainCall {
                    ending: PlainEnding::HasFailed(Fault::LogFull),
                    ..
                },
            ) => true,
            _ => false,
        }
    }

    /// Whether the last call has given exactly the contents.
    pub fn has_given_all(&self) -> bool {
        match self.calls.last() {
            Some(call) => self.are_contents(&call.given, self.history.len()),
            None => false,
        }
    }

    /// Whether these are exactly the contents after the first k actions.
    pub fn are_contents(&self, entries: &[Entry], k: usize) -> bool {
        entries.iter().all(|entry| is_there_after(&self.start, &self.history, k, entry))
            && self
                .start
                .iter()
                .all(|entry| self.has_if_there(entries, k, entry))
            && self.history.iter().all(|action| match &action.effect {
                PlainEffect::Adds(entry) => self.has_if_there(entries, k, entry),
                _ => true,
            })
    }

    /// Keeps a crash after which this judge begins. It is right if what was there then are the contents after
    /// some first part of the actions that holds every forced one.
    pub fn crashes(&mut self, next: &Judge) -> bool {
        let entries = next.start.as_slice();
        let loses = !self.are_contents(entries, self.history.len());
        self.tally.crash(loses, next.incomplete() > 0);
        (self.forced..self.history.len() + 1).any(|k| self.are_contents(entries, k))
    }

    fn has_if_there(&self, entries: &[Entry], k: usize, entry: &Entry) -> bool {
        is_among(entries, entry) || !is_there_after(&self.start, &self.history, k, entry)
    }
}

/// Whether one of these has the entry's key.
fn has_key_once(entries: &[Entry], entry: &Entry) -> bool {
    entries
        .iter()
        .filter(|other| other.key == entry.key)
        .count()
        == 1
}

/// Whether the answer says that this kept it from more.
fn says(answer: &Answer, fault: Fault) -> bool {
    match fault_of(answer) {
        Some(other) => other == fault,
        None => false,
    }
}

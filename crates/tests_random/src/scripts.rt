//! Scripts: lists of what is done, one after the other.

use index_model::{Entry, Key, Range, RowAddr};
use schedule::Event;
use std::alloc::{AllocError, Global};

/// A line of a script.
#[derive(Clone, Copy)]
pub enum Line {
    Insert(u32, Entry),
    /// A scan of all.
    Scan(u32),
    Bulk(u32, u32),
    Cleanup(u32),
    Step(u32),
    /// Steps of the session's call until one is answered otherwise than by `Going`.
    Run(u32),
    Next(u32),
    End(u32),
    Force,
    Flush,
    Checkpoint,
}

impl Line {
    /// The event that is made, once or again.
    pub fn event(&self) -> Event {
        match self {
            Line::Insert(session, entry) => Event::Insert(*session, *entry),
            Line::Scan(session) => Event::Scan(*session, ALL),
            Line::Bulk(session, set) => Event::Bulk(*session, *set),
            Line::Cleanup(session) => Event::Cleanup(*session),
            Line::Step(session) | Line::Run(session) => Event::Step(*session),
            Line::Next(session) => Event::Next(*session),
            Line::End(session) => Event::End(*session),
            Line::Force => Event::Force,
            Line::Flush => Event::Flush,
            Line::Checkpoint => Event::Checkpoint,
        }
    }
}

const ALL: Range = Range {
    from: None,
    below: None,
};

/// A part of a script: one line or more.
#[derive(Clone, Copy)]
pub enum Part {
    One(Line),
    /// An insert of session 0 of the entry of this number and this row, run to its end.
    Put(u16, u32),
    /// Such an insert of a session is begun.
    Insert(u32, u16, u32),
    /// Entries of the keys from 0x61 on, so many.
    Fill(u16),
    /// So many entries of the key 0x61, and a force after each.
    Forces(u16),
    /// So many steps of a session's call.
    Steps(u32, u32),
    /// So many entries of a session's scan are taken.
    Nexts(u32, u32),
    /// A scan of all is begun, and steps of it are made until one doesn't go on.
    Scan(u32),
    /// A bulk delete by session 2 is run to its end.
    Bulk(u32),
    /// A cleanup by session 2 is run to its end.
    Cleanup,
}

/// A script that is written.
#[derive(Drop)]
pub struct Script {
    pub lines: Vec<Line>,
}

/// The rows of the scripts' entries have blocks below this one.
pub const ROWS: u32 = 17;

/// After the sets of each row and of all: the set of the rows 4 to 6, that of 1 to 3, and that of 9 and 10.
pub const FROM_4: u32 = ROWS + 1;

pub const FROM_1: u32 = ROWS + 2;

pub const FROM_9: u32 = ROWS + 3;

/// The key of one byte, or of two if the number has more.
fn key(number: u16) -> Key {
    let bytes = number.to_be_bytes();
    let from = if number < 256 { 1 } else { 0 };
    Key::new(&bytes[from..]).unwrap_or(Key::EMPTY)
}

fn entry(number: u16, row: u32) -> Entry {
    Entry {
        key: key(number),
        row: RowAddr::new(row, 1).unwrap_or_default(),
    }
}

impl Script {
    /// These parts, one after the other.
    fn of(alloc: Global, parts: &[Part]) -> Result<Script, AllocError> {
        let mut script = Script {
            lines: Vec::new(alloc),
        };
        script.add_all(parts)?;
        Ok(script)
    }

    fn add_all(&mut self, parts: &[Part]) -> Result<(), AllocError> {
        for part in parts {
            self.add(*part)?;
        }
        Ok(())
    }

    fn add(&mut self, part: Part) -> Result<(), AllocError> {
        match part {
            Part::One(line) => self.one(line),
            Part::Put(number, row) => self.put(number, row),
            Part::Insert(session, number, row) => self.one(Line::Insert(
                session,
                entry(number, row),
            )),
            Part::Fill(count) => self.fill(count),
            Part::Forces(count) => self.forces(count),
            Part::Steps(session, count) => self.many(&Line::Step(session), count),
            Part::Nexts(session, count) => self.many(&Line::Next(session), count),
            Part::Scan(session) => self.two(Line::Scan(session), Line::Run(session)),
            Part::Bulk(set) => self.two(Line::Bulk(2, set), Line::Run(2)),
            Part::Cleanup => self.two(Line::Cleanup(2), Line::Run(2)),
        }
    }

    fn one(&mut self, line: Line) -> Result<(), AllocError> {
        self.lines.push(line)?;
        Ok(())
    }

    fn two(&mut self, first: Line, second: Line) -> Result<(), AllocError> {
        self.one(first)?;
        self.one(second)
    }

    fn many(&mut self, line: &Line, count: u32) -> Result<(), AllocError> {
        for _ in 0..count {
            self.one(*line)?;
        }
        Ok(())
    }

    fn put(&mut self, number: u16, row: u32) -> Result<(), AllocError> {
        self.two(Line::Insert(0, entry(number, row)), Line::Run(0))
    }

    fn fill(&mut self, count: u16) -> Result<(), AllocError> {
        for n in 0..count {
            self.put(n.saturating_add(0x61), u32::from(n).saturating_add(1))?;
        }
        Ok(())
    }

    fn forces(&mut self, count: u16) -> Result<(), AllocError> {
        for n in 0..count {
            self.put(0x61, u32::from(n).saturating_add(1))?;
            self.one(Line::Force)?;
        }
        Ok(())
    }
}

/// A split that another insert finishes.
pub fn incomplete_split(alloc: Global) -> Result<Script, AllocError> {
    let parts = [
        Part::Fill(4),
        Part::Insert(1, 0x65, 5),
        Part::Steps(1, 3),
        Part::One(Line::End(1)),
        Part::One(Line::Force),
        Part::Put(0x66, 6),
    ];
    Script::of(alloc, parts.as_slice())
}

/// A scan whose saved link leads on, beside inserts.
pub fn saved_link(alloc: Global) -> Result<Script, AllocError> {
    let parts = [
        Part::Fill(5),
        Part::Put(0x60, 9),
        Part::Scan(1),
        Part::Put(0x6180, 7),
        Part::Nexts(1, 5),
        Part::One(Line::Run(1)),
        Part::Nexts(1, 3),
        Part::One(Line::Run(1)),
    ];
    Script::of(alloc, parts.as_slice())
}

/// A scan on whose leaf a bulk delete, two cleanups and inserts go on.
pub fn after_the_frontier(alloc: Global) -> Result<Script, AllocError> {
    let parts = [
        Part::Fill(8),
        Part::Bulk(FROM_4),
        Part::Scan(1),
        Part::Nexts(1, 3),
        Part::Cleanup,
        Part::Steps(1, 1),
        Part::Bulk(FROM_1),
        Part::One(Line::Flush),
        Part::Cleanup,
        Part::Put(0x62, 9),
        Part::Put(0x61, 9),
        Part::Put(0x60, 9),
        Part::Put(0x63, 3),
        Part::One(Line::Run(1)),
        Part::Nexts(1, 3),
        Part::One(Line::Run(1)),
    ];
    Script::of(alloc, parts.as_slice())
}

/// A deleted page that is used again only when no call can lead to it.
pub fn delayed_reuse(alloc: Global) -> Result<Script, AllocError> {
    let parts = [
        Part::Fill(8),
        Part::Bulk(FROM_4),
        Part::Insert(1, 0x65, 9),
        Part::Steps(1, 2),
        Part::Cleanup,
        Part::One(Line::Force),
        Part::Put(0x60, 9),
        Part::Put(0x6080, 9),
        Part::Cleanup,
        Part::One(Line::Run(1)),
        Part::Put(0x6040, 9),
        Part::Put(0x6020, 9),
    ];
    Script::of(alloc, parts.as_slice())
}

/// A bulk delete that waits for a scan.
pub fn interlock(alloc: Global) -> Result<Script, AllocError> {
    let parts = [
        Part::Fill(5),
        Part::Scan(1),
        Part::One(Line::Bulk(2, 1)),
        Part::One(Line::Run(2)),
        Part::One(Line::End(1)),
        Part::One(Line::Run(2)),
    ];
    Script::of(alloc, parts.as_slice())
}

/// A bulk delete that goes back to a page that was split after it.
pub fn going_back(alloc: Global) -> Result<Script, AllocError> {
    let parts = [
        Part::Fill(8),
        Part::Bulk(FROM_1),
        Part::Cleanup,
        Part::Put(0x69, 9),
        Part::Put(0x6a, 10),
        Part::One(Line::Checkpoint),
        Part::One(Line::Bulk(2, FROM_9)),
        Part::Steps(2, 3),
        Part::Put(0x6b, 11),
        Part::One(Line::Run(2)),
    ];
    Script::of(alloc, parts.as_slice())
}

/// Entries of keys that are there, of keys whose entries were deleted, and of one key by two sessions.
pub fn one_entry_a_key(alloc: Global) -> Result<Script, AllocError> {
    let parts = [
        Part::Fill(6),
        Part::Put(0x61, 9),
        Part::Put(0x64, 9),
        Part::Bulk(FROM_4),
        Part::Put(0x64, 9),
        Part::Put(0x61, 9),
        Part::One(Line::Force),
        Part::Insert(1, 0x70, 1),
        Part::Insert(2, 0x70, 2),
        Part::Steps(1, 2),
        Part::Steps(2, 2),
        Part::One(Line::Run(1)),
        Part::One(Line::Run(2)),
        Part::One(Line::Checkpoint),
        Part::Put(0x70, 2),
    ];
    Script::of(alloc, parts.as_slice())
}

/// Forces and a checkpoint between inserts.
pub fn forces(alloc: Global) -> Result<Script, AllocError> {
    let parts = [
        Part::Forces(15),
        Part::Put(0x61, 16),
        Part::One(Line::Checkpoint),
        Part::Put(0x61, 16),
    ];
    Script::of(alloc, parts.as_slice())
}

/// Inserts until no block is left.
pub fn full(alloc: Global) -> Result<Script, AllocError> {
    let parts = [
        Part::Fill(15),
        Part::Scan(0),
        Part::Nexts(0, 4),
        Part::One(Line::End(0)),
        Part::One(Line::Force),
    ];
    Script::of(alloc, parts.as_slice())
}

//! Random events, the same ones for the same seed.

ghost use Rattle.std.specs.Prelude.{◌<◌};

use index_model::{Entry, Key, Range, RowAddr};
use schedule::Event;

/// What the events of a run are about.
#[derive(Clone, Copy)]
pub struct Space {
    /// How many sessions there are.
    pub sessions: u32,
    /// How many keys, 1 to 256.
    pub keys: u32,
    /// How many rows each key may have.
    pub rows: u32,
    /// How many forces there are for a checkpoint.
    pub forces: u32,
    /// Whether there are bulk deletes and cleanups.
    pub deletes: bool,
    /// Whether there are the sets of the scripts, after the others.
    pub scripted: bool,
}

/// Gives numbers that look random.
#[derive(Drop)]
pub struct Dice {
    state: u64,
}

impl Dice {
    pub fn new(seed: u64) -> Dice {
        Dice { state: seed }
    }

    /// A number below this one.
    pub fn roll(&mut self, sides: u32) -> u32
        requires { 0 < sides }
        ensures { result < sides }
    {
        self.state = self
            .state
            .wrapping_mul(6_364_136_223_846_793_005)
            .wrapping_add(1_442_695_040_888_963_407);
        let number = u32::try_from(self.state >> 33).unwrap_or(0);
        number % sides
    }

    /// A number from 0 to below this one, or 0.
    pub fn pick(&mut self, count: u32) -> u32 {
        self.roll(count.max(1))
    }

    /// The empty key, or one of a byte.
    fn key(&mut self, space: Space) -> Key {
        let byte = u8::try_from(self.pick(space.keys)).unwrap_or(0);
        if byte == 0 {
            return Key::EMPTY;
        }
        Key::new(&[byte]).unwrap_or(Key::EMPTY)
    }

    /// An entry.
    pub fn entry(&mut self, space: Space) -> Entry {
        let key = self.key(space);
        let row = RowAddr::new(self.pick(space.rows), 1).unwrap_or_default();
        Entry { key, row }
    }

    fn end(&mut self, space: Space) -> Option<Key> {
        if self.roll(3) == 0 {
            None
        } else {
            Some(self.key(space))
        }
    }

    fn range(&mut self, space: Space) -> Range {
        let from = self.end(space);
        let below = self.end(space);
        Range { from, below }
    }

    /// A session, or rarely the one after them.
    fn session(&mut self, space: Space) -> u32 {
        if self.roll(32) == 0 {
            space.sessions
        } else {
            self.pick(space.sessions)
        }
    }

    /// A force, or sometimes a checkpoint.
    fn upkeep(&mut self, space: Space) -> Event {
        if self.pick(space.forces.saturating_add(1)) == 0 {
            Event::Checkpoint
        } else {
            Event::Force
        }
    }

    /// An event.
    pub fn event(&mut self, space: Space) -> Event {
        let session = self.session(space);
        match self.roll(54) {
            0..9 => Event::Insert(session, self.entry(space)),
            9..13 => Event::Scan(session, self.range(space)),
            13..37 => Event::Step(session),
            37..46 => Event::Next(session),
            46 => Event::End(session),
            47 => Event::Flush,
            48 | 49 if space.deletes => Event::Bulk(
                session,
                self.pick(space.rows.saturating_add(2)),
            ),
            50 | 51 if space.deletes => Event::Cleanup(session),
            _ => self.upkeep(space),
        }
    }
}

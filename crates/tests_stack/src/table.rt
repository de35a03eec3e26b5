//! The places and values of the table of single bytes.

ghost use Rattle.std.specs.Prelude.{◌<◌};

use crate::edits::Edit;

/// The table, from a row on: the same rows for the same number.
#[derive(Drop)]
pub struct Table {
    state: u64,
    /// How many blocks the pages are of.
    blocks: u64,
}

impl Table {
    /// A part of the table, for the pages of so many blocks from the first on.
    pub fn new(part: u64, blocks: u64) -> Table {
        Table {
            state: part.wrapping_mul(2_862_933_555_777_941_757),
            blocks,
        }
    }

    /// A number below this one.
    pub fn number(&mut self, below: u64) -> u64
        requires { 0 < below }
        ensures { result < below }
    {
        self.state = self
            .state
            .wrapping_mul(6_364_136_223_846_793_005)
            .wrapping_add(1_442_695_040_888_963_407);
        (self.state >> 33) % below
    }

    /// A place in a key, a row or a child, from the begin of its item.
    fn in_an_item(&mut self) -> u64
        ensures { result < 75 }
    {
        match self.number(2) {
            0 => self.number(5),
            _ => 65 + self.number(10),
        }
    }

    /// A place in a page: three eighths in its links, three in its high key and items, one in its kind,
    /// level, state and flags, one anywhere in its first 416 bytes.
    fn in_a_page(&mut self) -> u64
        ensures { result < 4096 }
    {
        match self.number(8) {
            0..3 => 12 + 4 * self.number(2),
            3 => 36 + self.in_an_item(),
            4 => 107 + 71 * self.number(4) + self.in_an_item(),
            5 => 107 + 75 * self.number(4) + self.in_an_item(),
            6 => 8 + self.number(4),
            _ => self.number(416),
        }
    }

    /// A place in the log: an eighth in the head of its first group, the others in its first images.
    fn in_the_log(&mut self) -> u64 {
        match self.number(8) {
            0 => 4_096 + self.number(5),
            _ => 4_101 + 4_096 * self.number(4) + self.in_a_page(),
        }
    }

    /// The next row: one in sixteen in the superblock, three in the log, the others in pages. Half of the
    /// values are small, as numbers of blocks are.
    pub fn next(&mut self) -> Edit {
        let at = match self.number(16) {
            0 => self.number(40),
            1..4 => self.in_the_log(),
            _ => {
                let block = self.number(self.blocks.max(1));
                let page = 69_632u64.saturating_add(block.saturating_mul(4_096));
                page.saturating_add(self.in_a_page())
            }
        };
        let value = match self.number(2) {
            0 => self.number(24),
            _ => self.number(256),
        };
        Edit::Alters(at, u8::try_from(value).unwrap_or(0))
    }
}

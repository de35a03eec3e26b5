//! The lines of the input, which threads draw.

use std::io::{self, BufRead};
use std::mem;

/// Why no line is drawn.
#[derive(Drop)]
pub enum Pause {
    /// Lines are drawn.
    None,
    /// The input has ended.
    Ended,
    /// A stream has failed so.
    Failed(io::Error),
}

/// The lines of an input. Each is drawn once, with its number, counted from 1.
#[derive(Drop)]
pub struct Requests<I> {
    input: I,
    count: u64,
    pause: Pause,
}

impl<I: BufRead> Requests<I> {
    /// All lines of the input.
    pub fn new(input: I) -> Requests<I> {
        Requests {
            input,
            count: 0,
            pause: Pause::None,
        }
    }

    /// Draws the next line, and answers its number. None: the input has ended, or a stream has failed.
    pub fn draw(&mut self, line: &mut Vec<u8>) -> Option<u64> {
        if !matches!(self.pause, Pause::None) {
            return None;
        }
        line.clear();
        match self.input.read_until(b'\n', line) {
            Ok(0) => self.pause = Pause::Ended,
            Ok(_) => {
                self.count = self.count.saturating_add(1);
                return Some(self.count);
            }
            Err(error) => self.pause = Pause::Failed(error),
        }
        None
    }

    /// No line is drawn any more, because a stream has failed so.
    pub fn fail(&mut self, error: io::Error) {
        self.pause = Pause::Failed(error);
    }

    /// Why no line is drawn, which is asked once.
    pub fn end(&mut self) -> Pause {
        mem::replace(&mut self.pause, Pause::Ended)
    }
}

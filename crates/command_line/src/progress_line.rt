//! A line that tells how far long work is.

use index_model::{Noted, Progress, reckon};
use sessions::{Gate, Told};
use std::io::{self, Write};
use std::sync::Mutex;

/// How many pages or jobs are done from one writing of the line to the next.
const STEP: u64 = 1_024;

/// Where the line is written, and whether one is there.
#[derive(Drop)]
struct Screen<'a, E> {
    err: &'a mut E,
    is_written: bool,
}

impl<E: Write> Screen<'_, E> {
    fn show(&mut self, count: u64, all: u64, what: &str) -> io::Result<()> {
        self.is_written = true;
        if all == 0 {
            // The spaces cover what was told of the pages.
            write!(self.err, "\r{count} entries copied   ")
        } else {
            write!(self.err, "\r{count} of {all} {what}")
        }
    }

    fn end(&mut self) -> io::Result<()> {
        if !self.is_written {
            return Ok(());
        }
        self.is_written = false;
        writeln!(self.err)
    }
}

/// A line on a stream that tells how far long work is, if that is asked for. It is written anew in place. It
/// is left out if the stream fails, or while another thread writes it. Of work whose whole isn't known, 0, it
/// tells entries.
#[derive(Drop)]
pub struct ProgressLine<'a, E> {
    screen: Mutex<Screen<'a, E>>,
    /// What is counted.
    what: &'static str,
    is_asked: bool,
}

impl<'a, E> ProgressLine<'a, E> {
    /// A line on this stream, of which nothing is written yet.
    pub fn new(err: &'a mut E, what: &'static str, is_asked: bool) -> ProgressLine<'a, E> {
        let screen = Mutex::new(Screen {
            err,
            is_written: false,
        });
        ProgressLine {
            screen,
            what,
            is_asked,
        }
    }
}

impl<E: Write> Progress for ProgressLine<'_, E> {
    fn done(&self, count: u64, all: u64) {
        if !self.is_asked || (all != 0 && count % STEP != 0 && count != all) {
            return;
        }
        if let Some(mut screen) = self.screen.try_lock() {
            let _ = screen.show(count, all, self.what);
        }
    }

    fn end(&self) {
        if let Some(mut screen) = self.screen.try_lock() {
            let _ = screen.end();
        }
    }
}

/// Tells of each job that a worker takes.
#[derive(Drop)]
pub struct JobGate<'a, P> {
    pub progress: &'a P,
    /// How many jobs there are.
    pub all: u64,
}

impl<P: Progress> Gate for JobGate<'_, P> {
    type Hand = Noted<Told>;

    fn hand(&self, _worker: u32) -> Noted<Told> {
        reckon(&())
    }

    fn taken(&self, hand: &mut Noted<Told>, _worker: u32, job: u32) {
        *hand = reckon(&(&*hand, job));
        self.progress.done(u64::from(job) + 1, self.all);
    }

    fn may_wait(&self) -> bool {
        false
    }
}

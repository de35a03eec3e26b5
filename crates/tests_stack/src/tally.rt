//! How often each outcome came.

use crate::trial::Outcome;

/// How often each outcome came, damages by their numbers.
#[derive(Clone, Copy, Debug)]
pub struct Tally {
    not_opened: u32,
    damaged: [u32; 14],
    sound: u32,
}

impl Tally {
    /// Of no row.
    pub fn new() -> Tally {
        Tally {
            not_opened: 0,
            damaged: [0; 14],
            sound: 0,
        }
    }

    /// Counts an outcome: what went wrong, if it is that.
    pub fn counts(&mut self, outcome: Outcome) -> Option<&'static str> {
        match outcome {
            Outcome::NotOpened => self.not_opened = self.not_opened.saturating_add(1),
            Outcome::Damaged(number) => {
                let number = usize::from(number % 14);
                self.damaged[number] = self.damaged[number].saturating_add(1);
            }
            Outcome::Sound => self.sound = self.sound.saturating_add(1),
            Outcome::Wrong(what) => return Some(what),
        }
        None
    }

    /// Whether each kind of outcome came so often.
    pub fn is_of_all_kinds(&self, least: u32) -> bool {
        let mut damaged = 0u32;
        for count in self.damaged {
            damaged = damaged.saturating_add(count);
        }
        self.not_opened >= least && damaged >= least && self.sound >= least
    }
}

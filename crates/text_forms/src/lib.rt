//! The forms of what users write and read: words, numbers, keys, rows, entries, ranges, answers and pages as
//! text.
#![tactic(auto)]

mod answer;
mod dump;
mod lines;
mod numbers;
mod show;
mod values;
mod version;
mod words;

pub use answer::{print_answer, print_entry, print_refused};
pub use dump::{print_entries, print_page};
pub use lines::first_line;
pub use numbers::{key, number, number_u32, row};
pub use show::{ShownBound, ShownEntry, ShownKey, ShownLink, ShownNamed, ShownRow};
pub use values::{Rows, all_rows, end, entry, range};
pub use version::{VERSION, is_version, print_version};
pub use words::{Words, is_word};

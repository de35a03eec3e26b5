//! What the system said, for whoever mends it.

use std::io::{self, Write};

/// Says on `err` what the system said of this, if it said something. No clause tells of it.
pub fn say_error<E: Write>(err: &mut E, what: &str, error: &Option<io::Error>) {
    if let Some(error) = error {
        let _ = writeln!(err, "ledger: {what}: {error}");
    }
}

//! Keys, rows, entries and bounds as text, and what a fault names.

ghost use Rattle.std.specs.Prelude.{◌≡◌, ◌≤◌, ◌*◌, Some, length};
ghost use Rattle.hex.specs.Hex.{encode_lower};

use index_model::{Bound, Entry, Fault, Key, RowAddr};
use std::{fmt, str};

/// A key as text: lower-case hex, `-` for the empty one.
#[derive(Clone, Copy)]
pub struct ShownKey {
    pub key: Key,
}

impl fmt::Display for ShownKey {
    ghost use Rattle.std.specs.Prelude.{Some};
    ghost use Rattle.text_forms.specs.Spelling.{key_text};

    ghost output = { λ shown. Some (key_text shown.key) };

    fn fmt<W: fmt::Write>(&self, f: &mut fmt::Formatter<W>) -> fmt::Result {
        let bytes = self.key.bytes();
        if bytes.is_empty() {
            return f.write_str("-");
        }
        let mut digits = [0; 128];
        let digits = &mut digits[..2 * bytes.len()];
        put_digits(bytes, digits);
        match str::from_utf8(digits) {
            Ok(text) => f.write_str(text),
            Err(_) => Err(fmt::Error),
        }
    }
}

/// A row as text: `(block,offset)`.
#[derive(Clone, Copy)]
pub struct ShownRow {
    pub row: RowAddr,
}

impl fmt::Display for ShownRow {
    ghost use Rattle.std.specs.Prelude.{Some};
    ghost use Rattle.text_forms.specs.Spelling.{row_text};

    ghost output = { λ shown. Some (row_text shown.row) };

    fn fmt<W: fmt::Write>(&self, f: &mut fmt::Formatter<W>) -> fmt::Result {
        let block = self.row.block();
        let offset = self.row.offset();
        write!(f, "({block},{offset})")
    }
}

/// An entry as text: its key and its row, parted by one space.
#[derive(Clone, Copy)]
pub struct ShownEntry {
    pub entry: Entry,
}

impl fmt::Display for ShownEntry {
    ghost use Rattle.std.specs.Prelude.{Some};
    ghost use Rattle.text_forms.specs.Spelling.{entry_text};

    ghost output = { λ shown. Some (entry_text shown.entry) };

    fn fmt<W: fmt::Write>(&self, f: &mut fmt::Formatter<W>) -> fmt::Result {
        let key = ShownKey {
            key: self.entry.key,
        };
        let row = ShownRow {
            row: self.entry.row,
        };
        write!(f, "{key} {row}")
    }
}

/// A bound as text: an entry, or `before` after the key if it is the place before all rows of the key.
#[derive(Clone, Copy)]
pub struct ShownBound {
    pub bound: Bound,
}

impl fmt::Display for ShownBound {
    ghost use Rattle.std.specs.Prelude.{Some};
    ghost use Rattle.text_forms.specs.Spelling.{bound_text};

    ghost output = { λ shown. Some (bound_text shown.bound) };

    fn fmt<W: fmt::Write>(&self, f: &mut fmt::Formatter<W>) -> fmt::Result {
        let key = ShownKey {
            key: self.bound.key,
        };
        match self.bound.row {
            None => write!(f, "{key} before"),
            Some(row) => {
                let row = ShownRow { row };
                write!(f, "{key} {row}")
            }
        }
    }
}

/// The number of a block, or `-`.
#[derive(Clone, Copy)]
pub struct ShownLink {
    pub link: Option<u32>,
}

impl fmt::Display for ShownLink {
    ghost use Rattle.std.specs.Prelude.{Some};
    ghost use Rattle.text_forms.specs.Spelling.{link_text};

    ghost output = { λ shown. Some (link_text shown.link) };

    fn fmt<W: fmt::Write>(&self, f: &mut fmt::Formatter<W>) -> fmt::Result {
        match self.link {
            None => f.write_str("-"),
            Some(block) => write!(f, "{block}"),
        }
    }
}

/// What a fault names, with a space in front: the block of a page, or a row. Nothing, if it names neither.
#[derive(Clone, Copy)]
pub struct ShownNamed {
    pub fault: Fault,
}

impl fmt::Display for ShownNamed {
    ghost use Rattle.std.specs.Prelude.{Some};
    ghost use Rattle.text_forms.specs.Spelling.{named_text};

    ghost output = { λ shown. Some (named_text shown.fault) };

    fn fmt<W: fmt::Write>(&self, f: &mut fmt::Formatter<W>) -> fmt::Result {
        if let Some(block) = self.fault.block() {
            write!(f, " {block}")?;
        }
        match self.fault.row() {
            None => Ok(()),
            Some(row) => {
                let row = ShownRow { row };
                write!(f, " {row}")
            }
        }
    }
}

fn put_digits(bytes: &[u8], digits: &mut [u8])
    requires { length digits.old ≡ 2 * length bytes.now }
    ensures { digits.new ≡ encode_lower bytes.now }
{
    let _ = hex::encode_to_slice(bytes, digits);
}

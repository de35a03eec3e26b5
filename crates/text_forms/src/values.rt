//! Entries, ranges and rows from the words of a line.

ghost use Rattle.std.specs.Prelude.{◌≡◌, Some, None, Ok, Err, [], ◌++◌, List, ℕ, Option, IfSome, IfOk, IsOk};
ghost use Rattle.index_model.specs.declared.entry.Entry.{Entry as TheEntry};
ghost use Rattle.index_model.specs.declared.range.Range.{Range as TheRange};
ghost use Rattle.text_forms.specs.Spelling.{IsLongKeyText};
ghost use Rattle.text_forms.specs.Values.{end_text, entry_words, range_words, IsRangeEnd, IsEntryOfBytes, IsRangeOfBytes, AreNoEntry, AreNoRange, AreRows, AreNoRows};

use crate::numbers::{key, row};
use crate::words::{Words, is_word};
use index_model::{Entry, Fault, Key, Range, RowAddr};
use std::marker::Model;

/// Words of a line, each that of a row. Contracts see the list of them.
#[derive(Drop)]
pub struct Rows<'a> {
    words: Words<'a>,
}

impl<'a> Model for Rows<'a> {
    ghost use Rattle.std.specs.Prelude.{List, ℕ};

    ghost Value = { List (List ℕ) };

    ghost view = { λ rows. rows.words };
}

impl<'a> Rows<'a> {
    ghost use Rattle.std.specs.Prelude.{◌∷◌};
    ghost use Rattle.index_model.specs.Row.{Row};
    ghost use Rattle.text_forms.specs.Spelling.{row_text};

    /// The next row, or None after the last.
    pub fn next(&mut self) -> Option<RowAddr>
        ensures found { (row : Row) → result ≡ Some row → self.old ≡ row_text row ∷ self.new }
        ensures last { AreRows self.old → result ≡ None → self.old ≡ [] }
    {
        let word = self.words.next()?;
        match row(word)? {
            Ok(row) => Some(row),
            Err(_) => None,
        }
    }
}

/// A key and a row, the next two words. None if these have no such form; `KeyTooLong` (6) if they have, but
/// there is no such key, and else `BadRow` (7) if there is no such row.
pub fn entry(words: &mut Words<'_>) -> Option<Result<Entry, Fault>>
    ensures ok { IfSome result (λ read. IfOk read
        (λ entry. words.old ≡ entry_words entry ++ words.new)) }
    ensures valid { IfSome result (λ read. IfOk read IsEntryOfBytes) }
    ensures only { (entry : TheEntry) (rest : List (List ℕ)) → IsEntryOfBytes entry
        → words.old ≡ entry_words entry ++ rest
        → (result ≡ Some (Ok entry)) × (words.new ≡ rest) }
    ensures refused { (fault : Fault) → result ≡ Some (Err fault)
        → AreNoEntry fault words.old words.new }
    ensures only_refused { (fault : Fault) (rest : List (List ℕ)) → AreNoEntry fault words.old rest
        → (result ≡ Some (Err fault)) × (words.new ≡ rest) }
{
    let key = key(words.next()?)?;
    let row = row(words.next()?)?;
    Some(entry_of(key, row))
}

fn entry_of(key: Result<Key, Fault>, row: Result<RowAddr, Fault>) -> Result<Entry, Fault>
    ensures ok { IfOk result (λ entry. (key ≡ Ok entry.key) × (row ≡ Ok entry.row)) }
    ensures key_first { (fault : Fault) → key ≡ Err fault → result ≡ Err fault }
    ensures then_row { (fault : Fault) → IsOk key → row ≡ Err fault → result ≡ Err fault }
    ensures both { IsOk key → IsOk row → IsOk result }
{
    let key = key?;
    let row = row?;
    Ok(Entry { key, row })
}

/// Two ends of a range, the next two words. None if these have no such form; `KeyTooLong` (6) if they have,
/// but there is no such key.
pub fn range(words: &mut Words<'_>) -> Option<Result<Range, Fault>>
    ensures ok { IfSome result (λ read. IfOk read
        (λ range. words.old ≡ range_words range ++ words.new)) }
    ensures valid { IfSome result (λ read. IfOk read IsRangeOfBytes) }
    ensures only { (range : TheRange) (rest : List (List ℕ)) → IsRangeOfBytes range
        → words.old ≡ range_words range ++ rest
        → (result ≡ Some (Ok range)) × (words.new ≡ rest) }
    ensures refused { (fault : Fault) → result ≡ Some (Err fault)
        → AreNoRange fault words.old words.new }
    ensures only_refused { (fault : Fault) (rest : List (List ℕ)) → AreNoRange fault words.old rest
        → (result ≡ Some (Err fault)) × (words.new ≡ rest) }
{
    let from = end(words.next()?)?;
    let below = end(words.next()?)?;
    Some(range_of(from, below))
}

fn range_of(
    from: Result<Option<Key>, Fault>,
    below: Result<Option<Key>, Fault>,
) -> Result<Range, Fault>
    ensures ok { IfOk result (λ range. (from ≡ Ok range.from) × (below ≡ Ok range.below)) }
    ensures from_first { (fault : Fault) → from ≡ Err fault → result ≡ Err fault }
    ensures then_below { (fault : Fault) → IsOk from → below ≡ Err fault → result ≡ Err fault }
    ensures both { IsOk from → IsOk below → IsOk result }
{
    let from = from?;
    let below = below?;
    Ok(Range { from, below })
}

/// A key, or `*` for an open end. None if it isn't such a text; `KeyTooLong` (6) if it has more than 64
/// bytes.
pub fn end(text: &[u8]) -> Option<Result<Option<Key>, Fault>>
    ensures ok { IfSome result (λ read. IfOk read (λ key. text.now ≡ end_text key)) }
    ensures valid { IfSome result (λ read. IfOk read IsRangeEnd) }
    ensures only { (key : Option (List ℕ)) → IsRangeEnd key → text.now ≡ end_text key
        → result ≡ Some (Ok key) }
    ensures long { (fault : Fault) → result ≡ Some (Err fault)
        → (fault ≡ Fault.KeyTooLong) × IsLongKeyText text.now }
    ensures only_long { IsLongKeyText text.now → result ≡ Some (Err Fault.KeyTooLong) }
{
    if is_word(text, b"*") {
        return Some(Ok(None));
    }
    match key(text)? {
        Ok(key) => Some(Ok(Some(key))),
        Err(fault) => Some(Err(fault)),
    }
}

/// All words that are left, each a row. None if one has no such form; `BadRow` (7) if all have, but there is
/// no such row for one of them.
pub fn all_rows<'a>(words: &mut Words<'a>) -> Option<Result<Rows<'a>, Fault>>
    ensures ok { IfSome result (λ read. IfOk read (λ rows. words.old ≡ rows ++ words.new)) }
    ensures valid { IfSome result (λ read. IfOk read AreRows) }
    ensures end { IfSome result (λ read. words.new ≡ []) }
    ensures only { AreRows words.old → result ≡ Some (Ok words.old) }
    ensures refused { (fault : Fault) → result ≡ Some (Err fault) → AreNoRows fault words.old }
    ensures only_refused { (fault : Fault) → AreNoRows fault words.old
        → result ≡ Some (Err fault) }
{
    let all = words.copy();
    let mut is_bad = false;
    while let Some(word) = words.next() {
        if row(word)?.is_err() {
            is_bad = true;
        }
    }
    if is_bad {
        return Some(Err(Fault::BadRow));
    }
    Some(Ok(Rows { words: all }))
}

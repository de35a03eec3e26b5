//! The lines of a ledger.

ghost use Rattle.std.specs.Prelude.{◌≡◌, true, Some, Ok, Err, [], ◌∷◌, ◌++◌, IfSome, IfOk, OnSome, codes};
ghost use Rattle.index_model.specs.declared.entry.Entry.{Entry as TheEntry};
ghost use Rattle.index_model.specs.declared.range.Range.{Range as TheRange};
ghost use Rattle.text_forms.specs.Spelling.{words_of};
ghost use Rattle.text_forms.specs.Values.{entry_words, range_words, IsEntryOfBytes, IsRangeOfBytes, AreNoEntry, AreNoRange, AreNoRows, AreRows};
ghost use Rattle.ledger_lines.specs.Lines.{ledger_words, HasLedgerValues, LedgerValuesFail, LedgerLineFails, is_alone};

use index_model::{Entry, Fault, Range};
use text_forms::{Rows, Words, all_rows, entry, is_word, range};

/// A line of a ledger.
#[derive(Drop)]
pub enum LedgerLine<'a> {
    Insert(Entry),
    /// All entries with one of these rows are deleted.
    Delete(Rows<'a>),
    List(Range),
    Vacuum,
    Checkpoint,
    Commit,
}

/// The line that a text spells. None if it has no form of a line; refused with `KeyTooLong` (6) or `BadRow`
/// (7) if it has, but there is no such key, or else no such row.
pub fn parse(text: &[u8]) -> Option<Result<LedgerLine<'_>, Fault>>
    ensures ok { IfSome result (λ read. IfOk read (λ line. words_of text.now ≡ ledger_words line)) }
    ensures valid { IfSome result (λ read. IfOk read HasLedgerValues) }
    ensures only { (line : LedgerLine) → HasLedgerValues line
        → words_of text.now ≡ ledger_words line → result ≡ Some (Ok line) }
    ensures refused { (fault : Fault) → result ≡ Some (Err fault)
        → LedgerLineFails fault (words_of text.now) }
    ensures only_refused { (fault : Fault) → LedgerLineFails fault (words_of text.now)
        → result ≡ Some (Err fault) }
{
    let mut words = Words::new(text);
    let line = read(&mut words)?;
    if words.have_ended() { Some(line) } else { None }
}

fn read<'a>(words: &mut Words<'a>) -> Option<Result<LedgerLine<'a>, Fault>>
    ensures ok { (line : LedgerLine) → result ≡ Some (Ok line)
        → words.old ≡ ledger_words line ++ words.new }
    ensures valid { IfSome result (λ read. IfOk read HasLedgerValues) }
    ensures only { (line : LedgerLine) → HasLedgerValues line → words.old ≡ ledger_words line
        → (result ≡ Some (Ok line)) × (words.new ≡ []) }
    ensures refused { (fault : Fault) → result ≡ Some (Err fault) → words.new ≡ []
        → LedgerLineFails fault words.old }
    ensures only_refused { (fault : Fault) → LedgerLineFails fault words.old
        → (result ≡ Some (Err fault)) × (words.new ≡ []) }
{
    let name = words.next()?;
    if let Some(line) = alone(name) {
        return Some(Ok(line));
    }
    with_values(name, words)
}

// A line of one word.
fn alone(name: &[u8]) -> Option<LedgerLine<'static>>
    ensures found { IfSome result (λ line. name.now ∷ [] ≡ ledger_words line) }
    ensures valid { IfSome result HasLedgerValues }
    ensures vacuum { name.now ≡ codes "vacuum" → result ≡ Some LedgerLine.Vacuum }
    ensures checkpoint { name.now ≡ codes "checkpoint" → result ≡ Some LedgerLine.Checkpoint }
    ensures commit { name.now ≡ codes "commit" → result ≡ Some LedgerLine.Commit }
    ensures named { OnSome result (is_alone name.now ≡ true) }
{
    if is_word(name, b"vacuum") {
        return Some(LedgerLine::Vacuum);
    }
    if is_word(name, b"checkpoint") {
        return Some(LedgerLine::Checkpoint);
    }
    if is_word(name, b"commit") {
        return Some(LedgerLine::Commit);
    }
    None
}

// A line of an entry, a range or rows.
fn with_values<'a>(name: &[u8], words: &mut Words<'a>) -> Option<Result<LedgerLine<'a>, Fault>>
    ensures ok { (line : LedgerLine) → result ≡ Some (Ok line)
        → name.now ∷ words.old ≡ ledger_words line ++ words.new }
    ensures valid { IfSome result (λ read. IfOk read HasLedgerValues) }
    ensures insert { (entry : TheEntry) → IsEntryOfBytes entry → name.now ≡ codes "insert"
        → words.old ≡ entry_words entry
        → (result ≡ Some (Ok (LedgerLine.Insert entry))) × (words.new ≡ []) }
    ensures delete { AreRows words.old → name.now ≡ codes "delete"
        → (result ≡ Some (Ok (LedgerLine.Delete words.old))) × (words.new ≡ []) }
    ensures list { (range : TheRange) → IsRangeOfBytes range → name.now ≡ codes "list"
        → words.old ≡ range_words range
        → (result ≡ Some (Ok (LedgerLine.List range))) × (words.new ≡ []) }
    ensures refused { (fault : Fault) → result ≡ Some (Err fault) → words.new ≡ []
        → LedgerValuesFail fault name.now words.old }
    ensures no_entry { (fault : Fault) → name.now ≡ codes "insert" → AreNoEntry fault words.old []
        → (result ≡ Some (Err fault)) × (words.new ≡ []) }
    ensures no_rows { (fault : Fault) → name.now ≡ codes "delete" → AreNoRows fault words.old
        → (result ≡ Some (Err fault)) × (words.new ≡ []) }
    ensures no_range { (fault : Fault) → name.now ≡ codes "list" → AreNoRange fault words.old []
        → (result ≡ Some (Err fault)) × (words.new ≡ []) }
{
    if is_word(name, b"insert") {
        return Some(entry(words)?.map(|entry| LedgerLine::Insert(entry)));
    }
    if is_word(name, b"delete") {
        return Some(all_rows(words)?.map(|rows| LedgerLine::Delete(rows)));
    }
    if is_word(name, b"list") {
        return Some(range(words)?.map(|range| LedgerLine::List(range)));
    }
    None
}

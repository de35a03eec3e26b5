//! The lines of a job file.

ghost use Rattle.std.specs.Prelude.{◌≡◌, ◌≤◌, ◌∷◌, ◌++◌, [], ℕ, true, Some, IfSome, OnSome, codes};
ghost use Rattle.std.specs.Fmt.{decimal};
ghost use Rattle.index_model.specs.declared.entry.Entry.{Entry as TheEntry};
ghost use Rattle.index_model.specs.declared.range.Range.{Range as TheRange};
ghost use Rattle.text_forms.specs.Spelling.{words_of};
ghost use Rattle.text_forms.specs.Values.{entry_words, range_words, IsEntryOfBytes, IsRangeOfBytes, AreRows};
ghost use Rattle.command_line.specs.JobFiles.{job_words, HasJobValues, IsRoom, is_job_alone};

use index_model::{Entry, Range};
use text_forms::{Rows, Words, all_rows, entry, is_word, number_u32, range};

/// A line of a job file.
#[derive(Drop)]
pub enum JobLine<'a> {
    Insert(Entry),
    /// The range, and how many entries are given at most: 1 to 1,048,576.
    Scan(Range, u32),
    Bulk(Rows<'a>),
    Cleanup,
    Commit,
    Checkpoint,
}

/// The job that a line of a job file spells, if it spells one. An empty line or a comment doesn't, nor does a
/// line with a key of more than 64 bytes or with a row that there isn't.
pub fn parse_job(text: &[u8]) -> Option<JobLine<'_>>
    ensures words { IfSome result (λ line. words_of text.now ≡ job_words line) }
    ensures valid { IfSome result HasJobValues }
    ensures only { (line : JobLine) → HasJobValues line → words_of text.now ≡ job_words line
        → result ≡ Some line }
{
    let mut words = Words::new(text);
    let line = job(&mut words)?;
    if words.have_ended() { Some(line) } else { None }
}

fn job<'a>(words: &mut Words<'a>) -> Option<JobLine<'a>>
    ensures words { IfSome result (λ line. words.old ≡ job_words line ++ words.new) }
    ensures valid { IfSome result HasJobValues }
    ensures only { (line : JobLine) → HasJobValues line → words.old ≡ job_words line
        → (result ≡ Some line) × (words.new ≡ []) }
{
    let name = words.next()?;
    if let Some(line) = job_of_a_word(name) {
        return Some(line);
    }
    job_with_values(name, words)
}

// A job of one word.
fn job_of_a_word(name: &[u8]) -> Option<JobLine<'static>>
    ensures words { IfSome result (λ line. name.now ∷ [] ≡ job_words line) }
    ensures valid { IfSome result HasJobValues }
    ensures cleanup { name.now ≡ codes "cleanup" → result ≡ Some JobLine.Cleanup }
    ensures commit { name.now ≡ codes "commit" → result ≡ Some JobLine.Commit }
    ensures checkpoint { name.now ≡ codes "checkpoint" → result ≡ Some JobLine.Checkpoint }
    ensures named { OnSome result (is_job_alone name.now ≡ true) }
{
    if is_word(name, b"cleanup") {
        return Some(JobLine::Cleanup);
    }
    if is_word(name, b"commit") {
        return Some(JobLine::Commit);
    }
    if is_word(name, b"checkpoint") {
        return Some(JobLine::Checkpoint);
    }
    None
}

// A job of an entry, a range or rows.
fn job_with_values<'a>(name: &[u8], words: &mut Words<'a>) -> Option<JobLine<'a>>
    ensures words { IfSome result (λ line.
        name.now ∷ words.old ≡ job_words line ++ words.new) }
    ensures valid { IfSome result HasJobValues }
    ensures insert { (entry : TheEntry) → IsEntryOfBytes entry → name.now ≡ codes "insert"
        → words.old ≡ entry_words entry
        → (result ≡ Some (JobLine.Insert entry)) × (words.new ≡ []) }
    ensures bulk { AreRows words.old → name.now ≡ codes "bulk"
        → (result ≡ Some (JobLine.Bulk words.old)) × (words.new ≡ []) }
    ensures scan { (range : TheRange) (room : ℕ) → IsRangeOfBytes range → IsRoom room
        → name.now ≡ codes "scan" → words.old ≡ range_words range ++ decimal room ∷ []
        → (result ≡ Some (JobLine.Scan range room)) × (words.new ≡ []) }
{
    match name {
        b"insert" => insert(words),
        b"bulk" => bulk(words),
        b"scan" => scan(words),
        _ => None,
    }
}

// An insert, after its name.
fn insert<'a>(words: &mut Words<'a>) -> Option<JobLine<'a>>
    ensures words { IfSome result (λ line.
        codes "insert" ∷ words.old ≡ job_words line ++ words.new) }
    ensures valid { IfSome result HasJobValues }
    ensures only { (entry : TheEntry) → IsEntryOfBytes entry → words.old ≡ entry_words entry
        → (result ≡ Some (JobLine.Insert entry)) × (words.new ≡ []) }
{
    match entry(words)? {
        Ok(entry) => Some(JobLine::Insert(entry)),
        Err(_) => None,
    }
}

// A bulk delete, after its name.
fn bulk<'a>(words: &mut Words<'a>) -> Option<JobLine<'a>>
    ensures words { IfSome result (λ line.
        codes "bulk" ∷ words.old ≡ job_words line ++ words.new) }
    ensures valid { IfSome result HasJobValues }
    ensures only { AreRows words.old
        → (result ≡ Some (JobLine.Bulk words.old)) × (words.new ≡ []) }
{
    match all_rows(words)? {
        Ok(rows) => Some(JobLine::Bulk(rows)),
        Err(_) => None,
    }
}

// A scan, after its name.
fn scan<'a>(words: &mut Words<'a>) -> Option<JobLine<'a>>
    ensures words { IfSome result (λ line.
        codes "scan" ∷ words.old ≡ job_words line ++ words.new) }
    ensures valid { IfSome result HasJobValues }
    ensures only { (range : TheRange) (room : ℕ) → IsRangeOfBytes range → IsRoom room
        → words.old ≡ range_words range ++ decimal room ∷ []
        → (result ≡ Some (JobLine.Scan range room)) × (words.new ≡ []) }
{
    let Ok(range) = range(words)? else {
        return None;
    };
    let room = room(words.next()?)?;
    Some(JobLine::Scan(range, room))
}

// How many entries a scan gives at most.
fn room(text: &[u8]) -> Option<u32>
    ensures found { IfSome result (λ room. (text.now ≡ decimal room) × IsRoom room) }
    ensures only { (room : ℕ) → IsRoom room → text.now ≡ decimal room → result ≡ Some room }
{
    let room = number_u32(text)?;
    if 1 <= room && room <= 1_048_576 {
        Some(room)
    } else {
        None
    }
}

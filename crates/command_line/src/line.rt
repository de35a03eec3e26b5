//! The lines of a script.

ghost use Rattle.std.specs.Prelude.{◌≡◌, ◌≢◌, ℕ, ◌<◌, ◌^◌, true, false, Some, Ok, Err, [], ◌∷◌, ◌++◌, IfSome, IfOk, OnSome, codes};
ghost use Rattle.std.specs.Fmt.{decimal};
ghost use Rattle.index_model.specs.declared.entry.Entry.{Entry as TheEntry};
ghost use Rattle.index_model.specs.declared.range.Range.{Range as TheRange};
ghost use Rattle.text_forms.specs.Spelling.{words_of};
ghost use Rattle.text_forms.specs.Values.{entry_words, range_words, IsEntryOfBytes, IsRangeOfBytes, AreRows, AreNoEntry, AreNoRange, AreNoRows};
ghost use Rattle.command_line.specs.Script.{line_words, crash_text, IsCount, IsSilentLine, Spells, HasValues, IsSession, AreNoValues, AreRefused, is_plain, is_counted, is_of_session, names_entry, has_range, has_rows};

use index_model::{Entry, Fault, Range};
use text_forms::{Rows, Words, all_rows, entry, is_word, number, number_u32, range};

/// What a crash leaves of the bytes that weren't synced.
#[derive(Clone, Copy, Debug, PartialEq, Eq)]
pub enum Crash {
    /// All of them.
    Keep,
    /// None of them.
    Drop,
    /// The first half of each write.
    Tear,
}

/// A line of a script. Its first number is that of a session.
#[derive(Drop)]
pub enum Line<'a> {
    /// An empty line or a comment.
    Nothing,
    Insert(u32, Entry),
    Scan(u32, Range),
    Bulk(u32, Rows<'a>),
    Cleanup(u32),
    Step(u32),
    Run(u32),
    Next(u32),
    End(u32),
    /// An insert, run to its end.
    Put(u32, Entry),
    /// A scan, run to its end.
    List(u32, Range),
    Force,
    Flush,
    Checkpoint,
    /// The device call of this number from now on, from 1, fails.
    Fail(u64),
    /// The device calls from this number from now on, from 1, fail.
    Stop(u64),
    Crash(Crash),
    Dump,
}

/// Why a line stands for nothing that could be done.
#[derive(Clone, Copy, Debug, PartialEq, Eq)]
pub enum LineError {
    /// It has no form of the table of lines.
    NotAnEvent,
    /// It has, but its key is too long (6), or else its row is none (7).
    Refused(Fault),
}

/// The line of this text.
pub fn parse(text: &[u8]) -> Result<Line<'_>, LineError>
    ensures ok { IfOk result (Spells text.now) }
    ensures quiet { IsSilentLine text.now → result ≡ Ok Line.Nothing }
    ensures only { (line : Line) → HasValues line → Spells text.now line → result ≡ Ok line }
    ensures refused { (fault : Fault) → result ≡ Err (LineError.Refused fault)
        → AreRefused fault (words_of text.now) }
    ensures only_refused { (fault : Fault) → AreRefused fault (words_of text.now)
        → result ≡ Err (LineError.Refused fault) }
{
    if text.is_empty() || text[0] == b'#' {
        return Ok(Line::Nothing);
    }
    let mut words = Words::new(text);
    let Some(read) = event(&mut words) else {
        return Err(LineError::NotAnEvent);
    };
    if !words.have_ended() {
        return Err(LineError::NotAnEvent);
    }
    match read {
        Ok(line) => Ok(line),
        Err(fault) => Err(LineError::Refused(fault)),
    }
}

fn event<'a>(words: &mut Words<'a>) -> Option<Result<Line<'a>, Fault>>
    ensures ok { (line : Line) → result ≡ Some (Ok line)
        → words.old ≡ line_words line ++ words.new }
    ensures only { (line : Line) → line ≢ Line.Nothing → HasValues line
        → words.old ≡ line_words line → (result ≡ Some (Ok line)) × (words.new ≡ []) }
    ensures refused { (fault : Fault) → result ≡ Some (Err fault) → words.new ≡ []
        → AreRefused fault words.old }
    ensures only_refused { (fault : Fault) → AreRefused fault words.old
        → (result ≡ Some (Err fault)) × (words.new ≡ []) }
{
    let name = words.next()?;
    if let Some(line) = plain(name) {
        return Some(Ok(line));
    }
    let value = words.next()?;
    if let Some(line) = counted(name, value) {
        return Some(Ok(line));
    }
    one_session(name, value, words)
}

/// A line of a session.
fn one_session<'a>(
    name: &[u8],
    value: &[u8],
    words: &mut Words<'a>,
) -> Option<Result<Line<'a>, Fault>>
    ensures ok { (line : Line) → result ≡ Some (Ok line)
        → name.now ∷ value.now ∷ words.old ≡ line_words line ++ words.new }
    ensures only { (line : Line) → HasValues line → is_plain name.now ≡ false
        → is_counted name.now ≡ false → name.now ∷ value.now ∷ words.old ≡ line_words line
        → (result ≡ Some (Ok line)) × (words.new ≡ []) }
    ensures refused { (fault : Fault) → result ≡ Some (Err fault) → words.new ≡ []
        → AreRefused fault (name.now ∷ value.now ∷ words.old) }
    ensures only_refused { (fault : Fault) (session : ℕ) → value.now ≡ decimal session
        → IsSession session → AreNoValues fault name.now words.old
        → (result ≡ Some (Err fault)) × (words.new ≡ []) }
{
    let session = number_u32(value)?;
    if let Some(line) = of_session(name, session) {
        return Some(Ok(line));
    }
    with_values(name, session, words)
}

/// A line of one word.
fn plain(name: &[u8]) -> Option<Line<'static>>
    ensures found { IfSome result (λ line. name.now ∷ [] ≡ line_words line) }
    ensures force { name.now ≡ codes "force" → result ≡ Some Line.Force }
    ensures flush { name.now ≡ codes "flush" → result ≡ Some Line.Flush }
    ensures checkpoint { name.now ≡ codes "checkpoint" → result ≡ Some Line.Checkpoint }
    ensures dump { name.now ≡ codes "dump" → result ≡ Some Line.Dump }
    ensures named { OnSome result (is_plain name.now ≡ true) }
{
    if is_word(name, b"checkpoint") {
        return Some(Line::Checkpoint);
    }
    match name {
        b"force" => Some(Line::Force),
        b"flush" => Some(Line::Flush),
        b"dump" => Some(Line::Dump),
        _ => None,
    }
}

/// A line of the device.
fn counted(name: &[u8], value: &[u8]) -> Option<Line<'static>>
    ensures found { IfSome result (λ line. name.now ∷ value.now ∷ [] ≡ line_words line) }
    ensures fail { (n : ℕ) → IsCount n → name.now ≡ codes "fail" → value.now ≡ decimal n
        → result ≡ Some (Line.Fail n) }
    ensures stop { (n : ℕ) → IsCount n → name.now ≡ codes "stop" → value.now ≡ decimal n
        → result ≡ Some (Line.Stop n) }
    ensures crash { (crash : Crash) → name.now ≡ codes "crash" → value.now ≡ crash_text crash
        → result ≡ Some (Line.Crash crash) }
    ensures named { OnSome result (is_counted name.now ≡ true) }
{
    match name {
        b"fail" => Some(Line::Fail(count(value)?)),
        b"stop" => Some(Line::Stop(count(value)?)),
        b"crash" => Some(Line::Crash(crash_named(value)?)),
        _ => None,
    }
}

fn count(text: &[u8]) -> Option<u64>
    ensures found { IfSome result (λ number. (text.now ≡ decimal number) × (0 < number)) }
    ensures only { (n : ℕ) → 0 < n → n < 2 ^ 64 → text.now ≡ decimal n → result ≡ Some n }
{
    let number = number(text)?;
    if number == 0 { None } else { Some(number) }
}

fn crash_named(text: &[u8]) -> Option<Crash>
    ensures found { IfSome result (λ crash. text.now ≡ crash_text crash) }
    ensures keep { text.now ≡ codes "keep" → result ≡ Some Crash.Keep }
    ensures drop { text.now ≡ codes "drop" → result ≡ Some Crash.Drop }
    ensures tear { text.now ≡ codes "tear" → result ≡ Some Crash.Tear }
    ensures only { (crash : Crash) → text.now ≡ crash_text crash → result ≡ Some crash }
{
    match text {
        b"keep" => Some(Crash::Keep),
        b"drop" => Some(Crash::Drop),
        b"tear" => Some(Crash::Tear),
        _ => None,
    }
}

/// A line of a session and nothing else.
fn of_session(name: &[u8], session: u32) -> Option<Line<'static>>
    ensures found { IfSome result (λ line. name.now ∷ decimal session ∷ [] ≡ line_words line) }
    ensures cleanup { name.now ≡ codes "cleanup" → result ≡ Some (Line.Cleanup session) }
    ensures step { name.now ≡ codes "step" → result ≡ Some (Line.Step session) }
    ensures run { name.now ≡ codes "run" → result ≡ Some (Line.Run session) }
    ensures next { name.now ≡ codes "next" → result ≡ Some (Line.Next session) }
    ensures end { name.now ≡ codes "end" → result ≡ Some (Line.End session) }
    ensures named { OnSome result (is_of_session name.now ≡ true) }
{
    if is_word(name, b"cleanup") {
        return Some(Line::Cleanup(session));
    }
    match name {
        b"step" => Some(Line::Step(session)),
        b"run" => Some(Line::Run(session)),
        b"next" => Some(Line::Next(session)),
        b"end" => Some(Line::End(session)),
        _ => None,
    }
}

/// A line of a session with an entry, a range or rows.
fn with_values<'a>(
    name: &[u8],
    session: u32,
    words: &mut Words<'a>,
) -> Option<Result<Line<'a>, Fault>>
    ensures ok { (line : Line) → result ≡ Some (Ok line)
        → name.now ∷ decimal session ∷ words.old ≡ line_words line ++ words.new }
    ensures insert { (entry : TheEntry) → IsEntryOfBytes entry → name.now ≡ codes "insert"
        → words.old ≡ entry_words entry
        → (result ≡ Some (Ok (Line.Insert session entry))) × (words.new ≡ []) }
    ensures put { (entry : TheEntry) → IsEntryOfBytes entry → name.now ≡ codes "put"
        → words.old ≡ entry_words entry
        → (result ≡ Some (Ok (Line.Put session entry))) × (words.new ≡ []) }
    ensures bulk { AreRows words.old → name.now ≡ codes "bulk"
        → (result ≡ Some (Ok (Line.Bulk session words.old))) × (words.new ≡ []) }
    ensures scan { (range : TheRange) → IsRangeOfBytes range → name.now ≡ codes "scan"
        → words.old ≡ range_words range
        → (result ≡ Some (Ok (Line.Scan session range))) × (words.new ≡ []) }
    ensures list { (range : TheRange) → IsRangeOfBytes range → name.now ≡ codes "list"
        → words.old ≡ range_words range
        → (result ≡ Some (Ok (Line.List session range))) × (words.new ≡ []) }
    ensures refused { (fault : Fault) → result ≡ Some (Err fault) → words.new ≡ []
        → AreNoValues fault name.now words.old }
    ensures no_entry { (fault : Fault) → names_entry name.now ≡ true
        → AreNoEntry fault words.old [] → (result ≡ Some (Err fault)) × (words.new ≡ []) }
    ensures no_rows { (fault : Fault) → has_rows name.now ≡ true → AreNoRows fault words.old
        → (result ≡ Some (Err fault)) × (words.new ≡ []) }
    ensures no_range { (fault : Fault) → has_range name.now ≡ true
        → AreNoRange fault words.old [] → (result ≡ Some (Err fault)) × (words.new ≡ []) }
{
    if is_word(name, b"insert") {
        return Some(entry(words)?.map(|entry| Line::Insert(session, entry)));
    }
    match name {
        b"put" => Some(entry(words)?.map(|entry| Line::Put(session, entry))),
        b"bulk" => Some(all_rows(words)?.map(|rows| Line::Bulk(session, rows))),
        _ => with_range(name, session, words),
    }
}

// A line of a session with a range.
fn with_range<'a>(
    name: &[u8],
    session: u32,
    words: &mut Words<'a>,
) -> Option<Result<Line<'a>, Fault>>
    ensures ok { (line : Line) → result ≡ Some (Ok line)
        → name.now ∷ decimal session ∷ words.old ≡ line_words line ++ words.new }
    ensures scan { (range : TheRange) → IsRangeOfBytes range → name.now ≡ codes "scan"
        → words.old ≡ range_words range
        → (result ≡ Some (Ok (Line.Scan session range))) × (words.new ≡ []) }
    ensures list { (range : TheRange) → IsRangeOfBytes range → name.now ≡ codes "list"
        → words.old ≡ range_words range
        → (result ≡ Some (Ok (Line.List session range))) × (words.new ≡ []) }
    ensures refused { (fault : Fault) → result ≡ Some (Err fault)
        → (has_range name.now ≡ true) × AreNoRange fault words.old words.new }
    ensures no_range { (fault : Fault) → has_range name.now ≡ true
        → AreNoRange fault words.old [] → (result ≡ Some (Err fault)) × (words.new ≡ []) }
{
    match name {
        b"scan" => Some(range(words)?.map(|range| Line::Scan(session, range))),
        b"list" => Some(range(words)?.map(|range| Line::List(session, range))),
        _ => None,
    }
}

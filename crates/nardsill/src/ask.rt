//! What C asks.

ghost use Rattle.std.specs.Prelude.{◌≡◌, ◌≤◌, ◌<◌, true, IfErr, IfOk, MatchResult, take};
ghost use Rattle.index_model.specs.Row.{IsRow};
ghost use Rattle.nardsill.specs.Asking.{SpellsNoEntry, SpellsNoRange, SpellsEntry, SpellsRange, end_asked, has_below, has_from, limits_asked, row_asked, token_asked};

use access_method::ScanToken;
use index_model::{Entry, Fault, Key, Limits, Range, RowAddr};

/// A call, as plain data: which it is, and what it needs. The numbers of calls, and which fields each reads,
/// stand in `nardsill_proved.h`.
#[repr(C)]
#[derive(Drop)]
pub struct Ask {
    pub what: u32,
    /// A token: its number and its session.
    pub session: u32,
    pub number: u64,
    /// A row; of a part, how many steps it makes, unless it finishes or is refused before.
    pub block: u32,
    pub offset: u16,
    /// How many bytes of `key` are a key, or where a range begins; and of `below`, where it ends.
    pub len: u8,
    pub below_len: u8,
    /// Which ends a range has: its lowest bit where it begins at a key, 2 or more where it ends below one.
    pub ends: u32,
    pub key: [u8; 64],
    pub below: [u8; 64],
}

/// An open scan.
#[repr(C)]
#[derive(Drop)]
pub struct Token {
    pub number: u64,
    pub session: u32,
}

/// An opening: which file, and how many pages are held in memory.
#[repr(C)]
#[derive(Drop)]
pub struct OpenAsk {
    pub descriptor: i32,
    pub frames: u32,
}

/// A making: in which file, of which sizes, and whether unique.
#[repr(C)]
#[derive(Drop)]
pub struct MakeAsk {
    pub descriptor: i32,
    pub items: u32,
    pub pages: u32,
    pub log_bytes: u32,
    /// 0 where entries may share a key.
    pub unique: u32,
}

impl Ask {
    /// The entry that is spelled. Refused with `KeyTooLong` (6) for a key of more than 64 bytes, and then
    /// with `BadRow` (7).
    pub fn entry(&self) -> Result<Entry, Fault>
        ensures ok { IfOk result (SpellsEntry self.now) }
        ensures refused { IfErr result (SpellsNoEntry self.now) }
    {
        let key = key_of(self.len, &self.key)?;
        let row = self.row()?;
        Ok(Entry { key, row })
    }

    /// The row that is spelled. Refused with `BadRow` (7).
    pub fn row(&self) -> Result<RowAddr, Fault>
        ensures { MatchResult result (λ row. (row ≡ row_asked self.now) × IsRow row)
            (λ fault. (fault ≡ Fault.BadRow) × (IsRow (row_asked self.now) → ⊥)) }
    {
        RowAddr::new(self.block, self.offset)
    }

    /// The range that is spelled. Refused with `KeyTooLong` (6).
    pub fn range(&self) -> Result<Range, Fault>
        ensures ok { IfOk result (SpellsRange self.now) }
        ensures refused { IfErr result (SpellsNoRange self.now) }
    {
        let from = end_of(self.ends % 2 == 1, self.len, &self.key)?;
        let below = end_of(self.ends >= 2, self.below_len, &self.below)?;
        Ok(Range { from, below })
    }

    /// The token that is named.
    pub fn token(&self) -> ScanToken
        ensures { result ≡ token_asked self.now }
    {
        ScanToken {
            number: self.number,
            session: self.session,
        }
    }
}

impl MakeAsk {
    /// The sizes of a new index, and whether it is unique.
    pub fn limits(&self) -> Limits
        ensures { result ≡ limits_asked self.now }
    {
        Limits {
            items: self.items,
            pages: self.pages,
            log_bytes: self.log_bytes,
            unique: self.unique != 0,
        }
    }
}

// The key of the first bytes.
fn key_of(len: u8, cells: &[u8; 64]) -> Result<Key, Fault>
    ensures { MatchResult result (λ key. (len ≤ 64) × (key ≡ take len cells.now))
        (λ fault. (fault ≡ Fault.KeyTooLong) × (64 < len)) }
{
    if len > 64 {
        return Err(Fault::KeyTooLong);
    }
    Key::new(&cells[..len as usize])
}

// The end of a range, if it has one.
fn end_of(is_there: bool, len: u8, cells: &[u8; 64]) -> Result<Option<Key>, Fault>
    ensures ok { IfOk result (λ end. end ≡ end_asked is_there len cells.now) }
    ensures fits { IfOk result (λ end. is_there ≡ true → len ≤ 64) }
    ensures refused { IfErr result
        (λ fault. (fault ≡ Fault.KeyTooLong) × (is_there ≡ true) × (64 < len)) }
{
    if !is_there {
        return Ok(None);
    }
    match key_of(len, cells) {
        Ok(key) => Ok(Some(key)),
        Err(fault) => Err(fault),
    }
}

//! Numbers, keys and rows from their text.

ghost use Rattle.std.specs.Prelude.{◌≡◌, ℕ, ◌<◌, ◌^◌, ◌≢◌, ◌↔◌, Some, None, Ok, Err, List, ◌≤◌, true, OnSome, IsOk, [], ◌∷◌, ◌++◌, ◌==◌, IfSome, IsSomeAnd, IsTrue, slice_index, length};
ghost use Rattle.std.specs.List.{position, list_all};
ghost use Rattle.std.specs.Str.Parse.{AllDigits};
ghost use Rattle.std.specs.Fmt.{decimal};
ghost use Rattle.index_model.specs.Row.{Row};
ghost use Rattle.text_forms.specs.Spelling.{row_text, key_text, ReadsRow, IsKey, IsLongKeyText, IsNarrow, is_key_digit};
ghost use Rattle.hex.specs.Hex.{encode_lower, IsBytes};

use index_model::{Fault, Key, RowAddr};
use std::str;

/// The number of this decimal text without sign or leading zeros, if it is one below 2^64.
pub fn number(text: &[u8]) -> Option<u64>
    ensures found { IfSome result (λ n. text.now ≡ decimal n) }
    ensures only { (n : ℕ) → n < 2 ^ 64 → text.now ≡ decimal n → result ≡ Some n }
{
    if has_sign(text) {
        return None;
    }
    if has_zeros(text) {
        return None;
    }
    match str::from_utf8(text) {
        Ok(text) => value(text),
        Err(_) => None,
    }
}

fn has_sign(text: &[u8]) -> bool
    ensures { IsTrue result ↔ (slice_index text.now 0 ≡ 43) }
{
    text.first() == Some(&b'+')
}

fn has_zeros(text: &[u8]) -> bool
    ensures { IsTrue result ↔ ((slice_index text.now 0 ≡ 48) × (1 < length text.now)) }
{
    text.first() == Some(&b'0') && text.len() > 1
}

fn value(text: &str) -> Option<u64>
    requires sign { slice_index text.now 0 ≢ 43 }
    requires zeros { slice_index text.now 0 ≡ 48 → length text.now ≡ 1 }
    ensures found { IfSome result (λ n. text.now ≡ decimal n) }
    ensures only { (n : ℕ) → n < 2 ^ 64 → text.now ≡ decimal n → result ≡ Some n }
{
    match text.parse::<u64>() {
        Ok(number) => Some(number),
        Err(_) => None,
    }
}

/// The same, if it is below 2^32.
pub fn number_u32(text: &[u8]) -> Option<u32>
    ensures found { IfSome result (λ n. text.now ≡ decimal n) }
    ensures only { (n : ℕ) → n < 2 ^ 32 → text.now ≡ decimal n → result ≡ Some n }
{
    match u32::try_from(number(text)?) {
        Ok(number) => Some(number),
        Err(_) => None,
    }
}

/// The same, if it is below 2^16.
pub fn number_u16(text: &[u8]) -> Option<u16>
    ensures found { IfSome result (λ n. text.now ≡ decimal n) }
    ensures only { (n : ℕ) → n < 2 ^ 16 → text.now ≡ decimal n → result ≡ Some n }
{
    match u16::try_from(number(text)?) {
        Ok(number) => Some(number),
        Err(_) => None,
    }
}

/// The block and offset of the text `(block,offset)`.
pub fn pair(text: &[u8]) -> Option<(u32, u16)>
    ensures found { IfSome result (λ p. text.now
        ≡ row_text (record { block = p.0; offset = p.1 })) }
    ensures only { (row : Row) → row.block < 2 ^ 32 → row.offset < 2 ^ 16
        → text.now ≡ row_text row → result ≡ Some (row.block, row.offset) }
{
    match inner(text) {
        None => None,
        Some(inner) => numbers(inner),
    }
}

/// The two numbers of the text `block,offset`.
fn numbers(text: &[u8]) -> Option<(u32, u16)>
    ensures found { IfSome result (λ p. text.now ≡ decimal p.0 ++ (44 ∷ decimal p.1)) }
    ensures only { (block offset : ℕ) → block < 2 ^ 32 → offset < 2 ^ 16
        → text.now ≡ decimal block ++ (44 ∷ decimal offset) → result ≡ Some (block, offset) }
{
    match parted(text) {
        None => None,
        Some((block, offset)) => both(number_u32(block), number_u16(offset)),
    }
}

fn both(block: Option<u32>, offset: Option<u16>) -> Option<(u32, u16)>
    ensures found { IfSome result (λ p. (block ≡ Some p.0) × (offset ≡ Some p.1)) }
    ensures only { (m n : ℕ) → block ≡ Some m → offset ≡ Some n → result ≡ Some (m, n) }
{
    match (block, offset) {
        (Some(block), Some(offset)) => Some((block, offset)),
        _ => None,
    }
}

/// What stands before the first comma, and what after it.
fn parted(text: &[u8]) -> Option<(&[u8], &[u8])>
    ensures found { IfSome result (λ p. text.now ≡ p.0.now ++ (44 ∷ p.1.now)) }
    ensures only { (front back : List ℕ) → AllDigits 10 front → text.now ≡ front ++ (44 ∷ back)
        → IsSomeAnd result (λ p. (p.0.now ≡ front) × (p.1.now ≡ back)) }
{
    match comma(text) {
        None => None,
        Some(at) => Some((&text[..at], &text[at + 1..])),
    }
}

/// What stands between the parentheses of a text.
fn inner(text: &[u8]) -> Option<&[u8]>
    ensures found { IfSome result (λ inner. text.now ≡ 40 ∷ (inner.now ++ 41 ∷ [])) }
    ensures only { (inside : List ℕ) → text.now ≡ 40 ∷ (inside ++ 41 ∷ [])
        → IsSomeAnd result (λ inner. inner.now ≡ inside) }
{
    let len = text.len();
    if len < 2 || text[0] != b'(' || text[len - 1] != b')' {
        return None;
    }
    Some(&text[1..len - 1])
}

fn comma(text: &[u8]) -> Option<usize>
    ensures { result ≡ position (λ byte. byte == 44) text.now }
{
    text.iter().position(|byte| *byte == b',')
}

/// The row of the text `(block,offset)`. None if it isn't such a text; `BadRow` if there is no such row.
pub fn row(text: &[u8]) -> Option<Result<RowAddr, Fault>>
    ensures found { IfSome result
        (λ read. (row : Row) × (text.now ≡ row_text row) × IsNarrow row × ReadsRow row read) }
    ensures only { (row : Row) → row.block < 2 ^ 32 → row.offset < 2 ^ 16
        → text.now ≡ row_text row → IsSomeAnd result (ReadsRow row) }
{
    let (block, offset) = pair(text)?;
    Some(RowAddr::new(block, offset))
}

/// The key of a text of lower-case hex digits, or `-` for the empty key. None if it isn't such a text;
/// `KeyTooLong` if it has more than 64 bytes.
pub fn key(text: &[u8]) -> Option<Result<Key, Fault>>
    ensures found { (key : List ℕ) → result ≡ Some (Ok key) → text.now ≡ key_text key }
    ensures only { (key : List ℕ) → IsBytes key → length key ≤ 64 → text.now ≡ key_text key
        → result ≡ Some (Ok key) }
    ensures valid { (key : List ℕ) → result ≡ Some (Ok key) → IsKey key }
    ensures long { (fault : Fault) → result ≡ Some (Err fault)
        → (fault ≡ Fault.KeyTooLong) × IsLongKeyText text.now }
    ensures only_long { IsLongKeyText text.now → result ≡ Some (Err Fault.KeyTooLong) }
{
    if is_dash(text) {
        return Some(Ok(Key::EMPTY));
    }
    if text.len() > 128 {
        return long_key(text);
    }
    short_key(text)
}

fn is_dash(text: &[u8]) -> bool
    ensures { IsTrue result ↔ (text.now ≡ 45 ∷ []) }
{
    text.len() == 1 && text[0] == b'-'
}

/// What a text of more than 128 bytes is refused with, if it is one of a key.
fn long_key(text: &[u8]) -> Option<Result<Key, Fault>>
    requires { 128 < length text.now }
    ensures fault { IfSome result (λ read. read ≡ Err Fault.KeyTooLong) }
    ensures found { OnSome result (IsLongKeyText text.now) }
    ensures only { IsLongKeyText text.now → result ≡ Some (Err Fault.KeyTooLong) }
{
    if text.len() % 2 != 0 {
        return None;
    }
    if !are_digits(text) {
        return None;
    }
    Some(Err(Fault::KeyTooLong))
}

fn are_digits(text: &[u8]) -> bool
    ensures { result ≡ list_all is_key_digit text.now }
{
    text.iter().all(|byte| is_digit(*byte))
}

fn is_digit(byte: u8) -> bool
    ensures { result ≡ is_key_digit byte }
{
    matches!(byte, b'0'..=b'9' | b'a'..=b'f')
}

/// The key of at most 128 digits.
fn short_key(text: &[u8]) -> Option<Result<Key, Fault>>
    requires { length text.now ≤ 128 }
    ensures ok { IfSome result (λ read. IsOk read) }
    ensures found { (key : List ℕ) → result ≡ Some (Ok key)
        → (text.now ≡ encode_lower key) × (0 < length key) }
    ensures valid { (key : List ℕ) → result ≡ Some (Ok key) → IsKey key }
    ensures only { (key : List ℕ) → IsBytes key → 0 < length key → text.now ≡ encode_lower key
        → result ≡ Some (Ok key) }
{
    let count = text.len() / 2;
    if count == 0 {
        return None;
    }
    let mut bytes = [0; 64];
    let bytes = &mut bytes[..count];
    if !decode(text, bytes) {
        return None;
    }
    match Key::new(bytes) {
        Ok(key) => Some(Ok(key)),
        Err(_) => None,
    }
}

/// Writes the bytes of a text of lower-case hex digits.
fn decode(text: &[u8], bytes: &mut [u8]) -> bool
    requires { length bytes.old ≤ 64 }
    ensures found { result ≡ true → text.now ≡ encode_lower bytes.new }
    ensures only { (key : List ℕ) → IsBytes key → length key ≡ length bytes.old
        → text.now ≡ encode_lower key → (result ≡ true) × (bytes.new ≡ key) }
{
    if hex::decode_to_slice(text, bytes).is_err() {
        return false;
    }
    spells(text, bytes)
}

/// Whether a text is that of these bytes.
fn spells(text: &[u8], bytes: &[u8]) -> bool
    requires { length bytes.now ≤ 64 }
    ensures { IsTrue result ↔ (text.now ≡ encode_lower bytes.now) }
{
    let mut again = [0; 128];
    let again = &mut again[..2 * bytes.len()];
    if hex::encode_to_slice(bytes, again).is_err() {
        return false;
    }
    text == again
}

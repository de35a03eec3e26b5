//! A page from its bytes.

ghost use Rattle.std.specs.Prelude.{◌≡◌, ◌≢◌, ◌≤◌, ◌+◌, ◌*◌, ◌∷◌, ◌↔◌, ◌<◌, ◌++◌, ℕ, List, Option, length, take, drop, max, [], Some, replicate, IfSome, IsSome, IsNone, IsTrue};
ghost use Rattle.std.specs.List.{AllByRecursion};
ghost use Rattle.byteorder.specs.Endian.{little_number};
ghost use Rattle.index_model.specs.Row.{Row, IsRow};
ghost use Rattle.index_model.specs.Padded.{padded};
ghost use Rattle.index_model.specs.Order.{IsEntry};
ghost use Rattle.index_model.specs.declared.layout.Layout.TheVariants.{Two};
ghost use Rattle.page_codec.specs.Begins.{Begins, IsRead, HasSlot, AreItems};
ghost use Rattle.page_codec.specs.Spelling.{layout_digit, kind_byte, count_of, state_byte, link_number, row_bytes, slot_bytes, entry_bytes, downlink_bytes, items_bytes, page_bytes};
ghost use Rattle.page_codec.specs.Grammar.{IsPage, IsBlock, IsBoundIn, IsDownlink};
ghost use Rattle.page_codec.specs.declared.page.Page.{Page};

use crate::edits::clear_entries;
use crate::grammar::is_page;
use crate::page::{Downlink, Items, Page, PageState};
use crate::written::{begins_with, is_written};
use arrayvec::ArrayVec;
use byteorder::{ByteOrder, LittleEndian};
use index_model::{Bound, Entry, Key, Layout, RowAddr};

pub fn tail(bytes: &[u8], at: usize) -> &[u8]
    requires { at ≤ length bytes.now }
    ensures value { result.now ≡ drop at bytes.now }
    ensures len { length result.now + at ≡ length bytes.now }
{
    &bytes[at..]
}

fn u16_at(bytes: &[u8], at: usize) -> u16
    requires { at + 2 ≤ length bytes.now }
    ensures { result ≡ little_number 2 (drop at bytes.now) }
{
    LittleEndian::read_u16(tail(bytes, at))
}

fn u32_at(bytes: &[u8], at: usize) -> u32
    requires { at + 4 ≤ length bytes.now }
    ensures { result ≡ little_number 4 (drop at bytes.now) }
{
    LittleEndian::read_u32(tail(bytes, at))
}

fn u64_at(bytes: &[u8], at: usize) -> u64
    requires { at + 8 ≤ length bytes.now }
    ensures { result ≡ little_number 8 (drop at bytes.now) }
{
    LittleEndian::read_u64(tail(bytes, at))
}

// The key in the first 65 bytes: its length, its bytes, and zeros after them.
fn key_at(bytes: &[u8]) -> Option<Key>
    requires { 65 ≤ length bytes.now }
    ensures found { IfSome result (λ k. (length k ≤ 64) × Begins (length k ∷ padded k) bytes.now) }
    ensures only { (k : List ℕ) → length k ≤ 64 → Begins (length k ∷ padded k) bytes.now
        → result ≡ Some k }
{
    let Ok(cells) = <&[u8; 64]>::try_from(&bytes[1..65]) else {
        return None;
    };
    Key::from_cells(bytes[0], cells)
}

// The row in the first six bytes.
fn row_at(bytes: &[u8]) -> Option<RowAddr>
    requires { 6 ≤ length bytes.now }
    ensures found { IfSome result (λ r. IsRow r × Begins (row_bytes (Some r)) bytes.now) }
    ensures only { (r : Row) → IsRow r → Begins (row_bytes (Some r)) bytes.now
        → result ≡ Some r }
{
    let block = u32_at(bytes, 0);
    let offset = u16_at(bytes, 4);
    match RowAddr::new(block, offset) {
        Ok(row) => Some(row),
        Err(_) => None,
    }
}

// The entry in the first 71 bytes.
fn entry(bytes: &[u8]) -> Option<Entry>
    requires { 71 ≤ length bytes.now }
    ensures found { IfSome result (λ e. IsEntry e × Begins (entry_bytes e) bytes.now) }
    ensures only { (e : Entry) → IsEntry e → Begins (entry_bytes e) bytes.now → result ≡ Some e }
{
    let key = key_at(bytes)?;
    let row = row_at(tail(bytes, 65))?;
    Some(Entry { key, row })
}

// The bound in the first 71 bytes, or none, if they are zeros. A row of zeros is none: the place before
// all rows of the key.
fn slot(bytes: &[u8]) -> Option<Option<Bound>>
    requires { 71 ≤ length bytes.now }
    ensures found { IfSome result
        (λ b. IfSome b (IsBoundIn Two) × Begins (slot_bytes b) bytes.now) }
    ensures only { (b : Option Bound) → IfSome b (IsBoundIn Two) → Begins (slot_bytes b) bytes.now
        → result ≡ Some b }
{
    if begins_with(bytes, &[0; 71]) {
        return Some(None);
    }
    let key = key_at(bytes)?;
    let after_key = tail(bytes, 65);
    if begins_with(after_key, &[0; 6]) {
        return Some(Some(Bound { key, row: None }));
    }
    let row = row_at(after_key)?;
    Some(Some(Bound {
        key,
        row: Some(row),
    }))
}

// The downlink in the first 75 bytes.
fn downlink(bytes: &[u8]) -> Option<Downlink>
    requires { 75 ≤ length bytes.now }
    ensures found { IfSome result (λ d. HasSlot d × Begins (downlink_bytes d) bytes.now) }
    ensures only { (d : Downlink) → IsDownlink Two d → Begins (downlink_bytes d) bytes.now
        → result ≡ Some d }
{
    let bound = slot(bytes)?;
    let child = u32_at(bytes, 71);
    Some(Downlink { bound, child })
}

// Puts an entry in the place of another, or after the last one.
fn put(list: &mut ArrayVec<Entry, 50>, at: usize, entry: Entry)
    requires place { at ≤ length list.old.items }
    requires room { at < 50 }
    ensures front { take (at + 1) list.new.items ≡ take at list.old.items ++ entry ∷ [] }
    ensures len { length list.new.items ≡ max (length list.old.items) (at + 1) }
{
    if at == list.len() {
        list.push(entry);
    } else {
        list.as_mut_slice()[at] = entry;
    }
}

// Reads `count` entries over those that stand there: to clear these first would take longer. Never inlined,
// so that its loop has all registers.
#[inline(never)]
fn entries(count: usize, bytes: &[u8], into: &mut ArrayVec<Entry, 50>) -> bool
    requires count { count ≤ 50 }
    requires room { 71 * count ≤ length bytes.now }
    ensures found { IsTrue result → IsRead IsEntry entry_bytes count bytes.now into.new.items }
    ensures only { (es : List Entry) → AllByRecursion IsEntry es
        → IsRead IsEntry entry_bytes count bytes.now es → IsTrue result × (into.new.items ≡ es) }
{
    into.truncate(count);
    let mut rest = bytes;
    for at in 0..count {
        let Some(entry) = entry(rest) else {
            return false;
        };
        put(into, at, entry);
        rest = tail(rest, 71);
    }
    true
}

// Reads `count` downlinks.
fn downlinks(count: usize, bytes: &[u8]) -> Option<ArrayVec<Downlink, 50>>
    requires count { count ≤ 50 }
    requires room { 75 * count ≤ length bytes.now }
    ensures found { IfSome result (λ v. IsRead HasSlot downlink_bytes count bytes.now v.items) }
    ensures only { (ds : List Downlink) → AllByRecursion (IsDownlink Two) ds
        → IsRead HasSlot downlink_bytes count bytes.now ds
        → IfSome result (λ v. v.items ≡ ds) × IsSome result }
{
    let mut links = ArrayVec::new();
    let mut rest = bytes;
    for _ in 0..count {
        links.push(downlink(rest)?);
        rest = tail(rest, 75);
    }
    Some(links)
}

// Reads the items. Leaves are read most: their entries take the place of those that were there.
#[tactic(auto, unfolding(crate::specs::Spelling::items_bytes))]
fn items(kind: u8, count: usize, bytes: &[u8], into: &mut Items) -> bool
    requires { 3750 ≤ length bytes.now }
    ensures found { IsTrue result → Begins (items_bytes into.new) bytes.now }
    ensures only { (its : Items) → AreItems its → kind ≡ kind_byte its → count ≡ count_of its
        → Begins (items_bytes its) bytes.now → IsTrue result × (into.new ≡ its) }
{
    if count > 50 {
        return false;
    }
    match kind {
        1 => {
            *into = Items::Meta;
            true
        }
        2 => {
            if !matches!(into, Items::Entries(_)) {
                clear_entries(into);
            }
            match into {
                Items::Entries(list) => entries(count, bytes, list),
                _ => false,
            }
        }
        3 => {
            let Some(links) = downlinks(count, bytes) else {
                return false;
            };
            *into = Items::Downlinks(links);
            true
        }
        _ => false,
    }
}

// The layout that a page's fourth byte names.
fn layout(byte: u8) -> Option<Layout>
    ensures { (l : Layout) → byte ≡ layout_digit l → result ≡ Some l }
{
    match byte {
        b'1' => Some(Layout::One),
        b'2' => Some(Layout::Two),
        _ => None,
    }
}

// The state that a byte names.
fn state(byte: u8) -> Option<PageState>
    ensures { (s : PageState) → byte ≡ state_byte s → result ≡ Some s }
{
    match byte {
        0 => Some(PageState::Live),
        1 => Some(PageState::HalfDead),
        2 => Some(PageState::Deleted),
        _ => None,
    }
}

// The link that a number is.
fn link(number: u32) -> Option<u32>
    ensures { (link : Option ℕ) → IfSome link IsBlock → number ≡ link_number link
        → result ≡ link }
{
    if number == u32::MAX {
        None
    } else {
        Some(number)
    }
}

// Reads a page of whose first 36 bytes only as much is judged as is needed to read it.
fn read(bytes: &[u8], page: &mut Page) -> bool
    requires { length bytes.now ≡ 4096 }
    ensures found { IsTrue result → Begins (slot_bytes page.new.high) (drop 36 bytes.now)
        × Begins (items_bytes page.new.items) (drop 107 bytes.now) }
    ensures only { (p : Page) → IsPage p → bytes.now ≡ page_bytes p
        → IsTrue result × (page.new ≡ p) }
{
    let Some(layout) = layout(bytes[3]) else {
        return false;
    };
    let Some(state) = state(bytes[10]) else {
        return false;
    };
    let Some(high) = slot(tail(bytes, 36)) else {
        return false;
    };
    let count = u16_at(bytes, 32) as usize;
    if !items(bytes[8], count, tail(bytes, 107), &mut page.items) {
        return false;
    }
    page.layout = layout;
    page.block = u32_at(bytes, 4);
    page.level = bytes[9];
    page.state = state;
    page.split = bytes[11] % 2 == 1;
    page.left = link(u32_at(bytes, 12));
    page.right = link(u32_at(bytes, 16));
    page.high = high;
    page.cycle = u32_at(bytes, 20);
    page.deletion = u64_at(bytes, 24);
    true
}

/// Whether the bytes are those of a block that was never written: 4,096 zeros. No page has these
/// bytes.
pub fn is_unused(bytes: &[u8; 4096]) -> bool
    ensures { IsTrue result ↔ (bytes.now ≡ replicate 4096 0) }
{
    *bytes == [0; 4096]
}

/// Reads the page of these bytes into the place of another: true exactly if they are the bytes that
/// [`encode`] writes for a page that the format admits, and `page` is that page then. False exactly if they
/// are those of no such page, and what `page` holds then has no meaning. It takes no memory.
pub fn decode_into(bytes: &[u8; 4096], page: &mut Page) -> bool
    ensures found { IsTrue result → IsPage page.new × (bytes.now ≡ page_bytes page.new) }
    ensures only { (p : Page) → IsPage p → bytes.now ≡ page_bytes p
        → IsTrue result × (page.new ≡ p) }
{
    if !read(bytes, page) {
        return false;
    }
    if !is_page(page) {
        return false;
    }
    is_written(page, bytes)
}

/// The page of these bytes: `Some(page)` exactly if they are the bytes that [`encode`] writes for a
/// page that the format admits, and `None` exactly if they are those of no such page. It takes no
/// memory beside the page that it answers, and fails for no other reason.
pub fn decode(bytes: &[u8; 4096]) -> Option<Page>
    ensures found { IfSome result (λ p. IsPage p × (bytes.now ≡ page_bytes p)) }
    ensures only { (p : Page) → IsPage p → bytes.now ≡ page_bytes p → result ≡ Some p }
    ensures none { IsNone result ↔ ((p : Page) → IsPage p → bytes.now ≢ page_bytes p) }
{
    let mut page = Page::blank();
    if decode_into(bytes, &mut page) {
        Some(page)
    } else {
        None
    }
}

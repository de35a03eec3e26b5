//! Pages as they are printed.

ghost use Rattle.std.specs.Prelude.{◌≡◌, length, flat_map, OnOk};
ghost use Rattle.std.specs.Io.KnownBytes.{Appends};
ghost use Rattle.page_codec.specs.declared.page.Items.TheVariants.{Entries, Downlinks};
ghost use Rattle.text_forms.specs.Dumping.{high_text, low_text, bool_bit, entry_line, downlink_line, links_text, linked_leaf_line, leaf_line, internal_line, meta_line, page_text};

use crate::show::{ShownBound, ShownEntry, ShownLink};
use index_model::{Bound, Entry};
use page_codec::{Downlink, Items, Page, PageState};
use std::fmt;
use std::io::{self, Write};

/// The high key of a page, or `-`.
#[derive(Clone, Copy)]
struct ShownHigh {
    high: Option<Bound>,
}

impl fmt::Display for ShownHigh {
    ghost use Rattle.std.specs.Prelude.{Some};
    ghost use Rattle.text_forms.specs.Dumping.{high_text};

    ghost output = { λ shown. Some (high_text shown.high) };

    fn fmt<W: fmt::Write>(&self, f: &mut fmt::Formatter<W>) -> fmt::Result {
        match self.high {
            None => f.write_str("-"),
            Some(bound) => {
                let bound = ShownBound { bound };
                write!(f, "{bound}")
            }
        }
    }
}

/// The bound of a downlink, or `*` for minus infinity.
#[derive(Clone, Copy)]
struct ShownLow {
    low: Option<Bound>,
}

impl fmt::Display for ShownLow {
    ghost use Rattle.std.specs.Prelude.{Some};
    ghost use Rattle.text_forms.specs.Dumping.{low_text};

    ghost output = { λ shown. Some (low_text shown.low) };

    fn fmt<W: fmt::Write>(&self, f: &mut fmt::Formatter<W>) -> fmt::Result {
        match self.low {
            None => f.write_str("*"),
            Some(bound) => {
                let bound = ShownBound { bound };
                write!(f, "{bound}")
            }
        }
    }
}

/// Prints the line of a page, and one for each of its items.
pub fn print_page<W: Write>(out: &mut W, page: &Page) -> io::Result<()>
    ensures { OnOk result (Appends (W.contents out.old) (W.contents out.new) (page_text page.now)) }
{
    match &page.items {
        Items::Meta => print_meta(out, page),
        Items::Entries(entries) => {
            print_leaf(out, page, entries.len())?;
            print_entries(out, entries.as_slice())
        }
        Items::Downlinks(links) => {
            print_internal(out, page, links.len())?;
            print_downlinks(out, links.as_slice())
        }
    }
}

fn print_meta<W: Write>(out: &mut W, page: &Page) -> io::Result<()>
    ensures { OnOk result (Appends (W.contents out.old) (W.contents out.new) (meta_line page.now)) }
{
    let block = page.block;
    let level = page.level;
    let root = ShownLink { link: page.right };
    writeln!(out, "{block} meta root={root} level={level}")
}

fn print_leaf<W: Write>(out: &mut W, page: &Page, count: usize) -> io::Result<()>
    ensures { OnOk result (Appends (W.contents out.old) (W.contents out.new)
        (leaf_line page.now.state page.now count)) }
{
    match page.state {
        PageState::Live => print_linked_leaf(out, page, "live", count),
        PageState::HalfDead => print_linked_leaf(out, page, "halfdead", count),
        PageState::Deleted => print_deleted(out, page),
    }
}

fn print_linked_leaf<W: Write>(
    out: &mut W,
    page: &Page,
    state: &str,
    count: usize,
) -> io::Result<()>
    ensures { OnOk result (Appends (W.contents out.old) (W.contents out.new)
        (linked_leaf_line state.now page.now count)) }
{
    let block = page.block;
    let cycle = page.cycle;
    write!(out, "{block} leaf {state}")?;
    print_links(out, page)?;
    writeln!(out, " cycle={cycle} n={count}")
}

fn print_deleted<W: Write>(out: &mut W, page: &Page) -> io::Result<()>
    ensures { page.now.state ≡ PageState.Deleted → OnOk result (Appends (W.contents out.old)
        (W.contents out.new) (leaf_line page.now.state page.now 0)) }
{
    let block = page.block;
    let right = ShownLink { link: page.right };
    let number = page.deletion;
    writeln!(out, "{block} leaf deleted right={right} number={number}")
}

fn print_internal<W: Write>(out: &mut W, page: &Page, count: usize) -> io::Result<()>
    ensures { OnOk result (Appends (W.contents out.old) (W.contents out.new)
        (internal_line page.now count)) }
{
    let block = page.block;
    let level = page.level;
    write!(out, "{block} internal level={level}")?;
    print_links(out, page)?;
    writeln!(out, " n={count}")
}

/// Prints the links of a page, its high key and whether its split is incomplete.
fn print_links<W: Write>(out: &mut W, page: &Page) -> io::Result<()>
    ensures { OnOk result (Appends (W.contents out.old) (W.contents out.new)
        (links_text page.now)) }
{
    let left = ShownLink { link: page.left };
    let right = ShownLink { link: page.right };
    let high = ShownHigh { high: page.high };
    let split = bit(page.split);
    write!(out, " left={left} right={right} high={high} split={split}")
}

pub fn print_entries<W: Write>(out: &mut W, entries: &[Entry]) -> io::Result<()>
    ensures { OnOk result (Appends (W.contents out.old) (W.contents out.new)
        (flat_map entry_line entries.now)) }
{
    for entry in entries {
        let entry = ShownEntry { entry: *entry };
        writeln!(out, "  {entry}")?;
    }
    Ok(())
}

fn print_downlinks<W: Write>(out: &mut W, links: &[Downlink]) -> io::Result<()>
    ensures { OnOk result (Appends (W.contents out.old) (W.contents out.new)
        (flat_map downlink_line links.now)) }
{
    for link in links {
        let low = ShownLow { low: link.bound };
        let child = link.child;
        writeln!(out, "  {low} -> {child}")?;
    }
    Ok(())
}

fn bit(flag: bool) -> u8
    ensures { result ≡ bool_bit flag }
{
    if flag { 1 } else { 0 }
}

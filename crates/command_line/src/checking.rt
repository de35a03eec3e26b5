//! What the verifier answers, printed.

ghost use Rattle.std.specs.Prelude.{◌≡◌, true, Ok, IfOk};
ghost use Rattle.index_model.specs.Faults.{HasCause};
ghost use Rattle.page_action.specs.States.{Continues};
ghost use Rattle.amcheck.specs.Checks.{causes_of_checked};
ghost use Rattle.text_forms.specs.Printing.{PrintsLine};
ghost use Rattle.command_line.specs.Reporting.{PrintsReport, PrintsDamage, AreSound, IsCheckEnd, PrintsAnswer, report_text, damage_text};

use crate::end::End;
use amcheck::{CheckFault, Report, check, check_one, check_parents, check_parents_one};
use index_model::{Fault, Progress};
use page_action::PageStore;
use std::alloc::Global;
use std::io::{self, Write};
use std::thread::Threads;

/// Judges the levels and links of a store's pages, and their parents and children if that is asked for, and
/// prints the report, or the first damage. Refused as `amcheck::check` is: nothing is printed then.
///
/// A printed report is that of the pages, and with parents it means that they are a B-link tree; pages that
/// are one have no damage. A printed damage is the first that there is.
pub fn check_pages<R: Threads + Sync, S: PageStore, P: Progress, W: Write>(
    rt: &R,
    alloc: Global,
    store: &mut S,
    parents: bool,
    progress: &P,
    out: &mut W,
) -> io::Result<End>
    ensures steps { Continues S.follows store.old store.new }
    ensures state { S.state store.new ≡ S.state store.old }
    ensures ends { IfOk result IsCheckEnd }
    ensures report { result ≡ Ok End.Done → PrintsReport (S.backing store.new).honest
        (S.state store.old).pages (W.contents out.old) (W.contents out.new) }
    ensures sound { result ≡ Ok End.Done → (S.backing store.new).honest ≡ true
        → AreSound parents (S.state store.old) }
    ensures damage { result ≡ Ok End.Damaged → PrintsDamage (S.backing store.new).honest parents
        (S.state store.old) (W.contents out.old) (W.contents out.new) }
    ensures refused { (fault : Fault) → result ≡ Ok (End.Refused fault)
        → HasCause (causes_of_checked (S.state store.old) (S.backing store.old)
        (S.backing store.new)) fault }
    ensures silent { (fault : Fault) → result ≡ Ok (End.Refused fault)
        → W.contents out.new ≡ W.contents out.old }
{
    let checked = if parents {
        check_parents(rt, alloc, store, progress)
    } else {
        check(rt, alloc, store, progress)
    };
    print_checked(out, checked)
}

/// Prints the same as [`check_pages`], and judges in this thread alone.
pub fn check_pages_one<S: PageStore, P: Progress, W: Write>(
    alloc: Global,
    store: &mut S,
    parents: bool,
    progress: &P,
    out: &mut W,
) -> io::Result<End>
    ensures steps { Continues S.follows store.old store.new }
    ensures state { S.state store.new ≡ S.state store.old }
    ensures ends { IfOk result IsCheckEnd }
    ensures report { result ≡ Ok End.Done → PrintsReport (S.backing store.new).honest
        (S.state store.old).pages (W.contents out.old) (W.contents out.new) }
    ensures sound { result ≡ Ok End.Done → (S.backing store.new).honest ≡ true
        → AreSound parents (S.state store.old) }
    ensures damage { result ≡ Ok End.Damaged → PrintsDamage (S.backing store.new).honest parents
        (S.state store.old) (W.contents out.old) (W.contents out.new) }
    ensures refused { (fault : Fault) → result ≡ Ok (End.Refused fault)
        → HasCause (causes_of_checked (S.state store.old) (S.backing store.old)
        (S.backing store.new)) fault }
    ensures silent { (fault : Fault) → result ≡ Ok (End.Refused fault)
        → W.contents out.new ≡ W.contents out.old }
{
    let checked = if parents {
        check_parents_one(alloc, store, progress)
    } else {
        check_one(alloc, store, progress)
    };
    print_checked(out, checked)
}

/// Prints a report, or a damage, and answers how that ends. A refusal isn't printed.
fn print_checked<W: Write>(out: &mut W, checked: Result<Report, CheckFault>) -> io::Result<End>
    ensures { IfOk result (PrintsAnswer checked (W.contents out.old) (W.contents out.new)) }
{
    match checked {
        Ok(report) => {
            print_report(out, &report)?;
            Ok(End::Done)
        }
        Err(CheckFault::Damage { number, block }) => {
            print_damage(out, number, block)?;
            Ok(End::Damaged)
        }
        Err(CheckFault::Refused(fault)) => Ok(End::Refused(fault)),
    }
}

/// Prints `ok`, and each number of the report after its name.
pub fn print_report<W: Write>(out: &mut W, report: &Report) -> io::Result<()>
    ensures { PrintsLine (W.contents out.old) (W.contents out.new) result (report_text report.now) }
{
    let levels = report.levels;
    let pages = report.pages;
    let entries = report.entries;
    let half_dead = report.half_dead;
    let deleted = report.deleted;
    let unfinished = report.unfinished;
    writeln!(
        out,
        "ok levels={levels} pages={pages} entries={entries} halfdead={half_dead} deleted={deleted} unfinished={unfinished}"
    )
}

/// Prints `damage N block B`.
pub fn print_damage<W: Write>(out: &mut W, number: u8, block: u32) -> io::Result<()>
    ensures { PrintsLine (W.contents out.old) (W.contents out.new) result
        (damage_text number block) }
{
    writeln!(out, "damage {number} block {block}")
}

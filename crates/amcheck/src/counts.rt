//! The numbers of a report.

ghost use Rattle.std.specs.Prelude.{◌≡◌, ◌≤◌, length};
ghost use Rattle.amcheck.specs.Reports.{report_of, one_if_half_dead, one_if_deleted, one_if_incomplete};

use crate::pages::Pages;
use crate::report::Report;
use page_codec::PageState;

fn one_if_half_dead(state: PageState) -> u32
    ensures { result ≡ one_if_half_dead state }
{
    match state {
        PageState::HalfDead => 1,
        PageState::Live | PageState::Deleted => 0,
    }
}

fn one_if_deleted(state: PageState) -> u32
    ensures { result ≡ one_if_deleted state }
{
    match state {
        PageState::Deleted => 1,
        PageState::Live | PageState::HalfDead => 0,
    }
}

fn one_if_incomplete(split: bool) -> u32
    ensures { result ≡ one_if_incomplete split }
{
    if split { 1 } else { 0 }
}

/// The report on pages that stand in `levels` levels.
pub(crate) fn count_up(pages: &Pages, levels: u32) -> Report
    requires few { length pages.now ≤ 65536 }
    ensures { result ≡ report_of levels pages.now }
{
    let mut report = Report {
        levels,
        pages: pages.len() as u32,
        entries: 0,
        half_dead: 0,
        deleted: 0,
        unfinished: 0,
    };
    for block in 0..pages.len() as u32 {
        let sketch = pages.sketch(block);
        report.entries += sketch.entries;
        report.half_dead += one_if_half_dead(sketch.state);
        report.deleted += one_if_deleted(sketch.state);
        report.unfinished += one_if_incomplete(sketch.split);
    }
    report
}

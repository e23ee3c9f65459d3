//! The section of the listing.
ghost use Rattle.std.specs.Prelude.{◌≡◌, ◌≤◌, [], ◌∷◌, ◌++◌, OnOk, length};
ghost use Rattle.cps_list.specs.ListingText.{line_rows, listing_from, open_row};
ghost use Rattle.cps_markup.specs.Links.{Leads};
ghost use Rattle.cps_markup.specs.Code.Adding.{Adds};
ghost use Rattle.cps_page.specs.Code.Making.{AddsLines, AddsListing, lines_from};

use crate::expansion::{MOST_UNFOLDED, push_line};
use crate::listed_rows::{ListedRows, push_listed_rows};
use crate::telling::Telling;
use cps_expr::Machine;
use cps_final::Row;
use cps_list::{View, push_rows as push_listing_rows};
use cps_markup::{Attribute, Style, Tag, Targets, push_closing, push_opening};
use std::alloc::{AllocError, Global};

/// How many lines a run has.
const RUN_LINES: u32 = 100;

/// The listing: the rows of each line are one place.
pub fn push_listing<V: View>(
    alloc: Global,
    page: &mut Vec<u8>,
    view: &V,
    targets: &Targets,
    telling: &mut Telling<'_>,
) -> Result<(), AllocError>
    ensures { OnOk result (AddsListing targets.now (V.assembly view.now) page.old.items page.new.items) }
{
    push_lines(page, view, targets, telling)?;
    push_open_row(alloc, page, targets, telling, view.open_at_end())?;
    Ok(())
}

/// The rows of all lines, in runs of so many lines.
fn push_lines<V: View>(
    page: &mut Vec<u8>,
    view: &V,
    targets: &Targets,
    telling: &mut Telling<'_>,
) -> Result<(), AllocError>
    ensures { let source = V.assembly view.now in
        OnOk result (Adds (Leads targets.now) (listing_from 1 source.lines source.outcomes) (lines_from 1 source.lines) page.old.items page.new.items) }
{
    let mut begin: u32 = 0;
    while begin < view.count() {
        let end = begin.saturating_add(RUN_LINES).min(view.count());
        push_run(page, view, targets, telling, LineRange { begin, end })?;
        begin = end;
    }
    Ok(())
}

/// The lines behind so many, up to so many.
#[derive(Clone, Copy)]
struct LineRange {
    begin: u32,
    end: u32,
}

/// A run of lines, which a browser lays out when it is looked at.
fn push_run<V: View>(
    page: &mut Vec<u8>,
    view: &V,
    targets: &Targets,
    telling: &mut Telling<'_>,
    range: LineRange,
) -> Result<(), AllocError>
    requires some { range.begin ≤ range.end }
    requires within { range.end ≤ length (V.assembly view.now).lines }
    requires outcomes { range.end ≤ length (V.assembly view.now).outcomes }
    ensures { OnOk result (AddsLines targets.now (V.assembly view.now) range.begin range.end page.old.items page.new.items) }
{
    let style = run_style(view.finals().machine());
    let rows = count_rows(view, range);
    push_opening(
        page,
        Tag::Row,
        &[Attribute::Styled(style), Attribute::Counted(rows)],
    )?;
    push_run_lines(page, view, targets, telling, range)?;
    push_closing(page, Tag::Row)?;
    Ok(())
}

fn run_style(machine: Machine) -> Style {
    match machine {
        Machine::Cp => Style::Run,
        Machine::Pp => Style::PeripheralRun,
    }
}

/// About how many rows lines show at first.
fn count_rows<V: View>(view: &V, range: LineRange) -> u32 {
    let mut count: u32 = 0;
    for before in range.begin..range.end {
        let rows = match view.outcome(before.saturating_add(1)) {
            Some(outcome) => outcome.rows().len(),
            None => 0,
        };
        count = count.saturating_add(shown_rows(rows));
    }
    count
}

/// How many rows a line of so many shows at first.
fn shown_rows(rows: usize) -> u32 {
    if rows > MOST_UNFOLDED {
        return 1;
    }
    (rows as u32).max(1)
}

fn push_run_lines<V: View>(
    page: &mut Vec<u8>,
    view: &V,
    targets: &Targets,
    telling: &mut Telling<'_>,
    range: LineRange,
) -> Result<(), AllocError>
    requires some { range.begin ≤ range.end }
    requires within { range.end ≤ length (V.assembly view.now).lines }
    requires outcomes { range.end ≤ length (V.assembly view.now).outcomes }
    ensures { OnOk result (AddsLines targets.now (V.assembly view.now) range.begin range.end page.old.items page.new.items) }
{
    let alloc = *page.allocator();
    let mut text = Vec::new(alloc);
    let mut before = range.begin;
    while before < range.end {
        let Some(line) = view.line(before + 1) else {
            unreachable!();
        };
        let Some(outcome) = view.outcome(before + 1) else {
            unreachable!();
        };
        fill_rows(&mut text, before + 1, line.bytes(), outcome.rows())?;
        push_line(
            alloc,
            page,
            targets,
            telling,
            &ListedRows::of(before + 1, &text),
        )?;
        before += 1;
    }
    Ok(())
}

/// Writes the rows of a line over a text.
fn fill_rows(text: &mut Vec<u8>, number: u32, line: &[u8], rows: &[Row]) -> Result<(), AllocError>
    ensures { OnOk result (text.new.items ≡ line_rows number line.now rows.now) }
{
    text.clear();
    push_listing_rows(text, number, line, rows)
}

/// The last row of a source that ends while a range is open, with all causes that are left.
fn push_open_row(
    alloc: Global,
    page: &mut Vec<u8>,
    targets: &Targets,
    telling: &mut Telling<'_>,
    is_open: bool,
) -> Result<(), AllocError>
    ensures { OnOk result (Adds (Leads targets.now) (open_row is_open) [] page.old.items page.new.items) }
{
    push_listed_rows(
        alloc,
        page,
        targets,
        telling,
        &ListedRows::of(u32::MAX, open_row(is_open)),
    )
}

fn open_row(is_open: bool) -> &'static [u8]
    ensures { result.now ≡ open_row is_open }
{
    if is_open {
        b"E                                           open range at end of source\n"
    } else {
        b""
    }
}

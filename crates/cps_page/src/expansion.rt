//! A line of the listing, with what it expands to, which can be folded.
ghost use Rattle.std.specs.Prelude.{◌≡◌, [], ◌∷◌, ◌++◌, OnOk};
ghost use Rattle.cps_markup.specs.declared.place.Place.TheVariants.{Line};
ghost use Rattle.cps_markup.specs.declared.tag.Tag.TheVariants as tag;
ghost use Rattle.cps_markup.specs.Links.{Leads};
ghost use Rattle.cps_markup.specs.Markup.{opening};
ghost use Rattle.cps_markup.specs.Code.Adding.{Adds, fold_attributes};

use crate::listed_rows::{ListedRows, push_listed_rows};
use crate::telling::Telling;
use cps_list::push_decimal;
use cps_markup::{
    Attribute, LineLook, MeantColumns, PageSection, Place, ShownRow, Style, Tag, Targets,
    push_closing, push_opening, push_row, row_length,
};
use std::alloc::{AllocError, Global};

/// An expansion of more rows is folded at first, unless one has a flag.
pub const MOST_UNFOLDED: usize = 40;

/// The columns before what tells that a row stands in an expansion, and before the address.
const BEFORE_PLUS: usize = 42;

const BEFORE_ADDRESS: usize = 9;

const ADDRESS_DIGITS: usize = 6;

/// Appends the rows of a line, which are one place.
pub fn push_line(
    alloc: Global,
    page: &mut Vec<u8>,
    targets: &Targets,
    telling: &mut Telling<'_>,
    rows: &ListedRows<'_>,
) -> Result<(), AllocError>
    ensures { OnOk result (Adds (Leads targets.now) rows.now.text.now (Line rows.now.line ∷ []) page.old.items page.new.items) }
{
    push_opening(
        page,
        Tag::Row,
        &[Attribute::Identifier(Place::Line(rows.line))],
    )?;
    push_rows_of(alloc, page, targets, telling, rows)?;
    push_closing(page, Tag::Row)?;
    Ok(())
}

/// Appends rows of a line. Where it expands to some, these can be folded.
fn push_rows_of(
    alloc: Global,
    page: &mut Vec<u8>,
    targets: &Targets,
    telling: &mut Telling<'_>,
    rows: &ListedRows<'_>,
) -> Result<(), AllocError>
    ensures { OnOk result (Adds (Leads targets.now) rows.now.text.now [] page.old.items page.new.items) }
{
    if is_expanded(rows.text) {
        push_fold(alloc, page, targets, telling, rows)
    } else {
        push_listed_rows(alloc, page, targets, telling, rows)
    }
}

/// Whether the second row stands in an expansion.
fn is_expanded(rows: &[u8]) -> bool {
    let (_, rest) = rows.split_at(row_length(rows));
    rest.get(BEFORE_PLUS) == Some(&b'+')
}

fn push_fold(
    alloc: Global,
    page: &mut Vec<u8>,
    targets: &Targets,
    telling: &mut Telling<'_>,
    rows: &ListedRows<'_>,
) -> Result<(), AllocError>
    ensures { OnOk result (Adds (Leads targets.now) rows.now.text.now [] page.old.items page.new.items) }
{
    let (_, rest) = rows.text.split_at(row_length(rows.text));
    let is_unfolded = telling.has_cause(rows.line) || count_rows(rest) <= MOST_UNFOLDED;
    push_fold_opening(page, is_unfolded)?;
    push_folded(alloc, page, targets, telling, rows)?;
    push_closing(page, Tag::Fold)?;
    Ok(())
}

fn push_fold_opening(page: &mut Vec<u8>, is_unfolded: bool) -> Result<(), AllocError>
    ensures { OnOk result (page.new.items ≡ page.old.items ++ opening tag.Fold (fold_attributes is_unfolded)) }
{
    if is_unfolded {
        push_opening(page, Tag::Fold, &[Attribute::Unfolded])
    } else {
        push_opening(page, Tag::Fold, &[])
    }
}

/// The line's own row as a summary, and those that it expands to.
fn push_folded(
    alloc: Global,
    page: &mut Vec<u8>,
    targets: &Targets,
    telling: &mut Telling<'_>,
    rows: &ListedRows<'_>,
) -> Result<(), AllocError>
    ensures { OnOk result (Adds (Leads targets.now) rows.now.text.now [] page.old.items page.new.items) }
{
    let (first, rest) = rows.text.split_at(row_length(rows.text));
    let call = Call {
        row: first,
        rest,
        meant: telling.meant_in(rows.line, first),
    };
    push_summary(alloc, page, targets, &call)?;
    let expanded = ListedRows {
        line: rows.line,
        before: 1,
        text: rest,
    };
    push_listed_rows(alloc, page, targets, telling, &expanded)?;
    Ok(())
}

/// A row that stands for those behind it, and what is meant in it.
#[derive(Clone, Copy)]
struct Call<'a> {
    row: &'a [u8],
    rest: &'a [u8],
    meant: &'a [MeantColumns],
}

/// The row of a call, with a note that tells how many rows stand behind it and where they stand.
fn push_summary(
    alloc: Global,
    page: &mut Vec<u8>,
    targets: &Targets,
    call: &Call<'_>,
) -> Result<(), AllocError>
    ensures { OnOk result (Adds (Leads targets.now) call.now.row.now [] page.old.items page.new.items) }
{
    let mut note = Vec::new(alloc);
    push_count(&mut note, call.rest)?;
    push_noted(page, targets, call.row, call.meant, &note)
}

fn push_noted<'a>(
    page: &mut Vec<u8>,
    targets: &Targets,
    row: &'a [u8],
    meant: &'a [MeantColumns],
    note: &'a [u8],
) -> Result<(), AllocError>
    ensures { OnOk result (Adds (Leads targets.now) row.now [] page.old.items page.new.items) }
{
    let form = None;
    let shown = ShownRow {
        section: PageSection::Listing,
        text: row,
        form,
        begins_word: false,
        look: LineLook::Plain,
        shift: 0,
        meant,
        note,
        note_style: Style::Grey,
        is_summary: true,
    };
    push_row(page, targets, &shown)
}

/// Appends how many rows there are, and their first and last address.
fn push_count(note: &mut Vec<u8>, rows: &[u8]) -> Result<(), AllocError> {
    push_decimal(note, count_rows(rows) as u64)?;
    note.extend_from_slice(b" rows")?;
    push_addresses(note, rows)
}

/// Appends the first and the last address of rows, if one has an address.
fn push_addresses(note: &mut Vec<u8>, rows: &[u8]) -> Result<(), AllocError> {
    let mut first: &[u8] = b"";
    let mut last: &[u8] = b"";
    for row in rows.split(|byte| *byte == b'\n') {
        let address = address_in(row);
        if !address.is_empty() {
            last = address;
            if first.is_empty() {
                first = address;
            }
        }
    }
    if first.is_empty() {
        return Ok(());
    }
    note.extend_from_slice(b", ")?;
    note.extend_from_slice(first)?;
    note.extend_from_slice(b" to ")?;
    note.extend_from_slice(last)
}

/// The address of a row, empty where it has none.
fn address_in(row: &[u8]) -> &[u8] {
    let (_, rest) = row.split_at(BEFORE_ADDRESS.min(row.len()));
    let (address, _) = rest.split_at(ADDRESS_DIGITS.min(rest.len()));
    match address.first() {
        Some(b'0'..=b'7') => address,
        _ => b"",
    }
}

fn count_rows(rows: &[u8]) -> usize {
    let mut count: usize = 0;
    for byte in rows {
        if *byte == b'\n' {
            count = count.saturating_add(1);
        }
    }
    count
}

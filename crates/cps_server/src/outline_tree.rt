//! An outline as a tree: headings over the rows of their sections.
ghost use Rattle.std.specs.Prelude.{◌≡◌, ◌<◌, All, map, IfOk};
ghost use Rattle.serde_json.specs.View.{view};
ghost use Rattle.cps_server.specs.Outline.{IsRowBetween, IsSection, IsTree, section_json};
ghost use Rattle.cps_server.specs.Ranges.{range_between};
ghost use Rattle.cps_server.specs.Code.Outlining.{AddsSections, IsPlaced, TakesRows, row_json};

use crate::headings::Heading;
use crate::mentions::line_of;
use crate::outline_row::{OutlineRow, jsons_of};
use crate::queried_text::QueriedText;
use crate::ranges::{Units, range_of};
use cps_list::View;
use serde_json::{Value, json};
use std::alloc::{AllocError, Global};

/// A section: a heading, and the line behind those that it is over, from 0.
#[derive(Clone, Copy)]
struct Section {
    heading: Heading,
    end: u32,
}

/// Rows by their lines, each beneath the heading above it. Headings stand in the order of their lines; those in front of the first have none.
pub fn tell_tree(
    alloc: Global,
    deck: QueriedText<'_>,
    rows: Vec<OutlineRow>,
    headings: &[Heading],
) -> Result<Vec<Value>, AllocError>
    requires { All IsPlaced rows.items }
    ensures { IfOk result (λ told. IsTree (map row_json rows.items) (map view told.items)) }
{
    let mut left = rows;
    left.sort_by_key(|row| row.line)?;
    left.reverse();
    let count = deck.document.session().count();
    let mut told = take_rows(alloc, &mut left, 0, first_line(headings, count))?;
    let mut sections = tell_sections(alloc, deck, &mut left, headings)?;
    let mut rest = jsons_of(alloc, left)?;
    told.append(&mut rest)?;
    told.append(&mut sections)?;
    Ok(told)
}

/// Sections, each with those rows that are in its lines. These are taken from the end of some.
fn tell_sections(
    alloc: Global,
    deck: QueriedText<'_>,
    rows: &mut Vec<OutlineRow>,
    headings: &[Heading],
) -> Result<Vec<Value>, AllocError>
    requires { All IsPlaced rows.old.items }
    ensures { IfOk result (λ told. AddsSections rows.old.items rows.new.items told.items) }
{
    let count = deck.document.session().count();
    let mut told = Vec::new(alloc);
    for (at, heading) in headings.iter().enumerate() {
        let Some(behind) = heading.line.checked_add(1) else {
            return Err(AllocError);
        };
        let section = Section {
            heading: *heading,
            end: first_line(&headings[at + 1..], count).max(behind),
        };
        let taken = take_rows(alloc, rows, section.heading.line, section.end)?;
        told.push(tell_section(alloc, deck, section, taken)?)?;
    }
    Ok(told)
}

/// The line of the first of some headings, from 0, or else a line behind all.
fn first_line(headings: &[Heading], count: u32) -> u32 {
    match headings.first() {
        Some(heading) => heading.line,
        None => count,
    }
}

/// Takes rows from the end of some, as long as they are in lines from one up to another.
fn take_rows(
    alloc: Global,
    rows: &mut Vec<OutlineRow>,
    first: u32,
    end: u32,
) -> Result<Vec<Value>, AllocError>
    requires { All IsPlaced rows.old.items }
    ensures { IfOk result (λ taken. TakesRows first end rows.old.items rows.new.items taken.items) }
{
    let mut taken = Vec::new(alloc);
    for _row in 0..rows.len() {
        let Some(row) = rows.pop() else {
            break;
        };
        if !row.is_between(first, end) {
            rows.push(row)?;
            break;
        }
        taken.push(row.into_json())?;
    }
    Ok(taken)
}

/// The heading of a section, over rows in its lines.
fn tell_section(
    alloc: Global,
    deck: QueriedText<'_>,
    section: Section,
    rows: Vec<Value>,
) -> Result<Value, AllocError>
    requires some { section.heading.line < section.end }
    requires within { All (IsRowBetween section.heading.line section.end) (map view rows.items) }
    ensures { IfOk result (λ json. IsSection (record { rows = map view rows.items; json = view json })) }
{
    let heading = section.heading;
    let line = line_of(deck.document, heading.line);
    let units = Units::of(deck.encoding, line, heading.columns).forward();
    let range = lines_range(alloc, heading.line, section.end)?;
    let selection = range_of(alloc, heading.line, units)?;
    section_of(alloc, heading.columns.of(line), range, selection, rows)
}

/// From the start of a line up to that of another.
fn lines_range(alloc: Global, first: u32, end: u32) -> Result<Value, AllocError>
    ensures { IfOk result (λ json. view json ≡ range_between first 0 end 0) }
{
    json!(in alloc; {"end": {"character": 0, "line": end}, "start": {"character": 0, "line": first}})
}

fn section_of(
    alloc: Global,
    name: &[u8],
    range: Value,
    selection: Value,
    rows: Vec<Value>,
) -> Result<Value, AllocError>
    ensures { IfOk result (λ json. view json ≡ section_json name.now (view range) (view selection) (map view rows.items)) }
{
    let name = String::from_utf8_lossy(alloc, name)?;
    let children = Value::from(rows);
    json!(in alloc; {
        "children": children,
        "detail": "heading",
        "kind": 3,
        "name": (&name),
        "range": range,
        "selectionRange": selection
    })
}

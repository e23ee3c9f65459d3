//! Rows of a text, one after another.
ghost use Rattle.std.specs.Prelude.{◌≡◌, ◌≤◌, ◌<◌, [], ◌∷◌, OnOk, length};
ghost use Rattle.cps_markup.specs.Links.{Leads};
ghost use Rattle.cps_markup.specs.Code.Adding.{Adds};

use crate::attribute::{push_closing, push_place_opening};
use crate::place::{PageSection, Place};
use crate::stretch::{ShownRow, push_row};
use crate::tag::Tag;
use crate::targets::Targets;
use memchr::memchr;
use std::alloc::AllocError;

/// Appends rows of the text of a section, which are one place.
pub fn push_group(
    page: &mut Vec<u8>,
    targets: &Targets,
    section: PageSection,
    place: Place,
    rows: &[u8],
) -> Result<(), AllocError>
    ensures { OnOk result (Adds (Leads targets.now) rows.now (place ∷ []) page.old.items page.new.items) }
{
    push_place_opening(page, place)?;
    push_rows(page, targets, section, rows)?;
    push_closing(page, Tag::Row)?;
    Ok(())
}

/// Appends a row of the text of a section, which is a place, with a note behind it, if that isn't empty.
pub fn push_noted_group(
    page: &mut Vec<u8>,
    targets: &Targets,
    place: Place,
    shown: &ShownRow<'_>,
) -> Result<(), AllocError>
    ensures { OnOk result (Adds (Leads targets.now) shown.now.text.now (place ∷ []) page.old.items page.new.items) }
{
    push_place_opening(page, place)?;
    push_row(page, targets, shown)?;
    push_closing(page, Tag::Row)?;
    Ok(())
}

/// Appends rows of the text of a section, each with its line feed.
pub fn push_rows(
    page: &mut Vec<u8>,
    targets: &Targets,
    section: PageSection,
    rows: &[u8],
) -> Result<(), AllocError>
    ensures { OnOk result (Adds (Leads targets.now) rows.now [] page.old.items page.new.items) }
{
    let mut rest = rows;
    while !rest.is_empty() {
        let (row, behind) = rest.split_at(row_length(rest));
        push_row(page, targets, &ShownRow::of(section, row))?;
        rest = behind;
    }
    Ok(())
}

/// The length of the first row, with its line feed, 0 where there is none.
pub fn row_length(rows: &[u8]) -> usize
    ensures some { 0 < length rows.now → 1 ≤ result }
    ensures within { result ≤ length rows.now }
{
    match memchr(b'\n', rows) {
        Some(at) => at + 1,
        None => rows.len(),
    }
}

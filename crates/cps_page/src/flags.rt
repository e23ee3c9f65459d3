//! The rows of the flags text, each with the causes of its flags.
ghost use Rattle.std.specs.Prelude.{◌≡◌, [], OnOk, length};
ghost use Rattle.cps_markup.specs.Links.{Leads};
ghost use Rattle.cps_markup.specs.Code.Adding.{Adds};

use crate::causes::{FlaggedRow, push_causes};
use crate::telling::Telling;
use cps_markup::{PageSection, Targets, push_rows, row_length};
use std::alloc::{AllocError, Global};

/// Appends the rows of the flags text, each with the causes of its flags.
pub fn push_flags(
    alloc: Global,
    page: &mut Vec<u8>,
    targets: &Targets,
    telling: &mut Telling<'_>,
    text: &[u8],
) -> Result<(), AllocError>
    ensures { OnOk result (Adds (Leads targets.now) text.now [] page.old.items page.new.items) }
{
    let mut rest = text;
    while !rest.is_empty() {
        let (row, behind) = rest.split_at(row_length(rest));
        push_flag_row(alloc, page, targets, telling, row)?;
        rest = behind;
    }
    Ok(())
}

fn push_flag_row(
    alloc: Global,
    page: &mut Vec<u8>,
    targets: &Targets,
    telling: &mut Telling<'_>,
    row: &[u8],
) -> Result<(), AllocError>
    ensures { OnOk result (Adds (Leads targets.now) row.now [] page.old.items page.new.items) }
{
    push_rows(page, targets, PageSection::Flags, row)?;
    let flagged = FlaggedRow {
        line: line_of(row),
        row: None,
    };
    push_causes(alloc, page, targets, telling, &flagged)?;
    Ok(())
}

/// The number of a row's line. The row of the end and that of the number of lines are behind all lines.
fn line_of(row: &[u8]) -> u32 {
    let mut number: u32 = 0;
    for character in row {
        match character {
            b'0'..=b'9' => {
                number = number
                    .saturating_mul(10)
                    .saturating_add(u32::from(character.saturating_sub(b'0')));
            }
            b' ' => return number,
            _ => return u32::MAX,
        }
    }
    u32::MAX
}

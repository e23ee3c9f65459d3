//! The causes of flags, as notes.
ghost use Rattle.std.specs.Prelude.{◌≡◌, [], OnOk};
ghost use Rattle.cps_markup.specs.Links.{Leads};
ghost use Rattle.cps_markup.specs.Code.Adding.{Adds};

use crate::beside::Cause;
use crate::telling::Telling;
use cps_markup::{Style, Targets, push_note};
use std::alloc::{AllocError, Global};

/// Appends the causes of a line up to this one that aren't told yet; where a row is given, those of the row.
pub fn push_causes(
    alloc: Global,
    page: &mut Vec<u8>,
    targets: &Targets,
    telling: &mut Telling<'_>,
    shown: &FlaggedRow<'_>,
) -> Result<(), AllocError>
    ensures { OnOk result (Adds (Leads targets.now) [] [] page.old.items page.new.items) }
{
    for _ in 0..telling.left() {
        let Some(cause) = telling.take_cause(shown.line, shown.row) else {
            return Ok(());
        };
        push_cause(alloc, page, targets, cause)?;
    }
    Ok(())
}

/// A row that may have flags.
#[derive(Clone, Copy)]
pub struct FlaggedRow<'a> {
    /// The number of its line.
    pub line: u32,
    /// None: all rows of the line.
    pub row: Option<&'a [u8]>,
}

fn push_cause(
    alloc: Global,
    page: &mut Vec<u8>,
    targets: &Targets,
    cause: &Cause,
) -> Result<(), AllocError>
    ensures { OnOk result (Adds (Leads targets.now) [] [] page.old.items page.new.items) }
{
    let mut words = Vec::new(alloc);
    words.push(cause.letter)?;
    words.push(b' ')?;
    words.extend_from_slice(&cause.words)?;
    push_note(page, targets, Style::Cause, &words)
}

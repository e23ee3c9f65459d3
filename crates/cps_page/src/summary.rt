//! What a page is of, in one row.
ghost use Rattle.std.specs.Prelude.{◌≡◌, [], OnOk};
ghost use Rattle.cps_markup.specs.Links.{Leads};
ghost use Rattle.cps_markup.specs.Code.Adding.{Adds};

use cps_expr::Machine;
use cps_list::{View, push_decimal};
use cps_markup::{Style, Targets, push_note};
use std::alloc::{AllocError, Global};

/// Appends a note that tells the machine, and how many lines, words, symbols and flagged lines there are.
pub fn push_summary<V: View>(
    alloc: Global,
    page: &mut Vec<u8>,
    view: &V,
    targets: &Targets,
) -> Result<(), AllocError>
    ensures { OnOk result (Adds (Leads targets.now) [] [] page.old.items page.new.items) }
{
    let mut row = Vec::new(alloc);
    row.extend_from_slice(machine_text(view.finals().machine()))?;
    push_count(&mut row, u64::from(targets.count), b"line")?;
    push_count(&mut row, targets.words.len() as u64, b"word")?;
    push_count(&mut row, targets.entries.len() as u64, b"symbol")?;
    push_count(&mut row, count_flagged(view), b"flagged line")?;
    push_note(page, targets, Style::Table, &row)
}

fn machine_text(machine: Machine) -> &'static [u8] {
    match machine {
        Machine::Cp => b"central processor",
        Machine::Pp => b"peripheral processor",
    }
}

/// Appends how many of something there are, which has this name.
fn push_count(row: &mut Vec<u8>, count: u64, name: &[u8]) -> Result<(), AllocError> {
    row.extend_from_slice(b", ")?;
    push_decimal(row, count)?;
    row.push(b' ')?;
    row.extend_from_slice(name)?;
    if count == 1 {
        return Ok(());
    }
    row.push(b's')?;
    Ok(())
}

/// How many lines have a flag, and one more if a range is open after the last.
fn count_flagged<V: View>(view: &V) -> u64 {
    let mut count = u64::from(view.open_at_end());
    for before in 0..view.count() {
        if let Some(outcome) = view.outcome(before.saturating_add(1)) {
            if outcome.flags().has_flag() {
                count = count.saturating_add(1);
            }
        }
    }
    count
}

//! Rows of the listing, each with the causes of its flags.
ghost use Rattle.std.specs.Prelude.{◌≡◌, [], OnOk, length};
ghost use Rattle.cps_markup.specs.Links.{Leads};
ghost use Rattle.cps_markup.specs.Code.Adding.{Adds};

use crate::beside::OperandColumns;
use crate::causes::{FlaggedRow, push_causes};
use crate::telling::Telling;
use cps_markup::{LineLook, PageSection, ShownRow, Style, Targets, push_row, row_length};
use std::alloc::{AllocError, Global};

/// The columns of a row before the line.
const BEFORE_LINE: usize = 44;

/// Rows of a line, as the listing has them.
#[derive(Clone, Copy)]
pub struct ListedRows<'a> {
    /// The number of the line, from 1.
    pub line: u32,
    /// How many rows of the line stand before them.
    pub before: u32,
    /// Each with its line feed.
    pub text: &'a [u8],
}

impl<'a> ListedRows<'a> {
    /// All rows of a line.
    pub fn of(line: u32, text: &'a [u8]) -> ListedRows<'a>
        ensures text { result.text.now ≡ text.now }
        ensures line { result.line ≡ line }
    {
        ListedRows {
            line,
            before: 0,
            text,
        }
    }
}

/// Appends rows, each with the causes of its flags, and then those causes of the line that are left.
pub fn push_listed_rows(
    alloc: Global,
    page: &mut Vec<u8>,
    targets: &Targets,
    telling: &mut Telling<'_>,
    rows: &ListedRows<'_>,
) -> Result<(), AllocError>
    ensures { OnOk result (Adds (Leads targets.now) rows.now.text.now [] page.old.items page.new.items) }
{
    push_each(alloc, page, targets, telling, rows)?;
    let all = FlaggedRow {
        line: rows.line,
        row: None,
    };
    push_causes(alloc, page, targets, telling, &all)?;
    Ok(())
}

fn push_each(
    alloc: Global,
    page: &mut Vec<u8>,
    targets: &Targets,
    telling: &mut Telling<'_>,
    rows: &ListedRows<'_>,
) -> Result<(), AllocError>
    ensures { OnOk result (Adds (Leads targets.now) rows.now.text.now [] page.old.items page.new.items) }
{
    let mut before = rows.before;
    let mut statement: &[u8] = b"";
    let mut rest = rows.text;
    while !rest.is_empty() {
        let (text, behind) = rest.split_at(row_length(rest));
        statement = statement_in(text, statement);
        let row = ListedRow {
            line: rows.line,
            before,
            text,
            statement,
        };
        push_one(alloc, page, targets, telling, &row)?;
        before = before.saturating_add(1);
        rest = behind;
    }
    Ok(())
}

/// A row of a line.
#[derive(Clone, Copy)]
struct ListedRow<'a> {
    line: u32,
    /// How many rows of the line stand before it.
    before: u32,
    /// With its line feed.
    text: &'a [u8],
    /// The statement that made it, which a later row doesn't show.
    statement: &'a [u8],
}

/// The statement that a row shows, with its line feed, else the last one.
fn statement_in<'a>(row: &'a [u8], last: &'a [u8]) -> &'a [u8] {
    if row.len() > BEFORE_LINE {
        row.split_at(BEFORE_LINE.min(row.len())).1
    } else {
        last
    }
}

/// A row, with the causes of its flags.
fn push_one(
    alloc: Global,
    page: &mut Vec<u8>,
    targets: &Targets,
    telling: &mut Telling<'_>,
    row: &ListedRow<'_>,
) -> Result<(), AllocError>
    ensures { OnOk result (Adds (Leads targets.now) row.now.text.now [] page.old.items page.new.items) }
{
    push_told(alloc, page, targets, telling, row)?;
    let flagged = FlaggedRow {
        line: row.line,
        row: Some(row.text),
    };
    push_causes(alloc, page, targets, telling, &flagged)?;
    Ok(())
}

/// How the front of a row looks.
#[derive(Clone, Copy)]
struct RowFront {
    begins_word: bool,
    look: LineLook,
    shift: u8,
}

/// A row, with what is told of its code; of a later one its operand is a note.
fn push_told(
    alloc: Global,
    page: &mut Vec<u8>,
    targets: &Targets,
    telling: &mut Telling<'_>,
    row: &ListedRow<'_>,
) -> Result<(), AllocError>
    ensures { OnOk result (Adds (Leads targets.now) row.now.text.now [] page.old.items page.new.items) }
{
    let code = telling.code_at(row.line, row.before);
    let front = RowFront {
        begins_word: telling.takes_address(row.text),
        look: telling.look_of(row.line),
        shift: code.shift,
    };
    if code.operand.before < code.operand.behind {
        let mut note = Vec::new(alloc);
        push_operand(&mut note, row.statement, code.operand)?;
        return push_noted(page, targets, front, row.text, &note);
    }
    let shown = ShownRow {
        section: PageSection::Listing,
        text: row.text,
        form: code.form,
        begins_word: front.begins_word,
        look: front.look,
        shift: front.shift,
        meant: telling.meant_in(row.line, row.text),
        note: b"",
        note_style: Style::Operand,
        is_summary: false,
    };
    push_row(page, targets, &shown)
}

/// A later row, which shows no statement.
fn push_noted<'a>(
    page: &mut Vec<u8>,
    targets: &Targets,
    front: RowFront,
    text: &'a [u8],
    note: &'a [u8],
) -> Result<(), AllocError>
    ensures { OnOk result (Adds (Leads targets.now) text.now [] page.old.items page.new.items) }
{
    let form = None;
    let shown = ShownRow {
        section: PageSection::Listing,
        text,
        form,
        begins_word: front.begins_word,
        look: front.look,
        shift: front.shift,
        meant: &[],
        note,
        note_style: Style::Operand,
        is_summary: false,
    };
    push_row(page, targets, &shown)
}

/// Appends an operand of a statement, behind as many blanks as it has characters before it; nothing where it is empty.
fn push_operand(
    note: &mut Vec<u8>,
    statement: &[u8],
    columns: OperandColumns,
) -> Result<(), AllocError> {
    let (front, _) = statement.split_at(usize::from(columns.behind).min(statement.len()));
    let (before, operand) = front.split_at(usize::from(columns.before).min(front.len()));
    if operand.is_empty() {
        return Ok(());
    }
    note.resize(before.len(), b' ')?;
    note.extend_from_slice(operand)
}

//! The statements of an expansion that show a code at an address.
ghost use Rattle.std.specs.Prelude.{◌≡◌, ◌++◌, [], OnOk, bytes_eq, if◌then◌else◌, false, ◌==◌};
ghost use Rattle.std.specs.Option.{option_map_or};
ghost use Rattle.cps_compare.specs.Statements as statements;
ghost use Rattle.cps_compare.specs.Told.{statement_row, statement_rows};

use super::difference_rows::trimmed;
use cps_final::Row;
use std::alloc::AllocError;

/// The rows that tell the statements of an expansion, of rows of a listing, that show a code at an address.
pub fn push_statements(text: &mut Vec<u8>, rows: &[Row], address: u32) -> Result<(), AllocError>
    ensures { OnOk result (text.new.items ≡ text.old.items ++ statement_rows [] (statements.texts_from address [] rows.now)) }
{
    let mut statement: &[u8] = &[];
    let mut last: &[u8] = &[];
    for row in rows {
        statement = text_with(statement, row);
        if shows_code_at(row, address) && !statement.is_empty() {
            push_statement(text, last, statement)?;
            last = statement;
        }
    }
    Ok(())
}

/// Tells a statement, unless it is the same as the one before.
fn push_statement(text: &mut Vec<u8>, last: &[u8], statement: &[u8]) -> Result<(), AllocError>
    ensures { OnOk result (text.new.items ≡ text.old.items ++ (if bytes_eq last.now statement.now then [] else statement_row statement.now)) }
{
    if last == statement {
        return Ok(());
    }
    text.extend_from_slice(b"       + ")?;
    text.extend_from_slice(trimmed(statement))?;
    text.push(b'\n')?;
    Ok(())
}

/// The text of a row's statement, behind a row of a statement.
fn text_with<'a>(before: &'a [u8], row: &'a Row) -> &'a [u8]
    ensures { result.now ≡ statements.text_with before.now row.now }
{
    if row.is_later {
        before
    } else {
        row.text.as_slice()
    }
}

fn shows_code_at(row: &Row, address: u32) -> bool
    ensures { result ≡ statements.shows_code_at address row.now }
{
    row.code.digits().is_some() && is_at(row.location, address)
}

fn is_at(location: Option<u64>, address: u32) -> bool
    ensures { result ≡ option_map_or (λ at. at == address) location false }
{
    match location {
        Some(at) => at == u64::from(address),
        None => false,
    }
}

//! The rows of operations whose operands stand between commas.
ghost use Rattle.std.specs.Prelude.{◌≡◌, ◌++◌, ◌<◌, IfOk, OnOk, drop, flat_map, map};
ghost use Rattle.cps_code.specs.Code.Operations.{row_of_fields, texts};
ghost use Rattle.cps_check.specs.Central.{hole_texts, operands_text, parts_of};
ghost use Rattle.cps_check.specs.Code.Kept.{after_comma, kept_parts, told_row, told_rows};

use crate::central_row::{RowParts, Told, push_row};
use cps_code::FieldForm;
use std::alloc::{AllocError, Global};

/// Appends rows, one after another.
pub fn push_fields(
    alloc: Global,
    text: &mut Vec<u8>,
    told: &Told<'_, '_>,
    rows: &[FieldForm],
) -> Result<(), AllocError>
    requires { told.now.f < 8 }
    ensures { OnOk result (text.new.items ≡ text.old.items ++ told_rows told.now (map row_of_fields rows.now)) }
{
    for row in rows {
        push_field(alloc, text, told, *row)?;
    }
    Ok(())
}

fn push_field(
    alloc: Global,
    text: &mut Vec<u8>,
    told: &Told<'_, '_>,
    row: FieldForm,
) -> Result<(), AllocError>
    requires { told.now.f < 8 }
    ensures { OnOk result (text.new.items ≡ text.old.items ++ told_row told.now (parts_of (row_of_fields row))) }
{
    let operands = operands_of(alloc, row)?;
    push_row(
        alloc,
        text,
        told,
        &parts_of_fields(behind_first(&operands), row),
    )
}

/// The operands of a row, behind a comma each.
#[tactic(auto, using(crate::proofs::Commas::without_first_comma))]
fn operands_of(alloc: Global, row: FieldForm) -> Result<Vec<u8>, AllocError>
    ensures { IfOk result (λ text. drop 1 text.items ≡ operands_text (row_of_fields row).shape) }
{
    match row {
        FieldForm::Short(registers, _) => behind_commas(alloc, registers, None),
        FieldForm::Constant(registers, _) | FieldForm::Forcing(registers, _) => {
            behind_commas(alloc, registers, Some(b'K'))
        }
        FieldForm::Count(_) => behind_commas(alloc, &[], Some(b'n')),
    }
}

/// Registers, and the letter of what stands behind them, each behind a comma.
fn behind_commas(
    alloc: Global,
    registers: &[&[u8]],
    hole: Option<u8>,
) -> Result<Vec<u8>, AllocError>
    ensures { IfOk result (λ text. text.items ≡ flat_map after_comma (texts registers.now ++ hole_texts hole)) }
{
    let mut text = Vec::new(alloc);
    for letters in registers {
        text.push(b',')?;
        text.extend_from_slice(letters)?;
    }
    if let Some(letter) = hole {
        text.push(b',')?;
        text.push(letter)?;
    }
    Ok(text)
}

/// A text without its first character.
fn behind_first(text: &[u8]) -> &[u8]
    ensures { result.now ≡ drop 1 text.now }
{
    match text {
        [] => text,
        [_, rest @ ..] => rest,
    }
}

/// What a row tells, with its operands.
fn parts_of_fields<'a>(operands: &'a [u8], row: FieldForm) -> RowParts<'a>
    ensures { operands.now ≡ operands_text (row_of_fields row).shape → kept_parts result ≡ parts_of (row_of_fields row) }
{
    match row {
        FieldForm::Short(_, digits) => RowParts {
            operands,
            bits: 15,
            digits,
            hole: None,
            forces: false,
        },
        FieldForm::Constant(_, digits) => RowParts {
            operands,
            bits: 30,
            digits,
            hole: Some(b'K'),
            forces: false,
        },
        FieldForm::Forcing(_, digits) => RowParts {
            operands,
            bits: 30,
            digits,
            hole: Some(b'K'),
            forces: true,
        },
        FieldForm::Count(digits) => RowParts {
            operands,
            bits: 15,
            digits,
            hole: Some(b'n'),
            forces: false,
        },
    }
}

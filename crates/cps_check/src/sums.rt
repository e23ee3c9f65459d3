//! The rows of operations whose operand is a sum of registers and K, or isn't read.
ghost use Rattle.std.specs.Prelude.{◌≡◌, ◌++◌, ◌<◌, OnOk, flat_map, map};
ghost use Rattle.cps_code.specs.declared.operation.Forms.TheVariants as Forms;
ghost use Rattle.cps_code.specs.Code.Operations.{jump_forms, rows_of};
ghost use Rattle.cps_code.specs.Table.{set_forms};
ghost use Rattle.cps_check.specs.Central.{parts_of};
ghost use Rattle.cps_check.specs.Code.Kept.{kept_parts, sum_parts, told_row};

use crate::central_row::{RowParts, Told, push_row};
use std::alloc::{AllocError, Global};

/// A row: its operand, and its code.
#[derive(Clone, Copy)]
pub enum SumRow {
    /// Five digits.
    Short(&'static [u8], &'static [u8; 5]),
    /// Four digits and K.
    Constant(&'static [u8], &'static [u8; 4]),
    /// The same of a jump.
    Jump(&'static [u8], &'static [u8; 4]),
    /// Ten digits of a jump.
    BareJump(&'static [u8], &'static [u8; 10]),
}

static SET: [SumRow; 13] = [
    SumRow::Constant(b"K", b"f1i0"),
    SumRow::Constant(b"Aj+K", b"f0ij"),
    SumRow::Constant(b"Bj+K", b"f1ij"),
    SumRow::Constant(b"Xj+K", b"f2ij"),
    SumRow::Short(b"Xj", b"f3ij0"),
    SumRow::Short(b"Aj", b"f4ij0"),
    SumRow::Short(b"Bj", b"f6ij0"),
    SumRow::Short(b"-Bk", b"f7i0k"),
    SumRow::Short(b"Xj+Bk", b"f3ijk"),
    SumRow::Short(b"Aj+Bk", b"f4ijk"),
    SumRow::Short(b"Aj-Bk", b"f5ijk"),
    SumRow::Short(b"Bj+Bk", b"f6ijk"),
    SumRow::Short(b"Bj-Bk", b"f7ijk"),
];

static JUMP: [SumRow; 3] = [
    SumRow::Jump(b"Bi+K", b"02i0"),
    SumRow::Jump(b"K", b"0200"),
    SumRow::BareJump(b"Bi", b"02i0000000"),
];

static PASS: [SumRow; 1] = [SumRow::Short(b"not read", b"46000")];

static STOP: [SumRow; 1] = [SumRow::BareJump(b"not read", b"0000000000")];

/// The row of NO.
pub fn pass_rows() -> &'static [SumRow]
    ensures { map sum_parts result.now ≡ map parts_of (rows_of Forms.Pass) }
{
    &PASS
}

/// The row of PS.
pub fn stop_rows() -> &'static [SumRow]
    ensures { map sum_parts result.now ≡ map parts_of (rows_of Forms.Stop) }
{
    &STOP
}

/// The rows of the set instructions.
pub fn set_rows() -> &'static [SumRow]
    ensures { map sum_parts result.now ≡ map parts_of set_forms }
{
    &SET
}

/// The rows of JP.
pub fn jump_rows() -> &'static [SumRow]
    ensures { map sum_parts result.now ≡ map parts_of jump_forms }
{
    &JUMP
}

/// Appends rows, one after another.
pub fn push_sums(
    alloc: Global,
    text: &mut Vec<u8>,
    told: &Told<'_, '_>,
    rows: &[SumRow],
) -> Result<(), AllocError>
    requires { told.now.f < 8 }
    ensures { OnOk result (text.new.items ≡ text.old.items ++ flat_map (told_row told.now) (map sum_parts rows.now)) }
{
    for row in rows {
        push_row(alloc, text, told, &parts_of_sum(*row))?;
    }
    Ok(())
}

fn parts_of_sum(row: SumRow) -> RowParts<'static>
    ensures { kept_parts result ≡ sum_parts row }
{
    match row {
        SumRow::Short(operands, digits) => RowParts {
            operands,
            bits: 15,
            digits,
            hole: None,
            forces: false,
        },
        SumRow::Constant(operands, digits) => RowParts {
            operands,
            bits: 30,
            digits,
            hole: Some(b'K'),
            forces: false,
        },
        SumRow::Jump(operands, digits) => RowParts {
            operands,
            bits: 30,
            digits,
            hole: Some(b'K'),
            forces: true,
        },
        SumRow::BareJump(operands, digits) => RowParts {
            operands,
            bits: 30,
            digits,
            hole: None,
            forces: true,
        },
    }
}

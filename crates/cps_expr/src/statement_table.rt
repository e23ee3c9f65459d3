//! The statement table: an operation's operands as its row.
ghost use Rattle.std.specs.Prelude.{◌≡◌, Option, IfOk};
ghost use Rattle.cps_expr.specs.Bounds.{IsBounded};
ghost use Rattle.cps_expr.specs.Reads.{Reads};
ghost use Rattle.cps_expr.specs.Statement.{row_with};

use crate::condition::{read_comparison, read_repetition, read_symbol_test};
use crate::dis_text::read_dis_text;
use crate::expr::ExprFault;
use crate::machine::Machine;
use crate::named_operand::{read_base, read_block, read_program};
use crate::operation::Operation;
use crate::parameters::{read_locals, read_parameters};
use crate::pseudo::Pseudo;
use crate::radix::Radix;
use crate::reads::{read_only, read_some};
use crate::words::read_words;
use std::alloc::Global;
use std::marker::Model;

/// The operands of an operation of the statement table, as they are read. A clause sees their row.
#[derive(Drop)]
pub struct Stated {
    row: Pseudo,
}

impl Model for Stated {
    ghost use Rattle.cps_expr.specs.declared.pseudo.Pseudo.{Pseudo};

    ghost Value = { Pseudo };

    ghost view = { λ stated. stated.row };
}

impl Stated {
    /// Reads the operands of an operation in its tail, which is the text from the variable field's first column on. Numbers with no letter go by the
    /// radix.
    pub fn read(
        alloc: Global,
        operation: Operation,
        tail: &[u8],
        machine: Machine,
        radix: Radix,
    ) -> Result<Stated, ExprFault>
        ensures row { Reads result (row_with operation tail.now machine radix) }
        ensures bounded { IfOk result (IsBounded machine) }
    {
        let row = read_row(alloc, operation, tail, machine, radix)?;
        Ok(Stated { row })
    }

    /// The operands as data.
    pub fn row(&self) -> &Pseudo
        ensures { result.now ≡ self.now }
    {
        &self.row
    }

    /// The operands, to be taken out of it.
    pub fn into_row(self) -> Pseudo
        ensures { result ≡ self }
    {
        self.row
    }
}

/// The row of an operation's operands.
pub(crate) fn read_row(
    alloc: Global,
    operation: Operation,
    tail: &[u8],
    machine: Machine,
    radix: Radix,
) -> Result<Pseudo, ExprFault>
    ensures row { Reads result (row_with operation tail.now machine radix) }
    ensures bounded { IfOk result (IsBounded machine) }
{
    read_operands(alloc, operation, tail, machine, radix)
}

fn read_operands(
    alloc: Global,
    operation: Operation,
    tail: &[u8],
    machine: Machine,
    radix: Radix,
) -> Result<Pseudo, ExprFault>
    ensures { Reads result (row_with operation tail.now machine radix) }
{
    let row = match operation {
        Operation::Ident => Pseudo::Ident(readable(read_program(tail))?),
        Operation::Abs => Pseudo::Abs,
        Operation::Periph => Pseudo::Periph,
        Operation::Base => Pseudo::Base(readable(read_base(tail))?),
        Operation::Equate => Pseudo::Equate(read_only(alloc, tail, radix)?),
        Operation::Set => Pseudo::Set(read_only(alloc, tail, radix)?),
        Operation::Org => Pseudo::Org(read_only(alloc, tail, radix)?),
        Operation::Use => Pseudo::Use(readable(read_block(tail))?),
        Operation::Bss => Pseudo::Bss(read_only(alloc, tail, radix)?),
        Operation::Bssz => Pseudo::Bssz(read_only(alloc, tail, radix)?),
        Operation::Con => Pseudo::Con(read_some(alloc, tail, radix)?),
        Operation::Data => Pseudo::Data(read_words(alloc, tail, radix, machine)?),
        Operation::Vfd => Pseudo::Vfd(read_some(alloc, tail, radix)?),
        Operation::Dis => Pseudo::Dis(read_dis_text(alloc, tail, radix)?),
        Operation::Compare(relation) => {
            Pseudo::Compare(read_comparison(alloc, tail, radix, relation)?)
        }
        Operation::If => Pseudo::If(read_symbol_test(alloc, tail, radix)?),
        Operation::Else => Pseudo::Else,
        Operation::Endif => Pseudo::Endif,
        Operation::Dup => Pseudo::Dup(read_repetition(alloc, tail, radix)?),
        Operation::Endd => Pseudo::Endd,
        Operation::Macro => Pseudo::Macro(read_parameters(alloc, tail, radix)?),
        Operation::Local => Pseudo::Local(read_locals(alloc, tail)?),
        Operation::Endm => Pseudo::Endm,
        Operation::End => Pseudo::End,
        Operation::Listing => Pseudo::Listing,
    };
    Ok(row)
}

/// What takes no memory to read.
fn readable<T: Drop>(found: Option<T>) -> Result<T, ExprFault>
    ensures { Reads result found }
{
    match found {
        Some(value) => Ok(value),
        None => Err(ExprFault::Unreadable),
    }
}

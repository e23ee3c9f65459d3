//! Statements.
ghost use Rattle.std.specs.Prelude.{◌≡◌, ◌↔◌, Some, None, IfOk, IsErrOf, IsSome};
ghost use Rattle.cps_expr.specs.Bounds.{IsBounded};
ghost use Rattle.cps_expr.specs.Operation.{operation_named};
ghost use Rattle.cps_expr.specs.Statement.{row_of, now_names, later_names, now_has_counter, later_has_counter};

use crate::expr::ExprFault;
use crate::machine::Machine;
use crate::operation::Operation;
use crate::pseudo::Pseudo;
use crate::radix::Radix;
use crate::row_counter::{has_counter_later, has_counter_now};
use crate::row_names::{push_later, push_now};
use crate::statement_table::read_row;
use cps_text::Name;
use std::alloc::{AllocError, Global};
use std::marker::Model;
use thiserror::Error;

/// Why a statement is not read.
#[derive(Clone, Copy, Debug, PartialEq, Eq, Error)]
pub enum StmtFault {
    /// The operation is not in the statement table.
    #[error("no such operation")]
    NoOperation,
    /// The operands don't fit the operation.
    #[error("unreadable operands")]
    Unreadable,
    /// Memory was refused; nothing else is wrong.
    #[error("no memory")]
    Memory,
}

/// A statement of the statement table without its location field. A clause sees its row.
#[derive(Drop)]
pub struct Stmt {
    row: Pseudo,
    first_pass: Vec<Name>,
    second_pass: Vec<Name>,
}

impl Model for Stmt {
    ghost use Rattle.std.specs.Prelude.{◌≡◌};
    ghost use Rattle.cps_expr.specs.declared.pseudo.Pseudo.{Pseudo};
    ghost use Rattle.cps_expr.specs.Statement.{now_names, later_names};

    ghost Value = { Pseudo };

    ghost view = { λ statement. statement.row };

    ghost invariant = { λ statement. (statement.first_pass.items ≡ now_names statement.row) × (statement.second_pass.items ≡ later_names statement.row) };
}

impl Stmt {
    /// Reads an operation, in capitals or not, and its tail, which is the text from the variable field's first column
    /// on. Numbers with no letter go by the radix.
    pub fn read(
        alloc: Global,
        operation: &[u8],
        tail: &[u8],
        machine: Machine,
        radix: Radix,
    ) -> Result<Stmt, StmtFault>
        ensures row { IfOk result (λ statement. row_of operation.now tail.now machine radix ≡ Some statement) }
        ensures no_operation { IsErrOf result StmtFault.NoOperation ↔ (operation_named operation.now ≡ None) }
        ensures unreadable { IsErrOf result StmtFault.Unreadable
            ↔ (IsSome (operation_named operation.now) × (row_of operation.now tail.now machine radix ≡ None)) }
        ensures memory { IsErrOf result StmtFault.Memory → IsSome (row_of operation.now tail.now machine radix) }
        ensures bounded { IfOk result (λ statement. IsBounded machine statement) }
    {
        let Some(operation) = Operation::named(operation) else {
            return Err(StmtFault::NoOperation);
        };
        match read_row(alloc, operation, tail, machine, radix) {
            Ok(row) => match with_names(alloc, row) {
                Ok(statement) => Ok(statement),
                Err(_) => Err(StmtFault::Memory),
            },
            Err(ExprFault::Unreadable) => Err(StmtFault::Unreadable),
            Err(ExprFault::Memory) => Err(StmtFault::Memory),
        }
    }

    /// Its operands as data.
    pub fn row(&self) -> &Pseudo
        ensures { result.now ≡ self.now }
    {
        &self.row
    }

    /// Its operands, to be taken out of it.
    pub fn into_row(self) -> Pseudo
        ensures { result ≡ self }
    {
        self.row
    }

    /// The names that are read in the first pass, in their order.
    pub fn now(&self) -> &[Name]
        ensures { result.now ≡ now_names self.now }
    {
        self.first_pass.as_slice()
    }

    /// The names that are read in the second pass, in their order.
    pub fn later(&self) -> &[Name]
        ensures { result.now ≡ later_names self.now }
    {
        self.second_pass.as_slice()
    }

    /// Whether `*` stands in an expression that is valued in the first pass.
    pub fn has_counter_now(&self) -> bool
        ensures { result ≡ now_has_counter self.now }
    {
        has_counter_now(&self.row)
    }

    /// Whether `*` stands in an expression that is valued in the second pass.
    pub fn has_counter_later(&self) -> bool
        ensures { result ≡ later_has_counter self.now }
    {
        has_counter_later(&self.row)
    }
}

fn with_names(alloc: Global, row: Pseudo) -> Result<Stmt, AllocError>
    ensures { IfOk result (λ statement. statement ≡ row) }
{
    let mut first_pass = Vec::new(alloc);
    push_now(&mut first_pass, &row)?;
    let mut second_pass = Vec::new(alloc);
    push_later(&mut second_pass, &row)?;
    Ok(Stmt {
        row,
        first_pass,
        second_pass,
    })
}

ghost use Rattle.std.specs.Prelude.{◌≡◌, ◌<◌, ◌↔◌, Some, None, false, IfOk, IsErrOf, IsOkAnd, IsSome, IsTrue};
ghost use Rattle.cps_expr.specs.Reads.{Reads};
ghost use Rattle.cps_text.specs.Operands.{operands_of};
ghost use Rattle.cps_code.specs.PeripheralForms.{form_with};
ghost use Rattle.cps_code.specs.PeripheralTable.{is_operation, form_of};

use super::layout::Layout;
use super::peripheral_form::PpForm;
use super::peripheral_operation::named_operation;
use super::reads::{read_constant, read_memory};
use crate::forms::FormFault;
use crate::hole::HoleKind;
use cps_expr::{ExprFault, Radix, read_only};
use std::alloc::{AllocError, Global};

/// The form of a statement of a peripheral processor: that of the row of the table that fits its operation and its
/// tail, which is the text from the variable field's first column on. Numbers with no letter go by the radix;
/// lower-case letters stand for capitals.
pub fn pp_form(
    alloc: Global,
    operation: &[u8],
    tail: &[u8],
    radix: Radix,
) -> Result<PpForm, FormFault>
    ensures form { IfOk result (λ form. form_of operation.now tail.now radix ≡ Some form) }
    ensures no_operation { IsErrOf result FormFault.NoOperation ↔ (is_operation operation.now ≡ false) }
    ensures unreadable { IsErrOf result FormFault.Unreadable
        ↔ (IsTrue (is_operation operation.now) × (form_of operation.now tail.now radix ≡ None)) }
    ensures memory { IsErrOf result FormFault.Memory → IsSome (form_of operation.now tail.now radix) }
{
    match named_operation(operation) {
        None => Err(FormFault::NoOperation),
        Some((layout, number)) => form_of_layout(alloc, layout, number, tail, radix),
    }
}

#[tactic(auto, using(crate::proofs::RowLemmas::none_read))]
fn form_of_layout(
    alloc: Global,
    layout: Layout,
    number: u8,
    tail: &[u8],
    radix: Radix,
) -> Result<PpForm, FormFault>
    requires { number < 64 }
    ensures form { IfOk result (λ form. form_with radix layout number (operands_of tail.now) ≡ Some form) }
    ensures no_operation { IsErrOf result FormFault.NoOperation → ⊥ }
    ensures unreadable { IsErrOf result FormFault.Unreadable → form_with radix layout number (operands_of tail.now) ≡ None }
    ensures memory { IsErrOf result FormFault.Memory → IsSome (form_with radix layout number (operands_of tail.now)) }
{
    match read_form(alloc, layout, number, tail, radix) {
        Ok(form) => Ok(form),
        Err(ExprFault::Unreadable) => Err(FormFault::Unreadable),
        Err(ExprFault::Memory) => Err(FormFault::Memory),
    }
}

fn read_form(
    alloc: Global,
    layout: Layout,
    number: u8,
    tail: &[u8],
    radix: Radix,
) -> Result<PpForm, ExprFault>
    requires { number < 64 }
    ensures { Reads result (form_with radix layout number (operands_of tail.now)) }
{
    match layout {
        Layout::Unread => Ok(PpForm::bare(alloc, number)),
        Layout::Target => {
            let target = read_only(alloc, tail, radix)?;
            or_memory(PpForm::short(alloc, number, HoleKind::Target, target))
        }
        Layout::Short => {
            let expression = read_only(alloc, tail, radix)?;
            or_memory(PpForm::short(alloc, number, HoleKind::Value, expression))
        }
        Layout::Constant => {
            let constant = read_constant(alloc, tail, radix)?;
            or_memory(PpForm::constant(alloc, number, constant))
        }
        Layout::Memory => {
            let (address, index) = read_memory(alloc, tail, radix)?;
            or_memory(PpForm::memory(alloc, number, address, index))
        }
    }
}

fn or_memory(form: Result<PpForm, AllocError>) -> Result<PpForm, ExprFault>
    ensures form { IfOk result (λ made. IsOkAnd form (λ same. made ≡ same)) }
    ensures memory { IsErrOf result ExprFault.Unreadable → ⊥ }
{
    match form {
        Ok(form) => Ok(form),
        Err(_) => Err(ExprFault::Memory),
    }
}

//! What is told of an instruction of the central processor.
ghost use Rattle.std.specs.Prelude.{◌≡◌, ◌++◌, ◌<◌, IfOk, OnOk};
ghost use Rattle.cps_code.specs.Code.Operations.{rows_of};
ghost use Rattle.cps_code.specs.Table.{is_operation};
ghost use Rattle.cps_check.specs.Central.{central_head, central_text};
ghost use Rattle.cps_check.specs.Codes.{fitting_named};
ghost use Rattle.cps_check.specs.Code.Kept.{sentence_values, told_rows};

use crate::central_row::Told;
use crate::fields::push_fields;
use crate::names::row_name;
use crate::sentences::Sentence;
use crate::sums::{jump_rows, pass_rows, push_sums, set_rows, stop_rows};
use cps_code::{Forms, named_operation};
use std::alloc::{AllocError, Global};

/// Appends what is told of the operation of a name, if the central processor has one. Says whether it has.
pub fn push_central(
    alloc: Global,
    text: &mut Vec<u8>,
    name: &[u8],
    sentences: &'static [Sentence],
) -> Result<bool, AllocError>
    ensures found { IfOk result (λ found. found ≡ is_operation name.now) }
    ensures text { IfOk result (λ found. text.new.items ≡ text.old.items ++ central_text (sentence_values sentences.now) name.now) }
{
    let Some((forms, digits)) = named_operation(name) else {
        return Ok(false);
    };
    let shown = row_name(alloc, name)?;
    let told = Told {
        name: &shown,
        f: digits.f,
        sentences,
        code: None,
    };
    push_head(text)?;
    push_forms(alloc, text, &told, forms)?;
    Ok(true)
}

/// Appends the rows of those forms of an operation that have a code.
pub fn push_fitting_named(
    alloc: Global,
    text: &mut Vec<u8>,
    given: &[u8],
    name: &[u8],
) -> Result<(), AllocError>
    ensures { OnOk result (text.new.items ≡ text.old.items ++ fitting_named given.now name.now) }
{
    let Some((forms, digits)) = named_operation(name) else {
        return Ok(());
    };
    let shown = row_name(alloc, name)?;
    let told = Told {
        name: &shown,
        f: digits.f,
        sentences: &[],
        code: Some(given),
    };
    push_forms(alloc, text, &told, forms)
}

fn push_head(text: &mut Vec<u8>) -> Result<(), AllocError>
    ensures { OnOk result (text.new.items ≡ text.old.items ++ central_head) }
{
    text.extend_from_slice(
        b"An instruction of the central processor: i, j and k are digits of registers,\n",
    )?;
    text.extend_from_slice(b"K is an expression or a literal, n an expression.\n")
}

/// Appends the rows of an operation; of a code, those that have it.
fn push_forms(
    alloc: Global,
    text: &mut Vec<u8>,
    told: &Told<'_, '_>,
    forms: Forms,
) -> Result<(), AllocError>
    requires { told.now.f < 8 }
    ensures { OnOk result (text.new.items ≡ text.old.items ++ told_rows told.now (rows_of forms)) }
{
    match forms {
        Forms::Pass => push_sums(alloc, text, told, pass_rows()),
        Forms::Stop => push_sums(alloc, text, told, stop_rows()),
        Forms::SetA | Forms::SetB | Forms::SetX => push_sums(alloc, text, told, set_rows()),
        Forms::Jump => push_sums(alloc, text, told, jump_rows()),
        Forms::Fields(rows) => push_fields(alloc, text, told, rows),
    }
}

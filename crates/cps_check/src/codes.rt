//! What is told of an octal code.
ghost use Rattle.std.specs.Prelude.{◌≡◌, ◌++◌, IfOk, IfSome, OnOk, flat_map, is_some};
ghost use Rattle.std.specs.List.{list_all};
ghost use Rattle.cps_text.specs.Text.{is_digit};
ghost use Rattle.cps_code.specs.Code.Operations.{texts};
ghost use Rattle.cps_check.specs.Codes as coded;

use crate::central::push_fitting_named;
use crate::operations::{central_names, peripheral_names};
use crate::peripheral::push_fitting_peripheral;
use std::alloc::{AllocError, Global};

/// What is told of a word that is the octal code of an instruction: 5 or 10 digits for the central processor, 4 or 8 for a peripheral
/// processor. None where it is another word.
pub fn code_text(alloc: Global, word: &[u8]) -> Result<Option<Vec<u8>>, AllocError>
    ensures told { IfOk result (λ text. is_some text ≡ coded.is_code word.now) }
    ensures text { IfOk result (λ text. IfSome text (λ text. text.items ≡ coded.code_text word.now)) }
{
    if !is_octal(word) {
        return Ok(None);
    }
    match word.len() {
        5 | 10 => Ok(Some(central_code_text(alloc, word)?)),
        4 | 8 => Ok(Some(peripheral_code_text(alloc, word)?)),
        _ => Ok(None),
    }
}

fn is_octal(word: &[u8]) -> bool
    ensures { result ≡ list_all (is_digit 8) word.now }
{
    word.iter().all(|byte| matches!(*byte, b'0'..=b'7'))
}

fn central_code_text(alloc: Global, given: &[u8]) -> Result<Vec<u8>, AllocError>
    ensures { IfOk result (λ text. text.items ≡ coded.central_code_text given.now) }
{
    let mut rows = Vec::new(alloc);
    push_central(alloc, &mut rows, given, central_names())?;
    or_words(
        rows,
        b"No instruction of the central processor has this code.\n",
    )
}

fn push_central(
    alloc: Global,
    rows: &mut Vec<u8>,
    given: &[u8],
    names: &[&[u8]],
) -> Result<(), AllocError>
    ensures { OnOk result (rows.new.items ≡ rows.old.items ++ flat_map (coded.fitting_named given.now) (texts names.now)) }
{
    for name in names {
        push_fitting_named(alloc, rows, given, name)?;
    }
    Ok(())
}

fn peripheral_code_text(alloc: Global, given: &[u8]) -> Result<Vec<u8>, AllocError>
    ensures { IfOk result (λ text. text.items ≡ coded.peripheral_code_text given.now) }
{
    let mut rows = Vec::new(alloc);
    push_peripheral(alloc, &mut rows, given, peripheral_names())?;
    or_words(
        rows,
        b"No instruction of a peripheral processor has this code.\n",
    )
}

fn push_peripheral(
    alloc: Global,
    rows: &mut Vec<u8>,
    given: &[u8],
    names: &[&[u8]],
) -> Result<(), AllocError>
    ensures { OnOk result (rows.new.items ≡ rows.old.items ++ flat_map (coded.fitting_peripheral given.now) (texts names.now)) }
{
    for name in names {
        push_fitting_peripheral(alloc, rows, given, name)?;
    }
    Ok(())
}

/// Rows, or words where there is none.
fn or_words(mut rows: Vec<u8>, words: &[u8]) -> Result<Vec<u8>, AllocError>
    ensures { IfOk result (λ text. text.items ≡ coded.or_words words.now rows.items) }
{
    if rows.is_empty() {
        rows.extend_from_slice(words)?;
    }
    Ok(rows)
}

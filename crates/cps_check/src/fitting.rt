//! The rows of forms of the central processor that have a code, with the fields of that.
ghost use Rattle.std.specs.Prelude.{◌≡◌, ◌++◌, ◌<◌, IfOk, OnOk, drop, map};
ghost use Rattle.cps_check.specs.Codes as coded;
ghost use Rattle.cps_check.specs.Code.Kept.{kept_parts};

use crate::central_row::{RowParts, Told, code_character, push_code, push_forcing};
use crate::front::push_front;
use std::alloc::{AllocError, Global};

/// Appends the row of a form with the fields of a code, if the form has that code.
pub fn push_fitting(
    alloc: Global,
    text: &mut Vec<u8>,
    told: &Told<'_, '_>,
    given: &[u8],
    parts: &RowParts<'_>,
) -> Result<(), AllocError>
    requires { told.now.f < 8 }
    ensures { OnOk result (text.new.items ≡ text.old.items
        ++ coded.fitting_text told.now.name.now told.now.f given.now (kept_parts parts.now)) }
{
    if !has_code(alloc, told.f, given, parts)? {
        return Ok(());
    }
    push_fitting_row(alloc, text, told, given, parts)
}

fn has_code(alloc: Global, f: u8, given: &[u8], parts: &RowParts<'_>) -> Result<bool, AllocError>
    requires { f < 8 }
    ensures { IfOk result (λ has. has ≡ coded.has_code f (kept_parts parts.now) given.now) }
{
    let code = code_with_fields(alloc, f, parts.digits, given)?;
    Ok(given.len() == usize::from(parts.bits / 3) && code.as_slice() == given)
}

/// The code of a form with these digits, with the fields of a given code.
fn code_with_fields(
    alloc: Global,
    f: u8,
    letters: &[u8],
    given: &[u8],
) -> Result<Vec<u8>, AllocError>
    requires { f < 8 }
    ensures { IfOk result (λ code. code.items ≡ coded.code_with_fields f letters.now given.now) }
{
    let mut code = Vec::new(alloc);
    for letter in letters {
        code.push(field_character(letters, given, code_character(f, *letter)))?;
    }
    code.extend_from_slice(behind(given, letters.len()))?;
    Ok(code)
}

fn push_fitting_row(
    alloc: Global,
    text: &mut Vec<u8>,
    told: &Told<'_, '_>,
    given: &[u8],
    parts: &RowParts<'_>,
) -> Result<(), AllocError>
    requires { told.now.f < 8 }
    ensures { OnOk result (text.new.items ≡ text.old.items
        ++ coded.fitting_row told.now.name.now told.now.f given.now (kept_parts parts.now)) }
{
    let name = with_fields(alloc, parts.digits, given, told.name)?;
    let operands = with_fields(alloc, parts.digits, given, parts.operands)?;
    push_front(text, &name, &operands, parts.bits)?;
    push_code(text, told.f, parts)?;
    push_value(text, parts.hole, behind(given, parts.digits.len()))?;
    push_forcing(text, parts.forces)?;
    text.push(b'\n')?;
    Ok(())
}

/// A text of a form with these digits, with the fields of a code.
fn with_fields(
    alloc: Global,
    letters: &[u8],
    given: &[u8],
    shown: &[u8],
) -> Result<Vec<u8>, AllocError>
    ensures { IfOk result (λ text. text.items ≡ map (coded.field_character letters.now given.now) shown.now) }
{
    let mut text = Vec::new(alloc);
    for character in shown {
        text.push(field_character(letters, given, *character))?;
    }
    Ok(text)
}

fn field_character(letters: &[u8], given: &[u8], letter: u8) -> u8
    ensures { result ≡ coded.field_character letters.now given.now letter }
{
    match letter {
        b'i' | b'j' | b'k' => digit_at(letters, given, letter),
        _ => letter,
    }
}

/// The digit of a code where a form first has a letter.
fn digit_at(letters: &[u8], given: &[u8], letter: u8) -> u8
    ensures { result ≡ coded.digit_at letters.now given.now letter }
{
    let [first, more_letters @ ..] = letters else {
        return b'0';
    };
    let [digit, more_digits @ ..] = given else {
        return b'0';
    };
    if *first == letter {
        return *digit;
    }
    digit_at(more_letters, more_digits, letter)
}

fn push_value(text: &mut Vec<u8>, hole: Option<u8>, value: &[u8]) -> Result<(), AllocError>
    ensures { OnOk result (text.new.items ≡ text.old.items ++ coded.value_text hole value.now) }
{
    let Some(letter) = hole else {
        return Ok(());
    };
    text.extend_from_slice(b", ")?;
    text.push(letter)?;
    text.extend_from_slice(b"=")?;
    text.extend_from_slice(value)
}

/// A text without so many characters in front.
pub fn behind(text: &[u8], count: usize) -> &[u8]
    ensures { result.now ≡ drop count text.now }
{
    &text[count.min(text.len())..]
}

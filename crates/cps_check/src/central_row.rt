//! A row of an instruction of the central processor.
ghost use Rattle.std.specs.Prelude.{◌≡◌, ◌++◌, ◌<◌, OnOk, map};
ghost use Rattle.cps_check.specs.Central.{code_character, code_text, forcing_text, hole_text, row_text};
ghost use Rattle.cps_check.specs.Code.Kept.{kept_parts, sentence_values, told_row};

use crate::fitting::push_fitting;
use crate::front::{CODE_COLUMNS, push_at_left, push_front};
use crate::sentences::{Sentence, words_of};
use std::alloc::{AllocError, Global};

/// An operation, as its rows tell it: its name, and the digit that f stands for.
#[derive(Clone, Copy)]
pub struct Told<'a, 'b> {
    pub name: &'a [u8],
    pub f: u8,
    /// What its forms do.
    pub sentences: &'static [Sentence],
    /// The octal code whose forms are told; None where all are.
    pub code: Option<&'b [u8]>,
}

/// A row: its operands, and its code.
#[derive(Clone, Copy)]
pub struct RowParts<'a> {
    pub operands: &'a [u8],
    /// How many bits the code has.
    pub bits: u8,
    /// Its digits, some told by letters.
    pub digits: &'a [u8],
    /// The letter of what stands behind the digits.
    pub hole: Option<u8>,
    /// Whether the next instruction begins a word.
    pub forces: bool,
}

/// Appends a row; of a code, the row if the code has its form.
pub fn push_row(
    alloc: Global,
    text: &mut Vec<u8>,
    told: &Told<'_, '_>,
    parts: &RowParts<'_>,
) -> Result<(), AllocError>
    requires { told.now.f < 8 }
    ensures { OnOk result (text.new.items ≡ text.old.items ++ told_row told.now (kept_parts parts.now)) }
{
    match told.code {
        None => push_form(alloc, text, told, parts),
        Some(given) => push_fitting(alloc, text, told, given, parts),
    }
}

fn push_form(
    alloc: Global,
    text: &mut Vec<u8>,
    told: &Told<'_, '_>,
    parts: &RowParts<'_>,
) -> Result<(), AllocError>
    requires { told.now.f < 8 }
    ensures { OnOk result (text.new.items ≡ text.old.items
        ++ row_text told.now.name.now told.now.f (sentence_values told.now.sentences.now) (kept_parts parts.now)) }
{
    push_front(text, told.name, parts.operands, parts.bits)?;
    let mut code = Vec::new(alloc);
    push_code(&mut code, told.f, parts)?;
    push_at_left(text, CODE_COLUMNS, &code)?;
    text.extend_from_slice(words_of(told.sentences, parts.operands))?;
    push_forcing(text, parts.forces)?;
    text.push(b'\n')?;
    Ok(())
}

/// Appends a code.
pub fn push_code(text: &mut Vec<u8>, f: u8, parts: &RowParts<'_>) -> Result<(), AllocError>
    requires { f < 8 }
    ensures { OnOk result (text.new.items ≡ text.old.items ++ code_text f (kept_parts parts.now)) }
{
    push_digits(text, f, parts.digits)?;
    push_hole(text, parts.hole)
}

/// Appends the digits of a code, with the digit for f.
fn push_digits(text: &mut Vec<u8>, f: u8, digits: &[u8]) -> Result<(), AllocError>
    requires { f < 8 }
    ensures { OnOk result (text.new.items ≡ text.old.items ++ map (code_character f) digits.now) }
{
    for letter in digits {
        text.push(code_character(f, *letter))?;
    }
    Ok(())
}

/// A character of a code, with the digit for f.
pub fn code_character(f: u8, letter: u8) -> u8
    requires { f < 8 }
    ensures { result ≡ code_character f letter }
{
    if letter == b'f' { b'0' + f } else { letter }
}

fn push_hole(text: &mut Vec<u8>, hole: Option<u8>) -> Result<(), AllocError>
    ensures { OnOk result (text.new.items ≡ text.old.items ++ hole_text hole) }
{
    if let Some(letter) = hole {
        text.push(letter)?;
    }
    Ok(())
}

/// Appends that a forcing is pending, where one is.
pub fn push_forcing(text: &mut Vec<u8>, forces: bool) -> Result<(), AllocError>
    ensures { OnOk result (text.new.items ≡ text.old.items ++ forcing_text forces) }
{
    if forces {
        text.extend_from_slice(b"; the next instruction begins a word")?;
    }
    Ok(())
}

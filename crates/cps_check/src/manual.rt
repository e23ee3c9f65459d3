//! What is told of a word.
ghost use Rattle.std.specs.Prelude.{◌≡◌, ◌||◌, false, IfOk, IfSome, is_some};
ghost use Rattle.cps_check.specs.Codes.{is_code};
ghost use Rattle.cps_check.specs.Manual as told;

use crate::codes::code_text;
use crate::flags::flag_text;
use crate::instruction::instruction_text;
use crate::statements::statement_text;
use cps_cause::LeftOut;
use cps_expr::Operation;
use std::alloc::{AllocError, Global};

/// What is told of a word: of the letter of a flag, of a statement, of an operation of COMPASS that is left out, of an instruction of either machine, whose name may lack the digit
/// of a register, or of an octal code, by how many digits it has. Lower-case letters stand for capitals. None where the word is nothing of
/// that. Each row ends with a newline.
pub fn manual_text(alloc: Global, word: &[u8]) -> Result<Option<Vec<u8>>, AllocError>
    ensures told { IfOk result (λ text. is_some text ≡ told.is_told word.now) }
    // Of an instruction, the rows of the tables; of a code, those that have it.
    ensures rows { IfOk result (λ text. IfSome text (λ text.
        told.is_told_by_sentences word.now ≡ false → told.TellsForms word.now text.items)) }
{
    if let Some(text) = sentences(word) {
        return Ok(Some(copied(alloc, text)?));
    }
    match LeftOut::named(word) {
        Some(left_out) => Ok(Some(left_out_text(alloc, word, left_out)?)),
        None => forms_text(alloc, word),
    }
}

/// What is told of a code, or of an instruction.
fn forms_text(alloc: Global, word: &[u8]) -> Result<Option<Vec<u8>>, AllocError>
    ensures told { IfOk result (λ text. is_some text ≡ (is_code word.now || told.is_instruction word.now)) }
    ensures text { IfOk result (λ text. IfSome text (λ text. told.TellsForms word.now text.items)) }
{
    match code_text(alloc, word)? {
        Some(text) => Ok(Some(text)),
        None => instruction_text(alloc, word),
    }
}

/// What is told of the letter of a flag, or of a statement.
fn sentences(word: &[u8]) -> Option<&'static str>
    ensures { is_some result ≡ told.is_flag_or_statement word.now }
{
    match flag_text(word) {
        Some(text) => Some(text),
        None => match Operation::named(word) {
            Some(operation) => Some(statement_text(operation)),
            None => None,
        },
    }
}

/// What is told of an operation that is left out.
fn left_out_text(alloc: Global, word: &[u8], left_out: LeftOut) -> Result<Vec<u8>, AllocError> {
    let mut text = Vec::new(alloc);
    text.extend_from_slice(word)?;
    text.extend_from_slice(b" is an operation of COMPASS that is left out here: ")?;
    text.extend_from_slice(left_out.words())?;
    text.push(b'\n')?;
    Ok(text)
}

fn copied(alloc: Global, text: &str) -> Result<Vec<u8>, AllocError> {
    let mut copy = Vec::new(alloc);
    copy.extend_from_slice(text.as_bytes())?;
    Ok(copy)
}

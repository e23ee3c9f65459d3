//! The forms of an operation, read from what the manual tells of it.

use cps_check::manual_text;
use cps_expr::Machine;
use cps_page::Form;
use std::alloc::{AllocError, Global};

/// The columns before the operands, the bits, the code and the sentence of a row.
const BEFORE_OPERANDS: usize = 6;

const BEFORE_BITS: usize = 16;

const BEFORE_CODE: usize = 25;

const BEFORE_SENTENCE: usize = 37;

/// Appends the forms of the operation of a name, if a machine has one, in the order of the manual. None occurs yet.
pub fn push_forms(
    alloc: Global,
    forms: &mut Vec<Form>,
    machine: Machine,
    name: &[u8],
) -> Result<(), AllocError> {
    let Some(text) = manual_text(alloc, name)? else {
        return Ok(());
    };
    for row in text.split(|byte| *byte == b'\n') {
        if is_of(machine, row) {
            let form = form_of(alloc, row)?;
            forms.push(form)?;
        }
    }
    Ok(())
}

/// Whether a row is that of a form of a machine.
fn is_of(machine: Machine, row: &[u8]) -> bool {
    let bits = between(row, BEFORE_BITS, BEFORE_CODE);
    match machine {
        Machine::Cp => matches!(bits, b"15 bits" | b"30 bits"),
        Machine::Pp => matches!(bits, b"12 bits" | b"24 bits"),
    }
}

fn form_of(alloc: Global, row: &[u8]) -> Result<Form, AllocError> {
    Ok(Form {
        name: copied(alloc, between(row, 0, BEFORE_OPERANDS))?,
        operands: copied(alloc, between(row, BEFORE_OPERANDS, BEFORE_BITS))?,
        code: code_of(alloc, row)?,
        sentence: copied(alloc, between(row, BEFORE_SENTENCE, row.len()))?,
        count: 0,
    })
}

/// A code with a letter for each digit of K or n.
fn code_of(alloc: Global, row: &[u8]) -> Result<Vec<u8>, AllocError> {
    let mut code = copied(alloc, between(row, BEFORE_CODE, BEFORE_SENTENCE))?;
    let digits = match between(row, BEFORE_BITS, BEFORE_CODE) {
        b"15 bits" => 5,
        b"30 bits" => 10,
        _ => 0,
    };
    for _ in 0..10 {
        match code.last() {
            Some(letter) if code.len() < digits => {
                let letter = *letter;
                code.push(letter)?;
            }
            _ => return Ok(code),
        }
    }
    Ok(code)
}

/// What stands in some columns, without blanks at its end.
fn between(row: &[u8], from: usize, to: usize) -> &[u8] {
    let (front, _) = row.split_at(to.min(row.len()));
    let (_, shown) = front.split_at(from.min(front.len()));
    let mut length = 0;
    for (at, character) in shown.iter().enumerate() {
        if *character != b' ' {
            length = at + 1;
        }
    }
    shown.split_at(length.min(shown.len())).0
}

fn copied(alloc: Global, text: &[u8]) -> Result<Vec<u8>, AllocError> {
    let mut copy = Vec::new(alloc);
    copy.extend_from_slice(text)?;
    Ok(copy)
}

//! What the operation of a line takes.
ghost use Rattle.std.specs.Prelude.{IfOk};
ghost use Rattle.serde_json.specs.View.{view};
ghost use Rattle.cps_server.specs.Signatures.{TellsSignature};

use crate::document::Document;
use crate::field::{Field, field_at};
use crate::machine_above::machine_at;
use crate::macro_above::macro_above;
use crate::mentions::line_of;
use crate::queried_text::QueriedText;
use crate::signature::{Help, Signature};
use cps_cause::{Card, filled_len};
use cps_check::manual_text;
use cps_code::{is_builtin, is_operation};
use cps_expr::{Machine, Operation};
use cps_list::View;
use cps_rpc::{Position, place_in};
use cps_text::Name;
use serde_json::Value;
use std::alloc::{AllocError, Global};

/// Where the operands and the bits of a code stand in a row of the manual.
const OPERANDS: usize = 6;

const BITS: usize = 16;

/// What the operation of the line at a position takes: the parameters of a macro as it stands above the line, or the operands of each form of an
/// instruction. It is null in a location and behind the operands, at another operation, and where no such line is assembled.
pub fn signature_at(
    alloc: Global,
    deck: QueriedText<'_>,
    position: Position,
) -> Result<Value, AllocError>
    ensures { IfOk result (λ json. TellsSignature deck.entry.document.now position (view json)) }
{
    if position.line >= deck.document.session().count() {
        return Ok(Value::Null);
    }
    let help = help_at(alloc, deck, position)?;
    help.tell(alloc)
}

fn help_at(alloc: Global, deck: QueriedText<'_>, position: Position) -> Result<Help, AllocError> {
    let mut help = Help {
        signatures: Vec::new(alloc),
        commas: 0,
    };
    match field_at(alloc, deck, position)? {
        Field::Location | Field::Remark => return Ok(help),
        Field::Operation | Field::Operand => {}
    }
    let Some(line) = deck
        .document
        .session()
        .line(position.line.saturating_add(1))
    else {
        return Ok(help);
    };
    let card = Card::of(line.bytes());
    let written = line_of(deck.document, position.line);
    let place = place_in(deck.encoding, written, position.character);
    help.commas = commas_before(&card, place);
    push_signatures(
        alloc,
        &mut help.signatures,
        deck.document,
        position.line,
        card.operation_text(),
    )?;
    Ok(help)
}

/// How many commas stand before a place of a card in its operands, but for those in parentheses.
fn commas_before(card: &Card<'_>, place: usize) -> usize {
    let tail = card.tail();
    let end = place.saturating_sub(card.before_tail).min(tail.len());
    let mut commas: usize = 0;
    let mut open: usize = 0;
    for byte in &tail[..end] {
        match *byte {
            b'(' => open = open.saturating_add(1),
            b')' => open = open.saturating_sub(1),
            b',' if open == 0 => commas = commas.saturating_add(1),
            _ => {}
        }
    }
    commas
}

/// Appends what an operation takes in a line, from 0.
fn push_signatures(
    alloc: Global,
    signatures: &mut Vec<Signature>,
    document: &Document,
    line: u32,
    operation: &[u8],
) -> Result<(), AllocError> {
    if !is_builtin(operation) {
        return push_macro(alloc, signatures, document, line, operation);
    }
    let is_known = match machine_at(document, line) {
        Machine::Cp => is_operation(operation),
        Machine::Pp => !is_operation(operation) && Operation::named(operation).is_none(),
    };
    if is_known {
        push_forms(alloc, signatures, operation)?;
    }
    Ok(())
}

/// Appends the head of a macro, as it stands above a line.
fn push_macro(
    alloc: Global,
    signatures: &mut Vec<Signature>,
    document: &Document,
    line: u32,
    operation: &[u8],
) -> Result<(), AllocError> {
    let Some(name) = Name::read(operation) else {
        return Ok(());
    };
    let Some(named) = macro_above(document, line, name)? else {
        return Ok(());
    };
    let mut operands = Vec::new(alloc);
    for parameter in named.parameters.as_slice() {
        if !operands.is_empty() {
            operands.push(b',')?;
        }
        operands.extend_from_slice(parameter.text())?;
    }
    signatures.push(Signature::of(alloc, name.text(), &operands)?)?;
    Ok(())
}

/// Appends the forms of an instruction, as the manual has them.
fn push_forms(
    alloc: Global,
    signatures: &mut Vec<Signature>,
    operation: &[u8],
) -> Result<(), AllocError> {
    if let Some(text) = manual_text(alloc, operation)? {
        for row in text.split(|byte| *byte == b'\n') {
            if let Some(operands) = operands_in(row) {
                signatures.push(Signature::of(alloc, first_word(row), operands)?)?;
            }
        }
    }
    Ok(())
}

/// The operands of a row of the manual, if it is that of a form: nothing where they aren't read.
fn operands_in(row: &[u8]) -> Option<&[u8]> {
    let bits = row.get(BITS..)?;
    if bits.get(2..8)? != b" bits ".as_slice() {
        return None;
    }
    let operands = trimmed(row.get(OPERANDS..BITS)?);
    if operands == b"not read".as_slice() {
        return Some(&[]);
    }
    if operands == b"m or m,d".as_slice() {
        return Some(b"m,d");
    }
    Some(operands)
}

/// A text without the blanks at its end.
fn trimmed(text: &[u8]) -> &[u8] {
    &text[..filled_len(text).min(text.len())]
}

/// What stands before the first blank of a text.
fn first_word(text: &[u8]) -> &[u8] {
    match text.iter().position(|byte| *byte == b' ') {
        Some(end) => &text[..end.min(text.len())],
        None => text,
    }
}

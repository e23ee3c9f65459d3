//! What may be written next.
ghost use Rattle.std.specs.Prelude.{◌≡◌, ◌∷◌, [], IfOk, OnOk};
ghost use Rattle.serde_json.specs.Data.{array};
ghost use Rattle.serde_json.specs.View.{items_of, view};
ghost use Rattle.cps_server.specs.Completions as completions;
ghost use Rattle.cps_server.specs.Code.Telling.{AddsOffers, completions_of_deck, offers_for};

use crate::document::Document;
use crate::field::{Field, field_at};
use crate::machine_above::machine_at;
use crate::names::{defined_in, macros_in, missing_in};
use crate::offers::{Sort, push_item, push_spelled, push_with_digits};
use crate::operations::{instruction_names, machine_name, register_letters, statement_names};
use crate::queried_text::QueriedText;
use crate::ranges::word_range;
use crate::symbols::value_text;
use cps_expr::Machine;
use cps_rpc::Position;
use cps_text::Name;
use serde_json::Value;
use std::alloc::{AllocError, Global};

/// The kinds of what is offered, as the protocol counts them.
const FUNCTION: u32 = 3;

const VARIABLE: u32 = 6;

const KEYWORD: u32 = 14;

const CONSTANT: u32 = 21;

/// Where a word is to stand: in which field, of a line for which machine.
#[derive(Clone, Copy)]
pub struct Seat {
    pub field: Field,
    pub machine: Machine,
}

/// What may be written in the place of the word around a position of a deck, by the field in which it stands: symbols that lines read and none
/// defines; macros, and the operations of the line's machine; symbols with their values, and registers; or nothing.
pub fn tell_completions(
    alloc: Global,
    deck: QueriedText<'_>,
    position: Position,
) -> Result<Value, AllocError>
    ensures { IfOk result (λ json. view json ≡ array (items_of (completions_of_deck deck.entry position))) }
{
    let range = word_range(alloc, deck, position)?;
    let field = field_at(alloc, deck, position)?;
    let seat = Seat {
        field,
        machine: machine_at(deck.document, position.line),
    };
    let mut told = Vec::new(alloc);
    push_offered(alloc, deck.document, seat, &range, &mut told)?;
    Ok(Value::from(told))
}

/// Appends what is offered.
fn push_offered(
    alloc: Global,
    document: &Document,
    seat: Seat,
    range: &Value,
    told: &mut Vec<Value>,
) -> Result<(), AllocError>
    ensures { OnOk result (AddsOffers range.now (offers_for seat document.now) told.old.items told.new.items) }
{
    match seat.field {
        Field::Location => push_missing(alloc, document, range, told),
        Field::Operation => push_operations(alloc, document, seat.machine, range, told),
        Field::Operand => push_operands(alloc, document, seat.machine, range, told),
        Field::Remark => Ok(()),
    }
}

// ---- symbols

/// Appends the symbols that lines read and none defines.
fn push_missing(
    alloc: Global,
    document: &Document,
    range: &Value,
    told: &mut Vec<Value>,
) -> Result<(), AllocError>
    ensures { OnOk result (AddsOffers range.now (completions.missing_offers document.now) told.old.items told.new.items) }
{
    let names = missing_in(alloc, document)?;
    push_symbols(alloc, document, names.as_slice(), range, told)
}

/// Appends what operands name: the symbols that lines define, and the registers of a machine.
fn push_operands(
    alloc: Global,
    document: &Document,
    machine: Machine,
    range: &Value,
    told: &mut Vec<Value>,
) -> Result<(), AllocError>
    ensures { OnOk result (AddsOffers range.now (completions.operand_offers machine document.now) told.old.items told.new.items) }
{
    let names = defined_in(alloc, document)?;
    push_symbols(alloc, document, names.as_slice(), range, told)?;
    push_registers(alloc, machine, range, told)
}

/// Appends symbols with their values.
fn push_symbols(
    alloc: Global,
    document: &Document,
    names: &[Name],
    range: &Value,
    told: &mut Vec<Value>,
) -> Result<(), AllocError>
    ensures { OnOk result (AddsOffers range.now (completions.symbol_offers document.now names.now) told.old.items told.new.items) }
{
    for name in names {
        push_symbol(alloc, document, *name, range, told)?;
    }
    Ok(())
}

fn push_symbol(
    alloc: Global,
    document: &Document,
    name: Name,
    range: &Value,
    told: &mut Vec<Value>,
) -> Result<(), AllocError>
    ensures { OnOk result (AddsOffers range.now (completions.symbol_offers document.now (name ∷ [])) told.old.items told.new.items) }
{
    let value = value_text(alloc, document, name)?;
    push_constant(alloc, range, told, name.text(), &value)?;
    Ok(())
}

/// Appends a symbol with its final value beside it.
fn push_constant(
    alloc: Global,
    range: &Value,
    told: &mut Vec<Value>,
    name: &[u8],
    value: &[u8],
) -> Result<(), AllocError>
    ensures { OnOk result (AddsOffers range.now (completions.valued_offer name.now value.now ∷ []) told.old.items told.new.items) }
{
    let sort = Sort {
        kind: CONSTANT,
        detail: value,
    };
    push_item(alloc, range, told, name, sort)
}

/// Appends the registers that operands for a machine name.
fn push_registers(
    alloc: Global,
    machine: Machine,
    range: &Value,
    told: &mut Vec<Value>,
) -> Result<(), AllocError>
    ensures { OnOk result (AddsOffers range.now (completions.register_offers machine) told.old.items told.new.items) }
{
    let sort = Sort {
        kind: VARIABLE,
        detail: b"register",
    };
    let letters = register_letters(machine);
    for letter in letters {
        push_with_digits(alloc, range, told, letter.as_bytes(), sort)?;
    }
    Ok(())
}

// ---- operations

/// Appends the macros, the statements, and the instructions of a machine.
fn push_operations(
    alloc: Global,
    document: &Document,
    machine: Machine,
    range: &Value,
    told: &mut Vec<Value>,
) -> Result<(), AllocError>
    ensures { OnOk result (AddsOffers range.now (completions.operation_offers machine document.now) told.old.items told.new.items) }
{
    let macros = macros_in(alloc, document)?;
    push_macros(alloc, macros.as_slice(), range, told)?;
    push_statements(alloc, range, told)?;
    push_instructions(alloc, machine, range, told)
}

fn push_macros(
    alloc: Global,
    names: &[Name],
    range: &Value,
    told: &mut Vec<Value>,
) -> Result<(), AllocError>
    ensures { OnOk result (AddsOffers range.now (completions.macro_offers names.now) told.old.items told.new.items) }
{
    let sort = Sort {
        kind: FUNCTION,
        detail: b"macro",
    };
    for name in names {
        push_item(alloc, range, told, name.text(), sort)?;
    }
    Ok(())
}

fn push_statements(alloc: Global, range: &Value, told: &mut Vec<Value>) -> Result<(), AllocError>
    ensures { OnOk result (AddsOffers range.now completions.statement_offers told.old.items told.new.items) }
{
    let sort = Sort {
        kind: KEYWORD,
        detail: b"statement",
    };
    let names = statement_names();
    for name in names {
        push_item(alloc, range, told, name.as_bytes(), sort)?;
    }
    Ok(())
}

fn push_instructions(
    alloc: Global,
    machine: Machine,
    range: &Value,
    told: &mut Vec<Value>,
) -> Result<(), AllocError>
    ensures { OnOk result (AddsOffers range.now (completions.instruction_offers machine) told.old.items told.new.items) }
{
    let sort = Sort {
        kind: KEYWORD,
        detail: machine_name(machine),
    };
    let names = instruction_names(machine);
    for name in names {
        push_spelled(alloc, range, told, name.as_bytes(), sort)?;
    }
    Ok(())
}

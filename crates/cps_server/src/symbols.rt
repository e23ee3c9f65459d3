//! The symbols, the macros and the headings of a text.
ghost use Rattle.std.specs.Prelude.{◌≡◌, All, map, IfOk};
ghost use Rattle.std.specs.List.{AllZip};
ghost use Rattle.serde_json.specs.View.{view};
ghost use Rattle.cps_list.specs.Symbols as texts;
ghost use Rattle.cps_server.specs.Outline.{AreNamed, IsFlat, IsLaidOut, TellsHeading, TellsMacro, TellsSymbol, TellsSymbols};
ghost use Rattle.cps_server.specs.Code.Outlining.{IsPlaced, TellsPlaced, row_json};
ghost use Rattle.cps_server.specs.Results.{finals_in};

use crate::columns::columns_of;
use crate::document::Document;
use crate::headings::{Heading, headings_in};
use crate::macro_places::{line_among, macro_places};
use crate::mentions::{definitions_in, line_of};
use crate::names::macros_in;
use crate::outline_row::{OutlineRow, jsons_of};
use crate::outline_tree::tell_tree;
use crate::outlined::Outlined;
use crate::queried_text::QueriedText;
use cps_list::{Mention, View, push_value, symbol_value};
use cps_text::Name;
use serde_json::Value;
use std::alloc::{AllocError, Global};

/// A namespace, a function and a constant, as the protocol counts kinds.
const NAMESPACE: u32 = 3;

const FUNCTION: u32 = 12;

const CONSTANT: u32 = 14;

/// All symbols that lines of a deck define, with their values, its macros, and its headings: by their lines, beneath headings, where the editor takes a tree;
/// else one kind behind another.
pub fn tell_symbols(alloc: Global, deck: QueriedText<'_>) -> Result<Value, AllocError>
    ensures { IfOk result (λ json. TellsSymbols deck.entry.client.takes_trees deck.entry.document.now (view json)) }
{
    let rows = named_rows(alloc, deck)?;
    let told = laid_out(alloc, deck, rows)?;
    Ok(Value::from(told))
}

/// Rows and headings, as the editor takes them.
fn laid_out(
    alloc: Global,
    deck: QueriedText<'_>,
    rows: Vec<OutlineRow>,
) -> Result<Vec<Value>, AllocError>
    requires { All IsPlaced rows.items }
    ensures { IfOk result (λ told. IsLaidOut deck.entry.client.takes_trees (map row_json rows.items) (map view told.items)) }
{
    let headings = headings_in(alloc, deck.document)?;
    if deck.client.takes_trees {
        tell_tree(alloc, deck, rows, &headings)
    } else {
        tell_flat(alloc, deck, rows, &headings)
    }
}

/// Headings behind rows.
fn tell_flat(
    alloc: Global,
    deck: QueriedText<'_>,
    rows: Vec<OutlineRow>,
    headings: &[Heading],
) -> Result<Vec<Value>, AllocError>
    ensures { IfOk result (λ told. IsFlat (map row_json rows.items) (map view told.items)) }
{
    let mut told = jsons_of(alloc, rows)?;
    let mut behind = tell_headings(alloc, deck, headings)?;
    told.append(&mut behind)?;
    Ok(told)
}

/// The rows of the symbols, and behind them those of the macros.
fn named_rows(alloc: Global, deck: QueriedText<'_>) -> Result<Vec<OutlineRow>, AllocError>
    ensures named { IfOk result (λ rows. AreNamed deck.entry.document.now (map row_json rows.items)) }
    ensures placed { IfOk result (λ rows. All IsPlaced rows.items) }
{
    let definitions = definitions_in(alloc, deck.document)?;
    let mut rows = tell_definitions(alloc, deck, &definitions)?;
    let names = macros_in(alloc, deck.document)?;
    let mut macros = tell_macros(alloc, deck, names.as_slice())?;
    rows.append(&mut macros)?;
    Ok(rows)
}

fn tell_definitions(
    alloc: Global,
    deck: QueriedText<'_>,
    definitions: &[Mention],
) -> Result<Vec<OutlineRow>, AllocError>
    ensures { IfOk result (λ told. AllZip (TellsPlaced (TellsSymbol (finals_in deck.entry.document.now))) definitions.now told.items) }
{
    let mut told = Vec::new(alloc);
    for definition in definitions {
        told.push(tell_symbol(alloc, deck, definition)?)?;
    }
    Ok(told)
}

/// The definition of a symbol.
fn tell_symbol(
    alloc: Global,
    deck: QueriedText<'_>,
    definition: &Mention,
) -> Result<OutlineRow, AllocError>
    ensures { IfOk result (TellsPlaced (TellsSymbol (finals_in deck.entry.document.now)) definition.now) }
{
    let name = definition.name;
    let line = definition.line.saturating_sub(1);
    let columns = columns_of(line_of(deck.document, line), name);
    let value = value_text(alloc, deck.document, name)?;
    let symbol = Outlined {
        kind: CONSTANT,
        detail: &value,
        line,
        columns,
    };
    let json = symbol.tell(alloc, deck, name.text())?;
    Ok(OutlineRow { line, json })
}

fn tell_macros(
    alloc: Global,
    deck: QueriedText<'_>,
    names: &[Name],
) -> Result<Vec<OutlineRow>, AllocError>
    ensures { IfOk result (λ told. AllZip (TellsPlaced TellsMacro) names.now told.items) }
{
    let places = macro_places(alloc, deck.document)?;
    let mut told = Vec::new(alloc);
    for name in names {
        let line = line_among(&places, *name);
        told.push(tell_macro(alloc, deck, *name, line)?)?;
    }
    Ok(told)
}

/// The definition of a macro in a line.
fn tell_macro(
    alloc: Global,
    deck: QueriedText<'_>,
    name: Name,
    line: u32,
) -> Result<OutlineRow, AllocError>
    ensures { IfOk result (TellsPlaced TellsMacro name) }
{
    let columns = columns_of(line_of(deck.document, line), name);
    let named = Outlined {
        kind: FUNCTION,
        detail: b"macro",
        line,
        columns,
    };
    let json = named.tell(alloc, deck, name.text())?;
    Ok(OutlineRow { line, json })
}

fn tell_headings(
    alloc: Global,
    deck: QueriedText<'_>,
    headings: &[Heading],
) -> Result<Vec<Value>, AllocError>
    ensures { IfOk result (λ told. AllZip TellsHeading headings.now (map view told.items)) }
{
    let mut told = Vec::new(alloc);
    for heading in headings {
        told.push(tell_heading(alloc, deck, *heading)?)?;
    }
    Ok(told)
}

fn tell_heading(alloc: Global, deck: QueriedText<'_>, heading: Heading) -> Result<Value, AllocError>
    ensures { IfOk result (λ json. TellsHeading heading (view json)) }
{
    let named = Outlined {
        kind: NAMESPACE,
        detail: b"heading",
        line: heading.line,
        columns: heading.columns,
    };
    let line = line_of(deck.document, heading.line);
    named.tell(alloc, deck, heading.columns.of(line))
}

/// The final value of a symbol, as the cross-reference has it.
pub fn value_text(alloc: Global, document: &Document, name: Name) -> Result<Vec<u8>, AllocError>
    ensures { IfOk result (λ value. value.items ≡ texts.value_text (texts.value_of (finals_in document.now) name)) }
{
    let mut text = Vec::new(alloc);
    push_value(&mut text, symbol_value(document.session().finals(), name))?;
    Ok(text)
}

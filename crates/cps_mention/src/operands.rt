//! The parts of a statement that may write names.

use crate::placed_text::PlacedText;
use cps_cause::{Card, Columns};
use cps_code::is_builtin;
use cps_expr::Operation;
use cps_text::{ArgFault, Name, arguments, capital, operands};
use std::alloc::{AllocError, Global};

/// A field of a statement; nothing where it is empty.
pub fn field<'a>(card: &Card<'a>, columns: Option<Columns>) -> PlacedText<'a> {
    match columns {
        Some(columns) => PlacedText {
            text: columns.of(card.text),
            before: columns.first.saturating_sub(1),
        },
        None => PlacedText {
            text: &[],
            before: card.before_tail,
        },
    }
}

/// The text that has the operands.
pub fn tail_of<'a>(card: &Card<'a>) -> PlacedText<'a> {
    PlacedText {
        text: card.tail(),
        before: card.before_tail,
    }
}

/// The operands of a tail.
pub fn list_operands<'a>(
    alloc: Global,
    tail: PlacedText<'a>,
) -> Result<Vec<PlacedText<'a>>, AllocError> {
    let mut list = Vec::new(alloc);
    let mut at: usize = 0;
    for text in operands(tail.text) {
        list.push(PlacedText {
            text,
            before: tail.before.saturating_add(at),
        })?;
        at = at.saturating_add(text.len()).saturating_add(1);
    }
    Ok(list)
}

/// The arguments of a call; none where a parenthesis stays open.
pub fn list_arguments<'a>(
    alloc: Global,
    tail: PlacedText<'a>,
) -> Result<Vec<PlacedText<'a>>, AllocError> {
    match arguments(alloc, tail.text) {
        Ok(texts) => place_arguments(alloc, tail, &texts),
        Err(ArgFault::Unclosed) => Ok(Vec::new(alloc)),
        Err(ArgFault::Memory) => Err(AllocError),
    }
}

fn place_arguments<'a>(
    alloc: Global,
    tail: PlacedText<'a>,
    texts: &[&'a [u8]],
) -> Result<Vec<PlacedText<'a>>, AllocError> {
    let mut list = Vec::new(alloc);
    let mut at: usize = 0;
    for text in texts {
        let paired = usize::from(!stands_at(tail, at, text));
        let start = at.saturating_add(paired);
        list.push(PlacedText {
            text: *text,
            before: tail.before.saturating_add(start),
        })?;
        at = start
            .saturating_add(text.len())
            .saturating_add(paired)
            .saturating_add(1);
    }
    Ok(list)
}

/// Whether an argument stands at a place of a tail as it is. Else a pair of parentheses is around it.
fn stands_at(tail: PlacedText<'_>, at: usize, argument: &[u8]) -> bool {
    let end = at.saturating_add(argument.len());
    tail.cut(at, end).text == argument
        && match tail.text.get(end).copied() {
            None | Some(b',' | b' ') => true,
            Some(_) => false,
        }
}

/// What stands between the operators of a text.
fn push_elements<'a>(
    list: &mut Vec<PlacedText<'a>>,
    text: PlacedText<'a>,
) -> Result<(), AllocError> {
    let mut from: usize = 0;
    for (at, byte) in text.text.iter().enumerate() {
        if matches!(*byte, b'+' | b'-' | b'*' | b'/') {
            list.push(text.cut(from, at))?;
            from = at.saturating_add(1);
        }
    }
    list.push(text.cut(from, text.text.len()))?;
    Ok(())
}

/// What stands between the operators of texts.
pub fn push_all<'a>(
    list: &mut Vec<PlacedText<'a>>,
    texts: &[PlacedText<'a>],
) -> Result<(), AllocError> {
    for text in texts {
        push_elements(list, *text)?;
    }
    Ok(())
}

/// Which operands of a statement may write symbols.
#[derive(Clone, Copy)]
enum SymbolPlaces {
    Nowhere,
    InAll,
    /// In all behind the first.
    BehindFirst,
    /// In the text before the first comma.
    BeforeComma,
    /// In all that begin with no `=`.
    BesideLiterals,
}

fn symbol_places(operation: &[u8]) -> SymbolPlaces {
    match Operation::named(operation) {
        Some(named) => places_of_statement(named),
        None if is_builtin(operation) && !reads_nothing(operation) => SymbolPlaces::BesideLiterals,
        None => SymbolPlaces::Nowhere,
    }
}

fn places_of_statement(named: Operation) -> SymbolPlaces {
    match named {
        Operation::Ident | Operation::If => SymbolPlaces::BehindFirst,
        Operation::Dis => SymbolPlaces::BeforeComma,
        Operation::Equate | Operation::Set | Operation::Org | Operation::Bss | Operation::Bssz => {
            SymbolPlaces::InAll
        }
        Operation::Con | Operation::Vfd | Operation::Compare(_) | Operation::Dup => {
            SymbolPlaces::InAll
        }
        Operation::End => SymbolPlaces::InAll,
        _ => SymbolPlaces::Nowhere,
    }
}

/// Whether it is an instruction of no operands: a comment may stand where others have them.
fn reads_nothing(operation: &[u8]) -> bool {
    is_word(operation, b"PS") || is_word(operation, b"NO") || is_word(operation, b"PSN")
}

/// Whether a text writes a word, in capitals or not.
fn is_word(text: &[u8], word: &[u8]) -> bool {
    text.len() == word.len()
        && text
            .iter()
            .zip(word.iter())
            .all(|(byte, letter)| capital(*byte) == *letter)
}

/// The parts of a statement's operands that may write symbols.
pub fn list_elements<'a>(
    alloc: Global,
    card: &Card<'a>,
) -> Result<Vec<PlacedText<'a>>, AllocError> {
    let tail = tail_of(card);
    let mut list = Vec::new(alloc);
    let texts = list_operands(alloc, tail)?;
    match symbol_places(card.operation_text()) {
        SymbolPlaces::Nowhere => {}
        SymbolPlaces::InAll => push_all(&mut list, &texts)?,
        SymbolPlaces::BehindFirst => {
            if let [_, others @ ..] = texts.as_slice() {
                push_all(&mut list, others)?;
            }
        }
        SymbolPlaces::BeforeComma => {
            if let Some(comma) = tail.text.iter().position(|byte| *byte == b',') {
                push_elements(&mut list, tail.cut(0, comma))?;
            }
        }
        SymbolPlaces::BesideLiterals => push_beside_literals(&mut list, &texts)?,
    }
    Ok(list)
}

fn push_beside_literals<'a>(
    list: &mut Vec<PlacedText<'a>>,
    texts: &[PlacedText<'a>],
) -> Result<(), AllocError> {
    for text in texts {
        if text.text.first().copied() != Some(b'=') {
            push_elements(list, *text)?;
        }
    }
    Ok(())
}

/// Whether the location field of an operation defines a symbol; so does that of none, of an instruction, and of what may be called.
pub fn defines_symbol(operation: &[u8]) -> bool {
    match Operation::named(operation) {
        Some(named) => defines_in_statement(named),
        None => { operation.is_empty() || is_builtin(operation) || Name::read(operation).is_some() }
    }
}

fn defines_in_statement(named: Operation) -> bool {
    match named {
        Operation::Equate | Operation::Set | Operation::Bss | Operation::Bssz => true,
        Operation::Con | Operation::Data | Operation::Vfd | Operation::Dis => true,
        _ => false,
    }
}

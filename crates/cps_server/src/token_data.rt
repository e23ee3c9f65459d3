//! Tokens as numbers, five for each.
ghost use Rattle.std.specs.Prelude.{◌≡◌, ◌++◌, ◌∷◌, [], map, IfOk, OnOk};
ghost use Rattle.serde_json.specs.View.{view};
ghost use Rattle.cps_server.specs.Tokens.{data_of, encoded, number_json, numbers_behind, units_behind};

use crate::token::Token;
use serde_json::{Value, json};
use std::alloc::{AllocError, Global};

/// What is told of tokens.
pub fn tell_data(alloc: Global, tokens: &[Token]) -> Result<Value, AllocError>
    ensures { IfOk result (λ json. view json ≡ data_of tokens.now) }
{
    let numbers = numbers_of(alloc, tokens)?;
    let data = Value::from(numbers);
    json!(in alloc; {"data": data})
}

/// The numbers of tokens: each counts from the start of the one before.
fn numbers_of(alloc: Global, tokens: &[Token]) -> Result<Vec<Value>, AllocError>
    ensures { IfOk result (λ numbers. map view numbers.items ≡ map number_json (encoded tokens.now)) }
{
    let mut numbers = Vec::new(alloc);
    let mut line: u32 = 0;
    let mut start: u32 = 0;
    for token in tokens {
        push_numbers(&mut numbers, line, start, *token)?;
        line = token.line;
        start = token.start;
    }
    Ok(numbers)
}

/// Appends the numbers of a token behind a place of a line.
fn push_numbers(
    numbers: &mut Vec<Value>,
    line: u32,
    start: u32,
    token: Token,
) -> Result<(), AllocError>
    ensures { OnOk result (map view numbers.new.items ≡ map view numbers.old.items ++ map number_json (numbers_behind line start token)) }
{
    let five = numbers_behind(line, start, token);
    push_all(numbers, &five)
}

fn push_all(numbers: &mut Vec<Value>, more: &[u32]) -> Result<(), AllocError>
    ensures { OnOk result (map view numbers.new.items ≡ map view numbers.old.items ++ map number_json more.now) }
{
    for number in more {
        numbers.push(Value::from(*number))?;
    }
    Ok(())
}

fn numbers_behind(line: u32, start: u32, token: Token) -> [u32; 5]
    ensures { result ≡ numbers_behind line start token }
{
    [
        token.line.saturating_sub(line),
        units_behind(line, start, token),
        token.end.saturating_sub(token.start),
        token.nature.kind.number(),
        token.nature.modifiers(),
    ]
}

/// The units in front of a token behind a place, where both stand in one line.
fn units_behind(line: u32, start: u32, token: Token) -> u32
    ensures { result ≡ units_behind line start token }
{
    if token.line == line {
        token.start.saturating_sub(start)
    } else {
        token.start
    }
}

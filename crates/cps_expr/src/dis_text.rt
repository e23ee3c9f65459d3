//! The characters of DIS.
ghost use Rattle.std.specs.Prelude.{◌≡◌, ◌<◌, ℕ, List, length, IfSome, Option, option_map};
ghost use Rattle.std.specs.List.{list_all, position};
ghost use Rattle.cps_text.specs.Display.{has_display};
ghost use Rattle.cps_expr.specs.Expression.{Expression};
ghost use Rattle.cps_expr.specs.Reads.{Reads};
ghost use Rattle.cps_expr.specs.Row.{is_comma, displayed, counted_of, may_enclose, closes, delimited_at, delimited_of, dis_text_of};

use crate::expr::{Expr, ExprFault};
use crate::pseudo::DisText;
use crate::radix::Radix;
use crate::reads::{paired, read_expression};
use crate::sequence::Sequence;
use cps_text::{capital, display};
use std::alloc::Global;

/// A number of words and characters, or characters between delimiters.
#[tactic(auto, unfolding(crate::specs::Row::dis_text_of))]
pub(crate) fn read_dis_text(alloc: Global, tail: &[u8], radix: Radix) -> Result<DisText, ExprFault>
    ensures { Reads result (dis_text_of radix tail.now) }
{
    match tail {
        [] => Err(ExprFault::Unreadable),
        [b',', text @ ..] => read_delimited(alloc, text),
        _ => read_counted(alloc, tail, radix),
    }
}

fn read_counted(alloc: Global, text: &[u8], radix: Radix) -> Result<DisText, ExprFault>
    ensures { Reads result (counted_of radix text.now) }
{
    let Some(at) = comma_at(text) else {
        return Err(ExprFault::Unreadable);
    };
    counted(paired(
        read_expression(alloc, &text[..at], radix),
        read_displayed(alloc, &text[at + 1..]),
    ))
}

fn counted(parts: Result<(Expr, Sequence<u8>), ExprFault>) -> Result<DisText, ExprFault>
    ensures { (written : Option (Expression × List ℕ)) → Reads parts written
        → Reads result (option_map (λ parts. DisText.Counted parts.0 parts.1) written) }
{
    let (count, characters) = parts?;
    Ok(DisText::Counted(count, characters))
}

fn comma_at(text: &[u8]) -> Option<usize>
    ensures place { result ≡ position is_comma text.now }
    ensures within { IfSome result (λ at. at < length text.now) }
{
    text.iter().position(|byte| *byte == b',')
}

fn read_delimited(alloc: Global, text: &[u8]) -> Result<DisText, ExprFault>
    ensures { Reads result (delimited_of text.now) }
{
    match text {
        [delimiter, rest @ ..] if may_enclose(*delimiter) => read_up_to(alloc, rest, *delimiter),
        _ => Err(ExprFault::Unreadable),
    }
}

/// The characters before the next delimiter.
fn read_up_to(alloc: Global, text: &[u8], delimiter: u8) -> Result<DisText, ExprFault>
    ensures { Reads result (delimited_at text.now (position (closes delimiter) text.now)) }
{
    let Some(at) = delimiter_at(text, delimiter) else {
        return Err(ExprFault::Unreadable);
    };
    let characters = read_displayed(alloc, &text[..at])?;
    Ok(DisText::Delimited(characters))
}

fn delimiter_at(text: &[u8], delimiter: u8) -> Option<usize>
    ensures place { result ≡ position (closes delimiter) text.now }
    ensures within { IfSome result (λ at. at < length text.now) }
{
    text.iter()
        .position(|byte| capital(*byte) == capital(delimiter))
}

fn may_enclose(byte: u8) -> bool
    ensures { result ≡ may_enclose byte }
{
    has_display(byte) && byte != b' '
}

/// A text whose characters all have a display code.
fn read_displayed(alloc: Global, text: &[u8]) -> Result<Sequence<u8>, ExprFault>
    ensures { Reads result (displayed text.now) }
{
    if !all_have_display(text) {
        return Err(ExprFault::Unreadable);
    }
    match text.to_vec(alloc) {
        Ok(characters) => Ok(Sequence::new(characters)),
        Err(_) => Err(ExprFault::Memory),
    }
}

fn all_have_display(text: &[u8]) -> bool
    ensures { result ≡ list_all has_display text.now }
{
    text.iter().all(|byte| has_display(*byte))
}

fn has_display(byte: u8) -> bool
    ensures { result ≡ has_display byte }
{
    display(byte).is_some()
}

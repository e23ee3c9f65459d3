//! The arguments of a macro's call.
ghost use Rattle.std.specs.Prelude.{◌≡◌, ◌∷◌, ◌↔◌, ℕ, List, map, IfOk, IsErrOf, IsTrue};
ghost use Rattle.cps_text.specs.Arguments.{argument_len, has_unclosed, arguments_of};
ghost use Rattle.cps_text.specs.Parts.{parts_from, parts_of};
ghost use Rattle.cps_text.specs.Code.PartsLeft.{parts_left};

use crate::argument::{argument_len, is_unclosed, without_pair};
use crate::part::{begins_blank, behind_comma};
use std::alloc::{AllocError, Global};
use thiserror::Error;

/// Why a tail has no arguments.
#[derive(Clone, Copy, Debug, PartialEq, Eq, Error)]
pub enum ArgFault {
    /// A parenthesis stays open.
    #[error("unclosed parenthesis")]
    Unclosed,
    /// Each parenthesis is closed, and there was no memory for the arguments.
    #[error("no memory")]
    Memory,
}

/// The parts of a tail between its commas outside parentheses and before its first blank outside them. One that is one pair of parentheses loses it.
pub fn arguments(alloc: Global, tail: &[u8]) -> Result<Vec<&[u8]>, ArgFault>
    ensures ok { IfOk result (λ list. map (λ argument. argument.now) list.items ≡ arguments_of tail.now) }
    ensures unclosed { IsErrOf result ArgFault.Unclosed ↔ IsTrue (has_unclosed tail.now) }
{
    if has_unclosed(tail) {
        return Err(ArgFault::Unclosed);
    }
    match collect_arguments(alloc, tail) {
        Ok(list) => Ok(list),
        Err(_) => Err(ArgFault::Memory),
    }
}

fn has_unclosed(tail: &[u8]) -> bool
    ensures { result ≡ has_unclosed tail.now }
{
    let mut left = begun(tail);
    while let Some(text) = left {
        let (argument, behind) = cut_argument(text);
        if is_unclosed(argument) {
            return true;
        }
        left = behind;
    }
    false
}

fn collect_arguments(alloc: Global, tail: &[u8]) -> Result<Vec<&[u8]>, AllocError>
    ensures { IfOk result (λ list. map (λ argument. argument.now) list.items ≡ arguments_of tail.now) }
{
    let mut list = Vec::new(alloc);
    let mut left = begun(tail);
    while let Some(text) = left {
        let (argument, behind) = cut_argument(text);
        list.push(without_pair(argument))?;
        left = behind;
    }
    Ok(list)
}

/// The tail, if it has a part.
fn begun(tail: &[u8]) -> Option<&[u8]>
    ensures { (len : List ℕ → ℕ) → parts_left len result ≡ parts_of len tail.now }
{
    if begins_blank(tail) { None } else { Some(tail) }
}

/// The first argument of a text that begins one, and the text that begins the next one.
fn cut_argument(text: &[u8]) -> (&[u8], Option<&[u8]>)
    ensures { parts_from argument_len text.now ≡ result.0.now ∷ parts_left argument_len result.1 }
{
    let (argument, behind) = text.split_at(argument_len(text));
    (argument, behind_comma(behind))
}

//! Reading terms.
ghost use Rattle.std.specs.Prelude.{◌≡◌, ◌↔◌, ℕ, ◌<◌, ◌≤◌, ◌++◌, ◌∷◌, [], Bool, true, false, Some, None, MatchOption, IfSome, IsSomeAnd, IfOk, IsErrOf, IsSome, length, take, drop, slice_index};
ghost use Rattle.cps_expr.specs.OperandList.{with_first};
ghost use Rattle.cps_expr.specs.Term.{is_operator, is_star, tokens_of, element_of, operator_of, factor_of, factors_of, term_with, term_of};

use crate::expr::ExprFault;
use crate::number::read_number;
use crate::radix::Radix;
use crate::short_list::push_one;
use crate::term::{Element, Factor, Operator, Term};
use crate::value::GREATEST_PLAIN;
use cps_text::Name;
use std::alloc::Global;

/// The term that a text without signs writes.
pub fn read_term(
    alloc: Global,
    is_minus: bool,
    text: &[u8],
    radix: Radix,
) -> Result<Term, ExprFault>
    ensures term { IfOk result (λ term. term_of radix is_minus text.now ≡ Some term) }
    ensures unreadable { IsErrOf result ExprFault.Unreadable ↔ (term_of radix is_minus text.now ≡ None) }
    ensures memory { IsErrOf result ExprFault.Memory → IsSome (term_of radix is_minus text.now) }
{
    match first_element(text, radix) {
        None => Err(ExprFault::Unreadable),
        Some((first, rest)) => {
            let factors = read_factors(alloc, rest, radix)?;
            Ok(Term::new(is_minus, first, factors))
        }
    }
}

/// The element that a term begins with, and what follows.
fn first_element(text: &[u8], radix: Radix) -> Option<(Element, &[u8])>
    ensures { MatchOption result
        ((is_minus : Bool) → term_of radix is_minus text.now ≡ None)
        (λ parts. (is_minus : Bool) → term_of radix is_minus text.now ≡ term_with is_minus (Some parts.0) (factors_of radix (tokens_of parts.1.now))) }
{
    let (element, rest) = first_token(text)?;
    let element = read_element(element, radix)?;
    Some((element, rest))
}

/// The factors that the rest of a term writes, to its end also where memory is refused.
fn read_factors(alloc: Global, text: &[u8], radix: Radix) -> Result<Vec<Factor>, ExprFault>
    ensures factors { IfOk result (λ factors. factors_of radix (tokens_of text.now) ≡ Some factors.items) }
    ensures unreadable { IsErrOf result ExprFault.Unreadable ↔ (factors_of radix (tokens_of text.now) ≡ None) }
    ensures memory { IsErrOf result ExprFault.Memory → IsSome (factors_of radix (tokens_of text.now)) }
{
    let mut factors = Some(Vec::new(alloc));
    let mut rest = text;
    while !rest.is_empty() {
        match first_factor(rest, radix) {
            None => return Err(ExprFault::Unreadable),
            Some((factor, behind)) => {
                push_factor(&mut factors, factor);
                rest = behind;
            }
        }
    }
    factors.ok_or(ExprFault::Memory)
}

/// Adds a factor at the end, or gives the factors up where memory is refused.
fn push_factor(factors: &mut Option<Vec<Factor>>, factor: Factor)
    ensures { IfSome factors.new (λ after. IsSomeAnd factors.old (λ before. after.items ≡ before.items ++ factor ∷ [])) }
{
    if let Some(kept) = factors {
        if push_one(kept, factor).is_ok() {
            return;
        }
    }
    *factors = None;
}

/// The factor that a text begins with, and what follows.
fn first_factor(text: &[u8], radix: Radix) -> Option<(Factor, &[u8])>
    requires { 0 < length text.now }
    ensures { MatchOption result
        (factors_of radix (tokens_of text.now) ≡ None)
        (λ parts. (factors_of radix (tokens_of text.now) ≡ with_first (Some parts.0) (factors_of radix (tokens_of parts.1.now))) × (length parts.1.now < length text.now)) }
{
    let (operator, behind) = first_token(text)?;
    let (element, rest) = first_token(behind)?;
    let factor = read_factor(operator, element, radix)?;
    Some((factor, rest))
}

fn read_factor(operator: &[u8], element: &[u8], radix: Radix) -> Option<Factor>
    ensures { result ≡ factor_of radix operator.now element.now }
{
    let operator = read_operator(operator)?;
    let element = read_element(element, radix)?;
    Some(Factor { operator, element })
}

fn read_operator(text: &[u8]) -> Option<Operator>
    ensures { result ≡ operator_of text.now }
{
    match text {
        [b'*'] => Some(Operator::Times),
        [b'/'] => Some(Operator::Over),
        _ => None,
    }
}

#[inline(always)]
pub(crate) fn read_element(text: &[u8], radix: Radix) -> Option<Element>
    ensures { result ≡ element_of radix text.now }
{
    if is_star(text) {
        return Some(Element::Counter);
    }
    match read_number(text, radix, GREATEST_PLAIN) {
        Some(number) => Some(Element::Number(number)),
        None => match Name::read(text) {
            Some(name) => Some(Element::Symbol(name)),
            None => None,
        },
    }
}

fn is_star(text: &[u8]) -> bool
    ensures { result ≡ is_star text.now }
{
    matches!(text, [b'*'])
}

/// The token that a text begins with, and what follows.
fn first_token(text: &[u8]) -> Option<(&[u8], &[u8])>
    ensures { MatchOption result
        (text.now ≡ [])
        (λ parts. (tokens_of text.now ≡ parts.0.now ∷ tokens_of parts.1.now) × (length parts.1.now < length text.now)) }
{
    if text.is_empty() {
        return None;
    }
    Some(text.split_at(token_len(text)))
}

fn token_len(text: &[u8]) -> usize
    requires { 0 < length text.now }
    ensures tokens { tokens_of text.now ≡ take result text.now ∷ tokens_of (drop result text.now) }
    ensures some { 0 < result }
    ensures within { result ≤ length text.now }
{
    if is_operator(text[0]) {
        1
    } else {
        operator_at(text)
    }
}

/// Where the first operator stands, or the length.
fn operator_at(text: &[u8]) -> usize
    ensures within { result ≤ length text.now }
    ensures before { (k : ℕ) → k < result → is_operator (slice_index text.now k) ≡ false }
    ensures found { result < length text.now → is_operator (slice_index text.now result) ≡ true }
{
    for (i, byte) in text.iter().enumerate() {
        if is_operator(*byte) {
            return i;
        }
    }
    text.len()
}

fn is_operator(byte: u8) -> bool
    ensures { result ≡ is_operator byte }
{
    byte == b'*' || byte == b'/'
}

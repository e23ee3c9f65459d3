//! Terms of an expression.
ghost use Rattle.std.specs.Prelude.{◌≡◌, [], ◌++◌, ◌∷◌, ◌||◌, map, filter_map, take, length, pos, option_to_list, is_none, unwrap_or, fold, IfSome, OnOk, OnErr};
ghost use Rattle.std.specs.List.{list_any};
ghost use Rattle.cps_expr.specs.Expression.{names_of, has_counter};
ghost use Rattle.cps_expr.specs.Term.{name_in, is_counter, term_names, term_has_counter};
ghost use Rattle.cps_expr.specs.Code.TermsKept.{element_term};
ghost use Rattle.cps_expr.specs.Value.{IsInRange, element_value, multiplied, added, both, term_value, value_in, has_undefined, limited, plain};
ghost use Rattle.cps_expr.specs.Code.ValuedSoFar.{is_undefined, term_has_undefined};
ghost use Rattle.cps_expr.specs.Constant.{IsConstant};

use crate::expr::Valued;
use crate::names::Names;
use crate::short_list::push_one;
use crate::value::{GREATEST_PLAIN, Value, added, limited, multiplied};
use cps_text::Name;
use std::alloc::{AllocError, Global};
use std::marker::Model;
use std::slice::from_ref;

/// An element of an expression: a number of at most `2^59 - 1`, a symbol, or `*`, the location counter.
#[derive(Clone, Copy, PartialEq, Eq)]
pub enum Element {
    Number(u64),
    Symbol(Name),
    Counter,
}

/// `*` or `/`
#[derive(Clone, Copy, PartialEq, Eq)]
pub enum Operator {
    Times,
    Over,
}

/// An element with the operator before it.
#[derive(Clone, Copy, PartialEq, Eq)]
pub struct Factor {
    pub operator: Operator,
    pub element: Element,
}

/// A term of an expression: its sign, its first element, and the factors behind it.
#[derive(Drop)]
pub struct Term {
    is_minus: bool,
    first: Element,
    factors: Vec<Factor>,
}

impl Model for Term {
    ghost use Rattle.cps_expr.specs.Term.{Term};

    ghost Value = { Term };

    ghost view = { λ term. record { is_minus = term.is_minus; first = term.first; factors = term.factors.items } };
}

/// An element with its sign: a term that has no factors.
#[derive(Clone, Copy)]
pub(crate) struct Signed {
    is_minus: bool,
    element: Element,
}

impl Signed {
    pub(crate) fn new(is_minus: bool, element: Element) -> Signed
        ensures { result ≡ record { is_minus = is_minus; element = element } }
    {
        Signed { is_minus, element }
    }

    pub(crate) fn as_term(self, alloc: Global) -> Term
        ensures { result ≡ element_term self }
    {
        Term::new(self.is_minus, self.element, Vec::new(alloc))
    }

    /// The name that stands in it, if there is one.
    pub(crate) fn names(&self) -> &[Name]
        ensures { result.now ≡ names_of (element_term self.now ∷ []) }
    {
        match &self.element {
            Element::Symbol(name) => from_ref(name),
            Element::Number(_) | Element::Counter => &[],
        }
    }

    /// Whether it is `*`.
    pub(crate) fn is_counter(&self) -> bool
        ensures { result ≡ has_counter (element_term self.now ∷ []) }
    {
        is_counter(self.element)
    }

    /// The value of a number that is added.
    pub(crate) fn constant(&self) -> Option<Value>
        ensures { IfSome result (IsConstant (element_term self.now ∷ [])) }
    {
        match (self.is_minus, self.element) {
            (false, Element::Number(number)) => number_value(number),
            _ => None,
        }
    }

    /// What it gives under some names, where `*` stands for `here`.
    pub(crate) fn value<N: Names>(&self, names: &N, here: Value) -> Valued
        ensures value { result.value ≡ value_in (N.value names.now) here (element_term self.now ∷ []) }
        ensures undefined { result.undefined ≡ has_undefined (N.value names.now) (element_term self.now ∷ []) }
        ensures range { IfSome result.value IsInRange }
    {
        let element = element_value(self.element, names, here);
        if !self.is_minus {
            return element;
        }
        Valued {
            value: both_added(true, Some(Value::plain(0)), element.value),
            undefined: element.undefined,
        }
    }
}

impl Term {
    pub(crate) fn new(is_minus: bool, first: Element, factors: Vec<Factor>) -> Term
        ensures { result ≡ record { is_minus = is_minus; first = first; factors = factors.items } }
    {
        Term {
            is_minus,
            first,
            factors,
        }
    }

    /// The element that it is, if it has no factors.
    pub(crate) fn as_element(&self) -> Option<Signed>
        ensures { IfSome result (λ signed. element_term signed ≡ self.now) }
    {
        if !self.factors.is_empty() {
            return None;
        }
        Some(Signed {
            is_minus: self.is_minus,
            element: self.first,
        })
    }

    /// Adds the names that stand in it, in their order; after a refusal the list is unchanged.
    pub(crate) fn push_names(&self, names: &mut Vec<Name>) -> Result<(), AllocError>
        ensures ok { OnOk result (names.new.items ≡ names.old.items ++ term_names self.now) }
        ensures err { OnErr result (names.new.items ≡ names.old.items) }
    {
        let before = names.len();
        if let Err(refused) = push_all_names(names, self.first, &self.factors) {
            names.truncate(before);
            return Err(refused);
        }
        Ok(())
    }

    /// Whether `*` stands in it as an element.
    pub(crate) fn has_counter(&self) -> bool
        ensures { result ≡ term_has_counter self.now }
    {
        is_counter(self.first) || any_counter(&self.factors)
    }

    /// A value with the term added or subtracted, where `*` stands for `here`.
    pub(crate) fn added_to<N: Names>(&self, so_far: Valued, names: &N, here: Value) -> Valued
        ensures value { result.value ≡ both (added self.now.is_minus) so_far.value (term_value (N.value names.now) here self.now) }
        ensures undefined { result.undefined ≡ (so_far.undefined || term_has_undefined (N.value names.now) self.now) }
        ensures range { IfSome result.value IsInRange }
    {
        let first = element_value(self.first, names, here);
        let term = with_factors(first, &self.factors, names, here);
        Valued {
            value: both_added(self.is_minus, so_far.value, term.value),
            undefined: so_far.undefined || term.undefined,
        }
    }
}

/// Adds the names of elements, in their order; after a refusal those in front stay.
fn push_all_names(
    names: &mut Vec<Name>,
    first: Element,
    factors: &[Factor],
) -> Result<(), AllocError>
    ensures ok { OnOk result (names.new.items ≡ names.old.items ++ filter_map name_in (first ∷ map (λ factor. factor.element) factors.now)) }
    ensures front { take (length names.old.items) names.new.items ≡ names.old.items }
{
    push_name(names, first)?;
    for factor in factors {
        push_name(names, factor.element)?;
    }
    Ok(())
}

/// Adds the name of an element, if it is one.
fn push_name(names: &mut Vec<Name>, element: Element) -> Result<(), AllocError>
    ensures ok { OnOk result (names.new.items ≡ names.old.items ++ option_to_list (name_in element)) }
    ensures err { OnErr result (names.new.items ≡ names.old.items) }
{
    match element {
        Element::Symbol(name) => push_one(names, name),
        Element::Number(_) | Element::Counter => Ok(()),
    }
}

fn is_counter(element: Element) -> bool
    ensures { result ≡ is_counter element }
{
    matches!(element, Element::Counter)
}

fn any_counter(factors: &[Factor]) -> bool
    ensures { result ≡ list_any is_counter (map (λ factor. factor.element) factors.now) }
{
    for factor in factors {
        if is_counter(factor.element) {
            return true;
        }
    }
    false
}

/// What an element stands for; an undefined name counts as plain 0.
#[inline(always)]
fn element_value<N: Names>(element: Element, names: &N, here: Value) -> Valued
    ensures value { result.value ≡ element_value (N.value names.now) here element }
    ensures undefined { result.undefined ≡ is_undefined (N.value names.now) element }
    ensures range { IfSome result.value IsInRange }
{
    match element {
        Element::Number(number) => Valued {
            value: number_value(number),
            undefined: false,
        },
        Element::Symbol(name) => named_value(names.value_of(name)),
        Element::Counter => Valued {
            value: limited(here),
            undefined: false,
        },
    }
}

fn named_value(found: Option<Value>) -> Valued
    ensures value { result.value ≡ limited (unwrap_or found (plain (pos 0))) }
    ensures undefined { result.undefined ≡ is_none found }
    ensures range { IfSome result.value IsInRange }
{
    Valued {
        value: limited(found.unwrap_or(Value::plain(0))),
        undefined: found.is_none(),
    }
}

fn number_value(number: u64) -> Option<Value>
    ensures value { result ≡ limited (plain (pos number)) }
    ensures range { IfSome result IsInRange }
{
    if number > GREATEST_PLAIN {
        return None;
    }
    limited(Value::plain(number as i64))
}

/// A value multiplied and divided by factors, from left to right.
fn with_factors<N: Names>(first: Valued, factors: &[Factor], names: &N, here: Value) -> Valued
    ensures value { result.value ≡ fold (λ so_far factor. both (multiplied factor.operator) so_far (element_value (N.value names.now) here factor.element)) first.value factors.now }
    ensures undefined { result.undefined ≡ (first.undefined || list_any (is_undefined (N.value names.now)) (map (λ factor. factor.element) factors.now)) }
{
    let mut so_far = first;
    for factor in factors {
        so_far = with_factor(so_far, *factor, names, here);
    }
    so_far
}

fn with_factor<N: Names>(so_far: Valued, factor: Factor, names: &N, here: Value) -> Valued
    ensures value { result.value ≡ both (multiplied factor.operator) so_far.value (element_value (N.value names.now) here factor.element) }
    ensures undefined { result.undefined ≡ (so_far.undefined || is_undefined (N.value names.now) factor.element) }
{
    let right = element_value(factor.element, names, here);
    Valued {
        value: both_multiplied(factor.operator, so_far.value, right.value),
        undefined: so_far.undefined || right.undefined,
    }
}

fn both_added(is_minus: bool, left: Option<Value>, right: Option<Value>) -> Option<Value>
    ensures value { result ≡ both (added is_minus) left right }
    ensures range { IfSome result IsInRange }
{
    added(is_minus, left?, right?)
}

fn both_multiplied(operator: Operator, left: Option<Value>, right: Option<Value>) -> Option<Value>
    ensures { result ≡ both (multiplied operator) left right }
{
    multiplied(operator, left?, right?)
}

//! Expressions.
ghost use Rattle.std.specs.Prelude.{◌≡◌, ◌↔◌, ◌++◌, [], ◌∷◌, false, is_some, Option, Some, None, IfOk, IfSome, IsErrOf, IsSome, OnOk, OnErr};
ghost use Rattle.cps_text.specs.declared.name.Name.{Name};
ghost use Rattle.cps_expr.specs.declared.value.Value.{Value};
ghost use Rattle.cps_expr.specs.Constant.{IsConstant};
ghost use Rattle.cps_expr.specs.Expression.{Expression, expression_of, names_of, has_counter, terms_of, signed_texts};
ghost use Rattle.cps_expr.specs.Grammar.{Writes};
ghost use Rattle.cps_expr.specs.Term.{term_of};
ghost use Rattle.cps_expr.specs.Code.TermsKept.{element_term};
ghost use Rattle.cps_expr.specs.Value.{value_in, has_undefined, AgreeOn, IsInRange};

use crate::names::Names;
use crate::radix::Radix;
use crate::signs::{first_term, leading_sign};
use crate::term::Signed;
use crate::term_text::{read_element, read_term};
use crate::terms::Terms;
use crate::value::Value;
use cps_text::Name;
use std::alloc::Global;
use std::marker::Model;
use thiserror::Error;

/// Why a text gives no expression.
#[derive(Clone, Copy, Debug, PartialEq, Eq, Error)]
pub enum ExprFault {
    /// The text is no expression.
    #[error("unreadable expression")]
    Unreadable,
    /// Memory was refused; nothing else is wrong.
    #[error("no memory")]
    Memory,
}

/// What an expression gives under some names.
#[derive(Clone, Copy, PartialEq, Eq)]
pub struct Valued {
    /// The value, an undefined name counted as plain 0. None where the expression has no value.
    pub value: Option<Value>,
    /// Whether some name has no value.
    pub undefined: bool,
}

/// An expression: terms of numbers, symbols and `*`.
#[derive(Drop)]
pub struct Expr {
    alloc: Global,
    terms: Terms,
}

impl Model for Expr {
    ghost use Rattle.cps_expr.specs.Expression.{Expression};
    ghost use Rattle.cps_expr.specs.Code.TermsKept.{terms_in};

    ghost Value = { Expression };

    ghost view = { λ expression. terms_in expression.terms };
}

impl Expr {
    /// The expression of no terms, to which terms are added. No text writes it; its value is plain 0.
    pub fn new(alloc: Global) -> Expr
        ensures { result ≡ [] }
    {
        Expr {
            alloc,
            terms: Terms::Empty,
        }
    }

    /// Adds the term that a text without signs writes, at the end; after a refusal the expression is unchanged.
    pub fn add_term(&mut self, is_minus: bool, text: &[u8], radix: Radix) -> Result<(), ExprFault>
        ensures ok { OnOk result (IfSome (term_of radix is_minus text.now) (λ term. self.new ≡ self.old ++ term ∷ [])) }
        ensures err { OnErr result (self.new ≡ self.old) }
        ensures unreadable { IsErrOf result ExprFault.Unreadable ↔ (term_of radix is_minus text.now ≡ None) }
        ensures memory { IsErrOf result ExprFault.Memory → IsSome (term_of radix is_minus text.now) }
    {
        if let Terms::Empty = self.terms {
            if let Some(element) = lone_element(is_minus, text, radix) {
                self.terms = Terms::One(element);
                return Ok(());
            }
        }
        let term = read_term(self.alloc, is_minus, text, radix)?;
        match self.terms.push(self.alloc, term) {
            Ok(()) => Ok(()),
            Err(_) => Err(ExprFault::Memory),
        }
    }

    /// Reads an expression; the first sign may be left out. Numbers with no letter go by the radix.
    #[inline(always)]
    #[tactic(auto, unfolding(crate::specs::Expression::expression_of))]
    pub fn read(alloc: Global, text: &[u8], radix: Radix) -> Result<Expr, ExprFault>
        ensures expression { IfOk result (λ expression. expression_of radix text.now ≡ Some expression) }
        ensures unreadable { IsErrOf result ExprFault.Unreadable ↔ (expression_of radix text.now ≡ None) }
        ensures memory { IsErrOf result ExprFault.Memory → IsSome (expression_of radix text.now) }
        ensures grammar { IfOk result (λ expression. Writes radix text.now expression) }
        ensures only { IfOk result (λ expression. (other : Expression) → Writes radix text.now other → other ≡ expression) }
        ensures outside { IsErrOf result ExprFault.Unreadable → (expression : Expression) → Writes radix text.now expression → ⊥ }
    {
        read_terms(alloc, text, radix)
    }

    /// The names that stand in it, in their order, one as often as it stands there.
    pub fn names(&self) -> &[Name]
        ensures { result.now ≡ names_of self.now }
    {
        self.terms.names()
    }

    /// Whether `*` stands in it as an element.
    pub fn has_counter(&self) -> bool
        ensures { result ≡ has_counter self.now }
    {
        self.terms.has_counter()
    }

    /// The value of a number that stands alone, which no name and no place changes. None also for other expressions that nothing changes.
    #[inline(always)]
    pub fn constant(&self) -> Option<Value>
        ensures { IfSome result (IsConstant self.now) }
    {
        self.terms.constant()
    }

    /// What it gives under some names, where `*` stands for `here`. Takes no memory.
    pub fn value<N: Names>(&self, names: &N, here: Value) -> Valued
        ensures value { result.value ≡ value_in (N.value names.now) here self.now }
        ensures undefined { result.undefined ≡ has_undefined (N.value names.now) self.now }
        ensures range { IfSome result.value IsInRange }
        ensures names_alone { (others : Name → Option Value) → AgreeOn others (N.value names.now) (names_of self.now)
            → (value_in others here self.now ≡ result.value) × (has_undefined others self.now ≡ result.undefined) }
    {
        self.terms.value(names, here)
    }
}

/// The element that a text without signs writes, if it writes one alone.
#[inline(always)]
fn lone_element(is_minus: bool, text: &[u8], radix: Radix) -> Option<Signed>
    ensures term { IfSome result (λ element. term_of radix is_minus text.now ≡ Some (element_term element)) }
    ensures expression { IfSome result (λ element. is_minus ≡ false → terms_of radix (signed_texts text.now) ≡ Some (element_term element ∷ [])) }
{
    match read_element(text, radix) {
        Some(element) => Some(Signed::new(is_minus, element)),
        None => None,
    }
}

/// Most texts write one element alone.
#[inline(always)]
fn read_terms(alloc: Global, text: &[u8], radix: Radix) -> Result<Expr, ExprFault>
    ensures expression { IfOk result (λ expression. terms_of radix (signed_texts text.now) ≡ Some expression) }
    ensures unreadable { IsErrOf result ExprFault.Unreadable ↔ (terms_of radix (signed_texts text.now) ≡ None) }
    ensures memory { IsErrOf result ExprFault.Memory → IsSome (terms_of radix (signed_texts text.now)) }
{
    match lone_element(false, text, radix) {
        Some(element) => Ok(Expr {
            alloc,
            terms: Terms::One(element),
        }),
        None => read_signed_terms(alloc, text, radix),
    }
}

/// Reads the terms one after another, to the last one also where memory is refused.
#[inline(never)]
fn read_signed_terms(alloc: Global, text: &[u8], radix: Radix) -> Result<Expr, ExprFault>
    ensures expression { IfOk result (λ expression. terms_of radix (signed_texts text.now) ≡ Some expression) }
    ensures unreadable { IsErrOf result ExprFault.Unreadable ↔ (terms_of radix (signed_texts text.now) ≡ None) }
    ensures memory { IsErrOf result ExprFault.Memory → IsSome (terms_of radix (signed_texts text.now)) }
{
    let mut expression = Expr::new(alloc);
    let mut is_refused = false;
    let (mut is_minus, mut rest) = leading_sign(text);
    'terms: loop {
        let (term, later) = first_term(rest);
        if !add_next(&mut expression, &mut is_refused, is_minus, term, radix) {
            return Err(ExprFault::Unreadable);
        }
        match later {
            None => return finished(expression, is_refused),
            Some((sign, behind)) => {
                is_minus = sign;
                rest = behind;
            }
        }
    }
}

/// Adds the next term of a text, or notes that memory was refused. False: it is unreadable.
fn add_next(
    expression: &mut Expr,
    is_refused: &mut bool,
    is_minus: bool,
    text: &[u8],
    radix: Radix,
) -> bool
    ensures readable { result ≡ is_some (term_of radix is_minus text.now) }
    ensures added { is_refused.new ≡ false → (is_refused.old ≡ false)
        × IfSome (term_of radix is_minus text.now) (λ term. expression.new ≡ expression.old ++ term ∷ []) }
{
    match expression.add_term(is_minus, text, radix) {
        Ok(()) => true,
        Err(ExprFault::Unreadable) => false,
        Err(ExprFault::Memory) => {
            *is_refused = true;
            true
        }
    }
}

fn finished(expression: Expr, is_refused: bool) -> Result<Expr, ExprFault>
    ensures expression { IfOk result (λ whole. (is_refused ≡ false) × (whole ≡ expression)) }
    ensures readable { IsErrOf result ExprFault.Unreadable → ⊥ }
{
    if is_refused {
        Err(ExprFault::Memory)
    } else {
        Ok(expression)
    }
}

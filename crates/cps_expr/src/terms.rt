//! The terms of an expression, as they are kept.
ghost use Rattle.std.specs.Prelude.{◌≡◌, ◌++◌, [], ◌∷◌, IfOk, IfSome, OnOk, OnErr};
ghost use Rattle.cps_expr.specs.Constant.{IsConstant};
ghost use Rattle.cps_expr.specs.Expression.{names_of, has_counter};
ghost use Rattle.cps_expr.specs.Code.TermsKept.{element_term, terms_in};
ghost use Rattle.cps_expr.specs.Value.{value_in, has_undefined, IsInRange};

use crate::expr::Valued;
use crate::names::Names;
use crate::short_list::make_room;
use crate::term::{Signed, Term};
use crate::value::Value;
use cps_text::Name;
use std::alloc::{AllocError, Global};
use std::marker::Model;

/// The terms of an expression. Most are one element alone, which is kept in place.
#[derive(Drop)]
pub(crate) enum Terms {
    Empty,
    One(Signed),
    Long(Box<TermList>),
}

impl Terms {
    /// Adds a term at the end; after a refusal the terms are unchanged.
    pub(crate) fn push(&mut self, alloc: Global, term: Term) -> Result<(), AllocError>
        ensures ok { OnOk result (terms_in self.new ≡ terms_in self.old ++ term ∷ []) }
        ensures err { OnErr result (terms_in self.new ≡ terms_in self.old) }
    {
        match self {
            Terms::Empty => {
                *self = first_kept(alloc, term)?;
                Ok(())
            }
            Terms::One(first) => {
                *self = two_kept(alloc, *first, term)?;
                Ok(())
            }
            Terms::Long(terms) => terms.push(term),
        }
    }

    /// The names that stand in them, in their order.
    pub(crate) fn names(&self) -> &[Name]
        ensures { result.now ≡ names_of (terms_in self.now) }
    {
        match self {
            Terms::Empty => &[],
            Terms::One(first) => first.names(),
            Terms::Long(terms) => terms.names(),
        }
    }

    /// Whether `*` stands in them as an element.
    pub(crate) fn has_counter(&self) -> bool
        ensures { result ≡ has_counter (terms_in self.now) }
    {
        match self {
            Terms::Empty => false,
            Terms::One(first) => first.is_counter(),
            Terms::Long(terms) => any_counter(&terms.terms),
        }
    }

    /// The value of a number alone.
    pub(crate) fn constant(&self) -> Option<Value>
        ensures { IfSome result (IsConstant (terms_in self.now)) }
    {
        match self {
            Terms::One(first) => first.constant(),
            Terms::Empty | Terms::Long(_) => None,
        }
    }

    /// What they give under some names, where `*` stands for `here`.
    pub(crate) fn value<N: Names>(&self, names: &N, here: Value) -> Valued
        ensures value { result.value ≡ value_in (N.value names.now) here (terms_in self.now) }
        ensures undefined { result.undefined ≡ has_undefined (N.value names.now) (terms_in self.now) }
        ensures range { IfSome result.value IsInRange }
    {
        match self {
            Terms::Empty => value_of_terms(&[], names, here),
            Terms::One(first) => first.value(names, here),
            Terms::Long(terms) => value_of_terms(&terms.terms, names, here),
        }
    }
}

/// The first term.
fn first_kept(alloc: Global, term: Term) -> Result<Terms, AllocError>
    ensures { IfOk result (λ terms. terms_in terms ≡ term ∷ []) }
{
    if let Some(element) = term.as_element() {
        return Ok(Terms::One(element));
    }
    let mut terms = TermList::with_room(alloc, 1)?;
    terms.push(term)?;
    Ok(Terms::Long(Box::new(alloc, terms)?))
}

/// An element, and a term behind it.
fn two_kept(alloc: Global, first: Signed, term: Term) -> Result<Terms, AllocError>
    ensures { IfOk result (λ terms. terms_in terms ≡ element_term first ∷ term ∷ []) }
{
    let mut terms = TermList::with_room(alloc, 2)?;
    terms.push(first.as_term(alloc))?;
    terms.push(term)?;
    Ok(Terms::Long(Box::new(alloc, terms)?))
}

/// Terms in a list, and the names that stand in them.
#[derive(Drop)]
pub(crate) struct TermList {
    terms: Vec<Term>,
    names: Vec<Name>,
}

impl Model for TermList {
    ghost use Rattle.std.specs.Prelude.{◌≡◌};
    ghost use Rattle.cps_expr.specs.Expression.{Expression, names_of};

    ghost Value = { Expression };

    ghost view = { λ list. list.terms.items };

    ghost invariant = { λ list. list.names.items ≡ names_of list.terms.items };
}

impl TermList {
    /// Without terms, with room for so many.
    fn with_room(alloc: Global, count: usize) -> Result<TermList, AllocError>
        ensures { IfOk result (λ list. list ≡ []) }
    {
        let terms = Vec::with_capacity(alloc, count)?;
        Ok(TermList {
            terms,
            names: Vec::new(alloc),
        })
    }

    /// Adds a term at the end; after a refusal the list is unchanged.
    fn push(&mut self, term: Term) -> Result<(), AllocError>
        ensures ok { OnOk result (self.new ≡ self.old ++ term ∷ []) }
        ensures err { OnErr result (self.new ≡ self.old) }
    {
        make_room(&mut self.terms)?;
        term.push_names(&mut self.names)?;
        self.terms.push_reserved(term);
        Ok(())
    }

    /// The names that stand in the terms, in their order.
    fn names(&self) -> &[Name]
        ensures { result.now ≡ names_of self.now }
    {
        self.names.as_slice()
    }
}

fn any_counter(terms: &[Term]) -> bool
    ensures { result ≡ has_counter terms.now }
{
    terms.iter().any(|term| term.has_counter())
}

/// The terms added and subtracted from left to right, each name asked for once.
#[inline(never)]
fn value_of_terms<N: Names>(terms: &[Term], names: &N, here: Value) -> Valued
    ensures value { result.value ≡ value_in (N.value names.now) here terms.now }
    ensures undefined { result.undefined ≡ has_undefined (N.value names.now) terms.now }
    ensures range { IfSome result.value IsInRange }
{
    let mut so_far = Valued {
        value: Some(Value::plain(0)),
        undefined: false,
    };
    for term in terms {
        so_far = term.added_to(so_far, names, here);
    }
    so_far
}

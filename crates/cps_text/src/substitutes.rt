//! What stands for the names of a macro's body in a call: arguments, and generated names. Many are found by an index.
ghost use Rattle.std.specs.Prelude.{◌≡◌, ◌++◌, ◌∷◌, [], IfOk, OnOk, OnErr, option_map};
ghost use Rattle.cps_text.specs.Insertion.{Pairs, pairs_value, text_of};
ghost use Rattle.cps_text.specs.Code.Substitutes.{substitute_value, substitutes_value, Indexes};

use crate::insertion::Substitution;
use crate::name::Name;
use crate::name_number::NameNumber;
use std::alloc::{AllocError, Global};
use std::collections::BTreeMap;
use std::marker::Model;

/// So many names are looked through; more have an index.
const FEW: usize = 16;

/// A text that stands for a name: an argument of the call, or a generated name.
#[derive(Clone, Copy)]
pub enum Substitute<'a> {
    Argument(&'a [u8]),
    Generated(Name),
}

impl<'a> Substitute<'a> {
    /// Its text.
    fn text(&self) -> &[u8]
        ensures { result.now ≡ substitute_value self.now }
    {
        match self {
            Substitute::Argument(text) => *text,
            Substitute::Generated(name) => name.text(),
        }
    }
}

/// By the number of a name what stands for it.
type Index<'a> = BTreeMap<NameNumber, Substitute<'a>>;

/// Names, each with what stands for it. The first pair of a name counts.
#[derive(Drop)]
pub struct Substitutes<'a> {
    alloc: Global,
    pairs: Vec<(Name, Substitute<'a>)>,
    /// None: there are few.
    index: Option<Index<'a>>,
}

impl<'a> Model for Substitutes<'a> {
    ghost use Rattle.std.specs.Prelude.{IfSome};
    ghost use Rattle.cps_text.specs.Insertion.{Pairs};
    ghost use Rattle.cps_text.specs.Code.Substitutes.{substitutes_value, Indexes};

    ghost Value = { Pairs };

    ghost view = { λ known. substitutes_value known.pairs.items };

    ghost invariant = { λ known. IfSome known.index (Indexes (substitutes_value known.pairs.items)) };
}

impl<'a> Substitution for Substitutes<'a> {
    ghost pairs = { λ known. known };

    fn text_of(&self, name: Name) -> Option<&[u8]> {
        match &self.index {
            Some(index) => text_in(index, name),
            None => text_among(&self.pairs, name),
        }
    }
}

impl<'a> Substitutes<'a> {
    /// Names with arguments.
    pub fn of(alloc: Global, arguments: &[(Name, &'a [u8])]) -> Result<Substitutes<'a>, AllocError>
        ensures { IfOk result (λ known. known ≡ pairs_value arguments.now) }
    {
        let mut known = Substitutes {
            alloc,
            pairs: Vec::new(alloc),
            index: None,
        };
        for pair in arguments {
            known.push(pair.0, Substitute::Argument(pair.1))?;
        }
        Ok(known)
    }

    /// One more name.
    pub fn push(&mut self, name: Name, text: Substitute<'a>) -> Result<(), AllocError>
        ensures { OnOk result (self.new ≡ self.old ++ (name, substitute_value text.entry) ∷ []) }
    {
        if let Some(index) = &mut self.index {
            self.pairs.reserve(1)?;
            let pair = (name, text);
            enter(index, &pair)?;
            self.pairs.push_reserved(pair);
            return Ok(());
        }
        self.pairs.push((name, text))?;
        if self.pairs.len() > FEW {
            self.index = Some(index_of(self.alloc, &self.pairs)?);
        }
        Ok(())
    }
}

/// An index of all pairs.
fn index_of<'a>(alloc: Global, pairs: &[(Name, Substitute<'a>)]) -> Result<Index<'a>, AllocError>
    ensures { IfOk result (Indexes (substitutes_value pairs.now)) }
{
    let mut index = BTreeMap::new(alloc);
    for pair in pairs {
        enter(&mut index, pair)?;
    }
    Ok(index)
}

/// One more pair; one whose name an index has already isn't looked for.
fn enter<'a>(index: &mut Index<'a>, pair: &(Name, Substitute<'a>)) -> Result<(), AllocError>
    ensures ok { OnOk result ((pairs : Pairs) → Indexes pairs index.old → Indexes (pairs ++ (pair.now.0, substitute_value pair.now.1) ∷ []) index.new) }
    ensures err { OnErr result ((pairs : Pairs) → Indexes pairs index.old → Indexes pairs index.new) }
{
    index.entry(NameNumber::of(pair.0))?.or_insert(pair.1);
    Ok(())
}

/// What an index has for a name.
fn text_in<'s>(index: &'s Index<'_>, name: Name) -> Option<&'s [u8]>
    ensures { (pairs : Pairs) → Indexes pairs index.now → option_map (λ text. text.now) result ≡ text_of pairs name }
{
    match index.get(&NameNumber::of(name)) {
        Some(text) => Some(text.text()),
        None => None,
    }
}

/// The text of the first pair of a name.
fn text_among<'s>(pairs: &'s [(Name, Substitute<'_>)], name: Name) -> Option<&'s [u8]>
    ensures { option_map (λ text. text.now) result ≡ text_of (substitutes_value pairs.now) name }
{
    for (other, text) in pairs {
        if *other == name {
            return Some(text.text());
        }
    }
    None
}

//! Names as numbers, by which maps find them.
ghost use Rattle.std.specs.Prelude.{◌≡◌, ◌==◌, Some, refl};
ghost use Rattle.std.specs.Ordering.{nat_cmp};
ghost use Rattle.std.specs.Cmp.{on_total, on_po, nat_cmp_total, unsigned_po, unsigned_ties};
ghost use Rattle.std.specs.Cmp.Rules.{comparing};
ghost use Rattle.std.proofs.Common.{rules};
ghost use Rattle.cps_text.specs.Code.NameNumbers.{number_of, HasEightBytes};

use crate::name::Name;
use std::cmp::Ordering;

/// The number that the bytes of a name write. Two names are one where their numbers are.
#[derive(Clone, Copy, Debug, Eq)]
pub(crate) struct NameNumber {
    number: u64,
}

impl NameNumber {
    /// The number of a name.
    pub(crate) fn of(name: Name) -> NameNumber
        ensures number { result ≡ number_of name }
        ensures bytes { HasEightBytes name }
    {
        NameNumber {
            number: name.number(),
        }
    }
}

impl PartialEq for NameNumber {
    ghost eq = { λ a b. a.number == b.number };

    ghost laws = { Prim.search (comparing, rules) };

    fn eq(&self, other: &NameNumber) -> bool {
        self.number == other.number
    }
}

impl PartialOrd for NameNumber {
    ghost partial_cmp = { λ a b. Some (nat_cmp a.number b.number) };

    ghost laws = { on_po (λ key. key.number) unsigned_po };

    fn partial_cmp(&self, other: &NameNumber) -> Option<Ordering> {
        Some(self.cmp(other))
    }
}

impl Ord for NameNumber {
    ghost cmp = { λ a b. nat_cmp a.number b.number };

    ghost total = { on_total (λ key. key.number) nat_cmp_total };

    ghost matches_partial_cmp = { λ a b. refl };

    ghost matches_eq = { λ a b. unsigned_ties a.number b.number };

    fn cmp(&self, other: &NameNumber) -> Ordering {
        order_of_numbers(self.number, other.number)
    }
}

/// How two numbers are ordered. Whether the first is greater is asked first: it is so at most keys that a search passes.
#[inline(always)]
pub(crate) fn order_of_numbers(left: u64, right: u64) -> Ordering
    ensures { result ≡ nat_cmp left right }
{
    if left > right {
        Ordering::Greater
    } else if left == right {
        Ordering::Equal
    } else {
        Ordering::Less
    }
}

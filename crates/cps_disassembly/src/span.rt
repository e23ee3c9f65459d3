//! Addresses outside of which nothing stands.
ghost use Rattle.std.specs.Prelude.{◌≤◌};

use cps_claims::ClaimedWords;
use cps_compare::DeckWords;
use cps_expr::Machine;

/// The addresses from one up to another, which isn't included.
#[derive(Clone, Copy)]
pub struct Span {
    pub first: u32,
    pub end: u32,
}

impl Span {
    ghost use Rattle.std.specs.Prelude.{ℕ, List, ◌≡◌, ◌<◌, ◌≤◌, ◌+◌, Bool, is_some};
    ghost use Rattle.cps_code.specs.Image.{Piece, ArePacked};
    ghost use Rattle.cps_claims.specs.Claims.{Claimed};
    ghost use Rattle.cps_claims.specs.Counts.{is_given};
    ghost use Rattle.cps_claims.specs.Code.Held.{Holds};
    ghost use Rattle.cps_compare.specs.Differences.{word_of};
    ghost use Rattle.cps_disassembly.specs.Code.Kept.{IsNoneOutside};

    /// From the first word that is claimed to the last.
    pub fn of_claims(claims: &ClaimedWords) -> Span
        ensures outside { (given : List Claimed) → Holds claims.now given → IsNoneOutside result (is_given given) }
        ensures rising { result.first ≤ result.end }
        ensures few { result.end ≤ 262144 }
    {
        match (claims.first(), claims.last()) {
            (Some(first), Some(last)) => Span::between(first, last),
            _ => Span { first: 0, end: 0 },
        }
    }

    /// From the first word of a source to the last.
    pub fn of_deck(deck: &DeckWords, machine: Machine) -> Span
        ensures outside { (pieces : List Piece) → ArePacked pieces deck.now.words
            → IsNoneOutside result (λ address. is_some (word_of machine pieces address)) }
        ensures rising { result.first ≤ result.end }
        ensures few { result.end ≤ 262144 }
    {
        match (deck.first(machine), deck.last(machine)) {
            (Some(first), Some(last)) => Span::between(first, last),
            _ => Span { first: 0, end: 0 },
        }
    }

    /// From one address to another, both counted.
    fn between(first: u32, last: u32) -> Span
        requires { last < 262144 }
        ensures first { result.first ≤ first }
        ensures end { result.end ≡ last + 1 }
        ensures rising { result.first ≤ result.end }
    {
        let end = last + 1;
        Span {
            first: lower(first, end),
            end,
        }
    }

    /// What has both.
    pub fn joined(self, other: Span) -> Span
        requires { other.first ≤ other.end }
        ensures outside { (test : ℕ → Bool) → IsNoneOutside self test → IsNoneOutside result test }
        ensures outside_other { (test : ℕ → Bool) → IsNoneOutside other test → IsNoneOutside result test }
        ensures rising { result.first ≤ result.end }
        ensures few { self.end ≤ 262144 → other.end ≤ 262144 → result.end ≤ 262144 }
    {
        Span {
            first: lower(self.first, other.first),
            end: higher(self.end, other.end),
        }
    }
}

fn lower(one: u32, other: u32) -> u32
    ensures one { result ≤ one }
    ensures other { result ≤ other }
{
    if one < other { one } else { other }
}

fn higher(one: u32, other: u32) -> u32
    ensures one { one ≤ result }
    ensures other { other ≤ result }
    ensures least { one ≤ 262144 → other ≤ 262144 → result ≤ 262144 }
{
    if one < other { other } else { one }
}

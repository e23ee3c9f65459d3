//! Symbols of the language.
ghost use Rattle.std.specs.Prelude.{◌≡◌, ◌==◌, ◌≤◌, ◌<◌, length, IfSome, Some, refl, codes};
ghost use Rattle.std.specs.List.{list_all, position};
ghost use Rattle.std.specs.Int.{w64, from_le_bytes};
ghost use Rattle.std.specs.Hash as fed;
ghost use Rattle.std.specs.Ordering.{nat_cmp};
ghost use Rattle.std.specs.Cmp.{on_total, on_po};
ghost use Rattle.std.specs.Cmp.Lexicographic.{pointwise, slice_cmp, nat_list_cmp_total, texts_po, texts_ties};
ghost use Rattle.std.specs.Cmp.Rules.{comparing, hashing};
ghost use Rattle.std.proofs.Common.{rules};
ghost use Rattle.cps_text.specs.Name.{digit_at, is_one};
ghost use Rattle.cps_text.specs.Symbol.{begins_symbol, continues_symbol, is_register, is_symbol, is_generated, padded, is_padding};
ghost use Rattle.cps_text.specs.Code.NameFronts.{begins_name};
ghost use Rattle.cps_text.specs.Text.{among, capitals, is_digit};

use crate::character::capital;
use crate::name_number::order_of_numbers;
use std::cmp::Ordering;
use std::hash::{Hash, Hasher};

/// The most characters of a symbol.
const LONGEST: usize = 8;

/// The digits of a generated name.
const GENERATED_DIGITS: usize = 7;

/// A symbol in capitals, of 1 to 8 characters, or a generated name. Names are ordered by their characters.
#[derive(Clone, Copy, Debug, Eq)]
pub struct Name {
    bytes: [u8; LONGEST],
}

/// Two names are one if their bytes write one number.
impl PartialEq for Name {
    ghost eq = { λ a b. pointwise ◌==◌ a.bytes b.bytes };

    ghost laws = { Prim.search (comparing, rules) };

    fn eq(&self, other: &Name) -> bool {
        is_one(*self, *other)
    }
}

/// Whether two names are one.
fn is_one(left: Name, right: Name) -> bool
    ensures { result ≡ is_one left right }
{
    u64::from_le_bytes(left.bytes) == u64::from_le_bytes(right.bytes)
}

impl PartialOrd for Name {
    ghost partial_cmp = { λ a b. Some (slice_cmp nat_cmp a.bytes b.bytes) };

    ghost laws = { on_po (λ name. name.bytes) texts_po };

    fn partial_cmp(&self, other: &Name) -> Option<Ordering> {
        Some(self.cmp(other))
    }
}

/// Names are in the order of the numbers that their bytes write, the first byte the highest.
impl Ord for Name {
    ghost cmp = { λ a b. slice_cmp nat_cmp a.bytes b.bytes };

    ghost total = { on_total (λ name. name.bytes) nat_list_cmp_total };

    ghost matches_partial_cmp = { λ a b. refl };

    ghost matches_eq = { λ a b. texts_ties a.bytes b.bytes };

    fn cmp(&self, other: &Name) -> Ordering {
        order_of(*self, *other)
    }
}

fn order_of(left: Name, right: Name) -> Ordering
    ensures { result ≡ slice_cmp nat_cmp left.bytes right.bytes }
{
    order_of_numbers(
        u64::from_be_bytes(left.bytes),
        u64::from_be_bytes(right.bytes),
    )
}

/// A name hashes as one number.
impl Hash for Name {
    ghost hash_input = { λ name. fed.u64 (from_le_bytes w64 name.bytes) };

    ghost respects_eq = { Prim.search (hashing, rules) };

    fn hash<H: Hasher>(&self, state: &mut H) {
        state.write_u64(u64::from_le_bytes(self.bytes));
    }
}

impl Name {
    ghost use Rattle.cps_text.specs.Name.{name_of, name_text, generated_name, was_generated};
    ghost use Rattle.cps_text.specs.Code.NameNumbers.{name_number, HasEightBytes};

    /// The symbol that a text writes, in capitals or not, or the generated name. None: it writes none.
    pub fn read(text: &[u8]) -> Option<Name>
        ensures { result ≡ name_of text.now }
    {
        if text.len() > LONGEST {
            return None;
        }
        let bytes = padded(text);
        let front = &bytes[..text.len()];
        if is_symbol(front) || is_generated(front) {
            Some(Name { bytes })
        } else {
            None
        }
    }

    /// The generated name of a number: `~` and its seven decimal digits.
    pub fn generated(number: u32) -> Name
        ensures { result ≡ generated_name number }
    {
        Name {
            bytes: [
                b'~',
                digit_at(1_000_000, number),
                digit_at(100_000, number),
                digit_at(10_000, number),
                digit_at(1_000, number),
                digit_at(100, number),
                digit_at(10, number),
                digit_at(1, number),
            ],
        }
    }

    /// Whether it is a generated name.
    pub fn was_generated(&self) -> bool
        ensures { result ≡ was_generated self.now }
    {
        self.bytes[0] == b'~'
    }

    /// The number that its bytes write, the first byte the lowest.
    pub(crate) fn number(self) -> u64
        ensures number { result ≡ name_number self }
        ensures bytes { HasEightBytes self }
    {
        u64::from_le_bytes(self.bytes)
    }

    /// The characters.
    pub fn text(&self) -> &[u8]
        ensures { result.now ≡ name_text self.now }
    {
        match end_of_text(&self.bytes) {
            Some(end) => &self.bytes[..end],
            None => &self.bytes,
        }
    }
}

/// Whether a text begins as a name does.
#[inline(always)]
pub(crate) fn begins_name(text: &[u8]) -> bool
    ensures { result ≡ begins_name text.now }
{
    match text {
        [first, ..] => begins_symbol(capital(*first)) || capital(*first) == b'~',
        [] => false,
    }
}

/// The capitals of a text, and zeros behind them.
fn padded(text: &[u8]) -> [u8; LONGEST]
    requires { length text.now ≤ LONGEST }
    ensures { result ≡ padded (capitals text.now) }
{
    let mut bytes = [0; LONGEST];
    for i in 0..text.len() {
        bytes[i] = capital(text[i]);
    }
    bytes
}

/// Where the characters of a name end, None where they fill it.
fn end_of_text(bytes: &[u8]) -> Option<usize>
    ensures place { result ≡ position is_padding bytes.now }
    ensures within { IfSome result (λ end. end < length bytes.now) }
{
    bytes.iter().position(|byte| *byte == 0)
}

/// Whether a text in capitals is a symbol.
fn is_symbol(text: &[u8]) -> bool
    ensures { result ≡ is_symbol text.now }
{
    if text.is_empty() || text.len() > LONGEST {
        return false;
    }
    begins_symbol(text[0]) && all_continue(text) && !is_register(text)
}

/// Whether a text is a generated name: `~` and seven digits, not all of them 0.
#[cold]
#[inline(never)]
fn is_generated(text: &[u8]) -> bool
    ensures { result ≡ is_generated text.now }
{
    match text {
        [b'~', digits @ ..] => {
            digits.len() == GENERATED_DIGITS && all_digits(digits) && !all_zeros(digits)
        }
        _ => false,
    }
}

fn all_digits(text: &[u8]) -> bool
    ensures { result ≡ list_all (is_digit 10) text.now }
{
    text.iter().all(|byte| byte.is_ascii_digit())
}

fn all_zeros(text: &[u8]) -> bool
    ensures { result ≡ list_all (among (codes "0")) text.now }
{
    text.iter().all(|byte| *byte == b'0')
}

/// The decimal digit of a number at a place.
fn digit_at(place: u32, number: u32) -> u8
    requires { 0 < place }
    ensures { result ≡ digit_at place number }
{
    b'0' + (number / place % 10) as u8
}

fn all_continue(text: &[u8]) -> bool
    ensures { result ≡ list_all continues_symbol text.now }
{
    text.iter().all(|byte| continues_symbol(*byte))
}

fn begins_symbol(byte: u8) -> bool
    ensures { result ≡ begins_symbol byte }
{
    byte.is_ascii_uppercase() || byte == b'.'
}

fn continues_symbol(byte: u8) -> bool
    ensures { result ≡ continues_symbol byte }
{
    matches!(byte, b'A'..=b'Z' | b'0'..=b'9' | b'.' | b'=')
}

fn is_register(text: &[u8]) -> bool
    ensures { result ≡ is_register text.now }
{
    match text {
        [letter, digit] => {
            matches!(*letter, b'A' | b'B' | b'X') && matches!(*digit, b'0'..=b'7')
        }
        _ => false,
    }
}

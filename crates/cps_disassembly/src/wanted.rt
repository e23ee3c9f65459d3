//! The words of an octal text that are wanted.
ghost use Rattle.std.specs.Prelude.{◌≡◌, ◌≤◌, true, [], List, IfOk, IfSome, map};
ghost use Rattle.cps_claims.specs.Claims.{Claimed};
ghost use Rattle.cps_claims.specs.Rows.{Row};
ghost use Rattle.cps_claims.specs.Code.Held.{Holds};
ghost use Rattle.cps_disassembly.specs.Disassembly as specs;
ghost use Rattle.cps_disassembly.specs.Disassembly.{IsPast, IsTwice};
ghost use Rattle.cps_disassembly.specs.Code.Kept.{IsWanted, address_in};

use super::certificate::is_wanted;
use super::disassembly_fault::DisassemblyFault;
use super::selection::Selection;
use super::span::Span;
use cps_claims::{ClaimedWord, ClaimedWords};
use cps_draft::GivenWord;
use cps_state::limit_of;
use std::alloc::{AllocError, Global};

/// Words that a source is to make.
#[derive(Drop)]
pub struct Wanted {
    pub selection: Selection,
    /// What the octal text claims as it is selected.
    pub claims: ClaimedWords,
    /// The words that are wanted, by rising addresses.
    pub words: Vec<GivenWord>,
}

impl Wanted {
    ghost use Rattle.std.specs.Prelude.{◌≡◌, List, IfOk};
    ghost use Rattle.cps_claims.specs.Claims.{Claimed};
    ghost use Rattle.cps_claims.specs.Code.Held.{Holds};
    ghost use Rattle.cps_disassembly.specs.Code.Kept.{IsWanted};

    /// The words of these claims.
    pub fn of(
        alloc: Global,
        claims: ClaimedWords,
        selection: Selection,
    ) -> Result<Wanted, AllocError>
        ensures { (given : List Claimed) → Holds claims given → IfOk result (IsWanted selection given) }
    {
        let words = wanted_words(alloc, &claims, selection)?;
        Ok(Wanted {
            selection,
            claims,
            words,
        })
    }
}

/// The words that are wanted, by rising addresses.
fn wanted_words(
    alloc: Global,
    claims: &ClaimedWords,
    selection: Selection,
) -> Result<Vec<GivenWord>, AllocError>
    ensures { (given : List Claimed) → Holds claims.now given
        → IfOk result (λ words. map address_in words.items ≡ specs.wanted_in selection given) }
{
    let mut words = Vec::new(alloc);
    let span = Span::of_claims(claims);
    for address in span.first..span.end {
        if is_wanted(claims, selection, address) {
            words.push(given_word(address, &claims.word(address)))?;
        }
    }
    Ok(words)
}

/// A word as it is given: its digits from the first up to the last that can be read. Others among these count as 0.
fn given_word(address: u32, word: &ClaimedWord) -> GivenWord
    ensures { result.address ≡ address }
{
    let found = find_digits(word);
    GivenWord { address, ..found }
}

/// The digits of a word from the first up to the last that can be read, as those of a word at address 0.
fn find_digits(word: &ClaimedWord) -> GivenWord {
    let mut found = GivenWord {
        address: 0,
        value: 0,
        digits: 0,
        unread: 0,
    };
    let (mut count, mut value, mut unread): (u8, u64, u32) = (0, 0, 0);
    for digit in &word.digits {
        let number = digit.shown.wrapping_sub(b'0');
        value = value.wrapping_mul(8);
        if digit.is_known() {
            value = value.wrapping_add(u64::from(number));
        } else {
            unread |= 1u32.wrapping_shl(u32::from(count));
        }
        count = count.wrapping_add(1);
        if digit.is_known() {
            found = GivenWord {
                address: 0,
                value,
                digits: count,
                unread,
            };
        }
    }
    found
}

/// Why the words that are wanted can't be made, if that is known beforehand.
pub fn fault_in(wanted: &Wanted) -> Option<DisassemblyFault>
    ensures { (rows : List Row) (given : List Claimed) → IsWanted wanted.now.selection given wanted.now
        → IfSome result (specs.Refuses wanted.now.selection rows given) }
{
    if has_none(&wanted.words) {
        return Some(DisassemblyFault::NoDigit);
    }
    let last = last_address(&wanted.words);
    if is_past(&wanted.claims, wanted.selection, last) {
        return Some(DisassemblyFault::Past(last));
    }
    denied(wanted)
}

fn has_none(words: &[GivenWord]) -> bool
    ensures { result ≡ true → words.now ≡ [] }
{
    words.is_empty()
}

/// The address of the last of some words; 0 where there is none.
fn last_address(words: &[GivenWord]) -> u32 {
    match words.last() {
        Some(word) => word.address,
        None => 0,
    }
}

/// Whether a word is wanted at an address at which no program of the machine has one.
fn is_past(claims: &ClaimedWords, selection: Selection, address: u32) -> bool
    ensures { (given : List Claimed) → Holds claims.now given → result ≡ true → IsPast selection given address }
{
    if address < limit_of(selection.machine) {
        return false;
    }
    is_wanted(claims, selection, address)
}

/// The first word of which a digit is claimed twice, with two values.
fn denied(wanted: &Wanted) -> Option<DisassemblyFault>
    ensures { (rows : List Row) (given : List Claimed) → IsWanted wanted.now.selection given wanted.now
        → IfSome result (specs.Refuses wanted.now.selection rows given) }
{
    for word in &wanted.words {
        if let Some(row) = denied_row(&wanted.claims, wanted.selection, word.address) {
            return Some(DisassemblyFault::Twice(word.address, row));
        }
    }
    None
}

/// The first row that has another digit of the word at an address than the rows before it.
fn denied_row(claims: &ClaimedWords, selection: Selection, address: u32) -> Option<usize>
    ensures { (given : List Claimed) → Holds claims.now given → IfSome result (IsTwice selection given address) }
{
    if !is_wanted(claims, selection, address) {
        return None;
    }
    let row = claims.word(address).again_row;
    if row > 0 { Some(row) } else { None }
}

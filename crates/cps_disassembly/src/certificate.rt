//! Whether a text makes the words that are wanted.
ghost use Rattle.std.specs.Prelude.{◌≡◌, ◌≤◌, ℕ, List, [], true, IfOk, length};
ghost use Rattle.cps_code.specs.Image.{Piece, ArePacked};
ghost use Rattle.cps_input.specs.Lines.{HasText};
ghost use Rattle.cps_input.specs.Sources.{IsSource};
ghost use Rattle.cps_compare.specs.Differences.{digits_in};
ghost use Rattle.cps_claims.specs.Claims.{Claimed, Words, IsWordAt};
ghost use Rattle.cps_claims.specs.Code.Held.{Holds};
ghost use Rattle.cps_disassembly.specs.Makes as makes;
ghost use Rattle.cps_disassembly.specs.Makes.{claims_of};
ghost use Rattle.cps_disassembly.specs.Certificate.{Certifies, wrong_in};

use super::selection::Selection;
use super::span::Span;
use cps_batch::{Source, SourceWords, make_words};
use cps_claims::ClaimedWords;
use cps_compare::{DeckWords, Makers, show_word};
use cps_input::{InputFault, LineText, lines_of, source_lines};
use cps_list::View;
use cps_state::Hashing;
use cps_text::limits::MOST_LINES;
use std::alloc::{AllocError, Global};

/// What is wrong with the lines of a source for the machine.
#[derive(Drop)]
pub struct Failures {
    /// The addresses of the words that are wrong, rising.
    pub words: Vec<u32>,
    /// The numbers of the lines that are flagged, from 1.
    pub lines: Vec<u32>,
}

/// What is found of a text.
#[derive(Drop)]
pub enum Certificate {
    /// It makes the words that are wanted.
    Made,
    /// It is a source for the machine, and a line is flagged or a word is wrong.
    Failed(Failures),
    /// Its lines are none of a source, or it is a source for the other machine.
    Unfit,
}

/// Assembles a text, and compares its words with those that are wanted, at each address that there is. `claims` is what the octal text claims
/// as it is selected. The error is that there was no memory.
pub fn certify(
    alloc: Global,
    hashing: Hashing,
    text: &[u8],
    claims: &ClaimedWords,
    selection: Selection,
) -> Result<Certificate, AllocError>
    ensures { (octal : List ℕ) → Holds claims.now (claims_of selection octal) → IfOk result (Certifies selection octal text.now) }
{
    match source_lines(alloc, text) {
        Ok(lines) => certify_lines(alloc, hashing, &lines, claims, selection),
        Err(InputFault::Memory) => Err(AllocError),
        Err(_) => Ok(Certificate::Unfit),
    }
}

/// The same of lines that a source may have.
fn certify_lines(
    alloc: Global,
    hashing: Hashing,
    lines: &LineText,
    claims: &ClaimedWords,
    selection: Selection,
) -> Result<Certificate, AllocError>
    requires { IsSource lines.now }
    ensures { (octal text : List ℕ) → Holds claims.now (claims_of selection octal) → HasText text lines.now
        → IfOk result (Certifies selection octal text) }
{
    let made = make_words(alloc, hashing, lines)?;
    if made.machine != selection.machine {
        return Ok(Certificate::Unfit);
    }
    let flagged = made.flagged;
    let words = wrong_words(alloc, made, claims, selection)?;
    let all_right = has_none(&words);
    if all_right && flagged == 0 {
        return Ok(Certificate::Made);
    }
    let lines = flagged_lines(alloc, hashing, lines)?;
    Ok(Certificate::Failed(Failures { words, lines }))
}

fn has_none(words: &[u32]) -> bool
    ensures { result ≡ true → words.now ≡ [] }
{
    words.is_empty()
}

/// The addresses at which wrong words stand. What made them isn't asked.
fn wrong_words(
    alloc: Global,
    made: SourceWords,
    claims: &ClaimedWords,
    selection: Selection,
) -> Result<Vec<u32>, AllocError>
    ensures { (given : List Claimed) (pieces : List Piece) → Holds claims.now given → ArePacked pieces made.words
        → IfOk result (λ wrong. wrong.items ≡ wrong_in selection given (digits_in selection.machine pieces)) }
{
    let deck = DeckWords {
        words: made.words,
        makers: Makers::new(alloc),
    };
    wrong_in(alloc, &deck, claims, selection)
}

/// The same. Outside of the words that are claimed and those that stand none is wrong.
fn wrong_in(
    alloc: Global,
    deck: &DeckWords,
    claims: &ClaimedWords,
    selection: Selection,
) -> Result<Vec<u32>, AllocError>
    ensures { (given : List Claimed) (pieces : List Piece) → Holds claims.now given → ArePacked pieces deck.now.words
        → IfOk result (λ words. words.items ≡ wrong_in selection given (digits_in selection.machine pieces)) }
{
    let mut words = Vec::new(alloc);
    let mut digits = Vec::new(alloc);
    let span = Span::of_claims(claims).joined(Span::of_deck(deck, selection.machine));
    for address in span.first..span.end {
        let wrong = is_wrong(deck, claims, selection, address, &mut digits)?;
        if wrong {
            words.push(address)?;
        }
    }
    Ok(words)
}

/// Whether the word at an address is wrong. Its digits are put in the place of what `digits` has.
fn is_wrong(
    deck: &DeckWords,
    claims: &ClaimedWords,
    selection: Selection,
    address: u32,
    digits: &mut Vec<u8>,
) -> Result<bool, AllocError>
    ensures { (given : List Claimed) (pieces : List Piece) → Holds claims.now given → ArePacked pieces deck.now.words
        → IfOk result (λ wrong. wrong ≡ makes.is_wrong selection given (digits_in selection.machine pieces) address) }
{
    match deck.word(selection.machine, address) {
        Some(word) => {
            show_word(digits, selection.machine, word)?;
            Ok(is_wrong_word(claims, selection, address, Some(digits)))
        }
        None => Ok(is_wrong_word(claims, selection, address, None)),
    }
}

/// Whether a word is wrong at an address. `word` has its octal digits; None: no word stands there.
fn is_wrong_word(
    claims: &ClaimedWords,
    selection: Selection,
    address: u32,
    word: Option<&[u8]>,
) -> bool
    ensures { (given : List Claimed) (words : Words) → Holds claims.now given → IsWordAt words address word.entry
        → result ≡ makes.is_wrong selection given words address }
{
    if is_wanted(claims, selection, address) {
        claims.differs(address, word)
    } else {
        word.is_some()
    }
}

/// Whether the word at an address is wanted.
pub fn is_wanted(claims: &ClaimedWords, selection: Selection, address: u32) -> bool
    ensures { (given : List Claimed) → Holds claims.now given → result ≡ makes.is_wanted selection given address }
{
    selection.takes(address) && claims.gives(address)
}

/// The numbers of the lines that are flagged, from 1. Few drafts have any, so these are assembled once more.
fn flagged_lines(alloc: Global, hashing: Hashing, lines: &LineText) -> Result<Vec<u32>, AllocError>
    requires { length lines.now ≤ MOST_LINES }
{
    let Ok(lines) = lines_of(alloc, lines) else {
        return Err(AllocError);
    };
    let source = Source::of(alloc, hashing, lines)?;
    let mut flagged = Vec::new(alloc);
    for before in 0..source.count() {
        if let Some(outcome) = source.outcome(before + 1) {
            if outcome.flags().has_flag() {
                flagged.push(before + 1)?;
            }
        }
    }
    Ok(flagged)
}

//! All that is wrong in a line.
ghost use Rattle.std.specs.Prelude.{◌≡◌, ◌↔◌, ◌+◌, ◌≤◌, ◌<◌, [], true, length, slice_index, IfOk, IfSome, OnOk, MatchOption};
ghost use Rattle.std.specs.List.{All};
ghost use Rattle.cps_text.specs.Line.{IsLine, is_accepted_byte};
ghost use Rattle.cps_input.specs.Faults.{AreAll, AreColumns, AreFaults, IsStranger, misfit_of, told};

use crate::cards::is_accepted;
use crate::character_fault::{CharacterFault, Misfit};
use bstr::decode_utf8;
use cps_text::Line;
use cps_text::limits::MOST_CHARACTERS;
use std::alloc::{AllocError, Global};

/// The most faults of a line that are told one by one.
const MOST_FAULTS: usize = 10;

/// What is wrong in the line of a number, from left to right: ten faults at most, and one that tells how many more there are. Nothing is wrong in a text that is a line.
pub fn faults_of(alloc: Global, line: &[u8], number: u32) -> Result<Vec<CharacterFault>, AllocError>
    ensures faults { IfOk result (λ faults. AreFaults number line.now faults.items) }
    ensures none { IfOk result (λ faults. (faults.items ≡ []) ↔ IsLine line.now) }
    ensures columns { IfOk result (λ faults. All (AreColumns line.now) faults.items) }
{
    if Line::check(line).is_ok() {
        return Ok(Vec::new(alloc));
    }
    let mut faults = all_faults(alloc, line, number)?;
    keep_told(&mut faults)?;
    Ok(faults)
}

/// Drops the faults that aren't told, and has one tell how many these are.
fn keep_told(faults: &mut Vec<CharacterFault>) -> Result<(), AllocError>
    ensures { OnOk result (faults.new.items ≡ told faults.old.items) }
{
    let count = faults.len();
    if count <= MOST_FAULTS {
        return Ok(());
    }
    let next = faults[MOST_FAULTS];
    faults.truncate(MOST_FAULTS);
    faults.push(CharacterFault {
        first: next.first,
        last: next.last,
        misfit: Misfit::More(count - MOST_FAULTS),
    })?;
    Ok(())
}

/// All that is wrong in a line. What begins behind column 90 is one fault.
fn all_faults(alloc: Global, line: &[u8], number: u32) -> Result<Vec<CharacterFault>, AllocError>
    ensures { IfOk result (λ faults. AreAll number line.now 0 faults.items (length line.now)) }
{
    let mut faults = Vec::new(alloc);
    let limit = line.len().min(MOST_CHARACTERS);
    let mut at = 0;
    while at < limit {
        at = add_at(&mut faults, line, number, at)?;
    }
    if at == line.len() {
        return Ok(faults);
    }
    faults.push(CharacterFault {
        first: at + 1,
        last: line.len(),
        misfit: Misfit::Excess,
    })?;
    Ok(faults)
}

/// Adds what is wrong at a place, from 0, to what is wrong before it. Gives the place where the next character begins.
fn add_at(
    faults: &mut Vec<CharacterFault>,
    line: &[u8],
    number: u32,
    at: usize,
) -> Result<usize, AllocError>
    requires within { at < length line.now }
    requires short { at < MOST_CHARACTERS }
    ensures all { AreAll number line.now 0 faults.old.items at → IfOk result (λ next. AreAll number line.now 0 faults.new.items next) }
    ensures next { IfOk result (λ next. (at < next) × (next ≤ length line.now)) }
{
    match stranger_at(line, number, at) {
        None => Ok(at + 1),
        Some(fault) => {
            faults.push(fault)?;
            Ok(fault.last)
        }
    }
}

/// What is wrong with the character that begins at a place, from 0, or with the bytes that are none.
fn stranger_at(line: &[u8], number: u32, at: usize) -> Option<CharacterFault>
    requires { at < length line.now }
    ensures stranger { MatchOption result (is_accepted_byte (slice_index line.now at) ≡ true) (IsStranger number line.now) }
    ensures place { IfSome result (λ fault. (fault.first ≡ at + 1) × (fault.last ≤ length line.now)) }
{
    if is_accepted(line[at]) {
        return None;
    }
    let (character, size) = decode_utf8(&line[at..]);
    Some(CharacterFault {
        first: at + 1,
        last: at + size,
        misfit: misfit_of(number, at, line[at], character),
    })
}

/// What is told of a character that begins at a place, or of the first of some bytes that are none.
fn misfit_of(number: u32, at: usize, byte: u8, character: Option<char>) -> Misfit
    ensures { result ≡ misfit_of number (at + 1) byte character }
{
    match character {
        Some('\u{FEFF}') if number == 1 && at == 0 => Misfit::ByteOrderMark,
        Some(character) => Misfit::Character(character),
        None => Misfit::Byte(byte),
    }
}

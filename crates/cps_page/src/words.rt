//! The words of the binary text to which links can lead.
ghost use Rattle.std.specs.Prelude.{◌<◌, IfOk, IsTrue, OnOk};
ghost use Rattle.cps_page.specs.Code.Making.{AddsWord, AreWords, AreWordsTo, IsPast};

use crate::code_rows::CodeRows;
use cps_markup::{WordEntry, row_length};
use std::alloc::{AllocError, Global};

/// The words of the binary text, each with the first line that has a row there.
pub fn list_words(alloc: Global, rows: &CodeRows, text: &[u8]) -> Result<Vec<WordEntry>, AllocError>
    ensures { IfOk result (λ words. AreWords words.items) }
{
    let mut words = Vec::new(alloc);
    let mut last = None;
    let mut rest = text;
    while !rest.is_empty() {
        let (row, behind) = rest.split_at(row_length(rest));
        last = add_word(&mut words, last, rows, row)?;
        rest = behind;
    }
    Ok(words)
}

/// Adds the word of a row, if it stands behind the last one, and tells which is the last now.
fn add_word(
    words: &mut Vec<WordEntry>,
    last: Option<u32>,
    rows: &CodeRows,
    row: &[u8],
) -> Result<Option<u32>, AllocError>
    requires { AreWordsTo last words.old.items }
    ensures { IfOk result (λ last. AreWordsTo last words.new.items) }
{
    let Some(word) = word_in(rows, row) else {
        return Ok(last);
    };
    if is_past(last, word.digits) {
        push_word(words, word.digits, word.line)?;
        return Ok(Some(word.digits));
    }
    Ok(last)
}

fn push_word(words: &mut Vec<WordEntry>, digits: u32, line: u32) -> Result<(), AllocError>
    ensures { OnOk result (AddsWord digits words.old.items words.new.items) }
{
    words.push(WordEntry { digits, line })?;
    Ok(())
}

fn is_past(last: Option<u32>, digits: u32) -> bool
    ensures { IsTrue result → IsPast last digits }
{
    match last {
        Some(last) => is_above(last, digits),
        None => true,
    }
}

fn is_above(last: u32, digits: u32) -> bool
    ensures { IsTrue result → last < digits }
{
    last < digits
}

/// The word of a row, None where a row has none.
fn word_in(rows: &CodeRows, row: &[u8]) -> Option<WordEntry> {
    let mut digits: u32 = 0;
    let mut address: usize = 0;
    for character in row {
        match character {
            b'0'..=b'7' => {
                let digit = u32::from(character.saturating_sub(b'0'));
                digits = digits.checked_mul(10)?.checked_add(digit)?;
                address = address.checked_mul(8)?.checked_add(digit as usize)?;
            }
            b' ' => {
                return Some(WordEntry {
                    digits,
                    line: rows.line_at(address),
                });
            }
            _ => return None,
        }
    }
    None
}

//! What is wrong in columns of a line, and the words that tell it.
ghost use Rattle.std.specs.Prelude.{◌≡◌, ◌++◌, OnOk, nat_lt, decimal};
ghost use Rattle.std.specs.List.{list_all};
ghost use Rattle.cps_input.specs.Shown.{is_control, is_obeyed};
ghost use Rattle.cps_input.specs.Words as words;

use crate::hex::push_hex;
use crate::shown::{is_control, is_obeyed};
use itoa::Buffer;
use std::alloc::AllocError;

/// What stands in columns of a line, and makes it no line.
#[derive(Clone, Copy, Debug, PartialEq, Eq)]
pub enum Misfit {
    /// A character that no line has.
    Character(char),
    /// Bytes that are no UTF-8: this is the first of them.
    Byte(u8),
    /// The byte order mark that a file begins with.
    ByteOrderMark,
    /// All that stands behind column 90.
    Excess,
    /// The first of so many faults that aren't told one by one.
    More(usize),
}

/// What is wrong in a line, in its bytes from one column to another; columns count from 1.
#[derive(Clone, Copy, Debug, PartialEq, Eq)]
pub struct CharacterFault {
    /// The first column.
    pub first: usize,
    /// The last column.
    pub last: usize,
    /// What stands there.
    pub misfit: Misfit,
}

impl CharacterFault {
    /// Appends the words that tell it of a line.
    pub fn push_words(&self, line: &[u8], text: &mut Vec<u8>) -> Result<(), AllocError>
        ensures { OnOk result (text.new.items ≡ text.old.items ++ words.words_of line.now self.now.misfit) }
    {
        match self.misfit {
            Misfit::Character(character) => push_character(text, character),
            Misfit::Byte(byte) => push_stray(text, byte),
            Misfit::ByteOrderMark => push_text(text, b"the file begins with a byte order mark"),
            Misfit::Excess => push_excess(text, line),
            Misfit::More(count) => push_number(text, b"and ", count, b" more in this line"),
        }
    }
}

/// Appends that a line is too long.
fn push_excess(text: &mut Vec<u8>, line: &[u8]) -> Result<(), AllocError>
    ensures { OnOk result (text.new.items ≡ text.old.items ++ words.words_of line.now Misfit.Excess) }
{
    push_number(text, b"the line has ", line.len(), unit_of(line))?;
    push_text(text, b", and 90 are the most")?;
    Ok(())
}

/// What the bytes of a line count as.
fn unit_of(line: &[u8]) -> &'static [u8]
    ensures { result.now ≡ words.unit_of line.now }
{
    if is_ascii(line) {
        b" characters"
    } else {
        b" bytes"
    }
}

fn is_ascii(line: &[u8]) -> bool
    ensures { result ≡ list_all (λ byte. nat_lt byte 0x80) line.now }
{
    line.iter().all(|byte| *byte < 0x80)
}

/// Appends that a byte is no UTF-8.
fn push_stray(text: &mut Vec<u8>, byte: u8) -> Result<(), AllocError>
    ensures { OnOk result (text.new.items ≡ text.old.items ++ words.stray_words byte) }
{
    push_byte(text, byte)?;
    push_text(text, b" is no character of a line, and no UTF-8")?;
    Ok(())
}

/// Appends a text.
fn push_text(text: &mut Vec<u8>, more: &[u8]) -> Result<(), AllocError>
    ensures { OnOk result (text.new.items ≡ text.old.items ++ more.now) }
{
    text.extend_from_slice(more)
}

/// Appends a number between two texts.
fn push_number(
    text: &mut Vec<u8>,
    before: &[u8],
    number: usize,
    behind: &[u8],
) -> Result<(), AllocError>
    ensures { OnOk result (text.new.items ≡ text.old.items ++ (before.now ++ decimal number ++ behind.now)) }
{
    text.extend_from_slice(before)?;
    text.extend_from_slice(Buffer::new().format(number).as_bytes())?;
    text.extend_from_slice(behind)
}

/// Appends that a character is none of a line.
fn push_character(text: &mut Vec<u8>, character: char) -> Result<(), AllocError>
    ensures { OnOk result (text.new.items ≡ text.old.items ++ words.character_words character) }
{
    if character == '\t' {
        return text.extend_from_slice(
            b"a tab is no character of a line; blanks to column 11, 18 or 30?",
        );
    }
    if character == '\r' {
        return text.extend_from_slice(b"a carriage return is no character of a line");
    }
    push_character_text(text, character)?;
    push_text(text, b" is no character of a line")?;
    Ok(())
}

/// Appends how a character is named.
fn push_character_text(text: &mut Vec<u8>, character: char) -> Result<(), AllocError>
    ensures { OnOk result (text.new.items ≡ text.old.items ++ words.character_text character) }
{
    if is_control(character) {
        return push_byte(text, character as u8);
    }
    if character.is_ascii() {
        return push_quoted(text, character);
    }
    push_wide(text, character)
}

/// Appends how a character beyond ASCII is named.
fn push_wide(text: &mut Vec<u8>, character: char) -> Result<(), AllocError>
    ensures { OnOk result (text.new.items ≡ text.old.items ++ words.wide_text character) }
{
    if is_obeyed(character) {
        return push_code(text, character);
    }
    push_quoted(text, character)?;
    text.extend_from_slice(b" (")?;
    push_code(text, character)?;
    text.extend_from_slice(b")")
}

fn push_quoted(text: &mut Vec<u8>, character: char) -> Result<(), AllocError>
    ensures { OnOk result (text.new.items ≡ text.old.items ++ words.quoted character) }
{
    text.extend_from_slice(b"'")?;
    text.extend_from_slice(character.encode_utf8(&mut [0; 4]).as_bytes())?;
    text.extend_from_slice(b"'")
}

/// Appends the code of a character.
fn push_code(text: &mut Vec<u8>, character: char) -> Result<(), AllocError>
    ensures { OnOk result (text.new.items ≡ text.old.items ++ words.code_text character) }
{
    text.extend_from_slice(b"U+")?;
    push_hex(text, character as u32, code_digits(character as u32))
}

/// How many digits the code of a character is written in.
fn code_digits(code: u32) -> u8
    ensures { result ≡ words.code_digits code }
{
    match code {
        0..0x10000 => 4,
        0x10000..0x100000 => 5,
        _ => 6,
    }
}

fn push_byte(text: &mut Vec<u8>, byte: u8) -> Result<(), AllocError>
    ensures { OnOk result (text.new.items ≡ text.old.items ++ words.byte_text byte) }
{
    text.extend_from_slice(b"byte ")?;
    push_hex(text, u32::from(byte), 2)
}

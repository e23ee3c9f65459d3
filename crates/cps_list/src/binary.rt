//! The binary text.
ghost use Rattle.std.specs.Prelude.{◌≡◌, ◌++◌, ◌<◌, OnOk, map, codes};
ghost use Rattle.cps_text.specs.Octal.{octal};
ghost use Rattle.cps_code.specs.Image.{piece_of};
ghost use Rattle.cps_state.specs.Machines.{limit};
ghost use Rattle.cps_final.specs.Finals.{final_value, literal};
ghost use Rattle.cps_final.specs.Values.{address_of};
ghost use Rattle.cps_list.specs.Code.Making.{Adds, AddsRows, binary_of};
ghost use Rattle.cps_list.specs.Binary as texts;

use cps_code::{Piece, Words};
use cps_expr::Machine;
use cps_final::{Finals, Gathered};
use cps_state::{limit_of, word_bits};
use cps_text::{Name, push_octal, write_octal};
use std::alloc::AllocError;

/// A row of a word of the central processor: six octal digits of the address, a blank and twenty of the word.
const BLANK_ROW: &[u8; 28] = b"                           \n";

/// The octal digits of an address and of a word of a peripheral processor.
const PP_DIGITS: u8 = 4;

/// The bits of a word that are behind those of a peripheral processor.
const BITS_BEHIND: u32 = 48;

/// The binary text, with the words of all lines.
pub fn push_binary(text: &mut Vec<u8>, words: Words, finals: &Finals) -> Result<(), AllocError>
    ensures { AddsRows result text.old.items text.new.items words (binary_of (⟦<Finals as Gathered>⟧.gathered finals.now)) }
{
    let mut words = words;
    put_pool(&mut words, finals)?;
    push_first_row(text, finals.program())?;
    push_rows(text, finals.machine(), &words)
}

/// Puts the bits of a line.
pub fn put_pieces(words: &mut Words, pieces: &[Piece]) -> Result<(), AllocError>
    ensures { OnOk result (Adds (map piece_of pieces.now) words.old words.new) }
{
    for piece in pieces {
        words.deposit(*piece)?;
    }
    Ok(())
}

/// Puts the literals over what stands.
pub fn put_pool(words: &mut Words, finals: &Finals) -> Result<(), AllocError>
    ensures { OnOk result (Adds (texts.pool_pieces (⟦<Finals as Gathered>⟧.gathered finals.now)) words.old words.new) }
{
    for word in finals.pool() {
        put_literal(words, finals, *word)?;
    }
    Ok(())
}

/// Puts a literal at its final address, if that is below the machine's limit.
fn put_literal(words: &mut Words, finals: &Finals, word: u64) -> Result<(), AllocError>
    ensures { OnOk result (Adds (texts.literal_piece (⟦<Finals as Gathered>⟧.gathered finals.now) word) words.old words.new) }
{
    let machine = finals.machine();
    let address = literal_address(finals, word);
    if address >= u64::from(limit_of(machine)) {
        return Ok(());
    }
    words.deposit(word_piece(machine, address as u32, word))
}

/// One word of a machine at an address: the low bits of a number.
fn word_piece(machine: Machine, address: u32, number: u64) -> Piece
    requires { address < limit machine }
    ensures { piece_of result ≡ texts.word_piece machine address number }
{
    let width = word_bits(machine);
    Piece {
        address,
        first: 0,
        width,
        number: number % (1 << width),
        times: 1,
    }
}

/// The address of a literal; one that stands nowhere counts as at 0.
fn literal_address(finals: &Finals, word: u64) -> u64
    ensures { result ≡ address_of (final_value (⟦<Finals as Gathered>⟧.gathered finals.now) (literal word)) }
{
    match finals.literal(word) {
        Some(address) => address.offset.unsigned_abs(),
        None => 0,
    }
}

fn push_first_row(text: &mut Vec<u8>, program: Option<Name>) -> Result<(), AllocError>
    ensures { OnOk result (text.new.items ≡ text.old.items ++ texts.first_row program) }
{
    text.extend_from_slice(b"IDENT")?;
    if let Some(name) = program {
        text.push(b' ')?;
        text.extend_from_slice(name.text())?;
    }
    text.push(b'\n')?;
    Ok(())
}

fn push_rows(text: &mut Vec<u8>, machine: Machine, words: &Words) -> Result<(), AllocError>
    ensures { AddsRows result text.old.items text.new.items words.now (texts.rows_below (limit machine) machine) }
{
    let end = words.end().min(limit_of(machine) as usize) as u32;
    for address in 0..end {
        push_row(text, machine, address, words.get(address))?;
    }
    Ok(())
}

fn push_row(
    text: &mut Vec<u8>,
    machine: Machine,
    address: u32,
    word: Option<u64>,
) -> Result<(), AllocError>
    ensures { OnOk result (text.new.items ≡ text.old.items ++ texts.word_row machine address word) }
{
    let Some(word) = word else {
        return Ok(());
    };
    match machine {
        Machine::Cp => push_central(text, address, word),
        Machine::Pp => push_peripheral(text, address, word >> BITS_BEHIND),
    }
}

/// The row of a word of the central processor.
fn push_central(text: &mut Vec<u8>, address: u32, word: u64) -> Result<(), AllocError>
    ensures { OnOk result (text.new.items ≡ text.old.items ++ (octal 6 address ++ codes " " ++ octal 20 word ++ codes "\n")) }
{
    let before = text.len();
    text.extend_from_slice(BLANK_ROW)?;
    write_central(&mut text[before..], address, word);
    Ok(())
}

/// Writes the digits of a word of the central processor over the blanks of a row.
#[inline(always)]
fn write_central(row: &mut [u8], address: u32, word: u64)
    requires { row.old ≡ codes "                           \n" }
    ensures { row.new ≡ octal 6 address ++ codes " " ++ octal 20 word ++ codes "\n" }
{
    write_octal(&mut row[..6], u64::from(address));
    write_octal(&mut row[7..27], word);
}

/// The row of a word of a peripheral processor.
fn push_peripheral(text: &mut Vec<u8>, address: u32, word: u64) -> Result<(), AllocError>
    ensures { OnOk result (text.new.items ≡ text.old.items ++ (octal 4 address ++ codes " " ++ octal 4 word ++ codes "\n")) }
{
    push_octal(text, u64::from(address), PP_DIGITS)?;
    text.push(b' ')?;
    push_octal(text, word, PP_DIGITS)?;
    text.push(b'\n')?;
    Ok(())
}

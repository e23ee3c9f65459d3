//! Names of instructions, as their rows have them.
ghost use Rattle.std.specs.Prelude.{◌≡◌, IfOk};
ghost use Rattle.cps_check.specs.Names as named;

use cps_code::is_operation;
use cps_text::capital;
use std::alloc::{AllocError, Global};

/// A word with the digit of a register: 0 where the word isn't the name of an instruction of the central processor by itself.
pub fn full_name(alloc: Global, word: &[u8]) -> Result<Vec<u8>, AllocError>
    ensures { IfOk result (λ name. name.items ≡ named.full_name word.now) }
{
    let mut name = Vec::new(alloc);
    name.extend_from_slice(word)?;
    if !is_operation(word) {
        name.push(b'0')?;
    }
    Ok(name)
}

/// A name as its row has it: in capitals, and with i for the digit of a register.
pub fn row_name(alloc: Global, name: &[u8]) -> Result<Vec<u8>, AllocError>
    ensures { IfOk result (λ shown. shown.items ≡ named.row_name name.now) }
{
    let mut shown = Vec::new(alloc);
    for character in name {
        shown.push(row_character(*character))?;
    }
    Ok(shown)
}

fn row_character(character: u8) -> u8
    ensures { result ≡ named.row_character character }
{
    match character {
        b'0'..=b'7' => b'i',
        _ => capital(character),
    }
}

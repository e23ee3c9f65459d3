//! The operands of instructions.
use super::guess::Guess;
use super::image::LOW;
use super::instruction::{Instruction, Role};
use super::names::NamedAddress;
use super::number::{push_decimal, push_number};
use std::alloc::AllocError;

/// Appends the operands of an instruction at an address.
pub fn push_operands(
    guess: &Guess<'_>,
    instruction: &Instruction,
    at: u32,
    text: &mut Vec<u8>,
) -> Result<(), AllocError> {
    instruction.push_front(text)?;
    if let Some(address) = instruction.address {
        push_address(guess, instruction, address, at, text)?;
    }
    if let Some(behind) = instruction.behind {
        text.push(b',')?;
        push_number(text, u64::from(behind))?;
    }
    Ok(())
}

/// Appends the address of an instruction: its name, a place beside the instruction, or a number.
fn push_address(
    guess: &Guess<'_>,
    instruction: &Instruction,
    address: u32,
    at: u32,
    text: &mut Vec<u8>,
) -> Result<(), AllocError> {
    if let Some(named) = name_in(guess, instruction, address) {
        push_joint(instruction, text)?;
        return text.extend_from_slice(&named.name);
    }
    let is_short = !guess.image.is_central() && instruction.size == 1;
    match instruction.role {
        Role::Jump if is_short => push_away(text, address.wrapping_sub(at)),
        Role::Jump if address == at.wrapping_add(0o400000) => {
            push_joint(instruction, text)?;
            text.extend_from_slice(b"*+400000B")
        }
        Role::Shift => push_shift(text, address),
        _ => push_plain(guess, instruction, address, text),
    }
}

/// Appends an address as a number. K of the central processor from 700000 to 777776 is negative.
fn push_plain(
    guess: &Guess<'_>,
    instruction: &Instruction,
    address: u32,
    text: &mut Vec<u8>,
) -> Result<(), AllocError> {
    if guess.image.is_central() && (0o700000..0o777777).contains(&address) {
        if instruction.joint() == Some(b',') {
            text.push(b',')?;
        }
        text.push(b'-')?;
        return push_number(text, u64::from(0o777777u32.saturating_sub(address)));
    }
    push_joint(instruction, text)?;
    push_number(text, u64::from(address))
}

/// Appends what stands between the operands in front and the address.
fn push_joint(instruction: &Instruction, text: &mut Vec<u8>) -> Result<(), AllocError> {
    if let Some(joint) = instruction.joint() {
        text.push(joint)?;
    }
    Ok(())
}

/// The named address of an instruction, if it is shown by its name.
fn name_in<'a>(
    guess: &'a Guess<'_>,
    instruction: &Instruction,
    address: u32,
) -> Option<&'a NamedAddress> {
    if instruction.is_displaced() {
        return None;
    }
    let named = guess.named(address)?;
    let is_low = address < LOW && instruction.is_beside;
    let is_shown = match instruction.role {
        Role::Jump => true,
        Role::Cell => !is_low && (!named.is_outside || !instruction.is_beside),
        Role::Value => !is_low && !named.is_outside,
        _ => false,
    };
    if is_shown { Some(named) } else { None }
}

/// Appends a place so many words ahead, or behind if the number is of more than 31 bits.
fn push_away(text: &mut Vec<u8>, ahead: u32) -> Result<(), AllocError> {
    text.push(b'*')?;
    if ahead == 0 {
        return Ok(());
    }
    if ahead < 0o100 {
        text.push(b'+')?;
        return push_number(text, u64::from(ahead));
    }
    text.push(b'-')?;
    push_number(text, u64::from(0u32.wrapping_sub(ahead)))
}

/// Appends the places of a shift, to the left, or to the right behind a minus.
fn push_shift(text: &mut Vec<u8>, places: u32) -> Result<(), AllocError> {
    match places {
        0..=0o37 => push_decimal(text, places as usize),
        0o77 => text.extend_from_slice(b"77B"),
        _ => {
            text.push(b'-')?;
            push_decimal(text, 0o77u32.saturating_sub(places) as usize)
        }
    }
}

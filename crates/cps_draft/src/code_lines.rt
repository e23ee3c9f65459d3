//! The lines of code.
use super::central::stranger;
use super::guess::Guess;
use super::instruction::Instruction;
use super::lines::Lines;
use super::names::references_of;
use super::number::{push_decimal, push_number};
use super::operands::push_operands;
use super::peripheral::peripheral_at;
use super::reading::{Item, Part, Reading, parcel};
use super::references::Use;
use cps_text::push_octal;
use std::alloc::AllocError;

/// The most callers that a heading tells.
const MOST_CALLERS: usize = 6;

/// Writes the heading of a word that is called: where it is called.
pub fn push_heading(guess: &Guess<'_>, lines: &mut Lines, index: usize) -> Result<(), AllocError> {
    if !guess.is_called(index) {
        return Ok(());
    }
    let references = references_of(&guess.references, guess.image.address(index));
    lines.remark(b"")?;
    lines.begin_remark()?;
    lines.text().extend_from_slice(guess.name(index))?;
    lines.text().extend_from_slice(b" IS CALLED AT ")?;
    let mut told: usize = 0;
    let mut last = None;
    for reference in references {
        if reference.how != Use::Called || last == Some(reference.from) {
            continue;
        }
        if told > 0 {
            lines.text().extend_from_slice(b", ")?;
        }
        if told == MOST_CALLERS {
            lines.text().extend_from_slice(b".")?;
            break;
        }
        lines.push_address(&guess.image, reference.from)?;
        last = Some(reference.from);
        told = told.saturating_add(1);
    }
    lines.text().push(b'.')?;
    lines.end_remark()
}

/// Writes the lines of the code that begins at a word.
pub fn push_code(guess: &Guess<'_>, lines: &mut Lines, index: usize) -> Result<(), AllocError> {
    push_heading(guess, lines, index)?;
    if guess.image.is_central() {
        push_central(guess, lines, index)
    } else {
        push_peripheral(guess, lines, index)
    }
}

/// The location field of a statement of so many bits that begins a word: its name, or a plus where it has to be forced to the word.
fn location<'a>(guess: &'a Guess<'_>, lines: &Lines, index: usize, part: &Part) -> &'a [u8] {
    let name = guess.name(index);
    if !name.is_empty() {
        return name;
    }
    let is_full = part.instruction().is_some() && part.size == 2 && lines.begun == 45;
    if lines.begun == 0 || lines.is_pending || is_full {
        b""
    } else {
        b"+"
    }
}

/// Writes the lines of a word of the central processor.
fn push_central(guess: &Guess<'_>, lines: &mut Lines, index: usize) -> Result<(), AllocError> {
    let Some(reading) = guess.image.reading(index) else {
        return Ok(());
    };
    for slot in &reading.parts {
        let Some(part) = slot else {
            break;
        };
        push_part(guess, lines, index, part, reading)?;
    }
    lines.begun = left_bits(reading.end);
    Ok(())
}

/// The bits of a begun word behind so many parcels.
fn left_bits(parcels: usize) -> u8 {
    match parcels {
        1 => 15,
        2 => 30,
        3 => 45,
        _ => 0,
    }
}

/// Writes the line of some parcels.
fn push_part(
    guess: &Guess<'_>,
    lines: &mut Lines,
    index: usize,
    part: &Part,
    reading: &Reading,
) -> Result<(), AllocError> {
    let field: &[u8] = if part.place == 0 {
        location(guess, lines, index, part)
    } else if lines.is_pending {
        b"-"
    } else {
        b""
    };
    let at = guess.image.address(index);
    match part.instruction() {
        Some(instruction) => {
            begin_instruction(lines, field, instruction)?;
            push_operands(guess, instruction, at, lines.text())?;
            lines.is_pending = instruction.is_forcing();
        }
        None => {
            lines.begin(field, b"VFD")?;
            push_field(guess, lines, index, part, reading)?;
            lines.is_pending = false;
        }
    }
    push_part_comment(guess, lines, index, part)?;
    lines.end(Some(at))
}

/// Begins the line of an instruction.
fn begin_instruction(
    lines: &mut Lines,
    field: &[u8],
    instruction: &Instruction,
) -> Result<(), AllocError> {
    lines.begin_with(field, instruction.operation, instruction.digit)
}

/// Appends the field that is put in the place of code: the address in a trace by its name.
fn push_field(
    guess: &Guess<'_>,
    lines: &mut Lines,
    index: usize,
    part: &Part,
    reading: &Reading,
) -> Result<(), AllocError> {
    let digits = part.digits(guess.image.value(index));
    let low = guess.image.low_address(index);
    if matches!(part.item, Item::Rest)
        && reading.is_trace()
        && let Some(named) = guess.named(low)
        && !named.is_outside
    {
        lines.text().extend_from_slice(b"12/")?;
        push_number(lines.text(), digits >> 18)?;
        lines.text().extend_from_slice(b",18/")?;
        return lines.text().extend_from_slice(&named.name);
    }
    push_decimal(lines.text(), usize::from(part.bits()))?;
    lines.text().push(b'/')?;
    push_number(lines.text(), digits)
}

/// Writes the comment of some parcels: the address at a word's beginning, the code, and what it is on other machines.
fn push_part_comment(
    guess: &Guess<'_>,
    lines: &mut Lines,
    index: usize,
    part: &Part,
) -> Result<(), AllocError> {
    let word = guess.image.value(index);
    if part.place == 0 {
        lines.begin_comment_at(&guess.image, guess.image.address(index))?;
    } else {
        lines.begin_comment()?;
        lines.text().extend_from_slice(b"      ")?;
    }
    lines.text().push(b' ')?;
    push_octal(lines.text(), part.digits(word), part.bits() / 3)?;
    if matches!(part.item, Item::Stranger) {
        lines.text().push(b' ')?;
        lines
            .text()
            .extend_from_slice(stranger(parcel(word, part.place)))?;
    }
    Ok(())
}

/// Writes the lines of an instruction of a peripheral processor. A name of its second word stands in a line behind it.
fn push_peripheral(guess: &Guess<'_>, lines: &mut Lines, index: usize) -> Result<(), AllocError> {
    let image = &guess.image;
    let second = if guess.coding.size(index) == 2 {
        image.after(index)
    } else {
        None
    };
    let Some(instruction) = peripheral_at(image, index, second) else {
        return Ok(());
    };
    if let Some(next) = second {
        push_heading(guess, lines, next)?;
    }
    let at = image.address(index);
    begin_instruction(lines, guess.name(index), &instruction)?;
    push_operands(guess, &instruction, at, lines.text())?;
    lines.begin_comment_at(image, at)?;
    lines.text().push(b' ')?;
    push_octal(lines.text(), image.value(index), 4)?;
    if let Some(next) = second {
        lines.text().push(b' ')?;
        push_octal(lines.text(), image.value(next), 4)?;
    }
    lines.end(Some(at))?;
    match second {
        Some(next) => push_second_name(guess, lines, next, at),
        None => Ok(()),
    }
}

/// Writes the line of the name that the second word of an instruction has.
fn push_second_name(
    guess: &Guess<'_>,
    lines: &mut Lines,
    next: usize,
    at: u32,
) -> Result<(), AllocError> {
    let name = guess.name(next);
    if name.is_empty() {
        return Ok(());
    }
    lines.begin(name, b"EQU")?;
    lines.text().extend_from_slice(b"*-1")?;
    lines.begin_comment_at(&guess.image, guess.image.address(next))?;
    lines.end(Some(at))
}

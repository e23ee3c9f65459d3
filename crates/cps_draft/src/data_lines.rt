//! The lines of data.
use super::guess::Guess;
use super::hints::GivenWord;
use super::lines::Lines;
use super::number::{push_decimal, push_number, push_word};
use super::text_lines::push_text;
use cps_text::push_octal;
use std::alloc::{AllocError, Global};

/// The bits of a word of the central processor.
const ALL_BITS: u64 = (1 << 60) - 1;

/// The most words of a peripheral processor in a line of numbers.
const MOST_NUMBERS: usize = 4;

/// Writes the lines of data that begin at a word. The index behind them.
pub fn push_data(
    alloc: Global,
    guess: &Guess<'_>,
    lines: &mut Lines,
    index: usize,
) -> Result<usize, AllocError> {
    let next = index.saturating_add(1);
    if !guess.image.is_whole(index) {
        push_given(guess, lines, index)?;
        return Ok(next);
    }
    if guess.told.is_plain(index) {
        push_plain(guess, lines, index)?;
        return Ok(next);
    }
    if guess.image.value(index) == 0 {
        return push_zeros(guess, lines, index);
    }
    if guess.is_text(index) {
        let end = text_end(guess, index);
        return push_text(alloc, guess, lines, index, end);
    }
    if guess.image.is_central() {
        push_number_word(guess, lines, index)?;
        return Ok(next);
    }
    push_numbers(guess, lines, index)
}

/// Writes those digits of a word that are given: as a number where none lacks at the end, else as a field.
fn push_given(guess: &Guess<'_>, lines: &mut Lines, index: usize) -> Result<(), AllocError> {
    let Some(word) = guess.image.words.get(index) else {
        return Ok(());
    };
    let name = guess.name(index);
    if word.digits >= guess.image.word_digits() {
        lines.begin(name, b"DATA")?;
        push_word(lines.text(), word.value, word.digits)?;
        lines.begun = 0;
        return end_given(guess, lines, word);
    }
    let is_begun = guess.image.is_central() && lines.begun != 0 && !lines.is_pending;
    let location: &[u8] = if name.is_empty() && is_begun {
        b"+"
    } else {
        name
    };
    lines.begin(location, b"VFD")?;
    let bits = word.digits.saturating_mul(3);
    push_decimal(lines.text(), usize::from(bits))?;
    lines.text().push(b'/')?;
    push_number(lines.text(), word.value)?;
    lines.begun = bits % 60;
    end_given(guess, lines, word)
}

/// Ends the line of digits that are given of a word, with its address and the digits as the comment.
fn end_given(guess: &Guess<'_>, lines: &mut Lines, word: &GivenWord) -> Result<(), AllocError> {
    let begun = lines.begun;
    lines.begin_comment_at(&guess.image, word.address)?;
    lines.text().push(b' ')?;
    push_digits(lines.text(), word)?;
    lines.begin_word();
    lines.begun = begun;
    lines.end(Some(word.address))
}

/// Writes the digits that are given of a word, with `?` for those that can't be read.
fn push_digits(text: &mut Vec<u8>, word: &GivenWord) -> Result<(), AllocError> {
    for place in 0..word.digits.min(20) {
        let behind = word.digits.saturating_sub(place).saturating_sub(1).min(19);
        let digit = ((word.value >> (3 * u32::from(behind))) & 7) as u8;
        let is_read = (word.unread >> u32::from(place)) & 1 == 0;
        text.push(if is_read { b'0' + digit } else { b'?' })?;
    }
    Ok(())
}

/// Writes a word as a plain number.
fn push_plain(guess: &Guess<'_>, lines: &mut Lines, index: usize) -> Result<(), AllocError> {
    lines.begin(guess.name(index), b"DATA")?;
    push_word(
        lines.text(),
        guess.image.value(index),
        guess.image.word_digits(),
    )?;
    end_data(guess, lines, index)
}

/// Ends the line of a word, with its address as the comment.
fn end_data(guess: &Guess<'_>, lines: &mut Lines, index: usize) -> Result<(), AllocError> {
    let address = guess.image.address(index);
    lines.begin_comment_at(&guess.image, address)?;
    lines.begin_word();
    lines.end(Some(address))
}

/// Writes the line of a word that is zero, and of those behind it.
fn push_zeros(guess: &Guess<'_>, lines: &mut Lines, index: usize) -> Result<usize, AllocError> {
    let end = zeros_end(guess, index);
    lines.begin(guess.name(index), b"BSSZ")?;
    push_number(lines.text(), end.saturating_sub(index) as u64)?;
    end_data(guess, lines, index)?;
    Ok(end)
}

/// The index behind a word and the zeros that follow it without a name.
fn zeros_end(guess: &Guess<'_>, index: usize) -> usize {
    let mut end = index.saturating_add(1);
    for next in end..guess.image.words.len() {
        if !guess.image.is_joined(next)
            || !guess.is_unbroken(next)
            || guess.image.value(next) != 0
        {
            break;
        }
        end = next.saturating_add(1);
    }
    end
}

/// The index behind a word and the text that follows it without a name.
fn text_end(guess: &Guess<'_>, index: usize) -> usize {
    let mut end = index.saturating_add(1);
    for next in end..guess.image.words.len() {
        if !guess.image.is_joined(next) || !guess.is_unbroken(next) || !guess.is_text(next) {
            break;
        }
        end = next.saturating_add(1);
    }
    end
}

/// The index behind a word of a peripheral processor and those that stand in its line of numbers.
fn numbers_end(guess: &Guess<'_>, index: usize) -> usize {
    let mut end = index.saturating_add(1);
    for _ in 1..MOST_NUMBERS {
        if !guess.image.is_joined(end) || !guess.is_unbroken(end) || !is_number(guess, end) {
            break;
        }
        end = end.saturating_add(1);
    }
    end
}

/// Whether a word is a number, and not the first of two zeros.
fn is_number(guess: &Guess<'_>, index: usize) -> bool {
    let is_zero = guess.image.value(index) == 0;
    let next = guess.image.after(index);
    let begins_zeros = is_zero && next.is_some_and(|it| guess.image.value(it) == 0);
    !guess.is_pointer(index) && !guess.is_text(index) && !begins_zeros
}

/// Writes the line of some numbers of a peripheral processor. The index behind them.
fn push_numbers(guess: &Guess<'_>, lines: &mut Lines, index: usize) -> Result<usize, AllocError> {
    let image = &guess.image;
    let next = index.saturating_add(1);
    if guess.is_pointer(index) && push_pointer(guess, lines, index)? {
        return Ok(next);
    }
    let end = numbers_end(guess, index);
    lines.begin(guess.name(index), b"DATA")?;
    for at in index..end {
        if at > index {
            lines.text().push(b',')?;
        }
        push_word(lines.text(), image.value(at), 4)?;
    }
    lines.begin_comment_at(image, image.address(index))?;
    lines.text().push(b' ')?;
    for at in index..end {
        lines.push_shown(image.characters(at).all())?;
    }
    lines.begin_word();
    lines.end(Some(image.address(index)))?;
    Ok(end)
}

/// Writes the line of a word that is an address, if that has a name. Whether it has.
fn push_pointer(guess: &Guess<'_>, lines: &mut Lines, index: usize) -> Result<bool, AllocError> {
    let image = &guess.image;
    let word = image.value(index);
    let Ok(address) = u32::try_from(word) else {
        return Ok(false);
    };
    let Some(named) = guess.named(address) else {
        return Ok(false);
    };
    lines.begin(guess.name(index), b"CON")?;
    lines.text().extend_from_slice(&named.name)?;
    lines.begin_comment_at(image, image.address(index))?;
    lines.text().push(b' ')?;
    push_octal(lines.text(), word, image.word_digits())?;
    lines.begin_word();
    lines.end(Some(image.address(index)))?;
    Ok(true)
}

/// Writes the line of a word of the central processor that is a number.
fn push_number_word(guess: &Guess<'_>, lines: &mut Lines, index: usize) -> Result<(), AllocError> {
    let word = guess.image.value(index);
    if guess.is_pointer(index) {
        if push_pointer(guess, lines, index)? {
            return Ok(());
        }
        if word > 0o777777
            && let Some(named) = guess.named(guess.image.low_address(index))
        {
            return push_low_pointer(guess, lines, index, &named.name);
        }
    }
    lines.begin(guess.name(index), b"DATA")?;
    let complement = ALL_BITS.saturating_sub(word);
    let is_short = word < 1 << 30 || complement < 1 << 18;
    if word < 1 << 30 {
        push_number(lines.text(), word)?;
    } else if complement < 1 << 18 {
        lines.text().push(b'-')?;
        push_number(lines.text(), complement)?;
    } else {
        push_word(lines.text(), word, 20)?;
    }
    push_number_comment(guess, lines, index, is_short)?;
    lines.begin_word();
    lines.end(Some(guess.image.address(index)))
}

/// Writes the comment of a number: the address, and all digits, or the characters where the line has all digits.
fn push_number_comment(
    guess: &Guess<'_>,
    lines: &mut Lines,
    index: usize,
    is_short: bool,
) -> Result<(), AllocError> {
    lines.begin_comment_at(&guess.image, guess.image.address(index))?;
    lines.text().push(b' ')?;
    if is_short {
        return push_octal(lines.text(), guess.image.value(index), 20);
    }
    lines.push_shown(guess.image.characters(index).all())
}

/// Writes the line of a word whose low 18 bits are an address with a name. VFD begins no word by itself.
fn push_low_pointer(
    guess: &Guess<'_>,
    lines: &mut Lines,
    index: usize,
    low: &[u8],
) -> Result<(), AllocError> {
    let image = &guess.image;
    let name = guess.name(index);
    let location: &[u8] = if name.is_empty() && lines.begun != 0 {
        b"+"
    } else {
        name
    };
    lines.begin(location, b"VFD")?;
    lines.text().extend_from_slice(b"42/")?;
    push_number(lines.text(), image.value(index) >> 18)?;
    lines.text().extend_from_slice(b",18/")?;
    lines.text().extend_from_slice(low)?;
    lines.begin_comment_at(image, image.address(index))?;
    lines.text().push(b' ')?;
    let characters = image.characters(index);
    lines.push_shown(characters.all().get(..7).unwrap_or(&[]))?;
    lines.begin_word();
    lines.end(Some(image.address(index)))
}

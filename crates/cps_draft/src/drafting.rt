//! The lines of a draft, word after word.
use super::code_lines::{push_code, push_heading};
use super::data_lines::push_data;
use super::guess::Guess;
use super::hints::{Boldness, Hints, Knowledge, UnreadRows};
use super::image::{Image, MOST_GAP};
use super::lines::Lines;
use super::number::{push_decimal, push_number};
use std::alloc::{AllocError, Global};

/// Writes the lines of a draft.
pub fn push_draft(
    alloc: Global,
    guess: &Guess<'_>,
    known: Knowledge<'_>,
    boldness: &Boldness,
    lines: &mut Lines,
) -> Result<(), AllocError> {
    push_head(guess, known, lines)?;
    let is_placed = matches!(boldness, Boldness::Placed);
    let mut next = 0;
    for index in 0..guess.image.words.len() {
        if index < next {
            continue;
        }
        push_place(guess, is_placed, index, lines)?;
        next = push_word(alloc, guess, lines, index)?;
    }
    push_tail(guess, lines)?;
    push_end(guess, known.hints, lines)
}

/// Writes the lines that begin at a word. The index behind its words.
fn push_word(
    alloc: Global,
    guess: &Guess<'_>,
    lines: &mut Lines,
    index: usize,
) -> Result<usize, AllocError> {
    let size = guess.coding.size(index);
    if size > 0 {
        push_code(guess, lines, index)?;
        return Ok(index.saturating_add(size));
    }
    push_heading(guess, lines, index)?;
    push_data(alloc, guess, lines, index)
}

/// Writes the lines in front of the words.
fn push_head(guess: &Guess<'_>, known: Knowledge<'_>, lines: &mut Lines) -> Result<(), AllocError> {
    lines.begin(b"", b"IDENT")?;
    known.push_ident(lines.text())?;
    lines.end(None)?;
    let machine: &[u8] = if guess.image.is_central() {
        b"ABS"
    } else {
        b"PERIPH"
    };
    lines.begin(b"", machine)?;
    lines.end(None)?;
    lines.remark(b"")?;
    push_counts(guess, lines)?;
    if let Some(unread) = known.unread {
        push_unread(unread, lines)?;
    }
    push_outside(guess, lines)?;
    lines.remark(b"")
}

/// Writes the remark that tells how many words there are.
fn push_counts(guess: &Guess<'_>, lines: &mut Lines) -> Result<(), AllocError> {
    let image = &guess.image;
    let count = image.words.len();
    let words: &[u8] = if count == 1 {
        b" WORD FROM "
    } else {
        b" WORDS FROM "
    };
    lines.begin_remark()?;
    push_decimal(lines.text(), count)?;
    lines.text().extend_from_slice(words)?;
    lines.push_address(image, image.address(0))?;
    lines.text().extend_from_slice(b" TO ")?;
    lines.push_address(image, image.address(count.saturating_sub(1)))?;
    lines.text().extend_from_slice(b", ")?;
    push_decimal(lines.text(), guess.coding.count())?;
    lines.text().extend_from_slice(b" OF THEM CODE.")?;
    lines.end_remark()
}

/// Writes the remark that tells how many rows aren't read.
fn push_unread(unread: UnreadRows, lines: &mut Lines) -> Result<(), AllocError> {
    let words: &[u8] = if unread.count == 1 {
        b" ROW OF OCTAL ISN'T READ: ROW "
    } else {
        b" ROWS OF OCTAL AREN'T READ, THE FIRST IS ROW "
    };
    lines.begin_remark()?;
    push_decimal(lines.text(), unread.count)?;
    lines.text().extend_from_slice(words)?;
    push_decimal(lines.text(), unread.first)?;
    lines.text().push(b'.')?;
    lines.end_remark()
}

/// Writes the names of addresses that no line of the text has.
fn push_outside(guess: &Guess<'_>, lines: &mut Lines) -> Result<(), AllocError> {
    let mut is_first = true;
    for named in guess.names.all() {
        if !named.is_outside {
            continue;
        }
        if is_first {
            lines.remark(b"")?;
            lines.remark(b"ADDRESSES OUTSIDE OF THE TEXT.")?;
            is_first = false;
        }
        lines.begin(&named.name, b"EQU")?;
        push_number(lines.text(), u64::from(named.address))?;
        lines.end(None)?;
    }
    Ok(())
}

/// Writes the line that says where a word is, if it needs one.
fn push_place(
    guess: &Guess<'_>,
    is_placed: bool,
    index: usize,
    lines: &mut Lines,
) -> Result<(), AllocError> {
    let address = guess.image.address(index);
    if guess.image.is_joined(index) {
        return if is_placed {
            push_origin(address, lines)
        } else {
            Ok(())
        };
    }
    let Some(before) = index.checked_sub(1) else {
        return push_origin(address, lines);
    };
    let first = guess.image.address(before).saturating_add(1);
    if address.saturating_sub(first) > MOST_GAP {
        return push_origin(address, lines);
    }
    push_gap(guess, first, address, lines)
}

fn push_origin(address: u32, lines: &mut Lines) -> Result<(), AllocError> {
    lines.begin(b"", b"ORG")?;
    push_number(lines.text(), u64::from(address))?;
    lines.begin_word();
    lines.end(None)
}

/// Passes the words from one address up to another, with the names that are there.
fn push_gap(guess: &Guess<'_>, first: u32, end: u32, lines: &mut Lines) -> Result<(), AllocError> {
    let mut at = first;
    for named in guess.names.between(first.saturating_add(1), end) {
        push_space(guess, at, named.address.saturating_sub(at), lines)?;
        at = named.address;
    }
    push_space(guess, at, end.saturating_sub(at), lines)
}

/// Writes the line that passes some words, with the name of the first.
fn push_space(guess: &Guess<'_>, at: u32, words: u32, lines: &mut Lines) -> Result<(), AllocError> {
    let name: &[u8] = match guess.named(at) {
        Some(named) => &named.name,
        None => b"",
    };
    lines.begin(name, b"BSS")?;
    push_number(lines.text(), u64::from(words))?;
    lines.begin_comment_at(&guess.image, at)?;
    lines.begin_word();
    lines.end(None)
}

/// Writes the lines of the names behind the text.
fn push_tail(guess: &Guess<'_>, lines: &mut Lines) -> Result<(), AllocError> {
    let first = guess.image.behind();
    match guess.names.between(first, guess.image.reach()).last() {
        Some(last) if last.address == first => push_space(guess, first, 0, lines),
        Some(last) => {
            push_gap(guess, first, last.address, lines)?;
            push_space(guess, last.address, 0, lines)
        }
        None => Ok(()),
    }
}

/// Writes the last line: where execution begins, if that has a name.
fn push_end(guess: &Guess<'_>, hints: &Hints, lines: &mut Lines) -> Result<(), AllocError> {
    lines.begin(b"", b"END")?;
    for entry in &hints.entries {
        if let Some(named) = guess.named(*entry) {
            lines.text().extend_from_slice(&named.name)?;
            break;
        }
    }
    lines.end(None)
}

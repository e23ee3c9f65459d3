//! The lines of text.
use super::characters::without_end;
use super::guess::Guess;
use super::lines::Lines;
use super::number::push_decimal;
use std::alloc::{AllocError, Global};

/// The most characters of text in a line.
const MOST_CHARACTERS: usize = 50;

/// The most characters of a line that has an address as a comment behind text.
const MOST_BEFORE_COMMENT: usize = 64;

/// Some words of text, and what they are written as.
#[derive(Drop)]
struct TextPart {
    first: usize,
    /// The index behind the words.
    end: usize,
    /// The characters, without zeros at the end.
    text: Vec<u8>,
    /// How many zeros the last word has at its end.
    zeros: usize,
}

/// A character that may enclose a text: one that isn't in it.
fn delimiter(text: &[u8]) -> Option<u8> {
    b"*/$+-=()"
        .iter()
        .find(|delimiter| text.iter().all(|byte| byte != *delimiter))
        .copied()
}

impl TextPart {
    /// The words of text from one up to another that stand in one line: up to the first one that ends with a zero.
    fn of(
        alloc: Global,
        guess: &Guess<'_>,
        first: usize,
        end: usize,
    ) -> Result<TextPart, AllocError> {
        let mut part = TextPart {
            first,
            end: first,
            text: Vec::new(alloc),
            zeros: 0,
        };
        for index in first..end {
            if part.zeros > 0 || part.text.len() >= MOST_CHARACTERS {
                break;
            }
            let characters = guess.image.characters(index);
            part.text.extend_from_slice(characters.body())?;
            part.zeros = characters.zeros();
            part.end = index.saturating_add(1);
        }
        Ok(part)
    }

    /// How many words there are.
    fn count(&self) -> usize {
        self.end.saturating_sub(self.first)
    }
}

/// Writes the lines of words of text, from one up to another. The index behind them, and behind a zero word that ends them.
pub fn push_text(
    alloc: Global,
    guess: &Guess<'_>,
    lines: &mut Lines,
    index: usize,
    end: usize,
) -> Result<usize, AllocError> {
    let mut next = index;
    for _ in index..end {
        if next >= end {
            break;
        }
        let part = TextPart::of(alloc, guess, next, end)?;
        let name: &[u8] = if next == index {
            guess.name(index)
        } else {
            b""
        };
        next = push_part(guess, lines, name, part, end)?;
    }
    Ok(next.max(end))
}

/// Writes the line of some words of text. The index behind them.
fn push_part(
    guess: &Guess<'_>,
    lines: &mut Lines,
    name: &[u8],
    part: TextPart,
    end: usize,
) -> Result<usize, AllocError> {
    lines.begin_word();
    let is_short = part.end == end && part.zeros < 2 && is_zero_behind(guess, part.end);
    let is_long = part.count() > 1 || (is_short && !guess.image.is_central());
    if let Some(delimiter) = delimiter(&part.text)
        && is_long
        && (part.zeros >= 2 || is_short)
    {
        push_enclosed(guess, lines, name, &part, delimiter)?;
        return Ok(if is_short {
            part.end.saturating_add(1)
        } else {
            part.end
        });
    }
    if part.zeros == 0 && part.count() > 1 {
        push_words(guess, lines, name, &part)?;
        return Ok(part.end);
    }
    if part.count() > 2 {
        let part = without_last(guess, part);
        push_words(guess, lines, name, &part)?;
        return Ok(part.end);
    }
    let part = if part.count() > 1 {
        without_last(guess, part)
    } else {
        part
    };
    push_word(guess, lines, name, &part)?;
    Ok(part.end)
}

/// Whether a word is zero that may end the text in front of it.
fn is_zero_behind(guess: &Guess<'_>, index: usize) -> bool {
    guess.image.is_joined(index) && guess.is_unbroken(index) && guess.image.value(index) == 0
}

/// The words of a part but the last one, all of whose characters are text.
fn without_last(guess: &Guess<'_>, part: TextPart) -> TextPart {
    let mut part = part;
    let characters = if guess.image.is_central() { 10 } else { 2 };
    part.end = part.end.saturating_sub(1);
    let count = part.count().saturating_mul(characters);
    part.text.truncate(count);
    part.zeros = 0;
    part
}

/// Writes a text that zeros end.
fn push_enclosed(
    guess: &Guess<'_>,
    lines: &mut Lines,
    name: &[u8],
    part: &TextPart,
    delimiter: u8,
) -> Result<(), AllocError> {
    let address = guess.image.address(part.first);
    lines.begin(name, b"DIS")?;
    lines.text().push(b',')?;
    lines.text().push(delimiter)?;
    lines.text().extend_from_slice(&part.text)?;
    lines.text().push(delimiter)?;
    lines.begin_comment_at(&guess.image, address)?;
    lines.end(Some(address))
}

/// Writes whole words of text. A comment stands only behind all their characters.
fn push_words(
    guess: &Guess<'_>,
    lines: &mut Lines,
    name: &[u8],
    part: &TextPart,
) -> Result<(), AllocError> {
    let address = guess.image.address(part.first);
    lines.begin(name, b"DIS")?;
    push_decimal(lines.text(), part.count())?;
    lines.text().push(b',')?;
    lines.text().extend_from_slice(&part.text)?;
    if lines.len() <= MOST_BEFORE_COMMENT {
        lines.begin_comment_at(&guess.image, address)?;
    }
    lines.end(Some(address))
}

/// Writes one word of text as a number of characters, at the left if zeros follow them, else before blanks.
fn push_word(
    guess: &Guess<'_>,
    lines: &mut Lines,
    name: &[u8],
    part: &TextPart,
) -> Result<(), AllocError> {
    let address = guess.image.address(part.first);
    let (text, side): (&[u8], u8) = if part.zeros > 0 {
        (&part.text, b'L')
    } else {
        (without_end(&part.text, b' '), b'H')
    };
    let text: &[u8] = if text.is_empty() { b" " } else { text };
    lines.begin(name, b"DATA")?;
    push_decimal(lines.text(), text.len())?;
    lines.text().push(side)?;
    lines.text().extend_from_slice(text)?;
    lines.begin_comment_at(&guess.image, address)?;
    lines.end(Some(address))
}

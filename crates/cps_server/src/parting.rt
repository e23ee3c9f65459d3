//! Words of a line, none over another.

use crate::line_word::LineWord;
use cps_text::limits::MOST_CHARACTERS;
use std::alloc::{AllocError, Global};

/// Words of a line, in the order of their columns. Of two that have one column the first given has it, and the other is what is left.
pub fn part_words(
    alloc: Global,
    line: &[u8],
    words: &[LineWord],
) -> Result<Vec<LineWord>, AllocError> {
    let owners = owners_of(alloc, line.len().min(MOST_CHARACTERS), words)?;
    let mut parts = Vec::new(alloc);
    let mut owner: usize = 0;
    let mut start: usize = 0;
    for (at, next) in owners.iter().enumerate() {
        if *next != owner {
            push_part(&mut parts, words, owner, start, at)?;
            owner = *next;
            start = at;
        }
    }
    push_last(&mut parts, words, owner, start)?;
    Ok(parts)
}

/// To which word each column belongs. They count from 1; 0: to none.
fn owners_of(alloc: Global, count: usize, words: &[LineWord]) -> Result<Vec<usize>, AllocError> {
    let mut owners = Vec::with_capacity(alloc, count)?;
    for _column in 0..count {
        owners.push(0)?;
    }
    for (at, word) in words.iter().enumerate() {
        for column in word.first..word.end.min(count) {
            if let Some(owner) = owners.get_mut(column) {
                if *owner == 0 {
                    *owner = at.saturating_add(1);
                }
            }
        }
    }
    Ok(owners)
}

/// Appends the columns of a word from one up to another.
fn push_part(
    parts: &mut Vec<LineWord>,
    words: &[LineWord],
    owner: usize,
    first: usize,
    end: usize,
) -> Result<(), AllocError> {
    if let Some(word) = word_of(words, owner) {
        parts.push(LineWord {
            first,
            end,
            nature: word.nature,
        })?;
    }
    Ok(())
}

/// Appends the columns of a word from one on, and words behind all columns that a card has.
fn push_last(
    parts: &mut Vec<LineWord>,
    words: &[LineWord],
    owner: usize,
    first: usize,
) -> Result<(), AllocError> {
    if let Some(word) = word_of(words, owner) {
        push_part(parts, words, owner, first, word.end)?;
    }
    for word in words {
        if word.first >= MOST_CHARACTERS {
            parts.push(*word)?;
        }
    }
    Ok(())
}

fn word_of(words: &[LineWord], owner: usize) -> Option<LineWord> {
    words.get(owner.checked_sub(1)?).copied()
}

//! Which words are text.
use super::classes::Classes;
use super::told::{is_set, no_marks, set};
use std::alloc::{AllocError, Global};

/// Which words are text. Those that are addresses are none.
pub fn find_texts(
    alloc: Global,
    classes: &Classes<'_, '_>,
    pointers: &[bool],
) -> Result<Vec<bool>, AllocError> {
    if classes.image.is_central() {
        find_words(alloc, classes)
    } else {
        find_pairs(alloc, classes, pointers)
    }
}

/// Words of ten characters that are text: by themselves, or beside others.
fn find_words(alloc: Global, classes: &Classes<'_, '_>) -> Result<Vec<bool>, AllocError> {
    let mut likely = no_marks(alloc, &classes.image)?;
    for index in 0..classes.image.words.len() {
        if is_able(classes, index) && is_likely(classes, index) {
            set(&mut likely, index);
        }
    }
    let mut texts = no_marks(alloc, &classes.image)?;
    for index in 0..classes.image.words.len() {
        if is_set(&likely, index)
            || (is_able(classes, index) && is_joining(classes, index, &likely, &texts))
        {
            set(&mut texts, index);
        }
    }
    Ok(texts)
}

/// Whether a word may be text.
fn is_able(classes: &Classes<'_, '_>, index: usize) -> bool {
    classes.is_free(index)
        && classes.image.value(index) != 0
        && classes.image.characters(index).is_textual()
}

/// Whether a word is surely text: blanks, or at least four letters, and with blanks they are six in ten.
fn is_likely(classes: &Classes<'_, '_>, index: usize) -> bool {
    let characters = classes.image.characters(index);
    let (letters, blanks) = (characters.letters(), characters.blanks());
    let count = characters.body().len();
    blanks == count
        || (letters >= 4
            && letters.saturating_add(blanks).saturating_mul(10) >= count.saturating_mul(6))
}

/// Whether a word goes on a text, or has three letters beside a word that is surely text.
fn is_joining(classes: &Classes<'_, '_>, index: usize, likely: &[bool], texts: &[bool]) -> bool {
    let before = classes.image.before(index);
    if before.is_some_and(|it| is_set(texts, it) && !classes.ends_text(it)) {
        return true;
    }
    let after = classes.image.after(index);
    let is_beside = before.is_some_and(|it| is_set(likely, it))
        || after.is_some_and(|it| is_set(likely, it));
    is_beside && classes.image.characters(index).letters() >= 3
}

/// Words of two characters that are text: three or more, or two and a zero, most of them letters and blanks.
fn find_pairs(
    alloc: Global,
    classes: &Classes<'_, '_>,
    pointers: &[bool],
) -> Result<Vec<bool>, AllocError> {
    let mut texts = no_marks(alloc, &classes.image)?;
    let mut first = 0;
    for index in 0..classes.image.words.len() {
        let next = index.saturating_add(1);
        if !is_pair(classes, index, pointers) {
            first = next;
            continue;
        }
        if !ends_pairs(classes, index, pointers) {
            continue;
        }
        if is_text(classes, first, next) {
            for text in first..next {
                set(&mut texts, text);
            }
        }
        first = next;
    }
    Ok(texts)
}

/// Whether a word may be two characters of text.
fn is_pair(classes: &Classes<'_, '_>, index: usize, pointers: &[bool]) -> bool {
    classes.is_free(index)
        && classes.image.value(index) > 0o77
        && !is_set(pointers, index)
        && classes.image.characters(index).is_textual()
}

/// Whether a text ends with a word: it ends with a zero, or no word goes on behind it.
fn ends_pairs(classes: &Classes<'_, '_>, index: usize, pointers: &[bool]) -> bool {
    classes.ends_text(index)
        || !classes
            .image
            .after(index)
            .is_some_and(|next| is_pair(classes, next, pointers))
}

/// Whether some words of two characters are a text.
fn is_text(classes: &Classes<'_, '_>, first: usize, end: usize) -> bool {
    let count = end.saturating_sub(first);
    let mut letters: usize = 0;
    for index in first..end {
        let characters = classes.image.characters(index);
        letters = letters
            .saturating_add(characters.letters())
            .saturating_add(characters.blanks());
    }
    let is_ended = count == 2 && classes.is_zero_behind(end);
    (count >= 3 || is_ended) && letters.saturating_mul(10) >= count.saturating_mul(12)
}

//! Where something begins.
use super::classes::Classes;
use super::control::Control;
use super::told::{is_set, no_marks, set};
use std::alloc::{AllocError, Global};

/// What the word in front of a word is.
#[derive(Clone, Copy, PartialEq, Eq)]
enum Before {
    /// There is none.
    Nothing,
    Code,
    Text,
    Number,
}

/// The words at which something begins: code that isn't fallen into, data behind code, a text.
pub fn find_starts(
    alloc: Global,
    classes: &Classes<'_, '_>,
    texts: &[bool],
) -> Result<Vec<bool>, AllocError> {
    let control = Control {
        image: classes.image,
        told: classes.told,
    };
    let mut starts = no_marks(alloc, &classes.image)?;
    for index in 0..classes.image.words.len() {
        let begins = if classes.coding.begins(index) {
            classes.image.value(index) != 0 && !is_fallen_into(classes, &control, index)
        } else {
            !classes.coding.is_second(index) && begins_data(classes, texts, index)
        };
        if begins {
            set(&mut starts, index);
        }
    }
    Ok(starts)
}

/// Whether execution comes to a word from the code in front of it.
fn is_fallen_into(classes: &Classes<'_, '_>, control: &Control<'_, '_>, index: usize) -> bool {
    let Some(before) = classes.image.before(index) else {
        return false;
    };
    if classes.coding.is_second(before) {
        return before
            .checked_sub(1)
            .is_some_and(|first| control.falls(first));
    }
    classes.coding.begins(before) && control.falls(before)
}

/// What the word in front of a word is.
fn class_before(classes: &Classes<'_, '_>, texts: &[bool], index: usize) -> Before {
    let Some(before) = classes.image.before(index) else {
        return Before::Nothing;
    };
    if classes.coding.is_code(before) {
        Before::Code
    } else if is_set(texts, before) {
        Before::Text
    } else {
        Before::Number
    }
}

/// Whether data begins at a word: a text, or a number that isn't behind another one. The zero behind a text is a part of it.
fn begins_data(classes: &Classes<'_, '_>, texts: &[bool], index: usize) -> bool {
    let before = class_before(classes, texts, index);
    if is_set(texts, index) {
        return before != Before::Text
            || index
                .checked_sub(1)
                .is_some_and(|last| classes.ends_text(last));
    }
    match before {
        Before::Number => false,
        Before::Text => classes.image.value(index) != 0,
        _ => true,
    }
}

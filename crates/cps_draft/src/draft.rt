//! A draft of a source.
use super::drafting::push_draft;
use super::guess::Guess;
use super::hints::{Boldness, GivenWord, Knowledge};
use super::image::{Image, find_places};
use super::lines::Lines;
use super::reading::read_words;
use cps_expr::Machine;
use std::alloc::{AllocError, Global};

/// A draft of a source.
#[derive(Drop)]
pub struct Draft {
    /// Its lines, each ended by a newline.
    pub text: Vec<u8>,
    /// For each line the address of the word that it makes, the first of several; None where it makes none.
    pub words: Vec<Option<u32>>,
}

/// A draft of a source that makes words, given at rising addresses. What is code and what has a name is guessed.
pub fn make_draft(
    alloc: Global,
    machine: Machine,
    words: &[GivenWord],
    known: Knowledge<'_>,
    boldness: &Boldness,
) -> Result<Draft, AllocError> {
    let places = find_places(alloc, words)?;
    let unread = Image {
        machine,
        words,
        places: &places,
        readings: &[],
    };
    let readings = read_words(alloc, &unread)?;
    let image = Image {
        readings: &readings,
        ..unread
    };
    let guess = Guess::of(alloc, image, known.hints, boldness)?;
    let mut lines = Lines::new(alloc, known.hints.is_bare);
    push_draft(alloc, &guess, known, boldness, &mut lines)?;
    Ok(lines.into_draft())
}

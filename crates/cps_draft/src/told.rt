//! What a person told of the words.
use super::hints::{AddressRange, Boldness, Hints};
use super::image::Image;
use std::alloc::{AllocError, Global};

/// What was told of each word.
#[derive(Drop)]
pub struct Told {
    code: Vec<bool>,
    data: Vec<bool>,
    /// Words that are plain numbers.
    plain: Vec<bool>,
}

impl Told {
    pub fn of(
        alloc: Global,
        image: &Image<'_>,
        hints: &Hints,
        boldness: &Boldness,
    ) -> Result<Told, AllocError> {
        let mut data = covered(alloc, image, &hints.data)?;
        mark_unread(image, &mut data);
        Ok(Told {
            code: covered(alloc, image, &hints.code)?,
            data,
            plain: plain_words(alloc, image, boldness)?,
        })
    }

    /// Whether a word is code, if it can be.
    pub fn is_code(&self, index: usize) -> bool {
        is_set(&self.code, index)
    }

    /// Whether a word is data: it is said to be, or not all its digits can be read.
    pub fn is_data(&self, index: usize) -> bool {
        is_set(&self.data, index)
    }

    /// Whether a word is a plain number.
    pub fn is_plain(&self, index: usize) -> bool {
        is_set(&self.plain, index)
    }

    /// The word behind a word, if it may be the second one of an instruction.
    pub fn second(&self, image: &Image<'_>, index: usize) -> Option<usize> {
        let next = image.after(index)?;
        if self.is_data(next) { None } else { Some(next) }
    }

    /// From now on a word is code, unless it is data.
    pub fn tell_code(&mut self, index: usize) {
        set(&mut self.code, index);
    }
}

/// Whether a word has a mark.
pub fn is_set(marks: &[bool], index: usize) -> bool {
    marks.get(index).is_some_and(|mark| *mark)
}

/// Gives a word a mark.
pub fn set(marks: &mut Vec<bool>, index: usize) {
    if let Some(mark) = marks.get_mut(index) {
        *mark = true;
    }
}

/// No marks, for each word of an image.
pub fn no_marks(alloc: Global, image: &Image<'_>) -> Result<Vec<bool>, AllocError> {
    vec![in alloc; false; image.words.len()]
}

/// For each word whether one of some ranges has it.
fn covered(
    alloc: Global,
    image: &Image<'_>,
    ranges: &[AddressRange],
) -> Result<Vec<bool>, AllocError> {
    let mut sorted = ranges.to_vec(alloc)?;
    sorted.sort_unstable_by_key(|range| range.first);
    let mut marks = no_marks(alloc, image)?;
    let mut next = 0;
    for range in &sorted {
        let first = image.count_before(range.first).max(next);
        let end = image.count_before(range.last.saturating_add(1));
        for index in first..end {
            set(&mut marks, index);
        }
        next = first.max(end);
    }
    Ok(marks)
}

/// Marks the words with a digit that can't be read.
fn mark_unread(image: &Image<'_>, marks: &mut Vec<bool>) {
    for index in 0..image.words.len() {
        if !image.is_read(index) {
            set(marks, index);
        }
    }
}

fn plain_words(
    alloc: Global,
    image: &Image<'_>,
    boldness: &Boldness,
) -> Result<Vec<bool>, AllocError> {
    if matches!(boldness, Boldness::Plain) {
        return vec![in alloc; true; image.words.len()];
    }
    let Boldness::Without(addresses) = boldness else {
        return no_marks(alloc, image);
    };
    let mut marks = no_marks(alloc, image)?;
    for address in addresses {
        if let Some(index) = image.index_of(*address) {
            set(&mut marks, index);
        }
    }
    Ok(marks)
}

//! What the words are: code, data, text, addresses.
use super::coding::Coding;
use super::image::Image;
use super::told::Told;

/// Which words are code, and which are plain numbers.
#[derive(Clone, Copy)]
pub struct Classes<'a, 'b> {
    pub image: Image<'a>,
    pub told: &'b Told,
    pub coding: &'b Coding,
}

impl<'a, 'b> Classes<'a, 'b> {
    /// Of the words of an image.
    pub fn of(image: Image<'a>, told: &'b Told, coding: &'b Coding) -> Classes<'a, 'b> {
        Classes {
            image,
            told,
            coding,
        }
    }

    /// Whether a word is whole, and data that isn't to be a plain number.
    pub fn is_free(&self, index: usize) -> bool {
        self.image.is_whole(index) && !self.coding.is_code(index) && !self.told.is_plain(index)
    }

    /// Whether a word is free and zero.
    pub fn is_zero(&self, index: usize) -> bool {
        self.is_free(index) && self.image.value(index) == 0
    }

    /// Whether a word is zero that stands behind the word in front of it without a gap.
    pub fn is_zero_behind(&self, index: usize) -> bool {
        self.image.is_joined(index) && self.image.value(index) == 0
    }

    /// Whether a text ends with a word: its last character is a zero.
    pub fn ends_text(&self, index: usize) -> bool {
        self.image.value(index) & 0o77 == 0
    }
}

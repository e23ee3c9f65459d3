//! Which words are code.
use super::image::Image;
use std::alloc::{AllocError, Global};

/// Which words are code.
#[derive(Drop)]
pub struct Coding {
    /// How many words the code has that begins at a word; 0 where none begins.
    sizes: Vec<u8>,
}

impl Coding {
    /// No word is code.
    pub fn new(alloc: Global, image: &Image<'_>) -> Result<Coding, AllocError> {
        Ok(Coding {
            sizes: vec![in alloc; 0; image.words.len()]?,
        })
    }

    /// How many words the code has that begins at a word; 0 where none begins.
    pub fn size(&self, index: usize) -> usize {
        self.sizes.get(index).map_or(0, |size| usize::from(*size))
    }

    /// Whether code begins at a word.
    pub fn begins(&self, index: usize) -> bool {
        self.size(index) > 0
    }

    /// Whether a word is the second one of an instruction.
    pub fn is_second(&self, index: usize) -> bool {
        index
            .checked_sub(1)
            .is_some_and(|before| self.size(before) == 2)
    }

    /// Whether a word is of code.
    pub fn is_code(&self, index: usize) -> bool {
        self.begins(index) || self.is_second(index)
    }

    /// From now on code of one or two words begins at a word; with 0 words none begins.
    pub fn put(&mut self, index: usize, words: usize) {
        if let Some(size) = self.sizes.get_mut(index) {
            *size = words.min(2) as u8;
        }
    }

    /// How many words are code.
    pub fn count(&self) -> usize {
        let mut count: usize = 0;
        for size in &self.sizes {
            count = count.saturating_add(usize::from(*size));
        }
        count
    }
}

//! A part of a statement, and where it stands.

/// A part of a statement, and how many columns stand before it.
#[derive(Clone, Copy)]
pub struct PlacedText<'a> {
    pub text: &'a [u8],
    pub before: usize,
}

impl<'a> PlacedText<'a> {
    /// Its characters from one place up to another.
    pub fn cut(&self, from: usize, end: usize) -> PlacedText<'a> {
        let end = end.min(self.text.len());
        let start = from.min(end);
        PlacedText {
            text: &self.text[start..end],
            before: self.before.saturating_add(start),
        }
    }
}

//! What an edit made anew.

/// What an edit made anew of the lines that were there before.
#[derive(Drop)]
pub struct Redone {
    /// Where they stand behind the edit, from 0, rising.
    pub places: Vec<usize>,
}

//! What is meant in a line.

/// Columns of a line that a cause means: behind so many of its characters, up to so many.
#[derive(Clone, Copy)]
pub struct MeantColumns {
    pub before: usize,
    pub behind: usize,
}

impl MeantColumns {
    /// Whether the character behind so many is among them.
    pub fn has(self, before: usize) -> bool {
        self.before <= before && before < self.behind
    }
}

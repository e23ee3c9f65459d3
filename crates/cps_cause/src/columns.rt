//! Columns of a text.
ghost use Rattle.cps_cause.specs.Range.{IsRange};

/// From a column of a text to another, both counted, from 1.
#[derive(Clone, Copy, PartialEq, Eq)]
pub struct Columns {
    pub first: usize,
    pub last: usize,
}

impl Columns {
    /// The columns of so many characters behind so many others.
    pub fn behind(count: usize, len: usize) -> Columns {
        let first = count.saturating_add(1);
        Columns {
            first,
            last: first.saturating_add(len.saturating_sub(1)),
        }
    }

    /// From the first column of these to the last of others.
    pub fn through(self, other: Columns) -> Columns {
        Columns {
            first: self.first,
            last: other.last,
        }
    }

    /// The same columns as far as a text of so many has them; of a text without columns the first.
    pub fn within(self, length: usize) -> Columns
        ensures { IsRange length result }
    {
        let most = length.max(1);
        let first = self.first.max(1).min(most);
        let last = self.last.max(first).min(most);
        Columns { first, last }
    }

    /// What stands in these columns of a text.
    pub fn of(self, text: &[u8]) -> &[u8] {
        let end = self.last.min(text.len());
        let start = self.first.saturating_sub(1).min(end);
        &text[start..end]
    }
}

//! Columns of a line of a source.
ghost use Rattle.std.specs.Prelude.{◌≡◌, ◌+◌, ◌≤◌};
ghost use Rattle.cps_text.specs.Line.{longest_line};
ghost use Rattle.cps_mention.specs.Spots.{same_stretch};
ghost use Rattle.cps_mention.specs.CallLines.{columns};

/// Columns of a line of a source, from one up to another.
#[derive(Clone, Copy, Debug, PartialEq, Eq, PartialOrd, Ord, Hash)]
pub struct Stretch {
    /// The number of the line, from 1.
    pub line: u32,
    /// The first column, from 1.
    pub first: usize,
    /// The column behind the last.
    pub end: usize,
}

impl Stretch {
    /// So many columns of a line behind so many others.
    pub fn behind(line: u32, before: usize, len: usize) -> Stretch
        ensures { before + len ≤ longest_line → result ≡ columns line before len }
    {
        let first = before.saturating_add(1);
        Stretch {
            line,
            first,
            end: first.saturating_add(len),
        }
    }

    /// Whether it has the same columns as another.
    pub fn equals(self, other: Stretch) -> bool
        ensures { result ≡ same_stretch self other }
    {
        self.line == other.line && self.first == other.first && self.end == other.end
    }
}

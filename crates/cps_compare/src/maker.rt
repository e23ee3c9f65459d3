//! What made digits of a word.
ghost use Rattle.std.specs.Prelude.{◌≡◌};
ghost use Rattle.cps_compare.specs.Told as told;

/// What made an octal digit of a word.
#[derive(Clone, Copy, PartialEq, Eq)]
pub enum Maker {
    /// No bits were put there.
    Nobody,
    /// The line of that number, from 1 on, also where a statement of its expansion made it.
    Line(u32),
    /// A literal.
    Literal,
}

impl Maker {
    /// Whether it is the same as another.
    pub fn is_same(self, other: Maker) -> bool
        ensures { result ≡ told.is_same self other }
    {
        match (self, other) {
            (Maker::Nobody, Maker::Nobody) | (Maker::Literal, Maker::Literal) => true,
            (Maker::Line(one), Maker::Line(two)) => one == two,
            _ => false,
        }
    }
}

ghost use Rattle.std.specs.Prelude.{◌≡◌};
ghost use Rattle.cps_code.specs.Operand.{operand_names};

use cps_expr::Expr;
use cps_text::Name;

/// What goes into a hole of a code.
#[derive(Clone, Copy, PartialEq, Eq)]
pub enum HoleKind {
    /// The value of an expression.
    Value,
    /// The value of an expression that counts, as in a shift: one below 0 is out of range.
    Count,
    /// The distance from an instruction to its target: out of range where it has more bits than the hole.
    Target,
}

/// What gives a hole its value.
#[derive(Drop)]
pub enum Operand {
    /// The value of an expression.
    Expression(Expr),
    /// The address of a literal: of this word, which stands in the literal pool.
    Literal(u64),
}

impl Operand {
    /// The names of the symbols that its expression reads.
    pub fn names(&self) -> &[Name]
        ensures { result.now ≡ operand_names self.now }
    {
        match self {
            Operand::Expression(expression) => expression.names(),
            Operand::Literal(_) => &[],
        }
    }
}

/// A field of a code that a value is put into: `width` bits from bit `first` of the code on (the leftmost bit is 0).
#[derive(Drop)]
pub struct Hole {
    pub first: u8,
    pub width: u8,
    pub kind: HoleKind,
    pub operand: Operand,
}

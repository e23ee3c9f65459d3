//! What is looked at in a line that is not assembled.
ghost use Rattle.std.specs.Prelude.{◌≡◌};
ghost use Rattle.cps_text.specs.CardFields.{fields_value};
ghost use Rattle.cps_pass.specs.Seen as meaning;

use crate::reading::{Location, read_location};
use cps_expr::Operation;
use cps_text::{Fields, operands};

/// What a line says where lines are skipped or kept.
#[derive(Clone, Copy, PartialEq, Eq)]
pub enum Seen {
    /// An IF that begins a range.
    Begins,
    Else(Location),
    Endif(Location),
    /// A DUP whose lines ENDD ends.
    Repeats,
    Endd(Location),
    /// MACRO.
    Defines,
    Endm(Location),
    Other,
}

/// What is looked at in a line that is not assembled.
pub fn seen_in(fields: Fields<'_>) -> Seen
    ensures { result ≡ meaning.seen_in (fields_value fields.entry) }
{
    let Fields::Statement(statement) = fields else {
        return Seen::Other;
    };
    match Operation::named(statement.operation) {
        Some(Operation::Compare(_) | Operation::If) if begins_range(statement.tail) => {
            Seen::Begins
        }
        Some(Operation::Else) => Seen::Else(read_location(statement.location)),
        Some(Operation::Endif) => Seen::Endif(read_location(statement.location)),
        Some(Operation::Dup) if begins_lines(statement.tail) => Seen::Repeats,
        Some(Operation::Endd) => Seen::Endd(read_location(statement.location)),
        Some(Operation::Macro) => Seen::Defines,
        Some(Operation::Endm) => Seen::Endm(read_location(statement.location)),
        _ => Seen::Other,
    }
}

/// An IF of fewer than three operands begins a range.
fn begins_range(tail: &[u8]) -> bool
    ensures { result ≡ meaning.begins_range tail.now }
{
    operands(tail).count() < 3
}

/// A DUP of fewer than two operands begins a range.
fn begins_lines(tail: &[u8]) -> bool
    ensures { result ≡ meaning.begins_lines tail.now }
{
    operands(tail).count() < 2
}

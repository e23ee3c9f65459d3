//! Whether the location counter stands in a row.
ghost use Rattle.std.specs.Prelude.{◌≡◌, ◌||◌, map, option_to_list};
ghost use Rattle.std.specs.List.{list_any};
ghost use Rattle.cps_expr.specs.Expression.{has_counter};
ghost use Rattle.cps_expr.specs.Statement.{count_in, now_has_counter, later_has_counter};

use crate::expr::Expr;
use crate::pseudo::{DisText, Field, Pseudo, Repetition, ValueTest};

/// Whether `*` stands in an expression that is valued in the first pass.
pub(crate) fn has_counter_now(row: &Pseudo) -> bool
    ensures { result ≡ now_has_counter row.now }
{
    match row {
        Pseudo::Equate(value) => value.has_counter(),
        Pseudo::Set(value) => value.has_counter(),
        Pseudo::Org(address) => address.has_counter(),
        Pseudo::Bss(words) => words.has_counter(),
        Pseudo::Bssz(words) => words.has_counter(),
        Pseudo::Vfd(fields) => any_width(fields.as_slice()),
        Pseudo::Dis(characters) => stands_in_count(characters),
        Pseudo::Compare(test) => stands_in_comparison(test),
        Pseudo::If(test) => stands_in_lines(&test.lines),
        Pseudo::Dup(repetition) => stands_in_repetition(repetition),
        _ => false,
    }
}

/// Whether `*` stands in an expression that is valued in the second pass.
pub(crate) fn has_counter_later(row: &Pseudo) -> bool
    ensures { result ≡ later_has_counter row.now }
{
    match row {
        Pseudo::Con(values) => any_value(values.as_slice()),
        Pseudo::Vfd(fields) => any_field_value(fields.as_slice()),
        _ => false,
    }
}

fn stands_in_count(characters: &DisText) -> bool
    ensures { result ≡ list_any has_counter (count_in characters.now) }
{
    match characters {
        DisText::Counted(count, _) => count.has_counter(),
        DisText::Delimited(_) => false,
    }
}

fn stands_in_comparison(test: &ValueTest) -> bool
    ensures { result ≡ has_counter test.now.left || (has_counter test.now.right || list_any has_counter (option_to_list test.now.lines)) }
{
    test.left.has_counter() || test.right.has_counter() || stands_in_lines(&test.lines)
}

fn stands_in_repetition(repetition: &Repetition) -> bool
    ensures { result ≡ has_counter repetition.now.count || list_any has_counter (option_to_list repetition.now.lines) }
{
    repetition.count.has_counter() || stands_in_lines(&repetition.lines)
}

fn stands_in_lines(lines: &Option<Expr>) -> bool
    ensures { result ≡ list_any has_counter (option_to_list lines.now) }
{
    match lines {
        Some(lines) => lines.has_counter(),
        None => false,
    }
}

fn any_value(values: &[Expr]) -> bool
    ensures { result ≡ list_any has_counter values.now }
{
    values.iter().any(|value| value.has_counter())
}

fn any_width(fields: &[Field]) -> bool
    ensures { result ≡ list_any has_counter (map (λ field. field.width) fields.now) }
{
    for field in fields {
        if field.width.has_counter() {
            return true;
        }
    }
    false
}

fn any_field_value(fields: &[Field]) -> bool
    ensures { result ≡ list_any has_counter (map (λ field. field.value) fields.now) }
{
    for field in fields {
        if field.value.has_counter() {
            return true;
        }
    }
    false
}

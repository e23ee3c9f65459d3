//! The names of a row.
ghost use Rattle.std.specs.Prelude.{◌≡◌, ◌++◌, ◌∷◌, map, option_to_list, OnOk};
ghost use Rattle.std.specs.List.{flat_map};
ghost use Rattle.cps_expr.specs.Expression.{names_of};
ghost use Rattle.cps_expr.specs.Statement.{count_in, now_names, later_names};

use crate::expr::Expr;
use crate::pseudo::{DisText, Field, Pseudo, Repetition, SymbolTest, ValueTest};
use cps_text::Name;
use std::alloc::AllocError;

/// Adds the names that are read in the first pass.
pub(crate) fn push_now(names: &mut Vec<Name>, row: &Pseudo) -> Result<(), AllocError>
    ensures { OnOk result (names.new.items ≡ names.old.items ++ now_names row.now) }
{
    match row {
        Pseudo::Equate(value) => push_names(names, value),
        Pseudo::Set(value) => push_names(names, value),
        Pseudo::Org(address) => push_names(names, address),
        Pseudo::Bss(words) => push_names(names, words),
        Pseudo::Bssz(words) => push_names(names, words),
        Pseudo::Vfd(fields) => push_widths(names, fields.as_slice()),
        Pseudo::Dis(characters) => push_count(names, characters),
        Pseudo::Compare(test) => push_comparison(names, test),
        Pseudo::If(test) => push_symbol_test(names, test),
        Pseudo::Dup(repetition) => push_repetition(names, repetition),
        _ => Ok(()),
    }
}

/// Adds the names that are read in the second pass.
pub(crate) fn push_later(names: &mut Vec<Name>, row: &Pseudo) -> Result<(), AllocError>
    ensures { OnOk result (names.new.items ≡ names.old.items ++ later_names row.now) }
{
    match row {
        Pseudo::Con(values) => push_all_names(names, values.as_slice()),
        Pseudo::Vfd(fields) => push_values(names, fields.as_slice()),
        _ => Ok(()),
    }
}

fn push_names(names: &mut Vec<Name>, expression: &Expr) -> Result<(), AllocError>
    ensures { OnOk result (names.new.items ≡ names.old.items ++ names_of expression.now) }
{
    names.extend_from_slice(expression.names())
}

fn push_lines(names: &mut Vec<Name>, lines: &Option<Expr>) -> Result<(), AllocError>
    ensures { OnOk result (names.new.items ≡ names.old.items ++ flat_map names_of (option_to_list lines.now)) }
{
    match lines {
        Some(lines) => push_names(names, lines),
        None => Ok(()),
    }
}

fn push_count(names: &mut Vec<Name>, characters: &DisText) -> Result<(), AllocError>
    ensures { OnOk result (names.new.items ≡ names.old.items ++ flat_map names_of (count_in characters.now)) }
{
    match characters {
        DisText::Counted(count, _) => push_names(names, count),
        DisText::Delimited(_) => Ok(()),
    }
}

fn push_comparison(names: &mut Vec<Name>, test: &ValueTest) -> Result<(), AllocError>
    ensures { OnOk result (names.new.items ≡ names.old.items
        ++ (names_of test.now.left ++ names_of test.now.right ++ flat_map names_of (option_to_list test.now.lines))) }
{
    push_names(names, &test.left)?;
    push_names(names, &test.right)?;
    push_lines(names, &test.lines)
}

fn push_symbol_test(names: &mut Vec<Name>, test: &SymbolTest) -> Result<(), AllocError>
    ensures { OnOk result (names.new.items ≡ names.old.items ++ test.now.symbol ∷ flat_map names_of (option_to_list test.now.lines)) }
{
    names.push(test.symbol)?;
    push_lines(names, &test.lines)
}

fn push_repetition(names: &mut Vec<Name>, repetition: &Repetition) -> Result<(), AllocError>
    ensures { OnOk result (names.new.items ≡ names.old.items
        ++ (names_of repetition.now.count ++ flat_map names_of (option_to_list repetition.now.lines))) }
{
    push_names(names, &repetition.count)?;
    push_lines(names, &repetition.lines)
}

fn push_widths(names: &mut Vec<Name>, fields: &[Field]) -> Result<(), AllocError>
    ensures { OnOk result (names.new.items ≡ names.old.items ++ flat_map names_of (map (λ field. field.width) fields.now)) }
{
    for field in fields {
        push_names(names, &field.width)?;
    }
    Ok(())
}

fn push_values(names: &mut Vec<Name>, fields: &[Field]) -> Result<(), AllocError>
    ensures { OnOk result (names.new.items ≡ names.old.items ++ flat_map names_of (map (λ field. field.value) fields.now)) }
{
    for field in fields {
        push_names(names, &field.value)?;
    }
    Ok(())
}

fn push_all_names(names: &mut Vec<Name>, values: &[Expr]) -> Result<(), AllocError>
    ensures { OnOk result (names.new.items ≡ names.old.items ++ flat_map names_of values.now) }
{
    for value in values {
        push_names(names, value)?;
    }
    Ok(())
}

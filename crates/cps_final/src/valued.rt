//! Contents with the final values of their expressions.
ghost use Rattle.std.specs.Prelude.{◌≡◌, ◌<◌, ◌≤◌, ◌^◌, ◌||◌, IfSome};
ghost use Rattle.cps_code.specs.Value.{IsInRange};
ghost use Rattle.cps_code.specs.declared.hole.Operand.TheVariants as operand;
ghost use Rattle.cps_expr.specs.Value as ranges;
ghost use Rattle.cps_state.specs.declared.made.Content.TheVariants as content;
ghost use Rattle.cps_state.specs.Made.{width_of, IsContent};
ghost use Rattle.cps_final.specs.Resolving.{view_of};
ghost use Rattle.cps_final.specs.Values as values;

use crate::placed_statement::PlacedStatement;
use cps_code::{Filled, Hole, HoleKind, Operand, bits_of_value, fits_width};
use cps_expr::{Expr, Value};
use cps_state::{Content, Flags, InstructionForm};

/// The number that a content makes, and the flags that its values give.
#[derive(Clone, Copy)]
pub struct ContentNumber {
    pub number: u64,
    pub flags: Flags,
}

/// A content at a place of its block, with its value.
#[derive(Clone, Copy)]
pub struct PlacedContent<'a> {
    pub content: &'a Content,
    pub at: u32,
    pub valued: ContentNumber,
}

/// The value of an expression as a number, and the flags that it gives.
#[derive(Clone, Copy)]
struct ExpressionNumber {
    number: i64,
    flags: Flags,
}

/// A content of a statement; a value that there is not counts as 0.
#[inline(always)]
pub fn value_content(content: &Content, statement: &PlacedStatement) -> ContentNumber
    requires { IsContent content.now }
    ensures number { result.number ≡ values.number_of (view_of statement.now).known (view_of statement.now).here content.now }
    ensures flags { result.flags ≡ values.value_flags (view_of statement.now).known (view_of statement.now).here content.now }
    ensures fits { result.number < 2 ^ width_of content.now }
{
    match content {
        Content::Instruction(form) => value_instruction(form, statement),
        Content::Value(hole) => value_in(hole, statement),
        Content::Number(_, number) => ContentNumber {
            number: *number,
            flags: Flags::none(),
        },
        Content::Unsized(hole) => ContentNumber {
            number: 0,
            flags: value_operand(&hole.operand, statement).flags,
        },
    }
}

/// A value in the bits of its hole.
fn value_in(hole: &Hole, statement: &PlacedStatement) -> ContentNumber
    requires some { 0 < hole.now.width }
    requires few { hole.now.width ≤ 60 }
    ensures number { result.number ≡ values.number_of (view_of statement.now).known (view_of statement.now).here (content.Value hole.now) }
    ensures flags { result.flags ≡ values.value_flags (view_of statement.now).known (view_of statement.now).here (content.Value hole.now) }
    ensures fits { result.number < 2 ^ hole.now.width }
{
    let value = value_operand(&hole.operand, statement);
    let mut flags = value.flags;
    flags.cut = !fits_width(value.number, hole.width);
    ContentNumber {
        number: bits_of_value(value.number, hole.width),
        flags,
    }
}

/// An instruction with the values of its holes.
fn value_instruction(form: &InstructionForm, statement: &PlacedStatement) -> ContentNumber
    ensures number { result.number ≡ values.form_number (view_of statement.now).known (view_of statement.now).here form.now }
    ensures flags { result.flags ≡ values.form_flags (view_of statement.now).known (view_of statement.now).here form.now }
    ensures fits { result.number < 2 ^ form.now.bits }
{
    match form.holes() {
        [] => valued_form(form.fill(&[]), Flags::none()),
        [hole] => {
            let value = value_hole(hole, statement);
            valued_form(form.fill(&[value.number]), value.flags)
        }
        [hole, other_hole] => {
            let value = value_hole(hole, statement);
            let other = value_hole(other_hole, statement);
            valued_form(
                form.fill(&[value.number, other.number]),
                value.flags.joined(other.flags),
            )
        }
        _ => unreachable!(),
    }
}

/// A form that was filled, with the flags of the values in it.
fn valued_form(filled: Filled, flags: Flags) -> ContentNumber
    ensures number { result.number ≡ filled.digits }
    ensures flags { result.flags ≡ record flags { operand = (flags.operand || filled.is_out_of_range); cut = filled.is_truncated } }
{
    let mut flags = flags;
    flags.operand = flags.operand || filled.is_out_of_range;
    flags.cut = filled.is_truncated;
    ContentNumber {
        number: filled.digits,
        flags,
    }
}

/// What goes into a hole.
fn value_hole(hole: &Hole, statement: &PlacedStatement) -> ExpressionNumber
    ensures number { result.number ≡ values.number_for hole.now.kind (view_of statement.now).here (values.operand_number (view_of statement.now).known (view_of statement.now).here hole.now.operand) }
    ensures flags { result.flags ≡ values.operand_flags (view_of statement.now).known (view_of statement.now).here hole.now.operand }
{
    let value = value_operand(&hole.operand, statement);
    match hole.kind {
        HoleKind::Value | HoleKind::Count => value,
        HoleKind::Target => ExpressionNumber {
            number: value.number - statement.here() as i64,
            flags: value.flags,
        },
    }
}

/// What goes into a hole that takes values: the value of an expression, or the address of a literal.
fn value_operand(operand: &Operand, statement: &PlacedStatement) -> ExpressionNumber
    ensures number { result.number ≡ values.operand_number (view_of statement.now).known (view_of statement.now).here operand.now }
    ensures flags { result.flags ≡ values.operand_flags (view_of statement.now).known (view_of statement.now).here operand.now }
    ensures range { IsInRange result.number }
{
    match operand {
        Operand::Expression(expression) => value_of(expression, statement),
        Operand::Literal(word) => ExpressionNumber {
            number: statement.literal_address(*word) as i64,
            flags: Flags::none(),
        },
    }
}

/// The value of an expression in which `*` stands for the address of the statement's first word.
#[inline(always)]
fn value_of(expression: &Expr, statement: &PlacedStatement) -> ExpressionNumber
    ensures number { result.number ≡ values.number_at (view_of statement.now).known.symbols (view_of statement.now).here expression.now }
    ensures flags { result.flags ≡ values.operand_flags (view_of statement.now).known (view_of statement.now).here (operand.Expression expression.now) }
    ensures range { IsInRange result.number }
{
    let valued = statement.value(expression);
    let offset = plain_offset(valued.value);
    let mut flags = Flags::none();
    flags.operand = offset.is_none();
    flags.undefined = valued.undefined;
    ExpressionNumber {
        number: offset.unwrap_or(0),
        flags,
    }
}

/// A plain value as a number; one in a block is none.
fn plain_offset(value: Option<Value>) -> Option<i64>
    requires { IfSome value ranges.IsInRange }
    ensures offset { result ≡ values.plain_offset value }
    ensures range { IfSome result IsInRange }
{
    match value {
        Some(
            Value {
                block: None,
                offset,
            },
        ) => Some(offset),
        _ => None,
    }
}

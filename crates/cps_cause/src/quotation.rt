//! What words quote of a statement.

use crate::columns::Columns;
use cps_expr::Radix;
use cps_text::{Fields, StatementFields, read_fields};

/// What words quote of a statement.
#[derive(Clone, Copy)]
pub struct Quotation<'a> {
    /// What stands where the cause shows.
    pub shown: &'a [u8],
    pub operation: &'a [u8],
    pub location: &'a [u8],
    pub operands: &'a [u8],
    /// Whether a comment stands behind the operation field, and no operand.
    pub has_comment_alone: bool,
    /// Whether text begins one blank behind the operands, which they end at.
    pub is_parted: bool,
    /// The base of the statement's numbers.
    pub base: Radix,
}

impl<'a> Quotation<'a> {
    /// Of a statement's text, with the columns where a cause shows. Its numbers are decimal.
    pub fn of(text: &'a [u8], within: Columns) -> Quotation<'a> {
        let shown = within.of(text);
        match read_fields(text) {
            Fields::Statement(fields) => Quotation {
                shown,
                operation: fields.operation,
                location: fields.location,
                operands: fields.variable,
                has_comment_alone: fields.variable.is_empty() && !fields.comment.is_empty(),
                is_parted: is_parted(fields),
                base: Radix::Decimal,
            },
            _ => Quotation {
                shown,
                operation: &[],
                location: &[],
                operands: &[],
                has_comment_alone: false,
                is_parted: false,
                base: Radix::Decimal,
            },
        }
    }

    /// The same, where numbers have this base.
    pub fn counting_in(self, base: Radix) -> Quotation<'a> {
        let mut counting = self;
        counting.base = base;
        counting
    }
}

/// Whether a comment begins one blank behind operands.
fn is_parted(fields: StatementFields<'_>) -> bool {
    let before = fields.tail.len().saturating_sub(fields.comment.len());
    !fields.variable.is_empty()
        && !fields.comment.is_empty()
        && before == fields.variable.len().saturating_add(1)
}

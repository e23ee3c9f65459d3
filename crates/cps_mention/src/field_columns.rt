//! The columns in which a source's fields stand.

use crate::line_fields::LineFields;
use crate::line_gaps::LAST_COLUMN;
use cps_list::View;
use std::alloc::{AllocError, Global};

/// How many columns stand before an operation, before operands and before a comment.
#[derive(Clone, Copy)]
pub struct FieldColumns {
    pub operation: usize,
    pub operands: usize,
    pub comment: usize,
}

/// The columns of statements where nothing else is usual: 11, 18 and 30.
const USUAL: FieldColumns = FieldColumns {
    operation: 10,
    operands: 17,
    comment: 29,
};

impl FieldColumns {
    /// Those in which more than half of a source's statements have such a field, else the usual ones. Comments one blank behind operands don't count, and no comment
    /// comes before column 30.
    pub fn of<V: View>(alloc: Global, view: &V) -> Result<FieldColumns, AllocError> {
        let mut operations = ColumnCounts::new(alloc)?;
        let mut operands = ColumnCounts::new(alloc)?;
        let mut comments = ColumnCounts::new(alloc)?;
        for done in 0..view.count() {
            if let Some(fields) = fields_of(view, done + 1) {
                operations.add(fields.operation.before);
                if !fields.operands.text.is_empty() {
                    operands.add(fields.operands.before);
                    if !fields.comment.text.is_empty() && fields.gap > 1 {
                        comments.add(fields.comment.before);
                    }
                }
            }
        }
        Ok(FieldColumns {
            operation: operations.most_or(USUAL.operation),
            operands: operands.most_or(USUAL.operands),
            comment: comments.most_or(USUAL.comment).max(USUAL.comment),
        })
    }
}

/// The fields of a source's line that is a statement.
fn fields_of<V: View>(view: &V, number: u32) -> Option<LineFields<'_>> {
    let line = view.line(number)?;
    LineFields::of(line.bytes())
}

/// How many fields begin behind so many columns.
#[derive(Drop)]
struct ColumnCounts {
    counts: Vec<usize>,
    total: usize,
}

impl ColumnCounts {
    fn new(alloc: Global) -> Result<ColumnCounts, AllocError> {
        let mut counts = Vec::with_capacity(alloc, LAST_COLUMN)?;
        for _column in 0..LAST_COLUMN {
            counts.push(0)?;
        }
        Ok(ColumnCounts { counts, total: 0 })
    }

    fn add(&mut self, before: usize) {
        if before < self.counts.len() {
            self.counts[before] = self.counts[before].saturating_add(1);
            self.total = self.total.saturating_add(1);
        }
    }

    /// Where more than half begin; else what is usual.
    fn most_or(&self, usual: usize) -> usize {
        for (before, count) in self.counts.iter().enumerate() {
            if *count > self.total.saturating_sub(*count) {
                return before;
            }
        }
        usual
    }
}

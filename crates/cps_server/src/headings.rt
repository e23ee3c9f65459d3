//! Headings: comments that begin with two asterisks.

use crate::document::Document;
use crate::mentions::line_of;
use cps_cause::Columns;
use cps_list::View;
use std::alloc::{AllocError, Global};

/// A line that is a heading, from 0, and the columns in which it has words.
#[derive(Clone, Copy)]
pub struct Heading {
    pub line: u32,
    pub columns: Columns,
}

/// The headings of a document, in the order of the lines.
pub fn headings_in(alloc: Global, document: &Document) -> Result<Vec<Heading>, AllocError> {
    let mut headings = Vec::new(alloc);
    for line in 0..document.session().count() {
        if let Some(columns) = heading_columns(line_of(document, line)) {
            headings.push(Heading { line, columns })?;
        }
    }
    Ok(headings)
}

/// The columns between the asterisks and blanks of a heading. None: nothing stands there, or the line is no heading.
fn heading_columns(line: &[u8]) -> Option<Columns> {
    let [b'*', b'*', ..] = line else {
        return None;
    };
    let first = line.iter().position(|byte| is_of_word(*byte))?;
    let last = line.iter().rposition(|byte| is_of_word(*byte))?;
    Some(Columns::behind(first, 1).through(Columns::behind(last, 1)))
}

fn is_of_word(byte: u8) -> bool {
    byte > b' ' && byte != b'*'
}

//! A line with another name in some of its columns.

use crate::line_gaps::{LAST_COLUMN, LineGap, list_gaps};
use crate::stretch::Stretch;
use cps_cause::filled_len;
use cps_text::limits::MOST_CHARACTERS;
use std::alloc::{AllocError, Global};

/// What a line becomes.
#[derive(Drop)]
struct ChangedLine<'a> {
    was: &'a [u8],
    /// How many of its characters are passed.
    passed: usize,
    is: Vec<u8>,
}

/// A line with another name in these columns, which are in order. Where gaps aren't kept, the next field stays in its column as long as one blank is left before
/// it. Columns 73 on stay. None: the line has no room.
pub fn change_line(
    alloc: Global,
    text: &[u8],
    columns: &[Stretch],
    name: &[u8],
    keeps_gaps: bool,
) -> Result<Option<Vec<u8>>, AllocError> {
    let gaps = if keeps_gaps {
        Vec::new(alloc)
    } else {
        list_gaps(alloc, text)?
    };
    let mut line = ChangedLine {
        was: text,
        passed: 0,
        is: Vec::with_capacity(alloc, MOST_CHARACTERS)?,
    };
    for stretch in columns {
        if stretch.first <= LAST_COLUMN {
            line.keep_columns(&gaps, stretch.first)?;
            line.put(*stretch, name)?;
        }
    }
    line.keep_columns(&gaps, LAST_COLUMN)?;
    line.copy_to(LAST_COLUMN)?;
    if !line.end_card()? {
        return Ok(None);
    }
    for stretch in columns {
        if stretch.first > LAST_COLUMN {
            line.put(*stretch, name)?;
        }
    }
    line.copy_to(text.len())?;
    Ok(line.into_text())
}

impl<'a> ChangedLine<'a> {
    /// What stands before a place stays.
    fn copy_to(&mut self, place: usize) -> Result<(), AllocError> {
        let end = place.min(self.was.len());
        let start = self.passed.min(end);
        self.is.extend_from_slice(&self.was[start..end])?;
        self.passed = self.passed.max(end);
        Ok(())
    }

    /// Another name in some columns.
    fn put(&mut self, columns: Stretch, name: &[u8]) -> Result<(), AllocError> {
        self.copy_to(columns.first.saturating_sub(1))?;
        self.is.extend_from_slice(name)?;
        self.passed = self.passed.max(columns.end.saturating_sub(1));
        Ok(())
    }

    /// The fields behind gaps that come next, before a column, stay in their columns.
    fn keep_columns(&mut self, gaps: &[LineGap], column: usize) -> Result<(), AllocError> {
        for gap in gaps {
            if gap.first >= self.passed && gap.first < column {
                self.copy_to(gap.first)?;
                self.is.push(b' ')?;
                self.fill_to(gap.end)?;
                self.passed = gap.end;
            }
        }
        Ok(())
    }

    /// Blanks up to a place.
    fn fill_to(&mut self, place: usize) -> Result<(), AllocError> {
        for _blank in self.is.len()..place {
            self.is.push(b' ')?;
        }
        Ok(())
    }

    /// Ends what is read, so that what stands behind it stays in its columns. False: there is no room.
    fn end_card(&mut self) -> Result<bool, AllocError> {
        if self.passed > LAST_COLUMN {
            return Ok(false);
        }
        let is_more = self.was.len() > LAST_COLUMN;
        if is_more || self.is.len() > LAST_COLUMN {
            let len = filled_len(&self.is);
            self.is.truncate(len);
        }
        if is_more {
            self.fill_to(LAST_COLUMN)?;
        }
        Ok(self.is.len() <= LAST_COLUMN)
    }

    /// All of it; None: it is too long.
    fn into_text(self) -> Option<Vec<u8>> {
        let ChangedLine { is, .. } = self;
        if is.len() > MOST_CHARACTERS {
            None
        } else {
            Some(is)
        }
    }
}

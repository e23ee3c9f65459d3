//! The marks of a text of which an editor is told first.
ghost use Rattle.std.specs.Prelude.{◌≡◌, ◌∷◌, [], ◌++◌, length, map, IfOk, OnOk};
ghost use Rattle.cps_server.specs.Marks.{place_of};
ghost use Rattle.cps_server.specs.Code.Adding.{Adds, mark_at};
ghost use Rattle.cps_server.specs.Code.Listing.{Lists, ListsMore};

use crate::line_mark::LineMark;
use crate::line_marks::LineMarks;
use crate::mark::Mark;
use std::alloc::{AllocError, Global};

/// The most marks that are told one by one.
pub const MOST_TOLD: usize = 1_000;

/// The marks of a text that are told one by one, and the next one; and how many there are in all.
pub struct FirstMarks {
    pub first: Vec<Mark>,
    pub count: usize,
}

// Written out, as that of a mark.
impl Drop for FirstMarks {
    fn drop(self) {
        let FirstMarks { first, count: _ } = self;
        drop(first);
    }
}

impl FirstMarks {
    /// Those of a text without a mark.
    pub fn new(alloc: Global) -> FirstMarks
        ensures { Lists [] result }
    {
        FirstMarks {
            first: Vec::new(alloc),
            count: 0,
        }
    }

    /// Adds the marks of the line of a number, from 0. A count that passes 64 bits can't be: each mark takes memory.
    pub fn push_line(&mut self, number: u32, line: &LineMarks) -> Result<(), AllocError>
        ensures { OnOk result (ListsMore (map (mark_at number) line.now.marks.items) self.old self.new) }
    {
        let marks = line.marks.as_slice();
        if marks.is_empty() {
            return Ok(());
        }
        let Some(count) = self.count.checked_add(marks.len()) else {
            return Err(AllocError);
        };
        if self.first.len() > MOST_TOLD {
            self.count = count;
            return Ok(());
        }
        let room = MOST_TOLD + 1 - self.first.len();
        push_first(&mut self.first, number, &marks[..room.min(marks.len())])?;
        self.count = count;
        Ok(())
    }

    /// Adds a mark.
    pub fn push(&mut self, mark: Mark) -> Result<(), AllocError>
        ensures { OnOk result (ListsMore (place_of mark ∷ []) self.old self.new) }
    {
        let Some(count) = self.count.checked_add(1) else {
            return Err(AllocError);
        };
        if self.first.len() > MOST_TOLD {
            drop(mark);
            self.count = count;
            return Ok(());
        }
        self.first.push(mark)?;
        self.count = count;
        Ok(())
    }
}

/// Appends marks of the line of a number, from 0.
fn push_first(first: &mut Vec<Mark>, number: u32, marks: &[LineMark]) -> Result<(), AllocError>
    ensures { OnOk result (Adds (map (mark_at number) marks.now) first.old.items first.new.items) }
{
    for mark in marks {
        first.push(mark_of(number, mark)?)?;
    }
    Ok(())
}

/// A mark of the line of a number, from 0.
fn mark_of(line: u32, mark: &LineMark) -> Result<Mark, AllocError>
    ensures { IfOk result (λ made. place_of made ≡ mark_at line mark.now) }
{
    let message = mark.message.clone()?;
    Ok(Mark {
        line,
        columns: mark.columns,
        kind: mark.kind,
        lead: mark.lead,
        message,
    })
}

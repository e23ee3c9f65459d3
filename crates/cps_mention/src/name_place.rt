//! What stands at a place of a source.

use crate::meaning::Meaning;
use crate::mention::Mention;
use crate::rename_fault::RenameFault;
use crate::stretch::Stretch;
use std::alloc::{AllocError, Global};
use std::collections::BTreeSet;

/// The columns of a name, and what it means there.
#[derive(Clone, Copy)]
pub struct NamePlace {
    pub stretch: Stretch,
    pub meaning: Meaning,
}

/// The name that stands at a column of a line, both from 1, if it can be renamed. The place behind a name belongs to it, unless another begins there.
pub fn name_at(
    alloc: Global,
    mentions: &[Mention],
    line: u32,
    column: usize,
) -> Result<Result<NamePlace, RenameFault>, AllocError> {
    let Some(stretch) = stretch_at(mentions, line, column) else {
        return Ok(Err(RenameFault::NothingHere));
    };
    let Some(meaning) = meaning_of(mentions, stretch) else {
        return Ok(Err(RenameFault::TwoMeanings { line }));
    };
    if let Meaning::Program(_) = meaning {
        return Ok(Err(RenameFault::ProgramName));
    }
    match fault_of_parts(alloc, mentions, meaning)? {
        Some(fault) => Ok(Err(fault)),
        None => Ok(Ok(NamePlace { stretch, meaning })),
    }
}

/// The shortest columns of a name with this column in them; where there are none those that end before it.
fn stretch_at(mentions: &[Mention], line: u32, column: usize) -> Option<Stretch> {
    let mut best: Option<Stretch> = None;
    for mention in mentions {
        for stretch in mention.written.as_slice() {
            if stretch.line == line && stretch.first <= column && column <= stretch.end {
                if is_nearer(*stretch, best, column) {
                    best = Some(*stretch);
                }
            }
        }
    }
    best
}

fn is_nearer(stretch: Stretch, best: Option<Stretch>, column: usize) -> bool {
    let Some(best) = best else {
        return true;
    };
    if (column < stretch.end) != (column < best.end) {
        return column < stretch.end;
    }
    stretch.end.saturating_sub(stretch.first) < best.end.saturating_sub(best.first)
}

/// What columns mean; None: two things.
fn meaning_of(mentions: &[Mention], stretch: Stretch) -> Option<Meaning> {
    let mut found: Option<Meaning> = None;
    for mention in mentions {
        if mention.written.as_slice().contains(&stretch) {
            match found {
                Some(meaning) if meaning != mention.meaning => return None,
                _ => found = Some(mention.meaning),
            }
        }
    }
    found
}

/// Whether a name is written in parts, or its columns mean something else too, or are a part of another name.
fn fault_of_parts(
    alloc: Global,
    mentions: &[Mention],
    meaning: Meaning,
) -> Result<Option<RenameFault>, AllocError> {
    let mut columns = BTreeSet::new(alloc);
    for mention in mentions {
        if mention.meaning == meaning {
            match mention.written.as_slice() {
                [stretch] => insert_columns(&mut columns, *stretch)?,
                _ => {
                    return Ok(Some(RenameFault::Joined {
                        name: meaning.name(),
                        line: line_of(mention),
                    }));
                }
            }
        }
    }
    for mention in mentions {
        if mention.meaning != meaning && shares_one(mention, &columns) {
            if let Some(fault) = fault_beside(meaning, mention) {
                return Ok(Some(fault));
            }
        }
    }
    Ok(None)
}

/// The line of the first column that writes a name.
pub fn line_of(mention: &Mention) -> u32 {
    match mention.written.first() {
        Some(stretch) => stretch.line,
        None => 0,
    }
}

/// Why a name isn't renamed with which another mention shares a column.
fn fault_beside(meaning: Meaning, mention: &Mention) -> Option<RenameFault> {
    match mention.written.as_slice() {
        [stretch] => Some(RenameFault::TwoMeanings { line: stretch.line }),
        _ => {
            if let Meaning::Parameter(..) = meaning {
                return None;
            }
            let line = mention.by.first().copied()?;
            Some(RenameFault::PartOfJoined {
                part: meaning.name(),
                joined: mention.meaning.name(),
                line,
            })
        }
    }
}

/// Each column by itself.
fn insert_columns(columns: &mut BTreeSet<Stretch>, stretch: Stretch) -> Result<(), AllocError> {
    for first in stretch.first..stretch.end {
        columns.insert(column_in(stretch.line, first))?;
    }
    Ok(())
}

/// One column.
pub fn column_in(line: u32, first: usize) -> Stretch {
    Stretch {
        line,
        first,
        end: first.saturating_add(1),
    }
}

fn shares_one(mention: &Mention, columns: &BTreeSet<Stretch>) -> bool {
    for stretch in mention.written.as_slice() {
        for first in stretch.first..stretch.end {
            if columns.contains(&column_in(stretch.line, first)) {
                return true;
            }
        }
    }
    false
}

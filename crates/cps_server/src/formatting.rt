//! The edits that put the fields of lines into columns. Which they are is a guess of `cps_mention`: the text is assembled with them, and those are told by
//! which it stays the same.
ghost use Rattle.std.specs.Prelude.{◌≡◌, All, IsTrue, IfOk, IfSome, map};
ghost use Rattle.serde_json.specs.View.{view};
ghost use Rattle.cps_mention.specs.Spacing.{unblanked};
ghost use Rattle.cps_rpc.specs.Lines.{text_lines};
ghost use Rattle.cps_server.specs.Code.Spacing.{AreFormats, StandsIn, unblanked_text};
ghost use Rattle.cps_server.specs.Formats.{IsSpaced, TellsFormat, TellsFormatIn};

use crate::document::Document;
use crate::name_places::names_in;
use crate::queried_text::QueriedText;
use crate::renaming::changed_line;
use crate::text_edit::{TextEdit, list_edits};
use cps_mention::{
    Calling, LineEdit, LineRange, WrittenNames, format_edits, is_same_unblanked,
    line_named_otherwise,
};
use cps_rpc::{Position, Range};
use serde_json::Value;
use std::alloc::{AllocError, Global};

/// How often a text is assembled for one answer at most. A line that can't be moved is found among 99,999 by 18; each takes as long as to open the text.
const MOST_ASSEMBLIES: u32 = 24;

/// The lines of a deck in which fields move, and the names that the deck writes.
#[derive(Clone, Copy)]
struct Formatting<'a> {
    deck: QueriedText<'a>,
    range: Range,
    names: &'a WrittenNames,
}

/// Which edits are tried next: those from a place on, but fewer than up to another one, by which something changed.
#[derive(Clone, Copy)]
struct Search {
    start: usize,
    fails: Option<usize>,
}

/// The edits that put the fields of a deck into columns.
pub fn format_text(alloc: Global, deck: QueriedText<'_>) -> Result<Value, AllocError>
    ensures { IfOk result (λ json. TellsFormat deck.entry.encoding deck.entry.document.now (view json)) }
{
    let start = Position {
        line: 0,
        character: 0,
    };
    let end = Position {
        line: u32::MAX,
        character: 0,
    };
    format_range(alloc, deck, Range { start, end })
}

/// Those in the lines of a range, from its first through its last; not in the last where the range ends before its first character.
pub fn format_range(alloc: Global, deck: QueriedText<'_>, range: Range) -> Result<Value, AllocError>
    ensures { IfOk result (λ json. TellsFormatIn deck.entry.encoding deck.entry.document.now range (view json)) }
{
    let lines = format_edits(alloc, deck.document.session(), lines_in(range))?;
    let planned = text_edits(alloc, deck, &lines)?;
    let names = names_in(alloc, deck.document)?;
    let formatting = Formatting {
        deck,
        range,
        names: &names,
    };
    let kept = formatting.certified(alloc, &planned)?;
    list_edits(alloc, &kept)
}

/// The lines of a range, from 1.
fn lines_in(range: Range) -> LineRange {
    let end = range.end;
    let last = if end.character == 0 && end.line > range.start.line {
        end.line
    } else {
        end.line.saturating_add(1)
    };
    LineRange {
        first: range.start.line.saturating_add(1),
        last,
    }
}

/// Edits of lines as an editor makes them, but for those that can't be.
fn text_edits<'a>(
    alloc: Global,
    deck: QueriedText<'_>,
    lines: &'a [LineEdit],
) -> Result<Vec<TextEdit<'a>>, AllocError> {
    let mut edits = Vec::new(alloc);
    for edit in lines {
        if let Some(edit) = TextEdit::of(deck, edit) {
            edits.push(edit)?;
        }
    }
    Ok(edits)
}

impl<'a> Formatting<'a> {
    /// Those edits by which only blanks change. Where something else changes by all of them, the first by which it does is found by halving, and left out.
    fn certified<'b>(
        self,
        alloc: Global,
        planned: &[TextEdit<'b>],
    ) -> Result<Vec<TextEdit<'b>>, AllocError>
        ensures { IfOk result (λ kept. AreFormats self.entry.deck self.entry.range kept.items) }
    {
        let mut kept = Vec::new(alloc);
        let mut search = Search {
            start: 0,
            fails: None,
        };
        for _ in 0..MOST_ASSEMBLIES {
            let tried = search.tried(planned);
            if tried.is_empty() {
                return Ok(kept);
            }
            match self.with_more(alloc, &kept, tried)? {
                Some(grown) => {
                    kept = grown;
                    search = search.behind(tried.len());
                }
                None => search = search.before(tried.len()),
            }
        }
        Ok(kept)
    }

    /// Edits with more behind them. None: something else changes by them.
    fn with_more<'b>(
        self,
        alloc: Global,
        kept: &[TextEdit<'b>],
        more: &[TextEdit<'b>],
    ) -> Result<Option<Vec<TextEdit<'b>>>, AllocError>
        ensures { IfOk result (λ made. IfSome made (λ grown. AreFormats self.entry.deck self.entry.range grown.items)) }
    {
        let mut grown = kept.to_vec(alloc)?;
        grown.extend_from_slice(more)?;
        if self.are_formats(alloc, &grown)? {
            Ok(Some(grown))
        } else {
            Ok(None)
        }
    }

    /// Whether only blanks change by edits, in the lines of the range.
    fn are_formats(self, alloc: Global, edits: &[TextEdit<'_>]) -> Result<bool, AllocError>
        ensures { IfOk result (λ are. IsTrue are → AreFormats self.entry.deck self.entry.range edits.now) }
    {
        if !are_in_range(self.range, edits) {
            return Ok(false);
        }
        let before = self.deck.document;
        let after = before.with_edits(self.deck.encoding, edits)?;
        if !is_spaced(alloc, before, &after)? {
            return Ok(false);
        }
        if !self.names_stay(alloc, &after)? {
            return Ok(false);
        }
        Ok(true)
    }

    /// Whether all names mean what they meant, where a text is another but for its blanks.
    fn names_stay(self, alloc: Global, after: &Document) -> Result<bool, AllocError> {
        let names = names_in(alloc, after)?;
        let changed = line_named_otherwise(alloc, &self.names.mentions, &names.mentions, None)?;
        Ok(changed.is_none())
    }
}

impl Search {
    /// What is tried next: all that is left, or half of what something changed by.
    fn tried<'a, 'b>(self, planned: &'a [TextEdit<'b>]) -> &'a [TextEdit<'b>] {
        let end = match self.fails {
            Some(fails) => {
                let half = fails.saturating_sub(self.start) / 2;
                self.start.saturating_add(half)
            }
            None => planned.len(),
        };
        let end = end.min(planned.len());
        &planned[self.start.min(end)..end]
    }

    /// Behind so many edits by which only blanks change. If something else does by the next one alone, behind that.
    fn behind(self, tried: usize) -> Search {
        let start = self.start.saturating_add(tried);
        match self.fails {
            Some(fails) if fails > start.saturating_add(1) => Search {
                start,
                fails: self.fails,
            },
            Some(fails) => Search {
                start: fails,
                fails: None,
            },
            None => Search { start, fails: None },
        }
    }

    /// Among so many edits by which something else changes. If it is one, behind that.
    fn before(self, tried: usize) -> Search {
        let fails = self.start.saturating_add(tried);
        if tried > 1 {
            Search {
                start: self.start,
                fails: Some(fails),
            }
        } else {
            Search {
                start: fails,
                fails: None,
            }
        }
    }
}

// ---- the certificate

fn are_in_range(range: Range, edits: &[TextEdit<'_>]) -> bool
    ensures { IsTrue result → All (StandsIn range) edits.now }
{
    for edit in edits {
        if !is_in_range(range, *edit) {
            return false;
        }
    }
    true
}

fn is_in_range(range: Range, edit: TextEdit<'_>) -> bool
    ensures { IsTrue result → StandsIn range edit.entry }
{
    range.start.line <= edit.line && edit.line <= range.end.line
}

/// Whether a text is another but for its blanks, and is assembled to the same.
fn is_spaced(alloc: Global, before: &Document, after: &Document) -> Result<bool, AllocError>
    ensures { IfOk result (λ is. IsTrue is → IsSpaced before.now after.now) }
{
    if !has_same_lines(alloc, before, after)? {
        return Ok(false);
    }
    match changed_line(alloc, before, after, Calling::Same)? {
        Some(_) => Ok(false),
        None => Ok(true),
    }
}

/// Whether each line has the same characters beside its blanks.
fn has_same_lines(alloc: Global, before: &Document, after: &Document) -> Result<bool, AllocError>
    ensures { IfOk result (λ same. IsTrue same → map unblanked (text_lines after.now) ≡ map unblanked (text_lines before.now)) }
{
    are_same_unblanked(alloc, before.lines(), after.lines())
}

fn are_same_unblanked(alloc: Global, was: &[Vec<u8>], is: &[Vec<u8>]) -> Result<bool, AllocError>
    ensures { IfOk result (λ same. IsTrue same → map unblanked_text is.now ≡ map unblanked_text was.now) }
{
    if was.len() != is.len() {
        return Ok(false);
    }
    for at in 0..was.len() {
        if !is_same_unblanked(alloc, &was[at], &is[at])? {
            return Ok(false);
        }
    }
    Ok(true)
}

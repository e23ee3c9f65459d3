//! Positions and ranges.
ghost use Rattle.std.specs.Prelude.{◌≡◌, ◌≤◌, ◌-◌, IfOk};
ghost use Rattle.serde_json.specs.View.{view};
ghost use Rattle.cps_server.specs.Ranges as ranges;
ghost use Rattle.cps_server.specs.Code.Telling.{IsWithin};

use crate::mentions::line_of;
use crate::queried_text::QueriedText;
use crate::words::{word_end, word_start};
use cps_cause::Columns;
use cps_rpc::{Encoding, Position, place_in, units_before};
use serde_json::{Value, json};
use std::alloc::{AllocError, Global};

/// From so many units of a line up to others.
#[derive(Clone, Copy)]
pub struct Units {
    pub start: u32,
    pub end: u32,
}

impl Units {
    /// Those of columns, which are bytes, in a line.
    pub fn of(encoding: Encoding, line: &[u8], columns: Columns) -> Units
        ensures { result ≡ record {
          start = ranges.told_units encoding line.now (columns.first - 1);
          end = ranges.told_units encoding line.now columns.last;
        } }
    {
        Units {
            start: units_before(encoding, line, columns.first.saturating_sub(1)),
            end: units_before(encoding, line, columns.last),
        }
    }

    /// The same, up to their start where they end before it.
    pub fn forward(self) -> Units
        ensures { result.start ≤ result.end }
    {
        Units {
            start: self.start,
            end: self.end.max(self.start),
        }
    }

    /// As much of them as others have.
    pub fn within(self, whole: Units) -> Units
        requires { whole.start ≤ whole.end }
        ensures { IsWithin whole result }
    {
        let start = self.start.max(whole.start).min(whole.end);
        Units {
            start,
            end: self.end.max(start).min(whole.end),
        }
    }
}

/// The range of columns, which are bytes, in a line of a number, from 0.
pub fn columns_range(
    alloc: Global,
    encoding: Encoding,
    line: &[u8],
    number: u32,
    columns: Columns,
) -> Result<Value, AllocError>
    ensures { IfOk result (λ json. view json ≡ ranges.columns_range encoding line.now number columns.first columns.last) }
{
    range_of(alloc, number, Units::of(encoding, line, columns))
}

/// The range of the word around a position of a deck. Where none stands there, it is empty.
pub fn word_range(
    alloc: Global,
    deck: QueriedText<'_>,
    position: Position,
) -> Result<Value, AllocError>
    ensures { IfOk result (λ json. view json ≡ ranges.word_at deck.entry.encoding deck.entry.document.now position) }
{
    let line = line_of(deck.document, position.line);
    let at = place_in(deck.encoding, line, position.character);
    let units = Units {
        start: units_before(deck.encoding, line, word_start(line, at)),
        end: units_before(deck.encoding, line, word_end(line, at)),
    };
    range_of(alloc, position.line, units)
}

/// From so many units of a line up to others.
pub fn range_of(alloc: Global, line: u32, units: Units) -> Result<Value, AllocError>
    ensures { IfOk result (λ json. view json ≡ ranges.range_of line units.start units.end) }
{
    let start = units.start;
    let end = units.end;
    json!(in alloc; {"end": {"character": end, "line": line}, "start": {"character": start, "line": line}})
}

//! One row of an outline, as it is told.
ghost use Rattle.std.specs.Prelude.{◌≡◌, ◌-◌, IfOk};
ghost use Rattle.serde_json.specs.View.{view};
ghost use Rattle.cps_server.specs.Outline.{IsOutlined, outlined as outlined_json};

use crate::mentions::line_of;
use crate::queried_text::QueriedText;
use crate::ranges::{Units, range_of};
use cps_cause::{Columns, filled_columns};
use serde_json::{Value, json};
use std::alloc::{AllocError, Global};

/// What an outline has of something, beside its name.
#[derive(Clone, Copy)]
pub struct Outlined<'a> {
    /// What it is, as the protocol counts kinds.
    pub kind: u32,
    /// Words about it.
    pub detail: &'a [u8],
    /// Its line, from 0, and where its name stands there.
    pub line: u32,
    pub columns: Columns,
}

impl Outlined<'_> {
    /// It under a name, with the range of its line, and that of the name in the line.
    pub fn tell(
        self,
        alloc: Global,
        deck: QueriedText<'_>,
        name: &[u8],
    ) -> Result<Value, AllocError>
        ensures { IfOk result (λ json. IsOutlined self.entry.kind self.entry.detail.now name.now self.entry.line (view json)) }
    {
        let line = line_of(deck.document, self.line);
        let whole = Units::of(deck.encoding, line, filled_columns(line)).forward();
        let units = Units::of(deck.encoding, line, self.columns).within(whole);
        let range = range_of(alloc, self.line, whole)?;
        let selection = range_of(alloc, self.line, units)?;
        self.tell_ranges(alloc, name, range, selection)
    }

    fn tell_ranges(
        self,
        alloc: Global,
        name: &[u8],
        range: Value,
        selection: Value,
    ) -> Result<Value, AllocError>
        ensures { IfOk result (λ json. view json ≡ outlined_json self.entry.kind self.entry.detail.now name.now (view range) (view selection)) }
    {
        let kind = self.kind;
        let detail = String::from_utf8_lossy(alloc, self.detail)?;
        let name = String::from_utf8_lossy(alloc, name)?;
        json!(in alloc; {"detail": (&detail), "kind": kind, "name": (&name), "range": range, "selectionRange": selection})
    }
}

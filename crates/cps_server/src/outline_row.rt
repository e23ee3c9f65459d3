//! A row of an outline, with its line.
ghost use Rattle.std.specs.Prelude.{◌≡◌, ◌≤◌, ◌<◌, IsTrue, map, IfOk};
ghost use Rattle.serde_json.specs.View.{view};
ghost use Rattle.cps_server.specs.Code.Outlining.{row_json};

use serde_json::Value;
use std::alloc::{AllocError, Global};

/// A row of an outline, as it is told, and its line, from 0.
pub struct OutlineRow {
    pub line: u32,
    pub json: Value,
}

// Written out, so that it is proved once.
impl Drop for OutlineRow {
    fn drop(self) {
        let OutlineRow { line: _, json } = self;
        drop(json);
    }
}

impl OutlineRow {
    /// Whether it is in one of the lines from one up to another.
    pub fn is_between(&self, first: u32, end: u32) -> bool
        ensures { IsTrue result → (first ≤ self.now.line) × (self.now.line < end) }
    {
        first <= self.line && self.line < end
    }

    /// As it is told.
    pub fn into_json(self) -> Value
        ensures { view result ≡ row_json self }
    {
        let OutlineRow { line: _, json } = self;
        json
    }
}

/// Rows, as they are told.
pub fn jsons_of(alloc: Global, rows: Vec<OutlineRow>) -> Result<Vec<Value>, AllocError>
    ensures { IfOk result (λ jsons. map view jsons.items ≡ map row_json rows.items) }
{
    let mut jsons = Vec::new(alloc);
    for row in rows {
        jsons.push(row.into_json())?;
    }
    Ok(jsons)
}

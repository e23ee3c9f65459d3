//! The listing of lines.
ghost use Rattle.std.specs.Prelude.{◌≡◌, ◌≤◌, ◌-◌, map, IfOk};
ghost use Rattle.std.specs.List.{range_with_len};
ghost use Rattle.serde_json.specs.Data.{array};
ghost use Rattle.serde_json.specs.View.{items_of, view};
ghost use Rattle.cps_server.specs.Results as results;

use crate::document::Document;
use crate::queried_text::QueriedText;
use crate::rows::push_line_listing;
use cps_list::View;
use cps_rpc::Range;
use serde_json::Value;
use std::alloc::{AllocError, Global};

/// The rows that the listing has of lines, from the first line of a range through its last: a text for each line.
pub fn listings_in(alloc: Global, deck: QueriedText<'_>, range: Range) -> Result<Value, AllocError>
    ensures { IfOk result (λ json. view json ≡ array (items_of (results.listings_in deck.entry.document.now range))) }
{
    let count = deck.document.session().count();
    let end = count.min(range.end.line.saturating_add(1));
    let told = listings_between(alloc, deck.document, range.start.line, end)?;
    Ok(Value::from(told))
}

/// Those of the lines from one up to another, from 0.
fn listings_between(
    alloc: Global,
    document: &Document,
    first: u32,
    end: u32,
) -> Result<Vec<Value>, AllocError>
    ensures { IfOk result (λ told. map view told.items ≡ map (results.listing_json document.now) (range_with_len first (end - first))) }
{
    let mut told = Vec::new(alloc);
    for number in first..end {
        told.push(listing_of(alloc, document, number + 1)?)?;
    }
    Ok(told)
}

/// The rows of the line of a number, from 1.
fn listing_of(alloc: Global, document: &Document, number: u32) -> Result<Value, AllocError>
    requires { 1 ≤ number }
    ensures { IfOk result (λ json. view json ≡ results.listing_json document.now (number - 1)) }
{
    let mut rows = Vec::new(alloc);
    push_line_listing(&mut rows, document, number)?;
    let text = String::from_utf8_lossy(alloc, &rows)?;
    Ok(Value::String(text))
}

//! The lines that may be folded.
ghost use Rattle.std.specs.Prelude.{◌≡◌, IsTrue, map, IfOk};
ghost use Rattle.serde_json.specs.View.{view};
ghost use Rattle.cps_server.specs.Foldings.{AreFoldings, IsFolding, TellsFoldings, folding_json};

use crate::document::Document;
use crate::folding_walk::FoldingWalk;
use crate::queried_text::QueriedText;
use cps_list::View;
use serde_json::{Value, json};
use std::alloc::{AllocError, Global};

/// Lines of a text, from 0, of which all but the first may be hidden.
#[derive(Clone, Copy, PartialEq, Eq)]
pub struct Folding {
    pub first: u32,
    pub last: u32,
    /// Whether they are comments.
    pub is_comment: bool,
}

/// The lines of a deck that may be folded.
pub fn tell_foldings(alloc: Global, deck: QueriedText<'_>) -> Result<Value, AllocError>
    ensures { IfOk result (λ json. TellsFoldings deck.entry.document.now (view json)) }
{
    let found = FoldingWalk::over(alloc, deck.document)?.into_found();
    let standing = keep_standing(alloc, deck.document.session().count(), &found)?;
    let told = tell_each(alloc, &standing)?;
    Ok(Value::from(told))
}

/// Those that stand in so many lines, in the order of their first lines.
fn keep_standing(alloc: Global, count: u32, found: &[Folding]) -> Result<Vec<Folding>, AllocError>
    ensures { IfOk result (λ kept. AreFoldings count 0 kept.items) }
{
    let mut kept = Vec::new(alloc);
    let mut least: u32 = 0;
    for folding in found {
        let within = within(*folding, count);
        if stands(within, least, count) {
            kept.push(within)?;
            least = within.first;
        }
    }
    Ok(kept)
}

/// The same, as far as so many lines have it.
fn within(folding: Folding, count: u32) -> Folding {
    Folding {
        last: folding.last.min(count.saturating_sub(1)),
        ..folding
    }
}

/// Whether it has more than a line, and stands from a line on in so many lines.
fn stands(folding: Folding, least: u32, count: u32) -> bool
    ensures { IsTrue result → IsFolding count least folding }
{
    least <= folding.first && folding.first < folding.last && folding.last < count
}

/// Foldings, each as it is told.
fn tell_each(alloc: Global, foldings: &[Folding]) -> Result<Vec<Value>, AllocError>
    ensures { IfOk result (λ told. map view told.items ≡ map folding_json foldings.now) }
{
    let mut told = Vec::new(alloc);
    for folding in foldings {
        told.push(tell(alloc, *folding)?)?;
    }
    Ok(told)
}

fn tell(alloc: Global, folding: Folding) -> Result<Value, AllocError>
    ensures { IfOk result (λ json. view json ≡ folding_json folding) }
{
    let first = folding.first;
    let last = folding.last;
    if folding.is_comment {
        json!(in alloc; {"endLine": last, "kind": "comment", "startLine": first})
    } else {
        json!(in alloc; {"endLine": last, "startLine": first})
    }
}

//! Words that are offered.
ghost use Rattle.std.specs.Prelude.{◌≡◌, ◌∷◌, [], codes, IfOk, OnOk};
ghost use Rattle.serde_json.specs.Data.{string};
ghost use Rattle.serde_json.specs.View.{view};
ghost use Rattle.cps_server.specs.Completions as completions;
ghost use Rattle.cps_server.specs.Code.Telling.{AddsOffers, offer_of, sorted_offers};

use serde_json::{Value, json};
use std::alloc::{AllocError, Global};

/// What is told beside a word that is offered.
#[derive(Clone, Copy)]
pub struct Sort<'a> {
    /// As the protocol counts kinds.
    pub kind: u32,
    pub detail: &'a [u8],
}

/// Appends what a name of an instruction stands for: where it ends in `i`, a name with the digit of each register.
pub fn push_spelled(
    alloc: Global,
    range: &Value,
    told: &mut Vec<Value>,
    name: &[u8],
    sort: Sort<'_>,
) -> Result<(), AllocError>
    ensures { OnOk result (AddsOffers range.now (sorted_offers sort.entry (completions.spelled name.now)) told.old.items told.new.items) }
{
    let (letters, last) = name.split_at(name.len().saturating_sub(1));
    if last == b"i".as_slice() {
        push_with_digits(alloc, range, told, letters, sort)
    } else {
        push_item(alloc, range, told, name, sort)
    }
}

/// Appends letters with each octal digit behind them.
pub fn push_with_digits(
    alloc: Global,
    range: &Value,
    told: &mut Vec<Value>,
    letters: &[u8],
    sort: Sort<'_>,
) -> Result<(), AllocError>
    ensures { OnOk result (AddsOffers range.now (sorted_offers sort.entry (completions.with_digits letters.now)) told.old.items told.new.items) }
{
    let digits = octal_digits();
    let mut name = Vec::new(alloc);
    for digit in digits {
        name.clear();
        name.extend_from_slice(letters)?;
        name.push(*digit)?;
        push_item(alloc, range, told, &name, sort)?;
    }
    Ok(())
}

fn octal_digits() -> &'static [u8]
    ensures { result.now ≡ codes "01234567" }
{
    b"01234567"
}

/// Appends what may be written in the place of a range, and what is told beside it.
pub fn push_item(
    alloc: Global,
    range: &Value,
    told: &mut Vec<Value>,
    label: &[u8],
    sort: Sort<'_>,
) -> Result<(), AllocError>
    ensures { OnOk result (AddsOffers range.now (sorted_offers sort.entry (label.now ∷ [])) told.old.items told.new.items) }
{
    told.push(item(alloc, range, label, sort)?)?;
    Ok(())
}

fn item(alloc: Global, range: &Value, label: &[u8], sort: Sort<'_>) -> Result<Value, AllocError>
    ensures { IfOk result (λ json. view json ≡ completions.completion (view range.now) (offer_of sort.entry label.now)) }
{
    let kind = sort.kind;
    let label = String::from_utf8_lossy(alloc, label)?;
    let detail = String::from_utf8_lossy(alloc, sort.detail)?;
    let edit = edit_of(alloc, range, &label)?;
    json!(in alloc; {"detail": (&detail), "kind": kind, "label": (&label), "textEdit": edit})
}

/// A text that comes in the place of a range.
fn edit_of(alloc: Global, range: &Value, text: &str) -> Result<Value, AllocError>
    ensures { IfOk result (λ json. view json ≡ completions.edit (view range.now) (string text.now)) }
{
    json!(in alloc; {"newText": text, "range": range})
}

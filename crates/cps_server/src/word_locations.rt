//! The lines on which the symbol that a word writes stands. They are told where a source's mentions say less than its cross-reference.
ghost use Rattle.std.specs.Prelude.{◌≡◌, ◌-◌, IfOk};
ghost use Rattle.serde_json.specs.View.{view};
ghost use Rattle.cps_server.specs.Symbols.{definitions};
ghost use Rattle.cps_server.specs.Symbols.{wanted};
ghost use Rattle.cps_server.specs.Ranges as ranges;
ghost use Rattle.cps_server.specs.Ranges.{IsInLine};
ghost use Rattle.cps_server.specs.Results.{TellsEach, TellsFirst, TellsHighlight, TellsMention, highlight, highlight_kind as kind_of};
ghost use Rattle.cps_server.specs.Code.Telling.{mentions_of_deck};

use crate::columns::columns_of;
use crate::mentions::{line_of, mentions_at};
use crate::queried_text::QueriedText;
use crate::ranges::columns_range;
use cps_list::Mention;
use cps_rpc::Position;
use serde_json::{Value, json};
use std::alloc::{AllocError, Global};

/// Where the symbol around a position is defined: the first line that does. It is null where no symbol stands there, or no line defines it.
pub fn first_definition(
    alloc: Global,
    deck: QueriedText<'_>,
    position: Position,
) -> Result<Value, AllocError>
    ensures { IfOk result (λ json. TellsFirst deck.entry.uri.now (definitions (mentions_of_deck deck.entry position)) (view json)) }
{
    let mut mentions = mentions_at(alloc, deck.document, deck.encoding, position)?;
    mentions.retain(|mention| mention.is_definition);
    tell_first(alloc, deck, &mentions)
}

/// Where the symbol around a position is read, and, if those are wanted, where it is defined.
pub fn reading_lines(
    alloc: Global,
    deck: QueriedText<'_>,
    position: Position,
    definitions_too: bool,
) -> Result<Value, AllocError>
    ensures { IfOk result (λ json. TellsEach (TellsMention deck.entry.uri.now)
        (wanted definitions_too (mentions_of_deck deck.entry position)) (view json)) }
{
    let mut mentions = mentions_at(alloc, deck.document, deck.encoding, position)?;
    mentions.retain(|mention| definitions_too || !mention.is_definition);
    tell_mentions(alloc, deck, &mentions)
}

/// The same with those that define it, each as it counts.
pub fn highlighted_lines(
    alloc: Global,
    deck: QueriedText<'_>,
    position: Position,
) -> Result<Value, AllocError>
    ensures { IfOk result (λ json. TellsEach TellsHighlight (mentions_of_deck deck.entry position) (view json)) }
{
    let mentions = mentions_at(alloc, deck.document, deck.encoding, position)?;
    tell_highlights(alloc, deck, &mentions)
}

/// The line of the first mention; null where there is none.
fn tell_first(
    alloc: Global,
    deck: QueriedText<'_>,
    mentions: &[Mention],
) -> Result<Value, AllocError>
    ensures { IfOk result (λ json. TellsFirst deck.entry.uri.now mentions.now (view json)) }
{
    match mentions.first() {
        Some(mention) => tell_mention(alloc, deck, mention),
        None => Ok(Value::Null),
    }
}

/// The lines of mentions.
fn tell_mentions(
    alloc: Global,
    deck: QueriedText<'_>,
    mentions: &[Mention],
) -> Result<Value, AllocError>
    ensures { IfOk result (λ json. TellsEach (TellsMention deck.entry.uri.now) mentions.now (view json)) }
{
    let mut told = Vec::new(alloc);
    for mention in mentions {
        told.push(tell_mention(alloc, deck, mention)?)?;
    }
    Ok(Value::from(told))
}

/// The line of a mention.
fn tell_mention(
    alloc: Global,
    deck: QueriedText<'_>,
    mention: &Mention,
) -> Result<Value, AllocError>
    ensures { IfOk result (λ json. TellsMention deck.entry.uri.now mention.now (view json)) }
{
    let range = mention_range(alloc, deck, mention)?;
    location(alloc, deck.uri, range)
}

/// Mentions, each as it counts.
fn tell_highlights(
    alloc: Global,
    deck: QueriedText<'_>,
    mentions: &[Mention],
) -> Result<Value, AllocError>
    ensures { IfOk result (λ json. TellsEach TellsHighlight mentions.now (view json)) }
{
    let mut told = Vec::new(alloc);
    for mention in mentions {
        told.push(tell_highlight(alloc, deck, mention)?)?;
    }
    Ok(Value::from(told))
}

fn tell_highlight(
    alloc: Global,
    deck: QueriedText<'_>,
    mention: &Mention,
) -> Result<Value, AllocError>
    ensures { IfOk result (λ json. TellsHighlight mention.now (view json)) }
{
    let range = mention_range(alloc, deck, mention)?;
    highlight(alloc, highlight_kind(mention.is_definition), range)
}

/// How a mention counts, as the protocol has it: that it writes, or that it reads.
fn highlight_kind(is_definition: bool) -> u32
    ensures { result ≡ kind_of is_definition }
{
    if is_definition { 3 } else { 2 }
}

pub fn highlight(alloc: Global, kind: u32, range: Value) -> Result<Value, AllocError>
    ensures { IfOk result (λ json. view json ≡ highlight kind (view range)) }
{
    json!(in alloc; {"kind": kind, "range": range})
}

/// Where a symbol stands in the line of its mention.
fn mention_range(
    alloc: Global,
    deck: QueriedText<'_>,
    mention: &Mention,
) -> Result<Value, AllocError>
    ensures { IfOk result (λ json. IsInLine (mention.now.line - 1) (view json)) }
{
    let number = mention.line.saturating_sub(1);
    let line = line_of(deck.document, number);
    let columns = columns_of(line, mention.name);
    columns_range(alloc, deck.encoding, line, number, columns)
}

/// A range in a document.
pub fn location(alloc: Global, uri: &str, range: Value) -> Result<Value, AllocError>
    ensures { IfOk result (λ json. view json ≡ ranges.location uri.now (view range)) }
{
    json!(in alloc; {"range": range, "uri": uri})
}

//! What is told to a query.
ghost use Rattle.std.specs.Prelude.{◌≡◌, false, option_map, IfOk};
ghost use Rattle.serde_json.specs.View.{view};
ghost use Rattle.cps_server.specs.Queries.{TellsOfDeck};
ghost use Rattle.cps_server.specs.Code.Telling.{has_float_told};
ghost use Rattle.cps_server.specs.declared.query.Query.TheVariants as queries;

use crate::actions::actions_in;
use crate::completions::tell_completions;
use crate::folding::tell_foldings;
use crate::formatting::{format_range, format_text};
use crate::hints::hints_in;
use crate::hovering::hover_at;
use crate::listing::listings_in;
use crate::locations::{definition_at, highlights_at, references_at};
use crate::queried_text::QueriedText;
use crate::query::Query;
use crate::signatures::signature_at;
use crate::symbols::tell_symbols;
use crate::tokens::{tell_tokens, tokens_in};
use cps_rpc::{position_at, range_at, wants_definitions};
use serde_json::Value;
use std::alloc::{AllocError, Global};

/// What is told to a query of a deck, by its parameters. None: these are wrong.
pub fn answer(
    alloc: Global,
    query: Query,
    params: &Value,
    deck: QueriedText<'_>,
) -> Result<Option<Value>, AllocError>
    ensures told { IfOk result (λ told. TellsOfDeck query (view params.now) deck.entry (option_map view told)) }
    ensures floats { IfOk result (λ told. has_float_told (option_map view told) ≡ false) }
{
    match query {
        Query::Hover => answer_hover(alloc, params, deck),
        Query::Definition => answer_definition(alloc, params, deck),
        Query::References => answer_references(alloc, params, deck),
        Query::Highlights => answer_highlights(alloc, params, deck),
        Query::Symbols => answer_symbols(alloc, params, deck),
        Query::Hints => answer_hints(alloc, params, deck),
        Query::Completions => answer_completions(alloc, params, deck),
        Query::Listing => answer_listing(alloc, params, deck),
        Query::FoldingRanges => answer_foldings(alloc, params, deck),
        Query::Signatures => answer_signatures(alloc, params, deck),
        Query::Actions => answer_actions(alloc, params, deck),
        Query::Tokens => answer_tokens(alloc, params, deck),
        Query::RangeTokens => answer_range_tokens(alloc, params, deck),
        Query::Formats => answer_formats(alloc, params, deck),
        Query::RangeFormats => answer_range_formats(alloc, params, deck),
    }
}

fn answer_hover(
    alloc: Global,
    params: &Value,
    deck: QueriedText<'_>,
) -> Result<Option<Value>, AllocError>
    ensures { IfOk result (λ told. TellsOfDeck queries.Hover (view params.now) deck.entry (option_map view told)) }
{
    let Some(position) = position_at(params) else {
        return Ok(None);
    };
    let told = hover_at(alloc, deck, position)?;
    Ok(Some(told))
}

fn answer_definition(
    alloc: Global,
    params: &Value,
    deck: QueriedText<'_>,
) -> Result<Option<Value>, AllocError>
    ensures { IfOk result (λ told. TellsOfDeck queries.Definition (view params.now) deck.entry (option_map view told)) }
{
    let Some(position) = position_at(params) else {
        return Ok(None);
    };
    let told = definition_at(alloc, deck, position)?;
    Ok(Some(told))
}

fn answer_references(
    alloc: Global,
    params: &Value,
    deck: QueriedText<'_>,
) -> Result<Option<Value>, AllocError>
    ensures { IfOk result (λ told. TellsOfDeck queries.References (view params.now) deck.entry (option_map view told)) }
{
    let Some(position) = position_at(params) else {
        return Ok(None);
    };
    let told = references_at(alloc, deck, position, wants_definitions(params))?;
    Ok(Some(told))
}

fn answer_highlights(
    alloc: Global,
    params: &Value,
    deck: QueriedText<'_>,
) -> Result<Option<Value>, AllocError>
    ensures { IfOk result (λ told. TellsOfDeck queries.Highlights (view params.now) deck.entry (option_map view told)) }
{
    let Some(position) = position_at(params) else {
        return Ok(None);
    };
    let told = highlights_at(alloc, deck, position)?;
    Ok(Some(told))
}

fn answer_symbols(
    alloc: Global,
    params: &Value,
    deck: QueriedText<'_>,
) -> Result<Option<Value>, AllocError>
    ensures { IfOk result (λ told. TellsOfDeck queries.Symbols (view params.now) deck.entry (option_map view told)) }
{
    let told = tell_symbols(alloc, deck)?;
    Ok(Some(told))
}

fn answer_hints(
    alloc: Global,
    params: &Value,
    deck: QueriedText<'_>,
) -> Result<Option<Value>, AllocError>
    ensures { IfOk result (λ told. TellsOfDeck queries.Hints (view params.now) deck.entry (option_map view told)) }
{
    let Some(range) = range_at(params) else {
        return Ok(None);
    };
    let told = hints_in(alloc, deck, range)?;
    Ok(Some(told))
}

fn answer_completions(
    alloc: Global,
    params: &Value,
    deck: QueriedText<'_>,
) -> Result<Option<Value>, AllocError>
    ensures { IfOk result (λ told. TellsOfDeck queries.Completions (view params.now) deck.entry (option_map view told)) }
{
    let Some(position) = position_at(params) else {
        return Ok(None);
    };
    let told = tell_completions(alloc, deck, position)?;
    Ok(Some(told))
}

fn answer_listing(
    alloc: Global,
    params: &Value,
    deck: QueriedText<'_>,
) -> Result<Option<Value>, AllocError>
    ensures { IfOk result (λ told. TellsOfDeck queries.Listing (view params.now) deck.entry (option_map view told)) }
{
    let Some(range) = range_at(params) else {
        return Ok(None);
    };
    let told = listings_in(alloc, deck, range)?;
    Ok(Some(told))
}

fn answer_foldings(
    alloc: Global,
    params: &Value,
    deck: QueriedText<'_>,
) -> Result<Option<Value>, AllocError>
    ensures { IfOk result (λ told. TellsOfDeck queries.FoldingRanges (view params.now) deck.entry (option_map view told)) }
{
    let told = tell_foldings(alloc, deck)?;
    Ok(Some(told))
}

fn answer_signatures(
    alloc: Global,
    params: &Value,
    deck: QueriedText<'_>,
) -> Result<Option<Value>, AllocError>
    ensures { IfOk result (λ told. TellsOfDeck queries.Signatures (view params.now) deck.entry (option_map view told)) }
{
    let Some(position) = position_at(params) else {
        return Ok(None);
    };
    let told = signature_at(alloc, deck, position)?;
    Ok(Some(told))
}

fn answer_actions(
    alloc: Global,
    params: &Value,
    deck: QueriedText<'_>,
) -> Result<Option<Value>, AllocError>
    ensures { IfOk result (λ told. TellsOfDeck queries.Actions (view params.now) deck.entry (option_map view told)) }
{
    let Some(range) = range_at(params) else {
        return Ok(None);
    };
    let told = actions_in(alloc, deck, range)?;
    Ok(Some(told))
}

fn answer_tokens(
    alloc: Global,
    params: &Value,
    deck: QueriedText<'_>,
) -> Result<Option<Value>, AllocError>
    ensures { IfOk result (λ told. TellsOfDeck queries.Tokens (view params.now) deck.entry (option_map view told)) }
{
    let told = tell_tokens(alloc, deck)?;
    Ok(Some(told))
}

fn answer_range_tokens(
    alloc: Global,
    params: &Value,
    deck: QueriedText<'_>,
) -> Result<Option<Value>, AllocError>
    ensures { IfOk result (λ told. TellsOfDeck queries.RangeTokens (view params.now) deck.entry (option_map view told)) }
{
    let Some(range) = range_at(params) else {
        return Ok(None);
    };
    let told = tokens_in(alloc, deck, range)?;
    Ok(Some(told))
}

fn answer_formats(
    alloc: Global,
    params: &Value,
    deck: QueriedText<'_>,
) -> Result<Option<Value>, AllocError>
    ensures { IfOk result (λ told. TellsOfDeck queries.Formats (view params.now) deck.entry (option_map view told)) }
{
    let told = format_text(alloc, deck)?;
    Ok(Some(told))
}

fn answer_range_formats(
    alloc: Global,
    params: &Value,
    deck: QueriedText<'_>,
) -> Result<Option<Value>, AllocError>
    ensures { IfOk result (λ told. TellsOfDeck queries.RangeFormats (view params.now) deck.entry (option_map view told)) }
{
    let Some(range) = range_at(params) else {
        return Ok(None);
    };
    let told = format_range(alloc, deck, range)?;
    Ok(Some(told))
}

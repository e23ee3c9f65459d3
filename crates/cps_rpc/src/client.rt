//! What an editor takes.
ghost use Rattle.std.specs.Prelude.{◌≡◌, false, map, option_map, unwrap_or};
ghost use Rattle.std.specs.List.{list_any};
ghost use Rattle.serde_json.specs.View.{view};
ghost use Rattle.cps_rpc.specs.Client as clients;

use crate::markup::{Markup, markup_in};
use crate::member::list_in;
use serde_json::Value;

/// What an editor takes, as its capabilities say.
#[derive(Clone, Copy, Debug, PartialEq, Eq)]
pub struct Client {
    /// In which form it takes a hover.
    pub markup: Markup,
    /// Whether a diagnostic may lead to another place.
    pub takes_relations: bool,
    /// Whether a diagnostic may say that something is unnecessary.
    pub takes_unnecessary: bool,
    /// Whether an outline may be a tree.
    pub takes_trees: bool,
    /// Whether edits may say of which version of a document they are.
    pub takes_versions: bool,
}

impl Client {
    /// An editor that says nothing of itself.
    pub fn new() -> Client
        ensures { result ≡ clients.unknown }
    {
        Client {
            markup: Markup::Plain,
            takes_relations: false,
            takes_unnecessary: false,
            takes_trees: false,
            takes_versions: false,
        }
    }
}

/// What an editor takes, from the parameters of `initialize`. It takes nothing that they don't name, or name otherwise than the protocol does.
pub fn client_in(json: &Value) -> Client
    ensures { result ≡ clients.client_in (view json.now) }
{
    Client {
        markup: markup_in(json),
        takes_relations: relations_in(json).unwrap_or(false),
        takes_unnecessary: takes_unnecessary(json),
        takes_trees: trees_in(json).unwrap_or(false),
        takes_versions: versions_in(json).unwrap_or(false),
    }
}

fn relations_in(json: &Value) -> Option<bool>
    ensures { unwrap_or result false ≡ clients.takes_relations (view json.now) }
{
    let diagnostics = json
        .get("capabilities")?
        .get("textDocument")?
        .get("publishDiagnostics")?;
    diagnostics.get("relatedInformation")?.as_bool()
}

fn takes_unnecessary(json: &Value) -> bool
    ensures { result ≡ clients.takes_unnecessary (view json.now) }
{
    match tags_in(json) {
        Some(tags) => has_unnecessary(tags),
        None => false,
    }
}

/// The tags of diagnostics that parameters name.
fn tags_in(json: &Value) -> Option<&[Value]>
    ensures { option_map (λ tags. map view tags.now) result ≡ clients.tags_in (view json.now) }
{
    let diagnostics = json
        .get("capabilities")?
        .get("textDocument")?
        .get("publishDiagnostics")?;
    list_in(diagnostics.get("tagSupport")?.get("valueSet")?)
}

fn has_unnecessary(tags: &[Value]) -> bool
    ensures { result ≡ list_any clients.is_unnecessary (map view tags.now) }
{
    for tag in tags {
        if is_unnecessary(tag) {
            return true;
        }
    }
    false
}

fn is_unnecessary(tag: &Value) -> bool
    ensures { result ≡ clients.is_unnecessary (view tag.now) }
{
    match tag.as_u64() {
        Some(number) => number == 1,
        None => false,
    }
}

fn trees_in(json: &Value) -> Option<bool>
    ensures { unwrap_or result false ≡ clients.takes_trees (view json.now) }
{
    let symbols = json
        .get("capabilities")?
        .get("textDocument")?
        .get("documentSymbol")?;
    symbols.get("hierarchicalDocumentSymbolSupport")?.as_bool()
}

fn versions_in(json: &Value) -> Option<bool>
    ensures { unwrap_or result false ≡ clients.takes_versions (view json.now) }
{
    let edits = json
        .get("capabilities")?
        .get("workspace")?
        .get("workspaceEdit")?;
    edits.get("documentChanges")?.as_bool()
}

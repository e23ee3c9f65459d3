//! The forms of texts that an editor takes.
ghost use Rattle.std.specs.Prelude.{◌≡◌, map, option_map};
ghost use Rattle.serde_json.specs.View.{view};
ghost use Rattle.cps_rpc.specs.Params as params;

use crate::member::list_in;
use serde_json::Value;

/// A form in which an editor takes a text.
#[derive(Clone, Copy, Debug, PartialEq, Eq)]
pub enum Markup {
    /// As it stands.
    Plain,
    /// By Markdown.
    Markdown,
}

/// The form of a hover, from the parameters of `initialize`: the first of those that the editor names and that are known here, else plain text.
pub fn markup_in(json: &Value) -> Markup
    ensures { result ≡ params.markup_in (view json.now) }
{
    match hover_forms(json) {
        Some(names) => first_markup(names),
        None => Markup::Plain,
    }
}

/// The forms in which parameters offer to take a hover.
fn hover_forms(json: &Value) -> Option<&[Value]>
    ensures { option_map (λ names. map view names.now) result ≡ params.hover_forms (view json.now) }
{
    let hover = json.get("capabilities")?.get("textDocument")?.get("hover")?;
    list_in(hover.get("contentFormat")?)
}

fn first_markup(names: &[Value]) -> Markup
    ensures { result ≡ params.first_markup (map view names.now) }
{
    for name in names {
        if let Some(markup) = markup_of(name) {
            return markup;
        }
    }
    Markup::Plain
}

/// The form that a value names.
fn markup_of(name: &Value) -> Option<Markup>
    ensures { result ≡ params.markup_of (view name.now) }
{
    name.as_str().and_then(markup_named)
}

fn markup_named(name: &str) -> Option<Markup>
    ensures { result ≡ params.markup_named name.now }
{
    match name {
        "plaintext" => Some(Markup::Plain),
        "markdown" => Some(Markup::Markdown),
        _ => None,
    }
}

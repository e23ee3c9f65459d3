//! A text that is opened.
ghost use Rattle.std.specs.Prelude.{◌≡◌, option_map};
ghost use Rattle.serde_json.specs.View.{view};
ghost use Rattle.cps_rpc.specs.Params as params;

use crate::member::{text_in, uri_of};
use serde_json::Value;

/// A text that is opened.
#[derive(Clone, Copy)]
pub struct OpenedText<'a> {
    /// The URI of its document.
    pub uri: &'a str,
    /// The text.
    pub text: &'a str,
}

impl<'a> OpenedText<'a> {
    /// The text that parameters open.
    pub fn of(json: &'a Value) -> Option<OpenedText<'a>>
        ensures { option_map params.opened_of result ≡ params.opened_in (view json.now) }
    {
        let document = json.get("textDocument")?;
        let uri = uri_of(document)?;
        let text = text_in(document)?;
        Some(OpenedText { uri, text })
    }
}

//! The text of which an editor asks.

use crate::document::Document;
use cps_rpc::{Client, Encoding};

/// A text that an editor has open and asks of.
#[derive(Clone, Copy)]
pub struct QueriedText<'a> {
    /// The URI of its document.
    pub uri: &'a str,
    /// The document's version, if it is known.
    pub version: Option<i64>,
    pub document: &'a Document,
    /// How its positions are counted.
    pub encoding: Encoding,
    /// What the editor takes.
    pub client: Client,
}

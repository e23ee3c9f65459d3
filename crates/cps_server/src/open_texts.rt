//! The texts that are open.
ghost use Rattle.std.specs.Prelude.{◌≡◌, [], ◌∷◌, ◌++◌, map, option_map, None, IfSome, OnOk};
ghost use Rattle.cps_server.specs.Code.Opened.{IsFirst, value_of};
ghost use Rattle.cps_server.specs.ServerState.{open_under, text_under, version_under, without};

use crate::diagnostics::ToldText;
use crate::document::Document;
use crate::marked_document::MarkedDocument;
use std::alloc::{AllocError, Global};
use std::marker::Model;

/// A text that is open.
pub struct OpenText {
    /// The URI of its document.
    uri: String,
    /// The document's version, if it is known.
    version: Option<i64>,
    document: MarkedDocument,
}

// Written out, as that of the document.
impl Drop for OpenText {
    fn drop(self) {
        let OpenText {
            uri,
            version: _,
            document,
        } = self;
        drop(uri);
        drop(document);
    }
}

impl OpenText {
    /// Its document.
    pub fn into_document(self) -> MarkedDocument
        ensures { result ≡ self.document }
    {
        let OpenText {
            uri,
            version: _,
            document,
        } = self;
        drop(uri);
        document
    }
}

/// The texts that are open, those last that were opened or changed last.
pub struct OpenTexts {
    alloc: Global,
    list: Vec<OpenText>,
}

// Written out, as that of a text.
impl Drop for OpenTexts {
    fn drop(self) {
        let OpenTexts { alloc: _, list } = self;
        drop(list);
    }
}

impl Model for OpenTexts {
    ghost use Rattle.std.specs.Prelude.{List, map};
    ghost use Rattle.cps_server.specs.Code.Opened.{value_of};
    ghost use Rattle.cps_server.specs.ServerState.{OpenText};

    ghost Value = { List OpenText };

    ghost view = { λ texts. map value_of texts.list.items };
}

impl OpenTexts {
    /// None is open.
    pub fn new(alloc: Global) -> OpenTexts
        ensures { result ≡ [] }
    {
        OpenTexts {
            alloc,
            list: Vec::new(alloc),
        }
    }

    /// The text under a URI, if one is open there.
    pub fn find(&self, uri: &str) -> Option<&Document>
        ensures { option_map (λ document. document.now) result ≡ text_under uri.now self.now }
    {
        let at = place_of(&self.list, uri)?;
        Some(self.list[at].document.document())
    }

    /// Its version, if one is open there and its version is known.
    pub fn version(&self, uri: &str) -> Option<i64>
        ensures { result ≡ version_under uri.now self.now }
    {
        let at = place_of(&self.list, uri)?;
        self.list[at].version
    }

    /// Takes out the text under a URI, if one is open there.
    pub fn take(&mut self, uri: &str) -> Option<OpenText>
        ensures open { option_map value_of result ≡ open_under uri.now self.old }
        ensures left { self.new ≡ without uri.now self.old }
        ensures none { result ≡ None → self.new ≡ self.old }
    {
        let found = self.take_first(uri);
        self.list.retain(|one| one.uri.as_str() != uri);
        found
    }

    /// Opens a text behind all others.
    pub fn push(&mut self, told: ToldText<'_>, document: MarkedDocument) -> Result<(), AllocError>
        ensures { OnOk result (self.new ≡ self.old ++ record { uri = told.entry.uri.now; version = told.entry.version; text = document } ∷ []) }
    {
        let uri = told.uri.to_string(self.alloc)?;
        self.list.push(OpenText {
            uri,
            version: told.version,
            document,
        })?;
        Ok(())
    }

    /// Takes out the first text under a URI.
    fn take_first(&mut self, uri: &str) -> Option<OpenText>
        ensures open { option_map value_of result ≡ open_under uri.now self.old }
        ensures left { without uri.now self.new ≡ without uri.now self.old }
    {
        let at = place_of(&self.list, uri)?;
        Some(self.list.remove(at))
    }
}

/// Where the first text under a URI stands.
fn place_of(list: &[OpenText], uri: &str) -> Option<usize>
    ensures found { IfSome result (IsFirst uri.now list.now) }
    ensures none { result ≡ None → open_under uri.now (map value_of list.now) ≡ None }
{
    for (at, one) in list.iter().enumerate() {
        if one.uri.as_str() == uri {
            return Some(at);
        }
    }
    None
}

//! The symbol at a position of a text, and the lines on which it stands.
ghost use Rattle.std.specs.Prelude.{◌≡◌, IfOk, Some};
ghost use Rattle.cps_server.specs.Symbols as symbols;

use crate::document::Document;
use crate::words::symbol_at;
use cps_list::{Mention, list_mentions};
use cps_rpc::{Encoding, Position, place_in};
use cps_text::Name;
use std::alloc::{AllocError, Global};

/// A line that batch assembly reads of a document's text, from 0; no bytes where there is none.
pub fn line_of(document: &Document, number: u32) -> &[u8]
    ensures { result.now ≡ symbols.line_of document.now number }
{
    let number = number as usize;
    if number < document.source_len() {
        document.source_line(number)
    } else {
        &[]
    }
}

/// The symbol around a position in a document's text.
pub fn pointed(document: &Document, encoding: Encoding, position: Position) -> Option<Name>
    ensures { result ≡ symbols.pointed encoding document.now position }
{
    let line = line_of(document, position.line);
    symbol_at(line, place_in(encoding, line, position.character))
}

/// The lines on which the symbol around a position stands: those that define it and those that read it, in their order. It takes time for each line of
/// the text.
pub fn mentions_at(
    alloc: Global,
    document: &Document,
    encoding: Encoding,
    position: Position,
) -> Result<Vec<Mention>, AllocError>
    ensures { IfOk result (λ mentions. mentions.items ≡ symbols.mentions_at encoding document.now position) }
{
    match pointed(document, encoding, position) {
        Some(name) => mentions_of(alloc, document, name),
        None => Ok(Vec::new(alloc)),
    }
}

/// The lines on which a symbol stands.
pub fn mentions_of(
    alloc: Global,
    document: &Document,
    name: Name,
) -> Result<Vec<Mention>, AllocError>
    ensures { IfOk result (λ mentions. mentions.items ≡ symbols.mentions_under (Some name) (symbols.mentions_in document.now)) }
{
    let mut mentions = mentions_in(alloc, document)?;
    mentions.retain(|mention| mention.name == name);
    Ok(mentions)
}

/// The symbols that lines of a document's text define and read, in the order of the lines. It takes time for each line of the text.
pub fn mentions_in(alloc: Global, document: &Document) -> Result<Vec<Mention>, AllocError>
    ensures { IfOk result (λ mentions. mentions.items ≡ symbols.mentions_in document.now) }
{
    let mentions = list_mentions(alloc, document.session())?;
    Ok(mentions)
}

/// The symbols that lines of a document's text define, in the order of the lines. It takes time for each line of the text.
pub fn definitions_in(alloc: Global, document: &Document) -> Result<Vec<Mention>, AllocError>
    ensures { IfOk result (λ mentions. mentions.items ≡ symbols.definitions (symbols.mentions_in document.now)) }
{
    let mut mentions = mentions_in(alloc, document)?;
    mentions.retain(|mention| mention.is_definition);
    Ok(mentions)
}

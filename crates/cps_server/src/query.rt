//! What an editor may ask of a text.
ghost use Rattle.std.specs.Prelude.{◌≡◌};
ghost use Rattle.cps_server.specs.Queries.{later_named, query_named};

/// What an editor may ask of a text.
#[derive(Clone, Copy)]
pub enum Query {
    /// What is shown at a position.
    Hover,
    /// Where the symbol at a position is defined.
    Definition,
    /// Where the symbol at a position stands.
    References,
    /// Where the symbol at a position is shown in another colour.
    Highlights,
    /// All symbols that lines define.
    Symbols,
    /// What is shown beside the lines of a range.
    Hints,
    /// What may be written next.
    Completions,
    /// The listing of the lines of a range.
    Listing,
    /// Which lines may be folded.
    FoldingRanges,
    /// What the operation of the line at a position takes.
    Signatures,
    /// What may be mended in the lines of a range.
    Actions,
    /// What each word is.
    Tokens,
    /// What each word in the lines of a range is.
    RangeTokens,
    /// The edits that put fields into columns.
    Formats,
    /// Those in the lines of a range.
    RangeFormats,
}

impl Query {
    /// The query of a method.
    pub fn named(method: &str) -> Option<Query>
        ensures { result ≡ query_named method.now }
    {
        match method {
            "textDocument/hover" => Some(Query::Hover),
            "textDocument/definition" => Some(Query::Definition),
            "textDocument/references" => Some(Query::References),
            "textDocument/documentHighlight" => Some(Query::Highlights),
            "textDocument/documentSymbol" => Some(Query::Symbols),
            "textDocument/inlayHint" => Some(Query::Hints),
            "textDocument/completion" => Some(Query::Completions),
            "compass/rows" => Some(Query::Listing),
            _ => Query::of_later(method),
        }
    }

    /// The query of a method that asks of the words of a text, or for edits.
    #[tactic(auto, unfolding(crate::specs::Queries::later_named))]
    fn of_later(method: &str) -> Option<Query>
        ensures { result ≡ later_named method.now }
    {
        match method {
            "textDocument/foldingRange" => Some(Query::FoldingRanges),
            "textDocument/signatureHelp" => Some(Query::Signatures),
            "textDocument/codeAction" => Some(Query::Actions),
            "textDocument/semanticTokens/full" => Some(Query::Tokens),
            "textDocument/semanticTokens/range" => Some(Query::RangeTokens),
            "textDocument/formatting" => Some(Query::Formats),
            "textDocument/rangeFormatting" => Some(Query::RangeFormats),
            _ => None,
        }
    }
}

//! What the words of a text are, as they are told. That tokens stand in their lines, one behind the other, is proved, and how they are written as
//! numbers; which word is what is tested.
ghost use Rattle.std.specs.Prelude.{IfOk, OnOk, ◌+◌};
ghost use Rattle.std.specs.List.{All};
ghost use Rattle.serde_json.specs.View.{view};
ghost use Rattle.cps_server.specs.Tokens.{AreTokens, TellsTokens, TellsTokensIn};
ghost use Rattle.cps_server.specs.Code.TokenList.{EndBy, IsBetween, KeepsBetween};

use crate::field_words::push_field_words;
use crate::line_tokens::push_words;
use crate::line_word::LineWord;
use crate::mentions::line_of;
use crate::named_words::{LineSpan, NamedWord, named_words, words_at};
use crate::parting::part_words;
use crate::queried_text::QueriedText;
use crate::token::Token;
use crate::token_data::tell_data;
use cps_list::View;
use cps_rpc::Range;
use serde_json::Value;
use std::alloc::{AllocError, Global};

/// What the words of a deck are. It takes time for each line of the text.
pub fn tell_tokens(alloc: Global, deck: QueriedText<'_>) -> Result<Value, AllocError>
    ensures { IfOk result (λ json. TellsTokens deck.entry.encoding deck.entry.document.now (view json)) }
{
    let end = deck.document.session().count();
    let tokens = tokens_between(alloc, deck, 0, end)?;
    tell_data(alloc, &tokens)
}

/// What the words in the lines of a range of a deck are. Their names take time for each line of the text.
pub fn tokens_in(alloc: Global, deck: QueriedText<'_>, range: Range) -> Result<Value, AllocError>
    ensures { IfOk result (λ json. TellsTokensIn deck.entry.encoding deck.entry.document.now range (view json)) }
{
    let count = deck.document.session().count();
    let end = count.min(range.end.line.saturating_add(1));
    let tokens = tokens_between(alloc, deck, range.start.line, end)?;
    tell_data(alloc, &tokens)
}

/// The tokens of the lines from one up to another, from 0.
fn tokens_between(
    alloc: Global,
    deck: QueriedText<'_>,
    first: u32,
    end: u32,
) -> Result<Vec<Token>, AllocError>
    ensures tokens { IfOk result (λ tokens. AreTokens deck.entry.encoding deck.entry.document.now tokens.items) }
    ensures lines { IfOk result (λ tokens. All (IsBetween first end) tokens.items) }
{
    let named = named_words(alloc, deck.document.session(), LineSpan { first, end })?;
    let mut tokens = Vec::new(alloc);
    let mut at: usize = 0;
    for number in first..end {
        let here = words_at(&named, at, number);
        at = at.saturating_add(here.len());
        push_line(alloc, deck, number, here, &mut tokens)?;
    }
    Ok(tokens)
}

/// Appends the tokens of a line, from 0, in which words with names stand.
fn push_line(
    alloc: Global,
    deck: QueriedText<'_>,
    number: u32,
    named: &[NamedWord],
    tokens: &mut Vec<Token>,
) -> Result<(), AllocError>
    requires { EndBy deck.encoding deck.document.now number 0 tokens.old.items }
    ensures ended { OnOk result (EndBy deck.entry.encoding deck.entry.document.now (number + 1) 0 tokens.new.items) }
    ensures lines { OnOk result (KeepsBetween number tokens.old.items tokens.new.items) }
{
    let words = words_of_line(alloc, deck, number, named)?;
    push_words(deck, number, &words, tokens)
}

/// The words of a line, from 0, in the order of their columns.
fn words_of_line(
    alloc: Global,
    deck: QueriedText<'_>,
    number: u32,
    named: &[NamedWord],
) -> Result<Vec<LineWord>, AllocError> {
    let mut words = Vec::new(alloc);
    for name in named {
        words.push(name.word)?;
    }
    let line = line_of(deck.document, number);
    if let Some(card) = deck.document.session().line(number.saturating_add(1)) {
        push_field_words(&mut words, card.bytes(), line)?;
    }
    part_words(alloc, line, &words)
}

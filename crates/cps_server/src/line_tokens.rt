//! The tokens of a line.
ghost use Rattle.std.specs.Prelude.{IfOk, IfSome, OnOk, ◌+◌};
ghost use Rattle.cps_server.specs.Code.TokenList.{BeginsBehind, EndBy, KeepsBetween};

use crate::line_word::LineWord;
use crate::mentions::line_of;
use crate::queried_text::QueriedText;
use crate::token::Token;
use cps_rpc::units_before;
use std::alloc::AllocError;

/// Appends the tokens of the words of a line, from 0.
pub fn push_words(
    deck: QueriedText<'_>,
    number: u32,
    words: &[LineWord],
    tokens: &mut Vec<Token>,
) -> Result<(), AllocError>
    requires { EndBy deck.encoding deck.document.now number 0 tokens.old.items }
    ensures ended { OnOk result (EndBy deck.entry.encoding deck.entry.document.now (number + 1) 0 tokens.new.items) }
    ensures lines { OnOk result (KeepsBetween number tokens.old.items tokens.new.items) }
{
    let mut free: u32 = 0;
    for word in words {
        free = push_word(deck, number, *word, free, tokens)?;
    }
    Ok(())
}

/// Appends the token of a word of a line, of which so many units are told; says how many then.
fn push_word(
    deck: QueriedText<'_>,
    number: u32,
    word: LineWord,
    free: u32,
    tokens: &mut Vec<Token>,
) -> Result<u32, AllocError>
    requires { EndBy deck.encoding deck.document.now number free tokens.old.items }
    ensures ended { IfOk result (λ free. EndBy deck.entry.encoding deck.entry.document.now number free tokens.new.items) }
    ensures lines { OnOk result (KeepsBetween number tokens.old.items tokens.new.items) }
{
    match token_of(deck, number, word, free) {
        Some(token) => {
            tokens.push(token)?;
            Ok(token.end)
        }
        None => Ok(free),
    }
}

/// The token of a word of a line, of which so many units are told. None: no unit is left to it.
fn token_of(deck: QueriedText<'_>, number: u32, word: LineWord, free: u32) -> Option<Token>
    ensures { IfSome result (BeginsBehind deck.entry.encoding deck.entry.document.now number free) }
{
    let line = line_of(deck.document, number);
    let start = units_before(deck.encoding, line, word.first).max(free);
    let end = units_before(deck.encoding, line, word.end);
    if start >= end {
        return None;
    }
    Some(Token {
        line: number,
        start,
        end,
        nature: word.nature,
    })
}

//! The words of lines that write names.

use crate::line_word::LineWord;
use crate::token::{Nature, TokenKind};
use cps_cause::Card;
use cps_expr::Operation;
use cps_list::View;
use cps_live::Session;
use cps_mention::{Meaning, Mention, Role, Stretch, mentions_in};
use cps_text::Name;
use std::alloc::{AllocError, Global};
use std::collections::BTreeSet;

/// A word that writes a name, or a part of one, and its line, from 0.
#[derive(Clone, Copy)]
pub struct NamedWord {
    pub line: u32,
    pub word: LineWord,
}

/// Lines from one up to another, from 0.
#[derive(Clone, Copy)]
pub struct LineSpan {
    pub first: u32,
    pub end: u32,
}

/// The words of lines of a source that write names, line by line: those of which something is done before the others.
pub fn named_words(
    alloc: Global,
    session: &Session,
    lines: LineSpan,
) -> Result<Vec<NamedWord>, AllocError> {
    let mentions = mentions_in(alloc, session, session.traces())?;
    let constants = constants_in(alloc, session, &mentions)?;
    let mut words = Vec::new(alloc);
    for mention in &mentions {
        if mention.is_done {
            push_mention(&mut words, mention, &constants, lines)?;
        }
    }
    for mention in &mentions {
        if !mention.is_done {
            push_mention(&mut words, mention, &constants, lines)?;
        }
    }
    words.sort_by_key(|word| word.line)?;
    Ok(words)
}

/// Those of a line, of which the first is at a place of all.
pub fn words_at(words: &[NamedWord], at: usize, line: u32) -> &[NamedWord] {
    let start = at.min(words.len());
    let rest = &words[start..];
    match rest.iter().position(|word| word.line != line) {
        Some(end) => &rest[..end],
        None => rest,
    }
}

/// The symbols to which EQU gives their values.
fn constants_in(
    alloc: Global,
    session: &Session,
    mentions: &[Mention],
) -> Result<BTreeSet<Name>, AllocError> {
    let mut constants = BTreeSet::new(alloc);
    for mention in mentions {
        if let (Meaning::Symbol(name), Role::Defines) = (mention.meaning, mention.role) {
            if mention.is_done && equates(session, &mention.written) {
                constants.insert(name)?;
            }
        }
    }
    Ok(constants)
}

/// Whether the line of a name has EQU.
fn equates(session: &Session, written: &[Stretch]) -> bool {
    let Some(stretch) = written.first() else {
        return false;
    };
    match session.line(stretch.line) {
        Some(line) => {
            let card = Card::of(line.bytes());
            matches!(
                Operation::named(card.operation_text()),
                Some(Operation::Equate)
            )
        }
        None => false,
    }
}

/// Appends the words of a mention in some lines.
fn push_mention(
    words: &mut Vec<NamedWord>,
    mention: &Mention,
    constants: &BTreeSet<Name>,
    lines: LineSpan,
) -> Result<(), AllocError> {
    let nature = nature_of(mention, constants);
    for stretch in &mention.written {
        let line = stretch.line.saturating_sub(1);
        if lines.first <= line && line < lines.end {
            let word = LineWord {
                first: stretch.first.saturating_sub(1),
                end: stretch.end.saturating_sub(1),
                nature,
            };
            words.push(NamedWord { line, word })?;
        }
    }
    Ok(())
}

fn nature_of(mention: &Mention, constants: &BTreeSet<Name>) -> Nature {
    let is_definition = mention.role == Role::Defines;
    match mention.meaning {
        Meaning::Symbol(name) => Nature {
            kind: TokenKind::Variable,
            is_definition,
            is_readonly: constants.contains(&name),
        },
        other => Nature {
            kind: kind_of(other),
            is_definition,
            is_readonly: false,
        },
    }
}

fn kind_of(meaning: Meaning) -> TokenKind {
    match meaning {
        Meaning::Symbol(_) => TokenKind::Variable,
        Meaning::Macro(_) => TokenKind::Macro,
        Meaning::Block(_) | Meaning::Program(_) => TokenKind::Namespace,
        Meaning::Parameter(..) | Meaning::Local(..) => TokenKind::Parameter,
    }
}

//! A part of a line, and the words in it that no name makes.

use crate::line_word::LineWord;
use crate::token::TokenKind;
use cps_text::capital;
use std::alloc::AllocError;

/// A part of a line, and how many columns stand before it.
#[derive(Clone, Copy)]
pub struct WordPart<'a> {
    pub text: &'a [u8],
    pub before: usize,
}

impl<'a> WordPart<'a> {
    /// Its characters from one place up to another.
    pub fn cut(self, from: usize, end: usize) -> WordPart<'a> {
        let end = end.min(self.text.len());
        let start = from.min(end);
        WordPart {
            text: &self.text[start..end],
            before: self.before.saturating_add(start),
        }
    }

    /// A place in it, as one of the line.
    pub fn place(self, at: usize) -> usize {
        self.before.saturating_add(at)
    }

    /// Appends all of it as a word.
    pub fn push(self, words: &mut Vec<LineWord>, kind: TokenKind) -> Result<(), AllocError> {
        let end = self.place(self.text.len());
        words.push(LineWord::of(self.before, end, kind))?;
        Ok(())
    }

    /// Appends its numbers, and registers and literals where there may be some.
    pub fn push_runs(
        self,
        words: &mut Vec<LineWord>,
        has_registers: bool,
    ) -> Result<(), AllocError> {
        let mut start: usize = 0;
        for (at, byte) in self.text.iter().enumerate() {
            if !is_of_run(*byte) {
                self.cut(start, at).push_run(words, has_registers)?;
                start = at.saturating_add(1);
            }
        }
        self.cut(start, self.text.len())
            .push_run(words, has_registers)
    }

    fn push_run(self, words: &mut Vec<LineWord>, has_registers: bool) -> Result<(), AllocError> {
        match kind_of(self.text, has_registers) {
            Some(kind) => self.push(words, kind),
            None => Ok(()),
        }
    }
}

fn is_of_run(byte: u8) -> bool {
    byte.is_ascii_alphanumeric() || byte == b'.' || byte == b'='
}

/// What a run of letters, digits, points and equal signs is. None: nothing, or a name.
fn kind_of(run: &[u8], has_registers: bool) -> Option<TokenKind> {
    match run {
        [first, ..] if first.is_ascii_digit() => Some(TokenKind::Number),
        [b'=', _, ..] if has_registers => Some(TokenKind::Text),
        [letter, b'0'..=b'7'] if has_registers && is_of_register(*letter) => {
            Some(TokenKind::Property)
        }
        _ => None,
    }
}

/// Whether a register's name begins with a letter.
fn is_of_register(letter: u8) -> bool {
    matches!(capital(letter), b'A' | b'B' | b'X')
}

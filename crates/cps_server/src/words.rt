//! The words of a line, in which symbols stand.
ghost use Rattle.std.specs.Prelude.{◌≡◌, ◌≤◌, length};
ghost use Rattle.cps_server.specs.Words as words;

use cps_text::{Name, capital};

/// The symbol around a place in a line, from 0. It is the word of all characters directly in front of the place and behind it that symbols have, if that
/// writes one.
pub fn symbol_at(line: &[u8], at: usize) -> Option<Name>
    ensures { result ≡ words.symbol_at line.now at }
{
    Name::read(word_around(line, at.min(line.len())))
}

/// Whether a word begins at a place in a line.
pub fn begins_word(line: &[u8], at: usize) -> bool
    requires { at ≤ length line.now }
{
    at < line.len() && is_in_word(line[at]) && word_start(line, at) == at
}

/// The word around a place in a line.
pub fn word_around(line: &[u8], at: usize) -> &[u8]
    requires { at ≤ length line.now }
    ensures { result.now ≡ words.word_around line.now at }
{
    &line[word_start(line, at)..word_end(line, at)]
}

/// Where a word begins that reaches to a place.
pub fn word_start(line: &[u8], at: usize) -> usize
    requires { at ≤ length line.now }
    ensures start { result ≡ words.word_start line.now at }
    ensures within { result ≤ at }
{
    let mut start = at;
    while start > 0 && is_in_word(line[start - 1]) {
        start -= 1;
    }
    start
}

/// Where a word ends that begins at a place or reaches over it.
pub fn word_end(line: &[u8], at: usize) -> usize
    requires { at ≤ length line.now }
    ensures end { result ≡ words.word_end line.now at }
    ensures behind { at ≤ result }
    ensures within { result ≤ length line.now }
{
    let mut end = at;
    while end < line.len() && is_in_word(line[end]) {
        end += 1;
    }
    end
}

/// Whether a symbol may have a byte, as a small or a capital letter.
fn is_in_word(byte: u8) -> bool
    ensures { result ≡ words.in_word byte }
{
    let byte = capital(byte);
    byte.is_ascii_uppercase() || byte.is_ascii_digit() || byte == b'.' || byte == b'='
}

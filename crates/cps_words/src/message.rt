//! Texts, as a message shows them.
ghost use Rattle.std.specs.Prelude.{◌≡◌, IfOk, string_bytes};
ghost use Rattle.cps_words.specs.Shown as texts;

use std::alloc::{AllocError, Global};

/// A text without what a terminal would obey: each control character but a newline is shown as `?`.
pub fn shown(alloc: Global, text: &str) -> Result<String, AllocError>
    ensures { IfOk result (λ shown. string_bytes shown ≡ texts.shown text.now) }
{
    text.chars().map(shown_letter).collect(alloc)
}

fn shown_letter(letter: char) -> char
    ensures { result ≡ texts.shown_letter letter }
{
    if letter.is_control() && letter != '\n' {
        '?'
    } else {
        letter
    }
}

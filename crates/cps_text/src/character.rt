//! Characters and their display code.
ghost use Rattle.std.specs.Prelude.{◌≡◌, ◌==◌, ◌<◌, IfSome, length};
ghost use Rattle.std.specs.List.{position};
ghost use Rattle.cps_text.specs.Display.{display_characters, display_of, has_display};
ghost use Rattle.cps_text.specs.Text.{capital};

/// A letter's capital; any other character itself.
pub fn capital(byte: u8) -> u8
    ensures { result ≡ capital byte }
{
    if byte.is_ascii_lowercase() {
        byte - 32
    } else {
        byte
    }
}

/// The display code of a character, None where it has none. A lower-case letter has its capital's.
pub fn display(byte: u8) -> Option<u8>
    ensures code { result ≡ display_of byte }
    ensures below { IfSome result (λ code. code < 64) }
{
    match place_of(capital(byte), display_characters()) {
        Some(at) => Some(at as u8),
        None => None,
    }
}

/// Whether a character has a display code.
pub fn has_display(byte: u8) -> bool
    ensures { result ≡ has_display byte }
{
    display(byte).is_some()
}

/// The characters in the order of their display codes.
fn display_characters() -> &'static [u8]
    ensures characters { result.now ≡ display_characters }
    ensures count { length result.now ≡ 64 }
{
    b":ABCDEFGHIJKLMNOPQRSTUVWXYZ0123456789+-*/()$= ,.#[]%\"_!&'?<>@\\^;"
}

/// Where a character stands first in a text.
pub fn place_of(character: u8, characters: &[u8]) -> Option<usize>
    ensures place { result ≡ position (λ c. c == character) characters.now }
    ensures within { IfSome result (λ at. at < length characters.now) }
{
    characters.iter().position(|c| *c == character)
}

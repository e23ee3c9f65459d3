//! What a terminal is shown of a line.
ghost use Rattle.std.specs.Prelude.{◌≡◌, ◌++◌, true, OnOk, codes};
ghost use Rattle.std.specs.Option.{option_map_or};
ghost use Rattle.cps_input.specs.Shown.{has_no_control, is_control, is_obeyed, shown, shown_character, shown_width};

use crate::lines::behind;
use bstr::decode_utf8;
use std::alloc::AllocError;

/// Appends a line as a terminal may be sent it: a tab as a blank, and `?` for what a terminal obeys, for what turns text round and for bytes that are no UTF-8.
pub fn push_shown(line: &[u8], text: &mut Vec<u8>) -> Result<(), AllocError>
    ensures ok { OnOk result (text.new.items ≡ text.old.items ++ shown line.now) }
    ensures safe { has_no_control (shown line.now) ≡ true }
{
    let mut rest = line;
    while !rest.is_empty() {
        let (character, size) = decode_utf8(rest);
        push_piece(text, character)?;
        rest = behind(rest, size);
    }
    Ok(())
}

/// How many characters are shown of a line, or of a part of it.
pub fn shown_width(line: &[u8]) -> usize
    ensures { result ≡ shown_width line.now }
{
    let mut width = 0;
    let mut rest = line;
    while !rest.is_empty() {
        let (_, size) = decode_utf8(rest);
        width += 1;
        rest = behind(rest, size);
    }
    width
}

/// Appends a character, or `?` where there is none.
fn push_piece(text: &mut Vec<u8>, character: Option<char>) -> Result<(), AllocError>
    ensures { OnOk result (text.new.items ≡ text.old.items ++ option_map_or shown_character character (codes "?")) }
{
    match character {
        Some(character) => push_shown_character(text, character),
        None => text.extend_from_slice(b"?"),
    }
}

fn push_shown_character(text: &mut Vec<u8>, character: char) -> Result<(), AllocError>
    ensures { OnOk result (text.new.items ≡ text.old.items ++ shown_character character) }
{
    if character == '\t' {
        return text.extend_from_slice(b" ");
    }
    if is_obeyed(character) {
        return text.extend_from_slice(b"?");
    }
    text.extend_from_slice(character.encode_utf8(&mut [0; 4]).as_bytes())
}

/// Whether a terminal obeys a character, or it turns text round, or shows nothing.
pub fn is_obeyed(character: char) -> bool
    ensures { result ≡ is_obeyed character }
{
    is_control(character)
        || matches!(character, '\u{80}'..='\u{9F}' | '\u{200B}'..='\u{200F}' | '\u{2028}'..='\u{202E}' | '\u{2060}'..='\u{2069}' | '\u{FEFF}')
}

/// Whether a character is a control character of ASCII.
pub fn is_control(character: char) -> bool
    ensures { result ≡ is_control character }
{
    character < ' ' || character == '\u{7F}'
}

//! Text, with those characters by name that begin or end markup.
ghost use Rattle.std.specs.Prelude.{◌≡◌, ◌++◌, IsTrue, OnOk};
ghost use Rattle.cps_markup.specs.Markup.{character_text, escaped};

use std::alloc::AllocError;

/// Appends a text. Nothing of it can be read as markup.
pub fn push_text(page: &mut Vec<u8>, text: &[u8]) -> Result<(), AllocError>
    ensures { OnOk result (page.new.items ≡ page.old.items ++ escaped text.now) }
{
    if is_plain(text) {
        page.extend_from_slice(text)?;
        Ok(())
    } else {
        push_characters(page, text)
    }
}

/// Whether no character of a text is written by name, as of nearly all.
fn is_plain(text: &[u8]) -> bool
    ensures { IsTrue result → escaped text.now ≡ text.now }
{
    for character in text {
        if matches!(character, b'&' | b'<' | b'>' | b'"') {
            return false;
        }
    }
    true
}

fn push_characters(page: &mut Vec<u8>, text: &[u8]) -> Result<(), AllocError>
    ensures { OnOk result (page.new.items ≡ page.old.items ++ escaped text.now) }
{
    for character in text {
        push_character(page, *character)?;
    }
    Ok(())
}

fn push_character(page: &mut Vec<u8>, character: u8) -> Result<(), AllocError>
    ensures { OnOk result (page.new.items ≡ page.old.items ++ character_text character) }
{
    match character {
        b'&' => page.extend_from_slice(b"&amp;"),
        b'<' => page.extend_from_slice(b"&lt;"),
        b'>' => page.extend_from_slice(b"&gt;"),
        b'"' => page.extend_from_slice(b"&quot;"),
        _ => {
            page.push(character)?;
            Ok(())
        }
    }
}

//! The mentions of a source as a text, a row for each.
use cps_live::Session;
use cps_mention::{Meaning, Mention, Role, Stretch, mentions_in};
use cps_state::{Hashing, Work};
use cps_text::limits::MOST_LINES;
use cps_text::{Line, Name};
use itoa::Buffer;
use std::alloc::{AllocError, Global};

/// The mentions of a source of these lines, a row for each: `LINE:FIRST-LAST ROLE KIND NAME`, the line of the macro behind `of`, the lines that did it
/// behind `by`, or `idle`, and where that is defined that counted behind `from`.
pub fn mentions_told(alloc: Global, texts: &[&str]) -> Option<Vec<u8>> {
    let session = session_of(alloc, texts)?;
    let mentions = mentions_in(alloc, &session, session.traces()).ok()?;
    told_of(alloc, &mentions).ok()
}

/// A session over these lines.
pub fn session_of(alloc: Global, texts: &[&str]) -> Option<Session> {
    let mut lines = Vec::new(alloc);
    for text in texts {
        let line = Line::new(alloc, text.as_bytes()).ok()?;
        lines.push(line).ok()?;
    }
    if lines.len() > MOST_LINES {
        return None;
    }
    Session::enter(alloc, Hashing::by(1), lines, &mut Work::new()).ok()
}

/// Mentions as a text.
pub fn told_of(alloc: Global, mentions: &[Mention]) -> Result<Vec<u8>, AllocError> {
    let mut text = Vec::new(alloc);
    for mention in mentions {
        push_mention(&mut text, mention)?;
    }
    Ok(text)
}

fn push_mention(text: &mut Vec<u8>, mention: &Mention) -> Result<(), AllocError> {
    push_stretches(text, &mention.written)?;
    text.extend_from_slice(role_word(mention.role))?;
    push_meaning(text, mention.meaning)?;
    if mention.is_done {
        text.extend_from_slice(b" by ")?;
        push_lines(text, &mention.by)?;
    } else {
        text.extend_from_slice(b" idle")?;
    }
    if !mention.from.is_empty() {
        text.extend_from_slice(b" from ")?;
        push_stretches(text, &mention.from)?;
    }
    text.push(b'\n')?;
    Ok(())
}

fn push_stretches(text: &mut Vec<u8>, stretches: &[Stretch]) -> Result<(), AllocError> {
    for (at, stretch) in stretches.iter().enumerate() {
        if at > 0 {
            text.push(b'+')?;
        }
        push_number(text, stretch.line as usize)?;
        text.push(b':')?;
        push_number(text, stretch.first)?;
        text.push(b'-')?;
        push_number(text, stretch.end.saturating_sub(1))?;
    }
    Ok(())
}

fn push_lines(text: &mut Vec<u8>, lines: &[u32]) -> Result<(), AllocError> {
    for (at, line) in lines.iter().enumerate() {
        if at > 0 {
            text.push(b',')?;
        }
        push_number(text, *line as usize)?;
    }
    Ok(())
}

fn role_word(role: Role) -> &'static [u8] {
    match role {
        Role::Defines => b" defines ",
        Role::Reads => b" reads ",
        Role::Calls => b" calls ",
        Role::Uses => b" uses ",
        Role::Clashes => b" clashes ",
    }
}

fn push_meaning(text: &mut Vec<u8>, meaning: Meaning) -> Result<(), AllocError> {
    match meaning {
        Meaning::Symbol(name) => push_named(text, b"symbol ", name),
        Meaning::Macro(name) => push_named(text, b"macro ", name),
        Meaning::Block(name) => push_named(text, b"block ", name),
        Meaning::Program(name) => push_named(text, b"program ", name),
        Meaning::Parameter(line, name) => push_of_macro(text, b"parameter ", name, line),
        Meaning::Local(line, name) => push_of_macro(text, b"local ", name, line),
    }
}

fn push_named(text: &mut Vec<u8>, kind: &[u8], name: Name) -> Result<(), AllocError> {
    text.extend_from_slice(kind)?;
    text.extend_from_slice(name.text())
}

fn push_of_macro(text: &mut Vec<u8>, kind: &[u8], name: Name, line: u32) -> Result<(), AllocError> {
    push_named(text, kind, name)?;
    text.extend_from_slice(b" of ")?;
    push_number(text, line as usize)
}

pub fn push_number(text: &mut Vec<u8>, number: usize) -> Result<(), AllocError> {
    text.extend_from_slice(Buffer::new().format(number).as_bytes())
}

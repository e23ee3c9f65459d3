//! A source of 9,999 lines, and what is told of its names.
ghost use Rattle.std.specs.Prelude.{◌<◌};

use super::told::push_number;
use cps_live::Session;
use cps_state::{Hashing, Work};
use cps_text::Line;
use cps_text::limits::MOST_LINES;
use std::alloc::{AllocError, Global};

/// How many lines stand before the last one, END. Each defines a symbol, and reads that of the next; the last of them that of the first.
const SYMBOLS: usize = 9_998;

/// A session over it.
pub fn large_session(alloc: Global) -> Option<Session> {
    let lines = large_lines(alloc).ok()?;
    if lines.len() > MOST_LINES {
        return None;
    }
    Session::enter(alloc, Hashing::by(1), lines, &mut Work::new()).ok()
}

fn large_lines(alloc: Global) -> Result<Vec<Line>, AllocError> {
    let mut lines = Vec::new(alloc);
    for at in 0..SYMBOLS {
        let text = line_at(alloc, at)?;
        if let Ok(line) = Line::new(alloc, &text) {
            lines.push(line)?;
        }
    }
    if let Ok(line) = Line::new(alloc, b"          END") {
        lines.push(line)?;
    }
    Ok(lines)
}

/// A line, from 0.
fn line_at(alloc: Global, at: usize) -> Result<Vec<u8>, AllocError>
    requires { at < SYMBOLS }
{
    let mut text = Vec::new(alloc);
    push_symbol(&mut text, at)?;
    text.extend_from_slice(b"    CON     ")?;
    push_symbol(&mut text, next(at))?;
    Ok(text)
}

/// The line whose symbol another reads.
fn next(at: usize) -> usize
    requires { at < SYMBOLS }
    ensures { result < SYMBOLS }
{
    if at + 1 < SYMBOLS { at + 1 } else { 0 }
}

/// The symbol of a line: six characters.
fn push_symbol(text: &mut Vec<u8>, at: usize) -> Result<(), AllocError>
    requires { at < SYMBOLS }
{
    text.push(b'L')?;
    push_number(text, 10_001 + at)
}

/// What is told of its names.
pub fn large_told(alloc: Global) -> Result<Vec<u8>, AllocError> {
    let mut text = Vec::new(alloc);
    for at in 0..SYMBOLS {
        push_definition(&mut text, at)?;
        push_reading(&mut text, at)?;
    }
    Ok(text)
}

fn push_definition(text: &mut Vec<u8>, at: usize) -> Result<(), AllocError>
    requires { at < SYMBOLS }
{
    push_number(text, at + 1)?;
    text.extend_from_slice(b":1-6 defines symbol ")?;
    push_symbol(text, at)?;
    text.extend_from_slice(b" by ")?;
    push_number(text, at + 1)?;
    text.push(b'\n')?;
    Ok(())
}

fn push_reading(text: &mut Vec<u8>, at: usize) -> Result<(), AllocError>
    requires { at < SYMBOLS }
{
    push_number(text, at + 1)?;
    text.extend_from_slice(b":19-24 reads symbol ")?;
    push_symbol(text, next(at))?;
    text.extend_from_slice(b" by ")?;
    push_number(text, at + 1)?;
    text.extend_from_slice(b" from ")?;
    push_number(text, next(at) + 1)?;
    text.extend_from_slice(b":1-6\n")
}

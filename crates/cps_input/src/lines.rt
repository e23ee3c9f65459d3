//! A text, cut into lines.
ghost use Rattle.std.specs.Prelude.{◌≡◌, ℕ, List, drop, map, IfOk};
ghost use Rattle.cps_input.specs.Lines.{HasText};
ghost use Rattle.cps_input.specs.Code.Input.{AnswersLines};

use crate::input::Input;
use crate::input_fault::InputFault;
use crate::line_end::{newline_at, without_return};
use crate::line_text::LineText;
use crate::taker::Taker;
use std::alloc::{AllocError, Global};

/// The lines of a text: what stands before each newline, without a carriage return before that, and what stands behind the last newline, if it has a byte.
pub fn cut_lines(alloc: Global, text: &[u8]) -> Result<Vec<&[u8]>, AllocError>
    ensures { IfOk result (λ lines. HasText text.now (map (λ line. line.now) lines.items)) }
{
    let mut lines = Vec::new(alloc);
    let mut rest = text;
    while let Some(at) = newline_at(rest) {
        lines.push(without_return(&rest[..at]))?;
        rest = behind(rest, at + 1);
    }
    if rest.is_empty() {
        return Ok(lines);
    }
    let last = without_return(rest);
    lines.push(last)?;
    Ok(lines)
}

/// The lines of a text, if a source may have them and there was memory.
pub fn source_lines(alloc: Global, text: &[u8]) -> Result<LineText, InputFault>
    ensures { (source : List (List ℕ)) × HasText text.now source × AnswersLines result source }
{
    let mut input = Input::new(alloc);
    input.take_bytes(text);
    input.finish()
}

/// What stands behind so many bytes.
pub fn behind(text: &[u8], count: usize) -> &[u8]
    ensures { result.now ≡ drop count text.now }
{
    if text.len() < count {
        return &[];
    }
    let (_, rest) = text.split_at(count);
    rest
}

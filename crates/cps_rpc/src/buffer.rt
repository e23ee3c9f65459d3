//! A text that is changed, kept as its lines.
ghost use Rattle.std.specs.Prelude.{◌≡◌, ◌<◌, ◌≤◌, vec_len, ◌++◌, [], ◌∷◌, Some, IfOk, OnOk, OnErr, length, map, slice_get, true};
ghost use Rattle.std.specs.List.{splice};
ghost use Rattle.cps_input.specs.Lines.{has_no_newline, newline};
ghost use Rattle.cps_rpc.specs.Changes.{changed, IsReplacement};
ghost use Rattle.cps_rpc.specs.Lines.{text_lines, source_lines};
ghost use Rattle.cps_rpc.specs.Code.Spots.{IsSpot, between};

use crate::encoding::Encoding;
use crate::position::Range;
use crate::replacement::Replacement;
use crate::spot::Spot;
use cps_input::{newline_at, without_return};
use std::alloc::{AllocError, Global};
use std::marker::Model;

/// A text that is changed, kept as its lines: what stands before each newline, and what stands behind the last one.
#[derive(Drop)]
pub struct Buffer {
    alloc: Global,
    lines: Vec<Vec<u8>>,
}

impl Model for Buffer {
    ghost use Rattle.std.specs.Prelude.{List, ℕ, map};
    ghost use Rattle.cps_rpc.specs.Lines.{AreLines, text_of};

    ghost Value = { List ℕ };

    ghost view = { λ buffer. text_of (map (λ line. line.items) buffer.lines.items) };

    ghost invariant = { λ buffer. AreLines (map (λ line. line.items) buffer.lines.items) };
}

impl Buffer {
    /// A text.
    pub fn of(alloc: Global, text: &[u8]) -> Result<Buffer, AllocError>
        ensures { IfOk result (λ buffer. buffer ≡ text.now) }
    {
        let mut buffer = Buffer::new(alloc)?;
        buffer.push(text)?;
        Ok(buffer)
    }

    /// The same text once more.
    pub fn copy(&self) -> Result<Buffer, AllocError>
        ensures { IfOk result (λ buffer. buffer ≡ self.now) }
    {
        let lines = self.lines.clone()?;
        Ok(Buffer {
            alloc: self.alloc,
            lines,
        })
    }

    /// The lines, without their newlines. The last is what stands behind the last newline, so there is one at least: an empty text has an empty line.
    pub fn lines(&self) -> &[Vec<u8>]
        ensures { map (λ line. line.items) result.now ≡ text_lines self.now }
    {
        &self.lines
    }

    /// Puts new text in the place of a range, or, where no range is told, of all of the text, and tells which lines gave way. It takes
    /// time for the new text and for the two lines that the range cuts; the lines behind it are moved once.
    pub fn change(
        &mut self,
        encoding: Encoding,
        range: Option<Range>,
        new: &[u8],
    ) -> Result<Replacement, AllocError>
        ensures text { OnOk result (self.new ≡ changed encoding self.old range new.now) }
        ensures lines { IfOk result (λ replacement. IsReplacement self.old range self.new replacement) }
        ensures err { OnErr result (self.new ≡ self.old) }
    {
        match range {
            Some(range) => self.replace(encoding, range, new),
            None => self.replace_all(new),
        }
    }

    /// How many lines the source has that the text stands for: as many as the text has, but the last one counts only if it has a byte.
    pub fn source_len(&self) -> usize
        ensures { result ≡ length (source_lines self.now) }
    {
        let last = self.lines.len() - 1;
        if self.lines[last].is_empty() {
            last
        } else {
            last + 1
        }
    }

    /// A line of that source, from 0: one of the text without the carriage return at its end.
    pub fn source_line(&self, at: usize) -> &[u8]
        requires { at < length (source_lines self.now) }
        ensures { slice_get (source_lines self.now) at ≡ Some result.now }
    {
        without_return(&self.lines[at])
    }

    /// An empty text.
    fn new(alloc: Global) -> Result<Buffer, AllocError>
        ensures { IfOk result (λ buffer. buffer ≡ []) }
    {
        let mut lines = Vec::new(alloc);
        lines.push(Vec::new(alloc))?;
        Ok(Buffer { alloc, lines })
    }

    /// Appends a text. Where memory is refused, a part of it may stand.
    fn push(&mut self, text: &[u8]) -> Result<(), AllocError>
        ensures { OnOk result (self.new ≡ self.old ++ text.now) }
    {
        let mut rest = text;
        while let Some(at) = newline_at(rest) {
            let (line, ended) = rest.split_at(at);
            rest = &ended[1..];
            self.extend_last(line)?;
            self.end_line()?;
        }
        self.extend_last(rest)
    }

    /// Appends bytes to the last line.
    fn extend_last(&mut self, bytes: &[u8]) -> Result<(), AllocError>
        requires { has_no_newline bytes.now ≡ true }
        ensures { OnOk result (self.new ≡ self.old ++ bytes.now) }
    {
        let last = self.lines.len() - 1;
        self.lines[last].extend_from_slice(bytes)
    }

    /// Appends a newline.
    fn end_line(&mut self) -> Result<(), AllocError>
        ensures { OnOk result (self.new ≡ self.old ++ newline ∷ []) }
    {
        self.lines.push(Vec::new(self.alloc))?;
        Ok(())
    }

    /// Puts new text in the place of all of it.
    fn replace_all(&mut self, new: &[u8]) -> Result<Replacement, AllocError>
        ensures text { OnOk result (self.new ≡ new.now) }
        ensures lines { IfOk result (λ replacement. IsReplacement self.old None self.new replacement) }
        ensures err { OnErr result (self.new ≡ self.old) }
    {
        let buffer = Buffer::of(self.alloc, new)?;
        let replacement = Replacement {
            first: 0,
            end: self.lines.len(),
            count: buffer.lines.len(),
        };
        *self = buffer;
        Ok(replacement)
    }

    /// Puts new text in the place of a range.
    fn replace(
        &mut self,
        encoding: Encoding,
        range: Range,
        new: &[u8],
    ) -> Result<Replacement, AllocError>
        ensures text { OnOk result (self.new ≡ changed encoding self.old (Some range) new.now) }
        ensures lines { IfOk result (λ replacement. IsReplacement self.old (Some range) self.new replacement) }
        ensures err { OnErr result (self.new ≡ self.old) }
    {
        let lines = self.lines.as_slice();
        let start = Spot::of(lines, encoding, range.start);
        let end = start.max(Spot::of(lines, encoding, range.end));
        let news = Buffer::between(self.alloc, lines, start, new, end)?;
        let replacement = Replacement {
            first: start.line,
            end: end.line + 1,
            count: news.lines.len(),
        };
        put_lines(&mut self.lines, start.line, end.line + 1, news.lines)?;
        Ok(replacement)
    }

    /// The lines from one place to another, with new text in the place of what stands between the two.
    fn between(
        alloc: Global,
        lines: &[Vec<u8>],
        start: Spot,
        new: &[u8],
        end: Spot,
    ) -> Result<Buffer, AllocError>
        requires start { IsSpot (map (λ line. line.items) lines.now) start }
        requires end { IsSpot (map (λ line. line.items) lines.now) end }
        ensures { IfOk result (λ news. news ≡ between (map (λ line. line.items) lines.now) start new.now end) }
    {
        let mut news = Buffer::new(alloc)?;
        news.push(&lines[start.line][..start.byte])?;
        news.push(new)?;
        news.push(&lines[end.line][end.byte..])?;
        Ok(news)
    }
}

/// Puts lines in the place of others. The lines behind them are moved once.
fn put_lines(
    lines: &mut Vec<Vec<u8>>,
    first: usize,
    end: usize,
    news: Vec<Vec<u8>>,
) -> Result<(), AllocError>
    requires ordered { first ≤ end }
    requires within { end ≤ vec_len lines.old }
    ensures ok { OnOk result (lines.new.items ≡ splice lines.old.items first end news.items) }
    ensures err { OnErr result (lines.new.items ≡ lines.old.items) }
{
    drop(lines.splice(first..end, news)?);
    Ok(())
}

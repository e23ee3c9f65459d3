//! A statement's text, and what wrote each of its characters.
ghost use Rattle.std.specs.Prelude.{◌≡◌, IfOk};
ghost use Rattle.cps_mention.specs.CallLines.{IsShort, origins_of, written_on};

use crate::placed_text::PlacedText;
use crate::stretch::Stretch;
use cps_state::Shared;
use std::alloc::{AllocError, Global};

/// A statement's text, and for each character what wrote it: its own column, or all of the local name for which a generated name stands.
#[derive(Clone, Copy)]
pub struct StatementText<'a> {
    pub text: &'a [u8],
    pub origins: &'a [Stretch],
    /// The line of the source where it stands, from 1: in a body that of the body.
    pub line: u32,
}

/// The same, kept.
#[derive(Drop)]
pub struct KeptText {
    pub text: Shared<u8>,
    pub origins: Vec<Stretch>,
    pub line: u32,
}

impl KeptText {
    /// A text, and what wrote each of its characters.
    pub fn of(text: &Shared<u8>, origins: Vec<Stretch>, line: u32) -> Result<KeptText, AllocError> {
        Ok(KeptText {
            text: text.share()?,
            origins,
            line,
        })
    }

    /// A line of a source, as it stands there.
    pub fn of_line(alloc: Global, line: u32, text: &[u8]) -> Result<KeptText, AllocError> {
        let origins = columns_of(alloc, line, text)?;
        Ok(KeptText {
            text: Shared::new(alloc, text)?,
            origins,
            line,
        })
    }

    pub fn as_text(&self) -> StatementText<'_> {
        StatementText {
            text: self.text.as_slice(),
            origins: self.origins.as_slice(),
            line: self.line,
        }
    }
}

impl<'a> StatementText<'a> {
    /// All of it as a part.
    pub fn whole(&self) -> PlacedText<'a> {
        PlacedText {
            text: self.text,
            before: 0,
        }
    }

    /// What wrote the characters of a part.
    pub fn origins_of(&self, part: PlacedText<'_>) -> &'a [Stretch] {
        let end = part
            .before
            .saturating_add(part.text.len())
            .min(self.origins.len());
        let start = part.before.min(end);
        &self.origins[start..end]
    }

    /// The columns that write a part, those beside one another as one stretch.
    pub fn stretches_of(
        &self,
        alloc: Global,
        part: PlacedText<'_>,
    ) -> Result<Vec<Stretch>, AllocError> {
        let mut stretches = Vec::new(alloc);
        for origin in self.origins_of(part) {
            add_column(&mut stretches, *origin)?;
        }
        Ok(stretches)
    }

    /// The same text, kept.
    pub fn to_kept(&self, alloc: Global) -> Result<KeptText, AllocError> {
        Ok(KeptText {
            text: Shared::new(alloc, self.text)?,
            origins: self.origins.to_vec(alloc)?,
            line: self.line,
        })
    }
}

/// A column, which may go on the last stretch.
fn add_column(stretches: &mut Vec<Stretch>, origin: Stretch) -> Result<(), AllocError> {
    if let Some(last) = stretches.last_mut() {
        if last.line == origin.line && last.end == origin.first {
            last.end = origin.end;
            return Ok(());
        }
    }
    stretches.push(origin)?;
    Ok(())
}

/// What wrote the characters of a line of a source.
pub fn columns_of(alloc: Global, line: u32, text: &[u8]) -> Result<Vec<Stretch>, AllocError>
    ensures { IsShort text.now → IfOk result (λ origins. origins.items ≡ origins_of (written_on line 0 text.now)) }
{
    let mut origins = Vec::with_capacity(alloc, text.len())?;
    for before in 0..text.len() {
        origins.push(Stretch::behind(line, before, 1))?;
    }
    Ok(origins)
}

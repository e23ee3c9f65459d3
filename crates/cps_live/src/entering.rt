//! The lines that a source begins with.
ghost use Rattle.std.specs.Prelude.{◌≡◌, IfOk, length};
ghost use Rattle.cps_chunk.specs.Code.Chunk.{lengths_of};
ghost use Rattle.cps_chunk.specs.Division.{AreChunks};
ghost use Rattle.cps_edit.specs.Compares.{Steps};
ghost use Rattle.cps_live.specs.Code.Editing.{IsKept};
ghost use Rattle.cps_live.specs.Entering.{full_chunks};

use crate::chunk_list::chunks_of;
use crate::kept_source::KeptSource;
use crate::names_read::NamesRead;
use cps_chunk::FULL;
use cps_edit::PassOne;
use cps_state::{Hashing, Scratch, State, Work};
use cps_text::Line;
use std::alloc::{AllocError, Global};

/// What is kept of lines: both passes are made of each, once, and they stand in full chunks.
pub fn kept_of(
    alloc: Global,
    hashing: Hashing,
    lines: Vec<Line>,
    work: &mut Work,
) -> Result<KeptSource, AllocError>
    ensures kept { IfOk result IsKept }
    ensures lines { IfOk result (λ kept. kept.lines.items ≡ lines.items) }
    ensures lengths { IfOk result (λ kept. lengths_of kept.chunks.items ≡ full_chunks (length lines.items)) }
    ensures steps { Steps result work.old work.new (length lines.items) (length lines.items) }
    ensures looked { work.new.looked ≡ work.old.looked }
{
    let lengths = full_lengths(alloc, lines.len())?;
    let room = Vec::with_capacity(alloc, lengths.len())?;
    let one = PassOne::of(alloc, hashing, &lines, work)?;
    let outcomes = one.make_outcomes(alloc, work)?;
    let (traces, finals) = one.into_parts();
    let mut read = NamesRead::new(alloc, hashing);
    read.add_all(&outcomes)?;
    let chunks = chunks_of(hashing, &lengths, &traces, room);
    Ok(KeptSource {
        alloc,
        hashing,
        first: State::first(alloc, hashing),
        lines,
        traces,
        outcomes,
        chunks,
        finals,
        read,
        scratch: Scratch::new(alloc),
        patch: None,
    })
}

/// How many lines each chunk has where so many lines are in full chunks.
fn full_lengths(alloc: Global, lines: usize) -> Result<Vec<usize>, AllocError>
    ensures { IfOk result (λ lengths. lengths.items ≡ full_chunks lines) }
{
    let mut lengths = Vec::new(alloc);
    for _ in 0..lines / FULL {
        lengths.push(FULL)?;
    }
    if lines % FULL > 0 {
        lengths.push(lines % FULL)?;
    }
    Ok(lengths)
}

//! The chunks of a source of which two runs of lines have changed places, made from the old ones.
ghost use Rattle.std.specs.Prelude.{◌≡◌, ◌≤◌, IfSome, length, vec_len, vec_capacity};
ghost use Rattle.cps_chunk.specs.Code.Pieces.{lines_of};
ghost use Rattle.cps_chunk.specs.Code.Chunk.{AreChunksOf, IsChunkOf, lengths_of};
ghost use Rattle.cps_chunk.specs.Code.MovedChunks.{AreMoved, IsOldOf, StayBut};

use crate::chunk::Chunk;
use crate::exchange::RecutChunk;
use cps_state::{Hashing, Trace};
use std::mem::replace;

/// The chunks of a source whose lines have changed places: old ones where all lines of one stand together again, and new ones of the others. The old ones are
/// moved, and what is left in their place is of no use.
pub fn chunks_moved(
    hashing: Hashing,
    olds: Vec<Chunk>,
    pieces: &[RecutChunk],
    traces: &[Trace],
    room: Vec<Chunk>,
) -> Vec<Chunk>
    requires moved { AreMoved hashing olds.items pieces.now traces.now }
    requires empty { vec_len room ≡ 0 }
    requires room { length pieces.now ≤ vec_capacity room }
    ensures chunks { AreChunksOf hashing result.items traces.now }
    ensures lengths { lengths_of result.items ≡ lines_of pieces.now }
{
    let mut olds = olds;
    let mut chunks = room;
    let mut left = traces;
    for piece in pieces {
        let (here, behind) = left.split_at(piece.lines);
        let chunk = old_or_new(hashing, &mut olds, piece.old, here);
        chunks.push_reserved(chunk);
        left = behind;
    }
    chunks
}

/// The chunk of lines that did this: the old one that is named, with an empty one left in its place, or a new one where none is.
fn old_or_new(
    hashing: Hashing,
    olds: &mut Vec<Chunk>,
    named: Option<usize>,
    traces: &[Trace],
) -> Chunk
    requires { IfSome named (IsOldOf hashing olds.old.items traces.now) }
    ensures chunk { IsChunkOf hashing traces.now result }
    ensures olds { StayBut named olds.old.items olds.new.items }
{
    match named {
        Some(old) => replace(&mut olds[old], Chunk::of(hashing, &[])),
        None => Chunk::of(hashing, traces),
    }
}

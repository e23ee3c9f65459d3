//! The chunks of a source, kept up to date.
ghost use Rattle.std.specs.Prelude.{◌≡◌, ◌≤◌, ◌<◌, ◌++◌, ◌∷◌, [], List, length, sum, take, vec_len, vec_capacity};
ghost use Rattle.cps_state.specs.Course.{Trace as Did};
ghost use Rattle.cps_chunk.specs.Division.{AreChunks, inserted_at};
ghost use Rattle.cps_chunk.specs.Recut.{recut};
ghost use Rattle.cps_chunk.specs.Code.Chunk.{AreChunksOf, lengths_of};
ghost use Rattle.cps_chunk.specs.Sparse.{AreWithin, renewed};
ghost use Rattle.cps_live.specs.Code.ChunkList.{Fits, HasRoom};

use crate::lists::put_at;
use cps_chunk::{Chunk, ChunkSplice, FULL, SparseItem};
use cps_state::{Hashing, Trace};
use std::slice::from_ref;

/// Marks what lines do now, each at its place, in their chunks.
pub fn mark_all(chunks: &mut Vec<Chunk>, hashing: Hashing, news: &[SparseItem<Trace>])
    requires { AreWithin 0 (sum (lengths_of chunks.old.items)) news.now }
    ensures chunks { (ts : List Did) → AreChunksOf hashing chunks.old.items ts → AreChunksOf hashing chunks.new.items (renewed 0 news.now ts) }
    ensures lengths { lengths_of chunks.new.items ≡ lengths_of chunks.old.items }
    ensures room { vec_capacity chunks.new ≡ vec_capacity chunks.old }
{
    let mut chunk = 0;
    let mut line = 0;
    for new in news {
        while chunk < chunks.len() && new.at - line >= chunks[chunk].lines {
            line += chunks[chunk].lines;
            chunk += 1;
        }
        chunks[chunk].mark(hashing, &new.item);
    }
}

/// Chunks of these lengths, of lines that did this, in a list that has room for them.
pub fn chunks_of(
    hashing: Hashing,
    lengths: &[usize],
    traces: &[Trace],
    room: Vec<Chunk>,
) -> Vec<Chunk>
    requires empty { vec_len room ≡ 0 }
    requires room { length lengths.now ≤ vec_capacity room }
    requires within { sum lengths.now ≤ length traces.now }
    ensures chunks { AreChunksOf hashing result.items (take (sum lengths.now) traces.now) }
    ensures lengths { lengths_of result.items ≡ lengths.now }
{
    let mut chunks = room;
    let mut left = traces;
    for lines in lengths {
        let (here, behind) = left.split_at(*lines);
        chunks.push_reserved(Chunk::of(hashing, here));
        left = behind;
    }
    chunks
}

/// A line behind the last: the last chunk grows, or a new one comes.
pub fn grow_last(chunks: &mut Vec<Chunk>, hashing: Hashing, trace: &Trace)
    requires divided { AreChunks (lengths_of chunks.old.items) }
    requires room { vec_len chunks.old < vec_capacity chunks.old }
    ensures chunks { (ts : List Did) → AreChunksOf hashing chunks.old.items ts → AreChunksOf hashing chunks.new.items (ts ++ trace.now ∷ []) }
    ensures lengths { lengths_of chunks.new.items ≡ inserted_at (sum (lengths_of chunks.old.items)) (lengths_of chunks.old.items) }
{
    let count = chunks.len();
    if count > 0 && chunks[count - 1].lines < FULL {
        chunks[count - 1].grow(hashing, trace);
        return;
    }
    chunks.push_reserved(Chunk::of(hashing, from_ref(trace)));
}

/// Puts new chunks in the place of others, where the lines do this now; `room` is a list for them.
pub fn put_chunks(
    chunks: &mut Vec<Chunk>,
    hashing: Hashing,
    cut: &ChunkSplice,
    traces: &[Trace],
    room: Vec<Chunk>,
)
    requires fits { (olds : List Did) × Fits hashing cut.now chunks.old.items olds traces.now }
    requires empty { vec_len room ≡ 0 }
    requires room { HasRoom cut.now chunks.old traces.now room }
    ensures chunks { AreChunksOf hashing chunks.new.items traces.now }
    ensures lengths { lengths_of chunks.new.items ≡ recut cut.now.start cut.now.end cut.now.lengths.items (lengths_of chunks.old.items) }
{
    let news = chunks_of(hashing, &cut.lengths, &traces[cut.before..], room);
    put_at(chunks, cut.start, cut.end, news);
}

//! What lines that come in the place of others make of the division.
ghost use Rattle.std.specs.Prelude.{◌≡◌, ◌+◌, ◌-◌, ◌<◌, ◌≤◌, ◌^◌, IfOk, sum, take, length, vec_len};
ghost use Rattle.cps_chunk.specs.Division.{AreChunks};
ghost use Rattle.cps_chunk.specs.Put.{IsRecut, put_at};

use crate::deletion::lengths_of_deletion;
use crate::growing_chunks::lengths_of_insertions;
use crate::staying::{count_back, count_front, lines_of};
use cps_text::Line;
use cps_text::limits::MOST_CHUNK_LINES;
use std::alloc::{AllocError, Global};

/// The lines of a full chunk.
pub const FULL: usize = MOST_CHUNK_LINES;

/// Lines that come in the place of those after the first `keep` up to the first `from`, and chunks of these lengths in the place of those from `start` on, up to
/// `end`: all that stay are outside. Chunks are counted from 0, lengths in lines.
#[derive(Drop)]
pub struct ChunkSplice {
    pub keep: usize,
    pub from: usize,
    pub lines: Vec<Line>,
    pub start: usize,
    pub end: usize,
    pub lengths: Vec<usize>,
    /// How many lines stand in front of the chunks that go.
    pub before: usize,
    /// How many lines there are up to the last of these chunks.
    pub behind: usize,
}

impl ChunkSplice {
    /// These lines in their place, in a source with chunks of these lengths.
    pub fn of(
        alloc: Global,
        lengths: &[usize],
        keep: usize,
        from: usize,
        lines: Vec<Line>,
    ) -> Result<ChunkSplice, AllocError>
        requires chunks { AreChunks lengths.now }
        requires order { keep ≤ from }
        requires within { from ≤ sum lengths.now }
        requires few { sum lengths.now + vec_len lines < 2 ^ 63 }
        ensures lines { IfOk result (λ splice. (splice.keep ≡ keep) × (splice.from ≡ from) × (splice.lines ≡ lines)) }
        ensures chunks { IfOk result (IsRecut keep from lengths.now (put_at keep (from - keep) (length lines.items) lengths.now)) }
        ensures behind { IfOk result (λ splice. splice.behind ≡ sum (take splice.end lengths.now)) }
    {
        let come = lines.len();
        let news = lengths_of_put(alloc, lengths, keep, from, come)?;
        let front = count_front(keep, lengths, &news);
        let past = lines_of(lengths) - from;
        let back = count_back(past, &lengths[front..], &news[front..]);
        let end = lengths.len() - back;
        Ok(ChunkSplice {
            keep,
            from,
            lines,
            start: front,
            end,
            lengths: news[front..news.len() - back].to_vec(alloc)?,
            before: lines_of(&lengths[..front]),
            behind: lines_of(&lengths[..end]),
        })
    }
}

/// The division where so many lines have come in the place of those after the first `keep` up to the first `from`.
fn lengths_of_put(
    alloc: Global,
    lengths: &[usize],
    keep: usize,
    from: usize,
    come: usize,
) -> Result<Vec<usize>, AllocError>
    requires chunks { AreChunks lengths.now }
    requires order { keep ≤ from }
    requires within { from ≤ sum lengths.now }
    requires few { sum lengths.now + come < 2 ^ 63 }
    ensures { IfOk result (λ news. news.items ≡ put_at keep (from - keep) come lengths.now) }
{
    let gone = from - keep;
    if come < gone {
        return lengths_of_deletion(alloc, lengths, keep + come, from);
    }
    lengths_of_insertions(alloc, lengths, from, come - gone)
}

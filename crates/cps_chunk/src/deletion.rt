//! What a deletion makes of the division.
ghost use Rattle.std.specs.Prelude.{◌≡◌, ◌+◌, ◌-◌, ◌<◌, ◌≤◌, ◌^◌, IfOk, length, take, drop, sum};
ghost use Rattle.arrayvec.specs.ArrayVec.{array_vec_len};
ghost use Rattle.cps_chunk.specs.Division.{AreChunks, joined, deleted_at};
ghost use Rattle.cps_chunk.specs.Recut.{recut};

use crate::place::place_of;
use crate::put::FULL;
use arrayvec::ArrayVec;
use std::alloc::{AllocError, Global};

/// The most chunks that come in the place of others.
const MOST_NEW: usize = 4;

/// Chunks from `start` on, up to `end`, give way to chunks of these lengths. Chunks are counted from 0, lengths in lines.
#[derive(Drop)]
struct Gap {
    start: usize,
    end: usize,
    lengths: ArrayVec<usize, MOST_NEW>,
}

/// The division without the lines after the first `keep` up to the first `from`.
pub fn lengths_of_deletion(
    alloc: Global,
    lengths: &[usize],
    keep: usize,
    from: usize,
) -> Result<Vec<usize>, AllocError>
    requires chunks { AreChunks lengths.now }
    requires some { keep < from }
    requires within { from ≤ sum lengths.now }
    requires few { sum lengths.now < 2 ^ 63 }
    ensures { IfOk result (λ news. news.items ≡ deleted_at keep (from - keep) lengths.now) }
{
    let gap = around_deletion(lengths, keep, from);
    let mut news = lengths[..gap.start].to_vec(alloc)?;
    news.extend_from_slice(gap.lengths.as_slice())?;
    news.extend_from_slice(&lengths[gap.end..])?;
    Ok(news)
}

/// The chunks of the lines, the one before them and the next one, and what comes in their place.
fn around_deletion(lengths: &[usize], keep: usize, from: usize) -> Gap
    requires chunks { AreChunks lengths.now }
    requires some { keep < from }
    requires within { from ≤ sum lengths.now }
    requires few { sum lengths.now < 2 ^ 63 }
    ensures chunks { recut result.start result.end result.lengths.items lengths.now ≡ deleted_at keep (from - keep) lengths.now }
    ensures ordered { result.start ≤ result.end }
    ensures within { result.end ≤ length lengths.now }
{
    let first = place_of(lengths, keep + 1);
    let last = place_of(lengths, from);
    let behind = last.chunk + 1;
    let mut news = one_of(lengths, behind);
    let end = behind + news.len();
    set_before(&mut news, last.before + lengths[last.chunk] - from);
    set_before(&mut news, keep - first.before);
    if first.chunk == 0 {
        return Gap {
            start: 0,
            end,
            lengths: news,
        };
    }
    let start = first.chunk - 1;
    set_before(&mut news, lengths[start]);
    Gap {
        start,
        end,
        lengths: news,
    }
}

/// The chunk at a number, if there is one.
fn one_of(lengths: &[usize], at: usize) -> ArrayVec<usize, MOST_NEW>
    ensures items { result.items ≡ take 1 (drop at lengths.now) }
    ensures len { array_vec_len result ≤ 1 }
    ensures within { at ≤ length lengths.now → at + array_vec_len result ≤ length lengths.now }
{
    let mut one = ArrayVec::new();
    if at < lengths.len() {
        one.push(lengths[at]);
    }
    one
}

/// So many lines before chunks: with the first of them where both fit in one.
fn set_before(lengths: &mut ArrayVec<usize, MOST_NEW>, lines: usize)
    requires room { array_vec_len lengths.old < MOST_NEW }
    ensures items { lengths.new.items ≡ joined lines lengths.old.items }
    ensures len { array_vec_len lengths.new ≤ array_vec_len lengths.old + 1 }
{
    if lengths.is_empty() {
        if lines > 0 {
            lengths.push(lines);
        }
        return;
    }
    let both = lines.saturating_add(lengths.as_slice()[0]);
    if both > FULL {
        lengths.insert(0, lines);
    } else {
        lengths.as_mut_slice()[0] = both;
    }
}

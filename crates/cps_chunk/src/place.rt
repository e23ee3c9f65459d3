//! The chunk that a line stands in.
ghost use Rattle.std.specs.Prelude.{◌≡◌, ◌+◌, ◌-◌, ◌<◌, ◌≤◌, ◌^◌, length, take, get_or, sum};
ghost use Rattle.cps_chunk.specs.Division.{chunk_of};

/// A chunk, counted from 0, and how many lines stand before it.
#[derive(Clone, Copy, PartialEq, Eq)]
pub struct ChunkPlace {
    pub chunk: usize,
    pub before: usize,
}

/// The chunk that has the line of a number, where lines count from 1: the first for 0, and the last for one too many.
pub fn place_of(lengths: &[usize], line: usize) -> ChunkPlace
    requires some { 0 < length lengths.now }
    requires few { sum lengths.now < 2 ^ 63 }
    ensures chunk { result.chunk ≡ chunk_of line lengths.now }
    ensures within { result.chunk < length lengths.now }
    ensures before { result.before ≡ sum (take result.chunk lengths.now) }
    ensures above { result.before ≤ line - 1 }
    ensures below { line ≤ sum lengths.now → line ≤ result.before + get_or lengths.now result.chunk 0 }
    ensures past { line ≤ sum lengths.now → line ≤ sum (take (result.chunk + 1) lengths.now) }
{
    let last = lengths.len() - 1;
    let mut before = 0;
    for chunk in 0..last {
        let next = before + lengths[chunk];
        if line <= next {
            return ChunkPlace { chunk, before };
        }
        before = next;
    }
    ChunkPlace {
        chunk: last,
        before,
    }
}

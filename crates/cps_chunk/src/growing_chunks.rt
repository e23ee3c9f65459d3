//! What lines that come one behind the other make of the division.
ghost use Rattle.std.specs.Prelude.{◌≡◌, ℕ, suc, ◌+◌, ◌<◌, ◌≤◌, ◌^◌, IfOk, OnOk, reverse, sum};
ghost use Rattle.cps_chunk.specs.Division.{AreChunks, inserted_at, joined};
ghost use Rattle.cps_chunk.specs.Put.{inserted_each};
ghost use Rattle.cps_chunk.specs.Code.GrowingChunks.{IsFilling, filled};

use crate::place::place_of;
use crate::put::FULL;
use std::alloc::{AllocError, Global};

/// The division with so many lines more after so many others.
pub fn lengths_of_insertions(
    alloc: Global,
    lengths: &[usize],
    after: usize,
    count: usize,
) -> Result<Vec<usize>, AllocError>
    requires chunks { AreChunks lengths.now }
    requires within { after ≤ sum lengths.now }
    requires few { sum lengths.now + count < 2 ^ 63 }
    ensures { IfOk result (λ news. news.items ≡ inserted_each after count lengths.now) }
{
    let mut filling = GrowingChunks::of(alloc, lengths, after)?;
    for _ in 0..count {
        filling.insert()?;
    }
    filling.into_lengths()
}

/// Chunks to which lines come, one behind the other: those that are done with, and those that are left, the last of them first.
#[derive(Drop)]
struct GrowingChunks {
    done: Vec<usize>,
    left: Vec<usize>,
    /// How many lines of those that are left stand before the next one.
    at: usize,
}

impl GrowingChunks {
    /// The next line comes after so many.
    fn of(alloc: Global, lengths: &[usize], after: usize) -> Result<GrowingChunks, AllocError>
        requires chunks { AreChunks lengths.now }
        requires within { after ≤ sum lengths.now }
        requires few { sum lengths.now < 2 ^ 63 }
        ensures filling { IfOk result IsFilling }
        ensures all { IfOk result (λ filling. (count : ℕ) → filled count filling ≡ inserted_each after count lengths.now) }
        ensures at { IfOk result (λ filling. filling.at ≤ after) }
    {
        if lengths.is_empty() {
            return Ok(GrowingChunks {
                done: Vec::new(alloc),
                left: Vec::new(alloc),
                at: after,
            });
        }
        let place = place_of(lengths, after);
        let done = lengths[..place.chunk].to_vec(alloc)?;
        let mut left = lengths[place.chunk..].to_vec(alloc)?;
        left.reverse();
        Ok(GrowingChunks {
            done,
            left,
            at: after - place.before,
        })
    }

    /// A line more. A chunk that the next one stands behind is done with.
    fn insert(&mut self) -> Result<(), AllocError>
        requires filling { IsFilling self.old }
        requires few { self.old.at < 2 ^ 63 }
        ensures filling { OnOk result (IsFilling self.new) }
        ensures all { OnOk result ((count : ℕ) → filled count self.new ≡ filled (suc count) self.old) }
        ensures at { OnOk result (self.new.at ≤ self.old.at + 1) }
    {
        grow_first(&mut self.left)?;
        self.at += 1;
        if self.left.len() < 2 {
            return Ok(());
        }
        let first = self.left[self.left.len() - 1];
        if self.at > first {
            self.left.pop();
            self.done.push(first)?;
            self.at -= first;
        }
        Ok(())
    }

    /// All chunks.
    fn into_lengths(self) -> Result<Vec<usize>, AllocError>
        ensures { IfOk result (λ lengths. lengths.items ≡ filled 0 self) }
    {
        let GrowingChunks {
            mut done,
            mut left,
            at: _,
        } = self;
        left.reverse();
        done.extend_from_slice(&left)?;
        Ok(done)
    }
}

/// A line more in the first chunk, where the last stands first: a full one hands its last line on to the next.
fn grow_first(left: &mut Vec<usize>) -> Result<(), AllocError>
    ensures { OnOk result (reverse left.new.items ≡ inserted_at 0 (reverse left.old.items)) }
{
    let Some(first) = left.pop() else {
        left.push(1)?;
        return Ok(());
    };
    if first < FULL {
        left.push(first + 1)?;
        return Ok(());
    }
    grow_next(left)?;
    left.push(FULL)?;
    Ok(())
}

/// A line before chunks, where the last stands first: with the first of them where both fit in one.
fn grow_next(left: &mut Vec<usize>) -> Result<(), AllocError>
    ensures { OnOk result (reverse left.new.items ≡ joined 1 (reverse left.old.items)) }
{
    if let Some(next) = left.pop() {
        if next < FULL {
            left.push(next + 1)?;
            return Ok(());
        }
        left.push(next)?;
    }
    left.push(1)?;
    Ok(())
}

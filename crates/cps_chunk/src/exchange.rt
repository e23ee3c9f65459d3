//! What becomes of the division where two runs of lines change places.
ghost use Rattle.std.specs.Prelude.{◌≡◌, ◌<◌, ◌≤◌, ◌^◌, sum, IfOk, OnOk};
ghost use Rattle.cps_chunk.specs.Division.{AreChunks, joined};
ghost use Rattle.cps_edit.specs.Numbers.{exchanged_numbers};
ghost use Rattle.cps_chunk.specs.Exchange.{part_of, rejoined, exchanged_at};
ghost use Rattle.cps_chunk.specs.Code.Pieces.{lines_in, lines_of as lines_of_pieces, cut_to, part_lines, ArePieces, SetsOne, SetsPart, SetsRun};

use crate::put::FULL;
use crate::staying::lines_of;
use cps_edit::Exchange;
use std::alloc::{AllocError, Global};

/// A chunk of the new division, and which of the old ones it is, counted from 0, if it has the lines of one.
#[derive(Clone, Copy)]
pub struct RecutChunk {
    pub lines: usize,
    pub old: Option<usize>,
}

/// The chunks where two runs of lines have changed places.
pub fn recut_exchange(
    alloc: Global,
    lengths: &[usize],
    exchange: Exchange,
) -> Result<Vec<RecutChunk>, AllocError>
    requires chunks { AreChunks lengths.now }
    requires few { sum lengths.now < 2 ^ 63 }
    requires first { exchange.keep < exchange.mid }
    requires second { exchange.mid < exchange.from }
    requires within { exchange.from ≤ sum lengths.now }
    ensures lengths { IfOk result (λ pieces. lines_of_pieces pieces.items ≡ exchanged_at exchange lengths.now) }
    ensures pieces { IfOk result (λ pieces. ArePieces lengths.now pieces.items (exchanged_numbers (sum lengths.now) exchange)) }
{
    let Exchange { keep, mid, from } = exchange;
    let mut pieces = Vec::new(alloc);
    set_run_before(&mut pieces, lengths, from, lines_of(lengths))?;
    set_run_before(&mut pieces, lengths, keep, mid)?;
    set_run_before(&mut pieces, lengths, mid, from)?;
    set_run_before(&mut pieces, lengths, 0, keep)?;
    pieces.reverse();
    Ok(pieces)
}

/// Sets what the lines after the first `from` up to the first `to` have of chunks before pieces, which stand in the other order.
fn set_run_before(
    pieces: &mut Vec<RecutChunk>,
    lengths: &[usize],
    from: usize,
    to: usize,
) -> Result<(), AllocError>
    requires chunks { AreChunks lengths.now }
    requires few { sum lengths.now < 2 ^ 63 }
    requires ordered { from ≤ to }
    requires within { to ≤ sum lengths.now }
    ensures lengths { OnOk result (lines_in pieces.new.items ≡ rejoined (part_of from to lengths.now) (lines_in pieces.old.items)) }
    ensures pieces { OnOk result (SetsRun lengths.now pieces.old.items pieces.new.items from to) }
{
    let mut start = lines_of(lengths);
    for chunk in (0..lengths.len()).rev() {
        start -= lengths[chunk];
        set_part_before(
            pieces,
            lengths[chunk],
            chunk,
            from.saturating_sub(start),
            to.saturating_sub(start),
        )?;
    }
    Ok(())
}

/// The same of what they have of a chunk, of which so many lines stand before them, and so many up to the last of them.
fn set_part_before(
    pieces: &mut Vec<RecutChunk>,
    lines: usize,
    chunk: usize,
    from: usize,
    to: usize,
) -> Result<(), AllocError>
    ensures lengths { OnOk result (lines_in pieces.new.items ≡ rejoined (part_lines from (cut_to to lines)) (lines_in pieces.old.items)) }
    ensures pieces { OnOk result (SetsPart pieces.old.items pieces.new.items chunk lines from (cut_to to lines)) }
{
    let end = if to < lines { to } else { lines };
    if end <= from {
        return Ok(());
    }
    if end - from == lines {
        return set_before(pieces, lines, Some(chunk));
    }
    set_before(pieces, end - from, None)
}

/// Sets so many lines before pieces, which stand in the other order: with the first of them where both fit in one.
fn set_before(
    pieces: &mut Vec<RecutChunk>,
    lines: usize,
    old: Option<usize>,
) -> Result<(), AllocError>
    requires { 1 ≤ lines }
    ensures lengths { OnOk result (lines_in pieces.new.items ≡ joined lines (lines_in pieces.old.items)) }
    ensures pieces { OnOk result (SetsOne pieces.old.items pieces.new.items lines old) }
{
    if let Some(first) = pieces.pop() {
        let both = lines.saturating_add(first.lines);
        if both <= FULL {
            pieces.push(RecutChunk {
                lines: both,
                old: None,
            })?;
            return Ok(());
        }
        pieces.push(first)?;
    }
    pieces.push(RecutChunk { lines, old })?;
    Ok(())
}

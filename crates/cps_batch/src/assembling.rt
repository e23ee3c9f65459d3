//! A source that is read whole, assembled, and shown in one of its texts.
ghost use Rattle.std.specs.Prelude.{◌≤◌, ◌+◌};
ghost use Rattle.cps_text.specs.Counted.{calls_of};
ghost use Rattle.cps_input.specs.Sources.{IsSource};
ghost use Rattle.cps_batch.specs.Batch.{Assembles, RunsBatch};

use super::fault::BatchFault;
use super::passes::make_part;
use cps_input::{LineText, read_text};
use cps_list::{Part, write_text};
use cps_state::Hashing;
use cps_text::Counted;
use cps_text::limits::MOST_READS;
use std::alloc::Global;
use std::io::{Read, Write};

/// Reads a source to the end of the input, assembles it, and writes a part of its texts. It gives the number of lines
/// that have a flag, and one more if a range is open after the last.
///
/// The input is read to its end before anything is said of its lines, and nothing is written before the text is made.
pub fn batch<R: Read, W: Write>(
    alloc: Global,
    hashing: Hashing,
    reader: &mut Counted<R>,
    writer: &mut Counted<W>,
    part: Part,
) -> Result<u32, BatchFault>
    ensures run { RunsBatch R.remaining W.contents part result reader.old reader.new writer.old writer.new }
    ensures reads { calls_of reader.new ≤ calls_of reader.old + MOST_READS }
{
    match read_text(alloc, reader) {
        Ok(lines) => write_source(alloc, hashing, &lines, writer, part),
        Err(fault) => Err(BatchFault::of_input(fault)),
    }
}

/// Writes a text of a source. It gives the number of flagged lines.
fn write_source<W: Write>(
    alloc: Global,
    hashing: Hashing,
    lines: &LineText,
    writer: &mut Counted<W>,
    part: Part,
) -> Result<u32, BatchFault>
    requires { IsSource lines.now }
    ensures { Assembles W.contents part result lines.now writer.old writer.new }
{
    let Ok((text, flagged)) = make_part(alloc, hashing, lines, part) else {
        return Err(BatchFault::Memory);
    };
    match write_text(writer, &text) {
        Ok(()) => Ok(flagged),
        Err(_) => Err(BatchFault::WriteFault),
    }
}

//! A check as a whole.
ghost use Rattle.std.specs.Prelude.{◌≤◌, ◌+◌};
ghost use Rattle.cps_text.specs.Counted.{calls_of};
ghost use Rattle.cps_check.specs.Check.{Checks, RunsCheck};

use crate::check_options::CheckOptions;
use crate::fault::CheckFault;
use crate::telling::tell_bytes;
use cps_input::read_bytes;
use cps_list::write_text;
use cps_state::Hashing;
use cps_text::Counted;
use cps_text::limits::MOST_READS;
use std::alloc::Global;
use std::io::{Read, Write};

/// Reads a text to the end of the input and assembles it, a card for each line. It writes what is told of it under a name: each flag,
/// with its cause, what makes a line none, and notes, unless errors alone are asked for. It gives whether an error is told.
///
/// The input is read to its end before anything is said of its lines, and nothing is written before the text is made.
pub fn check<R: Read, W: Write>(
    alloc: Global,
    hashing: Hashing,
    options: CheckOptions<'_>,
    reader: &mut Counted<R>,
    writer: &mut Counted<W>,
) -> Result<bool, CheckFault>
    ensures run { RunsCheck R.remaining W.contents options.entry.errors_only options.entry.name.now result reader.old reader.new writer.old writer.new }
    ensures reads { calls_of reader.new ≤ calls_of reader.old + MOST_READS }
{
    match read_bytes(alloc, reader) {
        Ok(bytes) => check_bytes(alloc, hashing, options, &bytes, writer),
        Err(fault) => Err(CheckFault::of_input(fault)),
    }
}

/// Writes what is told of a text, and gives whether an error is.
fn check_bytes<W: Write>(
    alloc: Global,
    hashing: Hashing,
    options: CheckOptions<'_>,
    bytes: &[u8],
    writer: &mut Counted<W>,
) -> Result<bool, CheckFault>
    ensures { Checks W.contents options.entry.errors_only options.entry.name.now bytes.now result writer.old writer.new }
{
    let Ok(telling) = tell_bytes(alloc, hashing, options, bytes) else {
        return Err(CheckFault::Memory);
    };
    match write_text(writer, &telling.text) {
        Ok(()) => Ok(telling.is_wrong),
        Err(_) => Err(CheckFault::WriteFault),
    }
}

//! The run of a comparison.
ghost use Rattle.std.specs.Prelude.{◌≡◌, ◌≤◌, ◌<◌, ◌+◌, ◌^◌, ℕ, List, IfOk, IfSome, OnErr, IsErrOf};
ghost use Rattle.std.specs.Option.{ForSome};
ghost use Rattle.cps_text.specs.Counted.{calls_of};
ghost use Rattle.cps_input.specs.Reads.{IsAllRead, IsCutShort};
ghost use Rattle.cps_input.specs.Sources.{IsSource};
ghost use Rattle.cps_compare.specs.Octal.{WritesTold, Reports, RunsComparison};

use super::octal_fault::OctalFault;
use super::setup::Setup;
use crate::compare_fault::CompareFault;
use crate::comparison::{Comparison, compare};
use cps_batch::Source;
use cps_input::{InputFault, read_bytes, read_lines};
use cps_list::write_text;
use cps_text::limits::MOST_READS;
use cps_text::{Counted, Line};
use std::alloc::Global;
use std::io::{Read, Write};

/// Compares the octal text of one input with the words of the source of another, and writes what is told. It gives the
/// number of words that differ.
///
/// The octal text is read to its end, and then the source is; nothing is written before both are. Want of memory is answered
/// only where nothing is wrong with the lines of the source.
pub fn compare_inputs<O: Read, R: Read, W: Write>(
    alloc: Global,
    setup: Setup,
    octal: &mut Counted<O>,
    source: &mut Counted<R>,
    writer: &mut Counted<W>,
) -> Result<u32, OctalFault>
    requires { ForSome setup.options.to (λ to. to < 2 ^ 18) }
    ensures run { RunsComparison O.remaining R.remaining W.contents setup.options result
        octal.old octal.new source.old source.new writer.old writer.new }
    ensures octal_reads { calls_of octal.new ≤ calls_of octal.old + MOST_READS }
    ensures source_reads { calls_of source.new ≤ calls_of source.old + MOST_READS }
{
    match read_octal(alloc, octal) {
        Ok(text) => match read_lines(alloc, source) {
            Ok(lines) => compare_lines(alloc, setup, text, lines, writer),
            Err(fault) => Err(OctalFault::Source(fault)),
        },
        Err(fault) => Err(fault),
    }
}

/// Reads the octal text. None: there was no memory for it.
fn read_octal<O: Read>(alloc: Global, octal: &mut Counted<O>) -> Result<Option<Vec<u8>>, OctalFault>
    ensures read { IfOk result (λ text. (bytes : List ℕ) × IsAllRead O.remaining octal.old octal.new bytes
        × IfSome text (λ text. text.items ≡ bytes)) }
    ensures early { OnErr result (IsCutShort O.remaining octal.old octal.new) }
    ensures fault { OnErr result (IsErrOf result OctalFault.ReadFault) }
    ensures reads { calls_of octal.new ≤ calls_of octal.old + MOST_READS }
{
    match read_bytes(alloc, octal) {
        Ok(text) => Ok(Some(text)),
        Err(InputFault::Memory) => Ok(None),
        Err(_) => Err(OctalFault::ReadFault),
    }
}

/// Compares the octal text with the words of a source of these lines, and writes what is told.
fn compare_lines<W: Write>(
    alloc: Global,
    setup: Setup,
    text: Option<Vec<u8>>,
    lines: Vec<Line>,
    writer: &mut Counted<W>,
) -> Result<u32, OctalFault>
    requires limits { ForSome setup.options.to (λ to. to < 2 ^ 18) }
    requires source { IsSource lines.items }
    ensures { (bytes : List ℕ) → IfSome text (λ text. text.items ≡ bytes)
        → Reports W.contents setup.options result bytes lines.items writer.old writer.new }
{
    let Some(text) = text else {
        return Err(OctalFault::Compare(CompareFault::Memory));
    };
    let Ok(source) = Source::of(alloc, setup.hashing, lines) else {
        return Err(OctalFault::Compare(CompareFault::Memory));
    };
    match compare(alloc, &source, &text, setup.options) {
        Ok(comparison) => write_comparison(writer, &comparison),
        Err(fault) => Err(OctalFault::Compare(fault)),
    }
}

/// Writes what is told. It gives the number of words that differ.
fn write_comparison<W: Write>(
    writer: &mut Counted<W>,
    comparison: &Comparison,
) -> Result<u32, OctalFault>
    ensures { WritesTold W.contents result comparison.now writer.old writer.new }
{
    match write_text(writer, &comparison.text) {
        Ok(()) => Ok(comparison.differing),
        Err(_) => Err(OctalFault::WriteFault),
    }
}

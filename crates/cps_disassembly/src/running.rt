//! The run of a disassembly: an octal text is read, and the source that makes its words is written.
ghost use Rattle.std.specs.Prelude.{◌≤◌, ◌+◌};
ghost use Rattle.cps_text.specs.Counted.{calls_of};
ghost use Rattle.cps_disassembly.specs.Running.{RunsDisassembly, WritesMade, WritesSource};

use super::disassembly::disassemble;
use super::disassembly_fault::DisassemblyFault;
use super::request::Request;
use super::run_fault::RunFault;
use super::selection::Selection;
use cps_draft::Hints;
use cps_input::{InputFault, read_bytes};
use cps_list::write_text;
use cps_state::Hashing;
use cps_text::Counted;
use cps_text::limits::MOST_READS;
use std::alloc::Global;
use std::io::{Read, Write};

/// What a disassembly is set up with, besides its input.
#[derive(Drop)]
pub struct DisassemblySetup {
    pub hashing: Hashing,
    pub request: Request,
    pub hints: Hints,
}

/// Makes a source for the words of the octal text of an input, and writes it. The text is read to its end, and nothing is written before the
/// source is made.
pub fn disassemble_input<O: Read, W: Write>(
    alloc: Global,
    setup: &DisassemblySetup,
    octal: &mut Counted<O>,
    writer: &mut Counted<W>,
) -> Result<(), RunFault>
    ensures run { RunsDisassembly O.remaining W.contents setup.now.request result octal.old octal.new writer.old writer.new }
    ensures reads { calls_of octal.new ≤ calls_of octal.old + MOST_READS }
{
    match read_bytes(alloc, octal) {
        Ok(text) => {
            let selection = setup.request.select(&text);
            write_made(alloc, setup, &text, selection, writer)
        }
        Err(InputFault::Memory) => Err(RunFault::NoSource(DisassemblyFault::Memory)),
        Err(_) => Err(RunFault::ReadFault),
    }
}

/// Makes a source for the words of an octal text that are selected, and writes it.
fn write_made<W: Write>(
    alloc: Global,
    setup: &DisassemblySetup,
    octal: &[u8],
    selection: Selection,
    writer: &mut Counted<W>,
) -> Result<(), RunFault>
    ensures { WritesMade W.contents selection result octal.now writer.old writer.new }
{
    match disassemble(alloc, setup.hashing, octal, selection, &setup.hints) {
        Ok(text) => write_source(writer, &text),
        Err(fault) => Err(RunFault::NoSource(fault)),
    }
}

fn write_source<W: Write>(writer: &mut Counted<W>, text: &[u8]) -> Result<(), RunFault>
    ensures { WritesSource W.contents result text.now writer.old writer.new }
{
    match write_text(writer, text) {
        Ok(()) => Ok(()),
        Err(_) => Err(RunFault::WriteFault),
    }
}

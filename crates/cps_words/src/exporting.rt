//! A source that is read whole, assembled, and written into files.
ghost use Rattle.std.specs.Prelude.{◌≡◌, ◌≤◌, ◌+◌, length, IfOk, OnOk, OnErr, option_map};
ghost use Rattle.cps_text.specs.Counted.{calls_of};
ghost use Rattle.cps_input.specs.Sources.{IsSource};
ghost use Rattle.cps_edit.specs.Assembly.{assembly_of};
ghost use Rattle.cps_page.specs.Page.{IsPageOf};
ghost use Rattle.cps_words.specs.Outputs.{names_of};
ghost use Rattle.cps_words.specs.Export.{Exports, IsPageFor, Makes, WritesAll, WritesFront, part_text, wanted_of};

use crate::export::Export;
use crate::export_fault::ExportFault;
use crate::outputs::Outputs;
use crate::targets::Targets;
use crate::writing::write_outputs;
use cps_batch::Source;
use cps_input::read_lines;
use cps_list::{ListFault, Part, make_text, write_text};
use cps_notes::tell_beside;
use cps_page::make_page_of;
use cps_state::Trace;
use cps_text::limits::{MOST_LINES, MOST_READS};
use cps_text::{Counted, Line};
use std::alloc::{AllocError, Global};
use std::io::{Read, Write};

/// Reads a source to the end of the input, assembles it, writes the texts that are wanted into their files, and then the part
/// that is wanted. It gives the number of lines that have a flag, and one more if a range is open after the last.
///
/// All texts are made before the first file is placed, and nothing is written to `writer` before the last is.
pub fn export_source<'a, T: Targets, R: Read, W: Write>(
    alloc: Global,
    export: Export<'a>,
    targets: &mut T,
    reader: &mut Counted<R>,
    writer: &mut Counted<W>,
) -> Result<u32, ExportFault<'a>>
    ensures run { Exports T.placed R.remaining W.contents (wanted_of export.entry) result targets.old targets.new reader.old reader.new writer.old writer.new }
    ensures waiting { T.waiting targets.new ≡ T.waiting targets.old }
    ensures reads { calls_of reader.new ≤ calls_of reader.old + MOST_READS }
{
    match read_lines(alloc, reader) {
        Ok(lines) => export_lines(alloc, export, targets, lines, writer),
        Err(fault) => Err(ExportFault::Source(fault)),
    }
}

/// Writes what is wanted of a source with these lines. It gives the number of flagged lines.
fn export_lines<'a, T: Targets, W: Write>(
    alloc: Global,
    export: Export<'a>,
    targets: &mut T,
    lines: Vec<Line>,
    writer: &mut Counted<W>,
) -> Result<u32, ExportFault<'a>>
    requires { IsSource lines.items }
    ensures made { Makes W.contents (wanted_of export.entry) result lines.items (T.placed targets.old) (T.placed targets.new) writer.old writer.new }
    ensures waiting { T.waiting targets.new ≡ T.waiting targets.old }
{
    let Ok(traced) = traced_source(alloc, export, lines) else {
        return Err(ExportFault::Memory);
    };
    let (source, traces) = traced;
    let Ok(text) = wanted_text(alloc, &source, export.part) else {
        return Err(ExportFault::Memory);
    };
    let Ok(page) = wanted_page(alloc, &source, traces, export.outputs) else {
        return Err(ExportFault::Memory);
    };
    if let Err(fault) = write_outputs(alloc, targets, &source, export.outputs, &page) {
        return Err(ExportFault::Output(fault));
    }
    match write_wanted(writer, &text) {
        Ok(()) => Ok(source.flagged_lines()),
        Err(_) => Err(ExportFault::WriteFault),
    }
}

/// A source with these lines, and what each does in pass one, which a page is made from; else nothing of that.
fn traced_source(
    alloc: Global,
    export: Export<'_>,
    lines: Vec<Line>,
) -> Result<(Source, Vec<Trace>), AllocError>
    requires { length lines.items ≤ MOST_LINES }
    ensures { IfOk result (λ made. made.0 ≡ lines.items) }
{
    match export.outputs.page {
        Some(_) => Source::with_traces(alloc, export.hashing, lines),
        None => {
            let source = Source::of(alloc, export.hashing, lines)?;
            Ok((source, Vec::new(alloc)))
        }
    }
}

/// The text of the part that is wanted, None where none is.
fn wanted_text(
    alloc: Global,
    source: &Source,
    part: Option<Part>,
) -> Result<Option<Vec<u8>>, AllocError>
    ensures { IfOk result (λ text. option_map (λ text. text.items) text ≡ part_text part source.now) }
{
    match part {
        Some(part) => match make_text(alloc, source, part) {
            Ok(text) => Ok(Some(text)),
            Err(error) => Err(error),
        },
        None => Ok(None),
    }
}

/// The page of a source, if one is wanted; else nothing. What the lines do in pass one is let go.
fn wanted_page(
    alloc: Global,
    source: &Source,
    traces: Vec<Trace>,
    outputs: Outputs<'_>,
) -> Result<Vec<u8>, AllocError>
    ensures { IfOk result (λ page. IsPageFor (names_of outputs.entry) source.now page.items) }
{
    match outputs.page {
        Some(_) => page_of(alloc, source, &traces),
        None => Ok(Vec::new(alloc)),
    }
}

/// The page of a source, with what is told beside its texts.
fn page_of(alloc: Global, source: &Source, traces: &[Trace]) -> Result<Vec<u8>, AllocError>
    ensures { IfOk result (λ page. IsPageOf (assembly_of source.now) page.items) }
{
    let beside = tell_beside(alloc, source, traces)?;
    make_page_of(alloc, source, &beside)
}

/// Writes all of a text, or a front of it where a write fails; nothing where there is none.
fn write_wanted<W: Write>(writer: &mut Counted<W>, text: &Option<Vec<u8>>) -> Result<(), ListFault>
    ensures ok { OnOk result (WritesAll W.contents (option_map (λ text. text.items) text.now) writer.old writer.new) }
    ensures err { OnErr result (WritesFront W.contents (option_map (λ text. text.items) text.now) writer.old writer.new) }
{
    match text {
        Some(text) => write_text(writer, text),
        None => Ok(()),
    }
}

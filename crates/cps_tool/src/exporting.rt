//! A source, written into files.
ghost use Rattle.std.specs.Prelude.{◌≡◌};
ghost use Rattle.cps_tool.specs.Code.Calling.{DoesExport};
ghost use Rattle.cps_tool.specs.CommandLine.{IsQuiet};

use super::faults::complain_of_source;
use super::host::Host;
use super::telling::{NO_MEMORY, complain, status_of_count};
use cps_text::Counted;
use cps_words::{Clash, Export, ExportFault, Targets, export_source, shown};
use std::alloc::{AllocError, Global};
use std::io::{Read, Write};

/// Writes what is wanted of the source that a reader gives. A fault is told.
pub fn run_export<'a, S: Targets, R: Read, W: Write, E: Write>(
    host: &mut Host<S>,
    export: Export<'a>,
    reader: &mut Counted<R>,
    writer: &mut Counted<W>,
    errors: &mut Counted<E>,
) -> u8
    ensures exported { DoesExport S.placed R.remaining W.contents export.entry result
        host.old.files host.new.files reader.old reader.new writer.old writer.new }
    ensures waiting { S.waiting host.new.files ≡ S.waiting host.old.files }
    ensures quiet { IsQuiet result errors.old errors.new }
{
    match export_source(host.alloc, export, &mut host.files, reader, writer) {
        Ok(count) => status_of_count(count),
        Err(ExportFault::Source(fault)) => {
            complain_of_source(host.alloc, export.source, fault, errors)
        }
        Err(fault) => complain_by(host.alloc, fault.text(host.alloc), errors),
    }
}

/// Tells that two names of an export lead to one file.
pub fn complain_of_clash<E: Write>(alloc: Global, clash: &Clash<'_>, errors: &mut Counted<E>) -> u8
    ensures { result ≡ 2 }
{
    complain_by(alloc, clash.text(alloc), errors)
}

/// Tells a text on a line of its own.
fn complain_by<E: Write>(
    alloc: Global,
    text: Result<String, AllocError>,
    errors: &mut Counted<E>,
) -> u8
    ensures { result ≡ 2 }
{
    match line_of(alloc, text) {
        Ok(line) => complain(errors, line.as_str()),
        Err(_) => complain(errors, NO_MEMORY),
    }
}

/// The line that tells a text.
fn line_of(alloc: Global, text: Result<String, AllocError>) -> Result<String, AllocError> {
    let text = text?;
    let mut line = shown(alloc, &text)?;
    line.push('\n')?;
    Ok(line)
}

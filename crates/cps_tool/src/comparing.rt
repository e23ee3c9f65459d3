//! A comparison of an octal text with a source, of which one at least is a file.
ghost use Rattle.std.specs.Prelude.{◌≡◌, IfSome};
ghost use Rattle.cps_words.specs.Outputs.{name_of};
ghost use Rattle.cps_tool.specs.Code.Files.{AreFiles, ComparesFiles};

use super::host::Host;
use super::sources::{Sources, open_input};
use super::telling::complain;
use cps_compare::{OctalFault, Setup, compare_inputs};
use cps_text::Counted;
use cps_words::Comparand;
use std::alloc::Global;
use std::io::{Read, Write};

const ONE_INPUT: &str = "error: OCTAL and FILE can't both be standard input\n";

/// The files of a comparison. The side that has none is standard input.
#[derive(Drop)]
pub enum Files<F> {
    Octal(Counted<F>),
    Source(Counted<F>),
    Both(Counted<F>, Counted<F>),
}

/// Opens the files of a comparison. One that can't be opened is told.
pub fn open_files<'a, S: Sources, E: Write>(
    alloc: Global,
    sources: &S,
    octal: Option<&'a str>,
    source: Option<&'a str>,
    errors: &mut Counted<E>,
) -> Option<Files<S::Reader>>
    ensures files { IfSome result (AreFiles (S.holds sources.now) S.Reader.remaining (name_of octal.entry) (name_of source.entry)) }
    ensures quiet { IfSome result (λ _. errors.new ≡ errors.old) }
{
    match (octal, source) {
        (Some(octal), Some(source)) => {
            let octal = open_input(alloc, sources, octal, errors)?;
            let source = open_input(alloc, sources, source, errors)?;
            Some(Files::Both(octal, source))
        }
        (Some(octal), None) => {
            let octal = open_input(alloc, sources, octal, errors)?;
            Some(Files::Octal(octal))
        }
        (None, Some(source)) => {
            let source = open_input(alloc, sources, source, errors)?;
            Some(Files::Source(source))
        }
        (None, None) => {
            complain(errors, ONE_INPUT);
            None
        }
    }
}

/// Compares what these files and standard input give.
pub fn compare_files<'a, S, F: Read + Drop, R: Read, W: Write>(
    host: &Host<S>,
    comparand: Comparand<'a>,
    files: Files<F>,
    reader: &mut Counted<R>,
    writer: &mut Counted<W>,
) -> Result<u32, OctalFault>
    ensures { ComparesFiles F.remaining R.remaining W.contents comparand.entry.options result files reader.old reader.new writer.old writer.new }
{
    let setup = Setup {
        hashing: host.hashing,
        options: comparand.options,
    };
    match files {
        Files::Octal(octal) => {
            let mut octal = octal;
            compare_inputs(host.alloc, setup, &mut octal, reader, writer)
        }
        Files::Source(source) => {
            let mut source = source;
            compare_inputs(host.alloc, setup, reader, &mut source, writer)
        }
        Files::Both(octal, source) => {
            let mut octal = octal;
            let mut source = source;
            compare_inputs(host.alloc, setup, &mut octal, &mut source, writer)
        }
    }
}

//! A disassembly of one input.
ghost use Rattle.std.specs.Prelude.{◌≡◌, IfSome};
ghost use Rattle.cps_tool.specs.Code.Calling.{Disassembles, DoesDisassembly, UndoneOr};
ghost use Rattle.cps_tool.specs.CommandLine.{Disassembled, IsQuiet};

use super::hints::{make_hints, read_known_names};
use super::host::Host;
use super::sources::{Sources, open_input};
use super::telling::{CLEAN, FAULTY, NO_FILES, NO_MEMORY, complain, complain_of};
use cps_disassembly::{DisassemblySetup, Request, disassemble_input};
use cps_draft::KnownName;
use cps_text::Counted;
use cps_words::HintWords;
use std::alloc::Global;
use std::io::{Read, Write};

/// A disassembly that is asked: of which words, and what is said of them.
#[derive(Clone, Copy)]
pub struct DisassemblyCall<'a> {
    pub request: Request,
    pub hints: HintWords<'a>,
    /// The name of the octal text's file, None for standard input.
    pub file: Option<&'a str>,
}

/// Makes a source for the words of the octal text that a reader gives, and writes it. A file with names is refused.
pub fn run_disassembly<'a, S, R: Read, W: Write, E: Write>(
    host: &Host<S>,
    asked: DisassemblyCall<'a>,
    reader: &mut Counted<R>,
    writer: &mut Counted<W>,
    errors: &mut Counted<E>,
) -> u8
    ensures calls { UndoneOr (Disassembles R.remaining W.contents asked.entry) result reader.old reader.new writer.old writer.new }
    ensures quiet { IsQuiet result errors.old errors.new }
{
    if asked.hints.names.is_some() {
        return complain(errors, NO_FILES);
    }
    match set_up(host, asked, Vec::new(host.alloc)) {
        Some(setup) => run_set_up(host.alloc, &setup, reader, writer, errors),
        None => complain(errors, NO_MEMORY),
    }
}

/// The same, where the octal text and the names may be files.
pub fn serve_disassembly<'a, S: Sources, R: Read, W: Write, E: Write>(
    host: &Host<S>,
    asked: DisassemblyCall<'a>,
    reader: &mut Counted<R>,
    writer: &mut Counted<W>,
    errors: &mut Counted<E>,
) -> u8
    ensures serves { DoesDisassembly (S.holds host.now.files) S.Reader.remaining R.remaining W.contents asked.entry result
        reader.old reader.new writer.old writer.new }
    ensures quiet { IsQuiet result errors.old errors.new }
{
    let Some(names) = read_known_names(host, asked.hints.names, errors) else {
        return FAULTY;
    };
    let Some(setup) = set_up(host, asked, names) else {
        return complain(errors, NO_MEMORY);
    };
    let Some(name) = asked.file else {
        return run_set_up(host.alloc, &setup, reader, writer, errors);
    };
    match open_input(host.alloc, &host.files, name, errors) {
        Some(file) => {
            let mut file = file;
            run_set_up(host.alloc, &setup, &mut file, writer, errors)
        }
        None => FAULTY,
    }
}

/// What a disassembly is set up with. None: there was no memory.
fn set_up<'a, S>(
    host: &Host<S>,
    asked: DisassemblyCall<'a>,
    names: Vec<KnownName>,
) -> Option<DisassemblySetup>
    ensures { IfSome result (λ setup. setup.request ≡ asked.entry.request) }
{
    match make_hints(host.alloc, asked.hints, names) {
        Ok(hints) => Some(DisassemblySetup {
            hashing: host.hashing,
            request: asked.request,
            hints,
        }),
        Err(_) => None,
    }
}

/// A disassembly, as it is set up.
fn run_set_up<R: Read, W: Write, E: Write>(
    alloc: Global,
    setup: &DisassemblySetup,
    reader: &mut Counted<R>,
    writer: &mut Counted<W>,
    errors: &mut Counted<E>,
) -> u8
    ensures calls { Disassembled R.remaining W.contents setup.now.request result reader.old reader.new writer.old writer.new }
    ensures quiet { IsQuiet result errors.old errors.new }
{
    match disassemble_input(alloc, setup, reader, writer) {
        Ok(()) => CLEAN,
        Err(fault) => complain_of(errors, fault),
    }
}

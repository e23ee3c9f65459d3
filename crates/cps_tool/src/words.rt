//! A call of the program, by its words.
ghost use Rattle.std.specs.Prelude.{◌≡◌};
ghost use Rattle.clap.specs.Walk.{texts};
ghost use Rattle.cps_tool.specs.Code.Calling.{DoesOne, DoesWith};
ghost use Rattle.cps_tool.specs.CommandLine.{IsQuiet, Serves, ServesCall};
ghost use Rattle.cps_words.specs.Request.{answer_of, asked_by};

use super::comparing::{compare_files, open_files};
use super::disassembling::{DisassemblyCall, serve_disassembly};
use super::exporting::{complain_of_clash, run_export};
use super::faults::complain_of_comparison;
use super::host::Host;
use super::running::run_request;
use super::sessions::run_session_from;
use super::sources::{Sources, open_input};
use super::telling::{FAULTY, NO_FILES, complain, status_of_count, tell_unread};
use cps_text::Counted;
use cps_words::{Call, Export, Request, Targets, find_clash, read_words};
use std::io::{Read, Write};

/// Does what the words of a call ask, the first of which is the program's name: batch assembly of a source, its check, the script
/// of a session, a source for an octal text, the explanation of a word, or the answers to an editor. The status is 0, or 1 where a line of the source is flagged or
/// wrong, or an editor ends without a shutdown, or 2 after a fault, which is told to `errors`. With another status nothing is written to
/// `errors`.
///
/// Help and version, where they are asked for, go to `writer`, with status 0 where it takes them whole. Wrong words are
/// told to `errors`. A file that is named is refused: `run_call` reads and writes files.
pub fn run_words<'a, R: Read, W: Write, E: Write>(
    host: &Host<()>,
    words: &'a [&'a str],
    reader: &mut Counted<R>,
    writer: &mut Counted<W>,
    errors: &mut Counted<E>,
) -> u8
    ensures serves { Serves R.remaining W.contents (answer_of (texts words.now)) result reader.old reader.new writer.old writer.new }
    ensures quiet { IsQuiet result errors.old errors.new }
{
    match read_words(host.alloc, words) {
        Ok(call) => match call.file {
            None => run_request(host, call, reader, writer, errors),
            Some(_) => complain(errors, NO_FILES),
        },
        Err(unread) => tell_unread(unread, writer, errors),
    }
}

/// Does what the words of a call ask, as `run_words` does, but reads the file that they name in the place of `reader`, and writes those
/// that they name for texts. A file that can't be opened or written is told to `errors`, with status 2. So are two names that lead to
/// one file, where a text would be lost: nothing is read then.
pub fn run_call<'a, S: Sources + Targets, R: Read, W: Write, E: Write>(
    host: &mut Host<S>,
    words: &'a [&'a str],
    reader: &mut Counted<R>,
    writer: &mut Counted<W>,
    errors: &mut Counted<E>,
) -> u8
    ensures serves { ServesCall S.holds S.placed S.same S.Reader.remaining R.remaining W.contents (answer_of (texts words.now)) result
        host.old.files host.new.files reader.old reader.new writer.old writer.new }
    ensures waiting { S.waiting host.new.files ≡ S.waiting host.old.files }
    ensures quiet { IsQuiet result errors.old errors.new }
{
    match read_words(host.alloc, words) {
        Ok(call) => serve_call(host, call, reader, writer, errors),
        Err(unread) => tell_unread(unread, writer, errors),
    }
}

/// Does what a call asks. An export alone writes files.
fn serve_call<'a, S: Sources + Targets, R: Read, W: Write, E: Write>(
    host: &mut Host<S>,
    call: Call<'a>,
    reader: &mut Counted<R>,
    writer: &mut Counted<W>,
    errors: &mut Counted<E>,
) -> u8
    ensures serves { ServesCall S.holds S.placed S.same S.Reader.remaining R.remaining W.contents (asked_by call.entry) result
        host.old.files host.new.files reader.old reader.new writer.old writer.new }
    ensures waiting { S.waiting host.new.files ≡ S.waiting host.old.files }
    ensures quiet { IsQuiet result errors.old errors.new }
{
    let Request::Export(outputs, part) = call.request else {
        return serve(host, call, reader, writer, errors);
    };
    let export = Export {
        hashing: host.hashing,
        source: call.file,
        outputs,
        part,
    };
    if let Some(clash) = find_clash(&host.files, export) {
        return complain_of_clash(host.alloc, &clash, errors);
    }
    let Some(name) = call.file else {
        return run_export(host, export, reader, writer, errors);
    };
    match open_input(host.alloc, &host.files, name, errors) {
        Some(file) => {
            let mut file = file;
            run_export(host, export, &mut file, writer, errors)
        }
        None => FAULTY,
    }
}

/// Does what a call asks, where that is no export.
fn serve<'a, S: Sources, R: Read, W: Write, E: Write>(
    host: &Host<S>,
    call: Call<'a>,
    reader: &mut Counted<R>,
    writer: &mut Counted<W>,
    errors: &mut Counted<E>,
) -> u8
    ensures serves { DoesWith (S.holds host.now.files) S.Reader.remaining R.remaining W.contents call.entry result
        reader.old reader.new writer.old writer.new }
    ensures quiet { IsQuiet result errors.old errors.new }
{
    match (call.request, call.file) {
        (Request::Compare(comparand), source) => {
            match open_files(host.alloc, &host.files, comparand.octal, source, errors) {
                Some(files) => match compare_files(host, comparand, files, reader, writer) {
                    Ok(count) => status_of_count(count),
                    Err(fault) => complain_of_comparison(host.alloc, source, fault, errors),
                },
                None => FAULTY,
            }
        }
        (Request::Disassemble(request, hints), file) => {
            let asked = DisassemblyCall {
                request,
                hints,
                file,
            };
            serve_disassembly(host, asked, reader, writer, errors)
        }
        (Request::Session, Some(name)) => run_session_from(host, name, reader, writer, errors),
        _ => serve_one(host, call, reader, writer, errors),
    }
}

/// Does what a call asks of one input.
fn serve_one<'a, S: Sources, R: Read, W: Write, E: Write>(
    host: &Host<S>,
    call: Call<'a>,
    reader: &mut Counted<R>,
    writer: &mut Counted<W>,
    errors: &mut Counted<E>,
) -> u8
    ensures serves { DoesOne (S.holds host.now.files) S.Reader.remaining R.remaining W.contents call.entry result
        reader.old reader.new writer.old writer.new }
    ensures quiet { IsQuiet result errors.old errors.new }
{
    let Some(name) = call.file else {
        return run_request(host, call, reader, writer, errors);
    };
    match open_input(host.alloc, &host.files, name, errors) {
        Some(file) => {
            let mut file = file;
            run_request(host, call, &mut file, writer, errors)
        }
        None => FAULTY,
    }
}

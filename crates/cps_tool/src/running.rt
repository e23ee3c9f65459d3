//! What is asked of one input, done with it.
ghost use Rattle.std.specs.Prelude.{◌≡◌, ◌⊎◌, ℕ, List, None};
ghost use Rattle.cps_tool.specs.Code.Calling.{DoesRequest, UndoneOr};
ghost use Rattle.cps_tool.specs.CommandLine.{Calls, ChecksAs, IsIdle, IsQuiet, TellsWord};
ghost use Rattle.cps_words.specs.Task as tasks;

use super::disassembling::{DisassemblyCall, run_disassembly};
use super::faults::complain_of_batch;
use super::host::Host;
use super::sessions::run_script_over;
use super::telling::{
    NO_FILES, NO_MEMORY, complain, complain_of, status_of_check, status_of_count, status_of_end,
    tell,
};
use cps_batch::batch;
use cps_check::{CheckOptions, check, manual_text};
use cps_list::Part;
use cps_live::Session;
use cps_server::run_server;
use cps_text::Counted;
use cps_words::{Call, Request, shown};
use std::alloc::{AllocError, Global};
use std::io::{Read, Write};

/// What a check calls standard input.
const STANDARD_INPUT: &str = "<stdin>";

/// Does what a call asks with what a reader gives, which is the file that it names or standard input.
pub fn run_request<'a, S, R: Read, W: Write, E: Write>(
    host: &Host<S>,
    call: Call<'a>,
    reader: &mut Counted<R>,
    writer: &mut Counted<W>,
    errors: &mut Counted<E>,
) -> u8
    ensures calls { UndoneOr (DoesRequest R.remaining W.contents call.entry) result reader.old reader.new writer.old writer.new }
    ensures quiet { IsQuiet result errors.old errors.new }
{
    match call.request {
        Request::Batch(part) => {
            let asked = BatchCall {
                part,
                file: call.file,
            };
            run_batch(host, asked, reader, writer, errors)
        }
        Request::Session => run_session(host, reader, writer, errors),
        Request::Check { errors_only } => {
            match shown(host.alloc, call.file.unwrap_or(STANDARD_INPUT)) {
                Ok(name) => {
                    let name = name.as_bytes();
                    let options = CheckOptions { name, errors_only };
                    run_check(host, options, reader, writer, errors)
                }
                Err(_) => complain(errors, NO_MEMORY),
            }
        }
        Request::Export(_, _) | Request::Compare(_) => complain(errors, NO_FILES),
        Request::Disassemble(request, hints) => {
            let asked = DisassemblyCall {
                request,
                hints,
                file: call.file,
            };
            run_disassembly(host, asked, reader, writer, errors)
        }
        Request::Explain(word) => run_explanation(host, word, writer, errors),
        Request::Server => run_service(host, reader, writer, errors),
    }
}

/// A batch that is asked: the part that is written, and the name of the source's file, None for standard input.
#[derive(Clone, Copy)]
struct BatchCall<'a> {
    part: Part,
    file: Option<&'a str>,
}

fn run_batch<'a, S, R: Read, W: Write, E: Write>(
    host: &Host<S>,
    asked: BatchCall<'a>,
    reader: &mut Counted<R>,
    writer: &mut Counted<W>,
    errors: &mut Counted<E>,
) -> u8
    ensures calls { Calls R.remaining W.contents (tasks.batch asked.entry.part) None result reader.old reader.new writer.old writer.new }
    ensures quiet { IsQuiet result errors.old errors.new }
{
    match batch(host.alloc, host.hashing, reader, writer, asked.part) {
        Ok(count) => status_of_count(count),
        Err(fault) => complain_of_batch(host.alloc, asked.file, fault, errors),
    }
}

fn run_session<S, R: Read, W: Write, E: Write>(
    host: &Host<S>,
    reader: &mut Counted<R>,
    writer: &mut Counted<W>,
    errors: &mut Counted<E>,
) -> u8
    ensures calls { Calls R.remaining W.contents tasks.session None result reader.old reader.new writer.old writer.new }
    ensures quiet { IsQuiet result errors.old errors.new }
{
    run_script_over(
        host.alloc,
        Session::new(host.alloc, host.hashing),
        reader,
        writer,
        errors,
    )
}

fn run_check<S, R: Read, W: Write, E: Write>(
    host: &Host<S>,
    options: CheckOptions<'_>,
    reader: &mut Counted<R>,
    writer: &mut Counted<W>,
    errors: &mut Counted<E>,
) -> u8
    ensures calls { ChecksAs R.remaining W.contents options.entry.errors_only options.entry.name.now result reader.old reader.new writer.old writer.new }
    ensures quiet { IsQuiet result errors.old errors.new }
{
    match check(host.alloc, host.hashing, options, reader, writer) {
        Ok(is_wrong) => status_of_check(is_wrong),
        Err(fault) => complain_of(errors, fault),
    }
}

/// Answers an editor.
fn run_service<S, R: Read, W: Write, E: Write>(
    host: &Host<S>,
    reader: &mut Counted<R>,
    writer: &mut Counted<W>,
    errors: &mut Counted<E>,
) -> u8
    ensures calls { Calls R.remaining W.contents tasks.server None result reader.old reader.new writer.old writer.new }
    ensures quiet { IsQuiet result errors.old errors.new }
{
    match run_server(host.alloc, host.hashing, reader, writer) {
        Ok(was_shut_down) => status_of_end(was_shut_down),
        Err(fault) => complain_of(errors, fault),
    }
}

/// Tells of the letter of a flag or of an operation.
fn run_explanation<S, W: Write, E: Write>(
    host: &Host<S>,
    word: &str,
    writer: &mut Counted<W>,
    errors: &mut Counted<E>,
) -> u8
    ensures tells { IsIdle result writer.old writer.new ⊎ TellsWord W.contents word.now result writer.old writer.new }
    ensures quiet { IsQuiet result errors.old errors.new }
{
    match manual_text(host.alloc, word.as_bytes()) {
        Ok(Some(text)) => tell(writer, errors, &text),
        Ok(None) => complain_of_word(host.alloc, word, errors),
        Err(_) => complain(errors, NO_MEMORY),
    }
}

/// Tells that a word can't be explained.
fn complain_of_word<E: Write>(alloc: Global, word: &str, errors: &mut Counted<E>) -> u8
    ensures { result ≡ 2 }
{
    match unknown_text(alloc, word) {
        Ok(text) => complain(errors, text.as_str()),
        Err(_) => complain(errors, NO_MEMORY),
    }
}

fn unknown_text(alloc: Global, word: &str) -> Result<String, AllocError> {
    let text = format!(in alloc; "error: '{word}' is no letter of a flag and no operation\n")?;
    shown(alloc, &text)
}

//! The words of a call of the program, and what they ask.
ghost use Rattle.std.specs.Prelude.{◌≡◌, ◌⊎◌, IfOk, IfErr, None, option_map};
ghost use Rattle.clap.specs.Words.{found_of, kind_of, rows_of, subcommand_rows_of};
ghost use Rattle.clap.specs.Walk.{texts};
ghost use Rattle.cps_words.specs.Request.{IsAnswer, answer_from, answer_named, answer_of, answer_of_batch, answer_of_compare, answer_of_disassemble, answer_of_session, asked_by, request_of};
ghost use Rattle.cps_words.specs.Code.Reading.{Reads, ReadsValue, Says};
ghost use Rattle.cps_words.specs.Values.{part_named, value_from};

use super::command_line::compass_command;
use super::comparand::Comparand;
use super::compare_options::{parted_offset, read_compare_options};
use super::disassemble_options::read_disassemble_options;
use super::help::read_help;
use super::hint_words::{HintWords, read_hint_words};
use super::output_options::{are_apart, read_outputs, say_taken, wants_no_file};
use super::unread::{
    Unread, say, say_file_alone, say_no_name, say_parted_offset, say_wrong_value, wrong,
};
use super::values::{has_flag, part_of_name, read_file, word_in};
use crate::outputs::Outputs;
use clap::error::ErrorKind;
use clap::{ArgMatches, Error};
use cps_disassembly::Request as Disassembly;
use cps_list::Part;
use std::alloc::Global;

/// What a call of the program asks.
#[derive(Clone, Copy)]
pub enum Request<'a> {
    /// To assemble a source, and to write a part of that.
    Batch(Part),
    /// To assemble a source, to write texts of that into files, and then a part, None where none is wanted.
    Export(Outputs<'a>, Option<Part>),
    /// To run a script, over a source that begins with the lines of the call's file, or with no line where there is none.
    Session,
    /// To tell what is wrong in a source, or errors alone.
    Check { errors_only: bool },
    /// To compare a source with an octal text.
    Compare(Comparand<'a>),
    /// To make a source for the words of an octal text, of which something is known.
    Disassemble(Disassembly, HintWords<'a>),
    /// To explain a flag, by its letter, or an operation, by its name.
    Explain(&'a str),
    /// To answer an editor.
    Server,
}

/// What a call asks, and of which file.
#[derive(Clone, Copy)]
pub struct Call<'a> {
    pub request: Request<'a>,
    /// The file's name, None for standard input. Of a session None where it begins with no line; an explanation and a server have none.
    pub file: Option<&'a str>,
}

/// Reads the words of a call, of which the first is the program's name.
pub fn read_words<'a>(alloc: Global, words: &'a [&'a str]) -> Result<Call<'a>, Unread>
    ensures asked { IfOk result (λ call. answer_of (texts words.now) ≡ asked_by call) }
    // A call that asks something fails only where memory was refused.
    ensures unread { IfErr result (λ unread. (unread ≡ Unread.Memory) ⊎ (request_of (texts words.now) ≡ None)) }
    // What is said is what is answered.
    ensures said { IfErr result (IsAnswer (texts words.now)) }
{
    let Ok(command) = compass_command(alloc) else {
        return Err(Unread::Memory);
    };
    match command.try_get_matches_from(words) {
        Ok(matches) => read_matches(alloc, &matches),
        Err(error) => Err(say_fault(alloc, words, &error)),
    }
}

/// What is said of words in which `clap` found a fault. It takes an offset with a minus for an option where that is a word of its own, and a file for a
/// command where no command stands in front of it.
fn say_fault(alloc: Global, words: &[&str], error: &Error) -> Unread
    ensures { Says (kind_of error.now) result }
{
    match (error.kind(), parted_offset(words), file_in_front(words)) {
        (ErrorKind::UnknownArgument, Some(word), _) => say_parted_offset(alloc, word),
        (ErrorKind::InvalidSubcommand, _, Some(word)) => say_file_alone(alloc, word),
        _ => say(alloc, error),
    }
}

/// The word behind the program's name, if it is like a file's name: a point or a slash stands in it.
fn file_in_front<'a>(words: &'a [&'a str]) -> Option<&'a str> {
    let word = *words.get(1)?;
    if word.contains('.') || word.contains('/') {
        Some(word)
    } else {
        None
    }
}

/// What words ask in which `clap` found no fault. It finds one in words without a command.
fn read_matches<'a>(alloc: Global, matches: &ArgMatches<'a>) -> Result<Call<'a>, Unread>
    ensures { Reads (answer_from (subcommand_rows_of matches.now)) result }
{
    match matches.subcommand() {
        Some((name, values)) => read_command(alloc, name, values),
        None => Err(wrong(alloc, NO_COMMAND)),
    }
}

const NO_COMMAND: &str = "error: a command is wanted\n";

/// What a command asks, by the values of its options and operands.
fn read_command<'a>(alloc: Global, name: &str, values: &ArgMatches<'a>) -> Result<Call<'a>, Unread>
    ensures { Reads (answer_named name.now (rows_of (found_of values.now))) result }
{
    match name {
        "batch" => read_batch(alloc, values),
        "session" => read_session(alloc, values),
        "check" => Ok(Call {
            request: Request::Check {
                errors_only: has_flag(values, "errors"),
            },
            file: read_file(word_in(values, "file")),
        }),
        "compare" => read_compare(alloc, values),
        "disassemble" => read_disassemble(alloc, values),
        "explain" => Ok(Call {
            request: Request::Explain(word_in(values, "word").unwrap_or("")),
            file: None,
        }),
        "server" => Ok(Call {
            request: Request::Server,
            file: None,
        }),
        "help" => read_help(alloc, word_in(values, "command")),
        _ => Err(wrong(alloc, NO_COMMAND)),
    }
}

fn read_batch<'a>(alloc: Global, values: &ArgMatches<'a>) -> Result<Call<'a>, Unread>
    ensures { Reads (answer_of_batch (rows_of (found_of values.now))) result }
{
    let part = read_part(alloc, word_in(values, "part"))?;
    let file = read_file(word_in(values, "file"));
    let outputs = read_outputs(values);
    if wants_no_file(outputs) {
        return Ok(Call {
            request: Request::Batch(part.unwrap_or(Part::All)),
            file,
        });
    }
    if !are_apart(file, outputs) {
        return Err(say_taken(alloc, file, outputs));
    }
    Ok(Call {
        request: Request::Export(outputs, part),
        file,
    })
}

/// The part that a word names, None where there is no word.
fn read_part(alloc: Global, word: Option<&str>) -> Result<Option<Part>, Unread>
    ensures { ReadsValue (value_from part_named (option_map (λ word. word.now) word.entry)) result }
{
    let Some(word) = word else {
        return Ok(None);
    };
    match part_of_name(word) {
        Some(part) => Ok(Some(part)),
        None => Err(say_no_name(alloc, "--part <PART>", PARTS, word)),
    }
}

/// The words that name a part.
const PARTS: &str = "listing, binary, symbols, flags, all";

fn read_session<'a>(alloc: Global, values: &ArgMatches<'a>) -> Result<Call<'a>, Unread>
    ensures { Reads (answer_of_session (rows_of (found_of values.now))) result }
{
    let source = word_in(values, "source");
    match source {
        Some("-") => Err(say_wrong_value(
            alloc,
            "--source <FILE>",
            "-",
            "standard input has the script",
        )),
        _ => Ok(Call {
            request: Request::Session,
            file: source,
        }),
    }
}

fn read_compare<'a>(alloc: Global, values: &ArgMatches<'a>) -> Result<Call<'a>, Unread>
    ensures { Reads (answer_of_compare (rows_of (found_of values.now))) result }
{
    let options = read_compare_options(alloc, values)?;
    let octal = read_file(word_in(values, "octal"));
    let file = read_file(word_in(values, "file"));
    if octal.is_none() && file.is_none() {
        return Err(wrong(alloc, TWICE_STANDARD_INPUT));
    }
    Ok(Call {
        request: Request::Compare(Comparand { octal, options }),
        file,
    })
}

const TWICE_STANDARD_INPUT: &str =
    "error: OCTAL and FILE can't both be standard input\n\nFor more information, try '--help'.\n";

fn read_disassemble<'a>(alloc: Global, values: &ArgMatches<'a>) -> Result<Call<'a>, Unread>
    ensures { Reads (answer_of_disassemble (rows_of (found_of values.now))) result }
{
    let disassembly = read_disassemble_options(alloc, values)?;
    let hints = read_hint_words(alloc, values)?;
    Ok(Call {
        request: Request::Disassemble(disassembly, hints),
        file: read_file(word_in(values, "octal")),
    })
}

//! The command line, as `clap` has it.
ghost use Rattle.std.specs.Prelude.{◌≡◌, IfOk, false, fold};
ghost use Rattle.clap.specs.Words.{app_of, new_app, rule_of, with_rule, with_subcommand};
ghost use Rattle.clap.specs.Simple.{shape_of};
ghost use Rattle.clap.specs.declared.builder.command.Command.TheViews.{out-Command};
ghost use Rattle.cps_words.specs.Commands.{bare_compass, batch_shape, check_shape, compare_shape, compass, disassemble_shape, explain_shape, flag_rule, help_shape, limit_rules, name_rules, operand_rule, option_rule, place_rules, reading_rules, selection_rules, server_shape, session_shape, wanted_rule};

use super::helps::{
    ABOUT, BATCH_ABOUT, BATCH_MORE, CHECK_ABOUT, CHECK_MORE, COMPARE_ABOUT, COMPARE_MORE,
    DISASSEMBLE_ABOUT, DISASSEMBLE_MORE, EXPLAIN_ABOUT, EXPLAIN_MORE, HELP_ABOUT, HELP_MORE, MORE,
    SERVER_ABOUT, SERVER_MORE, SESSION_ABOUT, SESSION_MORE,
};
use clap::{Arg, ArgAction, Command};
use cps_version::VERSION;
use std::alloc::{AllocError, Global};

/// The command line, with its helps.
pub fn compass_command<'a>(alloc: Global) -> Result<Command<'a>, AllocError>
    ensures { IfOk result (λ command. app_of command ≡ compass) }
{
    let command = with_command(top_command(alloc), batch_command(alloc)?)?;
    let command = with_command(command, session_command(alloc)?)?;
    let command = with_command(command, check_command(alloc)?)?;
    let command = with_command(command, compare_command(alloc)?)?;
    let command = with_command(command, disassemble_command(alloc)?)?;
    let command = with_command(command, explain_command(alloc)?)?;
    let command = with_command(command, server_command(alloc)?)?;
    with_command(command, help_command(alloc)?)
}

/// `compass` before it has its commands.
fn top_command<'a>(alloc: Global) -> Command<'a>
    ensures { app_of result ≡ bare_compass }
{
    Command::new(alloc, "compass")
        .version(VERSION)
        .about(ABOUT)
        .after_help(MORE)
        .subcommand_required(true)
        .disable_help_subcommand(true)
}

/// A command line with one command more.
fn with_command<'a>(line: Command<'a>, command: Command<'a>) -> Result<Command<'a>, AllocError>
    requires { (out-Command command).has_globals ≡ false }
    ensures { IfOk result (λ more. app_of more ≡ with_subcommand (app_of line.entry) (shape_of command.entry)) }
{
    line.subcommand(command)
}

fn batch_command<'a>(alloc: Global) -> Result<Command<'a>, AllocError>
    ensures shape { IfOk result (λ command. shape_of command ≡ batch_shape) }
    ensures local { IfOk result (λ command. (out-Command command).has_globals ≡ false) }
{
    let command = bare_command(alloc, "batch", BATCH_ABOUT, BATCH_MORE);
    let command = with_argument(
        command,
        option(
            alloc,
            "part",
            "PART",
            "What to write [default: all, or none beside files]",
        ),
    )?;
    let command = with_argument(
        command,
        option(alloc, "listing", "FILE", "Write the listing into FILE"),
    )?;
    let command = with_argument(
        command,
        option(alloc, "binary", "FILE", "Write the binary text into FILE"),
    )?;
    let command = with_argument(
        command,
        option(
            alloc,
            "symbols",
            "FILE",
            "Write the cross-reference into FILE",
        ),
    )?;
    let command = with_argument(
        command,
        option(alloc, "flags", "FILE", "Write the flagged lines into FILE"),
    )?;
    let command = with_argument(
        command,
        option(
            alloc,
            "page",
            "FILE",
            "Write a page with all texts, in HTML, into FILE",
        ),
    )?;
    with_argument(command, operand(alloc, "file", "FILE", FILE_ABOUT))
}

fn session_command<'a>(alloc: Global) -> Result<Command<'a>, AllocError>
    ensures shape { IfOk result (λ command. shape_of command ≡ session_shape) }
    ensures local { IfOk result (λ command. (out-Command command).has_globals ≡ false) }
{
    let command = bare_command(alloc, "session", SESSION_ABOUT, SESSION_MORE);
    with_argument(
        command,
        option(
            alloc,
            "source",
            "FILE",
            "A file whose lines the session begins with",
        ),
    )
}

fn check_command<'a>(alloc: Global) -> Result<Command<'a>, AllocError>
    ensures shape { IfOk result (λ command. shape_of command ≡ check_shape) }
    ensures local { IfOk result (λ command. (out-Command command).has_globals ≡ false) }
{
    let command = bare_command(alloc, "check", CHECK_ABOUT, CHECK_MORE);
    let command = with_argument(
        command,
        flag(alloc, "errors", "Tell errors alone, and no notes"),
    )?;
    with_argument(command, operand(alloc, "file", "FILE", FILE_ABOUT))
}

fn compare_command<'a>(alloc: Global) -> Result<Command<'a>, AllocError>
    ensures shape { IfOk result (λ command. shape_of command ≡ compare_shape) }
    ensures local { IfOk result (λ command. (out-Command command).has_globals ≡ false) }
{
    let command = bare_command(alloc, "compare", COMPARE_ABOUT, COMPARE_MORE);
    let command = with_reading_options(alloc, command)?;
    let command = with_limit_options(alloc, command)?;
    let command = with_argument(
        command,
        wanted_operand(
            alloc,
            "octal",
            "OCTAL",
            "The octal listing or dump: standard input where it is '-'",
        ),
    )?;
    with_argument(command, operand(alloc, "file", "FILE", FILE_ABOUT))
}

/// A command with the options that say how an octal text is read.
fn with_reading_options<'a>(alloc: Global, command: Command<'a>) -> Result<Command<'a>, AllocError>
    ensures app { IfOk result (λ more. app_of more ≡ fold with_rule (app_of command.entry) reading_rules) }
    ensures local { IfOk result (λ more. (out-Command more).has_globals ≡ (out-Command command.entry).has_globals) }
{
    let command = with_argument(
        command,
        option(
            alloc,
            "format",
            "FORMAT",
            "How OCTAL is read: rows, dump or own [default: rows]",
        ),
    )?;
    let command = with_argument(
        command,
        option(
            alloc,
            "columns",
            "F-L",
            "The columns of OCTAL that are read [default: all]",
        ),
    )?;
    with_argument(
        command,
        option(
            alloc,
            "offset",
            "N",
            "Octal, added to OCTAL's addresses; '=-N' takes away",
        ),
    )
}

/// A command with the options that say which words are compared, and how much is told of them.
fn with_limit_options<'a>(alloc: Global, command: Command<'a>) -> Result<Command<'a>, AllocError>
    ensures app { IfOk result (λ more. app_of more ≡ fold with_rule (app_of command.entry) limit_rules) }
    ensures local { IfOk result (λ more. (out-Command more).has_globals ≡ (out-Command command.entry).has_globals) }
{
    let command = with_argument(
        command,
        option(
            alloc,
            "from",
            "A",
            "The first address, in octal [default: OCTAL's first]",
        ),
    )?;
    let command = with_argument(
        command,
        option(
            alloc,
            "to",
            "B",
            "The last address, in octal [default: OCTAL's last]",
        ),
    )?;
    let command = with_argument(
        command,
        flag(alloc, "whole", "OCTAL has to give each word, and all of it"),
    )?;
    with_argument(
        command,
        flag(
            alloc,
            "all",
            "Tell all words that differ, and all rows not read",
        ),
    )
}

fn disassemble_command<'a>(alloc: Global) -> Result<Command<'a>, AllocError>
    ensures shape { IfOk result (λ command. shape_of command ≡ disassemble_shape) }
    ensures local { IfOk result (λ command. (out-Command command).has_globals ≡ false) }
{
    let command = bare_command(alloc, "disassemble", DISASSEMBLE_ABOUT, DISASSEMBLE_MORE);
    let command = with_argument(
        command,
        flag(
            alloc,
            "central",
            "The words are those of a central processor",
        ),
    )?;
    let command = with_argument(
        command,
        flag(
            alloc,
            "peripheral",
            "The words are those of a peripheral processor",
        ),
    )?;
    let command = with_selection_options(alloc, command)?;
    let command = with_place_options(alloc, command)?;
    let command = with_name_options(alloc, command)?;
    with_argument(
        command,
        operand(
            alloc,
            "octal",
            "OCTAL",
            "The octal text: standard input where it is left out or '-'",
        ),
    )
}

/// A command with the options that say which words of an octal text are taken, and how it is read.
fn with_selection_options<'a>(
    alloc: Global,
    command: Command<'a>,
) -> Result<Command<'a>, AllocError>
    ensures app { IfOk result (λ more. app_of more ≡ fold with_rule (app_of command.entry) selection_rules) }
    ensures local { IfOk result (λ more. (out-Command more).has_globals ≡ (out-Command command.entry).has_globals) }
{
    let command = with_argument(
        command,
        option(
            alloc,
            "from",
            "A",
            "The first address, in octal [default: OCTAL's first]",
        ),
    )?;
    let command = with_argument(
        command,
        option(
            alloc,
            "to",
            "B",
            "The last address, in octal [default: OCTAL's last]",
        ),
    )?;
    let command = with_argument(
        command,
        option(
            alloc,
            "columns",
            "F-L",
            "The columns of OCTAL that are read [default: all]",
        ),
    )?;
    with_argument(
        command,
        option(
            alloc,
            "format",
            "FORMAT",
            "How OCTAL is read: rows or dump [default: rows]",
        ),
    )
}

/// A command with the options that say which words are code, and which are data.
fn with_place_options<'a>(alloc: Global, command: Command<'a>) -> Result<Command<'a>, AllocError>
    ensures app { IfOk result (λ more. app_of more ≡ fold with_rule (app_of command.entry) place_rules) }
    ensures local { IfOk result (λ more. (out-Command more).has_globals ≡ (out-Command command.entry).has_globals) }
{
    let command = with_argument(
        command,
        option(
            alloc,
            "entry",
            "LIST",
            "Addresses where execution begins, as 100,2031",
        ),
    )?;
    let command = with_argument(
        command,
        option(alloc, "code", "LIST", "Words that are code, as 100-177,300"),
    )?;
    with_argument(
        command,
        option(
            alloc,
            "data",
            "LIST",
            "Words that are data, also where --code has them",
        ),
    )
}

/// A command with the options that say how things are named, and whether there are comments.
fn with_name_options<'a>(alloc: Global, command: Command<'a>) -> Result<Command<'a>, AllocError>
    ensures app { IfOk result (λ more. app_of more ≡ fold with_rule (app_of command.entry) name_rules) }
    ensures local { IfOk result (λ more. (out-Command more).has_globals ≡ (out-Command command.entry).has_globals) }
{
    let command = with_argument(
        command,
        option(
            alloc,
            "names",
            "FILE",
            "A file with symbols and their values",
        ),
    )?;
    let command = with_argument(
        command,
        option(
            alloc,
            "ident",
            "NAME",
            "The program's name [default: as in OCTAL, or DUMP]",
        ),
    )?;
    with_argument(command, flag(alloc, "bare", "Write no comments"))
}

fn explain_command<'a>(alloc: Global) -> Result<Command<'a>, AllocError>
    ensures shape { IfOk result (λ command. shape_of command ≡ explain_shape) }
    ensures local { IfOk result (λ command. (out-Command command).has_globals ≡ false) }
{
    let command = bare_command(alloc, "explain", EXPLAIN_ABOUT, EXPLAIN_MORE);
    with_argument(
        command,
        wanted_operand(
            alloc,
            "word",
            "WORD",
            "The letter of a flag, or the name of an operation",
        ),
    )
}

fn server_command<'a>(alloc: Global) -> Result<Command<'a>, AllocError>
    ensures shape { IfOk result (λ command. shape_of command ≡ server_shape) }
    ensures local { IfOk result (λ command. (out-Command command).has_globals ≡ false) }
{
    let command = bare_command(alloc, "server", SERVER_ABOUT, SERVER_MORE);
    with_argument(
        command,
        flag(
            alloc,
            "stdio",
            "Means nothing: some editors add it by themselves",
        ),
    )
}

fn help_command<'a>(alloc: Global) -> Result<Command<'a>, AllocError>
    ensures shape { IfOk result (λ command. shape_of command ≡ help_shape) }
    ensures local { IfOk result (λ command. (out-Command command).has_globals ≡ false) }
{
    let command = bare_command(alloc, "help", HELP_ABOUT, HELP_MORE);
    with_argument(
        command,
        operand(
            alloc,
            "command",
            "COMMAND",
            "The command: the program where it is left out",
        ),
    )
}

const FILE_ABOUT: &str = "The source: standard input where it is left out or '-'";

/// `--NAME VALUE`, which may be left out.
fn option<'a>(alloc: Global, name: &'a str, value: &'a str, help: &'a str) -> Arg<'a>
    ensures rule { rule_of result ≡ option_rule name.entry.now }
    ensures local { result.global ≡ false }
{
    Arg::new(alloc, name)
        .long(name)
        .value_name(value)
        .help(help)
}

/// `--NAME`, which has no value and may be left out.
fn flag<'a>(alloc: Global, name: &'a str, help: &'a str) -> Arg<'a>
    ensures rule { rule_of result ≡ flag_rule name.entry.now }
    ensures local { result.global ≡ false }
{
    Arg::new(alloc, name)
        .long(name)
        .action(ArgAction::SetTrue)
        .help(help)
}

/// An operand, which may be left out.
fn operand<'a>(alloc: Global, name: &'a str, value: &'a str, help: &'a str) -> Arg<'a>
    ensures rule { rule_of result ≡ operand_rule name.entry.now }
    ensures local { result.global ≡ false }
{
    Arg::new(alloc, name).value_name(value).help(help)
}

/// An operand that is wanted.
fn wanted_operand<'a>(alloc: Global, name: &'a str, value: &'a str, help: &'a str) -> Arg<'a>
    ensures rule { rule_of result ≡ wanted_rule name.entry.now }
    ensures local { result.global ≡ false }
{
    Arg::new(alloc, name)
        .value_name(value)
        .required(true)
        .help(help)
}

/// A command without arguments, with its help.
fn bare_command<'a>(alloc: Global, name: &'a str, about: &'a str, more: &'a str) -> Command<'a>
    ensures app { app_of result ≡ new_app name.entry.now }
    ensures local { (out-Command result).has_globals ≡ false }
{
    Command::new(alloc, name).about(about).after_help(more)
}

/// A command with one argument more, which isn't global.
fn with_argument<'a>(command: Command<'a>, argument: Arg<'a>) -> Result<Command<'a>, AllocError>
    requires { argument.global ≡ false }
    ensures app { IfOk result (λ more. app_of more ≡ with_rule (app_of command.entry) (rule_of argument.entry)) }
    ensures local { IfOk result (λ more. (out-Command more).has_globals ≡ (out-Command command.entry).has_globals) }
{
    command.arg(argument)
}

//! What the options of `disassemble` ask.
ghost use Rattle.std.specs.Prelude.{option_map};
ghost use Rattle.clap.specs.Words.{found_of, rows_of};
ghost use Rattle.cps_words.specs.Values.{disassembly_in, machine_from, octal_format_named, value_from};
ghost use Rattle.cps_words.specs.Code.Reading.{ReadsValue};

use super::limit_options::{are_rising, read_address_option, read_columns_option};
use super::unread::{Unread, say_no_name, say_wrong_value, wrong};
use super::values::{has_flag, octal_format_of_name, word_in};
use clap::ArgMatches;
use cps_claims::OctalFormat;
use cps_disassembly::Request;
use cps_expr::Machine;
use std::alloc::Global;

/// What the options of `disassemble` ask.
pub fn read_disassemble_options(alloc: Global, values: &ArgMatches) -> Result<Request, Unread>
    ensures { ReadsValue (disassembly_in (rows_of (found_of values.now))) result }
{
    let machine = read_machine(
        alloc,
        has_flag(values, "central"),
        has_flag(values, "peripheral"),
    )?;
    let format = read_octal_format_option(alloc, word_in(values, "format"))?;
    let columns = read_columns_option(alloc, word_in(values, "columns"))?;
    let from = read_address_option(alloc, "--from <A>", word_in(values, "from"))?;
    let to = read_address_option(alloc, "--to <B>", word_in(values, "to"))?;
    if !are_rising(from, to) {
        let last = word_in(values, "to").unwrap_or("");
        return Err(say_wrong_value(
            alloc,
            "--to <B>",
            last,
            "it is below the address of '--from'",
        ));
    }
    Ok(Request {
        machine,
        format: format.unwrap_or(OctalFormat::Rows),
        columns,
        from,
        to,
    })
}

/// The machine by the flags for a central and for a peripheral processor, None where neither stands.
fn read_machine(
    alloc: Global,
    is_central: bool,
    is_peripheral: bool,
) -> Result<Option<Machine>, Unread>
    ensures { ReadsValue (machine_from is_central is_peripheral) result }
{
    match (is_central, is_peripheral) {
        (true, true) => Err(wrong(alloc, TWO_MACHINES)),
        (true, false) => Ok(Some(Machine::Cp)),
        (false, true) => Ok(Some(Machine::Pp)),
        (false, false) => Ok(None),
    }
}

const TWO_MACHINES: &str =
    "error: the argument '--central' cannot be used with '--peripheral'\n\nFor more information, try '--help'.\n";

/// The format that `--format` names, None where it is left out.
fn read_octal_format_option(
    alloc: Global,
    word: Option<&str>,
) -> Result<Option<OctalFormat>, Unread>
    ensures { ReadsValue (value_from octal_format_named (option_map (λ word. word.now) word.entry)) result }
{
    let Some(word) = word else {
        return Ok(None);
    };
    match octal_format_of_name(word) {
        Some(format) => Ok(Some(format)),
        None => Err(say_no_name(alloc, "--format <FORMAT>", "rows, dump", word)),
    }
}

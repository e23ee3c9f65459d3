//! What the options of `compare` ask.
ghost use Rattle.std.specs.Prelude.{◌≡◌, ◌<◌, ◌^◌, IfOk, option_map};
ghost use Rattle.std.specs.Option.{ForSome};
ghost use Rattle.clap.specs.Words.{found_of, rows_of};
ghost use Rattle.cps_words.specs.Values.{format_named, offset_named, options_in, value_from};
ghost use Rattle.cps_words.specs.Values as values;
ghost use Rattle.cps_words.specs.Code.Reading.{ReadsValue};

use super::limit_options::{are_rising, read_address_option, read_columns_option};
use super::numbers::read_offset;
use super::unread::{Unread, say_no_name, say_wrong_value};
use super::values::{format_of_name, has_flag, word_in};
use clap::ArgMatches;
use cps_claims::{OctalFormat, ReadColumns, WordOffset};
use cps_compare::{CompareFormat, CompareOptions};
use std::alloc::Global;

/// What the options of `compare` ask. A last address has at most six octal digits.
pub fn read_compare_options(alloc: Global, values: &ArgMatches) -> Result<CompareOptions, Unread>
    ensures options { ReadsValue (options_in (rows_of (found_of values.now))) result }
    ensures low { IfOk result (λ options. ForSome options.to (λ to. to < 2 ^ 18)) }
{
    let format = read_format_option(alloc, word_in(values, "format"))?;
    let columns = read_columns_option(alloc, word_in(values, "columns"))?;
    let offset = read_offset_option(alloc, word_in(values, "offset"))?;
    let from = read_address_option(alloc, "--from <A>", word_in(values, "from"))?;
    let to = read_address_option(alloc, "--to <B>", word_in(values, "to"))?;
    let format = format.unwrap_or(CompareFormat::Words(OctalFormat::Rows));
    if !may_cut(format, columns) {
        let word = word_in(values, "columns").unwrap_or("");
        return Err(say_wrong_value(
            alloc,
            "--columns <F-L>",
            word,
            "'--format own' has its own columns",
        ));
    }
    if !are_rising(from, to) {
        let last = word_in(values, "to").unwrap_or("");
        return Err(say_wrong_value(
            alloc,
            "--to <B>",
            last,
            "it is below the address of '--from'",
        ));
    }
    Ok(CompareOptions {
        format,
        columns,
        offset: offset.unwrap_or(WordOffset::Up(0)),
        from,
        to,
        whole: has_flag(values, "whole"),
        all: has_flag(values, "all"),
    })
}

/// Whether these columns may be named: this program's own listing has its own.
fn may_cut(format: CompareFormat, columns: Option<ReadColumns>) -> bool
    ensures { result ≡ values.may_cut format columns }
{
    match (format, columns) {
        (CompareFormat::Own, Some(_)) => false,
        _ => true,
    }
}

/// The format that `--format` names, None where it is left out.
fn read_format_option(alloc: Global, word: Option<&str>) -> Result<Option<CompareFormat>, Unread>
    ensures { ReadsValue (value_from format_named (option_map (λ word. word.now) word.entry)) result }
{
    let Some(word) = word else {
        return Ok(None);
    };
    match format_of_name(word) {
        Some(format) => Ok(Some(format)),
        None => Err(say_no_name(alloc, "--format <FORMAT>", "rows, dump, own", word)),
    }
}

/// The offset that `--offset` names, None where it is left out.
fn read_offset_option(alloc: Global, word: Option<&str>) -> Result<Option<WordOffset>, Unread>
    ensures { ReadsValue (value_from offset_named (option_map (λ word. word.now) word.entry)) result }
{
    let Some(word) = word else {
        return Ok(None);
    };
    match read_offset(word) {
        Some(offset) => Ok(Some(offset)),
        None => Err(say_wrong_value(
            alloc,
            "--offset <N>",
            word,
            "write 1 to 6 octal digits, behind a minus to take them away",
        )),
    }
}

/// The offset with a minus that stands as a word of its own behind `--offset`, in the words of a call of `compare`.
pub fn parted_offset<'a>(words: &[&'a str]) -> Option<&'a str> {
    let [_, command, rest @ ..] = words else {
        return None;
    };
    if *command != "compare" {
        return None;
    }
    let at = rest.iter().position(|word| *word == "--offset")?;
    let word = rest.iter().nth(at + 1)?;
    if word.starts_with('-') && read_offset(word).is_some() {
        Some(*word)
    } else {
        None
    }
}

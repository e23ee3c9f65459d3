//! What the options of `disassemble` say of the words.
ghost use Rattle.std.specs.Prelude.{◌≡◌, false, is_none};
ghost use Rattle.clap.specs.Words.{found_of, rows_of};
ghost use Rattle.cps_words.specs.Outputs.{name_of};
ghost use Rattle.cps_words.specs.Hints as specs;
ghost use Rattle.cps_words.specs.Hints.{hints_given, hints_in, hints_of};
ghost use Rattle.cps_words.specs.Code.Reading.{ReadsHints};

use super::lists::{are_addresses, are_ranges};
use super::unread::{Unread, say_wrong_value};
use super::values::{has_flag, word_in};
use clap::ArgMatches;
use cps_text::Name;
use std::alloc::Global;

/// What the options say of the words that are disassembled, as they are written; None where one is left out.
#[derive(Clone, Copy)]
pub struct HintWords<'a> {
    /// Where execution begins: addresses with commas between them.
    pub entries: Option<&'a str>,
    /// What is code: ranges of addresses with commas between them.
    pub code_at: Option<&'a str>,
    /// What is data, in the same form.
    pub data_at: Option<&'a str>,
    /// The name of the file with names.
    pub names: Option<&'a str>,
    /// The name of the program.
    pub ident: Option<&'a str>,
    /// Whether no comment is wanted.
    pub is_bare: bool,
}

/// A value that an option can't have, and what to write.
#[derive(Clone, Copy)]
struct WrongHint<'a> {
    option: &'static str,
    word: &'a str,
    wanted: &'static str,
}

/// What the options say.
pub fn read_hint_words<'a>(alloc: Global, values: &ArgMatches<'a>) -> Result<HintWords<'a>, Unread>
    ensures { ReadsHints (hints_in (rows_of (found_of values.now))) result }
{
    let hints = given_hints(values);
    match wrong_hint(hints) {
        Some(wrong) => Err(say_wrong_value(alloc, wrong.option, wrong.word, wrong.wanted)),
        None => Ok(hints),
    }
}

/// What the options have, whatever that is.
fn given_hints<'a>(values: &ArgMatches<'a>) -> HintWords<'a>
    ensures { hints_of result ≡ hints_given (rows_of (found_of values.now)) }
{
    HintWords {
        entries: word_in(values, "entry"),
        code_at: word_in(values, "code"),
        data_at: word_in(values, "data"),
        names: word_in(values, "names"),
        ident: word_in(values, "ident"),
        is_bare: has_flag(values, "bare"),
    }
}

const ADDRESSES: &str = "write addresses of 1 to 6 octal digits, as 100,2031";

const RANGES: &str = "write ranges of octal addresses, as 100-177,300";

const FILE: &str = "a file has the names, not standard input";

const SYMBOL: &str = "a program has a symbol for its name";

/// The first option whose value can't be read.
fn wrong_hint<'a>(hints: HintWords<'a>) -> Option<WrongHint<'a>>
    ensures { is_none result ≡ specs.are_read (hints_of hints.entry) }
{
    if !may_be_addresses(hints.entries) {
        return wrong("--entry <LIST>", hints.entries, ADDRESSES);
    }
    if !may_be_ranges(hints.code_at) {
        return wrong("--code <LIST>", hints.code_at, RANGES);
    }
    if !may_be_ranges(hints.data_at) {
        return wrong("--data <LIST>", hints.data_at, RANGES);
    }
    if !may_be_file(hints.names) {
        return wrong("--names <FILE>", hints.names, FILE);
    }
    if !may_be_ident(hints.ident) {
        return wrong("--ident <NAME>", hints.ident, SYMBOL);
    }
    None
}

fn wrong<'a>(
    option: &'static str,
    word: Option<&'a str>,
    wanted: &'static str,
) -> Option<WrongHint<'a>>
    ensures { is_none result ≡ false }
{
    Some(WrongHint {
        option,
        word: word.unwrap_or(""),
        wanted,
    })
}

fn may_be_addresses(word: Option<&str>) -> bool
    ensures { result ≡ specs.may_be specs.are_addresses (name_of word.entry) }
{
    match word {
        Some(word) => are_addresses(word),
        None => true,
    }
}

fn may_be_ranges(word: Option<&str>) -> bool
    ensures { result ≡ specs.may_be specs.are_ranges (name_of word.entry) }
{
    match word {
        Some(word) => are_ranges(word),
        None => true,
    }
}

fn may_be_file(word: Option<&str>) -> bool
    ensures { result ≡ specs.may_be specs.is_file (name_of word.entry) }
{
    match word {
        Some(word) => word != "-",
        None => true,
    }
}

fn may_be_ident(word: Option<&str>) -> bool
    ensures { result ≡ specs.may_be specs.is_ident (name_of word.entry) }
{
    match word {
        Some(word) => is_ident(word),
        None => true,
    }
}

/// Whether a program may have this name.
fn is_ident(word: &str) -> bool
    ensures { result ≡ specs.is_ident word.now }
{
    match Name::read(word.as_bytes()) {
        Some(name) => !name.was_generated(),
        None => false,
    }
}

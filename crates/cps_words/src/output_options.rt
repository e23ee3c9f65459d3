//! The files that texts of a source are wanted in, by the options of `batch`.
ghost use Rattle.std.specs.Prelude.{◌≡◌, map};
ghost use Rattle.std.specs.List.{list_any};
ghost use Rattle.clap.specs.Words.{found_of, rows_of};
ghost use Rattle.cps_words.specs.Outputs.{name_of, names_of};
ghost use Rattle.cps_words.specs.Code.Reading.{IsRefusal};
ghost use Rattle.cps_words.specs.Values as values;

use super::unread::{Unread, say_wrong_value, wrong};
use super::values::word_in;
use crate::outputs::Outputs;
use clap::ArgMatches;
use std::alloc::Global;

/// The files that the options name.
pub fn read_outputs<'a>(matches: &ArgMatches<'a>) -> Outputs<'a>
    ensures { names_of result ≡ values.names_in (rows_of (found_of matches.now)) }
{
    Outputs {
        listing: word_in(matches, "listing"),
        binary: word_in(matches, "binary"),
        symbols: word_in(matches, "symbols"),
        flags: word_in(matches, "flags"),
        page: word_in(matches, "page"),
    }
}

/// Whether no text is wanted in a file, and no page.
pub fn wants_no_file(outputs: Outputs<'_>) -> bool
    ensures { result ≡ values.wants_no_file (names_of outputs.entry) }
{
    outputs.listing.is_none()
        && outputs.binary.is_none()
        && outputs.symbols.is_none()
        && outputs.flags.is_none()
        && outputs.page.is_none()
}

/// Whether each text has a name of its own, which is neither standard output's nor the source's. A device may be named twice.
pub fn are_apart<'a>(source: Option<&'a str>, outputs: Outputs<'a>) -> bool
    ensures { result ≡ values.are_apart (name_of source.entry) (names_of outputs.entry) }
{
    are_distinct(&[
        Some("-"),
        source,
        outputs.listing,
        outputs.binary,
        outputs.symbols,
        outputs.flags,
        outputs.page,
    ])
}

/// Whether no two of the names that are given are the same, but for those of devices.
fn are_distinct(names: &[Option<&str>]) -> bool
    ensures { result ≡ values.are_distinct (map name_of names.now) }
{
    match names {
        [] => true,
        [None, rest @ ..] => are_distinct(rest),
        [Some(name), rest @ ..] => {
            (is_device(name) || !has_name(rest, name)) && are_distinct(rest)
        }
    }
}

/// Whether a name is that of a device, as a terminal or what takes all.
fn is_device(name: &str) -> bool
    ensures { result ≡ values.is_device name.now }
{
    name.starts_with("/dev/")
}

/// Whether a name is given among others.
fn has_name(names: &[Option<&str>], name: &str) -> bool
    ensures { result ≡ list_any (values.is_name name.now) (map name_of names.now) }
{
    match names {
        [] => false,
        [other, rest @ ..] => is_name(name, *other) || has_name(rest, name),
    }
}

fn is_name(name: &str, other: Option<&str>) -> bool
    ensures { result ≡ values.is_name name.now (name_of other.entry) }
{
    match other {
        Some(other) => name == other,
        None => false,
    }
}

const SAME_FILE: &str = "error: two texts can't go into the same file\n";

/// What is said where a text can't go into the file that is named for it, of the first such text.
pub fn say_taken<'a>(alloc: Global, source: Option<&'a str>, outputs: Outputs<'a>) -> Unread
    ensures { IsRefusal result }
{
    let named = [
        ("--listing <FILE>", outputs.listing),
        ("--binary <FILE>", outputs.binary),
        ("--symbols <FILE>", outputs.symbols),
        ("--flags <FILE>", outputs.flags),
        ("--page <FILE>", outputs.page),
    ];
    let names = [
        outputs.listing,
        outputs.binary,
        outputs.symbols,
        outputs.flags,
        outputs.page,
    ];
    for (at, (option, name)) in named.iter().enumerate() {
        if let Some(name) = name {
            if let Some(why) = why_taken(name, source, &names[..at]) {
                return say_wrong_value(alloc, option, name, why);
            }
        }
    }
    wrong(alloc, SAME_FILE)
}

/// Why a text can't go into a file of that name, where others go into the files before it.
fn why_taken(name: &str, source: Option<&str>, before: &[Option<&str>]) -> Option<&'static str> {
    if name == "-" {
        return Some("standard output has the part that '--part' names");
    }
    if is_device(name) {
        return None;
    }
    if is_name(name, source) {
        return Some("it is the source");
    }
    if has_name(before, name) {
        return Some("another text goes there");
    }
    None
}

//! What the values of options and operands name.
ghost use Rattle.std.specs.Prelude.{◌≡◌, option_map};
ghost use Rattle.clap.specs.Words.{first_of, found_of, rows_of};
ghost use Rattle.cps_words.specs.Values as values;
ghost use Rattle.cps_words.specs.Values.{file_named, format_named, octal_format_named, part_named};

use clap::ArgMatches;
use cps_claims::OctalFormat;
use cps_compare::CompareFormat;
use cps_list::Part;

/// The word that an option or an operand has, if any.
pub fn word_in<'a>(matches: &ArgMatches<'a>, id: &str) -> Option<&'a str>
    ensures { option_map (λ word. word.now) result ≡ first_of id.now (rows_of (found_of matches.now)) }
{
    matches.get_str(id)
}

/// The file that a word names, None for standard input.
pub fn read_file(word: Option<&str>) -> Option<&str>
    ensures { option_map (λ name. name.now) result ≡ file_named (option_map (λ name. name.now) word.entry) }
{
    match word {
        Some("-") => None,
        _ => word,
    }
}

/// Whether a flag stands: `clap` gives it the word `true` then.
pub fn has_flag(matches: &ArgMatches, id: &str) -> bool
    ensures { result ≡ values.has_flag id.now (rows_of (found_of matches.now)) }
{
    match word_in(matches, id) {
        Some(word) => word == "true",
        None => false,
    }
}

/// The part that a word names.
pub fn part_of_name(word: &str) -> Option<Part>
    ensures { result ≡ part_named word.now }
{
    match word {
        "listing" => Some(Part::Listing),
        "binary" => Some(Part::Binary),
        "symbols" => Some(Part::Symbols),
        "flags" => Some(Part::Flags),
        "all" => Some(Part::All),
        _ => None,
    }
}

/// The format that a word names.
pub fn format_of_name(word: &str) -> Option<CompareFormat>
    ensures { result ≡ format_named word.now }
{
    match word {
        "rows" => Some(CompareFormat::Words(OctalFormat::Rows)),
        "dump" => Some(CompareFormat::Words(OctalFormat::Dump)),
        "own" => Some(CompareFormat::Own),
        _ => None,
    }
}

/// The format of an octal text that a word names.
pub fn octal_format_of_name(word: &str) -> Option<OctalFormat>
    ensures { result ≡ octal_format_named word.now }
{
    match word {
        "rows" => Some(OctalFormat::Rows),
        "dump" => Some(OctalFormat::Dump),
        _ => None,
    }
}

//! The options that `compare` and `disassemble` have: which words are taken, and which columns are read.
ghost use Rattle.std.specs.Prelude.{◌≡◌, ◌<◌, ◌^◌, IfOk, option_map};
ghost use Rattle.std.specs.Option.{ForSome};
ghost use Rattle.cps_words.specs.Values as values;
ghost use Rattle.cps_words.specs.Values.{address_named, columns_named, value_from};
ghost use Rattle.cps_words.specs.Code.Reading.{ReadsValue};

use super::numbers::{read_address, read_columns};
use super::unread::{Unread, say_wrong_value};
use cps_claims::ReadColumns;
use std::alloc::Global;

/// Whether a first address isn't above a last one, where both are named.
pub fn are_rising(from: Option<u32>, to: Option<u32>) -> bool
    ensures { result ≡ values.are_rising from to }
{
    match (from, to) {
        (Some(from), Some(to)) => from <= to,
        _ => true,
    }
}

/// The address that an option names, None where it is left out.
pub fn read_address_option(
    alloc: Global,
    option: &str,
    word: Option<&str>,
) -> Result<Option<u32>, Unread>
    ensures address { ReadsValue (value_from address_named (option_map (λ word. word.now) word.entry)) result }
    ensures low { IfOk result (λ address. ForSome address (λ address. address < 2 ^ 18)) }
{
    let Some(word) = word else {
        return Ok(None);
    };
    match read_address(word) {
        Some(address) => Ok(Some(address)),
        None => Err(say_wrong_value(alloc, option, word, "an address is 1 to 6 octal digits")),
    }
}

/// The columns that `--columns` names, None where it is left out.
pub fn read_columns_option(alloc: Global, word: Option<&str>) -> Result<Option<ReadColumns>, Unread>
    ensures { ReadsValue (value_from columns_named (option_map (λ word. word.now) word.entry)) result }
{
    let Some(word) = word else {
        return Ok(None);
    };
    match read_columns(word) {
        Some(columns) => Ok(Some(columns)),
        None => Err(say_wrong_value(
            alloc,
            "--columns <F-L>",
            word,
            "write columns from 1 on, as 10-36, or one column",
        )),
    }
}

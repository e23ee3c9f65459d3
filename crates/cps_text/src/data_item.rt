//! Data items of characters.
ghost use Rattle.std.specs.Prelude.{◌≡◌, ◌==◌, ◌∷◌, ◌≤◌, ◌<◌, Some, None, false, IfSome, MatchOption, length, option_map};
ghost use Rattle.std.specs.List.{list_all, position};
ghost use Rattle.cps_text.specs.DataItem.{ItemParts, BeginsWithItem, cp_characters, is_delimiter, side_named};
ghost use Rattle.cps_text.specs.Digits.{digits_number};
ghost use Rattle.cps_text.specs.Display.{has_display};
ghost use Rattle.cps_text.specs.ItemInFront.{is_count, is_no_digit, digits_len, item_with, counted_behind, counted_item, delimited_at, delimited_behind, delimited_item, item_in_front};
ghost use Rattle.cps_text.specs.ItemValue.{item_value};

use crate::character::{capital, has_display, place_of};
use crate::places::{from, up_to};

/// The most characters of an item for the central processor.
pub const CP_CHARACTERS: usize = 10;

/// The most characters of an item for a peripheral processor.
pub const PP_CHARACTERS: usize = 2;

/// Where the characters of an item stand in its word, and what fills the word.
#[derive(Clone, Copy, PartialEq, Eq)]
pub enum Side {
    /// L: on the left, with zeros behind them.
    Left,
    /// R: on the right, with zeros before them.
    Right,
    /// H: on the left, with blanks behind them.
    LeftWithBlanks,
}

/// A data item of characters.
#[derive(Clone, Copy)]
pub struct TextItem<'a> {
    pub side: Side,
    /// How many characters it stands for: those that are there, and blanks for those past the text's end.
    pub count: usize,
    /// The characters that are there.
    pub characters: &'a [u8],
    /// The text behind the item.
    pub rest: &'a [u8],
}

impl<'a> TextItem<'a> {
    /// The item of at most `most` characters that a text begins with. None: it begins with none.
    pub fn read(text: &'a [u8], most: usize) -> Option<TextItem<'a>>
        requires { most ≤ cp_characters }
        ensures item { IfSome result (λ item. BeginsWithItem most text.now (item_value item)) }
        ensures only { (item : ItemParts) → BeginsWithItem most text.now item → option_map item_value result ≡ Some item }
        ensures computed { option_map item_value result ≡ item_in_front most text.now }
        ensures within { IfSome result (λ item. length item.rest.now < length text.now) }
        ensures few { IfSome result (λ item. (length item.characters.now ≤ item.count) × (item.count ≤ most)) }
    {
        item_in_front(text, most)
    }
}

#[tactic(auto, unfolding(crate::specs::ItemInFront::item_in_front))]
fn item_in_front(text: &[u8], most: usize) -> Option<TextItem<'_>>
    requires { most ≤ cp_characters }
    ensures { option_map item_value result ≡ item_in_front most text.now }
{
    match counted_item(text, most) {
        Some(item) => Some(item),
        None => delimited_item(text, most),
    }
}

/// A count, a letter and so many characters.
#[tactic(auto, using(crate::proofs::ItemReading::no_count))]
fn counted_item(text: &[u8], most: usize) -> Option<TextItem<'_>>
    requires { most ≤ cp_characters }
    ensures { option_map item_value result ≡ counted_item most text.now }
{
    let (digits, behind) = text.split_at(digits_len(text));
    let count = read_count(digits, most)?;
    item_behind_count(behind, count, most)
}

/// How many digits stand in front.
fn digits_len(text: &[u8]) -> usize
    ensures place { result ≡ digits_len text.now }
    ensures within { result ≤ length text.now }
{
    match digits_end(text) {
        Some(at) => at,
        None => text.len(),
    }
}

fn digits_end(text: &[u8]) -> Option<usize>
    ensures place { result ≡ position is_no_digit text.now }
    ensures within { IfSome result (λ at. at < length text.now) }
{
    text.iter().position(|byte| !byte.is_ascii_digit())
}

/// The number that decimal digits make, if it is one from 1 to `most`.
fn read_count(digits: &[u8], most: usize) -> Option<usize>
    requires { most ≤ cp_characters }
    ensures { MatchOption result (is_count most (digits_number 10 digits.now) ≡ false) (λ count. count ≡ digits_number 10 digits.now) }
{
    let mut count: usize = 0;
    for digit in digits {
        count = count * 10 + usize::from(digit.saturating_sub(b'0'));
        if count > most {
            return None;
        }
    }
    if count == 0 { None } else { Some(count) }
}

fn item_behind_count(text: &[u8], count: usize, most: usize) -> Option<TextItem<'_>>
    ensures { option_map item_value result ≡ counted_behind most count text.now }
{
    match text {
        [letter, rest @ ..] => item_with(
            *letter,
            count,
            up_to(rest, count),
            from(rest, count),
            most,
        ),
        [] => None,
    }
}

/// A letter, a delimiter, characters and the delimiter again.
fn delimited_item(text: &[u8], most: usize) -> Option<TextItem<'_>>
    ensures { option_map item_value result ≡ delimited_item most text.now }
{
    match text {
        [letter, rest @ ..] => item_behind_letter(*letter, rest, most),
        [] => None,
    }
}

fn item_behind_letter(letter: u8, text: &[u8], most: usize) -> Option<TextItem<'_>>
    ensures { option_map item_value result ≡ delimited_behind most letter text.now }
{
    match text {
        [delimiter, rest @ ..] => item_behind_delimiter(letter, *delimiter, rest, most),
        [] => None,
    }
}

fn item_behind_delimiter(
    letter: u8,
    delimiter: u8,
    text: &[u8],
    most: usize,
) -> Option<TextItem<'_>>
    ensures { option_map item_value result ≡ delimited_behind most letter (delimiter ∷ text.now) }
{
    if is_delimiter(delimiter) {
        item_up_to(letter, text, place_of(delimiter, text), most)
    } else {
        None
    }
}

/// The item whose second delimiter stands at a place, if at one.
fn item_up_to(
    letter: u8,
    text: &[u8],
    delimiter_at: Option<usize>,
    most: usize,
) -> Option<TextItem<'_>>
    requires { IfSome delimiter_at (λ at. at < length text.now) }
    ensures { option_map item_value result ≡ delimited_at most letter text.now delimiter_at }
{
    let at = delimiter_at?;
    item_with(letter, at, up_to(text, at), from(text, at + 1), most)
}

/// The item of a letter and characters, if it is one.
fn item_with<'a>(
    letter: u8,
    count: usize,
    characters: &'a [u8],
    rest: &'a [u8],
    most: usize,
) -> Option<TextItem<'a>>
    ensures { option_map item_value result ≡ item_with most letter count characters.now rest.now }
{
    if !(1..=most).contains(&count) || !all_have_display(characters) {
        return None;
    }
    let side = side_named(letter)?;
    Some(TextItem {
        side,
        count,
        characters,
        rest,
    })
}

fn side_named(letter: u8) -> Option<Side>
    ensures { result ≡ side_named letter }
{
    match capital(letter) {
        b'L' => Some(Side::Left),
        b'R' => Some(Side::Right),
        b'H' => Some(Side::LeftWithBlanks),
        _ => None,
    }
}

fn is_delimiter(byte: u8) -> bool
    ensures { result ≡ is_delimiter byte }
{
    has_display(byte)
        && !(byte.is_ascii_alphabetic() || byte.is_ascii_digit() || byte == b' ' || byte == b',')
}

fn all_have_display(text: &[u8]) -> bool
    ensures { result ≡ list_all has_display text.now }
{
    text.iter().all(|byte| has_display(*byte))
}

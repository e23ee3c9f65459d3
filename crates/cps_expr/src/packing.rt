//! Characters' display codes in a word.
ghost use Rattle.std.specs.Prelude.{◌≡◌, ◌+◌, ◌-◌, ◌^◌, ◌<◌, ◌≤◌, length, replicate, fold, unwrap_or};
ghost use Rattle.cps_text.specs.DataItem.{cp_characters};
ghost use Rattle.cps_text.specs.Display.{display_of};
ghost use Rattle.cps_text.specs.ItemValue.{item_value};
ghost use Rattle.cps_expr.specs.Item.{blank_code, codes_of, filled, packed, packed_characters, sided, text_word, with_code};

use cps_text::{Side, TextItem, display};

/// The display code of a blank.
const BLANK: u8 = 0o55;

/// Display codes, one behind the other.
#[derive(Clone, Copy)]
struct Packed {
    word: u64,
    count: usize,
    ghost fits: { word < 64 ^ count },
    ghost short: { count ≤ cp_characters },
}

impl Packed {
    fn new() -> Packed
        ensures word { result.word ≡ 0 }
        ensures count { result.count ≡ 0 }
    {
        Packed { word: 0, count: 0 }
    }

    fn push(&mut self, code: u8)
        requires room { self.old.count < cp_characters }
        requires code { code < 64 }
        ensures word { self.new.word ≡ with_code self.old.word code }
        ensures count { self.new.count ≡ self.old.count + 1 }
    {
        self.word = self.word * 64 + u64::from(code);
        self.count += 1;
    }

    fn push_text(&mut self, text: &[u8])
        requires room { self.old.count + length text.now ≤ cp_characters }
        ensures word { self.new.word ≡ fold with_code self.old.word (codes_of text.now) }
        ensures count { self.new.count ≡ self.old.count + length text.now }
    {
        for character in text {
            self.push(code_of(*character));
        }
    }

    /// Pushes a code once for each that is missing.
    fn fill(&mut self, missing: usize, code: u8)
        requires room { self.old.count + missing ≤ cp_characters }
        requires code { code < 64 }
        ensures word { self.new.word ≡ fold with_code self.old.word (replicate missing code) }
        ensures count { self.new.count ≡ self.old.count + missing }
    {
        for _filled in 0..missing {
            self.push(code);
        }
    }
}

/// Up to `most` characters as a word, 6 bits each, with the display code `fill` for each that is missing behind them.
pub fn pack_characters(characters: &[u8], most: usize, fill: u8) -> u64
    requires few { length characters.now ≤ most }
    requires most { most ≤ cp_characters }
    requires fill { fill < 64 }
    ensures word { result ≡ packed_characters most fill characters.now }
    ensures fits { result < 64 ^ most }
{
    let mut packed = Packed::new();
    packed.push_text(characters);
    packed.fill(most - characters.len(), fill);
    packed.word
}

/// The word of an item of characters.
pub(crate) fn text_word(item: TextItem<'_>, most: usize) -> u64
    requires behind { length item.characters.now ≤ item.count }
    requires few { item.count ≤ most }
    requires most { most ≤ cp_characters }
    ensures word { result ≡ text_word most (item_value item.entry) }
    ensures fits { result < 64 ^ most }
{
    match item.side {
        Side::Left => left_word(item.characters, item.count, most),
        Side::Right => right_word(item.characters, item.count, most),
        Side::LeftWithBlanks => blank_word(item.characters, item.count, most),
    }
}

/// Characters and blanks, `count` in all, with zeros behind them.
fn left_word(characters: &[u8], count: usize, most: usize) -> u64
    requires behind { length characters.now ≤ count }
    requires few { count ≤ most }
    requires most { most ≤ cp_characters }
    ensures word { result ≡ packed (sided most Side.Left (filled count blank_code (codes_of characters.now))) }
    ensures fits { result < 64 ^ most }
{
    let mut packed = Packed::new();
    packed.push_text(characters);
    packed.fill(count - characters.len(), BLANK);
    packed.fill(most - count, 0);
    packed.word
}

/// The same with zeros before them.
fn right_word(characters: &[u8], count: usize, most: usize) -> u64
    requires behind { length characters.now ≤ count }
    requires few { count ≤ most }
    requires most { most ≤ cp_characters }
    ensures word { result ≡ packed (sided most Side.Right (filled count blank_code (codes_of characters.now))) }
    ensures fits { result < 64 ^ most }
{
    pack_characters(characters, count, BLANK)
}

/// The same with blanks behind them.
fn blank_word(characters: &[u8], count: usize, most: usize) -> u64
    requires behind { length characters.now ≤ count }
    requires few { count ≤ most }
    requires most { most ≤ cp_characters }
    ensures word { result ≡ packed (sided most Side.LeftWithBlanks (filled count blank_code (codes_of characters.now))) }
    ensures fits { result < 64 ^ most }
{
    pack_characters(characters, most, BLANK)
}

fn code_of(character: u8) -> u8
    ensures code { result ≡ unwrap_or (display_of character) 0 }
    ensures below { result < 64 }
{
    match display(character) {
        Some(code) => code,
        None => 0,
    }
}

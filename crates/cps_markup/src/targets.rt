//! The lines, symbols, words and blocks of a page, to which links can lead.
ghost use Rattle.std.specs.Prelude.{◌≡◌, ◌≤◌, ℕ, IsTrue, IfSome, Some, length};
ghost use Rattle.std.specs.List.{list_any};
ghost use Rattle.cps_text.specs.Name.{name_of};
ghost use Rattle.cps_expr.specs.Value.{same_name};
ghost use Rattle.cps_markup.specs.Links.{HasPlace, IsHome, Leads, is_at, is_defined, is_of};

use crate::digit_lines::DigitLines;
use crate::place::Place;
use cps_text::Name;

/// A symbol of the cross-reference, with the number of the line that defines it, 0 where none does.
#[derive(Clone, Copy, PartialEq, Eq)]
pub struct Entry {
    pub name: Name,
    pub line: u32,
}

/// A word of memory, by the octal digits of its address as if they were decimal, with the number of the first line that has a row there, 0 where none has.
#[derive(Clone, Copy, PartialEq, Eq)]
pub struct WordEntry {
    pub digits: u32,
    pub line: u32,
}

/// What a page has places for: how many lines there are, the symbols in the order of their names, the words and the blocks in that of their addresses.
#[derive(Drop)]
pub struct Targets {
    pub count: u32,
    pub entries: Vec<Entry>,
    pub words: Vec<WordEntry>,
    pub blocks: Vec<Name>,
    /// The lines that made the digits of words.
    pub makers: DigitLines,
}

impl Targets {
    /// Whether a link of these words may lead to a place.
    pub fn allows(&self, words: &[u8], place: Place) -> bool
        ensures { IsTrue result → Leads self.now (record { place = place; words = words.now }) }
    {
        match place {
            Place::Line(number) => self.allows_line(words, number),
            Place::Symbol(name) => self.has_symbol(name),
            Place::Word(digits) => self.has_word(digits),
            Place::Block(name) => is_among(&self.blocks, name),
            Place::Section(_) => true,
        }
    }

    fn allows_line(&self, words: &[u8], number: u32) -> bool
        ensures there { IsTrue result → (1 ≤ number) × (number ≤ self.now.count) }
        ensures home { IsTrue result → IsHome self.now words.now number }
    {
        1 <= number && number <= self.count && self.is_home(words, number)
    }

    /// Whether words are no symbol, or one that a line defines.
    fn is_home(&self, words: &[u8], number: u32) -> bool
        ensures { IsTrue result → IsHome self.now words.now number }
    {
        match Name::read(words) {
            Some(name) => self.is_defined(name, number),
            None => true,
        }
    }

    /// The number of the line that defines the symbol that words are, None where they are none that a line defines.
    pub fn home_of(&self, words: &[u8]) -> Option<u32>
        ensures { IfSome result (λ line. Leads self.now (record { place = Place.Line line; words = words.now })) }
    {
        let Some(name) = Name::read(words) else {
            return None;
        };
        let Some(line) = self.line_of(name) else {
            return None;
        };
        if 1 <= line && line <= self.count {
            Some(line)
        } else {
            None
        }
    }

    fn is_defined(&self, name: Name, number: u32) -> bool
        ensures { IsTrue result → IsTrue (list_any (is_defined name number) self.now.entries.items) }
    {
        match self.line_of(name) {
            Some(line) => line == number,
            None => false,
        }
    }

    /// Whether the cross-reference has a symbol.
    fn has_symbol(&self, name: Name) -> bool
        ensures { IsTrue result → IsTrue (list_any (is_of name) self.now.entries.items) }
    {
        let place = self.place_of(name);
        place < self.entries.len() && name == self.entries[place].name
    }

    /// The number of the line that defines a symbol of the cross-reference, 0 where none does.
    fn line_of(&self, name: Name) -> Option<u32>
        ensures { IfSome result (λ line. IsTrue (list_any (is_defined name line) self.now.entries.items)) }
    {
        let place = self.place_of(name);
        if place >= self.entries.len() {
            return None;
        }
        let entry = self.entries[place];
        if name != entry.name {
            return None;
        }
        Some(entry.line)
    }

    /// How many symbols stand before a name.
    fn place_of(&self, name: Name) -> usize {
        let mut low = 0;
        let mut high = self.entries.len();
        while low < high {
            let middle = low + (high - low) / 2;
            if self.entries[middle].name < name {
                low = middle + 1;
            } else {
                high = middle;
            }
        }
        low
    }

    /// Whether there is a word at an address.
    pub fn has_word(&self, digits: u32) -> bool
        ensures { IsTrue result → IsTrue (list_any (is_at digits) self.now.words.items) }
    {
        let place = self.words_before(digits);
        place < self.words.len() && digits == self.words[place].digits
    }

    /// The number of the first line that has a row at the address of a word, None where there is no such word.
    pub fn line_of_word(&self, digits: u32) -> Option<u32> {
        let word = self.words.get(self.words_before(digits))?;
        if word.digits == digits {
            Some(word.line)
        } else {
            None
        }
    }

    /// Whether there is a word from an address on and before another one.
    pub fn has_words(&self, from: u32, end: u32) -> bool {
        self.words_before(from) < self.words_before(end)
    }

    /// How many words stand before an address.
    fn words_before(&self, digits: u32) -> usize {
        let mut low = 0;
        let mut high = self.words.len();
        while low < high {
            let middle = low + (high - low) / 2;
            if self.words[middle].digits < digits {
                low = middle + 1;
            } else {
                high = middle;
            }
        }
        low
    }
}

/// Whether a block is among some.
pub fn is_among(blocks: &[Name], name: Name) -> bool
    ensures { result ≡ list_any (same_name name) blocks.now }
{
    blocks.iter().any(|block| name == *block)
}

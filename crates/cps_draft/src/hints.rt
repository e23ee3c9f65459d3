use cps_text::Name;
use std::alloc::AllocError;

/// A word of an octal text.
#[derive(Clone, Copy)]
pub struct GivenWord {
    pub address: u32,
    /// The number that the digits are which are given.
    pub value: u64,
    /// How many octal digits are given, from the left: 1 to 20, of a peripheral processor 1 to 4.
    pub digits: u8,
    /// Which of these digits can't be read: bit 0 stands for the first. They count as 0, and the word is data.
    pub unread: u32,
}

/// The words from one address to another, both included.
#[derive(Clone, Copy)]
pub struct AddressRange {
    pub first: u32,
    pub last: u32,
}

/// A name that a person knows: of an address, if the value is that of a word, of a jump or of a cell.
#[derive(Drop)]
pub struct KnownName {
    /// One to eight characters that may be a symbol.
    pub name: Vec<u8>,
    pub value: u64,
}

/// What a person knows of the words.
#[derive(Drop)]
pub struct Hints {
    /// Where execution begins: what is reached from there is code.
    pub entries: Vec<u32>,
    /// Words that are code.
    pub code: Vec<AddressRange>,
    /// Words that are data, also if they are said to be code.
    pub data: Vec<AddressRange>,
    /// The first name of a value counts, and the first value of a name.
    pub names: Vec<KnownName>,
    /// The name in IDENT.
    pub ident: Option<Vec<u8>>,
    /// Whether no comments are written.
    pub is_bare: bool,
}

/// What is known beside the words: by a person, and by the text that gives them.
#[derive(Clone, Copy)]
pub struct Knowledge<'a> {
    pub hints: &'a Hints,
    /// The program's name in the text.
    pub ident: Option<Name>,
    /// None: each row of the text with digits is read.
    pub unread: Option<UnreadRows>,
}

/// Rows of a text that may have digits, and aren't read.
#[derive(Clone, Copy)]
pub struct UnreadRows {
    pub count: usize,
    /// The number of the first, from 1.
    pub first: usize,
}

impl Knowledge<'_> {
    /// Appends the name in IDENT: a person's, else that of the text, else DUMP.
    pub fn push_ident(&self, text: &mut Vec<u8>) -> Result<(), AllocError> {
        match (&self.hints.ident, self.ident) {
            (Some(ident), _) => text.extend_from_slice(ident),
            (None, Some(name)) => text.extend_from_slice(name.text()),
            (None, None) => text.extend_from_slice(b"DUMP"),
        }
    }
}

/// How much of a draft is guessed.
#[derive(Drop)]
pub enum Boldness {
    /// All that a draft can have.
    Draft,
    /// The same, and each word has its address from an ORG, so that no line moves those behind it.
    Placed,
    /// The draft, but the words at these addresses are plain numbers without names.
    Without(Vec<u32>),
    /// Each word is a plain number, and none has a name.
    Plain,
}

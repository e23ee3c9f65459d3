//! What a page tells beside the texts. No contract says anything of it.
use cps_markup::{LineLook, MeantColumns};
use cps_text::Name;
use std::alloc::Global;

/// A cause of a line's flag.
#[derive(Drop)]
pub struct Cause {
    /// The number of the line, from 1; one more than that of the last where the source ends while a range is open.
    pub line: u32,
    pub letter: u8,
    /// The statement that has the flag, where it stands in the line's expansion; else nothing.
    pub statement: Vec<u8>,
    /// Why, as a sentence without its point.
    pub words: Vec<u8>,
}

/// A form of an instruction that occurs.
#[derive(Drop)]
pub struct Form {
    /// With i for the digit of a register.
    pub name: Vec<u8>,
    pub operands: Vec<u8>,
    /// Its octal code, with letters for the fields, in the columns of the listing.
    pub code: Vec<u8>,
    /// What it does; empty where nothing is told of it.
    pub sentence: Vec<u8>,
    /// How often it occurs.
    pub count: u32,
}

/// What is told of the code in a row of the listing.
#[derive(Clone, Copy)]
pub struct CodeNote {
    /// The number of the line, from 1.
    pub line: u32,
    /// How many rows of the line stand before it.
    pub row: u32,
    /// How many forms stand before that of its instruction, if it has one.
    pub form: Option<u32>,
    /// How many digits of its word stand before it.
    pub shift: u8,
    /// Of a later row the operand that made it.
    pub operand: OperandColumns,
}

/// An operand of a statement: behind so many of its characters, up to so many; none where these are the same.
#[derive(Clone, Copy)]
pub struct OperandColumns {
    pub before: u8,
    pub behind: u8,
}

/// What a block is called.
#[derive(Clone, Copy)]
pub enum BlockName {
    Nominal,
    Literals,
    Named(Name),
}

impl BlockName {
    /// As the page shows it.
    pub fn text(&self) -> &[u8] {
        match self {
            BlockName::Nominal => b"nominal",
            BlockName::Literals => b"literals",
            BlockName::Named(name) => name.text(),
        }
    }
}

/// Words of memory that stand together.
#[derive(Clone, Copy)]
pub struct Block {
    pub name: BlockName,
    /// The address of its first word.
    pub address: u64,
    /// How many words it has.
    pub words: u64,
}

/// What a page tells beside the texts.
#[derive(Drop)]
pub struct Beside {
    /// By their lines.
    pub causes: Vec<Cause>,
    /// What each of these means in its statement; causes behind these mean nothing there.
    pub meant: Vec<MeantColumns>,
    pub forms: Vec<Form>,
    /// By their lines and rows.
    pub codes: Vec<CodeNote>,
    /// By their addresses.
    pub blocks: Vec<Block>,
    /// By the lines; those behind these look plain.
    pub looks: Vec<LineLook>,
}

impl Beside {
    /// Nothing. Takes no memory.
    pub fn nothing(alloc: Global) -> Beside {
        Beside {
            causes: Vec::new(alloc),
            meant: Vec::new(alloc),
            forms: Vec::new(alloc),
            codes: Vec::new(alloc),
            blocks: Vec::new(alloc),
            looks: Vec::new(alloc),
        }
    }
}

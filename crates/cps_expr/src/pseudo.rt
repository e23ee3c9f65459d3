//! The rows of the statement table: what an operation's operands say.
use crate::expr::Expr;
use crate::operation::Relation;
use crate::radix::Radix;
use crate::sequence::Sequence;
use cps_text::Name;

/// The block that USE names.
#[derive(Clone, Copy, PartialEq, Eq)]
pub enum Block {
    Nominal,
    /// The block that was in use before.
    Previous,
    Named(Name),
}

/// A field of VFD: its width in bits, and its value.
#[derive(Drop)]
pub struct Field {
    pub width: Expr,
    pub value: Expr,
}

/// What DIS writes.
#[derive(Drop)]
pub enum DisText {
    /// Characters for a number of words.
    Counted(Expr, Sequence<u8>),
    /// The characters between two delimiters.
    Delimited(Sequence<u8>),
}

/// The test of two expressions.
#[derive(Drop)]
pub struct ValueTest {
    pub relation: Relation,
    pub left: Expr,
    pub right: Expr,
    /// How many lines hang on it; None where ENDIF ends them.
    pub lines: Option<Expr>,
}

/// The test of a symbol.
#[derive(Drop)]
pub struct SymbolTest {
    /// Whether it holds for a defined symbol, and not for an undefined one.
    pub is_defined: bool,
    pub symbol: Name,
    /// How many lines hang on it; None where ENDIF ends them.
    pub lines: Option<Expr>,
}

/// Lines that are assembled more than once.
#[derive(Drop)]
pub struct Repetition {
    pub count: Expr,
    /// How many lines; None where ENDD ends them.
    pub lines: Option<Expr>,
}

/// A row of the statement table.
#[derive(Drop)]
pub enum Pseudo {
    Ident(Name),
    Abs,
    Periph,
    Base(Radix),
    Equate(Expr),
    Set(Expr),
    Org(Expr),
    Use(Block),
    Bss(Expr),
    Bssz(Expr),
    Con(Sequence<Expr>),
    /// The words of the data items.
    Data(Sequence<u64>),
    Vfd(Sequence<Field>),
    Dis(DisText),
    Compare(ValueTest),
    If(SymbolTest),
    Else,
    Endif,
    Dup(Repetition),
    Endd,
    /// The parameters.
    Macro(Sequence<Name>),
    /// The local names.
    Local(Sequence<Name>),
    Endm,
    End,
    Listing,
}

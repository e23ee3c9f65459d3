//! A word of a line, as it is told.
ghost use Rattle.std.specs.Prelude.{◌≡◌};
ghost use Rattle.cps_server.specs.Tokens as tokens;

/// What a word is, in the order of the legend.
#[derive(Clone, Copy, Debug, PartialEq, Eq)]
pub enum TokenKind {
    /// The operation of a statement or of an instruction.
    Keyword,
    Macro,
    /// A parameter or a local name of a macro.
    Parameter,
    /// A symbol.
    Variable,
    /// A block, or the program's name.
    Namespace,
    /// A register.
    Property,
    Number,
    /// Characters of a literal, of a data item, of DIS or of TITLE.
    Text,
    Comment,
}

/// What a word is, and what else is told of it.
#[derive(Clone, Copy, Debug, PartialEq, Eq)]
pub struct Nature {
    pub kind: TokenKind,
    pub is_definition: bool,
    /// Whether EQU gave it its value.
    pub is_readonly: bool,
}

/// A word of a line, from so many units up to others. The line counts from 0.
#[derive(Clone, Copy)]
pub struct Token {
    pub line: u32,
    pub start: u32,
    pub end: u32,
    pub nature: Nature,
}

impl TokenKind {
    /// Its place in the legend.
    pub fn number(self) -> u32
        ensures { result ≡ tokens.kind_number self }
    {
        match self {
            TokenKind::Keyword => 0,
            TokenKind::Macro => 1,
            TokenKind::Parameter => 2,
            TokenKind::Variable => 3,
            TokenKind::Namespace => 4,
            TokenKind::Property => 5,
            TokenKind::Number => 6,
            TokenKind::Text => 7,
            TokenKind::Comment => 8,
        }
    }
}

impl Nature {
    /// Of words that no name makes.
    pub fn of(kind: TokenKind) -> Nature {
        Nature {
            kind,
            is_definition: false,
            is_readonly: false,
        }
    }

    /// A bit for each modifier of the legend.
    pub fn modifiers(self) -> u32
        ensures { result ≡ tokens.modifiers_of self }
    {
        let definition = if self.is_definition { 1 } else { 0 };
        let readonly = if self.is_readonly { 2 } else { 0 };
        definition + readonly
    }
}

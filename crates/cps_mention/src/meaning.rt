//! What a name means.
ghost use Rattle.std.specs.Prelude.{◌≡◌};
ghost use Rattle.cps_mention.specs.Mentions.{name_in};
ghost use Rattle.cps_mention.specs.Spots.{macro_line, meaning_kind, same_meaning};

use cps_expr::is_same_name;
use cps_text::Name;

/// What a name means.
#[derive(Clone, Copy, Debug, PartialEq, Eq, PartialOrd, Ord)]
pub enum Meaning {
    Symbol(Name),
    Macro(Name),
    Block(Name),
    /// The program's own name.
    Program(Name),
    /// A parameter of the macro whose MACRO stands in this line, from 1.
    Parameter(u32, Name),
    /// A local name of that macro.
    Local(u32, Name),
}

impl Meaning {
    /// The name as it is written.
    pub fn name(self) -> Name
        ensures { result ≡ name_in self }
    {
        match self {
            Meaning::Symbol(name) => name,
            Meaning::Macro(name) => name,
            Meaning::Block(name) => name,
            Meaning::Program(name) => name,
            Meaning::Parameter(_, name) => name,
            Meaning::Local(_, name) => name,
        }
    }

    /// A thing of the same kind that is called otherwise.
    pub fn with_name(self, name: Name) -> Meaning
        ensures { name_in result ≡ name }
    {
        match self {
            Meaning::Symbol(_) => Meaning::Symbol(name),
            Meaning::Macro(_) => Meaning::Macro(name),
            Meaning::Block(_) => Meaning::Block(name),
            Meaning::Program(_) => Meaning::Program(name),
            Meaning::Parameter(line, _) => Meaning::Parameter(line, name),
            Meaning::Local(line, _) => Meaning::Local(line, name),
        }
    }

    /// Whether it is of a macro. What a body says of these is told of a macro that nothing calls, too.
    pub fn is_of_macro(self) -> bool {
        match self {
            Meaning::Macro(_) | Meaning::Parameter(..) | Meaning::Local(..) => true,
            _ => false,
        }
    }

    /// Whether it is the same as another.
    pub fn equals(self, other: Meaning) -> bool
        ensures { result ≡ same_meaning self other }
    {
        self.kind() == other.kind()
            && self.macro_line() == other.macro_line()
            && is_same_name(self.name(), other.name())
    }

    fn kind(self) -> u8
        ensures { result ≡ meaning_kind self }
    {
        match self {
            Meaning::Symbol(_) => 0,
            Meaning::Macro(_) => 1,
            Meaning::Block(_) => 2,
            Meaning::Program(_) => 3,
            Meaning::Parameter(..) => 4,
            Meaning::Local(..) => 5,
        }
    }

    /// The line of the MACRO of whose macro it is; 0: of none.
    fn macro_line(self) -> u32
        ensures { result ≡ macro_line self }
    {
        match self {
            Meaning::Parameter(line, _) | Meaning::Local(line, _) => line,
            _ => 0,
        }
    }
}

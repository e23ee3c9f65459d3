//! The operations of the language's statements.
ghost use Rattle.std.specs.Prelude.{◌≡◌};
ghost use Rattle.cps_expr.specs.Operation.{operations, table_value, beginning_with, named_in, operation_named};

use crate::text::is_same;
use cps_text::capital;

/// How the IF of two expressions compares their values.
#[derive(Clone, Copy, Debug, PartialEq, Eq)]
pub enum Relation {
    Equal,
    NotEqual,
    Greater,
    GreaterOrEqual,
    Less,
    LessOrEqual,
}

/// An operation of a statement that is no instruction and no macro's call.
#[derive(Clone, Copy, Debug, PartialEq, Eq)]
pub enum Operation {
    Ident,
    Abs,
    Periph,
    Base,
    /// EQU and `=`
    Equate,
    Set,
    Org,
    Use,
    Bss,
    Bssz,
    Con,
    Data,
    Vfd,
    Dis,
    /// IFEQ, IFNE, IFGT, IFGE, IFLT and IFLE
    Compare(Relation),
    If,
    Else,
    Endif,
    Dup,
    Endd,
    Macro,
    Local,
    Endm,
    End,
    /// TITLE, SPACE, EJECT and LIST
    Listing,
}

impl Operation {
    /// The operation of a name, in capitals or not.
    pub fn named(text: &[u8]) -> Option<Operation>
        ensures { result ≡ operation_named text.now }
    {
        match text {
            [first, ..] => named_in(operations_with(capital(*first)), text),
            [] => None,
        }
    }
}

/// The operations whose names begin with a letter, or with `=`.
#[tactic(auto, unfolding(crate::specs::Operation::operations))]
fn operations_with(letter: u8) -> &'static [(&'static [u8], Operation)]
    ensures { table_value result.now ≡ beginning_with letter operations }
{
    match letter {
        b'A' => &[(b"ABS", Operation::Abs)],
        b'B' => &[
            (b"BASE", Operation::Base),
            (b"BSS", Operation::Bss),
            (b"BSSZ", Operation::Bssz),
        ],
        b'C' => &[(b"CON", Operation::Con)],
        b'D' => &[
            (b"DATA", Operation::Data),
            (b"DIS", Operation::Dis),
            (b"DUP", Operation::Dup),
        ],
        b'E' => &[
            (b"EQU", Operation::Equate),
            (b"ELSE", Operation::Else),
            (b"ENDIF", Operation::Endif),
            (b"ENDD", Operation::Endd),
            (b"ENDM", Operation::Endm),
            (b"END", Operation::End),
            (b"EJECT", Operation::Listing),
        ],
        b'I' => &[
            (b"IDENT", Operation::Ident),
            (b"IFEQ", Operation::Compare(Relation::Equal)),
            (b"IFNE", Operation::Compare(Relation::NotEqual)),
            (b"IFGT", Operation::Compare(Relation::Greater)),
            (b"IFGE", Operation::Compare(Relation::GreaterOrEqual)),
            (b"IFLT", Operation::Compare(Relation::Less)),
            (b"IFLE", Operation::Compare(Relation::LessOrEqual)),
            (b"IF", Operation::If),
        ],
        b'L' => &[(b"LOCAL", Operation::Local), (b"LIST", Operation::Listing)],
        b'M' => &[(b"MACRO", Operation::Macro)],
        b'O' => &[(b"ORG", Operation::Org)],
        b'P' => &[(b"PERIPH", Operation::Periph)],
        b'S' => &[(b"SET", Operation::Set), (b"SPACE", Operation::Listing)],
        b'T' => &[(b"TITLE", Operation::Listing)],
        b'U' => &[(b"USE", Operation::Use)],
        b'V' => &[(b"VFD", Operation::Vfd)],
        b'=' => &[(b"=", Operation::Equate)],
        _ => &[],
    }
}

fn named_in(table: &[(&[u8], Operation)], text: &[u8]) -> Option<Operation>
    ensures { result ≡ named_in (table_value table.now) text.now }
{
    for (name, operation) in table {
        if is_same(text, name) {
            return Some(*operation);
        }
    }
    None
}

//! What is told of the letter of a flag: the rows of the tables of the language's page on flags, and in the same words.
ghost use Rattle.std.specs.Prelude.{◌≡◌, is_some};
ghost use Rattle.cps_check.specs.Manual.{is_flag, is_flag_letter};

use cps_text::capital;

const A: &str = "\
A: an operand, or its value: see below
- operands that the operation doesn't take, or that can't be read: of an instruction, VFD, or a statement of words: nothing is made; the statement still forces and defines its symbol (Statements, Location fields, Words)
- such operands of another statement of the table, as IDENT without a symbol, or BASE with neither O nor D: nothing (Statements)
- an expression now that has no value: the statement makes nothing; in IFs and DUP see below (Symbols and expressions)
- an expression later that has no value: it counts as 0 (Symbols and expressions)
- a count n of an instruction below 0: 0 is put (Set instructions)
- a target that is too far: d is 0 (Peripheral processors)
- ORG to a value below 0: nothing (Statements)
- BSS or BSSZ of a number below 0 or in a block: no word is reserved or made (Words)
- the count of DIS in a block, below 1 or above 100; a DIS whose second delimiter is missing: no word is made (Words)
- a data item that doesn't fit the word: no word is made (Words)
- a width of VFD without a value: no field is made (Words)
- USE with another operand than none, 0, * or a symbol: nothing (Blocks)
- IFEQ to IFLE: values that are neither both plain nor both in one block, or a value that is none: the test counts as false (Conditions)
- an IF whose operands can't be read: it begins no range and skips nothing (Conditions)
- the number of lines of an IF in a block, not from 0 to 9,999, or without a value: nothing is skipped (Conditions)
- how often a DUP repeats: below 0, in a block, or without a value: it counts as 0 (Repetition)
- the number of lines of a DUP in a block, not from 1 to 500, or without a value; a DUP whose operands can't be read: nothing is kept (Repetition)
- a parameter of MACRO that is no symbol, has = or stands twice: the body is dropped at its ENDM (Macros)
- a call with a parenthesis that stays open, or with more arguments than parameters: nothing is opened; a symbol is defined all the same (Macros)
- LOCAL without operands, or with a name that is no symbol, has =, stands twice or is taken: the line names nothing (Local names)
";

const D: &str = "\
D: the location symbol has a value already; for SET, one that isn't from SET
";

const E: &str = "\
E: the order of the lines, or a limit: see below
- a second IDENT, a second ABS or PERIPH, or one of them after the head (Statements)
- a line after END (Statements)
- a line with , in column 1 (Lines)
- ORG above the machine's limit (Statements)
- an instruction that would pass the machine's words (Statements, Words and forcing)
- a statement of words or fields that would pass them (Words)
- a row whose address, or whose literal's, is the machine's limit or above; not that of ORG or of a call (Blocks, Words)
- a 65th named block (Blocks)
- a 21st open range (Conditions)
- an ELSE or an ENDIF without a range, or a second ELSE (Conditions)
- END, or the end of the source, where a range is open or lines are skipped or kept (Conditions)
- DUP more than 1,000 times (Repetition)
- a line that isn't kept because 500 are, and the line that ends such lines (Repetition, Macros)
- ENDD where no lines are kept (Repetition)
- ENDM where no lines are kept (Macros)
- a MACRO in the body of a macro (Macros)
- a statement of an expansion above 90 characters (Macros)
- a LOCAL that is no LOCAL line of a macro (Local names)
- END, MACRO and ENDM in an expansion (Expansions)
- the last statement of an expansion that keeps lines for a DUP (Expansions)
- a line that is dropped (Expansions)
";

const L: &str = "\
L: a location field that the statement doesn't take; EQU, =, SET or MACRO without a symbol; a macro with the name of an operation, LOCAL too
";

const O: &str = "\
O: no operation, or one that isn't known in a program of this machine and is no macro
";

const T: &str = "\
T: a value that was cut
";

const U: &str = "\
U: a symbol that has no value: see below
- CON, a value of VFD or an instruction names a symbol that no line gives a value as a label, and no line above by SET: it counts as 0 (Symbols and expressions, SET)
- EQU, =, SET or ORG names a symbol that no line above gives a value: the statement makes nothing (Symbols and expressions)
- BSS, BSSZ or the count of DIS names such a symbol: no word is reserved or made; the statement's own symbol is defined (Words)
- a width of VFD names such a symbol: no field is made (Words)
- the test of IFEQ to IFLE names such a symbol: it counts as false (Conditions)
- the number of lines of an IF names such a symbol: nothing is skipped (Conditions)
- the first number of a DUP names such a symbol: it counts as 0 (Repetition)
- the number of lines of a DUP names such a symbol: nothing is kept (Repetition)
";

const V: &str = "\
V: a width of VFD that isn't plain, or isn't from 1 to 60
";

/// What is told of a word, if it is the letter of a flag, in capitals or not.
pub fn flag_text(word: &[u8]) -> Option<&'static str>
    ensures { is_some result ≡ is_flag word.now }
{
    match word {
        [letter] => letter_text(capital(*letter)),
        _ => None,
    }
}

fn letter_text(letter: u8) -> Option<&'static str>
    ensures { is_some result ≡ is_flag_letter letter }
{
    match letter {
        b'A' => Some(A),
        b'D' => Some(D),
        b'E' => Some(E),
        b'L' => Some(L),
        b'O' => Some(O),
        b'T' => Some(T),
        b'U' => Some(U),
        b'V' => Some(V),
        _ => None,
    }
}

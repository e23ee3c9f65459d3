//! What is told of a statement: the rows of the language's table of statements, in the same words.

use cps_expr::Operation;

const IDENT: &str = "\
IDENT
Operands: a symbol, the first operand; the rest isn't read
Effect: names the program. E if another one named it before, or if it stands after the head
";

const ABS: &str = "\
ABS
Operands: not read
Effect: a program of the central processor, which a program with neither ABS nor PERIPH is too. E if one of the two stands before it, or if it stands after the head; it does nothing then
";

const PERIPH: &str = "\
PERIPH
Operands: not read
Effect: a program of a peripheral processor: words of 12 bits, and its own instructions. E if one of ABS and PERIPH stands before it, or if it stands after the head; it does nothing then
";

const BASE: &str = "\
BASE
Operands: the first character of the first operand, O or D
Effect: numbers without a letter are octal or decimal from the next line on
";

const EQUATE: &str = "\
EQU, =
Operands: one expression, now
Effect: gives the location symbol its value
";

const SET: &str = "\
SET
Operands: one expression, now
Effect: gives the location symbol a value, which a later SET may change; D where it is a label or was given a value by EQU, which it keeps
";

const ORG: &str = "\
ORG
Operands: one expression, now, 0 or more
Effect: the next word is at that address. A word that was begun is left first, as for a forcing. A value in a named block selects that block, a plain one the nominal block. E above 131,072, in a peripheral processor above 4,096
";

const USE: &str = "\
USE
Operands: none, 0, * or a symbol
Effect: the nominal block, the block before, or a named one: see Blocks. E where it would begin a 65th named block
";

const BSS: &str = "\
BSS
Operands: one expression, now: plain, 0 or more
Effect: reserves so many words
";

const BSSZ: &str = "\
BSSZ
Operands: one expression, now: plain, 0 or more
Effect: makes so many words of zeros
";

const CON: &str = "\
CON
Operands: one or more expressions, later
Effect: a word for each
";

const DATA: &str = "\
DATA
Operands: one or more data items
Effect: a word for each
";

const VFD: &str = "\
VFD
Operands: one or more of n/e: a width now, and a value later
Effect: fields of n bits
";

const DIS: &str = "\
DIS
Operands: n,text, or ,dtextd with a delimiter d
Effect: words of characters
";

const COMPARE: &str = "\
IFEQ IFNE IFGT IFGE IFLT IFLE
Operands: two expressions, now, and perhaps a third, the number of lines
Effect: the lines that follow hang on the comparison: see Conditions. E where it would begin a 21st open range
";

const IF: &str = "\
IF
Operands: DEF or -DEF, a symbol, and perhaps the number of lines, now
Effect: the lines that follow hang on whether the symbol is defined above: see Conditions. E where it would begin a 21st open range
";

const ELSE: &str = "\
ELSE
Operands: not read
Effect: turns the range round. E without a range, or if it is the range's second
";

const ENDIF: &str = "\
ENDIF
Operands: not read
Effect: ends the range. E without one
";

const DUP: &str = "\
DUP
Operands: one or two expressions, now: how often, and perhaps the number of lines
Effect: keeps the lines that follow and repeats them: see Repetition. E above 1,000 times
";

const ENDD: &str = "\
ENDD
Operands: not read
Effect: ends the lines of a DUP without a number of lines. E where no lines are kept
";

const MACRO: &str = "\
MACRO
Operands: none or more symbols without =, no two the same
Effect: begins the body of the macro that the location symbol names, with these parameters: see Macros
";

const LOCAL: &str = "\
LOCAL
Operands: one or more symbols without =, no two the same, none a parameter of the macro or a local name of the call already
Effect: names that each call of a macro has for itself, at the beginning of the macro's body: see Local names. E elsewhere
";

const ENDM: &str = "\
ENDM
Operands: not read
Effect: ends the body of a macro. E where no lines are kept
";

const END: &str = "\
END
Operands: not read
Effect: ends the program, also where lines are skipped or kept; a word that was begun is left first. E if a range is open or lines are skipped or kept. Each later line that is no comment is flagged E and does nothing
";

const LISTING: &str = "\
TITLE SPACE EJECT LIST
Operands: not read
Effect: accepted and listed, and does nothing
";

/// What is told of a statement.
pub fn statement_text(operation: Operation) -> &'static str {
    match operation {
        Operation::Ident => IDENT,
        Operation::Abs => ABS,
        Operation::Periph => PERIPH,
        Operation::Base => BASE,
        Operation::Equate => EQUATE,
        Operation::Set => SET,
        Operation::Org => ORG,
        Operation::Use => USE,
        Operation::Bss => BSS,
        Operation::Bssz => BSSZ,
        Operation::Con => CON,
        Operation::Data => DATA,
        Operation::Vfd => VFD,
        Operation::Dis => DIS,
        Operation::Compare(_) => COMPARE,
        Operation::If => IF,
        Operation::Else => ELSE,
        Operation::Endif => ENDIF,
        Operation::Dup => DUP,
        Operation::Endd => ENDD,
        Operation::Macro => MACRO,
        Operation::Local => LOCAL,
        Operation::Endm => ENDM,
        Operation::End => END,
        Operation::Listing => LISTING,
    }
}

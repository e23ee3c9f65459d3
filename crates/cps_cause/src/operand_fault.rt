//! Why operands can't be read.
use crate::hints::push_register_in;
use crate::misreading::Misreading;
use crate::no_symbol::push_no_symbol;
use crate::quotation::Quotation;
use crate::wording::{Wording, push_number, push_quoted};
use cps_expr::Operation;
use std::alloc::AllocError;

/// What is wrong with operands that can't be read.
#[derive(Clone, Copy, PartialEq, Eq)]
pub enum OperandFault {
    /// There are fewer than the operation has.
    Missing,
    /// There are more than it has.
    TooMany,
    /// An operand is no expression.
    NoExpression(Misreading),
    /// An operand is no symbol.
    NoName,
    /// BASE has neither O nor D.
    Base,
    /// USE has no symbol, 0, `*` or nothing.
    Block,
    /// A text is no data item.
    Item,
    /// Something stands behind the characters of a data item, which are so many.
    CountedItem(usize),
    /// A field of VFD has no `/`.
    NoSlash,
    /// DIS has no comma.
    DisComma,
    /// No delimiter stands behind the comma of DIS.
    DisDelimiter,
    /// The text of DIS has no second delimiter.
    DisOpen,
    /// A character has no display code.
    NoDisplayCode,
    /// IF has neither DEF nor -DEF.
    DefinedTest,
    /// An operand is no parameter of a macro, or no local name.
    Parameter,
    /// A parameter or a local name stands twice.
    ParameterTwice,
    /// The instruction has no form for operands that are readable by themselves.
    Form,
    /// A literal is no data item, or none may stand there.
    Literal,
    /// A call has more arguments than the macro has parameters, which are so many.
    ArgumentsTooMany(usize),
    /// A parenthesis of a call stays open.
    ParenthesisOpen,
}

impl OperandFault {
    /// Appends the words.
    pub(crate) fn push_words(
        self,
        text: &mut Wording,
        quotation: Quotation<'_>,
    ) -> Result<(), AllocError> {
        let shown = quotation.shown;
        match self {
            OperandFault::Missing => push_missing(text, quotation),
            OperandFault::TooMany => push_too_many(text, quotation.operation),
            OperandFault::NoExpression(misread) => misread.push_words(text, shown),
            OperandFault::NoName => push_no_symbol(text, shown),
            OperandFault::Form => push_no_form(text, quotation),
            OperandFault::Literal => {
                push_quoted(text, b"", shown, b" is no literal that ")?;
                push_quoted(text, b"", quotation.operation, b" takes")
            }
            OperandFault::ArgumentsTooMany(count) => push_arguments(text, count),
            OperandFault::CountedItem(count) => push_counted(text, shown, count),
            _ => push_quoted(text, self.front(), shown, self.rest()),
        }
    }

    /// What is told before the text that is quoted.
    fn front(self) -> &'static [u8] {
        match self {
            OperandFault::Base => b"BASE takes O or D, and not ",
            OperandFault::Block => b"USE takes a symbol, 0, * or nothing, and not ",
            OperandFault::NoSlash => b"a field is its bits, / and its value, and no / stands in ",
            OperandFault::DisComma => b"DIS takes n,text or ,dtextd, and no comma stands in ",
            OperandFault::DisDelimiter => b"no delimiter, which is no blank, stands behind ",
            OperandFault::DisOpen => b"no second delimiter ends ",
            OperandFault::DefinedTest => b"IF takes DEF or -DEF first, and not ",
            OperandFault::ParenthesisOpen => b"a parenthesis stays open: ",
            _ => b"",
        }
    }

    /// What is told behind it.
    fn rest(self) -> &'static [u8] {
        match self {
            OperandFault::Item => b" is no data item that a word holds",
            OperandFault::NoDisplayCode => b" has no display code",
            OperandFault::Parameter =>
                b" is no symbol without =, as a parameter or a local name is",
            OperandFault::ParameterTwice => b" is a parameter or a local name already",
            _ => b"",
        }
    }
}

/// Appends that an instruction has no form for its operands.
fn push_no_form(text: &mut Wording, quotation: Quotation<'_>) -> Result<(), AllocError> {
    push_quoted(text, b"no form of ", quotation.operation, b" takes ")?;
    text.push(quotation.shown)?;
    if quotation.is_parted {
        return text.push(b"; operands end at the first blank");
    }
    push_register_in(text, quotation.shown)
}

/// Appends that an operand is missing.
fn push_missing(text: &mut Wording, quotation: Quotation<'_>) -> Result<(), AllocError> {
    let missing: &[u8] = if quotation.shown == quotation.operation {
        b", and none stands here"
    } else {
        b", and fewer stand here"
    };
    push_rule(text, quotation.operation, missing)?;
    if quotation.has_comment_alone {
        text.push(b"; what begins in column 30 or later is a comment")?;
    }
    Ok(())
}

/// Appends that there are more operands than an operation has.
fn push_too_many(text: &mut Wording, operation: &[u8]) -> Result<(), AllocError> {
    match Operation::named(operation) {
        Some(_) => push_rule(text, operation, b", and no more"),
        None => push_quoted(text, b"", operation, b" takes fewer operands"),
    }
}

/// Appends what operands an operation takes.
fn push_rule(text: &mut Wording, operation: &[u8], behind: &[u8]) -> Result<(), AllocError> {
    push_quoted(text, b"", operation, b" takes ")?;
    push_quoted(text, b"", rule_of(operation), behind)
}

/// What operands an operation takes.
fn rule_of(operation: &[u8]) -> &'static [u8] {
    match Operation::named(operation) {
        Some(Operation::Ident) => b"the name of the program",
        Some(Operation::Base) => b"O or D",
        Some(Operation::Con) => b"one value or more",
        Some(Operation::Data) => b"one data item or more",
        Some(Operation::Vfd) => b"one field or more",
        Some(Operation::Dis) => b"n,text or ,dtextd",
        Some(Operation::Compare(_)) => b"two values, and perhaps a number of lines",
        Some(Operation::If) => b"DEF or -DEF, a symbol, and perhaps a number of lines",
        Some(Operation::Dup) => b"a number of times, and perhaps a number of lines",
        Some(Operation::Local) => b"one name or more",
        Some(_) => b"one operand",
        None => b"an operand",
    }
}

/// Appends that something stands behind so many characters of a data item.
fn push_counted(text: &mut Wording, shown: &[u8], count: usize) -> Result<(), AllocError> {
    let number = i64::try_from(count).unwrap_or(0);
    push_quoted(text, b"", shown, b" takes ")?;
    push_number(
        text,
        b"",
        number,
        b" characters, and no comma and no blank stands behind them",
    )
}

/// Appends that a call has too many arguments for so many parameters.
fn push_arguments(text: &mut Wording, count: usize) -> Result<(), AllocError> {
    let number = i64::try_from(count).unwrap_or(0);
    let behind: &[u8] = if count == 1 {
        b" parameter, and arguments are too many from here on"
    } else {
        b" parameters, and arguments are too many from here on"
    };
    push_number(text, b"the macro has ", number, behind)
}

//! Notes: what may stand in a line and is often not meant so.
ghost use Rattle.std.specs.Prelude.{◌<◌, length, IfOk};
ghost use Rattle.cps_cause.specs.Sentence.{IsSentence};

use cps_cause::{Card, Columns, Wording, filled_len};
use cps_code::is_builtin;
use cps_expr::Operation;
use cps_state::{Answer, Asked, Key, Phase, Trace, control_of, macro_of};
use cps_text::{Fields, Name, capital};
use std::alloc::{AllocError, Global};

/// What brings in the text of a common deck where decks are kept, and is a comment here.
const CALL: &[u8] = b"*CALL";

/// The columns of a line that a statement has.
const STATEMENT_COLUMNS: usize = 72;

/// What a note says.
#[derive(Clone, Copy, PartialEq, Eq)]
pub enum Remark {
    /// The line begins with `*CALL`.
    Call,
    /// It stands behind the end of the program.
    BehindEnd,
    /// It begins a program that nothing ends.
    NoEnd,
    /// No line reads the symbol that the line defines.
    Unread(Name),
    /// It may have operands, and has none but text in column 30 or later.
    FarOperands,
    /// Its operands end in column 72, and what stands behind goes on.
    CutOperands,
    /// An operator and an element, a register or a number stand one blank behind its operands.
    PartedOperands,
}

/// A note, and where it shows in its line.
#[derive(Clone, Copy, PartialEq, Eq)]
pub struct Note {
    pub columns: Columns,
    pub remark: Remark,
}

impl Remark {
    /// What it says.
    pub fn words(self, alloc: Global) -> Result<Wording, AllocError>
        ensures { IfOk result (λ words. IsSentence words) }
    {
        let mut words = Wording::new(alloc);
        words.push(self.front())?;
        if let Remark::Unread(name) = self {
            words.push(name.text())?;
        }
        Ok(words)
    }

    /// What it says, but for a name behind it.
    fn front(self) -> &'static [u8]
        ensures { 0 < length result.now }
    {
        match self {
            Remark::Call => b"*CALL is a comment here, and brings no text in",
            Remark::BehindEnd => {
                b"nothing behind END is assembled; another program is a source of its own"
            }
            Remark::NoEnd => b"no END stands behind it; the last lines may be missing",
            Remark::Unread(_) => b"nothing reads ",
            Remark::FarOperands => {
                b"no operand stands here; what begins in column 30 or later is a comment"
            }
            Remark::CutOperands => b"operands end in column 72; what stands behind isn't read",
            Remark::PartedOperands => b"operands end at the first blank; this is a comment",
        }
    }
}

/// The notes that a line may have that does this, by column. Those of the end of the program, of one without an end and of what nothing reads are told only
/// where other lines bear them out.
pub fn notes_within(
    alloc: Global,
    card: &Card<'_>,
    trace: &Trace,
) -> Result<Vec<Note>, AllocError> {
    let mut notes = Vec::new(alloc);
    push_some(&mut notes, find_call(card.text))?;
    push_some(&mut notes, find_behind_end(card, trace))?;
    push_some(&mut notes, find_no_end(card, trace))?;
    push_some(&mut notes, find_unread(card, trace))?;
    push_some(&mut notes, find_far_operands(card, trace)?)?;
    push_some(&mut notes, find_parted_operands(card, trace))?;
    push_some(&mut notes, find_cut_operands(card, trace))?;
    Ok(notes)
}

fn push_some(notes: &mut Vec<Note>, note: Option<Note>) -> Result<(), AllocError> {
    if let Some(note) = note {
        notes.push(note)?;
    }
    Ok(())
}

/// A line that begins with `*CALL`, in capitals or not, and goes on with a blank or a comma, if at all.
fn find_call(line: &[u8]) -> Option<Note> {
    if line.len() < CALL.len() {
        return None;
    }
    let (front, rest) = line.split_at(CALL.len());
    for (at, byte) in front.iter().enumerate() {
        if capital(*byte) != CALL[at] {
            return None;
        }
    }
    match rest {
        [] | [b' ' | b',', ..] => Some(Note {
            columns: Columns::behind(0, CALL.len()),
            remark: Remark::Call,
        }),
        _ => None,
    }
}

/// A line that is no comment behind the end of the program.
fn find_behind_end(card: &Card<'_>, trace: &Trace) -> Option<Note> {
    if let Fields::Comment = card.fields {
        return None;
    }
    if !stands_behind_end(trace) {
        return None;
    }
    Some(Note {
        columns: card.operation_or_all(),
        remark: Remark::BehindEnd,
    })
}

/// Whether the program had ended in front of a line that did this.
pub fn stands_behind_end(trace: &Trace) -> bool {
    for asked in trace.asks() {
        if let (Key::Control, Some(Answer::Control(control, _))) = (asked.key, &asked.answer) {
            return control.phase == Phase::AfterEnd;
        }
    }
    false
}

/// An IDENT that names the program.
fn find_no_end(card: &Card<'_>, trace: &Trace) -> Option<Note> {
    if !names_program(trace) || !is_ident(card) {
        return None;
    }
    Some(Note {
        columns: card.operation_or_all(),
        remark: Remark::NoEnd,
    })
}

fn is_ident(card: &Card<'_>) -> bool {
    match Operation::named(card.operation_text()) {
        Some(Operation::Ident) => true,
        _ => false,
    }
}

/// Whether a line that does this is an IDENT in the head of the program, and not its second.
fn names_program(trace: &Trace) -> bool {
    for put in trace.puts() {
        if let Key::Control = put.key {
            return match control_of(Some(&put.answer)).phase {
                Phase::Head(head) => head.is_named,
                _ => false,
            };
        }
    }
    false
}

/// A location field with a symbol that the line is the first to define.
fn find_unread(card: &Card<'_>, trace: &Trace) -> Option<Note> {
    let columns = card.location?;
    let name = Name::read(columns.of(card.text))?;
    if !is_first_of(name, trace) {
        return None;
    }
    Some(Note {
        columns,
        remark: Remark::Unread(name),
    })
}

/// Whether a line that did this gave a symbol its first value.
fn is_first_of(name: Name, trace: &Trace) -> bool {
    if !trace.puts().iter().any(|put| is_symbol(put.key, name)) {
        return false;
    }
    !trace.asks().iter().any(|asked| asked.answer.is_some() && is_symbol(asked.key, name))
}

fn is_symbol(key: Key, name: Name) -> bool {
    key == Key::Label(name) || key == Key::Setting(name)
}

/// Text in column 30 or later of a statement that is assembled, may have operands, and has none.
fn find_far_operands(card: &Card<'_>, trace: &Trace) -> Result<Option<Note>, AllocError> {
    let Fields::Statement(fields) = card.fields else {
        return Ok(None);
    };
    if !fields.variable.is_empty() || fields.comment.is_empty() {
        return Ok(None);
    }
    if !may_have_operands(fields.operation, trace.asks())? {
        return Ok(None);
    }
    let before = card.before_tail.saturating_sub(fields.comment.len());
    Ok(Some(Note {
        columns: Columns::behind(before, filled_len(fields.comment)),
        remark: Remark::FarOperands,
    }))
}

/// An operator and one element, a register or a number that stand one blank behind the operands of a statement that is assembled.
fn find_parted_operands(card: &Card<'_>, trace: &Trace) -> Option<Note> {
    let Fields::Statement(fields) = card.fields else {
        return None;
    };
    let parted = fields.comment;
    let front = card.tail().len().saturating_sub(parted.len());
    if fields.variable.is_empty() || front != fields.variable.len().saturating_add(1) {
        return None;
    }
    if !(goes_on(parted) || is_operand(parted))
        || !has_values(fields.operation)
        || !is_assembled(trace.asks())
    {
        return None;
    }
    Some(Note {
        columns: Columns::behind(card.before_tail.saturating_add(front), filled_len(parted)),
        remark: Remark::PartedOperands,
    })
}

/// Whether a text is an operator and one element, and a blank at most between them.
fn goes_on(text: &[u8]) -> bool {
    let [operator, rest @ ..] = text else {
        return false;
    };
    let element = match rest {
        [b' ', element @ ..] => element,
        _ => rest,
    };
    let written = &element[..filled_len(element).min(element.len())];
    matches!(*operator, b'+' | b'-' | b'*' | b'/')
        && !written.is_empty()
        && written
            .iter()
            .all(|byte| byte.is_ascii_alphanumeric() || *byte == b'.')
}

/// Whether a text is a register or digits.
fn is_operand(text: &[u8]) -> bool {
    let written = &text[..filled_len(text).min(text.len())];
    match written {
        [] => false,
        [b'A' | b'B' | b'X', b'0'..=b'7'] => true,
        _ => written.iter().all(|byte| byte.is_ascii_digit()),
    }
}

/// Whether an operation takes values: an instruction, or a statement of expressions.
fn has_values(operation: &[u8]) -> bool {
    match Operation::named(operation) {
        Some(
            Operation::Equate
            | Operation::Set
            | Operation::Org
            | Operation::Bss
            | Operation::Bssz
            | Operation::Con
            | Operation::Vfd
            | Operation::Compare(_)
            | Operation::Dup,
        ) => true,
        Some(_) => false,
        None => is_builtin(operation),
    }
}

/// Whether an operation is TITLE, SPACE, EJECT or LIST.
fn is_listing(operation: &[u8]) -> bool {
    match Operation::named(operation) {
        Some(Operation::Listing) => true,
        _ => false,
    }
}

/// Operands that end in column 72 of a statement that is assembled, before a character that isn't read.
fn find_cut_operands(card: &Card<'_>, trace: &Trace) -> Option<Note> {
    let Fields::Statement(fields) = card.fields else {
        return None;
    };
    if fields.variable.is_empty() || !fields.comment.is_empty() {
        return None;
    }
    let [.., last, behind] = card.text.get(..STATEMENT_COLUMNS + 1)? else {
        return None;
    };
    if *last == b' ' || *behind == b' ' || is_listing(fields.operation) {
        return None;
    }
    if !is_assembled(trace.asks()) {
        return None;
    }
    Some(Note {
        columns: Columns::behind(STATEMENT_COLUMNS - 1, 1),
        remark: Remark::CutOperands,
    })
}

/// Whether a line that asked this is a USE that is assembled, or a call of a macro with parameters: these may have operands, and none.
fn may_have_operands(operation: &[u8], asks: &[Asked]) -> Result<bool, AllocError> {
    match Operation::named(operation) {
        Some(Operation::Use) => Ok(is_assembled(asks)),
        Some(_) => Ok(false),
        None => calls_with_parameters(operation, asks),
    }
}

/// Whether a line that asked this is assembled: not skipped, kept, or behind the end.
fn is_assembled(asks: &[Asked]) -> bool {
    for asked in asks {
        if let Key::Control = asked.key {
            return match &asked.answer {
                Some(Answer::Control(control, mode)) => {
                    mode.is_normal() && control.phase != Phase::AfterEnd
                }
                _ => true,
            };
        }
    }
    false
}

/// Whether a line that asked this calls a macro of this name, which has parameters.
fn calls_with_parameters(operation: &[u8], asks: &[Asked]) -> Result<bool, AllocError> {
    let Some(name) = Name::read(operation) else {
        return Ok(false);
    };
    for asked in asks {
        if asked.key == Key::Macro(name) {
            let Some(called) = macro_of(asked.answer.as_ref())? else {
                return Ok(false);
            };
            return Ok(!called.parameters.as_slice().is_empty());
        }
    }
    Ok(false)
}

//! The lines of a source, as they come.
ghost use Rattle.std.specs.Prelude.{◌≡◌, ℕ, List, [], ◌∷◌, ◌++◌, ◌+◌, ◌<◌, ◌≤◌, length, not, IfSome, MatchOption, unwrap_or};
ghost use Rattle.std.specs.List.{position};
ghost use Rattle.cps_text.specs.Line.{HasBadCharacter, IsLine, is_accepted_byte};
ghost use Rattle.cps_input.specs.Sources.{IsFirstBad, IsSource, IsWrong};
ghost use Rattle.cps_input.specs.Code.Input.{AnswersLines, IsIntake, TakesLine};

use super::cards::is_accepted;
use super::input_fault::InputFault;
use super::line_text::LineText;
use cps_text::limits::{MOST_COMMAND_BYTES, MOST_LINES};
use cps_text::{Line, LineFault};
use std::alloc::Global;

/// Lines of a source that have come one after another.
#[derive(Drop)]
pub enum Intake {
    /// Lines that a source may have.
    Kept(LineText),
    /// So many lines that a source may have, where there was no memory for them.
    Refused(u32),
    /// Lines of which the first that no source may have is wrong in this way.
    Faulty(InputFault),
}

impl Intake {
    /// No line.
    pub fn new(alloc: Global) -> Intake
        ensures { IsIntake result [] }
    {
        Intake::Kept(LineText::new(alloc))
    }

    /// Takes one line more, None where it has more bytes than are kept of a line. It is checked also where there was no memory for the lines.
    pub fn take_line(&mut self, text: Option<&[u8]>)
        requires { (lines : List (List ℕ)) × IsIntake self.old lines }
        ensures { TakesLine self.old text.entry self.new }
    {
        if let Some(other) = self.keep_line(text) {
            *self = other;
        }
    }

    /// Takes one line more, where this stays: it is None then. Otherwise it is what comes in its place.
    fn keep_line(&mut self, text: Option<&[u8]>) -> Option<Intake>
        requires { (lines : List (List ℕ)) × IsIntake self.old lines }
        ensures { TakesLine self.old text.entry (unwrap_or result self.new) }
    {
        match self {
            Intake::Kept(lines) => keep(lines, text),
            Intake::Refused(count) => Some(count_on(*count, text)),
            Intake::Faulty(_) => None,
        }
    }

    /// The lines, if a source may have them and there was memory.
    pub fn into_lines(self) -> Result<LineText, InputFault>
        ensures { (source : List (List ℕ)) → IsIntake self source → AnswersLines result source }
    {
        match self {
            Intake::Kept(lines) => Ok(lines),
            Intake::Refused(_) => Err(InputFault::Memory),
            Intake::Faulty(fault) => Err(fault),
        }
    }
}

/// Keeps one line more, None where more bytes came than are kept of a line. Where it isn't kept, this is what comes in place of the lines. A line that
/// there is no room for takes no memory.
fn keep(lines: &mut LineText, text: Option<&[u8]>) -> Option<Intake>
    requires { length lines.old ≤ MOST_LINES }
    ensures { TakesLine (Intake.Kept lines.old) text.entry (unwrap_or result (Intake.Kept lines.new)) }
{
    if lines.len() == MOST_LINES {
        return Some(count_on(MOST_LINES as u32, text));
    }
    let number = lines.len() as u32 + 1;
    let Some(text) = text else {
        return Some(Intake::Faulty(InputFault::LineTooLong(number)));
    };
    match fault_of(number, text) {
        Some(fault) => Some(Intake::Faulty(fault)),
        None => push_line(lines, number, text),
    }
}

/// Keeps one line more. Where there is no memory for it, their number comes in place of the lines.
fn push_line(lines: &mut LineText, number: u32, line: &[u8]) -> Option<Intake>
    ensures { number ≡ length lines.old + 1 → IsSource (lines.old ++ line.now ∷ [])
        → IsIntake (unwrap_or result (Intake.Kept lines.new)) (lines.old ++ line.now ∷ []) }
{
    match lines.push(line) {
        Ok(_) => None,
        Err(_) => Some(Intake::Refused(number)),
    }
}

/// One line more than so many, None where more bytes came than are kept of a line.
fn count_on(count: u32, text: Option<&[u8]>) -> Intake
    requires { count ≤ MOST_LINES }
    ensures { TakesLine (Intake.Refused count) text.entry result }
{
    let number = count + 1;
    let Some(text) = text else {
        return Intake::Faulty(InputFault::LineTooLong(number));
    };
    match fault_of(number, text) {
        Some(fault) => Intake::Faulty(fault),
        None => Intake::Refused(number),
    }
}

/// What is wrong with the line of this number, None where a source may have it.
fn fault_of(number: u32, text: &[u8]) -> Option<InputFault>
    ensures { MatchOption result (IsLine text.now × (number ≤ MOST_LINES)) (λ fault. IsWrong number text.now fault) }
{
    match Line::check(text) {
        Err(LineFault::LineTooLong) => Some(InputFault::LineTooLong(number)),
        Err(LineFault::BadCharacter) => Some(InputFault::BadCharacter {
            line: number,
            column: bad_column(text),
        }),
        Err(LineFault::Memory) => unreachable!(),
        Ok(()) if number as usize > MOST_LINES => Some(InputFault::TooManyLines),
        Ok(()) => None,
    }
}

/// The column of the first byte that no line may have.
fn bad_column(text: &[u8]) -> usize
    requires { HasBadCharacter text.now }
    ensures { IsFirstBad text.now result }
{
    match first_bad(text) {
        Some(before) => before + 1,
        None => unreachable!(),
    }
}

/// How many bytes stand before the first that no line may have, None where a line may have each.
fn first_bad(text: &[u8]) -> Option<usize>
    ensures place { result ≡ position (λ byte. not (is_accepted_byte byte)) text.now }
    ensures within { IfSome result (λ before. before < length text.now) }
{
    text.iter().position(|byte| !is_accepted(*byte))
}

//! A source, as its bytes come.
ghost use Rattle.std.specs.Prelude.{◌≡◌, ℕ, List, [], ◌∷◌, ◌++◌, true};
ghost use Rattle.cps_input.specs.Code.BegunLine.{IsBegun};
ghost use Rattle.cps_input.specs.Code.Input.{AnswersLines, HasCome};
ghost use Rattle.cps_input.specs.Lines.{HasText, has_no_newline, newline};

use super::begun_line::{BegunLine, kept_text};
use super::input_fault::InputFault;
use super::intake::Intake;
use super::line_end::newline_at;
use super::line_text::LineText;
use super::taker::Taker;
use std::alloc::Global;

/// A source of which some bytes have come: the lines that a newline ended, and the line after them.
#[derive(Drop)]
pub struct Input {
    pub intake: Intake,
    pub begun: BegunLine,
}

impl Input {
    /// A source of which no byte has come.
    pub fn new(alloc: Global) -> Input
        ensures { HasCome result [] }
    {
        Input {
            intake: Intake::new(alloc),
            begun: BegunLine::new(),
        }
    }

    /// Takes what is left of a line, which ends here.
    fn take_line(&mut self, left: &[u8])
        requires come { (taken : List ℕ) × HasCome self.old taken }
        requires one { has_no_newline left.now ≡ true }
        ensures { (taken : List ℕ) → HasCome self.old taken → HasCome self.new (taken ++ left.now ++ newline ∷ []) }
    {
        if self.begun.is_empty() {
            self.take_whole_line(left);
        } else {
            self.begun.push_all(left);
            self.end_line();
        }
    }

    /// Takes a line where it stands, and copies it no more than it is kept.
    fn take_whole_line(&mut self, line: &[u8])
        requires come { (taken : List ℕ) × HasCome self.old taken }
        requires one { has_no_newline line.now ≡ true }
        requires none_begun { (begun : List ℕ) → IsBegun self.old.begun begun → begun ≡ [] }
        ensures { (taken : List ℕ) → HasCome self.old taken → HasCome self.new (taken ++ line.now ++ newline ∷ []) }
    {
        self.intake.take_line(kept_text(line));
    }

    fn end_line(&mut self)
        requires { (taken : List ℕ) × HasCome self.old taken }
        ensures { (taken : List ℕ) → HasCome self.old taken → HasCome self.new (taken ++ newline ∷ []) }
    {
        self.intake.take_line(self.begun.text());
        self.begun = BegunLine::new();
    }

    /// The lines, if a source may have them and there was memory, where no byte is to come. A last line without a
    /// newline counts if it has a byte.
    pub fn finish(self) -> Result<LineText, InputFault>
        requires { (taken : List ℕ) × HasCome self taken }
        ensures { (taken : List ℕ) → HasCome self taken → (source : List (List ℕ)) × HasText taken source × AnswersLines result source }
    {
        let Input { intake, begun } = self;
        if begun.is_empty() {
            return intake.into_lines();
        }
        let mut intake = intake;
        intake.take_line(begun.text());
        intake.into_lines()
    }
}

impl Taker for Input {
    ghost use Rattle.cps_input.specs.Code.Input.{HasCome};

    ghost has_come = { λ input taken. HasCome input taken };

    fn take_bytes(&mut self, bytes: &[u8]) {
        let mut rest = bytes;
        while let Some(at) = newline_at(rest) {
            self.take_line(&rest[..at]);
            rest = &rest[at + 1..];
        }
        self.begun.push_all(rest);
    }
}

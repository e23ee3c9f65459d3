//! What may be folded of a source, found line by line.

use crate::document::Document;
use crate::folding::Folding;
use crate::line_pairs::{LinePair, LinePairs};
use crate::line_state::{Handling, LineState};
use cps_cause::Card;
use cps_expr::{Expr, ExprFault, Operation, Radix};
use cps_list::View;
use cps_state::Trace;
use cps_text::operands;
use std::alloc::{AllocError, Global};

/// What opens lines.
#[derive(Clone, Copy, PartialEq, Eq)]
enum Opener {
    If,
    Else,
    Macro,
    Dup,
    /// A DUP of so many lines.
    CountedDup,
}

/// Lines that are open: what opened them, in which line, and where they stand among the foldings. Of those of an ELSE it is the line of its IF.
#[derive(Clone, Copy)]
struct OpenLines {
    opener: Opener,
    first: u32,
    at: usize,
}

/// A line, from 0, and what is done with it and with the next one.
#[derive(Clone, Copy)]
struct PassedLine<'a> {
    number: u32,
    card: Card<'a>,
    before: LineState,
    after: LineState,
}

/// What may be folded of a source, as far as lines are looked at. It is told by the lines that open and close it; in bodies that are kept, by their
/// operations.
#[derive(Drop)]
pub struct FoldingWalk {
    alloc: Global,
    state: LineState,
    /// In the order of their first lines. The last line of one that is open is its first.
    found: Vec<Folding>,
    /// The newest last.
    open: Vec<OpenLines>,
    /// Where the run of comments stands that reaches to the next line.
    comments: Option<usize>,
    /// The lines that part and close others.
    pairs: LinePairs,
}

impl FoldingWalk {
    /// Before the first line.
    fn new(alloc: Global) -> FoldingWalk {
        FoldingWalk {
            alloc,
            state: LineState::new(),
            found: Vec::new(alloc),
            open: Vec::new(alloc),
            comments: None,
            pairs: LinePairs::new(alloc),
        }
    }

    /// Over a document, by what the assembler did with its lines.
    pub fn over(alloc: Global, document: &Document) -> Result<FoldingWalk, AllocError> {
        let session = document.session();
        let mut walk = FoldingWalk::new(alloc);
        let mut number: u32 = 0;
        for trace in session.traces() {
            let before = number;
            number = number.saturating_add(1);
            if let Some(line) = session.line(number) {
                walk.pass(before, line.bytes(), trace)?;
            }
        }
        Ok(walk)
    }

    /// What was found.
    pub fn into_found(self) -> Vec<Folding> {
        let FoldingWalk {
            found,
            open,
            pairs,
            ..
        } = self;
        drop(open);
        drop(pairs);
        found
    }

    /// The lines that part and close others, in their order.
    pub fn into_pairs(self) -> Vec<LinePair> {
        let FoldingWalk {
            found,
            open,
            pairs,
            ..
        } = self;
        drop(open);
        drop(found);
        pairs.into_list()
    }

    /// Looks at the next line, from 0.
    fn pass(&mut self, number: u32, line: &[u8], trace: &Trace) -> Result<(), AllocError> {
        let before = self.state;
        let after = before.behind(trace.puts())?;
        self.state = after;
        self.pass_comment(number, line)?;
        let passed = PassedLine {
            number,
            card: Card::of(line),
            before,
            after,
        };
        self.pass_program(&passed)?;
        match (kept_for(before.handling), kept_for(after.handling)) {
            (None, None) => self.pass_assembled(&passed),
            (None, Some(opener)) => self.begin(opener, number),
            (Some(opener), None) => self.end(opener, &passed),
            (Some(_), Some(_)) => self.pass_kept(&passed),
        }
    }

    /// A line that may begin or end the program.
    fn pass_program(&mut self, line: &PassedLine<'_>) -> Result<(), AllocError> {
        if line.after.has_ended && !line.before.has_ended {
            return self.pairs.end_program(line.number);
        }
        match (line.before.handling, operation_of(line)) {
            (Handling::Assembled, Some(Operation::Ident)) => self.pairs.begin_program(line.number),
            _ => {}
        }
        Ok(())
    }

    /// A comment goes on with the run of those above it.
    fn pass_comment(&mut self, number: u32, line: &[u8]) -> Result<(), AllocError> {
        if line.first().copied() != Some(b'*') {
            self.comments = None;
            return Ok(());
        }
        match self.comments {
            Some(at) => {
                self.end_at(at, number);
                Ok(())
            }
            None => {
                self.comments = Some(self.found.len());
                self.found.push(Folding {
                    first: number,
                    last: number,
                    is_comment: true,
                })?;
                Ok(())
            }
        }
    }

    /// A line that isn't kept, nor opens lines that are.
    fn pass_assembled(&mut self, line: &PassedLine<'_>) -> Result<(), AllocError> {
        let before = line.before.depth();
        let after = line.after.depth();
        if after > before {
            return self.begin(Opener::If, line.number);
        }
        if after < before {
            for _turn in after..before {
                self.close_if(line)?;
            }
            return Ok(());
        }
        match operation_of(line) {
            Some(Operation::Else) => self.turn(line.number),
            Some(Operation::If | Operation::Compare(_)) => self.pass_counted(line),
            _ => self.pass_skipping(line),
        }
    }

    /// An IF that opens no range.
    fn pass_counted(&mut self, line: &PassedLine<'_>) -> Result<(), AllocError> {
        match line.after.handling {
            Handling::Skipped(_) => self.pass_skipping(line),
            _ => match line.before.handling {
                Handling::Assembled => self.add_counted(line, 2),
                _ => Ok(()),
            },
        }
    }

    /// A line behind which lines may be skipped.
    fn pass_skipping(&mut self, line: &PassedLine<'_>) -> Result<(), AllocError> {
        match line.before.handling {
            Handling::Assembled => self.add_skipped(line.number, line.after.handling),
            _ => Ok(()),
        }
    }

    /// Lines that are skipped, if so many are.
    fn add_skipped(&mut self, number: u32, handling: Handling) -> Result<(), AllocError> {
        match handling {
            Handling::Skipped(count) => self.add(number, count),
            _ => Ok(()),
        }
    }

    /// A line of a body that is kept.
    fn pass_kept(&mut self, line: &PassedLine<'_>) -> Result<(), AllocError> {
        match operation_of(line) {
            Some(Operation::If | Operation::Compare(_)) => {
                if operand_at(&line.card, 2).is_some() {
                    self.add_counted(line, 2)
                } else {
                    self.begin(Opener::If, line.number)
                }
            }
            Some(Operation::Else) => self.turn(line.number),
            Some(Operation::Endif) => self.close_if(line),
            Some(Operation::Dup) => {
                if operand_at(&line.card, 1).is_some() {
                    self.add_counted(line, 1)
                } else {
                    self.begin(Opener::Dup, line.number)
                }
            }
            Some(Operation::Endd) => self.close_dup(line.number),
            _ => Ok(()),
        }
    }

    /// Lines begin.
    fn begin(&mut self, opener: Opener, number: u32) -> Result<(), AllocError> {
        self.begin_behind(opener, number, number)
    }

    /// Lines begin that belong to those which a line above opened, or to their own.
    fn begin_behind(&mut self, opener: Opener, first: u32, number: u32) -> Result<(), AllocError> {
        let at = self.found.len();
        self.found.push(Folding {
            first: number,
            last: number,
            is_comment: false,
        })?;
        self.open.push(OpenLines { opener, first, at })?;
        Ok(())
    }

    /// The lines end that something opened, and with them all that is open in them.
    fn end(&mut self, opener: Opener, line: &PassedLine<'_>) -> Result<(), AllocError> {
        for _turn in 0..self.open.len() {
            if let Some(top) = self.open.pop() {
                if top.opener == opener {
                    return self.end_lines(top, line);
                }
            }
        }
        Ok(())
    }

    /// Lines end: before a line that closes them, or with the last that a DUP counts.
    fn end_lines(&mut self, lines: OpenLines, line: &PassedLine<'_>) -> Result<(), AllocError> {
        if lines.opener == Opener::CountedDup {
            self.end_at(lines.at, line.number);
            return Ok(());
        }
        self.end_at(lines.at, line.number.saturating_sub(1));
        if line.after.has_ended {
            return Ok(());
        }
        self.pairs.push(lines.first, line.number)
    }

    /// The newest lines of an IF or an ELSE end before a line, if none of a body were opened in them.
    fn close_if(&mut self, line: &PassedLine<'_>) -> Result<(), AllocError> {
        match self.open.last().copied() {
            Some(top) if is_condition(top.opener) => {
                self.open.pop();
                self.end_lines(top, line)
            }
            _ => Ok(()),
        }
    }

    /// The newest lines of a DUP in a body end before a line; what is open in them is none.
    fn close_dup(&mut self, number: u32) -> Result<(), AllocError> {
        for _turn in 0..self.open.len() {
            let Some(top) = self.open.last().copied() else {
                return Ok(());
            };
            if top.opener == Opener::Dup {
                self.open.pop();
                self.end_at(top.at, number.saturating_sub(1));
                return self.pairs.push(top.first, number);
            }
            if !is_condition(top.opener) {
                return Ok(());
            }
            self.open.pop();
        }
        Ok(())
    }

    /// The lines of an IF end at its ELSE, whose own begin.
    fn turn(&mut self, number: u32) -> Result<(), AllocError> {
        match self.open.last().copied() {
            Some(
                OpenLines {
                    opener: Opener::If,
                    first,
                    at,
                },
            ) => {
                self.open.pop();
                self.end_at(at, number.saturating_sub(1));
                self.pairs.push(first, number)?;
                self.begin_behind(Opener::Else, first, number)
            }
            _ => Ok(()),
        }
    }

    /// A line, and so many behind it.
    fn add(&mut self, number: u32, count: u32) -> Result<(), AllocError> {
        self.found.push(Folding {
            first: number,
            last: number.saturating_add(count),
            is_comment: false,
        })?;
        Ok(())
    }

    /// A line, and as many behind it as its operand of a place says, if it is a number.
    fn add_counted(&mut self, line: &PassedLine<'_>, place: usize) -> Result<(), AllocError> {
        let Some(text) = operand_at(&line.card, place) else {
            return Ok(());
        };
        match number_in(self.alloc, text, line.before.radix)? {
            Some(count) => self.add(line.number, count),
            None => Ok(()),
        }
    }

    fn end_at(&mut self, at: usize, last: u32) {
        if let Some(folding) = self.found.get_mut(at) {
            folding.last = last;
        }
    }
}

/// For what lines are kept.
fn kept_for(handling: Handling) -> Option<Opener> {
    match handling {
        Handling::KeptForMacro => Some(Opener::Macro),
        Handling::KeptForDup => Some(Opener::Dup),
        Handling::KeptByCount => Some(Opener::CountedDup),
        Handling::Assembled | Handling::Skipped(_) | Handling::SkippedInRange(_) => None,
    }
}

fn is_condition(opener: Opener) -> bool {
    match opener {
        Opener::If | Opener::Else => true,
        Opener::Macro | Opener::Dup | Opener::CountedDup => false,
    }
}

fn operation_of(line: &PassedLine<'_>) -> Option<Operation> {
    Operation::named(line.card.operation_text())
}

/// The operand of a place, from 0.
fn operand_at<'a>(card: &Card<'a>, place: usize) -> Option<&'a [u8]> {
    let mut at: usize = 0;
    for text in operands(card.tail()) {
        if at == place {
            return Some(text);
        }
        at = at.saturating_add(1);
    }
    None
}

/// The number that a text is.
fn number_in(alloc: Global, text: &[u8], radix: Radix) -> Result<Option<u32>, AllocError> {
    match Expr::read(alloc, text, radix) {
        Ok(expression) => Ok(match expression.constant() {
            Some(value) => u32::try_from(value.offset).ok(),
            None => None,
        }),
        Err(ExprFault::Unreadable) => Ok(None),
        Err(ExprFault::Memory) => Err(AllocError),
    }
}

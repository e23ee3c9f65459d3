//! The statements of a line, which pass one goes through again over what the line asked.

use crate::asks::Asks;
use crate::card::Card;
use crate::cause::Cause;
use crate::causes::find_causes;
use crate::diagnostic::Diagnostic;
use crate::findings::{Findings, Subject};
use crate::limit_fault::LimitFault;
use crate::location_fault::LocationFault;
use crate::operands::{PlacedText, list_operands};
use crate::origin::{BodyLine, Origin};
use crate::statement::FlaggedStatement;
use crate::structure_fault::StructureFault;
use crate::unreadable::{MANY, find_count, find_parameters};
use cps_final::{Finals, Output, flags_of};
use cps_pass::{Body, Opened, Scope, Watcher, watch_line};
use cps_state::{Item, Key, Mode, Recorder, Scratch, Trace, control_of, mode_of};
use cps_text::limits::{DEEPEST, MOST_STATEMENTS};
use cps_text::{Line, Name};
use std::alloc::{AllocError, Global};
use std::slice::from_ref;

/// The statements of a line as they come again, each with what it made, and the causes that are found.
#[derive(Drop)]
struct StatementWalk<'a> {
    alloc: Global,
    card: Card<'a>,
    items: &'a [Item],
    finals: &'a Finals,
    /// How many statements have come.
    count: usize,
    output: Output,
    findings: Findings,
    /// Where the statement at hand is written.
    origin: Origin,
    /// How many lines were kept for a DUP before it, if a DUP keeps lines there.
    kept: Option<u32>,
    /// The bodies that it stands in, the innermost last.
    bodies: Vec<OpenBody>,
}

/// A body whose lines come one after another, also more than once.
#[derive(Clone, Copy)]
struct OpenBody {
    /// Where its first line is written.
    first: Origin,
    /// How many lines it has.
    count: usize,
    /// How many of them stand before the one that comes next.
    before: u32,
}

impl OpenBody {
    /// Where the line is written that comes next. Behind the last line the first comes again.
    fn next_line(&mut self) -> Origin {
        let origin = self.first.down(self.before);
        self.before = self.before.saturating_add(1);
        if self.before as usize >= self.count {
            self.before = 0;
        }
        origin
    }
}

/// The causes of all statements of a line.
pub fn find_all(
    alloc: Global,
    line: &Line,
    trace: &Trace,
    finals: &Finals,
) -> Result<Vec<Diagnostic>, AllocError> {
    let asks = Asks::of(alloc, finals.hashing(), trace.asks())?;
    let mut scratch = Scratch::new(alloc);
    let card = Card::of(line.bytes());
    let mut walk = StatementWalk {
        alloc,
        card,
        items: trace.items(),
        finals,
        count: 0,
        output: Output::new(alloc),
        findings: Findings::new(alloc, card.operation_or_all()),
        origin: Origin::Line,
        kept: None,
        bodies: Vec::new(alloc),
    };
    let watched = watch_line(alloc, &mut scratch, line.bytes(), &asks, &mut walk);
    drop(scratch);
    drop(asks);
    let StatementWalk { findings, .. } = walk;
    match watched {
        Ok(()) => findings.finish(),
        Err(_) => Err(AllocError),
    }
}

impl<'a> Watcher<Asks> for StatementWalk<'a> {
    fn see_statement(
        &mut self,
        recorder: &Recorder<'_, Asks>,
        scope: &Scope,
        text: &[u8],
    ) -> Result<(), AllocError> {
        go_to_next(self);
        let mode = mode_at(recorder, scope)?;
        self.kept = kept_for_dup(&mode);
        look(self, recorder, scope, &mode, text)
    }

    fn see_opened(&mut self, text: &[u8], opened: &Opened<'_>) -> Result<(), AllocError> {
        let count = length_of(opened);
        let first = match self.kept {
            Some(kept) => first_kept(self, kept),
            None => body_of(text, count),
        };
        self.bodies.push(OpenBody {
            first,
            count,
            before: 0,
        })?;
        Ok(())
    }

    fn see_locals(&mut self, called: &Body<'_>) -> Result<(), AllocError> {
        let mut taken = Vec::new(self.alloc);
        for pair in &called.pairs {
            taken.push(pair.0)?;
        }
        for line in called.locals.as_slice() {
            go_to_next(self);
            find_local(self, &mut taken, line.as_slice())?;
        }
        Ok(())
    }

    fn see_end(&mut self, scope: &Scope) -> Result<(), AllocError> {
        self.bodies.pop();
        if keeps_lines(scope) {
            self.findings
                .add_to_operation(Cause::Structure(StructureFault::ExpansionKeeps))?;
        }
        Ok(())
    }

    fn see_dropped(&mut self, depth: u8) -> Result<(), AllocError> {
        let fault = if depth > DEEPEST {
            LimitFault::Depth
        } else if self.count > MOST_STATEMENTS {
            LimitFault::Statements
        } else {
            LimitFault::Names
        };
        let columns = self.card.operation_or_all();
        self.findings.add(Cause::Limit(fault), columns)
    }
}

/// The next statement is at hand: the line's own, or the next line of the innermost body.
fn go_to_next(walk: &mut StatementWalk<'_>) {
    walk.origin = match walk.bodies.last_mut() {
        Some(body) => body.next_line(),
        None => Origin::Line,
    };
}

/// What is done with a statement: for a source line what the state says.
fn mode_at(recorder: &Recorder<'_, Asks>, scope: &Scope) -> Result<Mode, AllocError> {
    match scope {
        Scope::Source => mode_of(recorder.peek(&Key::Control)),
        Scope::Expansion(own) => own.mode().share(),
    }
}

/// How many lines are kept for a DUP, if they are.
fn kept_for_dup(mode: &Mode) -> Option<u32> {
    match mode {
        Mode::KeepDup(body) => Some(body.kept.lines),
        _ => None,
    }
}

/// The first of so many lines that are kept for the DUP that the statement at hand closes.
fn first_kept(walk: &StatementWalk<'_>, kept: u32) -> Origin {
    if walk.bodies.is_empty() {
        return Origin::Dup(BodyLine {
            before: 0,
            count: kept,
        });
    }
    walk.origin.up(kept)
}

/// The first line of the body of so many lines that a call opens.
fn body_of(call: &[u8], count: usize) -> Origin {
    let name = Name::read(Card::of(call).operation_text());
    match (name, u32::try_from(count)) {
        (Some(name), Ok(count)) => Origin::Macro(name, BodyLine { before: 0, count }),
        _ => Origin::Line,
    }
}

/// How many lines a body has that is opened.
fn length_of(opened: &Opened<'_>) -> usize {
    match opened {
        Opened::Lines(lines) => lines.lines.len(),
        Opened::Naming(called) => {
            let locals = called.locals.as_slice().len();
            locals.saturating_add(called.lines.as_slice().len())
        }
    }
}

/// Looks for causes in the statement at hand, which is done in this mode.
fn look(
    walk: &mut StatementWalk<'_>,
    recorder: &Recorder<'_, Asks>,
    scope: &Scope,
    mode: &Mode,
    text: &[u8],
) -> Result<(), AllocError> {
    let at = walk.count;
    walk.count = at.saturating_add(1);
    let Some(item) = walk.items.get(at) else {
        return Ok(());
    };
    walk.output.replace(from_ref(item), walk.finals)?;
    let flags = flags_of(walk.output.rows());
    let card = Card::of(text);
    walk.findings.begin(Subject {
        flags,
        text: item.text.share()?,
        origin: walk.origin,
        columns: card.statement(),
        operation: card.operation_or_all(),
        is_line: text == walk.card.text,
    })?;
    if !flags.has_flag() {
        return Ok(());
    }
    let control = control_of(recorder.peek(&Key::Control));
    walk.findings.count_in(control.radix);
    let statement = FlaggedStatement {
        card,
        control,
        mode,
        is_source: is_source(scope),
        item,
        rows: walk.output.rows(),
        finals: walk.finals,
    };
    find_causes(recorder, &mut walk.findings, &statement)
}

fn is_source(scope: &Scope) -> bool {
    match scope {
        Scope::Source => true,
        Scope::Expansion(_) => false,
    }
}

/// Whether an expansion keeps lines for a DUP.
fn keeps_lines(scope: &Scope) -> bool {
    match scope {
        Scope::Expansion(own) => kept_for_dup(own.mode()).is_some(),
        Scope::Source => false,
    }
}

/// A LOCAL line, with the names that are taken before it.
fn find_local(
    walk: &mut StatementWalk<'_>,
    taken: &mut Vec<Name>,
    text: &[u8],
) -> Result<(), AllocError> {
    let at = walk.count;
    walk.count = at.saturating_add(1);
    let Some(item) = walk.items.get(at) else {
        return Ok(());
    };
    let card = Card::of(text);
    let flags = item.made.flags();
    walk.findings.begin(Subject {
        flags,
        text: item.text.share()?,
        origin: walk.origin,
        columns: card.statement(),
        operation: card.operation_or_all(),
        is_line: false,
    })?;
    let operands = list_operands(walk.alloc, &card)?;
    if !flags.operand {
        take_names(taken, &operands)?;
    }
    walk.findings.add(
        Cause::Location(LocationFault::NotTaken),
        card.location_or_operation(),
    )?;
    find_count(&mut walk.findings, &card, &operands, 1, MANY)?;
    find_parameters(&mut walk.findings, &operands, taken)
}

/// The names of the operands of a LOCAL line that is obeyed are taken from then on.
fn take_names(taken: &mut Vec<Name>, operands: &[PlacedText<'_>]) -> Result<(), AllocError> {
    for operand in operands {
        if let Some(name) = Name::read(operand.text) {
            taken.push(name)?;
        }
    }
    Ok(())
}

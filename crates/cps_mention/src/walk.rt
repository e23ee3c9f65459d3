//! The statements of a source once more, each with what wrote its text.
ghost use Rattle.std.specs.Prelude.{◌≤◌, ◌+◌};

use crate::bodies::Bodies;
use crate::definitions::Definitions;
use crate::expansion::Expansion;
use crate::kept_body::KeptBody;
use crate::macro_text::MacroText;
use crate::opening::{Opening, opens_some};
use crate::operands::{field, list_arguments, tail_of};
use crate::statement::{ToldStatement, no_deed};
use crate::statement_text::{KeptText, StatementText, columns_of};
use crate::stepper::Stepper;
use crate::stretch::Stretch;
use crate::teller::Teller;
use crate::treatment::Treatment;
use crate::written_names::WrittenNames;
use cps_cause::Card;
use cps_final::LineSymbols;
use cps_pass::{Body, Opened, Scope};
use cps_state::{Hashing, Macro, Shared, Trace};
use cps_text::Name;
use cps_text::limits::DEEPEST;
use std::alloc::{AllocError, Global};

/// The statements of a source once more, each with what wrote its text.
#[derive(Drop)]
pub struct SourceWalk<'a> {
    alloc: Global,
    teller: Teller<'a>,
    definitions: Definitions,
    bodies: Bodies,
    stepper: Stepper,
    /// Of a statement that nothing obeyed.
    no_symbols: LineSymbols,
    /// The lines of the source that are kept.
    kept: KeptBody,
    /// The location field of the last line that isn't kept. For lines that are kept for a macro that line is its MACRO.
    header: Stretch,
}

impl<'a> SourceWalk<'a> {
    /// Before the first of these lines.
    pub fn new(
        alloc: Global,
        hashing: Hashing,
        lines: &'a [&'a [u8]],
    ) -> Result<SourceWalk<'a>, AllocError> {
        let bodies = Bodies::new(alloc, lines.len())?;
        let teller = Teller::new(alloc, lines)?;
        Ok(SourceWalk {
            alloc,
            teller,
            definitions: Definitions::new(alloc),
            bodies,
            stepper: Stepper::new(alloc, hashing),
            no_symbols: LineSymbols::new(alloc, hashing),
            kept: KeptBody::new(alloc),
            header: Stretch::behind(0, 0, 0),
        })
    }

    /// Tells the next line, from 1, with all statements that it stands for. Its trace says whether it was dropped.
    pub fn pass(&mut self, line: u32, trace: &Trace) -> Result<(), AllocError> {
        let bytes = self.teller.text_of(line);
        let origins = columns_of(self.alloc, line, bytes)?;
        self.teller.line = line;
        let text = StatementText {
            text: bytes,
            origins: &origins,
            line,
        };
        pass_line(self, text, trace)
    }

    /// Tells what the lines mean of which nothing opened the body, and gives all that is told.
    pub fn finish(self, count: u32) -> Result<WrittenNames, AllocError> {
        let mut walk = self;
        tell_unopened(&mut walk, count)?;
        let SourceWalk {
            teller,
            definitions,
            ..
        } = walk;
        teller.into_names(&definitions.labels)
    }
}

/// Tells those lines of bodies that nothing opened.
fn tell_unopened(walk: &mut SourceWalk<'_>, count: u32) -> Result<(), AllocError> {
    for before in 0..count {
        if walk.bodies.is_unopened(before + 1) {
            let text = unopened_text(walk, before + 1)?;
            tell_idle(walk, text.as_text())?;
        }
    }
    Ok(())
}

/// A line of a body that nothing opened.
fn unopened_text(walk: &SourceWalk<'_>, line: u32) -> Result<KeptText, AllocError> {
    let body = walk.teller.text_of(line);
    match walk.bodies.macro_around(line) {
        Some(named) => named.uncalled(walk.alloc, line, body),
        None => KeptText::of_line(walk.alloc, line, body),
    }
}

/// Tells what the last statement did with the names that it writes.
fn tell(
    walk: &mut SourceWalk<'_>,
    text: StatementText<'_>,
    treatment: Treatment,
    is_dropped: bool,
) -> Result<(), AllocError> {
    match treatment {
        Treatment::KeptForMacro | Treatment::KeptForDup(_) => Ok(()),
        Treatment::Assembled if !is_dropped => tell_done(walk, text),
        _ => tell_idle(walk, text),
    }
}

/// A statement that was obeyed.
fn tell_done(walk: &mut SourceWalk<'_>, text: StatementText<'_>) -> Result<(), AllocError> {
    let card = Card::of(text.text);
    let named = named_by(&walk.bodies, &card);
    let statement = ToldStatement {
        text,
        card,
        deed: walk.stepper.deed(named),
    };
    statement.tell(walk.alloc, &mut walk.teller, &mut walk.definitions)
}

/// A statement that nothing obeyed.
fn tell_idle(walk: &mut SourceWalk<'_>, text: StatementText<'_>) -> Result<(), AllocError> {
    let statement = ToldStatement {
        text,
        card: Card::of(text.text),
        deed: no_deed(&walk.no_symbols),
    };
    statement.tell(walk.alloc, &mut walk.teller, &mut walk.definitions)
}

/// The macro of a statement's operation.
fn named_by<'b>(bodies: &'b Bodies, card: &Card<'_>) -> Option<&'b MacroText> {
    let name = Name::read(card.operation_text())?;
    bodies.named(name)
}

/// A source line's own statement, with what it opens.
fn pass_line(
    walk: &mut SourceWalk<'_>,
    text: StatementText<'_>,
    trace: &Trace,
) -> Result<(), AllocError> {
    match step_line(walk, text, trace)? {
        Some(opening) => open(walk, 1, &opening),
        None => Ok(()),
    }
}

/// A source line's own statement, and what it opens.
fn step_line(
    walk: &mut SourceWalk<'_>,
    text: StatementText<'_>,
    trace: &Trace,
) -> Result<Option<Opening>, AllocError> {
    let mut scope = Scope::Source;
    let treatment = walk.stepper.treatment(&scope)?;
    let opened = walk.stepper.step(&mut scope, text.text)?;
    settle_line(walk, text, treatment, trace, &opened)
}

/// Tells and keeps a source line's own statement, which was stepped, and gives what it opens.
fn settle_line(
    walk: &mut SourceWalk<'_>,
    text: StatementText<'_>,
    treatment: Treatment,
    trace: &Trace,
    opened: &Option<Opened<'_>>,
) -> Result<Option<Opening>, AllocError> {
    let is_dropped = trace.items().len() <= 1 && opens_some(opened);
    tell(walk, text, treatment, is_dropped)?;
    keep_line(walk, text, treatment)?;
    if is_dropped {
        walk.stepper.put_dropped(trace)?;
        return Ok(None);
    }
    walk.stepper.put_last()?;
    match treatment {
        Treatment::KeptForDup(count) => walk.kept.open(count, text, opened),
        _ => open_call(walk, text, opened),
    }
}

/// Notes where a source line's own statement is kept, and the macro that has its body then. Of another its symbol may be the name of a macro.
fn keep_line(
    walk: &mut SourceWalk<'_>,
    text: StatementText<'_>,
    treatment: Treatment,
) -> Result<(), AllocError> {
    match treatment {
        Treatment::KeptForMacro | Treatment::KeptForDup(_) => keep_in_body(walk, text),
        _ => {
            let card = Card::of(text.text);
            let name = field(&card, card.location);
            walk.header = Stretch::behind(text.line, name.before, name.text.len());
            Ok(())
        }
    }
}

/// A line is kept behind so many others, or ends the body of a macro.
fn keep_in_body(walk: &mut SourceWalk<'_>, text: StatementText<'_>) -> Result<(), AllocError> {
    walk.bodies.keep(text.line);
    if let Some(count) = walk.stepper.kept_behind() {
        walk.kept.keep(count, text)?;
    }
    match walk.stepper.macro_defined()? {
        Some((name, named)) => define_macro(walk, name, &named),
        None => Ok(()),
    }
}

/// A macro has its body.
fn define_macro(walk: &mut SourceWalk<'_>, name: Name, named: &Macro) -> Result<(), AllocError> {
    let text = walk.kept.to_macro(walk.header, named)?;
    walk.bodies.define(&mut walk.teller, name, named, text)
}

/// What a call opens.
fn open_call(
    walk: &mut SourceWalk<'_>,
    text: StatementText<'_>,
    opened: &Option<Opened<'_>>,
) -> Result<Option<Opening>, AllocError> {
    match opened {
        None => Ok(None),
        Some(Opened::Naming(body)) => open_body(walk, text, body),
        Some(Opened::Lines(repeated)) => open_lines(walk, text, &repeated.lines, repeated.times),
    }
}

/// A call of a macro with LOCAL lines.
fn open_body(
    walk: &mut SourceWalk<'_>,
    text: StatementText<'_>,
    body: &Body<'_>,
) -> Result<Option<Opening>, AllocError> {
    if let Some(name) = Name::read(Card::of(text.text).operation_text()) {
        walk.bodies.mark_locals(name);
    }
    let lines = walk.stepper.name_lines(body)?;
    open_lines(walk, text, &lines, 1)
}

/// The lines that a call puts in, with what wrote them.
fn open_lines(
    walk: &SourceWalk<'_>,
    text: StatementText<'_>,
    lines: &[Shared<u8>],
    times: u32,
) -> Result<Option<Opening>, AllocError> {
    let card = Card::of(text.text);
    let Some(named) = named_by(&walk.bodies, &card) else {
        return Ok(None);
    };
    let arguments = arguments_of(walk.alloc, text, &card)?;
    let lines = lines_put(walk.alloc, &walk.teller, named, lines, &arguments)?;
    Ok(Some(Opening { lines, times }))
}

/// What wrote each argument of a call.
fn arguments_of<'t>(
    alloc: Global,
    text: StatementText<'t>,
    card: &Card<'_>,
) -> Result<Vec<&'t [Stretch]>, AllocError> {
    let parts = list_arguments(alloc, tail_of(card))?;
    let mut arguments = Vec::with_capacity(alloc, parts.len())?;
    for part in parts.as_slice() {
        arguments.push(text.origins_of(*part))?;
    }
    Ok(arguments)
}

/// Lines that are put in for those of a body, with what wrote them.
fn lines_put(
    alloc: Global,
    teller: &Teller<'_>,
    named: &MacroText,
    texts: &[Shared<u8>],
    arguments: &[&[Stretch]],
) -> Result<Vec<KeptText>, AllocError> {
    let mut lines = Vec::with_capacity(alloc, texts.len())?;
    for (at, put) in texts.iter().enumerate() {
        if let Some(line) = named.line_behind(at) {
            let origins = named.origins_in(alloc, line, teller.text_of(line), arguments)?;
            lines.push(KeptText::of(put, origins, line)?)?;
        }
    }
    Ok(lines)
}

/// Lines so many times, in an expansion of their own, unless it is too deep.
#[cycle(walking)]
fn open(walk: &mut SourceWalk<'_>, depth: u8, opening: &Opening) -> Result<(), AllocError>
    requires { depth ≤ DEEPEST + 1 }
{
    if depth > DEEPEST {
        return Ok(());
    }
    let mut expansion = Expansion::new(walk.alloc);
    take_turns(walk, &mut expansion, depth, opening)
}

/// Lines so many times, in their expansion.
#[cycle(walking)]
fn take_turns(
    walk: &mut SourceWalk<'_>,
    expansion: &mut Expansion,
    depth: u8,
    opening: &Opening,
) -> Result<(), AllocError>
    requires { depth ≤ DEEPEST }
{
    for _turn in 0..opening.times {
        go_through(walk, expansion, depth, &opening.lines)?;
    }
    Ok(())
}

/// Statements of an expansion, each followed by those that it opens.
#[cycle(walking)]
fn go_through(
    walk: &mut SourceWalk<'_>,
    expansion: &mut Expansion,
    depth: u8,
    lines: &[KeptText],
) -> Result<(), AllocError>
    requires { depth ≤ DEEPEST }
{
    for line in lines {
        pass_statement(walk, expansion, depth, line.as_text())?;
    }
    Ok(())
}

/// A statement of an expansion, with what it opens.
#[cycle(walking)]
fn pass_statement(
    walk: &mut SourceWalk<'_>,
    expansion: &mut Expansion,
    depth: u8,
    text: StatementText<'_>,
) -> Result<(), AllocError>
    requires { depth ≤ DEEPEST }
{
    match step_statement(walk, expansion, text)? {
        Some(opening) => open(walk, depth + 1, &opening),
        None => Ok(()),
    }
}

/// A statement of an expansion, and what it opens.
fn step_statement(
    walk: &mut SourceWalk<'_>,
    expansion: &mut Expansion,
    text: StatementText<'_>,
) -> Result<Option<Opening>, AllocError> {
    let treatment = walk.stepper.treatment(&expansion.scope)?;
    walk.bodies.mark_opened(text.line);
    let opened = walk.stepper.step(&mut expansion.scope, text.text)?;
    settle_statement(walk, expansion, text, treatment, &opened)
}

/// Tells and keeps a statement of an expansion, which was stepped, and gives what it opens.
fn settle_statement(
    walk: &mut SourceWalk<'_>,
    expansion: &mut Expansion,
    text: StatementText<'_>,
    treatment: Treatment,
    opened: &Option<Opened<'_>>,
) -> Result<Option<Opening>, AllocError> {
    tell(walk, text, treatment, false)?;
    walk.stepper.put_last()?;
    match treatment {
        Treatment::KeptForDup(count) => expansion.keep(count, text, opened),
        _ => open_call(walk, text, opened),
    }
}

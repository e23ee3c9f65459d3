//! MACRO, and calls of macros.
ghost use Rattle.std.specs.Prelude.{◌≡◌, Some, IfOk, map};
ghost use Rattle.std.specs.Option.{option_copied as copied};
ghost use Rattle.cps_text.specs.Insertion.{pairs_value, inserted};
ghost use Rattle.cps_state.specs.Code.Line.{Hands};
ghost use Rattle.cps_pass.specs.Macros as macros;
ghost use Rattle.cps_pass.specs.Macros.{macro_from};
ghost use Rattle.cps_pass.specs.Code.Opened.{opening_of};
ghost use Rattle.cps_pass.specs.Code.Taking.{Leads, Opens, OpensBody};

use crate::context::Context;
use crate::keeping::no_lines;
use crate::making::flag;
use crate::opened::{Body, Opened, Repeated};
use crate::places::here_at;
use crate::placing::{advance, ask_site, placing_flags, word_start};
use crate::reading::Location;
use crate::scope::{Scope, go_by};
use cps_code::is_builtin;
use cps_state::{Flags, Lookup, Macro, MacroBody, Made, Mode, Recorder, Shared, Shown};
use cps_text::{ArgFault, Name, PairList, Substitution, arguments, insert_by};
use std::alloc::{AllocError, Global};

/// MACRO: the lines to come are kept; None where the parameters can't be read.
pub fn define<L: Lookup>(
    recorder: &mut Recorder<'_, L>,
    context: Context,
    scope: &mut Scope,
    parameters: Option<&[Name]>,
) -> Result<(), AllocError>
    ensures { Leads result (macro_from context.control scope.old context.location (copied parameters.entry)) scope.new L.answer recorder.old recorder.new }
{
    let alloc = recorder.alloc();
    let name = macro_name(context.location);
    let mut flags = Flags::none();
    flags.location = name.is_none();
    flags.operand = parameters.is_none();
    let mode = macro_mode(alloc, name, parameters)?;
    go_by(recorder, context.control, scope, mode)?;
    flag(recorder, flags);
    Ok(())
}

/// A macro's name is a symbol, and no operation of either machine or of the statement table.
fn macro_name(location: Location) -> Option<Name>
    ensures { result ≡ macros.macro_name location }
{
    match location {
        Location::Symbol(name) if !is_builtin(name.text()) => Some(name),
        _ => None,
    }
}

/// Without a name, or with parameters that can't be read, the definition is kept and dropped at its end.
fn macro_mode(
    alloc: Global,
    name: Option<Name>,
    parameters: Option<&[Name]>,
) -> Result<Mode, AllocError>
    ensures { IfOk result (λ mode. mode ≡ macros.macro_mode name (copied parameters.entry)) }
{
    match (name, parameters) {
        (Some(name), Some(parameters)) => Ok(Mode::KeepMacro(MacroBody {
            name: Some(name),
            parameters: Shared::new(alloc, parameters)?,
            kept: no_lines(),
        })),
        _ => Ok(Mode::KeepMacro(MacroBody {
            name: None,
            parameters: Shared::empty(),
            kept: no_lines(),
        })),
    }
}

/// A call of a macro: its symbol is defined, and the lines of the body are opened with the arguments.
pub fn call<'a, L: Lookup>(
    recorder: &mut Recorder<'_, L>,
    context: Context,
    scope: &Scope,
    named: &Macro,
    tail: &'a [u8],
) -> Result<Option<Opened<'a>>, AllocError>
    ensures { Opens result (macros.calling context.control scope.now context.location named.now tail.now) scope.now L.answer recorder.old recorder.new }
{
    let alloc = recorder.alloc();
    let made = call_at(recorder, context)?;
    let lines = open_body(alloc, named, tail)?;
    recorder.fill(call_made(made, lines.is_some()));
    Ok(lines)
}

/// What a call made, with A where it opens nothing.
fn call_made(made: Made, is_bound: bool) -> Made
    ensures { result ≡ macros.call_made made is_bound }
{
    let mut made = made;
    if !is_bound {
        let mut flags = Flags::none();
        flags.operand = true;
        made.mark(flags);
    }
    made
}

/// The location field of a call: its symbol is defined at the beginning of a word.
fn call_at<L: Lookup>(recorder: &mut Recorder<'_, L>, context: Context) -> Result<Made, AllocError>
    ensures { IfOk result (λ made. Hands (macros.call_at context.control context.location) made L.answer recorder.old recorder.new) }
{
    match context.location {
        Location::Absent => Ok(Made::nothing(Flags::none())),
        Location::Symbol(_) => label(recorder, context),
        _ => {
            let mut flags = Flags::none();
            flags.location = true;
            Ok(Made::nothing(flags))
        }
    }
}

fn label<L: Lookup>(recorder: &mut Recorder<'_, L>, context: Context) -> Result<Made, AllocError>
    ensures { IfOk result (λ made. Hands (macros.labelling context.control context.location) made L.answer recorder.old recorder.new) }
{
    let site = ask_site(recorder, context)?;
    let begun = word_start(site);
    advance(recorder, site, begun.start, begun.start, false)?;
    Ok(Made::leaving(
        placing_flags(site),
        site.machine,
        begun.filling,
        Shown::Address(here_at(site.block, begun.start)),
    ))
}

/// What a macro opens with the arguments of a call; None where a parenthesis stays open, or there are too many.
fn open_body<'a>(
    alloc: Global,
    named: &Macro,
    tail: &'a [u8],
) -> Result<Option<Opened<'a>>, AllocError>
    ensures { OpensBody result named.now (macros.bound named.now.parameters tail.now) }
{
    if named.parameters.as_slice().is_empty() {
        return Ok(Some(open_once(alloc, named, Vec::new(alloc))?));
    }
    match arguments(alloc, tail) {
        Ok(list) => open_with(alloc, named, &list),
        Err(ArgFault::Unclosed) => Ok(None),
        Err(ArgFault::Memory) => Err(AllocError),
    }
}

fn open_with<'a>(
    alloc: Global,
    named: &Macro,
    list: &[&'a [u8]],
) -> Result<Option<Opened<'a>>, AllocError>
    ensures { OpensBody result named.now (macros.paired named.now.parameters (map (λ text. text.now) list.now)) }
{
    let parameters = named.parameters.as_slice();
    if list.len() > parameters.len() {
        return Ok(None);
    }
    let pairs = pair(alloc, parameters, list)?;
    Ok(Some(open_once(alloc, named, pairs)?))
}

/// Where there are LOCAL lines, the lines behind them wait for the names of these.
fn open_once<'a>(
    alloc: Global,
    named: &Macro,
    pairs: Vec<(Name, &'a [u8])>,
) -> Result<Opened<'a>, AllocError>
    ensures { IfOk result (λ opened. opening_of (Some opened) ≡ macros.opening_with (pairs_value pairs.entry.items) named.now) }
{
    if named.locals.as_slice().is_empty() {
        let lines = insert_all(alloc, named.lines.as_slice(), &PairList { pairs: &pairs })?;
        return Ok(Opened::Lines(Repeated { lines, times: 1 }));
    }
    let body = Body {
        pairs,
        locals: named.locals.share()?,
        lines: named.lines.share()?,
    };
    Ok(Opened::Naming(Box::new(alloc, body)?))
}

/// Each parameter with its argument; those that are missing are empty.
fn pair<'a>(
    alloc: Global,
    parameters: &[Name],
    list: &[&'a [u8]],
) -> Result<Vec<(Name, &'a [u8])>, AllocError>
    ensures { IfOk result (λ pairs. pairs_value pairs.items ≡ macros.pairs_of parameters.now (map (λ text. text.now) list.now)) }
{
    let mut pairs = Vec::new(alloc);
    let mut rest = list;
    for name in parameters {
        let text: &[u8] = match rest {
            [text, others @ ..] => {
                rest = others;
                *text
            }
            [] => &[],
        };
        pairs.push((*name, text))?;
    }
    Ok(pairs)
}

/// Lines of a body with what stands for their names.
pub fn insert_all<S: Substitution>(
    alloc: Global,
    lines: &[Shared<u8>],
    known: &S,
) -> Result<Vec<Shared<u8>>, AllocError>
    ensures { IfOk result (λ texts. texts.items ≡ map (inserted (S.pairs known.now)) lines.now) }
{
    let mut texts = Vec::with_capacity(alloc, lines.len())?;
    for line in lines {
        let text = insert_by(alloc, line.as_slice(), known)?;
        texts.push(Shared::from_vec(text)?)?;
    }
    Ok(texts)
}

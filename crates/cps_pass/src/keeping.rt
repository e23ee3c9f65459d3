//! Lines that are kept: the body of a macro, and the lines of DUP.
ghost use Rattle.std.specs.Prelude.{◌≡◌, ◌+◌, ◌<◌, true, IfOk};
ghost use Rattle.cps_state.specs.Made.{no_flags};
ghost use Rattle.cps_pass.specs.Keeping as keeping;

use crate::located::present_flags;
use crate::reading::Location;
use crate::seen::Seen;
use crate::skipping::deeper;
use crate::treatment::Treatment;
use cps_state::{DupBody, Extent, Flags, KeptLines, MacroBody, Mode};
use cps_text::limits::MOST_BODY_LINES;
use std::alloc::AllocError;

/// No lines yet.
pub fn no_lines() -> KeptLines
    ensures { result ≡ keeping.no_lines }
{
    KeptLines {
        lines: 0,
        is_over: false,
    }
}

fn one_more(kept: KeptLines) -> KeptLines
    requires { kept.lines < keeping.most_body }
    ensures { result ≡ record kept { lines = kept.lines + 1 } }
{
    KeptLines {
        lines: kept.lines + 1,
        is_over: kept.is_over,
    }
}

fn over(kept: KeptLines) -> KeptLines
    ensures { result ≡ record kept { is_over = true } }
{
    KeptLines {
        lines: kept.lines,
        is_over: true,
    }
}

/// Whether lines past the most came, or more than the most are counted, which no source leads to.
fn is_too_long(kept: KeptLines) -> bool
    ensures { result ≡ keeping.is_too_long kept }
{
    kept.is_over || kept.lines > MOST_BODY_LINES
}

/// E alone.
fn over_flags() -> Flags
    ensures { result ≡ record no_flags { structure = true } }
{
    let mut flags = Flags::none();
    flags.structure = true;
    flags
}

/// The line that closes a body that is too long, or one that is dropped.
fn dropping(flags: Flags) -> Treatment
    ensures { result ≡ keeping.dropping flags }
{
    Treatment::Passes(Mode::Normal, None, flags)
}

/// One that closes a body that is too long.
fn dropping_long(flags: Flags) -> Treatment
    ensures { result ≡ keeping.dropping (record flags { structure = true }) }
{
    let mut flags = flags;
    flags.structure = true;
    dropping(flags)
}

/// A line where the body of a macro is kept.
pub fn kept_for_macro(body: &MacroBody, seen: Seen) -> Result<Treatment, AllocError>
    ensures { IfOk result (λ treatment. treatment ≡ keeping.kept_for_macro body.now seen) }
{
    match seen {
        Seen::Endm(location) => ended_macro(body, location),
        Seen::Defines => {
            let later = Mode::KeepMacro(body.share()?);
            Ok(Treatment::Passes(later, None, over_flags()))
        }
        _ => macro_line(body),
    }
}

fn macro_line(body: &MacroBody) -> Result<Treatment, AllocError>
    ensures { IfOk result (λ treatment. treatment ≡ keeping.one_more (keeping.macro_with body.now) body.now.kept) }
{
    let kept = body.kept;
    if kept.lines >= MOST_BODY_LINES {
        let later = macro_with(body, over(kept))?;
        return Ok(Treatment::Passes(later, None, over_flags()));
    }
    let later = macro_with(body, one_more(kept))?;
    Ok(Treatment::Passes(later, Some(kept.lines), Flags::none()))
}

fn macro_with(body: &MacroBody, kept: KeptLines) -> Result<Mode, AllocError>
    ensures { IfOk result (λ mode. mode ≡ keeping.macro_with body.now kept) }
{
    Ok(Mode::KeepMacro(MacroBody {
        name: body.name,
        parameters: body.parameters.share()?,
        kept,
    }))
}

/// ENDM: the body is whole. The definition is dropped where it is too long, or has no name.
fn ended_macro(body: &MacroBody, location: Location) -> Result<Treatment, AllocError>
    ensures { IfOk result (λ treatment. treatment ≡ keeping.ended_macro body.now location) }
{
    if is_too_long(body.kept) {
        return Ok(dropping_long(present_flags(location)));
    }
    match body.name {
        None => Ok(dropping(present_flags(location))),
        Some(name) => Ok(Treatment::Defines(name, body.share()?, location)),
    }
}

/// A line where the lines of DUP are kept.
pub fn kept_for_dup(body: DupBody, seen: Seen) -> Treatment
    ensures { result ≡ keeping.kept_for_dup body body.extent seen }
{
    match body.extent {
        Extent::Counted(left) if left > 1 => going_on_to(body, Extent::Counted(left - 1)),
        Extent::Counted(_) => closing(body, true, Flags::none()),
        Extent::ToEndd(nested) => kept_to_endd(body, nested, seen),
    }
}

fn kept_to_endd(body: DupBody, nested: u32, seen: Seen) -> Treatment
    ensures { result ≡ keeping.kept_for_dup body (Extent.ToEndd nested) seen }
{
    match seen {
        Seen::Repeats => going_on_to(body, Extent::ToEndd(deeper(nested))),
        Seen::Endd(location) if nested == 0 => closing(body, false, present_flags(location)),
        Seen::Endd(_) => going_on_to(body, Extent::ToEndd(nested - 1)),
        _ => going_on_to(body, Extent::ToEndd(nested)),
    }
}

/// A line that doesn't close the lines of DUP.
fn going_on_to(body: DupBody, extent: Extent) -> Treatment
    ensures { result ≡ keeping.going_on_to body extent }
{
    let kept = body.kept;
    if kept.lines >= MOST_BODY_LINES {
        let later = dup_with(body, extent, over(kept));
        return Treatment::Passes(later, None, over_flags());
    }
    let later = dup_with(body, extent, one_more(kept));
    Treatment::Passes(later, Some(kept.lines), Flags::none())
}

fn dup_with(body: DupBody, extent: Extent, kept: KeptLines) -> Mode
    ensures { result ≡ keeping.dup_with body extent kept }
{
    Mode::KeepDup(DupBody {
        times: body.times,
        extent,
        kept,
    })
}

/// The line that closes the lines of DUP.
fn closing(body: DupBody, with_line: bool, flags: Flags) -> Treatment
    ensures { result ≡ keeping.closing body with_line flags }
{
    if is_too_long(body.kept) {
        return dropping_long(flags);
    }
    Treatment::Opens(body, with_line, flags)
}

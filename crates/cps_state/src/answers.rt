//! What answers say. One of another kind, or none, says what stands before the first line.
ghost use Rattle.std.specs.Prelude.{◌≡◌, ◌*◌, ◌≤◌, IfOk, IfSome};
ghost use Rattle.std.specs.Option.{option_copied};
ghost use Rattle.cps_code.specs.Place.{position};
ghost use Rattle.cps_expr.specs.Value.{IsInRange};
ghost use Rattle.cps_state.specs.Keys.{first_control, first_place, control_of, mode_of, macro_of, text_of, place_of, within_limit, value_of, uses_of, ranges_of, count_of, is_place, is_normal, is_no_range, is_open};
ghost use Rattle.cps_state.specs.Machines.{limit};

use crate::key::{Answer, Control, Head, Key, Macro, Mode, OpenRange, Phase};
use crate::lookup::Lookup;
use crate::machines::{WORD, limit_of};
use crate::shared::Shared;
use cps_code::Place;
use cps_expr::{Machine, Radix, Value};
use cps_text::Name;
use std::alloc::AllocError;

/// The control before the first line: in the head, for the central processor, decimal, in the nominal block.
pub fn first_control() -> Control
    ensures { result ≡ first_control }
{
    Control {
        phase: Phase::Head(Head {
            is_named: false,
            is_declared: false,
        }),
        machine: Machine::Cp,
        radix: Radix::Decimal,
        block: None,
    }
}

/// The place where a block begins.
pub fn first_place() -> Place
    ensures { result ≡ first_place }
{
    Place::behind(0, false)
}

pub fn control_of(answer: Option<&Answer>) -> Control
    ensures { result ≡ control_of (option_copied answer.entry) }
{
    match answer {
        Some(Answer::Control(control, _)) => *control,
        _ => first_control(),
    }
}

/// What is done with the lines to come.
pub fn mode_of(answer: Option<&Answer>) -> Result<Mode, AllocError>
    ensures { IfOk result (λ mode. mode ≡ mode_of (option_copied answer.entry)) }
{
    match answer {
        Some(Answer::Control(_, mode)) => mode.to_mode(),
        _ => Ok(Mode::Normal),
    }
}

/// A macro, if there is one.
pub fn macro_of(answer: Option<&Answer>) -> Result<Option<Macro>, AllocError>
    ensures { IfOk result (λ named. named ≡ macro_of (option_copied answer.entry)) }
{
    match answer {
        Some(Answer::Macro(named)) => Ok(Some(named.to_macro()?)),
        _ => Ok(None),
    }
}

/// A line that is kept.
pub fn text_of(answer: Option<&Answer>) -> Result<Shared<u8>, AllocError>
    ensures { IfOk result (λ text. text ≡ text_of (option_copied answer.entry)) }
{
    match answer {
        Some(Answer::Text(text)) => text.share(),
        _ => Ok(Shared::empty()),
    }
}

/// A place past the machine's words counts as the one after them.
pub fn place_of(answer: Option<&Answer>, machine: Machine) -> Place
    ensures place { result ≡ place_of machine (option_copied answer.entry) }
    ensures within { position result ≤ 60 * limit machine }
{
    match answer {
        Some(Answer::Counter(place)) => within_limit(*place, machine),
        _ => first_place(),
    }
}

fn within_limit(place: Place, machine: Machine) -> Place
    ensures place { result ≡ within_limit machine place }
    ensures within { position result ≤ 60 * limit machine }
{
    let limit = limit_of(machine);
    match machine {
        Machine::Cp if place.word >= limit && (place.word > limit || place.used > 0) => {
            Place::behind(WORD * limit, place.is_pending)
        }
        Machine::Cp => place,
        Machine::Pp => Place::behind(WORD * place.word.min(limit), false),
    }
}

/// A value beyond the range of expressions is none.
pub fn value_of(answer: Option<&Answer>) -> Option<Value>
    ensures value { result ≡ value_of (option_copied answer.entry) }
    ensures range { IfSome result IsInRange }
{
    match answer {
        Some(Answer::Value(value)) => value.limited(),
        _ => None,
    }
}

/// The blocks that USE may go back to, the last in front.
pub fn uses_of(answer: Option<&Answer>) -> Result<Shared<Option<Name>>, AllocError>
    ensures { IfOk result (λ uses. uses ≡ uses_of (option_copied answer.entry)) }
{
    match answer {
        Some(Answer::Uses(uses)) => uses.share(),
        _ => Ok(Shared::empty()),
    }
}

/// The ranges that are open, the newest in front.
pub fn ranges_of(answer: Option<&Answer>) -> Result<Shared<OpenRange>, AllocError>
    ensures { IfOk result (λ ranges. ranges ≡ ranges_of (option_copied answer.entry)) }
{
    match answer {
        Some(Answer::Ifs(ranges)) => ranges.share(),
        _ => Ok(Shared::empty()),
    }
}

/// Whether no range is open.
pub fn is_no_range(answer: Option<&Answer>) -> bool
    ensures { result ≡ is_no_range (ranges_of (option_copied answer.entry)) }
{
    match answer {
        Some(Answer::Ifs(ranges)) => ranges.as_slice().is_empty(),
        _ => true,
    }
}

/// A count of things.
pub fn count_of(answer: Option<&Answer>) -> u32
    ensures { result ≡ count_of (option_copied answer.entry) }
{
    match answer {
        Some(Answer::Count(count)) => *count,
        _ => 0,
    }
}

/// Whether there is a place.
pub fn is_place(answer: Option<&Answer>) -> bool
    ensures { result ≡ is_place (option_copied answer.entry) }
{
    match answer {
        Some(Answer::Counter(_)) => true,
        _ => false,
    }
}

/// Whether lines are assembled.
pub fn is_normal(mode: &Mode) -> bool
    ensures { result ≡ is_normal mode.now }
{
    match mode {
        Mode::Normal => true,
        _ => false,
    }
}

fn is_assembled(answer: Option<&Answer>) -> bool
    ensures { result ≡ is_normal (mode_of (option_copied answer.entry)) }
{
    match answer {
        Some(Answer::Control(_, mode)) => mode.is_normal(),
        _ => true,
    }
}

/// Whether a range is open, or lines are skipped or kept: then the source is open if it ends here.
pub fn is_open<L: Lookup>(state: &L) -> bool
    ensures { result ≡ is_open (L.answer state.now) }
{
    !is_assembled(state.ask(&Key::Control)) || !is_no_range(state.ask(&Key::Ifs))
}

//! What is told of a text.
ghost use Rattle.std.specs.Prelude.{map, IfOk};
ghost use Rattle.cps_check.specs.Code.Adding.{TellsSource, TellsBytes};

use crate::check_options::CheckOptions;
use crate::line_telling::LineTelling;
use crate::told_line::push_excess;
use cps_edit::PassOne;
use cps_input::{cut_lines, make_cards};
use cps_state::{Hashing, Work};
use cps_text::limits::MOST_LINES;
use std::alloc::{AllocError, Global};

/// What is told of a text.
#[derive(Drop)]
pub struct Telling {
    pub text: Vec<u8>,
    /// Whether an error is told, and not notes alone.
    pub is_wrong: bool,
}

/// What is told of a text, under its name.
pub fn tell_bytes(
    alloc: Global,
    hashing: Hashing,
    options: CheckOptions<'_>,
    bytes: &[u8],
) -> Result<Telling, AllocError>
    ensures { IfOk result (λ telling. TellsBytes options.entry.errors_only options.entry.name.now bytes.now telling.text.items telling.is_wrong) }
{
    let lines = cut_lines(alloc, bytes)?;
    let telling = tell_source(alloc, hashing, options, &lines)?;
    Ok(telling)
}

/// What is told of lines: each flag, with its cause, each byte that no line may have, and notes where they are asked for. The first 99,999 are looked at.
fn tell_source(
    alloc: Global,
    hashing: Hashing,
    options: CheckOptions<'_>,
    lines: &[&[u8]],
) -> Result<Telling, AllocError>
    ensures { IfOk result (λ telling.
        TellsSource options.entry.errors_only options.entry.name.now (map (λ line. line.now) lines.now) telling.text.items telling.is_wrong) }
{
    let cards = make_cards(alloc, lines)?;
    let one = PassOne::of(alloc, hashing, &cards, &mut Work::new())?;
    let telling = LineTelling {
        alloc,
        name: options.name,
        errors_only: options.errors_only,
        finals: one.finals(),
    };
    let mut text = Vec::new(alloc);
    let is_wrong_within = telling.tell_lines(lines, &cards, one.traces(), &mut text)?;
    push_excess(&mut text, options.name, lines.len())?;
    let is_open = telling.tell_end(&cards, one.traces(), &mut text)?;
    let is_wrong = is_wrong_within | (lines.len() > MOST_LINES) | is_open;
    Ok(Telling { text, is_wrong })
}

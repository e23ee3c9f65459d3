//! How the rows of lines look.

use cps_page::LineLook;
use cps_state::{Answer, Asked, Control, Key, Mode, Put, SharedMode, Trace};
use std::alloc::{AllocError, Global};

/// How the rows of each line look, from what it does in pass one.
pub fn list_looks(alloc: Global, traces: &[Trace]) -> Result<Vec<LineLook>, AllocError> {
    let mut looks = Vec::new(alloc);
    for trace in traces {
        let look = look_of(trace)?;
        looks.push(look)?;
    }
    Ok(looks)
}

fn look_of(trace: &Trace) -> Result<LineLook, AllocError> {
    let Some((control, mode)) = control_asked(trace.asks()) else {
        return Ok(LineLook::Plain);
    };
    let (control, next) = match control_put(trace.puts()) {
        Some(put) => put,
        None => (control, mode),
    };
    if is_skipped(mode, next)? {
        return Ok(LineLook::Skipped);
    }
    match control.block {
        Some(_) => Ok(LineLook::InBlock),
        None => Ok(LineLook::Plain),
    }
}

/// Whether a line is skipped: not the one that ends a skipped range.
fn is_skipped(mode: &SharedMode, next: &SharedMode) -> Result<bool, AllocError> {
    if mode.is_normal() {
        return Ok(false);
    }
    match mode.to_mode()? {
        Mode::SkipLines(_) => Ok(true),
        Mode::SkipRange(_) => Ok(!next.is_normal()),
        _ => Ok(false),
    }
}

/// What held when a line asked for it first, None where it didn't.
fn control_asked(asks: &[Asked]) -> Option<(&Control, &SharedMode)> {
    for asked in asks {
        if let (Key::Control, Some(Answer::Control(control, mode))) = (&asked.key, &asked.answer) {
            return Some((control, mode));
        }
    }
    None
}

/// What holds behind a line that changes it.
fn control_put(puts: &[Put]) -> Option<(&Control, &SharedMode)> {
    let mut last = None;
    for put in puts {
        if let (Key::Control, Answer::Control(control, mode)) = (&put.key, &put.answer) {
            last = Some((control, mode));
        }
    }
    last
}

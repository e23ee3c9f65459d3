//! Arguments of calls: A.

use crate::asks::Asks;
use crate::card::filled_len;
use crate::cause::Cause;
use crate::columns::Columns;
use crate::findings::Findings;
use crate::letter::Letter;
use crate::operand_fault::OperandFault;
use crate::statement::FlaggedStatement;
use cps_state::{Key, Recorder, macro_of};
use cps_text::Name;
use std::alloc::AllocError;

/// What is wrong with the arguments of a macro's call.
pub fn find_call(
    recorder: &Recorder<'_, Asks>,
    findings: &mut Findings,
    statement: &FlaggedStatement<'_>,
    name: Name,
) -> Result<(), AllocError> {
    if !findings.wants(Letter::A) {
        return Ok(());
    }
    let Some(named) = macro_of(recorder.peek(&Key::Macro(name)))? else {
        return Ok(());
    };
    let tail = statement.card.tail();
    let arguments = Arguments::of(tail, named.parameters.as_slice().len());
    let before = statement.card.before_tail;
    if let Some(open) = arguments.open {
        let len = filled_len(tail).saturating_sub(open);
        let columns = Columns::behind(before.saturating_add(open), len);
        return findings.add(Cause::Operand(OperandFault::ParenthesisOpen), columns);
    }
    if let Some(extra) = arguments.extra {
        let len = arguments.end.saturating_sub(extra);
        let columns = Columns::behind(before.saturating_add(extra), len);
        let count = named.parameters.as_slice().len();
        let fault = OperandFault::ArgumentsTooMany(count);
        return findings.add(Cause::Operand(fault), columns);
    }
    Ok(())
}

/// Where the arguments of a call end: at the first blank outside parentheses.
pub fn arguments_end(tail: &[u8]) -> usize {
    Arguments::of(tail, 0).end
}

/// Places in the arguments of a call.
#[derive(Clone, Copy)]
struct Arguments {
    /// Of a parenthesis that stays open.
    open: Option<usize>,
    /// Of the first argument that is too many.
    extra: Option<usize>,
    /// Of their end.
    end: usize,
}

impl Arguments {
    /// Of a call of a macro with so many parameters.
    fn of(tail: &[u8], parameters: usize) -> Arguments {
        let mut depth: usize = 0;
        let mut open: usize = 0;
        let mut commas: usize = 0;
        let mut extra = None;
        for (at, byte) in tail.iter().enumerate() {
            match *byte {
                b'(' => {
                    if depth == 0 {
                        open = at;
                    }
                    depth = depth.saturating_add(1);
                }
                b')' => depth = depth.saturating_sub(1),
                b' ' if depth == 0 => {
                    return Arguments {
                        open: None,
                        extra,
                        end: at,
                    };
                }
                b',' if depth == 0 => {
                    commas = commas.saturating_add(1);
                    if commas == parameters {
                        extra = Some(at.saturating_add(1));
                    }
                }
                _ => {}
            }
        }
        Arguments {
            open: if depth > 0 { Some(open) } else { None },
            extra,
            end: tail.len(),
        }
    }
}

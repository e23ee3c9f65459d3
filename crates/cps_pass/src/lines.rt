//! The LOCAL lines that the body of a macro begins with.
ghost use Rattle.std.specs.Prelude.{◌≡◌, ◌≤◌, IfOk, length};
ghost use Rattle.cps_pass.specs.Locals as locals;

use cps_expr::Operation;
use cps_state::{Macro, Shared};
use cps_text::{Fields, Name, card_in};
use std::alloc::AllocError;

/// How many lines a body begins with whose operation is LOCAL.
fn local_count(lines: &[Shared<u8>]) -> usize
    ensures count { result ≡ locals.local_count lines.now }
    ensures within { result ≤ length lines.now }
{
    for (count, line) in lines.iter().enumerate() {
        if !is_local(line.as_slice()) {
            return count;
        }
    }
    lines.len()
}

fn is_local(line: &[u8]) -> bool
    ensures { result ≡ locals.is_local line.now }
{
    match card_in(line) {
        Fields::Statement(statement) => is_local_operation(Operation::named(statement.operation)),
        _ => false,
    }
}

fn is_local_operation(operation: Option<Operation>) -> bool
    ensures { result ≡ locals.is_local_operation operation }
{
    match operation {
        Some(Operation::Local) => true,
        _ => false,
    }
}

/// A macro of these parameters and lines.
pub fn macro_of_lines(parameters: Shared<Name>, lines: Vec<Shared<u8>>) -> Result<Macro, AllocError>
    ensures { IfOk result (λ named. named ≡ locals.macro_of_lines parameters lines.items) }
{
    let count = local_count(&lines);
    if count == 0 {
        return Ok(Macro {
            parameters,
            locals: Shared::empty(),
            lines: Shared::from_vec(lines)?,
        });
    }
    let mut locals = lines;
    let lines = locals.split_off(count)?;
    Ok(Macro {
        parameters,
        locals: Shared::from_vec(locals)?,
        lines: Shared::from_vec(lines)?,
    })
}

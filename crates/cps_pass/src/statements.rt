//! Statements that neither skip lines nor keep nor open them, by what they say.
ghost use Rattle.std.specs.Prelude.{OnOk};
ghost use Rattle.cps_expr.specs.Bounds.{IsBounded};
ghost use Rattle.cps_state.specs.Code.Line.{Does};
ghost use Rattle.cps_pass.specs.Statements as statements;

use crate::context::Context;
use crate::fields::{unread_vfd, vfd};
use crate::head::{base, declaration, ident};
use crate::located::present_flags;
use crate::making::{flag, misplaced, unknown, unread};
use crate::origin::{org, unread_org};
use crate::reserving::{bss, bssz};
use crate::symbols::{equate, set_symbol, unread_equate, unread_set};
use crate::uses::{unread_use, use_block};
use crate::words::{con, data_words, dis, unread_words};
use cps_expr::{Machine, Operation, Pseudo};
use cps_state::{Lookup, Recorder};
use std::alloc::AllocError;

/// A statement with its operands.
pub fn obey_plainly<L: Lookup>(
    recorder: &mut Recorder<'_, L>,
    context: Context,
    row: Pseudo,
) -> Result<(), AllocError>
    requires { IsBounded context.control.machine row }
    ensures { OnOk result (Does (statements.obeyed_plainly context.control context.location row) L.answer recorder.old recorder.new) }
{
    match row {
        Pseudo::Ident(name) => ident(recorder, context, Some(name)),
        Pseudo::Abs => declaration(recorder, context, Machine::Cp),
        Pseudo::Periph => declaration(recorder, context, Machine::Pp),
        Pseudo::Base(radix) => base(recorder, context, radix),
        Pseudo::Equate(operand) => equate(recorder, context, &operand),
        Pseudo::Set(operand) => set_symbol(recorder, context, &operand),
        Pseudo::Listing => {
            flag(recorder, present_flags(context.location));
            Ok(())
        }
        Pseudo::Org(operand) => org(recorder, context, &operand),
        Pseudo::Use(block) => use_block(recorder, context, block),
        Pseudo::Bss(operand) => bss(recorder, context, &operand),
        Pseudo::Bssz(operand) => bssz(recorder, context, &operand),
        Pseudo::Con(values) => con(recorder, context, values),
        Pseudo::Data(numbers) => data_words(recorder, context, &numbers),
        Pseudo::Vfd(fields) => vfd(recorder, context, fields),
        Pseudo::Dis(text) => dis(recorder, context, &text),
        Pseudo::Local(_) => {
            misplaced(recorder);
            Ok(())
        }
        _ => {
            unknown(recorder);
            Ok(())
        }
    }
}

/// A statement with unreadable operands.
pub fn obey_unread_plainly<L: Lookup>(
    recorder: &mut Recorder<'_, L>,
    context: Context,
    operation: Operation,
) -> Result<(), AllocError>
    ensures { OnOk result (Does (statements.unreadable_plainly context.control context.location operation) L.answer recorder.old recorder.new) }
{
    match operation {
        Operation::Ident => ident(recorder, context, None),
        Operation::Equate => unread_equate(recorder, context.location),
        Operation::Set => unread_set(recorder, context.location),
        Operation::Org => unread_org(recorder, context),
        Operation::Use => unread_use(recorder, context),
        Operation::Bss | Operation::Bssz | Operation::Con | Operation::Data | Operation::Dis => {
            unread_words(recorder, context)
        }
        Operation::Vfd => unread_vfd(recorder, context),
        Operation::Local => {
            misplaced(recorder);
            Ok(())
        }
        _ => {
            unread(recorder, context.location);
            Ok(())
        }
    }
}

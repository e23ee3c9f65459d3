//! Statements that make nothing but flags.
ghost use Rattle.std.specs.Prelude.{◌≡◌, true};
ghost use Rattle.cps_state.specs.Code.Line.{line_filled};
ghost use Rattle.cps_state.specs.Made.{nothing_made, no_flags};
ghost use Rattle.cps_pass.specs.Located.{present_flags};

use crate::located::present_flags;
use crate::reading::Location;
use cps_state::{Flags, Lookup, Made, Recorder};

/// A statement that does nothing but have flags.
pub fn flag<L: Lookup>(recorder: &mut Recorder<'_, L>, flags: Flags)
    ensures { recorder.new ≡ line_filled recorder.old (nothing_made flags) }
{
    recorder.fill(Made::nothing(flags));
}

/// A statement without an operation, or with one that isn't there.
pub fn unknown<L: Lookup>(recorder: &mut Recorder<'_, L>)
    ensures { recorder.new ≡ line_filled recorder.old (nothing_made (record no_flags { operation = true })) }
{
    let mut flags = Flags::none();
    flags.operation = true;
    flag(recorder, flags);
}

/// A statement that may not stand where it stands, or that passes a limit.
pub fn misplaced<L: Lookup>(recorder: &mut Recorder<'_, L>)
    ensures { recorder.new ≡ line_filled recorder.old (nothing_made (record no_flags { structure = true })) }
{
    let mut flags = Flags::none();
    flags.structure = true;
    flag(recorder, flags);
}

/// One that takes no location field, and that ends or turns something where nothing of the kind is open; or that passes a limit.
pub fn unmatched<L: Lookup>(recorder: &mut Recorder<'_, L>, location: Location)
    ensures { recorder.new ≡ line_filled recorder.old (nothing_made (record (present_flags location) { structure = true })) }
{
    let mut flags = present_flags(location);
    flags.structure = true;
    flag(recorder, flags);
}

/// One that takes no location field, with operands that can't be read, or whose value it doesn't take.
pub fn unread<L: Lookup>(recorder: &mut Recorder<'_, L>, location: Location)
    ensures { recorder.new ≡ line_filled recorder.old (nothing_made (record (present_flags location) { operand = true })) }
{
    let mut flags = present_flags(location);
    flags.operand = true;
    flag(recorder, flags);
}

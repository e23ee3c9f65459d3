//! Lines that are skipped.
ghost use Rattle.std.specs.Prelude.{◌≡◌};
ghost use Rattle.cps_pass.specs.Skipping as skipping;

use crate::located::present_flags;
use crate::reading::Location;
use crate::seen::Seen;
use crate::treatment::Treatment;
use cps_state::{Flags, Mode, Skip};

/// A line where lines of a number are skipped: one fewer is left. After the last one lines are assembled.
pub fn skipped_line(count: u32) -> Treatment
    ensures { result ≡ skipping.skipped_line count }
{
    let later = if count > 1 {
        Mode::SkipLines(count - 1)
    } else {
        Mode::Normal
    };
    Treatment::Passes(later, None, Flags::none())
}

/// One more that is open in another; their count stays at its greatest.
pub fn deeper(nested: u32) -> u32
    ensures { result ≡ skipping.deeper nested }
{
    nested.saturating_add(1)
}

/// A line after which so many ranges are open in the one that is skipped.
fn nesting(skip: Skip, nested: u32) -> Treatment
    ensures { result ≡ skipping.nesting skip nested }
{
    let later = Mode::SkipRange(Skip { nested, ..skip });
    Treatment::Passes(later, None, Flags::none())
}

/// The ELSE of the range that is skipped.
fn own_else(skip: Skip, location: Location) -> Treatment
    ensures { result ≡ skipping.own_else skip location }
{
    if skip.may_resume {
        return Treatment::Resumes(location);
    }
    let mut flags = present_flags(location);
    flags.structure = true;
    Treatment::Passes(Mode::SkipRange(skip), None, flags)
}

/// A line where a range is skipped.
pub fn skipped_in_range(skip: Skip, seen: Seen) -> Treatment
    ensures { result ≡ skipping.skipped_in_range skip seen }
{
    match seen {
        Seen::Begins => nesting(skip, deeper(skip.nested)),
        Seen::Else(location) if skip.nested == 0 => own_else(skip, location),
        Seen::Endif(location) if skip.nested == 0 => {
            Treatment::Passes(Mode::Normal, None, present_flags(location))
        }
        Seen::Endif(_) => nesting(skip, skip.nested - 1),
        _ => nesting(skip, skip.nested),
    }
}

//! What holds of the lines that a source begins with.
ghost use Rattle.cps_live.specs.Entering.{Entries};

/// Lines with which a source begins are divided as those that are entered one by one, each behind the last.
pub fn lines_at_once_are_divided_as_one_by_one()
    ensures { Entries }
{}

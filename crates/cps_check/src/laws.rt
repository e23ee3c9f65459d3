//! What holds of what is told of a source.
ghost use Rattle.cps_check.specs.Agreement.{Agrees};

/// No error is told of lines exactly where batch assembly takes them and flags none.
pub fn a_check_agrees_with_batch()
    ensures { Agrees }
{}

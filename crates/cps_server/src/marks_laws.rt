//! What holds of the marks of a text.
ghost use Rattle.cps_server.specs.Laws.{AgreesWithBatch};

/// A text is marked nowhere exactly where batch assembly takes it and flags no line.
pub fn marks_agree_with_batch()
    ensures { AgreesWithBatch }
{}

//! What holds of all texts.
ghost use Rattle.cps_rpc.specs.TextLaws.{LinesAreSplit, LinesMakeText, SourceIsRead, SourceIsReplaced, UnitsTellPlace};

/// A text is that of its lines.
pub fn lines_make_text()
    ensures { LinesMakeText }
{}

/// Batch assembly cuts a text into the same lines.
pub fn lines_are_split()
    ensures { LinesAreSplit }
{}

/// Batch assembly reads a text as the source that it stands for, and as no other.
pub fn source_is_read()
    ensures { SourceIsRead }
{}

/// What a replacement tells of a text's lines holds of its source's too.
pub fn source_is_replaced()
    ensures { SourceIsReplaced }
{}

/// The units before a place between two characters tell that place.
pub fn units_tell_place()
    ensures { UnitsTellPlace }
{}

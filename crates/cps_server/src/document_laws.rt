//! What holds of the source of a text.
ghost use Rattle.cps_server.specs.Document.{AgreesWithBatch, StandsForSource};

/// A text that batch assembly takes stands for the source that batch assembly reads.
pub fn a_document_agrees_with_batch()
    ensures { AgreesWithBatch }
{}

/// Any text stands for a source that batch assembly may have.
pub fn a_text_stands_for_a_source()
    ensures { StandsForSource }
{}

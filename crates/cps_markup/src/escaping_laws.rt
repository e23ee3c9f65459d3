//! What holds of text in markup.
ghost use Rattle.cps_markup.specs.EscapingLaws.{NoTextIsMarkup, TextIsReadBack};

/// What is written of a text has no character that begins or ends an element or a value.
pub fn no_text_is_markup()
    ensures { NoTextIsMarkup }
{}

/// A text can be read back from what is written of it.
pub fn a_text_is_read_back()
    ensures { TextIsReadBack }
{}

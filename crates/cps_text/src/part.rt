//! The parts of a text that commas separate.
ghost use Rattle.std.specs.Prelude.{◌≡◌, option_map};
ghost use Rattle.cps_text.specs.Parts.{begins_blank, behind_comma};

/// Whether nothing stands before a text's first blank.
pub fn begins_blank(text: &[u8]) -> bool
    ensures { result ≡ begins_blank text.now }
{
    text.is_empty() || text[0] == b' '
}

/// What stands behind a comma in front.
pub fn behind_comma(text: &[u8]) -> Option<&[u8]>
    ensures { option_map (λ rest. rest.now) result ≡ behind_comma text.now }
{
    match text {
        [b',', rest @ ..] => Some(rest),
        _ => None,
    }
}

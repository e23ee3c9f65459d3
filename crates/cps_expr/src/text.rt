//! Texts that are compared.
ghost use Rattle.std.specs.Prelude.{◌≡◌, bytes_eq};
ghost use Rattle.cps_expr.specs.Same.{is_same};

use cps_text::capital;

/// Whether two texts are the same in capitals.
pub(crate) fn is_same(text: &[u8], other: &[u8]) -> bool
    ensures { result ≡ is_same text.now other.now }
{
    if text.len() != other.len() {
        return false;
    }
    let mut rest = text;
    for byte in other {
        match rest {
            [first, others @ ..] if capital(*first) == capital(*byte) => rest = others,
            _ => return false,
        }
    }
    rest.is_empty()
}

/// Whether two texts are the same, character for character.
pub(crate) fn is_text(field: &[u8], text: &[u8]) -> bool
    ensures { result ≡ bytes_eq field.now text.now }
{
    field == text
}

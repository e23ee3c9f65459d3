//! Where blanks and other characters stand in a text.
ghost use Rattle.std.specs.Prelude.{◌≡◌, ◌+◌, ◌^◌, ◌≤◌, ◌<◌, length, take, drop, IfSome};
ghost use Rattle.std.specs.List.{position, position_or_len};
ghost use Rattle.cps_text.specs.Card.{filled_from, blank_from, field_at};
ghost use Rattle.cps_text.specs.Text.{is_blank, is_filled};

/// The first place, from 0, from one on that isn't blank; the end where there is none.
pub fn filled_from(text: &[u8], at: usize) -> usize
    requires { at < 2 ^ 63 }
    ensures column { result ≡ filled_from text.now at }
    ensures near { result < 2 ^ 63 }
{
    at + first_filled(from(text, at))
}

/// The characters from a place on, up to a blank, and where they end.
pub fn field_from(text: &[u8], at: usize) -> (&[u8], usize)
    requires { at < 2 ^ 63 }
    ensures field { result.0.now ≡ field_at text.now at }
    ensures end { result.1 ≡ blank_from text.now at }
    ensures near { result.1 < 2 ^ 63 }
{
    let rest = from(text, at);
    let len = first_blank(rest);
    (&rest[..len], at + len)
}

/// What stands from a place on.
pub fn from(text: &[u8], at: usize) -> &[u8]
    ensures { result.now ≡ drop at text.now }
{
    if text.len() < at {
        return &[];
    }
    let (_, rest) = text.split_at(at);
    rest
}

/// What stands before a column.
pub fn up_to(text: &[u8], at: usize) -> &[u8]
    ensures { result.now ≡ take at text.now }
{
    if text.len() < at {
        return text;
    }
    let (front, _) = text.split_at(at);
    front
}

/// Where the first character stands that isn't blank, or the length.
fn first_filled(text: &[u8]) -> usize
    ensures place { result ≡ position_or_len is_filled text.now }
    ensures within { result ≤ length text.now }
{
    match filled_at(text) {
        Some(at) => at,
        None => text.len(),
    }
}

/// Where the first blank stands, or the length.
fn first_blank(text: &[u8]) -> usize
    ensures place { result ≡ position_or_len is_blank text.now }
    ensures within { result ≤ length text.now }
{
    match blank_at(text) {
        Some(at) => at,
        None => text.len(),
    }
}

fn filled_at(text: &[u8]) -> Option<usize>
    ensures place { result ≡ position is_filled text.now }
    ensures within { IfSome result (λ at. at < length text.now) }
{
    text.iter().position(|byte| *byte != b' ')
}

fn blank_at(text: &[u8]) -> Option<usize>
    ensures place { result ≡ position is_blank text.now }
    ensures within { IfSome result (λ at. at < length text.now) }
{
    text.iter().position(|byte| *byte == b' ')
}

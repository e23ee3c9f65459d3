//! The ends of lines.
ghost use Rattle.std.specs.Prelude.{◌≡◌, ◌==◌, ◌<◌, length, IfSome};
ghost use Rattle.std.specs.List.{position};
ghost use Rattle.cps_input.specs.Lines.{newline, without_return};

use memchr::memchr;

/// Where the first newline stands.
pub fn newline_at(text: &[u8]) -> Option<usize>
    ensures place { result ≡ position (λ byte. byte == newline) text.now }
    ensures within { IfSome result (λ at. at < length text.now) }
{
    memchr(b'\n', text)
}

/// A line without the carriage return at its end.
pub fn without_return(line: &[u8]) -> &[u8]
    ensures { result.now ≡ without_return line.now }
{
    match line {
        [front @ .., b'\r'] => front,
        _ => line,
    }
}

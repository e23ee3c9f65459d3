//! The first run of a text: letters, digits and points.
ghost use Rattle.std.specs.Prelude.{◌≡◌, ◌≤◌, ◌<◌, [], not, length, IfSome};
ghost use Rattle.std.specs.List.{position, position_or_len};
ghost use Rattle.cps_text.specs.Insertion.{is_of_run};
ghost use Rattle.cps_text.specs.Runs.{run_len};

/// How many characters the first run has; a character of no run is by itself.
pub fn run_len(text: &[u8]) -> usize
    ensures len { result ≡ run_len is_of_run text.now }
    ensures within { result ≤ length text.now }
    ensures some { 0 < length text.now → 0 < result }
{
    match text {
        [first, rest @ ..] if is_of_run(*first) => run_end(rest) + 1,
        [_, ..] => 1,
        [] => 0,
    }
}

/// Where the first character stands that is of no run, or the length.
pub fn run_end(text: &[u8]) -> usize
    ensures place { result ≡ position_or_len (λ c. not (is_of_run c)) text.now }
    ensures within { result ≤ length text.now }
{
    match end_of_run(text) {
        Some(at) => at,
        None => text.len(),
    }
}

fn end_of_run(text: &[u8]) -> Option<usize>
    ensures place { result ≡ position (λ c. not (is_of_run c)) text.now }
    ensures within { IfSome result (λ at. at < length text.now) }
{
    text.iter().position(|byte| !is_of_run(*byte))
}

fn is_of_run(byte: u8) -> bool
    ensures { result ≡ is_of_run byte }
{
    byte.is_ascii_alphanumeric() || byte == b'.'
}

//! One argument of a macro's call.
ghost use Rattle.std.specs.Prelude.{◌≡◌, ◌+◌, ◌^◌, ◌≤◌, ◌<◌, true, length, drop};
ghost use Rattle.cps_text.specs.Arguments.{depth_behind, depth_of, depths, argument_len, is_unclosed, are_inside, is_pair, without_pair};

/// How many characters the first argument of a text has.
pub fn argument_len(text: &[u8]) -> usize
    ensures place { result ≡ argument_len text.now }
    ensures within { result ≤ length text.now }
{
    let mut depth: usize = 0;
    for (i, byte) in text.iter().enumerate() {
        if depth == 0 && (*byte == b',' || *byte == b' ') {
            return i;
        }
        depth = depth_behind(depth, *byte);
    }
    text.len()
}

/// Whether a parenthesis stays open.
pub fn is_unclosed(argument: &[u8]) -> bool
    ensures { result ≡ is_unclosed argument.now }
{
    depth_of(argument) > 0
}

/// The argument, without its parentheses if it is one pair of them.
pub fn without_pair(argument: &[u8]) -> &[u8]
    ensures { result.now ≡ without_pair argument.now }
{
    if !is_pair(argument) {
        return argument;
    }
    let (front, _) = argument.split_at(argument.len() - 1);
    let (_, inner) = front.split_at(1);
    inner
}

/// Whether an argument is one pair of parentheses that holds all the rest.
fn is_pair(argument: &[u8]) -> bool
    ensures same { result ≡ is_pair argument.now }
    ensures long { result ≡ true → 2 ≤ length argument.now }
{
    argument.len() > 1 && depth_of(argument) == 0 && is_inside_first(argument)
}

fn is_inside_first(argument: &[u8]) -> bool
    ensures { result ≡ are_inside (drop 1 (depths 0 argument.now)) }
{
    match argument {
        [first, rest @ ..] => is_inside(depth_behind(0, *first), rest),
        _ => true,
    }
}

/// Whether a parenthesis is open before each character.
fn is_inside(begun: usize, text: &[u8]) -> bool
    requires { begun ≤ 1 }
    ensures { result ≡ are_inside (depths begun text.now) }
{
    let mut depth = begun;
    for byte in text {
        if depth == 0 {
            return false;
        }
        depth = depth_behind(depth, *byte);
    }
    true
}

fn depth_of(text: &[u8]) -> usize
    ensures { result ≡ depth_of text.now }
{
    let mut depth: usize = 0;
    for byte in text {
        depth = depth_behind(depth, *byte);
    }
    depth
}

/// How many parentheses are open behind a character.
fn depth_behind(depth: usize, byte: u8) -> usize
    requires { depth < 2 ^ 63 }
    ensures depth { result ≡ depth_behind depth byte }
    ensures most { result ≤ depth + 1 }
{
    match byte {
        b'(' => depth + 1,
        b')' => depth.saturating_sub(1),
        _ => depth,
    }
}

//! The length that a header tells.
ghost use Rattle.std.specs.Prelude.{◌≡◌, ◌≤◌, true, All, length};
ghost use Rattle.std.specs.List.{list_all};
ghost use Rattle.std.specs.Char.{is_ascii_digit};
ghost use Rattle.std.specs.Str.Parse.{digits_value};
ghost use Rattle.httparse.specs.Spans.{IsHeaderWithin};
ghost use Rattle.cps_rpc.specs.Header.{is_length, is_length_name, length_in};
ghost use Rattle.cps_rpc.specs.Code.Front.{told_by};

use httparse::spans::HeaderSpan;

/// The most digits of a length.
const MOST_DIGITS: usize = 9;

/// The length of a message, as the first field of the name Content-Length has it.
pub fn length_told(bytes: &[u8], headers: &[HeaderSpan]) -> Option<usize>
    requires { All (IsHeaderWithin (length bytes.now)) headers.now }
    ensures { result ≡ told_by bytes.now headers.now }
{
    for header in headers {
        if is_length_name(header.name.of(bytes)) {
            return length_in(header.value.of(bytes));
        }
    }
    None
}

fn is_length_name(name: &[u8]) -> bool
    ensures { result ≡ is_length_name name.now }
{
    name.eq_ignore_ascii_case(b"content-length")
}

fn length_in(digits: &[u8]) -> Option<usize>
    ensures { result ≡ length_in digits.now }
{
    if is_length(digits) {
        Some(number_of(digits))
    } else {
        None
    }
}

fn is_length(digits: &[u8]) -> bool
    ensures { result ≡ is_length digits.now }
{
    !digits.is_empty() && digits.len() <= MOST_DIGITS && are_digits(digits)
}

fn are_digits(bytes: &[u8]) -> bool
    ensures { result ≡ list_all is_ascii_digit bytes.now }
{
    bytes.iter().all(|byte| byte.is_ascii_digit())
}

/// The number that decimal digits write.
fn number_of(digits: &[u8]) -> usize
    requires few { length digits.now ≤ MOST_DIGITS }
    requires digits { list_all is_ascii_digit digits.now ≡ true }
    ensures { result ≡ digits_value 10 digits.now }
{
    let mut number = 0;
    for digit in digits {
        number = number * 10 + usize::from(*digit - b'0');
    }
    number
}

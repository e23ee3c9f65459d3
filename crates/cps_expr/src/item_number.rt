//! Data items that are numbers.
ghost use Rattle.std.specs.Prelude.{◌≡◌, ◌+◌, ◌-◌, ◌^◌, ◌<◌, ◌≤◌, length, codes, IfSome};
ghost use Rattle.cps_expr.specs.Item.{begins, bits_of, number_item, numeral_of, sign_len, signed_word};
ghost use Rattle.cps_expr.specs.Number.{number_of};

use crate::machine::Machine;
use crate::number::read_number;
use crate::radix::Radix;
use cps_text::run_end;

/// The number item in front of a text: its word and how many characters it has.
pub fn number_item(text: &[u8], radix: Radix, machine: Machine) -> Option<(u64, usize)>
    ensures item { result ≡ number_item radix machine text.now }
    ensures some { IfSome result (λ item. 0 < item.1) }
    ensures within { IfSome result (λ item. item.1 ≤ length text.now) }
    ensures fits { IfSome result (λ item. item.0 < 2 ^ bits_of machine) }
{
    let sign = sign_len(text);
    let numeral = numeral_of(text);
    let number = read_numeral(numeral, radix, machine)?;
    Some((signed_word(machine, text, number), sign + numeral.len()))
}

fn sign_len(text: &[u8]) -> usize
    ensures len { result ≡ sign_len text.now }
    ensures within { result ≤ length text.now }
{
    match text {
        [b'+' | b'-', ..] => 1,
        _ => 0,
    }
}

/// The letters, digits and points behind the sign.
fn numeral_of(text: &[u8]) -> &[u8]
    ensures numeral { result.now ≡ numeral_of text.now }
    ensures within { sign_len text.now + length result.now ≤ length text.now }
{
    let (_, unsigned) = text.split_at(sign_len(text));
    let (numeral, _) = unsigned.split_at(run_end(unsigned));
    numeral
}

/// The number that a numeral writes, if it fits the word.
fn read_numeral(numeral: &[u8], radix: Radix, machine: Machine) -> Option<u64>
    ensures number { result ≡ number_of (2 ^ bits_of machine) radix numeral.now }
    ensures some { IfSome result (λ number. 0 < length numeral.now) }
    ensures fits { IfSome result (λ number. number < 2 ^ bits_of machine) }
{
    if numeral.is_empty() {
        return None;
    }
    read_number(numeral, radix, ones(machine))
}

/// A word of ones.
fn ones(machine: Machine) -> u64
    ensures ones { result + 1 ≡ 2 ^ bits_of machine }
    ensures below { result < 2 ^ 60 }
{
    match machine {
        Machine::Cp => (1 << 60) - 1,
        Machine::Pp => (1 << 12) - 1,
    }
}

/// The word of a number behind the text's sign.
fn signed_word(machine: Machine, text: &[u8], number: u64) -> u64
    requires { number < 2 ^ bits_of machine }
    ensures word { result ≡ signed_word machine text.now number }
    ensures fits { result < 2 ^ bits_of machine }
{
    if begins_minus(text) {
        ones(machine) - number
    } else {
        number
    }
}

fn begins_minus(text: &[u8]) -> bool
    ensures { result ≡ begins (codes "-") text.now }
{
    matches!(text, [b'-', ..])
}

//! Numbers in octal.
ghost use Rattle.std.specs.Prelude.{◌≡◌, ◌++◌, ◌∷◌, ◌+◌, ◌/◌, ◌%◌, ◌<◌, ◌≤◌, OnOk, OnErr, length, drop};
ghost use Rattle.cps_text.specs.Octal.{octal};

use std::alloc::AllocError;

/// The two octal digits of each number below 64, one pair after another.
static PAIRS: [u8; 128] = *b"\
    0001020304050607\
    1011121314151617\
    2021222324252627\
    3031323334353637\
    4041424344454647\
    5051525354555657\
    6061626364656667\
    7071727374757677";

/// Appends the low octal digits of a number, so many; after a refusal the text is unchanged.
#[inline(always)]
pub fn push_octal(text: &mut Vec<u8>, number: u64, digits: u8) -> Result<(), AllocError>
    ensures ok { OnOk result (text.new.items ≡ text.old.items ++ octal digits number) }
    ensures err { OnErr result (text.new.items ≡ text.old.items) }
{
    let before = text.len();
    text.resize(before + usize::from(digits), b'0')?;
    write_octal(&mut text[before..], number);
    Ok(())
}

/// Writes the low octal digits of a number over a text, as many as it has characters.
#[inline(always)]
pub fn write_octal(text: &mut [u8], number: u64)
    ensures { text.new ≡ octal (length text.old) number }
{
    let mut rest = number;
    let mut place = text.len();
    while place >= 2 {
        place -= 2;
        write_pair(text, place, rest % 64);
        rest /= 64;
    }
    if place == 1 {
        text[0] = b'0' + (rest % 8) as u8;
    }
}

/// Writes the two octal digits of a number below 64 over a text, from a place on.
#[inline(always)]
fn write_pair(text: &mut [u8], place: usize, pair: u64)
    requires within { place + 2 ≤ length text.old }
    requires low { pair < 64 }
    ensures long { length text.new ≡ length text.old }
    ensures digits { drop place text.new ≡ (48 + pair / 8) ∷ (48 + pair % 8) ∷ drop (place + 2) text.old }
{
    let first = pair as usize * 2;
    text[place] = PAIRS[first];
    text[place + 1] = PAIRS[first + 1];
}

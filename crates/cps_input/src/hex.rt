//! Numbers in hexadecimal.
ghost use Rattle.std.specs.Prelude.{◌≡◌, ◌++◌, ◌<◌, OnOk};
ghost use Rattle.cps_input.specs.Hex.{hex, hex_digit};

use std::alloc::AllocError;

/// Appends the low hexadecimal digits of a number, so many.
pub fn push_hex(text: &mut Vec<u8>, number: u32, digits: u8) -> Result<(), AllocError>
    ensures { OnOk result (text.new.items ≡ text.old.items ++ hex digits number) }
{
    if digits == 0 {
        return Ok(());
    }
    push_hex(text, number / 16, digits - 1)?;
    text.push(hex_digit(number % 16))?;
    Ok(())
}

fn hex_digit(digit: u32) -> u8
    requires { digit < 16 }
    ensures { result ≡ hex_digit digit }
{
    b"0123456789ABCDEF"[digit as usize]
}

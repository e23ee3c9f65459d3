//! Words that tell something, in one row.
ghost use Rattle.std.specs.Prelude.{◌≡◌, ◌++◌, [], true, OnOk};
ghost use Rattle.cps_input.specs.Shown.{has_no_control};
ghost use Rattle.cps_cause.specs.Sentence.{cleaned, cleaned_byte};

use cps_expr::Radix;
use cps_text::Name;
use itoa::Buffer;
use std::alloc::{AllocError, Global};
use std::marker::Model;

/// Words in one row: no control character stands in them.
#[derive(Drop)]
pub struct Wording {
    text: Vec<u8>,
    /// Whether values are told in octal, too.
    is_octal: bool,
}

impl Model for Wording {
    ghost use Rattle.std.specs.Prelude.{◌≡◌, ℕ, List, true};
    ghost use Rattle.cps_input.specs.Shown.{has_no_control};

    ghost Value = { List ℕ };

    ghost view = { λ words. words.text.items };

    ghost invariant = { λ words. has_no_control words.text.items ≡ true };
}

impl Wording {
    /// No words. Takes no memory.
    pub fn new(alloc: Global) -> Wording
        ensures { result ≡ [] }
    {
        Wording {
            text: Vec::new(alloc),
            is_octal: false,
        }
    }

    /// From here on values are told in octal, too, where that is the base of numbers.
    pub(crate) fn count_in(&mut self, base: Radix)
        ensures { self.new ≡ self.old }
    {
        self.is_octal = match base {
            Radix::Octal => true,
            Radix::Decimal => false,
        };
    }

    /// The bytes.
    pub fn as_slice(&self) -> &[u8]
        ensures { result.now ≡ self.now }
    {
        self.text.as_slice()
    }

    /// The bytes, as a text of their own. Takes no memory.
    pub fn into_bytes(self) -> Vec<u8>
        ensures { result.items ≡ self }
    {
        let Wording { text, .. } = self;
        text
    }

    /// Appends a text, with `?` in the place of each control character.
    pub fn push(&mut self, more: &[u8]) -> Result<(), AllocError>
        ensures { OnOk result (self.new ≡ self.old ++ cleaned more.now) }
    {
        push_cleaned(&mut self.text, more)
    }
}

/// Appends a text to another, with `?` in the place of each control character.
pub fn push_cleaned(text: &mut Vec<u8>, more: &[u8]) -> Result<(), AllocError>
    ensures ok { OnOk result (text.new.items ≡ text.old.items ++ cleaned more.now) }
    ensures clean { has_no_control text.old.items ≡ true → has_no_control text.new.items ≡ true }
{
    for byte in more {
        text.push(cleaned_byte(*byte))?;
    }
    Ok(())
}

/// The byte, or `?` for a control character.
fn cleaned_byte(byte: u8) -> u8
    ensures { result ≡ cleaned_byte byte }
{
    if byte < b' ' || byte == 0x7F {
        b'?'
    } else {
        byte
    }
}

/// Appends what is quoted between two texts.
pub fn push_quoted(
    text: &mut Wording,
    before: &[u8],
    quoted: &[u8],
    behind: &[u8],
) -> Result<(), AllocError> {
    text.push(before)?;
    text.push(quoted)?;
    text.push(behind)
}

/// Appends a number between two texts.
pub fn push_number(
    text: &mut Wording,
    before: &[u8],
    number: i64,
    behind: &[u8],
) -> Result<(), AllocError> {
    text.push(before)?;
    text.push(Buffer::new().format(number).as_bytes())?;
    text.push(behind)
}

/// Appends a value of a source between two texts: in decimal, and where its base is octal also in that, as `64 (100B)`.
pub fn push_value(
    text: &mut Wording,
    before: &[u8],
    value: i64,
    behind: &[u8],
) -> Result<(), AllocError> {
    push_number(text, before, value, b"")?;
    if text.is_octal && value.unsigned_abs() > 7 {
        text.push(b" (")?;
        push_in_octal(text, value)?;
        text.push(b")")?;
    }
    text.push(behind)
}

/// Appends a value of a source between two texts: in decimal, or where its base is octal in that, as `100B`.
pub fn push_bound(
    text: &mut Wording,
    before: &[u8],
    value: i64,
    behind: &[u8],
) -> Result<(), AllocError> {
    if !text.is_octal || value.unsigned_abs() <= 7 {
        return push_number(text, before, value, behind);
    }
    text.push(before)?;
    push_in_octal(text, value)?;
    text.push(behind)
}

/// The most octal digits of a value.
const OCTAL_DIGITS: u32 = 22;

/// Appends a number in octal, with its sign and B behind it.
fn push_in_octal(text: &mut Wording, value: i64) -> Result<(), AllocError> {
    if value < 0 {
        text.push(b"-")?;
    }
    let magnitude = value.unsigned_abs();
    let mut is_leading = true;
    for place in 0..OCTAL_DIGITS {
        let digit = (magnitude >> (63 - 3 * place)) % 8;
        is_leading = is_leading && digit == 0;
        if !is_leading {
            text.push(&[b'0' + digit as u8])?;
        }
    }
    text.push(b"B")
}

/// Appends a name that may be meant, if there is one.
pub fn push_perhaps(text: &mut Wording, near: Option<Name>) -> Result<(), AllocError> {
    match near {
        Some(name) => push_quoted(text, b"; perhaps ", name.text(), b""),
        None => Ok(()),
    }
}

/// Appends the number of a line behind a text, if the line is known.
pub fn push_line(text: &mut Wording, before: &[u8], line: Option<u32>) -> Result<(), AllocError> {
    match line {
        Some(line) => push_number(text, before, i64::from(line), b""),
        None => Ok(()),
    }
}

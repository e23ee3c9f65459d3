//! The parts of a row, and what each may be.
ghost use Rattle.std.specs.Prelude.{◌≡◌, ◌+◌, ◌*◌, ◌^◌, ◌<◌, ◌≤◌, IfSome, length, true, false, count_by, slice_index};
ghost use Rattle.std.specs.List.{position, position_or_len, list_all};
ghost use Rattle.cps_claims.specs.Parts as parts;

/// The most digits of an address.
const ADDRESS_DIGITS: usize = 6;

/// A part of a row: what stands between blanks.
#[derive(Clone, Copy)]
pub struct RowPart<'a> {
    /// The column in which it begins, from 0 on. A tab reaches to the next one that is a multiple of 8.
    pub column: u128,
    pub text: &'a [u8],
}

/// What is left of a row.
#[derive(Clone, Copy)]
pub struct RowRest<'a> {
    /// The column in which it begins, from 0 on.
    column: u128,
    bytes: &'a [u8],
    ghost bounded: { column + 8 * length bytes.now ≤ 2 ^ 67 },
}

impl<'a> RowRest<'a> {
    ghost use Rattle.cps_claims.specs.Code.Walk.{parts_left, parts_found};

    /// A whole row.
    pub fn of(row: &'a [u8]) -> RowRest<'a>
        ensures { parts_left result ≡ parts.parts_of row.now }
    {
        RowRest {
            column: 0,
            bytes: row,
        }
    }

    /// The next part, and what is left behind it.
    pub fn next(self) -> Option<(RowPart<'a>, RowRest<'a>)>
        ensures parts { parts_left self.entry ≡ parts_found result }
        ensures shorter { IfSome result (λ found. length found.1.bytes.now < length self.entry.bytes.now) }
    {
        let rest = self.behind_blanks();
        if rest.bytes.is_empty() {
            return None;
        }
        let len = part_len(rest.bytes);
        let (text, bytes) = rest.bytes.split_at(len);
        let part = RowPart {
            column: rest.column,
            text,
        };
        let rest = RowRest {
            column: rest.column + len as u128,
            bytes,
        };
        Some((part, rest))
    }

    /// The same without the blanks that it begins with.
    fn behind_blanks(self) -> RowRest<'a>
        ensures parts { parts_left result ≡ parts_left self.entry }
        ensures no_longer { length result.bytes.now ≤ length self.entry.bytes.now }
        ensures filled { 0 < length result.bytes.now → parts.is_blank (slice_index result.bytes.now 0) ≡ false }
    {
        let mut column = self.column;
        let mut at = 0;
        while at < self.bytes.len() && is_blank(self.bytes[at]) {
            column = column_after(column, self.bytes[at]);
            at += 1;
        }
        RowRest {
            column,
            bytes: &self.bytes[at..],
        }
    }
}

/// The column behind a byte.
fn column_after(column: u128, byte: u8) -> u128
    requires { column ≤ 2 ^ 67 }
    ensures { result ≡ parts.column_after column byte }
{
    if byte == b'\t' {
        column + 8 - column % 8
    } else {
        column + 1
    }
}

/// How many bytes stand before the first blank.
fn part_len(bytes: &[u8]) -> usize
    ensures len { result ≡ position_or_len parts.is_blank bytes.now }
    ensures within { result ≤ length bytes.now }
{
    match blank_at(bytes) {
        Some(at) => at,
        None => bytes.len(),
    }
}

fn blank_at(bytes: &[u8]) -> Option<usize>
    ensures place { result ≡ position parts.is_blank bytes.now }
    ensures within { IfSome result (λ at. at < length bytes.now) }
{
    bytes.iter().position(|byte| is_blank(*byte))
}

pub fn is_blank(byte: u8) -> bool
    ensures { result ≡ parts.is_blank byte }
{
    byte == b' ' || byte == b'\t' || byte == b'\r' || byte == 12 || byte == 11
}

/// Whether bytes are blanks alone.
pub fn are_blank(text: &[u8]) -> bool
    ensures { result ≡ list_all parts.is_blank text.now }
{
    text.iter().all(|byte| is_blank(*byte))
}

pub fn is_octal(byte: u8) -> bool
    ensures { result ≡ parts.is_octal byte }
{
    (b'0'..=b'7').contains(&byte)
}

fn is_mark(byte: u8) -> bool
    ensures { result ≡ parts.is_mark byte }
{
    byte == b'?' || byte == b'.' || byte == b'_'
}

fn is_digit(byte: u8) -> bool
    ensures { result ≡ parts.is_digit byte }
{
    is_octal(byte) || is_mark(byte)
}

fn is_figure(byte: u8) -> bool
    ensures { result ≡ parts.is_figure byte }
{
    (b'0'..=b'9').contains(&byte) || is_mark(byte)
}

fn is_taken(byte: u8) -> bool
    ensures { result ≡ parts.is_taken byte }
{
    is_figure(byte) || byte == b'O' || byte == b'o' || byte == b'I' || byte == b'l'
}

/// Whether a part is octal digits and marks alone.
pub fn are_digits(text: &[u8]) -> bool
    ensures { result ≡ parts.are_digits text.now }
{
    text.iter().all(|byte| is_digit(*byte))
}

/// Whether more than half of a part are figures; or it has one, and else only these and letters that are taken for them.
pub fn looks_like_digits(text: &[u8]) -> bool
    ensures { result ≡ parts.looks_like_digits text.now }
{
    let figures = figure_count(text);
    text.len() - figures < figures || (0 < figures && are_taken(text))
}

fn figure_count(text: &[u8]) -> usize
    ensures count { result ≡ count_by parts.is_figure text.now }
    ensures few { result ≤ length text.now }
{
    text.iter().filter(|byte| is_figure(**byte)).count()
}

fn are_taken(text: &[u8]) -> bool
    ensures { result ≡ list_all parts.is_taken text.now }
{
    text.iter().all(|byte| is_taken(*byte))
}

/// The address that a part spells: 1 to 6 octal digits, and perhaps a colon or a B.
pub fn address_in(text: &[u8]) -> Option<u32>
    ensures address { result ≡ parts.address_in text.now }
    ensures few { IfSome result (λ address. address < 2 ^ 18) }
{
    number_in(without_end(text))
}

/// The number that 1 to 6 octal digits spell.
pub fn number_in(digits: &[u8]) -> Option<u32>
    ensures number { result ≡ parts.number_in digits.now }
    ensures few { IfSome result (λ number. number < 2 ^ 18) }
{
    if digits.is_empty() || digits.len() > ADDRESS_DIGITS || !are_octal(digits) {
        return None;
    }
    Some(octal_number(digits))
}

/// A text without its last byte, if that is a colon or a B.
fn without_end(text: &[u8]) -> &[u8]
    ensures { result.now ≡ parts.without_end text.now }
{
    if text.is_empty() {
        return text;
    }
    let before = text.len() - 1;
    if is_end(text[before]) {
        &text[..before]
    } else {
        text
    }
}

fn is_end(byte: u8) -> bool
    ensures { result ≡ parts.is_end byte }
{
    byte == b':' || byte == b'B' || byte == b'b'
}

fn are_octal(text: &[u8]) -> bool
    ensures { result ≡ list_all parts.is_octal text.now }
{
    text.iter().all(|byte| is_octal(*byte))
}

/// The number that a few octal digits spell.
fn octal_number(digits: &[u8]) -> u32
    requires few { length digits.now ≤ ADDRESS_DIGITS }
    requires digits { list_all parts.is_octal digits.now ≡ true }
    ensures number { result ≡ parts.octal_number digits.now }
    ensures small { result < 2 ^ 18 }
{
    let mut number = 0;
    for digit in digits {
        number = 8 * number + u32::from(*digit - b'0');
    }
    number
}

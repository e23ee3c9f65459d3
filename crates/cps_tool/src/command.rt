//! The commands of a script.
ghost use Rattle.std.specs.Prelude.{◌≡◌, ℕ, ◌<◌, ◌≤◌, List, false, length, IfOk, IfSome, IfNone, MatchResult, MatchOption};
ghost use Rattle.std.specs.List.{before_first, after_first, position_from};
ghost use Rattle.cps_tool.specs.Command.{Order, append, insert, replace, delete, move, list, binary, symbols, flags, work, Spells, IsNumber, IsNumbered, IsPair, IsRange, IsMove, is_quit, is_quit_order, order_of};
ghost use Rattle.cps_tool.specs.Code.NoCommand.{IsUnnumbered, IsNoMove};
ghost use Rattle.cps_text.specs.Text.{is_blank};

use cps_text::limits::MOST_COMMAND_BYTES;
use thiserror::Error;

const MOST_DIGITS: usize = 5;

/// Why a line of a script is refused.
#[derive(Clone, Copy, Debug, PartialEq, Eq, Error)]
pub enum ScriptFault {
    /// It is no command.
    #[error("bad command")]
    BadCommand,
}

/// What a line of a script asks.
#[derive(Clone, Copy, PartialEq, Eq)]
pub enum Command<'a> {
    /// To insert a text after the last line.
    Append(&'a [u8]),
    /// To insert a text after the line of that number, 0 for the front.
    Insert(u32, &'a [u8]),
    /// To put a text in place of the line of that number.
    Replace(u32, &'a [u8]),
    /// To delete the lines from one number to another.
    Delete(u32, u32),
    /// To move the lines from one number to another after the line of a third, 0 for the front.
    Move(u32, u32, u32),
    /// To write the listing.
    Listing,
    /// To write the binary text.
    Binary,
    /// To write the cross-reference of the symbols.
    Symbols,
    /// To write the flagged lines.
    Flags,
    /// To write how many steps the latest edit took.
    Work,
    /// To end the script.
    Quit,
}

impl<'a> Command<'a> {
    /// The command that a line spells. Takes no memory.
    pub fn read(line: &'a [u8]) -> Result<Command<'a>, ScriptFault>
        ensures order { MatchResult result (λ command. Spells line.now (order_of command)) (λ _. (order : Order) → Spells line.now order → ⊥) }
        ensures only { IfOk result (λ command. (order : Order) → Spells line.now order → order ≡ order_of command) }
        ensures quit { MatchResult result (λ command. is_quit line.now ≡ is_quit_order (order_of command)) (λ _. is_quit line.now ≡ false) }
    {
        if line.len() > MOST_COMMAND_BYTES {
            return Err(ScriptFault::BadCommand);
        }
        if let Some(command) = read_edit(line) {
            return Ok(command);
        }
        if let Some(command) = read_query(line) {
            return Ok(command);
        }
        match read_plain(line) {
            Some(command) => Ok(command),
            None => Err(ScriptFault::BadCommand),
        }
    }
}

/// The command that ends a script or enters a text after the last line, None where the line spells another or none.
fn read_plain(line: &[u8]) -> Option<Command<'_>>
    requires { length line.now ≤ MOST_COMMAND_BYTES }
    ensures order { IfSome result (λ command. Spells line.now (order_of command)) }
    ensures quit { IfSome result (λ command. is_quit line.now ≡ is_quit_order (order_of command)) }
    ensures no_append { IfNone result ((text : List ℕ) → Spells line.now (append text) → ⊥) }
    ensures no_quit { IfNone result (is_quit line.now ≡ false) }
{
    match line {
        b"quit" => Some(Command::Quit),
        b"a" => Some(Command::Append(&[])),
        [b'a', b' ', text @ ..] => Some(Command::Append(text)),
        _ => None,
    }
}

/// The command to write a text or the steps of an edit, None where the line spells another or none.
fn read_query(line: &[u8]) -> Option<Command<'_>>
    requires { length line.now ≤ MOST_COMMAND_BYTES }
    ensures order { IfSome result (λ command. Spells line.now (order_of command)) }
    ensures quit { IfSome result (λ command. is_quit line.now ≡ is_quit_order (order_of command)) }
    ensures no_list { IfNone result (Spells line.now list → ⊥) }
    ensures no_binary { IfNone result (Spells line.now binary → ⊥) }
    ensures no_symbols { IfNone result (Spells line.now symbols → ⊥) }
    ensures no_flags { IfNone result (Spells line.now flags → ⊥) }
    ensures no_work { IfNone result (Spells line.now work → ⊥) }
{
    match line {
        b"list" => Some(Command::Listing),
        b"binary" => Some(Command::Binary),
        b"symbols" => Some(Command::Symbols),
        b"flags" => Some(Command::Flags),
        b"work" => Some(Command::Work),
        _ => None,
    }
}

/// The command to insert a text after a line, to put one in place of a line, to delete lines or to move them, None where the line spells another or none.
fn read_edit(line: &[u8]) -> Option<Command<'_>>
    requires { length line.now ≤ MOST_COMMAND_BYTES }
    ensures order { IfSome result (λ command. Spells line.now (order_of command)) }
    ensures quit { IfSome result (λ command. is_quit line.now ≡ is_quit_order (order_of command)) }
    ensures no_insert { IfNone result ((after : ℕ) (text : List ℕ) → Spells line.now (insert after text) → ⊥) }
    ensures no_replace { IfNone result ((at : ℕ) (text : List ℕ) → Spells line.now (replace at text) → ⊥) }
    ensures no_delete { IfNone result ((first last : ℕ) → Spells line.now (delete first last) → ⊥) }
    ensures no_move { IfNone result ((first last after : ℕ) → Spells line.now (move first last after) → ⊥) }
{
    match line {
        [b'i', b' ', bytes @ ..] => {
            let (after, text) = read_numbered(bytes)?;
            Some(Command::Insert(after, text))
        }
        [b'r', b' ', bytes @ ..] => {
            let (at, text) = read_numbered(bytes)?;
            Some(Command::Replace(at, text))
        }
        [b'd', b' ', bytes @ ..] => {
            let (first, last) = read_range(bytes)?;
            Some(Command::Delete(first, last))
        }
        [b'm', b' ', bytes @ ..] => {
            let (first, last, after) = read_move(bytes)?;
            Some(Command::Move(first, last, after))
        }
        _ => None,
    }
}

/// A number of 1 to 5 digits, and the text behind the blank that follows it.
fn read_numbered(bytes: &[u8]) -> Option<(u32, &[u8])>
    ensures { MatchOption result (IsUnnumbered bytes.now) (λ numbered. IsNumbered bytes.now numbered.0 numbered.1.now) }
{
    let (digits, text) = split_at_blank(bytes);
    let number = read_number(digits)?;
    Some((number, text))
}

/// The numbers of the first and the last of some lines, with a blank between them. One number alone is both.
fn read_range(bytes: &[u8]) -> Option<(u32, u32)>
    ensures { MatchOption result
        ((first last : ℕ) → IsRange bytes.now first last → ⊥)
        (λ range. IsRange bytes.now range.0 range.1) }
{
    if let Some(pair) = read_pair(bytes) {
        return Some(pair);
    }
    let only = read_number(bytes)?;
    Some((only, only))
}

/// The numbers of the first and the last of some lines, and of the line that they go after, with a blank between two of them.
fn read_move(bytes: &[u8]) -> Option<(u32, u32, u32)>
    ensures { MatchOption result (IsNoMove bytes.now) (λ numbers. IsMove bytes.now numbers.0 numbers.1 numbers.2) }
{
    let (digits, more) = split_at_blank(bytes);
    let first = read_number(digits)?;
    let (last, after) = read_pair(more)?;
    Some((first, last, after))
}

/// Two numbers with a blank between them.
fn read_pair(bytes: &[u8]) -> Option<(u32, u32)>
    ensures { MatchOption result
        ((one two : ℕ) → IsPair bytes.now one two → ⊥)
        (λ pair. IsPair bytes.now pair.0 pair.1) }
{
    let (digits, more) = split_at_blank(bytes);
    let one = read_number(digits)?;
    let two = read_number(more)?;
    Some((one, two))
}

/// The bytes before and behind the first blank, or all of them and none.
fn split_at_blank(bytes: &[u8]) -> (&[u8], &[u8])
    ensures front { result.0.now ≡ before_first is_blank bytes.now }
    ensures back { result.1.now ≡ after_first is_blank bytes.now }
{
    match first_blank(bytes) {
        Some(at) => (&bytes[..at], &bytes[at + 1..]),
        None => (bytes, &[]),
    }
}

fn first_blank(bytes: &[u8]) -> Option<usize>
    ensures place { result ≡ position_from is_blank 0 bytes.now }
    ensures bound { IfSome result (λ at. at < length bytes.now) }
{
    bytes.iter().position(|byte| *byte == b' ')
}

fn read_number(digits: &[u8]) -> Option<u32>
    ensures { MatchOption result
        ((number : ℕ) → IsNumber digits.now number → ⊥)
        (λ number. IsNumber digits.now number) }
{
    if digits.is_empty() || digits.len() > MOST_DIGITS {
        return None;
    }
    let mut number = 0;
    for digit in digits {
        if !digit.is_ascii_digit() {
            return None;
        }
        number = number * 10 + (*digit - b'0') as u32;
    }
    Some(number)
}

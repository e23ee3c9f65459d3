//! What a call tells: what was asked for, or what is wrong.
ghost use Rattle.std.specs.Prelude.{◌≡◌};
ghost use Rattle.cps_tool.specs.CommandLine.{status_at_end, status_if, status_with, TellsText, TellsUnread, IsQuiet};

use super::writing::write_bytes;
use arrayvec::ArrayString;
use cps_text::Counted;
use cps_words::Unread;
use std::fmt::{Display, Write as _};
use std::io::Write;

pub const CLEAN: u8 = 0;

const FLAGGED: u8 = 1;

pub const FAULTY: u8 = 2;

pub const NO_MEMORY: &str = "no memory\n";

pub const NO_FILES: &str = "error: no file is read or written here\n";

/// Says why words ask nothing.
pub fn tell_unread<W: Write, E: Write>(
    unread: Unread,
    writer: &mut Counted<W>,
    errors: &mut Counted<E>,
) -> u8
    ensures tells { TellsUnread W.contents unread result writer.old writer.new }
    ensures quiet { IsQuiet result errors.old errors.new }
{
    match unread {
        Unread::Told(text) => tell(writer, errors, text.as_bytes()),
        Unread::Wrong(text) => complain(errors, text.as_str()),
        Unread::Memory => complain(errors, NO_MEMORY),
    }
}

/// The status after a run that found so many lines, or words.
pub fn status_of_count(count: u32) -> u8
    ensures { result ≡ status_with count }
{
    if count == 0 { CLEAN } else { FLAGGED }
}

/// The status after a check that told an error, or none.
pub fn status_of_check(is_wrong: bool) -> u8
    ensures { result ≡ status_if is_wrong }
{
    if is_wrong { FLAGGED } else { CLEAN }
}

/// The status after an editor was answered, by whether `shutdown` came before the end.
pub fn status_of_end(was_shut_down: bool) -> u8
    ensures { result ≡ status_at_end was_shut_down }
{
    if was_shut_down { CLEAN } else { FLAGGED }
}

/// Writes what was asked for.
pub fn tell<W: Write, E: Write>(writer: &mut Counted<W>, errors: &mut Counted<E>, text: &[u8]) -> u8
    ensures tells { TellsText W.contents result text.now writer.old writer.new }
    ensures quiet { IsQuiet result errors.old errors.new }
{
    match write_bytes(writer, text) {
        Ok(()) => CLEAN,
        Err(fault) => complain_of(errors, fault),
    }
}

/// Tells a fault of the run, on a line of its own.
pub fn complain_of<E: Write, F: Display + Drop>(errors: &mut Counted<E>, fault: F) -> u8
    ensures { result ≡ 2 }
{
    let mut text: ArrayString<128> = ArrayString::new();
    let _ = writeln!(text, "{fault}");
    complain(errors, text.as_str())
}

/// Tells what is wrong. Where that can't be written, nothing more is done.
pub fn complain<E: Write>(errors: &mut Counted<E>, text: &str) -> u8
    ensures { result ≡ 2 }
{
    let _ = write_bytes(errors, text.as_bytes());
    FAULTY
}

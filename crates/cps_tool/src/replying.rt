//! Obeying the commands of a script, and writing the replies.
ghost use Rattle.std.specs.Prelude.{◌≡◌, ◌++◌, MatchOption, MatchResult, OnOk, OnErr, IsErrOf, codes, decimal};
ghost use Rattle.cps_text.specs.Counted.{failures_of, FailsOnce};
ghost use Rattle.cps_text.specs.Line.{IsLine};
ghost use Rattle.cps_tool.specs.EditReplies.{IsNoLine, Inserted, Replaced, Deleted, Moved, at};
ghost use Rattle.cps_tool.specs.Reply.{meaning_of, shown, refused, worked, refusal_of, reply_text, refusal_text};
ghost use Rattle.cps_tool.specs.declared.reply.Refusal.TheVariants.{NoMemory};
ghost use Rattle.cps_tool.specs.Code.Progress.{ObeysLine};
ghost use Rattle.cps_tool.specs.Written.{IsWritten, IsFrontWritten};

use super::command::Command;
use super::reply::{Refusal, Reply};
use super::writing::{RunFault, write_bytes};
use arrayvec::ArrayString;
use cps_list::Part;
use cps_live::{EditFault, Session};
use cps_state::Work;
use cps_text::{Counted, Line, LineFault};
use itoa::Buffer;
use std::alloc::{AllocError, Global};
use std::io::Write;

/// The reply to a line of a script, None to the one that ends it.
pub fn obey(alloc: Global, line: &[u8], session: &mut Session, work: &mut Work) -> Option<Reply>
    ensures { ObeysLine (at session.old.lines work.old) line.now result (at session.new.lines work.new) }
{
    match Command::read(line) {
        Err(_) => Some(Reply::Refused(Refusal::BadCommand)),
        Ok(Command::Append(text)) => Some(insert_line(alloc, session.count(), text, session, work)),
        Ok(Command::Insert(after, text)) => Some(insert_line(alloc, after, text, session, work)),
        Ok(Command::Replace(at, text)) => Some(replace_line(alloc, at, text, session, work)),
        Ok(Command::Delete(first, last)) => Some(delete_lines(first, last, session, work)),
        Ok(Command::Move(first, last, after)) => {
            Some(move_lines(first, last, after, session, work))
        }
        Ok(Command::Listing) => Some(show(session.text(alloc, Part::Listing))),
        Ok(Command::Binary) => Some(show(session.text(alloc, Part::Binary))),
        Ok(Command::Symbols) => Some(show(session.text(alloc, Part::Symbols))),
        Ok(Command::Flags) => Some(show(session.text(alloc, Part::Flags))),
        Ok(Command::Work) => Some(Reply::Worked(work.ones(), work.twos())),
        Ok(Command::Quit) => None,
    }
}

/// The reply to a query, by its text.
fn show(text: Result<Vec<u8>, AllocError>) -> Reply
    ensures { MatchResult text (λ text. meaning_of result ≡ shown text.items) (λ _. meaning_of result ≡ refused NoMemory) }
{
    match text {
        Ok(text) => Reply::Shown(text),
        Err(_) => Reply::Refused(Refusal::NoMemory),
    }
}

/// Inserts a text after the line of that number, 0 for the front. A text that is refused takes no memory.
fn insert_line(
    alloc: Global,
    after: u32,
    text: &[u8],
    session: &mut Session,
    work: &mut Work,
) -> Reply
    ensures { Inserted session.old.lines after text.now (meaning_of result) (at session.new.lines work.new) }
{
    *work = Work::new();
    if after > session.count() {
        return Reply::Refused(Refusal::NoSuchLine);
    }
    if session.is_full() {
        return match refusal_of_text(text) {
            Some(refusal) => Reply::Refused(refusal),
            None => Reply::Refused(Refusal::TooManyLines),
        };
    }
    let line = match Line::new(alloc, text) {
        Ok(line) => line,
        Err(LineFault::LineTooLong) => return Reply::Refused(Refusal::LineTooLong),
        Err(LineFault::BadCharacter) => return Reply::Refused(Refusal::BadCharacter),
        Err(LineFault::Memory) => return Reply::Refused(Refusal::NoMemory),
    };
    match session.insert(after, line, work) {
        Ok(()) => Reply::Accepted(session.count()),
        Err(fault) => Reply::Refused(refusal_of_edit(fault)),
    }
}

/// Why a text is no line, None where it is one. Takes no memory.
fn refusal_of_text(text: &[u8]) -> Option<Refusal>
    ensures { MatchOption result (IsLine text.now) (IsNoLine text.now) }
{
    match Line::check(text) {
        Ok(()) => None,
        Err(LineFault::LineTooLong) => Some(Refusal::LineTooLong),
        Err(LineFault::BadCharacter) => Some(Refusal::BadCharacter),
        Err(LineFault::Memory) => Some(Refusal::NoMemory),
    }
}

/// Puts a text in place of a line, where lines count from 1.
fn replace_line(
    alloc: Global,
    line_number: u32,
    text: &[u8],
    session: &mut Session,
    work: &mut Work,
) -> Reply
    ensures { Replaced session.old.lines line_number text.now (meaning_of result) (at session.new.lines work.new) }
{
    *work = Work::new();
    if line_number == 0 || line_number > session.count() {
        return Reply::Refused(Refusal::NoSuchLine);
    }
    let line = match Line::new(alloc, text) {
        Ok(line) => line,
        Err(LineFault::LineTooLong) => return Reply::Refused(Refusal::LineTooLong),
        Err(LineFault::BadCharacter) => return Reply::Refused(Refusal::BadCharacter),
        Err(LineFault::Memory) => return Reply::Refused(Refusal::NoMemory),
    };
    match session.replace(line_number, line, work) {
        Ok(()) => Reply::Accepted(session.count()),
        Err(fault) => Reply::Refused(refusal_of_edit(fault)),
    }
}

/// Deletes the lines from `first` to `last`, where lines count from 1.
fn delete_lines(first: u32, last: u32, session: &mut Session, work: &mut Work) -> Reply
    ensures { Deleted session.old.lines first last (meaning_of result) (at session.new.lines work.new) }
{
    *work = Work::new();
    match session.delete(first, last, work) {
        Ok(()) => Reply::Accepted(session.count()),
        Err(fault) => Reply::Refused(refusal_of_edit(fault)),
    }
}

/// Moves the lines from `first` to `last` after line `after`, 0 for the front, where lines count from 1.
fn move_lines(first: u32, last: u32, after: u32, session: &mut Session, work: &mut Work) -> Reply
    ensures { Moved session.old.lines first last after (meaning_of result) (at session.new.lines work.new) }
{
    *work = Work::new();
    match session.move_lines(first, last, after, work) {
        Ok(()) => Reply::Accepted(session.count()),
        Err(fault) => Reply::Refused(refusal_of_edit(fault)),
    }
}

fn refusal_of_edit(fault: EditFault) -> Refusal
    ensures { result ≡ refusal_of fault }
{
    match fault {
        EditFault::NoSuchLine => Refusal::NoSuchLine,
        EditFault::TooManyLines => Refusal::TooManyLines,
        EditFault::Memory => Refusal::NoMemory,
    }
}

/// Writes a reply, or a front of it where a write fails.
pub fn write_reply<W: Write>(writer: &mut Counted<W>, reply: &Reply) -> Result<(), RunFault>
    ensures ok { OnOk result (IsWritten W.contents writer.old writer.new (reply_text (meaning_of reply.now))) }
    ensures err { OnErr result (IsFrontWritten W.contents writer.old writer.new (reply_text (meaning_of reply.now))) }
    ensures fault { IsErrOf result RunFault.ReadFault → ⊥ }
    ensures failed { OnErr result (FailsOnce writer.old writer.new) }
    ensures failures { OnOk result (failures_of writer.new ≡ failures_of writer.old) }
{
    match reply {
        Reply::Accepted(count) => write_bytes(writer, accepted_text(*count).as_bytes()),
        Reply::Refused(refusal) => write_bytes(writer, text_of_refusal(*refusal)),
        Reply::Shown(text) => write_bytes(writer, text),
        Reply::Worked(ones, twos) => write_bytes(writer, worked_text(*ones, *twos).as_bytes()),
    }
}

fn accepted_text(count: u32) -> ArrayString<40>
    ensures { result.bytes ≡ codes "ok " ++ decimal count ++ codes " lines\n" }
{
    let mut text = ArrayString::new();
    text.push_str("ok ");
    text.push_str(Buffer::new().format(count));
    text.push_str(" lines\n");
    text
}

fn worked_text(ones: u64, twos: u64) -> ArrayString<64>
    ensures { result.bytes ≡ reply_text (worked ones twos) }
{
    let mut text = ArrayString::new();
    text.push_str("ones ");
    text.push_str(Buffer::new().format(ones));
    text.push_str(" twos ");
    text.push_str(Buffer::new().format(twos));
    text.push_str("\n");
    text
}

fn text_of_refusal(refusal: Refusal) -> &'static [u8]
    ensures { result.now ≡ refusal_text refusal }
{
    match refusal {
        Refusal::NoSuchLine => b"refused 1 no such line\n",
        Refusal::LineTooLong => b"refused 2 line too long\n",
        Refusal::BadCharacter => b"refused 3 bad character\n",
        Refusal::TooManyLines => b"refused 4 too many lines\n",
        Refusal::BadCommand => b"refused 5 bad command\n",
        Refusal::NoMemory => b"refused 6 no memory\n",
    }
}

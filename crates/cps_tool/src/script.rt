//! Running a script.
ghost use Rattle.std.specs.Prelude.{◌≡◌, [], OnOk, OnErr, IsErrOf, ◌≤◌, ◌+◌};
ghost use Rattle.cps_text.specs.Counted.{calls_of, failures_of, FailsOnce};
ghost use Rattle.cps_state.specs.Work.{no_work};
ghost use Rattle.cps_input.specs.Code.BegunLine.{IsBegun};
ghost use Rattle.cps_tool.specs.EditReplies.{at};
ghost use Rattle.cps_tool.specs.Code.Progress.{AnswersLine, ObeysBegun, TakesBytes, TakesEnd};
ghost use Rattle.cps_tool.specs.Script.{RanWhole, RunsScript};

use super::reply::{Refusal, Reply};
use super::replying::{obey, write_reply};
use super::writing::RunFault;
use cps_input::{BegunLine, newline_at};
use cps_live::Session;
use cps_state::Work;
use cps_text::Counted;
use cps_text::limits::MOST_READS;
use std::alloc::Global;
use std::io::{Read, Write};

/// Whether a script goes on.
#[derive(Clone, Copy, PartialEq, Eq)]
pub enum Flow {
    GoesOn,
    Ends,
}

const CHUNK: usize = 512;

/// Reads a script to its `quit` or its end, obeys its commands, and writes the replies. It gives the number of lines
/// of the source at the end that have a flag, and one more if a range is open there.
///
/// After a fault the session holds the edits that were made, also the one whose reply failed.
pub fn run_script<R: Read, W: Write>(
    alloc: Global,
    reader: &mut Counted<R>,
    writer: &mut Counted<W>,
    session: &mut Session,
) -> Result<u32, RunFault>
    ensures run { RunsScript R.remaining W.contents session.old.lines session.new.lines result reader.old reader.new writer.old writer.new }
    ensures whole_input { OnOk result (RanWhole R.remaining W.contents session.old.lines session.new.lines reader.old writer.old writer.new) }
    ensures reads { calls_of reader.new ≤ calls_of reader.old + MOST_READS }
{
    let mut interpreter = Interpreter::new(alloc);
    let mut chunk = [0; CHUNK];
    for _ in 0..MOST_READS {
        let Some(count) = reader.read(&mut chunk) else {
            return Err(RunFault::ReadFault);
        };
        if count == 0 {
            return match interpreter.finish(writer, session) {
                Ok(()) => Ok(session.flagged()),
                Err(fault) => Err(fault),
            };
        }
        match interpreter.take_bytes(&chunk[..count], writer, session) {
            Ok(Flow::GoesOn) => {}
            Ok(Flow::Ends) => return Ok(session.flagged()),
            Err(fault) => return Err(fault),
        }
    }
    Err(RunFault::ReadFault)
}

/// What obeys a script: the command line that has begun, and what the last edit took.
#[derive(Drop)]
struct Interpreter {
    alloc: Global,
    line: BegunLine,
    work: Work,
}

impl Interpreter {
    /// Of a script of which no byte has come.
    fn new(alloc: Global) -> Interpreter
        ensures line { IsBegun result.line [] }
        ensures work { result.work ≡ no_work }
    {
        Interpreter {
            alloc,
            line: BegunLine::new(),
            work: Work::new(),
        }
    }

    /// Takes bytes, and answers each line that ends in them.
    fn take_bytes<W: Write>(
        &mut self,
        bytes: &[u8],
        writer: &mut Counted<W>,
        session: &mut Session,
    ) -> Result<Flow, RunFault>
        ensures takes { TakesBytes W.contents result self.old self.new session.old session.new writer.old writer.new bytes.now }
        ensures fault { IsErrOf result RunFault.ReadFault → ⊥ }
        ensures failed { OnErr result (FailsOnce writer.old writer.new) }
        ensures failures { OnOk result (failures_of writer.new ≡ failures_of writer.old) }
    {
        let mut rest = bytes;
        while let Some(at) = newline_at(rest) {
            self.line.push_all(&rest[..at]);
            match answer_line(self.alloc, &self.line, writer, session, &mut self.work) {
                Ok(Flow::GoesOn) => self.line.clear(),
                Ok(Flow::Ends) => return Ok(Flow::Ends),
                Err(fault) => return Err(fault),
            }
            rest = &rest[at + 1..];
        }
        self.line.push_all(rest);
        Ok(Flow::GoesOn)
    }

    /// Answers the last line, where it has no newline.
    fn finish<W: Write>(
        &mut self,
        writer: &mut Counted<W>,
        session: &mut Session,
    ) -> Result<(), RunFault>
        ensures finishes { TakesEnd W.contents result self.old self.new session.old session.new writer.old writer.new }
        ensures fault { IsErrOf result RunFault.ReadFault → ⊥ }
        ensures failed { OnErr result (FailsOnce writer.old writer.new) }
        ensures failures { OnOk result (failures_of writer.new ≡ failures_of writer.old) }
    {
        if self.line.is_empty() {
            return Ok(());
        }
        match answer_line(self.alloc, &self.line, writer, session, &mut self.work) {
            Ok(_) => Ok(()),
            Err(fault) => Err(fault),
        }
    }
}

/// Obeys a command line that has come, and writes the reply.
fn answer_line<W: Write>(
    alloc: Global,
    line: &BegunLine,
    writer: &mut Counted<W>,
    session: &mut Session,
    work: &mut Work,
) -> Result<Flow, RunFault>
    ensures answer { AnswersLine W.contents result line.now (at session.old.lines work.old) (at session.new.lines work.new)
        writer.old writer.new }
    ensures fault { IsErrOf result RunFault.ReadFault → ⊥ }
    ensures failed { OnErr result (FailsOnce writer.old writer.new) }
    ensures failures { OnOk result (failures_of writer.new ≡ failures_of writer.old) }
{
    let Some(reply) = reply_to(alloc, line, session, work) else {
        return Ok(Flow::Ends);
    };
    write_reply(writer, &reply)?;
    Ok(Flow::GoesOn)
}

/// The reply to a command line that has come, None to the one that ends the script.
fn reply_to(
    alloc: Global,
    line: &BegunLine,
    session: &mut Session,
    work: &mut Work,
) -> Option<Reply>
    ensures { ObeysBegun (at session.old.lines work.old) line.now result (at session.new.lines work.new) }
{
    match line.text() {
        None => Some(Reply::Refused(Refusal::BadCommand)),
        Some(text) => obey(alloc, text, session, work),
    }
}

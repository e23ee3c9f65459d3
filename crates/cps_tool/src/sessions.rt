//! A session, with the lines that it begins with.
ghost use Rattle.std.specs.Prelude.{length, ◌≤◌};
ghost use Rattle.cps_tool.specs.Code.Calling.{DoesSession, UndoneOr};
ghost use Rattle.cps_tool.specs.CommandLine.{IsQuiet, RunsFrom};

use super::faults::complain_of_source;
use super::host::Host;
use super::script::run_script;
use super::sources::{Sources, open_input};
use super::telling::{FAULTY, NO_MEMORY, complain, complain_of, status_of_count};
use cps_input::read_lines;
use cps_live::Session;
use cps_state::Work;
use cps_text::limits::MOST_LINES;
use cps_text::{Counted, Line};
use std::alloc::Global;
use std::io::{Read, Write};
use std::mem::forget;

/// Runs the script of a session that begins with the lines of a file.
pub fn run_session_from<S: Sources, R: Read, W: Write, E: Write>(
    host: &Host<S>,
    name: &str,
    reader: &mut Counted<R>,
    writer: &mut Counted<W>,
    errors: &mut Counted<E>,
) -> u8
    ensures runs { DoesSession (S.holds host.now.files) S.Reader.remaining R.remaining W.contents name.now result
        reader.old reader.new writer.old writer.new }
    ensures quiet { IsQuiet result errors.old errors.new }
{
    match open_input(host.alloc, &host.files, name, errors) {
        Some(file) => {
            let mut file = file;
            match read_lines(host.alloc, &mut file) {
                Ok(lines) => run_session_of(host, lines, reader, writer, errors),
                Err(fault) => complain_of_source(host.alloc, Some(name), fault, errors),
            }
        }
        None => FAULTY,
    }
}

/// Runs the script of a session that begins with these lines.
fn run_session_of<S, R: Read, W: Write, E: Write>(
    host: &Host<S>,
    lines: Vec<Line>,
    reader: &mut Counted<R>,
    writer: &mut Counted<W>,
    errors: &mut Counted<E>,
) -> u8
    requires { length lines.items ≤ MOST_LINES }
    ensures runs { UndoneOr (RunsFrom R.remaining W.contents lines.items) result reader.old reader.new writer.old writer.new }
    ensures quiet { IsQuiet result errors.old errors.new }
{
    match Session::enter(host.alloc, host.hashing, lines, &mut Work::new()) {
        Ok(session) => run_script_over(host.alloc, session, reader, writer, errors),
        Err(_) => complain(errors, NO_MEMORY),
    }
}

/// Runs a script over the source of a session. The program ends with it: what the session keeps is not dropped line by line, and its memory goes with the program's.
pub fn run_script_over<R: Read, W: Write, E: Write>(
    alloc: Global,
    session: Session,
    reader: &mut Counted<R>,
    writer: &mut Counted<W>,
    errors: &mut Counted<E>,
) -> u8
    ensures runs { RunsFrom R.remaining W.contents session.lines result reader.old reader.new writer.old writer.new }
    ensures quiet { IsQuiet result errors.old errors.new }
{
    let mut session = session;
    let ran = run_script(alloc, reader, writer, &mut session);
    forget(session);
    match ran {
        Ok(count) => status_of_count(count),
        Err(fault) => complain_of(errors, fault),
    }
}

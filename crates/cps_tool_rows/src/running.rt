//! Runs of scripts on a source without a line, and of batch assembly. Only here a session is held.
use cps_batch::{BatchFault, batch};
use cps_list::Part;
use cps_live::Session;
use cps_state::Hashing;
use cps_text::Counted;
use cps_tool::{RunFault, run_script};
use std::alloc::Global;
use std::io::{Read, Write};

/// What a run of a script gives, and the source that it leaves.
#[derive(Clone, Copy)]
pub struct ScriptRun {
    pub end: Result<u32, RunFault>,
    /// How many lines the source has.
    pub count: u32,
    /// The first byte of its first line.
    pub first: Option<u8>,
    /// How many of its lines are flagged.
    pub flagged: u32,
}

/// Runs a script.
pub fn run<R: Read, W: Write>(
    alloc: Global,
    reader: &mut Counted<R>,
    writer: &mut Counted<W>,
) -> ScriptRun {
    let mut session = Session::new(alloc, Hashing::by(1));
    let end = run_script(alloc, reader, writer, &mut session);
    let ran = ScriptRun {
        end,
        count: session.count(),
        first: first_byte(&session),
        flagged: session.flagged(),
    };
    drop(session);
    ran
}

fn first_byte(session: &Session) -> Option<u8> {
    session.line(1)?.bytes().first().copied()
}

/// What came of batch assembly, and the text.
#[derive(Drop)]
pub struct BatchRun {
    pub end: Result<u32, BatchFault>,
    pub text: Vec<u8>,
}

/// Assembles a source that a reader gives.
pub fn assemble_from<R: Read>(alloc: Global, reader: &mut Counted<R>, part: Part) -> BatchRun {
    let mut writer = Counted::new(Vec::new(alloc));
    let end = assemble_into(alloc, reader, &mut writer, part);
    BatchRun {
        end,
        text: writer.into_inner(),
    }
}

/// Assembles a source that a reader gives, and writes its text to a writer. Only here batch assembly is called.
pub fn assemble_into<R: Read, W: Write>(
    alloc: Global,
    reader: &mut Counted<R>,
    writer: &mut Counted<W>,
    part: Part,
) -> Result<u32, BatchFault> {
    batch(alloc, Hashing::by(1), reader, writer, part)
}

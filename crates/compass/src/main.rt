//! A cross-assembler for COMPASS Version 3.
//!
//! `compass batch [--part PART] [--listing FILE] .. [FILE]` assembles a source, of standard input where no file is named, and writes its texts to
//! standard output or into files.
//! `compass session [--source FILE]` runs a script of edits and queries on a source, and writes the replies.
//! `compass check [FILE]` tells of each flag, and of each byte that no line may have.
//! `compass compare OCTAL [FILE]` tells which words of a source differ from an octal text.
//! `compass disassemble [OCTAL]` writes a source that makes the words of an octal text.
//! `compass explain WORD` tells of a flag or an operation.
//! `compass server` answers an editor.
//! The status is 0, or 1 where a line of the source is flagged, a word differs or an editor ends without a shutdown, or 2 after a
//! fault, which is told to standard error.
#![tactic(auto)]

mod disk;
mod draft;
mod identity;
mod successor;

use cps_state::Hashing;
use cps_text::Counted;
use cps_tool::{Host, run_call};
use disk::Disk;
use std::io::ErrorKind;
use std::process::ExitCode;
use std::random::RandomSource;
use std::{env, io};

const NO_MEMORY: &str = "no memory";

const NO_RANDOM_BYTES: &str = "no random bytes";

const NOT_UTF8: &str = "error: a word of the call is not UTF-8";

fn main(rt: HostRuntime) -> ExitCode {
    match call(&rt) {
        Ok(status) => ExitCode::from(status),
        Err(fault) => {
            let _ = rt.eprintln(fault);
            ExitCode::from(2)
        }
    }
}

/// Does what the words of the call ask. An error is what is told where there are no words to be had, or no random bytes.
fn call(rt: &HostRuntime) -> Result<u8, &'static str> {
    let words = read_call(rt)?;
    let Ok(words) = words
        .iter()
        .map(|word| word.as_str())
        .collect::<Vec<&str>>(rt.alloc())
    else {
        return Err(NO_MEMORY);
    };
    let mut host = Host {
        alloc: rt.alloc(),
        hashing: draw_hashing(rt)?,
        files: Disk { rt },
    };
    let mut reader = Counted::new(rt.reader());
    let mut writer = Counted::new(io::writer(rt));
    let mut errors = Counted::new(rt.stderr());
    Ok(run_call(&mut host, &words, &mut reader, &mut writer, &mut errors))
}

/// The words of the call.
fn read_call(rt: &HostRuntime) -> Result<Vec<String>, &'static str> {
    match env::args(rt) {
        Ok(words) => words.collect(rt.alloc()).map_err(|_| NO_MEMORY),
        Err(error) if error.kind() == ErrorKind::InvalidData => Err(NOT_UTF8),
        Err(_) => Err(NO_MEMORY),
    }
}

/// How the maps of this run hash. Nobody who writes a source can know it.
fn draw_hashing(rt: &HostRuntime) -> Result<Hashing, &'static str> {
    let mut secret = [0; 8];
    match rt.fill_bytes(&mut secret) {
        Ok(()) => Ok(Hashing::by(u64::from_le_bytes(secret))),
        Err(_) => Err(NO_RANDOM_BYTES),
    }
}

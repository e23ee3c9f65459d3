//! The files that a call names.
ghost use Rattle.std.specs.Prelude.{◌≡◌, ℕ, List, Option, IfOk, IfSome, IfNone};
ghost use Rattle.cps_tool.specs.CommandLine.{IsOpened};

use super::telling::{NO_MEMORY, complain};
use cps_text::Counted;
use cps_words::shown;
use std::alloc::{AllocError, Global};
use std::io;
use std::io::{Read, Write};

/// What opens files by their names.
pub trait Sources {
    ghost use Rattle.std.specs.Prelude.{◌≡◌, ℕ, List, Option, IfOk};

    /// An open file.
    type Reader: Read + Drop;

    ghost holds: { Self → List ℕ → Option (List ℕ) };

    /// Opens a file, which is read from its first byte on. `holds` says which bytes a file of that name has, None where that isn't known.
    fn open(&self, name: &str) -> io::Result<Self::Reader>
        ensures { IfOk result (λ file. Self.Reader.remaining file ≡ holds self.now name.now) };
}

/// Opens a file, of which no byte is read yet. One that can't be opened is told.
pub fn open_input<S: Sources, E: Write>(
    alloc: Global,
    sources: &S,
    name: &str,
    errors: &mut Counted<E>,
) -> Option<Counted<S::Reader>>
    ensures opened { IfSome result (IsOpened (S.holds sources.now name.now) S.Reader.remaining) }
    ensures quiet { IfSome result (λ _. errors.new ≡ errors.old) }
{
    match sources.open(name) {
        Ok(file) => Some(Counted::new(file)),
        Err(error) => {
            match unopened_text(alloc, name, &error) {
                Ok(text) => complain(errors, text.as_str()),
                Err(_) => complain(errors, NO_MEMORY),
            };
            None
        }
    }
}

/// The line that tells why a file can't be opened.
fn unopened_text(alloc: Global, name: &str, error: &io::Error) -> Result<String, AllocError> {
    let why = format!(in alloc; "{error}")?;
    let why = why.split(" (os error ").next().unwrap_or("");
    let text = format!(in alloc; "cannot read {name}: {why}")?;
    let mut line = shown(alloc, &text)?;
    line.push('\n')?;
    Ok(line)
}

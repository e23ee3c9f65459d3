//! What a call says of the words of an octal text.
ghost use Rattle.std.specs.Prelude.{◌≡◌, IfSome};

use super::host::Host;
use super::sources::{Sources, open_input};
use super::telling::{NO_MEMORY, complain};
use cps_draft::{AddressRange, Hints, KnownName, read_names};
use cps_input::{InputFault, read_bytes};
use cps_text::Counted;
use cps_words::{HintWords, read_addresses, read_ranges};
use std::alloc::{AllocError, Global};
use std::io::Write;

const READ_FAULT: &str = "FILE: read fault\n";

/// What the words of a call say, with names that are known.
pub fn make_hints(
    alloc: Global,
    words: HintWords<'_>,
    names: Vec<KnownName>,
) -> Result<Hints, AllocError> {
    Ok(Hints {
        entries: listed_addresses(alloc, words.entries)?,
        code: listed_ranges(alloc, words.code_at)?,
        data: listed_ranges(alloc, words.data_at)?,
        names,
        ident: name_bytes(alloc, words.ident)?,
        is_bare: words.is_bare,
    })
}

fn listed_addresses(alloc: Global, word: Option<&str>) -> Result<Vec<u32>, AllocError> {
    match word {
        Some(word) => read_addresses(alloc, word),
        None => Ok(Vec::new(alloc)),
    }
}

fn listed_ranges(alloc: Global, word: Option<&str>) -> Result<Vec<AddressRange>, AllocError> {
    match word {
        Some(word) => read_ranges(alloc, word),
        None => Ok(Vec::new(alloc)),
    }
}

/// The capitals of a name.
fn name_bytes(alloc: Global, word: Option<&str>) -> Result<Option<Vec<u8>>, AllocError> {
    let Some(word) = word else {
        return Ok(None);
    };
    let mut bytes = Vec::new(alloc);
    for byte in word.as_bytes() {
        bytes.push(byte.to_ascii_uppercase())?;
    }
    Ok(Some(bytes))
}

/// The names that the rows of a file tell, none where no file is named. A file that can't be read is told.
pub fn read_known_names<'a, S: Sources, E: Write>(
    host: &Host<S>,
    file: Option<&'a str>,
    errors: &mut Counted<E>,
) -> Option<Vec<KnownName>>
    ensures quiet { IfSome result (λ _. errors.new ≡ errors.old) }
{
    let Some(name) = file else {
        return Some(Vec::new(host.alloc));
    };
    let file = open_input(host.alloc, &host.files, name, errors)?;
    let mut file = file;
    match read_bytes(host.alloc, &mut file) {
        Ok(text) => names_of(host.alloc, &text, errors),
        Err(InputFault::Memory) => {
            complain(errors, NO_MEMORY);
            None
        }
        Err(_) => {
            complain(errors, READ_FAULT);
            None
        }
    }
}

/// The names that the rows of a text tell.
fn names_of<E: Write>(alloc: Global, text: &[u8], errors: &mut Counted<E>) -> Option<Vec<KnownName>>
    ensures quiet { IfSome result (λ _. errors.new ≡ errors.old) }
{
    match read_names(alloc, text) {
        Ok(names) => Some(names),
        Err(_) => {
            complain(errors, NO_MEMORY);
            None
        }
    }
}

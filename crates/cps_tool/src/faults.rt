//! What a call tells of a source that isn't assembled.
ghost use Rattle.std.specs.Prelude.{◌≡◌};

use super::telling::{NO_MEMORY, complain, complain_of};
use cps_batch::BatchFault;
use cps_compare::OctalFault;
use cps_input::InputFault;
use cps_text::Counted;
use cps_text::limits::MOST_LINES;
use cps_words::shown;
use std::alloc::{AllocError, Global};
use std::io::Write;

/// Tells why batch assembly ends without its texts, with the name of the source's file where that has one.
pub fn complain_of_batch<E: Write>(
    alloc: Global,
    file: Option<&str>,
    fault: BatchFault,
    errors: &mut Counted<E>,
) -> u8
    ensures { result ≡ 2 }
{
    match (file, wrong_line(fault)) {
        (Some(name), Some(wrong)) => match line_text(alloc, name, wrong) {
            Ok(text) => complain(errors, text.as_str()),
            Err(_) => complain(errors, NO_MEMORY),
        },
        _ => complain_of(errors, fault),
    }
}

/// Tells why a comparison ends without its text, with the name of the source's file where that has one.
pub fn complain_of_comparison<E: Write>(
    alloc: Global,
    file: Option<&str>,
    fault: OctalFault,
    errors: &mut Counted<E>,
) -> u8
    ensures { result ≡ 2 }
{
    match (file, fault) {
        (_, OctalFault::Source(InputFault::Memory)) => complain(errors, NO_MEMORY),
        (Some(_), OctalFault::Source(source)) if source != InputFault::ReadFault => {
            complain_of_source(alloc, file, source, errors)
        }
        _ => complain_of(errors, fault),
    }
}

/// Tells why the lines of a source aren't given, with the name of its file where that has one.
pub fn complain_of_source<E: Write>(
    alloc: Global,
    file: Option<&str>,
    fault: InputFault,
    errors: &mut Counted<E>,
) -> u8
    ensures { result ≡ 2 }
{
    complain_of_batch(alloc, file, BatchFault::of_input(fault), errors)
}

/// The first line that no source may have.
#[derive(Clone, Copy)]
struct WrongLine {
    number: u32,
    column: Option<usize>,
    what: &'static str,
}

fn wrong_line(fault: BatchFault) -> Option<WrongLine> {
    let (number, column, what) = match fault {
        BatchFault::LineTooLong(number) => (number, None, "line too long"),
        BatchFault::BadCharacter { line, column } => (line, Some(column), "bad character"),
        BatchFault::TooManyLines => (MOST_LINES as u32 + 1, None, "too many lines"),
        BatchFault::ReadFault | BatchFault::Memory | BatchFault::WriteFault => return None,
    };
    Some(WrongLine {
        number,
        column,
        what,
    })
}

/// What is told of a wrong line of a file, in the form in which a check tells places.
fn line_text(alloc: Global, name: &str, line: WrongLine) -> Result<String, AllocError> {
    let WrongLine {
        number,
        column,
        what,
    } = line;
    let place = match column {
        Some(column) => format!(in alloc; "{name}:{number}:{column}")?,
        None => format!(in alloc; "{name}:{number}")?,
    };
    let text = format!(in alloc; "{place}: {what} (compass check {name} tells more)\n")?;
    shown(alloc, &text)
}

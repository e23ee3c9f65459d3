//! Writing texts into drafts, and placing these where all texts are written.
ghost use Rattle.std.specs.Prelude.{◌≡◌, Some, IfSome, IfOk, IfErr, OnOk, OnErr};
ghost use Rattle.std.specs.Io.KnownBytes.{Appends};
ghost use Rattle.cps_list.specs.Texts.{text_of};
ghost use Rattle.cps_words.specs.Outputs.{files_of, names_of, Places};
ghost use Rattle.cps_words.specs.Placing.{one_less, one_more_on_ok, with_placed};
ghost use Rattle.cps_words.specs.Code.Steps.{bytes_of, files_from, IsUnplaced, IsUnwritten};

use super::fault::OutputFault;
use super::outputs::{FileOutput, FileText, Outputs};
use super::targets::Targets;
use cps_list::{Part, View, make_text};
use std::alloc::Global;
use std::io;
use std::io::{ErrorKind, Write};

/// Writes each text that is wanted into its file: the listing, the binary text, the cross-reference, the flags text and this page, in
/// this order. All are written before the first file is placed. After a fault no draft is left.
pub fn write_outputs<'a, T: Targets, V: View>(
    alloc: Global,
    targets: &mut T,
    view: &V,
    outputs: Outputs<'a>,
    page: &[u8],
) -> Result<(), OutputFault<'a>>
    ensures placed { Places result (T.placed targets.old) (T.placed targets.new)
        (files_of (V.assembly view.now) page.now (names_of outputs.entry)) }
    ensures waiting { T.waiting targets.new ≡ T.waiting targets.old }
{
    let outputs = outputs.last_first(page);
    write_each(alloc, targets, view, &outputs)
}

/// Writes each text that is wanted, and where all are written places the files, the last one first.
fn write_each<'a, T: Targets, V: View>(
    alloc: Global,
    targets: &mut T,
    view: &V,
    outputs: &[FileOutput<'a, '_>],
) -> Result<(), OutputFault<'a>>
    ensures placed { Places result (T.placed targets.old) (T.placed targets.new) (files_from (V.assembly view.now) outputs.now) }
    ensures waiting { T.waiting targets.new ≡ T.waiting targets.old }
{
    let [output, rest @ ..] = outputs else {
        return Ok(());
    };
    let Some(name) = output.name else {
        return write_each(alloc, targets, view, rest);
    };
    let written = match write_draft(alloc, targets, view, output.text, name) {
        Ok(written) => written,
        Err(fault) => return Err(fault),
    };
    match write_each(alloc, targets, view, rest) {
        Ok(()) => place(targets, name, written),
        Err(fault) => {
            targets.discard(name, written);
            Err(fault)
        }
    }
}

/// Puts a draft in the place of the file of that name.
fn place<'a, T: Targets>(
    targets: &mut T,
    name: &'a str,
    draft: T::Draft,
) -> Result<(), OutputFault<'a>>
    ensures placed { OnOk result (T.placed targets.new ≡ with_placed name.now (T.Draft.contents draft) (T.placed targets.old)) }
    ensures unplaced { OnErr result (T.placed targets.new ≡ T.placed targets.old) }
    ensures fault { IfErr result (IsUnplaced name.now) }
    ensures waiting { T.waiting targets.new ≡ one_less (T.waiting targets.old) }
{
    match targets.place(name, draft) {
        Ok(()) => Ok(()),
        Err(error) => Err(OutputFault::Unplaced(name, error)),
    }
}

/// A draft of the file of that name, with a text of a source.
fn write_draft<'a, T: Targets, V: View>(
    alloc: Global,
    targets: &mut T,
    view: &V,
    text: FileText<'_>,
    name: &'a str,
) -> Result<T::Draft, OutputFault<'a>>
    ensures text { IfOk result (λ draft. IfSome (T.placed targets.old)
        (λ _. T.Draft.contents draft ≡ Some (bytes_of (V.assembly view.now) text.entry))) }
    ensures fault { IfErr result (IsUnwritten name.now) }
    ensures placed { T.placed targets.new ≡ T.placed targets.old }
    ensures waiting { T.waiting targets.new ≡ one_more_on_ok result (T.waiting targets.old) }
{
    match text {
        FileText::Part(part) => write_part(alloc, targets, view, part, name),
        FileText::Page(page) => write_bytes(targets, name, page),
    }
}

/// A draft of the file of that name, with a part of a source's texts.
fn write_part<'a, T: Targets, V: View>(
    alloc: Global,
    targets: &mut T,
    view: &V,
    part: Part,
    name: &'a str,
) -> Result<T::Draft, OutputFault<'a>>
    ensures text { IfOk result (λ draft. IfSome (T.placed targets.old)
        (λ _. T.Draft.contents draft ≡ Some (text_of part (V.assembly view.now)))) }
    ensures fault { IfErr result (IsUnwritten name.now) }
    ensures placed { T.placed targets.new ≡ T.placed targets.old }
    ensures waiting { T.waiting targets.new ≡ one_more_on_ok result (T.waiting targets.old) }
{
    let Ok(text) = make_text(alloc, view, part) else {
        return Err(OutputFault::Memory);
    };
    write_bytes(targets, name, &text)
}

/// A draft of the file of that name, with these bytes.
fn write_bytes<'a, T: Targets>(
    targets: &mut T,
    name: &'a str,
    text: &[u8],
) -> Result<T::Draft, OutputFault<'a>>
    ensures text { IfOk result (λ draft. IfSome (T.placed targets.old) (λ _. T.Draft.contents draft ≡ Some text.now)) }
    ensures fault { IfErr result (IsUnwritten name.now) }
    ensures placed { T.placed targets.new ≡ T.placed targets.old }
    ensures waiting { T.waiting targets.new ≡ one_more_on_ok result (T.waiting targets.old) }
{
    let mut draft = match targets.create(name) {
        Ok(draft) => draft,
        Err(error) if error.kind() == ErrorKind::OutOfMemory => return Err(OutputFault::Memory),
        Err(error) => return Err(OutputFault::Uncreated(name, error)),
    };
    match fill(&mut draft, text) {
        Ok(()) => Ok(draft),
        Err(error) => {
            targets.discard(name, draft);
            Err(OutputFault::Unwritten(name, error))
        }
    }
}

/// Writes the whole of a text, and sees that it is kept.
fn fill<W: Write>(writer: &mut W, text: &[u8]) -> io::Result<()>
    ensures { OnOk result (Appends (W.contents writer.old) (W.contents writer.new) text.now) }
{
    writer.write_all(text)?;
    writer.flush()
}

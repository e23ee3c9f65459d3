//! The four texts of an assembled source, and all of them.
ghost use Rattle.std.specs.Prelude.{◌≡◌, ◌<◌, ◌^◌, IfOk};
ghost use Rattle.cps_list.specs.Code.Making.{IsPrintoutOf, shown, shows_listing, shows_binary, shows_symbols, shows_flags};
ghost use Rattle.cps_list.specs.Symbols.{mentions_from};
ghost use Rattle.cps_list.specs.Texts.{text_of};
ghost use Rattle.cps_list.specs.Writing.{Writes};

use crate::mention::{Mention, list_mentions};
use crate::printout::Printout;
use crate::view::View;
use crate::writing::{ListFault, write_text};
use cps_text::Counted;
use std::alloc::{AllocError, Global};
use std::io::Write;

/// One of the texts of a source, or all four in this order.
#[derive(Clone, Copy, PartialEq, Eq)]
pub enum Part {
    Listing,
    Binary,
    Symbols,
    Flags,
    All,
}

impl Part {
    /// Whether the listing is shown.
    pub fn shows_listing(self) -> bool
        ensures { result ≡ shows_listing self }
    {
        matches!(self, Part::Listing | Part::All)
    }

    /// Whether the binary text is shown.
    pub fn shows_binary(self) -> bool
        ensures { result ≡ shows_binary self }
    {
        matches!(self, Part::Binary | Part::All)
    }

    /// Whether the cross-reference is shown.
    pub fn shows_symbols(self) -> bool
        ensures { result ≡ shows_symbols self }
    {
        matches!(self, Part::Symbols | Part::All)
    }

    /// Whether the flags text is shown.
    pub fn shows_flags(self) -> bool
        ensures { result ≡ shows_flags self }
    {
        matches!(self, Part::Flags | Part::All)
    }
}

/// Writes a part. The text is made whole before the first byte is written; after a failed write nothing more is
/// written. The program calls `make_text` or `Printout::finish`, and then `write_text`; this call and the five below
/// are for callers that want one text alone.
pub fn write_part<V: View, W: Write>(
    alloc: Global,
    view: &V,
    part: Part,
    writer: &mut Counted<W>,
) -> Result<(), ListFault>
    ensures { Writes W.contents result writer.old writer.new (text_of part (V.assembly view.now)) }
{
    let Ok(text) = make_text(alloc, view, part) else {
        return Err(ListFault::Memory);
    };
    write_text(writer, &text)
}

/// The text of a part.
pub fn make_text<V: View>(alloc: Global, view: &V, part: Part) -> Result<Vec<u8>, AllocError>
    ensures { IfOk result (λ text. text.items ≡ text_of part (V.assembly view.now)) }
{
    let printout = make_printout(alloc, view, part)?;
    let mentions = mentions_shown(alloc, view, part)?;
    let (text, _) = printout.finish(view.finals(), view.open_at_end(), mentions)?;
    Ok(text)
}

/// What a part shows of all lines.
fn make_printout<V: View>(alloc: Global, view: &V, part: Part) -> Result<Printout, AllocError>
    ensures printout { IfOk result (IsPrintoutOf (V.assembly view.now).lines (V.assembly view.now).outcomes) }
    ensures part { IfOk result (λ printout. printout.part ≡ part) }
    ensures few { IfOk result (λ printout. printout.flagged < 2 ^ 32) }
{
    let mut printout = Printout::new(alloc, part);
    for before in 0..view.count() {
        let Some(line) = view.line(before + 1) else {
            unreachable!();
        };
        let Some(outcome) = view.outcome(before + 1) else {
            unreachable!();
        };
        printout.add(before + 1, line.bytes(), outcome.rows(), outcome.pieces())?;
    }
    Ok(printout)
}

/// The symbols of all lines, where a part shows them.
fn mentions_shown<V: View>(alloc: Global, view: &V, part: Part) -> Result<Vec<Mention>, AllocError>
    ensures { IfOk result (λ mentions. mentions.items ≡ shown (shows_symbols part) (mentions_from 1 (V.assembly view.now).outcomes)) }
{
    if part.shows_symbols() {
        list_mentions(alloc, view)
    } else {
        Ok(Vec::new(alloc))
    }
}

/// Writes the listing, as `write_part` does.
pub fn write_listing<V: View, W: Write>(
    alloc: Global,
    view: &V,
    writer: &mut Counted<W>,
) -> Result<(), ListFault>
    ensures { Writes W.contents result writer.old writer.new (text_of Part.Listing (V.assembly view.now)) }
{
    write_part(alloc, view, Part::Listing, writer)
}

/// Writes the binary text, as `write_part` does.
pub fn write_binary<V: View, W: Write>(
    alloc: Global,
    view: &V,
    writer: &mut Counted<W>,
) -> Result<(), ListFault>
    ensures { Writes W.contents result writer.old writer.new (text_of Part.Binary (V.assembly view.now)) }
{
    write_part(alloc, view, Part::Binary, writer)
}

/// Writes the cross-reference, as `write_part` does.
pub fn write_symbols<V: View, W: Write>(
    alloc: Global,
    view: &V,
    writer: &mut Counted<W>,
) -> Result<(), ListFault>
    ensures { Writes W.contents result writer.old writer.new (text_of Part.Symbols (V.assembly view.now)) }
{
    write_part(alloc, view, Part::Symbols, writer)
}

/// Writes the flags text, as `write_part` does.
pub fn write_flags<V: View, W: Write>(
    alloc: Global,
    view: &V,
    writer: &mut Counted<W>,
) -> Result<(), ListFault>
    ensures { Writes W.contents result writer.old writer.new (text_of Part.Flags (V.assembly view.now)) }
{
    write_part(alloc, view, Part::Flags, writer)
}

/// Writes all four texts, in the order of `Part`, as `write_part` does.
pub fn write_all_parts<V: View, W: Write>(
    alloc: Global,
    view: &V,
    writer: &mut Counted<W>,
) -> Result<(), ListFault>
    ensures { Writes W.contents result writer.old writer.new (text_of Part.All (V.assembly view.now)) }
{
    write_part(alloc, view, Part::All, writer)
}

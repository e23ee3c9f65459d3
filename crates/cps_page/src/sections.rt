//! The sections of a page.
ghost use Rattle.std.specs.Prelude.{◌≡◌, ◌≤◌, [], ◌∷◌, ◌++◌, OnOk, length};
ghost use Rattle.cps_markup.specs.Links.{Leads};
ghost use Rattle.cps_markup.specs.Markup.{identifier, opening};
ghost use Rattle.cps_markup.specs.Code.Adding.{Adds};
ghost use Rattle.cps_page.specs.Code.Making.{AddsListingSection, AddsMemorySection, AddsSection, AddsSymbolSection, AddsWordSection, symbols_among, words_among};

use crate::beside::Beside;
use crate::code_rows::CodeRows;
use crate::flags::push_flags;
use crate::listing::push_listing;
use crate::summary::push_summary;
use crate::tables::{push_blocks, push_forms};
use crate::telling::Telling;
use crate::word_notes::{WordMakers, fill_note};
use cps_list::View;
use cps_markup::{
    Attribute, LineLook, PageSection, Place, ShownRow, Style, Tag, Targets, octal_in, push_closing,
    push_group, push_noted_group, push_opening, push_rows, push_text, row_length,
};
use std::alloc::{AllocError, Global};

/// The binary text, and the rows of the listing that have codes.
#[derive(Clone, Copy)]
pub struct Words<'a> {
    pub text: &'a [u8],
    pub rows: &'a CodeRows,
}

/// The section that tells what the page is of, and where the blocks of the program stand, of which each named one is a place.
pub fn push_memory_section<V: View>(
    alloc: Global,
    page: &mut Vec<u8>,
    view: &V,
    targets: &Targets,
    beside: &Beside,
) -> Result<(), AllocError>
    ensures { OnOk result (AddsMemorySection targets.now page.old.items page.new.items) }
{
    push_begin(page, PageSection::Memory)?;
    push_heading(page, targets, b"Memory")?;
    push_summary(alloc, page, view, targets)?;
    push_blocks(alloc, page, targets, &beside.blocks)?;
    push_closing(page, Tag::Section)?;
    Ok(())
}

/// The section of the listing.
pub fn push_listing_section<V: View>(
    alloc: Global,
    page: &mut Vec<u8>,
    view: &V,
    targets: &Targets,
    beside: &Beside,
) -> Result<(), AllocError>
    ensures { OnOk result (AddsListingSection targets.now (V.assembly view.now) page.old.items page.new.items) }
{
    push_begin(page, PageSection::Listing)?;
    push_heading(page, targets, b"Listing")?;
    push_listing(alloc, page, view, targets, &mut Telling::of(beside))?;
    push_closing(page, Tag::Section)?;
    Ok(())
}

/// The section of the binary text, in which each word to which links can lead is a place, with what made it beside it.
pub fn push_word_section<V: View>(
    alloc: Global,
    page: &mut Vec<u8>,
    view: &V,
    targets: &Targets,
    words: &Words<'_>,
) -> Result<(), AllocError>
    ensures { OnOk result (AddsWordSection targets.now words.now.text.now page.old.items page.new.items) }
{
    push_begin(page, PageSection::Words)?;
    push_heading(page, targets, b"Words")?;
    push_words(alloc, page, view, targets, words)?;
    push_closing(page, Tag::Section)?;
    Ok(())
}

/// The section of the flags text, with the causes of the flags.
pub fn push_flag_section(
    alloc: Global,
    page: &mut Vec<u8>,
    targets: &Targets,
    beside: &Beside,
    text: &[u8],
) -> Result<(), AllocError>
    ensures { OnOk result (AddsSection targets.now PageSection.Flags text.now [] page.old.items page.new.items) }
{
    push_begin(page, PageSection::Flags)?;
    push_heading(page, targets, b"Flags")?;
    push_flags(alloc, page, targets, &mut Telling::of(beside), text)?;
    push_closing(page, Tag::Section)?;
    Ok(())
}

/// The section that tells what the instructions do that occur.
pub fn push_instruction_section(
    alloc: Global,
    page: &mut Vec<u8>,
    targets: &Targets,
    beside: &Beside,
) -> Result<(), AllocError>
    ensures { OnOk result (AddsSection targets.now PageSection.Instructions [] [] page.old.items page.new.items) }
{
    push_begin(page, PageSection::Instructions)?;
    push_heading(page, targets, b"Instructions")?;
    push_forms(alloc, page, targets, &beside.forms)?;
    push_closing(page, Tag::Section)?;
    Ok(())
}

/// The section of the cross-reference, in which each symbol to which links can lead is a place.
pub fn push_symbol_section(
    page: &mut Vec<u8>,
    targets: &Targets,
    text: &[u8],
) -> Result<(), AllocError>
    ensures { OnOk result (AddsSymbolSection targets.now text.now page.old.items page.new.items) }
{
    push_begin(page, PageSection::Symbols)?;
    push_heading(page, targets, b"Symbols")?;
    push_symbols(page, targets, text)?;
    push_closing(page, Tag::Section)?;
    Ok(())
}

/// The rows of the cross-reference, of which one stands at each symbol.
fn push_symbols(page: &mut Vec<u8>, targets: &Targets, text: &[u8]) -> Result<(), AllocError>
    ensures { OnOk result (Adds (Leads targets.now) text.now (symbols_among targets.now.entries.items) page.old.items page.new.items) }
{
    let mut rest = text;
    for entry in &targets.entries {
        let (others, rows) = rest.split_at(length_before(rest, entry.name.text()));
        push_rows(page, targets, PageSection::Symbols, others)?;
        let (row, behind) = rows.split_at(row_length(rows));
        push_group(
            page,
            targets,
            PageSection::Symbols,
            Place::Symbol(entry.name),
            row,
        )?;
        rest = behind;
    }
    push_rows(page, targets, PageSection::Symbols, rest)
}

/// How long the rows are before the one that begins with a name: those of symbols that no line defines. 0 where none begins with it.
fn length_before(rows: &[u8], name: &[u8]) -> usize
    ensures { result ≤ length rows.now }
{
    let mut length: usize = 0;
    for row in rows.split(|byte| *byte == b'\n') {
        if row.starts_with(name) && row.get(name.len()) == Some(&b' ') {
            return length.min(rows.len());
        }
        length = length.saturating_add(row.len()).saturating_add(1);
    }
    0
}

/// The rows of the binary text: one without a word, and one for each word.
fn push_words<V: View>(
    alloc: Global,
    page: &mut Vec<u8>,
    view: &V,
    targets: &Targets,
    words: &Words<'_>,
) -> Result<(), AllocError>
    ensures { OnOk result (Adds (Leads targets.now) words.now.text.now (words_among targets.now.words.items) page.old.items page.new.items) }
{
    let (first, rest) = words.text.split_at(row_length(words.text));
    push_rows(page, targets, PageSection::Words, first)?;
    let rows = Words {
        text: rest,
        rows: words.rows,
    };
    push_word_rows(alloc, page, view, targets, &rows)?;
    Ok(())
}

fn push_word_rows<V: View>(
    alloc: Global,
    page: &mut Vec<u8>,
    view: &V,
    targets: &Targets,
    words: &Words<'_>,
) -> Result<(), AllocError>
    ensures { OnOk result (Adds (Leads targets.now) words.now.text.now (words_among targets.now.words.items) page.old.items page.new.items) }
{
    let made = WordMakers {
        rows: words.rows,
        makers: &targets.makers,
    };
    let mut note = Vec::new(alloc);
    let mut rest = words.text;
    for word in &targets.words {
        let (row, behind) = rest.split_at(row_length(rest));
        fill_note(&mut note, view, &made, octal_in(row))?;
        push_word(page, targets, word.digits, row, &note)?;
        rest = behind;
    }
    push_rows(page, targets, PageSection::Words, rest)
}

fn push_word<'a>(
    page: &mut Vec<u8>,
    targets: &Targets,
    digits: u32,
    row: &'a [u8],
    note: &'a [u8],
) -> Result<(), AllocError>
    ensures { OnOk result (Adds (Leads targets.now) row.now (Place.Word digits ∷ []) page.old.items page.new.items) }
{
    let form = None;
    let shown = ShownRow {
        section: PageSection::Words,
        text: row,
        form,
        begins_word: false,
        look: LineLook::Plain,
        shift: 0,
        meant: &[],
        note,
        note_style: Style::Grey,
        is_summary: false,
    };
    push_noted_group(page, targets, Place::Word(digits), &shown)
}

/// The begin of a section.
fn push_begin(page: &mut Vec<u8>, section: PageSection) -> Result<(), AllocError>
    ensures { OnOk result (page.new.items ≡ page.old.items ++ opening Tag.Section (identifier (Place.Section section) ∷ [])) }
{
    push_opening(
        page,
        Tag::Section,
        &[Attribute::Identifier(Place::Section(section))],
    )
}

fn push_heading(page: &mut Vec<u8>, targets: &Targets, words: &[u8]) -> Result<(), AllocError>
    ensures { OnOk result (Adds (Leads targets.now) [] [] page.old.items page.new.items) }
{
    push_opening(page, Tag::Heading, &[])?;
    push_text(page, words)?;
    push_closing(page, Tag::Heading)?;
    Ok(())
}

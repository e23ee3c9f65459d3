//! What a link leads to.
ghost use Rattle.std.specs.Prelude.{◌≡◌, ◌++◌, OnOk, decimal};
ghost use Rattle.cps_markup.specs.Markup.{escaped};
ghost use Rattle.cps_markup.specs.Places.{place_text, section_name};

use crate::escaping::push_text;
use cps_text::Name;
use itoa::Buffer;
use std::alloc::AllocError;

/// A section of a page: one of the four texts, or what is told beside them.
#[derive(Clone, Copy, PartialEq, Eq)]
pub enum PageSection {
    Memory,
    Listing,
    Words,
    Symbols,
    Flags,
    Instructions,
}

impl PageSection {
    /// The word that identifies the section.
    pub fn name(self) -> &'static [u8]
        ensures { result.now ≡ section_name self }
    {
        match self {
            PageSection::Memory => b"memory",
            PageSection::Listing => b"listing",
            PageSection::Words => b"words",
            PageSection::Symbols => b"symbols",
            PageSection::Flags => b"flags",
            PageSection::Instructions => b"instructions",
        }
    }
}

/// A place of a page: a line of the listing, by its number from 1, a row of the cross-reference, a word of memory, a block, or a section.
#[derive(Clone, Copy, PartialEq, Eq)]
pub enum Place {
    Line(u32),
    Symbol(Name),
    /// By the octal digits of its address, as if they were decimal: 105 is the word at 105B.
    Word(u32),
    /// By its name.
    Block(Name),
    Section(PageSection),
}

/// Appends the identifier of a place.
pub fn push_place(page: &mut Vec<u8>, place: Place) -> Result<(), AllocError>
    ensures { OnOk result (page.new.items ≡ page.old.items ++ escaped (place_text place)) }
{
    match place {
        Place::Line(number) => push_number(page, number),
        Place::Symbol(name) => push_text(page, name.text()),
        Place::Word(digits) => push_word(page, digits),
        Place::Block(name) => push_block(page, name),
        Place::Section(section) => push_text(page, section.name()),
    }
}

/// Appends the identifier of a word: its address behind a letter.
fn push_word(page: &mut Vec<u8>, digits: u32) -> Result<(), AllocError>
    ensures { OnOk result (page.new.items ≡ page.old.items ++ escaped (place_text (Place.Word digits))) }
{
    page.push(b'w')?;
    push_number(page, digits)?;
    Ok(())
}

/// Appends the identifier of a block: its name behind a letter and a sign.
fn push_block(page: &mut Vec<u8>, name: Name) -> Result<(), AllocError>
    ensures { OnOk result (page.new.items ≡ page.old.items ++ escaped (place_text (Place.Block name))) }
{
    push_text(page, b"b-")?;
    push_text(page, name.text())
}

/// Appends a number. No digit is written by name.
pub fn push_number(page: &mut Vec<u8>, number: u32) -> Result<(), AllocError>
    ensures { OnOk result (page.new.items ≡ page.old.items ++ escaped (decimal number)) }
{
    page.extend_from_slice(Buffer::new().format(number).as_bytes())?;
    Ok(())
}

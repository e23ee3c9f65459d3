//! The begins and ends of elements.
ghost use Rattle.std.specs.Prelude.{◌≡◌, [], ◌∷◌, ◌++◌, OnOk, flat_map, map};
ghost use Rattle.cps_markup.specs.Markup.{attribute_name, attribute_of, attribute_text, attribute_value, closing, escaped, opening, identifier, shifted, styled, target};

use crate::escaping::push_text;
use crate::place::{Place, push_number, push_place};
use crate::style::Style;
use crate::tag::Tag;
use std::alloc::AllocError;

/// What an element has: the place that it is, a style, or a text that explains it.
#[derive(Clone, Copy)]
pub enum Attribute<'a> {
    Identifier(Place),
    Styled(Style),
    Titled(&'a [u8]),
    /// Of rows that can be folded: they aren't at first.
    Unfolded,
    /// Of lines: they have so many rows.
    Counted(u32),
}

impl Attribute<'_> {
    /// The name, up to where the value begins.
    fn name(self) -> &'static [u8]
        ensures { result.now ≡ attribute_name (attribute_of self.entry) }
    {
        match self {
            Attribute::Identifier(_) => b" id=\"",
            Attribute::Styled(_) => b" class=\"",
            Attribute::Titled(_) => b" title=\"",
            Attribute::Unfolded => b" open=\"",
            Attribute::Counted(_) => b" style=\"--n:",
        }
    }

    fn push_value(self, page: &mut Vec<u8>) -> Result<(), AllocError>
        ensures { OnOk result (page.new.items ≡ page.old.items ++ escaped (attribute_value (attribute_of self.entry))) }
    {
        match self {
            Attribute::Identifier(place) => push_place(page, place),
            Attribute::Styled(style) => push_text(page, style.name()),
            Attribute::Titled(words) => push_text(page, words),
            Attribute::Unfolded => Ok(()),
            Attribute::Counted(rows) => push_number(page, rows),
        }
    }

    fn push(self, page: &mut Vec<u8>) -> Result<(), AllocError>
        ensures { OnOk result (page.new.items ≡ page.old.items ++ attribute_text (attribute_of self.entry)) }
    {
        page.extend_from_slice(self.name())?;
        self.push_value(page)?;
        page.push(b'"')?;
        Ok(())
    }
}

/// Appends the begin of an element.
pub fn push_opening(
    page: &mut Vec<u8>,
    tag: Tag,
    attributes: &[Attribute<'_>],
) -> Result<(), AllocError>
    ensures { OnOk result (page.new.items ≡ page.old.items ++ opening tag (map attribute_of attributes.now)) }
{
    page.extend_from_slice(tag.begin())?;
    push_attributes(page, attributes)?;
    page.push(b'>')?;
    Ok(())
}

fn push_attributes(page: &mut Vec<u8>, attributes: &[Attribute<'_>]) -> Result<(), AllocError>
    ensures { OnOk result (page.new.items ≡ page.old.items ++ flat_map attribute_text (map attribute_of attributes.now)) }
{
    for attribute in attributes {
        attribute.push(page)?;
    }
    Ok(())
}

/// Appends the begin of a part that has a style.
pub fn push_part_opening(page: &mut Vec<u8>, style: Style) -> Result<(), AllocError>
    ensures { OnOk result (page.new.items ≡ page.old.items ++ opening Tag.Part (styled style ∷ [])) }
{
    page.extend_from_slice(part_opening(style))
}

/// The begin of a part that has a style.
fn part_opening(style: Style) -> &'static [u8]
    ensures { result.now ≡ opening Tag.Part (styled style ∷ []) }
{
    match style {
        Style::Flag => b"<i class=\"f\">",
        Style::Flagged => b"<i class=\"bad\">",
        Style::FieldI => b"<i class=\"i\">",
        Style::FieldJ => b"<i class=\"j\">",
        Style::FieldK => b"<i class=\"k\">",
        Style::Constant => b"<i class=\"K\">",
        Style::Grey => b"<i class=\"z\">",
        Style::Comment => b"<i class=\"x\">",
        Style::Cause => b"<i class=\"c\">",
        Style::Table => b"<i class=\"t\">",
        Style::Block => b"<i class=\"b\">",
        Style::Meant => b"<i class=\"u\">",
        Style::Operand => b"<i class=\"o\">",
        Style::Run => b"<i class=\"run\">",
        Style::PeripheralRun => b"<i class=\"run pp\">",
    }
}

/// Appends the begin of a link.
pub fn push_link_opening(page: &mut Vec<u8>, place: Place) -> Result<(), AllocError>
    ensures { OnOk result (page.new.items ≡ page.old.items ++ opening Tag.Link (target place ∷ [])) }
{
    page.extend_from_slice(b"<a href=\"#")?;
    push_place(page, place)?;
    page.extend_from_slice(b"\">")?;
    Ok(())
}

/// Appends the begin of a part that stands so many digits further right.
pub fn push_shift_opening(page: &mut Vec<u8>, digits: u8) -> Result<(), AllocError>
    ensures { OnOk result (page.new.items ≡ page.old.items ++ opening Tag.Part (shifted digits ∷ [])) }
{
    page.extend_from_slice(b"<i class=\"s")?;
    push_number(page, u32::from(digits))?;
    page.extend_from_slice(b"\">")?;
    Ok(())
}

/// Appends the begin of rows that are a place.
pub fn push_place_opening(page: &mut Vec<u8>, place: Place) -> Result<(), AllocError>
    ensures { OnOk result (page.new.items ≡ page.old.items ++ opening Tag.Row (identifier place ∷ [])) }
{
    page.extend_from_slice(b"<div id=\"")?;
    push_place(page, place)?;
    page.extend_from_slice(b"\">")?;
    Ok(())
}

/// Appends the end of an element.
pub fn push_closing(page: &mut Vec<u8>, tag: Tag) -> Result<(), AllocError>
    ensures { OnOk result (page.new.items ≡ page.old.items ++ closing tag) }
{
    page.extend_from_slice(tag.end())?;
    Ok(())
}

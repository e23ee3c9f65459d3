//! Links, each of which leads somewhere.
ghost use Rattle.std.specs.Prelude.{◌≡◌, [], ◌∷◌, OnOk};
ghost use Rattle.cps_markup.specs.Links.{Leads};
ghost use Rattle.cps_markup.specs.Code.Adding.{Adds};

use crate::attribute::{
    Attribute, push_closing, push_link_opening, push_opening, push_part_opening,
};
use crate::escaping::push_text;
use crate::place::Place;
use crate::style::Style;
use crate::tag::Tag;
use crate::targets::Targets;
use std::alloc::AllocError;

/// Appends words that lead to a place, or the words alone where no link may lead there.
pub fn push_link(
    page: &mut Vec<u8>,
    targets: &Targets,
    words: &[u8],
    place: Place,
) -> Result<(), AllocError>
    ensures { OnOk result (Adds (Leads targets.now) words.now [] page.old.items page.new.items) }
{
    if targets.allows(words, place) {
        push_allowed(page, targets, words, place)
    } else {
        push_plain(page, targets, words)
    }
}

/// Appends words that lead to the line that defines them, or the words alone where they are no symbol that a line defines.
pub fn push_name(page: &mut Vec<u8>, targets: &Targets, words: &[u8]) -> Result<(), AllocError>
    ensures { OnOk result (Adds (Leads targets.now) words.now [] page.old.items page.new.items) }
{
    match targets.home_of(words) {
        Some(line) => push_allowed(page, targets, words, Place::Line(line)),
        None => push_plain(page, targets, words),
    }
}

fn push_allowed(
    page: &mut Vec<u8>,
    targets: &Targets,
    words: &[u8],
    place: Place,
) -> Result<(), AllocError>
    requires { Leads targets.now (record { place = place; words = words.now }) }
    ensures { OnOk result (Adds (Leads targets.now) words.now [] page.old.items page.new.items) }
{
    push_link_opening(page, place)?;
    push_text(page, words)?;
    push_closing(page, Tag::Link)?;
    Ok(())
}

/// Appends words as they are.
pub fn push_plain(page: &mut Vec<u8>, targets: &Targets, words: &[u8]) -> Result<(), AllocError>
    ensures { OnOk result (Adds (Leads targets.now) words.now [] page.old.items page.new.items) }
{
    push_text(page, words)?;
    Ok(())
}

/// Appends words of a style.
pub fn push_styled(
    page: &mut Vec<u8>,
    targets: &Targets,
    words: &[u8],
    style: Style,
) -> Result<(), AllocError>
    ensures { OnOk result (Adds (Leads targets.now) words.now [] page.old.items page.new.items) }
{
    push_part_opening(page, style)?;
    push_text(page, words)?;
    push_closing(page, Tag::Part)?;
    Ok(())
}

/// Appends words of a style that lead to a place, or the words alone where no link may lead there.
pub fn push_styled_link(
    page: &mut Vec<u8>,
    targets: &Targets,
    words: &[u8],
    style: Style,
    place: Place,
) -> Result<(), AllocError>
    ensures { OnOk result (Adds (Leads targets.now) words.now [] page.old.items page.new.items) }
{
    push_part_opening(page, style)?;
    push_link(page, targets, words, place)?;
    push_closing(page, Tag::Part)?;
    Ok(())
}

/// Appends words of a style that lead to the line that defines them, or the words alone where they are no symbol that a line defines.
pub fn push_styled_name(
    page: &mut Vec<u8>,
    targets: &Targets,
    words: &[u8],
    style: Style,
) -> Result<(), AllocError>
    ensures { OnOk result (Adds (Leads targets.now) words.now [] page.old.items page.new.items) }
{
    push_part_opening(page, style)?;
    push_name(page, targets, words)?;
    push_closing(page, Tag::Part)?;
    Ok(())
}

/// Appends words that a title explains.
pub fn push_titled(
    page: &mut Vec<u8>,
    targets: &Targets,
    words: &[u8],
    title: &[u8],
) -> Result<(), AllocError>
    ensures { OnOk result (Adds (Leads targets.now) words.now [] page.old.items page.new.items) }
{
    push_opening(page, Tag::Part, &[Attribute::Titled(title)])?;
    push_text(page, words)?;
    push_closing(page, Tag::Part)?;
    Ok(())
}

/// Appends words beside a text, of which they are no part.
pub fn push_note(
    page: &mut Vec<u8>,
    targets: &Targets,
    style: Style,
    words: &[u8],
) -> Result<(), AllocError>
    ensures { OnOk result (Adds (Leads targets.now) [] [] page.old.items page.new.items) }
{
    push_opening(page, Tag::Note, &[Attribute::Styled(style)])?;
    push_text(page, words)?;
    push_closing(page, Tag::Note)?;
    Ok(())
}

/// Appends a row of a table beside a text, which is a place.
pub fn push_note_at(
    page: &mut Vec<u8>,
    targets: &Targets,
    place: Place,
    words: &[u8],
) -> Result<(), AllocError>
    ensures { OnOk result (Adds (Leads targets.now) [] (place ∷ []) page.old.items page.new.items) }
{
    let attributes = [
        Attribute::Styled(Style::Table),
        Attribute::Identifier(place),
    ];
    push_opening(page, Tag::Note, &attributes)?;
    push_text(page, words)?;
    push_closing(page, Tag::Note)?;
    Ok(())
}

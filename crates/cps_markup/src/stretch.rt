//! A row of a text, of which parts look so, and parts lead somewhere.
ghost use Rattle.std.specs.Prelude.{◌≡◌, ◌≤◌, ◌<◌, [], ◌++◌, OnOk, length};
ghost use Rattle.cps_markup.specs.Links.{Leads};
ghost use Rattle.cps_markup.specs.Markup.{opening};
ghost use Rattle.cps_markup.specs.Code.Adding.{Adds, front_attributes, row_attributes, row_tag};

use crate::attribute::{push_closing, push_shift_opening};
use crate::escaping::push_text;
use crate::line_fields::LineFields;
use crate::line_look::LineLook;
use crate::link::{
    push_link, push_name, push_note, push_plain, push_styled, push_styled_link, push_styled_name,
    push_titled,
};
use crate::meant_columns::MeantColumns;
use crate::painting::{has_address, stretch_at};
use crate::place::{PageSection, Place};
use crate::row_form::RowForm;
use crate::style::Style;
use crate::tag::Tag;
use crate::targets::Targets;
use std::alloc::AllocError;

/// The columns of the listing before the line.
pub const BEFORE_LINE: usize = 44;

/// Those before its code, how many a code has, and those before the number.
pub const BEFORE_CODE: usize = 16;

const CODE_COLUMNS: usize = BEFORE_NUMBER - BEFORE_CODE;

pub const BEFORE_NUMBER: usize = 37;

/// How a part of a row is shown.
#[derive(Clone, Copy)]
pub enum Paint<'a> {
    Plain,
    Styled(Style),
    Linked(Place),
    StyledLink(Style, Place),
    /// As a symbol that is read, which leads to its definition.
    Name,
    StyledName(Style),
    /// Words that this explains.
    Titled(&'a [u8]),
}

/// So many characters of a row, and how they are shown.
#[derive(Clone, Copy)]
pub struct Stretch<'a> {
    pub width: usize,
    pub paint: Paint<'a>,
}

/// A row of the text of a section, as it is shown.
#[derive(Clone, Copy)]
pub struct ShownRow<'a> {
    pub section: PageSection,
    /// With its line feed.
    pub text: &'a [u8],
    /// The form of its instruction, if it has one.
    pub form: Option<RowForm<'a>>,
    /// Whether its address is the first of its kind, with a code or without one.
    pub begins_word: bool,
    pub look: LineLook,
    /// How many digits of its word stand before its code.
    pub shift: u8,
    /// What is meant in its line by causes of its flags.
    pub meant: &'a [MeantColumns],
    /// What is told behind it, perhaps nothing, and how that looks.
    pub note: &'a [u8],
    pub note_style: Style,
    /// Whether it stands for rows that can be folded.
    pub is_summary: bool,
}

impl<'a> ShownRow<'a> {
    /// A row of a section, with its line feed, of which nothing more is known.
    pub fn of(section: PageSection, text: &'a [u8]) -> ShownRow<'a>
        ensures { result.text.now ≡ text.now }
    {
        ShownRow {
            section,
            text,
            form: None,
            begins_word: false,
            look: LineLook::Plain,
            shift: 0,
            meant: &[],
            note: b"",
            note_style: Style::Grey,
            is_summary: false,
        }
    }
}

/// A row that is painted.
#[derive(Clone, Copy)]
pub struct PaintedRow<'a> {
    pub section: PageSection,
    /// Without its line feed.
    pub text: &'a [u8],
    pub form: Option<RowForm<'a>>,
    pub begins_word: bool,
    pub look: LineLook,
    pub shift: u8,
    pub meant: &'a [MeantColumns],
    /// The fields of its line, in the listing.
    pub fields: LineFields,
    /// In the binary text by each digit of its word the line that made it.
    pub makers: &'a [u32],
}

/// Appends a row, with its line feed. Whatever is painted, what it says is the row.
pub fn push_row(
    page: &mut Vec<u8>,
    targets: &Targets,
    shown: &ShownRow<'_>,
) -> Result<(), AllocError>
    ensures { OnOk result (Adds (Leads targets.now) shown.now.text.now [] page.old.items page.new.items) }
{
    let (text, feed) = shown.text.split_at(text_length(shown.text));
    push_row_opening(page, shown.is_summary, is_flagged(shown.section, text))?;
    push_columns(page, targets, shown, text)?;
    push_row_note(page, targets, shown.note_style, shown.note)?;
    push_closing(page, row_tag(shown.is_summary))?;
    push_text(page, feed)?;
    Ok(())
}

/// The begin of a row, which looks otherwise where it has a flag.
fn push_row_opening(
    page: &mut Vec<u8>,
    is_summary: bool,
    is_flagged: bool,
) -> Result<(), AllocError>
    ensures { OnOk result (page.new.items ≡ page.old.items ++ opening (row_tag is_summary) (row_attributes is_flagged)) }
{
    page.extend_from_slice(row_opening(is_summary, is_flagged))
}

fn row_opening(is_summary: bool, is_flagged: bool) -> &'static [u8]
    ensures { result.now ≡ opening (row_tag is_summary) (row_attributes is_flagged) }
{
    match (is_summary, is_flagged) {
        (false, false) => b"<div>",
        (false, true) => b"<div class=\"bad\">",
        (true, false) => b"<summary>",
        (true, true) => b"<summary class=\"bad\">",
    }
}

/// What is told behind a row, if something is.
fn push_row_note(
    page: &mut Vec<u8>,
    targets: &Targets,
    style: Style,
    words: &[u8],
) -> Result<(), AllocError>
    ensures { OnOk result (Adds (Leads targets.now) [] [] page.old.items page.new.items) }
{
    if words.is_empty() {
        return Ok(());
    }
    push_note(page, targets, style, words)
}

fn row_tag(is_summary: bool) -> Tag
    ensures { result ≡ row_tag is_summary }
{
    if is_summary { Tag::Summary } else { Tag::Row }
}

/// Whether a row of the listing has a flag.
fn is_flagged(section: PageSection, row: &[u8]) -> bool {
    section == PageSection::Listing && !row.is_empty() && row[0] != b' '
}

/// The length of a row without its line feed.
fn text_length(row: &[u8]) -> usize
    ensures { result ≤ length row.now }
{
    match row.last() {
        Some(b'\n') => row.len() - 1,
        _ => row.len(),
    }
}

/// The text of a row, of the listing what stands before the line by itself.
fn push_columns(
    page: &mut Vec<u8>,
    targets: &Targets,
    shown: &ShownRow<'_>,
    text: &[u8],
) -> Result<(), AllocError>
    ensures { OnOk result (Adds (Leads targets.now) text.now [] page.old.items page.new.items) }
{
    let width = front_width(shown.section, text);
    let (front, rest) = text.split_at(width);
    let painted = PaintedRow {
        section: shown.section,
        text,
        form: shown.form,
        begins_word: shown.begins_word,
        look: shown.look,
        shift: shown.shift,
        meant: shown.meant,
        fields: fields_in(shown.section, rest),
        makers: makers_in(targets, shown.section, text),
    };
    push_front(page, targets, &painted, front)?;
    push_painted(page, targets, &painted, width, rest)?;
    Ok(())
}

/// The fields of a row's line; none but in the listing.
fn fields_in(section: PageSection, line: &[u8]) -> LineFields {
    match section {
        PageSection::Listing => LineFields::of(line),
        _ => LineFields::none(),
    }
}

/// The lines that made the digits of a row's word; none but in the binary text.
fn makers_in<'a>(targets: &'a Targets, section: PageSection, text: &[u8]) -> &'a [u32] {
    match section {
        PageSection::Words => targets.makers.of_word(octal_in(text)),
        _ => &[],
    }
}

/// The number that a text begins with, in octal digits.
pub fn octal_in(text: &[u8]) -> u32 {
    let mut number: u32 = 0;
    for digit in text {
        match digit {
            b'0'..=b'7' => number = (number << 3) | u32::from(*digit & 7),
            _ => return number,
        }
    }
    number
}

/// How wide what stands before the line is, 0 where no line is shown.
fn front_width(section: PageSection, text: &[u8]) -> usize
    ensures { result ≤ length text.now }
{
    match section {
        PageSection::Listing => BEFORE_LINE.min(text.len()),
        _ => 0,
    }
}

/// What stands before the line, in an element; nothing where there is none.
fn push_front(
    page: &mut Vec<u8>,
    targets: &Targets,
    painted: &PaintedRow<'_>,
    front: &[u8],
) -> Result<(), AllocError>
    ensures { OnOk result (Adds (Leads targets.now) front.now [] page.old.items page.new.items) }
{
    if front.is_empty() {
        return push_plain(page, targets, front);
    }
    push_full_front(page, targets, painted, front)
}

fn push_full_front(
    page: &mut Vec<u8>,
    targets: &Targets,
    painted: &PaintedRow<'_>,
    front: &[u8],
) -> Result<(), AllocError>
    ensures { OnOk result (Adds (Leads targets.now) front.now [] page.old.items page.new.items) }
{
    push_front_opening(page, has_stripe(painted))?;
    push_words(page, targets, painted, front)?;
    push_closing(page, Tag::Front)?;
    Ok(())
}

/// The words before the line, of which the code stands where it stands in its word.
fn push_words(
    page: &mut Vec<u8>,
    targets: &Targets,
    painted: &PaintedRow<'_>,
    front: &[u8],
) -> Result<(), AllocError>
    ensures { OnOk result (Adds (Leads targets.now) front.now [] page.old.items page.new.items) }
{
    if painted.shift == 0 {
        push_painted(page, targets, painted, 0, front)
    } else {
        push_with_shift(page, targets, painted, front)
    }
}

fn push_with_shift(
    page: &mut Vec<u8>,
    targets: &Targets,
    painted: &PaintedRow<'_>,
    front: &[u8],
) -> Result<(), AllocError>
    ensures { OnOk result (Adds (Leads targets.now) front.now [] page.old.items page.new.items) }
{
    let (begin, rest) = front.split_at(BEFORE_CODE.min(front.len()));
    push_painted(page, targets, painted, 0, begin)?;
    let (code, end) = rest.split_at(CODE_COLUMNS.min(rest.len()));
    push_shifted(page, targets, painted, code)?;
    push_painted(page, targets, painted, BEFORE_NUMBER, end)?;
    Ok(())
}

/// The columns of a code, in an element that stands further right.
fn push_shifted(
    page: &mut Vec<u8>,
    targets: &Targets,
    painted: &PaintedRow<'_>,
    code: &[u8],
) -> Result<(), AllocError>
    ensures { OnOk result (Adds (Leads targets.now) code.now [] page.old.items page.new.items) }
{
    push_shift_opening(page, painted.shift)?;
    push_painted(page, targets, painted, BEFORE_CODE, code)?;
    push_closing(page, Tag::Part)?;
    Ok(())
}

/// Whether a row has an address in a named block.
fn has_stripe(painted: &PaintedRow<'_>) -> bool {
    painted.look == LineLook::InBlock && has_address(painted.text)
}

fn push_front_opening(page: &mut Vec<u8>, is_in_block: bool) -> Result<(), AllocError>
    ensures { OnOk result (page.new.items ≡ page.old.items ++ opening Tag.Front (front_attributes is_in_block)) }
{
    if is_in_block {
        page.extend_from_slice(b"<span class=\"b\">")
    } else {
        page.extend_from_slice(b"<span>")
    }
}

/// A part of a row that begins behind so many of its characters.
fn push_painted(
    page: &mut Vec<u8>,
    targets: &Targets,
    painted: &PaintedRow<'_>,
    before: usize,
    text: &[u8],
) -> Result<(), AllocError>
    ensures { OnOk result (Adds (Leads targets.now) text.now [] page.old.items page.new.items) }
{
    let mut rest = text;
    while !rest.is_empty() {
        let at = before.saturating_add(text.len().saturating_sub(rest.len()));
        let stretch = stretch_at(targets, painted, at);
        let (words, behind) = rest.split_at(width_in(stretch.width, rest));
        push_stretch(page, targets, words, stretch.paint)?;
        rest = behind;
    }
    Ok(())
}

/// A width, at least one and no more than is left.
fn width_in(width: usize, rest: &[u8]) -> usize
    requires { 0 < length rest.now }
    ensures some { 1 ≤ result }
    ensures within { result ≤ length rest.now }
{
    width.max(1).min(rest.len())
}

fn push_stretch(
    page: &mut Vec<u8>,
    targets: &Targets,
    words: &[u8],
    paint: Paint<'_>,
) -> Result<(), AllocError>
    ensures { OnOk result (Adds (Leads targets.now) words.now [] page.old.items page.new.items) }
{
    match paint {
        Paint::Plain => push_plain(page, targets, words),
        Paint::Styled(style) => push_styled(page, targets, words, style),
        Paint::Linked(place) => push_link(page, targets, words, place),
        Paint::StyledLink(style, place) => push_styled_link(page, targets, words, style, place),
        Paint::Name => push_name(page, targets, words),
        Paint::StyledName(style) => push_styled_name(page, targets, words, style),
        Paint::Titled(title) => push_titled(page, targets, words, title),
    }
}

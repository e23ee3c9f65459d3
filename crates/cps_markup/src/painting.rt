//! How rows are painted: which parts look how, and which lead where. What is said is the row whatever stands here.
ghost use Rattle.std.specs.Prelude.{◌≤◌, length};

use crate::line_fields::behind;
use crate::line_look::LineLook;
use crate::meant_columns::MeantColumns;
use crate::operand_style::{operand_style, register_place};
use crate::place::{PageSection, Place};
use crate::row_form::RowForm;
use crate::stretch::{BEFORE_CODE, BEFORE_LINE, BEFORE_NUMBER, Paint, PaintedRow, Stretch};
use crate::style::Style;
use crate::targets::Targets;
use cps_text::Name;

/// The columns before the value of a symbol and before its lines.
const BEFORE_VALUE: usize = 9;

const BEFORE_LINES: usize = 30;

/// The columns of the listing before the address.
const BEFORE_ADDRESS: usize = 9;

/// The stretch of a row that begins behind so many of its characters.
pub fn stretch_at<'a>(targets: &Targets, painted: &PaintedRow<'a>, before: usize) -> Stretch<'a> {
    match painted.section {
        PageSection::Listing => listing_stretch(targets, painted, before),
        PageSection::Words => word_stretch(targets, painted, before),
        PageSection::Symbols => symbol_stretch(painted.text, before),
        PageSection::Flags => flag_stretch(painted.text, before),
        PageSection::Memory | PageSection::Instructions => plain(painted.text.len()),
    }
}

/// The address of a word leads to the first line that has a row there, each digit to the line that made it.
fn word_stretch<'a>(targets: &Targets, painted: &PaintedRow<'a>, before: usize) -> Stretch<'a> {
    let row = painted.text;
    if !begins_with_digit(row) {
        return plain(row.len());
    }
    let width = length_until_blank(row);
    if before == 0 {
        return word_address_stretch(targets, row.split_at(width).0);
    }
    if before <= width {
        return plain(width - before + 1);
    }
    made_stretch(behind_made(painted.makers, before - width - 1))
}

fn word_address_stretch<'a>(targets: &Targets, digits: &[u8]) -> Stretch<'a> {
    match line_at(targets, digits) {
        Some(line) => Stretch {
            width: digits.len(),
            paint: Paint::StyledLink(Style::Grey, Place::Line(line)),
        },
        None => styled(digits.len(), Style::Grey),
    }
}

/// The makers of the digits behind so many.
fn behind_made(makers: &[u32], before: usize) -> &[u32] {
    makers.split_at(before.min(makers.len())).1
}

/// The digits that have one maker with the first lead to it.
fn made_stretch<'a>(makers: &[u32]) -> Stretch<'a> {
    let Some(line) = makers.first() else {
        return plain(usize::MAX);
    };
    let width = same_length(makers, *line);
    if *line == 0 {
        return plain(width);
    }
    Stretch {
        width,
        paint: Paint::Linked(Place::Line(*line)),
    }
}

/// How many lines there are before another one than this.
fn same_length(makers: &[u32], line: u32) -> usize {
    for (at, maker) in makers.iter().enumerate() {
        if *maker != line {
            return at;
        }
    }
    makers.len()
}

/// The first line that has a row at the address of a word.
fn line_at(targets: &Targets, address: &[u8]) -> Option<u32> {
    targets.line_of_word(number_in(address)?)
}

/// A line's number leads to the line; the letters behind it are flags.
fn flag_stretch<'a>(row: &[u8], before: usize) -> Stretch<'a> {
    if row.ends_with(b"lines") || !begins_with_digit(row) {
        return plain(row.len());
    }
    let digits = length_until_blank(row);
    if before == 0 {
        return number_stretch(row.split_at(digits).0);
    }
    if before == digits {
        return plain(1);
    }
    styled(row.len(), Style::Flag)
}

/// A symbol and each number lead to lines; the value is grey.
fn symbol_stretch<'a>(row: &[u8], before: usize) -> Stretch<'a> {
    let rest = behind(row, before);
    if before < BEFORE_VALUE {
        return name_stretch(rest);
    }
    if before < BEFORE_LINES {
        return styled(BEFORE_LINES - before, Style::Grey);
    }
    if begins_with_digit(rest) {
        return number_stretch(rest.split_at(length_until_blank(rest)).0);
    }
    plain(blank_length(rest))
}

/// The flags, the address, the code, the number and the line.
fn listing_stretch<'a>(targets: &Targets, painted: &PaintedRow<'a>, before: usize) -> Stretch<'a> {
    if before >= BEFORE_LINE {
        let passed = before - BEFORE_LINE;
        return meant_stretch(line_stretch(painted, passed), painted.meant, passed);
    }
    let rest = behind(painted.text, before);
    let blanks = blank_length(rest);
    if blanks > 0 {
        return plain(blanks.min(BEFORE_LINE - before));
    }
    front_stretch(targets, painted, rest, before)
}

/// A word of a row before the line: flags, an address, a code, or a number, which leads to the line itself.
fn front_stretch<'a>(
    targets: &Targets,
    painted: &PaintedRow<'_>,
    rest: &[u8],
    before: usize,
) -> Stretch<'a> {
    let length = length_until_blank(rest);
    if before < BEFORE_ADDRESS {
        return styled(length, Style::Flag);
    }
    if before < BEFORE_CODE {
        return address_stretch(targets, painted, rest.split_at(length).0);
    }
    if before < BEFORE_NUMBER {
        return code_stretch(painted, before);
    }
    number_stretch(rest.split_at(length).0)
}

/// An address leads to its word where that begins, and is grey where it comes again. In a row without a code, as of an ORG, it is grey too where a word
/// is made there: that begins in another row.
fn address_stretch<'a>(targets: &Targets, painted: &PaintedRow<'_>, digits: &[u8]) -> Stretch<'a> {
    if !painted.begins_word {
        return styled(digits.len(), Style::Grey);
    }
    let paint = match number_in(digits) {
        Some(word) if has_code(painted.text) => Paint::Linked(Place::Word(word)),
        Some(word) if targets.has_word(word) => Paint::StyledLink(Style::Grey, Place::Word(word)),
        _ => Paint::Plain,
    };
    Stretch {
        width: digits.len(),
        paint,
    }
}

/// Whether a row of the listing has an address.
pub fn has_address(row: &[u8]) -> bool {
    match row.get(BEFORE_ADDRESS) {
        Some(digit) => digit.is_ascii_digit(),
        None => false,
    }
}

/// Whether a row of the listing has a code.
pub fn has_code(row: &[u8]) -> bool {
    let front = row.split_at(BEFORE_NUMBER.min(row.len())).0;
    let code = behind(front, BEFORE_CODE);
    blank_length(code) < code.len()
}

/// A part of an instruction's code: its fields, or an address. Codes of words and of fields have no such parts.
fn code_stretch<'a>(painted: &PaintedRow<'_>, before: usize) -> Stretch<'a> {
    match painted.form {
        Some(form) => field_stretch(form, before.saturating_sub(BEFORE_CODE)),
        None => plain(BEFORE_NUMBER.saturating_sub(before)),
    }
}

/// The digits of a code that are of one field with the digit at a column.
fn field_stretch<'a>(form: RowForm<'_>, at: usize) -> Stretch<'a> {
    let letters = behind(form.code, at);
    let style = match letters.first() {
        Some(letter) => style_of(*letter),
        None => return plain(1),
    };
    let width = field_width(letters, style);
    match style {
        Some(style) => styled(width, style),
        None => plain(width),
    }
}

/// How many letters a text begins with that have this style.
fn field_width(letters: &[u8], style: Option<Style>) -> usize {
    for (at, letter) in letters.iter().enumerate() {
        if style_of(*letter) != style {
            return at;
        }
    }
    letters.len()
}

/// How the digits look for which a letter stands; None: as they are.
pub fn style_of(letter: u8) -> Option<Style> {
    match letter {
        b'i' | b'd' => Some(Style::FieldI),
        b'j' => Some(Style::FieldJ),
        b'k' => Some(Style::FieldK),
        b'K' | b'n' | b'm' | b'c' => Some(Style::Constant),
        _ => None,
    }
}

/// A part of a line: a symbol that it defines leads to the cross-reference, one that it reads to its definition.
fn line_stretch<'a>(painted: &PaintedRow<'a>, before: usize) -> Stretch<'a> {
    let line = behind(painted.text, BEFORE_LINE);
    let rest = behind(line, before);
    if line.starts_with(b"*") || painted.look == LineLook::Skipped {
        return styled(rest.len(), Style::Comment);
    }
    let blanks = blank_length(rest);
    if blanks > 0 {
        return plain(blanks);
    }
    if before >= painted.fields.operands_end {
        return styled(rest.len(), Style::Comment);
    }
    word_in_line(painted, rest, before)
}

/// A stretch of a line behind so many of its characters: where it is meant, up to the end of that, with a wavy line; else up to where that begins.
/// A link is never cut.
fn meant_stretch<'a>(stretch: Stretch<'a>, meant: &[MeantColumns], before: usize) -> Stretch<'a> {
    let mut width = stretch.width;
    for columns in meant {
        if columns.has(before) {
            return Stretch {
                width: cut(stretch, columns.behind.saturating_sub(before)),
                paint: meant_paint(stretch.paint),
            };
        }
        if before < columns.before {
            width = width.min(cut(stretch, columns.before - before));
        }
    }
    Stretch {
        width,
        paint: stretch.paint,
    }
}

/// The width of a stretch that is cut to so many characters, if it isn't a link.
fn cut(stretch: Stretch<'_>, width: usize) -> usize {
    match stretch.paint {
        Paint::Plain | Paint::Styled(_) | Paint::Titled(_) => stretch.width.min(width),
        _ => stretch.width,
    }
}

/// How a part is shown that is meant.
fn meant_paint<'a>(paint: Paint<'a>) -> Paint<'a> {
    match paint {
        Paint::Plain | Paint::Styled(_) | Paint::Titled(_) => Paint::Styled(Style::Meant),
        Paint::Linked(place) | Paint::StyledLink(_, place) => {
            Paint::StyledLink(Style::Meant, place)
        }
        Paint::Name | Paint::StyledName(_) => Paint::StyledName(Style::Meant),
    }
}

/// A word of a line before its comment.
fn word_in_line<'a>(painted: &PaintedRow<'a>, rest: &[u8], before: usize) -> Stretch<'a> {
    if before < painted.fields.location_end {
        return location_stretch(rest.split_at(length_until_blank(rest)).0);
    }
    if before < painted.fields.operation_end {
        let passed = before.saturating_sub(painted.fields.operation);
        return operation_stretch(painted.form, passed, length_until_blank(rest));
    }
    if let Some(block) = block_in(painted, rest, before) {
        return block;
    }
    let stretch = name_stretch(rest);
    let word = match stretch.paint {
        Paint::Name => rest.split_at(stretch.width.min(rest.len())).0,
        _ => &[],
    };
    hued(stretch, painted, word, before)
}

/// The name of a block, which USE has as its operand, leads to the block.
fn block_in<'a>(painted: &PaintedRow<'_>, rest: &[u8], before: usize) -> Option<Stretch<'a>> {
    if before != painted.fields.operands || !is_use(painted) {
        return None;
    }
    let width = symbol_length(rest);
    let name = Name::read(rest.split_at(width).0)?;
    Some(Stretch {
        width,
        paint: Paint::Linked(Place::Block(name)),
    })
}

/// Whether the operation of a row is USE.
fn is_use(painted: &PaintedRow<'_>) -> bool {
    let line = behind(painted.text, BEFORE_LINE);
    let operation = line
        .split_at(painted.fields.operation_end.min(line.len()))
        .0;
    behind(operation, painted.fields.operation).eq_ignore_ascii_case(b"USE")
}

/// How many characters a literal has with which operands end. Behind m there may be a comma and d.
fn literal_length(form: Option<RowForm<'_>>, operands: &[u8]) -> usize {
    let has_more = match form {
        Some(form) => form.operands.contains(&b'm'),
        None => false,
    };
    for (at, character) in operands.iter().enumerate() {
        if has_more && *character == b',' {
            return at;
        }
    }
    operands.len()
}

/// The word of a literal, where an operand is one: its address is K, m or c of the code. Where the row has a flag it may be another number.
fn literal_place(painted: &PaintedRow<'_>, word: &[u8]) -> Option<Place> {
    let form = painted.form?;
    if !word.starts_with(b"=") || !painted.text.starts_with(b" ") {
        return None;
    }
    let mut address: u32 = 0;
    for (letter, digit) in form.code.iter().zip(behind(painted.text, BEFORE_CODE)) {
        if matches!(letter, b'K' | b'm' | b'c') && digit.is_ascii_digit() {
            address = address
                .checked_mul(10)?
                .checked_add(u32::from(*digit & 15))?;
        }
    }
    Some(Place::Word(address))
}

/// A part of the operands that begins with a word, if it is one, and that looks as the digits of the code that it makes.
fn hued<'a>(
    stretch: Stretch<'a>,
    painted: &PaintedRow<'a>,
    word: &[u8],
    before: usize,
) -> Stretch<'a> {
    if let Some(place) = literal_place(painted, word) {
        let rest = behind(behind(painted.text, BEFORE_LINE), before);
        let left = painted.fields.operands_end.saturating_sub(before);
        return Stretch {
            width: literal_length(painted.form, rest.split_at(left.min(rest.len())).0),
            paint: Paint::StyledLink(Style::Constant, place),
        };
    }
    match style_at(painted, word, before) {
        Some(style) => Stretch {
            width: stretch.width,
            paint: match stretch.paint {
                Paint::Name => Paint::StyledName(style),
                _ => Paint::Styled(style),
            },
        },
        None => stretch,
    }
}

/// How a word of the operands looks that begins behind so many characters of the line.
fn style_at(painted: &PaintedRow<'_>, word: &[u8], before: usize) -> Option<Style> {
    let form = painted.form?;
    if word.is_empty() {
        return None;
    }
    let operands = behind(behind(painted.text, BEFORE_LINE), painted.fields.operands);
    let passed = before.saturating_sub(painted.fields.operands);
    operand_style(form, operands.split_at(passed.min(operands.len())).0, word)
}

/// An operation, with what it does as its title, and behind that the digit of its register. So many of its characters are passed, so many are left.
fn operation_stretch<'a>(form: Option<RowForm<'a>>, passed: usize, left: usize) -> Stretch<'a> {
    let Some(form) = form else {
        return plain(left);
    };
    match register_place(form.name) {
        Some(place) if passed == place => styled(1, Style::FieldI),
        Some(place) if passed < place => titled(form, place - passed),
        _ => titled(form, left),
    }
}

/// So many characters of an operation, with what it does as their title.
fn titled<'a>(form: RowForm<'a>, width: usize) -> Stretch<'a> {
    if form.sentence.is_empty() {
        return plain(width);
    }
    Stretch {
        width,
        paint: Paint::Titled(form.sentence),
    }
}

/// A symbol in the location field leads to its row of the cross-reference.
fn location_stretch<'a>(word: &[u8]) -> Stretch<'a> {
    let paint = match Name::read(word) {
        Some(name) => Paint::Linked(Place::Symbol(name)),
        None => Paint::Plain,
    };
    Stretch {
        width: word.len(),
        paint,
    }
}

/// A symbol at the begin of a text leads to the line that defines it.
fn name_stretch<'a>(rest: &[u8]) -> Stretch<'a> {
    let length = symbol_length(rest);
    if length == 0 {
        return plain(blank_length(rest).max(1));
    }
    Stretch {
        width: length,
        paint: Paint::Name,
    }
}

/// Digits lead to the line of their number.
fn number_stretch<'a>(digits: &[u8]) -> Stretch<'a> {
    let paint = match number_in(digits) {
        Some(number) => Paint::Linked(Place::Line(number)),
        None => Paint::Plain,
    };
    Stretch {
        width: digits.len(),
        paint,
    }
}

/// The number that decimal digits write. None: they write none of a line.
fn number_in(digits: &[u8]) -> Option<u32> {
    let mut number: u32 = 0;
    for digit in digits {
        if !digit.is_ascii_digit() {
            return None;
        }
        number = number
            .checked_mul(10)?
            .checked_add(u32::from(*digit).saturating_sub(u32::from(b'0')))?;
    }
    Some(number)
}

fn plain<'a>(width: usize) -> Stretch<'a> {
    Stretch {
        width,
        paint: Paint::Plain,
    }
}

fn styled<'a>(width: usize, style: Style) -> Stretch<'a> {
    Stretch {
        width,
        paint: Paint::Styled(style),
    }
}

fn begins_with_digit(text: &[u8]) -> bool {
    match text.first() {
        Some(character) => character.is_ascii_digit(),
        None => false,
    }
}

/// How many characters stand before the first blank.
fn length_until_blank(text: &[u8]) -> usize
    ensures { result ≤ length text.now }
{
    for (at, character) in text.iter().enumerate() {
        if *character == b' ' {
            return at;
        }
    }
    text.len()
}

/// How many blanks a text begins with.
fn blank_length(text: &[u8]) -> usize
    ensures { result ≤ length text.now }
{
    for (at, character) in text.iter().enumerate() {
        if *character != b' ' {
            return at;
        }
    }
    text.len()
}

/// How many characters of a symbol a text begins with.
fn symbol_length(text: &[u8]) -> usize
    ensures { result ≤ length text.now }
{
    for (at, character) in text.iter().enumerate() {
        if !(character.is_ascii_alphanumeric() || *character == b'.' || *character == b'=') {
            return at;
        }
    }
    text.len()
}

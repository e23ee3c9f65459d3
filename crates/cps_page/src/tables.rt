//! Tables beside the texts: the blocks of memory, and the forms of instructions. They are notes.
ghost use Rattle.std.specs.Prelude.{◌≡◌, ◌≤◌, [], ◌∷◌, OnOk, length};
ghost use Rattle.cps_markup.specs.Links.{Leads};
ghost use Rattle.cps_markup.specs.Code.Adding.{Adds};
ghost use Rattle.cps_page.specs.Code.Making.{blocks_among};

use crate::beside::{Block, BlockName, Form};
use cps_list::{fill_columns, push_decimal};
use cps_markup::{Place, Style, Targets, push_note, push_note_at};
use cps_text::{Name, push_octal};
use std::alloc::{AllocError, Global};
use std::cmp::Ordering;

/// The columns before an address, before a number of words and before a bar.
const BEFORE_ADDRESS: usize = 10;

const BEFORE_WORDS: usize = 20;

const BEFORE_BAR: usize = 34;

/// How many columns the bar of the whole memory has.
const BAR_COLUMNS: u64 = 48;

const ADDRESS_DIGITS: u8 = 6;

/// The columns of a form before its operands, before its code, before its number and before what it does.
const BEFORE_OPERANDS: usize = 7;

const BEFORE_CODE: usize = 18;

const BEFORE_COUNT: usize = 30;

const BEFORE_SENTENCE: usize = 39;

/// Appends the table of blocks: where they stand, how many words they have, and a bar with `#` for words that are filled and `-` for words that are only
/// reserved. Each named one is a place.
pub fn push_blocks(
    alloc: Global,
    page: &mut Vec<u8>,
    targets: &Targets,
    blocks: &[Block],
) -> Result<(), AllocError>
    ensures { OnOk result (Adds (Leads targets.now) [] (blocks_among targets.now.blocks.items) page.old.items page.new.items) }
{
    let end = end_of(blocks);
    let mut rest = blocks;
    for name in &targets.blocks {
        let (others, named) = rest.split_at(count_before(rest, *name));
        let memory = Memory { targets, end };
        push_others(alloc, page, &memory, others)?;
        let (block, behind) = named.split_at(named.len().min(1));
        push_named(alloc, page, &memory, *name, block)?;
        rest = behind;
    }
    push_others(alloc, page, &Memory { targets, end }, rest)
}

/// The memory up to the end of all blocks.
#[derive(Clone, Copy)]
struct Memory<'a> {
    targets: &'a Targets,
    end: u64,
}

/// How many blocks stand before the one of a name; none where there is none of it.
fn count_before(blocks: &[Block], name: Name) -> usize
    ensures { result ≤ length blocks.now }
{
    for (at, block) in blocks.iter().enumerate() {
        match block.name {
            BlockName::Named(other) if other == name => return at,
            _ => {}
        }
    }
    0
}

/// Blocks that are no place.
fn push_others(
    alloc: Global,
    page: &mut Vec<u8>,
    memory: &Memory<'_>,
    blocks: &[Block],
) -> Result<(), AllocError>
    ensures { OnOk result (Adds (Leads memory.now.targets.now) [] [] page.old.items page.new.items) }
{
    for block in blocks {
        let row = block_row(alloc, memory, block)?;
        push_note(page, memory.targets, Style::Table, &row)?;
    }
    Ok(())
}

/// The block of a name, if there is one.
fn push_named(
    alloc: Global,
    page: &mut Vec<u8>,
    memory: &Memory<'_>,
    name: Name,
    blocks: &[Block],
) -> Result<(), AllocError>
    ensures { OnOk result (Adds (Leads memory.now.targets.now) [] (Place.Block name ∷ []) page.old.items page.new.items) }
{
    let row = match blocks.first() {
        Some(block) => block_row(alloc, memory, block)?,
        None => Vec::new(alloc),
    };
    push_note_at(page, memory.targets, Place::Block(name), &row)
}

/// The address behind all blocks.
fn end_of(blocks: &[Block]) -> u64 {
    let mut end: u64 = 0;
    for block in blocks {
        end = end.max(block.address.saturating_add(block.words));
    }
    end
}

fn block_row(alloc: Global, memory: &Memory<'_>, block: &Block) -> Result<Vec<u8>, AllocError> {
    let mut row = Vec::new(alloc);
    row.extend_from_slice(block.name.text())?;
    fill_columns(&mut row, 0, BEFORE_ADDRESS)?;
    push_octal(&mut row, block.address, ADDRESS_DIGITS)?;
    fill_columns(&mut row, 0, BEFORE_WORDS)?;
    push_decimal(&mut row, block.words)?;
    row.extend_from_slice(words_name(block.words))?;
    fill_columns(&mut row, 0, BEFORE_BAR)?;
    push_bar(&mut row, memory, block)?;
    Ok(row)
}

fn words_name(count: u64) -> &'static [u8] {
    if count == 1 { b" word" } else { b" words" }
}

/// Appends a bar of the memory, with the words of a block.
fn push_bar(row: &mut Vec<u8>, memory: &Memory<'_>, block: &Block) -> Result<(), AllocError> {
    let behind = block.address.saturating_add(block.words);
    for column in 0..BAR_COLUMNS {
        let first = share(column, memory.end);
        let next = share(column + 1, memory.end).max(first.saturating_add(1));
        let mark = bar_mark(memory.targets, first.max(block.address), next.min(behind));
        row.push(mark)?;
    }
    Ok(())
}

/// What shows the words from an address on and before another one.
fn bar_mark(targets: &Targets, from: u64, end: u64) -> u8 {
    if from >= end {
        b'.'
    } else if targets.has_words(octal_digits(from), octal_digits(end)) {
        b'#'
    } else {
        b'-'
    }
}

/// The octal digits of an address as if they were decimal.
fn octal_digits(address: u64) -> u32 {
    let mut digits: u32 = 0;
    let mut scale: u32 = 1;
    let mut rest = address;
    for _ in 0..ADDRESS_DIGITS {
        let digit = (rest % 8) as u32;
        digits = digits.saturating_add(scale.saturating_mul(digit));
        scale = scale.saturating_mul(10);
        rest /= 8;
    }
    digits
}

/// The address at which a column of the bar begins.
fn share(column: u64, end: u64) -> u64 {
    column.saturating_mul(end) / BAR_COLUMNS
}

/// Appends the table of forms: operands, code, how often each occurs, and what it does.
pub fn push_forms(
    alloc: Global,
    page: &mut Vec<u8>,
    targets: &Targets,
    forms: &[Form],
) -> Result<(), AllocError>
    ensures { OnOk result (Adds (Leads targets.now) [] [] page.old.items page.new.items) }
{
    let mut last = None;
    for _ in 0..forms.len() {
        let Some(form) = next_form(forms, last) else {
            return Ok(());
        };
        let row = form_row(alloc, form)?;
        push_note(page, targets, Style::Table, &row)?;
        last = Some(form);
    }
    Ok(())
}

/// The first form behind another one, by name and code.
fn next_form<'a>(forms: &'a [Form], last: Option<&Form>) -> Option<&'a Form> {
    let mut next: Option<&'a Form> = None;
    for form in forms {
        let is_left = match last {
            Some(last) => is_before(last, form),
            None => true,
        } && form.count > 0;
        let is_first = match next {
            Some(next) => is_before(form, next),
            None => true,
        };
        if is_left && is_first {
            next = Some(form);
        }
    }
    next
}

fn is_before(form: &Form, other: &Form) -> bool {
    let names = form.name.as_slice().cmp(other.name.as_slice());
    match names.then(form.code.as_slice().cmp(other.code.as_slice())) {
        Ordering::Less => true,
        Ordering::Equal | Ordering::Greater => false,
    }
}

fn form_row(alloc: Global, form: &Form) -> Result<Vec<u8>, AllocError> {
    let mut row = Vec::new(alloc);
    row.extend_from_slice(&form.name)?;
    fill_columns(&mut row, 0, BEFORE_OPERANDS)?;
    row.extend_from_slice(&form.operands)?;
    fill_columns(&mut row, 0, BEFORE_CODE)?;
    row.extend_from_slice(&form.code)?;
    fill_columns(&mut row, 0, BEFORE_COUNT)?;
    push_decimal(&mut row, u64::from(form.count))?;
    fill_columns(&mut row, 0, BEFORE_SENTENCE)?;
    row.extend_from_slice(&form.sentence)?;
    Ok(row)
}

//! The cross-reference.
ghost use Rattle.std.specs.Prelude.{◌≡◌, ◌++◌, ◌<◌, ℕ, List, [], OnOk, length};
ghost use Rattle.std.specs.List.{prefix_len};
ghost use Rattle.std.specs.List.Sorted.{IsSortedByKey};
ghost use Rattle.cps_expr.specs.Value.{same_name};
ghost use Rattle.cps_text.specs.Name.{name_text};
ghost use Rattle.cps_list.specs.Columns.{at_left};
ghost use Rattle.cps_list.specs.Code.Front.{IsFront, with_text};
ghost use Rattle.cps_list.specs.Symbols as texts;

use crate::columns::{BEFORE_LINE, push_decimal};
use crate::front::{write_octal_at, write_text_at};
use crate::mention::Mention;
use cps_code::complement;
use cps_expr::Value;
use cps_final::{Finals, Gathered};
use cps_text::{Name, push_octal};
use std::alloc::AllocError;

/// The columns before the value and before the lines.
const BEFORE_VALUE: usize = 9;

const BEFORE_LINES: usize = 30;

/// The octal digits of a value.
const VALUE_DIGITS: u8 = 20;

/// The cross-reference of symbols that are mentioned.
pub fn push_symbols(
    text: &mut Vec<u8>,
    mentions: Vec<Mention>,
    finals: &Finals,
) -> Result<(), AllocError>
    ensures { OnOk result (text.new.items ≡ text.old.items ++ texts.symbol_rows (⟦<Finals as Gathered>⟧.gathered finals.now) mentions.items) }
{
    let mut mentions = mentions;
    mentions.sort_by_key(|mention| mention.name)?;
    push_rows(text, &mentions, finals)?;
    Ok(())
}

/// The rows of symbols that are mentioned, where their mentions stand in the order of the symbols.
fn push_rows(text: &mut Vec<u8>, mentions: &[Mention], finals: &Finals) -> Result<(), AllocError>
    requires { IsSortedByKey (λ mention. mention.name) texts.name_order mentions.now }
    ensures { OnOk result (text.new.items ≡ text.old.items ++ texts.symbol_rows (⟦<Finals as Gathered>⟧.gathered finals.now) mentions.now) }
{
    let mut rest = mentions;
    while let Some(first) = rest.first() {
        let (group, behind) = rest.split_at(group_length(first.name, rest));
        push_symbol(text, finals, first.name, group)?;
        rest = behind;
    }
    Ok(())
}

/// How many of the first mentions are of a symbol.
fn group_length(name: Name, mentions: &[Mention]) -> usize
    ensures { result ≡ prefix_len (λ mention. same_name mention.name name) mentions.now }
{
    for (count, mention) in mentions.iter().enumerate() {
        if mention.name != name {
            return count;
        }
    }
    mentions.len()
}

/// The row of a symbol in the cross-reference, from its mentions.
pub fn push_symbol(
    text: &mut Vec<u8>,
    finals: &Finals,
    name: Name,
    mentions: &[Mention],
) -> Result<(), AllocError>
    ensures { OnOk result (text.new.items ≡ text.old.items ++ texts.row_of (⟦<Finals as Gathered>⟧.gathered finals.now) name mentions.now) }
{
    push_front(text, name, symbol_value(finals, name))?;
    push_lines(text, mentions)?;
    text.push(b'\n')?;
    Ok(())
}

/// The columns before the lines.
fn push_front(text: &mut Vec<u8>, name: Name, value: Option<Value>) -> Result<(), AllocError>
    ensures { OnOk result (text.new.items ≡ text.old.items ++ at_left 30 (with_text (name_text name) 10 (texts.value_text value))) }
{
    let mut front = [b' '; BEFORE_LINE];
    write_symbol(&mut front, name, value);
    text.extend_from_slice(&front[..BEFORE_LINES])?;
    Ok(())
}

/// Writes a symbol and its value over blanks.
#[inline(always)]
fn write_symbol(front: &mut [u8], name: Name, value: Option<Value>)
    requires columns { length front.old ≡ 44 }
    requires blank { IsFront front.old [] 0 }
    ensures { IsFront front.new (with_text (name_text name) 10 (texts.value_text value)) 29 }
{
    write_text_at(front, 0, name.text());
    write_value(front, value);
}

/// Writes the value of a symbol behind its name, or that there is none.
#[inline(always)]
fn write_value(front: &mut [u8], value: Option<Value>)
    requires { length front.old ≡ 44 }
    ensures columns { length front.new ≡ 44 }
    ensures front { (begun : List ℕ) → IsFront front.old begun 9 → IsFront front.new (with_text begun 10 (texts.value_text value)) 29 }
{
    match value {
        Some(value) => write_octal_at(front, BEFORE_VALUE, complement(value.offset), VALUE_DIGITS),
        None => write_text_at(front, BEFORE_VALUE, b"undefined"),
    }
}

/// The final value of a symbol: the last that SET gave, or that of the label.
pub fn symbol_value(finals: &Finals, name: Name) -> Option<Value>
    ensures { result ≡ texts.value_of (⟦<Finals as Gathered>⟧.gathered finals.now) name }
{
    match finals.setting(name) {
        Some(value) => Some(value),
        None => finals.label(name),
    }
}

/// A value as the cross-reference has it: 20 octal digits, or `undefined` where there is none.
pub fn push_value(text: &mut Vec<u8>, value: Option<Value>) -> Result<(), AllocError>
    ensures { OnOk result (text.new.items ≡ text.old.items ++ texts.value_text value) }
{
    match value {
        Some(value) => push_octal(text, complement(value.offset), VALUE_DIGITS),
        None => text.extend_from_slice(b"undefined"),
    }
}

/// The line that defines a symbol, and those that read it.
fn push_lines(text: &mut Vec<u8>, mentions: &[Mention]) -> Result<(), AllocError>
    ensures { OnOk result (text.new.items ≡ text.old.items ++ texts.lines_text mentions.now) }
{
    push_decimal(text, u64::from(defining_line(mentions)))?;
    for mention in mentions {
        push_reading(text, mention)?;
    }
    Ok(())
}

/// The first line that defines a symbol, 0 where none does.
fn defining_line(mentions: &[Mention]) -> u32
    ensures { result ≡ texts.defining_line mentions.now }
{
    for mention in mentions {
        if mention.is_definition {
            return mention.line;
        }
    }
    0
}

/// A line that reads a symbol, behind a blank.
fn push_reading(text: &mut Vec<u8>, mention: &Mention) -> Result<(), AllocError>
    ensures { OnOk result (text.new.items ≡ text.old.items ++ texts.reading_text mention.now) }
{
    if mention.is_definition {
        return Ok(());
    }
    text.push(b' ')?;
    push_decimal(text, u64::from(mention.line))
}

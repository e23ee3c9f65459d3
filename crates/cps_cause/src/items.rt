//! Data items that can't be read: A.

use crate::cause::Cause;
use crate::findings::Findings;
use crate::operand_fault::OperandFault;
use crate::operands::PlacedText;
use crate::statement::FlaggedStatement;
use cps_expr::read_item;
use cps_text::{CP_CHARACTERS, TextItem};
use std::alloc::AllocError;

/// The first text of DATA that is no data item, or the count of one behind which something stands.
pub fn find_items(
    findings: &mut Findings,
    statement: &FlaggedStatement<'_>,
) -> Result<(), AllocError> {
    let tail = PlacedText {
        text: statement.card.tail(),
        before: statement.card.before_tail,
        has_comma: false,
    };
    if tail.text.is_empty() {
        return Ok(());
    }
    let mut from: usize = 0;
    for _turn in 0..tail.text.len() {
        let rest = tail.cut(from, tail.text.len());
        match item_end(statement, rest.text) {
            None => return find_item(findings, &rest),
            Some(len) => from = from.saturating_add(len).saturating_add(1),
        }
    }
    Ok(())
}

/// What is wrong with the text in front, which is no data item.
fn find_item(findings: &mut Findings, rest: &PlacedText<'_>) -> Result<(), AllocError> {
    match count_in_front(rest.text) {
        Some(count) => {
            let columns = rest.cut(0, count.columns).columns();
            findings.add(
                Cause::Operand(OperandFault::CountedItem(count.characters)),
                columns,
            )
        }
        None => findings.add(
            Cause::Operand(OperandFault::Item),
            up_to_comma(rest).columns(),
        ),
    }
}

/// The count in front of a data item of characters.
#[derive(Clone, Copy)]
struct ItemCount {
    /// The columns of the count and its letter.
    columns: usize,
    characters: usize,
}

/// The count of the item of characters that a text begins with; None where it begins with none that has a count.
fn count_in_front(text: &[u8]) -> Option<ItemCount> {
    let item = TextItem::read(text, CP_CHARACTERS)?;
    if !text.first()?.is_ascii_digit() {
        return None;
    }
    let digits = text.iter().take_while(|byte| byte.is_ascii_digit()).count();
    Some(ItemCount {
        columns: digits.saturating_add(1),
        characters: item.count,
    })
}

/// How many characters the item in front has, if a comma, a blank or the end stands behind it.
fn item_end(statement: &FlaggedStatement<'_>, text: &[u8]) -> Option<usize> {
    let control = statement.control;
    let (_, len) = read_item(text, control.radix, control.machine)?;
    match text.get(len).copied() {
        None | Some(b',' | b' ') => Some(len),
        Some(_) => None,
    }
}

/// A text up to its first comma or blank.
fn up_to_comma<'a>(part: &PlacedText<'a>) -> PlacedText<'a> {
    let end = part
        .text
        .iter()
        .position(|byte| matches!(*byte, b',' | b' '));
    match end {
        Some(end) => {
            let mut front = part.cut(0, end);
            front.has_comma = part.text.get(end).copied() == Some(b',');
            front
        }
        None => *part,
    }
}

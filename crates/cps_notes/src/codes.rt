//! What is told of the codes in the rows of the listing: their forms, where they stand in their words, and the operands of later rows.

use crate::forms::FormLister;
use crate::word_operands::WordOperands;
use cps_expr::Machine;
use cps_final::Row;
use cps_list::View;
use cps_page::{CodeNote, Form, OperandColumns};
use cps_state::{Item, Made, Trace, WORD, word_bits};
use std::alloc::{AllocError, Global};

/// The bits of an octal digit.
const DIGIT_BITS: u8 = 3;

/// The codes of a source, as its lines are gone through.
#[derive(Drop)]
pub struct CodeLister {
    machine: Machine,
    forms: FormLister,
    notes: Vec<CodeNote>,
}

/// A statement, and how many rows of its line stand before its own.
#[derive(Clone, Copy)]
struct ListedItem<'a> {
    line: u32,
    before: u32,
    text: &'a [u8],
    item: &'a Item,
}

/// Where a code stands: how many rows of its line stand before its own, and how many bits of its word.
#[derive(Clone, Copy)]
struct CodePlace {
    rows: u32,
    bits: u8,
}

impl CodeLister {
    /// Of no line of a source.
    pub fn of<V: View>(alloc: Global, view: &V) -> CodeLister {
        CodeLister {
            machine: view.finals().machine(),
            forms: FormLister::of(alloc, view),
            notes: Vec::new(alloc),
        }
    }

    /// The forms, and what is told of the codes.
    pub fn into_parts(self) -> (Vec<Form>, Vec<CodeNote>) {
        let CodeLister {
            machine: _,
            forms,
            notes,
        } = self;
        (forms.into_forms(), notes)
    }

    /// Takes all lines, by what each does in pass one.
    pub fn take_lines<V: View>(&mut self, view: &V, traces: &[Trace]) -> Result<(), AllocError> {
        let mut number: u32 = 0;
        for trace in traces {
            number = number.saturating_add(1);
            if let (Some(line), Some(outcome)) = (view.line(number), view.outcome(number)) {
                self.take_line(number, line.bytes(), trace.items(), outcome.rows())?;
            }
        }
        Ok(())
    }

    /// Takes a line: the rows of its statements stand one after another.
    fn take_line(
        &mut self,
        number: u32,
        line: &[u8],
        items: &[Item],
        rows: &[Row],
    ) -> Result<(), AllocError> {
        let mut left = rows;
        let mut before: u32 = 0;
        for item in items {
            let text = if item.depth == 0 {
                line
            } else {
                item.text.as_slice()
            };
            let count = count_rows(&item.made);
            let (own, behind) = left.split_at(count.min(left.len()));
            let listed = ListedItem {
                line: number,
                before,
                text,
                item,
            };
            self.take_item(&listed, own)?;
            before = before.saturating_add(u32::try_from(count).unwrap_or(u32::MAX));
            left = behind;
        }
        Ok(())
    }

    /// Takes a statement: each of its contents has a row.
    fn take_item(&mut self, listed: &ListedItem<'_>, rows: &[Row]) -> Result<(), AllocError> {
        let made = &listed.item.made;
        if made.contents().is_empty() {
            return Ok(());
        }
        let mut operands = if rows.len() > 1 {
            WordOperands::of(listed.text, self.machine)
        } else {
            WordOperands::none()
        };
        let mut before = CodePlace {
            rows: listed.before,
            bits: (made.start() % WORD) as u8,
        };
        for (content, row) in made.contents().iter().zip(rows) {
            let operand = operands.take();
            self.take_row(listed, before, row, operand)?;
            before = CodePlace {
                rows: before.rows.saturating_add(1),
                bits: bits_behind(self.machine, before.bits.saturating_add(content.width())),
            };
        }
        Ok(())
    }

    /// Takes a row, whose code stands at a place.
    fn take_row(
        &mut self,
        listed: &ListedItem<'_>,
        before: CodePlace,
        row: &Row,
        operand: OperandColumns,
    ) -> Result<(), AllocError> {
        let Some(digits) = row.code.digits() else {
            return Ok(());
        };
        let note = CodeNote {
            line: listed.line,
            row: before.rows,
            form: self.forms.take(listed.text, row, digits)?,
            shift: shift_of(self.machine, before.bits, digits.count),
            operand: if row.is_later {
                operand
            } else {
                OperandColumns {
                    before: 0,
                    behind: 0,
                }
            },
        };
        if note.form.is_some() || note.shift > 0 || row.is_later {
            self.notes.push(note)?;
        }
        Ok(())
    }
}

/// How many rows the listing has of a statement.
fn count_rows(made: &Made) -> usize {
    if made.only_flags() {
        1
    } else {
        made.contents().len().max(1)
    }
}

/// How many bits of its word stand before a place behind so many bits.
fn bits_behind(machine: Machine, bits: u8) -> u8 {
    match machine {
        Machine::Cp => bits % 60,
        Machine::Pp => bits % 12,
    }
}

/// How many digits of a word stand before a code of so many digits that begins behind so many bits. Digits that go on in the next word stand in this one.
fn shift_of(machine: Machine, used: u8, digits: u8) -> u8 {
    let most = (word_bits(machine) / DIGIT_BITS).saturating_sub(digits);
    (used / DIGIT_BITS).min(most)
}

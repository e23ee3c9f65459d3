//! The forms of the instructions that occur.

use crate::manual_rows::push_forms;
use cps_expr::Machine;
use cps_final::{OctalDigits, Row};
use cps_list::View;
use cps_page::{Form, code_fields};
use cps_state::Hashing;
use cps_text::Name;
use std::alloc::{AllocError, Global};
use std::collections::HashMap;

/// The forms of instructions, as lines are gone through.
#[derive(Drop)]
pub struct FormLister {
    alloc: Global,
    machine: Machine,
    /// Those of all operations that occur.
    forms: Vec<Form>,
    /// Where those of an operation stand.
    known: HashMap<Name, FormRange, Hashing>,
}

/// Where the forms of an operation stand: behind so many, and up to so many.
#[derive(Clone, Copy)]
struct FormRange {
    before: usize,
    end: usize,
}

impl FormLister {
    /// Of no line of a source.
    pub fn of<V: View>(alloc: Global, view: &V) -> FormLister {
        FormLister {
            alloc,
            machine: view.finals().machine(),
            forms: Vec::new(alloc),
            known: HashMap::with_hasher(alloc, view.finals().hashing()),
        }
    }

    /// The forms.
    pub fn into_forms(self) -> Vec<Form> {
        let FormLister {
            alloc: _,
            machine: _,
            forms,
            known,
        } = self;
        drop(known);
        forms
    }

    /// Takes the code of a statement's row. It gives how many forms stand before that of its instruction, if it has one.
    pub fn take(
        &mut self,
        statement: &[u8],
        row: &Row,
        digits: OctalDigits,
    ) -> Result<Option<u32>, AllocError> {
        if row.is_later {
            return Ok(None);
        }
        let form = match (self.machine, digits.count) {
            (Machine::Cp, 5 | 10) | (Machine::Pp, 4) => self.find(statement, digits)?,
            _ => None,
        };
        if let Some(form) = form {
            self.count(form);
        }
        Ok(form)
    }

    /// One more occurrence of a form.
    fn count(&mut self, before: u32) {
        if let Some(form) = self.forms.get_mut(before as usize) {
            form.count = form.count.saturating_add(1);
        }
    }

    /// How many forms stand before that of a statement with a code.
    fn find(&mut self, statement: &[u8], code: OctalDigits) -> Result<Option<u32>, AllocError> {
        let operation = operation_in(statement);
        let Some(name) = Name::read(operation) else {
            return Ok(None);
        };
        let range = match self.known.get(&name) {
            Some(range) => *range,
            None => self.add(name, operation)?,
        };
        Ok(self.closest(range, code))
    }

    /// The form among some that has a code, and of several the first of those with the fewest fields.
    fn closest(&self, range: FormRange, code: OctalDigits) -> Option<u32> {
        let mut found = None;
        let mut most = 0;
        for at in range.before..range.end {
            let Some(form) = self.forms.get(at) else {
                return found;
            };
            if has_code(form, code) {
                let digits = count_digits(form);
                if found.is_none() || digits > most {
                    found = Some(index(at));
                    most = digits;
                }
            }
        }
        found
    }

    /// Adds an operation, and its forms, if they aren't those of another register.
    fn add(&mut self, name: Name, operation: &[u8]) -> Result<FormRange, AllocError> {
        let mut range = self.range_of(operation);
        if range.before == range.end {
            push_forms(self.alloc, &mut self.forms, self.machine, operation)?;
            range = self.range_of(operation);
        }
        self.known.insert(name, range)?;
        Ok(range)
    }

    /// Where the forms of an operation stand, which are one behind another.
    fn range_of(&self, operation: &[u8]) -> FormRange {
        let mut range = FormRange { before: 0, end: 0 };
        for (at, form) in self.forms.iter().enumerate() {
            if is_named(form, operation) {
                if range.end == 0 {
                    range.before = at;
                }
                range.end = at.saturating_add(1);
            }
        }
        range
    }
}

/// The operation of a statement that has a code.
fn operation_in(statement: &[u8]) -> &[u8] {
    let fields = code_fields(statement);
    let (front, _) = statement.split_at(fields.operation_end.min(statement.len()));
    front.split_at(fields.operation.min(front.len())).1
}

/// How many digits of a form's code are no fields.
fn count_digits(form: &Form) -> usize {
    let mut count: usize = 0;
    for letter in &form.code {
        if letter.is_ascii_digit() {
            count = count.saturating_add(1);
        }
    }
    count
}

/// Whether a code is one of a form. Each operation of a peripheral processor has one form.
fn has_code(form: &Form, code: OctalDigits) -> bool {
    if code.count == 4 {
        return true;
    }
    if form.code.len() != usize::from(code.count) {
        return false;
    }
    let mut left = code.count;
    for letter in &form.code {
        left = left.saturating_sub(1);
        if letter.is_ascii_digit() {
            let digit = (code.number >> (3 * u32::from(left.min(20)))) % 8;
            if u64::from(*letter) != digit + 48 {
                return false;
            }
        }
    }
    true
}

/// How many forms stand before one; there are no more than the tables have.
fn index(before: usize) -> u32 {
    u32::try_from(before).unwrap_or(u32::MAX)
}

/// Whether a form is one of the operation of a name.
fn is_named(form: &Form, name: &[u8]) -> bool {
    if form.name.len() != name.len() {
        return false;
    }
    for (shown, character) in form.name.iter().zip(name) {
        let is_same = match character {
            b'0'..=b'7' => *shown == b'i',
            _ => *shown == character.to_ascii_uppercase(),
        };
        if !is_same {
            return false;
        }
    }
    true
}

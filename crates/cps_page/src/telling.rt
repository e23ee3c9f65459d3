//! What is told beside the rows of a text, as these are gone through.
use crate::beside::{Beside, Cause, CodeNote, OperandColumns};
use cps_markup::{LineLook, MeantColumns, RowForm, has_code};

/// The columns of flags.
const FLAG_COLUMNS: usize = 8;

/// The columns of the listing before the address, before the code and before the line.
const BEFORE_ADDRESS: usize = 9;

const BEFORE_CODE: usize = 16;

const BEFORE_LINE: usize = 44;

/// What is told beside a text, up to a row.
#[derive(Drop)]
pub struct Telling<'a> {
    beside: &'a Beside,
    /// How many causes are told.
    told: usize,
    /// How many notes of codes are passed.
    passed: usize,
    /// The address of the last row that had one, and of the last of these that had a code, None before that.
    address: Option<u32>,
    coded: Option<u32>,
}

impl<'a> Telling<'a> {
    /// Nothing is told yet.
    pub fn of(beside: &'a Beside) -> Telling<'a> {
        Telling {
            beside,
            told: 0,
            passed: 0,
            address: None,
            coded: None,
        }
    }

    /// How many causes aren't told yet.
    pub fn left(&self) -> usize {
        self.beside.causes.len().saturating_sub(self.told)
    }

    /// The next cause of a line up to this one, or of its row: of the letters that the row has, and of its statement. It is told now.
    pub fn take_cause(&mut self, line: u32, row: Option<&[u8]>) -> Option<&'a Cause> {
        let cause = self.beside.causes.get(self.told)?;
        if cause.line > line || !is_of_row(cause, row) {
            return None;
        }
        self.told = self.told.saturating_add(1);
        Some(cause)
    }

    /// Whether a line has a cause that isn't told yet.
    pub fn has_cause(&self, line: u32) -> bool {
        match self.beside.causes.get(self.told) {
            Some(cause) => cause.line <= line,
            None => false,
        }
    }

    /// What is told of the code in a row of a line, before which so many stand. The rows before it are passed.
    pub fn code_at(&mut self, line: u32, row: u32) -> RowCode<'a> {
        let mut code = RowCode::plain();
        for _ in 0..2 {
            let Some(note) = self.beside.codes.get(self.passed) else {
                return code;
            };
            if is_behind(note, line, row) {
                return code;
            }
            if note.line == line && note.row == row {
                code = self.code(note);
            }
            self.passed = self.passed.saturating_add(1);
        }
        code
    }

    /// What causes that aren't told yet mean in a row: those of its statement. A line's own statement may have its flag on a later row.
    pub fn meant_in(&self, line: u32, row: &[u8]) -> &'a [MeantColumns] {
        match self.beside.causes.get(self.told) {
            Some(cause) if cause.line == line => {}
            _ => return &[],
        }
        let behind_told = behind(self.beside.causes.as_slice(), self.told);
        let mut count: usize = 0;
        for cause in behind_told {
            if cause.line != line || !shows(cause, row) {
                break;
            }
            count = count.saturating_add(1);
        }
        let meant = behind(self.beside.meant.as_slice(), self.told);
        meant.split_at(count.min(meant.len())).0
    }

    /// Whether a row has another address than the last that had one; where it has a code, than the last that had one too.
    pub fn takes_address(&mut self, row: &[u8]) -> bool {
        let Some(address) = address_in(row) else {
            return false;
        };
        let last = if has_code(row) {
            self.coded.replace(address)
        } else {
            self.address
        };
        self.address = Some(address);
        last != Some(address)
    }

    /// How the rows of a line look.
    pub fn look_of(&self, line: u32) -> LineLook {
        match self.beside.looks.get(line.saturating_sub(1) as usize) {
            Some(look) => *look,
            None => LineLook::Plain,
        }
    }

    fn code(&self, note: &CodeNote) -> RowCode<'a> {
        RowCode {
            form: self.form(note.form),
            shift: note.shift,
            operand: note.operand,
        }
    }

    fn form(&self, before: Option<u32>) -> Option<RowForm<'a>> {
        let form = self.beside.forms.get(before? as usize)?;
        Some(RowForm {
            name: form.name.as_slice(),
            operands: form.operands.as_slice(),
            code: form.code.as_slice(),
            sentence: form.sentence.as_slice(),
        })
    }
}

/// What is told of the code in a row.
#[derive(Clone, Copy)]
pub struct RowCode<'a> {
    /// The form of its instruction, if it has one.
    pub form: Option<RowForm<'a>>,
    /// How many digits of its word stand before it.
    pub shift: u8,
    /// Of a later row the operand that made it.
    pub operand: OperandColumns,
}

impl RowCode<'_> {
    /// Nothing.
    fn plain() -> RowCode<'static> {
        RowCode {
            form: None,
            shift: 0,
            operand: OperandColumns {
                before: 0,
                behind: 0,
            },
        }
    }
}

/// What stands behind so many of some.
fn behind<T>(all: &[T], count: usize) -> &[T] {
    all.split_at(count.min(all.len())).1
}

/// Whether the note of a code stands behind a row of a line.
fn is_behind(note: &CodeNote, line: u32, row: u32) -> bool {
    note.line > line || (note.line == line && note.row > row)
}

/// Whether a row shows the statement of a cause: a line's own, or one of its expansion that has the cause's letter.
fn shows(cause: &Cause, row: &[u8]) -> bool {
    let (front, shown) = row.split_at(BEFORE_LINE.min(row.len()));
    if cause.statement.is_empty() {
        return !front.ends_with(b"+ ") && shown.len() > 1;
    }
    front.contains(&cause.letter) && shown.starts_with(&cause.statement)
}

/// Whether a cause is one of a row, if there is one.
fn is_of_row(cause: &Cause, row: Option<&[u8]>) -> bool {
    match row {
        Some(row) => is_of(cause, row),
        None => true,
    }
}

/// Whether a row has the letter of a cause, and shows its statement. A later row of a statement shows none.
fn is_of(cause: &Cause, row: &[u8]) -> bool {
    let (flags, _) = row.split_at(FLAG_COLUMNS.min(row.len()));
    let (_, shown) = row.split_at(BEFORE_LINE.min(row.len()));
    flags.contains(&cause.letter)
        && (cause.statement.is_empty() || shown.len() < 2 || shown.starts_with(&cause.statement))
}

/// The octal address of a row, None where it has none.
fn address_in(row: &[u8]) -> Option<u32> {
    let (front, _) = row.split_at(BEFORE_CODE.min(row.len()));
    let (_, digits) = front.split_at(BEFORE_ADDRESS.min(front.len()));
    let mut address = None;
    for digit in digits {
        match digit {
            b'0'..=b'7' => {
                let before: u32 = address.unwrap_or(0);
                address = Some((before << 3) | u32::from(*digit & 7));
            }
            _ => return address,
        }
    }
    address
}

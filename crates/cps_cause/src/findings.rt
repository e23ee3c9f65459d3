//! Causes as they are found, statement by statement.
ghost use Rattle.std.specs.Prelude.{◌≤◌, length};

use crate::cause::Cause;
use crate::columns::Columns;
use crate::diagnostic::Diagnostic;
use crate::letter::Letter;
use crate::origin::Origin;
use cps_expr::Radix;
use cps_state::{Flags, Shared};
use std::alloc::{AllocError, Global};

/// A cause that comes again is looked for among so many at each of three places.
const NEAR: usize = 8;

/// The letters, in their order.
const LETTERS: [Letter; 8] = [
    Letter::A,
    Letter::D,
    Letter::E,
    Letter::L,
    Letter::O,
    Letter::T,
    Letter::U,
    Letter::V,
];

/// A statement of which causes are told.
#[derive(Drop)]
pub struct Subject {
    pub flags: Flags,
    /// Empty for a line's own statement.
    pub text: Shared<u8>,
    /// Where the text is written.
    pub origin: Origin,
    /// All of its columns that are read.
    pub columns: Columns,
    pub operation: Columns,
    /// Whether its columns are the line's.
    pub is_line: bool,
}

/// Causes as they are found, statement by statement. Each flag of a statement gets one at least, and no other letter.
#[derive(Drop)]
pub struct Findings {
    alloc: Global,
    found: Vec<Diagnostic>,
    /// Where statements show whose columns aren't the line's.
    call: Columns,
    subject: Subject,
    /// How many causes were found before those of the statement.
    before: usize,
    /// The flags of the statement that have a cause.
    explained: Flags,
    /// The place behind the cause that came last.
    behind: usize,
    /// The base of the statement's numbers.
    base: Radix,
}

impl Findings {
    /// Of a line in which the statements of its expansion show at these columns.
    pub fn new(alloc: Global, call: Columns) -> Findings {
        Findings {
            alloc,
            found: Vec::new(alloc),
            call,
            subject: Subject {
                flags: Flags::none(),
                text: Shared::empty(),
                origin: Origin::Line,
                columns: call,
                operation: call,
                is_line: true,
            },
            before: 0,
            explained: Flags::none(),
            behind: 0,
            base: Radix::Decimal,
        }
    }

    /// The next statement comes; the one before it is done with.
    pub fn begin(&mut self, subject: Subject) -> Result<(), AllocError> {
        self.close()?;
        self.subject = subject;
        self.before = self.found.len();
        self.explained = Flags::none();
        self.base = Radix::Decimal;
        Ok(())
    }

    /// The statement's numbers have this base.
    pub fn count_in(&mut self, base: Radix) {
        self.base = base;
    }

    /// Whether a cause was found for a letter of the statement.
    pub fn has_cause(&self, letter: Letter) -> bool {
        letter.is_among(self.explained)
    }

    /// Where memory is taken.
    pub fn alloc(&self) -> Global {
        self.alloc
    }

    /// Whether the statement has the flag of a letter.
    pub fn wants(&self, letter: Letter) -> bool {
        letter.is_among(self.subject.flags)
    }

    /// A cause, if the statement has its letter, at columns of the statement.
    pub fn add(&mut self, cause: Cause, within: Columns) -> Result<(), AllocError> {
        let letter = cause.letter();
        if !self.wants(letter) {
            return Ok(());
        }
        self.explained = letter.added_to(self.explained);
        let statement = self.subject.text.share()?;
        let columns = if self.subject.is_line {
            within
        } else {
            self.call
        };
        self.push(Diagnostic {
            columns,
            cause,
            within,
            statement,
            origin: self.subject.origin,
            base: self.base,
            times: 1,
        })
    }

    /// A cause of the whole statement.
    pub fn add_to_all(&mut self, cause: Cause) -> Result<(), AllocError> {
        let columns = self.subject.columns;
        self.add(cause, columns)
    }

    /// A cause that shows at the operation field.
    pub fn add_to_operation(&mut self, cause: Cause) -> Result<(), AllocError> {
        let columns = self.subject.operation;
        self.add(cause, columns)
    }

    /// Counts a cause that comes again, and puts another one where its column has it.
    fn push(&mut self, next: Diagnostic) -> Result<(), AllocError> {
        if let Some(at) = place_of_same(&self.found, self.behind, &next) {
            if let Some(found) = self.found.get_mut(at) {
                found.times = found.times.saturating_add(1);
            }
            self.behind = at.saturating_add(1);
            return Ok(());
        }
        let at = place_for(&self.found, self.before, &next);
        self.found.insert(at, next)?;
        self.behind = self.found.len();
        Ok(())
    }

    /// Each flag of the statement that has no cause gets a general one.
    fn close(&mut self) -> Result<(), AllocError> {
        for letter in LETTERS {
            if self.wants(letter) && !letter.is_among(self.explained) {
                self.add_to_all(Cause::General(letter))?;
            }
        }
        Ok(())
    }

    /// All causes.
    pub fn finish(self) -> Result<Vec<Diagnostic>, AllocError> {
        let mut findings = self;
        findings.close()?;
        let Findings { found, .. } = findings;
        Ok(found)
    }
}

/// Whether two causes are one, in one text.
fn is_same(one: &Diagnostic, other: &Diagnostic) -> bool {
    one.cause == other.cause
        && one.within == other.within
        && one.origin == other.origin
        && one.base == other.base
        && one.statement == other.statement
}

/// Where the same cause stands: behind the one that came last, as where lines are repeated, or at the front or near the end.
fn place_of_same(found: &[Diagnostic], behind: usize, next: &Diagnostic) -> Option<usize> {
    if next.statement.as_slice().is_empty() {
        return None;
    }
    match place_from(found, behind, next) {
        Some(at) => Some(at),
        None => match place_from(found, 0, next) {
            Some(at) => Some(at),
            None => place_from(found, found.len().saturating_sub(NEAR), next),
        },
    }
}

/// Where the same cause stands among the next few from a place on.
fn place_from(found: &[Diagnostic], from: usize, next: &Diagnostic) -> Option<usize> {
    let end = from.saturating_add(NEAR).min(found.len());
    for at in from..end {
        if is_same(&found[at], next) {
            return Some(at);
        }
    }
    None
}

/// Where a cause belongs among those from a place on: by its column.
fn place_for(found: &[Diagnostic], from: usize, next: &Diagnostic) -> usize
    ensures { result ≤ length found.now }
{
    for at in from..found.len() {
        if found[at].within.first > next.within.first {
            return at;
        }
    }
    found.len()
}

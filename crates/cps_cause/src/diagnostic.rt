//! A cause, and where it shows.
ghost use Rattle.std.specs.Prelude.{IfOk};
ghost use Rattle.cps_cause.specs.Sentence.{IsSentence};

use crate::cause::Cause;
use crate::columns::Columns;
use crate::origin::Origin;
use crate::places::Places;
use crate::quotation::Quotation;
use crate::wording::{Wording, push_number};
use cps_expr::Radix;
use cps_state::Shared;
use std::alloc::{AllocError, Global};

/// A cause of a line's flag, and where it shows.
pub struct Diagnostic {
    /// Where it shows in the source line.
    pub columns: Columns,
    pub cause: Cause,
    /// Where it shows in the statement, which is the line itself where no text stands here.
    pub within: Columns,
    /// The text of a statement of the line's expansion; empty for the line's own statement.
    pub statement: Shared<u8>,
    /// Where that text is written.
    pub origin: Origin,
    /// The base of the statement's numbers.
    pub base: Radix,
    /// How often an equal one comes in the line's expansion.
    pub times: u32,
}

// Written out, so that it is proved once.
impl Drop for Diagnostic {
    fn drop(self) {
        let Diagnostic {
            columns: _,
            cause: _,
            within: _,
            statement,
            origin: _,
            base: _,
            times: _,
        } = self;
        drop(statement);
    }
}

impl Diagnostic {
    /// Why there is the flag, as a sentence without its point, with what it quotes of the statement or of its source line, and in which line a
    /// statement of the line's expansion is written.
    pub fn words<P: Places>(
        &self,
        alloc: Global,
        line: &[u8],
        places: &P,
    ) -> Result<Wording, AllocError>
        ensures { IfOk result (λ words. IsSentence words) }
    {
        let statement = self.statement.as_slice();
        let written = if statement.is_empty() {
            line
        } else {
            statement
        };
        let quotation = Quotation::of(written, self.within).counting_in(self.base);
        let words = self.cause.words(alloc, quotation, places)?;
        with_line(alloc, words, places.line_of_origin(self.origin))
    }
}

/// Words with the line behind them in which a statement is written, if it is known.
fn with_line(alloc: Global, words: Wording, line: Option<u32>) -> Result<Wording, AllocError>
    requires { IsSentence words }
    ensures { IfOk result (λ more. IsSentence more) }
{
    let Some(line) = line else {
        return Ok(words);
    };
    let mut told = Wording::new(alloc);
    push_number(&mut told, b" (written in line ", i64::from(line), b")")?;
    let mut more = words;
    more.push(told.as_slice())?;
    Ok(more)
}

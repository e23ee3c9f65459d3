//! Lines that are kept for a body, with what wrote them.

use crate::macro_text::MacroText;
use crate::opening::Opening;
use crate::statement_text::{KeptText, StatementText};
use crate::stretch::Stretch;
use cps_pass::{Opened, Repeated};
use cps_state::Macro;
use std::alloc::{AllocError, Global};
use std::mem::replace;

/// Lines that are kept for a body, with what wrote them.
#[derive(Drop)]
pub struct KeptBody {
    alloc: Global,
    lines: Vec<KeptText>,
}

impl KeptBody {
    /// No line is kept. Takes no memory.
    pub fn new(alloc: Global) -> KeptBody {
        KeptBody {
            alloc,
            lines: Vec::new(alloc),
        }
    }

    /// Keeps a line behind so many others.
    pub fn keep(&mut self, count: usize, text: StatementText<'_>) -> Result<(), AllocError> {
        self.lines.truncate(count);
        self.lines.push(text.to_kept(self.alloc)?)?;
        Ok(())
    }

    /// What the statement that closes so many lines of DUP opens. They are kept no more.
    pub fn open(
        &mut self,
        count: usize,
        text: StatementText<'_>,
        opened: &Option<Opened<'_>>,
    ) -> Result<Option<Opening>, AllocError> {
        match opened {
            Some(Opened::Lines(repeated)) => self.open_lines(count, text, repeated),
            _ => Ok(None),
        }
    }

    /// So many lines, with the statement that closes them if it is one of them.
    fn open_lines(
        &mut self,
        count: usize,
        text: StatementText<'_>,
        repeated: &Repeated,
    ) -> Result<Option<Opening>, AllocError> {
        self.lines.truncate(count);
        if repeated.lines.len() > count {
            self.lines.push(text.to_kept(self.alloc)?)?;
        }
        Ok(Some(Opening {
            lines: replace(&mut self.lines, Vec::new(self.alloc)),
            times: repeated.times,
        }))
    }

    /// The macro that has these lines, by where its name is defined.
    pub fn to_macro(&self, defined: Stretch, named: &Macro) -> Result<MacroText, AllocError> {
        let local_lines = named.locals.as_slice().len();
        let count = local_lines.saturating_add(named.lines.as_slice().len());
        let mut lines = Vec::new(self.alloc);
        for kept in self.lines.iter().take(count) {
            lines.push(kept.line)?;
        }
        Ok(MacroText::new(self.alloc, defined, lines, local_lines))
    }
}

//! An expansion whose statements are gone through.

use crate::kept_body::KeptBody;
use crate::opening::Opening;
use crate::statement_text::StatementText;
use crate::treatment::Treatment;
use cps_pass::{Opened, Own, Scope};
use std::alloc::{AllocError, Global};

/// An expansion: what it has of its own, and the lines that it keeps.
#[derive(Drop)]
pub struct Expansion {
    pub scope: Scope,
    kept: KeptBody,
}

impl Expansion {
    /// Before its first statement. Takes no memory yet.
    pub fn new(alloc: Global) -> Expansion {
        Expansion {
            scope: Scope::Expansion(Own::at_start(alloc)),
            kept: KeptBody::new(alloc),
        }
    }

    /// A statement stood behind so many lines of DUP. Keeps it, if it is kept; else gives what it opens.
    pub fn keep(
        &mut self,
        count: usize,
        text: StatementText<'_>,
        opened: &Option<Opened<'_>>,
    ) -> Result<Option<Opening>, AllocError> {
        if Treatment::count_kept(&self.scope) > count {
            self.kept.keep(count, text)?;
        }
        self.kept.open(count, text, opened)
    }
}

//! The names that a source writes, with those that mean nothing and the bodies around them.
ghost use Rattle.std.specs.Prelude.{All, IfOk};
ghost use Rattle.cps_mention.specs.Mentions.{Stands};

use crate::checking::keep_standing;
use crate::mention::Mention;
use crate::mentions::find_names;
use cps_list::View;
use cps_state::Trace;
use std::alloc::{AllocError, Global};

/// The names that a source writes.
#[derive(Drop)]
pub struct WrittenNames {
    /// Those that are told.
    pub mentions: Vec<Mention>,
    /// Those that nothing done mentions. They mean nothing, but they are taken.
    pub idle: Vec<Mention>,
    /// For each line the line, from 1, of the MACRO in whose body it stands; 0: in none.
    pub macro_lines: Vec<u32>,
}

impl WrittenNames {
    /// Of a source whose lines have these traces in pass one. It takes time as `mentions_in` does.
    pub fn of<V: View>(
        alloc: Global,
        view: &V,
        traces: &[Trace],
    ) -> Result<WrittenNames, AllocError>
        ensures { IfOk result (λ names. All (Stands (V.assembly view.now).lines) names.mentions.items) }
    {
        let WrittenNames {
            mentions,
            idle,
            macro_lines,
        } = find_names(alloc, view, traces)?;
        let mentions = keep_standing(alloc, view, mentions)?;
        Ok(WrittenNames {
            mentions,
            idle,
            macro_lines,
        })
    }
}

//! A source that is assembled whole.
ghost use Rattle.std.specs.Prelude.{◌≡◌, ◌≤◌, length, IfOk};
ghost use Rattle.cps_edit.specs.Assembly.{traces_of};
ghost use Rattle.cps_edit.specs.Flagged.{flagged_lines as flagged_in};

use cps_edit::{PassOne, flagged_lines};
use cps_final::{Finals, Gather, Gathered, Outcome};
use cps_list::View;
use cps_state::{Hashing, Trace, Work};
use cps_text::Line;
use cps_text::limits::MOST_LINES;
use std::alloc::{AllocError, Global};
use std::marker::Model;

/// An assembled source: its lines, what pass two makes of each, and what stands after the last. It has at most 99,999 lines.
pub struct Source {
    lines: Vec<Line>,
    outcomes: Vec<Outcome>,
    gather: Gather,
}

// Written out, so that it is proved once.
impl Drop for Source {
    fn drop(self) {
        let Source {
            lines,
            outcomes,
            gather,
        } = self;
        drop(lines);
        drop(outcomes);
        drop(gather);
    }
}

impl Model for Source {
    ghost use Rattle.std.specs.Prelude.{List, ℕ};
    ghost use Rattle.cps_batch.specs.Code.Kept.{IsKept};

    ghost Value = { List (List ℕ) };

    ghost view = { λ source. source.lines.items };

    ghost invariant = { λ source. IsKept source.lines.items source.outcomes.items (⟦<Finals as Gathered>⟧.gathered source.gather) };
}

impl View for Source {
    ghost use Rattle.cps_edit.specs.Assembly.{assembly_of};

    ghost assembly = { λ source. assembly_of source };

    fn count(&self) -> u32 {
        self.lines.len() as u32
    }

    fn line(&self, n: u32) -> Option<&Line> {
        if n == 0 {
            return None;
        }
        self.lines.get(n as usize - 1)
    }

    fn outcome(&self, n: u32) -> Option<&Outcome> {
        if n == 0 {
            return None;
        }
        self.outcomes.get(n as usize - 1)
    }

    fn finals(&self) -> &Finals {
        &self.gather
    }

    fn open_at_end(&self) -> bool {
        self.gather.is_open_at_end()
    }
}

impl Source {
    /// Of these lines.
    pub fn of(alloc: Global, hashing: Hashing, lines: Vec<Line>) -> Result<Source, AllocError>
        requires { length lines.items ≤ MOST_LINES }
        ensures { IfOk result (λ source. source ≡ lines.items) }
    {
        let (source, traces) = Source::with_traces(alloc, hashing, lines)?;
        drop(traces);
        Ok(source)
    }

    /// Of these lines, and what each does in pass one, which the source doesn't keep.
    pub fn with_traces(
        alloc: Global,
        hashing: Hashing,
        lines: Vec<Line>,
    ) -> Result<(Source, Vec<Trace>), AllocError>
        requires { length lines.items ≤ MOST_LINES }
        ensures source { IfOk result (λ made. made.0 ≡ lines.items) }
        ensures traces { IfOk result (λ made. made.1.items ≡ traces_of lines.items) }
    {
        let mut work = Work::new();
        let one = PassOne::of(alloc, hashing, &lines, &mut work)?;
        let outcomes = one.make_outcomes(alloc, &mut work)?;
        let (traces, gather) = one.into_parts();
        let source = Source {
            lines,
            outcomes,
            gather,
        };
        Ok((source, traces))
    }

    /// The lines.
    pub fn lines(&self) -> &[Line]
        ensures { result.now ≡ self.now }
    {
        self.lines.as_slice()
    }

    /// How many lines have a flag, and one more if a range is open after the last. Takes no memory.
    pub fn flagged_lines(&self) -> u32
        ensures { result ≡ flagged_in self.now }
    {
        flagged_lines(&self.outcomes, self.open_at_end()) as u32
    }
}

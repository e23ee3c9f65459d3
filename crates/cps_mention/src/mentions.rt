//! Where a source writes names, and what they mean there.
ghost use Rattle.std.specs.Prelude.{All, IfOk};
ghost use Rattle.cps_mention.specs.Mentions.{Stands};

use crate::checking::keep_standing;
use crate::mention::Mention;
use crate::walk::SourceWalk;
use crate::written_names::WrittenNames;
use cps_list::View;
use cps_state::{Hashing, Trace};
use std::alloc::{AllocError, Global};

/// Where a source writes names, and what each means there by what the assembler did with its line: in the order of the lines and their columns. The
/// traces are those of pass one. It takes time for each line, with the statements that it stands for.
pub fn mentions_in<V: View>(
    alloc: Global,
    view: &V,
    traces: &[Trace],
) -> Result<Vec<Mention>, AllocError>
    ensures { IfOk result (λ mentions. All (Stands (V.assembly view.now).lines) mentions.items) }
{
    let WrittenNames { mentions, .. } = find_names(alloc, view, traces)?;
    keep_standing(alloc, view, mentions)
}

/// The names that a source writes, wherever they are told.
pub fn find_names<V: View>(
    alloc: Global,
    view: &V,
    traces: &[Trace],
) -> Result<WrittenNames, AllocError> {
    let mut lines = Vec::new(alloc);
    for before in 0..view.count() {
        if let Some(line) = view.line(before + 1) {
            lines.push(line.bytes())?;
        }
    }
    find_all(alloc, view.finals().hashing(), &lines, traces)
}

/// The names that a source of these lines writes.
fn find_all(
    alloc: Global,
    hashing: Hashing,
    lines: &[&[u8]],
    traces: &[Trace],
) -> Result<WrittenNames, AllocError> {
    let mut walk = SourceWalk::new(alloc, hashing, lines)?;
    let mut line: u32 = 0;
    for trace in traces {
        line = line.saturating_add(1);
        walk.pass(line, trace)?;
    }
    walk.finish(line)
}

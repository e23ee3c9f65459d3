//! Runs of lines that nothing assembles.
ghost use Rattle.std.specs.Prelude.{All, IsTrue, IfOk};
ghost use Rattle.cps_server.specs.Code.Writing.{IsIdleAmong};

use crate::first_marks::MOST_TOLD;
use crate::idle::Idle;
use crate::noted_line::NotedLine;
use std::alloc::{AllocError, Global};

/// Lines that nothing assembles, from 0, from the first through the last.
#[derive(Clone, Copy)]
pub struct IdleLines {
    pub first: u32,
    pub last: u32,
    pub idle: Idle,
}

impl IdleLines {
    /// What is told of them.
    pub fn words(self) -> &'static str {
        match self.idle {
            Idle::BehindEnd => "nothing behind END is assembled",
            Idle::Skipped | Idle::Comment | Idle::Never => "skipped",
        }
    }
}

/// Those of runs that are among so many lines.
pub fn runs_among(
    alloc: Global,
    found: &[IdleLines],
    count: usize,
) -> Result<Vec<IdleLines>, AllocError>
    ensures { IfOk result (λ runs. All (IsIdleAmong count) runs.items) }
{
    let mut runs = Vec::new(alloc);
    for lines in found {
        if stands(*lines, count) {
            runs.push(*lines)?;
        }
    }
    Ok(runs)
}

fn stands(lines: IdleLines, count: usize) -> bool
    ensures { IsTrue result → IsIdleAmong count lines }
{
    lines.first <= lines.last && (lines.last as usize) < count
}

/// The first 1,000 runs of lines that nothing assembles. A comment belongs to a run if lines of it follow.
pub fn find_runs(alloc: Global, lines: &[NotedLine]) -> Result<Vec<IdleLines>, AllocError> {
    let mut runs = Vec::new(alloc);
    let mut open: Option<IdleLines> = None;
    let mut number: u32 = 0;
    for line in lines {
        if may_turn(line.idle, open.is_some()) {
            open = goes_on(&mut runs, open, number, line.idle)?;
        }
        number = number.saturating_add(1);
    }
    close(&mut runs, open)?;
    Ok(runs)
}

/// Whether a line may begin a run, go on with one, or end one.
fn may_turn(idle: Idle, is_open: bool) -> bool {
    match idle {
        Idle::Never => is_open,
        Idle::Comment => false,
        Idle::Skipped | Idle::BehindEnd => true,
    }
}

/// The run behind a line that is no comment.
fn goes_on(
    runs: &mut Vec<IdleLines>,
    open: Option<IdleLines>,
    number: u32,
    idle: Idle,
) -> Result<Option<IdleLines>, AllocError> {
    match open {
        Some(lines) if lines.idle == idle => Ok(Some(IdleLines {
            last: number,
            ..lines
        })),
        _ => {
            close(runs, open)?;
            Ok(begun(number, idle))
        }
    }
}

fn begun(number: u32, idle: Idle) -> Option<IdleLines> {
    match idle {
        Idle::Skipped | Idle::BehindEnd => Some(IdleLines {
            first: number,
            last: number,
            idle,
        }),
        Idle::Never | Idle::Comment => None,
    }
}

fn close(runs: &mut Vec<IdleLines>, open: Option<IdleLines>) -> Result<(), AllocError> {
    if let Some(lines) = open {
        if runs.len() < MOST_TOLD {
            runs.push(lines)?;
        }
    }
    Ok(())
}

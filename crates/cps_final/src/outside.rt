//! What a run of lines asks of the state in front of it.
ghost use Rattle.std.specs.Prelude.{◌≡◌, ◌++◌, OnOk, IfOk};
ghost use Rattle.cps_final.specs.Run.{Run, empty_run, with_ask, with_asks, joined, run_of};
ghost use Rattle.cps_final.specs.Code.RunGathering.{IsOutside};

use cps_state::{Asked, Hashing, Key, Put, Trace};
use std::alloc::{AllocError, Global};
use std::collections::HashSet;

/// What lines asked so far of the state in front of them, and each key that they asked or put.
#[derive(Drop)]
pub struct OutsideAsks {
    known: HashSet<Key, Hashing>,
    asks: Vec<Asked>,
}

/// What lines that did this ask of the state in front of them, in a list without room for more.
pub fn outside_asks(
    alloc: Global,
    hashing: Hashing,
    traces: &[Trace],
) -> Result<Vec<Asked>, AllocError>
    ensures { IfOk result (λ asks. asks.items ≡ (run_of traces.now).asks) }
{
    let mut outside = OutsideAsks::new(alloc, hashing, told_count(traces))?;
    for trace in traces {
        outside.add_line(trace)?;
    }
    Ok(outside.into_asks())
}

/// How often lines asked or put a key.
fn told_count(traces: &[Trace]) -> usize {
    let mut count: usize = 0;
    for trace in traces {
        count = count.saturating_add(trace.asks().len());
        count = count.saturating_add(trace.puts().len());
    }
    count
}

impl OutsideAsks {
    /// Of no line, with room for so many keys.
    fn new(alloc: Global, hashing: Hashing, count: usize) -> Result<OutsideAsks, AllocError>
        ensures { IfOk result (λ outside. IsOutside outside empty_run) }
    {
        let known = HashSet::with_capacity_and_hasher(alloc, count, hashing)?;
        let asks = Vec::new(alloc);
        Ok(OutsideAsks { known, asks })
    }

    /// All that was asked, in a list without room for more.
    fn into_asks(self) -> Vec<Asked>
        ensures { result.items ≡ self.asks.items }
    {
        let OutsideAsks { known: _, mut asks } = self;
        asks.shrink_to_fit();
        asks
    }

    /// One line more: what it asked, it asked before it put.
    fn add_line(&mut self, trace: &Trace) -> Result<(), AllocError>
        ensures { OnOk result ((run : Run) → IsOutside self.old run → IsOutside self.new (joined run trace.now)) }
    {
        self.add_asks(trace.asks())?;
        self.add_puts(trace.puts())?;
        Ok(())
    }

    /// Those asks alone that are of keys which nothing in front of them told.
    fn add_asks(&mut self, asks: &[Asked]) -> Result<(), AllocError>
        ensures { OnOk result ((run : Run) → IsOutside self.old run → IsOutside self.new (record run { asks = with_asks run.puts run.asks asks.now })) }
    {
        for asked in asks {
            self.add_ask(asked)?;
        }
        Ok(())
    }

    fn add_ask(&mut self, asked: &Asked) -> Result<(), AllocError>
        ensures { OnOk result ((run : Run) → IsOutside self.old run → IsOutside self.new (record run { asks = with_ask run.puts run.asks asked.now })) }
    {
        if !self.known.insert(asked.key)? {
            return Ok(());
        }
        let asked = share_asked(asked)?;
        self.asks.push(asked)?;
        Ok(())
    }

    fn add_puts(&mut self, puts: &[Put]) -> Result<(), AllocError>
        ensures { OnOk result ((run : Run) → IsOutside self.old run → IsOutside self.new (record run { puts = run.puts ++ puts.now })) }
    {
        for put in puts {
            self.known.insert(put.key)?;
        }
        Ok(())
    }
}

fn share_asked(asked: &Asked) -> Result<Asked, AllocError>
    ensures { IfOk result (λ same. same ≡ asked.now) }
{
    let answer = match &asked.answer {
        Some(answer) => Some(answer.share()?),
        None => None,
    };
    Ok(Asked {
        key: asked.key,
        answer,
    })
}
